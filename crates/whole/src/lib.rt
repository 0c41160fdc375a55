// Costs are f64 that hold whole numbers up to 2 ^ 53: within these limits each operation is exact.
#![tactic(auto)]

ghost use Rattle.std.specs.Prelude.{◌≡◌, ◌≤◌, ltb, eqb};
ghost use Rattle.model.specs.Whole.{exact, whole, amount, IsWhole};

// A u64 as an f64: exact up to 2 ^ 53.
pub fn of_u64(n: u64) -> f64
    requires { n ≤ exact }
    ensures { result ≡ whole n }
{
    n as f64
}

// Back to the number.
pub fn to_whole(c: f64) -> u64
    requires { IsWhole c }
    ensures { (result ≡ amount c) × (whole result ≡ c) }
{
    c as u64
}

// Whether a costs less than b.
pub fn cheaper(a: f64, b: f64) -> bool
    requires { IsWhole a × IsWhole b }
    ensures { result ≡ ltb (amount a) (amount b) }
{
    a < b
}

// Whether a and b cost the same.
pub fn same(a: f64, b: f64) -> bool
    requires { IsWhole a × IsWhole b }
    ensures { result ≡ eqb (amount a) (amount b) }
{
    a == b
}
