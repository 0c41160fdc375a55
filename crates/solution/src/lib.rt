// Plans: reading the routes of the plan form, and finding a stop.
#![tactic(auto)]

mod held;
mod plan;

ghost use Rattle.std.specs.Prelude.{◌≡◌, ℕ, ◌+◌, ◌≤◌, ◌<◌, length, take};
ghost use Rattle.model.specs.Lists.{sum, concat, lower, position, count, Once};
ghost use Rattle.solution.specs.Sets.{SetOf};
ghost use Rattle.solution.specs.Places.{place_of};
ghost use Rattle.model.specs.Plan.{decode, route_of, Lent, Sizes};

pub use held::hold;
pub use plan::Plan;

// The first v lengths added up. A length may be any number, and 16 of them do not wrap.
pub fn sum_lengths(plan: &[u32], v: usize) -> usize
    requires { (v ≤ 16) × (v ≤ length plan.now) }
    ensures { result ≡ sum (take v plan.now) }
{
    plan[..v].iter().map(|length| *length as usize).sum()
}

// Whether the number at the first place where the two differ is lower in a.
pub fn lower(a: &[u32], b: &[u32]) -> bool
    requires { length a.now ≡ length b.now }
    ensures { result ≡ lower a.now b.now }
{
    a < b
}

// Where route k begins, and for k = v where the unused places do.
pub fn offset(plan: &[u32], v: usize, k: usize) -> usize
    requires { (k ≤ v) × (v ≤ 16) × (v ≤ length plan.now) × (sum (take v plan.now) ≤ 64) }
    ensures { result ≡ v + sum (take k plan.now) }
{
    v + sum_lengths(plan, k)
}

// The set of the stops of a list in which none stands twice.
fn set_of(part: &[u32]) -> u64
    requires { ((s : ℕ) → 1 ≤ count s part.now → s < 64) × Once part.now }
    ensures { SetOf part.now result }
{
    let mut set: u64 = 0;
    for stop in part {
        set = stop_set::with(set, *stop);
    }
    set
}

// The first position of a stop, or the length where there is none. It goes from the end to the front and does not leave early: so the
// compiler compares several numbers at once, and no branch is guessed wrong. The answer is a number and no Option, as in the definition: `find`
// runs the routes' lengths down from it, and a stop that is nowhere is past them all.
pub fn position(part: &[u32], stop: u32) -> usize
    ensures { result ≡ position stop part.now }
{
    let mut at = part.len();
    for i in (0..part.len()).rev() {
        if part[i] == stop {
            at = i;
        }
    }
    at
}

// Where a stop is: its vehicle, and its position on that vehicle's route.
#[derive(Clone, Copy)]
pub struct Place {
    pub vehicle: usize,
    pub position: usize,
}
