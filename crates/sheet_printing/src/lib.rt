// The lines that the program prints for the answer of a single call: a cost, a plan, a cost and the counts of a walk, the numbers of a run,
// live stops and a cost, a set of stops, a change in cost, a rise in cost.
#![tactic(auto)]

ghost use Rattle.std.specs.Prelude.{◌≡◌, ◌++◌, ◌+◌, ◌*◌, ◌≤◌, ℕ, ℤ, List, [], length};
ghost use Rattle.std.proofs.Common.{lit≤};
ghost use Rattle.model.specs.File.{line};
ghost use Rattle.model.specs.Whole.{IsWhole};
ghost use Rattle.file_columns.specs.Put.{written};
ghost use Rattle.file_printing.specs.Printing.{printed_totals, Priced, Prints};
ghost use Rattle.sheet_printing.specs.Costs.{printed_cost, printed_walk, printed_standing, printed_number, printed_change};

use model::{Standing, Totals, Walk};

// What a call answers besides a plan, which is printed as a line.
pub trait Printed: Copy {
    // what is printed
    ghost text: { Self → List ℕ };

    // how many bytes that is
    ghost bytes: { ℕ };

    // the costs in it are whole numbers
    ghost Exact: { Self → Type 0 };

    // What is printed for the value alone: how many bytes it is.
    fn print(self, out: &mut [u8]) -> usize
        requires in_bounds { bytes ≤ length out.old }
        requires exact { Exact self }
        ensures prints { Prints out.old out.new result (text self) }
        ensures value { result ≡ bytes };

    // the longest is the line of a run
    ghost few: { bytes ≤ 101 };
}

// Nothing, for a call that answers no more than a plan.
impl Printed for () {
    ghost text = { λ _. [] };

    ghost bytes = { 0 };

    ghost Exact = { λ _. Unit {0} };

    ghost few = { lit≤ tt };

    fn print(self, _out: &mut [u8]) -> usize {
        0
    }
}

// The line of a cost.
impl Printed for f64 {
    ghost text = { printed_cost };

    ghost bytes = { 21 };

    ghost Exact = { IsWhole };

    ghost few = { lit≤ tt };

    fn print(self, out: &mut [u8]) -> usize {
        file_columns::put_number(out, 0, 20, whole::to_whole(self));
        out[20] = b'\n';
        21
    }
}

// The line of a rebuild: the cost, the fillings begun, the arrangements completed.
impl Printed for Walk {
    ghost text = { printed_walk };

    ghost bytes = { 61 };

    ghost Exact = { λ w. IsWhole w.cost };

    ghost few = { lit≤ tt };

    fn print(self, out: &mut [u8]) -> usize {
        file_columns::put_number(out, 0, 20, whole::to_whole(self.cost));
        file_columns::put_number(out, 20, 20, self.begun);
        file_columns::put_number(out, 40, 20, self.completed);
        out[60] = b'\n';
        61
    }
}

// The line of the numbers of a run.
impl Printed for Totals {
    ghost text = { printed_totals };

    ghost bytes = { 101 };

    ghost Exact = { Priced };

    ghost few = { lit≤ tt };

    fn print(self, out: &mut [u8]) -> usize {
        file_printing::put_totals(out, 0, self);
        101
    }
}

// The line of a set of live stops and a cost.
impl Printed for Standing {
    ghost text = { printed_standing };

    ghost bytes = { 41 };

    ghost Exact = { λ t. IsWhole t.cost };

    ghost few = { lit≤ tt };

    fn print(self, out: &mut [u8]) -> usize {
        file_columns::put_number(out, 0, 20, self.live);
        file_columns::put_number(out, 20, 20, whole::to_whole(self.cost));
        out[40] = b'\n';
        41
    }
}

// The line of a number of 64 bits: a set of stops, or a rise in cost.
impl Printed for u64 {
    ghost text = { printed_number };

    ghost bytes = { 21 };

    ghost Exact = { λ _. Unit {0} };

    ghost few = { lit≤ tt };

    fn print(self, out: &mut [u8]) -> usize {
        file_columns::put_number(out, 0, 20, self);
        out[20] = b'\n';
        21
    }
}

// The line of a change in cost.
impl Printed for i64 {
    ghost text = { printed_change };

    ghost bytes = { 21 };

    ghost Exact = { λ _. Unit {0} };

    ghost few = { lit≤ tt };

    fn print(self, out: &mut [u8]) -> usize {
        file_columns::put_signed(out, 0, self);
        out[20] = b'\n';
        21
    }
}

// A line of numbers in 14 columns each, from a position on.
fn put_list(out: &mut [u8], at: usize, list: &[u32])
    requires { at + (14 * length list.now + 1) ≤ length out.old }
    ensures { out.new ≡ written out.old at (line 14 list.now) }
{
    for (i, number) in list.iter().enumerate() {
        file_columns::put_number(out, at + 14 * i, 14, *number as u64);
    }
    out[at + 14 * list.len()] = b'\n';
}

// What is printed for a value and a plan: how many bytes it is.
pub fn print_with_list<T: Printed>(value: T, list: &[u32], out: &mut [u8]) -> usize
    requires list_in_bounds { T.bytes + (14 * length list.now + 1) ≤ length out.old }
    requires exact { T.Exact value }
    ensures { Prints out.old out.new result (T.text value ++ line 14 list.now) }
{
    let at = value.print(out);
    put_list(out, at, list);
    at + (14 * list.len() + 1)
}
