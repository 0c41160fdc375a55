// The columns that the program prints for a run and for a refusal.
#![tactic(auto)]

ghost use Rattle.std.specs.Prelude.{◌≡◌, ◌+◌, ◌*◌, ◌≤◌, ◌<◌, length, Ok};
ghost use Rattle.model.specs.File.{printed_stop, printed_refusal, printed};
ghost use Rattle.solution.specs.Held.{routes};
ghost use Rattle.file_columns.specs.Put.{written};
ghost use Rattle.file_printing.specs.Printing.{printed_vehicle, printed_stops, printed_totals, Priced, Prints};

use model::Totals;
use solution::Plan;

// The vehicle of a stop, or a dash where it has none.
fn put_vehicle(out: &mut [u8], at: usize, plan: &Plan, stop: u32)
    requires { at + 4 ≤ length out.old }
    ensures { out.new ≡ written out.old at (printed_vehicle (routes plan.now) stop) }
{
    match plan.find(stop) {
        Some(place) => {
            let k = place.vehicle;
            file_columns::put_number(out, at, 4, k as u64);
        }
        None => {
            file_columns::put_text(out, at, 4, b"-");
        }
    }
}

// The line of a stop: its number and its vehicle.
fn put_stop(out: &mut [u8], at: usize, plan: &Plan, stop: u32)
    requires room { at + 9 ≤ length out.old }
    requires stop_lt_n { stop < plan.now.n }
    ensures { out.new ≡ written out.old at (printed_stop (routes plan.now) stop) }
{
    file_columns::put_number(out, at, 4, stop as u64);
    put_vehicle(out, at + 4, plan, stop);
    out[at + 8] = b'\n';
}

// The lines of all stops, from the front.
fn put_stops(out: &mut [u8], plan: &Plan)
    requires { plan.now.n * 9 ≤ length out.old }
    ensures { out.new ≡ written out.old 0 (printed_stops (routes plan.now) plan.now.n) }
{
    for i in 0..plan.n {
        put_stop(out, i * 9, plan, i as u32);
    }
}

// The line of the five numbers of a run, the last of which is 1 for settled and 0 for cut.
pub fn put_totals(out: &mut [u8], at: usize, t: Totals)
    requires at_in_bounds { at + 101 ≤ length out.old }
    requires priced { Priced t }
    ensures { out.new ≡ written out.old at (printed_totals t) }
{
    file_columns::put_number(out, at, 20, whole::to_whole(t.start));
    file_columns::put_number(out, at + 20, 20, whole::to_whole(t.end));
    file_columns::put_number(out, at + 40, 20, t.rounds as u64);
    file_columns::put_number(out, at + 60, 20, t.improving as u64);
    file_columns::put_number(out, at + 80, 20, t.settled as u64);
    out[at + 100] = b'\n';
}

// What is printed for a run that answered `t` and left the plan: how many bytes it is.
pub fn print_run(t: Totals, plan: &Plan, out: &mut [u8]) -> usize
    requires room { plan.now.n * 9 + 101 ≤ length out.old }
    requires priced { Priced t }
    ensures { Prints out.old out.new result (printed plan.now.n (routes plan.now) (Ok t)) }
{
    put_stops(out, plan);
    let n = plan.n;
    put_totals(out, n * 9, t);
    n * 9 + 101
}

// What is printed for the refusal of a number: a caller may have any number, and a `Refusal` would ask for one of the table.
pub fn print_refusal(number: u32, out: &mut [u8]) -> usize
    requires { 21 ≤ length out.old }
    ensures { Prints out.old out.new result (printed_refusal number) }
{
    file_columns::put_number(out, 0, 20, number as u64);
    out[20] = b'\n';
    21
}
