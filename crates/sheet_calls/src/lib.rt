// The public calls, made for a call sheet and their answers printed. Each function ties a call to what is printed for it by its own contract:
// one function of several would be handed the call and the definitions that it is equal to.
#![tactic(auto)]

ghost use Rattle.std.specs.Prelude.{◌≡◌, [], ◌∷◌, length};
ghost use Rattle.model.specs.Job.{priced, of_lent};
ghost use Rattle.model.specs.Refusals.{asking, Weigh, StartPlan, TwoOpt, Rebuild, Exhaustive, Pruned, Solve, Arrive, Cancel, MoveStop, unpriced, running, looking, tableless, lengthening};
ghost use Rattle.model.specs.Calls.{cost_answer, rebuild_answer, start_answer, plan_left, solve_answer, live_answer, view_answer, seen_left, move_answer, road_answer};
ghost use Rattle.file_printing.specs.Printing.{Prints};
ghost use Rattle.sheet_lines.specs.Printed.{printed_weight, printed_start, Printable, printed_weighed, printed_rebuilt, printed_solved, printed_changed, printed_viewed, printed_moved, printed_raised};
ghost use Rattle.sheet_calls.specs.Changing.{live_of, changing};
ghost use Rattle.sheet_calls.specs.Moving.{carrying};
ghost use Rattle.sheet_calls.specs.Lengthening.{road_of};

use model::{Job, Move, Network, Road, Settings};

// Weighs a plan and prints the answer: how many bytes it is.
pub fn weigh(job: &Job, plan: &[u32], out: &mut [u8]) -> usize
    requires { Printable plan.now out.old }
    ensures { Prints out.old out.new result
        (printed_weight (cost_answer Weigh (asking (of_lent job.now) plan.now []))) }
{
    let answer = planner::weigh(job, plan);
    sheet_lines::print_value(answer, out)
}

// Writes the start plan and prints it.
pub fn start_plan(network: &Network, plan: &mut [u32], out: &mut [u8]) -> usize
    requires { Printable plan.old out.old }
    ensures prints { Prints out.old out.new result
        (printed_start (start_answer (asking (priced network.now unpriced) plan.old []))
        plan.new) }
    ensures plan_after { plan.new ≡ plan_left StartPlan (asking (priced network.now unpriced) plan.old []) }
{
    let written = planner::start_plan(network, plan);
    sheet_lines::print_answer(written, plan, out)
}

// Makes the two-opt move of two stops, and prints the cost and the plan: how many bytes it is.
pub fn two_opt(job: &Job, plan: &mut [u32], first: u32, second: u32, out: &mut [u8]) -> usize
    requires { Printable plan.old out.old }
    ensures prints { Prints out.old out.new result
        (printed_weighed (cost_answer TwoOpt (asking (of_lent job.now) plan.old (first ∷ second ∷ []))) plan.new) }
    ensures plan_after { plan.new ≡ plan_left TwoOpt (asking (of_lent job.now) plan.old (first ∷ second ∷ [])) }
{
    let answer = planner::two_opt(job, plan, first, second);
    sheet_lines::print_answer(answer, plan, out)
}

// Rebuilds around the given stops, and prints the cost, the fillings begun, the arrangements completed and the plan.
pub fn rebuild(job: &Job, plan: &mut [u32], given: &[u32], out: &mut [u8]) -> usize
    requires { Printable plan.old out.old }
    ensures prints { Prints out.old out.new result
        (printed_rebuilt (rebuild_answer (asking (of_lent job.now) plan.old given.now)) plan.new) }
    ensures plan_after { plan.new ≡ plan_left Rebuild (asking (of_lent job.now) plan.old given.now) }
{
    let answer = planner::rebuild(job, plan, given);
    sheet_lines::print_answer(answer, plan, out)
}

// Prints the cost and the plan of the exhaustive solver: how many bytes it is.
pub fn exhaustive(job: &Job, plan: &mut [u32], out: &mut [u8]) -> usize
    requires { Printable plan.old out.old }
    ensures prints { Prints out.old out.new result
        (printed_weighed (cost_answer Exhaustive (asking (of_lent job.now) plan.old [])) plan.new) }
    ensures plan_after { plan.new ≡ plan_left Exhaustive (asking (of_lent job.now) plan.old []) }
{
    let answer = planner::exhaustive(job, plan);
    sheet_lines::print_answer(answer, plan, out)
}

// Prints those of the pruned solver.
pub fn pruned(job: &Job, plan: &mut [u32], out: &mut [u8]) -> usize
    requires { Printable plan.old out.old }
    ensures prints { Prints out.old out.new result
        (printed_weighed (cost_answer Pruned (asking (of_lent job.now) plan.old [])) plan.new) }
    ensures plan_after { plan.new ≡ plan_left Pruned (asking (of_lent job.now) plan.old []) }
{
    let answer = planner::pruned(job, plan);
    sheet_lines::print_answer(answer, plan, out)
}

// Runs the planner, and prints the numbers of the run and the plan: how many bytes it is.
pub fn solve(job: &Job, settings: &Settings, plan: &mut [u32], out: &mut [u8]) -> usize
    requires { Printable plan.old out.old }
    ensures prints { Prints out.old out.new result
        (printed_solved (solve_answer (running (of_lent job.now) settings.now.smoothing settings.now.limit settings.now.draws.now plan.old)) plan.new) }
    ensures plan_after { plan.new ≡ plan_left Solve (running (of_lent job.now) settings.now.smoothing settings.now.limit settings.now.draws.now plan.old) }
{
    let answer = planner::solve(job, settings, plan);
    sheet_lines::print_answer(answer, plan, out)
}

// The set of live stops, from its low and its high 32 bits, the second and the third of three given numbers.
fn live_set(given: &[u32]) -> u64
    requires { length given.now ≡ 3 }
    ensures { result ≡ live_of given.now }
{
    given[1] as u64 + given[2] as u64 * 4294967296
}

// Adds a stop, and prints the set of live stops, the cost and the plan: how many bytes it is.
pub fn arrive(job: &Job, plan: &mut [u32], given: &[u32], out: &mut [u8]) -> usize
    requires printable { Printable plan.old out.old }
    requires given_len { length given.now ≡ 3 }
    ensures prints { Prints out.old out.new result
        (printed_changed (live_answer Arrive (changing (of_lent job.now) plan.old given.now)) plan.new) }
    ensures plan_after { plan.new ≡ plan_left Arrive (changing (of_lent job.now) plan.old given.now) }
{
    let live = live_set(given);
    let stop = given[0];
    let answer = planner::arrive(job, plan, live, stop);
    sheet_lines::print_answer(answer, plan, out)
}

// Cancels a stop, and prints the same.
pub fn cancel(job: &Job, plan: &mut [u32], given: &[u32], out: &mut [u8]) -> usize
    requires printable { Printable plan.old out.old }
    requires given_len { length given.now ≡ 3 }
    ensures prints { Prints out.old out.new result
        (printed_changed (live_answer Cancel (changing (of_lent job.now) plan.old given.now)) plan.new) }
    ensures plan_after { plan.new ≡ plan_left Cancel (changing (of_lent job.now) plan.old given.now) }
{
    let live = live_set(given);
    let stop = given[0];
    let answer = planner::cancel(job, plan, live, stop);
    sheet_lines::print_answer(answer, plan, out)
}

// Writes what the holder of a set of vans sees of a plan, and prints the set of unplaced stops and that: how many bytes it is.
pub fn view(
    vehicles: &[u32],
    stops: &[u32],
    plan: &[u32],
    vans: u32,
    seen: &mut [u32],
    out: &mut [u8],
) -> usize
    requires { Printable seen.old out.old }
    ensures prints { Prints out.old out.new result
        (printed_viewed (view_answer (looking (tableless vehicles.now stops.now) plan.now vans seen.old)) seen.new) }
    ensures seen_after { seen.new ≡ seen_left (looking (tableless vehicles.now stops.now) plan.now vans seen.old) }
{
    let answer = planner::view(vehicles, stops, plan, vans, seen);
    sheet_lines::print_answer(answer, seen, out)
}

// Moves a stop, and prints the change in cost and the plan.
pub fn move_stop(job: &Job, plan: &mut [u32], given: &[u32], out: &mut [u8]) -> usize
    requires printable { Printable plan.old out.old }
    requires given_len { length given.now ≡ 4 }
    ensures prints { Prints out.old out.new result
        (printed_moved (move_answer (carrying (of_lent job.now) plan.old given.now)) plan.new) }
    ensures plan_after { plan.new ≡ plan_left MoveStop (carrying (of_lent job.now) plan.old given.now) }
{
    let m = Move {
        stop: given[1],
        van: given[2],
        place: given[3],
    };
    let answer = planner::move_stop(job, plan, given[0], m);
    sheet_lines::print_answer(answer, plan, out)
}

// Asks how much dearer a plan can become where a road gets longer, and prints that.
pub fn roadworks(job: &Job, plan: &[u32], given: &[u32], out: &mut [u8]) -> usize
    requires printable { Printable plan.now out.old }
    requires given_len { length given.now ≡ 3 }
    ensures { Prints out.old out.new result
        (printed_raised (road_answer (lengthening (of_lent job.now) plan.now (road_of given.now)))) }
{
    let road = Road {
        from: given[0],
        to: given[1],
        more: given[2],
    };
    let answer = planner::roadworks(job, plan, road);
    sheet_lines::print_value(answer, out)
}
