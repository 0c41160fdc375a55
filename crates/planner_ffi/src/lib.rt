// The calls for hosts in C or Rust, which `include/planner.h` declares: each passes its arguments to the call of crate `planner`,
// returns the number of the refusal, 0 for none, and writes an accepted call's values through the references that it was lent.
#![tactic(auto)]

ghost use Rattle.std.specs.Prelude.{◌≡◌, [], ◌∷◌};
ghost use Rattle.model.specs.Job.{job_of, of_lent};
ghost use Rattle.model.specs.Refusals.{asking, naming, looking, moving, lengthening, tableless, Weigh, TwoOpt, Exhaustive, Pruned, Arrive, Cancel, unpriced, running};
ghost use Rattle.model.specs.Vans.{move_to};
ghost use Rattle.model.specs.Roads.{road_from};
ghost use Rattle.model.specs.Numbers.{refused};
ghost use Rattle.planner_ffi.specs.Border.{priced, value_left, walk, results, results_left, live_left, live_cost_left, HandsCost, HandsRebuilt, HandsPlan, HandsRun, HandsChange, HandsView, HandsMove, HandsRise};

use model::{Job, Move, Network, Prices, Refusal, Road, Settings, Standing, Totals, Walk};

// The number of an answer: that of the refusal, or 0, and then the value goes where it is wanted.
fn hand<T: Copy>(answer: Result<T, Refusal>, lent: &mut T) -> u32
    ensures number { result ≡ refused answer }
    ensures value { lent.new ≡ value_left answer lent.old }
{
    match answer {
        Ok(value) => {
            *lent = value;
            0
        }
        Err(refusal) => refusal.into(),
    }
}

// The number, the new live set and the cost of an answer.
#[tactic(auto, unfolding(crate::specs::Border::live_left, crate::specs::Border::live_cost_left))]
fn hand_change(answer: Result<Standing, Refusal>, after: &mut u64, cost: &mut f64) -> u32
    ensures number { result ≡ refused answer }
    ensures after_after { after.new ≡ live_left answer after.old }
    ensures cost_after { cost.new ≡ live_cost_left answer cost.old }
{
    hand(answer.map(|t| t.live), after);
    hand(answer.map(|t| t.cost), cost)
}

// The number, the cost and both counts of an answer.
fn hand_rebuilt(
    answer: Result<Walk, Refusal>,
    cost: &mut f64,
    begun: &mut u64,
    completed: &mut u64,
) -> u32
    ensures number { result ≡ refused answer }
    ensures completed_after { walk cost.new begun.new completed.new ≡ value_left answer (walk cost.old begun.old completed.old) }
{
    hand(answer.map(|w| w.begun), begun);
    hand(answer.map(|w| w.completed), completed);
    hand(answer.map(|w| w.cost), cost)
}

// The number and the values of a run's answer.
#[tactic(auto, unfolding(crate::specs::Border::results_left))]
fn hand_totals(
    answer: Result<Totals, Refusal>,
    start: &mut f64,
    end: &mut f64,
    rounds: &mut u32,
    improving: &mut u32,
    settled: &mut u32,
) -> u32
    ensures number { result ≡ refused answer }
    ensures settled_after { results start.new end.new rounds.new improving.new settled.new
        ≡ results_left answer (results start.old end.old rounds.old improving.old settled.old) }
{
    hand(answer.map(|t| t.end), end);
    hand(answer.map(|t| t.rounds), rounds);
    hand(answer.map(|t| t.improving), improving);
    hand(answer.map(|t| t.settled as u32), settled);
    hand(answer.map(|t| t.start), start)
}

// The job of what a call is given of it.
fn job_of<'a>(
    vehicles: &'a [u32],
    stops: &'a [u32],
    locations: u32,
    distances: &'a [u32],
    linear: u32,
    quadratic: u32,
    missed: u64,
) -> Job<'a>
    ensures { of_lent result ≡ job_of vehicles.now stops.now locations distances.now (priced linear quadratic missed) }
{
    Job {
        network: Network {
            vehicles,
            stops,
            locations,
            distances,
        },
        prices: Prices {
            linear,
            quadratic,
            missed,
        },
    }
}

// Weighs a plan.
#[unsafe(no_mangle)]
pub extern "C" fn planner_weigh(
    vehicles: &[u32],
    stops: &[u32],
    locations: u32,
    distances: &[u32],
    linear: u32,
    quadratic: u32,
    missed: u64,
    plan: &[u32],
    cost: &mut f64,
) -> u32
    ensures { HandsCost Weigh (asking (job_of vehicles.now stops.now locations distances.now (priced linear quadratic missed)) plan.now []) result cost.old cost.new plan.now }
{
    let job = job_of(
        vehicles, stops, locations, distances, linear, quadratic, missed,
    );
    let answer = planner::weigh(&job, plan);
    hand(answer, cost)
}

// Writes the start plan.
#[unsafe(no_mangle)]
pub extern "C" fn planner_start_plan(
    vehicles: &[u32],
    stops: &[u32],
    locations: u32,
    distances: &[u32],
    plan: &mut [u32],
) -> u32
    ensures { HandsPlan (asking (job_of vehicles.now stops.now locations distances.now unpriced) plan.old []) result plan.new }
{
    let network = Network {
        vehicles,
        stops,
        locations,
        distances,
    };
    let answer = planner::start_plan(&network, plan);
    hand(answer, &mut ())
}

// Improves a plan by the two-opt move of one pair of stops, and weighs it.
#[unsafe(no_mangle)]
pub extern "C" fn planner_two_opt(
    vehicles: &[u32],
    stops: &[u32],
    locations: u32,
    distances: &[u32],
    linear: u32,
    quadratic: u32,
    missed: u64,
    plan: &mut [u32],
    first: u32,
    second: u32,
    cost: &mut f64,
) -> u32
    ensures { HandsCost TwoOpt (asking (job_of vehicles.now stops.now locations distances.now (priced linear quadratic missed)) plan.old (first ∷ second ∷ [])) result cost.old cost.new plan.new }
{
    let job = job_of(
        vehicles, stops, locations, distances, linear, quadratic, missed,
    );
    let answer = planner::two_opt(&job, plan, first, second);
    hand(answer, cost)
}

// Rebuilds a plan around one or two stops, weighs it, and counts the fillings of the first region begun and the arrangements completed.
#[unsafe(no_mangle)]
pub extern "C" fn planner_rebuild(
    vehicles: &[u32],
    stops: &[u32],
    locations: u32,
    distances: &[u32],
    linear: u32,
    quadratic: u32,
    missed: u64,
    plan: &mut [u32],
    given: &[u32],
    cost: &mut f64,
    begun: &mut u64,
    completed: &mut u64,
) -> u32
    ensures { HandsRebuilt (asking (job_of vehicles.now stops.now locations distances.now (priced linear quadratic missed)) plan.old given.now) result
        (walk cost.old begun.old completed.old) (walk cost.new begun.new completed.new) plan.new }
{
    let job = job_of(
        vehicles, stops, locations, distances, linear, quadratic, missed,
    );
    let answer = planner::rebuild(&job, plan, given);
    hand_rebuilt(answer, cost, begun, completed)
}

// Writes the plan that the exhaustive solver chooses, and weighs it.
#[unsafe(no_mangle)]
pub extern "C" fn planner_exhaustive(
    vehicles: &[u32],
    stops: &[u32],
    locations: u32,
    distances: &[u32],
    linear: u32,
    quadratic: u32,
    missed: u64,
    plan: &mut [u32],
    cost: &mut f64,
) -> u32
    ensures { HandsCost Exhaustive (asking (job_of vehicles.now stops.now locations distances.now (priced linear quadratic missed)) plan.old []) result cost.old cost.new plan.new }
{
    let job = job_of(
        vehicles, stops, locations, distances, linear, quadratic, missed,
    );
    let answer = planner::exhaustive(&job, plan);
    hand(answer, cost)
}

// Writes the plan that the pruned solver chooses, and weighs it.
#[unsafe(no_mangle)]
pub extern "C" fn planner_pruned(
    vehicles: &[u32],
    stops: &[u32],
    locations: u32,
    distances: &[u32],
    linear: u32,
    quadratic: u32,
    missed: u64,
    plan: &mut [u32],
    cost: &mut f64,
) -> u32
    ensures { HandsCost Pruned (asking (job_of vehicles.now stops.now locations distances.now (priced linear quadratic missed)) plan.old []) result cost.old cost.new plan.new }
{
    let job = job_of(
        vehicles, stops, locations, distances, linear, quadratic, missed,
    );
    let answer = planner::pruned(&job, plan);
    hand(answer, cost)
}

// Runs the planner. The plan that is left keeps the promise about whole runs.
#[unsafe(no_mangle)]
pub extern "C" fn planner_solve(
    vehicles: &[u32],
    stops: &[u32],
    locations: u32,
    distances: &[u32],
    linear: u32,
    quadratic: u32,
    missed: u64,
    smoothing: u32,
    limit: u32,
    draws: &[u32],
    plan: &mut [u32],
    start: &mut f64,
    end: &mut f64,
    rounds: &mut u32,
    improving: &mut u32,
    settled: &mut u32,
) -> u32
    ensures { HandsRun (running (job_of vehicles.now stops.now locations distances.now (priced linear quadratic missed)) smoothing limit draws.now plan.old) result
        (results start.old end.old rounds.old improving.old settled.old)
        (results start.new end.new rounds.new improving.new settled.new)
        plan.new }
{
    let job = job_of(
        vehicles, stops, locations, distances, linear, quadratic, missed,
    );
    let settings = Settings {
        smoothing,
        limit,
        draws,
    };
    let answer = planner::solve(&job, &settings, plan);
    hand_totals(answer, start, end, rounds, improving, settled)
}

// Adds a stop while others are live: it is put where the plan then costs least, or stays unplaced where that is strictly cheaper.
#[unsafe(no_mangle)]
pub extern "C" fn planner_arrive(
    vehicles: &[u32],
    stops: &[u32],
    locations: u32,
    distances: &[u32],
    linear: u32,
    quadratic: u32,
    missed: u64,
    plan: &mut [u32],
    live: u64,
    stop: u32,
    after: &mut u64,
    cost: &mut f64,
) -> u32
    ensures { HandsChange Arrive (naming (job_of vehicles.now stops.now locations distances.now (priced linear quadratic missed)) plan.old live stop) result
        after.old after.new cost.old cost.new plan.new }
{
    let job = job_of(
        vehicles, stops, locations, distances, linear, quadratic, missed,
    );
    let answer = planner::arrive(&job, plan, live, stop);
    hand_change(answer, after, cost)
}

// Cancels a live stop: it leaves its route, where it is on one, and is no longer counted as missed.
#[unsafe(no_mangle)]
pub extern "C" fn planner_cancel(
    vehicles: &[u32],
    stops: &[u32],
    locations: u32,
    distances: &[u32],
    linear: u32,
    quadratic: u32,
    missed: u64,
    plan: &mut [u32],
    live: u64,
    stop: u32,
    after: &mut u64,
    cost: &mut f64,
) -> u32
    ensures { HandsChange Cancel (naming (job_of vehicles.now stops.now locations distances.now (priced linear quadratic missed)) plan.old live stop) result
        after.old after.new cost.old cost.new plan.new }
{
    let job = job_of(
        vehicles, stops, locations, distances, linear, quadratic, missed,
    );
    let answer = planner::cancel(&job, plan, live, stop);
    hand_change(answer, after, cost)
}

// Shows a plan to a caller who holds a set of vans: the routes of other vans are emptied, and the unplaced stops are handed over as a set.
#[unsafe(no_mangle)]
pub extern "C" fn planner_view(
    vehicles: &[u32],
    stops: &[u32],
    plan: &[u32],
    vans: u32,
    seen: &mut [u32],
    unplaced: &mut u64,
) -> u32
    ensures { HandsView (looking (tableless vehicles.now stops.now) plan.now vans seen.old) result
        unplaced.old unplaced.new seen.new }
{
    let answer = planner::view(vehicles, stops, plan, vans, seen);
    hand(answer, unplaced)
}

// Moves a stop, from one of the caller's vans or from the unplaced ones, to a place of one of the caller's vans. The place is counted
// after the stop has been taken out.
#[unsafe(no_mangle)]
pub extern "C" fn planner_move_stop(
    vehicles: &[u32],
    stops: &[u32],
    locations: u32,
    distances: &[u32],
    linear: u32,
    quadratic: u32,
    missed: u64,
    plan: &mut [u32],
    vans: u32,
    stop: u32,
    van: u32,
    place: u32,
    change: &mut i64,
) -> u32
    ensures { HandsMove (moving (job_of vehicles.now stops.now locations distances.now (priced linear quadratic missed)) plan.old vans (move_to stop van place)) result
        change.old change.new plan.new }
{
    let job = job_of(
        vehicles, stops, locations, distances, linear, quadratic, missed,
    );
    let m = Move { stop, van, place };
    let answer = planner::move_stop(&job, plan, vans, m);
    hand(answer, change)
}

// The most by which a plan's cost can rise where roadworks make the road from one location to another longer by so many metres.
#[unsafe(no_mangle)]
pub extern "C" fn planner_roadworks(
    vehicles: &[u32],
    stops: &[u32],
    locations: u32,
    distances: &[u32],
    linear: u32,
    quadratic: u32,
    missed: u64,
    plan: &[u32],
    from: u32,
    to: u32,
    more: u32,
    rise: &mut u64,
) -> u32
    ensures { HandsRise (lengthening (job_of vehicles.now stops.now locations distances.now (priced linear quadratic missed)) plan.now (road_from from to more)) result
        rise.old rise.new }
{
    let job = job_of(
        vehicles, stops, locations, distances, linear, quadratic, missed,
    );
    let road = Road { from, to, more };
    let answer = planner::roadworks(&job, plan, road);
    hand(answer, rise)
}
