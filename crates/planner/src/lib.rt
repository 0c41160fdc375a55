// The public calls, under one name. Each tests its arguments and promises what `Calls` of model defines: a refusal, with
// the lent plan as it was, or the values, with the new plan in the lent one. None has a precondition. Those that came later stand in
// crates of their own, and are passed on.
// A call that is not refused works on what it makes of its arguments: the leg table with the prices, and the plan that it holds. Both are
// locals of fixed size in its own frame, as there is no heap.
#![tactic(auto)]

ghost use Rattle.std.specs.Prelude.{[], ◌∷◌};
ghost use Rattle.model.specs.Job.{priced, of_lent};
ghost use Rattle.model.specs.Refusals.{asking, Weigh, TwoOpt, Exhaustive, Pruned, unpriced, running};
ghost use Rattle.model.specs.Calls.{Weighs, Rebuilds, Writes};
ghost use Rattle.planner.specs.Kept.{Solves};

use model::{Job, Network, Refusal, Settings, Totals, Walk};
pub use planner_live::{arrive, cancel};
pub use planner_roads::roadworks;
pub use planner_vans::{move_stop, view};

// Weighs a plan.
pub fn weigh(job: &Job, plan: &[u32]) -> Result<f64, Refusal>
    ensures { Weighs Weigh (asking (of_lent job.now) plan.now []) result plan.now }
{
    call_refusals::of_weigh(job, plan)?;
    let tariff = distance::tariff_of(job);
    let held = solution::hold(
        job.network.vehicles.len() / 2,
        job.network.stops.len(),
        plan,
    );
    Ok(delivery::cost(&tariff, &held))
}

// Writes the start plan.
pub fn start_plan(network: &Network, plan: &mut [u32]) -> Result<(), Refusal>
    ensures { Writes (asking (priced network.now unpriced) plan.old []) result plan.new }
{
    call_refusals::of_start_plan(network, plan)?;
    let legs = distance::legs_of(network);
    let v = network.vehicles.len() / 2;
    let held = nearest_neighbor::start_plan(&legs, v, network.stops.len());
    plan.copy_from_slice(held.form());
    Ok(())
}

// Improves a plan by the two-opt move of one pair of stops, and weighs it.
pub fn two_opt(job: &Job, plan: &mut [u32], first: u32, second: u32) -> Result<f64, Refusal>
    ensures { Weighs TwoOpt (asking (of_lent job.now) plan.old (first ∷ second ∷ [])) result plan.new }
{
    call_refusals::of_rebuild(job, plan, &[first, second])?;
    let tariff = distance::tariff_of(job);
    let mut held = solution::hold(
        job.network.vehicles.len() / 2,
        job.network.stops.len(),
        plan,
    );
    two_opt::pair(&tariff, &mut held, first, second);
    plan.copy_from_slice(held.form());
    Ok(delivery::cost(&tariff, &held))
}

// Rebuilds a plan around one or two stops, weighs it, and tells what the walk counts.
pub fn rebuild(job: &Job, plan: &mut [u32], given: &[u32]) -> Result<Walk, Refusal>
    ensures { Rebuilds (asking (of_lent job.now) plan.old given.now) result plan.new }
{
    call_refusals::of_rebuild(job, plan, given)?;
    let tariff = distance::tariff_of(job);
    let mut held = solution::hold(
        job.network.vehicles.len() / 2,
        job.network.stops.len(),
        plan,
    );
    let walk = rebuild::rebuild(&tariff, &mut held, given);
    plan.copy_from_slice(held.form());
    Ok(walk)
}

// Writes the plan that the exhaustive solver chooses, and weighs it.
pub fn exhaustive(job: &Job, plan: &mut [u32]) -> Result<f64, Refusal>
    ensures { Weighs Exhaustive (asking (of_lent job.now) plan.old []) result plan.new }
{
    call_refusals::of_exhaustive(job, plan)?;
    let tariff = distance::tariff_of(job);
    let v = job.network.vehicles.len() / 2;
    let (held, cost) = exhaustive::exhaustive(&tariff, v, job.network.stops.len());
    plan.copy_from_slice(held.form());
    Ok(cost)
}

// Writes the plan that the pruned solver chooses, and weighs it.
pub fn pruned(job: &Job, plan: &mut [u32]) -> Result<f64, Refusal>
    ensures { Weighs Pruned (asking (of_lent job.now) plan.old []) result plan.new }
{
    call_refusals::of_exhaustive(job, plan)?;
    let tariff = distance::tariff_of(job);
    let v = job.network.vehicles.len() / 2;
    let (held, cost) = pruned::pruned(&tariff, v, job.network.stops.len());
    plan.copy_from_slice(held.form());
    Ok(cost)
}

// Runs the planner: the start plan, and rounds up to the end rule. The plan that is left keeps the promise about whole runs. The leg table is
// filled where it stays, as a run reads it in many places (see `distance::unfilled`).
pub fn solve(job: &Job, settings: &Settings, plan: &mut [u32]) -> Result<Totals, Refusal>
    ensures { Solves (running (of_lent job.now) settings.now.smoothing settings.now.limit settings.now.draws.now plan.old) result plan.new }
{
    call_refusals::of_solve(job, settings, plan)?;
    let mut tariff = distance::unfilled(job.prices);
    distance::fill_table(&job.network, &mut tariff.legs);
    let v = job.network.vehicles.len() / 2;
    let (held, totals) = ruin_and_recreate::run(&tariff, v, job.network.stops.len(), settings);
    plan.copy_from_slice(held.form());
    Ok(totals)
}
