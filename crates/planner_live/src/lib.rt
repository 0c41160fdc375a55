// The public calls while jobs come and go: a stop is added, or cancelled. Crate `planner` passes them on.
#![tactic(auto)]

ghost use Rattle.model.specs.Job.{of_lent};
ghost use Rattle.model.specs.Refusals.{naming, Arrive, Cancel};
ghost use Rattle.model.specs.Calls.{Changes};

use model::{Job, Refusal, Standing};

// Adds a stop while others are live: it is put where the plan then costs least, or stays unplaced where that is strictly cheaper.
pub fn arrive(job: &Job, plan: &mut [u32], live: u64, stop: u32) -> Result<Standing, Refusal>
    ensures { Changes Arrive (naming (of_lent job.now) plan.old live stop) result plan.new }
{
    call_refusals::of_arrive(job, plan, live, stop)?;
    let tariff = distance::tariff_of(job);
    let mut held = solution::hold(
        job.network.vehicles.len() / 2,
        job.network.stops.len(),
        plan,
    );
    let cost = arrival::arrive(&tariff, &mut held, live, stop);
    plan.copy_from_slice(held.form());
    Ok(Standing {
        live: stop_set::with(live, stop),
        cost,
    })
}

// Cancels a live stop: it leaves its route, where it is on one, and is no longer counted as missed.
pub fn cancel(job: &Job, plan: &mut [u32], live: u64, stop: u32) -> Result<Standing, Refusal>
    ensures { Changes Cancel (naming (of_lent job.now) plan.old live stop) result plan.new }
{
    call_refusals::of_cancel(job, plan, live, stop)?;
    let tariff = distance::tariff_of(job);
    let mut held = solution::hold(
        job.network.vehicles.len() / 2,
        job.network.stops.len(),
        plan,
    );
    let cost = cancellation::cancel(&tariff, &mut held, live, stop);
    plan.copy_from_slice(held.form());
    Ok(Standing {
        live: stop_set::without(live, stop),
        cost,
    })
}
