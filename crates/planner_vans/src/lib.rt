// The public calls of a caller who holds a set of vans: a view of a plan, and a move of a stop. Crate `planner` passes them on.
#![tactic(auto)]

ghost use Rattle.model.specs.Job.{of_lent};
ghost use Rattle.model.specs.Refusals.{looking, moving, tableless};
ghost use Rattle.model.specs.Calls.{Views, Moves};

use model::{Job, Move, Refusal};

// Shows a plan to a caller who holds a set of vans: the routes of other vans are emptied, and the unplaced stops are answered as a set.
pub fn view(
    vehicles: &[u32],
    stops: &[u32],
    plan: &[u32],
    vans: u32,
    seen: &mut [u32],
) -> Result<u64, Refusal>
    ensures { Views (looking (tableless vehicles.now stops.now) plan.now vans seen.old) result seen.new }
{
    call_refusals::of_view(vehicles, stops, plan, vans, seen)?;
    let held = solution::hold(vehicles.len() / 2, stops.len(), plan);
    Ok(view::view(&held, vans, seen))
}

// Moves a stop, from one of the caller's vans or from the unplaced ones, to a place of one of the caller's vans, and answers the change
// in cost. The place is counted after the stop has been taken out.
pub fn move_stop(job: &Job, plan: &mut [u32], vans: u32, m: Move) -> Result<i64, Refusal>
    ensures { Moves (moving (of_lent job.now) plan.old vans m) result plan.new }
{
    call_refusals::of_move_stop(job, plan, vans, m)?;
    let tariff = distance::tariff_of(job);
    let mut held = solution::hold(
        job.network.vehicles.len() / 2,
        job.network.stops.len(),
        plan,
    );
    let change = relocation::move_stop(&tariff, &mut held, m);
    plan.copy_from_slice(held.form());
    Ok(change)
}
