// The public call about a road that gets longer. Crate `planner` passes it on.
#![tactic(auto)]

ghost use Rattle.model.specs.Job.{of_lent};
ghost use Rattle.model.specs.Refusals.{lengthening};
ghost use Rattle.model.specs.Calls.{Raises};

use model::{Job, Refusal, Road};

// The most by which a plan's cost can rise where roadworks make the road from one location to another longer by so many metres.
pub fn roadworks(job: &Job, plan: &[u32], road: Road) -> Result<u64, Refusal>
    ensures { Raises (lengthening (of_lent job.now) plan.now road) result }
{
    call_refusals::of_roadworks(job, plan, road)?;
    let held = solution::hold(
        job.network.vehicles.len() / 2,
        job.network.stops.len(),
        plan,
    );
    Ok(roads::ceiling(job, &held, road))
}
