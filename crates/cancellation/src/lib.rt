// A cancellation: the stop leaves its route, where it is on one, and is no longer counted as missed.
#![tactic(auto)]

ghost use Rattle.std.specs.Prelude.{◌≡◌};
ghost use Rattle.model.specs.Whole.{whole};
ghost use Rattle.model.specs.Job.{Job};
ghost use Rattle.model.specs.StopSet.{excluding};
ghost use Rattle.model.specs.Live.{live_cost, cancelled};
ghost use Rattle.solution.specs.Held.{routes, Becomes};
ghost use Rattle.delivery.specs.Held.{IsJobOf};
ghost use Rattle.cancellation.specs.Cancelling.{Cancelling};

use distance::Tariff;
use solution::Plan;

// Takes a stop out of a plan, where it is on a route.
fn leave(plan: &mut Plan, stop: u32)
    ensures { Becomes plan.old plan.new (cancelled stop (routes plan.old)) }
{
    if let Some(place) = plan.find(stop) {
        joining::remove(plan, stop, place);
    }
}

// Writes the plan after the cancellation of a stop, and returns what it costs with the stop no longer live.
pub fn cancel(tariff: &Tariff, plan: &mut Plan, live: u64, stop: u32) -> f64
    requires { Cancelling plan.old live stop }
    ensures plan_after { Becomes plan.old plan.new (cancelled stop (routes plan.old)) }
    ensures value { (J : Job) → IsJobOf J tariff.now plan.old
        → result ≡ whole (live_cost J (excluding stop live) (cancelled stop (routes plan.old))) }
{
    leave(plan, stop);
    let rest = stop_set::without(live, stop);
    delivery::live_cost(tariff, plan, rest)
}
