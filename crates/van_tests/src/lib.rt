// The tests of refusal 15: the set of vans that a caller holds, and a move by that caller.
#![tactic(auto)]

ghost use Rattle.std.specs.Prelude.{◌≡◌, false, ◌≤◌, ◌<◌};
ghost use Rattle.model.specs.StopSet.{contains};
ghost use Rattle.model.specs.Vans.{bad_vans, on_others_van, beyond_end, bad_move};
ghost use Rattle.solution.specs.Held.{routes};

use model::Move;
use solution::Plan;

// Whether a set of vans has van k.
fn holds(vans: u32, k: usize) -> bool
    requires { k < 64 }
    ensures { result ≡ contains k vans }
{
    stop_set::contains(vans as u64, k as u32)
}

pub fn bad_vans(v: usize, vans: u32) -> bool
    requires { v ≤ 16 }
    ensures { result ≡ bad_vans v vans }
{
    1u32 << v <= vans
}

// The place is beyond the end of a route from which the stop is taken out first, where it is on that route.
fn beyond_end(plan: &Plan, m: Move) -> bool
    requires { m.van < plan.now.v }
    ensures { result ≡ beyond_end m (routes plan.now) }
{
    let route = plan.route(m.van as usize);
    let at = m.place as usize;
    if solution::position(route, m.stop) < route.len() {
        return route.len() - 1 < at;
    }
    route.len() < at
}

// Whether the stop is on a van outside the set.
fn on_others_van(plan: &Plan, vans: u32, stop: u32) -> bool
    ensures { result ≡ on_others_van vans stop (routes plan.now) }
{
    match plan.find(stop) {
        Some(found) => !holds(vans, found.vehicle),
        None => false,
    }
}

// Of a move by a caller whose set names no van from v on.
pub fn bad_move(plan: &Plan, vans: u32, m: Move) -> bool
    requires { bad_vans plan.now.v vans ≡ false }
    ensures { result ≡ bad_move vans m (routes plan.now) }
{
    let k = m.van as usize;
    plan.v <= k || !holds(vans, k) || on_others_van(plan, vans, m.stop) || beyond_end(plan, m)
}
