// Specification, 16: what a caller who holds a set of vans sees of a plan: the routes of other vans are emptied, and the unplaced stops
// are told as a set.
#![tactic(auto)]

ghost use Rattle.std.specs.Prelude.{◌≡◌, ◌+◌, map, length};
ghost use Rattle.model.specs.Lists.{concat};
ghost use Rattle.model.specs.Plan.{encode};
ghost use Rattle.model.specs.Vans.{unplaced_set, view};
ghost use Rattle.pasting.specs.Put.{area_of};
ghost use Rattle.solution.specs.Held.{routes};

use solution::Plan;

// Writes the lengths of the routes that are seen: 0 for another's van.
fn see_lengths(plan: &Plan, vans: u32, lengths: &mut [u32])
    requires { length lengths.old ≡ plan.now.v }
    ensures { lengths.new ≡ map length (view vans (routes plan.now)) }
{
    for k in 0..plan.v {
        let own = stop_set::contains(vans as u64, k as u32);
        lengths[k] = if own { plan.route(k).len() as u32 } else { 0 };
    }
}

// Writes the stops of the routes that are seen one after another, and 4294967295 into the places that are left.
fn see_stops(plan: &Plan, vans: u32, area: &mut [u32])
    requires { length area.old ≡ plan.now.n }
    ensures { area.new ≡ area_of plan.now.n (concat (view vans (routes plan.now))) }
{
    let mut at = 0;
    for k in 0..plan.v {
        if stop_set::contains(vans as u64, k as u32) {
            at = pasting::paste(area, at, plan.route(k));
        }
    }
    pasting::fill(&mut area[at..], 4294967295);
}

// The set of unplaced stops, from the highest stop down.
fn unplaced_set(plan: &Plan) -> u64
    ensures { result ≡ unplaced_set plan.now.n (routes plan.now) }
{
    let placed = plan.placed_set();
    let mut set: u64 = 0;
    for s in (0..plan.n as u32).rev() {
        if !stop_set::contains(placed, s) {
            set = stop_set::with(set, s);
        }
    }
    set
}

// Writes what the caller sees of a plan, and returns the set of unplaced stops.
pub fn view(plan: &Plan, vans: u32, seen: &mut [u32]) -> u64
    requires { length seen.old ≡ plan.now.v + plan.now.n }
    ensures value { result ≡ unplaced_set plan.now.n (routes plan.now) }
    ensures seen_after { seen.new ≡ encode plan.now.n (view vans (routes plan.now)) }
{
    see_lengths(plan, vans, &mut seen[..plan.v]);
    see_stops(plan, vans, &mut seen[plan.v..]);
    unplaced_set(plan)
}
