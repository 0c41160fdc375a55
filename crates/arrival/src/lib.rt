// Specification, 14: an arrival. A stop is put where the plan then costs least, lower vehicle first and then earlier place, or stays
// unplaced where that is strictly cheaper. A place is weighed by the two legs that come and the one that goes, and only the place that
// wins is written.
#![tactic(auto)]

ghost use Rattle.std.specs.Prelude.{◌≡◌, suc, ◌≤◌, ◌<◌, length, get_or, take};
ghost use Rattle.model.specs.Whole.{whole, IsWhole, amount};
ghost use Rattle.model.specs.Job.{Job};
ghost use Rattle.model.specs.Plan.{route_of};
ghost use Rattle.model.specs.StopSet.{including};
ghost use Rattle.model.specs.Legs.{depot};
ghost use Rattle.model.specs.Live.{put_in, live_cost, arrived};
ghost use Rattle.distance.specs.Ways.{table_legs, last_place, Drivable};
ghost use Rattle.solution.specs.Held.{routes, Becomes, SizesKept};
ghost use Rattle.delivery.specs.Costs.{table_live};
ghost use Rattle.delivery.specs.Held.{IsJobOf};
ghost use Rattle.arrival.specs.Arriving.{Arriving};
ghost use Rattle.arrival.specs.Places.{Insertable, counted, better, tried_on, Triable, Cheapest};

use distance::{Legs, Tariff};
use solution::{Place, Plan};

// A place for a stop, or none, and what the plan costs with the stop there.
#[derive(Clone, Copy)]
struct Candidate {
    place: Option<Place>,
    cost: f64,
}

// Where vehicle k comes from to a place of its route.
fn comes_from(k: usize, route: &[u32], place: usize) -> usize
    requires { (k < 16) × Drivable route.now × (place ≤ length route.now) }
    ensures { (result ≡ last_place (depot k) (take place route.now)) × (result < 80) }
{
    if place == 0 {
        return 64 + k;
    }
    route[place - 1] as usize
}

// Where it goes on to from there.
fn goes_to(k: usize, route: &[u32], place: usize) -> usize
    requires { (k < 16) × Drivable route.now × (place ≤ length route.now) }
    ensures { (result ≡ get_or route.now place (depot k)) × (result < 80) }
{
    if place < route.len() {
        return route[place] as usize;
    }
    64 + k
}

// The length of a route that is `length` long, with a stop put in at a place: two legs come, one goes.
fn length_with(legs: &Legs, k: usize, route: &[u32], length: u32, place: usize, stop: u32) -> u32
    requires { Insertable legs.now.table k route.now length place stop }
    ensures { (result ≡ table_legs legs.now.table (depot k) (put_in place stop route.now) (depot k)) × (result ≤ 16000000) }
{
    let from = comes_from(k, route, place);
    let to = goes_to(k, route, place);
    let s = stop as usize;
    length + legs.leg(from, s) + legs.leg(s, to) - legs.leg(from, to)
}

// The better of a new candidate and the best so far: it replaces no place also where both cost the same, and another place only where it
// is strictly cheaper.
fn better(new: Candidate, best: Candidate) -> Candidate
    requires { IsWhole new.cost × IsWhole best.cost }
    ensures { IsWhole result.cost × (counted result ≡ better (counted new) (counted best)) }
{
    let replaces = match best.place {
        None => new.cost <= best.cost,
        Some(_) => new.cost < best.cost,
    };
    if replaces { new } else { best }
}

// The best so far and all places of vehicle k's route. `left` is what the plan costs without the missed stop.
fn best_on(
    tariff: &Tariff,
    plan: &Plan,
    k: usize,
    left: f64,
    stop: u32,
    best: Candidate,
) -> Candidate
    requires { Triable tariff.now plan.now k left stop best.cost }
    ensures { IsWhole result.cost
        × (counted result ≡ tried_on tariff.now.legs.table tariff.now.prices k (route_of (routes plan.now) k) (amount left) stop
        (suc (length (route_of (routes plan.now) k))) (counted best)) }
{
    let route = plan.route(k);
    let length = tariff.legs.route_length(k, route);
    let others = left - delivery::price(length, tariff.prices);
    let mut found = best;
    for position in 0..=route.len() {
        let longer = length_with(&tariff.legs, k, route, length, position, stop);
        let cost = others + delivery::price(longer, tariff.prices);
        let place = Some(Place {
            vehicle: k,
            position,
        });
        found = better(Candidate { place, cost }, found);
    }
    found
}

// The best place for a stop that arrives, or none.
fn best_place(tariff: &Tariff, plan: &Plan, live: u64, stop: u32) -> Candidate
    requires { Arriving plan.now live stop }
    ensures { Cheapest (table_live tariff.now.legs.table tariff.now.prices (including stop live)) stop (routes plan.now) result }
{
    let all = stop_set::with(live, stop);
    let unplaced = delivery::live_cost(tariff, plan, all);
    let left = unplaced - delivery::missed_cost(1, tariff.prices);
    let mut found = Candidate {
        place: None,
        cost: unplaced,
    };
    for k in 0..plan.v {
        found = best_on(tariff, plan, k, left, stop, found);
    }
    found
}

// Writes the plan after the arrival of a stop, and returns what it costs with the stop live. It stays a call, so that its caller does little
// with the leg table, which then stands there once.
#[inline(never)]
pub fn arrive(tariff: &Tariff, plan: &mut Plan, live: u64, stop: u32) -> f64
    requires { Arriving plan.old live stop }
    ensures plan_after { (J : Job) → IsJobOf J tariff.now plan.old → Becomes plan.old plan.new (arrived J live stop (routes plan.old)) }
    ensures value { (J : Job) → IsJobOf J tariff.now plan.old
        → result ≡ whole (live_cost J (including stop live) (arrived J live stop (routes plan.old))) }
    ensures sizes { SizesKept plan.old plan.new }
{
    let best = best_place(tariff, plan, live, stop);
    if let Some(place) = best.place {
        joining::insert(plan, place.vehicle, place.position, stop);
    }
    best.cost
}
