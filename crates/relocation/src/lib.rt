// Specification, 16: a move. A stop leaves its route, where it is on one, and is put in at a place that is counted after that. The change
// in cost is that of the one or two routes that change, and of the missed part where the stop was unplaced: no other route is weighed.
#![tactic(auto)]

ghost use Rattle.std.specs.Prelude.{◌≡◌, ◌*◌, ◌^◌, ◌≤◌, ◌<◌};
ghost use Rattle.std.proofs.Math.IntN.{sub_ℕ};
ghost use Rattle.model.specs.Whole.{exact};
ghost use Rattle.model.specs.Plan.{route_of};
ghost use Rattle.model.specs.Vans.{moved};
ghost use Rattle.solution.specs.Held.{routes, Becomes};
ghost use Rattle.delivery.specs.Costs.{table_price};
ghost use Rattle.relocation.specs.Moving.{pair_price, Movable, Changes};

use distance::Tariff;
use model::Move;
use solution::Plan;

// What the route of vehicle k costs.
fn route_cost(tariff: &Tariff, plan: &Plan, k: usize) -> u64
    requires { k < plan.now.v }
    ensures { (result ≡ table_price tariff.now.legs.table tariff.now.prices k (route_of (routes plan.now) k)) × (result ≤ exact) }
{
    let length = tariff.legs.route_length(k, plan.route(k));
    whole::to_whole(delivery::price(length, tariff.prices))
}

// What the routes of two vehicles cost, and one route where both are the same.
fn both_cost(tariff: &Tariff, plan: &Plan, a: usize, b: usize) -> u64
    requires { (a < plan.now.v) × (b < plan.now.v) }
    ensures { (result ≡ pair_price (table_price tariff.now.legs.table tariff.now.prices) (routes plan.now) a b) × (result ≤ 2 * exact) }
{
    let cost = route_cost(tariff, plan, a);
    if a == b {
        return cost;
    }
    cost + route_cost(tariff, plan, b)
}

// new − old, with its sign.
fn change(new: u64, old: u64) -> i64
    requires { (new < 2 ^ 63) × (old < 2 ^ 63) }
    ensures { result ≡ sub_ℕ new old }
{
    (new as i64) - (old as i64)
}

// Moves a stop to a place of a van, and returns the change in cost. It stays a call, as `arrival::arrive` does.
#[inline(never)]
pub fn move_stop(tariff: &Tariff, plan: &mut Plan, m: Move) -> i64
    requires { Movable plan.old m }
    ensures plan_after { Becomes plan.old plan.new (moved m (routes plan.old)) }
    ensures changes { Changes tariff.now plan.old m result }
{
    let stop = m.stop;
    let van = m.van as usize;
    let place = m.place as usize;
    match plan.find(stop) {
        Some(found) => {
            let old = both_cost(tariff, plan, found.vehicle, van);
            joining::remove(plan, stop, found);
            joining::insert(plan, van, place, stop);
            let new = both_cost(tariff, plan, found.vehicle, van);
            change(new, old)
        }
        None => {
            let old = route_cost(tariff, plan, van);
            joining::insert(plan, van, place, stop);
            let new = route_cost(tariff, plan, van);
            change(new, old + tariff.prices.missed)
        }
    }
}
