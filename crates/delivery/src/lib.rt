// What routes, missed stops and plans cost.
#![tactic(auto)]

ghost use Rattle.std.specs.Prelude.{◌≡◌, ◌-◌, ◌≤◌};
ghost use Rattle.model.specs.Whole.{whole};
ghost use Rattle.model.specs.Plan.{placed};
ghost use Rattle.model.specs.Legs.{Affordable};
ghost use Rattle.model.specs.Cost.{price, missed_cost};
ghost use Rattle.model.specs.Live.{live_count};
ghost use Rattle.solution.specs.Held.{routes};
ghost use Rattle.delivery.specs.Held.{IsDriving, IsCost, IsLiveCost};

use distance::Tariff;
use model::Prices;
use solution::Plan;

// What a route of that length costs, one product less than the definition has. All routes of a plan together are at most 16,000,000 long.
// It asks of the prices alone, and not for a tariff: where a road gets longer there is no leg table.
pub fn price(length: u32, prices: Prices) -> f64
    requires { (length ≤ 16000000) × Affordable prices }
    ensures { result ≡ whole (price prices length) }
{
    let d = length as f64;
    d * (prices.linear as f64 + d * (prices.quadratic as f64))
}

// What so many missed stops cost.
pub fn missed_cost(count: u32, prices: Prices) -> f64
    requires { (count ≤ 64) × Affordable prices }
    ensures { result ≡ whole (missed_cost prices count) }
{
    (count as f64) * (prices.missed as f64)
}

// What the routes of a plan cost.
pub fn driving_cost(tariff: &Tariff, plan: &Plan) -> f64
    ensures { IsDriving tariff.now plan.now result }
{
    let form = plan.form();
    let mut sum = 0.0;
    let mut at = plan.v;
    for k in 0..plan.v {
        let end = at + form[k] as usize;
        let length = tariff.legs.route_length(k, &form[at..end]);
        sum += price(length, tariff.prices);
        at = end;
    }
    sum
}

// How many of the n stops are on no route: the ones of the set of the placed stops are counted.
fn missed(plan: &Plan) -> u32
    ensures { result ≡ plan.now.n - placed (routes plan.now) }
{
    plan.n as u32 - stop_set::size(plan.placed_set())
}

// What a plan costs.
pub fn cost(tariff: &Tariff, plan: &Plan) -> f64
    ensures { IsCost tariff.now plan.now result }
{
    let driving = driving_cost(tariff, plan);
    driving + missed_cost(missed(plan), tariff.prices)
}

// What a plan costs while the stops of a set are live, which has at least as many stops as are placed.
pub fn live_cost(tariff: &Tariff, plan: &Plan, live: u64) -> f64
    requires { placed (routes plan.now) ≤ live_count live }
    ensures { IsLiveCost tariff.now plan.now live result }
{
    let driving = driving_cost(tariff, plan);
    let placed = stop_set::size(plan.placed_set());
    driving + missed_cost(stop_set::size(live) - placed, tariff.prices)
}
