// Specification, 18: roadworks. One walk over the plan counts the uses of a road and adds the metres of all routes, and from these two
// comes the ceiling on what the longer road can cost.
#![tactic(auto)]

ghost use Rattle.std.specs.Prelude.{◌≡◌, ◌≤◌};
ghost use Rattle.model.specs.Job.{of_lent};
ghost use Rattle.model.specs.Legs.{Affordable};
ghost use Rattle.model.specs.Roads.{one_use, ceiling};
ghost use Rattle.solution.specs.Held.{routes};
ghost use Rattle.roads.specs.Tallies.{Mapped, Walkable, RouteTally, PlanTally, ceiling_from};

use model::{Job, Network, Prices, Road};
use solution::Plan;

// How often a road is used, and the metres driven: on a route, or on all routes of a plan.
#[derive(Clone, Copy)]
struct Tally {
    uses: u32,
    metres: u32,
}

// 1 where a leg between two locations is the road, else 0.
fn one_use(road: Road, from: u32, to: u32) -> u32
    ensures { (result ≡ one_use road from to) × (result ≤ 1) }
{
    u32::from(from == road.from && to == road.to)
}

// The tally of a route from one location through its stops to another. A leg is a use by its locations, so the walk reads the job's own
// lists.
fn route_tally(network: &Network, road: Road, start: u32, end: u32, route: &[u32]) -> Tally
    requires { Walkable network.now.stops.now network.now.locations network.now.distances.now start end route.now }
    ensures { RouteTally network.now.stops.now network.now.locations network.now.distances.now road start end route.now result }
{
    let mut uses: u32 = 0;
    let mut metres: u32 = 0;
    let mut here = start;
    for &stop in route {
        let next = network.stops[stop as usize];
        uses += one_use(road, here, next);
        metres += distance::lookup(network, here, next);
        here = next;
    }
    uses += one_use(road, here, end);
    metres += distance::lookup(network, here, end);
    Tally { uses, metres }
}

// The tally of all routes of a plan.
fn plan_tally(network: &Network, plan: &Plan, road: Road) -> Tally
    requires { Mapped network.now plan.now }
    ensures { PlanTally network.now plan.now road result }
{
    let mut uses: u32 = 0;
    let mut metres: u32 = 0;
    for k in 0..plan.v {
        let start = network.vehicles[2 * k];
        let end = network.vehicles[2 * k + 1];
        let one = route_tally(network, road, start, end, plan.route(k));
        uses += one.uses;
        metres += one.metres;
    }
    Tally { uses, metres }
}

// The ceiling from the uses and the metres of all routes. Each step fits 64 bits, as there are at most 80 legs of 200,000 metres.
fn ceiling_from(tally: Tally, more: u32, prices: Prices) -> u64
    requires { (tally.uses ≤ 80) × (tally.metres ≤ 16000000) × (more ≤ 200000) × Affordable prices }
    ensures { result ≡ ceiling_from prices more tally.uses tally.metres }
{
    let longer = more as u64 * tally.uses as u64;
    let metres = 2 * tally.metres as u64 + longer;
    longer * (prices.linear as u64 + prices.quadratic as u64 * metres)
}

// The most by which a plan's cost can rise where a road of the table gets longer.
pub fn ceiling(job: &Job, plan: &Plan, road: Road) -> u64
    requires { Mapped job.now.network plan.now × Affordable job.now.prices × (road.more ≤ 200000) }
    ensures { result ≡ ceiling (of_lent job.now) road (routes plan.now) }
{
    let tally = plan_tally(&job.network, plan, road);
    ceiling_from(tally, road.more, job.prices)
}
