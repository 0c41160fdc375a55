// The tests of a call's arguments: one function for each number of the table of refusals.
#![tactic(auto)]

ghost use Rattle.std.specs.Prelude.{◌≡◌, ◌≤◌, ◌<◌};
ghost use Rattle.model.specs.Lists.{all_below};
ghost use Rattle.model.specs.StopSet.{stops_of};
ghost use Rattle.model.specs.Refusals.{bad_vehicles, bad_stops, bad_table, bad_length, bad_draws, bad_locations, bad_distances, bad_prices, bad_smoothing, bad_limit, all_live, bad_live, bad_given, bad_arrival, bad_cancellation, too_large};
ghost use Rattle.solution.specs.Held.{numbers_of};

use model::Prices;
use solution::Plan;

// Whether each number of a list is below a limit. Where the walk is part of the call that asks, its numbers find no room in registers.
#[inline(never)]
fn all_below(list: &[u32], limit: u32) -> bool
    ensures { result ≡ all_below limit list.now }
{
    list.iter().all(|&x| x < limit)
}

#[tactic(auto, using(std::proofs::lemmas::Bool::Decides::nat_tests), unfolding(model::specs::Refusals::bad_vehicles))]
pub fn bad_vehicles(vehicles: &[u32]) -> bool
    ensures { result ≡ bad_vehicles vehicles.now }
{
    vehicles.len() % 2 == 1 || 32 < vehicles.len()
}

#[tactic(auto, using(std::proofs::lemmas::Bool::Decides::nat_tests), unfolding(model::specs::Refusals::bad_stops))]
pub fn bad_stops(stops: &[u32]) -> bool
    ensures { result ≡ bad_stops stops.now }
{
    64 < stops.len()
}

#[tactic(auto, using(std::proofs::lemmas::Bool::Decides::nat_tests), unfolding(model::specs::Refusals::bad_table))]
pub fn bad_table(locations: u32, distances: &[u32]) -> bool
    ensures { result ≡ bad_table locations distances.now }
{
    let l = locations as usize;
    80 < locations || distances.len() != l * l
}

#[tactic(auto, using(std::proofs::lemmas::Bool::Decides::nat_tests), unfolding(model::specs::Refusals::bad_length))]
pub fn bad_length(v: usize, n: usize, plan: &[u32]) -> bool
    requires { (v ≤ 16) × (n ≤ 64) }
    ensures { result ≡ bad_length v n plan.now }
{
    plan.len() != v + n
}

#[tactic(auto, using(std::proofs::lemmas::Bool::Decides::nat_tests), unfolding(model::specs::Refusals::bad_draws))]
pub fn bad_draws(draws: &[u32]) -> bool
    ensures { result ≡ bad_draws draws.now }
{
    !(1..=1024).contains(&draws.len())
}

#[tactic(auto, using(std::proofs::lemmas::Bool::Decides::nat_tests), unfolding(model::specs::Refusals::bad_locations))]
pub fn bad_locations(vehicles: &[u32], stops: &[u32], locations: u32) -> bool
    ensures { result ≡ bad_locations vehicles.now stops.now locations }
{
    !(all_below(vehicles, locations) && all_below(stops, locations))
}

#[tactic(auto, using(std::proofs::lemmas::Bool::Decides::nat_tests), unfolding(model::specs::Refusals::bad_distances))]
pub fn bad_distances(distances: &[u32]) -> bool
    ensures { result ≡ bad_distances distances.now }
{
    !all_below(distances, 200001)
}

#[tactic(auto, using(std::proofs::lemmas::Bool::Decides::nat_tests), unfolding(model::specs::Refusals::bad_prices))]
pub fn bad_prices(prices: Prices) -> bool
    ensures { result ≡ bad_prices prices }
{
    1000000 < prices.linear || 16 < prices.quadratic || 10000000000000 < prices.missed
}

#[tactic(auto, using(std::proofs::lemmas::Bool::Decides::nat_tests), unfolding(model::specs::Refusals::bad_smoothing))]
pub fn bad_smoothing(smoothing: u32) -> bool
    ensures { result ≡ bad_smoothing smoothing }
{
    !(1..=1000).contains(&smoothing)
}

#[tactic(auto, using(std::proofs::lemmas::Bool::Decides::nat_tests), unfolding(model::specs::Refusals::bad_limit))]
pub fn bad_limit(limit: u32) -> bool
    ensures { result ≡ bad_limit limit }
{
    !(1..=1000000).contains(&limit)
}

// Whether every stop of one set is in another. A set of stops is one number of 64 bits, so the test is a mask.
fn inside(part: u64, set: u64) -> bool
    ensures { result ≡ all_live set (stops_of part) }
{
    part & set == part
}

pub fn bad_live(live: u64, plan: &Plan) -> bool
    ensures { result ≡ bad_live plan.now.v plan.now.n live (numbers_of plan.now) }
{
    let placed = plan.placed_set();
    let all = stop_set::below(plan.n as u32);
    !(inside(placed, live) && inside(live, all))
}

#[tactic(auto, using(std::proofs::lemmas::Bool::Decides::nat_tests), unfolding(model::specs::Refusals::bad_arrival))]
pub fn bad_arrival(live: u64, stop: u32) -> bool
    requires { stop < 64 }
    ensures { result ≡ bad_arrival live stop }
{
    stop_set::contains(live, stop)
}

#[tactic(auto, using(std::proofs::lemmas::Bool::Decides::nat_tests), unfolding(model::specs::Refusals::bad_cancellation, model::specs::Refusals::bad_arrival))]
pub fn bad_cancellation(live: u64, stop: u32) -> bool
    requires { stop < 64 }
    ensures { result ≡ bad_cancellation live stop }
{
    !bad_arrival(live, stop)
}

#[tactic(auto, using(std::proofs::lemmas::Bool::Decides::nat_tests), unfolding(model::specs::Refusals::bad_given))]
pub fn bad_given(n: usize, given: &[u32]) -> bool
    requires { n ≤ 64 }
    ensures { result ≡ bad_given n given.now }
{
    !(1..=2).contains(&given.len()) || !plan_form::stops_once(given, n)
}

#[tactic(auto, using(std::proofs::lemmas::Bool::Decides::nat_tests), unfolding(model::specs::Refusals::too_large))]
pub fn too_large(v: usize, n: usize) -> bool
    ensures { result ≡ too_large v n }
{
    6 < n || 3 < v
}
