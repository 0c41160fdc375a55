// The tests of a road that gets longer: refusals 6 and 7 as far as they speak of it.
#![tactic(auto)]

ghost use Rattle.std.specs.Prelude.{◌≡◌, false};
ghost use Rattle.model.specs.Roads.{bad_road, bad_entry};
ghost use Rattle.distance.specs.Table.{Square};

use model::{Network, Road};

#[tactic(auto, using(std::proofs::lemmas::Bool::Decides::nat_tests), unfolding(model::specs::Roads::bad_road))]
pub fn bad_road(locations: u32, road: Road) -> bool
    ensures { result ≡ bad_road locations road }
{
    locations <= road.from || locations <= road.to
}

// Of a road of the table. The sum is made in 64 bits, as it may be larger than any number of 32.
pub fn bad_entry(network: &Network, road: Road) -> bool
    requires { Square network.now.locations network.now.distances.now × (bad_road network.now.locations road ≡ false) }
    ensures { result ≡ bad_entry network.now.locations network.now.distances.now road }
{
    let metres = distance::lookup(network, road.from, road.to);
    200000 < metres as u64 + road.more as u64
}
