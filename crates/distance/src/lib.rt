// Distances: the job's own table, the leg table that a run looks up once, and the length of a route over it.
#![tactic(auto)]

mod legs;
mod tariff;
mod weighing;

ghost use Rattle.std.specs.Prelude.{◌≡◌, ◌+◌, ◌/◌, ◌≤◌, ◌<◌, length, true};
ghost use Rattle.model.specs.Job.{priced, entry};
ghost use Rattle.model.specs.declared.Prices.{Prices};
ghost use Rattle.distance.specs.Table.{Square, Limited, is_place, between, EndsOf, Row, TableOf};
ghost use Rattle.distance.specs.Sides.{leads, leads_at};

pub use legs::Legs;
use model::Network;
pub use tariff::Tariff;
pub use weighing::{tariff_of, unfilled};

// The metres from one location to another. No other function reads the job's own table. That the table is square is asked, and no fact of a
// `Network`, which is what a host lends before anything is tested.
pub fn lookup(network: &Network, from: u32, to: u32) -> u32
    requires { Square network.now.locations network.now.distances.now × (from < network.now.locations) × (to < network.now.locations) }
    ensures { result ≡ entry network.now.distances.now network.now.locations from to }
{
    let i = (from * network.locations + to) as usize;
    network.distances[i]
}

// Whether a place is there, with v vehicles and n stops.
fn is_place(v: usize, n: usize, place: usize) -> bool
    requires { v ≤ 16 }
    ensures { result ≡ is_place v n place }
{
    place < n || (64 <= place && place < 64 + v)
}

// A side of a leg: where it begins, or where it ends.
#[derive(Clone, Copy)]
enum Side {
    Start,
    End,
}

// The location of a place on a side of a leg: of a stop its own, of a vehicle its start where a leg begins, and its end where one ends.
fn location_at(network: &Network, place: usize, side: Side) -> u32
    requires few { length network.now.stops.now ≤ 64 }
    requires there { is_place (length network.now.vehicles.now / 2) (length network.now.stops.now) place ≡ true }
    ensures { (p : Prices) → result ≡ leads (priced network.now p) side place }
{
    if place < 64 {
        return network.stops[place];
    }
    let start = 2 * (place - 64);
    match side {
        Side::Start => network.vehicles[start],
        Side::End => network.vehicles[start + 1],
    }
}

// The same, the number of locations for a place that is not there. That number is no location, so that the one test that `metres` makes of it
// keeps such places and all entries outside the table apart: an Option would be opened there, and its number tested as well.
fn location_of(network: &Network, place: usize, side: Side) -> u32
    requires { (length network.now.vehicles.now ≤ 32) × (length network.now.stops.now ≤ 64) }
    ensures { (p : Prices) → result ≡ leads_at (priced network.now p) side place }
{
    if !is_place(network.vehicles.len() / 2, network.stops.len(), place) {
        return network.locations;
    }
    location_at(network, place, side)
}

// The metres from one location to another, 0 where one of them is none.
fn metres(network: &Network, from: u32, to: u32) -> u32
    requires { Square network.now.locations network.now.distances.now }
    ensures { result ≡ between network.now.distances.now network.now.locations from to }
{
    if from >= network.locations || to >= network.locations {
        return 0;
    }
    lookup(network, from, to)
}

// Writes where a leg to each place ends, so that it is looked up once and not in every row.
fn place_ends(network: &Network, ends: &mut [u32; 80])
    requires { (length network.now.vehicles.now ≤ 32) × (length network.now.stops.now ≤ 64) × (length ends.old ≡ 80) }
    ensures { (p : Prices) → EndsOf (priced network.now p) 80 ends.new }
{
    for i in 0..80 {
        ends[i] = location_of(network, i, Side::End);
    }
}

// Fills a row of the leg table, which begins at `first`: the metres from a location to each of the ends. The network is copied, so that its
// numbers stay in registers while the table is written.
fn fill_row(network: &Network, from: u32, ends: &[u32; 80], legs: &mut Legs, first: usize)
    requires { Limited network.now × (first + 80 ≤ 6400) }
    ensures { Row network.now.distances.now network.now.locations from ends.now first 80 legs.old.table legs.new.table }
{
    let network = *network;
    for i in 0..80 {
        let metres = metres(&network, from, ends[i]);
        legs.table[first + i] = metres;
    }
}

// Fills the leg table of a network: 80 rows of 80, place by place.
pub fn fill_table(network: &Network, legs: &mut Legs)
    requires { Limited network.now }
    ensures { TableOf network.now legs.new.table }
{
    let mut ends = [0u32; 80];
    place_ends(network, &mut ends);
    for i in 0..80 {
        let from = location_of(network, i, Side::Start);
        fill_row(network, from, &ends, legs, 80 * i);
    }
}

// The leg table of a network, for a caller that does little with it: then it is filled where it stays, and not copied.
#[inline(always)]
pub fn legs_of(network: &Network) -> Legs
    requires { Limited network.now }
    ensures { TableOf network.now result.table }
{
    let mut legs = Legs {
        table: [0u32; 6400],
    };
    fill_table(network, &mut legs);
    legs
}
