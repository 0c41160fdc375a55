ghost use Rattle.std.specs.Prelude.{◌≡◌, ◌≤◌, ◌<◌, replicate};
ghost use Rattle.model.specs.Legs.{leg_at, Affordable};
ghost use Rattle.distance.specs.Table.{Limited, TableOf};
ghost use Rattle.distance.specs.Ways.{Drivable, RouteLength};

use crate::{Legs, Tariff};
use model::{Job, Prices};

impl Legs {
    // The metres of the leg from one place to another. No other function reads the leg table.
    pub fn leg(&self, from: usize, to: usize) -> u32
        requires { (from < 80) × (to < 80) }
        ensures { (result ≡ leg_at self.now.table from to) × (result ≤ 200000) }
    {
        self.table[from * 80 + to]
    }

    // The length of a vehicle's route: from its start through the stops to its end.
    pub fn route_length(&self, vehicle: usize, route: &[u32]) -> u32
        requires { (vehicle < 16) × Drivable route.now }
        ensures { RouteLength self.now.table vehicle route.now result }
    {
        let mut sum: u32 = 0;
        let mut here = 64 + vehicle;
        for stop in route {
            let next = *stop as usize;
            sum += self.leg(here, next);
            here = next;
        }
        sum + self.leg(here, 64 + vehicle)
    }
}

// A tariff of some prices whose leg table is still to be filled. With `fill_table` a caller fills the table in a variable of its own, where
// the tariff stays: one that is filled first and then returned, as by `tariff_of`, is copied where much of the caller reads it.
#[inline(always)]
pub fn unfilled(prices: Prices) -> Tariff
    requires { Affordable prices }
    ensures { (result.legs.table ≡ replicate 6400 0) × (result.prices ≡ prices) }
{
    Tariff {
        legs: Legs {
            table: [0u32; 6400],
        },
        prices,
    }
}

// What a job's plans are weighed by, for a caller that does little with it: then its table is filled where it stays (see `unfilled`).
#[inline(always)]
pub fn tariff_of(job: &Job) -> Tariff
    requires { Limited job.now.network × Affordable job.now.prices }
    ensures { TableOf job.now.network result.legs.table × (result.prices ≡ job.now.prices) }
{
    let mut tariff = Tariff {
        legs: Legs {
            table: [0u32; 6400],
        },
        prices: job.prices,
    };
    crate::fill_table(&job.network, &mut tariff.legs);
    tariff
}
