ghost use Rattle.std.specs.Prelude.{◌≡◌, ◌+◌, ◌≤◌, ◌<◌, length};
ghost use Rattle.model.specs.Lists.{concat};
ghost use Rattle.model.specs.Plan.{route_of, Lent, Sizes};
ghost use Rattle.solution.specs.Sets.{SetOf};
ghost use Rattle.solution.specs.Places.{place_of};
ghost use Rattle.solution.specs.Held.{routes, numbers_of};

use crate::{Place, Plan};

// The plan of a lent form.
pub fn hold(v: usize, n: usize, form: &[u32]) -> Plan
    requires { Sizes v n × Lent v n form.now }
    ensures { (result.v ≡ v) × (result.n ≡ n) × (numbers_of result ≡ form.now) }
{
    let mut numbers = [0u32; 80];
    numbers[..v + n].copy_from_slice(form);
    Plan { v, n, numbers }
}

impl Plan {
    // The lent form.
    pub fn form(&self) -> &[u32]
        ensures { result.now ≡ numbers_of self.now }
    {
        &self.numbers[..self.v + self.n]
    }

    // The stops of route k.
    pub fn route(&self, k: usize) -> &[u32]
        requires { k < self.now.v }
        ensures { result.now ≡ route_of (routes self.now) k }
    {
        let form = self.form();
        let start = crate::offset(form, self.v, k);
        let end = start + form[k] as usize;
        &form[start..end]
    }

    // Where a stop is: its position in the whole stops area, less the lengths of the routes before its own. Unused places come after all routes.
    pub fn find(&self, stop: u32) -> Option<Place>
        ensures { result ≡ place_of stop (routes self.now) }
    {
        let form = self.form();
        let mut at = crate::position(&form[self.v..], stop);
        for k in 0..self.v {
            let size = form[k] as usize;
            if at < size {
                return Some(Place {
                    vehicle: k,
                    position: at,
                });
            }
            at -= size;
        }
        None
    }

    // The set of the stops that are on routes.
    pub fn placed_set(&self) -> u64
        ensures { SetOf (concat (routes self.now)) result }
    {
        let form = self.form();
        let end = crate::offset(form, self.v, self.v);
        crate::set_of(&form[self.v..end])
    }
}
