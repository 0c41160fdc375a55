// The exhaustive solver: the choice among all arrangements of all stops on all vehicles.
#![tactic(auto)]

ghost use Rattle.std.specs.Prelude.{◌≡◌, ◌≤◌};
ghost use Rattle.model.specs.Whole.{whole};
ghost use Rattle.model.specs.Job.{Job};
ghost use Rattle.model.specs.Legs.{Fits};
ghost use Rattle.model.specs.Cost.{cost};
ghost use Rattle.model.specs.Rebuild.{exhaustive};
ghost use Rattle.solution.specs.Held.{Holds};
ghost use Rattle.exhaustive.specs.Full.{full_plan};

use distance::Tariff;
use model::Region;
use solution::Plan;

// The plan with every stop on the first vehicle, where there is one.
fn full(v: usize, n: usize) -> Plan
    requires { (v ≤ 3) × (n ≤ 6) }
    ensures { Holds v n (full_plan v n) result }
{
    let mut plan = joining::blank(v, n);
    if v == 0 {
        return plan;
    }
    for stop in 0..n as u32 {
        joining::append(&mut plan, 0, stop);
    }
    plan
}

// The plan that the exhaustive solver chooses, and its cost.
pub fn exhaustive(tariff: &Tariff, v: usize, n: usize) -> (Plan, f64)
    requires { (v ≤ 3) × (n ≤ 6) }
    ensures sizes { (result.0.v ≡ v) × (result.0.n ≡ n) }
    ensures chosen { (J : Job) → Fits J tariff.now.legs.table v n tariff.now.prices
        → Holds v n (exhaustive J) result.0 × (result.1 ≡ whole (cost J (exhaustive J))) }
{
    let mut plan = full(v, n);
    let regions = [
        Region {
            vehicle: 0,
            from: 0,
            to: n,
        },
        Region {
            vehicle: 1,
            from: 0,
            to: 0,
        },
        Region {
            vehicle: 2,
            from: 0,
            to: 0,
        },
    ];
    let walk = rebuild_arrange::rearrange(tariff, &mut plan, &regions[..v]);
    (plan, walk.cost)
}
