// The rebuild: the stops of the regions around the picks are arranged anew, and the best arrangement takes the plan's place.
#![tactic(auto)]

ghost use Rattle.std.specs.Prelude.{◌≤◌, length};
ghost use Rattle.rebuild.specs.Leaves.{Leaves};

use distance::Tariff;
use model::{Region, Walk};
use solution::Plan;

// Rebuilds the regions around one or two picks, and returns the new cost, how many fillings of the first region were begun, and how many
// arrangements were completed. Where no pick is placed there is no region, nothing changes, and both counts are 0.
pub fn rebuild(tariff: &Tariff, plan: &mut Plan, picks: &[u32]) -> Walk
    requires { length picks.now ≤ 2 }
    ensures { Leaves tariff.now plan.old picks.now plan.new result }
{
    let mut regions = [Region {
        vehicle: 0,
        from: 0,
        to: 0,
    }; 2];
    let p = rebuild_regions::regions_of(plan, picks, &mut regions);
    rebuild_arrange::rearrange(tariff, plan, &regions[..p])
}
