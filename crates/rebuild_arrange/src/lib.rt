// All arrangements of some stops in up to three gaps of a plan, and the best of them.
#![tactic(auto)]

ghost use Rattle.std.specs.Prelude.{◌≡◌, ◌<◌, length};
ghost use Rattle.model.specs.Whole.{whole};
ghost use Rattle.solution.specs.Held.{routes};
ghost use Rattle.delivery.specs.Costs.{table_cost};
ghost use Rattle.rebuild_arrange.specs.Arranged.{Arrangeable, Arranged};
ghost use Rattle.rebuild_arrange.specs.Prepared.{Based, Endable, EndsOf, beside_first, Addable, Tableable, Tells};

use distance::Tariff;
use model::{Region, Walk};
use rebuild_frame::Beginning;
use rebuild_survey::Gap;
use rebuild_tables::{Frame, Kept};
use rebuild_ways::{GAP, USED, Ways};
use solution::Plan;

// What a plan that costs so much costs without the routes of its regions.
fn base_of(tariff: &Tariff, plan: &Plan, regions: &[Region], cost: f64) -> f64
    requires arrangeable { Arrangeable plan.now regions.now }
    requires cost_value { cost ≡ whole (table_cost tariff.now.legs.table tariff.now.prices plan.now.n (routes plan.now)) }
    ensures { Based tariff.now plan.now regions.now result }
{
    let mut rest = cost;
    for region in regions {
        let route = plan.route(region.vehicle);
        let length = tariff.legs.route_length(region.vehicle, route);
        rest = rest - delivery::price(length, tariff.prices);
    }
    rest
}

// Where the legs of a table of ways begin, or end: at the drained stops, and at the places before, or after, the gaps.
fn ends_of(frame: &Frame, places: [usize; 3]) -> [u32; 16]
    requires { Endable frame.now places }
    ensures { EndsOf frame.now places result }
{
    let mut ends = [0u32; 16];
    for i in 1..USED {
        if i < GAP {
            ends[i] = frame.listed[i];
        } else {
            ends[i] = places[i - GAP] as u32;
        }
    }
    ends
}

// What all but the first gap's route costs with p gaps empty and all of the m drained stops left.
fn others_of(tariff: &Tariff, ways: &Ways, p: usize, m: u32) -> f64
    requires { Addable tariff.now ways.now p m }
    ensures { result ≡ whole (beside_first ways.now p m) }
{
    let mut sum = ways.base() + delivery::missed_cost(m, tariff.prices);
    for q in 1..p {
        sum += ways.vacant(q);
    }
    sum
}

// The table of ways of a framed plan, which costs so much. The walk's frame has room for it once.
#[inline(never)]
fn table_ways(tariff: &Tariff, plan: &Plan, regions: &[Region], frame: &Frame, cost: f64) -> Ways
    requires { Tableable tariff.now plan.now regions.now frame.now cost }
    ensures { Tells tariff.now plan.now frame.now result }
{
    let mut gaps = [Gap {
        before: 0,
        after: 0,
        head: 0,
        rest: 0,
    }; 3];
    rebuild_survey::survey(&tariff.legs, plan, regions, &mut gaps);
    let base = base_of(tariff, plan, regions, cost);
    let starts = ends_of(frame, [gaps[0].before, gaps[1].before, gaps[2].before]);
    let ends = ends_of(frame, [gaps[0].after, gaps[1].after, gaps[2].after]);
    Ways::filled(tariff, &starts, &ends, &gaps, regions.len(), base)
}

// Walks all arrangements of one region or more of a plan that costs so much, and leaves the best.
fn arrange_gaps(tariff: &Tariff, plan: &mut Plan, regions: &[Region], cost: f64) -> Walk
    requires arrangeable { Arrangeable plan.old regions.now × (0 < length regions.now) }
    requires cost_value { cost ≡ whole (table_cost tariff.now.legs.table tariff.now.prices plan.old.n (routes plan.old)) }
    ensures { Arranged tariff.now plan.old regions.now plan.new result }
{
    let Beginning { frame, own } = rebuild_frame::fill(plan, regions);
    let ways = table_ways(tariff, plan, regions, &frame, cost);
    let p = rebuild_frame::gaps(&frame);
    let others = others_of(tariff, &ways, p, rebuild_frame::drained(&frame));
    let mut kept = Kept::new(own, rebuild_frame::placed(&frame) as u64);
    let found = rebuild_walk::visit(&ways, &frame, &mut kept, others, cost);
    *plan = rebuild_frame::plan_of(&frame, kept.best);
    Walk {
        cost: found,
        begun: kept.calls[0],
        completed: kept.calls[p - 1],
    }
}

// Leaves the best arrangement of the stops of a plan's regions, and returns its cost, how many fillings of the first region were begun and how
// many arrangements were completed.
pub fn rearrange(tariff: &Tariff, plan: &mut Plan, regions: &[Region]) -> Walk
    requires { Arrangeable plan.old regions.now }
    ensures { Arranged tariff.now plan.old regions.now plan.new result }
{
    let cost = delivery::cost(tariff, plan);
    if regions.is_empty() {
        return Walk {
            cost,
            begun: 0,
            completed: 0,
        };
    }
    arrange_gaps(tariff, plan, regions, cost)
}
