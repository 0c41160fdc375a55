// Surveys of gaps: what is known of each gap of a plan in advance.
#![tactic(auto)]

ghost use Rattle.std.specs.Prelude.{◌≡◌, ◌≤◌, ◌<◌, length};
ghost use Rattle.distance.specs.Ways.{Drivable};
ghost use Rattle.rebuild_words.specs.Gaps.{Gapped};
ghost use Rattle.rebuild_survey.specs.Ways.{Stepped, Measured};
ghost use Rattle.rebuild_survey.specs.Surveys.{Surveyed, Unsurveyed};

use distance::Legs;
use model::Region;
use solution::Plan;

// A way from a place: its length, and the place where it ends.
#[derive(Clone, Copy)]
pub struct Way {
    pub length: u32,
    pub last: usize,
}

// What is known of a gap: the places before and after it, the way to the one and the way on from the other.
#[derive(Clone, Copy)]
pub struct Gap {
    pub before: usize,
    pub after: usize,
    pub head: u32,
    pub rest: u32,
}

// The way from a place to the last stop of a part of a route.
fn along(legs: &Legs, from: usize, part: &[u32]) -> Way
    requires { (from < 80) × Drivable part.now }
    ensures { Stepped legs.now.table from part.now result }
{
    let mut sum: u32 = 0;
    let mut last = from;
    for &stop in part {
        let next = stop as usize;
        sum += legs.leg(last, next);
        last = next;
    }
    Way { length: sum, last }
}

// What is known of the gap that a route has from one position up to another.
fn measure(legs: &Legs, vehicle: usize, route: &[u32], from: usize, to: usize) -> Gap
    requires drivable { (vehicle < 16) × Drivable route.now }
    requires from_le_to { (from ≤ to) × (to ≤ length route.now) }
    ensures { Measured legs.now.table vehicle route.now from to result }
{
    let own = 64 + vehicle;
    let head = along(legs, own, &route[..from]);
    if to == route.len() {
        return Gap {
            before: head.last,
            after: own,
            head: head.length,
            rest: 0,
        };
    }
    let first = route[to] as usize;
    let rest = along(legs, first, &route[to + 1..]);
    Gap {
        before: head.last,
        after: first,
        head: head.length,
        rest: rest.length + legs.leg(rest.last, own),
    }
}

// Writes what is known of each gap of a plan. What stands after these stays.
pub fn survey(legs: &Legs, plan: &Plan, regions: &[Region], gaps: &mut [Gap])
    requires { Gapped plan.now regions.now × (length gaps.old ≡ 3) }
    ensures surveyed { Surveyed legs.now plan.now regions.now gaps.new }
    ensures unsurveyed { Unsurveyed regions.now gaps.old gaps.new }
{
    for (q, region) in regions.iter().enumerate() {
        let route = plan.route(region.vehicle);
        gaps[q] = measure(legs, region.vehicle, route, region.from, region.to);
    }
}
