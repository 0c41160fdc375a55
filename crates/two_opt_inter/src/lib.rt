// The two-opt move of a pair of stops on two routes: of the candidates only the kept one is written.
#![tactic(auto)]

ghost use Rattle.std.specs.Prelude.{◌≡◌, ◌++◌, ◌+◌, ◌≤◌, length, take, drop};
ghost use Rattle.model.specs.Job.{Job};
ghost use Rattle.model.specs.Plan.{route_of};
ghost use Rattle.model.specs.TwoOpt.{turned, set_route, inter};
ghost use Rattle.solution.specs.Held.{routes, Becomes, SizesKept};
ghost use Rattle.delivery.specs.Held.{IsJobOf};
ghost use Rattle.pasting.specs.Put.{put};
ghost use Rattle.two_opt_candidates.specs.Pairs.{pair_of, plan_at, least_pair};
ghost use Rattle.two_opt_inter.specs.Move.{OnTwoRoutes, TwoRoutes, NewRows, joined_route};

use distance::Tariff;
use solution::Plan;
use two_opt_candidates::Best;
pub use two_opt_candidates::Visit;

// The kept candidate of a pair of stops on two routes of a plan.
fn least_of_plan(tariff: &Tariff, plan: &Plan, first: Visit, second: Visit) -> Best
    requires { OnTwoRoutes plan.now first.vehicle first.stop second.vehicle second.stop }
    ensures { let ra = route_of (routes plan.now) first.vehicle in
        let rb = route_of (routes plan.now) second.vehicle in
        result.code ≡ (least_pair tariff.now.legs.table tariff.now.prices first.vehicle ra first.stop second.vehicle rb second.stop).0 }
{
    let ra = plan.route(first.vehicle);
    let rb = plan.route(second.vehicle);
    two_opt_candidates::least_pair(tariff, first, ra, second, rb)
}

// Writes a route into the front of a row, reversed or not.
fn write_turned(reversed: bool, route: &[u32], row: &mut [u32])
    requires { length route.now ≤ length row.old }
    ensures { row.new ≡ put row.old 0 (turned reversed route.now) }
{
    if reversed {
        pasting::paste_reversed(row, 0, route);
        return;
    }
    pasting::paste(row, 0, route);
}

// A row of stops, and a place on it: that of a stop, or that of a cut.
#[derive(Clone, Copy)]
struct Row<'a> {
    stops: &'a [u32],
    at: usize,
}

// Writes a head, up to the cut of a row, and a tail, from a cut on, which are each of the route's own row or of the other one.
fn write_joined(row: &mut [u32], heads: bool, tails: bool, own: Row, other: Row) -> usize
    requires { (own.at ≤ length own.stops.now) × (other.at ≤ length other.stops.now) × (length own.stops.now + length other.stops.now ≤ length row.old) }
    ensures value { result ≡ length (joined_route heads tails own.entry.stops.now own.entry.at other.entry.stops.now other.entry.at) }
    ensures row_after { row.new ≡ put row.old 0 (joined_route heads tails own.entry.stops.now own.entry.at other.entry.stops.now other.entry.at) }
{
    let head = if heads { own } else { other };
    let tail = if tails { own } else { other };
    pasting::join(row, 0, &head.stops[..head.at], &tail.stops[tail.at..])
}

// Replaces a plan by that of a candidate, which is made of two rows in which the stops of the pair stand at i and j.
fn write_pair(plan: &mut Plan, a: usize, ra: Row, b: usize, rb: Row, code: usize)
    requires { TwoRoutes plan.old a b × NewRows plan.old a ra.stops.now ra.at b rb.stops.now rb.at }
    ensures { let new = pair_of ra.entry.stops.now ra.entry.at rb.entry.stops.now rb.entry.at code in
        Becomes plan.old plan.new (set_route b new.1 (set_route a new.0 (routes plan.old))) }
{
    let c = two_opt_candidates::choice_of(code, ra.at, rb.at);
    let first = Row {
        stops: ra.stops,
        at: c.first,
    };
    let second = Row {
        stops: rb.stops,
        at: c.second,
    };
    let mut x = [0u32; 64];
    let p = write_joined(&mut x, c.heads, c.tails, first, second);
    let mut y = [0u32; 64];
    let q = write_joined(&mut y, c.heads, c.tails, second, first);
    joining::replace(plan, a, &x[..p], b, &y[..q]);
}

// Replaces a plan by that of a candidate of a pair of stops. The stops' positions are read after the reversal.
fn write_candidate(plan: &mut Plan, first: Visit, second: Visit, code: usize)
    requires { OnTwoRoutes plan.old first.vehicle first.stop second.vehicle second.stop }
    ensures { Becomes plan.old plan.new (plan_at (routes plan.old) first.vehicle first.stop second.vehicle second.stop code) }
{
    let ra = plan.route(first.vehicle);
    let rb = plan.route(second.vehicle);
    let m = ra.len();
    let k = rb.len();
    let mut xa = [0u32; 64];
    write_turned(code / 32 % 2 == 1, ra, &mut xa);
    let mut xb = [0u32; 64];
    write_turned(code / 16 % 2 == 1, rb, &mut xb);
    let ta = &xa[..m];
    let tb = &xb[..k];
    let i = solution::position(ta, first.stop);
    let j = solution::position(tb, second.stop);
    let xs = Row { stops: ta, at: i };
    let ys = Row { stops: tb, at: j };
    write_pair(plan, first.vehicle, xs, second.vehicle, ys, code);
}

// The code of the plan as it is.
const OLD_PLAN: usize = 0;

// The two-opt move of two stops on two routes of a plan: the kept candidate is written, unless it is the old plan.
pub fn inter(tariff: &Tariff, plan: &mut Plan, first: Visit, second: Visit)
    requires { OnTwoRoutes plan.old first.vehicle first.stop second.vehicle second.stop }
    ensures plan_after { (J : Job) → IsJobOf J tariff.now plan.old
        → Becomes plan.old plan.new (inter J (routes plan.old) first.vehicle first.stop second.vehicle second.stop) }
    ensures sizes { SizesKept plan.old plan.new }
{
    let best = least_of_plan(tariff, plan, first, second);
    let code = best.code;
    if code == OLD_PLAN {
        return;
    }
    write_candidate(plan, first, second, code);
}
