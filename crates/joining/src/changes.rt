ghost use Rattle.std.specs.Prelude.{◌≡◌, [], ◌≤◌, ◌<◌, false, length, replicate, Option, Some};
ghost use Rattle.model.specs.Lists.{with_last};
ghost use Rattle.model.specs.Plan.{route_of, placed, is_placed, encode, Lent, Sizes};
ghost use Rattle.model.specs.TwoOpt.{set_route};
ghost use Rattle.model.specs.Live.{placing, cancelled};
ghost use Rattle.solution.specs.Places.{place_of};
ghost use Rattle.solution.specs.Held.{routes, Holds, Becomes};

use solution::{Place, Plan};

// The plan of v empty routes.
pub fn blank(v: usize, n: usize) -> Plan
    requires { Sizes v n }
    ensures { Holds v n (replicate v []) result }
{
    let mut numbers = [0u32; 80];
    crate::empty(&mut numbers[..v + n], v, n);
    Plan { v, n, numbers }
}

// Puts a stop that is on no route in at place i of route k. The numbers stand beside the facts of a plan and cannot be lent to be written while
// these hold, so a copy of them is changed and stored, here and in the other changes.
pub fn insert(plan: &mut Plan, k: usize, i: usize, stop: u32)
    requires place { (k < plan.old.v) × (i ≤ length (route_of (routes plan.old) k)) }
    requires stop { (stop < plan.old.n) × (is_placed stop (routes plan.old) ≡ false) }
    ensures { Becomes plan.old plan.new (placing stop (routes plan.old) k i) }
{
    let v = plan.v;
    let n = plan.n;
    let mut numbers = plan.numbers;
    crate::put_in(&mut numbers[..v + n], v, n, k, i, stop);
    plan.numbers = numbers;
}

// Puts a stop that is on no route in at the end of route k.
pub fn append(plan: &mut Plan, k: usize, stop: u32)
    requires place { k < plan.old.v }
    requires stop { (stop < plan.old.n) × (is_placed stop (routes plan.old) ≡ false) }
    ensures { Becomes plan.old plan.new (with_last k stop (routes plan.old)) }
{
    let end = plan.route(k).len();
    insert(plan, k, end, stop);
}

// Takes a stop out of the place where it is.
pub fn remove(plan: &mut Plan, stop: u32, place: Place)
    requires { place_of stop (routes plan.old) ≡ Some place }
    ensures { Becomes plan.old plan.new (cancelled stop (routes plan.old)) }
{
    let v = plan.v;
    let n = plan.n;
    let mut numbers = plan.numbers;
    crate::take_out(&mut numbers[..v + n], v, n, place.vehicle, place.position);
    plan.numbers = numbers;
}

// Replaces two routes.
pub fn replace(plan: &mut Plan, a: usize, first: &[u32], b: usize, second: &[u32])
    requires vehicles { (a < plan.old.v) × (b < plan.old.v) × (a ≡ b → ⊥) }
    requires lent { Lent plan.old.v plan.old.n (encode plan.old.n (set_route b second.now (set_route a first.now (routes plan.old)))) }
    ensures { Becomes plan.old plan.new (set_route b second.now (set_route a first.now (routes plan.old))) }
{
    let v = plan.v;
    let n = plan.n;
    let mut numbers = plan.numbers;
    crate::replace_two(plan, &mut numbers[..v + n], a, first, b, second);
    plan.numbers = numbers;
}
