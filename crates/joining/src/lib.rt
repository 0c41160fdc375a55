// Writing plans: the plan form of empty routes, one with two routes replaced, and one with a stop put in or taken out.
#![tactic(auto)]

mod changes;

ghost use Rattle.std.specs.Prelude.{◌≡◌, [], ◌∷◌, ◌++◌, ◌+◌, ◌≤◌, ◌<◌, false, length, take, drop, replicate};
ghost use Rattle.model.specs.Lists.{concat, change, with_last};
ghost use Rattle.model.specs.Plan.{unused, route_of, encode, decode, placed, is_placed, Lent, Sizes};
ghost use Rattle.model.specs.TwoOpt.{set_route};
ghost use Rattle.model.specs.Live.{placing};
ghost use Rattle.solution.specs.Held.{routes};
ghost use Rattle.joining.specs.Places.{leaving_out};
ghost use Rattle.pasting.specs.Put.{area_of};

pub use changes::{append, blank, insert, remove, replace};
use solution::Plan;

// Writes the plan of v empty routes.
pub fn empty(plan: &mut [u32], v: usize, n: usize)
    requires { length plan.old ≡ v + n }
    ensures { plan.new ≡ encode n (replicate v []) }
{
    pasting::fill(&mut plan[..v], 0);
    pasting::fill(&mut plan[v..], 4294967295);
}

// Writes `last` into a stops area from index `at` on, and 4294967295 into the places after it.
fn finish(area: &mut [u32], at: usize, last: &[u32])
    requires { at + length last.now ≤ length area.old }
    ensures { area.new ≡ area_of (length area.old) (take at area.old ++ last.now) }
{
    let end = pasting::paste(area, at, last);
    pasting::fill(&mut area[end..], 4294967295);
}

// Writes a stops area: the routes before one, that route, those between it and another, the other, and the routes after it.
fn write_around_two(
    area: &mut [u32],
    front: &[u32],
    first: &[u32],
    between: &[u32],
    second: &[u32],
    back: &[u32],
)
    requires { length front.now + length first.now + length between.now + length second.now + length back.now ≤ length area.old }
    ensures { area.new ≡ area_of (length area.old) (((front.now ++ first.now) ++ (between.now ++ second.now)) ++ back.now) }
{
    let at = pasting::join(area, 0, front, first);
    let end = pasting::join(area, at, between, second);
    finish(area, end, back);
}

// Writes the stops area of `old` with other routes a and b, a the lower.
fn write_stops_two(area: &mut [u32], old: &Plan, a: usize, first: &[u32], b: usize, second: &[u32])
    requires area_len { length area.old ≡ old.now.n }
    requires a_lt_b { (a < b) × (b < old.now.v) }
    requires bound { placed (set_route b second.now (set_route a first.now (routes old.now))) ≤ old.now.n }
    ensures { area.new ≡ area_of old.now.n (concat (set_route b second.now (set_route a first.now (routes old.now)))) }
{
    let form = old.form();
    let v = old.v;
    let start_a = solution::offset(form, v, a);
    let end_a = start_a + form[a] as usize;
    let start_b = solution::offset(form, v, b);
    let end_b = start_b + form[b] as usize;
    let used = solution::offset(form, v, v);
    write_around_two(
        area,
        &form[v..start_a],
        first,
        &form[end_a..start_b],
        second,
        &form[end_b..used],
    );
}

// Writes into `new` the plan of `old` with routes a and b replaced, a the lower.
fn replace_in_order(old: &Plan, new: &mut [u32], a: usize, first: &[u32], b: usize, second: &[u32])
    requires len { length new.old ≡ old.now.v + old.now.n }
    requires a_lt_b { (a < b) × (b < old.now.v) }
    requires bound { placed (set_route b second.now (set_route a first.now (routes old.now))) ≤ old.now.n }
    ensures { new.new ≡ encode old.now.n (set_route b second.now (set_route a first.now (routes old.now))) }
{
    let v = old.v;
    pasting::paste(new, 0, &old.form()[..v]);
    new[a] = first.len() as u32;
    new[b] = second.len() as u32;
    write_stops_two(&mut new[v..], old, a, first, b, second);
}

// Writes into `new` the plan of `old` with two routes replaced: what the two-opt between routes leaves. The new routes need not make a plan
// that can be lent, so it is written as numbers; `replace` asks that they do.
pub fn replace_two(old: &Plan, new: &mut [u32], a: usize, first: &[u32], b: usize, second: &[u32])
    requires len { length new.old ≡ old.now.v + old.now.n }
    requires a_lt_v { (a < old.now.v) × (b < old.now.v) × (a ≡ b → ⊥) }
    requires bound { placed (set_route b second.now (set_route a first.now (routes old.now))) ≤ old.now.n }
    ensures { new.new ≡ encode old.now.n (set_route b second.now (set_route a first.now (routes old.now))) }
{
    if a < b {
        replace_in_order(old, new, a, first, b, second);
    } else {
        replace_in_order(old, new, b, second, a, first);
    }
}

// Puts x before the first number of a list: each number moves one place on, and the last falls out.
fn shift_in(part: &mut [u32], x: u32)
    ensures { part.new ≡ take (length part.old) (x ∷ part.old) }
{
    if !part.is_empty() {
        let last = part.len() - 1;
        part.copy_within(..last, 1);
        part[0] = x;
    }
}

// Puts a stop in at place i of route k, in the numbers of a lent form. Some place of the plan is unused. The stop may be any number, so what is
// left need not be a plan; `insert` asks that it is.
pub fn put_in(plan: &mut [u32], v: usize, n: usize, k: usize, i: usize, stop: u32)
    requires sizes { Sizes v n × Lent v n plan.old }
    requires k_lt_v { (k < v) × (i ≤ length (route_of (decode v plan.old) k)) × (placed (decode v plan.old) < n) }
    ensures { plan.new ≡ encode n (placing stop (decode v plan.old) k i) }
{
    let at = solution::offset(plan, v, k) + i;
    shift_in(&mut plan[at..], stop);
    plan[k] = plan[k] + 1;
}

// Puts a stop that is on no route in at the end of route k, in the numbers of a plan, whose lent form is again one. So a caller changes a plan
// that is a local of its own in place: behind a reference the numbers cannot be lent (see `insert`), and each change copies them.
pub fn put_last(numbers: &mut [u32; 80], v: usize, n: usize, k: usize, stop: u32)
    requires sizes { Sizes v n × Lent v n (take (v + n) numbers.old) }
    requires place { k < v }
    requires stop { (stop < n) × (is_placed stop (decode v (take (v + n) numbers.old)) ≡ false) }
    ensures form { take (v + n) numbers.new ≡ encode n (with_last k stop (decode v (take (v + n) numbers.old))) }
    ensures lent { Lent v n (take (v + n) numbers.new) }
    ensures rest { drop (v + n) numbers.new ≡ drop (v + n) numbers.old }
{
    let size = numbers[k] as usize;
    put_in(&mut numbers[..v + n], v, n, k, size, stop);
}

// Takes the first number of a list out: each other moves one place to the front, and 4294967295 stands last.
fn shift_out(part: &mut [u32])
    requires { 1 ≤ length part.old }
    ensures { part.new ≡ drop 1 part.old ++ (unused ∷ []) }
{
    let last = part.len() - 1;
    part.copy_within(1.., 0);
    part[last] = 4294967295;
}

// Takes the stop at place i of route k out, in the numbers of a lent form. It and put_in turn the other way and count the other way.
pub fn take_out(plan: &mut [u32], v: usize, n: usize, k: usize, i: usize)
    requires sizes { Sizes v n × Lent v n plan.old }
    requires k_lt_v { (k < v) × (i < length (route_of (decode v plan.old) k)) }
    ensures { plan.new ≡ encode n (change k (leaving_out i) (decode v plan.old)) }
{
    let at = solution::offset(plan, v, k) + i;
    shift_out(&mut plan[at..]);
    plan[k] = plan[k] - 1;
}
