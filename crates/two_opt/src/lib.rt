// Two-opt: a pair of stops, and the pass over all pairs of ten stops.
#![tactic(auto)]

ghost use Rattle.std.specs.Prelude.{◌≡◌, ℕ, ◌<◌, length, take};
ghost use Rattle.model.specs.Lists.{pairs, Once};
ghost use Rattle.model.specs.Job.{Job};
ghost use Rattle.model.specs.Nearest.{neighbours};
ghost use Rattle.model.specs.TwoOpt.{two_opt, two_opt_all, two_opt_pass};
ghost use Rattle.solution.specs.Held.{routes, Becomes, SizesKept};
ghost use Rattle.delivery.specs.Held.{IsJobOf};
ghost use Rattle.two_opt.specs.Pairs.{pairs_of};

use distance::Tariff;
use solution::Plan;
use two_opt_inter::Visit;

// The pair s, t: no change where one of them is unplaced, else the move on their route or on their two routes, that of s first.
pub fn pair(tariff: &Tariff, plan: &mut Plan, s: u32, t: u32)
    requires { s ≡ t → ⊥ }
    ensures plan_after { (J : Job) → IsJobOf J tariff.now plan.old → Becomes plan.old plan.new (two_opt J (routes plan.old) s t) }
    ensures sizes { SizesKept plan.old plan.new }
{
    let Some(x) = plan.find(s) else {
        return;
    };
    let Some(y) = plan.find(t) else {
        return;
    };
    let a = x.vehicle;
    let b = y.vehicle;
    if a == b {
        two_opt_intra::intra(tariff, plan, a, s, t);
    } else {
        let first = Visit {
            vehicle: a,
            stop: s,
        };
        let second = Visit {
            vehicle: b,
            stop: t,
        };
        two_opt_inter::inter(tariff, plan, first, second);
    }
}

// The pairs of the i-th stop of a list with each later one.
fn pairs_of(tariff: &Tariff, plan: &mut Plan, stops: &[u32], i: usize)
    requires { Once stops.now × (i < length stops.now) }
    ensures plan_after { (J : Job) → IsJobOf J tariff.now plan.old
        → Becomes plan.old plan.new (two_opt_all J (routes plan.old) (pairs_of i stops.now)) }
    ensures sizes { SizesKept plan.old plan.new }
{
    let s = stops[i];
    for &t in &stops[i + 1..] {
        pair(tariff, plan, s, t);
    }
}

// All pairs of a list, in order of position.
fn all_pairs(tariff: &Tariff, plan: &mut Plan, stops: &[u32])
    requires { Once stops.now }
    ensures plan_after { (J : Job) → IsJobOf J tariff.now plan.old
        → Becomes plan.old plan.new (two_opt_all J (routes plan.old) (pairs stops.now)) }
    ensures sizes { SizesKept plan.old plan.new }
{
    for i in 0..stops.len() {
        pairs_of(tariff, plan, stops, i);
    }
}

// The two-opt pass around a stop x, of which S(x) is given: all pairs of its first ten. Of any other list too it takes the pairs of the first ten.
pub fn pass(tariff: &Tariff, plan: &mut Plan, near: &[u32])
    requires { Once near.now }
    ensures plan_after { (J : Job) → IsJobOf J tariff.now plan.old → (x : ℕ) → near.now ≡ neighbours J x
        → Becomes plan.old plan.new (two_opt_pass J (routes plan.old) x) }
    ensures sizes { SizesKept plan.old plan.new }
    ensures plan_after_2 { (J : Job) → IsJobOf J tariff.now plan.old
        → Becomes plan.old plan.new (two_opt_all J (routes plan.old) (pairs (take 10 near.now))) }
{
    let few = near.len().min(10);
    all_pairs(tariff, plan, &near[..few]);
}
