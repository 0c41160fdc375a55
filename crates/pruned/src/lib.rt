// The pruned solver: from the empty plan, a stop is appended to a route only if the routes then cost less than the whole plan did.
#![tactic(auto)]

ghost use Rattle.std.specs.Prelude.{◌≡◌};
ghost use Rattle.model.specs.Whole.{amount, whole};
ghost use Rattle.model.specs.Job.{Job};
ghost use Rattle.model.specs.Plan.{Sizes};
ghost use Rattle.model.specs.Legs.{Fits};
ghost use Rattle.model.specs.Cost.{cost};
ghost use Rattle.model.specs.Rebuild.{pruned};
ghost use Rattle.solution.specs.Held.{routes, Holds};
ghost use Rattle.pruned.specs.Search.{wins_tie, preferred, SameSizes, Rivals, Winner, Search, Searched};

use distance::Tariff;
use solution::Plan;

// Whether the choice prefers a plan to another that costs the same: it places more stops (the ones of the set of the placed stops are
// counted), or as many and has the lower lent form.
fn wins_tie(plan: &Plan, best: &Plan) -> bool
    requires { SameSizes plan.now best.now }
    ensures { result ≡ wins_tie plan.now.n (routes plan.now) (routes best.now) }
{
    let placed = stop_set::size(plan.placed_set());
    let most = stop_set::size(best.placed_set());
    most < placed || placed == most && solution::lower(plan.form(), best.form())
}

// Whether the choice prefers a plan to the best so far: it costs less, or the same and wins the tie.
fn prefers(plan: &Plan, cost: f64, best: &Plan, least: f64) -> bool
    requires { Rivals plan.now cost best.now least }
    ensures { result ≡ preferred plan.now.n (amount cost) (routes plan.now) (amount least) (routes best.now) }
{
    whole::cheaper(cost, least) || whole::same(cost, least) && wins_tie(plan, best)
}

// Keeps the preferred one of a plan and the best so far, and returns its cost.
fn consider(plan: &Plan, cost: f64, best: &mut Plan, least: f64) -> f64
    requires { Rivals plan.now cost best.old least }
    ensures { Winner plan.now cost best.old least best.new result }
{
    if prefers(plan, cost, best, least) {
        *best = *plan;
        return cost;
    }
    least
}

// The choice among the best plan so far, a plan whose routes cost less than the bound, and all plans that are reached from it.
fn reach(tariff: &Tariff, left: u64, plan: &Plan, bound: f64, best: &mut Plan, least: f64) -> f64
    requires { Search tariff.now left plan.now bound best.old least }
    ensures { Searched tariff.now left plan.now bound best.old best.new result }
{
    let driving = delivery::driving_cost(tariff, plan);
    let cost = driving + delivery::missed_cost(stop_set::size(left), tariff.prices);
    if !whole::cheaper(driving, bound) {
        return least;
    }
    let mut found = consider(plan, cost, best, least);
    let mut rest = left;
    // The stops of a set come by its lowest: a set is a number, and a `for` would carry the same number in an iterator of its own.
    while rest != 0 {
        let stop = stop_set::lowest(rest);
        rest = stop_set::without(rest, stop);
        let after = stop_set::without(left, stop);
        for k in 0..plan.v {
            let mut next = *plan;
            joining::put_last(&mut next.numbers, plan.v, plan.n, k, stop);
            found = reach(tariff, after, &next, cost, best, found);
        }
    }
    found
}

// The plan that the pruned solver chooses, and its cost.
pub fn pruned(tariff: &Tariff, v: usize, n: usize) -> (Plan, f64)
    requires { Sizes v n }
    ensures sizes { (result.0.v ≡ v) × (result.0.n ≡ n) }
    ensures chosen { (J : Job) → Fits J tariff.now.legs.table v n tariff.now.prices
        → Holds v n (pruned J) result.0 × (result.1 ≡ whole (cost J (pruned J))) }
{
    let start = joining::blank(v, n);
    let mut best = start;
    let least = delivery::cost(tariff, &start);
    let left = stop_set::below(n as u32);
    // No routes cost as much, so the empty plan is below this bound.
    let unbounded = whole::of_u64(9007199254740992);
    let cost = reach(tariff, left, &start, unbounded, &mut best, least);
    (best, cost)
}
