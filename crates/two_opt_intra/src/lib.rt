// Two-opt of a pair of stops on one route.
#![tactic(auto)]

ghost use Rattle.std.specs.Prelude.{◌≡◌, ◌<◌, length};
ghost use Rattle.model.specs.Job.{Job};
ghost use Rattle.model.specs.TwoOpt.{intra};
ghost use Rattle.solution.specs.Held.{routes, Becomes, SizesKept};
ghost use Rattle.delivery.specs.Held.{IsJobOf};
ghost use Rattle.two_opt_intra.specs.Reordered.{reordered, Weighable, Weighs, OneRoute};

use distance::Tariff;
use solution::Plan;

// What a route costs on a vehicle.
fn weigh(tariff: &Tariff, vehicle: usize, route: &[u32]) -> f64
    requires { Weighable vehicle route.now }
    ensures { Weighs tariff.now.legs.table tariff.now.prices vehicle route.now result }
{
    let length = tariff.legs.route_length(vehicle, route);
    delivery::price(length, tariff.prices)
}

// Replaces a route by the first of the cheapest of its two new forms, for the stops at i and j, and itself.
fn reorder(tariff: &Tariff, vehicle: usize, route: &mut [u32], i: usize, j: usize)
    requires weighable { Weighable vehicle route.old }
    requires i_lt_j { (i < j) × (j < length route.old) }
    ensures { route.new ≡ reordered tariff.now.legs.table tariff.now.prices vehicle i j route.old }
{
    let m = route.len();
    let mut first = [0u32; 64];
    let mut second = [0u32; 64];
    two_opt_inversions::ends_exchanged(route, i, j, &mut first);
    two_opt_inversions::inverted(route, i, j, &mut second);
    let a = weigh(tariff, vehicle, &first[..m]);
    let b = weigh(tariff, vehicle, &second[..m]);
    let old = weigh(tariff, vehicle, route);
    let (form, cost) = if b < a {
        (&second[..m], b)
    } else {
        (&first[..m], a)
    };
    if old < cost {
        return;
    }
    route.copy_from_slice(form);
}

// The pair s, t on route k: least cost of the two new routes and the old one, on ties the earliest.
pub fn intra(tariff: &Tariff, plan: &mut Plan, k: usize, s: u32, t: u32)
    requires { OneRoute plan.old k s t }
    ensures plan_after { (J : Job) → IsJobOf J tariff.now plan.old → Becomes plan.old plan.new (intra J (routes plan.old) k s t) }
    ensures sizes { SizesKept plan.old plan.new }
{
    let v = plan.v;
    let n = plan.n;
    let mut numbers = plan.numbers;
    let form = &mut numbers[..v + n];
    let start = solution::offset(form, v, k);
    let end = start + form[k] as usize;
    let route = &mut form[start..end];
    let i = solution::position(route, s);
    let j = solution::position(route, t);
    reorder(tariff, k, route, i.min(j), i.max(j));
    plan.numbers = numbers;
}
