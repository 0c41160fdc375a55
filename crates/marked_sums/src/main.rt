// Worked figures of the specification, through the code. Prints what the walk over the arrangements counts, the fillings of the first gap
// that it began and the arrangements that it completed: of 7 stops in one gap, of 6 in two gaps, of no gap, and of 6 on three vehicles. The
// row for a pair on one route, 0 1 2 3 4 with stops 0 and 4, is checked.
#![tactic(auto)]

ghost use Rattle.std.specs.Prelude.{◌≡◌, [], ◌∷◌, ◌≤◌, length};
ghost use Rattle.model.specs.Region.{drained};
ghost use Rattle.model.specs.Rebuild.{begun, completed};
ghost use Rattle.solution.specs.Held.{routes};
ghost use Rattle.rebuild_words.specs.Gaps.{Gapped};

use distance::{Legs, Tariff};
use model::{Prices, Region, Walk};
use solution::Plan;
use std::io;

// What the walk over the arrangements of a plan's regions counts. All legs are 0 metres long, and nothing has a price.
fn count(plan: &Plan, regions: &[Region]) -> Walk
    requires { Gapped plan.now regions.now × (length (drained (routes plan.now) regions.now) ≤ 7) }
    ensures begun_value { result.begun ≡ begun (routes plan.now) regions.now }
    ensures completed_value { result.completed ≡ completed (routes plan.now) regions.now }
{
    let legs = Legs {
        table: [0u32; 6400],
    };
    let prices = Prices {
        linear: 0,
        quadratic: 0,
        missed: 0,
    };
    let tariff = Tariff { legs, prices };
    let mut best = *plan;
    rebuild_arrange::rearrange(&tariff, &mut best, regions)
}

// 7 stops in one gap.
fn seven_in_one() -> Walk
    ensures { (result.begun ≡ 13700) × (result.completed ≡ 13700) }
{
    let plan = solution::hold(1, 7, &[7, 0, 1, 2, 3, 4, 5, 6]);
    let regions = [Region {
        vehicle: 0,
        from: 0,
        to: 7,
    }];
    count(&plan, &regions)
}

// 6 stops in two gaps.
fn six_in_two() -> Walk
    ensures { (result.begun ≡ 1957) × (result.completed ≡ 11743) }
{
    let plan = solution::hold(2, 6, &[6, 0, 0, 1, 2, 3, 4, 5]);
    let regions = [
        Region {
            vehicle: 0,
            from: 0,
            to: 6,
        },
        Region {
            vehicle: 1,
            from: 0,
            to: 0,
        },
    ];
    count(&plan, &regions)
}

// No gap.
fn in_none() -> Walk
    ensures { (result.begun ≡ 0) × (result.completed ≡ 0) }
{
    let plan = solution::hold(2, 6, &[6, 0, 0, 1, 2, 3, 4, 5]);
    count(&plan, &[])
}

// 6 stops on three vehicles.
fn six_on_three() -> Walk
    ensures { (result.begun ≡ 1957) × (result.completed ≡ 42079) }
{
    let plan = solution::hold(3, 6, &[6, 0, 0, 0, 1, 2, 3, 4, 5]);
    let regions = [
        Region {
            vehicle: 0,
            from: 0,
            to: 6,
        },
        Region {
            vehicle: 1,
            from: 0,
            to: 0,
        },
        Region {
            vehicle: 2,
            from: 0,
            to: 0,
        },
    ];
    count(&plan, &regions)
}

// Prints both counts on a line.
fn print_counts(rt: &impl Print, walk: Walk) -> io::Result<()> {
    println!(rt; "{} {}", walk.begun, walk.completed)
}

// The first candidate of the pair.
fn first() -> [u32; 5]
    ensures { result ≡ 4 ∷ 1 ∷ 2 ∷ 3 ∷ 0 ∷ [] }
{
    let route = [0u32, 1, 2, 3, 4];
    let mut out = [0u32; 5];
    two_opt_inversions::ends_exchanged(&route, 0, 4, &mut out);
    out
}

// The second, by the other inversion.
fn second() -> [u32; 5]
    ensures { result ≡ 0 ∷ 3 ∷ 2 ∷ 1 ∷ 4 ∷ [] }
{
    let route = [0u32, 1, 2, 3, 4];
    let mut out = [0u32; 5];
    two_opt_inversions::inverted(&route, 0, 4, &mut out);
    out
}

fn check_rows() {
    let a = first();
    let b = second();
    prove!(a[0] == 4);
    prove!(a[4] == 0);
    prove!(b[1] == 3);
    prove!(b[3] == 1);
}

fn main(rt: HostRuntime) -> io::Result<()> {
    print_counts(&rt, seven_in_one())?;
    print_counts(&rt, six_in_two())?;
    print_counts(&rt, in_none())?;
    print_counts(&rt, six_on_three())?;
    check_rows();
    Ok(())
}
