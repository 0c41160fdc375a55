// The run: rounds from the start plan up to the end rule.
#![tactic(auto)]

ghost use Rattle.std.specs.Prelude.{◌≡◌};
ghost use Rattle.nearest_neighbor.specs.Answers.{Started};
ghost use Rattle.run_round.specs.Standing.{Course, CostOf};
ghost use Rattle.ruin_and_recreate.specs.Runs.{Ended, Runnable, Ran};

use distance::Tariff;
use model::{Settings, Totals};
use run_round::Progress;
use solution::Plan;

// The rounds from the start plan on, which costs `start`: until the stopping rule holds, at most as many as the settings' limit.
fn rounds(
    tariff: &Tariff,
    near: &[u32],
    settings: &Settings,
    plan: &mut Plan,
    start: f64,
) -> Progress
    requires course { Course tariff.now plan.old.n near.now settings.now }
    requires started { Started tariff.now.legs.table plan.old.v plan.old.n plan.old × CostOf tariff.now plan.old start }
    ensures { Ended tariff.now settings.now plan.old plan.new result }
{
    let mut p = Progress {
        averages: settle::none(),
        cost: start,
        rounds: 0,
        improving: 0,
        place: 0,
    };
    for _done in 0..settings.limit {
        p = run_round::round(tariff, near, settings, plan, p);
        let a = p.averages;
        if settle::settled(a, p.rounds) {
            return p;
        }
    }
    p
}

// The run: the start plan, and rounds up to the end rule. Without a vehicle or with fewer than two stops there are no rounds.
pub fn run(tariff: &Tariff, v: usize, n: usize, settings: &Settings) -> (Plan, Totals)
    requires { Runnable v n settings.now }
    ensures sizes { (result.0.v ≡ v) × (result.0.n ≡ n) }
    ensures ran { Ran tariff.now v n settings.now result.0 result.1 }
{
    let mut plan = nearest_neighbor::start_plan(&tariff.legs, v, n);
    let start = delivery::cost(tariff, &plan);
    if v == 0 || n < 2 {
        let totals = Totals {
            start,
            end: start,
            rounds: 0,
            improving: 0,
            settled: true,
        };
        return (plan, totals);
    }
    let mut near = [0u32; 4096];
    nearest_neighbor::neighbours(&tariff.legs, n, &mut near);
    let last = rounds(tariff, &near, settings, &mut plan, start);
    let a = last.averages;
    let totals = Totals {
        start,
        end: last.cost,
        rounds: last.rounds,
        improving: last.improving,
        settled: settle::settled(a, last.rounds),
    };
    (plan, totals)
}
