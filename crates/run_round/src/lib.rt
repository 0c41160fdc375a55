// One round: the two-opt pass at a drawn stop, the rebuild around the picks, and what is carried on to the next.
#![tactic(auto)]

ghost use Rattle.std.specs.Prelude.{◌≡◌, ℕ, ◌<◌, ◌≤◌, cond, ltb};
ghost use Rattle.model.specs.Whole.{whole, exact};
ghost use Rattle.run_round.specs.Standing.{Countable, Counted, Course, Standing, Rounded};

use distance::Tariff;
use model::{Averages, Settings};
use solution::Plan;

// What a run carries from round to round beside its plan: the averages, what the plan costs, the rounds done, the improving ones among them,
// and the place in the draws.
#[derive(Clone, Copy)]
pub struct Progress {
    pub averages: Averages,
    pub cost: f64,
    pub rounds: u32,
    pub improving: u32,
    pub place: usize,
}

// 1 where a round improves the cost, else 0. Costs are whole numbers, here m and k.
fn improves(old: f64, new: f64) -> u32
    ensures { (result ≤ 1) × ((m k : ℕ) → m ≤ exact → k ≤ exact → old ≡ whole m → new ≡ whole k → result ≡ cond (ltb k m) 1 0) }
{
    u32::from(new < old)
}

// What a run carries on after a round that leaves a plan of that cost and drew so many picks.
fn counted(p: Progress, new: f64, picks: usize, smoothing: u32) -> Progress
    requires { Countable p picks smoothing }
    ensures { Counted p new picks smoothing result }
{
    let a = p.averages;
    let averages = settle::after_round(a, p.cost, new, smoothing);
    let improving = p.improving + improves(p.cost, new);
    Progress {
        averages,
        cost: new,
        rounds: p.rounds + 1,
        improving,
        place: p.place + 3 + picks,
    }
}

// One round: the two-opt pass at a drawn stop, the picks, the rebuild, the averages and the counts.
pub fn round(
    tariff: &Tariff,
    near: &[u32],
    settings: &Settings,
    plan: &mut Plan,
    p: Progress,
) -> Progress
    requires course { Course tariff.now plan.old.n near.now settings.now }
    requires standing { Standing tariff.now plan.old p × (p.rounds < 4294967295) }
    ensures { Rounded tariff.now settings.now plan.old p plan.new result }
{
    let draws = settings.draws;
    let n = plan.n;
    let place = p.place;
    let row = run_draws::among(draws, place, n) * 64;
    two_opt::pass(tariff, plan, &near[row..row + n]);
    let mut picks = [0u32; 2];
    let k = run_draws::pick(near, n, draws, place, &mut picks);
    let walk = rebuild::rebuild(tariff, plan, &picks[0..k]);
    counted(p, walk.cost, k, settings.smoothing)
}
