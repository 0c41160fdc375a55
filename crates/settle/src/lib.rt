// Specification, 8: the two averages of a run, and the rule that stops it.
#![tactic(auto)]

ghost use Rattle.std.specs.Prelude.{◌≡◌, ◌≤◌};
ghost use Rattle.model.specs.Settle.{no_averages, settles};
ghost use Rattle.model.specs.Settle as Settle;
ghost use Rattle.settle.specs.Rounds.{AfterRound};

use model::Averages;

// The averages that a run begins with.
pub fn none() -> Averages
    ensures { result ≡ no_averages }
{
    Averages {
        delta: 0.0,
        update: 0.0,
    }
}

// The moving average: the old one counts for all but one of `smoothing` parts, and the new value for one.
fn average(old: f64, new: f64, smoothing: u32) -> f64
    requires { 1 ≤ smoothing }
    ensures { result ≡ Settle.average smoothing old new }
{
    if old == 0.0 {
        new
    } else {
        (old * (smoothing - 1) as f64 + new) / smoothing as f64
    }
}

// The averages after a round that takes the cost from `old` to `new`.
pub fn after_round(a: Averages, old: f64, new: f64, smoothing: u32) -> Averages
    requires { 1 ≤ smoothing }
    ensures { AfterRound smoothing a old new result }
{
    let gain = old - new;
    let delta = average(a.delta, gain, smoothing);
    if new < old {
        let update = average(a.update, gain, smoothing);
        Averages { delta, update }
    } else {
        Averages {
            delta,
            update: a.update,
        }
    }
}

// No run settles before so many rounds.
const LEAST_ROUNDS: u32 = 10;

// Whether ten rounds are done and the gain per round has fallen to a hundredth of that per improving round.
pub fn settled(a: Averages, rounds: u32) -> bool
    ensures { result ≡ settles rounds a }
{
    LEAST_ROUNDS <= rounds && a.delta <= a.update * 0.01
}
