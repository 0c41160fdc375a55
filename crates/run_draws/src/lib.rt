// The draws of a run, and what a round draws from them for its region pass.
#![tactic(auto)]

ghost use Rattle.std.specs.Prelude.{◌≡◌, ◌%◌, ◌<◌, length};
ghost use Rattle.model.specs.Run as Run;
ghost use Rattle.run_draws.specs.Picks.{Pickable, Picked};

// The draw at a place; after the last comes the first again.
fn drawn(draws: &[u32], place: usize) -> u32
    requires { 0 < length draws.now }
    ensures { result ≡ Run.drawn draws.now place }
{
    draws[place % draws.len()]
}

// The draw at a place as one of the numbers below m.
pub fn among(draws: &[u32], place: usize, m: usize) -> usize
    requires { (0 < length draws.now) × (0 < m) }
    ensures { (result ≡ Run.drawn draws.now place % m) × (result < m) }
{
    drawn(draws, place) as usize % m
}

// Draws the picks of the round that begins at a place, and says how many they are: k, the centre x, a first pick from S(x), and where k = 2
// a second one from the rest of S(x). `near` has S(x) of every stop in rows of 64. The picks are lent with their number beside, as nothing
// is on a heap.
pub fn pick(near: &[u32], n: usize, draws: &[u32], place: usize, picks: &mut [u32]) -> usize
    requires { Pickable near.now n draws.now place picks.old }
    ensures { Picked near.now n draws.now place picks.old result picks.new }
{
    let more = among(draws, place + 1, 2);
    let row = among(draws, place + 2, n) * 64;
    let i = among(draws, place + 3, n);
    picks[0] = near[row + i];
    if more == 0 {
        return 1;
    }
    let j = among(draws, place + 4, n - 1);
    if j < i {
        picks[1] = near[row + j];
        return 2;
    }
    picks[1] = near[row + j + 1];
    2
}
