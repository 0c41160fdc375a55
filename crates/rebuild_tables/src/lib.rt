// The frame that the walk over the arrangements reads, what it keeps, and the definitions and laws of the walk.
#![tactic(auto)]

mod frame;

ghost use Rattle.std.specs.Prelude.{◌≡◌, ◌≤◌, ◌<◌, length};

pub use frame::Frame;

// What a walk keeps: the word of the best arrangement, the stops that this places, how often it was called in each gap, and the trail of the
// words that it met. So the calls in the first gap are the fillings of it that were begun, and those in the last gap the arrangements
// completed; and the trail is a number that tells in which order these were met.
#[derive(Drop)]
pub struct Kept {
    pub best: u64,
    pub most: u64,
    pub calls: [u64; 3],
    pub trail: u64,
    pub ghost three: { length calls ≡ 3 },
}

impl Kept {
    ghost use Rattle.rebuild_tables.specs.Kept.{calls_in, Fresh, Counted};

    // What is kept before a walk: the word of the plan itself, and the stops that this places.
    pub fn new(best: u64, most: u64) -> Self
        ensures { Fresh best most result }
    {
        Kept {
            best,
            most,
            calls: [0; 3],
            trail: 0,
        }
    }

    // Counts a call in gap q.
    pub fn count_call(&mut self, q: usize)
        requires { (q < 3) × (calls_in self.old q ≤ 390453) }
        ensures { Counted q self.old self.new }
    {
        self.calls[q] += 1;
    }
}
