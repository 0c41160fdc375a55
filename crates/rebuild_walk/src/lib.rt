// The walk over all arrangements of some stops in up to three gaps, in the order of the definition: a filling of the first gap, then every
// filling of the later gaps with the stops that are left, then the next filling of the first.
//
// A word is a number whose digits, of base 16, tell the walk's way: 8 + q where it began gap q, i where it placed the i-th drained stop. Its
// last digit is the row of the table of ways at which the walk stands.
#![tactic(auto)]

ghost use Rattle.std.specs.Prelude.{◌≡◌, ◌+◌, ◌*◌, ◌^◌, ◌<◌, ◌≤◌, length};
ghost use Rattle.model.specs.StopSet.{stops_of};
ghost use Rattle.rebuild_tables.specs.Frame.{placed_count, form_of, Placeable};
ghost use Rattle.rebuild_tables.specs.Meeting.{prefers_tie, trail_with, wins, Comparable, Met};
ghost use Rattle.rebuild_tables.specs.Walks.{Walkable, Walked, Visitable, Visited};

use rebuild_tables::{Frame, Kept};
use rebuild_ways::Ways;

// Whether an arrangement that costs what the best one does, and places so many stops, takes its place.
fn wins_tie(frame: &Frame, kept: &Kept, placed: u64, word: u64) -> bool
    requires { Placeable frame.now word × Placeable frame.now kept.now.best }
    ensures { result ≡ prefers_tie placed (form_of frame.now word) kept.now.most (form_of frame.now kept.now.best) }
{
    kept.most < placed || placed == kept.most && rebuild_frame::is_lower(frame, word, kept.best)
}

// Whether the arrangement of a word takes the best one's place. Nearly all cost more, so that is asked first.
fn is_better(frame: &Frame, kept: &Kept, placed: u64, word: u64, cost: f64, best: f64) -> bool
    requires { Comparable frame.now kept.now word cost best }
    ensures { result ≡ wins frame.now kept.now placed word cost best }
{
    if whole::cheaper(best, cost) {
        return false;
    }
    whole::cheaper(cost, best) || wins_tie(frame, kept, placed, word)
}

// A trail with one word more. What was noted before is not lost, as 3 is odd.
fn trail_with(trail: u64, word: u64) -> u64
    ensures { result ≡ trail_with trail word }
{
    trail.wrapping_mul(3).wrapping_add(word)
}

// Meets the arrangement of a word, with these stops left: the better of it and the best so far is kept, and its cost returned.
fn meet(frame: &Frame, kept: &mut Kept, left: u64, word: u64, cost: f64, best: f64) -> f64
    requires { Comparable frame.now kept.old word cost best × (length (stops_of left) ≤ placed_count frame.now) }
    ensures { Met frame.now left word cost best kept.old kept.new result }
{
    kept.trail = trail_with(kept.trail, word);
    let placed = (rebuild_frame::placed(frame) - stop_set::size(left)) as u64;
    if is_better(frame, kept, placed, word, cost, best) {
        kept.best = word;
        kept.most = placed;
        return cost;
    }
    best
}

// A word with one digit more.
fn with_digit(word: u64, digit: u64) -> u64
    requires { (word < 16 ^ 10) × (digit < 16) }
    ensures { result ≡ word * 16 + digit }
{
    word * 16 + digit
}

// Where gap q is the last, meets the arrangement of the word; else fills the later gaps with the stops that are left. Then places each of
// these next in gap q, and calls itself on those that are left then, down to none. `length` is that of gap q's route up to where the walk
// stands and behind the gap, `others` what all else costs. These travel together, but as plain numbers they stay in registers at each of the
// many calls.
fn walk(
    ways: &Ways,
    frame: &Frame,
    kept: &mut Kept,
    q: usize,
    left: u64,
    word: u64,
    length: f64,
    others: f64,
    best: f64,
) -> f64
    requires { Walkable ways.now frame.now kept.old q left word length others best }
    ensures { Walked ways.now frame.now kept.old q left word kept.new result }
{
    let last = (word % 16) as usize;
    let cost = others + ways.closed(q, last, length);
    kept.count_call(q);
    let r = q + 1;
    let mut found = best;
    if r < rebuild_frame::gaps(frame) {
        let opened = with_digit(word, 8 + r as u64);
        let own = ways.own(r);
        let besides = cost - ways.vacant(r);
        found = walk(ways, frame, kept, r, left, opened, own, besides, best);
    } else {
        found = meet(frame, kept, left, word, cost, best);
    }
    let placed = others - ways.missed();
    // A set of stops is one number, and no iterator of the library goes over a number's ones: the lowest stop is taken out each time.
    let mut next = left;
    while next != 0 {
        let s = stop_set::lowest(next);
        next = stop_set::without(next, s);
        let fewer = stop_set::without(left, s);
        let more = with_digit(word, s as u64);
        let gone = ways.step(last, s as usize, length);
        found = walk(ways, frame, kept, q, fewer, more, gone, placed, found);
    }
    found
}

// Walks all arrangements of the frame's drained stops in its gaps. `others` is what all but the first gap's route costs where every gap is
// empty, and `best` the cost of the plan whose word is kept.
pub fn visit(ways: &Ways, frame: &Frame, kept: &mut Kept, others: f64, best: f64) -> f64
    requires { Visitable ways.now frame.now kept.old others best }
    ensures { Visited ways.now frame.now kept.old kept.new result }
{
    let all = stop_set::below(rebuild_frame::drained(frame) + 1);
    let left = stop_set::without(all, 0);
    let own = ways.own(0);
    walk(ways, frame, kept, 0, left, 8, own, others, best)
}
