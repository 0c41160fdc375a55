// Routes that are cut before or after a stop: their ends are measured once, out and back and on each of two vehicles, so that
// the length of a route that is joined from two ends is had by one leg more.
#![tactic(auto)]

ghost use Rattle.std.specs.Prelude.{◌≡◌, List, [], ◌∷◌, ◌++◌, reverse, ℕ, ◌<◌, length};
ghost use Rattle.std.specs.Iterator.{AlwaysYields, IsFinite};
ghost use Rattle.model.specs.Plan.{Route};
ghost use Rattle.distance.specs.Ways.{Drivable};
ghost use Rattle.two_opt_cuts.specs.Ends.{EndOf, EndsOf, Short, Shorts, CutBy, reversed_cuts};

use distance::Legs;

// The stops of a route from a vehicle's place up to a cut: the place at the cut, the legs out to it, and the legs back from it.
#[derive(Clone, Copy)]
pub struct End {
    pub joint: usize,
    pub out: u32,
    pub back: u32,
}

// The same stops on each of two vehicles. This struct and the next two are no one generic pair: their fields say which vehicle,
// which side of a cut and which cut is meant, and `.0` and `.1` would not.
#[derive(Clone, Copy)]
pub struct Ends {
    pub first: End,
    pub second: End,
}

// A route that is cut: the ends on both sides of the cut.
#[derive(Clone, Copy)]
pub struct Cut {
    pub head: Ends,
    pub tail: Ends,
}

// A route cut before a stop, and cut after it.
#[derive(Clone, Copy)]
pub struct Cuts {
    pub before: Cut,
    pub after: Cut,
}

// An end with one stop more at the cut.
fn onward(legs: &Legs, end: End, stop: u32) -> End
    requires { Short 63 end × (stop < 64) }
    ensures { (k : ℕ) (xs : Route) → EndOf legs.now.table k xs end → EndOf legs.now.table k (xs ++ stop ∷ []) result }
{
    let s = stop as usize;
    End {
        joint: s,
        out: end.out + legs.leg(end.joint, s),
        back: end.back + legs.leg(s, end.joint),
    }
}

// The same on both vehicles.
fn with_stop(legs: &Legs, ends: Ends, stop: u32) -> Ends
    requires { Shorts 63 ends × (stop < 64) }
    ensures { (a b : ℕ) (xs : Route) → EndsOf legs.now.table a b xs ends → EndsOf legs.now.table a b (xs ++ stop ∷ []) result }
{
    let first = onward(legs, ends.first, stop);
    let second = onward(legs, ends.second, stop);
    Ends { first, second }
}

// An end without stops.
fn empty(vehicle: usize) -> End
    requires { vehicle < 16 }
    ensures { (legs : List ℕ) → EndOf legs vehicle [] result }
{
    End {
        joint: 64 + vehicle,
        out: 0,
        back: 0,
    }
}

// The ends of the stops that an iterator gives, one after another: from the front of a route on they make a head, from its back a tail.
fn ends_along<'a, I: Iterator<Item = &'a u32> + Drop>(
    legs: &Legs,
    a: usize,
    b: usize,
    stops: I,
) -> Ends
    requires ready { (a < 16) × (b < 16) }
    requires next { I.can_next stops × IsFinite (I.remaining stops) }
    requires gives { (xs : Route) × AlwaysYields I.next_gives (λ s. s.now) stops xs × Drivable xs }
    ensures { (xs : Route) → AlwaysYields I.next_gives (λ s. s.now) stops xs → EndsOf legs.now.table a b xs result }
{
    let mut ends = Ends {
        first: empty(a),
        second: empty(b),
    };
    for stop in stops {
        ends = with_stop(legs, ends, *stop);
    }
    ends
}

// A route cut before and after the stop at i.
pub fn cut_at(legs: &Legs, a: usize, b: usize, route: &[u32], i: usize) -> Cuts
    requires { (a < 16) × (b < 16) × Drivable route.now × (i < length route.now) }
    ensures { CutBy legs.now.table a b route.now i result }
{
    let up = ends_along(legs, a, b, route[..i].iter());
    let down = ends_along(legs, a, b, route[i + 1..].iter().rev());
    let upto = with_stop(legs, up, route[i]);
    let from = with_stop(legs, down, route[i]);
    Cuts {
        before: Cut {
            head: up,
            tail: from,
        },
        after: Cut {
            head: upto,
            tail: down,
        },
    }
}

// The cuts of the reversed route: its heads are the tails, and what was before the stop is after it.
pub fn reversed(cuts: Cuts) -> Cuts
    ensures { result ≡ reversed_cuts cuts }
{
    let Cut {
        head: up,
        tail: from,
    } = cuts.before;
    let Cut {
        head: upto,
        tail: down,
    } = cuts.after;
    Cuts {
        before: Cut {
            head: down,
            tail: upto,
        },
        after: Cut {
            head: from,
            tail: up,
        },
    }
}
