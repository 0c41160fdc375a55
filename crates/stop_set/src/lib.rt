// A set of stops is one 64-bit number: stop s is in it where its digit s, of two, is 1.
#![tactic(auto)]

ghost use Rattle.std.specs.Prelude.{◌≡◌, ◌≤◌, ◌<◌};
ghost use Rattle.model.specs.Lists.{up_from};
ghost use Rattle.model.specs.StopSet.{contains, excluding, including, stops_of};
ghost use Rattle.stop_set.specs.Answers.{Counted, First};

// Whether the stop is in the set.
pub fn contains(set: u64, stop: u32) -> bool
    requires { stop < 64 }
    ensures { result ≡ contains stop set }
{
    (set >> stop) & 1 == 1
}

// The set with the stop put in.
pub fn with(set: u64, stop: u32) -> u64
    requires { stop < 64 }
    ensures { result ≡ including stop set }
{
    set | (1u64 << stop)
}

// The set with the stop taken out.
pub fn without(set: u64, stop: u32) -> u64
    requires { stop < 64 }
    ensures { result ≡ excluding stop set }
{
    set - (set & (1u64 << stop))
}

// How many stops are in the set.
pub fn size(set: u64) -> u32
    ensures { Counted set result }
{
    u64::count_ones(set)
}

// The lowest stop of a set that has one.
pub fn lowest(set: u64) -> u32
    requires { 0 < set }
    ensures { First set result }
{
    u64::trailing_zeros(set)
}

// The stops 0, 1 and so on up to n, without n. A shift by 64 is no shift, so the full set stands by itself.
pub fn below(n: u32) -> u64
    requires { n ≤ 64 }
    ensures { stops_of result ≡ up_from 0 n }
{
    if n == 64 {
        return 0xffff_ffff_ffff_ffff;
    }
    (1u64 << n) - 1
}
