// The candidates of a pair of stops on two routes, the tail exchange of Potvin and Rousseau 1995 widened by reversals and
// exchanged heads: they are numbered, and weighed by the lengths of the two routes alone. The binary digits of a number say: the
// first route reversed (32), the second (16), the first cut after its stop (8), the second (4), heads exchanged (2), tails (1).
#![tactic(auto)]

ghost use Rattle.std.specs.Prelude.{◌≡◌, ◌+◌, ◌≤◌, ◌<◌};
ghost use Rattle.model.specs.Whole.{IsWhole};
ghost use Rattle.two_opt_candidates.specs.Pairs.{choice_of, least_pair};
ghost use Rattle.two_opt_candidates.specs.Weighed.{Weighs, found, tried, joined_length, ends_price, after_exchange, after_turns, after_all, Joins, TwoCuts, TwoCutRoutes, Routes};

use distance::{Legs, Tariff};
use two_opt_cuts::{Cut, Cuts, End};

// A candidate stays a number, and is no struct of six flags, which would be no plainer: the definitions number the candidates in the
// order in which they are tried, so the lowest number of the cheapest is kept, and each of the forty that are weighed has one value
// to hand on in place of six. What a number says is read once, of the kept candidate: here, and where its two routes are turned.

// What a candidate's number says of two rows: where they are cut, and whether each route keeps its own head and its own tail.
#[derive(Clone, Copy)]
pub struct Choice {
    pub first: usize,
    pub second: usize,
    pub heads: bool,
    pub tails: bool,
}

// The choice of a candidate, where the stops of the pair stand at i and j.
pub fn choice_of(code: usize, i: usize, j: usize) -> Choice
    requires { (i ≤ 64) × (j ≤ 64) }
    ensures { result ≡ choice_of code i j }
{
    Choice {
        first: i + code / 8 % 2,
        second: j + code / 4 % 2,
        heads: code / 2 % 2 == 0,
        tails: code % 2 == 0,
    }
}

// The best candidate so far: its number, and the price of its two routes.
#[derive(Clone, Copy)]
pub struct Best {
    pub code: usize,
    pub price: f64,
}

// The length of a route that is joined from a head and a tail.
fn joined(legs: &Legs, head: End, tail: End) -> u32
    requires { (head.joint < 80) × (tail.joint < 80) × (head.out + tail.back ≤ 12800000) }
    ensures { (result ≡ joined_length legs.now.table head tail) × (result ≤ 13000000) }
{
    head.out + legs.leg(head.joint, tail.joint) + tail.back
}

// What two routes cost: the one of the head and the tail of x on the first vehicle, and that of y on the second.
fn pair_price(tariff: &Tariff, x: Cut, y: Cut) -> f64
    requires { Joins x.head x.tail y.head y.tail }
    ensures { Weighs (ends_price tariff.now.legs.table tariff.now.prices x.head x.tail y.head y.tail) result }
{
    let x = joined(&tariff.legs, x.head.first, x.tail.first);
    let y = joined(&tariff.legs, y.head.second, y.tail.second);
    delivery::price(x, tariff.prices) + delivery::price(y, tariff.prices)
}

// The best so far, or the candidate of two such routes where that is strictly cheaper.
fn weighed(tariff: &Tariff, x: Cut, y: Cut, code: usize, best: Best) -> Best
    requires { Joins x.head x.tail y.head y.tail × IsWhole best.price }
    ensures { IsWhole result.price × (found result ≡ tried code (ends_price tariff.now.legs.table tariff.now.prices x.head x.tail y.head y.tail) (found best)) }
{
    let price = pair_price(tariff, x, y);
    if whole::cheaper(price, best.price) {
        return Best { code, price };
    }
    best
}

// The best so far and the candidates of two cut routes that exchange their tails (code + 1) or their heads (code + 2).
fn exchanged(tariff: &Tariff, x: Cut, y: Cut, code: usize, best: Best) -> Best
    requires { TwoCuts x y × (code ≤ 60) × IsWhole best.price }
    ensures { IsWhole result.price × (found result ≡ after_exchange tariff.now.legs.table tariff.now.prices x y code (found best)) }
{
    let first = Cut {
        head: x.head,
        tail: y.tail,
    };
    let second = Cut {
        head: y.head,
        tail: x.tail,
    };
    let tails = weighed(tariff, first, second, code + 1, best);
    weighed(tariff, second, first, code + 2, tails)
}

// The best so far and the sixteen candidates of two routes that are turned in one way. Those that keep or exchange both heads
// and tails have the same two routes for all cuts, so they are weighed once.
fn least_of_turns(tariff: &Tariff, x: Cuts, y: Cuts, code: usize, best: Best) -> Best
    requires { TwoCutRoutes x y × (code ≤ 48) × IsWhole best.price }
    ensures { IsWhole result.price × (found result ≡ after_turns tariff.now.legs.table tariff.now.prices x y code (found best)) }
{
    // a and c are cuts of the first route, b and d of the second.
    let a = x.before;
    let b = y.before;
    let c = x.after;
    let d = y.after;
    let kept = weighed(tariff, a, b, code, best);
    let ends = exchanged(tariff, a, b, code, kept);
    let whole = weighed(tariff, b, a, code + 3, ends);
    let one = exchanged(tariff, a, d, code + 4, whole);
    let two = exchanged(tariff, c, b, code + 8, one);
    exchanged(tariff, c, d, code + 12, two)
}

// The best candidate of two routes that are cut: reversed is none of them, the second, the first, both.
fn least_of_cuts(tariff: &Tariff, x: Cuts, y: Cuts) -> Best
    requires { TwoCutRoutes x y }
    ensures { found result ≡ after_all tariff.now.legs.table tariff.now.prices x y }
{
    let price = pair_price(tariff, x.before, y.before);
    let old = Best { code: 0, price };
    let p = two_opt_cuts::reversed(x);
    let q = two_opt_cuts::reversed(y);
    let none = least_of_turns(tariff, x, y, 0, old);
    let second = least_of_turns(tariff, x, q, 16, none);
    let first = least_of_turns(tariff, p, y, 32, second);
    least_of_turns(tariff, p, q, 48, first)
}

// A stop, and the vehicle on whose route it is.
#[derive(Clone, Copy)]
pub struct Visit {
    pub vehicle: usize,
    pub stop: u32,
}

// The kept candidate of two stops on two routes.
pub fn least_pair(tariff: &Tariff, first: Visit, ra: &[u32], second: Visit, rb: &[u32]) -> Best
    requires { Routes first.vehicle ra.now first.stop second.vehicle rb.now second.stop }
    ensures { found result ≡ least_pair tariff.now.legs.table tariff.now.prices first.vehicle ra.now first.stop second.vehicle rb.now second.stop }
{
    let i = solution::position(ra, first.stop);
    let j = solution::position(rb, second.stop);
    let x = two_opt_cuts::cut_at(&tariff.legs, first.vehicle, second.vehicle, ra, i);
    let y = two_opt_cuts::cut_at(&tariff.legs, first.vehicle, second.vehicle, rb, j);
    least_of_cuts(tariff, x, y)
}
