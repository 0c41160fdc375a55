// The table of ways that a walk reads: whole numbers as f64, so that no number is converted on the way.
#![tactic(auto)]

ghost use Rattle.std.specs.Prelude.{◌≡◌, ◌+◌, ◌*◌, ◌≤◌, ◌<◌};
ghost use Rattle.model.specs.Whole.{exact, whole, amount, IsWhole};
ghost use Rattle.model.specs.Legs.{Affordable};
ghost use Rattle.model.specs.Cost.{price};
ghost use Rattle.rebuild_ways.specs.Exact.{IsExact, Wholly};

use distance::Tariff;
use rebuild_survey::Gap;
use rows::fill_rows;

mod rows;

// The legs stand in rows of 16, of which the first 11 are used. The drained stops are the rows and columns 1 to 7, and those from 8 on are
// the ends of the gaps.
const ROW: usize = 16;

pub const USED: usize = 11;

pub const GAP: usize = 8;

// The legs, what is known of each gap, the prices, and what all else costs.
#[derive(Drop)]
pub struct Ways {
    legs: [f64; 256],
    own: [f64; 4],
    vacant: [f64; 4],
    linear: f64,
    quadratic: f64,
    missed: f64,
    base: f64,
    pub ghost whole_legs: { Wholly legs },
    pub ghost whole_own: { Wholly own },
    pub ghost whole_vacant: { Wholly vacant },
    pub ghost whole_prices: { IsExact linear × IsExact quadratic × IsExact missed },
    pub ghost whole_base: { IsExact base },
}

impl Ways {
    ghost use Rattle.rebuild_ways.specs.Ways.{way_at, own_at, vacant_at, prices_at, base_at};
    ghost use Rattle.rebuild_ways.specs.Table.{Fillable, Filled};
    ghost use Rattle.rebuild_ways.specs.Fills.{GapsFillable, GapsFilled};

    // The length of gap q's route besides what fills the gap.
    pub fn own(&self, q: usize) -> f64
        requires { q < 4 }
        ensures { result ≡ whole (own_at self.now q) }
    {
        self.own[q]
    }

    // What gap q's route costs while the gap is empty.
    pub fn vacant(&self, q: usize) -> f64
        requires { q < 4 }
        ensures { result ≡ whole (vacant_at self.now q) }
    {
        self.vacant[q]
    }

    // What a missed stop costs.
    pub fn missed(&self) -> f64
        ensures { result ≡ whole (prices_at self.now).missed }
    {
        self.missed
    }

    // What all routes without a gap and the stops that were missed before cost.
    pub fn base(&self) -> f64
        ensures { result ≡ whole (base_at self.now) }
    {
        self.base
    }

    // The leg from a row to a column.
    fn cell(&self, row: usize, column: usize) -> f64
        requires { (row < 16) × (column < 16) }
        ensures { result ≡ whole (way_at self.now row column) }
    {
        self.legs[ROW * row + column]
    }

    // A way one leg further: from the row where it stands to a column.
    pub fn step(&self, last: usize, to: usize, length: f64) -> f64
        requires { (last < 16) × (to < 16) × IsWhole length × (amount length + way_at self.now last to ≤ exact) }
        ensures { result ≡ whole (amount length + way_at self.now last to) }
    {
        length + self.cell(last, to)
    }

    // What gap q's route costs where the way stands at a row and nothing more is placed in the gap.
    pub fn closed(&self, q: usize, last: usize, length: f64) -> f64
        requires wholly { Affordable (prices_at self.now) × (q < 4) × (last < 16) }
        requires whole { IsWhole length × (amount length + way_at self.now last (8 + q) ≤ 16000000) }
        ensures { result ≡ whole (price (prices_at self.now) (amount length + way_at self.now last (8 + q))) }
    {
        let all = self.step(last, GAP + q, length);
        all * (self.linear + all * self.quadratic)
    }
    // Writes what is known of each gap: the length of its route without what fills the gap, and what the route costs so.
    fn fill_gaps(&mut self, gaps: &[Gap; 3], p: usize)
        requires { GapsFillable gaps.now p self.old }
        ensures { GapsFilled gaps.now p self.old self.new }
    {
        for q in 0..p {
            let own = (gaps[q].head + gaps[q].rest) as f64;
            let vacant = self.closed(q, GAP + q, own);
            self.own[q] = own;
            self.vacant[q] = vacant;
        }
    }

    // A table filled with the legs from each start to each end, what is known of p gaps, the prices, and what all else costs. It is made in a
    // frame of its own, which is left before the walk begins.
    #[inline(never)]
    pub fn filled(
        tariff: &Tariff,
        starts: &[u32; 16],
        ends: &[u32; 16],
        gaps: &[Gap; 3],
        p: usize,
        base: f64,
    ) -> Ways
        requires { Fillable starts.now ends.now gaps.now p base }
        ensures { Filled tariff.now starts.now ends.now gaps.now p base result }
    {
        let missed = whole::of_u64(tariff.prices.missed);
        let mut ways = Ways {
            legs: [0.0; 256],
            own: [0.0; 4],
            vacant: [0.0; 4],
            linear: tariff.prices.linear as f64,
            quadratic: tariff.prices.quadratic as f64,
            missed,
            base,
        };
        fill_rows(&tariff.legs, starts, ends, &mut ways.legs);
        ways.fill_gaps(gaps, p);
        ways
    }
}
