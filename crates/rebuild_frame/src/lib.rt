// The frame of a walk: the gaps, the plan and the drained stops in one struct, so that a call of the walk passes one address for all that
// is needed to write the plan of a word.
#![tactic(auto)]

ghost use Rattle.std.specs.Prelude.{◌≡◌, ◌+◌, ◌≤◌, ◌<◌, length, take};
ghost use Rattle.model.specs.Lists.{lower};
ghost use Rattle.model.specs.Region.{drained};
ghost use Rattle.solution.specs.Held.{routes, Becomes};
ghost use Rattle.rebuild_words.specs.Gaps.{Gapped};
ghost use Rattle.rebuild_fillings.specs.Walk.{own};
ghost use Rattle.rebuild_fillings.specs.Rows.{word_of, filling_of, digits_of, placements};
ghost use Rattle.rebuild_tables.specs.Frame.{gap_count, placed_count, drained_count, stops_in, plan_by, form_of, Placeable, Framing};
ghost use Rattle.rebuild_frame.specs.Listing.{Listable, GapListed, AllListed, StopsSmall};

use model::Region;
use rebuild_tables::Frame;
use solution::Plan;

// How many gaps there are.
pub fn gaps(frame: &Frame) -> usize
    ensures { result ≡ gap_count frame.now }
{
    frame.gaps
}

// How many stops are on a route of the plan.
pub fn placed(frame: &Frame) -> u32
    ensures { result ≡ placed_count frame.now }
{
    frame.placed
}

// How many stops are drained.
pub fn drained(frame: &Frame) -> u32
    ensures { result ≡ drained_count frame.now }
{
    frame.drained
}

// Writes how a word places stops, as codes 64 * gap + stop, which `compose` reads, and returns how many there are.
fn codes_of(frame: &Frame, word: u64, codes: &mut [u32; 7]) -> usize
    requires { Placeable frame.now word × (length codes.old ≡ 7) }
    ensures { (take result codes.new ≡ placements (stops_in frame.now) 0 (digits_of 16 word)) × (result ≤ length codes.new) }
{
    let mut m = 0;
    let mut gap: u32 = 0;
    for i in 0..16u64 {
        let digit = (word >> (60 - 4 * i)) % 16;
        if 8 <= digit {
            gap = digit as u32 - 8;
        } else if digit != 0 {
            codes[m] = gap * 64 + frame.listed[digit as usize];
            m += 1;
        }
    }
    m
}

// Writes the lent form of the plan of a word to the front of a plan's numbers.
fn write_form(frame: &Frame, word: u64, numbers: &mut [u32; 80])
    requires { Placeable frame.now word }
    ensures { take (frame.now.plan.v + frame.now.plan.n) numbers.new ≡ form_of frame.now word }
{
    let mut codes = [0u32; 7];
    let m = codes_of(frame, word, &mut codes);
    let p = gaps(frame);
    let end = frame.plan.v + frame.plan.n;
    rebuild_words::compose(
        &frame.plan,
        &frame.regions[..p],
        &codes[..m],
        &mut numbers[..end],
    );
}

// The plan of a word.
pub fn plan_of(frame: &Frame, word: u64) -> Plan
    requires { Placeable frame.now word }
    ensures { Becomes frame.now.plan result (plan_by frame.now (filling_of word)) }
{
    let mut numbers = [0u32; 80];
    write_form(frame, word, &mut numbers);
    Plan {
        v: frame.plan.v,
        n: frame.plan.n,
        numbers,
    }
}

// Whether the plan of a word is lower than that of another: the first number that differs in their lent forms is. Only the numbers are
// written, as this is asked for each arrangement that costs what the best one does.
pub fn is_lower(frame: &Frame, word: u64, other: u64) -> bool
    requires { Placeable frame.now word × Placeable frame.now other }
    ensures { result ≡ lower (form_of frame.now word) (form_of frame.now other) }
{
    let m = frame.plan.v + frame.plan.n;
    let mut x = [0u32; 80];
    let mut y = [0u32; 80];
    write_form(frame, word, &mut x);
    write_form(frame, other, &mut y);
    solution::lower(&x[..m], &y[..m])
}

// The stops that are drained so far: how many, and the word that puts each back where it was.
#[derive(Clone, Copy)]
struct Listed {
    count: usize,
    word: u64,
}

// Lists the stops of gap q, a part of a route.
fn list_gap(stops: &mut [u32; 8], q: usize, part: &[u32], before: Listed) -> Listed
    requires { Listable stops.old q part.now before.count before.word }
    ensures { GapListed stops.old q part.now before.count before.word stops.new result.count result.word }
{
    let mut count = before.count;
    let mut word = before.word * 16 + 8 + q as u64;
    for &stop in part {
        count += 1;
        stops[count] = stop;
        word = word * 16 + count as u64;
    }
    Listed { count, word }
}

// Lists the stops of all gaps.
fn list_stops(stops: &mut [u32; 8], plan: &Plan, regions: &[Region]) -> Listed
    requires { Gapped plan.now regions.now × (length (drained (routes plan.now) regions.now) ≤ 7) × (length stops.old ≡ 8) }
    ensures { AllListed (routes plan.now) regions.now stops.old stops.new result.count result.word }
{
    let mut listed = Listed { count: 0, word: 0 };
    for (q, region) in regions.iter().enumerate() {
        let from = region.from;
        let to = region.to;
        let route = plan.route(region.vehicle);
        listed = list_gap(stops, q, &route[from..to], listed);
    }
    listed
}

// What a walk begins with: a frame, and the word that puts each drained stop back where it was.
#[derive(Drop)]
pub struct Beginning {
    pub frame: Frame,
    pub own: u64,
}

// The frame of a plan and its regions.
pub fn fill(plan: &Plan, regions: &[Region]) -> Beginning
    requires { Gapped plan.now regions.now × (0 < length regions.now) × (length (drained (routes plan.now) regions.now) ≤ 7) }
    ensures framing { Framing plan.now regions.now result.frame }
    ensures value { result.own ≡ word_of (own (routes plan.now) regions.now) }
    ensures stops_small { StopsSmall result.frame }
{
    let mut spans = [Region {
        vehicle: 0,
        from: 0,
        to: 0,
    }; 3];
    let p = regions.len();
    spans[..p].copy_from_slice(regions);
    let mut stops = [0u32; 8];
    let listed = list_stops(&mut stops, plan, regions);
    let frame = Frame {
        gaps: regions.len(),
        placed: stop_set::size(plan.placed_set()),
        drained: listed.count as u32,
        regions: spans,
        listed: stops,
        plan: *plan,
    };
    Beginning {
        frame,
        own: listed.word,
    }
}
