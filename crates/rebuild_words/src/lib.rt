// Words: how some stops are placed in gaps of a plan one after another, and the plan that a word stands for.
#![tactic(auto)]

ghost use Rattle.std.specs.Prelude.{◌≡◌, ◌==◌, ◌+◌, ◌≤◌, length, position};
ghost use Rattle.model.specs.Plan.{encode, placed};
ghost use Rattle.solution.specs.Held.{routes};
ghost use Rattle.rebuild_words.specs.Words.{in_gap, plan_of};
ghost use Rattle.rebuild_words.specs.Gaps.{Gapped, Within, refilled, Pasted};

use model::Region;
use solution::Plan;

// The place of the region that a vehicle has.
fn region_of(regions: &[Region], vehicle: usize) -> Option<usize>
    ensures { result ≡ position (λ g. g.vehicle == vehicle) regions.now }
{
    regions.iter().position(|g| g.vehicle == vehicle)
}

// Writes the stops that a word places in a gap, and returns where they end.
fn paste_gap(to: &mut [u32], at: usize, word: &[u32], gap: u32) -> usize
    requires { at + length (in_gap gap word.now) ≤ length to.old }
    ensures { Pasted to.old at (in_gap gap word.now) to.new result }
{
    let mut end = at;
    for &c in word {
        if c / 64 == gap {
            to[end] = c % 64;
            end += 1;
        }
    }
    end
}

// Writes a route with what a word places in a gap in the place of that gap's region, and returns where it ends.
fn paste_region(
    to: &mut [u32],
    at: usize,
    route: &[u32],
    region: Region,
    gap: u32,
    word: &[u32],
) -> usize
    requires within { Within region route.now }
    requires route_in_bounds { at + length (refilled region (in_gap gap word.now) route.now) ≤ length to.old }
    ensures { Pasted to.old at (refilled region (in_gap gap word.now) route.now) to.new result }
{
    let from = region.from;
    let past = region.to;
    let a = pasting::paste(to, at, &route[..from]);
    let b = paste_gap(to, a, word, gap);
    pasting::paste(to, b, &route[past..])
}

// Writes the lent form of the plan that a word stands for: the given plan with what the word places in the regions in their place. A plan and
// its regions are two values, since a rebuild writes the plan while it is lent the regions.
pub fn compose(plan: &Plan, regions: &[Region], word: &[u32], to: &mut [u32])
    requires gapped { Gapped plan.now regions.now }
    requires to_len { (length to.old ≡ plan.now.v + plan.now.n) × (placed (plan_of (routes plan.now) regions.now word.now) ≤ plan.now.n) }
    ensures { to.new ≡ encode plan.now.n (plan_of (routes plan.now) regions.now word.now) }
{
    let form = plan.form();
    let mut start = plan.v;
    let mut at = plan.v;
    for i in 0..plan.v {
        let end = start + form[i] as usize;
        let route = &form[start..end];
        let next = match region_of(regions, i) {
            Some(r) => paste_region(to, at, route, regions[r], r as u32, word),
            None => pasting::paste(to, at, route),
        };
        to[i] = (next - at) as u32;
        start = end;
        at = next;
    }
    pasting::fill(&mut to[at..], 4294967295);
}
