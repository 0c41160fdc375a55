// The regions of a rebuild: which stretches of which routes are drained.
#![tactic(auto)]

ghost use Rattle.std.specs.Prelude.{◌≡◌, [], ◌≤◌, length, take, drop};
ghost use Rattle.model.specs.Region.{keep_picks, region_from, region_to, regions};
ghost use Rattle.solution.specs.Held.{routes};
ghost use Rattle.rebuild_regions.specs.Around.{vehicle_found, region_found};

use model::Region;
use solution::Plan;

// The vehicle that a stop is on, if it is on one.
fn vehicle_of(plan: &Plan, stop: u32) -> Option<usize>
    ensures { result ≡ vehicle_found (routes plan.now) stop }
{
    plan.find(stop).map(|place| place.vehicle)
}

// Writes the picks that are placed, of those on one vehicle the first, and returns how many.
// The vehicles of the picks that were kept are a set, as stops are.
// A list that is lent and a number, not a Vec: nothing here is taken from the heap.
fn keep_picks(plan: &Plan, picks: &[u32], kept: &mut [u32]) -> usize
    requires { length picks.now ≤ length kept.old }
    ensures kept_after { take result kept.new ≡ keep_picks (routes plan.now) [] picks.now }
    ensures upper_bound { result ≤ length picks.now }
{
    let mut named: u64 = 0;
    let mut p = 0;
    for &pick in picks {
        if let Some(k) = vehicle_of(plan, pick) {
            let vehicle = k as u32;
            if !stop_set::contains(named, vehicle) {
                named = stop_set::with(named, vehicle);
                kept[p] = pick;
                p += 1;
            }
        }
    }
    p
}

// Where a region of that size around a position begins.
fn region_from(size: usize, at: usize) -> usize
    ensures { result ≡ region_from size at }
{
    at.saturating_sub(size / 2)
}

// Where it ends, on a route of that length.
fn region_to(size: usize, at: usize, length: usize) -> usize
    requires { (size ≤ 8) × (at ≤ 64) }
    ensures { result ≡ region_to size at length }
{
    let end = region_from(size, at) + size;
    end.min(length)
}

// The region around a pick that is placed.
fn region_of(plan: &Plan, pick: u32, size: usize) -> Option<Region>
    requires { size ≤ 8 }
    ensures { result ≡ region_found (routes plan.now) size pick }
{
    let place = plan.find(pick)?;
    let vehicle = place.vehicle;
    let at = place.position;
    Some(Region {
        vehicle,
        from: region_from(size, at),
        to: region_to(size, at, plan.route(vehicle).len()),
    })
}

// Writes the regions around one or two picks and returns how many there are: with p of k picks kept, (8 − k) / p stops each. What the list
// holds after them stays: it is lent with a number beside, as nothing is on a heap.
pub fn regions_of(plan: &Plan, picks: &[u32], out: &mut [Region]) -> usize
    requires { (length picks.now ≤ 2) × (2 ≤ length out.old) }
    ensures out_after { take result out.new ≡ regions (routes plan.now) picks.now }
    ensures out_unchanged { drop result out.new ≡ drop result out.old }
    ensures upper_bound { result ≤ length picks.now }
{
    let mut kept = [0u32; 2];
    let p = keep_picks(plan, picks, &mut kept);
    if p == 0 {
        return 0;
    }
    let size = (8 - picks.len()) / p;
    for i in 0..p {
        if let Some(region) = region_of(plan, kept[i], size) {
            out[i] = region;
        }
    }
    p
}
