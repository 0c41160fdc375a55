// The test of the plan form.
#![tactic(auto)]

ghost use Rattle.std.specs.Prelude.{◌≡◌, ◌&&◌, ◌+◌, ◌≤◌, length, replicate};
ghost use Rattle.model.specs.Lists.{same, all_below, all_once};
ghost use Rattle.model.specs.Plan.{unused, is_plan, Sizes};

// Whether 4294967295 stands in every place.
fn all_unused(part: &[u32]) -> bool
    ensures { result ≡ same part.now (replicate (length part.now) unused) }
{
    part.iter().all(|stop| *stop == 4294967295)
}

// Whether every stop is below n, and none stands twice.
pub fn stops_once(part: &[u32], n: usize) -> bool
    requires { n ≤ 64 }
    ensures { result ≡ (all_below n part.now && all_once part.now) }
{
    let mut seen: u64 = 0;
    for stop in part {
        if n <= *stop as usize || stop_set::contains(seen, *stop) {
            return false;
        }
        seen = stop_set::with(seen, *stop);
    }
    true
}

// Whether a list is in plan form, with no stop twice.
pub fn is_plan(plan: &[u32], v: usize, n: usize) -> bool
    requires sizes { Sizes v n }
    requires plan_len { length plan.now ≡ v + n }
    ensures { result ≡ is_plan v n plan.now }
{
    let used = solution::sum_lengths(plan, v);
    if n < used {
        return false;
    }
    let mid = v + used;
    stops_once(&plan[v..mid], n) && all_unused(&plan[mid..])
}
