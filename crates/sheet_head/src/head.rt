ghost use Rattle.std.specs.Prelude.{◌≤◌};

use crate::Call;

// What stands before the job file of a sheet: the call, the numbers that it is given and those of the line of a plan (none where there
// is no such line), which stand at the front of the arrays, and where the job file begins.
#[derive(Clone, Copy)]
pub struct Head {
    pub call: Call,
    pub given_count: usize,
    pub given: [u32; 8],
    pub plan_count: usize,
    pub plan: [u32; 96],
    pub end: usize,
    pub ghost fits: { (given_count ≤ 8) × (plan_count ≤ 96) },
}
