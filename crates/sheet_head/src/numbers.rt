ghost use Rattle.std.specs.Prelude.{◌≡◌};
ghost use Rattle.sheet_head.specs.Reading.{given_of, plan_of};

use crate::Head;

impl Head {
    // The numbers that the call is given.
    pub fn given(&self) -> &[u32]
        ensures { result.now ≡ given_of self.now }
    {
        &self.given[..self.given_count]
    }

    // The numbers of the plan's line.
    pub fn plan(&self) -> &[u32]
        ensures { result.now ≡ plan_of self.now }
    {
        &self.plan[..self.plan_count]
    }
}
