ghost use Rattle.std.specs.Prelude.{◌+◌, take};
ghost use Rattle.model.specs.Plan.{Lent, Sizes};

// A plan of n stops for v vehicles. Its lent form stands in the first v + n numbers.
#[derive(Clone, Copy)]
pub struct Plan {
    pub v: usize,
    pub n: usize,
    pub numbers: [u32; 80],
    pub ghost sizes: { Sizes v n },
    pub ghost lent: { Lent v n (take (v + n) numbers) },
}
