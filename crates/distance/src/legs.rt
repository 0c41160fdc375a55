ghost use Rattle.model.specs.Legs.{LegTable};

// The leg table that a call looks up once: 80 rows of the legs from a place, 80 to a row.
#[derive(Drop)]
pub struct Legs {
    pub table: [u32; 6400],
    pub ghost lengths: { LegTable table },
}
