ghost use Rattle.model.specs.Legs.{Affordable};

use crate::Legs;
use model::Prices;

// What a plan is weighed by: the legs, and the prices.
#[derive(Drop)]
pub struct Tariff {
    pub legs: Legs,
    pub prices: Prices,
    pub ghost affordable: { Affordable prices },
}
