use crate::Prices;

// The lists of a job: the vehicles' starts and ends, the stops, and the distances between so many locations.
#[derive(Clone, Copy)]
pub struct Network<'a> {
    pub vehicles: &'a [u32],
    pub stops: &'a [u32],
    pub locations: u32,
    pub distances: &'a [u32],
}

// A job: its network, and the prices.
#[derive(Clone, Copy)]
pub struct Job<'a> {
    pub network: Network<'a>,
    pub prices: Prices,
}

// What a run is given beside its job: the smoothing of its averages, the limit on its rounds, and the draws.
#[derive(Clone, Copy)]
pub struct Settings<'a> {
    pub smoothing: u32,
    pub limit: u32,
    pub draws: &'a [u32],
}
