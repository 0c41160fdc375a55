use model::Prices;

// A task without its lists: how long they are (`vehicles` counts pairs), the other numbers, and the position after its file.
#[derive(Clone, Copy)]
pub struct Header {
    pub vehicles: usize,
    pub stops: usize,
    pub locations: u32,
    pub prices: Prices,
    pub smoothing: u32,
    pub limit: u32,
    pub draws: usize,
    pub end: usize,
}
