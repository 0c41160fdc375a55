// The plain data that the other crates share, so that their code and the definitions of specs/ speak of the same values.
#![tactic(auto)]

mod job;
mod refusal;

pub use job::{Job, Network, Settings};
pub use refusal::Refusal;

// The prices of a job: for each metre of a route, for its square, and for each stop that is not on a route.
#[derive(Clone, Copy)]
pub struct Prices {
    pub linear: u32,
    pub quadratic: u32,
    pub missed: u64,
}

// A stretch of a route that a rebuild drains: the stops of route `vehicle` from `from` up to `to`, without `to`.
#[derive(Clone, Copy)]
pub struct Region {
    pub vehicle: usize,
    pub from: usize,
    pub to: usize,
}

// A stop that goes to a van, at a place of that van's route.
#[derive(Clone, Copy)]
pub struct Move {
    pub stop: u32,
    pub van: u32,
    pub place: u32,
}

// A road that gets longer: its row and its column in the table of distances, and how many metres more it has.
#[derive(Clone, Copy)]
pub struct Road {
    pub from: u32,
    pub to: u32,
    pub more: u32,
}

// The two moving averages of a run: of the gain per round, and of the gain per improving round.
#[derive(Clone, Copy)]
pub struct Averages {
    pub delta: f64,
    pub update: f64,
}

// What a run answers: the cost of its start plan and of the plan it left, its rounds, the improving ones among them,
// and whether it settled (else the round limit cut it).
#[derive(Clone, Copy)]
pub struct Totals {
    pub start: f64,
    pub end: f64,
    pub rounds: u32,
    pub improving: u32,
    pub settled: bool,
}

// What the walk of a rebuild comes to: the cost of the best plan, how many fillings of the first region it began, and how many arrangements
// it completed.
#[derive(Clone, Copy)]
pub struct Walk {
    pub cost: f64,
    pub begun: u64,
    pub completed: u64,
}

// What stands after an arrival or a cancellation: the set of live stops, and the cost of the plan.
#[derive(Clone, Copy)]
pub struct Standing {
    pub live: u64,
    pub cost: f64,
}
