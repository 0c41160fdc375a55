ghost use Rattle.rebuild_tables.specs.Framed.{Framed, Framed-prop};

use model::Region;
use solution::Plan;

// What is needed to write the plan of a word: how many gaps there are, how many stops are placed and how many drained, the regions, the drained
// stops, of which the first is listed at place 1, and the plan.
#[derive(Drop)]
pub struct Frame {
    pub gaps: usize,
    pub placed: u32,
    pub drained: u32,
    pub regions: [Region; 3],
    pub listed: [u32; 8],
    pub plan: Plan,
    pub ghost framed: { Framed gaps placed drained regions listed plan } by { Framed-prop gaps placed drained regions listed plan },
}
