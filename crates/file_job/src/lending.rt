ghost use Rattle.std.specs.Prelude.{◌≡◌};
ghost use Rattle.model.specs.Job.{of_lent};
ghost use Rattle.file_job.specs.Reading.{task_of};

use crate::Task;
use model::{Job, Network, Settings};

impl Task {
    // The job, whose lists stay the task's own.
    pub fn job(&self) -> Job<'_>
        ensures { of_lent result ≡ (task_of self.now).job }
    {
        let l = self.header.locations as usize;
        Job {
            network: Network {
                vehicles: &self.lists.vehicles[..self.header.vehicles * 2],
                stops: &self.lists.stops[..self.header.stops],
                locations: self.header.locations,
                distances: &self.lists.distances[..l * l],
            },
            prices: self.header.prices,
        }
    }

    // What a run of the task is given beside the job.
    pub fn settings(&self) -> Settings<'_>
        ensures { (result.smoothing ≡ (task_of self.now).smoothing)
            × (result.limit ≡ (task_of self.now).limit)
            × (result.draws.now ≡ (task_of self.now).draws) }
    {
        Settings {
            smoothing: self.header.smoothing,
            limit: self.header.limit,
            draws: &self.lists.draws[..self.header.draws],
        }
    }
}
