// What a crew is to do.
ghost use Rattle.std.specs.Prelude.{◌≡◌, ◌≤◌};
ghost use Rattle.crew.specs.Plans.{job_of, workers_of};

use appends_core::AppendList;
use crew_core::Job;
use stops_core::StopList;
use store_core::ShardId;

/// What a crew is to do: which appends are tried on which shard by how many writers, how many compactors and collectors work meanwhile,
/// and which of the workers stop early. Workers are numbered from 0: writers first, then compactors, then collectors. The first collector
/// is client 0 of the store's trail, and the others are the clients from 1 on, in the order of their numbers.
#[derive(Drop)]
pub struct Plan {
    pub shard: ShardId,
    pub appends: AppendList,
    pub writers: u32,
    pub compactors: u32,
    pub collectors: u32,
    pub stops: StopList,
}

impl Plan {
    /// What the worker of this number is for.
    pub fn job_of(&self, worker: u32) -> Job
        requires { workers_of self.now ≤ 64 }
        ensures { result ≡ job_of self.now worker }
    {
        let first = self.writers + self.compactors;
        if worker < self.writers {
            return Job::Write;
        }
        if worker < first {
            return Job::Merge;
        }
        if worker == first {
            Job::Pin
        } else {
            Job::Collect
        }
    }

    /// How many workers it has.
    pub fn workers(&self) -> u32
        requires { workers_of self.now ≤ 64 }
        ensures { result ≡ workers_of self.now }
    {
        self.writers + self.compactors + self.collectors
    }
}
