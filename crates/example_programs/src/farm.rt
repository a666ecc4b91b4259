use ivy_calls::{SharedMemory, Work, fetch_add};
use ivy_model::Fault;
use std::alloc::Global;

/// Jobs that all nodes share out among themselves: a node draws the number of the next one from a word, and
/// does it, until all are drawn. It gives the numbers of the jobs that it has done.
///
/// Each job is done once, by one node, as [`crate::each_job_once`] says.
#[derive(Clone, Copy)]
pub struct Farm {
    /// Where the number of the next job lies: a word of 8 bytes, 0 at first.
    pub next: u64,
    /// How many jobs there are: those of the numbers below.
    pub jobs: u32,
    /// Where the lists of jobs lie.
    pub alloc: Global,
}

impl Work for Farm {
    ghost use Rattle.example_programs.specs.Farm.{HasWorked};

    type Out = Vec<u64>;

    ghost done = { HasWorked };

    fn work<M: SharedMemory>(&self, _me: u8, memory: &mut M) -> Result<Vec<u64>, Fault> {
        let jobs = u64::from(self.jobs);
        let mut mine = Vec::new(self.alloc);
        while (mine.len() as u64) < jobs {
            let job = fetch_add(memory, self.next, 1u64)?;
            if job >= jobs {
                return Ok(mine);
            }
            mine.push(job)?;
        }
        Ok(mine)
    }
}
