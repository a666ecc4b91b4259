use ivy_calls::{SharedMemory, Work, load, store};
use ivy_model::Fault;
use ivy_sync::{Barrier, Lock};

/// Each node adds its own number to a sum under a lock, meets the others, and reads the sum.
///
/// So each gives the same: N(N-1)/2 of N nodes, as [`crate::all_read_the_sum`] says.
#[derive(Clone, Copy, Debug, PartialEq, Eq)]
pub struct AddsUp {
    /// Who may change the sum.
    pub lock: Lock,
    /// Where the sum lies: a word of 8 bytes, 0 at first.
    pub sum: u64,
    /// Where the nodes meet.
    pub barrier: Barrier,
}

impl Work for AddsUp {
    ghost use Rattle.example_programs.specs.AddsUp.{HasAdded};

    type Out = u64;

    ghost done = { HasAdded };

    fn work<M: SharedMemory>(&self, me: u8, memory: &mut M) -> Result<u64, Fault> {
        self.lock.acquire(memory)?;
        let sum: u64 = load(memory, self.sum)?;
        let Some(more) = sum.checked_add(u64::from(me)) else {
            return Err(Fault::CountFull);
        };
        store(memory, self.sum, more)?;
        self.lock.release(memory)?;
        let mut barrier = self.barrier;
        barrier.wait(memory)?;
        Ok(load(memory, self.sum)?)
    }
}
