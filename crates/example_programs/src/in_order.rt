//! Nodes that count themselves under a lock that they take in order.
use ivy_calls::{SharedMemory, Work, load, store};
use ivy_model::Fault;
use ivy_sync::ArrayLock;

/// Each node adds 1 to a count under a lock, which they take in the order in which they asked for it. Each gives what it
/// found.
///
/// At no point are two nodes inside, as [`crate::one_place_at_a_time`] says, and in the end all are counted
/// ([`crate::all_are_counted`]).
#[derive(Clone, Copy, Debug, PartialEq, Eq)]
pub struct InOrder {
    /// Who may change the count.
    pub lock: ArrayLock,
    /// Where the count lies: a word of 8 bytes, 0 at first.
    pub count: u64,
}

impl Work for InOrder {
    ghost use Rattle.example_programs.specs.InOrder.{HasCounted};

    type Out = u64;

    ghost done = { HasCounted };

    fn work<M: SharedMemory>(&self, _me: u8, memory: &mut M) -> Result<u64, Fault> {
        if !self.lock.has_places() {
            return Err(Fault::OutOfRange);
        }
        let ticket = self.lock.acquire(memory)?;
        let count: u64 = load(memory, self.count)?;
        let Some(more) = count.checked_add(1) else {
            return Err(Fault::CountFull);
        };
        store(memory, self.count, more)?;
        self.lock.release(memory, ticket)?;
        Ok(count)
    }
}
