ghost use Rattle.std.specs.Prelude.{IfErr, IfOk};
ghost use Rattle.ivy_sync.specs.Failing.{AtSome};

use crate::error::SyncError;
use crate::lock::Lock;
use crate::queue::{Queue, Sender};
use ivy_calls::{SharedMemory, read_count};

/// The sending end of a queue for several nodes, which send one after another under a lock. Who holds it
/// finds out from the eventcount how many values were sent.
///
/// Each node may have a copy. No other sender of the queue may be used beside it.
#[derive(Clone, Copy, Debug, PartialEq, Eq)]
pub struct SharedSender {
    pub queue: Queue,
    pub lock: Lock,
}

impl SharedSender {
    ghost use Rattle.ivy_sync.specs.queueing.Queues.{IsPlace};
    ghost use Rattle.ivy_sync.specs.queueing.SharedQueues.{FailsToShare, Shares};

    /// Waits for the lock and for room, and sends the value.
    ///
    /// After an `Err` that came after the lock was taken the lock stays taken, so nobody sends any more.
    pub fn send<M: SharedMemory>(&self, memory: &mut M, value: u64) -> Result<(), SyncError>
        requires { IsPlace self.now.queue }
        ensures shares { IfOk result (λ _.
            Shares self.now.lock.addr self.now.queue value
            (M.answers memory.old) (M.answers memory.new)) }
        ensures fails { IfErr result (λ error.
            FailsToShare (AtSome M.can_fail) self.now.lock.addr self.now.queue value error
            (M.answers memory.old) (M.answers memory.new)) }
    {
        self.lock.acquire(memory)?;
        let next = read_count(memory, self.queue.sent)?;
        let mut sender = Sender {
            queue: self.queue,
            next,
        };
        sender.send(memory, value)?;
        Ok(self.lock.release(memory)?)
    }
}
