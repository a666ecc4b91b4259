ghost use Rattle.std.specs.Prelude.{◌∷◌, ◌++◌, [], ◌↔◌, IsTrue, ◌≡◌, ◌+◌, ◌*◌, ◌<◌, ◌^◌, ◌≤◌, ℕ, List, IfErr, IfOk, OnErr};
ghost use Rattle.ivy_model.specs.declared.call.Call.TheVariants.{Alloc};
ghost use Rattle.ivy_calls.specs.Fails.{Fails};

use crate::error::SyncError;
use ivy_calls::{CallError, SharedMemory, advance_count, alloc, await_, load, store};

/// Where a queue of one sender and one receiver lies: `size` words of 8 bytes from `at` on, and two eventcounts,
/// 0 at first, that say how many values were sent and taken.
#[derive(Clone, Copy, Debug, PartialEq, Eq)]
pub struct Queue {
    /// The address of its first word, a multiple of 8.
    pub at: u64,
    /// How many words it has.
    pub size: u64,
    /// The eventcount of what was sent.
    pub sent: u64,
    /// The eventcount of what was taken.
    pub taken: u64,
}

impl Queue {
    ghost use Rattle.ivy_sync.specs.Doing.{allots};

    /// An empty queue in a new block, by two eventcounts that are 0. One node makes it, before a
    /// barrier, and tells the others where it lies.
    pub fn alloc<M: SharedMemory>(
        memory: &mut M,
        size: u64,
        sent: u64,
        taken: u64,
    ) -> Result<Self, CallError>
        requires { 8 * size < 2 ^ 64 }
        ensures allots { IfOk result (λ queue.
            M.answers memory.new ≡ M.answers memory.old ++ allots (8 * size) queue.at ∷ []) }
        ensures is { IfOk result (λ queue.
            queue ≡ record { at = queue.at; size = size; sent = sent; taken = taken }) }
        ensures fails { IfErr result (λ error.
            Fails (M.can_fail memory.old) (Alloc (8 * size)) error
            (M.answers memory.old) (M.answers memory.new)) }
    {
        Ok(Queue {
            at: alloc(memory, 8 * size)?,
            size,
            sent,
            taken,
        })
    }

    /// Whether it has a place: words, whose addresses are numbers of 64 bits.
    pub fn has_place(&self) -> bool
        ensures { IsTrue result ↔ IsPlace self.now }
    {
        self.size > 0 && self.size <= u64::MAX / 8 && self.at.checked_add(8 * self.size).is_some()
    }

    ghost use Rattle.ivy_sync.specs.queueing.Queues.{IsPlace, slot};

    /// Where the `n`-th value lies.
    fn slot(&self, n: u64) -> u64
        requires { IsPlace self.now }
        ensures { result ≡ slot self.now n }
    {
        self.at + 8 * (n % self.size)
    }
}

/// The sending end of a queue: one node has it, and makes it once.
#[derive(Clone, Copy, Debug, PartialEq, Eq)]
pub struct Sender {
    pub queue: Queue,
    /// How many values were sent so far: 0 at first.
    pub next: u64,
}

impl Sender {
    ghost use Rattle.ivy_sync.specs.queueing.Queues.{AddsSend, IsPlace};
    ghost use Rattle.ivy_sync.specs.Failing.{AtSome, FailsToSend};

    /// Waits for room, and sends the value. After an `Err` the sender is as it was.
    pub fn send<M: SharedMemory>(&mut self, memory: &mut M, value: u64) -> Result<(), SyncError>
        requires { IsPlace self.old.queue }
        ensures sends { IfOk result (λ _.
            AddsSend self.old.queue self.old.next value
            (M.answers memory.old) (M.answers memory.new)) }
        ensures next { IfOk result (λ _. self.new ≡ record self.old { next = self.old.next + 1 }) }
        ensures same { OnErr result (self.new ≡ self.old) }
        ensures fails { IfErr result (λ error.
            FailsToSend (AtSome M.can_fail) self.old.queue self.old.next value error
            (M.answers memory.old) (M.answers memory.new)) }
    {
        let queue = self.queue;
        let Some(after) = self.next.checked_add(1) else {
            return Err(SyncError::Spent { place: queue.sent });
        };
        await_(memory, queue.taken, after.saturating_sub(queue.size))?;
        store(memory, queue.slot(self.next), value)?;
        advance_count(memory, queue.sent)?;
        self.next = after;
        Ok(())
    }
}

/// The receiving end of a queue: one node has it, and makes it once.
#[derive(Clone, Copy, Debug, PartialEq, Eq)]
pub struct Receiver {
    pub queue: Queue,
    /// How many values were taken so far: 0 at first.
    pub next: u64,
}

impl Receiver {
    ghost use Rattle.ivy_sync.specs.queueing.Queues.{AddsTake, IsPlace};
    ghost use Rattle.ivy_sync.specs.Failing.{AtSome, FailsToTake};

    /// Waits for the next value, and takes it. After an `Err` the receiver is as it was.
    pub fn take<M: SharedMemory>(&mut self, memory: &mut M) -> Result<u64, SyncError>
        requires { IsPlace self.old.queue }
        ensures takes { IfOk result (λ value.
            AddsTake self.old.queue self.old.next value
            (M.answers memory.old) (M.answers memory.new)) }
        ensures next { IfOk result (λ _. self.new ≡ record self.old { next = self.old.next + 1 }) }
        ensures same { OnErr result (self.new ≡ self.old) }
        ensures fails { IfErr result (λ error.
            FailsToTake (AtSome M.can_fail) self.old.queue self.old.next error
            (M.answers memory.old) (M.answers memory.new)) }
    {
        let queue = self.queue;
        let Some(after) = self.next.checked_add(1) else {
            return Err(SyncError::Spent { place: queue.sent });
        };
        await_(memory, queue.sent, after)?;
        let value = load(memory, queue.slot(self.next))?;
        advance_count(memory, queue.taken)?;
        self.next = after;
        Ok(value)
    }
}
