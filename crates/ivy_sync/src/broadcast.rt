ghost use Rattle.std.specs.Prelude.{◌≡◌, ◌+◌, ◌++◌, ◌∷◌, [], IfErr, IfOk, OnErr};
ghost use Rattle.ivy_model.specs.declared.call.Call.TheVariants.{Alloc};
ghost use Rattle.ivy_calls.specs.Fails.{Fails};

use crate::barrier::Barrier;
use crate::error::SyncError;
use ivy_calls::{CallError, SharedMemory, alloc, load, store};

/// A number that one node gives to all, in the word of 8 bytes at `addr`. Each node has a value of its own.
///
/// Nobody else writes the word before the barrier, and nobody at all after it, until all have met again.
#[derive(Clone, Copy, Debug, PartialEq, Eq)]
pub struct Broadcast {
    /// The address of its word, a multiple of 8.
    pub addr: u64,
    /// Where all meet.
    pub barrier: Barrier,
}

impl Broadcast {
    ghost use Rattle.ivy_sync.specs.Doing.{allots};
    ghost use Rattle.ivy_sync.specs.meeting.Barriers.{passed_on};
    ghost use Rattle.ivy_sync.specs.meeting.Broadcasts.{Gives, Gets};
    ghost use Rattle.ivy_sync.specs.Failing.{AtSome, FailsToGive, FailsToGet, LeavesBroadcast};

    /// One in a new block, by this barrier. One node makes it, and tells the others where it lies.
    pub fn alloc<M: SharedMemory>(memory: &mut M, barrier: Barrier) -> Result<Self, CallError>
        ensures allots { IfOk result (λ made.
            M.answers memory.new ≡ M.answers memory.old ++ allots 8 made.addr ∷ []) }
        ensures barrier { IfOk result (λ made. made.barrier ≡ barrier) }
        ensures fails { IfErr result (λ error.
            Fails (M.can_fail memory.old) (Alloc 8) error
            (M.answers memory.old) (M.answers memory.new)) }
    {
        Ok(Broadcast {
            addr: alloc(memory, 8)?,
            barrier,
        })
    }

    /// Gives the number, and waits for the others. After an `Err` the broadcast is as it was.
    pub fn give<M: SharedMemory>(&mut self, memory: &mut M, value: u64) -> Result<(), SyncError>
        ensures gives { IfOk result (λ _.
            Gives self.old value (M.answers memory.old) (M.answers memory.new)) }
        ensures same { OnErr result (self.new ≡ self.old) }
        ensures next { IfOk result (λ _.
            self.new ≡ record self.old { barrier = passed_on self.old.barrier }) }
        ensures fails { IfErr result (λ error.
            FailsToGive (AtSome M.can_fail) self.old value error
            (M.answers memory.old) (M.answers memory.new)) }
    {
        store(memory, self.addr, value)?;
        self.barrier.wait(memory)
    }

    /// Waits for the others, and gets the number. After an `Err` of the barrier the broadcast is as it was, and after
    /// one of the load the barrier has been passed.
    pub fn get<M: SharedMemory>(&mut self, memory: &mut M) -> Result<u64, SyncError>
        ensures gets { IfOk result (λ value.
            Gets self.old value (M.answers memory.old) (M.answers memory.new)) }
        ensures next { IfOk result (λ _.
            self.new ≡ record self.old { barrier = passed_on self.old.barrier }) }
        ensures same { IfErr result (λ error.
            LeavesBroadcast (AtSome M.can_fail) self.old self.new error
            (M.answers memory.old) (M.answers memory.new)) }
        ensures fails { IfErr result (λ error.
            FailsToGet (AtSome M.can_fail) self.old error
            (M.answers memory.old) (M.answers memory.new)) }
    {
        self.barrier.wait(memory)?;
        Ok(load(memory, self.addr)?)
    }
}
