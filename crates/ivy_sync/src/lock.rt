ghost use Rattle.std.specs.Prelude.{◌≡◌, ◌++◌, ◌∷◌, [], IfErr, IfOk};
ghost use Rattle.ivy_model.specs.declared.call.Call.TheVariants.{Store};
ghost use Rattle.ivy_calls.specs.Fails.{Fails};
ghost use Rattle.ivy_sync.specs.Doing.{Locks, clears, stores};
ghost use Rattle.ivy_sync.specs.Failing.{AtSome, FailsToClear, FailsToLock};

use crate::cleared::cleared_word;
use crate::error::SyncError;
use ivy_calls::{CallError, SharedMemory, store, swap};

/// A lock in the word of 8 bytes at `addr`, which is 0 where it is free.
///
/// It spins: a try is a call, and an answer. It is free at first where the word was never written, and
/// where [`Lock::alloc`] made it.
#[derive(Clone, Copy, Debug, PartialEq, Eq)]
pub struct Lock {
    /// The address of its word, a multiple of 8.
    pub addr: u64,
}

impl Lock {
    /// A free lock in a new block. One node makes it, before a barrier, and tells the others where it
    /// lies.
    ///
    /// After an `Err` of the store the block stays allocated.
    pub fn alloc<M: SharedMemory>(memory: &mut M) -> Result<Self, CallError>
        ensures clears { IfOk result (λ lock.
            M.answers memory.new ≡ M.answers memory.old ++ clears lock.addr) }
        ensures fails { IfErr result (λ error.
            FailsToClear (AtSome M.can_fail) error (M.answers memory.old) (M.answers memory.new)) }
    {
        Ok(Lock {
            addr: cleared_word(memory)?,
        })
    }

    /// Tries until the lock is free, and takes it. Of itself it gives up after `u64::MAX` tries alone.
    pub fn acquire<M: SharedMemory>(&self, memory: &mut M) -> Result<(), SyncError>
        ensures locks { IfOk result (λ _.
            Locks self.now.addr (M.answers memory.old) (M.answers memory.new)) }
        ensures fails { IfErr result (λ error.
            FailsToLock (AtSome M.can_fail) self.now.addr error
            (M.answers memory.old) (M.answers memory.new)) }
    {
        for _ in 0..u64::MAX {
            if swap(memory, self.addr, 1u64)? == 0 {
                return Ok(());
            }
        }
        Err(SyncError::Spent { place: self.addr })
    }

    /// Leaves the lock. By the rule of locks only who holds it may do so.
    pub fn release<M: SharedMemory>(&self, memory: &mut M) -> Result<(), CallError>
        ensures leaves { IfOk result (λ _.
            M.answers memory.new ≡ M.answers memory.old ++ stores self.now.addr 0 ∷ []) }
        ensures fails { IfErr result (λ error.
            Fails (M.can_fail memory.old) (Store 8 self.now.addr 0) error
            (M.answers memory.old) (M.answers memory.new)) }
    {
        store(memory, self.addr, 0u64)
    }
}
