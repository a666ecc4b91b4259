ghost use Rattle.std.specs.Prelude.{[], ◌≡◌, IfOk};

use ivy_calls::{SharedMemory, Work};
use ivy_model::Fault;
use ivy_sync::{Broadcast, Lock};

/// Node 0 makes a lock, and tells the others where it lies. Then each node takes it once and leaves it, and gives its
/// address.
///
/// All give the same address, at no point do two nodes hold the lock, and in the end it is free, as
/// [`crate::made_locks_exclude`] says.
#[derive(Clone, Copy, Debug, PartialEq, Eq)]
pub struct MadeLock {
    /// By which node 0 tells the address. Its word lies where no block comes, as at the end of the heap.
    /// A node gives up where the lock is that word.
    pub told: Broadcast,
}

impl MadeLock {
    ghost use Rattle.example_programs.specs.MadeLock.{HasMet};

    /// The lock: node 0 makes it, and the others wait until they are told where it lies.
    fn meet<M: SharedMemory>(&self, me: u8, memory: &mut M) -> Result<Lock, Fault>
        requires { M.answers memory.old ≡ [] }
        ensures { IfOk result (λ lock. HasMet self.now me lock.addr (M.answers memory.new)) }
    {
        let mut told = self.told;
        if me > 0 {
            return Ok(Lock {
                addr: told.get(memory)?,
            });
        }
        let lock = Lock::alloc(memory)?;
        told.give(memory, lock.addr)?;
        Ok(lock)
    }
}

impl Work for MadeLock {
    ghost use Rattle.example_programs.specs.MadeLock.{HasHeld};

    type Out = u64;

    ghost done = { HasHeld };

    fn work<M: SharedMemory>(&self, me: u8, memory: &mut M) -> Result<u64, Fault> {
        let lock = self.meet(me, memory)?;
        if lock.addr / 8 == self.told.addr / 8 {
            return Err(Fault::NoRoom);
        }
        lock.acquire(memory)?;
        lock.release(memory)?;
        Ok(lock.addr)
    }
}
