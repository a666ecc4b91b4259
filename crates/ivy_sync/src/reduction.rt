ghost use Rattle.std.specs.Prelude.{◌++◌, ◌∷◌, [], ◌≡◌, ◌+◌, ◌*◌, ◌<◌, ◌^◌, IfErr, IfOk};
ghost use Rattle.ivy_model.specs.declared.call.Call.TheVariants.{Alloc};
ghost use Rattle.ivy_calls.specs.Fails.{Fails};

use crate::barrier::Barrier;
use crate::error::SyncError;
use ivy_calls::{CallError, SharedMemory, alloc, load, store};

/// A number of each node, from which each node works out the same: node `i` gives its own in the `i`-th word of 8
/// bytes from `addr` on. Each node has a value of its own.
///
/// Nobody else writes these words. Before they are written again, all have to meet once more.
#[derive(Clone, Copy, Debug, PartialEq, Eq)]
pub struct Reduction {
    /// The address of the first word, a multiple of 8.
    pub addr: u64,
    /// Where all meet.
    pub barrier: Barrier,
}

impl Reduction {
    ghost use Rattle.ivy_sync.specs.Doing.{allots};
    ghost use Rattle.ivy_sync.specs.meeting.Barriers.{passed_on};
    ghost use Rattle.ivy_sync.specs.Failing.{AtSome};
    ghost use Rattle.ivy_sync.specs.meeting.Folds.{FailsToGather, Folds};

    /// One in a new block, by this barrier. One node makes it, and tells the others where it lies.
    pub fn alloc<M: SharedMemory>(memory: &mut M, barrier: Barrier) -> Result<Self, CallError>
        ensures allots { IfOk result (λ made.
            M.answers memory.new ≡ M.answers memory.old ++ allots (8 * barrier.nodes) made.addr ∷ []) }
        ensures barrier { IfOk result (λ made. made.barrier ≡ barrier) }
        ensures fails { IfErr result (λ error.
            Fails (M.can_fail memory.old) (Alloc (8 * barrier.nodes)) error
            (M.answers memory.old) (M.answers memory.new)) }
    {
        Ok(Reduction {
            addr: alloc(memory, 8 * u64::from(barrier.nodes))?,
            barrier,
        })
    }

    /// Gives the number of node `me`, waits for the others, and folds the numbers of all nodes, from node 0 on.
    pub fn fold<T: Drop, F: Fn(T, u64) -> T + Drop, M: SharedMemory>(
        &mut self,
        memory: &mut M,
        me: u8,
        value: u64,
        first: T,
        f: F,
    ) -> Result<T, SyncError>
        requires callable { F.IsAlwaysCallable f }
        requires fits { self.old.addr + 8 * 256 < 2 ^ 64 }
        ensures folds { IfOk result (λ out.
            Folds (λ p x q. F.post f p x q) self.old me value first out
            (M.answers memory.old) (M.answers memory.new)) }
        ensures next { IfOk result (λ _.
            self.new ≡ record self.old { barrier = passed_on self.old.barrier }) }
        ensures fails { IfErr result (λ error.
            FailsToGather (AtSome M.can_fail) self.old me value error
            (M.answers memory.old) (M.answers memory.new)) }
    {
        store(memory, self.addr + 8 * u64::from(me), value)?;
        self.barrier.wait(memory)?;
        let mut out = first;
        for node in 0..self.barrier.nodes {
            let found = load(memory, self.addr + 8 * u64::from(node))?;
            out = f(out, found);
        }
        Ok(out)
    }
}
