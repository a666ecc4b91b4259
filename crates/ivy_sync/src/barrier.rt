ghost use Rattle.std.specs.Prelude.{◌≡◌, ◌+◌, IfErr, IfOk, OnErr};
ghost use Rattle.ivy_sync.specs.Doing.{Crosses};

use crate::error::SyncError;
use ivy_calls::{SharedMemory, advance_count, await_};

/// A barrier of all nodes by eventcount `count`, over and over: each node has a value of its own.
///
/// In each phase a node advances the count once, and waits until all have. So nobody else may advance it.
#[derive(Clone, Copy, Debug, PartialEq, Eq)]
pub struct Barrier {
    /// The eventcount.
    pub count: u64,
    /// How many nodes meet.
    pub nodes: u8,
    /// What the count was when the next phase begins: at first the eventcount's value.
    pub passed: u64,
}

impl Barrier {
    ghost use Rattle.ivy_sync.specs.meeting.Barriers.{least_of, passed_on};
    ghost use Rattle.ivy_sync.specs.Failing.{AtSome, FailsToCross};

    /// Waits for the others. After an `Err` the barrier is as it was.
    pub fn wait<M: SharedMemory>(&mut self, memory: &mut M) -> Result<(), SyncError>
        ensures crosses { IfOk result (λ _.
            Crosses self.old.count (least_of self.old)
            (M.answers memory.old) (M.answers memory.new)) }
        ensures next { IfOk result (λ _. self.new ≡ passed_on self.old) }
        ensures same { OnErr result (self.new ≡ self.old) }
        ensures fails { IfErr result (λ error.
            FailsToCross (AtSome M.can_fail) self.old.count (least_of self.old) error
            (M.answers memory.old) (M.answers memory.new)) }
    {
        let Some(all) = self.passed.checked_add(u64::from(self.nodes)) else {
            return Err(SyncError::Spent { place: self.count });
        };
        advance_count(memory, self.count)?;
        await_(memory, self.count, all)?;
        self.passed = all;
        Ok(())
    }
}
