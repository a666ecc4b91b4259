ghost use Rattle.std.specs.Prelude.{◌≡◌, IfErr, IfOk, OnErr};
ghost use Rattle.ivy_sync.specs.Failing.{AtSome};

use crate::error::SyncError;
use crate::look::look_until;
use ivy_calls::{SharedMemory, fetch_add, store};

/// A barrier of all nodes by two words of 8 bytes of the heap, over and over: each node has a value of its own.
///
/// In each phase a node adds 1 to the first word. Who comes last sets the second one, at which the others look: on a
/// page of its own it stays at hand while nothing changes. Nobody else may write in these words.
#[derive(Clone, Copy, Debug, PartialEq, Eq)]
pub struct WordBarrier {
    /// The address of the word that counts who has arrived, a multiple of 8.
    pub arrived: u64,
    /// The address of the word that opens the barrier, a multiple of 8. It lies best on another page.
    pub opened: u64,
    /// How many nodes meet.
    pub nodes: u8,
    /// What the words are when the next phase begins: at first 0, as they are.
    pub passed: u64,
}

impl WordBarrier {
    ghost use Rattle.ivy_sync.specs.meeting.WordBarriers.{AddsMeeting, AddsPassage, FailsToMeet, FailsToPass, all_of, gone_on};

    /// Waits for the others. After an `Err` the barrier is as it was.
    pub fn wait<M: SharedMemory>(&mut self, memory: &mut M) -> Result<(), SyncError>
        ensures meets { IfOk result (λ _.
            AddsMeeting self.old.arrived self.old.opened (all_of self.old)
            (M.answers memory.old) (M.answers memory.new)) }
        ensures next { IfOk result (λ _. self.new ≡ gone_on self.old) }
        ensures same { OnErr result (self.new ≡ self.old) }
        ensures fails { IfErr result (λ error.
            FailsToMeet (AtSome M.can_fail) self.old error
            (M.answers memory.old) (M.answers memory.new)) }
    {
        let Some(all) = self.passed.checked_add(u64::from(self.nodes)) else {
            return Err(SyncError::Spent {
                place: self.arrived,
            });
        };
        let drawn: u64 = fetch_add(memory, self.arrived, 1u64)?;
        self.pass(memory, drawn, all)?;
        self.passed = all;
        Ok(())
    }

    /// Opens the barrier where this was the last number to be drawn, and else waits until it is open.
    fn pass<M: SharedMemory>(&self, memory: &mut M, drawn: u64, all: u64) -> Result<(), SyncError>
        ensures passes { IfOk result (λ _. AddsPassage self.now.opened all drawn
            (M.answers memory.old) (M.answers memory.new)) }
        ensures fails { IfErr result (λ error.
            FailsToPass (AtSome M.can_fail) self.now.opened all drawn error
            (M.answers memory.old) (M.answers memory.new)) }
    {
        if drawn < all && all - drawn == 1 {
            store(memory, self.opened, all)?;
        } else {
            look_until(memory, self.opened, all)?;
        }
        Ok(())
    }
}
