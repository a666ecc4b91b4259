ghost use Rattle.std.specs.Prelude.{◌≡◌, ℕ, ◌+◌, ◌*◌, ◌<◌, ◌^◌, ◌≤◌, IfErr, IfOk, OnErr};
ghost use Rattle.ivy_sync.specs.Failing.{AtSome};

use crate::error::SyncError;
use crate::look::look_until;
use ivy_calls::{SharedMemory, store};

/// How many children a node of the tree has at most.
pub(crate) const WIDTH: u64 = 4;

/// A barrier of all nodes by a tree, over and over: each node has a value of its own.
///
/// Node `i` waits for its children, the nodes 4i + 1 to 4i + 4 as far as they are there, and raises a word of its own. Then
/// it waits for its parent, and opens another word of its own. Each word has 8 bytes, and lies best on a page of its own:
/// so one node alone writes there, and at most four look at it. Nobody else may write in these words.
#[derive(Clone, Copy, Debug, PartialEq, Eq)]
pub struct TreeBarrier {
    /// The address of the word that node 0 raises, a multiple of 8.
    pub raised: u64,
    /// The address of the word that node 0 opens, a multiple of 8.
    pub opened: u64,
    /// How many bytes lie between the words of a node and those of the next: best a page.
    pub apart: u64,
    /// How many nodes meet.
    pub nodes: u8,
    /// How many phases have passed: at first 0, as the words are.
    pub passed: u64,
}

impl TreeBarrier {
    ghost use Rattle.ivy_sync.specs.meeting.TreeBarriers.{AddsAbove, AddsClimb, AddsGathered, FailsAbove, FailsToClimb, FailsToGatherUp, HasTree, children, climbed, opened_at, phase_of, raised_at};

    /// Waits, as node `me`, for the others. After an `Err` the barrier is as it was.
    pub fn wait<M: SharedMemory>(&mut self, memory: &mut M, me: u8) -> Result<(), SyncError>
        requires { HasTree self.old }
        ensures climbs { IfOk result (λ _.
            AddsClimb self.old me (M.answers memory.old) (M.answers memory.new)) }
        ensures next { IfOk result (λ _. self.new ≡ climbed self.old) }
        ensures same { OnErr result (self.new ≡ self.old) }
        ensures fails { IfErr result (λ error.
            FailsToClimb (AtSome M.can_fail) self.old me error
            (M.answers memory.old) (M.answers memory.new)) }
    {
        let Some(phase) = self.passed.checked_add(1) else {
            return Err(SyncError::Spent { place: self.raised });
        };
        self.gather(memory, me, phase)?;
        store(memory, self.raised + self.apart * u64::from(me), phase)?;
        self.await_parent(memory, me, phase)?;
        store(memory, self.opened + self.apart * u64::from(me), phase)?;
        self.passed = phase;
        Ok(())
    }

    /// Waits for the children of node `me`.
    pub(crate) fn gather<M: SharedMemory>(
        &self,
        memory: &mut M,
        me: u8,
        phase: u64,
    ) -> Result<(), SyncError>
        requires tree { HasTree self.now }
        requires phase { phase ≡ phase_of self.now }
        ensures gathers { IfOk result (λ _.
            AddsGathered self.now me (M.answers memory.old) (M.answers memory.new)) }
        ensures fails { IfErr result (λ error.
            FailsToGatherUp (AtSome M.can_fail) self.now me error
            (M.answers memory.old) (M.answers memory.new)) }
    {
        let first = WIDTH * u64::from(me) + 1;
        for up in 0..self.children(me) {
            look_until(memory, self.raised + self.apart * (first + up), phase)?;
        }
        Ok(())
    }

    /// How many children node `me` has.
    pub(crate) fn children(&self, me: u8) -> u64
        ensures number { result ≡ children self.now.nodes me }
        ensures there { (up : ℕ) → up < result → 4 * me + 1 + up < 256 }
    {
        WIDTH.min(u64::from(self.nodes).saturating_sub(WIDTH * u64::from(me) + 1))
    }

    /// Waits for the parent of node `me`: node 0 has none.
    pub(crate) fn await_parent<M: SharedMemory>(
        &self,
        memory: &mut M,
        me: u8,
        phase: u64,
    ) -> Result<(), SyncError>
        requires tree { HasTree self.now }
        requires phase { phase ≡ phase_of self.now }
        ensures awaits { IfOk result (λ _.
            AddsAbove self.now me (M.answers memory.old) (M.answers memory.new)) }
        ensures fails { IfErr result (λ error.
            FailsAbove (AtSome M.can_fail) self.now me error
            (M.answers memory.old) (M.answers memory.new)) }
    {
        if let Some(above) = me.checked_sub(1) {
            look_until(
                memory,
                self.opened + self.apart * (u64::from(above) / WIDTH),
                phase,
            )?;
        }
        Ok(())
    }
}
