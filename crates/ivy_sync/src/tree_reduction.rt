ghost use Rattle.std.specs.Prelude.{◌≡◌, IfErr, IfOk, OnErr};
ghost use Rattle.ivy_sync.specs.Failing.{AtSome};

use crate::error::SyncError;
use crate::tree_barrier::{TreeBarrier, WIDTH};
use ivy_calls::{CallError, SharedMemory, load, store};

/// A number of each node, which all nodes put together by a tree, over and over: each node has a value of its own.
///
/// Node `i` waits for its children, puts their parts to its own number, and leaves that, its part, in a word of its own for
/// its parent. On the way down each node gets what node 0's part is, and leaves it for its children. So a node looks
/// at words of five others at most, and all have met. Nobody else may write in these words, nor a node beside the calls of
/// its value.
#[derive(Clone, Copy, Debug, PartialEq, Eq)]
pub struct TreeReduction {
    /// By which the nodes wait for each other. The words of two nodes lie `apart` bytes apart here too.
    pub tree: TreeBarrier,
    /// The address of the word with the part of node 0, a multiple of 8: best on the page of `tree.raised`.
    pub part: u64,
    /// The address of the word in which node 0 leaves what all get, a multiple of 8: best on the page of `tree.opened`.
    pub given: u64,
}

impl TreeReduction {
    ghost use Rattle.ivy_sync.specs.meeting.TreeFolds.{AddsDescent, AddsFetched, AddsFold, AddsPart, AddsRise, FailsToDescend, FailsToFetch, FailsToFold, FailsToPart, FailsToRise, HasFoldTree, folded_on};
    ghost use Rattle.ivy_sync.specs.meeting.TreeBarriers.{phase_of};

    /// Gives the number of node `me`, and gets what the numbers of all nodes come to by `f`. After an `Err` the reduction
    /// is as it was.
    ///
    /// Where neither order nor grouping matters to `f`, all numbers are put together, as [`crate::tree_folds_are_whole`]
    /// says.
    pub fn fold<F: Fn(u64, u64) -> u64 + Drop, M: SharedMemory>(
        &mut self,
        memory: &mut M,
        me: u8,
        value: u64,
        f: F,
    ) -> Result<u64, SyncError>
        requires callable { F.IsAlwaysCallable f }
        requires tree { HasFoldTree self.old }
        ensures folds { IfOk result (λ all.
            AddsFold (λ p x q. F.post f p x q) self.old me value all
            (M.answers memory.old) (M.answers memory.new)) }
        ensures next { IfOk result (λ _. self.new ≡ folded_on self.old) }
        ensures same { OnErr result (self.new ≡ self.old) }
        ensures fails { IfErr result (λ error.
            FailsToFold (λ p x q. F.post f p x q) (AtSome M.can_fail) self.old me value error
            (M.answers memory.old) (M.answers memory.new)) }
    {
        let Some(phase) = self.tree.passed.checked_add(1) else {
            return Err(SyncError::Spent {
                place: self.tree.raised,
            });
        };
        let part = self.rise(memory, me, phase, value, f)?;
        let all = self.descend(memory, me, phase, part)?;
        self.tree.passed = phase;
        Ok(all)
    }

    /// Waits for the children of node `me`, and leaves its part.
    fn rise<F: Fn(u64, u64) -> u64 + Drop, M: SharedMemory>(
        &self,
        memory: &mut M,
        me: u8,
        phase: u64,
        value: u64,
        f: F,
    ) -> Result<u64, SyncError>
        requires callable { F.IsAlwaysCallable f }
        requires tree { HasFoldTree self.now }
        requires phase { phase ≡ phase_of self.now.tree }
        ensures rises { IfOk result (λ part.
            AddsRise (λ p x q. F.post f p x q) self.now me value part
            (M.answers memory.old) (M.answers memory.new)) }
        ensures fails { IfErr result (λ error.
            FailsToRise (λ p x q. F.post f p x q) (AtSome M.can_fail) self.now me value error
            (M.answers memory.old) (M.answers memory.new)) }
    {
        self.tree.gather(memory, me, phase)?;
        let part = self.put_together(memory, me, value, f)?;
        store(memory, self.part + self.tree.apart * u64::from(me), part)?;
        store(
            memory,
            self.tree.raised + self.tree.apart * u64::from(me),
            phase,
        )?;
        Ok(part)
    }

    /// Puts the parts of the children of node `me` to its number.
    fn put_together<F: Fn(u64, u64) -> u64 + Drop, M: SharedMemory>(
        &self,
        memory: &mut M,
        me: u8,
        value: u64,
        f: F,
    ) -> Result<u64, CallError>
        requires callable { F.IsAlwaysCallable f }
        requires tree { HasFoldTree self.now }
        ensures puts { IfOk result (λ part.
            AddsPart (λ p x q. F.post f p x q) self.now me value part
            (M.answers memory.old) (M.answers memory.new)) }
        ensures fails { IfErr result (λ error.
            FailsToPart (AtSome M.can_fail) self.now me error
            (M.answers memory.old) (M.answers memory.new)) }
    {
        let first = WIDTH * u64::from(me) + 1;
        let mut part = value;
        for up in 0..self.tree.children(me) {
            let found = load(memory, self.part + self.tree.apart * (first + up))?;
            part = f(part, found);
        }
        Ok(part)
    }

    /// Waits for the parent of node `me`, gets what all get, and leaves it.
    fn descend<M: SharedMemory>(
        &self,
        memory: &mut M,
        me: u8,
        phase: u64,
        part: u64,
    ) -> Result<u64, SyncError>
        requires tree { HasFoldTree self.now }
        requires phase { phase ≡ phase_of self.now.tree }
        ensures descends { IfOk result (λ all.
            AddsDescent self.now me part all (M.answers memory.old) (M.answers memory.new)) }
        ensures fails { IfErr result (λ error.
            FailsToDescend (AtSome M.can_fail) self.now me part error
            (M.answers memory.old) (M.answers memory.new)) }
    {
        self.tree.await_parent(memory, me, phase)?;
        let all = self.fetch(memory, me, part)?;
        store(memory, self.given + self.tree.apart * u64::from(me), all)?;
        store(
            memory,
            self.tree.opened + self.tree.apart * u64::from(me),
            phase,
        )?;
        Ok(all)
    }

    /// What the parent of node `me` left: node 0 has none, and its part is what all get.
    fn fetch<M: SharedMemory>(&self, memory: &mut M, me: u8, part: u64) -> Result<u64, CallError>
        requires tree { HasFoldTree self.now }
        ensures fetches { IfOk result (λ all.
            AddsFetched self.now me part all (M.answers memory.old) (M.answers memory.new)) }
        ensures fails { IfErr result (λ error.
            FailsToFetch (AtSome M.can_fail) self.now me error
            (M.answers memory.old) (M.answers memory.new)) }
    {
        match me.checked_sub(1) {
            Some(above) => load(
                memory,
                self.given + self.tree.apart * (u64::from(above) / WIDTH),
            ),
            None => Ok(part),
        }
    }

    /// Gives the number of node 0 to all: each node calls this, and gets that number. After an `Err` the reduction is as
    /// it was.
    ///
    /// It is a broadcast by the tree: [`crate::tree_reductions_agree`] says that all get it.
    pub fn share<M: SharedMemory>(
        &mut self,
        memory: &mut M,
        me: u8,
        value: u64,
    ) -> Result<u64, SyncError>
        requires { HasFoldTree self.old }
        ensures folds { IfOk result (λ all.
            AddsFold (λ p x q. q ≡ p) self.old me value all
            (M.answers memory.old) (M.answers memory.new)) }
        ensures next { IfOk result (λ _. self.new ≡ folded_on self.old) }
        ensures same { OnErr result (self.new ≡ self.old) }
        ensures fails { IfErr result (λ error.
            FailsToFold (λ p x q. q ≡ p) (AtSome M.can_fail) self.old me value error
            (M.answers memory.old) (M.answers memory.new)) }
    {
        let own = |part: u64, _other: u64| -> u64
            ensures { result ≡ part }
        { part };
        self.fold(memory, me, value, own)
    }
}
