ghost use Rattle.std.specs.Prelude.{◌≡◌, ◌++◌, ◌∷◌, [], IfErr, IfOk};
ghost use Rattle.ivy_model.specs.declared.call.Call.TheVariants.{Advance};
ghost use Rattle.ivy_calls.specs.Fails.{Fails};
ghost use Rattle.ivy_sync.specs.Doing.{IsTurn, arrives, clears};
ghost use Rattle.ivy_sync.specs.Failing.{AtSome, FailsToClear, FailsToBegin};

use crate::cleared::cleared_word;
use ivy_calls::{CallError, SharedMemory, advance_count, await_, cas};

/// Something that one node does for all, by the word of 8 bytes at `word` and eventcount `done`, both 0 at
/// first.
///
/// The word is a lock that nobody leaves: at no point do two nodes have begun.
#[derive(Clone, Copy, Debug, PartialEq, Eq)]
pub struct Once {
    /// The address of its word, a multiple of 8.
    pub word: u64,
    /// The eventcount that is 1 once it is done.
    pub done: u64,
}

impl Once {
    /// Something that is not done yet, whose word is a new block, by an eventcount that is 0. One node
    /// makes it, before a barrier, and tells the others where it lies.
    ///
    /// After an `Err` of the store the block stays allocated.
    pub fn alloc<M: SharedMemory>(memory: &mut M, done: u64) -> Result<Self, CallError>
        ensures clears { IfOk result (λ once.
            M.answers memory.new ≡ M.answers memory.old ++ clears once.word) }
        ensures done { IfOk result (λ once. once.done ≡ done) }
        ensures fails { IfErr result (λ error.
            FailsToClear (AtSome M.can_fail) error (M.answers memory.old) (M.answers memory.new)) }
    {
        Ok(Once {
            word: cleared_word(memory)?,
            done,
        })
    }

    /// Whether it is this node that has to do it, and then [`Once::finish`]. Where another node has begun, it
    /// waits until that has finished.
    pub fn begin<M: SharedMemory>(&self, memory: &mut M) -> Result<bool, CallError>
        ensures begins { IfOk result (λ mine.
            IsTurn self.now.word self.now.done mine (M.answers memory.old) (M.answers memory.new)) }
        ensures fails { IfErr result (λ error.
            FailsToBegin (AtSome M.can_fail) self.now.word self.now.done error
            (M.answers memory.old) (M.answers memory.new)) }
    {
        if cas(memory, self.word, 0u64, 1u64)? == 0 {
            return Ok(true);
        }
        await_(memory, self.done, 1)?;
        Ok(false)
    }

    /// Says that it is done.
    pub fn finish<M: SharedMemory>(&self, memory: &mut M) -> Result<(), CallError>
        ensures finishes { IfOk result (λ _.
            M.answers memory.new ≡ M.answers memory.old ++ arrives self.now.done ∷ []) }
        ensures fails { IfErr result (λ error.
            Fails (M.can_fail memory.old) (Advance self.now.done) error
            (M.answers memory.old) (M.answers memory.new)) }
    {
        advance_count(memory, self.done)
    }
}
