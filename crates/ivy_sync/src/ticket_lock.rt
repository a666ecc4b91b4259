ghost use Rattle.std.specs.Prelude.{◌≡◌, ◌++◌, ◌∷◌, [], IfErr, IfOk};
ghost use Rattle.ivy_model.specs.declared.call.Call.TheVariants.{Advance};
ghost use Rattle.ivy_calls.specs.Fails.{Fails};
ghost use Rattle.ivy_sync.specs.Doing.{Enters, arrives, clears};
ghost use Rattle.ivy_sync.specs.Failing.{AtSome, FailsToClear, FailsToEnter};

use crate::cleared::cleared_word;
use ivy_calls::{CallError, SharedMemory, advance_count, await_, fetch_add};

/// A lock by tickets: the word of 8 bytes at `next` has the next ticket, and eventcount `turn` the one whose
/// turn it is. Both are 0 at first.
///
/// A node comes in in the order of the tickets, and waits with one call, however long it takes.
#[derive(Clone, Copy, Debug, PartialEq, Eq)]
pub struct TicketLock {
    /// The address of the word with the next ticket, a multiple of 8.
    pub next: u64,
    /// The eventcount with the ticket whose turn it is.
    pub turn: u64,
}

impl TicketLock {
    /// A free lock whose word is a new block, by an eventcount that is 0. One node makes it, before a
    /// barrier, and tells the others where it lies.
    ///
    /// After an `Err` of the store the block stays allocated.
    pub fn alloc<M: SharedMemory>(memory: &mut M, turn: u64) -> Result<Self, CallError>
        ensures clears { IfOk result (λ lock.
            M.answers memory.new ≡ M.answers memory.old ++ clears lock.next) }
        ensures turn { IfOk result (λ lock. lock.turn ≡ turn) }
        ensures fails { IfErr result (λ error.
            FailsToClear (AtSome M.can_fail) error (M.answers memory.old) (M.answers memory.new)) }
    {
        Ok(TicketLock {
            next: cleared_word(memory)?,
            turn,
        })
    }

    /// Draws a ticket, and waits for its turn. It gives the ticket.
    ///
    /// After an `Err` of the await the ticket is drawn and its turn will not pass, so nobody comes in any more.
    pub fn acquire<M: SharedMemory>(&self, memory: &mut M) -> Result<u64, CallError>
        ensures enters { IfOk result (λ ticket.
            Enters self.now.next self.now.turn ticket
            (M.answers memory.old) (M.answers memory.new)) }
        ensures fails { IfErr result (λ error.
            FailsToEnter (AtSome M.can_fail) self.now.next self.now.turn error
            (M.answers memory.old) (M.answers memory.new)) }
    {
        let ticket = fetch_add(memory, self.next, 1u64)?;
        await_(memory, self.turn, ticket)?;
        Ok(ticket)
    }

    /// Gives the turn to the next ticket. By the rule of tickets only who is inside may do so.
    pub fn release<M: SharedMemory>(&self, memory: &mut M) -> Result<(), CallError>
        ensures leaves { IfOk result (λ _.
            M.answers memory.new ≡ M.answers memory.old ++ arrives self.now.turn ∷ []) }
        ensures fails { IfErr result (λ error.
            Fails (M.can_fail memory.old) (Advance self.now.turn) error
            (M.answers memory.old) (M.answers memory.new)) }
    {
        advance_count(memory, self.turn)
    }
}
