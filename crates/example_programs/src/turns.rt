//! Nodes that come in one after another.
use ivy_calls::{SharedMemory, Work, advance_count, await_};
use ivy_model::Fault;
use ivy_sync::TicketLock;

/// The nodes come in one after another, each once, as they draw their tickets. Each gives its ticket.
///
/// At no point has the turn of two nodes come, as [`crate::one_ticket_at_a_time`] says.
#[derive(Clone, Copy, Debug, PartialEq, Eq)]
pub struct ByTickets {
    /// Whose turn it is.
    pub lock: TicketLock,
}

impl Work for ByTickets {
    ghost use Rattle.example_programs.specs.Turns.{HasDrawn};

    type Out = u64;

    ghost done = { HasDrawn };

    fn work<M: SharedMemory>(&self, _me: u8, memory: &mut M) -> Result<u64, Fault> {
        let ticket = self.lock.acquire(memory)?;
        self.lock.release(memory)?;
        Ok(ticket)
    }
}

/// The nodes come in one after another, each once, in the order of their numbers. Each gives the count that it found.
///
/// At no point are two nodes inside, as [`crate::one_turn_at_a_time`] says.
#[derive(Clone, Copy, Debug, PartialEq, Eq)]
pub struct ByNumbers {
    /// The eventcount with the number of the node whose turn it is: 0 at first.
    pub turn: u64,
}

impl Work for ByNumbers {
    ghost use Rattle.example_programs.specs.Turns.{HasWaited};

    type Out = u64;

    ghost done = { HasWaited };

    fn work<M: SharedMemory>(&self, me: u8, memory: &mut M) -> Result<u64, Fault> {
        let found = await_(memory, self.turn, u64::from(me))?;
        advance_count(memory, self.turn)?;
        Ok(found)
    }
}
