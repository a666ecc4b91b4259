ghost use Rattle.std.specs.Prelude.{◌≡◌, ◌+◌, ◌++◌, ◌∷◌, [], ◌↔◌, IsTrue, IfErr, IfOk};
ghost use Rattle.ivy_sync.specs.Doing.{stores};
ghost use Rattle.ivy_sync.specs.Failing.{AtSome};

use crate::error::SyncError;
use crate::look::look_until;
use ivy_calls::{SharedMemory, fetch_add, store};

/// A lock that nodes take in the order in which they asked for it, each waiting at a place of its own.
///
/// The word of 8 bytes at `next` has the next ticket. A place is a word of 8 bytes too, best on a page of its own: it says
/// up to which ticket the turn of those that wait there has come. All are 0 at first. With as many places as nodes, who
/// leaves the lock disturbs only the one that comes next.
#[derive(Clone, Copy, Debug, PartialEq, Eq)]
pub struct ArrayLock {
    /// The address of the word with the next ticket, a multiple of 8.
    pub next: u64,
    /// The address of the first place, a multiple of 8. No place is the word of the tickets.
    pub places: u64,
    /// How many bytes lie between a place and the next: best a page.
    pub apart: u64,
    /// How many places there are.
    pub size: u64,
}

impl ArrayLock {
    ghost use Rattle.ivy_sync.specs.excluding.ArrayLocks.{FailsToGiveOn, FailsToTakePlace, HasPlaces, TakesPlace, place};

    /// Whether it has places, whose addresses are numbers of 64 bits.
    pub fn has_places(&self) -> bool
        ensures { IsTrue result ↔ HasPlaces self.now }
    {
        self.size > 0
            && self
                .apart
                .checked_mul(self.size)
                .is_some_and(|bytes| self.places.checked_add(bytes).is_some())
    }

    /// The address of a ticket's place.
    fn place(&self, ticket: u64) -> u64
        requires { HasPlaces self.now }
        ensures { result ≡ place self.now ticket }
    {
        self.places + self.apart * (ticket % self.size)
    }

    /// Draws a ticket, and waits for its turn. It gives the ticket, by which to leave.
    ///
    /// After an `Err` of a look the ticket is drawn and its turn will not pass, so nobody comes in any more.
    pub fn acquire<M: SharedMemory>(&self, memory: &mut M) -> Result<u64, SyncError>
        requires { HasPlaces self.now }
        ensures takes { IfOk result (λ ticket.
            TakesPlace self.now ticket (M.answers memory.old) (M.answers memory.new)) }
        ensures fails { IfErr result (λ error.
            FailsToTakePlace (AtSome M.can_fail) self.now error
            (M.answers memory.old) (M.answers memory.new)) }
    {
        let ticket: u64 = fetch_add(memory, self.next, 1u64)?;
        look_until(memory, self.place(ticket), ticket)?;
        Ok(ticket)
    }

    /// Gives the turn to the next ticket. By the rule of places only who is inside may do so, by its own ticket.
    pub fn release<M: SharedMemory>(&self, memory: &mut M, ticket: u64) -> Result<(), SyncError>
        requires { HasPlaces self.now }
        ensures gives { IfOk result (λ _.
            M.answers memory.new
            ≡ M.answers memory.old ++ stores (place self.now (ticket + 1)) (ticket + 1) ∷ []) }
        ensures fails { IfErr result (λ error.
            FailsToGiveOn (AtSome M.can_fail) self.now ticket error
            (M.answers memory.old) (M.answers memory.new)) }
    {
        let Some(after) = ticket.checked_add(1) else {
            return Err(SyncError::Spent { place: self.next });
        };
        Ok(store(memory, self.place(after), after)?)
    }
}
