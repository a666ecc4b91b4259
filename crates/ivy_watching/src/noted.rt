//! The place of a node with own code, of which it is noted where nothing changes.
use ivy_calls::Answer;
use ivy_ether::Setup;
use ivy_model::{Call, Fault, Reply, Row};
use ivy_own::{Naming, OwnSeat, Owned, Side};
use ivy_seating::Home;
use ivy_standstill::Notes;
use ivy_workers::{Pulses, Seat, Traffic};
use std::alloc::Allocator;
use std::sync::Wait;

/// A place that is told where the work of its node has ended.
pub(crate) trait EndSeat {
    /// The work of the node has ended.
    fn end(&mut self);
}

/// The place of a node with own code, and whether it is noted that nothing changes there. Each reference has a lifetime of
/// its own.
#[derive(Drop)]
pub(crate) struct Noted<'e, 'n, 'r, S: Setup, H: Home, J: Naming, A: Allocator, R> {
    owned: Owned<'e, S, H, J, A>,
    node: u8,
    is_noted: bool,
    notes: &'n Notes<'r, R, A>,
}

impl<'e, 'n, 'r, S: Setup, H: Home, J: Naming, A: Allocator, R> Noted<'e, 'n, 'r, S, H, J, A, R> {
    /// The place of this node, of which nothing is noted yet.
    pub(crate) fn new(owned: Owned<'e, S, H, J, A>, node: u8, notes: &'n Notes<'r, R, A>) -> Self {
        Noted {
            owned,
            node,
            is_noted: false,
            notes,
        }
    }

    /// The place without its notes.
    pub(crate) fn into_owned(self) -> Owned<'e, S, H, J, A> {
        let Noted {
            owned,
            node: _,
            is_noted: _,
            notes: _,
        } = self;
        owned
    }
}

impl<'e, 'n, 'r, S, H, J, A, R> Noted<'e, 'n, 'r, S, H, J, A, R>
where
    S: Setup,
    H: Home,
    J: Naming,
    A: Allocator + Copy,
    R: Wait,
{
    /// Nothing changes here before a message is delivered. It says whether the session goes on.
    fn note(&mut self) -> bool {
        self.is_noted = true;
        self.notes.note(self.node, self.owned.site())
    }

    /// Something may change here.
    fn strike_out(&mut self) {
        if self.is_noted {
            self.is_noted = false;
            self.notes.strike_out(self.node);
        }
    }

    /// Whether the session goes on after a message was delivered. Who waits for a reply looks for it then.
    fn goes_on_after_message(&mut self) -> bool {
        if self.owned.site().asked().is_none() {
            self.note()
        } else {
            self.strike_out();
            true
        }
    }

    /// Whether it is noted that nothing changes here, nor anywhere else.
    fn stands_still(&self) -> bool {
        self.is_noted && self.notes.stands_still()
    }
}

impl<'e, 'n, 'r, S, H, J, A, R> EndSeat for Noted<'e, 'n, 'r, S, H, J, A, R>
where
    S: Setup,
    H: Home,
    J: Naming,
    A: Allocator + Copy,
    R: Wait,
{
    fn end(&mut self) {
        // Where the session stands still by this, those who wait find it noted, and stop the session.
        self.note();
    }
}

impl<'e, 'n, 'r, S, H, J, A, R> Seat for Noted<'e, 'n, 'r, S, H, J, A, R>
where
    S: Setup,
    H: Home,
    J: Naming,
    A: Allocator + Copy,
    R: Wait,
{
    fn records(&self) -> u64 {
        self.owned.records()
    }

    fn waiting(&self) -> Option<u8> {
        self.owned.waiting()
    }

    fn wire_turn<X: Wait>(&mut self, rt: &X, pulses: &mut Pulses) -> Result<Traffic, Fault> {
        let traffic = self.owned.wire_turn(rt, pulses)?;
        let was_served = traffic == Traffic::Taken { served: true };
        if was_served && self.is_noted && !self.goes_on_after_message() {
            return Err(Fault::TurnLimit);
        }
        Ok(traffic)
    }
}

impl<'e, 'n, 'r, S, H, J, A, R> OwnSeat<J, A> for Noted<'e, 'n, 'r, S, H, J, A, R>
where
    S: Setup,
    H: Home,
    J: Naming,
    A: Allocator + Copy,
    R: Wait,
{
    #[inline(always)]
    fn begin(&mut self, side: &mut Side<'_, J, A>, call: Call) -> Result<Option<Reply>, Fault> {
        self.owned.begin(side, call)
    }

    fn go_on(&mut self, side: &mut Side<'_, J, A>, call: Call) -> Result<Option<Reply>, Fault> {
        if self.stands_still() {
            return Err(Fault::TurnLimit);
        }
        let came = self.owned.go_on(side, call)?;
        if came.is_some() {
            self.strike_out();
        } else {
            self.note();
        }
        Ok(came)
    }

    #[inline(always)]
    fn load_row(&mut self, side: &mut Side<'_, J, A>, addr: u64, into: &mut [u8]) -> usize {
        self.owned.load_row(side, addr, into)
    }

    #[inline(always)]
    fn store_row(&mut self, side: &mut Side<'_, J, A>, addr: u64, from: &[u8]) -> usize {
        self.owned.store_row(side, addr, from)
    }

    fn call_row(&mut self, me: u8, kind: Row, addr: u64, bytes: &[u8]) -> bool {
        self.owned.call_row(me, kind, addr, bytes)
    }

    fn fetch_ahead(&mut self, me: u8, addr: u64, write: bool) {
        self.owned.fetch_ahead(me, addr, write);
    }

    fn take_loads(&mut self, side: &mut Side<'_, J, A>, addr: u64, into: &mut [u8]) -> usize {
        self.owned.take_loads(side, addr, into)
    }

    fn take_stores(&mut self, side: &mut Side<'_, J, A>, addr: u64, from: &[u8]) -> usize {
        self.owned.take_stores(side, addr, from)
    }
}
