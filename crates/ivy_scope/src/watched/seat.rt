//! The seat of a node in a watched session.

use crate::watched::watch::Watch;
use ivy_ether::Setup;
use ivy_model::{Fault, Record};
use ivy_seating::{Home, Homed, ProgramSeat, Turn};
use ivy_standstill::Notes;
use ivy_workers::{Pulses, Seat, Traffic};
use std::alloc::Allocator;
use std::sync::Wait;

/// A seated site whose turns are watched. Each reference has a lifetime of its own.
#[derive(Drop)]
pub(crate) struct Watched<'e, 'n, 'r, 'w, S: Setup, H: Home, A: Allocator, R, W> {
    pub(crate) homed: Homed<'e, S, H, A>,
    node: u8,
    /// Whether the node is noted as one whose turn did nothing.
    is_noted: bool,
    notes: &'n Notes<'r, R, A>,
    watch: &'w W,
}

impl<'e, 'n, 'r, 'w, S: Setup, H: Home, A: Allocator, R, W> Watched<'e, 'n, 'r, 'w, S, H, A, R, W> {
    /// The seated site.
    pub(crate) fn into_homed(self) -> Homed<'e, S, H, A> {
        let Watched {
            homed,
            node: _,
            is_noted: _,
            notes: _,
            watch: _,
        } = self;
        homed
    }
}

impl<'e, 'n, 'r, 'w, S, H, A, R, W> Watched<'e, 'n, 'r, 'w, S, H, A, R, W>
where
    S: Setup,
    H: Home,
    A: Allocator + Copy,
    R: Wait,
{
    /// The seat of this node, of which nothing is noted yet.
    pub(crate) fn new(
        homed: Homed<'e, S, H, A>,
        node: u8,
        notes: &'n Notes<'r, R, A>,
        watch: &'w W,
    ) -> Self {
        Watched {
            homed,
            node,
            is_noted: false,
            notes,
            watch,
        }
    }

    /// Takes what is left in the ether, so many items at most.
    pub(crate) fn drain(&mut self, rt: &R, most: u64) {
        let homed = &mut self.homed;
        homed.seated.drain(rt, most);
    }

    /// The reply that was recorded last, where there are not so many records as before.
    fn recorded_since(&self, before: u64) -> Option<Record> {
        if self.homed.records() == before {
            return None;
        }
        self.homed.seated.site().last_record()
    }

    /// The turn did nothing. It says whether the session goes on.
    fn note(&mut self) -> bool {
        self.is_noted = true;
        self.notes.note(self.node, self.homed.seated.site())
    }

    /// The turns of the program may do something again.
    fn strike_out(&mut self) {
        if self.is_noted {
            self.is_noted = false;
            self.notes.strike_out(self.node);
        }
    }

    /// Whether the session goes on after this turn of the program.
    fn goes_on(&mut self, turn: Turn) -> bool {
        match turn {
            Turn::Moved => {
                self.strike_out();
                true
            }
            Turn::Idle | Turn::Ended => self.is_noted || self.note(),
        }
    }

    /// Whether the session goes on after a message was delivered.
    fn goes_on_after_message(&mut self) -> bool {
        if self.homed.has_ended() {
            self.note()
        } else {
            self.strike_out();
            true
        }
    }
}

impl<'e, 'n, 'r, 'w, S, H, A, R, W> Seat for Watched<'e, 'n, 'r, 'w, S, H, A, R, W>
where
    S: Setup,
    H: Home,
    A: Allocator + Copy,
    R: Wait,
    W: Watch,
{
    fn records(&self) -> u64 {
        self.homed.records()
    }

    fn waiting(&self) -> Option<u8> {
        self.homed.waiting()
    }

    fn wire_turn<X: Wait>(&mut self, rt: &X, pulses: &mut Pulses) -> Result<Traffic, Fault> {
        let traffic = self.homed.wire_turn(rt, pulses)?;
        let was_served = traffic == Traffic::Taken { served: true };
        if was_served && self.is_noted && !self.goes_on_after_message() {
            return Err(Fault::TurnLimit);
        }
        Ok(traffic)
    }
}

impl<'e, 'n, 'r, 'w, S, H, A, R, W> ProgramSeat for Watched<'e, 'n, 'r, 'w, S, H, A, R, W>
where
    S: Setup,
    H: Home,
    A: Allocator + Copy,
    R: Wait,
    W: Watch,
{
    fn has_ended(&self) -> bool {
        self.homed.has_ended()
    }

    fn program_turn(&mut self) -> Result<Turn, Fault> {
        let before = self.homed.records();
        let turn = self.homed.program_turn()?;
        if let Some(record) = self.recorded_since(before) {
            if !self.watch.record(self.node, &record) {
                self.notes.stop();
                return Err(Fault::TurnLimit);
            }
        }
        if self.goes_on(turn) {
            Ok(turn)
        } else {
            Err(Fault::TurnLimit)
        }
    }
}
