//! The place of a node, as its workers have it.
ghost use Rattle.std.specs.Prelude.{IfErr};
ghost use Rattle.ivy_workers.specs.Stops.{IsStop};

use crate::homed::{Home, Homed};
use crate::seated::turn_on_wire;
use ivy_ether::Setup;
use ivy_model::Fault;
use ivy_site::Turn;
use ivy_workers::{Pulses, Seat, Traffic};
use std::alloc::Allocator;
use std::sync::Wait;

/// A place whose program is written down, as its program worker has it.
pub trait ProgramSeat: Seat {
    /// Whether the node's program has ended.
    fn has_ended(&self) -> bool;

    /// One turn of the node's program [1, 17].
    fn program_turn(&mut self) -> Result<Turn, Fault>
        ensures { IfErr result IsStop };
}

impl<'e, S: Setup, H: Home, A: Allocator + Copy> Seat for Homed<'e, S, H, A> {
    fn records(&self) -> u64 {
        self.seated.records()
    }

    fn waiting(&self) -> Option<u8> {
        if self.seated.has_frame() {
            Some(self.seated.next_destination().unwrap_or(u8::MAX))
        } else {
            None
        }
    }

    fn wire_turn<R: Wait>(&mut self, rt: &R, pulses: &mut Pulses) -> Result<Traffic, Fault> {
        turn_on_wire(rt, &mut self.seated, pulses)
    }
}

impl<'e, S: Setup, H: Home, A: Allocator + Copy> ProgramSeat for Homed<'e, S, H, A> {
    fn has_ended(&self) -> bool {
        self.seated.has_ended()
    }

    fn program_turn(&mut self) -> Result<Turn, Fault> {
        self.seated.program_turn()
    }
}
