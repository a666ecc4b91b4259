//! What stands behind the lock of a node, as whoever makes its turns on the wire has it.
ghost use Rattle.std.specs.Prelude.{IfErr};
ghost use Rattle.ivy_workers.specs.Stops.{IsStop};

use crate::pulses::Pulses;
use crate::traffic::Traffic;
use ivy_model::Fault;
use std::sync::Wait;

/// A node's place in a session, as whoever makes its turns on the wire has it, who knows no more of it.
pub trait Seat {
    /// How many records the node's history has.
    fn records(&self) -> u64;

    /// Whom the first frame is for that waits to be put, if one waits; 255 where that cannot be told.
    fn waiting(&self) -> Option<u8>;

    /// One turn on the wire, and the pulses that are due [1, 17].
    fn wire_turn<R: Wait>(&mut self, rt: &R, pulses: &mut Pulses) -> Result<Traffic, Fault>
        ensures { IfErr result IsStop };
}
