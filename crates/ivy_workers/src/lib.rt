//! The two workers of each node: when they make turns, sleep, wake one another and retransmit.
//!
//! One makes the turns of the node's program, and those on the wire too while that waits, or where it held off who is to
//! make them. Else the other one makes these.
//!
//! What a turn does is known to a node's place alone ([`Seat`]). No contract above speaks of workers: what is promised
//! of a session holds whoever makes the turns, and in whatever order.
//!
//! In a comment, numbers in brackets as [1, 17] are the fault numbers that a call may answer.
#![tactic(auto)]

mod gate;
mod limits;
mod pulses;
mod seat;
mod shared;
mod traffic;
mod turns;
mod wire;

pub use gate::{Gate, OpenGate, Role, Turnstile};
pub use limits::Limits;
pub use pulses::Pulses;
pub use seat::Seat;
pub use shared::Shared;
pub use traffic::Traffic;
pub use turns::ProgramWorker;
pub use wire::Crew;
