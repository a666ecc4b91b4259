//! Nodes seated at the ether, their turns on the wire, and the report of all; no threads.
//!
//! A seated site is a site with its pass. At every moment its event list is one that the pass may give, so the event
//! lists of all of them are the parts of one run of the world, whoever makes their turns. Nothing here starts a thread.
//!
//! In a comment, numbers in brackets as [1, 17] are the fault numbers that a call may answer.
#![tactic(auto)]

mod homed;
mod plan;
mod report;
mod seat;
mod seated;
mod seating;
mod wire_turn;

pub use homed::{Home, Homed};
pub use plan::Plan;
pub use report::Report;
pub use seat::ProgramSeat;
pub use seated::{Seated, turn_on_wire};
pub use seating::{close_seat, close_seats, seat_all};
pub use wire_turn::WireTurn;

// the site itself, what it keeps of its own past, and what a turn of its program came to
pub use ivy_site::{Keep, Site, Turn};
