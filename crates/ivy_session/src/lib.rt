//! Sessions of program texts: two threads a node, from the first seat to the report.
//!
//! Each node's site stands behind its own lock, and nothing is shared between nodes but the ether. Whatever the threads
//! do, the event lists of the sites are, at every moment, the parts of one run of the world.
//!
//! In a comment, numbers in brackets as [1, 17] are the fault numbers that a call may answer.
#![tactic(auto)]

mod printing;
mod report;
mod session;
mod workers;

pub use ivy_ether::Opening;
pub use ivy_seating::{Keep, Report, Seated, WireTurn};
pub use ivy_workers::{Gate, Limits, OpenGate, Role};
pub use printing::Printing;
pub use session::{Session, are_written, lay};

// what watched sessions have in common with these
pub use workers::run_workers;
