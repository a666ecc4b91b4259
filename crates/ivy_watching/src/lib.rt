//! Sessions of own code that end where they stand still.
//!
//! In a comment, numbers in brackets as [1, 17] are the fault numbers that a call may answer.
#![tactic(auto)]

mod close;
mod noted;
mod noting;
mod report;
mod session;
mod watch;

pub use ivy_standstill::ReportSoFar;
pub use report::{OwnStandstill, Watched};
pub use session::{run_watching, run_watching_opening};
