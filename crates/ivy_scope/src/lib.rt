//! The commands of `ivyscope` that need a run, and sessions watched until they stand still.
//!
//! In a comment, numbers in brackets as [1, 17] are the fault numbers that a call may answer.
#![tactic(auto)]

mod command;
mod goals;
mod logs;
mod played;
mod refused;
mod searches;
mod sessions;
mod settled;
mod traces;
mod views;
mod watched;

pub use command::run_command;
pub use ivy_explain::ScopeFailure;
pub use ivy_standstill::{End, ReportSoFar};
pub use logs::Logs;
pub use watched::{Watch, WatchTerms, run_watched};
