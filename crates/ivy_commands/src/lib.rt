//! The commands of `ivy`, what they print and their exit statuses, over any files and streams.
//!
//! `run` runs the programs of a file in threads and prints what they print. `step` runs them by a schedule and prints a
//! trace of its moves. `sim` makes moves that are drawn. `check` says whether one flat memory answers as an order says.
//!
//! In a comment, numbers in brackets as [1, 17] are the fault numbers that a call may answer.
#![tactic(auto)]

mod command;
mod failure;
mod print;

pub use command::perform;
pub use failure::Failure;
pub use ivy_texts::{FilesOf, Texts};
