//! One node whole: its program, memory, link and events, with a call for each kind of event.
//!
//! In a comment, numbers in brackets as [1, 17] are the fault numbers that a call may answer.
#![tactic(auto)]

mod fetching;
mod host;
mod manager;
mod opened;
mod pages;
mod rows;
mod shown;
mod site;
mod turn;

pub use ivy_host::Opening;
pub use ivy_link::Verdict;
pub use ivy_memory::Leaving;
pub use ivy_moves::Keep;
pub use ivy_program::{Program, parse};
pub use manager::NodeManager;
pub use rows::words_together;
pub use site::Site;
pub use turn::Turn;
