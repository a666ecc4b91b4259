//! Commands without threads: runs by listed or drawn moves, traces, the verdict on an order.
//!
//! In a comment, numbers in brackets as [1, 17] are the fault numbers that a call may answer.
#![tactic(auto)]

mod halt;
mod judging;
mod moves;
mod play;
mod print;
mod simulation;
mod trace;

pub use halt::Halt;
pub use judging::check;
pub use play::{sim, step, step_opened};
pub use print::{Outputs, print_outputs};
