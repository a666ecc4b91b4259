//! The network of a session: one bounded queue, and the passes by which nodes put and take.
//!
//! What stands in the queue, and what each pass knows, keep one rule at every moment (`specs/Rule.antt`): the event
//! lists of all passes are the parts of one run of the session's programs.
//!
//! In a comment, numbers in brackets as [1, 17] are the fault numbers that a call may answer.
#![tactic(auto)]

mod ether;
mod item;
mod law;
mod pass;
mod steps;

pub use ether::{Ether, Put};
pub use item::{Item, View, Wired};
pub use ivy_host::Opening;
pub use ivy_moves::{Event, Events, Move};
pub use law::{Law, Setup, lists_go_on};
pub use pass::Pass;
