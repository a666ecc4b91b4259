//! What is wrong in a text, line by line, and the answers of `ivyscope` that need no run.
//!
//! What a command line of the program `ivyscope` asks for, and why it is not carried out. What needs no run is answered
//! here: help, the faults of texts, whether an order is legal.
#![tactic(auto)]

mod answers;
mod blame;
mod broken;
mod calls;
mod commands;
mod failure;
mod faults;
mod grammar;
mod labels;
mod lines;
mod memory;
mod orders;
mod places;
mod programs;
mod refusals;
mod request;
mod schedules;
mod states;
mod verdict;
mod words;

pub use answers::{Answered, answer};
pub use blame::{Blame, Wanted, print_blame};
pub use broken::{Broken, first_broken};
pub use calls::print_calls;
pub use failure::{FAILED, MISUSED, STANDSTILL, ScopeFailure, UNFINISHED};
pub use lines::{Lines, lines_of};
pub use orders::blames_of_order;
pub use places::{Place, Walk};
pub use programs::blames_of_programs;
pub use refusals::{Printed, Refusal};
pub use request::{ScopeRequest, Showing, Task, Wishes};
pub use schedules::blames_of_schedule;
pub use states::{Listing, NodeState, print_standing};
