//! The coherence protocol at one node: page faults, messages at an entry, deferred requests.
//!
//! `serving` has the messages at an entry where no word waits, `handle` those at any entry, `leaving` what they would take,
//! `need` the accesses, `rest` the words that wait along with one, and `fetching` the pages that are asked for beside it. What an event posts is posted together or not at
//! all. A bracket such as `[1, 17]` in a doc comment has the numbers of the faults that the call may answer: 1 is a growth
//! that was refused, 17 that no message numbers are left. A call without one answers no fault.
#![tactic(auto)]

mod coherence;
mod fetching;
mod handle;
mod leaving;
mod need;
mod rest;
mod serving;

pub use coherence::Coherence;
pub use leaving::Leaving;
pub use need::Need;
