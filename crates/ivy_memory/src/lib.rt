//! The memory of one node as its program sees it: one call in progress, or a batch of calls.
//!
//! `memory` has the calls one by one, `row` those of a row that begin together, `taken` their replies, `rest` what is left
//! of a row, and `pages` what is asked about one page, and its fetch.
//!
//! In a comment, numbers in brackets as [1, 17] are the fault numbers that a call may answer.
#![tactic(auto)]

mod law;
mod memory;
mod pages;
mod rest;
mod row;
mod taken;

pub use ivy_alloc::{CallProgress, HeapCall, HeapRequest, HeapSide};
pub use ivy_coherence::Leaving;
pub use law::words_are_flat;
pub use memory::{Asked, Memory, asked_of};
