//! Eventcounts (Reed and Kanodia 1979) as words of page 0.
//!
//! Count `k` is the number in the 8 bytes at `8k` of page 0, with its highest byte first. There are as many as page 0
//! has room for. No call takes memory. Numbers in brackets, as `[6]`, are those of the faults that a call may answer.
#![tactic(auto)]

mod count;

pub use count::{advance, await_at_least, read};
