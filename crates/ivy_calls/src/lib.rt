//! Shared memory as own code calls it: typed words, blocks, the trait of a work, a flat test memory.
//!
//! [`SharedMemory`] is what a program of one node is given: it makes a call and waits for its reply. The functions of
//! this crate make one call each, on words of the types of [`SharedWord`], and give an error that names the call and the
//! reason. [`read_into`], [`write_from`] and [`fill`] make one for each word of a block, many at once where the memory
//! has them at hand. [`Work`] is a program for all nodes, over any such memory. [`Alone`] is one flat memory with no
//! other node, in which a program can be tested.
//!
//! What a memory answered is a list of [`Answer`]s, which exists in contracts alone: each function says which record it
//! adds. Node `i`'s part of a session's order is this list, as records of node `i` (`specs/Answers.antt`).
#![tactic(auto)]

mod alone;
mod answer;
mod blocks;
mod calls;
mod error;
mod memory;
mod word;
mod work;

pub use alone::Alone;
pub use answer::Answer;
pub use blocks::{fill, read_into, write_from};
pub use calls::{
    advance_count, alloc, await_, cas, fetch_add, free, load, read_count, store, swap,
};
pub use error::CallError;
pub use memory::SharedMemory;
pub use word::SharedWord;
pub use work::Work;
