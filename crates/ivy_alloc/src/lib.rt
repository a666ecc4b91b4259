//! The blocks of the heap, and a node's side of allocation: node 0 serves, other nodes request.
//!
//! A heap keeps no bytes. It answers where a block of so many bytes lies, by the rule of the flat memory: at the least
//! address with room for it (`Serves` in the `specs/` of `ivy_model`). Numbers in brackets, as `[1, 8, 9]`, are those
//! of the faults that a call may answer.
//!
//! `specs/Heap` has what contracts see of a heap: its configuration and its live blocks. `specs/Told` has its answers
//! as functions of these, and `specs/Laws` what they have to do with the flat memory. `specs/Tied` says how the free
//! extents that the code keeps belong to the blocks.
//!
//! A node's side of the calls of the heap: what a call of its program and a message of the heap come to there, over any
//! post.
//!
//! In a comment, numbers in brackets as [1, 17] are the fault numbers that a call may answer: 1 is a growth that was
//! refused, 17 that no message numbers are left. A call without them answers no fault.
#![tactic(auto)]

mod answer;
mod extent;
mod heap;
mod heap_side;
mod law;

pub use answer::CallProgress;
pub use heap::Heap;
pub use heap_side::{HeapCall, HeapRequest, HeapSide};
pub use law::heap_is_flat;
