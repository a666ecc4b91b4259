//! The dynamic manager: each node keeps a hint of each page's owner, and requests follow hints.
//!
//! A number in brackets, as [1], at the end of what a call does is that of the fault that the call may answer
//! (`ivy_model`'s `Fault`). A call without brackets answers none.
#![tactic(auto)]

mod dynamic;

pub use dynamic::DynamicManager;
