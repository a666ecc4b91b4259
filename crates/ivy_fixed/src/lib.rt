//! The fixed manager: node p mod N keeps who owns page p.
//!
//! A number in brackets, as [1], at the end of what a call does is that of the fault that the call may answer
//! (`ivy_model`'s `Fault`). A call without brackets answers none.
#![tactic(auto)]

mod fixed;

pub use fixed::FixedManager;
