//! Nodes that a program drives through the C functions are the nodes of one run.
//!
//! All else here is definitions and lemmas.
#![tactic(auto)]

mod law;

pub use law::{blocks_are_pages, driven_nodes_are_of_one_run, nodes_that_lend_are_flat};
