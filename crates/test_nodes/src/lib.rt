//! Tests of one node and the frames that reach it, of worlds of several nodes, and of nodes that lend their pages.
//!
//! That every run is coherent is proved, so these tests hold no property of all runs. They hold what no contract says:
//! the bytes of the worked examples, and that a call can succeed, and go on after a refusal.
#![tactic(auto)]

#[cfg(test)]
mod common;
#[cfg(test)]
mod lent;
#[cfg(test)]
mod sites;
#[cfg(test)]
mod worlds;
