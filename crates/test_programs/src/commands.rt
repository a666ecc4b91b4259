//! Tests of `ivy_commands` and `ivy_texts`, which have none of their own, so that they are proved once.
//!
//! That a command which says that it is done did what it was asked for is proved, so these tests hold no
//! property of all commands. They hold what no contract says: what a command line means, the order of the
//! faults, the lines of a trace, and what standard error is told.

mod commands;
mod common;
mod crowd;
mod draws;
mod examples;
mod orders;
mod streams;
mod swaps;
