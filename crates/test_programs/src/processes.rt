//! Tests of nodes in processes of their own: their lines, the joining of logs, how a node serves, and how own code at a
//! node is begun again. What takes several processes, or a session, is tried by the scripts of `stress/`.
//!
//! The strings are those of the frames that docs/PROTOCOL.md spells, written by hand.

mod calls;
mod common;
mod joins;
mod lines;
mod serves;
mod sums;
mod works;
