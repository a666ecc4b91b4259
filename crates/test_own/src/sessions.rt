//! Tests of sessions of own code, under threads. What a report says is proved, so these tests hold that sessions end well, and
//! why they end where they do not.

mod ahead;
mod blocks;
mod common;
mod library;
mod programs;
mod refusals;
mod resting;
mod rows;
mod standing;
mod wide;
