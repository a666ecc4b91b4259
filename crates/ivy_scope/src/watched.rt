//! Watched sessions: each reply is told as it is recorded, and a session that stands still ends at once.
//!
//! A watched session need not come to the end of its programs. Its report says what the nodes came to; their event lists
//! are the parts of one run all the same.

mod close;
mod seat;
mod session;
mod watch;

pub use session::run_watched;
pub use watch::{Watch, WatchTerms};
