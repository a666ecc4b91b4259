//! Logs of separate processes, made again together: whether they are the parts of one run.
//!
//! Each node's events are made again at a site, each delivery once its string was sent by some node. So what every run
//! promises holds of what happened, over whatever wire the nodes had.
//!
//! In a comment, numbers in brackets as [1, 2] are the fault numbers that a call may answer.
#![tactic(auto)]

mod failure;
mod join_logs;
mod replay_log;
mod restart;
mod strings;

pub use failure::Unjoined;
pub use join_logs::{
    Joined, check_heads, join, join_opened, join_own, join_own_opened, opening_by,
};
pub use replay_log::make;
pub use restart::{NotPlayed, replay};
