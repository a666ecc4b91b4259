//! One node in a process, which logs what it does before it speaks; and a router that loses frames.
//!
//! And the router, which joins nodes in processes and mistreats their frames.
//!
//! In a comment, numbers in brackets as [1, 17] are the fault numbers that a call may answer.
#![tactic(auto)]

mod failure;
mod limits;
mod lines;
mod log_file;
mod mail;
mod node;
mod own_memory;
mod past;
mod peers;
mod router;
mod service;
mod sites;
mod story;
mod streams;
mod threads;
mod watch;

pub use failure::NodeFailure;
pub use limits::{NodeLimits, Untaken};
pub use log_file::{LogFile, NoLog, open_log};
pub use mail::{Inbox, Mail, Mailed};
pub use node::Node;
pub use own_memory::{Worked, serve_work};
pub use router::{Harm, Router, route};
pub use service::{Clockwork, Ending, serve, serve_watched};
pub use streams::Streams;
pub use threads::inbox_of;
pub use watch::CallWatch;
