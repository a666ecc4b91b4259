//! A run as plain data, with its counts and charts; nothing proved of runs rests on it.
//!
//! It is told as numbers and as a picture.
//!
//! Nothing that is proved of runs rests on it.
#![tactic(auto)]

mod access;
mod chart;
mod counts;
mod crossings;
mod head;
mod labels;
mod log;
mod marks;
mod moments;
mod part;
mod receivers;
mod sharing;
mod tables;
mod tally;

pub use chart::{Chart, Picture};
pub use counts::{RunCounts, count_run};
pub use head::{About, RunHead};
pub use ivy_link::Verdict;
pub use log::{Happening, RunLog};
pub use moments::{Moment, moments_of};
pub use part::Part;
pub use receivers::Receivers;
pub use sharing::{Writes, print_sharing};
pub use tables::{print_both, print_counts};
pub use tally::{MEASURES, Tally};
