//! What nodes came to in sessions that may stand still.
//!
//! A session that stands still is noticed by notes ([`Notes`]), which nothing is proved of. Then its nodes are closed
//! ([`close_one`]), and their report looks whether they stand still ([`ReportSoFar::at_standstill`]), which is proved.
//!
//! In a comment, numbers in brackets as [1, 17] are the fault numbers that a call may answer.
#![tactic(auto)]

mod close;
mod delivered;
mod end;
mod notes;
mod resting;
mod so_far;

pub use close::close_one;
pub use end::End;
pub use notes::Notes;
pub use so_far::ReportSoFar;
