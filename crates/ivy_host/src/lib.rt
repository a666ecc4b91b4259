//! The definition of a whole node but for its link, and the laws of the manager that its configuration names.
//!
//! Of code there is only the kind of its opening: `ivy_site` runs what is defined here.
#![tactic(auto)]

mod opening;

pub use opening::Opening;
