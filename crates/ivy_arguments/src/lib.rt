//! The command line of `ivy`; the only crate that stands on `clap`.
//!
//! It stands apart, since the statements of `clap` take long to load.
#![tactic(auto)]

mod error;
mod request;

pub use error::CommandLineError;
pub use request::IvyCommand;
