//! Why words are no request.

use clap::Error;
use clap::error::ErrorKind;
use std::alloc::AllocError;

/// Why the words of a command line are no request.
#[derive(Clone, Copy, Debug, PartialEq, Eq)]
pub enum CommandLineError {
    /// A growth was refused.
    Memory,
    /// The words are no command.
    BadCommandLine,
}

impl From<AllocError> for CommandLineError {
    fn from(_error: AllocError) -> Self {
        CommandLineError::Memory
    }
}

/// Words that give no matches are no command, a request for help among them.
impl From<Error> for CommandLineError {
    fn from(error: Error) -> Self {
        match error.kind() {
            ErrorKind::OutOfMemory => CommandLineError::Memory,
            _ => CommandLineError::BadCommandLine,
        }
    }
}
