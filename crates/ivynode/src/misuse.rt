//! Why the words of a command line ask for nothing.

use ivy_options::Shown;
use std::alloc::{AllocError, AllocFailed, Global};
use std::fmt;

/// Why the words of a command line ask for nothing. Its text names the word or the option at fault.
#[derive(Drop)]
pub enum Misuse {
    /// They are no command, for this reason.
    Words(&'static str),
    /// There is no such command or option: which of these, and the word.
    NoSuch(&'static str, String),
    /// An option of this name is not used as it may be.
    Option(&'static str, &'static str),
    /// What stands behind an option of this name is no number between these.
    Number {
        name: &'static str,
        least: u64,
        most: u64,
    },
    /// Memory ran out.
    Memory,
}

impl Misuse {
    /// There is no such command or option.
    pub(crate) fn no_such(alloc: Global, what: &'static str, word: &str) -> Misuse {
        match String::from_str(alloc, word) {
            Ok(word) => Misuse::NoSuch(what, word),
            Err(_) => Misuse::Memory,
        }
    }
}

impl fmt::Display for Misuse {
    fn fmt<W: fmt::Write>(&self, f: &mut fmt::Formatter<W>) -> fmt::Result {
        match self {
            Misuse::Words(why) => f.write_str(why),
            Misuse::NoSuch(what, word) => write!(f, "`{}` is no {what}", Shown(word.as_str())),
            Misuse::Option(name, why) => write!(f, "`{name}` {why}"),
            Misuse::Number { name, least, most } => {
                write!(f, "`{name}` is a number from {least} to {most}")
            }
            Misuse::Memory => f.write_str("memory ran out"),
        }
    }
}

impl From<AllocError> for Misuse {
    fn from(_error: AllocError) -> Self {
        Misuse::Memory
    }
}

impl<T: Drop> From<AllocFailed<T>> for Misuse {
    fn from(_error: AllocFailed<T>) -> Self {
        Misuse::Memory
    }
}
