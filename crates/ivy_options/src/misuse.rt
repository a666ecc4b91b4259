//! Why words are no command line.

use crate::nearest::Nearest;
use crate::shown::Shown;
use crate::table::{Command, CommandTable};
use std::alloc::{AllocError, AllocFailed};
use std::fmt;

/// Why a command line is at fault. Where a word is nearly a name that would do, that name stands with it.
#[derive(Clone, Copy)]
pub enum Misuse<'a> {
    /// There is no command. The program of this name has some.
    NoCommand(&'static str),
    /// A word is not UTF-8.
    NotUtf8,
    /// No command is called so.
    UnknownCommand {
        word: &'a str,
        near: Option<&'static str>,
    },
    /// The command has no such option.
    UnknownOption {
        command: &'static str,
        word: &'a str,
        near: Option<&'static str>,
    },
    /// The word is no manager.
    UnknownManager {
        word: &'a str,
        near: Option<&'static str>,
    },
    /// A command lacks an operand, or an option its value.
    Lacks {
        name: &'static str,
        what: &'static str,
    },
    /// A command takes no further file.
    FurtherFile {
        command: &'static str,
        word: &'a str,
    },
    /// An option takes no value.
    NeedlessValue(&'static str),
    /// An option is given twice.
    GivenTwice(&'static str),
    /// What stands behind an option is no number.
    NoNumber {
        name: &'static str,
        word: &'a str,
    },
    /// The number of an option is no power of two.
    NoPower(&'static str),
    /// The number of an option is below its least.
    TooLow {
        name: &'static str,
        least: u64,
    },
    /// The number of an option is above its most.
    TooHigh {
        name: &'static str,
        most: u64,
    },
}

impl<'a> Misuse<'a> {
    /// No command of the program is called so, perhaps another one is meant.
    pub fn unknown_command(program: &CommandTable, word: &'a str) -> Misuse<'a> {
        let mut nearest = Nearest::new(word);
        for command in program.commands {
            nearest.offer(command.name);
        }
        Misuse::UnknownCommand {
            word,
            near: nearest.name(),
        }
    }

    /// The command has no such option, perhaps another one is meant.
    pub fn unknown_option(command: &Command, word: &'a str) -> Misuse<'a> {
        let mut nearest = Nearest::new(word);
        for option in command.options {
            nearest.offer(option.name);
        }
        Misuse::UnknownOption {
            command: command.name,
            word,
            near: nearest.name(),
        }
    }

    /// The word is no manager, perhaps another one is meant.
    pub(crate) fn unknown_manager(word: &'a str) -> Misuse<'a> {
        let mut nearest = Nearest::new(word);
        nearest.offer("fixed");
        nearest.offer("dynamic");
        nearest.offer("steady");
        Misuse::UnknownManager {
            word,
            near: nearest.name(),
        }
    }

    /// The name that is perhaps meant.
    fn near(&self) -> Option<&'static str> {
        match *self {
            Misuse::UnknownCommand { near, .. }
            | Misuse::UnknownOption { near, .. }
            | Misuse::UnknownManager { near, .. } => near,
            _ => None,
        }
    }

    /// What is at fault, without the name that is perhaps meant.
    fn write_fault<W: fmt::Write>(&self, f: &mut fmt::Formatter<W>) -> fmt::Result {
        match *self {
            Misuse::NoCommand(program) => write!(f, "no command; `{program} --help` names them"),
            Misuse::NotUtf8 => f.write_str("a word is not UTF-8"),
            Misuse::UnknownCommand { word, .. } => write!(f, "`{}` is no command", Shown(word)),
            Misuse::UnknownOption { command, word, .. } => {
                write!(f, "`{command}` has no option `{}`", Shown(word))
            }
            Misuse::UnknownManager { word, .. } => {
                write!(
                    f,
                    "a manager is `fixed`, `dynamic` or `steady`, and not `{}`",
                    Shown(word)
                )
            }
            Misuse::Lacks { name, what } => write!(f, "`{name}` lacks its {what}"),
            Misuse::FurtherFile { command, word } => {
                write!(f, "`{command}` takes no further file `{}`", Shown(word))
            }
            Misuse::NeedlessValue(name) => write!(f, "`{name}` takes no value"),
            Misuse::GivenTwice(name) => write!(f, "`{name}` is given twice"),
            Misuse::NoNumber { name, word } => {
                write!(f, "`{name}` takes a number, and not `{}`", Shown(word))
            }
            Misuse::NoPower(name) => write!(f, "`{name}` is a power of two"),
            Misuse::TooLow { name, least } => write!(f, "`{name}` is {least} at least"),
            Misuse::TooHigh { name, most } => write!(f, "`{name}` is {most} at most"),
        }
    }
}

impl fmt::Display for Misuse<'_> {
    fn fmt<W: fmt::Write>(&self, f: &mut fmt::Formatter<W>) -> fmt::Result {
        f.write_str("bad command line: ")?;
        self.write_fault(f)?;
        match self.near() {
            Some(name) => write!(f, ", perhaps `{name}`"),
            None => Ok(()),
        }
    }
}

/// Why the words behind a command give no files and options.
#[derive(Clone, Copy)]
pub enum NoOptions<'a> {
    /// They are at fault.
    Misused(Misuse<'a>),
    /// A growth was refused.
    Memory,
}

impl<'a> From<Misuse<'a>> for NoOptions<'a> {
    fn from(misuse: Misuse<'a>) -> Self {
        NoOptions::Misused(misuse)
    }
}

impl From<AllocError> for NoOptions<'_> {
    fn from(_error: AllocError) -> Self {
        NoOptions::Memory
    }
}

impl<T: Drop> From<AllocFailed<T>> for NoOptions<'_> {
    fn from(_error: AllocFailed<T>) -> Self {
        NoOptions::Memory
    }
}
