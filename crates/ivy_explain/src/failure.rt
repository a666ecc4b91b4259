//! Why a command was not carried out.
ghost use Rattle.std.specs.Prelude.{◌≡◌, ◌≤◌};
ghost use Rattle.ivy_explain.specs.Statuses.{failure_status};

use ivy_model::Fault;
use ivy_options::{Misuse, NoOptions, Shown};
use std::alloc::{AllocError, AllocFailed};
use std::fmt;
use std::io::{self, Write};

/// The exit status where what was asked for failed, but nothing is at fault.
pub const FAILED: u8 = 1;

/// The exit status where the command line, a file or the configuration is at fault.
pub const MISUSED: u8 = 2;

/// The exit status of an order that is not legal.
pub(crate) const NOT_LEGAL: u8 = 3;

/// The exit status of a standstill at which a program has not ended.
pub const STANDSTILL: u8 = 5;

/// The exit status of a search that was not whole.
pub const UNFINISHED: u8 = 6;

/// Why a command was not carried out. Its text is what standard error is told.
#[derive(Clone, Copy)]
pub enum ScopeFailure<'a> {
    /// The command line is at fault.
    Misused(Misuse<'a>),
    /// What is looked for is not written as `node I prints X`.
    NoGoal(&'a str),
    /// The file of this name can't be read as UTF-8.
    Unreadable(&'a str),
    /// The text of the file of this name is at fault.
    AtFault(&'a str),
    /// The folder of this name takes no log.
    NoFolder(&'a str),
    /// A call was refused.
    Refused(Fault),
    /// The order of a run did not pass its test.
    NoOrder,
    /// Standard output took no more.
    Unwritten,
}

impl ScopeFailure<'_> {
    /// The exit status: 2 where the command line, a file or the configuration is at fault, else 1.
    pub fn status(&self) -> u8
        ensures status { result ≡ failure_status self.now }
        ensures within { result ≤ 2 }
    {
        match self {
            ScopeFailure::Misused(_)
            | ScopeFailure::NoGoal(_)
            | ScopeFailure::Unreadable(_)
            | ScopeFailure::AtFault(_)
            | ScopeFailure::NoFolder(_) => MISUSED,
            ScopeFailure::Refused(Fault::BadConfig | Fault::ProgramFault(_)) => MISUSED,
            ScopeFailure::Refused(_) | ScopeFailure::NoOrder | ScopeFailure::Unwritten => FAILED,
        }
    }

    /// Tells standard error of the failure, and gives the exit status.
    pub fn report<E: Write>(&self, err: &mut E) -> u8
        ensures status { result ≡ failure_status self.now }
        ensures within { result ≤ 2 }
    {
        // The status tells of the failure also where standard error takes nothing.
        let _ = writeln!(err, "ivyscope: {self}");
        self.status()
    }
}

impl fmt::Display for ScopeFailure<'_> {
    fn fmt<W: fmt::Write>(&self, f: &mut fmt::Formatter<W>) -> fmt::Result {
        match self {
            ScopeFailure::Misused(misuse) => misuse.fmt(f),
            ScopeFailure::NoGoal(text) => write!(f, "`{}` is not `node I prints X`", Shown(text)),
            ScopeFailure::Unreadable(file) => write!(f, "cannot read {}", Shown(file)),
            ScopeFailure::AtFault(file) => write!(f, "{} is at fault", Shown(file)),
            ScopeFailure::NoFolder(folder) => write!(f, "cannot write into {}", Shown(folder)),
            ScopeFailure::Refused(fault) => fault.fmt(f),
            ScopeFailure::NoOrder => f.write_str("no order passed the test"),
            ScopeFailure::Unwritten => f.write_str("standard output took no more"),
        }
    }
}

impl<'a> From<Misuse<'a>> for ScopeFailure<'a> {
    fn from(misuse: Misuse<'a>) -> Self {
        ScopeFailure::Misused(misuse)
    }
}

impl<'a> From<NoOptions<'a>> for ScopeFailure<'a> {
    fn from(why: NoOptions<'a>) -> Self {
        match why {
            NoOptions::Misused(misuse) => ScopeFailure::Misused(misuse),
            NoOptions::Memory => ScopeFailure::Refused(Fault::Memory),
        }
    }
}

impl From<Fault> for ScopeFailure<'_> {
    fn from(fault: Fault) -> Self {
        ScopeFailure::Refused(fault)
    }
}

impl From<AllocError> for ScopeFailure<'_> {
    fn from(_error: AllocError) -> Self {
        ScopeFailure::Refused(Fault::Memory)
    }
}

impl<T: Drop> From<AllocFailed<T>> for ScopeFailure<'_> {
    fn from(_error: AllocFailed<T>) -> Self {
        ScopeFailure::Refused(Fault::Memory)
    }
}

/// Of all streams, only standard output is written with its errors looked at.
impl From<io::Error> for ScopeFailure<'_> {
    fn from(_error: io::Error) -> Self {
        ScopeFailure::Unwritten
    }
}
