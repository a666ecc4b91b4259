//! Why a command was not carried out.
ghost use Rattle.std.specs.Prelude.{◌≡◌, ◌≤◌, ◌↔◌};
ghost use Rattle.ivy_join.specs.Joined.{SaysNoParts};
ghost use Rattle.ivynode.specs.Joined.{IsNoRun};
ghost use Rattle.ivynode.specs.declared.failure.Failure.TheVariants as failure;

use crate::misuse::Misuse;
use ivy_join::Unjoined;
use ivy_model::Fault;
use ivy_options::Shown;
use ivy_process::NoLog;
use std::alloc::{AllocError, AllocFailed};
use std::fmt;
use std::io::{self, ErrorKind, Write};

/// Why a command was not carried out. Its text is what standard error is told.
#[derive(Drop)]
pub enum Failure {
    /// The words of the command line are no command.
    BadCommandLine(Misuse),
    /// A configuration is out of its limits: this one.
    BadConfig(Limit),
    /// The file of this name can't be read as UTF-8.
    CannotRead(String),
    /// The log of this name can't be had.
    NoLog(String, NoLog),
    /// The log of this name is another one than the node's.
    OtherLog(String, OtherLog),
    /// A file is at fault.
    AtFault(String, Fault),
    /// A call was refused.
    Refused(Fault),
    /// A node stopped before its input ended.
    Stopped(ivy_process::NodeFailure),
    /// The logs are not the parts of one run.
    Unjoined(Unjoined),
    /// Standard output took no more.
    Unwritten,
}

/// A limit of a configuration.
#[derive(Clone, Copy)]
pub enum Limit {
    Nodes,
    Pages,
    PageSize,
}

/// Why a log is not the one of a node.
#[derive(Clone, Copy)]
pub enum OtherLog {
    /// It is of the node of this number.
    Node(u8),
    /// It names another configuration.
    Config,
    /// It names the sum of another run.
    Run,
}

impl fmt::Display for Limit {
    fn fmt<W: fmt::Write>(&self, f: &mut fmt::Formatter<W>) -> fmt::Result {
        f.write_str(match self {
            Limit::Nodes => "a run has 2 to 32 programs",
            Limit::Pages => "`--pages` is a number from 2 to 256",
            Limit::PageSize => "`--page-size` is 64, 128, 256, 512, 1024, 2048 or 4096",
        })
    }
}

impl fmt::Display for OtherLog {
    fn fmt<W: fmt::Write>(&self, f: &mut fmt::Formatter<W>) -> fmt::Result {
        match self {
            OtherLog::Node(node) => write!(f, "it is the log of node {node}"),
            OtherLog::Config => f.write_str("it is of another configuration"),
            OtherLog::Run => f.write_str("it is of other programs"),
        }
    }
}

impl Failure {
    /// The exit status: 2 where the command line, a file or the configuration is at fault, 3 where logs are not the parts
    /// of one run, else 1.
    pub fn status(&self) -> u8
        ensures some { 1 ≤ result }
        ensures three { (result ≡ 3) ↔ IsNoRun self.now }
    {
        match self {
            Failure::BadCommandLine(_) | Failure::BadConfig(_) => 2,
            Failure::CannotRead(_) | Failure::AtFault(_, _) | Failure::OtherLog(_, _) => 2,
            Failure::NoLog(_, NoLog::Memory) => 1,
            Failure::NoLog(_, _) => 2,
            Failure::Refused(Fault::BadConfig | Fault::ProgramFault(_)) => 2,
            Failure::Stopped(ivy_process::NodeFailure::NotItsLog(_)) => 2,
            Failure::Unjoined(why) => status_of(*why),
            Failure::Refused(_) | Failure::Stopped(_) | Failure::Unwritten => 1,
        }
    }

    /// Tells standard error of the failure, and gives the exit status.
    pub fn report<E: Write>(&self, err: &mut E) -> u8
        ensures some { 1 ≤ result }
        ensures three { (result ≡ 3) ↔ IsNoRun self.now }
    {
        // The status tells of the failure also where standard error takes nothing.
        let _ = writeln!(err, "ivynode: {self}");
        self.status()
    }
}

fn status_of(why: Unjoined) -> u8
    ensures some { 1 ≤ result }
    ensures three { (result ≡ 3) ↔ SaysNoParts why }
{
    match why {
        Unjoined::Refused(Fault::BadConfig) => 2,
        Unjoined::Refused(_) => 1,
        Unjoined::Missing(_) | Unjoined::Twice(_) | Unjoined::Differs(_) => 2,
        Unjoined::OtherRun(_) => 2,
        Unjoined::NotSent { .. } | Unjoined::NoSuchEvent { .. } => 3,
        Unjoined::OtherAnswers(_) => 3,
    }
}

impl fmt::Display for Failure {
    fn fmt<W: fmt::Write>(&self, f: &mut fmt::Formatter<W>) -> fmt::Result {
        match self {
            Failure::BadCommandLine(why) => write!(f, "bad command line: {why} (see --help)"),
            Failure::BadConfig(limit) => write!(f, "{}: {limit}", Fault::BadConfig),
            Failure::CannotRead(name) => write!(f, "cannot read {}", Shown(name.as_str())),
            Failure::NoLog(name, why) => write!(f, "{}: {why}", Shown(name.as_str())),
            Failure::OtherLog(name, why) => write!(f, "{}: {why}", Shown(name.as_str())),
            Failure::AtFault(name, fault) => write!(f, "{}: {fault}", Shown(name.as_str())),
            Failure::Refused(fault) => write!(f, "{fault}"),
            Failure::Stopped(why) => write!(f, "{why}"),
            Failure::Unjoined(why) => write!(f, "{why}"),
            Failure::Unwritten => write!(f, "standard output took no more"),
        }
    }
}

impl From<Misuse> for Failure {
    // It says nothing of logs.
    ghost from_gives = { λ _ f. IsNoRun f → ⊥ };

    fn from(why: Misuse) -> Self {
        match why {
            Misuse::Memory => Failure::Refused(Fault::Memory),
            _ => Failure::BadCommandLine(why),
        }
    }
}

impl From<Fault> for Failure {
    fn from(fault: Fault) -> Self {
        Failure::Refused(fault)
    }
}

impl From<AllocError> for Failure {
    // It says nothing of logs.
    ghost from_gives = { λ _ f. IsNoRun f → ⊥ };

    fn from(_error: AllocError) -> Self {
        Failure::Refused(Fault::Memory)
    }
}

impl<T: Drop> From<AllocFailed<T>> for Failure {
    // It says nothing of logs.
    ghost from_gives = { λ _ f. IsNoRun f → ⊥ };

    fn from(_error: AllocFailed<T>) -> Self {
        Failure::Refused(Fault::Memory)
    }
}

impl From<ivy_process::NodeFailure> for Failure {
    fn from(why: ivy_process::NodeFailure) -> Self {
        match why {
            ivy_process::NodeFailure::Refused(fault) => Failure::Refused(fault),
            _ => Failure::Stopped(why),
        }
    }
}

impl From<Unjoined> for Failure {
    ghost from_gives = { λ why f. f ≡ failure.Unjoined why };

    fn from(why: Unjoined) -> Self {
        Failure::Unjoined(why)
    }
}

impl From<io::Error> for Failure {
    // It says nothing of logs.
    ghost from_gives = { λ _ f. IsNoRun f → ⊥ };

    fn from(error: io::Error) -> Self {
        match error.kind() {
            ErrorKind::OutOfMemory => Failure::Refused(Fault::Memory),
            _ => Failure::Unwritten,
        }
    }
}
