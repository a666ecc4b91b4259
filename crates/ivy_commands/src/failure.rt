//! Why a command was not carried out.
ghost use Rattle.std.specs.Prelude.{◌≡◌};
ghost use Rattle.ivy_commands.specs.Commands.{failure_status};

use ivy_arguments::CommandLineError;
use ivy_model::Fault;
use ivy_simulation::Halt;
use std::alloc::AllocError;
use std::fmt;
use std::io::{self, Write};

/// Why a command was not carried out. Its text is what standard error is told.
#[derive(Clone, Copy, Debug, PartialEq, Eq)]
pub enum Failure<'a> {
    /// The words of the command line are no command.
    BadCommandLine,
    /// The file of this name can't be read as UTF-8.
    CannotRead(&'a str),
    /// A call was refused.
    Refused(Fault),
    /// Standard output took no more.
    Unwritten,
}

impl Failure<'_> {
    /// The exit status: 2 where the command line, a file or the configuration is at fault, else 1.
    pub fn status(&self) -> u8
        ensures { result ≡ failure_status self.now }
    {
        match self {
            Failure::BadCommandLine | Failure::CannotRead(_) => 2,
            Failure::Refused(Fault::BadConfig | Fault::ProgramFault(_)) => 2,
            Failure::Refused(_) | Failure::Unwritten => 1,
        }
    }

    /// Tells standard error of the failure, and gives the exit status. Nothing more is printed where
    /// standard output took no more.
    pub fn report<E: Write>(&self, err: &mut E) -> u8
        ensures { result ≡ failure_status self.now }
    {
        if *self != Failure::Unwritten {
            // The status tells of the failure also where standard error takes nothing.
            let _ = writeln!(err, "ivy: {self}");
        }
        self.status()
    }
}

impl fmt::Display for Failure<'_> {
    fn fmt<W: fmt::Write>(&self, f: &mut fmt::Formatter<W>) -> fmt::Result {
        match self {
            Failure::BadCommandLine => write!(f, "bad command line"),
            Failure::CannotRead(name) => write!(f, "cannot read {name}"),
            Failure::Refused(fault) => write!(f, "{fault}"),
            Failure::Unwritten => write!(f, "standard output took no more"),
        }
    }
}

impl From<Fault> for Failure<'_> {
    ghost use Rattle.ivy_commands.specs.declared.failure.Failure.TheVariants.{Refused};

    ghost from_gives = { λ fault failure. failure ≡ Refused fault };

    fn from(fault: Fault) -> Self {
        Failure::Refused(fault)
    }
}

impl From<AllocError> for Failure<'_> {
    fn from(_error: AllocError) -> Self {
        Failure::Refused(Fault::Memory)
    }
}

/// Of all streams, only standard output is written with its errors looked at.
impl From<io::Error> for Failure<'_> {
    ghost use Rattle.ivy_commands.specs.declared.failure.Failure.TheVariants.{Unwritten};

    ghost from_gives = { λ _ failure. failure ≡ Unwritten };

    fn from(_error: io::Error) -> Self {
        Failure::Unwritten
    }
}

impl From<Halt> for Failure<'_> {
    fn from(halt: Halt) -> Self {
        match halt {
            Halt::Refused(fault) => Failure::Refused(fault),
            Halt::Unwritten => Failure::Unwritten,
        }
    }
}

impl From<CommandLineError> for Failure<'_> {
    fn from(error: CommandLineError) -> Self {
        match error {
            CommandLineError::Memory => Failure::Refused(Fault::Memory),
            CommandLineError::BadCommandLine => Failure::BadCommandLine,
        }
    }
}
