//! Why a command was not carried out.
use ivy_model::Fault;
use std::alloc::AllocError;
use std::io;

/// Why moves were not made to their end, or an order not judged, or what came of it not printed.
#[derive(Clone, Copy, Debug, PartialEq, Eq)]
pub enum Halt {
    /// The schedule, the order, the configuration or a move was refused.
    Refused(Fault),
    /// The writer took no more.
    Unwritten,
}

impl From<Fault> for Halt {
    ghost use Rattle.std.specs.Prelude.{◌≡◌};
    ghost use Rattle.ivy_simulation.specs.declared.halt.Halt.TheVariants.{Refused};

    ghost from_gives = { λ fault halt. halt ≡ Refused fault };

    fn from(fault: Fault) -> Self {
        Halt::Refused(fault)
    }
}

impl From<AllocError> for Halt {
    fn from(_error: AllocError) -> Self {
        Halt::Refused(Fault::Memory)
    }
}

/// Of all streams, only the writer of what is printed is looked at.
impl From<io::Error> for Halt {
    ghost use Rattle.std.specs.Prelude.{◌≡◌};
    ghost use Rattle.ivy_simulation.specs.declared.halt.Halt.TheVariants.{Unwritten};

    ghost from_gives = { λ _ halt. halt ≡ Unwritten };

    fn from(_error: io::Error) -> Self {
        Halt::Unwritten
    }
}
