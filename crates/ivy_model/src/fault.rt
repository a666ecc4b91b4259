ghost use Rattle.std.specs.Prelude.{◌≡◌, ℕ};
ghost use Rattle.ivy_model.specs.declared.fault.Fault.TheVariants.{Memory};
ghost use Rattle.ivy_model.specs.stated.Numbers.{fault_number};

use std::alloc::{AllocError, AllocFailed};
use thiserror::Error;

/// What code answers where no call of this library comes to it: a case that the types allow, and that no contract rules
/// out. It is 21, so a session or a play that met it ends; who sees it without having used up any turns has found an error.
pub const CANNOT_HAPPEN: Fault = Fault::TurnLimit;

/// Why a call was refused. Its text is the fault's number, a space and its name.
///
/// The numbers 3 to 10 are answers of the memory, which a [`crate::Reply`] carries as a number.
#[derive(Clone, Copy, Debug, PartialEq, Eq, Error)]
pub enum Fault {
    /// A growth was refused.
    #[error("1 Memory")]
    Memory,
    /// The configuration, or a limit of a run, is out of its bounds.
    #[error("2 BadConfig")]
    BadConfig,
    /// The address is no multiple of the width.
    #[error("3 Misaligned")]
    Misaligned,
    /// The address lies past the heap.
    #[error("4 OutOfRange")]
    OutOfRange,
    /// The address lies in page 0, which holds the eventcounts.
    #[error("5 Reserved")]
    Reserved,
    /// There is no eventcount of this number.
    #[error("6 NoSuchCount")]
    NoSuchCount,
    /// The eventcount is at its greatest value.
    #[error("7 CountFull")]
    CountFull,
    /// A block of no bytes.
    #[error("8 ZeroSize")]
    ZeroSize,
    /// No room in the heap for the block.
    #[error("9 NoRoom")]
    NoRoom,
    /// No live block starts at the address.
    #[error("10 NotABlock")]
    NotABlock,
    /// The string is shorter than a header and the body that it announces.
    #[error("11 ShortFrame")]
    ShortFrame,
    /// The string does not begin with the two magic bytes.
    #[error("12 BadMagic")]
    BadMagic,
    /// The string is of another version.
    #[error("13 BadVersion")]
    BadVersion,
    /// There is no frame of this kind.
    #[error("14 BadKind")]
    BadKind,
    /// Source or destination is no node, or they are the same.
    #[error("15 BadNode")]
    BadNode,
    /// Length, number or a field of the body is wrong for the kind.
    #[error("16 BadBody")]
    BadBody,
    /// A message number above the greatest one would be needed.
    #[error("17 NumbersSpent")]
    NumbersSpent,
    /// A call is in progress already.
    #[error("18 Busy")]
    Busy,
    /// No such string was sent, or no such node is there.
    #[error("19 NoSuchFrame")]
    NoSuchFrame,
    /// The least line of a text that is at fault, from 1.
    #[error("20 ProgramFault line {0}")]
    ProgramFault(u64),
    /// The turns of a run were used up before all programs ended.
    #[error("21 TurnLimit")]
    TurnLimit,
}

impl Fault {
    /// The number of the fault, 1 to 21.
    pub fn number(self) -> u8
        ensures { result ≡ fault_number self }
    {
        match self {
            Fault::Memory => 1,
            Fault::BadConfig => 2,
            Fault::Misaligned => 3,
            Fault::OutOfRange => 4,
            Fault::Reserved => 5,
            Fault::NoSuchCount => 6,
            Fault::CountFull => 7,
            Fault::ZeroSize => 8,
            Fault::NoRoom => 9,
            Fault::NotABlock => 10,
            Fault::ShortFrame => 11,
            Fault::BadMagic => 12,
            Fault::BadVersion => 13,
            Fault::BadKind => 14,
            Fault::BadNode => 15,
            Fault::BadBody => 16,
            Fault::NumbersSpent => 17,
            Fault::Busy => 18,
            Fault::NoSuchFrame => 19,
            Fault::ProgramFault(_) => 20,
            Fault::TurnLimit => 21,
        }
    }
}

impl From<AllocError> for Fault {
    ghost from_gives = { λ _ e. e ≡ Memory };

    fn from(_error: AllocError) -> Fault {
        Fault::Memory
    }
}

impl<T: Drop> From<AllocFailed<T>> for Fault {
    ghost from_gives = { λ _ e. e ≡ Memory };

    fn from(_error: AllocFailed<T>) -> Fault {
        Fault::Memory
    }
}
