ghost use Rattle.std.specs.Prelude.{◌≡◌, ◌≤◌, IfNone, IfSome};
ghost use Rattle.ivy_model.specs.stated.Numbers.{fault_number};

use ivy_model::{Call, Fault, Reply};
use thiserror::Error;

/// Why a call gave nothing. Its text names the call with its address, and the reason.
#[derive(Clone, Copy, Debug, PartialEq, Eq, Error)]
pub enum CallError {
    /// The memory refused the call, which changed nothing: its answer is the fault's number, 3 to 10.
    #[error("{call:?} was refused: {fault}")]
    Refused { call: Call, fault: Fault },
    /// The call was answered with a reply that no such call has. In a legal order there is none.
    #[error("{call:?} was answered {reply:?}")]
    Unfit { call: Call, reply: Reply },
    /// The call was not answered.
    #[error("{call:?} was not answered: {fault}")]
    Fault { call: Call, fault: Fault },
}

impl From<CallError> for Fault {
    ghost use Rattle.ivy_calls.specs.Fails.{fault_of};

    ghost from_gives = { λ error fault. fault ≡ fault_of error };

    fn from(error: CallError) -> Fault {
        match error {
            CallError::Refused { fault, .. } | CallError::Fault { fault, .. } => fault,
            CallError::Unfit { .. } => Fault::BadBody,
        }
    }
}

/// The fault that a refusal of this number means.
pub(crate) fn refusal(code: u8) -> Option<Fault>
    ensures is { IfSome result (λ fault. fault_number fault ≡ code) }
    ensures none { IfNone result (3 ≤ code → code ≤ 10 → ⊥) }
{
    match code {
        3 => Some(Fault::Misaligned),
        4 => Some(Fault::OutOfRange),
        5 => Some(Fault::Reserved),
        6 => Some(Fault::NoSuchCount),
        7 => Some(Fault::CountFull),
        8 => Some(Fault::ZeroSize),
        9 => Some(Fault::NoRoom),
        10 => Some(Fault::NotABlock),
        _ => None,
    }
}
