use ivy_calls::CallError;
use ivy_model::Fault;
use thiserror::Error;

/// Why a lock was not taken, a barrier not passed, or a value not sent or taken.
#[derive(Clone, Copy, Debug, PartialEq, Eq, Error)]
pub enum SyncError {
    /// A call failed.
    #[error("{0}")]
    Call(CallError),
    /// No more than `u64::MAX` tries, values or arrivals can be counted. `place` is the lock's address, or the
    /// eventcount.
    #[error("{place} is spent")]
    Spent { place: u64 },
}

impl From<CallError> for SyncError {
    ghost use Rattle.std.specs.Prelude.{◌≡◌};
    ghost use Rattle.ivy_sync.specs.declared.error.SyncError.TheVariants.{Call};

    ghost from_gives = { λ call error. error ≡ Call call };

    fn from(error: CallError) -> SyncError {
        SyncError::Call(error)
    }
}

impl From<SyncError> for Fault {
    ghost use Rattle.std.specs.Prelude.{◌≡◌};
    ghost use Rattle.ivy_sync.specs.Failing.{fault_by};

    ghost from_gives = { λ error fault. fault ≡ fault_by error };

    fn from(error: SyncError) -> Fault {
        match error {
            SyncError::Call(call) => Fault::from(call),
            SyncError::Spent { .. } => Fault::CountFull,
        }
    }
}
