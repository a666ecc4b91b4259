ghost use Rattle.std.specs.Prelude.{IfErr, IfOk};
ghost use Rattle.ivy_sync.specs.Doing.{AddsLooks};
ghost use Rattle.ivy_sync.specs.Failing.{AtSome, FailsToLook};

use crate::error::SyncError;
use ivy_calls::{SharedMemory, load};

/// Looks at the word until it is at least this, and rests between two looks. Of itself it gives up after `u64::MAX`
/// looks alone.
pub(crate) fn look_until<M: SharedMemory>(
    memory: &mut M,
    addr: u64,
    least: u64,
) -> Result<u64, SyncError>
    ensures looks { IfOk result (λ _.
        AddsLooks addr least (M.answers memory.old) (M.answers memory.new)) }
    ensures fails { IfErr result (λ error.
        FailsToLook (AtSome M.can_fail) addr least error
        (M.answers memory.old) (M.answers memory.new)) }
{
    for looks in 0..u64::MAX {
        let found: u64 = load(memory, addr)?;
        if found >= least {
            return Ok(found);
        }
        memory.rest(looks);
    }
    Err(SyncError::Spent { place: addr })
}
