ghost use Rattle.std.specs.Prelude.{◌≡◌, ◌++◌, IfErr, IfOk};
ghost use Rattle.ivy_sync.specs.Doing.{clears};
ghost use Rattle.ivy_sync.specs.Failing.{AtSome, FailsToClear};

use ivy_calls::{CallError, SharedMemory, alloc, store};

/// The address of a new word of 8 bytes that is 0: a block that was used before is not.
pub(crate) fn cleared_word<M: SharedMemory>(memory: &mut M) -> Result<u64, CallError>
    ensures clears { IfOk result (λ addr.
        M.answers memory.new ≡ M.answers memory.old ++ clears addr) }
    ensures fails { IfErr result (λ error.
        FailsToClear (AtSome M.can_fail) error (M.answers memory.old) (M.answers memory.new)) }
{
    let addr = alloc(memory, 8)?;
    store(memory, addr, 0u64)?;
    Ok(addr)
}
