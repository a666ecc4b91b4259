ghost use Rattle.std.specs.Prelude.{◌+◌, ◌*◌, ◌<◌, ◌^◌, IfErr, IfOk};
ghost use Rattle.ivy_sync.specs.Failing.{AtSome};
ghost use Rattle.ivy_sync.specs.Touching.{FailsToTouch, HasTouched};

use ivy_calls::{CallError, SharedMemory, fetch_add};

/// Takes so many pages, which lie so many bytes apart, by adding 0 to the word of 8 bytes at the same place of each.
///
/// Node 0 owns all pages at first. So where a node touches a block before it works there, it has its pages, and the first
/// accesses of all nodes do not wait for node 0. Nothing is changed.
pub fn touch<M: SharedMemory>(
    memory: &mut M,
    addr: u64,
    pages: u64,
    apart: u64,
) -> Result<(), CallError>
    requires { addr + apart * pages < 2 ^ 64 }
    ensures touches { IfOk result (λ _.
        HasTouched addr apart pages (M.answers memory.old) (M.answers memory.new)) }
    ensures fails { IfErr result (λ error.
        FailsToTouch (AtSome M.can_fail) addr apart pages error
        (M.answers memory.old) (M.answers memory.new)) }
{
    for page in 0..pages {
        fetch_add(memory, addr + apart * page, 0u64)?;
    }
    Ok(())
}
