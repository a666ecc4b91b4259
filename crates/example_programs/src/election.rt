//! An election.
ghost use Rattle.std.specs.Prelude.{IfOk};
ghost use Rattle.ivy_sync.specs.HeapWords.{IsHeapWord};
ghost use Rattle.example_programs.specs.Election.{AllNameOne, NameOne};

use ivy_calls::cas;
use ivy_model::{Config, Fault};
use ivy_node::{Limits, OpenGate, OwnFault, SharedMemory, Work, run_with};
use std::alloc::Allocator;
use std::sync::Wait;
use std::thread::Threads;

/// All nodes agree on one of them: the first that claims the word. Each gives its number.
///
/// All name the same one, as [`all_name_one`] says.
#[derive(Clone, Copy, Debug)]
pub struct Election {
    /// The word that is claimed: 0 at first, and then who has it, by its number and one.
    pub addr: u64,
}

impl Work for Election {
    ghost use Rattle.example_programs.specs.Election.{HasVoted};

    type Out = u64;

    ghost done = { λ work me answers leader. HasVoted work.addr me answers leader };

    fn work<M: SharedMemory>(&self, me: u8, memory: &mut M) -> Result<u64, Fault> {
        let own = u64::from(me);
        let found = cas(memory, self.addr, 0u64, own + 1)?;
        if found == 0 {
            return Ok(own);
        }
        Ok(found - 1)
    }
}

/// All nodes name the same one of them.
pub fn all_name_one()
    ensures { AllNameOne }
{}

/// Holds an election in the threads of a session, and gives whom each node names.
pub fn elect<A, R>(
    rt: &R,
    alloc: A,
    config: Config,
    election: &Election,
    limits: Limits,
) -> Result<Vec<u64, A>, OwnFault>
where
    A: Allocator + Copy + Send + Sync,
    R: Threads + Wait + Sync,
    requires { IsHeapWord config election.now.addr }
    ensures { IfOk result (λ outs. NameOne config.nodes outs.items) }
{
    let report = run_with(rt, alloc, config, election, limits, &OpenGate)?;
    Ok(report.outs)
}
