//! Nodes that meet once, and find what the next one stored before.
ghost use Rattle.std.specs.Prelude.{◌≡◌, ◌+◌, ◌*◌, ◌<◌, ◌^◌};
ghost use Rattle.ivy_sync.specs.meeting.TreeBarriers.{HasTree};
ghost use Rattle.example_programs.specs.Ring.{next};

use ivy_calls::{SharedMemory, Work, load, store};
use ivy_model::Fault;
use ivy_sync::{TreeBarrier, WordBarrier};

/// The number of the node after this one: after the last of so many comes node 0.
fn next(nodes: u8, me: u8) -> u8
    requires { me < nodes }
    ensures { result ≡ next nodes me }
{
    if me + 1 < nodes { me + 1 } else { 0 }
}

/// Each node stores its number and 1, meets the others by two words, and gives what the next node stored.
///
/// So it gives that one's number and 1, as [`crate::word_rings_turn`] says, and nobody looks before all have stored
/// ([`crate::word_rings_meet`]).
#[derive(Clone, Copy, Debug, PartialEq, Eq)]
pub struct WordRing {
    /// Where node 0 stores its number: each node has a word of 8 bytes, one behind the other.
    pub addr: u64,
    /// Where the nodes meet.
    pub barrier: WordBarrier,
    ghost fits: { addr + 8 * 256 < 2 ^ 64 },
}

impl Work for WordRing {
    ghost use Rattle.example_programs.specs.Rings.{HasTurnedByWords};

    type Out = u64;

    ghost done = { HasTurnedByWords };

    fn work<M: SharedMemory>(&self, me: u8, memory: &mut M) -> Result<u64, Fault> {
        if me >= self.barrier.nodes {
            return Err(Fault::BadNode);
        }
        store(memory, self.addr + 8 * u64::from(me), u64::from(me) + 1)?;
        let mut barrier = self.barrier;
        barrier.wait(memory)?;
        let after = next(self.barrier.nodes, me);
        Ok(load(memory, self.addr + 8 * u64::from(after))?)
    }
}

/// The same, where the nodes meet by a tree.
///
/// Each gives the number of the next one and 1, as [`crate::tree_rings_turn`] says, and nobody looks before all have
/// stored ([`crate::tree_rings_meet`]).
#[derive(Clone, Copy, Debug, PartialEq, Eq)]
pub struct TreeRing {
    /// Where node 0 stores its number: each node has a word of 8 bytes, one behind the other.
    pub addr: u64,
    /// Where the nodes meet.
    pub barrier: TreeBarrier,
    ghost fits: { addr + 8 * 256 < 2 ^ 64 },
    ghost tree: { HasTree barrier },
}

impl Work for TreeRing {
    ghost use Rattle.example_programs.specs.Rings.{HasTurnedByTree};

    type Out = u64;

    ghost done = { HasTurnedByTree };

    fn work<M: SharedMemory>(&self, me: u8, memory: &mut M) -> Result<u64, Fault> {
        if me >= self.barrier.nodes {
            return Err(Fault::BadNode);
        }
        store(memory, self.addr + 8 * u64::from(me), u64::from(me) + 1)?;
        let mut barrier = self.barrier;
        barrier.wait(memory, me)?;
        let after = next(self.barrier.nodes, me);
        Ok(load(memory, self.addr + 8 * u64::from(after))?)
    }
}
