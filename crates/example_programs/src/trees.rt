//! Nodes that put their numbers together by a tree, or get node 0's.
ghost use Rattle.std.specs.Prelude.{◌≡◌, max};
ghost use Rattle.ivy_sync.specs.meeting.TreeFolds.{HasFoldTree};

use ivy_calls::{SharedMemory, Work};
use ivy_model::Fault;
use ivy_sync::TreeReduction;

/// Each node bids by a tree, and names the highest bid.
///
/// All name the same, the highest of all, as [`crate::all_name_the_highest_by_tree`] says.
#[derive(Clone, Copy, Debug, PartialEq, Eq)]
pub struct HighestByTree {
    /// What each node bids.
    pub bids: [u64; 32],
    /// By which they find the highest of each other's bids.
    pub reduction: TreeReduction,
    ghost tree: { HasFoldTree reduction },
}

impl Work for HighestByTree {
    ghost use Rattle.example_programs.specs.Trees.{HasBidByTree};

    type Out = u64;

    ghost done = { HasBidByTree };

    fn work<M: SharedMemory>(&self, me: u8, memory: &mut M) -> Result<u64, Fault> {
        if me >= 32 {
            return Err(Fault::BadNode);
        }
        let bid = self.bids[usize::from(me)];
        let mut reduction = self.reduction;
        let highest = |most: u64, other: u64| -> u64
            ensures { result ≡ max most other }
        { most.max(other) };
        Ok(reduction.fold(memory, me, bid, highest)?)
    }
}

/// Node 0 gives a number to all, by a tree. Each node has one, and gives what it got.
///
/// All get node 0's, as [`crate::all_hear_node_0`] says.
#[derive(Clone, Copy, Debug, PartialEq, Eq)]
pub struct Herald {
    /// Each node's number: node 0's is told.
    pub numbers: [u64; 32],
    /// By which it is told.
    pub reduction: TreeReduction,
    ghost tree: { HasFoldTree reduction },
}

impl Work for Herald {
    ghost use Rattle.example_programs.specs.Trees.{HasHeard};

    type Out = u64;

    ghost done = { HasHeard };

    fn work<M: SharedMemory>(&self, me: u8, memory: &mut M) -> Result<u64, Fault> {
        if me >= 32 {
            return Err(Fault::BadNode);
        }
        let mut reduction = self.reduction;
        Ok(reduction.share(memory, me, self.numbers[usize::from(me)])?)
    }
}
