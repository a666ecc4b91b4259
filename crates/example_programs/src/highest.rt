//! Nodes that bid, and name the highest bid.
ghost use Rattle.std.specs.Prelude.{◌≡◌, ◌+◌, ◌*◌, ◌<◌, ◌^◌, max};

use ivy_calls::{SharedMemory, Work};
use ivy_model::Fault;
use ivy_sync::Reduction;

/// Each node bids by a reduction, and names the highest bid.
///
/// All name the same, the highest of all, as [`crate::all_name_the_highest`] says.
#[derive(Clone, Copy, Debug, PartialEq, Eq)]
pub struct Highest {
    /// What each node bids.
    pub bids: [u64; 32],
    /// By which they find each other's bids.
    pub reduction: Reduction,
    ghost fits: { reduction.addr + 8 * 256 < 2 ^ 64 },
}

impl Work for Highest {
    ghost use Rattle.example_programs.specs.Highest.{HasBid};

    type Out = u64;

    ghost done = { HasBid };

    fn work<M: SharedMemory>(&self, me: u8, memory: &mut M) -> Result<u64, Fault> {
        if me >= 32 {
            return Err(Fault::BadNode);
        }
        let bid = self.bids[usize::from(me)];
        let mut reduction = self.reduction;
        let highest = |most: u64, other: u64| -> u64
            ensures { result ≡ max most other }
        { most.max(other) };
        Ok(reduction.fold(memory, me, bid, 0u64, highest)?)
    }
}
