//! How many of a list's parcels go to each node, counted as the list is walked.
ghost use Rattle.std.specs.Prelude.{◌≡◌, ◌<◌, ◌+◌, [], length, map, take, slice_get, IfSome};
ghost use Rattle.ivy_wire.specs.Lent.{owned_parcel};
ghost use Rattle.ivy_link.specs.Sides.{count_to, IsCountOf};

use crate::link::count_to;
use ivy_model::MOST_NODES;
use ivy_wire::Parcel;
use std::marker::Model;

/// How many of the first parcels of a list go to each node, of as many nodes as a configuration may have.
///
/// Contracts see these numbers, by node.
#[derive(Drop)]
pub struct Counts {
    counts: [usize; MOST_NODES as usize],
}

impl Model for Counts {
    ghost use Rattle.std.specs.Prelude.{ℕ, List};

    ghost Value = { List ℕ };

    ghost view = { λ c. c.counts };
}

impl Counts {
    /// No parcel was counted yet.
    pub fn none() -> Counts
        ensures { IsCountOf result [] }
    {
        Counts {
            counts: [0; MOST_NODES as usize],
        }
    }

    /// How many parcels before the one at this index go where it goes. It is counted then, too. A node beyond
    /// those of a configuration has no count, and its parcels are looked for.
    pub(crate) fn pass(&mut self, parcels: &[Parcel<&[u8]>], index: usize) -> usize
        requires inside { index < length parcels.now }
        requires before { IsCountOf self.old (map owned_parcel (take index parcels.now)) }
        ensures earlier { IfSome (slice_get parcels.now index) (λ p. result ≡ count_to (map owned_parcel (take index parcels.now)) p.dest) }
        ensures after { IsCountOf self.new (map owned_parcel (take (index + 1) parcels.now)) }
    {
        let node = parcels[index].dest;
        let to = usize::from(node);
        if to >= self.counts.len() {
            return count_to(&parcels[..index], node);
        }
        let earlier = self.counts[to];
        self.counts[to] = earlier + 1;
        earlier
    }
}
