//! What the tests share.
use ivy_model::{Config, Kind};
use ivy_play::{Outcome, PlayReport};
use ivy_sync::Barrier;
use std::alloc::Allocator;

/// How many nodes, with four small pages.
pub(crate) fn config(nodes: u8, manager: Kind) -> Config {
    Config {
        nodes,
        pages: 4,
        page_size: 256,
        manager,
    }
}

/// Both managers.
pub(crate) const KINDS: [Kind; 2] = [Kind::Fixed, Kind::Dynamic];

/// How many moves let each of these programs come to its end.
pub(crate) const ENOUGH: u64 = 100_000;

/// How many moves are drawn.
pub(crate) const MOVES: u64 = 500;

/// The barrier of so many nodes at eventcount 0.
pub(crate) fn meeting(nodes: u8) -> Barrier {
    Barrier {
        count: 0,
        nodes,
        passed: 0,
    }
}

/// Whether the work of each node gave this.
pub(crate) fn all_gave<A: Allocator + Copy>(report: &PlayReport<u64, A>, wanted: u64) -> bool {
    report
        .outcomes
        .iter()
        .all(|outcome| *outcome == Outcome::Gave(wanted))
}
