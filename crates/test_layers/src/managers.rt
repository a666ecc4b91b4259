//! What a manager of pages is told of one page, as rows of tables.
use crate::common::PAIR;
use ivy_model::{Config, Kind};
use ivy_pagetable::Manager;
use std::process::Abort;

/// Four nodes that manage eight pages: node 1 manages pages 1 and 5, node 2 pages 2 and 6.
pub(crate) const MANAGED: Config = Config {
    nodes: 4,
    pages: 8,
    ..PAIR
};

/// The same by hints.
pub(crate) const HINTED: Config = Config {
    manager: Kind::Dynamic,
    ..MANAGED
};

/// What a manager is told.
#[derive(Clone, Copy)]
pub(crate) enum Told {
    /// A request, to write or only to read, of this node was sent on.
    Forward(bool, u8),
    /// A request of the node itself, to write or only to read, was answered by this node.
    Replied(bool, u8),
    /// The copy of the node was ended by this one.
    Invalidated(u8),
    /// The page was given to this node.
    Given(u8),
}

/// Calls for one of eight pages, and what the manager names for that page after each. What it names for all pages
/// at first it names for the others throughout.
pub(crate) struct Calls<'a> {
    pub(crate) page: u32,
    pub(crate) first: [u8; 8],
    pub(crate) calls: &'a [(Told, u8)],
}

/// What a manager names for each of the eight pages.
pub(crate) fn all_hops<M: Manager>(manager: &M) -> [u8; 8] {
    let mut hops = [0; 8];
    for (page, hop) in hops.iter_mut().enumerate() {
        *hop = manager.next_hop(page as u32);
    }
    hops
}

/// Tells a manager of a page.
pub(crate) fn tell<M: Manager>(manager: &mut M, page: u32, told: &Told) {
    match told {
        Told::Forward(write, origin) => manager.on_forward(page, *write, *origin),
        Told::Replied(write, from) => manager.on_replied(page, *write, *from),
        Told::Invalidated(by) => manager.on_invalidated(page, *by),
        Told::Given(to) => manager.on_given(page, *to),
    }
}

/// Whether the manager names this for the page, and for the others what it named at first.
pub(crate) fn names<M: Manager>(manager: &M, first: [u8; 8], page: u32, hop: u8) -> bool {
    let mut hops = first;
    if let Some(at_page) = hops.get_mut(page as usize) {
        *at_page = hop;
    }
    all_hops(manager) == hops
}

/// Makes the calls, and asserts what the manager names.
pub(crate) fn check<M: Manager>(rt: &impl Abort, manager: &mut M, calls: &Calls) {
    assert!(rt; all_hops(manager) == calls.first);
    for (index, (told, hop)) in calls.calls.iter().enumerate() {
        tell(manager, calls.page, told);
        assert!(rt;
            names(manager, calls.first, calls.page, *hop),
            "call {index}"
        );
    }
}
