//! The manager of pages by managing nodes.
use crate::managers::{Calls, MANAGED, Told, all_hops, check, names, tell};
use ivy_fixed::FixedManager;
use ivy_pagetable::Manager;
use std::alloc::Global;
use std::process::Abort;

fn check_all(rt: &impl Abort, manager: &mut FixedManager<Global>, tables: &[Calls]) {
    for calls in tables {
        check(rt, manager, calls);
    }
}

fn check_node(rt: &(impl Abort + AllocGlobal), me: u8, tables: &[Calls]) {
    MANAGED.check().expect(rt, "a configuration");
    let mut manager = FixedManager::new(rt.alloc(), &MANAGED, me).expect(rt, "memory");
    check_all(rt, &mut manager, tables);
}

#[test]
fn managing_node_keeps_the_owner(rt: HostRuntime) {
    check_node(&rt, 1, &OWN_PAGE);
}

static OWN_PAGE: [Calls<'static>; 1] = [Calls {
    page: 5,
    first: [0, 0, 2, 3, 0, 0, 2, 3],
    calls: &[
        (Told::Forward(false, 3), 0),
        (Told::Invalidated(2), 0),
        (Told::Replied(false, 2), 0),
        (Told::Forward(true, 3), 3),
        (Told::Replied(true, 3), 1),
        (Told::Given(2), 2),
    ],
}];

#[test]
fn other_nodes_ask_the_managing_node(rt: HostRuntime) {
    check_node(&rt, 3, &FOREIGN_PAGES);
}

static FOREIGN_PAGES: [Calls<'static>; 2] = [
    Calls {
        page: 5,
        first: [0, 1, 2, 0, 0, 1, 2, 0],
        calls: &[(Told::Forward(true, 0), 1), (Told::Given(2), 1)],
    },
    Calls {
        page: 6,
        first: [0, 1, 2, 0, 0, 1, 2, 0],
        calls: &[(Told::Replied(true, 0), 2)],
    },
];

/// What a manager is told of a page, before one call takes it back.
const CHANGES: [Told; 5] = [
    Told::Forward(true, 3),
    Told::Given(2),
    Told::Invalidated(3),
    Told::Replied(false, 2),
    Told::Replied(true, 2),
];

/// Calls for a page change what is named for that page alone, and one call takes them all back.
fn changes_one_page<M: Manager>(rt: &impl Abort, manager: &mut M, me: u8, page: u32) {
    let first = all_hops(manager);
    let hop = manager.next_hop(page);
    for told in &CHANGES {
        tell(manager, page, told);
    }
    assert!(rt; names(manager, first, page, manager.next_hop(page)));
    let back = if hop == me {
        Told::Replied(true, 2)
    } else {
        Told::Given(hop)
    };
    tell(manager, page, &back);
    assert!(rt; names(manager, first, page, hop));
}

/// At first each next hop is a node, and a node's own at node 0 alone.
fn obeys_the_laws(rt: &impl Abort, manager: &mut FixedManager<Global>, me: u8) {
    for page in 0..8 {
        let hop = manager.next_hop(page);
        assert!(rt; hop < 4 && (hop != me || me == 0), "{me} {page}");
        changes_one_page(rt, manager, me, page);
    }
}

#[test]
fn laws_of_a_manager(rt: HostRuntime) {
    for me in 0..4 {
        let mut manager = FixedManager::new(rt.alloc(), &MANAGED, me).expect(&rt, "memory");
        obeys_the_laws(&rt, &mut manager, me);
    }
}
