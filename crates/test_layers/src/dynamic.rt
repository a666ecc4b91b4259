//! The manager of pages by hints.
use crate::managers::{Calls, HINTED, Told, check};
use ivy_dynamic::DynamicManager;
use std::process::Abort;

fn check_node(rt: &(impl Abort + AllocGlobal), me: u8, calls: &Calls) {
    let mut manager = DynamicManager::new(rt.alloc(), &HINTED, me).expect(rt, "memory");
    check(rt, &mut manager, calls);
}

#[test]
fn each_call_moves_the_hint(rt: HostRuntime) {
    check_node(&rt, 1, &EACH_CALL);
}

static EACH_CALL: Calls<'static> = Calls {
    page: 5,
    first: [0; 8],
    calls: &[
        (Told::Forward(false, 2), 0),
        (Told::Forward(true, 3), 3),
        (Told::Replied(false, 2), 2),
        (Told::Invalidated(0), 0),
        (Told::Replied(true, 3), 1),
        (Told::Given(2), 2),
    ],
};

/// Steady hints are moved by each call but the one that ends a copy.
#[test]
fn ended_copy_keeps_a_steady_hint(rt: HostRuntime) {
    let mut manager = DynamicManager::steady(rt.alloc(), &HINTED, 1).expect(&rt, "memory");
    check(&rt, &mut manager, &STEADY);
}

static STEADY: Calls<'static> = Calls {
    page: 5,
    first: [0; 8],
    calls: &[
        (Told::Invalidated(2), 0),
        (Told::Forward(false, 2), 0),
        (Told::Forward(true, 3), 3),
        (Told::Invalidated(0), 3),
        (Told::Replied(false, 2), 2),
        (Told::Invalidated(0), 2),
        (Told::Replied(true, 3), 1),
        (Told::Given(2), 2),
    ],
};

/// Node 0 gives page 5 to node 1, of which node 3 knows nothing: its request to write goes from
/// hint to hint, 0 and then 1, and each of the two then hints at node 3.
#[test]
fn request_follows_a_chain_of_hints(rt: HostRuntime) {
    check_node(&rt, 0, &FIRST);
    check_node(&rt, 1, &SECOND);
    check_node(&rt, 3, &ASKING);
}

static FIRST: Calls<'static> = Calls {
    page: 5,
    first: [0; 8],
    calls: &[(Told::Given(1), 1), (Told::Forward(true, 3), 3)],
};

static SECOND: Calls<'static> = Calls {
    page: 5,
    first: [0; 8],
    calls: &[(Told::Replied(true, 0), 1), (Told::Given(3), 3)],
};

static ASKING: Calls<'static> = Calls {
    page: 5,
    first: [0; 8],
    calls: &[(Told::Replied(true, 1), 3)],
};

/// Calls for page 5 change what is named for that page alone, and one call takes them all back:
/// here one that names another node, or once this node has written one that names itself.
#[test]
fn one_call_takes_changes_back(rt: HostRuntime) {
    check_node(&rt, 1, &TAKEN_BACK);
}

static TAKEN_BACK: Calls<'static> = Calls {
    page: 5,
    first: [0; 8],
    calls: &[
        (Told::Given(2), 2),
        (Told::Invalidated(0), 0),
        (Told::Replied(false, 2), 2),
        (Told::Forward(true, 3), 3),
        (Told::Given(0), 0),
        (Told::Replied(true, 0), 1),
        (Told::Given(2), 2),
        (Told::Invalidated(0), 0),
        (Told::Replied(false, 2), 2),
        (Told::Forward(true, 3), 3),
        (Told::Replied(true, 3), 1),
    ],
};
