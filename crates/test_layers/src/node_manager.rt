//! The manager of a node, which its configuration names.
use crate::managers::{Calls, HINTED, MANAGED, Told, check};
use ivy_model::Config;
use ivy_site::{NodeManager, Opening};
use std::process::Abort;

/// The manager of node `me`, of four.
fn check_node(rt: &(impl Abort + AllocGlobal), config: &Config, me: u8, calls: &Calls) {
    config.check().expect(rt, "a configuration");
    let mut manager = NodeManager::new(rt.alloc(), config, me).expect(rt, "memory");
    check(rt, &mut manager, calls);
}

#[test]
fn managing_nodes(rt: HostRuntime) {
    check_node(&rt, &MANAGED, 2, &MANAGING);
    check_node(&rt, &MANAGED, 3, &OTHER);
}

static MANAGING: Calls<'static> = Calls {
    page: 6,
    first: [0, 1, 0, 3, 0, 1, 0, 3],
    calls: &[
        (Told::Invalidated(1), 0),
        (Told::Forward(true, 3), 3),
        (Told::Replied(false, 0), 3),
        (Told::Replied(true, 0), 2),
        (Told::Given(1), 1),
    ],
};

static OTHER: Calls<'static> = Calls {
    page: 6,
    first: [0, 1, 2, 0, 0, 1, 2, 0],
    calls: &[
        (Told::Invalidated(1), 2),
        (Told::Forward(true, 3), 2),
        (Told::Replied(false, 0), 2),
        (Told::Replied(true, 0), 2),
        (Told::Given(1), 2),
    ],
};

#[test]
fn hints(rt: HostRuntime) {
    check_node(&rt, &HINTED, 2, &HINTING);
}

static HINTING: Calls<'static> = Calls {
    page: 6,
    first: [0; 8],
    calls: &[
        (Told::Invalidated(1), 1),
        (Told::Forward(true, 3), 3),
        (Told::Replied(false, 0), 0),
        (Told::Replied(true, 0), 2),
        (Told::Given(1), 1),
    ],
};

/// The manager of node `me`, which begins with steady hints whatever its configuration names.
fn check_steady(rt: &(impl Abort + AllocGlobal), config: &Config) {
    config.check().expect(rt, "a configuration");
    let mut manager = NodeManager::opened(rt.alloc(), config, 2, Opening::Steady).expect(
        rt, "memory",
    );
    check(rt, &mut manager, &STEADY);
}

#[test]
fn steady_hints(rt: HostRuntime) {
    check_steady(&rt, &HINTED);
    check_steady(&rt, &MANAGED);
}

static STEADY: Calls<'static> = Calls {
    page: 6,
    first: [0; 8],
    calls: &[
        (Told::Invalidated(1), 0),
        (Told::Forward(true, 3), 3),
        (Told::Invalidated(1), 3),
        (Told::Replied(false, 0), 0),
        (Told::Replied(true, 0), 2),
        (Told::Given(1), 1),
    ],
};
