//! Worlds under the dynamic manager: hints that lead to the owner of a page, at once or over other nodes.
//! One of the worlds is played under the fixed manager too, where the requests go other ways.
use crate::common::{
    PAIR, REPLY, REQUEST, STORE_ASKS, STORE_GETS, TRIO, ends_of, expect_same, expect_same_at,
};
use crate::worlds::common::{IDLE, Run, Sent, Shown, check_run, moves_of, play, shows, world};
use crate::worlds::eight_nodes::deliver_from;
use crate::worlds::stores::{UPGRADE_OF_THREE, UPGRADE_SHOWN};
use ivy_model::{Config, Kind};
use ivy_wire::FrameKind;
use ivy_world::World;
use std::alloc::Allocator;
use std::process::Abort;

const HINTS: Config = Config {
    manager: Kind::Dynamic,
    ..TRIO
};

const EIGHT_HINTS: Config = Config {
    nodes: 8,
    manager: Kind::Dynamic,
    ..PAIR
};

/// Node 1 loads a word that node 2 stores.
const LATE: &str = "node 0
node 1
set r1 64
load 8 r3 r1
print r3
node 2
set r1 64
set r2 5
store 8 r1 r2
";

const LATE_SENT: Sent = (
    0,
    &[
        REQUEST,
        REPLY,
        "495602020200000d 0000000000000001 0000000000000000 02 0000000000000001 00000001",
        "4956020400020051 0000000000000001 0000000000000000 02 0000000000000001 00000001 00000002 + 0",
        "495602050201000d 0000000000000001 0000000000000000 02 0000000000000001 00000001",
        "495602060102000d 0000000000000001 0000000000000001 02 0000000000000001 00000001",
    ],
);

/// The copy for node 1, string 1, is held back until the message that is to end it came.
static LATE_RUN: Run<'static> = Run {
    config: HINTS,
    text: LATE,
    stages: &[("1*2 0>0 2*3 2>0,2,1", 5), ("1>1 5>2 1*2 2", 6)],
    strings: &[LATE_SENT],
    nodes: &[
        ended!(1, &[loaded!(1, 64, 0)], &[0]),
        ended!(2, &[stored!(2, 64, 5)], &[]),
    ],
    ..IDLE
};

/// The copy for node 1 is late: the message that is to end it comes first, and waits for it.
#[test]
fn late_read_page(rt: HostRuntime) {
    check_run(&rt, &LATE_RUN);
}

const UPGRADE_SENT: Sent = (
    0,
    &[
        REQUEST,
        REPLY,
        "495602010200000d 0000000000000001 0000000000000000 02 0000000000000001 00000001",
        "495602030002004d 0000000000000001 0000000000000000 02 0000000000000001 00000001 + 0",
        "495602020100000d 0000000000000002 0000000000000001 01 0000000000000002 00000001",
        "495602020200000d 0000000000000002 0000000000000001 02 0000000000000002 00000001",
        "4956020400010051 0000000000000002 0000000000000001 01 0000000000000002 00000001 00000004 + 0",
        "495602020001000d 0000000000000003 0000000000000002 02 0000000000000002 00000001",
        "495602050102000d 0000000000000001 0000000000000000 01 0000000000000002 00000001",
        "495602060201000d 0000000000000001 0000000000000000 01 0000000000000002 00000001",
        "4956020401020051 0000000000000002 0000000000000000 02 0000000000000002 00000001 00000000 + 11",
        "495602010002000d 0000000000000002 0000000000000002 00 0000000000000001 00000001",
        "495602030200004d 0000000000000003 0000000000000001 00 0000000000000001 00000001 + 22",
    ],
);

pub(crate) static UPGRADE_RUN: Run<'static> = Run {
    config: HINTS,
    text: UPGRADE_OF_THREE,
    stages: &[
        // Both loads, one after the other, and then both requests to write, before either comes to node 0.
        ("1*2 0>0,1 1 2*2 2>0,2 2 1*2 2*2", 6),
        // The page goes to node 1 and on to node 2, whose request node 1 puts off.
        ("4>0 5>0 6>1 7>1 8>2 9>1 10>2", 11),
        // Both stores are recorded, and node 0, which sent the request of node 2 on, asks node 2.
        ("1 2 0*2 11>2,0 0*2", 13),
    ],
    strings: &[UPGRADE_SENT],
    nodes: &UPGRADE_SHOWN,
    ..IDLE
};

#[test]
fn upgrade_race(rt: HostRuntime) {
    check_run(&rt, &UPGRADE_RUN);
}

/// Node 1 stores, then node 2, and then node 0 loads.
const STALE: &str = "node 0
set r1 64
load 8 r2 r1
print r2
node 1
set r1 64
set r2 1
store 8 r1 r2
node 2
set r1 64
set r2 2
store 8 r1 r2
";

/// Each node is served in its turn, under either manager.
const STALE_SHOWN: [Shown; 3] = [
    ended!(0, &[loaded!(0, 64, 2)], &[2]),
    ended!(1, &[stored!(1, 64, 1)], &[]),
    ended!(2, &[stored!(2, 64, 2)], &[]),
];

const STALE_SENT: Sent = (
    0,
    &[
        STORE_ASKS,
        STORE_GETS,
        "495602020200000d 0000000000000001 0000000000000000 02 0000000000000001 00000001",
        "495602020001000d 0000000000000002 0000000000000001 02 0000000000000001 00000001",
        "4956020401020051 0000000000000001 0000000000000000 02 0000000000000001 00000001 00000000 + 1",
        "495602010002000d 0000000000000001 0000000000000001 00 0000000000000001 00000001",
        "495602030200004d 0000000000000002 0000000000000000 00 0000000000000001 00000001 + 2",
    ],
);

/// Node 1 stores, node 2 asks for the page, and its request goes on to node 1, which gives it. Then node 0 loads.
static STALE_RUN: Run<'static> = Run {
    config: HINTS,
    text: STALE,
    stages: &[("1*3 0>0,1 1 2*3 2>0,1,2 2 0*2 5>2,0 0*2", 7)],
    strings: &[STALE_SENT],
    nodes: &STALE_SHOWN,
    ..IDLE
};

/// Node 2 still hints at node 0, which gave the page away and sends the request on. From then on node 0 hints
/// at node 2, so its own request goes there at once.
#[test]
fn stale_hint(rt: HostRuntime) {
    check_run(&rt, &STALE_RUN);
}

const MANAGED_SENT: Sent = (
    0,
    &[
        STORE_ASKS,
        STORE_GETS,
        "495602020201000d 0000000000000001 0000000000000000 02 0000000000000001 00000001",
        "4956020401020051 0000000000000001 0000000000000000 02 0000000000000001 00000001 00000000 + 1",
        "495602010001000d 0000000000000002 0000000000000001 00 0000000000000001 00000001",
        "495602010102000d 0000000000000002 0000000000000001 00 0000000000000001 00000001",
        "495602030200004d 0000000000000001 0000000000000000 00 0000000000000001 00000001 + 2",
    ],
);

/// Node 2 asks the managing node, which owns the page, and so the request of node 0 takes two hops.
static MANAGED_RUN: Run<'static> = Run {
    config: TRIO,
    text: STALE,
    stages: &[("1*3 0>0,1 1 2*3 2>1,2 2 0*2 4>1,2,0 0*2", 7)],
    strings: &[MANAGED_SENT],
    nodes: &STALE_SHOWN,
    ..IDLE
};

/// The same programs under the fixed manager: node 1 manages the page, so it is node 1 that sends a request on.
#[test]
fn no_hint_at_all(rt: HostRuntime) {
    check_run(&rt, &MANAGED_RUN);
}

/// Nodes 1 to 7 each load the word and then store their own number. Node 0 loads last.
const CHAIN: &str = "node 0\nset r1 64\nload 8 r2 r1\nprint r2
node 1\nset r1 64\nload 8 r2 r1\nset r3 1\nstore 8 r1 r3
node 2\nset r1 64\nload 8 r2 r1\nset r3 2\nstore 8 r1 r3
node 3\nset r1 64\nload 8 r2 r1\nset r3 3\nstore 8 r1 r3
node 4\nset r1 64\nload 8 r2 r1\nset r3 4\nstore 8 r1 r3
node 5\nset r1 64\nload 8 r2 r1\nset r3 5\nstore 8 r1 r3
node 6\nset r1 64\nload 8 r2 r1\nset r3 6\nstore 8 r1 r3
node 7\nset r1 64\nload 8 r2 r1\nset r3 7\nstore 8 r1 r3\n";

/// Makes these moves, of which the last begins a call, and then the deliveries that follow, from this string on. Says
/// which string would be next.
fn ask<A: Allocator + Copy>(
    rt: &impl Abort,
    alloc: A,
    world: &mut World<A>,
    words: &str,
    next: u64,
) -> u64 {
    expect_same(rt, play(world, &moves_of(rt, alloc, words)), Ok(()));
    deliver_from(rt, world, next)
}

/// A load brings each of these nodes a hint at the owner, so its request to write goes there at once, and no
/// other node hears of it. In the end the hints of nodes 0 to 6 lead from each node to the next one. The moves are those
/// that load, those that store, and one that records.
const HANDED_ON: [[&str; 3]; 7] = [
    ["1*2", "1*3", "1"],
    ["2*2", "2*3", "2"],
    ["3*2", "3*3", "3"],
    ["4*2", "4*3", "4"],
    ["5*2", "5*3", "5"],
    ["6*2", "6*3", "6"],
    ["7*2", "7*3", "7"],
];

fn hand_on<A: Allocator + Copy>(rt: &impl Abort, alloc: A, world: &mut World<A>) -> u64 {
    let mut next = 0;
    for [loads, stores, records] in &HANDED_ON {
        next = ask(rt, alloc, world, loads, next);
        next = ask(rt, alloc, world, stores, next);
        next = ask(rt, alloc, world, records, next);
    }
    next
}

/// The request of node 0 goes over all hints.
const OVER_ALL: [(usize, u8, u8); 7] = [
    (49, 0, 1),
    (50, 1, 2),
    (51, 2, 3),
    (52, 3, 4),
    (53, 4, 5),
    (54, 5, 6),
    (55, 6, 7),
];

/// Whether the string of this index asks for a copy, from one node to another.
fn is_request<A: Allocator + Copy>(world: &World<A>, index: usize, from: u8, to: u8) -> bool {
    match world.sent().get(index) {
        Some(sent) => { ends_of(&EIGHT_HINTS, sent.bytes()) == Ok((FrameKind::ReadReq, from, to)) }
        None => false,
    }
}

fn goes_over_all<A: Allocator + Copy>(rt: &impl Abort, world: &World<A>) {
    for (index, from, to) in OVER_ALL {
        expect_same_at(rt, index, is_request(world, index, from, to), true);
    }
}

/// Node 0 is given what the last node stored.
static CHAIN_SHOWN: Shown<'static> = ended!(0, &[loaded!(0, 64, 7)], &[7]);

/// Node 0 asks, and then records its load and prints.
fn check_chain<A: Allocator + Copy>(rt: &impl Abort, alloc: A, world: &mut World<A>) {
    expect_same(rt, hand_on(rt, alloc, world), 49);
    expect_same(rt, ask(rt, alloc, world, "0*2", 49), 57);
    expect_same(rt, ask(rt, alloc, world, "0*2", 57), 57);
    expect_same(rt, shows(world, &CHAIN_SHOWN), true);
    goes_over_all(rt, world);
}

#[test]
fn chain_of_seven_hints(rt: HostRuntime) {
    let mut world = world(&rt, rt.alloc(), EIGHT_HINTS, CHAIN);
    check_chain(&rt, rt.alloc(), &mut world);
}
