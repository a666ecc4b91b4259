//! Rounds: in each of them every node pulses every other one, the strings of these pulses are delivered in the order
//! sent, and every node has a turn. Whatever else is sent is lost.
use crate::common::{TRIO, ends_of, expect_same_at};
use crate::worlds::common::{deliver, play, world};
use ivy_model::{Config, Kind};
use ivy_world::{Move, World};
use std::alloc::Allocator;
use std::process::Abort;

/// Three nodes store to one word, load it, and meet twice by a count. Each node stores its own number, counted from 1.
const CROWD: [&str; 3] = [
    "node 0\nset r1 64\nset r2 1\n",
    "node 1\nset r1 64\nset r2 2\n",
    "node 2\nset r1 64\nset r2 3\n",
];

/// What each node does then.
const MEETS: &str = "set r3 3
set r4 6
store 8 r1 r2
advance r0
await r5 r0 r3
load 8 r6 r1
advance r0
await r5 r0 r4
";

/// The programs of the nodes.
fn crowd<A: Allocator>(rt: &impl Abort, alloc: A) -> String<A> {
    let mut text = String::new(alloc);
    for begins in CROWD {
        text.push_str(begins).expect(rt, "memory");
        text.push_str(MEETS).expect(rt, "memory");
    }
    text
}

/// How many calls they make together.
const CALLS: u64 = 18;

/// In so many rounds of three nodes somebody is answered. It was found by a search of small worlds, which is no part of
/// this repository: the law says no more than that there is a number.
const MOST: u64 = 8;

const PULSES: [Move; 6] = [
    Move::Pulse { from: 0, to: 1 },
    Move::Pulse { from: 0, to: 2 },
    Move::Pulse { from: 1, to: 0 },
    Move::Pulse { from: 1, to: 2 },
    Move::Pulse { from: 2, to: 0 },
    Move::Pulse { from: 2, to: 1 },
];

const TURNS: [Move; 3] = [Move::Turn(0), Move::Turn(1), Move::Turn(2)];

/// A string is delivered to where it goes.
fn deliver_one<A: Allocator + Copy>(world: &mut World<A>, config: &Config, index: usize) -> bool {
    let Some(string) = world.sent().get(index) else {
        return false;
    };
    let Ok((_, _, dest)) = ends_of(config, string.bytes()) else {
        return false;
    };
    play(world, &[deliver(index as u64, u64::from(dest))]).is_ok()
}

/// The strings from one place up to another are delivered, in this order.
fn deliver_each<A: Allocator + Copy>(
    world: &mut World<A>,
    config: &Config,
    from: usize,
    to: usize,
) -> bool {
    for index in from..to {
        if !deliver_one(world, config, index) {
            return false;
        }
    }
    true
}

/// One round. Whether each move was made.
fn round<A: Allocator + Copy>(world: &mut World<A>, config: &Config) -> bool {
    let from = world.sent().len();
    let pulsed = play(world, &PULSES).is_ok();
    let to = world.sent().len();
    pulsed && deliver_each(world, config, from, to) && play(world, &TURNS).is_ok()
}

fn rounds<A: Allocator + Copy>(world: &mut World<A>, config: &Config) -> bool {
    for _ in 0..MOST {
        if !round(world, config) {
            return false;
        }
    }
    true
}

/// How many calls were answered.
fn answered<A: Allocator + Copy>(world: &World<A>) -> usize {
    let mut count: usize = 0;
    for node in 0..world.nodes() {
        count = count.saturating_add(world.history(node).len());
    }
    count
}

/// In so many rounds somebody was answered, until all were.
fn check_rounds(rt: &(impl Abort + AllocGlobal), config: &Config) {
    let text = crowd(rt, rt.alloc());
    let mut world = world(rt, rt.alloc(), *config, text.as_str());
    for call in 0..CALLS {
        let before = answered(&world);
        expect_same_at(rt, call, rounds(&mut world, config), true);
        let after = answered(&world);
        expect_same_at(rt, call, before < after || after as u64 == CALLS, true);
    }
    expect_same_at(rt, CALLS, answered(&world) as u64, CALLS);
}

#[test]
fn rounds_of_managing_nodes(rt: HostRuntime) {
    check_rounds(&rt, &TRIO);
}

#[test]
fn rounds_of_hints(rt: HostRuntime) {
    let config = Config {
        manager: Kind::Dynamic,
        ..TRIO
    };
    check_rounds(&rt, &config);
}
