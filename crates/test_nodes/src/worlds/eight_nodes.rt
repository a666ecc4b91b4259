//! Eight nodes that all load the same word, under several schedules, and that all store to one page.
use crate::common::{PAIR, expect_same};
use crate::worlds::common::{
    IDLE, Run, Shown, check_run, deliver, ended, loaded, moves_of, play, shows, world,
};
use ivy_model::Config;
use ivy_world::World;
use std::alloc::Allocator;
use std::process::Abort;

const EIGHT: Config = Config { nodes: 8, ..PAIR };

const ALL_LOAD: &str = "node 0\nset r1 64\nload 8 r2 r1\nprint r2
node 1\nset r1 64\nload 8 r2 r1\nprint r2
node 2\nset r1 64\nload 8 r2 r1\nprint r2
node 3\nset r1 64\nload 8 r2 r1\nprint r2
node 4\nset r1 64\nload 8 r2 r1\nprint r2
node 5\nset r1 64\nload 8 r2 r1\nprint r2
node 6\nset r1 64\nload 8 r2 r1\nprint r2
node 7\nset r1 64\nload 8 r2 r1\nprint r2\n";

/// More strings than these programs send under any schedule here.
const MANY: u64 = 100;

/// Makes these moves.
fn go_on<A: Allocator + Copy>(rt: &impl Abort, alloc: A, world: &mut World<A>, words: &str) {
    expect_same(rt, play(world, &moves_of(rt, alloc, words)), Ok(()));
}

/// Two turns of each node.
const ALL_TURN: &str = "0 1 2 3 4 5 6 7 0 1 2 3 4 5 6 7";

/// The node that a string which was sent is for.
fn dest_of<A: Allocator + Copy>(world: &World<A>, index: u64) -> Option<u8> {
    let string = world.sent().get(index as usize)?;
    string.bytes().get(5).copied()
}

/// Delivers the strings from this one on, in the order sent, until none is new. Says which one would be
/// next.
pub(crate) fn deliver_from<A: Allocator + Copy>(
    rt: &impl Abort,
    world: &mut World<A>,
    first: u64,
) -> u64 {
    for index in first..MANY {
        let Some(to) = dest_of(world, index) else {
            return index;
        };
        expect_same(rt, play(world, &[deliver(index, u64::from(to))]), Ok(()));
    }
    MANY
}

/// Delivers a string to every node.
fn deliver_to_all<A: Allocator + Copy>(rt: &impl Abort, world: &mut World<A>, index: u64) {
    for to in 0..8 {
        expect_same(rt, play(world, &[deliver(index, to)]), Ok(()));
    }
}

/// Delivers each string to every node, in the order sent, until none is new.
fn deliver_each_to_all<A: Allocator + Copy>(rt: &impl Abort, world: &mut World<A>) {
    for index in 0..MANY {
        if dest_of(world, index).is_none() {
            break;
        }
        deliver_to_all(rt, world, index);
    }
}

/// All nodes ask before any is answered, and each string goes where it has to, or to every node.
fn ask_all_first<A: Allocator + Copy>(rt: &impl Abort, alloc: A, world: &mut World<A>, all: bool) {
    go_on(rt, alloc, world, ALL_TURN);
    if all {
        deliver_each_to_all(rt, world);
    } else {
        let _ = deliver_from(rt, world, 0);
    }
    go_on(rt, alloc, world, ALL_TURN);
}

/// Each node goes on to its end before the next one begins.
fn turn_one_by_one<A: Allocator + Copy>(rt: &impl Abort, alloc: A, world: &mut World<A>) {
    let mut next = 0;
    for turns in ["7*2", "6*2", "5*2", "4*2", "3*2", "2*2", "1*2", "0*2"] {
        go_on(rt, alloc, world, turns);
        next = deliver_from(rt, world, next);
        go_on(rt, alloc, world, turns);
    }
}

/// Whether every node has loaded the value 0, printed it, and ended.
fn all_have_loaded_zero<A: Allocator + Copy>(world: &World<A>) -> bool {
    for node in 0..8u8 {
        if !shows(
            world,
            &ended(u64::from(node), &[loaded(node, 8, 64, 0)], &[0]),
        ) {
            return false;
        }
    }
    true
}

/// The order in which the nodes load.
#[derive(Clone, Copy)]
enum Order {
    AskAllFirst,
    TellAll,
    OneByOne,
}

fn check_all_load<A: Allocator + Copy>(
    rt: &impl Abort,
    alloc: A,
    world: &mut World<A>,
    order: Order,
) {
    match order {
        Order::AskAllFirst => ask_all_first(rt, alloc, world, false),
        Order::TellAll => ask_all_first(rt, alloc, world, true),
        Order::OneByOne => turn_one_by_one(rt, alloc, world),
    }
    expect_same(rt, all_have_loaded_zero(world), true);
}

fn check_loads(rt: &(impl Abort + AllocGlobal), order: Order) {
    let mut world = world(rt, rt.alloc(), EIGHT, ALL_LOAD);
    check_all_load(rt, rt.alloc(), &mut world, order);
}

#[test]
fn all_ask_before_any_is_answered(rt: HostRuntime) {
    check_loads(&rt, Order::AskAllFirst);
}

#[test]
fn each_string_goes_to_every_node(rt: HostRuntime) {
    check_loads(&rt, Order::TellAll);
}

#[test]
fn one_node_after_another(rt: HostRuntime) {
    check_loads(&rt, Order::OneByOne);
}

/// Each node stores its own number, counted from 1, to a word of its own, all in one page. Node 7 loads its
/// word before.
const ALL_STORE: &str = "node 0\nset r1 64\nset r2 1\nstore 8 r1 r2
node 1\nset r1 72\nset r2 2\nstore 8 r1 r2
node 2\nset r1 80\nset r2 3\nstore 8 r1 r2
node 3\nset r1 88\nset r2 4\nstore 8 r1 r2
node 4\nset r1 96\nset r2 5\nstore 8 r1 r2
node 5\nset r1 104\nset r2 6\nstore 8 r1 r2
node 6\nset r1 112\nset r2 7\nstore 8 r1 r2
node 7\nset r1 120\nload 8 r2 r1\nset r2 8\nstore 8 r1 r2\n";

/// Each node has stored its number.
const STORED: [Shown; 8] = [
    ended!(0, &[stored!(0, 64, 1)], &[]),
    ended!(1, &[stored!(1, 72, 2)], &[]),
    ended!(2, &[stored!(2, 80, 3)], &[]),
    ended!(3, &[stored!(3, 88, 4)], &[]),
    ended!(4, &[stored!(4, 96, 5)], &[]),
    ended!(5, &[stored!(5, 104, 6)], &[]),
    ended!(6, &[stored!(6, 112, 7)], &[]),
    ended!(7, &[loaded!(7, 120, 0), stored!(7, 120, 8)], &[]),
];

const STORES: Run = Run {
    config: EIGHT,
    text: ALL_STORE,
    nodes: &STORED,
    ..IDLE
};

// Node 1, which manages the page, gets it from node 0 and waits for node 7 to end its copy. Meanwhile all others ask node 1
// for the page, so it puts off seven requests. Then it hands the page to the first of them, and sends each further request
// on to the node that asked before. The last string has the page as it comes to the node that asked last: seven words are
// stored, its own is not.

/// Node 7 asks first, and node 6 last.
pub(crate) static SEVEN_FIRST: Run<'static> = Run {
    stages: &[(
        "7*2 0>1,0,7 7 1*3 3>0,1 7*3 0*3 2*3 3*3 4*3 5*3 6*3 6>1,1,1,1,1,1,1 5>7 13>1 \
         14>7 15>7,0,2,3,4,5 21>0,2,3,4,5,6 0 1 2 3 4 5 6 7",
        27,
    )],
    strings: &[(
        26,
        &[
            "4956020405060051 0000000000000001 0000000000000000 06 0000000000000001 00000001 00000000 \
         0000000000000001 0000000000000002 0000000000000003 0000000000000004 \
         0000000000000005 0000000000000006 0000000000000000 0000000000000008",
        ],
    )],
    ..STORES
};

/// Node 6 asks first, and node 7 last.
static SEVEN_LAST: Run<'static> = Run {
    stages: &[(
        "7*2 0>1,0,7 7 1*3 3>0,1 6*3 5*3 4*3 3*3 2*3 0*3 7*3 6>1,1,1,1,1,1,1 5>7 13>1 \
         14>6 15>6,5,4,3,2,0 21>5,4,3,2,0,7 0 1 2 3 4 5 6 7",
        27,
    )],
    strings: &[(
        26,
        &[
            "4956020400070051 0000000000000002 0000000000000000 07 0000000000000002 00000001 00000000 \
         0000000000000001 0000000000000002 0000000000000003 0000000000000004 \
         0000000000000005 0000000000000006 0000000000000007 0000000000000000",
        ],
    )],
    ..STORES
};

#[test]
fn seven_requests_put_off(rt: HostRuntime) {
    check_run(&rt, &SEVEN_FIRST);
    check_run(&rt, &SEVEN_LAST);
}

/// Node 2 stores, and all others load the same word.
const ONE_STORES: &str = "node 0\nset r1 64\nload 8 r2 r1\nprint r2
node 1\nset r1 64\nload 8 r2 r1\nprint r2
node 2\nset r1 64\nset r2 3\nstore 8 r1 r2
node 3\nset r1 64\nload 8 r2 r1\nprint r2
node 4\nset r1 64\nload 8 r2 r1\nprint r2
node 5\nset r1 64\nload 8 r2 r1\nprint r2
node 6\nset r1 64\nload 8 r2 r1\nprint r2
node 7\nset r1 64\nload 8 r2 r1\nprint r2\n";

/// All but node 2 have loaded what it stored.
const LOADED: [Shown; 8] = [
    ended!(0, &[loaded!(0, 64, 3)], &[3]),
    ended!(1, &[loaded!(1, 64, 3)], &[3]),
    ended!(2, &[stored!(2, 64, 3)], &[]),
    ended!(3, &[loaded!(3, 64, 3)], &[3]),
    ended!(4, &[loaded!(4, 64, 3)], &[3]),
    ended!(5, &[loaded!(5, 64, 3)], &[3]),
    ended!(6, &[loaded!(6, 64, 3)], &[3]),
    ended!(7, &[loaded!(7, 64, 3)], &[3]),
];

/// While the page, string 2, is under way to node 2, all others ask for a copy, node 1 last, which manages the
/// page. So node 2 puts off seven requests, and then gives seven copies.
pub(crate) static PUT_OFF_WHILE_AWAITED: Run<'static> = Run {
    config: EIGHT,
    text: ONE_STORES,
    stages: &[(
        "2*3 0>1,0 0*3 3*3 4*3 5*3 6*3 7*3 3>1,1,1,1,1,1 1*3 9>2,2,2,2,2,2,2 2>2 \
         16>0,3,4,5,6,7,1 0 1 2 3 4 5 6 7 0 1 2 3 4 5 6 7",
        23,
    )],
    nodes: &LOADED,
    ..IDLE
};

#[test]
fn seven_requests_for_a_page_that_is_late(rt: HostRuntime) {
    check_run(&rt, &PUT_OFF_WHILE_AWAITED);
}
