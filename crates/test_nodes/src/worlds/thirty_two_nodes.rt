//! As many nodes as there can be: all but one load the same word, and one of them stores to it.
use crate::common::{expect_same, expect_same_at};
use crate::worlds::common::{Shown, check_string, deliver, ended, loaded, play, shows, world};
use ivy_model::{Config, Kind};
use ivy_world::{Move, World};
use std::alloc::Allocator;
use std::process::Abort;

const THIRTY_TWO: Config = Config {
    nodes: 32,
    pages: 2,
    page_size: 64,
    manager: Kind::Dynamic,
};

/// The node that stores.
const WRITER: u8 = 31;

/// Nodes 1 to 31 load the word at 64, and the last of them stores 5 there.
fn readers<A: Allocator>(rt: &impl Abort, alloc: A) -> String<A> {
    let mut text = String::new(alloc);
    text.push_str("node 0\n").expect(rt, "memory");
    for node in 1..32 {
        write!(text, "node {node}\nset r1 64\nload 8 r2 r1\n").expect(rt, "memory");
    }
    text.push_str("set r3 5\nstore 8 r1 r3\n")
        .expect(rt, "memory");
    text
}

/// One node after another makes two turns, which ask for a copy of the page, and is given it.
fn all_load<A: Allocator + Copy>(rt: &impl Abort, world: &mut World<A>) {
    for node in 1..32u64 {
        let request = 2 * (node - 1);
        let moves = [
            Move::Turn(node),
            Move::Turn(node),
            deliver(request, 0),
            deliver(request + 1, node),
            Move::Turn(node),
        ];
        expect_same_at(rt, node, play(world, &moves), Ok(()));
    }
}

/// Node 31 asks for the page, is given it, and orders the 30 others to give their copies up. They do.
fn one_stores<A: Allocator + Copy>(rt: &impl Abort, world: &mut World<A>) {
    let last = u64::from(WRITER);
    let asks = [
        Move::Turn(last),
        Move::Turn(last),
        deliver(62, 0),
        deliver(63, last),
    ];
    expect_same(rt, play(world, &asks), Ok(()));
    for node in 1..last {
        expect_same_at(rt, node, play(world, &[deliver(63 + node, node)]), Ok(()));
    }
    for node in 1..last {
        expect_same_at(rt, node, play(world, &[deliver(93 + node, last)]), Ok(()));
    }
    expect_same(rt, play(world, &[Move::Turn(last)]), Ok(()));
}

/// That this string was sent, of words in which NN stands for the number of a node.
fn check_of_node<A: Allocator + Copy>(
    rt: &impl Abort,
    alloc: A,
    world: &World<A>,
    (index, node): (usize, u8),
    words: &str,
) {
    let number = format!(in alloc; "{node:02x}").expect(rt, "memory");
    let words = words
        .replace(alloc, "NN", number.as_str())
        .expect(rt, "memory");
    check_string(rt, alloc, world.sent(), index, words.as_str());
}

/// A node's request for a copy, to node 0, and the copy.
const LOAD_ASKS: &str =
    "49560201NN00000d 0000000000000001 0000000000000000 NN 0000000000000001 00000001";

const LOAD_GETS: &str =
    "4956020300NN004d 0000000000000001 0000000000000000 NN 0000000000000001 00000001 + 0";

/// The order to a node to give its copy up, and its acknowledgement.
const ORDERS: &str =
    "495602051fNN000d 0000000000000001 0000000000000000 1f 0000000000000002 00000001";

const GIVES_UP: &str =
    "49560206NN1f000d 0000000000000001 0000000000000000 1f 0000000000000002 00000001";

/// The request of the node that stores, and the page, which comes with the 30 nodes that have a copy too.
const ASKS: &str =
    "495602021f00000d 0000000000000002 0000000000000001 1f 0000000000000002 00000001";

const BRINGS: &str =
    "49560204001f0051 0000000000000002 0000000000000001 1f 0000000000000002 00000001 7ffffffe + 0";

/// The strings of the nodes' loads.
fn check_loads<A: Allocator + Copy>(rt: &impl Abort, alloc: A, world: &World<A>) {
    for node in 1..32u8 {
        let index = 2 * usize::from(node).saturating_sub(1);
        check_of_node(rt, alloc, world, (index, node), LOAD_ASKS);
        check_of_node(rt, alloc, world, (index + 1, node), LOAD_GETS);
    }
}

/// The orders to give the copies up, and what acknowledges them.
fn check_orders<A: Allocator + Copy>(rt: &impl Abort, alloc: A, world: &World<A>) {
    for node in 1..WRITER {
        let index = 63 + usize::from(node);
        check_of_node(rt, alloc, world, (index, node), ORDERS);
        check_of_node(rt, alloc, world, (index + 30, node), GIVES_UP);
    }
}

/// All strings, to the byte.
fn check_strings<A: Allocator + Copy>(rt: &impl Abort, alloc: A, world: &World<A>) {
    expect_same(rt, world.sent().len(), 124);
    check_loads(rt, alloc, world);
    check_string(rt, alloc, world.sent(), 62, ASKS);
    check_string(rt, alloc, world.sent(), 63, BRINGS);
    check_orders(rt, alloc, world);
}

/// What the node that stores shows.
static WRITER_SHOWN: Shown<'static> = ended!(
    31,
    &[loaded!(WRITER, 64, 0), stored!(WRITER, 64, 5)],
    &[]
);

/// What each node shows.
fn check_nodes<A: Allocator + Copy>(rt: &impl Abort, world: &World<A>) {
    for node in 1..WRITER {
        let answers = [loaded(node, 8, 64, 0)];
        let shown = ended(u64::from(node), &answers, &[]);
        expect_same_at(rt, node, shows(world, &shown), true);
    }
    expect_same(rt, shows(world, &WRITER_SHOWN), true);
}

fn check_world<A: Allocator + Copy>(rt: &impl Abort, alloc: A, world: &mut World<A>) {
    all_load(rt, world);
    expect_same(rt, world.sent().len(), 62);
    one_stores(rt, world);
    check_nodes(rt, world);
    check_strings(rt, alloc, world);
}

#[test]
fn thirty_two_readers(rt: HostRuntime) {
    let text = readers(&rt, rt.alloc());
    let mut world = world(&rt, rt.alloc(), THIRTY_TWO, text.as_str());
    check_world(&rt, rt.alloc(), &mut world);
}
