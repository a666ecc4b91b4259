//! Calls of own code at a node of a world that are made together: which begin and wait, and where none does.
use crate::common::{PAIR, Refusable, expect_same, expect_same_at, met, refuse_each};
use crate::worlds::common::world;
use ivy_model::{Call, Fault, Record, Row};
use ivy_world::{Rest, World};
use std::alloc::{Allocator, Global};
use std::process::Abort;
use test_support::{Failing, LOADS};

/// What a node is asked to do with words in a row.
#[derive(Clone, Copy)]
struct Block<'a> {
    node: u64,
    kind: Row,
    addr: u64,
    words: usize,
    bytes: &'a [u8],
}

/// The numbers 1 to 4, the highest byte of each first.
const FOUR: [u8; 32] = [
    0, 0, 0, 0, 0, 0, 0, 1, 0, 0, 0, 0, 0, 0, 0, 2, 0, 0, 0, 0, 0, 0, 0, 3, 0, 0, 0, 0, 0, 0, 0, 4,
];

/// Node 1 stores four words from 104 on, of which the last one would lie behind the page.
const STORES: Block = Block {
    node: 1,
    kind: Row::Stores,
    addr: 104,
    words: 4,
    bytes: &FOUR,
};

const STORED: [Record; 3] = [stored!(1, 104, 1), stored!(1, 112, 2), stored!(1, 120, 3)];

/// Node 0 loads two of them, though it has bytes for four.
const LOADS_TWO: Block = Block {
    node: 0,
    kind: Row::Loads,
    addr: 104,
    words: 2,
    bytes: &FOUR,
};

const LOADED: [Record; 2] = [loaded!(0, 104, 1), loaded!(0, 112, 2)];

/// Own code at the node makes those calls together. Of all that is promised of it, callers need nothing.
fn begin<A: Allocator + Copy>(
    rt: &impl Abort,
    world: &mut World<A>,
    block: &Block,
) -> Result<usize, Fault> {
    assert!(rt; block.node < world.nodes());
    world.hand_block(block.node, block.kind, block.addr, block.words, block.bytes)
}

/// The call that a node has in progress, whether no other was made along with it, how many calls were answered, and how
/// many strings were ever sent.
type Told = (Option<Call>, bool, usize, usize);

fn told<A: Allocator + Copy>(rt: &impl Abort, world: &World<A>, node: u64) -> Told {
    assert!(rt; node < world.nodes());
    (
        world.asked(node),
        world.is_alone(node),
        world.history(node).len(),
        world.sent().len(),
    )
}

/// The world comes to rest, and the node was answered this.
fn expect_answered<A: Allocator + Copy>(
    rt: &impl Abort,
    world: &mut World<A>,
    node: u64,
    answers: &[Record],
) {
    expect_same(rt, world.settle(100), Ok(Rest::Still));
    assert!(rt; node < world.nodes());
    expect_same(rt, world.history(node), answers);
}

/// The first call is in progress, and asks for the page. The replies come one after another.
#[test]
fn blocks_that_wait(rt: HostRuntime) {
    let mut world = World::open(rt.alloc(), PAIR).expect(&rt, "a world");
    expect_same(&rt, begin(&rt, &mut world, &STORES), Ok(3));
    let first = Some(STORED[0].call);
    expect_same(&rt, told(&rt, &world, 1), (first, false, 0, 1));
    expect_answered(&rt, &mut world, 1, &STORED);
    expect_same(&rt, begin(&rt, &mut world, &LOADS_TWO), Ok(2));
    let first = Some(LOADED[0].call);
    expect_same(&rt, told(&rt, &world, 0), (first, false, 0, 3));
    expect_answered(&rt, &mut world, 0, &LOADED);
}

/// Blocks of which no call begins, where node 1 has the page.
const NONE: [Block; 7] = [
    // the page is there
    STORES,
    // no word of the heap: between two words, in page 0, and behind the last page
    Block {
        addr: 108,
        ..LOADS_TWO
    },
    Block {
        addr: 8,
        ..LOADS_TWO
    },
    Block {
        addr: 128,
        ..LOADS_TWO
    },
    // the last address would be above the greatest one
    Block {
        addr: 18_446_744_073_709_551_608,
        ..LOADS_TWO
    },
    // none is wanted, and the bytes are less than a word
    Block {
        words: 0,
        ..LOADS_TWO
    },
    Block {
        bytes: &[0; 7],
        ..LOADS_TWO
    },
];

/// No call of a block begins, and nothing was done.
fn expect_none<A: Allocator + Copy>(rt: &impl Abort, world: &mut World<A>, block: &Block) {
    let before = told(rt, world, block.node);
    let words = (block.words, block.bytes.len());
    expect_same_at(
        rt,
        block.addr,
        (words, begin(rt, world, block)),
        (words, Ok(0)),
    );
    expect_same_at(rt, block.addr, told(rt, world, block.node), before);
}

/// Where the first word need not wait there is nothing to begin.
#[test]
fn blocks_of_no_call(rt: HostRuntime) {
    let mut world = World::open(rt.alloc(), PAIR).expect(&rt, "a world");
    expect_same(&rt, begin(&rt, &mut world, &STORES), Ok(3));
    expect_answered(&rt, &mut world, 1, &STORED);
    for block in &NONE {
        expect_none(&rt, &mut world, block);
    }
}

/// A call before has no reply, and then a node whose program is given, so that it has no own code.
#[test]
fn blocks_at_nodes_that_may_make_no_call(rt: HostRuntime) {
    let mut open = World::open(rt.alloc(), PAIR).expect(&rt, "a world");
    expect_same(&rt, begin(&rt, &mut open, &STORES), Ok(3));
    expect_none(&rt, &mut open, &STORES);
    let mut given = world(&rt, rt.alloc(), PAIR, LOADS);
    expect_none(&rt, &mut given, &STORES);
}

impl Refusable for Block<'_> {
    /// Makes the block of three calls with the n-th growth refused, and once more where that was asked for.
    fn is_met(&self, rt: &impl Abort, memory: &Failing<Global>, n: u64) -> bool {
        let mut world = World::open(memory, PAIR).expect(rt, "a world");
        memory.refuse(n);
        let begun = begin(rt, &mut world, self);
        let met = met(memory, n);
        if met {
            expect_same_at(rt, n, begun, Err(Fault::Memory));
            expect_same_at(rt, n, told(rt, &world, 1), (None, true, 0, 0));
            expect_same_at(rt, n, begin(rt, &mut world, self), Ok(3));
        } else {
            expect_same_at(rt, n, begun, Ok(3));
        }
        expect_answered(rt, &mut world, 1, &STORED);
        met
    }
}

/// Each growth refused in turn, until one is not asked for. A refused block changes nothing, and can be made again.
#[test]
fn blocks_without_memory(rt: HostRuntime) {
    refuse_each(&rt, &STORES);
}
