//! Whole programs. The other nodes run before the one that is tried, or their calls are made by hand.
use crate::sync::common::{AsNode, expect_same, small};
use example_programs::{
    AddsUp, Farm, Herald, Highest, HighestByTree, InOrder, Pipeline, Product, Stage, TreeRing,
    WordRing,
};
use ivy_calls::{SharedMemory, Work, advance_count, fetch_add, store};
use ivy_sync::{
    ArrayLock, Barrier, Lock, Queue, Reduction, TreeBarrier, TreeReduction, WordBarrier,
};
use std::process::Abort;
use std::test::Fail;

/// That a node of the program gives this. It gives the memory on.
fn expect_given<W: Work<Out = u64>, M: SharedMemory>(
    rt: &(impl Abort + Alloc),
    work: &W,
    me: u8,
    memory: M,
    wanted: u64,
) -> M {
    let mut node = AsNode::new(rt.alloc(), memory);
    expect_same(rt, work.work(me, &mut node), Ok(wanted));
    node.into_memory()
}

/// That a node of the program gives this list. It gives the memory on.
fn expect_listed<W: Work<Out = Vec<u64>>, M: SharedMemory>(
    rt: &(impl Abort + Alloc),
    work: &W,
    me: u8,
    memory: M,
    wanted: &[u64],
) -> M {
    let mut node = AsNode::new(rt.alloc(), memory);
    let given = work.work(me, &mut node).expect(rt, "a list");
    assert_eq!(rt; given.as_slice(), wanted);
    node.into_memory()
}

/// A barrier of two at eventcount 0.
const TWO: Barrier = Barrier {
    count: 0,
    nodes: 2,
    passed: 0,
};

#[test]
fn two_add_up(rt: HostRuntime) {
    let mut memory = small(&rt, rt.alloc());
    let work = AddsUp {
        lock: Lock { addr: 64 },
        sum: 72,
        barrier: TWO,
    };
    expect_same(&rt, store(&mut memory, 72, 5u64), Ok(()));
    expect_same(&rt, advance_count(&mut memory, 0), Ok(()));
    let memory = expect_given(&rt, &work, 1, memory, 6);
    let _memory = expect_given(&rt, &work, 0, memory, 6);
}

#[test]
fn jobs_are_shared_out(rt: HostRuntime) {
    let mut memory = small(&rt, rt.alloc());
    let work = Farm {
        next: 64,
        jobs: 3,
        alloc: rt.alloc(),
    };
    expect_same(&rt, store(&mut memory, 64, 1u64), Ok(()));
    let memory = expect_listed(&rt, &work, 0, memory, &[1, 2]);
    let _memory = expect_listed(&rt, &work, 1, memory, &[]);
}

/// Three times a number and one, modulo 2^64.
#[derive(Drop)]
struct TripledAndOne;

impl Stage for TripledAndOne {
    ghost use Rattle.std.specs.Prelude.{◌+◌, ◌*◌, ◌%◌, ◌^◌};

    ghost gives = { λ _ n. (n * 3 % 2 ^ 64 + 1) % 2 ^ 64 };

    fn apply(&self, number: u64) -> u64 {
        number.wrapping_mul(3).wrapping_add(1)
    }
}

#[test]
fn three_stages(rt: HostRuntime) -> Result<(), Fail> {
    let memory = small(&rt, rt.alloc());
    let work = Pipeline {
        values: vec![in rt.alloc(); 7, 0, u64::MAX]?,
        stage: TripledAndOne,
        first: Queue {
            at: 64,
            size: 3,
            sent: 1,
            taken: 2,
        },
        second: Queue {
            at: 88,
            size: 4,
            sent: 3,
            taken: 4,
        },
        alloc: rt.alloc(),
    };
    let memory = expect_listed(&rt, &work, 0, memory, &[]);
    let memory = expect_listed(&rt, &work, 3, memory, &[]);
    let memory = expect_listed(&rt, &work, 1, memory, &[]);
    let _memory = expect_listed(&rt, &work, 2, memory, &[22, 1, 18446744073709551614]);
    Ok(())
}

#[test]
fn two_rows_of_a_product(rt: HostRuntime) -> Result<(), Fail> {
    let mut memory = small(&rt, rt.alloc());
    let work = Product {
        left: vec![in rt.alloc(); 1, 2, 3, 4]?,
        right: vec![in rt.alloc(); 5, 6, 7, 8]?,
        addr: 64,
        barrier: TWO,
        alloc: rt.alloc(),
    };
    expect_same(&rt, store(&mut memory, 64, 5u64), Ok(()));
    expect_same(&rt, store(&mut memory, 72, 6u64), Ok(()));
    expect_same(&rt, advance_count(&mut memory, 0), Ok(()));
    let memory = expect_listed(&rt, &work, 1, memory, &[43, 50]);
    let _memory = expect_listed(&rt, &work, 0, memory, &[19, 22]);
    Ok(())
}

#[test]
fn the_next_one_in_a_ring(rt: HostRuntime) {
    let mut memory = small(&rt, rt.alloc());
    let work = WordRing {
        addr: 64,
        barrier: WordBarrier {
            arrived: 128,
            opened: 192,
            nodes: 2,
            passed: 0,
        },
    };
    // node 0 has stored its number and 1, and is the first to come
    expect_same(&rt, store(&mut memory, 64, 1u64), Ok(()));
    expect_same(&rt, fetch_add(&mut memory, 128, 1u64), Ok(0u64));
    let _memory = expect_given(&rt, &work, 1, memory, 1);
}

#[test]
fn the_next_one_by_a_tree(rt: HostRuntime) {
    let mut memory = small(&rt, rt.alloc());
    let work = TreeRing {
        addr: 64,
        barrier: TreeBarrier {
            raised: 128,
            opened: 192,
            apart: 8,
            nodes: 2,
            passed: 0,
        },
    };
    // node 1 has stored its number and 1, and raised its word
    expect_same(&rt, store(&mut memory, 72, 2u64), Ok(()));
    expect_same(&rt, store(&mut memory, 136, 1u64), Ok(()));
    let _memory = expect_given(&rt, &work, 0, memory, 2);
}

#[test]
fn two_are_counted(rt: HostRuntime) {
    let memory = small(&rt, rt.alloc());
    let work = InOrder {
        lock: ArrayLock {
            next: 64,
            places: 128,
            apart: 64,
            size: 2,
        },
        count: 72,
    };
    let memory = expect_given(&rt, &work, 1, memory, 0);
    let _memory = expect_given(&rt, &work, 0, memory, 1);
}

#[test]
fn the_highest_of_two(rt: HostRuntime) {
    let mut memory = small(&rt, rt.alloc());
    let mut bids = [0; 32];
    bids[0] = 7;
    bids[1] = 5;
    let work = Highest {
        bids,
        reduction: Reduction {
            addr: 64,
            barrier: TWO,
        },
    };
    // node 1 has bid, and is there
    expect_same(&rt, store(&mut memory, 72, 5u64), Ok(()));
    expect_same(&rt, advance_count(&mut memory, 0), Ok(()));
    let _memory = expect_given(&rt, &work, 0, memory, 7);
}

/// The words of two nodes, four each.
const BOTH: TreeReduction = TreeReduction {
    tree: TreeBarrier {
        raised: 64,
        opened: 72,
        apart: 32,
        nodes: 2,
        passed: 0,
    },
    part: 80,
    given: 88,
};

#[test]
fn the_higher_by_a_tree(rt: HostRuntime) {
    let mut memory = small(&rt, rt.alloc());
    let mut bids = [0; 32];
    bids[0] = 5;
    bids[1] = 7;
    let work = HighestByTree {
        bids,
        reduction: BOTH,
    };
    // node 1 has bid
    expect_same(&rt, store(&mut memory, 112, 7u64), Ok(()));
    expect_same(&rt, store(&mut memory, 96, 1u64), Ok(()));
    let _memory = expect_given(&rt, &work, 0, memory, 7);
}

#[test]
fn what_node_0_tells(rt: HostRuntime) {
    let mut memory = small(&rt, rt.alloc());
    let mut numbers = [0; 32];
    numbers[1] = 4;
    let work = Herald {
        numbers,
        reduction: BOTH,
    };
    // node 0 has told 9
    expect_same(&rt, store(&mut memory, 88, 9u64), Ok(()));
    expect_same(&rt, store(&mut memory, 72, 1u64), Ok(()));
    let _memory = expect_given(&rt, &work, 1, memory, 9);
}
