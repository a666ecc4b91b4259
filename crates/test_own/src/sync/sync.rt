//! Locks, barriers, queues, reductions, broadcasts, and what is done once. The other nodes' calls are made by
//! hand, before those of the node that is tried.
use crate::sync::common::{expect_same, small};
use ivy_calls::{CallError, SharedMemory, advance_count, alloc, fetch_add, free, load, store};
use ivy_model::{Call, Fault};
use ivy_sync::{
    ArrayLock, Barrier, Broadcast, Lock, Once, Queue, Receiver, Reduction, Sender, SharedSender,
    SyncError, TicketLock, TreeBarrier, TreeReduction, WordBarrier, touch,
};
use std::process::Abort;

/// That nobody else would ever end this await.
fn unanswered(k: u64, least: u64) -> CallError {
    CallError::Fault {
        call: Call::Await { k, least },
        fault: Fault::TurnLimit,
    }
}

#[test]
fn a_lock(rt: HostRuntime) {
    let mut memory = small(&rt, rt.alloc());
    let lock = Lock { addr: 64 };
    for _ in 0..2 {
        expect_same(&rt, lock.acquire(&mut memory), Ok(()));
        expect_same(&rt, load(&mut memory, 64), Ok(1u64));
        expect_same(&rt, lock.release(&mut memory), Ok(()));
        expect_same(&rt, load(&mut memory, 64), Ok(0u64));
    }
    let misaligned = CallError::Refused {
        call: Call::Swap {
            width: 8,
            addr: 65,
            value: 1,
        },
        fault: Fault::Misaligned,
    };
    let nowhere = Lock { addr: 65 };
    expect_same(
        &rt,
        nowhere.acquire(&mut memory),
        Err(SyncError::Call(misaligned)),
    );
}

#[test]
fn a_lock_by_tickets(rt: HostRuntime) {
    let mut memory = small(&rt, rt.alloc());
    let lock = TicketLock { next: 64, turn: 3 };
    expect_same(&rt, lock.acquire(&mut memory), Ok(0));
    expect_same(&rt, lock.release(&mut memory), Ok(()));
    expect_same(&rt, lock.acquire(&mut memory), Ok(1));
    expect_same(&rt, lock.acquire(&mut memory), Err(unanswered(3, 2)));
}

#[test]
fn a_barrier_over_and_over(rt: HostRuntime) {
    let mut memory = small(&rt, rt.alloc());
    let mut barrier = Barrier {
        count: 1,
        nodes: 2,
        passed: 0,
    };
    for passed in [2, 4] {
        expect_same(&rt, advance_count(&mut memory, 1), Ok(()));
        expect_same(&rt, barrier.wait(&mut memory), Ok(()));
        expect_same(&rt, barrier.passed, passed);
    }
    expect_same(
        &rt,
        barrier.wait(&mut memory),
        Err(SyncError::Call(unanswered(1, 6))),
    );
    barrier.passed = u64::MAX;
    expect_same(
        &rt,
        barrier.wait(&mut memory),
        Err(SyncError::Spent { place: 1 }),
    );
}

#[test]
fn a_lock_with_places(rt: HostRuntime) {
    let mut memory = small(&rt, rt.alloc());
    let lock = ArrayLock {
        next: 64,
        places: 128,
        apart: 64,
        size: 2,
    };
    if !lock.has_places() {
        panic!(&rt; "it has places");
    }
    expect_same(&rt, lock.acquire(&mut memory), Ok(0));
    expect_same(&rt, lock.release(&mut memory, 0), Ok(()));
    expect_same(&rt, load(&mut memory, 192), Ok(1u64));
    expect_same(&rt, lock.acquire(&mut memory), Ok(1));
    expect_same(&rt, lock.release(&mut memory, 1), Ok(()));
    expect_same(&rt, load(&mut memory, 128), Ok(2u64));
    expect_same(&rt, load(&mut memory, 64), Ok(2u64));
    expect_same(
        &rt,
        lock.release(&mut memory, u64::MAX),
        Err(SyncError::Spent { place: 64 }),
    );
    let nowhere = ArrayLock { size: 0, ..lock };
    expect_same(&rt, nowhere.has_places(), false);
}

#[test]
fn a_barrier_by_two_words(rt: HostRuntime) {
    let mut memory = small(&rt, rt.alloc());
    let mut barrier = WordBarrier {
        arrived: 64,
        opened: 128,
        nodes: 2,
        passed: 0,
    };
    // who comes last opens it
    expect_same(&rt, fetch_add(&mut memory, 64, 1u64), Ok(0u64));
    expect_same(&rt, barrier.wait(&mut memory), Ok(()));
    expect_same(&rt, barrier.passed, 2);
    expect_same(&rt, load(&mut memory, 64), Ok(2u64));
    expect_same(&rt, load(&mut memory, 128), Ok(2u64));
    // and who comes first finds it open
    expect_same(&rt, store(&mut memory, 128, 4u64), Ok(()));
    expect_same(&rt, barrier.wait(&mut memory), Ok(()));
    expect_same(&rt, barrier.passed, 4);
    expect_same(&rt, load(&mut memory, 64), Ok(3u64));
    barrier.passed = u64::MAX;
    expect_same(
        &rt,
        barrier.wait(&mut memory),
        Err(SyncError::Spent { place: 64 }),
    );
}

/// A tree of seven, whose words follow one another.
const TREE: TreeBarrier = TreeBarrier {
    raised: 64,
    opened: 128,
    apart: 8,
    nodes: 7,
    passed: 0,
};

#[test]
fn a_barrier_by_a_tree(rt: HostRuntime) {
    let mut memory = small(&rt, rt.alloc());
    // node 1 has children 5 and 6, and node 0 the nodes 1 to 4
    for addr in [80, 88, 96, 104, 112] {
        expect_same(&rt, store(&mut memory, addr, 1u64), Ok(()));
    }
    expect_same(&rt, store(&mut memory, 128, 1u64), Ok(()));
    let mut child = TREE;
    expect_same(&rt, child.wait(&mut memory, 1), Ok(()));
    expect_same(&rt, load(&mut memory, 72), Ok(1u64));
    expect_same(&rt, load(&mut memory, 136), Ok(1u64));
    let mut root = TREE;
    expect_same(&rt, root.wait(&mut memory, 0), Ok(()));
    expect_same(&rt, load(&mut memory, 64), Ok(1u64));
    expect_same(&rt, (root.passed, child.passed), (1, 1));
    let mut spent = TreeBarrier {
        passed: u64::MAX,
        ..TREE
    };
    expect_same(
        &rt,
        spent.wait(&mut memory, 0),
        Err(SyncError::Spent { place: 64 }),
    );
}

/// The words of six nodes, four each: raised, opened, part and given.
const FOLD: TreeReduction = TreeReduction {
    tree: TreeBarrier {
        raised: 64,
        opened: 72,
        apart: 32,
        nodes: 6,
        passed: 0,
    },
    part: 80,
    given: 88,
};

#[test]
fn a_reduction_by_a_tree(rt: HostRuntime) {
    let mut memory = small(&rt, rt.alloc());
    // node 1 has child 5, which leaves 9, and node 0 the nodes 1 to 4
    for (addr, value) in [
        (240, 9u64),
        (224, 1),
        (144, 3),
        (128, 1),
        (176, 20),
        (160, 1),
    ] {
        expect_same(&rt, store(&mut memory, addr, value), Ok(()));
    }
    for (addr, value) in [(208, 7u64), (192, 1), (88, 50), (72, 1)] {
        expect_same(&rt, store(&mut memory, addr, value), Ok(()));
    }
    let mut child = FOLD;
    let given = child.fold(&mut memory, 1, 4, |most: u64, other: u64| most.max(other));
    expect_same(&rt, given, Ok(50));
    for (addr, wanted) in [(112, 9u64), (96, 1), (120, 50), (104, 1)] {
        expect_same(&rt, load(&mut memory, addr), Ok(wanted));
    }
    let mut root = FOLD;
    let given = root.fold(&mut memory, 0, 11, |most: u64, other: u64| most.max(other));
    expect_same(&rt, given, Ok(20));
    expect_same(&rt, load(&mut memory, 88), Ok(20u64));
    expect_same(&rt, (root.tree.passed, child.tree.passed), (1, 1));
}

#[test]
fn a_broadcast_by_a_tree(rt: HostRuntime) {
    let mut memory = small(&rt, rt.alloc());
    let mut alone = FOLD;
    alone.tree.nodes = 1;
    expect_same(&rt, alone.share(&mut memory, 0, 5), Ok(5));
    expect_same(&rt, alone.share(&mut memory, 0, 6), Ok(6));
    expect_same(&rt, load(&mut memory, 72), Ok(2u64));
    // node 5 has no child, and node 1 is its parent
    let mut leaf = FOLD;
    expect_same(&rt, store(&mut memory, 120, 8u64), Ok(()));
    expect_same(&rt, store(&mut memory, 104, 1u64), Ok(()));
    expect_same(&rt, leaf.share(&mut memory, 5, 4), Ok(8));
    expect_same(&rt, load(&mut memory, 248), Ok(8u64));
    leaf.tree.passed = u64::MAX;
    let spent = Err(SyncError::Spent { place: 64 });
    expect_same(&rt, leaf.share(&mut memory, 5, 4), spent);
}

#[test]
fn pages_that_are_touched(rt: HostRuntime) {
    let mut memory = small(&rt, rt.alloc());
    expect_same(&rt, store(&mut memory, 136, 5u64), Ok(()));
    expect_same(&rt, touch(&mut memory, 72, 3, 64), Ok(()));
    for (addr, wanted) in [(72, 0u64), (136, 5), (200, 0)] {
        expect_same(&rt, load(&mut memory, addr), Ok(wanted));
    }
    let past = CallError::Refused {
        call: Call::FetchAdd {
            width: 8,
            addr: 264,
            value: 0,
        },
        fault: Fault::OutOfRange,
    };
    expect_same(&rt, touch(&mut memory, 200, 2, 64), Err(past));
}

#[test]
fn a_sum_of_two(rt: HostRuntime) {
    let mut memory = small(&rt, rt.alloc());
    expect_same(&rt, store(&mut memory, 72, 5u64), Ok(()));
    expect_same(&rt, advance_count(&mut memory, 0), Ok(()));
    let barrier = Barrier {
        count: 0,
        nodes: 2,
        passed: 0,
    };
    let mut reduction = Reduction { addr: 64, barrier };
    let sum = reduction.fold(&mut memory, 0, 7, 0u64, |sum: u64, value: u64| {
        sum.wrapping_add(value)
    });
    expect_same(&rt, sum, Ok(12));
}

#[test]
fn a_broadcast(rt: HostRuntime) {
    let mut memory = small(&rt, rt.alloc());
    let barrier = Barrier {
        count: 2,
        nodes: 2,
        passed: 0,
    };
    let mut giver = Broadcast { addr: 64, barrier };
    let mut getter = giver;
    expect_same(&rt, advance_count(&mut memory, 2), Ok(()));
    expect_same(&rt, giver.give(&mut memory, 9), Ok(()));
    expect_same(&rt, getter.get(&mut memory), Ok(9));
}

/// That the values are sent one after another.
fn expect_sent<M: SharedMemory>(
    rt: &impl Abort,
    memory: &mut M,
    sender: &mut Sender,
    values: [u64; 2],
) {
    for value in values {
        assert!(rt; sender.queue.size == 2 && sender.queue.at == 64);
        expect_same(rt, sender.send(memory, value), Ok(()));
    }
}

/// That these values are taken.
fn expect_taken<M: SharedMemory>(
    rt: &impl Abort,
    memory: &mut M,
    receiver: &mut Receiver,
    values: [u64; 2],
) {
    for value in values {
        assert!(rt; receiver.queue.size == 2 && receiver.queue.at == 64);
        expect_same(rt, receiver.take(memory), Ok(value));
    }
}

#[test]
fn a_queue_of_two_places(rt: HostRuntime) {
    let mut memory = small(&rt, rt.alloc());
    let queue = Queue {
        at: 64,
        size: 2,
        sent: 4,
        taken: 5,
    };
    let mut sender = Sender { queue, next: 0 };
    let mut receiver = Receiver { queue, next: 0 };
    for values in [[11, 12], [13, 14]] {
        expect_sent(&rt, &mut memory, &mut sender, values);
        expect_taken(&rt, &mut memory, &mut receiver, values);
    }
    expect_same(&rt, (sender.next, receiver.next), (4, 4));
}

#[test]
fn a_queue_that_is_full_or_empty(rt: HostRuntime) {
    let mut memory = small(&rt, rt.alloc());
    let queue = Queue {
        at: 64,
        size: 1,
        sent: 4,
        taken: 5,
    };
    let mut sender = Sender { queue, next: 0 };
    let mut receiver = Receiver { queue, next: 0 };
    let empty = SyncError::Call(unanswered(4, 1));
    expect_same(&rt, receiver.take(&mut memory), Err(empty));
    expect_same(&rt, sender.send(&mut memory, 11), Ok(()));
    let mut full = Sender { queue, next: 1 };
    let no_room = SyncError::Call(unanswered(5, 1));
    expect_same(&rt, full.send(&mut memory, 12), Err(no_room));
    expect_same(&rt, full.next, 1);
}

/// That a value is sent by one of several senders.
fn expect_shared<M: SharedMemory>(
    rt: &impl Abort,
    memory: &mut M,
    sender: SharedSender,
    value: u64,
) {
    assert!(rt; sender.queue.has_place());
    expect_same(rt, sender.send(memory, value), Ok(()));
}

#[test]
fn a_queue_of_two_senders(rt: HostRuntime) {
    let mut memory = small(&rt, rt.alloc());
    let queue = Queue {
        at: 64,
        size: 2,
        sent: 4,
        taken: 5,
    };
    let lock = Lock { addr: 80 };
    let one = SharedSender { queue, lock };
    let other = one;
    let mut receiver = Receiver { queue, next: 0 };
    for values in [[11, 12], [13, 14]] {
        expect_shared(&rt, &mut memory, one, values[0]);
        expect_shared(&rt, &mut memory, other, values[1]);
        expect_taken(&rt, &mut memory, &mut receiver, values);
    }
    expect_same(&rt, load(&mut memory, 80), Ok(0u64));
}

#[test]
fn what_is_made_in_a_used_block(rt: HostRuntime) {
    let mut memory = small(&rt, rt.alloc());
    expect_same(&rt, alloc(&mut memory, 24), Ok(64));
    for addr in [64, 72, 80] {
        expect_same(&rt, store(&mut memory, addr, 7u64), Ok(()));
    }
    expect_same(&rt, free(&mut memory, 64), Ok(()));
    expect_same(&rt, Lock::alloc(&mut memory), Ok(Lock { addr: 64 }));
    expect_same(
        &rt,
        TicketLock::alloc(&mut memory, 3),
        Ok(TicketLock { next: 72, turn: 3 }),
    );
    expect_same(
        &rt,
        Once::alloc(&mut memory, 6),
        Ok(Once { word: 80, done: 6 }),
    );
    for addr in [64, 72, 80] {
        expect_same(&rt, load(&mut memory, addr), Ok(0u64));
    }
}

#[test]
fn what_is_made_of_several_words(rt: HostRuntime) {
    let mut memory = small(&rt, rt.alloc());
    let queue = Queue {
        at: 64,
        size: 3,
        sent: 1,
        taken: 2,
    };
    expect_same(&rt, Queue::alloc(&mut memory, 3, 1, 2), Ok(queue));
    expect_same(&rt, queue.has_place(), true);
    expect_same(&rt, Queue { size: 0, ..queue }.has_place(), false);
    let barrier = Barrier {
        count: 0,
        nodes: 4,
        passed: 0,
    };
    expect_same(
        &rt,
        Reduction::alloc(&mut memory, barrier),
        Ok(Reduction { addr: 88, barrier }),
    );
    expect_same(
        &rt,
        Broadcast::alloc(&mut memory, barrier),
        Ok(Broadcast { addr: 120, barrier }),
    );
}

#[test]
fn what_is_done_once(rt: HostRuntime) {
    let mut memory = small(&rt, rt.alloc());
    let once = Once { word: 64, done: 6 };
    expect_same(&rt, once.begin(&mut memory), Ok(true));
    expect_same(&rt, once.begin(&mut memory), Err(unanswered(6, 1)));
    expect_same(&rt, once.finish(&mut memory), Ok(()));
    expect_same(&rt, once.begin(&mut memory), Ok(false));
}

#[test]
fn texts_of_errors(rt: HostRuntime) {
    let texts = [
        (SyncError::Spent { place: 3 }, "3 is spent"),
        (
            SyncError::Call(unanswered(3, 2)),
            "Await { k: 3, least: 2 } was not answered: 21 TurnLimit",
        ),
    ];
    for (error, wanted) in texts {
        let text = format!(in rt.alloc(); "{error}").expect(&rt, "memory");
        assert_eq!(rt; text.as_str(), wanted);
    }
    expect_same(
        &rt,
        Fault::from(SyncError::Spent { place: 3 }),
        Fault::CountFull,
    );
}
