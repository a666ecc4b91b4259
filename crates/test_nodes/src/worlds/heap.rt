//! Blocks: calls of the heap, which node 0 serves at once and any other node asks node 0 for.
use crate::common::{ALLOC_ASKS, ALLOC_GETS, PAIR, expect_same};
use crate::worlds::common::{IDLE, Run, STUCK, Sent, Shown, Stage, check_run};
use ivy_model::{Call, Record, Reply, check_order};
use std::alloc::Allocator;
use std::process::Abort;

/// A block that is given at an address, in the value of a constant.
macro_rules! allocated {
    ($node:expr, $size:expr, $addr:expr) => {
        answered!($node, Call::Alloc { size: $size }, Reply::Value($addr))
    };
}

/// The eight calls, after four turns and before six.
const CALLS: &str = "set r1 64
set r2 1
set r3 3
set r4 18446744073709551615
alloc r5 r1
alloc r6 r2
free r5
free r5
alloc r6 r2
alloc r7 r3
alloc r8 r0
alloc r8 r4
status r9
print r5
print r6
print r7
print r8
print r9
";

/// What they are answered: one block fills the heap, and each ended block has room again.
macro_rules! answers {
    ($node:expr) => {
        [
            allocated!($node, 64, 64),
            refused!($node, Call::Alloc { size: 1 }, 9),
            answered!($node, Call::Free { addr: 64 }, Reply::Done),
            refused!($node, Call::Free { addr: 64 }, 10),
            allocated!($node, 1, 64),
            allocated!($node, 3, 72),
            refused!($node, Call::Alloc { size: 0 }, 8),
            refused!($node, Call::Alloc { size: u64::MAX }, 9),
        ]
    };
}

/// The registers, of which a refused call leaves its own as it was, and the last refusal.
const PRINTED: [u64; 5] = [64, 64, 72, 0, 9];

/// Node 0 sends nothing.
#[test]
fn calls_of_node_0(rt: HostRuntime) {
    let text = format!(in rt.alloc(); "node 0\n{CALLS}node 1\n").expect(&rt, "memory");
    let run = Run {
        text: text.as_str(),
        ..NODE_0_CALLS
    };
    check_run(&rt, &run);
}

static NODE_0_CALLS: Run<'static> = Run {
    stages: &[("0*18", 0)],
    nodes: &[ended!(0, &answers!(0), &PRINTED)],
    ..IDLE
};

/// The programs where node 1 makes the calls.
pub(crate) fn asking_text<A: Allocator + Copy>(rt: &impl Abort, alloc: A) -> String<A> {
    format!(in alloc; "node 0\nnode 1\n{CALLS}").expect(rt, "memory")
}

/// Each of its calls is a string to node 0, and one back.
pub(crate) const ASKING: Stage = (
    "1*5 0>0,1 1*2 2>0,1 1*2 4>0,1 1*2 6>0,1 1*2 8>0,1 1*2 10>0,1 1*2 12>0,1 1*2 14>0,1 1*7",
    16,
);

/// Each string of its calls once more, late.
const ASKING_AGAIN: Stage = ("0>0,1,0,1,0,1,0,1,0,1,0,1,0,1,0,1", 16);

const ASKING_KINDS: &str =
    "AllocReq:1>0 AllocRep:0>1 AllocReq:1>0 AllocRep:0>1 FreeReq:1>0 FreeRep:0>1 FreeReq:1>0 \
    FreeRep:0>1 AllocReq:1>0 AllocRep:0>1 AllocReq:1>0 AllocRep:0>1 AllocReq:1>0 \
    AllocRep:0>1 AllocReq:1>0 AllocRep:0>1";

/// The answer to the second call, the third call and its answer, the answer to the fourth, and the seventh call, of
/// no bytes.
const ASKING_SENT: [Sent; 3] = [
    (
        3,
        &[
            "4956020800010012 0000000000000002 0000000000000001 01 0000000000000002 09 \
        0000000000000000",
            "4956020901000011 0000000000000003 0000000000000002 01 0000000000000003 \
        0000000000000040",
            "4956020a0001000a 0000000000000003 0000000000000002 01 0000000000000003 00",
        ],
    ),
    (
        7,
        &["4956020a0001000a 0000000000000004 0000000000000003 01 0000000000000004 0a"],
    ),
    (
        12,
        &[
            "4956020701000011 0000000000000007 0000000000000006 01 0000000000000007 \
        0000000000000000",
        ],
    ),
];

/// Node 1 is answered as node 0 is. A call that comes again is not served again.
#[test]
fn calls_of_node_1(rt: HostRuntime) {
    let text = asking_text(&rt, rt.alloc());
    let run = Run {
        text: text.as_str(),
        ..NODE_1_ASKS
    };
    check_run(&rt, &run);
}

static NODE_1_ASKS: Run<'static> = Run {
    stages: &[ASKING, ASKING_AGAIN],
    kinds: ASKING_KINDS,
    strings: &ASKING_SENT,
    nodes: &[ended!(0, &[], &[]), ended!(1, &answers!(1), &PRINTED)],
    ..IDLE
};

static ALLOC_RUN: Run<'static> = Run {
    text: "node 0\nnode 1\nset r1 8\nalloc r2 r1\nprint r2\n",
    stages: &[("1*2 0>0,1 1*2", 2)],
    strings: &[(0, &[ALLOC_ASKS, ALLOC_GETS])],
    nodes: &[ended!(1, &[EIGHT_AT_64], &[64])],
    ..IDLE
};

#[test]
fn remote_alloc(rt: HostRuntime) {
    check_run(&rt, &ALLOC_RUN);
}

/// Node 0 serves the call of node 1, and then its own.
const SERVED: Stage = ("1*2 0>0 0*2", 2);

/// Both nodes ask for eight bytes.
const BOTH: &str = "node 0
set r1 8
alloc r2 r1
node 1
set r1 8
alloc r2 r1
";

/// Eight bytes at 64 for node 1, and behind them eight for node 0.
const EIGHT_AT_64: Record = answered!(1, Call::Alloc { size: 8 }, Reply::Value(64));

const EIGHT_AT_72: Record = answered!(0, Call::Alloc { size: 8 }, Reply::Value(72));

static IN_PROGRESS: Run<'static> = Run {
    text: BOTH,
    stages: &[SERVED],
    nodes: &[ended!(0, &[EIGHT_AT_72], &[]), Shown { node: 1, ..STUCK }],
    ..IDLE
};

/// Whether these records explain what both nodes were answered, in this order.
fn explains(rt: &(impl Abort + AllocGlobal), order: &[Record]) -> bool {
    PAIR.check().expect(rt, "a configuration");
    check_order(rt.alloc(), &PAIR, order).expect(rt, "memory")
}

/// Node 0 is answered as if node 1, which has no reply yet, had been answered before.
#[test]
fn alloc_in_progress(rt: HostRuntime) {
    check_run(&rt, &IN_PROGRESS);
    expect_same(&rt, explains(&rt, &[EIGHT_AT_64, EIGHT_AT_72]), true);
    expect_same(&rt, explains(&rt, &[EIGHT_AT_72]), false);
}

/// Then the reply to node 1 comes.
static ANSWERED_LATER: Run<'static> = Run {
    text: BOTH,
    stages: &[SERVED, ("1>1 1", 2)],
    nodes: &[
        ended!(0, &[EIGHT_AT_72], &[]),
        ended!(1, &[EIGHT_AT_64], &[]),
    ],
    ..IDLE
};

/// Once that reply comes, node 1 is answered, too.
#[test]
fn alloc_answered_later(rt: HostRuntime) {
    check_run(&rt, &ANSWERED_LATER);
}
