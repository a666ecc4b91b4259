//! Counts: nodes that advance them and wait for them. A count is a word of page 0, so a node reads and writes
//! it where it has that page, and faults for it as for any other.
use crate::common::{
    ADVANCE_ASKS, ADVANCE_GETS, COUNT_ASKS, COUNT_GETS, RETRY_ASKS, RETRY_GETS, STORE_ASKS,
    STORE_GETS,
};
use crate::worlds::common::{IDLE, Run, STUCK, Sent, Shown, check_run};
use ivy_model::{Call, Reply};
use test_support::NOTICE;

/// Node 0 asks for a copy of page 0 to await, and is given it.
const AWAIT_ASKS: &str =
    "495602010001000d 0000000000000003 0000000000000002 00 0000000000000001 00000000";

const AWAIT_GETS: &str =
    "495602030100004d 0000000000000003 0000000000000002 00 0000000000000001 00000000 + 1";

/// It asks for a copy of page 1 to load, and is given it.
const LOAD_ASKS: &str =
    "495602010001000d 0000000000000004 0000000000000003 00 0000000000000002 00000001";

const LOAD_GETS: &str =
    "495602030100004d 0000000000000004 0000000000000003 00 0000000000000002 00000001 + 9";

const NOTICE_SENT: Sent = (
    0,
    &[
        STORE_ASKS,
        STORE_GETS,
        ADVANCE_ASKS,
        ADVANCE_GETS,
        AWAIT_ASKS,
        AWAIT_GETS,
        LOAD_ASKS,
        LOAD_GETS,
    ],
);

/// What node 0 shows of the notice, and what node 1 does.
pub(crate) const NOTICED: Shown = ended!(0, &[awaited!(0, 1, 1), loaded!(0, 64, 9)], &[9]);

pub(crate) const GIVEN_NOTICE: Shown = ended!(1, &[stored!(1, 64, 9), advanced!(1)], &[]);

/// Node 1 goes to its end first.
const NOTICE_RUN: Run = Run {
    text: NOTICE,
    stages: &[("1*3 0>0,1 1*2 2>0,1 1 0*2 4>1,0 0*3 6>1,0 0*2", 8)],
    strings: &[NOTICE_SENT],
    nodes: &[NOTICED, GIVEN_NOTICE],
    ..IDLE
};

pub(crate) static NOTICE_ONCE: Run<'static> = NOTICE_RUN;

#[test]
fn store_then_advance(rt: HostRuntime) {
    check_run(&rt, &NOTICE_ONCE);
}

/// Each delivery is made three times in a row, and then each string comes once more, late.
static NOTICE_THRICE: Run<'static> = Run {
    stages: &[
        (
            "1*3 0>0 0>0 0>0 1>1 1>1 1>1 1*2 2>0 2>0 2>0 3>1 3>1 3>1 1 \
             0*2 4>1 4>1 4>1 5>0 5>0 5>0 0*3 6>1 6>1 6>1 7>0 7>0 7>0 0*2",
            8,
        ),
        ("0>0,1,0,1,1,0,1,0", 8),
    ],
    ..NOTICE_RUN
};

/// Repeats change nothing: the strings and the replies are the same.
#[test]
fn every_string_thrice(rt: HostRuntime) {
    check_run(&rt, &NOTICE_THRICE);
}

const WAITS: &str = "node 0
await r2 r0 r0
advance r0
set r1 1
await r2 r0 r1
set r1 2
await r2 r0 r1
print r2
node 1
";

static WAITS_RUN: Run<'static> = Run {
    text: WAITS,
    stages: &[("0*24", 0)],
    nodes: &[Shown {
        answers: &[awaited!(0, 0, 0), advanced!(0), awaited!(0, 1, 1)],
        ..STUCK
    }],
    ..IDLE
};

/// A count that is high enough is answered at once. The last await has no answer in any turn.
#[test]
fn await_that_waits(rt: HostRuntime) {
    check_run(&rt, &WAITS_RUN);
}

/// Pages of 64 bytes have the counts 0 to 7.
const NO_COUNT: &str = "node 0
set r1 8
set r2 5
count r2 r1
status r3
print r3
advance r1
await r2 r1 r0
status r3
print r3
print r2
set r1 7
count r2 r1
print r2
status r3
print r3
node 1
";

static NO_COUNT_RUN: Run<'static> = Run {
    text: NO_COUNT,
    stages: &[("0*15", 0)],
    nodes: &[ended!(
        0,
        &[
            refused!(0, Call::Count { k: 8 }, 6),
            refused!(0, Call::Advance { k: 8 }, 6),
            refused!(0, Call::Await { k: 8, least: 0 }, 6),
            answered!(0, Call::Count { k: 7 }, Reply::Value(0)),
        ],
        &[6, 6, 5, 0, 0]
    )],
    ..IDLE
};

#[test]
fn no_such_count(rt: HostRuntime) {
    check_run(&rt, &NO_COUNT_RUN);
}

const WIDTHS: &str = "node 0
set r1 64
set r2 258
store 1 r1 r2
load 2 r3 r1
print r3
load 8 r3 r1
print r3
node 1
";

static WIDTHS_RUN: Run<'static> = Run {
    text: WIDTHS,
    stages: &[("0*7", 0)],
    nodes: &[ended!(
        0,
        &[
            stored!(0, 1, 64, 258),
            loaded!(0, 2, 64, 512),
            loaded!(0, 64, 144_115_188_075_855_872),
        ],
        &[512, 144_115_188_075_855_872]
    )],
    ..IDLE
};

/// A store keeps the low bytes of its value, and the first byte of a word is its highest.
#[test]
fn big_endian_widths(rt: HostRuntime) {
    check_run(&rt, &WIDTHS_RUN);
}

/// Node 0 awaits both advances of node 1.
const WAKES: &str = "node 0
set r1 2
await r2 r0 r1
print r2
node 1
advance r0
advance r0
";

const WAKES_SENT: Sent = (
    0,
    &[
        COUNT_ASKS,
        COUNT_GETS,
        RETRY_ASKS,
        RETRY_GETS,
        "495602050100000d 0000000000000003 0000000000000002 01 0000000000000002 00000000",
        "495602060001000d 0000000000000003 0000000000000002 01 0000000000000002 00000000",
        "495602010001000d 0000000000000004 0000000000000003 00 0000000000000001 00000000",
        "495602030100004d 0000000000000004 0000000000000003 00 0000000000000001 00000000 + 2",
    ],
);

/// The await begins while page 0 is still at node 0, is tried again on a copy after the first advance, and again
/// after the second, which ended that copy.
static WAKES_RUN: Run<'static> = Run {
    text: WAKES,
    stages: &[("0*2 1 0>0,1 0 1 2>1,0 0 1 4>0,1 1 0 6>1,0 0*2", 8)],
    strings: &[WAKES_SENT],
    nodes: &[
        ended!(0, &[awaited!(0, 2, 2)], &[2]),
        ended!(1, &[advanced!(1), advanced!(1)], &[]),
    ],
    ..IDLE
};

/// Each time the await asks for a copy it is call 1 of node 0.
#[test]
fn await_tried_again(rt: HostRuntime) {
    check_run(&rt, &WAKES_RUN);
}
