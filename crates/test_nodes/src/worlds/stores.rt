//! Stores: to a page that the node owns, to one that others have copies of, and by several nodes at once.
use crate::common::{PAIR, TRIO};
use crate::worlds::common::{IDLE, Run, STUCK, Sent, Shown, Stage, check_run};
use ivy_model::{Call, Config, Record};

/// Each instruction of node 0 takes one turn, since node 0 owns every page.
const LOCAL: &str = "node 0
set r1 64
set r2 7
store 8 r1 r2
load 8 r3 r1
set r2 258
store 1 r1 r2
load 2 r3 r1
load 8 r3 r1
set r1 121
store 8 r1 r2
set r1 128
store 1 r1 r2
set r1 0
store 1 r1 r2
set r1 129
store 8 r1 r2
print r3
node 1
";

/// A store of 258, in the value of a constant.
macro_rules! storing {
    ($width:expr, $addr:expr) => {
        Call::Store {
            width: $width,
            addr: $addr,
            value: 258,
        }
    };
}

const LOCAL_ANSWERS: [Record; 9] = [
    stored!(0, 64, 7),
    loaded!(0, 64, 7),
    stored!(0, 1, 64, 258),
    loaded!(0, 2, 64, 512),
    loaded!(0, 64, 144_115_188_075_855_879),
    refused!(0, storing!(8, 121), 3),
    refused!(0, storing!(1, 128), 4),
    refused!(0, storing!(1, 0), 5),
    refused!(0, storing!(8, 129), 3),
];

static LOCAL_RUN: Run<'static> = Run {
    text: LOCAL,
    stages: &[("0*17", 0)],
    nodes: &[ended!(0, &LOCAL_ANSWERS, &[144_115_188_075_855_879])],
    ..IDLE
};

#[test]
fn local_stores(rt: HostRuntime) {
    check_run(&rt, &LOCAL_RUN);
}

/// Node 2 loads a word that node 1 stores.
const LATE: &str = "node 0
node 1
set r1 64
set r2 5
store 8 r1 r2
node 2
set r1 64
load 8 r3 r1
print r3
";

/// The copy for node 2, string 2, is held back until the message that is to end it came. Then it comes, and last the
/// acknowledgement.
const LATE_FIRST: Stage = ("2*2 0>1,0 1*3 3>0,1,2", 6);

const LATE_COPY: Stage = ("2>2 1", 7);

const LATE_LAST: Stage = ("6>1 1 2*2", 7);

const LATE_SENT: Sent = (
    0,
    &[
        "495602010201000d 0000000000000001 0000000000000000 02 0000000000000001 00000001",
        "495602010100000d 0000000000000001 0000000000000000 02 0000000000000001 00000001",
        "495602030002004d 0000000000000001 0000000000000000 02 0000000000000001 00000001 + 0",
        "495602020100000d 0000000000000002 0000000000000000 01 0000000000000001 00000001",
        "4956020400010051 0000000000000001 0000000000000001 01 0000000000000001 00000001 00000004 + 0",
        "495602050102000d 0000000000000001 0000000000000001 01 0000000000000001 00000001",
        "495602060201000d 0000000000000002 0000000000000001 01 0000000000000001 00000001",
    ],
);

pub(crate) static LATE_RUN: Run<'static> = Run {
    config: TRIO,
    text: LATE,
    stages: &[LATE_FIRST, LATE_COPY, LATE_LAST],
    strings: &[LATE_SENT],
    nodes: &[
        ended!(1, &[stored!(1, 64, 5)], &[]),
        ended!(2, &[loaded!(2, 64, 0)], &[0]),
    ],
    ..IDLE
};

/// The copy for node 2 is late: the message that is to end it comes first, and waits for it.
#[test]
fn late_read_page(rt: HostRuntime) {
    check_run(&rt, &LATE_RUN);
}

static WAITING_RUN: Run<'static> = Run {
    config: TRIO,
    text: LATE,
    stages: &[LATE_FIRST, LATE_COPY],
    nodes: &[Shown { node: 1, ..STUCK }],
    ..IDLE
};

/// The store has no answer before the last acknowledgement.
#[test]
fn store_that_waits(rt: HostRuntime) {
    check_run(&rt, &WAITING_RUN);
}

/// Both nodes hold a copy, and then both store.
const UPGRADE_OF_TWO: &str = "node 0
set r1 64
load 8 r3 r1
set r2 11
store 8 r1 r2
load 8 r3 r1
print r3
node 1
set r1 64
load 8 r3 r1
set r2 22
store 8 r1 r2
load 8 r3 r1
print r3
";

/// The page as it comes to node 1.
const UPGRADE_OF_TWO_SENT: Sent = (
    5,
    &[
        "4956020400010051 0000000000000003 0000000000000002 01 0000000000000002 00000001 00000000 + 11",
    ],
);

/// Both stores begin before either node hears of the other's.
pub(crate) static UPGRADE_OF_TWO_RUN: Run<'static> = Run {
    text: UPGRADE_OF_TWO,
    stages: &[("1*2 0>0,1 1 0*4 1*2 3>0 2>1 4>0,1 1*3 0*2 6>1,0 0*2", 8)],
    kinds: "ReadReq:1>0 ReadRep:0>1 Inval:0>1 WriteReq:1>0 InvalAck:1>0 WriteRep:0>1 ReadReq:0>1 \
    ReadRep:1>0",
    strings: &[UPGRADE_OF_TWO_SENT],
    nodes: &[
        ended!(
            0,
            &[loaded!(0, 64, 0), stored!(0, 64, 11), loaded!(0, 64, 22)],
            &[22]
        ),
        ended!(
            1,
            &[loaded!(1, 64, 0), stored!(1, 64, 22), loaded!(1, 64, 22)],
            &[22]
        ),
    ],
    ..IDLE
};

/// Node 1 gives up its copy while it waits for the page, which comes with what node 0 stored.
#[test]
fn upgrade_race_of_two(rt: HostRuntime) {
    check_run(&rt, &UPGRADE_OF_TWO_RUN);
}

/// Node 0 loads last what two nodes stored, which both held a copy before.
pub(crate) const UPGRADE_OF_THREE: &str = "node 0
set r1 64
load 8 r3 r1
print r3
node 1
set r1 64
load 8 r3 r1
set r2 11
store 8 r1 r2
node 2
set r1 64
load 8 r3 r1
set r2 22
store 8 r1 r2
";

/// The page as it comes to node 1 and then to node 2.
const UPGRADE_OF_THREE_SENT: [Sent; 2] = [
    (
        7,
        &[
            "4956020400010051 0000000000000002 0000000000000002 01 0000000000000002 00000001 00000004 + 0",
        ],
    ),
    (
        10,
        &[
            "4956020401020051 0000000000000002 0000000000000002 02 0000000000000002 00000001 00000000 + 11",
        ],
    ),
];

/// Both nodes store over the copy that they loaded from, and node 2 is the last.
pub(crate) const UPGRADE_SHOWN: [Shown; 3] = [
    ended!(0, &[loaded!(0, 64, 22)], &[22]),
    ended!(1, &[loaded!(1, 64, 0), stored!(1, 64, 11)], &[]),
    ended!(2, &[loaded!(2, 64, 0), stored!(2, 64, 22)], &[]),
];

/// Both stores begin before either request comes to node 0, which owns the page.
pub(crate) static UPGRADE_OF_THREE_RUN: Run<'static> = Run {
    config: TRIO,
    text: UPGRADE_OF_THREE,
    stages: &[(
        "1*2 0>0,1 1 2*2 2>1,0,2 2 1*2 2*2 5>0,1,1,2,1,2 1 2 0*2 11>1,2,0 0*2",
        14,
    )],
    kinds: "ReadReq:1>0 ReadRep:0>1 ReadReq:2>1 ReadReq:1>0 ReadRep:0>2 WriteReq:1>0 WriteReq:2>1 \
    WriteRep:0>1 Inval:1>2 InvalAck:2>1 WriteRep:1>2 ReadReq:0>1 ReadReq:1>2 ReadRep:2>0",
    strings: &UPGRADE_OF_THREE_SENT,
    nodes: &UPGRADE_SHOWN,
};

#[test]
fn upgrade_race_of_three(rt: HostRuntime) {
    check_run(&rt, &UPGRADE_OF_THREE_RUN);
}

/// Each node stores to its own word and then loads the other's. Node 0 manages the page of 128, node 1 that
/// of 64.
const BUFFERING: &str = "node 0
set r1 64
set r2 128
set r3 1
store 8 r1 r3
load 8 r4 r2
print r4
node 1
set r1 64
set r2 128
set r3 1
store 8 r2 r3
load 8 r4 r1
print r4
";

const BUFFERING_RUN: Run = Run {
    config: Config { pages: 3, ..PAIR },
    text: BUFFERING,
    ..IDLE
};

/// The orders, and what each node loads then.
static ORDERS: [Run<'static>; 3] = [
    // Node 0 goes to its end first.
    Run {
        stages: &[("0*6 1*4 0>0,1 1*2 2>0,1 1*2", 4)],
        nodes: &[
            ended!(0, &[stored!(0, 64, 1), loaded!(0, 128, 0)], &[0]),
            ended!(1, &[stored!(1, 128, 1), loaded!(1, 64, 1)], &[1]),
        ],
        ..BUFFERING_RUN
    },
    // Node 1 goes to its end first, and its copy of the other word is ended.
    Run {
        stages: &[("1*4 0>0,1 1*2 2>0,1 1*2 0*4 4>1,0 0*2 6>1,0 0*2", 8)],
        nodes: &[
            ended!(0, &[stored!(0, 64, 1), loaded!(0, 128, 1)], &[1]),
            ended!(1, &[stored!(1, 128, 1), loaded!(1, 64, 0)], &[0]),
        ],
        ..BUFFERING_RUN
    },
    // Both stores are done before either load begins.
    Run {
        stages: &[("0*4 1*4 0>0,1 1 0 1 2>1,0,0,1 0 1 0 1", 6)],
        nodes: &[
            ended!(0, &[stored!(0, 64, 1), loaded!(0, 128, 1)], &[1]),
            ended!(1, &[stored!(1, 128, 1), loaded!(1, 64, 1)], &[1]),
        ],
        ..BUFFERING_RUN
    },
];

/// In no order do both nodes load 0.
#[test]
fn store_buffering(rt: HostRuntime) {
    for run in &ORDERS {
        check_run(&rt, run);
    }
}
