//! Compare-and-swaps and fetch-and-adds: of words that the node has to fault for first, and of one byte.
use crate::worlds::common::{IDLE, Run, WRITES, check_run};
use ivy_model::{Call, Reply};

/// A compare-and-swap, in the value of a constant.
macro_rules! cas {
    ($width:expr, $addr:expr, $expected:expr, $value:expr) => {
        Call::Cas {
            width: $width,
            addr: $addr,
            expected: $expected,
            value: $value,
        }
    };
}

/// A fetch-and-add, in the value of a constant.
macro_rules! fetch_add {
    ($width:expr, $addr:expr, $value:expr) => {
        Call::FetchAdd {
            width: $width,
            addr: $addr,
            value: $value,
        }
    };
}

const TWICE: &str = "node 0
node 1
set r1 64
set r2 9
cas 8 r3 r1 r0 r2
cas 8 r3 r1 r0 r1
fadd 8 r3 r1 r2
load 8 r3 r1
";

static TWICE_RUN: Run<'static> = Run {
    text: TWICE,
    nodes: &[ended!(
        1,
        &[
            answered!(1, cas!(8, 64, 0, 9), Reply::Value(0)),
            answered!(1, cas!(8, 64, 0, 64), Reply::Value(9)),
            answered!(1, fetch_add!(8, 64, 9), Reply::Value(9)),
            loaded!(1, 64, 18),
        ],
        &[]
    )],
    ..WRITES
};

/// The first compare-and-swap asks for the page as a store does, the second one finds another number and stores
/// nothing, and 9 and 9 are 18.
#[test]
fn exchanges_of_a_page_that_comes(rt: HostRuntime) {
    check_run(&rt, &TWICE_RUN);
}

const IN_VAIN: &str = "node 0
node 1
set r1 64
set r2 9
cas 8 r3 r1 r2 r1
load 8 r4 r1
";

static IN_VAIN_RUN: Run<'static> = Run {
    text: IN_VAIN,
    stages: &[("1*3", 1), ("0>0,1", 2), ("1*2", 2)],
    nodes: &[ended!(
        1,
        &[
            answered!(1, cas!(8, 64, 9, 64), Reply::Value(0)),
            loaded!(1, 64, 0),
        ],
        &[]
    )],
    ..WRITES
};

/// A compare-and-swap that stores nothing asks for the page to write it as well.
#[test]
fn exchange_in_vain(rt: HostRuntime) {
    check_run(&rt, &IN_VAIN_RUN);
}

const WIDTHS: &str = "node 0
set r1 64
set r2 258
store 8 r1 r2
set r3 71
set r4 511
cas 1 r5 r3 r2 r4
print r5
load 8 r6 r1
print r6
cas 1 r5 r3 r2 r1
print r5
fadd 1 r5 r3 r4
load 8 r6 r1
print r6
set r3 65
fadd 8 r5 r3 r4
set r3 128
cas 1 r5 r3 r4 r4
set r3 0
fadd 1 r5 r3 r4
print r5
node 1
";

static WIDTHS_RUN: Run<'static> = Run {
    text: WIDTHS,
    stages: &[("0*21", 0)],
    nodes: &[ended!(
        0,
        &[
            stored!(0, 64, 258),
            answered!(0, cas!(1, 71, 258, 511), Reply::Value(2)),
            loaded!(0, 64, 511),
            answered!(0, cas!(1, 71, 258, 64), Reply::Value(255)),
            answered!(0, fetch_add!(1, 71, 511), Reply::Value(255)),
            loaded!(0, 64, 510),
            refused!(0, fetch_add!(8, 65, 511), 3),
            refused!(0, cas!(1, 128, 511, 511), 4),
            refused!(0, fetch_add!(1, 0, 511), 5),
        ],
        &[2, 511, 255, 510, 255]
    )],
    ..IDLE
};

/// Words of one byte: 258 is looked for as 2, and 255 and 511 are 254. One that is refused keeps its register.
#[test]
fn widths_of_exchanges(rt: HostRuntime) {
    check_run(&rt, &WIDTHS_RUN);
}
