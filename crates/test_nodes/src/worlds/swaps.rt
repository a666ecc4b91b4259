//! Swaps: of words that the node has to fault for first, and of each width.
use crate::worlds::common::{IDLE, Run, WRITES, check_run};
use ivy_model::{Call, Reply};

/// A swap of a number into a place, in the value of a constant.
macro_rules! swap {
    ($width:expr, $addr:expr, $value:expr) => {
        Call::Swap {
            width: $width,
            addr: $addr,
            value: $value,
        }
    };
}

const TWICE: &str = "node 0
node 1
set r1 64
set r2 9
swap 8 r3 r1 r2
set r2 4
swap 8 r3 r1 r2
load 8 r3 r1
";

static TWICE_RUN: Run<'static> = Run {
    text: TWICE,
    nodes: &[ended!(
        1,
        &[
            answered!(1, swap!(8, 64, 9), Reply::Value(0)),
            answered!(1, swap!(8, 64, 4), Reply::Value(9)),
            loaded!(1, 64, 4),
        ],
        &[]
    )],
    ..WRITES
};

/// The first swap asks for the page as a store does. The second one has it.
#[test]
fn swaps_of_a_page_that_comes(rt: HostRuntime) {
    check_run(&rt, &TWICE_RUN);
}

const WIDTHS: &str = "node 0
set r1 64
set r2 258
store 8 r1 r2
set r3 71
set r4 511
swap 1 r5 r3 r4
print r5
load 8 r6 r1
print r6
set r3 65
swap 8 r5 r3 r4
set r3 128
swap 1 r5 r3 r4
set r3 0
swap 1 r5 r3 r4
print r5
node 1
";

static WIDTHS_RUN: Run<'static> = Run {
    text: WIDTHS,
    stages: &[("0*16", 0)],
    nodes: &[ended!(
        0,
        &[
            stored!(0, 64, 258),
            answered!(0, swap!(1, 71, 511), Reply::Value(2)),
            loaded!(0, 64, 511),
            refused!(0, swap!(8, 65, 511), 3),
            refused!(0, swap!(1, 128, 511), 4),
            refused!(0, swap!(1, 0, 511), 5),
        ],
        &[2, 511, 2]
    )],
    ..IDLE
};

/// A swap of one byte leaves those beside it. One that is refused keeps its register.
#[test]
fn widths_of_swaps(rt: HostRuntime) {
    check_run(&rt, &WIDTHS_RUN);
}
