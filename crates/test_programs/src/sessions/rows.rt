//! Worked runs: what each node is answered and prints, under either manager and over a wide and the least ether.
use crate::sessions::common::{
    EMPTY, FOUR_ADVANCES, LIMITS, LOADS, NARROW, NOTICE, PAIR, TRIO, expect_same, expect_same_at,
    run, shown_of,
};
use ivy_model::{Config, Kind, Record};
use ivy_session::Limits;
use std::process::Abort;
use std::sync::Wait;
use std::thread::Threads;

/// Programs, and what each node was answered and printed.
#[derive(Clone, Copy)]
struct Row<'a> {
    config: Config,
    text: &'a str,
    nodes: &'a [(&'a [Record], &'a [u64])],
}

/// What node 0 was answered, which waits for another node's word.
const NOTED: [Record; 2] = [awaited!(0, 1), loaded!(0, 64, 9)];

/// What the other node was answered, which writes the word.
const WRITTEN: [Record; 2] = [stored!(1, 64, 9), advanced!(1)];

/// What the node was answered that waits for four advances.
const COUNTED: [Record; 2] = [awaited!(0, 4), counted!(0, 4)];

/// The programs of the notice, with a third node that does nothing.
const NOTICE_OF_THREE: &str = "\
node 0
set r1 1
await r2 r0 r1
set r1 64
load 8 r3 r1
print r3
node 1
set r1 64
set r2 9
store 8 r1 r2
advance r0
node 2
";

const ROWS: [Row; 5] = [
    Row {
        config: PAIR,
        text: EMPTY,
        nodes: &[(&[], &[]), (&[], &[])],
    },
    Row {
        config: PAIR,
        text: LOADS,
        nodes: &[(&[], &[]), (&[loaded!(1, 64, 0)], &[0])],
    },
    Row {
        config: PAIR,
        text: NOTICE,
        nodes: &[(&NOTED, &[9]), (&WRITTEN, &[])],
    },
    Row {
        config: TRIO,
        text: NOTICE_OF_THREE,
        nodes: &[(&NOTED, &[9]), (&WRITTEN, &[]), (&[], &[])],
    },
    Row {
        config: TRIO,
        text: FOUR_ADVANCES,
        nodes: &[
            (&COUNTED, &[4]),
            (&[advanced!(1), advanced!(1)], &[]),
            (&[advanced!(2), advanced!(2)], &[]),
        ],
    },
];

/// A row in a session under this manager, within these limits.
fn check_session<R: Abort + AllocGlobal + Threads + Wait + Sync>(
    rt: &R,
    row: &Row,
    manager: Kind,
    limits: Limits,
) {
    let config = Config {
        manager,
        ..row.config
    };
    let report = run(rt, rt.alloc(), config, row.text, limits).expect(rt, "a report");
    expect_same(rt, report.nodes(), row.nodes.len() as u64);
    for (node, shown) in row.nodes.iter().enumerate() {
        expect_same_at(rt, node, shown_of(&report, node as u64), *shown);
    }
}

fn check_row<R: Abort + AllocGlobal + Threads + Wait + Sync>(rt: &R, row: &Row) {
    for manager in [Kind::Fixed, Kind::Dynamic] {
        check_session(rt, row, manager, LIMITS);
        check_session(rt, row, manager, NARROW);
    }
}

#[test]
fn rows(rt: HostRuntime) {
    for row in &ROWS {
        check_row(&rt, row);
    }
}
