//! What the programs of the folder `examples` print, and the traces of its schedules.

use crate::commands::common::{check_managers, check_over, check_seeds, with_nodes};
use std::process::Abort;
use std::sync::Wait;
use std::test::Fail;
use std::thread::Threads;
use test_support::outputs::{
    BARRIER, DOT_PRODUCT, FOUR_ADVANCES, HISTOGRAM, JACOBI, LIST, MATRIX, MERGE_SPLIT,
    PARALLEL_SUM, PRODUCER_CONSUMER, RING, SUM_OF_EIGHT,
};
use test_support::{Example, Schedule, schedules};

/// The schedules whose moves are all made.
const MADE: [&Schedule; 12] = [
    &schedules::FIRST_LOAD,
    &schedules::ACKNOWLEDGED,
    &schedules::LOST_REQUEST,
    &schedules::FOUR_READERS,
    &schedules::FORWARDED_READ,
    &schedules::REFUSED_ACCESSES,
    &schedules::NODE_0_FIRST,
    &schedules::NODE_1_FIRST,
    &schedules::STORES_FIRST,
    &schedules::LATE_READ_PAGE,
    &schedules::STALE_HINT,
    &schedules::CHASE,
];

/// A schedule prints its trace, with this status, and standard error is told this.
fn check_trace<R: Abort + AllocGlobal + Threads + Wait + Sync>(
    rt: &R,
    schedule: &Schedule,
    status: u8,
    err: &str,
) -> Result<(), Fail> {
    let files = [schedule.programs, schedule.moves];
    let line = format!(in rt.alloc();
        "step {} {} {}",
        schedule.programs.name, schedule.moves.name, schedule.options
    )?;
    check_over(rt, &files, line.as_str(), (status, schedule.trace, err))
}

#[test]
fn traces(rt: HostRuntime) -> Result<(), Fail> {
    for schedule in MADE {
        check_trace(&rt, schedule, 0, "")?;
    }
    check_trace(&rt, &schedules::STRING_NOT_SENT, 1, "ivy: 19 NoSuchFrame\n")
}

/// A narrow ether, with many pulses.
const NARROW: &str = "--capacity 2 --pulse 7";

/// An example prints its lines in sessions with these options.
fn check_sessions<R: Abort + AllocGlobal + Threads + Wait + Sync>(
    rt: &R,
    example: &Example,
    options: &str,
) -> Result<(), Fail> {
    let files = [example.programs];
    let line = format!(in rt.alloc(); "run {} {options}", example.programs.name)?;
    check_managers(rt, &files, line.as_str(), (0, example.out, ""))
}

/// An example prints its lines under the drawn moves of these seeds, in which all nodes end.
fn check_drawn<R: Abort + AllocGlobal + Threads + Wait + Sync>(
    rt: &R,
    example: &Example,
    seeds: &[u64],
) -> Result<(), Fail> {
    let files = [example.programs];
    let ends = with_nodes(rt.alloc(), example.out, example.nodes, "ended")?;
    let line = format!(in rt.alloc(); "sim {} --moves 100000", example.programs.name)?;
    check_seeds(rt, &files, (line.as_str(), seeds), (0, ends.as_str(), ""))
}

/// The examples, and the seeds by which they are run.
const EXAMPLES: [(&Example, &[u64]); 12] = [
    (&BARRIER, &[1, 2]),
    (&RING, &[1, 2]),
    (&PRODUCER_CONSUMER, &[1, 2]),
    (&HISTOGRAM, &[1, 2]),
    (&FOUR_ADVANCES, &[1, 2]),
    (&LIST, &[1, 2, 3]),
    (&PARALLEL_SUM, &[1, 2, 3]),
    (&SUM_OF_EIGHT, &[1]),
    (&MATRIX, &[1, 2]),
    (&JACOBI, &[1, 2]),
    (&MERGE_SPLIT, &[1, 2]),
    (&DOT_PRODUCT, &[1, 2]),
];

#[test]
fn examples(rt: HostRuntime) -> Result<(), Fail> {
    for (example, seeds) in &EXAMPLES {
        check_sessions(&rt, example, "")?;
        check_sessions(&rt, example, NARROW)?;
        check_drawn(&rt, example, seeds)?;
    }
    Ok(())
}

/// The four advances over the least pages that there are.
#[test]
fn four_advances(rt: HostRuntime) -> Result<(), Fail> {
    let files = [FOUR_ADVANCES.programs];
    let line = "run four_advances.ivy --pages 2 --page-size 64";
    check_managers(&rt, &files, line, (0, FOUR_ADVANCES.out, ""))
}

/// Under these drawn moves all three programs end, and no advance is lost.
#[test]
fn four_advances_drawn(rt: HostRuntime) -> Result<(), Fail> {
    let out = "node 0: 4\nnode 0 ended\nnode 1 ended\nnode 2 ended\n";
    for seed in 1..101 {
        let line = format!(in rt.alloc();
            "sim four_advances.ivy --pages 2 --page-size 64 --seed {seed} --moves 2000"
        )?;
        check_over(&rt, &[FOUR_ADVANCES.programs], line.as_str(), (0, out, ""))?;
    }
    Ok(())
}
