//! The report of a session has the lists that its nodes kept, and the outputs whatever they kept.
use crate::sessions::common::{LIMITS, NOTICE, PAIR, expect_same, shown_of};
use ivy_program::parse;
use ivy_session::{Keep, OpenGate, Report, Session};
use std::alloc::Allocator;
use std::process::Abort;
use std::sync::Wait;
use std::thread::Threads;

/// How many records and entries of an event list that node 0 shows, and what it printed first.
fn lengths_of<A: Allocator + Copy>(report: &Report<A>) -> (usize, bool, Option<u64>) {
    let (answered, printed) = shown_of(report, 0);
    let lists = report.nodes() > 0 && !report.events(0).is_empty();
    (answered.len(), lists, printed.first().copied())
}

/// Node 0 of a session whose nodes keep this shows so many records, and events or none.
fn check_kept<R: Abort + AllocGlobal + Threads + Wait + Sync>(
    rt: &R,
    keep: Keep,
    records: usize,
    has_events: bool,
) {
    let programs = parse(rt.alloc(), NOTICE).expect(rt, "programs");
    let report = Session::run_keeping(
        rt,
        rt.alloc(),
        PAIR,
        programs,
        LIMITS,
        &OpenGate,
        keep,
    ).expect(rt, "a report");
    expect_same(rt, lengths_of(&report), (records, has_events, Some(9)));
}

#[test]
fn lists_that_are_kept(rt: HostRuntime) {
    check_kept(&rt, Keep::Nothing, 0, false);
    check_kept(&rt, Keep::History, 2, false);
    check_kept(&rt, Keep::All, 2, true);
}
