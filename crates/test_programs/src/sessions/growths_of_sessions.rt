//! Each growth of a session refused in turn: every worker ends, and no report is given. One exception: where a string
//! that came early could not be gone on with for that growth, it is gone on with later, and the report may be given.
use crate::sessions::common::{LIMITS, LOADS, NOTICE, PAIR, expect_same, expect_same_at, shown_of};
use ivy_model::Fault;
use ivy_program::parse;
use ivy_session::{OpenGate, Session};
use std::alloc::Global;
use std::process::Abort;
use std::sync::Wait;
use std::thread::Threads;
use test_support::Failing;

/// More growths than any session here asks for.
const MANY: u64 = 20_000;

/// Runs the programs with this growth refused. They end with the fault 1, or node 0 has printed these numbers. Whether
/// they asked for fewer growths.
fn asks_for_fewer<R: Abort + AllocGlobal + Threads + Wait + Sync>(
    rt: &R,
    (memory, n): (&Failing<Global>, u64),
    text: &str,
    printed: &[u64],
) -> bool {
    let programs = parse(memory, text).expect(rt, "programs");
    memory.refuse(n);
    let answer = Session::run(rt, memory, PAIR, programs, LIMITS, &OpenGate);
    let asked = memory.asked(n);
    memory.refuse(0);
    match answer {
        Ok(report) => expect_same(rt, shown_of(&report, 0).1, printed),
        Err(fault) => expect_same_at(rt, n, (fault, n <= asked), (Fault::Memory, true)),
    }
    asked < n
}

/// Runs the programs once for each growth, which is refused, and once with none refused. How many were refused.
fn refuse_each<R: Abort + AllocGlobal + Threads + Wait + Sync>(
    rt: &R,
    text: &str,
    printed: &[u64],
) -> u64 {
    let memory = Failing::new(rt.alloc());
    for n in 1..MANY {
        if asks_for_fewer(rt, (&memory, n), text, printed) {
            return n - 1;
        }
    }
    MANY
}

/// Asserts that a session asks for at least so many growths, and ends where one of them is refused.
fn check_refused<R: Abort + AllocGlobal + Threads + Wait + Sync>(
    rt: &R,
    text: &str,
    printed: &[u64],
    least: u64,
) {
    let refused = refuse_each(rt, text, printed);
    assert!(rt; least <= refused && refused < MANY, "{refused}");
}

#[test]
fn each_refused(rt: HostRuntime) {
    check_refused(&rt, LOADS, &[], 20);
    check_refused(&rt, NOTICE, &[9], 40);
}
