//! Logs that are the parts of a run, and logs that are not.

use crate::processes::common::{CONFIG, PROGRAMS, expect_same, log_of};
use ivy_join::{Joined, Unjoined, join};
use ivy_logs::{LogKind, parse_log};
use ivy_program::parse;
use std::alloc::Global;
use std::process::Abort;
use test_support::Failing;

/// What a node came to: how many of its calls were answered, what it printed first, whether its program has ended, and
/// whether it waits in a call.
pub(crate) type Seen = (u64, Option<u64>, bool, bool);

/// What each node of a run came to.
pub(crate) fn seen_in(rt: &impl Abort, alloc: Global, run: &Joined<Global>) -> Vec<Seen> {
    let mut nodes = Vec::new(alloc);
    for node in 0..run.nodes() {
        let (answered, printed) = (run.records(node), run.output(node).first().copied());
        let (has_ended, waits) = (run.ended(node), run.asked(node).is_some());
        let seen = (answered, printed, has_ended, waits);
        nodes.push(seen).expect(rt, "memory");
    }
    nodes
}

/// What each node came to in the run whose parts these logs are.
fn joined(rt: &impl Abort, alloc: Global, forms: &[&str]) -> Result<Vec<Seen>, Unjoined> {
    let mut logs = Vec::new(alloc);
    for form in forms {
        let log = log_of(rt, alloc, form);
        logs.push(log).ok().expect(rt, "memory");
    }
    let programs = parse(alloc, PROGRAMS).expect(rt, "programs");
    match join(alloc, CONFIG, programs, &logs) {
        Ok(run) => Ok(seen_in(rt, alloc, &run)),
        Err(why) => Err(why),
    }
}

#[test]
fn logs_of_a_run_are_joined(rt: HostRuntime) {
    let first = "ivy log 0 2 2 64 dynamic\ntook REQUEST\n";
    let wanted: [Seen; 2] = [(0, None, true, false), (1, Some(0), true, false)];
    for second in [
        "ivy log 1 2 2 64 dynamic\nturns 1\nturns 1\ntook ANSWER\nturns 2\ntoo",
        // It was killed once it had asked.
        "ivy log 1 2 2 64 dynamic\nturns 2\npulse 0\ntook ANSWER\nturns 2\n",
    ] {
        let nodes = joined(&rt, rt.alloc(), &[first, second]).expect(&rt, "joined");
        expect_same(&rt, nodes.as_slice(), wanted.as_slice());
    }
}

/// Two logs that are joined by nothing, and why.
const APART: [([&str; 2], Unjoined); 7] = [
    // A string is not taken before it was sent.
    (
        [
            "ivy log 0 2 2 64 dynamic\ntook REQUEST\n",
            "ivy log 1 2 2 64 dynamic\nturns 1\n",
        ],
        Unjoined::NotSent { node: 0, line: 2 },
    ),
    // The second turn waits.
    (
        [
            "ivy log 0 2 2 64 dynamic\n",
            "ivy log 1 2 2 64 dynamic\nturns 2\nturns 1\n",
        ],
        Unjoined::NoSuchEvent { node: 1, line: 3 },
    ),
    // A node sends itself no pulse.
    (
        [
            "ivy log 0 2 2 64 dynamic\n",
            "ivy log 1 2 2 64 dynamic\npulse 1\n",
        ],
        Unjoined::NoSuchEvent { node: 1, line: 2 },
    ),
    (
        ["ivy log 0 2 2 64 dynamic\n", "ivy log 0 2 2 64 dynamic\n"],
        Unjoined::Twice(0),
    ),
    (
        ["ivy log 1 2 2 64 dynamic\n", "ivy log 1 2 2 64 dynamic\n"],
        Unjoined::Missing(0),
    ),
    (
        ["ivy log 0 2 2 64 dynamic\n", "ivy log 1 2 2 64 fixed\n"],
        Unjoined::Differs(1),
    ),
    (
        ["ivy log 0 2 2 64 dynamic\n", "ivy log 1 2 2 64 dynamic 5\n"],
        Unjoined::OtherRun(1),
    ),
];

#[test]
fn logs_of_no_run_are_not_joined(rt: HostRuntime) {
    for (forms, why) in &APART {
        let found = joined(&rt, rt.alloc(), forms.as_slice()).err();
        expect_same(&rt, found, Some(*why));
    }
}

/// Node 0 loads a word over and over.
const SPINS: &str = "node 0\nset r1 64\nlabel look\nload 8 r2 r1\njump look\nnode 1\n";

/// How many growths a join asks for, where the log of node 0 is this one, and node 1 did nothing.
fn growths_of_join(rt: &impl Abort, alloc: Global, first: &str) -> u64 {
    let memory = Failing::new(alloc);
    let mut logs = Vec::new(&memory);
    for text in [first, "ivy log 1 2 2 64 dynamic\n"] {
        let log = parse_log(&memory, LogKind::OfProgram, text).expect(rt, "a log");
        logs.push(log).ok().expect(rt, "memory");
    }
    let programs = parse(&memory, SPINS).expect(rt, "programs");
    memory.refuse(0);
    let run = join(&memory, CONFIG, programs, &logs).ok();
    run.expect(rt, "joined");
    memory.asked(0)
}

/// A join keeps no list of what a node was answered, nor of its turns.
#[test]
fn turns_take_no_memory(rt: HostRuntime) {
    let alloc = rt.alloc();
    let few = growths_of_join(&rt, alloc, "ivy log 0 2 2 64 dynamic\nturns 8\n");
    let many = growths_of_join(&rt, alloc, "ivy log 0 2 2 64 dynamic\nturns 65536\n");
    expect_same(&rt, many, few);
}
