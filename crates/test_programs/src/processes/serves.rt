//! A node that serves over lines in memory.

use crate::processes::common::{CONFIG, PROGRAMS, expect_same, expect_text, log_of, mail_of};
use ivy_logs::LogKind;
use ivy_model::Fault;
use ivy_process::{Clockwork, Ending, Node, NodeFailure, NodeLimits, Streams, serve};
use ivy_program::{Program, parse};
use std::alloc::Global;
use std::io::{self, Write};
use std::process::Abort;
use std::sync::Wait;

pub(crate) const LIMITS: NodeLimits = NodeLimits {
    pulse_millis: 20,
    turns: 1000,
    kept: 100,
};

/// A clock that stands.
#[derive(Drop)]
pub(crate) struct Stopped;

impl Clockwork for Stopped {
    fn millis(&self) -> u64 {
        0
    }
}

/// A log that has room for so many bytes.
#[derive(Drop)]
struct Paper {
    bytes: Vec<u8>,
    room: usize,
}

impl Write for Paper {
    fn write(&mut self, bytes: &[u8]) -> io::Result<usize> {
        let count = bytes.len().min(self.room.saturating_sub(self.bytes.len()));
        self.bytes.extend_from_slice(&bytes[..count])?;
        Ok(count)
    }

    fn flush(&mut self) -> io::Result<()> {
        Ok(())
    }
}

/// A node that serves, and what comes of it.
#[derive(Clone, Copy)]
struct Case<'a> {
    me: u8,
    /// The log that it is started again with, or nothing.
    old: &'a str,
    limits: NodeLimits,
    /// The sum of its run, if it has one.
    sum: Option<u64>,
    /// How many bytes its log has room for.
    room: usize,
    lines: &'a [&'a str],
    ending: Result<Ending, NodeFailure>,
    /// How many lines had no frame.
    bad_lines: u64,
    /// How many nodes told another sum.
    others: u64,
    /// What was written on its log, standard output and standard error.
    log: &'a str,
    out: &'a str,
    err: &'a str,
}

/// Its input ends before it is answered.
const WAITS: Case<'static> = Case {
    me: 1,
    old: "",
    limits: LIMITS,
    sum: None,
    room: 1000,
    lines: &[],
    ending: Ok(Ending::Waits),
    bad_lines: 0,
    others: 0,
    log: "ivy log 1 2 2 64 dynamic\nturns 2\n",
    out: "0 REQUEST\n",
    err: "",
};

const CASES: [Case<'static>; 9] = [
    WAITS,
    // It tells its sum before its first frame. The other node's is the same, and a line for a third node is left alone.
    Case {
        sum: Some(5),
        lines: &["1 sum 0 5", "2 sum 0 6"],
        log: "ivy log 1 2 2 64 dynamic 5\nturns 2\n",
        out: "0 sum 1 5\n0 REQUEST\n",
        ..WAITS
    },
    // A node that told another sum is named once, and its frames are dropped.
    Case {
        me: 0,
        sum: Some(5),
        lines: &["0 sum 1 6", "0 REQUEST", "0 sum 1 6", "0 sum 1"],
        ending: Ok(Ending::Ended),
        bad_lines: 1,
        others: 1,
        log: "ivy log 0 2 2 64 dynamic 5\n",
        out: "1 sum 0 5\n",
        err: "node 0: node 1 has another program or configuration, so its frames are dropped\nnode 0 ended\n",
        ..WAITS
    },
    // One that has none itself takes no heed of sums.
    Case {
        me: 0,
        lines: &["0 sum 1 6", "0 REQUEST"],
        ending: Ok(Ending::Ended),
        log: "ivy log 0 2 2 64 dynamic\ntook REQUEST\n",
        out: "1 ANSWER\n",
        err: "node 0 ended\n",
        ..WAITS
    },
    // A line without a frame, a frame for the other node, and one for this one.
    Case {
        me: 0,
        lines: &["no frame", "1 REQUEST", "0 REQUEST"],
        ending: Ok(Ending::Ended),
        bad_lines: 1,
        log: "ivy log 0 2 2 64 dynamic\ntook REQUEST\n",
        out: "1 ANSWER\n",
        err: "node 0 ended\n",
        ..WAITS
    },
    // It was killed once it had asked.
    Case {
        old: "ivy log 1 2 2 64 dynamic\nturns 2\nto",
        lines: &["1 ANSWER"],
        ending: Ok(Ending::Ended),
        log: "pulse 0\ntook ANSWER\nturns 2\n",
        err: "node 1: 0\nnode 1 ended\n",
        ..WAITS
    },
    // Nothing goes out where the log takes no more than its first line.
    Case {
        room: 25,
        ending: Err(NodeFailure::Unlogged),
        log: "ivy log 1 2 2 64 dynamic\n",
        out: "",
        ..WAITS
    },
    // Its program has made its last turn, and has not ended.
    Case {
        limits: NodeLimits { turns: 2, ..LIMITS },
        ending: Err(NodeFailure::Refused(Fault::TurnLimit)),
        ..WAITS
    },
    // Its request is not acknowledged.
    Case {
        limits: NodeLimits { kept: 0, ..LIMITS },
        ending: Err(NodeFailure::Kept(0)),
        ..WAITS
    },
];

/// The program of a node, of the two of this text.
pub(crate) fn program_of(rt: &impl Abort, alloc: Global, text: &str, me: u8) -> Program<Global> {
    let mut programs = parse(alloc, text).expect(rt, "programs");
    if me == 0 {
        let _ = programs.pop();
    }
    programs.pop().expect(rt, "a program")
}

/// Begins the log of a node, which has this sum or none.
fn begin(rt: &impl Abort, sum: Option<u64>, node: &mut Node, log: &mut Paper) {
    match sum {
        Some(sum) => {
            node.begin_log_of_run(sum, log).expect(rt, "a log");
            node.tell_sum(sum);
        }
        None => node.begin_log(LogKind::OfProgram, log).expect(rt, "a log"),
    }
}

/// Has the node of a case serve, and asserts what comes of it.
fn check_case<R: Abort + Wait>(rt: &R, alloc: Global, case: &Case<'_>) {
    let (me, limits) = (case.me, case.limits);
    assert!(rt; me < CONFIG.nodes);
    let program = program_of(rt, alloc, PROGRAMS, me);
    let mut log = Paper {
        bytes: Vec::new(alloc),
        room: case.room,
    };
    let inbox = mail_of(rt, alloc, case.lines);
    let mut node = if case.old.is_empty() {
        let mut begun = Node::start(alloc, &CONFIG, me, program, limits).expect(rt, "a node");
        begin(rt, case.sum, &mut begun, &mut log);
        begun
    } else {
        let old = log_of(rt, alloc, case.old);
        Node::restart(alloc, &CONFIG, me, program, limits, &old).expect(rt, "a node")
    };
    let mut streams = Streams {
        inbox: &inbox,
        log,
        out: Vec::new(alloc),
        err: Vec::new(alloc),
    };
    let ending = serve(rt, &Stopped, &mut node, &mut streams);
    expect_same(rt, ending, case.ending);
    expect_same(rt, node.told().bad_lines, case.bad_lines);
    expect_same(rt, node.told().others, case.others);
    expect_text(rt, alloc, &streams.log.bytes, case.log);
    expect_text(rt, alloc, &streams.out, case.out);
    expect_text(rt, alloc, &streams.err, case.err);
}

#[test]
fn nodes_serve(rt: HostRuntime) {
    for case in &CASES {
        check_case(&rt, rt.alloc(), case);
    }
}
