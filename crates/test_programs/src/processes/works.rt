//! Own code at a node that is started again with its log, and the joining of such logs.

use crate::processes::common::{expect_same, expect_text};
use crate::processes::joins::{Seen, seen_in};
use crate::processes::serves::Stopped;
use example_programs::AddsUp;
use ivy_calls::{SharedMemory, Work};
use ivy_join::{Unjoined, join_own};
use ivy_logs::{LogKind, parse_log};
use ivy_model::{Config, Fault, Kind};
use ivy_process::{Mail, Node, NodeFailure, NodeLimits, Streams, serve_work};
use ivy_sync::{Barrier, Lock};
use std::alloc::Global;
use std::process::Abort;
use std::sync::Wait;

const CONFIG: Config = Config {
    nodes: 2,
    pages: 4,
    page_size: 256,
    manager: Kind::Dynamic,
};

const LIMITS: NodeLimits = NodeLimits {
    pulse_millis: 20,
    turns: 1_000_000,
    kept: 1000,
};

/// Node 0 adds up alone, and its sum lies there.
const fn lone_sum(sum: u64) -> AddsUp {
    AddsUp {
        lock: Lock { addr: 256 },
        sum,
        barrier: Barrier {
            count: 0,
            nodes: 1,
            passed: 0,
        },
    }
}

/// What the work of node 0 gives that is started with a log of this text, and what it writes behind that.
fn worked<R: Abort + Wait>(
    rt: &R,
    alloc: Global,
    work: &AddsUp,
    text: &str,
) -> Result<(u64, Vec<u8>), NodeFailure> {
    let past = parse_log(alloc, LogKind::OfOwnCode, text).expect(rt, "a log");
    past.head.config.check_wide().expect(rt, "a configuration");
    assert!(rt; past.head.me < past.head.config.nodes);
    let inbox = Mail::new(alloc);
    inbox.end(rt);
    let node = Node::open(alloc, &past, LIMITS)?;
    let streams = Streams {
        inbox: &inbox,
        log: Vec::new(alloc),
        out: Vec::new(alloc),
        err: Vec::new(alloc),
    };
    let worked = serve_work(rt, &Stopped, &past, node, work, streams)?;
    Ok((worked.gave, worked.log))
}

/// Hints at page 1 twice, and at a page that there is none of.
struct Hints;

impl Work for Hints {
    type Out = ();

    ghost done = { λ _ _ _ _. Unit {0} };

    fn work<M: SharedMemory>(&self, _me: u8, memory: &mut M) -> Result<(), Fault> {
        memory.fetch_ahead(300, false);
        memory.fetch_ahead(511, true);
        memory.fetch_ahead(1024, false);
        Ok(())
    }
}

#[test]
fn a_page_that_is_hinted_at_is_asked_for_once(rt: HostRuntime) {
    let alloc = rt.alloc();
    let past = parse_log(alloc, LogKind::OfOwnCode, IDLE).expect(&rt, "a log");
    past.head.config.check_wide().expect(&rt, "a configuration");
    assert!(rt; past.head.me < past.head.config.nodes);
    let inbox = Mail::new(alloc);
    inbox.end(&rt);
    let node = Node::open(alloc, &past, LIMITS).expect(&rt, "a node");
    let streams = Streams {
        inbox: &inbox,
        log: Vec::new(alloc),
        out: Vec::new(alloc),
        err: Vec::new(alloc),
    };
    let worked = serve_work(&rt, &Stopped, &past, node, &Hints, streams).expect(&rt, "done");
    // The request is not acknowledged when the input has ended, so a pulse makes it again.
    expect_text(&rt, alloc, &worked.log, "fetch read 1\npulse 0\n");
}

/// The log of node 0, which adds up alone. It has all pages at first, so each call is answered in its first turn.
const LOG: &str = "ivy own 0 2 4 256 dynamic
call swap 8 256 1
turns 1
value 0 swap 8 256 1
call load 8 512
turns 1
value 0 load 8 512
call store 8 512 0
turns 1
done store 8 512 0
call store 8 256 0
turns 1
done store 8 256 0
call advance 0
turns 1
done advance 0
call await 0 1
turns 1
value 1 await 0 1
call load 8 512
turns 1
value 0 load 8 512
";

/// The log of node 1, which made no call.
const IDLE: &str = "ivy own 1 2 4 256 dynamic\n";

/// Asserts that the work goes on with so much of its log, and a part of a line more.
fn check_from<R: Abort + Wait>(rt: &R, alloc: Global, had: &str) {
    let torn = format!(in alloc; "{had}val").expect(rt, "memory");
    let (gave, rest) = worked(rt, alloc, &lone_sum(512), torn.as_str()).expect(rt, "done");
    expect_same(rt, gave, 0);
    let wanted = LOG.strip_prefix(had).expect(rt, "a beginning");
    expect_text(rt, alloc, &rest, wanted);
}

#[test]
fn a_work_is_begun_again_with_its_log(rt: HostRuntime) {
    let alloc = rt.alloc();
    // It was killed when its log had so many lines.
    let mut had = String::new(alloc);
    for line in LOG.lines() {
        had.push_str(line).expect(&rt, "memory");
        had.push('\n').expect(&rt, "memory");
        check_from(&rt, alloc, had.as_str());
    }
}

#[test]
fn a_log_of_another_work_is_refused(rt: HostRuntime) {
    let alloc = rt.alloc();
    // The sum of this work lies elsewhere.
    let other = worked(&rt, alloc, &lone_sum(520), LOG).err();
    expect_same(&rt, other, Some(NodeFailure::Differs(5)));
    // It made one call more.
    let longer = format!(in alloc; "{LOG}call load 8 512\n").expect(&rt, "memory");
    let fewer = worked(&rt, alloc, &lone_sum(512), longer.as_str()).err();
    expect_same(&rt, fewer, Some(NodeFailure::Differs(23)));
    // No memory answers so.
    let wrong = altered(&rt, alloc, "value 0 load", "value 5 load");
    let refused = worked(&rt, alloc, &lone_sum(512), wrong.as_str()).err();
    expect_same(&rt, refused, Some(NodeFailure::NotItsLog(7)));
}

/// The log of node 0 with other words in the place of some.
fn altered(rt: &impl Abort, alloc: Global, words: &str, others: &str) -> String {
    LOG.replace(alloc, words, others).expect(rt, "memory")
}

/// What each node came to in the run whose parts these logs are.
fn joined(rt: &impl Abort, alloc: Global, first: &str) -> Result<Vec<Seen>, Unjoined> {
    let mut logs = Vec::new(alloc);
    for text in [first, IDLE] {
        let log = parse_log(alloc, LogKind::OfOwnCode, text).expect(rt, "a log");
        logs.push(log).ok().expect(rt, "memory");
    }
    match join_own(alloc, CONFIG, &logs) {
        Ok(run) => Ok(seen_in(rt, alloc, &run)),
        Err(why) => Err(why),
    }
}

/// Asserts that the log of node 0 is joined with that of node 1, and how many of its calls were answered.
fn check_joined(rt: &impl Abort, alloc: Global, first: &str) {
    let nodes = joined(rt, alloc, first).expect(rt, "joined");
    expect_same(rt, nodes.len(), 2);
    for (node, answered) in nodes.iter().zip([7, 0]) {
        expect_same(rt, node.0, answered);
        assert!(rt; !node.3);
    }
}

#[test]
fn logs_of_own_code_are_joined(rt: HostRuntime) {
    let alloc = rt.alloc();
    check_joined(&rt, alloc, LOG);
    // A node that was killed may not have logged what it was answered last.
    let killed = LOG
        .strip_suffix("value 0 load 8 512\n")
        .expect(&rt, "an end");
    check_joined(&rt, alloc, killed);
    // No memory answers so.
    let wrong = altered(&rt, alloc, "value 0 load", "value 5 load");
    let why = joined(&rt, alloc, wrong.as_str()).err();
    expect_same(&rt, why, Some(Unjoined::OtherAnswers(0)));
}
