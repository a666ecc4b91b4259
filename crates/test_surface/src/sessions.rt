//! `ivy_node`: a session, behind a gate of one's own.
use crate::common::{LOADS, PAIR, expect_same};
use ivy_model::Fault;
use ivy_node::ivy_session::Keep;
use ivy_node::{Event, Gate, Limits, OpenGate, Opening, Report, Role, Session, parse};
use ivy_wire::Bytes;
use std::alloc::Global;
use std::process::Abort;
use std::sync::Wait;
use std::sync::atomic::{AtomicBool, Ordering};
use std::thread::Threads;

/// Sees which workers make turns.
#[derive(Drop)]
struct Watching {
    programs: AtomicBool,
    wires: AtomicBool,
}

impl Gate for Watching {
    fn enter(&self, _node: u8, role: Role, _records: u64) {
        let seen = match role {
            Role::Program => &self.programs,
            Role::Wire => &self.wires,
        };
        seen.store(true, Ordering::SeqCst);
    }
}

const LIMITS: Limits = Limits {
    capacity: 4,
    turns: 100_000_000,
    pulse_every: 64,
};

/// Runs the programs of a text.
fn run<R: Threads + Wait + Sync + AllocGlobal + Abort, G: Gate>(
    rt: &R,
    limits: Limits,
    gate: &G,
) -> Result<Report<Global>, Fault> {
    let programs = parse(rt.alloc(), LOADS).expect(rt, "programs");
    Session::run(rt, rt.alloc(), PAIR, programs, limits, gate)
}

/// How many turns in a row a list begins with.
fn first_turns(events: &[Event<Bytes<Global>>]) -> u64 {
    match events.first() {
        Some(Event::Turns(turns)) => *turns,
        Some(Event::Delivered(_)) | Some(Event::Pulsed(_)) | None => 0,
    }
}

/// That a node was answered once, and printed 0, and made two turns before a string came.
fn expect_loaded(rt: &impl Abort, report: &Report<Global>, node: u64) {
    assert!(rt; node < report.nodes());
    expect_same(rt, report.output(node), [0].as_slice());
    expect_same(rt, report.history(node).len(), 1);
    expect_same(rt, first_turns(report.events(node)), 2);
}

#[test]
fn a_session(rt: HostRuntime) {
    let gate = Watching {
        programs: AtomicBool::new(false),
        wires: AtomicBool::new(false),
    };
    let report = run(&rt, LIMITS, &gate).expect(&rt, "a report");
    expect_loaded(&rt, &report, 1);
    assert!(rt; gate.programs.load(Ordering::SeqCst));
    assert!(rt; gate.wires.load(Ordering::SeqCst));
}

/// Runs the programs at nodes that begin with steady hints.
fn run_steady<R: Threads + Wait + Sync + AllocGlobal + Abort>(
    rt: &R,
) -> Result<Report<Global>, Fault> {
    let programs = parse(rt.alloc(), LOADS).expect(rt, "programs");
    Session::run_opening(
        rt,
        rt.alloc(),
        PAIR,
        programs,
        LIMITS,
        &OpenGate,
        Keep::All,
        Opening::Steady,
    )
}

#[test]
fn a_steady_session(rt: HostRuntime) {
    let report = run_steady(&rt).expect(&rt, "a report");
    expect_loaded(&rt, &report, 1);
}

#[test]
fn no_session(rt: HostRuntime) {
    let limits = Limits {
        capacity: 0,
        ..LIMITS
    };
    let refused = run(&rt, limits, &OpenGate).err();
    expect_same(&rt, refused, Some(Fault::BadConfig));
}
