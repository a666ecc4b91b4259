//! Why a play gives nothing, and that its moves are written as a schedule.
use crate::plays::common::{ENOUGH, config};
use example_programs::AddsUp;
use ivy_model::{Config, Fault, Kind};
use ivy_play::{Move, Outcome, PlayReport, Schedule, play_drawn, play_listed};
use ivy_sync::{Barrier, Lock};
use std::alloc::{Allocator, Global};
use std::process::Abort;
use std::sync::Wait;
use std::test::Fail;
use std::thread::Threads;
use test_support::Failing;

/// Two nodes that add up, of which each gives 1.
const TWO: AddsUp = AddsUp {
    lock: Lock { addr: 256 },
    sum: 512,
    barrier: Barrier {
        count: 0,
        nodes: 2,
        passed: 0,
    },
};

/// A short play of two nodes.
fn play<R, A>(rt: &R, alloc: A, nodes: Config) -> Result<PlayReport<u64, A>, Fault>
where
    R: Threads + Wait + Sync,
    A: Allocator + Copy + Send + Sync,
{
    play_drawn(rt, alloc, nodes, &TWO, 3, 40, ENOUGH)
}

#[test]
fn nodes_out_of_limits(rt: HostRuntime) {
    for nodes in [0, 1, 33] {
        let fault = play(&rt, rt.alloc(), config(nodes, Kind::Dynamic)).err();
        assert_eq!(&rt; fault, Some(Fault::BadConfig));
    }
}

/// Why these moves are not played.
fn fault_of<R: Threads + Wait + Sync + AllocGlobal>(rt: &R, moves: &[Move]) -> Option<Fault> {
    let nodes = config(2, Kind::Fixed);
    play_listed(rt, rt.alloc(), nodes, &TWO, moves, 0).err()
}

#[test]
fn moves_that_name_nothing(rt: HostRuntime) {
    let none = Some(Fault::NoSuchFrame);
    assert_eq!(&rt; fault_of(&rt, &[Move::Turn(2)]), none);
    assert_eq!(&rt; fault_of(&rt, &[Move::Deliver { index: 0, to: 1 }]), none);
    assert_eq!(&rt; fault_of(&rt, &[Move::Pulse { from: 0, to: 0 }]), none);
    assert_eq!(&rt; fault_of(&rt, &[]), None);
}

#[test]
fn a_schedule_as_text(rt: HostRuntime) -> Result<(), Fail> {
    let moves = [
        Move::Turn(1),
        Move::Deliver { index: 0, to: 0 },
        Move::Pulse { from: 1, to: 0 },
    ];
    let text = format!(in rt.alloc(); "{}", Schedule(&moves))?;
    assert_eq!(&rt; text.as_str(), "turn 1\ndeliver 0 0\npulse 1 0\n");
    Ok(())
}

/// Whether the play gave up for want of memory, or passed, where the n-th growth is refused.
fn is_met<R>(rt: &R, memory: &Failing<Global>, n: u64) -> bool
where
    R: Threads + Wait + Sync + Abort,
{
    memory.refuse(n);
    match play(rt, memory, config(2, Kind::Dynamic)) {
        Ok(_) => memory.asked(n) < n,
        Err(fault) => fault == Fault::Memory,
    }
}

/// How many growths at least such a play takes.
const GROWTHS: u64 = 60;

#[test]
fn each_growth_is_refused(rt: HostRuntime) {
    let memory = Failing::new(rt.alloc());
    for n in 1..=GROWTHS {
        assert!(&rt; is_met(&rt, &memory, n));
    }
    memory.refuse(0);
    let report = play(&rt, &memory, config(2, Kind::Dynamic)).expect(&rt, "a report");
    assert!(&rt;
        report
            .outcomes
            .iter()
            .all(|outcome| *outcome == Outcome::Gave(1))
    );
    assert!(&rt; memory.asked(0) >= GROWTHS);
}
