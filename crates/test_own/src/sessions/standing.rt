//! Watched sessions of own code, which end where they stand still.
use crate::sessions::common::{ROOMY, config};
use ivy_calls::{advance_count, await_};
use ivy_model::{Call, Fault, Kind};
use ivy_own::{Keep, OpenGate, OwnFault, SharedMemory, Work};
use ivy_watching::{Watched, run_watching};
use std::alloc::Global;
use std::process::Abort;
use std::sync::Wait;
use std::thread::Threads;

/// Nodes 0 and 1 each wait until the other one has advanced its count, and advance their own, where it is so, first; node 2
/// gives 7.
struct Crossed {
    first: bool,
}

impl Work for Crossed {
    type Out = u64;

    ghost done = { λ _ _ _ _. Unit {0} };

    fn work<M: SharedMemory>(&self, me: u8, memory: &mut M) -> Result<u64, Fault> {
        if me > 1 {
            return Ok(7);
        }
        let mine = u64::from(me);
        if self.first {
            advance_count(memory, mine)?;
        }
        await_(memory, 1 - mine, 1)?;
        advance_count(memory, mine)?;
        Ok(mine)
    }
}

/// What a watched session of three nodes comes to.
fn watched<W: Work + Sync, R: Threads + Wait + Sync + AllocGlobal>(
    rt: &R,
    manager: Kind,
    work: &W,
) -> Result<Watched<W::Out, Global>, OwnFault> {
    let nodes = config(3, manager);
    run_watching(rt, rt.alloc(), nodes, work, ROOMY, &OpenGate, Keep::History)
}

/// Two nodes wait for each other, and the third one has ended.
fn two_wait<R: Threads + Wait + Sync + AllocGlobal + Abort>(rt: &R, manager: Kind) {
    let Ok(Err(standstill)) = watched(rt, manager, &Crossed { first: false }) else {
        panic!(rt; "the session stands still");
    };
    let (nodes, outs) = (&standstill.nodes, &standstill.outs);
    assert_eq!(rt; outs.as_slice(), [None, None, Some(7)].as_slice());
    assert_eq!(rt; nodes.nodes(), 3);
    assert_eq!(rt; nodes.asked(0), Some(Call::Await { k: 1, least: 1 }));
    assert_eq!(rt; nodes.asked(1), Some(Call::Await { k: 0, least: 1 }));
    assert_eq!(rt; nodes.asked(2), None);
}

#[test]
fn two_awaits_stand_still(rt: HostRuntime) {
    two_wait(&rt, Kind::Fixed);
    two_wait(&rt, Kind::Dynamic);
}

#[test]
fn one_that_ends_is_reported(rt: HostRuntime) {
    let Ok(Ok(report)) = watched(&rt, Kind::Dynamic, &Crossed { first: true }) else {
        panic!(&rt; "the session ends");
    };
    assert_eq!(&rt; report.outs.as_slice(), [0, 1, 7].as_slice());
    assert_eq!(&rt; report.nodes.nodes(), 3);
    assert_eq!(&rt; report.nodes.history(0).len(), 3);
}

/// Node 0 waits for what nobody does, and node 1 gives up.
struct WaitsForOne;

impl Work for WaitsForOne {
    type Out = u64;

    ghost done = { λ _ _ _ _. Unit {0} };

    fn work<M: SharedMemory>(&self, me: u8, memory: &mut M) -> Result<u64, Fault> {
        if me == 1 {
            return Err(Fault::CountFull);
        }
        Ok(await_(memory, 0, 1)?)
    }
}

#[test]
fn one_that_gives_up_is_named(rt: HostRuntime) {
    let fault = watched(&rt, Kind::Fixed, &WaitsForOne).err();
    assert_eq!(&rt;
        fault,
        Some(OwnFault::GaveUp {
            node: 1,
            fault: Fault::CountFull
        })
    );
}
