//! The programs of `example_programs`, each over a few nodes. Each gives what its theorem says.
use crate::sessions::common::{ROOMY, config, meeting, run};
use example_programs::{
    AddsUp, ByNumbers, ByTickets, Farm, MadeLock, Pipeline, Product, RollCall, Stage,
};
use ivy_model::Kind;
use ivy_own::{Keep, OpenGate, run_with_keeping};
use ivy_sync::{Barrier, Broadcast, Lock, Queue, SharedSender, TicketLock};
use std::test::Fail;

/// Four nodes that add up, of which each gives 6.
const FOUR: AddsUp = AddsUp {
    lock: Lock { addr: 256 },
    sum: 512,
    barrier: Barrier {
        count: 0,
        nodes: 4,
        passed: 0,
    },
};

/// Where two nodes meet.
const TWO: Barrier = Barrier {
    count: 0,
    nodes: 2,
    passed: 0,
};

#[test]
fn nodes_add_up(rt: HostRuntime) {
    let report = run(&rt, rt.alloc(), 4, &FOUR).expect(&rt, "a report");
    assert_eq!(&rt; report.outs.as_slice(), [6, 6, 6, 6].as_slice());
    assert_eq!(&rt; report.nodes.nodes(), 4);
}

#[test]
fn histories_are_kept(rt: HostRuntime) {
    let report = run_with_keeping(
        &rt,
        rt.alloc(),
        config(4, Kind::Fixed),
        &FOUR,
        ROOMY,
        &OpenGate,
        Keep::History,
    )
    .expect(&rt, "a report");
    assert_eq!(&rt; report.outs.as_slice(), [6, 6, 6, 6].as_slice());
    for node in 0..report.nodes.nodes() {
        assert!(&rt; report.nodes.history(node).len() >= 7);
        assert!(&rt; report.nodes.events(node).is_empty());
    }
}

#[test]
fn jobs_are_shared_out(rt: HostRuntime) {
    let work = Farm {
        next: 256,
        jobs: 100,
        alloc: rt.alloc(),
    };
    let report = run(&rt, rt.alloc(), 3, &work).expect(&rt, "a report");
    let mut done = 0usize;
    for jobs in &report.outs {
        done = done.saturating_add(jobs.len());
    }
    assert_eq!(&rt; done, 100);
}

/// Three times a number and one, modulo 2^64.
#[derive(Drop)]
struct TripledAndOne;

impl Stage for TripledAndOne {
    ghost use Rattle.std.specs.Prelude.{◌+◌, ◌*◌, ◌%◌, ◌^◌};

    ghost gives = { λ _ n. (n * 3 % 2 ^ 64 + 1) % 2 ^ 64 };

    fn apply(&self, number: u64) -> u64 {
        number.wrapping_mul(3).wrapping_add(1)
    }
}

#[test]
fn three_stages(rt: HostRuntime) -> Result<(), Fail> {
    let work = Pipeline {
        values: vec![in rt.alloc(); 7, 0, u64::MAX]?,
        stage: TripledAndOne,
        first: Queue {
            at: 256,
            size: 3,
            sent: 1,
            taken: 2,
        },
        second: Queue {
            at: 512,
            size: 4,
            sent: 3,
            taken: 4,
        },
        alloc: rt.alloc(),
    };
    let report = run(&rt, rt.alloc(), 3, &work).expect(&rt, "a report");
    let Some(last) = report.outs.get(2) else {
        panic!(&rt; "what node 2 gives");
    };
    assert_eq!(&rt; last.as_slice(), [22, 1, 18446744073709551614].as_slice());
    Ok(())
}

#[test]
fn two_rows_of_a_product(rt: HostRuntime) -> Result<(), Fail> {
    let work = Product {
        left: vec![in rt.alloc(); 1, 2, 3, 4]?,
        right: vec![in rt.alloc(); 5, 6, 7, 8]?,
        addr: 256,
        barrier: TWO,
        alloc: rt.alloc(),
    };
    let report = run(&rt, rt.alloc(), 2, &work).expect(&rt, "a report");
    let mut entries = Vec::new(rt.alloc());
    for row in &report.outs {
        for entry in row {
            entries.push(*entry)?;
        }
    }
    assert_eq!(&rt; entries.as_slice(), [19, 22, 43, 50].as_slice());
    Ok(())
}

#[test]
fn a_lock_is_made_for_all(rt: HostRuntime) {
    let work = MadeLock {
        told: Broadcast {
            addr: 1016,
            barrier: meeting(3),
        },
    };
    let report = run(&rt, rt.alloc(), 3, &work).expect(&rt, "a report");
    assert_eq!(&rt; report.outs.as_slice(), [256, 256, 256].as_slice());
}

#[test]
fn all_are_called(rt: HostRuntime) {
    let work = RollCall {
        sender: SharedSender {
            queue: Queue {
                at: 512,
                size: 2,
                sent: 0,
                taken: 1,
            },
            lock: Lock { addr: 256 },
        },
        nodes: 4,
        alloc: rt.alloc(),
    };
    let report = run(&rt, rt.alloc(), 4, &work).expect(&rt, "a report");
    let Some(numbers) = report.outs.get(0) else {
        panic!(&rt; "what node 0 gives");
    };
    assert_eq!(&rt; numbers.len(), 4);
    for node in 0..4u64 {
        assert!(&rt; numbers.contains(&node));
    }
}

#[test]
fn nodes_take_turns(rt: HostRuntime) {
    let by_tickets = ByTickets {
        lock: TicketLock { next: 256, turn: 0 },
    };
    let drawn = run(&rt, rt.alloc(), 3, &by_tickets).expect(&rt, "a report");
    for ticket in 0..3u64 {
        assert!(&rt; drawn.outs.contains(&ticket));
    }
    let counted = run(&rt, rt.alloc(), 3, &ByNumbers { turn: 0 }).expect(&rt, "a report");
    assert_eq!(&rt; counted.outs.as_slice(), [0, 1, 2].as_slice());
}
