//! Each program, over a few nodes.
ghost use Rattle.std.specs.Prelude.{◌≡◌};

use example_programs::{
    Election, Ledger, Matrices, Peterson, ReadersWriter, Squares, TwoCount, WorkQueue, count, elect,
};
use ivy_model::{Config, Kind};
use ivy_node::{Limits, OpenGate, Work, run_with};
use ivy_sync::{Barrier, Lock};
use std::process::Abort;
use std::sync::Wait;
use std::thread::Threads;

/// Limits that serve each of these programs.
const ROOMY: Limits = Limits {
    capacity: 64,
    turns: 1_000_000_000,
    pulse_every: 64,
};

/// Four nodes over half a megabyte in large pages.
const FEW: Config = Config {
    nodes: 4,
    pages: 128,
    page_size: 4_096,
    manager: Kind::Dynamic,
};

/// The same memory in small pages, of which there are more than a narrow configuration has.
const MANY: Config = Config {
    nodes: 4,
    pages: 2_048,
    page_size: 256,
    manager: Kind::Fixed,
};

/// What each node gives.
fn given<W, R>(rt: &R, config: Config, work: &W) -> Vec<W::Out>
where
    W: Work + Sync,
    R: Threads + Wait + Sync + AllocGlobal + Abort,
{
    run_with(rt, rt.alloc(), config, work, ROOMY, &OpenGate)
        .expect(rt, "a report")
        .outs
}

/// The barrier of so many nodes.
fn meeting(nodes: u8) -> Barrier
    ensures { result ≡ record { count = 0; nodes = nodes; passed = 0 } }
{
    Barrier {
        count: 0,
        nodes,
        passed: 0,
    }
}

/// The sum of what they gave.
fn sum(outs: &[u64]) -> u64 {
    outs.iter().fold(0u64, |sum, out| sum.wrapping_add(*out))
}

#[test]
fn one_leads(rt: HostRuntime) {
    let config = Config {
        nodes: 8,
        pages: 2,
        page_size: 64,
        manager: Kind::Dynamic,
    };
    let outs = elect(&rt, rt.alloc(), config, &Election { addr: 64 }, ROOMY).expect(
        &rt, "a leader",
    );
    let first = outs.first().copied().unwrap_or(0);
    assert!(&rt; first < 8);
    assert!(&rt; outs.iter().all(|leader| *leader == first));
}

#[test]
fn squares_are_summed(rt: HostRuntime) {
    let queue = WorkQueue {
        lock: Lock { addr: 4_096 },
        put: 4_104,
        taken: 4_112,
        places: 8_192,
        size: 4,
    };
    let work = Squares {
        queue,
        jobs: 100,
        workers: 3,
    };
    // 1 * 1 + 2 * 2 + .. + 100 * 100 = 100 * 101 * 201 / 6
    assert_eq!(&rt; sum(&given(&rt, FEW, &work)), 338_350);
}

#[test]
fn a_product_of_128_rows(rt: HostRuntime) {
    let work = Matrices {
        size: 128,
        left: 4_096,
        right: 135_168,
        product: 266_240,
        barrier: meeting(4),
        alloc: rt.alloc(),
    };
    // row i and column j have 128 * i * j, and 0 + 1 + .. + 127 = 8,128
    let outs = given(&rt, MANY, &work);
    assert_eq!(&rt; sum(&outs), 128 * 8_128 * 8_128);
    // node 0 has rows 0 to 31, whose numbers add up to 496
    assert_eq!(&rt; outs.first().copied(), Some(128 * 496 * 8_128));
}

#[test]
fn readers_see_both_words(rt: HostRuntime) {
    let work = Ledger {
        lock: ReadersWriter { addr: 4_096 },
        words: (8_192, 12_288),
        times: 40,
        barrier: meeting(4),
    };
    let outs = given(&rt, FEW, &work);
    assert_eq!(&rt; outs.as_slice(), [80, 0, 80, 0].as_slice());
}

#[test]
fn two_count_to_200(rt: HostRuntime) {
    let config = Config {
        nodes: 2,
        pages: 8,
        page_size: 4_096,
        manager: Kind::Fixed,
    };
    let work = TwoCount {
        lock: Peterson {
            wish_0: 4_096,
            wish_1: 8_192,
            turn: 12_288,
        },
        sum: 16_384,
        times: 100,
        barrier: meeting(2),
    };
    let outs = count(&rt, rt.alloc(), config, &work, ROOMY).expect(&rt, "what each found");
    assert_eq!(&rt; outs.as_slice(), [200, 200].as_slice());
}
