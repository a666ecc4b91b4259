//! Programs that are wrong, each found by a seed.
use crate::plays::common::{ENOUGH, MOVES, all_gave, config, meeting};
use example_programs::AddsUp;
use ivy_calls::{load, store};
use ivy_model::{Config, Fault, Kind};
use ivy_play::{Check, PlayReport, Seeds, SharedMemory, Work, play_all, play_listed};
use ivy_sync::Lock;
use std::alloc::Allocator;
use std::process::Abort;
use std::sync::Wait;
use std::test::Fail;
use std::thread::Threads;

/// Where the words lie, each in a page of its own.
const LOCK: u64 = 256;

const SUM: u64 = 512;

const FLAGS: [u64; 2] = [256, 768];

const TURN: u64 = 264;

/// How often each node adds one.
const TIMES: u64 = 3;

/// Each node adds one to a sum a few times, under a lock that forgets to be taken by a swap: it is looked at, and then it
/// is taken.
struct LooksThenTakes;

impl Work for LooksThenTakes {
    type Out = u64;

    ghost done = { λ _ _ _ _. Unit {0} };

    fn work<M: SharedMemory>(&self, _me: u8, memory: &mut M) -> Result<u64, Fault> {
        for _ in 0..TIMES {
            for _ in 0..u64::MAX {
                if load::<u64, M>(memory, LOCK)? == 0 {
                    break;
                }
            }
            store(memory, LOCK, 1u64)?;
            let sum: u64 = load(memory, SUM)?;
            store(memory, SUM, sum.wrapping_add(1))?;
            store(memory, LOCK, 0u64)?;
        }
        let mut barrier = meeting(2);
        barrier.wait(memory)?;
        Ok(load(memory, SUM)?)
    }
}

/// Peterson's lock of two nodes, whose turn word nobody writes.
struct WithoutTurns;

impl Work for WithoutTurns {
    type Out = u64;

    ghost done = { λ _ _ _ _. Unit {0} };

    fn work<M: SharedMemory>(&self, me: u8, memory: &mut M) -> Result<u64, Fault> {
        let (mine, other) = if me == 0 {
            (FLAGS[0], FLAGS[1])
        } else {
            (FLAGS[1], FLAGS[0])
        };
        for _ in 0..TIMES {
            store(memory, mine, 1u64)?;
            for _ in 0..u64::MAX {
                let waits = load::<u64, M>(memory, other)? == 1;
                if !waits || load::<u64, M>(memory, TURN)? == u64::from(me) {
                    break;
                }
            }
            let sum: u64 = load(memory, SUM)?;
            store(memory, SUM, sum.wrapping_add(1))?;
            store(memory, mine, 0u64)?;
        }
        let mut barrier = meeting(2);
        barrier.wait(memory)?;
        Ok(load(memory, SUM)?)
    }
}

/// The work of each node gives this.
#[derive(Clone, Copy)]
struct AllGive(u64);

impl Check<u64> for AllGive {
    ghost fails = { λ _ _. Unit {0} };

    fn holds<A: Allocator + Copy>(&self, report: &PlayReport<u64, A>) -> bool {
        all_gave(report, self.0)
    }
}

/// The seeds that are tried, each by so many drawn moves.
const SEEDS: Seeds = Seeds {
    first: 0,
    last: 99,
    moves: MOVES,
    settle: ENOUGH,
};

/// The first seed under 100 by which not every node gives this. Its shortest moves, listed, fail again.
fn first_failing<W, R>(rt: &R, work: &W, nodes: Config, wanted: u64) -> Result<u64, Fail>
where
    W: Work<Out = u64> + Sync,
    R: Threads + Wait + Abort + AllocGlobal + Sync,
{
    let alloc = rt.alloc();
    let Some(failing) = play_all(rt, alloc, nodes, work, SEEDS, &AllGive(wanted))? else {
        panic!(rt; "no seed under 100 fails")
    };
    let shorter = failing.shorter;
    assert!(rt; shorter.is_least);
    assert!(rt; shorter.report.drawn < 100);
    let again = play_listed(rt, alloc, nodes, work, &shorter.report.moves, 0)?;
    assert!(rt; !all_gave(&again, wanted));
    assert!(rt; again.moves == shorter.report.moves);
    Ok(failing.seed)
}

/// The seeds by which two nodes that add one three times lose one, under managing nodes and under hints.
fn seeds_of_two<W, R>(rt: &R, work: &W) -> Result<[u64; 2], Fail>
where
    W: Work<Out = u64> + Sync,
    R: Threads + Wait + Abort + AllocGlobal + Sync,
{
    let fixed = first_failing(rt, work, config(2, Kind::Fixed), 2 * TIMES)?;
    let dynamic = first_failing(rt, work, config(2, Kind::Dynamic), 2 * TIMES)?;
    Ok([fixed, dynamic])
}

#[test]
fn a_lock_that_is_looked_at(rt: HostRuntime) -> Result<(), Fail> {
    assert_eq!(&rt; seeds_of_two(&rt, &LooksThenTakes)?, [2, 2]);
    Ok(())
}

#[test]
fn a_lock_without_turns(rt: HostRuntime) -> Result<(), Fail> {
    assert_eq!(&rt; seeds_of_two(&rt, &WithoutTurns)?, [0, 0]);
    Ok(())
}

#[test]
fn a_barrier_of_one_less(rt: HostRuntime) -> Result<(), Fail> {
    let work = AddsUp {
        lock: Lock { addr: LOCK },
        sum: SUM,
        barrier: meeting(3),
    };
    assert_eq!(&rt; first_failing(&rt, &work, config(4, Kind::Dynamic), 6)?, 0);
    Ok(())
}

#[test]
fn in_257_pages(rt: HostRuntime) -> Result<(), Fail> {
    let nodes = Config {
        pages: 257,
        ..config(2, Kind::Fixed)
    };
    assert_eq!(&rt; first_failing(&rt, &LooksThenTakes, nodes, 2 * TIMES)?, 2);
    Ok(())
}
