//! Own code by drawn moves.
ghost use Rattle.std.specs.Prelude.{◌≡◌};

use crate::checks::{AllGive, Check, EachJobOnce, GiveEach};
use crate::digest::{Digest, MANAGERS};
use anyhow::Error;
use example_programs::{AddsUp, Farm, Ledger, ReadersWriter};
use ivy_model::{Config, Fault, Kind};
use ivy_play::{PlayReport, Rest, Work, play_drawn};
use ivy_sync::{Barrier, Lock};
use std::alloc::Global;
use std::io::Write;
use std::sync::Wait;
use std::thread::Threads;

/// The last of the seeds, of which the first is 1.
const LAST: u64 = 20;

/// How many moves are drawn for each seed; and how many where the world then does not come to its end. The moves that let
/// it settle are always the same, and under hints a node can be sent round by them for ever while the others spin.
const MOVES: [u64; 2] = [500, 50_000];

/// How many moves let each of these programs come to its end.
const ENOUGH: u64 = 1_000_000;

/// The barrier of so many nodes at eventcount 0.
fn barrier_of(nodes: u8) -> Barrier
    ensures { result.nodes ≡ nodes }
{
    Barrier {
        count: 0,
        nodes,
        passed: 0,
    }
}

/// Four small pages.
fn config_of(nodes: u8, manager: Kind) -> Config {
    Config {
        nodes,
        pages: 4,
        page_size: 256,
        manager,
    }
}

/// The play of a work by a seed, which comes to a standstill if it can.
fn play_of<R, W>(
    rt: &R,
    config: Config,
    work: &W,
    seed: u64,
) -> Result<PlayReport<W::Out, Global>, Fault>
where
    R: Threads + Wait + AllocGlobal + Sync,
    W: Work + Sync,
{
    let [few, many] = MOVES;
    let report = play_drawn(rt, rt.alloc(), config, work, seed, few, ENOUGH)?;
    if report.rest == Rest::Still {
        return Ok(report);
    }
    play_drawn(rt, rt.alloc(), config, work, seed, many, ENOUGH)
}

/// Adds the play of a seed, of which the check must hold.
fn add_play<T, C>(digest: &mut Digest, seed: u64, report: &PlayReport<T, Global>, check: &C)
where
    T: Drop,
    C: Check<T>,
{
    let holds = report.rest == Rest::Still && check.holds(&report.outcomes);
    digest.add_play(seed, report.moves.len(), holds);
    for node in 0..report.world.nodes() {
        digest.add_history(report.world.history(node));
    }
}

/// The plays of a work by all seeds, in numbers.
fn digest_of<R, T, W, C>(rt: &R, config: Config, work: &W, check: &C) -> Result<Digest, Fault>
where
    R: Threads + Wait + AllocGlobal + Sync,
    T: Send + Drop,
    W: Work<Out = T> + Sync,
    C: Check<T>,
{
    let mut digest = Digest::new();
    for seed in 1..=LAST {
        let report = play_of(rt, config, work, seed)?;
        add_play(&mut digest, seed, &report, check);
    }
    Ok(digest)
}

/// A work, with its name and how many nodes it has.
#[derive(Clone, Copy)]
struct Player<'w, W> {
    name: &'static str,
    nodes: u8,
    work: &'w W,
}

impl<'w, W> Player<'w, W> {
    /// Plays it by all seeds under either manager. It says whether all held.
    fn play<R, T, C, O>(&self, rt: &R, check: &C, out: &mut O) -> Result<bool, Error>
    where
        R: Threads + Wait + AllocGlobal + Sync,
        T: Send + Drop,
        W: Work<Out = T> + Sync,
        C: Check<T>,
        O: Write,
    {
        let mut all_hold = true;
        for (kind, manager) in MANAGERS {
            let digest = digest_of(rt, config_of(self.nodes, kind), self.work, check)?;
            all_hold &= digest.print(self.name, manager, out)?;
        }
        Ok(all_hold)
    }
}

/// Four nodes add their numbers, 0 to 3, to one word under a lock.
fn play_sum<R, O>(rt: &R, out: &mut O) -> Result<bool, Error>
where
    R: Threads + Wait + AllocGlobal + Sync,
    O: Write,
{
    let work = AddsUp {
        lock: Lock { addr: 256 },
        sum: 512,
        barrier: barrier_of(4),
    };
    let player = Player {
        name: "sum",
        nodes: 4,
        work: &work,
    };
    player.play(rt, &AllGive(6), out)
}

/// Three nodes share out twenty jobs.
fn play_farm<R, O>(rt: &R, out: &mut O) -> Result<bool, Error>
where
    R: Threads + Wait + AllocGlobal + Sync,
    O: Write,
{
    let work = Farm {
        next: 256,
        jobs: 20,
        alloc: rt.alloc(),
    };
    let player = Player {
        name: "farm",
        nodes: 3,
        work: &work,
    };
    player.play(rt, &EachJobOnce(20), out)
}

/// Two nodes add 1 to two words five times each, and two look whether both are the same.
fn play_ledger<R, O>(rt: &R, out: &mut O) -> Result<bool, Error>
where
    R: Threads + Wait + AllocGlobal + Sync,
    O: Write,
{
    let work = Ledger {
        lock: ReadersWriter { addr: 256 },
        words: (512, 768),
        times: 5,
        barrier: barrier_of(4),
    };
    let player = Player {
        name: "ledger",
        nodes: 4,
        work: &work,
    };
    player.play(rt, &GiveEach(&[10, 0, 10, 0]), out)
}

/// Plays the works by all seeds under either manager. It says whether all held.
pub(crate) fn play_works<R, O>(rt: &R, out: &mut O) -> Result<bool, Error>
where
    R: Threads + Wait + AllocGlobal + Sync,
    O: Write,
{
    let sum = play_sum(rt, out)?;
    let farm = play_farm(rt, out)?;
    let ledger = play_ledger(rt, out)?;
    Ok(sum && farm && ledger)
}
