//! Plays by many seeds.
ghost use Rattle.std.specs.Prelude.{◌≡◌, ◌≤◌, IfErr, IfOk, IfSome};
ghost use Rattle.ivy_play.specs.Faults.{IsPlayFault};
ghost use Rattle.ivy_play.specs.Endings.{ComesToRest};
ghost use Rattle.ivy_play.specs.Played.{HasDrawn};
ghost use Rattle.ivy_play.specs.Reports.{IsPlayReport};
ghost use Rattle.ivy_play.specs.SeedPlays.{FailsBySeed};

use crate::checks::Check;
use crate::shorter::{ShorterPlay, shortest};
use crate::{PlayReport, Work, play_drawn_opening};
use ivy_model::{Config, Fault};
use ivy_world::Opening;
use std::alloc::Allocator;
use std::sync::Wait;
use std::thread::Threads;

/// Which seeds are played, and how far.
#[derive(Clone, Copy, Debug, PartialEq, Eq)]
pub struct Seeds {
    /// The first seed.
    pub first: u64,
    /// The last seed.
    pub last: u64,
    /// How many moves are drawn.
    pub moves: u64,
    /// How many moves are made at most to let the world settle then.
    pub settle: u64,
}

/// The first seed whose play fails.
#[derive(Drop)]
pub struct Failing<T: Drop, A: Allocator> {
    /// The seed.
    pub seed: u64,
    /// A play that fails, by a schedule from which moves were dropped.
    pub shorter: ShorterPlay<T, A>,
}

/// Plays one seed after another [1, 2, 17, 19], until a report does not hold. That seed is given, with the shortest
/// schedule that was found which fails too ([`shortest`]).
pub fn play_all<A, R, T, W, F>(
    rt: &R,
    alloc: A,
    config: Config,
    work: &W,
    seeds: Seeds,
    check: &F,
) -> Result<Option<Failing<T, A>>, Fault>
where
    A: Allocator + Copy + Send + Sync,
    R: Threads + Wait + Sync,
    T: Send + Drop,
    W: Work<Out = T> + Sync,
    F: Check<T>,
    ensures report { IfOk result (λ found. IfSome found (λ failing. IsPlayReport config (W.done work.now) failing.shorter.report.moves.items failing.shorter.report.world failing.shorter.report.outcomes.items failing.shorter.report.rest)) }
    ensures rests { IfOk result (λ found. IfSome found (λ failing. ComesToRest config seeds.settle failing.shorter.report.moves.items failing.shorter.report.drawn failing.shorter.report.world.world failing.shorter.report.outcomes.items failing.shorter.report.rest)) }
    ensures drawn { IfOk result (λ found. IfSome found (λ failing. HasDrawn config seeds.settle failing.shorter.report.moves.items failing.shorter.report.drawn)) }
    ensures fails { IfOk result (λ found. IfSome found (λ failing. F.fails check.now failing.shorter.report.outcomes.items)) }
    ensures seed { IfOk result (λ found. IfSome found (λ failing. (seeds.first ≤ failing.seed) × (failing.seed ≤ seeds.last))) }
    ensures seed_fails { IfOk result (λ found. IfSome found (λ failing. FailsBySeed config Opening.Configured (W.done work.now) failing.seed seeds.moves seeds.settle (F.fails check.now))) }
    ensures opened { IfOk result (λ found. IfSome found (λ failing. failing.shorter.report.world.opened ≡ Opening.Configured)) }
    ensures fault { IfErr result IsPlayFault }
{
    play_all_opening(rt, alloc, config, work, seeds, check, Opening::Configured)
}

/// The same, of nodes that begin so: by the manager that the configuration names, or by steady hints [1, 2, 17, 19].
pub fn play_all_opening<A, R, T, W, F>(
    rt: &R,
    alloc: A,
    config: Config,
    work: &W,
    seeds: Seeds,
    check: &F,
    opening: Opening,
) -> Result<Option<Failing<T, A>>, Fault>
where
    A: Allocator + Copy + Send + Sync,
    R: Threads + Wait + Sync,
    T: Send + Drop,
    W: Work<Out = T> + Sync,
    F: Check<T>,
    ensures report { IfOk result (λ found. IfSome found (λ failing. IsPlayReport config (W.done work.now) failing.shorter.report.moves.items failing.shorter.report.world failing.shorter.report.outcomes.items failing.shorter.report.rest)) }
    ensures rests { IfOk result (λ found. IfSome found (λ failing. ComesToRest config seeds.settle failing.shorter.report.moves.items failing.shorter.report.drawn failing.shorter.report.world.world failing.shorter.report.outcomes.items failing.shorter.report.rest)) }
    ensures drawn { IfOk result (λ found. IfSome found (λ failing. HasDrawn config seeds.settle failing.shorter.report.moves.items failing.shorter.report.drawn)) }
    ensures fails { IfOk result (λ found. IfSome found (λ failing. F.fails check.now failing.shorter.report.outcomes.items)) }
    ensures seed { IfOk result (λ found. IfSome found (λ failing. (seeds.first ≤ failing.seed) × (failing.seed ≤ seeds.last))) }
    ensures seed_fails { IfOk result (λ found. IfSome found (λ failing. FailsBySeed config opening (W.done work.now) failing.seed seeds.moves seeds.settle (F.fails check.now))) }
    ensures opened { IfOk result (λ found. IfSome found (λ failing. failing.shorter.report.world.opened ≡ opening)) }
    ensures fault { IfErr result IsPlayFault }
{
    for seed in seeds.first..=seeds.last {
        let report = play_drawn_opening(
            rt,
            alloc,
            config,
            work,
            seed,
            seeds.moves,
            seeds.settle,
            opening,
        )?;
        if !check.holds(&report) {
            let shorter = shortest(rt, alloc, config, work, report, seeds.settle, check)?;
            return Ok(Some(Failing { seed, shorter }));
        }
    }
    Ok(None)
}
