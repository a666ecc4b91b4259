//! Schedules without the moves that are not needed for a play to fail.
ghost use Rattle.std.specs.Prelude.{◌≡◌, IfErr, IfOk, IfSome};
ghost use Rattle.ivy_play.specs.Faults.{IsPlayFault, IsPlayStop};
ghost use Rattle.ivy_play.specs.Endings.{ComesToRest};
ghost use Rattle.ivy_play.specs.Played.{HasDrawn};
ghost use Rattle.ivy_play.specs.Reports.{IsPlayReport};

use crate::checks::Check;
use crate::named_moves::{Renamed, names_of, turns_at, without};
use crate::{PlayReport, Work, play_with_opening};
use ivy_model::{Config, Fault};
use ivy_replay::Named;
use ivy_world::Opening;
use std::alloc::Allocator;
use std::marker::PhantomData;
use std::sync::Wait;
use std::thread::Threads;

/// How many plays are made at most.
const MOST_RUNS: u64 = 5_000;

/// A play that fails, by a schedule from which moves were dropped.
#[derive(Drop)]
pub struct ShorterPlay<T: Drop, A: Allocator> {
    /// What it came to, with its moves.
    pub report: PlayReport<T, A>,
    /// How many plays were made.
    pub runs: u64,
    /// Whether each drawn move that is left was tried alone, after the last one was dropped.
    pub is_least: bool,
}

/// What is played again and again, and the check that a play is to fail.
#[derive(Drop)]
struct Trial<'r, 'w, 'h, T, A, R, W, F> {
    rt: &'r R,
    alloc: A,
    config: Config,
    opening: Opening,
    work: &'w W,
    settle: u64,
    check: &'h F,
    of: PhantomData<T>,
}

/// The drawn moves that are left, by which a play fails.
#[derive(Drop)]
struct Best<A: Allocator> {
    named: Vec<Named, A>,
    /// How many plays were made.
    runs: u64,
    /// Whether moves were dropped in this pass.
    is_shorter: bool,
}

impl<'r, 'w, 'h, A, R, T, W, F> Trial<'r, 'w, 'h, T, A, R, W, F>
where
    A: Allocator + Copy + Send + Sync,
    R: Threads + Wait + Sync,
    T: Send + Drop,
    W: Work<Out = T> + Sync,
    F: Check<T>,
{
    /// The play by these moves [1, 2, 17, 19].
    fn play(&self, named: &[Named]) -> Result<PlayReport<T, A>, Fault>
        ensures report { IfOk result (λ report. IsPlayReport self.now.config (W.done self.now.work.now) report.moves.items report.world report.outcomes.items report.rest) }
        ensures rests { IfOk result (λ report. ComesToRest self.now.config self.now.settle report.moves.items report.drawn report.world.world report.outcomes.items report.rest) }
        ensures drawn { IfOk result (λ report. HasDrawn self.now.config self.now.settle report.moves.items report.drawn) }
        ensures opened { IfOk result (λ report. report.world.opened ≡ self.now.opening) }
        ensures fault { IfErr result IsPlayFault }
    {
        let source = Renamed::new(self.alloc, self.config, named);
        play_with_opening(
            self.rt,
            self.alloc,
            self.config,
            self.work,
            source,
            self.settle,
            self.opening,
        )
    }

    /// The play by these moves, where it fails [1].
    fn failing(&self, named: &[Named]) -> Result<Option<PlayReport<T, A>>, Fault>
        ensures report { IfOk result (λ found. IfSome found (λ report. IsPlayReport self.now.config (W.done self.now.work.now) report.moves.items report.world report.outcomes.items report.rest)) }
        ensures rests { IfOk result (λ found. IfSome found (λ report. ComesToRest self.now.config self.now.settle report.moves.items report.drawn report.world.world report.outcomes.items report.rest)) }
        ensures drawn { IfOk result (λ found. IfSome found (λ report. HasDrawn self.now.config self.now.settle report.moves.items report.drawn)) }
        ensures opened { IfOk result (λ found. IfSome found (λ report. report.world.opened ≡ self.now.opening)) }
        ensures fails { IfOk result (λ found. IfSome found (λ report. F.fails self.now.check.now report.outcomes.items)) }
        ensures stop { IfErr result IsPlayStop }
    {
        match self.play(named) {
            Ok(report) => {
                if self.check.holds(&report) {
                    return Ok(None);
                }
                Ok(Some(report))
            }
            Err(Fault::Memory) => Err(Fault::Memory),
            Err(_) => Ok(None),
        }
    }

    /// Tries to drop so many moves from a place on [1, 19]. It says whether fewer are left then: the turns that go with a row
    /// are made again where some of them are left out.
    fn drop_at(&self, best: &mut Best<A>, from: usize, count: usize) -> Result<bool, Fault>
        ensures stop { IfErr result IsPlayStop }
    {
        best.runs = best.runs.saturating_add(1);
        let rest = without(self.alloc, &best.named, from, count)?;
        let Some(report) = self.failing(&rest)? else {
            return Ok(false);
        };
        let left = names_of(self.alloc, &self.config, &report)?;
        if left.len() >= best.named.len() {
            return Ok(false);
        }
        best.named = left;
        best.is_shorter = true;
        Ok(true)
    }

    /// Tries to drop so many moves from a place on, or else all turns of one node there, as a row can have made them together
    /// [1, 19]. It says whether fewer are left then.
    fn drop_from(&self, best: &mut Best<A>, from: usize, count: usize) -> Result<bool, Fault>
        ensures stop { IfErr result IsPlayStop }
    {
        if self.drop_at(best, from, count)? {
            return Ok(true);
        }
        let turns = turns_at(&best.named, from);
        if turns <= count {
            return Ok(false);
        }
        self.drop_at(best, from, turns)
    }

    /// Goes through the moves once, and tries to drop so many at a time [1, 19].
    fn pass(&self, best: &mut Best<A>, count: usize) -> Result<(), Fault>
        ensures stop { IfErr result IsPlayStop }
    {
        let mut from = 0usize;
        best.is_shorter = false;
        for _ in 0..MOST_RUNS {
            if from >= best.named.len() || best.runs >= MOST_RUNS {
                return Ok(());
            }
            if !self.drop_from(best, from, count)? {
                from = from.saturating_add(count);
            }
        }
        Ok(())
    }

    /// Halves first, then quarters, and so on [1, 19].
    fn halve(&self, best: &mut Best<A>) -> Result<(), Fault>
        ensures stop { IfErr result IsPlayStop }
    {
        let mut count = best.named.len() / 2;
        for _ in 0..usize::BITS {
            if count <= 1 {
                return Ok(());
            }
            self.pass(best, count)?;
            count /= 2;
        }
        Ok(())
    }

    /// One by one, until none can be dropped [1, 19]. It says whether that was so.
    fn pick(&self, best: &mut Best<A>) -> Result<bool, Fault>
        ensures stop { IfErr result IsPlayStop }
    {
        for _ in 0..MOST_RUNS {
            self.pass(best, 1)?;
            if best.runs >= MOST_RUNS {
                return Ok(false);
            }
            if !best.is_shorter {
                return Ok(true);
            }
        }
        Ok(false)
    }

    /// Drops the moves that are not needed for this play to fail [1, 19].
    fn shorten(&self, first: PlayReport<T, A>) -> Result<ShorterPlay<T, A>, Fault>
        requires report { IsPlayReport self.now.config (W.done self.now.work.now) first.moves.items first.world first.outcomes.items first.rest }
        requires fails { F.fails self.now.check.now first.outcomes.items }
        requires opened { first.world.opened ≡ self.now.opening }
        ensures report { IfOk result (λ shorter. IsPlayReport self.now.config (W.done self.now.work.now) shorter.report.moves.items shorter.report.world shorter.report.outcomes.items shorter.report.rest) }
        ensures rests { ComesToRest self.now.config self.now.settle first.moves.items first.drawn first.world.world first.outcomes.items first.rest → IfOk result (λ shorter. ComesToRest self.now.config self.now.settle shorter.report.moves.items shorter.report.drawn shorter.report.world.world shorter.report.outcomes.items shorter.report.rest) }
        ensures drawn { HasDrawn self.now.config self.now.settle first.moves.items first.drawn → IfOk result (λ shorter. HasDrawn self.now.config self.now.settle shorter.report.moves.items shorter.report.drawn) }
        ensures fails { IfOk result (λ shorter. F.fails self.now.check.now shorter.report.outcomes.items) }
        ensures opened { IfOk result (λ shorter. shorter.report.world.opened ≡ self.now.opening) }
        ensures stop { IfErr result IsPlayStop }
    {
        let mut best = Best {
            named: names_of(self.alloc, &self.config, &first)?,
            runs: 0,
            is_shorter: false,
        };
        self.halve(&mut best)?;
        let is_least = self.pick(&mut best)?;
        let runs = best.runs;
        match self.failing(&best.named)? {
            Some(report) => Ok(ShorterPlay {
                report,
                runs,
                is_least,
            }),
            None => Ok(ShorterPlay {
                report: first,
                runs,
                is_least,
            }),
        }
    }
}

/// Drops those of the drawn moves of a play that are not needed for it to fail: halves first, then fewer at a time, and at
/// last one by one, in at most 5,000 plays [1, 19]. Each lets the world settle, with at most so many moves.
///
/// The nodes begin as those of the play did. A delivery means the string of its source, destination and number, also where
/// other moves are gone, and is left out where none was sent.
pub fn shortest<A, R, T, W, F>(
    rt: &R,
    alloc: A,
    config: Config,
    work: &W,
    report: PlayReport<T, A>,
    settle: u64,
    check: &F,
) -> Result<ShorterPlay<T, A>, Fault>
where
    A: Allocator + Copy + Send + Sync,
    R: Threads + Wait + Sync,
    T: Send + Drop,
    W: Work<Out = T> + Sync,
    F: Check<T>,
    requires report { IsPlayReport config (W.done work.now) report.moves.items report.world report.outcomes.items report.rest }
    requires fails { F.fails check.now report.outcomes.items }
    ensures report { IfOk result (λ shorter. IsPlayReport config (W.done work.now) shorter.report.moves.items shorter.report.world shorter.report.outcomes.items shorter.report.rest) }
    ensures rests { ComesToRest config settle report.moves.items report.drawn report.world.world report.outcomes.items report.rest → IfOk result (λ shorter. ComesToRest config settle shorter.report.moves.items shorter.report.drawn shorter.report.world.world shorter.report.outcomes.items shorter.report.rest) }
    ensures drawn { HasDrawn config settle report.moves.items report.drawn → IfOk result (λ shorter. HasDrawn config settle shorter.report.moves.items shorter.report.drawn) }
    ensures fails { IfOk result (λ shorter. F.fails check.now shorter.report.outcomes.items) }
    ensures opened { IfOk result (λ shorter. shorter.report.world.opened ≡ report.world.opened) }
    ensures stop { IfErr result IsPlayStop }
{
    let trial = Trial {
        rt,
        alloc,
        config,
        opening: report.world.opening(),
        work,
        settle,
        check,
        of: PhantomData,
    };
    trial.shorten(report)
}
