//! Schedules without the moves that are not needed for what is printed.

use crate::named::Named;
use crate::play::{Play, seen};
use crate::progress::Progress;
use crate::text::Text;
use crate::world::output_of;
use ivy_charts::RunLog;
use ivy_model::Fault;
use ivy_moves::Move;
use std::alloc::Global;

/// How many runs are made at most.
const MOST_RUNS: u64 = 5_000;

/// A schedule from which moves were dropped.
#[derive(Drop)]
pub struct Shorter {
    pub moves: Vec<Move>,
    /// How many runs were made.
    pub runs: u64,
    /// Whether each move that is left was tried alone, after the last one was dropped.
    pub is_least: bool,
}

/// Makes the moves that are meant, and leaves out those that name a string that was not sent.
fn replay(play: &mut Play, named: &[Named]) -> Result<(), Fault> {
    for one in named {
        if let Some(step) = one.step(&play.log().strings) {
            play.make(step)?;
        }
    }
    Ok(())
}

/// The play by the moves that are meant. None where one of them is refused.
fn replayed(text: &Text<'_>, named: &[Named]) -> Result<Option<Play>, Fault> {
    let mut play = Play::new(text)?;
    match replay(&mut play, named) {
        Ok(()) => Ok(Some(play)),
        Err(Fault::Memory) => Err(Fault::Memory),
        Err(_) => Ok(None),
    }
}

/// Whether two worlds printed the same.
fn prints_same(one: &Play, other: &Play) -> bool {
    let (left, right) = (one.world(), other.world());
    for node in 0..left.nodes() {
        if output_of(left, node) != output_of(right, node) {
            return false;
        }
    }
    true
}

/// The moves without so many from a place on.
fn without(alloc: Global, named: &[Named], from: usize, count: usize) -> Result<Vec<Named>, Fault> {
    let mut rest = Vec::new(alloc);
    for place in 0..named.len() {
        if place < from || place - from >= count {
            rest.push(named[place])?;
        }
    }
    Ok(rest)
}

/// The moves of a run.
fn steps_of(alloc: Global, log: &RunLog) -> Result<Vec<Move>, Fault> {
    let mut steps = Vec::new(alloc);
    for happening in log.happenings.iter() {
        steps.push(happening.step)?;
    }
    Ok(steps)
}

/// How a search for a shorter schedule stands.
#[derive(Drop)]
struct Shortening<'a> {
    text: Text<'a>,
    /// What the run is to print.
    wanted: Play,
    named: Vec<Named>,
    runs: u64,
}

impl Shortening<'_> {
    /// Tries to drop so many moves from a place on. It says whether they were dropped.
    fn drop_at(&mut self, from: usize, count: usize) -> Result<bool, Fault> {
        self.runs = self.runs.saturating_add(1);
        let rest = without(self.text.alloc, &self.named, from, count)?;
        match replayed(&self.text, &rest)? {
            Some(play) => self.take(&play),
            None => Ok(false),
        }
    }

    /// Goes on with the moves of a play, if it prints what is wanted. It says whether it does.
    fn take(&mut self, play: &Play) -> Result<bool, Fault> {
        let is_same = prints_same(play, &self.wanted);
        if is_same {
            self.named = Named::all_of(self.text.alloc, play.log())?;
        }
        Ok(is_same)
    }

    /// Goes through the moves once, and tries to drop so many at a time. It says whether any were dropped.
    fn pass<P: Progress>(&mut self, count: usize, progress: &mut P) -> Result<bool, Fault> {
        let mut from = 0usize;
        let mut is_shorter = false;
        for _ in 0..MOST_RUNS {
            if from >= self.named.len() || self.runs >= MOST_RUNS {
                return Ok(is_shorter);
            }
            progress.tell(self.runs, "runs");
            if self.drop_at(from, count)? {
                is_shorter = true;
            } else {
                from = from.saturating_add(count);
            }
        }
        Ok(is_shorter)
    }

    /// Halves first, then quarters, and so on.
    fn halve<P: Progress>(&mut self, progress: &mut P) -> Result<(), Fault> {
        let mut count = self.named.len() / 2;
        for _ in 0..64 {
            if count <= 1 {
                return Ok(());
            }
            let _ = self.pass(count, progress)?;
            count /= 2;
        }
        Ok(())
    }

    /// One by one, until none can be dropped. It says whether that was so before the runs were used up.
    fn pick<P: Progress>(&mut self, progress: &mut P) -> Result<bool, Fault> {
        for _ in 0..MOST_RUNS {
            let is_shorter = self.pass(1, progress)?;
            if self.runs >= MOST_RUNS {
                return Ok(false);
            }
            if !is_shorter {
                return Ok(true);
            }
        }
        Ok(false)
    }
}

impl Shortening<'_> {
    /// The moves that are left, or all of them where the names stand for other moves.
    fn left(&self, moves: &[Move]) -> Result<Vec<Move>, Fault> {
        match replayed(&self.text, &self.named)? {
            Some(play) if prints_same(&play, &self.wanted) => steps_of(self.text.alloc, play.log()),
            _ => Ok(moves.to_vec(self.text.alloc)?),
        }
    }

    /// Drops moves, halves first.
    fn shorten<P: Progress>(&mut self, moves: &[Move], progress: &mut P) -> Result<Shorter, Fault> {
        self.halve(progress)?;
        let is_least = self.pick(progress)?;
        let moves = self.left(moves)?;
        let runs = self.runs;
        Ok(Shorter {
            moves,
            runs,
            is_least,
        })
    }
}

/// Moves of a schedule that print the same at their end, of which as many were dropped as 5,000 runs allow
/// [1, 2, 17, 19, 20]. It tells how many runs it made.
pub fn shortened<P: Progress>(
    text: &Text<'_>,
    moves: &[Move],
    progress: &mut P,
) -> Result<Shorter, Fault> {
    let wanted = seen(text, moves, progress)?;
    let named = Named::all_of(text.alloc, wanted.log())?;
    let mut shortening = Shortening {
        text: *text,
        wanted,
        named,
        runs: 0,
    };
    shortening.shorten(moves, progress)
}
