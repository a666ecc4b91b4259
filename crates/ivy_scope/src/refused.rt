//! Calls of a session that are refused, told as they are found.

use crate::watched::Watch;
use ivy_explain::{Lines, Listing, Place, Printed, Refusal, Walk};
use ivy_model::{Record, Reply};
use ivy_replay::Progress;
use ivy_session::{Gate, Role};
use std::alloc::{AllocError, Global};
use std::io::Write;
use std::sync::{Mutex, Wait};

/// After how many turns of node 0 it is told how many there were.
const TOLD_EVERY: u64 = 4_096;

/// How many turns node 0 made.
#[derive(Drop)]
struct Turns<'a, P> {
    made: u64,
    progress: &'a mut P,
}

impl<P: Progress> Turns<'_, P> {
    /// One more.
    fn pass(&mut self) {
        self.made = self.made.saturating_add(1);
        if self.made % TOLD_EVERY == 0 {
            self.progress.tell(self.made, "turns of node 0");
        }
    }
}

/// Tells a stream of each line of a session whose calls are refused, as it is found, and how far node 0 is.
#[derive(Drop)]
pub(crate) struct Refusals<'a, R, E, P> {
    rt: &'a R,
    lines: &'a Lines,
    is_strict: bool,
    /// Where the program of each node is.
    walks: Vec<Mutex<Walk<'a>>>,
    told: Mutex<Printed<'a, E>>,
    turns: Mutex<Turns<'a, P>>,
}

impl<'a, R: Wait, E: Write, P: Progress> Refusals<'a, R, E, P> {
    /// Of these programs, of whose calls none was refused yet.
    pub(crate) fn new(
        rt: &'a R,
        alloc: Global,
        listing: &'a Listing,
        is_strict: bool,
        err: &'a mut E,
        progress: &'a mut P,
    ) -> Result<Self, AllocError> {
        let mut walks = Vec::new(alloc);
        for program in listing.programs.iter() {
            walks.push(Mutex::new(Walk::new(program)))?;
        }
        Ok(Refusals {
            rt,
            lines: &listing.lines,
            is_strict,
            walks,
            told: Mutex::new(Printed::new(alloc, err)),
            turns: Mutex::new(Turns { made: 0, progress }),
        })
    }

    /// The line at which a node made its next call, which was answered so.
    fn line_of(&self, node: u8, record: &Record) -> Option<usize> {
        match self.place_of(node, record)? {
            Place::Call(place) => self.lines.get(u64::from(node), place),
            _ => None,
        }
    }

    /// Where the program of a node was, which goes on with this answer.
    fn place_of(&self, node: u8, record: &Record) -> Option<Place> {
        let mut walk = self.walks.get(usize::from(node))?.lock(self.rt);
        let place = walk.next();
        walk.answer(record);
        Some(place)
    }

    /// Tells how many calls were refused, and gives the number.
    pub(crate) fn finish(&self) -> u64 {
        let mut told = self.told.lock(self.rt);
        // What was refused counts also where the stream takes nothing.
        let _ = told.sum_up();
        told.count
    }
}

impl<R: Wait + Sync, E: Write + Send, P: Progress + Send> Gate for Refusals<'_, R, E, P> {
    fn enter(&self, node: u8, _role: Role, _records: u64) {
        if node == 0 {
            self.turns.lock(self.rt).pass();
        }
    }
}

impl<R: Wait + Sync, E: Write + Send, P: Progress + Send> Watch for Refusals<'_, R, E, P> {
    fn record(&self, node: u8, record: &Record) -> bool {
        let line = self.line_of(node, record);
        let Reply::Refused(code) = record.reply else {
            return true;
        };
        self.told.lock(self.rt).note(Refusal {
            node,
            line,
            call: record.call,
            code,
            count: 1,
        });
        !self.is_strict
    }
}
