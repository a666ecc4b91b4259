//! What came of the seeds of a program, in numbers.

use ivy_model::{Kind, Record, Reply};
use std::io::{self, Write};

/// An odd number that spreads the bits of a sum (that of FNV-1a).
const SPREAD: u64 = 0x0000_0100_0000_01b3;

/// Both managers, by name.
pub(crate) const MANAGERS: [(Kind, &str); 2] = [(Kind::Fixed, "fixed"), (Kind::Dynamic, "dynamic")];

/// What came of the seeds of a program, in numbers.
#[derive(Clone, Copy)]
pub(crate) struct Digest {
    plays: u64,
    moves: u64,
    records: u64,
    /// A sum over all replies, in their order.
    sum: u64,
    /// The first seed of which something does not hold that must.
    failed: Option<u64>,
}

/// A reply as a number.
fn number_of(reply: Reply) -> u64 {
    match reply {
        Reply::Done => 1,
        Reply::Value(value) => value.wrapping_add(2),
        Reply::Refused(code) => u64::MAX - u64::from(code),
    }
}

impl Digest {
    /// Nothing was played yet.
    pub(crate) fn new() -> Digest {
        Digest {
            plays: 0,
            moves: 0,
            records: 0,
            sum: 0,
            failed: None,
        }
    }

    /// Adds a play by so many moves, and whether all holds of it that must.
    pub(crate) fn add_play(&mut self, seed: u64, moves: usize, holds: bool) {
        self.plays = self.plays.saturating_add(1);
        self.moves = self.moves.saturating_add(moves as u64);
        if !holds && self.failed.is_none() {
            self.failed = Some(seed);
        }
    }

    /// Adds what a node was answered in it.
    pub(crate) fn add_history(&mut self, history: &[Record]) {
        for record in history {
            let word = number_of(record.reply);
            self.sum = (self.sum ^ word).wrapping_mul(SPREAD);
        }
        self.records = self.records.saturating_add(history.len() as u64);
    }

    /// Prints it. It says whether all held.
    pub(crate) fn print<W: Write>(
        &self,
        name: &str,
        manager: &str,
        out: &mut W,
    ) -> io::Result<bool> {
        let (plays, moves, records, sum) = (self.plays, self.moves, self.records, self.sum);
        write!(
            out,
            "{name}, {manager}: {plays} plays, {moves} moves, {records} records, "
        )?;
        match self.failed {
            None => writeln!(out, "sum {sum:016x}: all hold")?,
            Some(seed) => writeln!(out, "sum {sum:016x}: seed {seed} FAILS")?,
        }
        Ok(self.failed.is_none())
    }
}
