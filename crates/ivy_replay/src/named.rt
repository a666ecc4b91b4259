//! Moves that name their strings by source, destination and number, which stay when other moves are dropped.

use ivy_charts::{RunHead, RunLog};
use ivy_moves::Move;
use std::alloc::{AllocError, Global};

/// A move that names its string by what its frame says.
#[derive(Clone, Copy)]
pub enum Named {
    /// A move that names no string.
    Plain(Move),
    /// The last string of these that was sent is delivered.
    Deliver {
        source: u8,
        dest: u8,
        number: u64,
        to: u64,
    },
}

/// The last string of this source, destination and number.
fn place_of(strings: &[RunHead], source: u8, dest: u8, number: u64) -> Option<usize> {
    for place in (0..strings.len()).rev() {
        let head = &strings[place];
        if head.source == source && head.dest == dest && head.number == number {
            return Some(place);
        }
    }
    None
}

impl Named {
    /// The name of a move of a run.
    fn of(step: Move, log: &RunLog) -> Named {
        let Move::Deliver { index, to } = step else {
            return Named::Plain(step);
        };
        match log.strings.get(index as usize) {
            None => Named::Plain(step),
            Some(head) => Named::Deliver {
                source: head.source,
                dest: head.dest,
                number: head.number,
                to,
            },
        }
    }

    /// The names of the moves of a run.
    pub fn all_of(alloc: Global, log: &RunLog) -> Result<Vec<Named>, AllocError> {
        let mut named = Vec::new(alloc);
        for happening in log.happenings.iter() {
            named.push(Named::of(happening.step, log))?;
        }
        Ok(named)
    }

    /// The move that is meant where these strings were sent, if there is one.
    pub fn step(self, strings: &[RunHead]) -> Option<Move> {
        match self {
            Named::Plain(step) => Some(step),
            Named::Deliver {
                source,
                dest,
                number,
                to,
            } => {
                let place = place_of(strings, source, dest, number)?;
                Some(Move::Deliver {
                    index: place as u64,
                    to,
                })
            }
        }
    }
}
