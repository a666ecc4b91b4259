//! Whether a session stands still.
//!
//! A node whose turn does nothing is noted, with how many messages it sent to each other node and how many of each were
//! delivered to it. Its turns do nothing again until one more is delivered. So where each node is noted and all that was
//! sent, by these notes, was delivered, none has changed since: the first that did was delivered a message that is in no
//! note, so it was sent by a node that changed before. Then nothing is under way, and no turn will ever do anything.
ghost use Rattle.std.specs.Prelude.{IfErr};
ghost use Rattle.ivy_workers.specs.Stops.{IsStop};

use crate::end::End;
use ivy_model::{Fault, MOST_NODES};
use ivy_seating::Site;
use std::alloc::{AllocError, Allocator};
use std::sync::{Mutex, Wait};

/// What is noted of a node: how many messages it sent to each node, and how many of each were delivered to it.
#[derive(Clone, Copy)]
struct Note {
    has_ended: bool,
    sent: [u64; MOST_NODES as usize],
    delivered: [u64; MOST_NODES as usize],
}

impl Note {
    /// Of this site.
    fn of<A: Allocator + Copy>(site: &Site<A>) -> Note {
        let mut note = Note {
            has_ended: site.ended(),
            sent: [0; MOST_NODES as usize],
            delivered: [0; MOST_NODES as usize],
        };
        for other in 0..site.config().nodes {
            if let Some(sent) = note.sent.get_mut(usize::from(other)) {
                *sent = site.sent_to(other);
            }
            if let Some(delivered) = note.delivered.get_mut(usize::from(other)) {
                *delivered = site.delivered_from(other);
            }
        }
        note
    }
}

/// How many messages of a node were delivered to a noted one.
fn delivered_from(note: &Option<Note>, from: usize) -> Option<u64> {
    match note {
        Some(note) => note.delivered.get(from).copied(),
        None => None,
    }
}

/// The notes of all nodes, and why the session ends before its programs do, if it does.
#[derive(Drop)]
struct Board<A: Allocator> {
    notes: Vec<Option<Note>, A>,
    end: Option<End>,
}

impl<A: Allocator> Board<A> {
    /// The session ends so, unless it has ended before.
    fn end(&mut self, end: End) {
        if self.end.is_none() {
            self.end = Some(end);
        }
    }

    /// Notes a node, or strikes its note out.
    fn put(&mut self, node: u8, note: Option<Note>) {
        if let Some(place) = self.notes.get_mut(usize::from(node)) {
            *place = note;
        }
    }

    /// Whether the session goes on by these notes. It ends at a standstill.
    fn goes_on(&mut self) -> bool {
        let is_standstill = self.is_standstill();
        if is_standstill {
            self.end(End::Standstill);
        }
        !is_standstill
    }

    /// Whether all that a node sent, by the notes, was delivered.
    fn has_delivered_from(&self, from: usize, note: &Note) -> bool {
        let mut to = 0usize;
        for other in &self.notes {
            if note.sent.get(to).copied() != delivered_from(other, from) {
                return false;
            }
            to = to.saturating_add(1);
        }
        true
    }

    /// Whether each node is noted, one of them has not ended, and all that was sent was delivered.
    fn is_standstill(&self) -> bool {
        let mut from = 0usize;
        let mut have_ended = true;
        for note in &self.notes {
            let Some(note) = note else {
                return false;
            };
            if !self.has_delivered_from(from, note) {
                return false;
            }
            have_ended = have_ended && note.has_ended;
            from = from.saturating_add(1);
        }
        !have_ended
    }
}

/// What is noted of a session.
#[derive(Drop)]
pub struct Notes<'r, R, A: Allocator> {
    rt: &'r R,
    board: Mutex<Board<A>>,
}

impl<'r, R: Wait, A: Allocator + Copy> Notes<'r, R, A> {
    /// Of so many nodes, none of which is noted yet [1].
    pub fn new(rt: &'r R, alloc: A, nodes: usize) -> Result<Self, AllocError> {
        let notes = vec![in alloc; None; nodes]?;
        Ok(Notes {
            rt,
            board: Mutex::new(Board { notes, end: None }),
        })
    }

    /// The node's turn did nothing. It says whether the session goes on.
    pub fn note(&self, node: u8, site: &Site<A>) -> bool {
        let note = Note::of(site);
        let mut board = self.board.lock(self.rt);
        board.put(node, Some(note));
        board.goes_on()
    }

    /// The node's turns may do something again.
    pub fn strike_out(&self, node: u8) {
        self.board.lock(self.rt).put(node, None);
    }

    /// Whether the session stood still once.
    pub fn stands_still(&self) -> bool {
        matches!(self.board.lock(self.rt).end, Some(End::Standstill))
    }

    /// The watch lets the session go on no further.
    pub fn stop(&self) {
        self.board.lock(self.rt).end(End::Watch);
    }

    /// Why the session ended, where its workers came to this [1, 17].
    pub fn end_of(&self, done: Result<(), Fault>) -> Result<End, Fault>
        requires stop { IfErr done IsStop }
        ensures stop { IfErr result IsStop }
    {
        match done {
            Ok(()) => Ok(End::Programs),
            Err(Fault::TurnLimit) => Ok(self.board.lock(self.rt).end.unwrap_or(End::Turns)),
            Err(fault) => Err(fault),
        }
    }
}
