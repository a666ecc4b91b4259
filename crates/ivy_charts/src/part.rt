//! Which moves of a run are drawn.

use crate::access::{is_pulse, is_seen};
use crate::log::{Happening, RunLog};
use ivy_link::Verdict;
use ivy_moves::Move;
use std::alloc::{AllocError, Global};

/// Which moves of a run are to be drawn.
#[derive(Clone, Copy)]
pub struct Part {
    /// The numbers of the first and the last one, from 1.
    pub first: u64,
    pub last: u64,
    /// Whether strings are drawn that came again, and what came after all calls had their replies.
    pub all: bool,
}

/// Which moves are drawn, and which strings told their node something.
#[derive(Drop)]
pub(crate) struct Drawn {
    part: Part,
    /// Up to which move it goes on, where not all is drawn.
    end: usize,
    /// Of each string, whether it came as the next one, or before its turn.
    is_new: Vec<bool>,
}

/// Whether what was delivered told its node something.
pub(crate) fn tells(happening: &Happening) -> bool {
    matches!(happening.heard, Some(Verdict::Next | Verdict::Ahead))
}

/// Notes a string that told its node something.
fn note(is_new: &mut Vec<bool>, happening: &Happening) {
    if let (true, Move::Deliver { index, .. }) = (tells(happening), happening.step) {
        if let Some(place) = is_new.get_mut(index as usize) {
            *place = true;
        }
    }
}

/// The number of moves up to the last reply; all of them, where a call has no reply at the end.
fn end_of(log: &RunLog) -> usize {
    let mut end = 0usize;
    let mut open = 0u64;
    for place in 0..log.happenings.len() {
        let happening = &log.happenings[place];
        match (happening.before, happening.after) {
            (None, Some(_)) => open = open.saturating_add(1),
            (Some(_), None) => open = open.saturating_sub(1),
            _ => {}
        }
        if happening.record.is_some() || open > 0 {
            end = place.saturating_add(1);
        }
    }
    end
}

impl Drawn {
    /// What is drawn of this part of a run.
    pub(crate) fn of(alloc: Global, part: Part, log: &RunLog) -> Result<Drawn, AllocError> {
        let mut is_new = vec![in alloc; false; log.strings.len()]?;
        for happening in log.happenings.iter() {
            note(&mut is_new, happening);
        }
        Ok(Drawn {
            part,
            end: end_of(log),
            is_new,
        })
    }

    /// Whether a string told its node something.
    fn is_new(&self, string: usize) -> bool {
        self.is_new.get(string).copied().unwrap_or(false)
    }

    /// Whether a move sent a string that told its node something.
    fn sends_new(&self, happening: &Happening) -> bool {
        (happening.sent_before..happening.sent_after).any(|string| self.is_new(string))
    }

    /// Whether a move is drawn though not all is: it is no pulse and no delivery for nothing.
    fn is_needed(&self, happening: &Happening) -> bool {
        if is_pulse(happening) {
            return self.sends_new(happening);
        }
        happening.heard.is_none() || tells(happening)
    }

    /// Whether a move is drawn, by its place among all.
    pub(crate) fn has(&self, place: usize, happening: &Happening) -> bool {
        let number = (place as u64).saturating_add(1);
        is_seen(happening)
            && self.part.first <= number
            && number <= self.part.last
            && (self.part.all || (place < self.end && self.is_needed(happening)))
    }

    /// Whether a string is drawn that never came.
    pub(crate) fn has_lost(&self, is_again: bool) -> bool {
        self.part.all || !is_again
    }
}
