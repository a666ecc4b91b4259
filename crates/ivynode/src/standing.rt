//! Where the program of a node is, and which of its calls are refused.

use ivy_explain::{Listing, Place, Printed, Refusal, Walk};
use ivy_join::make;
use ivy_logs::LogEntry;
use ivy_model::{Call, Record, Reply};
use ivy_moves::Event;
use ivy_process::{CallWatch, Node};
use ivy_site::Site;
use ivy_wire::Bytes;
use std::alloc::Global;
use std::io::Write;

/// Where the program of a node is, as far as it is known.
#[derive(Clone, Copy)]
pub(crate) struct Standing {
    /// The line of its call in progress.
    pub(crate) line: Option<usize>,
    /// The count that it waits for, as it last saw it.
    pub(crate) seen: Option<u64>,
}

/// The program of a node, gone through by the answers to its calls. Those that are refused are told, each line of the
/// program once, as they come.
#[derive(Drop)]
pub(crate) struct Calls<'a, E> {
    listing: &'a Listing,
    me: u8,
    /// Where the program is, if that is known.
    walk: Option<Walk<'a>>,
    /// The count that the program asked for last, and what it was.
    seen: Option<(u64, u64)>,
    told: Printed<'a, E>,
}

/// The count that was seen with an answer.
fn count_in(record: &Record) -> Option<(u64, u64)> {
    let k = match record.call {
        Call::Await { k, least: _ } => k,
        Call::Count { k } => k,
        _ => return None,
    };
    match record.reply {
        Reply::Value(value) => Some((k, value)),
        _ => None,
    }
}

/// Takes out all strings that wait at a site.
fn drop_frames(site: &mut Site<Global>) {
    while let Some(string) = site.take_frame() {
        drop(string);
    }
}

impl<'a, E: Write> Calls<'a, E> {
    /// None was answered yet.
    pub(crate) fn new(alloc: Global, listing: &'a Listing, me: u8, err: &'a mut E) -> Self {
        let walk = match listing.programs.get(usize::from(me)) {
            Some(program) => Some(Walk::new(program)),
            None => None,
        };
        Calls {
            listing,
            me,
            walk,
            seen: None,
            told: Printed::new(alloc, err),
        }
    }

    /// The line at which the program makes its next call.
    fn line(&mut self) -> Option<usize> {
        match self.walk.as_mut()?.next() {
            Place::Call(place) => self.listing.lines.get(u64::from(self.me), place),
            _ => None,
        }
    }

    /// Makes one event again. It says whether that was done.
    fn step(&mut self, site: &mut Site<Global>, event: &Event<Bytes<Global>>) -> bool {
        let records = site.records();
        let made = make(site, event).unwrap_or(false);
        drop_frames(site);
        if site.records() != records {
            if let Some(record) = site.last_record() {
                self.note(&record);
            }
        }
        made
    }

    /// Makes an event again, turn for turn. It says whether that was done.
    fn make_again(&mut self, site: &mut Site<Global>, event: &Event<Bytes<Global>>) -> bool {
        let Event::Turns(count) = event else {
            return self.step(site, event);
        };
        for _ in 0..*count {
            if !self.step(site, &Event::Turns(1)) {
                return false;
            }
        }
        true
    }

    /// Goes through the entries of the node's log, of which `site` is the node at its beginning. Where they lead to nothing,
    /// it is not known where the program is.
    pub(crate) fn go_through(&mut self, site: Site<Global>, entries: &[LogEntry<Bytes<Global>>]) {
        let mut site = site;
        for entry in entries {
            if let LogEntry::Did(event) = entry {
                if !self.make_again(&mut site, event) {
                    self.walk = None;
                    return;
                }
            }
        }
    }

    /// Where the program of the node is now.
    pub(crate) fn standing(&mut self, node: &Node) -> Standing {
        let seen = match (node.asked(), self.seen) {
            (Some(Call::Await { k, .. }), Some((other, value))) if k == other => Some(value),
            _ => None,
        };
        Standing {
            line: self.line(),
            seen,
        }
    }

    /// Tells how many calls were refused.
    pub(crate) fn sum_up(&mut self) {
        // The status tells nothing of it.
        let _ = self.told.sum_up();
    }
}

impl<E: Write> CallWatch for Calls<'_, E> {
    fn note(&mut self, record: &Record) {
        let line = self.line();
        if let Some(walk) = &mut self.walk {
            walk.answer(record);
        }
        if let Some(seen) = count_in(record) {
            self.seen = Some(seen);
        }
        if let Reply::Refused(code) = record.reply {
            self.told.note(Refusal {
                node: self.me,
                line,
                call: record.call,
                code,
                count: 1,
            });
        }
    }
}
