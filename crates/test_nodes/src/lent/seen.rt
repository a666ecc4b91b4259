//! What is seen of a run, in the order of time.
use ivy_model::{Call, Reply};
use std::alloc::Global;
use std::process::Abort;

/// What is seen of a call of a node. An access by a pointer is told as the call that it stands for.
#[derive(Clone, Copy)]
pub(crate) enum Seen {
    /// It is in progress.
    Began(usize, Call),
    /// It was in progress, and has its reply.
    Ended(usize, Call, Reply),
    /// It had its reply at once.
    Made(usize, Call, Reply),
}

/// How often what was seen.
#[derive(Clone, Copy)]
pub(crate) struct Tally {
    /// Accesses by pointers.
    pub(crate) hits: u64,
    /// Calls and blocks that had to wait.
    pub(crate) waits: u64,
    /// Calls and blocks that may not be made, as their page is lent.
    pub(crate) forbidden: u64,
    /// Strings that would take a page that is lent, as they came.
    pub(crate) wanted: u64,
    /// Such strings that were held before.
    pub(crate) held: u64,
    /// Pages that came, and were gone before they were lent.
    pub(crate) gone: u64,
    /// Pages that were asked for ahead.
    pub(crate) fetched: u64,
}

/// What is seen of a run.
#[derive(Drop)]
pub(crate) struct Log {
    pub(crate) seen: Vec<Seen, Global>,
    pub(crate) tally: Tally,
}

/// Counts one more.
pub(crate) fn count(number: &mut u64) {
    *number = number.wrapping_add(1);
}

impl Tally {
    /// Nothing was seen yet.
    pub(crate) fn new() -> Tally {
        Tally {
            hits: 0,
            waits: 0,
            forbidden: 0,
            wanted: 0,
            held: 0,
            gone: 0,
            fetched: 0,
        }
    }

    /// Adds what was seen of another run.
    pub(crate) fn add(&mut self, other: Tally) {
        self.hits = self.hits.wrapping_add(other.hits);
        self.waits = self.waits.wrapping_add(other.waits);
        self.forbidden = self.forbidden.wrapping_add(other.forbidden);
        self.wanted = self.wanted.wrapping_add(other.wanted);
        self.held = self.held.wrapping_add(other.held);
        self.gone = self.gone.wrapping_add(other.gone);
        self.fetched = self.fetched.wrapping_add(other.fetched);
    }

    /// Whether each was seen.
    pub(crate) fn has_each(&self) -> bool {
        let taken = self.wanted > 0 && self.held > 0 && self.gone > 0;
        let asked = self.waits > 0 && self.forbidden > 0 && self.fetched > 0;
        taken && asked && self.hits > 0
    }
}

impl Log {
    /// Nothing was seen yet.
    pub(crate) fn new(alloc: Global) -> Log {
        Log {
            seen: Vec::new(alloc),
            tally: Tally::new(),
        }
    }

    /// Adds what is seen now.
    pub(crate) fn add(&mut self, rt: &impl Abort, seen: Seen) {
        self.seen.push(seen).expect(rt, "memory");
    }
}
