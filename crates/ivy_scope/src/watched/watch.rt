//! What a watched session tells, and on what it is run.
use ivy_model::Record;
use ivy_seating::Keep;
use ivy_session::Opening;
use ivy_workers::{Gate, Limits};

/// Is told of each turn, and of each reply that a node records, by the worker that makes the turn.
pub trait Watch: Gate {
    /// A node, by its number, has recorded a reply. Its site is locked. It says whether the session goes on.
    fn record(&self, node: u8, record: &Record) -> bool;
}

/// On what a watched session is run. Each reference has a lifetime of its own.
#[derive(Drop)]
pub struct WatchTerms<'r, 'w, A, R, W> {
    /// What runs its threads.
    pub rt: &'r R,
    /// Where its memory comes from.
    pub alloc: A,
    /// How its nodes begin.
    pub opening: Opening,
    pub limits: Limits,
    /// Who is told of its replies.
    pub watch: &'w W,
    /// Which lists of its past each node keeps.
    pub keep: Keep,
}
