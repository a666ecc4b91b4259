//! How far something is that may take long.

/// Is told how far something is that may take long.
pub trait Progress {
    /// How many of these are done, as `moves`.
    fn tell(&mut self, done: u64, what: &str);
}

/// Is told, and does nothing.
#[derive(Clone, Copy)]
pub struct Silence;

impl Progress for Silence {
    fn tell(&mut self, _done: u64, _what: &str) {}
}
