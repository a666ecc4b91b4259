//! What a session tells of its turns.

/// Which of a node's turns.
#[derive(Clone, Copy, Debug, PartialEq, Eq)]
pub enum Role {
    /// One of its program.
    Program,
    /// One on the wire: a frame is put or taken. Where the program waits, or makes way, its worker makes it, else the wire
    /// worker.
    Wire,
}

/// Is told of each turn of a session, by the worker that is about to make it.
pub trait Gate: Sync {
    /// A turn of a node, by its number, begins. Its site is locked, and its history has so many records.
    fn enter(&self, node: u8, role: Role, records: u64);
}

/// What one worker tells of its turns, which need not be shared by several. Each gate is one.
pub trait Turnstile {
    /// A turn of a node, by its number, begins. Its site is locked, and its history has so many records.
    fn pass(&self, node: u8, role: Role, records: u64);
}

impl<G: Gate> Turnstile for G {
    fn pass(&self, node: u8, role: Role, records: u64) {
        self.enter(node, role, records);
    }
}

/// A gate that does nothing.
#[derive(Clone, Copy, Debug)]
pub struct OpenGate;

impl Gate for OpenGate {
    fn enter(&self, _node: u8, _role: Role, _records: u64) {}
}
