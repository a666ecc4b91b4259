/// What may happen next in a world of nodes.
///
/// Nodes and strings are named by number, from 0; strings in the order sent. A loss is a string that is
/// never delivered.
#[derive(Clone, Copy, Debug, PartialEq, Eq)]
pub enum Move {
    /// The node makes a turn of its program.
    Turn(u64),
    /// A string that was sent is delivered to a node, its own or another.
    Deliver { index: u64, to: u64 },
    /// A node gives what another has not acknowledged again, or acknowledges alone.
    Pulse { from: u64, to: u64 },
}
