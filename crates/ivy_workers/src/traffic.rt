//! What a turn on the wire came to.

/// What a node's turn on the wire came to, as far as the other workers have to know of it. Nodes are given by their
/// numbers.
#[derive(Clone, Copy, Debug, PartialEq, Eq)]
pub enum Traffic {
    /// The first frame that waited was put. Where it is a frame at all, it is for this node.
    Sent { to: Option<u8> },
    /// The first frame that waited was lost, since there was no place for it.
    Lost,
    /// No frame waited, and there was none to take.
    Nothing,
    /// A frame for this node was taken: whether its message was the next one of its sender, so that it was served.
    Taken { served: bool },
    /// A frame for another node was taken and put back behind all others. Where it is a frame at all, it is for this node.
    Returned { to: Option<u8> },
    /// What was taken is lost.
    Dropped,
}
