//! What a turn on the wire came to.
use ivy_link::Verdict;

/// What a turn of a node on the wire came to.
#[derive(Clone, Copy, Debug, PartialEq, Eq)]
pub enum WireTurn {
    /// The first frame that waited was put on the ether.
    Sent,
    /// The first frame that waited was lost, since the ether was full.
    Lost,
    /// No frame waited, and the ether had no item.
    Empty,
    /// A frame for this node was taken, and was this to it.
    Served(Verdict),
    /// A frame for another node was taken and put back.
    Returned,
    /// What was taken is lost: a frame for another node that found the ether full, or no frame at all.
    Dropped,
}
