//! Why a node stops before its input ends.

use ivy_join::NotPlayed;
use ivy_model::Fault;
use std::alloc::{AllocError, AllocFailed};
use std::fmt;

/// What a call gives a work whose node has failed. The failure itself is kept, and is what the service ends with.
pub(crate) const NODE_FAILED: Fault = Fault::TurnLimit;

/// Why a node stops before its input ends.
#[derive(Clone, Copy, Debug, PartialEq, Eq)]
pub enum NodeFailure {
    /// A call was refused: memory or message numbers ran out, or the allowed turns are used up [1, 17, 21].
    Refused(Fault),
    /// Too many messages for this node are kept, since it acknowledged none of them.
    Kept(u8),
    /// The event in this line of the log does not happen at the node: it is the log of another node, or of another program.
    NotItsLog(u64),
    /// The work of the node, started again, does not make the call in this line of its log.
    Differs(u64),
    /// The input ended before a call of own code had its reply.
    Unanswered,
    /// The work of the node gave up with this fault.
    GaveUp(Fault),
    /// The log takes no more.
    Unlogged,
    /// Standard output takes no more.
    Unwritten,
}

impl fmt::Display for NodeFailure {
    fn fmt<W: fmt::Write>(&self, f: &mut fmt::Formatter<W>) -> fmt::Result {
        match self {
            NodeFailure::Refused(fault) => write!(f, "{fault}"),
            NodeFailure::Kept(node) => write!(f, "kept messages to node {node}"),
            NodeFailure::NotItsLog(line) => write!(f, "line {line} of the log: no such event"),
            NodeFailure::Differs(line) => write!(
                f,
                "line {line} of the log: the work makes another call"
            ),
            NodeFailure::Unanswered => f.write_str("a call has no reply, and the input has ended"),
            NodeFailure::GaveUp(fault) => write!(f, "the work gave up: {fault}"),
            NodeFailure::Unlogged => f.write_str("the log takes no more"),
            NodeFailure::Unwritten => f.write_str("standard output takes no more"),
        }
    }
}

impl From<Fault> for NodeFailure {
    fn from(fault: Fault) -> NodeFailure {
        NodeFailure::Refused(fault)
    }
}

impl From<AllocError> for NodeFailure {
    fn from(_error: AllocError) -> NodeFailure {
        NodeFailure::Refused(Fault::Memory)
    }
}

impl<T: Drop> From<AllocFailed<T>> for NodeFailure {
    fn from(_error: AllocFailed<T>) -> NodeFailure {
        NodeFailure::Refused(Fault::Memory)
    }
}

/// The line of an entry of a log, whose entries stand in these lines.
pub(crate) fn line_of(lines: &[u64], place: usize) -> u64 {
    lines.get(place).copied().unwrap_or(0)
}

impl NodeFailure {
    /// Why a log, whose entries stand in these lines, cannot be made again.
    pub(crate) fn of_replay(why: NotPlayed, lines: &[u64]) -> NodeFailure {
        match why {
            NotPlayed::Refused(fault) => NodeFailure::Refused(fault),
            NotPlayed::NoSuchEvent(place) => NodeFailure::NotItsLog(line_of(lines, place)),
        }
    }
}
