//! Why logs are not joined.
ghost use Rattle.std.specs.Prelude.{◌≡◌};
ghost use Rattle.ivy_join.specs.declared.failure.Unjoined.TheVariants.{Refused};
ghost use Rattle.ivy_model.specs.declared.Fault.TheVariants.{Memory};

use ivy_model::Fault;
use std::alloc::{AllocError, AllocFailed};
use thiserror::Error;

/// Why logs are not joined. Nodes and lines are named by number, lines from 1.
#[derive(Clone, Copy, Debug, PartialEq, Eq, Error)]
pub enum Unjoined {
    /// Memory ran out, or the configuration does not suit.
    #[error("{0}")]
    Refused(Fault),
    /// There is no log of a node.
    #[error("no log of node {0}")]
    Missing(u64),
    /// There are two logs of a node, or one of no node.
    #[error("a second log of node {0}, or one of no node")]
    Twice(u64),
    /// A node's log names another configuration.
    #[error("the log of node {0} names another configuration")]
    Differs(u64),
    /// A node's log names the sum of another run.
    #[error("the log of node {0} is of other programs, or of another configuration")]
    OtherRun(u64),
    /// A node would have taken a string that no node sent.
    #[error("node {node}, line {line}: sent by nobody")]
    NotSent { node: u64, line: u64 },
    /// A node can't have made an event.
    #[error("node {node}, line {line}: no such event")]
    NoSuchEvent { node: u64, line: u64 },
    /// A node of own code that is made again by its log is answered otherwise than the log says.
    #[error("node {0}: other answers than the log has")]
    OtherAnswers(u64),
}

impl From<Fault> for Unjoined {
    ghost from_gives = { λ fault e. e ≡ Refused fault };

    fn from(fault: Fault) -> Unjoined {
        Unjoined::Refused(fault)
    }
}

impl From<AllocError> for Unjoined {
    ghost from_gives = { λ _ e. e ≡ Refused Memory };

    fn from(_error: AllocError) -> Unjoined {
        Unjoined::Refused(Fault::Memory)
    }
}

impl<T: Drop> From<AllocFailed<T>> for Unjoined {
    ghost from_gives = { λ _ e. e ≡ Refused Memory };

    fn from(_error: AllocFailed<T>) -> Unjoined {
        Unjoined::Refused(Fault::Memory)
    }
}
