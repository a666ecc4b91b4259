//! Why a session of own code gives nothing.
use ivy_model::Fault;
use thiserror::Error;

/// Why a session of own code gives nothing.
#[derive(Clone, Copy, Debug, PartialEq, Eq, Error)]
pub enum OwnFault {
    /// The session was refused, or ended before its programs did [1, 2, 17, 21].
    #[error("the session ended: {0}")]
    Session(Fault),
    /// The work of a node gave up with this fault, which ended the session.
    #[error("node {node} gave up: {fault}")]
    GaveUp {
        /// The node.
        node: u8,
        /// The fault.
        fault: Fault,
    },
}

impl From<Fault> for OwnFault {
    ghost use Rattle.std.specs.Prelude.{◌≡◌};
    ghost use Rattle.ivy_own.specs.declared.fault.OwnFault.TheVariants.{Session};

    ghost from_gives = { λ fault own. own ≡ Session fault };

    fn from(fault: Fault) -> OwnFault {
        OwnFault::Session(fault)
    }
}
