//! What a node keeps of its own past.
ghost use Rattle.std.specs.Prelude.{◌≡◌};
ghost use Rattle.ivy_moves.specs.Keeping.{keeps_history, keeps_events};

/// Which lists of its own past a node keeps, so that they can be read.
///
/// The node does the same whatever it keeps. A list that it does not keep exists in proofs alone, and takes no memory.
#[derive(Clone, Copy, Debug, PartialEq, Eq)]
pub enum Keep {
    /// No list.
    Nothing,
    /// What the node was answered.
    History,
    /// That, and the node's events.
    All,
}

impl Keep {
    /// Whether the history is kept.
    pub fn keeps_history(self) -> bool
        ensures { result ≡ keeps_history self }
    {
        match self {
            Keep::Nothing => false,
            Keep::History | Keep::All => true,
        }
    }

    /// Whether the events are kept.
    pub fn keeps_events(self) -> bool
        ensures { result ≡ keeps_events self }
    {
        match self {
            Keep::Nothing | Keep::History => false,
            Keep::All => true,
        }
    }
}
