//! The limits of a session.
ghost use Rattle.std.specs.Prelude.{◌↔◌, IsTrue};
ghost use Rattle.ivy_workers.specs.SessionLimits.{AreLimits};

/// What a session may use.
#[derive(Clone, Copy, Debug, PartialEq, Eq)]
pub struct Limits {
    /// How many items the ether holds, 1 to 65,536.
    pub capacity: u64,
    /// How many turns a node's program has at most, and how many the node makes on the wire, at least 1.
    pub turns: u64,
    /// Each such turn of a node on the wire makes a pulse due, at least 1. It comes with its next turn there that begins
    /// with no frame to be put.
    pub pulse_every: u64,
}

/// The greatest capacity of an ether.
const MOST_ITEMS: u64 = 65_536;

impl Limits {
    /// Whether each limit is within its bounds.
    pub fn are_valid(&self) -> bool
        ensures { IsTrue result ↔ AreLimits self.now }
    {
        self.capacity >= 1
            && self.capacity <= MOST_ITEMS
            && self.turns >= 1
            && self.pulse_every >= 1
    }
}
