//! What a node in a process may use, and what it did not take.

/// What a node in a process may use.
#[derive(Clone, Copy, Debug)]
pub struct NodeLimits {
    /// How many milliseconds pass between pulses, at least.
    pub pulse_millis: u64,
    /// How many turns its program makes at most.
    pub turns: u64,
    /// How many messages for one node are kept at most.
    pub kept: u64,
}

/// What a node did not take.
#[derive(Clone, Copy, Debug)]
pub struct Untaken {
    /// Lines that have no frame.
    pub bad_lines: u64,
    /// Strings that spell no frame of this configuration.
    pub no_frames: u64,
    /// Nodes that told the sum of another run. Of these it took no frame more.
    pub others: u64,
}
