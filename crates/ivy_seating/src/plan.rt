//! What a session is run with.
use ivy_ether::Opening;
use ivy_model::Config;
use ivy_site::Keep;
use ivy_workers::Limits;
use std::alloc::Allocator;

/// What a session is run with. Each reference has a lifetime of its own.
#[derive(Drop)]
pub struct Plan<'r, 'g, A: Allocator, R, G> {
    /// The runtime.
    pub rt: &'r R,
    /// Where memory comes from.
    pub alloc: A,
    /// The nodes, and the memory that they share.
    pub config: Config,
    /// How the nodes begin.
    pub opening: Opening,
    /// What the session may use.
    pub limits: Limits,
    /// What is told of each turn.
    pub gate: &'g G,
    /// Which lists each node keeps of its own past.
    pub keep: Keep,
}
