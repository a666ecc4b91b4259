//! What a world shows of a node, and nothing of one that is not there.

use ivy_model::{Call, Record};
use ivy_moves::Move;
use ivy_world::World;
use std::alloc::Global;

/// The node whose event a move is.
pub(crate) fn node_of(step: Move) -> u64 {
    match step {
        Move::Turn(node) => node,
        Move::Deliver { to, .. } => to,
        Move::Pulse { from, .. } => from,
    }
}

/// What a node was answered so far.
pub fn history_of(world: &World<Global>, node: u64) -> &[Record] {
    if node < world.nodes() {
        world.history(node)
    } else {
        &[]
    }
}

/// What a node's program printed so far.
pub fn output_of(world: &World<Global>, node: u64) -> &[u64] {
    if node < world.nodes() {
        world.output(node)
    } else {
        &[]
    }
}

/// The call that a node has in progress.
pub fn call_in_progress(world: &World<Global>, node: u64) -> Option<Call> {
    if node < world.nodes() {
        world.asked(node)
    } else {
        None
    }
}

/// Whether a node's program has ended.
pub fn ended_in(world: &World<Global>, node: u64) -> bool {
    node >= world.nodes() || world.ended(node)
}
