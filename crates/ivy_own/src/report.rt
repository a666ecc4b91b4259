//! What a finished session of own code gives.
use ivy_session::Report;
use std::alloc::Allocator;

/// What a finished session of own code gives: the report of its nodes, and what the work of each gave, in the order of
/// the nodes.
#[derive(Drop)]
pub struct OwnReport<T: Drop, A: Allocator> {
    /// What each node was answered, and its events, where they were kept.
    pub nodes: Report<A>,
    /// What the work of each node gave.
    pub outs: Vec<T, A>,
}
