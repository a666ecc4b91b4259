//! What a watched session of own code gives.
use ivy_own::OwnReport;
use ivy_standstill::ReportSoFar;
use std::alloc::Allocator;

/// What the nodes of a session of own code came to where it stands still, in their order. A node whose work has not ended
/// has a call in progress, which the report of the nodes tells.
#[derive(Drop)]
pub struct OwnStandstill<T: Drop, A: Allocator> {
    /// What each node was answered so far, where that was kept, and its call in progress, if it has one.
    pub nodes: ReportSoFar<A>,
    /// What the work of each node gave that has ended.
    pub outs: Vec<Option<T>, A>,
}

/// What a watched session of own code came to: the report of all nodes where the works of all have ended, and else how it
/// stands still.
pub type Watched<T, A> = Result<OwnReport<T, A>, OwnStandstill<T, A>>;
