//! What the tests share.
use ivy_model::{Config, Kind};
use ivy_own::{Limits, OpenGate, OwnFault, OwnReport, Work, run_with};
use ivy_sync::Barrier;
use std::alloc::Allocator;
use std::sync::Wait;
use std::thread::Threads;

/// How many nodes, with four small pages.
pub(crate) fn config(nodes: u8, manager: Kind) -> Config {
    Config {
        nodes,
        pages: 4,
        page_size: 256,
        manager,
    }
}

/// Limits that serve each program of these tests.
pub(crate) const ROOMY: Limits = Limits {
    capacity: 64,
    turns: 100_000_000,
    pulse_every: 64,
};

/// What the works of so many nodes give.
pub(crate) fn run<W, R, A>(
    rt: &R,
    alloc: A,
    nodes: u8,
    work: &W,
) -> Result<OwnReport<W::Out, A>, OwnFault>
where
    W: Work + Sync,
    R: Threads + Wait + Sync,
    A: Allocator + Copy + Send + Sync,
{
    run_with(
        rt,
        alloc,
        config(nodes, Kind::Dynamic),
        work,
        ROOMY,
        &OpenGate,
    )
}

/// The barrier of so many nodes at eventcount 0.
pub(crate) fn meeting(nodes: u8) -> Barrier {
    Barrier {
        count: 0,
        nodes,
        passed: 0,
    }
}
