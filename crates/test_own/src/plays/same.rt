//! The same seed, or the same moves, play the same.
use crate::plays::common::{ENOUGH, config};
use example_programs::AddsUp;
use ivy_model::Kind;
use ivy_play::{
    Listed, Opening, PlayReport, play_drawn, play_drawn_opening, play_listed, play_with_opening,
};
use ivy_sync::{Barrier, Lock};
use std::alloc::Global;
use std::process::Abort;
use std::test::Fail;

/// Four nodes that add up.
const FOUR: AddsUp = AddsUp {
    lock: Lock { addr: 256 },
    sum: 512,
    barrier: Barrier {
        count: 0,
        nodes: 4,
        passed: 0,
    },
};

/// That two plays are the same: moves, outcomes, histories and strings.
fn expect_same(rt: &impl Abort, one: &PlayReport<u64, Global>, other: &PlayReport<u64, Global>) {
    assert!(rt; one.moves == other.moves);
    assert!(rt; one.outcomes == other.outcomes);
    assert!(rt; one.rest == other.rest);
    assert!(rt; one.world.nodes() == other.world.nodes());
    for node in 0..one.world.nodes() {
        if node < other.world.nodes() {
            assert!(rt; one.world.history(node) == other.world.history(node));
        }
    }
    let (left, right) = (one.world.sent(), other.world.sent());
    assert!(rt; left.len() == right.len());
    for (a, b) in left.iter().zip(right) {
        assert!(rt; a.bytes() == b.bytes());
    }
}

#[test]
fn each_seed_twice(rt: HostRuntime) -> Result<(), Fail> {
    let nodes = config(4, Kind::Dynamic);
    for seed in 0..200 {
        let one = play_drawn(&rt, rt.alloc(), nodes, &FOUR, seed, 300, ENOUGH)?;
        let other = play_drawn(&rt, rt.alloc(), nodes, &FOUR, seed, 300, ENOUGH)?;
        expect_same(&rt, &one, &other);
    }
    Ok(())
}

#[test]
fn moves_play_again(rt: HostRuntime) -> Result<(), Fail> {
    let nodes = config(4, Kind::Fixed);
    for seed in 0..20 {
        let one = play_drawn(&rt, rt.alloc(), nodes, &FOUR, seed, 300, ENOUGH)?;
        let other = play_listed(&rt, rt.alloc(), nodes, &FOUR, &one.moves, 0)?;
        assert!(&rt; one.moves == other.moves);
        assert!(&rt; one.outcomes == other.outcomes);
    }
    Ok(())
}

/// The moves of a play of steady nodes, listed, play the same there.
#[test]
fn steady_moves_play_again(rt: HostRuntime) -> Result<(), Fail> {
    let nodes = config(4, Kind::Dynamic);
    let (alloc, steady) = (rt.alloc(), Opening::Steady);
    for seed in 0..20 {
        let one = play_drawn_opening(&rt, alloc, nodes, &FOUR, seed, 300, ENOUGH, steady)?;
        let moves = Listed::new(&one.moves);
        let other = play_with_opening(&rt, alloc, nodes, &FOUR, moves, 0, steady)?;
        assert!(&rt; one.world.opening() == steady);
        assert!(&rt; one.moves == other.moves);
        assert!(&rt; one.outcomes == other.outcomes);
    }
    Ok(())
}
