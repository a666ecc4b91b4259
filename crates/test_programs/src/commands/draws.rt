//! The first moves of three seeds. The expected ones were computed from the definition of the generator, by
//! another program.
ghost use Rattle.std.specs.Prelude.{◌≤◌, All, length};

use crate::commands::common::expect_same;
use ivy_moves::Move;
use ivy_texts::{draw, generator_of};
use ivy_wire::Bytes;
use std::alloc::Global;
use std::process::Abort;

/// A string of 24 bytes to a node.
fn string_to(rt: &impl Abort, alloc: Global, dest: u8) -> Bytes<Global>
    ensures { 24 ≤ length result }
{
    let mut text = [0; 24];
    text[5] = dest;
    Bytes::new(alloc, &text).expect(rt, "memory")
}

fn check<R: Abort>(rt: &R, seed: u64, nodes: u8, sent: &[Bytes<Global>], moves: &[Move])
    requires nodes { 2 ≤ nodes }
    requires strings { All (λ string. 24 ≤ length string) sent.now }
{
    let mut generator = generator_of(seed);
    for step in moves {
        expect_same(rt, draw(&mut generator, nodes, sent), *step);
    }
}

#[test]
fn two_nodes(rt: HostRuntime) {
    let alloc = rt.alloc();
    let sent = [
        string_to(&rt, alloc, 1),
        string_to(&rt, alloc, 0),
        string_to(&rt, alloc, 1),
    ];
    let moves = [
        Move::Deliver { index: 0, to: 1 },
        Move::Turn(0),
        Move::Turn(0),
        Move::Turn(0),
        Move::Deliver { index: 1, to: 0 },
        Move::Turn(0),
        Move::Pulse { from: 0, to: 1 },
        Move::Deliver { index: 2, to: 1 },
        Move::Turn(1),
        Move::Deliver { index: 2, to: 1 },
        Move::Pulse { from: 1, to: 0 },
        Move::Pulse { from: 1, to: 0 },
    ];
    check(&rt, 1, 2, &sent, &moves);
}

#[test]
fn eight_nodes(rt: HostRuntime) {
    let alloc = rt.alloc();
    let sent = [
        string_to(&rt, alloc, 7),
        string_to(&rt, alloc, 3),
        string_to(&rt, alloc, 0),
    ];
    let moves = [
        Move::Deliver { index: 1, to: 3 },
        Move::Deliver { index: 1, to: 3 },
        Move::Turn(0),
        Move::Deliver { index: 1, to: 3 },
        Move::Turn(0),
        Move::Pulse { from: 1, to: 3 },
        Move::Turn(6),
        Move::Turn(1),
        Move::Turn(6),
        Move::Turn(7),
        Move::Turn(2),
        Move::Deliver { index: 0, to: 7 },
    ];
    check(&rt, u64::MAX, 8, &sent, &moves);
}

/// Where no string was sent a turn stands for a delivery.
#[test]
fn none_sent(rt: HostRuntime) {
    let moves = [
        Move::Turn(2),
        Move::Turn(0),
        Move::Turn(0),
        Move::Turn(1),
        Move::Turn(0),
        Move::Turn(1),
        Move::Turn(1),
        Move::Turn(0),
    ];
    check(&rt, 7, 3, &[], &moves);
}
