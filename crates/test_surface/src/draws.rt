//! What draws the moves of `ivy sim` (`ivy_texts`). The program's commands themselves, `perform` over an own `Texts`, are
//! called in `test_programs`.
ghost use Rattle.std.specs.Prelude.{◌≤◌, All, length};

use crate::common::expect_same;
use ivy_node::Move;
use ivy_texts::{draw, generator_of};
use ivy_wire::Bytes;
use std::alloc::Global;

/// The first move that is drawn.
fn first_of(seed: u64, nodes: u8, sent: &[Bytes<Global>]) -> Move
    requires nodes { 2 ≤ nodes }
    requires strings { All (λ string. 24 ≤ length string) sent.now }
{
    let mut generator = generator_of(seed);
    draw(&mut generator, nodes, sent)
}

/// Where no string was sent a turn stands for a delivery.
#[test]
fn a_drawn_move(rt: HostRuntime) {
    expect_same(&rt, first_of(7, 3, &[]), Move::Turn(2));
}
