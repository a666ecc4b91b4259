//! `ivy_node`: a site, and a world.
ghost use Rattle.ivy_model.specs.stated.Legal.{HasWidth};

use crate::common::{LOADS, PAIR, expect_same};
use ivy_model::{Call, Fault, Reply, Row};
use ivy_node::{Move, Opening, Rest, Site, Turn, Verdict, World, parse};
use ivy_site::Keep;
use std::alloc::Global;
use std::process::Abort;

/// Whether a turn changed anything.
fn is_event(turn: Turn) -> bool {
    match turn {
        Turn::Moved => true,
        Turn::Idle | Turn::Ended => false,
    }
}

/// The node that a move is made at.
fn node_of(step: Move) -> u64 {
    match step {
        Move::Turn(node) => node,
        Move::Deliver { index: _, to } => to,
        Move::Pulse { from, to: _ } => from,
    }
}

/// Node 1, which loads.
fn site_of_node_1(rt: &(impl Abort + AllocGlobal)) -> Site<Global> {
    let mut programs = parse(rt.alloc(), LOADS).expect(rt, "programs");
    let program = programs.pop().expect(rt, "a program");
    Site::new(rt.alloc(), &PAIR, 1, program).expect(rt, "memory")
}

/// A turn of its program. Of all that is promised of it, callers need nothing.
fn take_turn(site: &mut Site<Global>) -> Result<Turn, Fault> {
    site.program_turn()
}

/// Its own string comes back to it, and it pulses to the other node.
fn hear_and_pulse(rt: &impl Abort, site: &mut Site<Global>) {
    let string = site.take_frame().expect(rt, "a string");
    expect_same(rt, site.deliver(string.bytes()), Ok(Verdict::NotMine));
    assert!(rt; 0 < site.config().nodes && 0 != site.me());
    expect_same(rt, site.pulse(0), Ok(()));
    expect_same(rt, site.breaches(), 0);
}

#[test]
fn a_site(rt: HostRuntime) {
    let mut site = site_of_node_1(&rt);
    for _ in 0..2 {
        assert!(rt; is_event(take_turn(&mut site).expect(&rt, "memory")));
    }
    hear_and_pulse(&rt, &mut site);
}

/// Node 1 asks, is answered, and has loaded. Its pulse asks once more, which is no message more.
const MOVES: [Move; 7] = [
    Move::Turn(1),
    Move::Turn(1),
    Move::Deliver { index: 0, to: 0 },
    Move::Deliver { index: 1, to: 1 },
    Move::Turn(1),
    Move::Turn(1),
    Move::Pulse { from: 1, to: 0 },
];

/// Makes the moves of a world. Of all that is promised of it, callers need nothing.
fn play(world: &mut World<Global>, moves: &[Move]) -> Result<(), (usize, Fault)> {
    world.run(moves)
}

/// Lets a world settle, with as few moves.
fn settle(world: &mut World<Global>) -> Result<Rest, (u64, Fault)> {
    world.settle(100)
}

/// That a node has ended, was answered once, and printed 0.
fn expect_loaded(rt: &impl Abort, world: &World<Global>, node: u64) {
    assert!(rt; node < world.nodes());
    expect_same(rt, world.output(node), [0].as_slice());
    expect_same(rt, world.history(node).len(), 1);
    assert!(rt; world.ended(node));
}

#[test]
fn a_world(rt: HostRuntime) {
    let programs = parse(rt.alloc(), LOADS).expect(&rt, "programs");
    let mut world = World::new(rt.alloc(), PAIR, programs).expect(&rt, "a world");
    expect_same(&rt, play(&mut world, &MOVES), Ok(()));
    expect_same(
        &rt,
        play(&mut world, &[Move::Turn(2)]),
        Err((0, Fault::NoSuchFrame)),
    );
    expect_same(&rt, settle(&mut world), Ok(Rest::Still));
    expect_same(&rt, world.sent().len(), 3);
    expect_loaded(&rt, &world, node_of(MOVES[0]));
}

/// The same world where its nodes begin with steady hints.
#[test]
fn a_steady_world(rt: HostRuntime) {
    let programs = parse(rt.alloc(), LOADS).expect(&rt, "programs");
    let mut world = World::opened(rt.alloc(), PAIR, Opening::Steady, programs).expect(
        &rt, "a world",
    );
    expect_same(&rt, play(&mut world, &MOVES), Ok(()));
    expect_same(&rt, settle(&mut world), Ok(Rest::Still));
    expect_same(&rt, world.opening(), Opening::Steady);
    expect_loaded(&rt, &world, node_of(MOVES[0]));
}

/// Sites and worlds of own code say how they began.
#[test]
fn openings(rt: HostRuntime) {
    let alloc = rt.alloc();
    let mut programs = parse(alloc, LOADS).expect(&rt, "programs");
    let program = programs.pop().expect(&rt, "a program");
    let site = Site::opened(alloc, &PAIR, 1, Opening::Steady, program, Keep::All);
    expect_same(&rt, opening_of(&rt, site), Opening::Steady);
    let open = Site::open_by(alloc, &PAIR, 0, Opening::Configured, Keep::Nothing);
    expect_same(&rt, opening_of(&rt, open), Opening::Configured);
    let world = World::open_by(alloc, PAIR, Opening::Steady).expect(&rt, "a world");
    expect_same(&rt, world.opening(), Opening::Steady);
}

/// How the site that was made began.
fn opening_of(rt: &impl Abort, made: Result<Site<Global>, Fault>) -> Opening {
    made.expect(rt, "memory").opening()
}

/// Own code at a node makes a call.
fn hand(rt: &impl Abort, world: &mut World<Global>, node: u64, call: Call)
    requires { HasWidth call }
{
    assert!(rt; node < world.nodes());
    assert!(rt; world.is_free(node));
    expect_same(rt, world.hand(node, call), Ok(()));
}

/// It makes the calls on some words together. Of all that is promised of it, callers need nothing.
fn hand_block(
    rt: &impl Abort,
    world: &mut World<Global>,
    node: u64,
    (kind, addr): (Row, u64),
    words: usize,
    bytes: &[u8],
) -> Result<usize, Fault> {
    assert!(rt; node < world.nodes());
    world.hand_block(node, kind, addr, words, bytes)
}

/// That a node waits for the reply to this call, and others were made along with it.
fn expect_waiting(rt: &impl Abort, world: &World<Global>, node: u64, call: Call) {
    assert!(rt; node < world.nodes());
    expect_same(rt, world.asked(node), Some(call));
    expect_same(rt, world.waits(node), None);
    assert!(rt; !world.is_alone(node));
}

/// The reply to the last call of a node.
fn last_reply(rt: &impl Abort, world: &World<Global>, node: u64) -> Option<Reply> {
    assert!(rt; node < world.nodes());
    let record = world.history(node).last()?;
    Some(record.reply)
}

/// Node 1 stores the second of two words, which node 0 loads.
#[test]
fn a_world_of_own_code(rt: HostRuntime) {
    let mut world = World::open(rt.alloc(), PAIR).expect(&rt, "a world");
    let store = Call::Store {
        width: 8,
        addr: 72,
        value: 7,
    };
    hand(&rt, &mut world, 1, store);
    expect_same(&rt, settle(&mut world), Ok(Rest::Still));
    let begun = hand_block(&rt, &mut world, 0, (Row::Loads, 64), 2, &[0; 16]);
    expect_same(&rt, begun, Ok(2));
    expect_waiting(&rt, &world, 0, Call::Load { width: 8, addr: 64 });
    expect_same(&rt, settle(&mut world), Ok(Rest::Still));
    expect_same(&rt, last_reply(&rt, &world, 0), Some(Reply::Value(7)));
}
