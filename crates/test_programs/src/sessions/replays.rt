//! The event lists of a report, made again in a world of its own: by moves that are chosen here, with nothing from the
//! session but the lists, every node comes to the same history and output.
use crate::sessions::common::{
    EIGHT, FOUR_ADVANCES, LIMITS, LOADS, NARROW, NOTICE, PAIR, PULSING, TRIO, expect_same,
    expect_same_at, run,
};
use ivy_model::{Config, Kind};
use ivy_moves::Event;
use ivy_program::parse;
use ivy_session::{Limits, Report};
use ivy_wire::Bytes;
use ivy_world::{Move, World};
use std::alloc::{Allocator, Global};
use std::process::Abort;
use std::sync::Wait;
use std::thread::Threads;

/// The place of a string among those sent.
fn place_of<A: Allocator + Copy>(world: &World<A>, bytes: &[u8]) -> Option<u64> {
    let place = world.sent().iter().position(|sent| sent.bytes() == bytes)?;
    Some(place as u64)
}

/// The move that an event of a node is, and how often it is made; none where its string was not sent yet.
fn move_of<A: Allocator + Copy>(
    world: &World<A>,
    node: u64,
    event: &Event<Bytes<A>>,
) -> Option<(Move, u64)> {
    match event {
        Event::Turns(count) => Some((Move::Turn(node), *count)),
        Event::Delivered(bytes) => {
            let index = place_of(world, bytes.bytes())?;
            Some((Move::Deliver { index, to: node }, 1))
        }
        Event::Pulsed(to) => {
            let to = u64::from(*to);
            Some((Move::Pulse { from: node, to }, 1))
        }
    }
}

/// Makes a move so often.
fn repeat<A: Allocator + Copy>(
    rt: &impl Abort,
    world: &mut World<A>,
    moves: &mut Vec<Move, A>,
    (step, count): (Move, u64),
) {
    for _ in 0..count {
        expect_same(rt, world.run(&[step]), Ok(()));
        moves.push(step).expect(rt, "memory");
    }
}

/// Makes the events of a node from this place on, up to one whose string was not sent yet, and gives that place.
fn go_on<A: Allocator + Copy>(
    rt: &impl Abort,
    world: &mut World<A>,
    moves: &mut Vec<Move, A>,
    node: u64,
    (events, from): (&[Event<Bytes<A>>], usize),
) -> usize {
    for place in from..events.len() {
        let Some(repeated) = move_of(world, node, &events[place]) else {
            return place;
        };
        repeat(rt, world, moves, repeated);
    }
    events.len()
}

/// What one round made of the events: whether any was made, and whether any is left.
#[derive(Clone, Copy)]
struct Round {
    went: bool,
    left: bool,
}

/// Makes the events of each node from its place on, as far as it can, and keeps the place that it comes to.
fn go_round<A: Allocator + Copy>(
    rt: &impl Abort,
    world: &mut World<A>,
    moves: &mut Vec<Move, A>,
    report: &Report<A>,
    places: &mut [usize],
) -> Round {
    let mut round = Round {
        went: false,
        left: false,
    };
    for (node, place) in places.iter_mut().enumerate() {
        let node = node as u64;
        if node < report.nodes() {
            let events = report.events(node);
            let next = go_on(rt, world, moves, node, (events, *place));
            round.went = round.went || next != *place;
            round.left = round.left || next < events.len();
            *place = next;
        }
    }
    round
}

/// Makes the events of all nodes, each as soon as it can be made, and gives the moves. In the end every event can be
/// made.
fn merge<A: Allocator + Copy>(
    rt: &impl Abort,
    alloc: A,
    world: &mut World<A>,
    report: &Report<A>,
) -> Vec<Move, A> {
    let mut moves = Vec::new(alloc);
    let mut places = vec![in alloc; 0; report.nodes() as usize].expect(rt, "memory");
    for _ in 0..u64::MAX {
        let round = go_round(rt, world, &mut moves, report, &mut places);
        if !round.left {
            return moves;
        }
        assert!(rt; round.went, "a string was not sent");
    }
    panic!(rt; "the events have no end");
}

/// Whether the same strings were sent.
fn same_sent<A: Allocator + Copy>(one: &World<A>, other: &World<A>) -> bool {
    one.sent().len() == other.sent().len()
        && one
            .sent()
            .iter()
            .zip(other.sent())
            .all(|(one, other)| one.bytes() == other.bytes())
}

/// A world of the programs of a text, which has not moved yet.
fn world_of<A: Allocator + Copy>(
    rt: &impl Abort,
    alloc: A,
    config: Config,
    text: &str,
) -> World<A> {
    let programs = parse(alloc, text).expect(rt, "programs");
    World::new(alloc, config, programs).expect(rt, "memory")
}

/// Asserts that every node of a world has ended, with the history and the output of the report.
fn check_ends<A: Allocator + Copy>(rt: &impl Abort, world: &World<A>, report: &Report<A>) {
    expect_same(rt, world.nodes(), report.nodes());
    for node in 0..report.nodes() {
        if node < world.nodes() {
            expect_same_at(rt, node, world.history(node), report.history(node));
            expect_same_at(rt, node, world.output(node), report.output(node));
            expect_same_at(rt, node, world.ended(node), true);
        }
    }
}

fn check_replay<R: Abort + AllocGlobal + Threads + Wait + Sync>(
    rt: &R,
    config: Config,
    text: &str,
    limits: Limits,
) {
    let alloc = rt.alloc();
    let report = run(rt, alloc, config, text, limits).expect(rt, "a report");
    let mut world = world_of(rt, alloc, config, text);
    let moves = merge(rt, alloc, &mut world, &report);
    check_ends(rt, &world, &report);
    let mut again = world_of(rt, alloc, config, text);
    expect_same(rt, again.run(&moves), Ok(()));
    assert!(rt; same_sent(&world, &again));
}

#[test]
fn worked_sessions(rt: HostRuntime) {
    for (config, text) in [(PAIR, LOADS), (PAIR, NOTICE), (TRIO, FOUR_ADVANCES)] {
        for manager in [Kind::Fixed, Kind::Dynamic] {
            for limits in [LIMITS, NARROW] {
                let config = Config { manager, ..config };
                check_replay(&rt, config, text, limits);
            }
        }
    }
}

/// What each of eight nodes does, but for where it stores: it stores to a page, loads from a common one, takes a block and
/// ends it, and advances a count, and it waits until all nodes have done so.
const BUSY: &str = "
set r2 1
label again
load 8 r3 r1
add r3 r3 r2
store 8 r1 r3
set r4 64
load 8 r5 r4
store 8 r4 r2
set r6 24
alloc r7 r6
free r7
advance r0
set r8 1
sub r2 r2 r8
jumpz r2 out
jump again
label out
set r9 8
await r10 r0 r9
print r10
";

/// Eight nodes that are busy, of which two each share a page.
fn busy_text(rt: &impl Abort, alloc: Global) -> String {
    let mut text = String::new(alloc);
    for node in 0..8u64 {
        let page = 2 + node / 2;
        let addr = 64 * page + 8 * (node % 2);
        write!(text, "node {node}\nset r1 {addr}").expect(rt, "memory");
        text.push_str(BUSY).expect(rt, "memory");
    }
    text
}

#[test]
fn busy_session(rt: HostRuntime) {
    let text = busy_text(&rt, rt.alloc());
    for manager in [Kind::Fixed, Kind::Dynamic] {
        let config = Config { manager, ..EIGHT };
        check_replay(&rt, config, text.as_str(), PULSING);
    }
}
