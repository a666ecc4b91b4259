//! Each growth refused in turn in a world that runs. The place of the refused move is answered, the moves
//! before it were made, and the run goes on from there to the same end. The runs have all that a store can
//! lead to: turns in which it faults, page requests at the owner and put off, pages with and without copies,
//! copies that are ended at once and once they came, acknowledgements, the last of them and others, and seven
//! requests that are put off and then served in one event. One more run has calls of the heap that node 0 serves for
//! another node.
use crate::common::{
    PAIR, REPLY, REQUEST, Refusable, STORE_ASKS, STORE_GETS, expect_same, expect_same_at, met,
    refuse_each,
};
use crate::worlds::common::{
    HAS_LOADED, IDLE, Run, Stage, add_moves, check_world, deliver, moves_of, play, world,
};
use crate::worlds::counts::{GIVEN_NOTICE, NOTICE_ONCE, NOTICED};
use crate::worlds::dynamic::UPGRADE_RUN;
use crate::worlds::eight_nodes::{PUT_OFF_WHILE_AWAITED, SEVEN_FIRST};
use crate::worlds::heap::{ASKING, asking_text};
use crate::worlds::stores::{LATE_RUN, UPGRADE_OF_THREE_RUN, UPGRADE_OF_TWO_RUN};
use ivy_model::Fault;
use ivy_world::{Move, World};
use std::alloc::{Allocator, Global};
use std::process::Abort;
use test_support::{Failing, LOADS, NOTICE};

/// Whether the same strings were sent.
fn same_sent<A: Allocator + Copy>(one: &World<A>, other: &World<A>) -> bool {
    one.sent().len() == other.sent().len()
        && one
            .sent()
            .iter()
            .zip(other.sent())
            .all(|(one, other)| one.bytes() == other.bytes())
}

/// Whether a node of two nodes or more shows the same in both worlds.
fn same_node<A: Allocator + Copy>(one: &World<A>, other: &World<A>, node: u64) -> bool {
    node < one.nodes()
        && node < other.nodes()
        && one.history(node) == other.history(node)
        && one.output(node) == other.output(node)
        && one.ended(node) == other.ended(node)
}

/// Whether two worlds of the same configuration show the same.
pub(crate) fn same_worlds<A: Allocator + Copy>(one: &World<A>, other: &World<A>) -> bool {
    for node in 0..one.nodes() {
        if !same_node(one, other, node) {
            return false;
        }
    }
    same_sent(one, other)
}

/// Plays the moves in two worlds, in one of them with the n-th growth refused. Whether that growth was asked
/// for.
fn refused_of<A: Allocator + Copy>(
    rt: &impl Abort,
    memory: &Failing<Global>,
    n: u64,
    moves: &[Move],
    refused: &mut World<A>,
    twin: &mut World<A>,
) -> bool {
    memory.refuse(n);
    let answer = play(refused, moves);
    let met = met(memory, n);
    let Err((place, fault)) = answer else {
        return met;
    };
    expect_same_at(rt, n, (met, fault), (true, Fault::Memory));
    expect_same_at(rt, n, play(twin, &moves[..place]), Ok(()));
    expect_same_at(rt, n, same_worlds(refused, twin), true);
    check_rest(rt, n, &moves[place..], refused, twin);
    true
}

/// Both worlds go on to the same end.
fn check_rest<A: Allocator + Copy>(
    rt: &impl Abort,
    n: u64,
    moves: &[Move],
    refused: &mut World<A>,
    twin: &mut World<A>,
) {
    expect_same_at(rt, n, play(refused, moves), Ok(()));
    expect_same_at(rt, n, play(twin, moves), Ok(()));
    expect_same_at(rt, n, same_worlds(refused, twin), true);
}

/// All moves of a run.
fn all_moves<A: Allocator>(rt: &impl Abort, alloc: A, run: &Run) -> Vec<Move, A> {
    let mut moves = Vec::new(alloc);
    for (words, _) in run.stages {
        add_moves(rt, &mut moves, words);
    }
    moves
}

impl Refusable for Run<'_> {
    fn is_met(&self, rt: &impl Abort, memory: &Failing<Global>, n: u64) -> bool {
        let mut refused = world(rt, memory, self.config, self.text);
        let mut twin = world(rt, memory, self.config, self.text);
        let moves = all_moves(rt, memory, self);
        refused_of(rt, memory, n, &moves, &mut refused, &mut twin)
    }
}

/// The first load, and then what each node sends again.
static PULSED: Run<'static> = Run {
    text: LOADS,
    stages: &[("1*2 0>0,1 1*2 1~0 2>0 0~1 3>1", 4)],
    ..IDLE
};

#[test]
fn growths_of_runs(rt: HostRuntime) {
    refuse_each(&rt, &PULSED);
    refuse_each(&rt, &NOTICE_ONCE);
    refuse_each(&rt, &UPGRADE_OF_TWO_RUN);
    refuse_each(&rt, &UPGRADE_OF_THREE_RUN);
    refuse_each(&rt, &LATE_RUN);
}

/// A store whose last acknowledgement brings on a request that was put off, and seven requests that are put off.
#[test]
fn growths_of_longer_runs(rt: HostRuntime) {
    refuse_each(&rt, &UPGRADE_RUN);
    refuse_each(&rt, &SEVEN_FIRST);
    refuse_each(&rt, &PUT_OFF_WHILE_AWAITED);
}

/// Node 1 asks for blocks and ends them, some in vain.
#[test]
fn growths_of_the_heap(rt: HostRuntime) {
    let text = asking_text(&rt, rt.alloc());
    let run = Run {
        text: text.as_str(),
        stages: &[ASKING],
        ..IDLE
    };
    refuse_each(&rt, &run);
}

/// Programs of two nodes. Node 1 asks, and the delivery of its request to node 0 is refused. In the run a pulse and the
/// delivery of what it sends replace that delivery: node 0 owned the page still, and gives it once.
#[derive(Clone, Copy)]
struct Replaced<'a> {
    asks: &'a str,
    run: Run<'a>,
}

/// The request comes again, and is answered.
const COMES_AGAIN: Stage = ("1~0 1>0,1", 3);

static LOAD_REPLACED: Replaced<'static> = Replaced {
    asks: "1*2",
    run: Run {
        text: LOADS,
        stages: &[COMES_AGAIN, ("1*2", 3)],
        kinds: "ReadReq:1>0 ReadReq:1>0 ReadRep:0>1",
        strings: &[(1, &[REQUEST, REPLY])],
        nodes: &[HAS_LOADED],
        ..IDLE
    },
};

/// The rest of the notice has one string more before it.
static NOTICE_REPLACED: Replaced<'static> = Replaced {
    asks: "1*3",
    run: Run {
        text: NOTICE,
        stages: &[COMES_AGAIN, ("1*2 3>0,1 1 0*2 5>1,0 0*3 7>1,0 0*2", 9)],
        kinds: "WriteReq:1>0 WriteReq:1>0 WriteRep:0>1",
        strings: &[(1, &[STORE_ASKS, STORE_GETS])],
        nodes: &[NOTICED, GIVEN_NOTICE],
        ..IDLE
    },
};

/// Delivers the request with the n-th growth refused. Whether that growth was asked for.
fn replaced_of<A: Allocator + Copy>(
    rt: &impl Abort,
    (memory, alloc, n): (&Failing<Global>, A, u64),
    replaced: &Replaced,
    world: &mut World<A>,
) -> bool {
    let asked = play(world, &moves_of(rt, alloc, replaced.asks));
    expect_same(rt, asked, Ok(()));
    memory.refuse(n);
    let answer = play(world, &[deliver(0, 0)]);
    let met = met(memory, n);
    if met {
        expect_same_at(rt, n, answer, Err((0, Fault::Memory)));
        expect_same_at(rt, n, world.sent().len(), 1);
        check_world(rt, alloc, world, &replaced.run);
    } else {
        expect_same_at(rt, n, answer, Ok(()));
    }
    met
}

impl Refusable for Replaced<'_> {
    fn is_met(&self, rt: &impl Abort, memory: &Failing<Global>, n: u64) -> bool {
        let mut world = world(rt, memory, PAIR, self.run.text);
        replaced_of(rt, (memory, memory, n), self, &mut world)
    }
}

/// A pulse and a delivery replace the delivery that was refused, and the programs go on to the same end.
#[test]
fn refused_delivery_replaced(rt: HostRuntime) {
    refuse_each(&rt, &LOAD_REPLACED);
    refuse_each(&rt, &NOTICE_REPLACED);
}
