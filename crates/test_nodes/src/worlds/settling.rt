//! Worlds that settle: what they come to, after how many moves, what they wait for then, and each growth of it
//! refused in turn.
use crate::common::{PAIR, Refusable, TRIO, expect_same, expect_same_at, met, refuse_each};
use crate::worlds::common::{HAS_LOADED, STUCK, Shown, moves_of, play, shows, world};
use crate::worlds::counts::{GIVEN_NOTICE, NOTICED};
use crate::worlds::growths_of_worlds::same_worlds;
use ivy_model::{Config, Fault, Kind};
use ivy_world::{Rest, World};
use std::alloc::{Allocator, Global};
use std::process::Abort;
use test_support::{Failing, LOADS, NOTICE};

/// More moves than any run here needs.
const ENOUGH: u64 = 200;

/// Each of two nodes awaits a count that the other one would advance after its own await.
const CROSSED: &str = "node 0
set r1 1
await r2 r0 r1
advance r1
node 1
set r1 1
set r2 2
await r3 r1 r2
advance r0
";

/// Node 0 goes round for ever. Node 1 stores and ends.
const ROUND: &str = "node 0
label again
jump again
node 1
set r1 64
set r2 9
store 8 r1 r2
";

/// What the nodes of a world await.
fn awaits<A: Allocator + Copy>(world: &World<A>, node: u64) -> Option<(u64, u64)> {
    if node < world.nodes() {
        world.waits(node)
    } else {
        None
    }
}

/// Lets a world settle. Of all that is promised of it, callers need nothing.
fn settle<A: Allocator + Copy>(world: &mut World<A>, moves: u64) -> Result<Rest, (u64, Fault)> {
    world.settle(moves)
}

/// What is done to a world, or what it shows.
#[derive(Clone, Copy)]
enum Step<'a> {
    /// It makes these moves.
    Plays(&'a str),
    /// It settles in so many moves at most. What it comes to.
    Settles(u64, Rest),
    /// A node shows this, and awaits a count to be at least so much.
    Shows(Shown<'a>, Option<(u64, u64)>),
    /// How many strings were sent.
    Sent(usize),
}

/// Whether the step goes as it says.
fn goes<A: Allocator + Copy>(rt: &impl Abort, alloc: A, world: &mut World<A>, step: &Step) -> bool {
    match step {
        Step::Plays(words) => play(world, &moves_of(rt, alloc, words)).is_ok(),
        Step::Settles(moves, rest) => settle(world, *moves) == Ok(*rest),
        Step::Shows(shown, least) => { shows(world, shown) && awaits(world, shown.node) == *least }
        Step::Sent(count) => world.sent().len() == *count,
    }
}

fn check_steps<A: Allocator + Copy>(
    rt: &impl Abort,
    alloc: A,
    world: &mut World<A>,
    steps: &[Step],
) {
    for (index, step) in steps.iter().enumerate() {
        expect_same_at(rt, index, goes(rt, alloc, world, step), true);
    }
}

/// Programs, and what comes of them.
#[derive(Clone, Copy)]
struct Scene<'a> {
    config: Config,
    text: &'a str,
    steps: &'a [Step<'a>],
}

fn check(rt: &(impl Abort + AllocGlobal), scene: &Scene) {
    let mut world = world(rt, rt.alloc(), scene.config, scene.text);
    check_steps(rt, rt.alloc(), &mut world, scene.steps);
}

/// Two nodes under the dynamic manager.
const HINTS: Config = Config {
    manager: Kind::Dynamic,
    ..PAIR
};

/// The same under either manager.
fn check_both(rt: &(impl Abort + AllocGlobal), scene: &Scene) {
    for config in [PAIR, HINTS] {
        check(rt, &Scene { config, ..*scene });
    }
}

static CROSSED_SCENE: Scene<'static> = Scene {
    config: PAIR,
    text: CROSSED,
    steps: &[
        Step::Settles(ENOUGH, Rest::Still),
        Step::Shows(STUCK, Some((0, 1))),
        Step::Shows(Shown { node: 1, ..STUCK }, Some((1, 2))),
    ],
};

#[test]
fn awaits_that_cross(rt: HostRuntime) {
    check_both(&rt, &CROSSED_SCENE);
}

static NOTICE_SCENE: Scene<'static> = Scene {
    config: PAIR,
    text: NOTICE,
    steps: &[
        Step::Settles(ENOUGH, Rest::Still),
        Step::Shows(NOTICED, None),
        Step::Shows(GIVEN_NOTICE, None),
    ],
};

/// Node 0 is answered what node 1 stored before it advanced the count.
#[test]
fn notice_to_its_end(rt: HostRuntime) {
    check_both(&rt, &NOTICE_SCENE);
}

static TOO_FEW: Scene<'static> = Scene {
    config: TRIO,
    text: "node 0\nadvance r0\nnode 1\nnode 2\nset r1 2\nawait r2 r0 r1\n",
    steps: &[
        Step::Settles(ENOUGH, Rest::Still),
        Step::Shows(ended!(0, &[advanced!(0)], &[]), None),
        Step::Shows(ended!(1, &[], &[]), None),
        Step::Shows(Shown { node: 2, ..STUCK }, Some((0, 2))),
    ],
};

/// Two nodes end, and the third one awaits a count that was advanced once, to be two.
#[test]
fn one_too_few(rt: HostRuntime) {
    check(&rt, &TOO_FEW);
}

/// The other node is not kept from its end.
static NEVER: Scene<'static> = Scene {
    config: PAIR,
    text: ROUND,
    steps: &[
        Step::Settles(ENOUGH, Rest::Going),
        Step::Shows(ended!(1, &[stored!(1, 64, 9)], &[]), None),
        Step::Shows(STUCK, None),
    ],
};

#[test]
fn never_at_rest(rt: HostRuntime) {
    check(&rt, &NEVER);
}

static AT_REST: Scene<'static> = Scene {
    config: PAIR,
    text: "node 0\nnode 1\n",
    steps: &[
        Step::Settles(0, Rest::Going),
        Step::Settles(1, Rest::Going),
        Step::Settles(2, Rest::Still),
        Step::Settles(3, Rest::Still),
        Step::Sent(0),
    ],
};

/// A world of two nodes that stands still is found so after two moves, and not before.
#[test]
fn moves_of_a_world_at_rest(rt: HostRuntime) {
    check(&rt, &AT_REST);
}

const FIRST_LOAD: Scene = Scene {
    config: PAIR,
    text: LOADS,
    steps: &[
        Step::Settles(12, Rest::Still),
        Step::Shows(HAS_LOADED, None),
        Step::Sent(2),
    ],
};

/// The first load: five rounds. In the first one node 0 ends and node 1 sets; in the second node 1 asks; the third has
/// two deliveries, and node 1 records; in the fourth it prints; and the fifth, in which no turn does anything, is
/// the last one.
#[test]
fn moves_of_the_first_load(rt: HostRuntime) {
    for short in 0..12 {
        let steps = [Step::Settles(short, Rest::Going)];
        check(
            &rt,
            &Scene {
                steps: &steps,
                ..FIRST_LOAD
            },
        );
    }
    check(&rt, &FIRST_LOAD);
}

/// The request is sent three times. The first answer comes to the wrong node, and the first request, too.
const REPEATS: &str = "1*2 1~0 1~0 1>0 0>1 2>0";

/// The answer, behind three requests, is all that is under way. Then three rounds: node 1 records, and prints, and
/// nothing happens.
static AFTER_REPEATS: Scene<'static> = Scene {
    steps: &[
        Step::Plays(REPEATS),
        Step::Sent(4),
        Step::Settles(7, Rest::Still),
        Step::Shows(HAS_LOADED, None),
    ],
    ..FIRST_LOAD
};

/// What was repeated and came too early before is settled as well.
#[test]
fn settled_after_repeats(rt: HostRuntime) {
    check(&rt, &AFTER_REPEATS);
}

/// Settles two worlds, and asserts what they come to and that they show the same.
fn check_same<A: Allocator + Copy>(
    rt: &impl Abort,
    n: u64,
    refused: &mut World<A>,
    twin: &mut World<A>,
) {
    expect_same_at(rt, n, settle(refused, ENOUGH), Ok(Rest::Still));
    expect_same_at(rt, n, settle(twin, ENOUGH), Ok(Rest::Still));
    expect_same_at(rt, n, same_worlds(refused, twin), true);
}

/// Settles a world with the n-th growth refused, and one without. Whether that growth was asked for.
fn refused_of<A: Allocator + Copy>(
    rt: &impl Abort,
    memory: &Failing<Global>,
    n: u64,
    refused: &mut World<A>,
    twin: &mut World<A>,
) -> bool {
    memory.refuse(n);
    let answer = settle(refused, ENOUGH);
    let met = met(memory, n);
    let Err((made, fault)) = answer else {
        expect_same(rt, answer, Ok(Rest::Still));
        return met;
    };
    expect_same_at(rt, n, (met, fault), (true, Fault::Memory));
    // The moves before the refused one were made, and it changed nothing.
    expect_same_at(rt, n, settle(twin, made), Ok(Rest::Going));
    expect_same_at(rt, n, same_worlds(refused, twin), true);
    check_same(rt, n, refused, twin);
    true
}

/// Two nodes settle.
struct Settling;

impl Refusable for Settling {
    fn is_met(&self, rt: &impl Abort, memory: &Failing<Global>, n: u64) -> bool {
        let mut refused = world(rt, memory, PAIR, NOTICE);
        let mut twin = world(rt, memory, PAIR, NOTICE);
        refused_of(rt, memory, n, &mut refused, &mut twin)
    }
}

#[test]
fn growths_of_settling(rt: HostRuntime) {
    refuse_each(&rt, &Settling);
}
