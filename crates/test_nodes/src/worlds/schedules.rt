//! Accesses that are refused, schedules that are, worlds that are, and a request that is forwarded.
use crate::common::{PAIR, TRIO, expect_same_at};
use crate::worlds::common::{IDLE, Run, check_run, moves_of, play, world};
use ivy_model::{Call, Config, Fault, Kind, Record};
use ivy_world::{World, parse};
use std::alloc::Global;
use test_support::LOADS;

const ACCESSES: &str = "node 0
set r1 120
load 8 r2 r1
set r1 121
load 8 r2 r1
set r1 128
load 1 r2 r1
set r1 0
load 1 r2 r1
set r1 129
load 8 r2 r1
node 1
";

/// A load that is refused by a number, in the value of a constant.
macro_rules! refused_load {
    ($width:expr, $addr:expr, $fault:expr) => {
        refused!(
            0,
            Call::Load {
                width: $width,
                addr: $addr,
            },
            $fault
        )
    };
}

const LOADED: [Record; 5] = [
    loaded!(0, 120, 0),
    refused_load!(8, 121, 3),
    refused_load!(1, 128, 4),
    refused_load!(1, 0, 5),
    refused_load!(8, 129, 3),
];

static ACCESSES_RUN: Run<'static> = Run {
    text: ACCESSES,
    stages: &[("0*10", 0)],
    nodes: &[ended!(0, &LOADED, &[])],
    ..IDLE
};

#[test]
fn refused_accesses(rt: HostRuntime) {
    check_run(&rt, &ACCESSES_RUN);
}

/// The request goes to node 1 and on to node 0, and its answer comes to node 2.
static FORWARDED: Run<'static> = Run {
    config: TRIO,
    text: "node 0\nnode 1\nnode 2\nset r1 64\nload 8 r2 r1\nprint r2\n",
    stages: &[("2*2 0>1,0", 3), ("2>2 2*2", 3)],
    kinds: "ReadReq:2>1 ReadReq:1>0 ReadRep:0>2",
    nodes: &[ended!(2, &[loaded!(2, 64, 0)], &[0])],
    ..IDLE
};

/// The managing node of the page hands the request on to the node that owns it.
#[test]
fn forwarded_read(rt: HostRuntime) {
    check_run(&rt, &FORWARDED);
}

/// Moves of which the one at a place names nothing, and how many strings were sent before it: a node, a string or a pulse
/// that is not there.
const NAMING_NOTHING: [(&str, usize, usize); 6] = [
    ("2", 0, 0),
    ("0>0", 0, 0),
    ("0~0", 0, 0),
    ("0~2", 0, 0),
    ("2~0", 0, 0),
    ("1*2 1>1", 2, 1),
];

/// The moves before the one that names nothing are made.
#[test]
fn moves_that_name_nothing(rt: HostRuntime) {
    let mut world = world(&rt, rt.alloc(), PAIR, LOADS);
    for (words, place, sent) in NAMING_NOTHING {
        let made = play(&mut world, &moves_of(&rt, rt.alloc(), words));
        expect_same_at(&rt, words, made, Err((place, Fault::NoSuchFrame)));
        expect_same_at(&rt, words, world.sent().len(), sent);
    }
}

/// The answer to a world of this configuration and these programs.
fn refusal(alloc: Global, config: Config, text: &str) -> Option<Fault> {
    match parse(alloc, text) {
        Ok(programs) => World::new(alloc, config, programs).err(),
        Err(fault) => Some(fault),
    }
}

const NINE: &str = "node 0\nnode 1\nnode 2\nnode 3\nnode 4\nnode 5\nnode 6\nnode 7\nnode 8\n";

const THREE: &str = "node 0\nnode 1\nnode 2\n";

const DYNAMIC: Config = Config {
    manager: Kind::Dynamic,
    ..TRIO
};

const WORLDS: [(Config, &str, Option<Fault>); 6] = [
    (Config { nodes: 33, ..PAIR }, NINE, Some(Fault::BadConfig)),
    (Config { nodes: 9, ..PAIR }, NINE, None),
    (PAIR, THREE, Some(Fault::BadConfig)),
    (PAIR, "", Some(Fault::BadConfig)),
    (TRIO, THREE, None),
    (DYNAMIC, THREE, None),
];

#[test]
fn worlds_that_are_refused(rt: HostRuntime) {
    for (config, text, fault) in WORLDS {
        expect_same_at(&rt, text, refusal(rt.alloc(), config, text), fault);
    }
}
