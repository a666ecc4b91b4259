//! The first load, byte for byte, and the same over a wire that loses and repeats.
use crate::common::{REPLY, REQUEST};
use crate::worlds::common::{HAS_LOADED, IDLE, Run, Stage, check_run};
use test_support::LOADS;

/// The moves of the first load, where no string is lost.
const MOVES: Stage = ("1*2 0>0,1 1*2", 2);

const FIRST_LOAD: Run = Run {
    text: LOADS,
    stages: &[MOVES],
    strings: &[(0, &[REQUEST, REPLY])],
    nodes: &[HAS_LOADED],
    ..IDLE
};

static EMPTY: Run<'static> = Run {
    text: "node 0\nnode 1\n",
    stages: &[("0 1", 0)],
    nodes: &[ended!(0, &[], &[]), ended!(1, &[], &[])],
    ..IDLE
};

#[test]
fn empty_programs(rt: HostRuntime) {
    check_run(&rt, &EMPTY);
}

static UNDISTURBED: Run<'static> = FIRST_LOAD;

#[test]
fn first_load(rt: HostRuntime) {
    check_run(&rt, &UNDISTURBED);
}

/// Behind the moves, pulses of both nodes, twice.
static PULSED: Run<'static> = Run {
    stages: &[MOVES, ("1~0 2>0 0~1 3>1", 4), ("1~0 0~1", 4)],
    strings: &[(
        2,
        &[
            "495602010100000d 0000000000000001 0000000000000001 01 0000000000000001 00000001",
            "4956020000010000 0000000000000000 0000000000000001",
        ],
    )],
    ..FIRST_LOAD
};

/// After the first load each node sends again what it keeps or owes, and then nothing.
#[test]
fn pulses_after_the_first_load(rt: HostRuntime) {
    check_run(&rt, &PULSED);
}

static LOST: Run<'static> = Run {
    stages: &[("1*2 1~0 1>0,1 1*2", 3)],
    strings: &[(0, &[REQUEST, REQUEST, REPLY])],
    ..FIRST_LOAD
};

/// The request is lost, and the one that a pulse sends is served.
#[test]
fn lost_request(rt: HostRuntime) {
    check_run(&rt, &LOST);
}

/// Each string also comes to the node that sent it.
static STRAYED: Run<'static> = Run {
    stages: &[("1*2 0>1 0>0 1>0 1>1 1*2", 2)],
    ..FIRST_LOAD
};

/// A string that comes to a node that it is not for changes nothing.
#[test]
fn strings_astray(rt: HostRuntime) {
    check_run(&rt, &STRAYED);
}

static REPEATED: Run<'static> = Run {
    stages: &[("1*2 0>0 0>0 0>0 1>1 1>1 1>1 1*2", 2)],
    ..FIRST_LOAD
};

#[test]
fn every_string_thrice(rt: HostRuntime) {
    check_run(&rt, &REPEATED);
}
