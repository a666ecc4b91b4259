//! Worlds of steady hints: a node whose copy is ended keeps its hint, so its next request goes on over other nodes. Under
//! the dynamic manager it goes to the new owner at once. Replies are the same, those of one flat memory.
use crate::common::TRIO;
use crate::worlds::common::{IDLE, Run, check_run, check_world};
use ivy_model::{Config, Kind};
use ivy_world::{Opening, World, parse};
use std::process::Abort;

const HINTS: Config = Config {
    manager: Kind::Dynamic,
    ..TRIO
};

/// Node 1 loads a word before node 2 stores it, and once more then.
const TWICE: &str = "node 0
node 1
set r1 64
load 8 r2 r1
print r2
load 8 r2 r1
print r2
node 2
set r1 64
set r2 5
store 8 r1 r2
";

/// Node 1 has its first copy and prints, and node 2 has the page, once that copy was ended.
const ENDS_THE_COPY: &str = "1*2 0>0,1 1*2 2*3 2>0,2,1,2 2";

/// Node 1 asks node 2 itself.
const FOLLOWS: Run = Run {
    config: HINTS,
    text: TWICE,
    stages: &[(ENDS_THE_COPY, 6), ("1 6>2,1 1*2", 8)],
    kinds: "ReadReq:1>0 ReadRep:0>1 WriteReq:2>0 WriteRep:0>2 Inval:2>1 InvalAck:1>2 ReadReq:1>2 ReadRep:2>1",
    nodes: &[
        ended!(1, &[loaded!(1, 64, 0), loaded!(1, 64, 5)], &[0, 5]),
        ended!(2, &[stored!(2, 64, 5)], &[]),
    ],
    ..IDLE
};

static FOLLOWED: Run<'static> = FOLLOWS;

#[test]
fn hint_that_follows(rt: HostRuntime) {
    check_run(&rt, &FOLLOWED);
}

/// Node 1 asks node 0, as at first, which sends the request on.
static KEPT: Run<'static> = Run {
    stages: &[(ENDS_THE_COPY, 6), ("1 6>0,2,1 1*2", 9)],
    kinds: "ReadReq:1>0 ReadRep:0>1 WriteReq:2>0 WriteRep:0>2 Inval:2>1 InvalAck:1>2 ReadReq:1>0 ReadReq:0>2 ReadRep:2>1",
    ..FOLLOWS
};

/// That a steady world of this configuration shows what the run says.
fn check_steady(rt: &(impl Abort + AllocGlobal), config: Config, run: &Run) {
    let alloc = rt.alloc();
    let programs = parse(alloc, run.text).expect(rt, "programs");
    let mut world = World::opened(alloc, config, Opening::Steady, programs).expect(rt, "a world");
    assert!(rt; world.opening() == Opening::Steady);
    check_world(rt, alloc, &mut world, run);
}

/// So it is whatever manager the configuration names.
#[test]
fn hint_that_stays(rt: HostRuntime) {
    check_steady(&rt, HINTS, &KEPT);
    check_steady(&rt, TRIO, &KEPT);
}

/// Nodes 0 and 1 load the word that node 2 stores.
const BOTH_LOAD: &str = "node 0
set r1 64
load 8 r2 r1
print r2
node 1
set r1 64
load 8 r2 r1
print r2
node 2
set r1 64
set r2 5
store 8 r1 r2
";

/// Node 2 has the page, and node 0 awaits a copy of it, as the request of node 1 comes.
static SENT_ON: Run<'static> = Run {
    config: HINTS,
    text: BOTH_LOAD,
    stages: &[
        ("2*3 0>0,2 2", 2),
        ("0*2", 3),
        ("1*2 3>0", 5),
        ("2>2 5>0 0*2", 6),
        ("4>2 6>1 1*2", 7),
    ],
    kinds: "WriteReq:2>0 WriteRep:0>2 ReadReq:0>2 ReadReq:1>0 ReadReq:0>2 ReadRep:2>0 ReadRep:2>1",
    nodes: &[
        ended!(0, &[loaded!(0, 64, 5)], &[5]),
        ended!(1, &[loaded!(1, 64, 5)], &[5]),
        ended!(2, &[stored!(2, 64, 5)], &[]),
    ],
    ..IDLE
};

/// A request that finds a node waiting for a copy is sent on at once. Under the dynamic manager it is put off there.
#[test]
fn request_sent_on(rt: HostRuntime) {
    check_steady(&rt, HINTS, &SENT_ON);
}
