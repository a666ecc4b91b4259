//! Sessions whose pulses are frequent, and whose ethers hold little, come to an end.
use crate::sessions::common::{LIMITS, expect_same_at, run, shown_of};
use ivy_model::{Config, Kind};
use ivy_session::Limits;
use std::process::Abort;
use std::sync::Wait;
use std::thread::Threads;

/// Four nodes, and two pages of 4,096 bytes.
const FOUR: Config = Config {
    nodes: 4,
    pages: 2,
    page_size: 4096,
    manager: Kind::Fixed,
};

/// Each node in turn adds one to a word. When all have, each loads it.
const IN_TURN: &str = "\
node 0
set r1 1
set r2 0
set r3 4
set r4 4096
await r5 r0 r2
load 8 r6 r4
add r6 r6 r1
store 8 r4 r6
advance r0
await r5 r0 r3
load 8 r6 r4
print r6
node 1
set r1 1
set r2 1
set r3 4
set r4 4096
await r5 r0 r2
load 8 r6 r4
add r6 r6 r1
store 8 r4 r6
advance r0
await r5 r0 r3
load 8 r6 r4
print r6
node 2
set r1 1
set r2 2
set r3 4
set r4 4096
await r5 r0 r2
load 8 r6 r4
add r6 r6 r1
store 8 r4 r6
advance r0
await r5 r0 r3
load 8 r6 r4
print r6
node 3
set r1 1
set r2 3
set r3 4
set r4 4096
await r5 r0 r2
load 8 r6 r4
add r6 r6 r1
store 8 r4 r6
advance r0
await r5 r0 r3
load 8 r6 r4
print r6
";

/// Runs them. Asserts that each node prints four.
fn check_fours<R: Abort + AllocGlobal + Threads + Wait + Sync>(
    rt: &R,
    manager: Kind,
    capacity: u64,
    pulse_every: u64,
) {
    let config = Config { manager, ..FOUR };
    let limits = Limits {
        capacity,
        pulse_every,
        ..LIMITS
    };
    let report = run(rt, rt.alloc(), config, IN_TURN, limits).expect(rt, "a report");
    for node in 0..4u64 {
        expect_same_at(rt, node, shown_of(&report, node).1, &[4u64][..]);
    }
}

/// A node that pulses at each turn still takes what is for it.
#[test]
fn pulse_at_each_turn(rt: HostRuntime) {
    check_fours(&rt, Kind::Fixed, 32, 1);
    check_fours(&rt, Kind::Dynamic, 32, 1);
}

/// Over the least ethers frames are lost, and pulses bring them again.
#[test]
fn narrow_and_frequent(rt: HostRuntime) {
    for capacity in [1, 2, 7] {
        for pulse_every in [1, 2, 3] {
            check_fours(&rt, Kind::Dynamic, capacity, pulse_every);
        }
    }
}
