//! Swaps and their kin: the trace of one, four nodes that swap one word or add to one, and locks.

use crate::commands::common::{
    check_managers, check_over, check_seeds, expect_same_at, printed_by,
};
use std::process::Abort;
use std::test::Fail;
use test_support::File;
use test_support::outputs::{CAS_LOCK, SPIN_LOCK, TICKET_FADD, TICKET_LOCK};

const TWICE: [File; 2] = [
    File {
        name: "twice",
        text: "node 0\nnode 1\nset r1 64\nset r2 9\nswap 8 r3 r1 r2\nset r2 4\nswap 8 r3 r1 r2\nload 8 r3 r1\n",
    },
    File {
        name: "moves",
        text: "turn 1\nturn 1\nturn 1\ndeliver 0 0\ndeliver 1 1\nturn 1\nturn 1\nturn 1\nturn 1\n",
    },
];

const TRACE: &str = "\
1 turn 1
2 turn 1
3 turn 1
  sent 0 WriteReq 1 0 1
4 deliver 0 0
  sent 1 WriteRep 0 1 1
5 deliver 1 1
6 turn 1
  1 swap 8 64 9 = value 0
7 turn 1
8 turn 1
  1 swap 8 64 4 = value 9
9 turn 1
  1 load 8 64 = value 4
node 0 ended
node 1 ended
";

/// A swap asks for its page as a store does, and its record is that of an order.
#[test]
fn trace(rt: HostRuntime) -> Result<(), Fail> {
    let line = "step twice moves --pages 2 --page-size 64 --manager fixed";
    check_over(&rt, &TWICE, line, (0, TRACE, ""))
}

/// Nodes 1 to 4 each swap their number into one word, and print what they are given. Node 0 prints what stands
/// there at the end.
const FOUR_SWAPS: File = File {
    name: "swaps",
    text: "\
node 0
set r1 4
await r2 r0 r1
set r1 64
load 8 r3 r1
print r3
node 1
set r1 64
set r2 1
swap 8 r3 r1 r2
print r3
advance r0
node 2
set r1 64
set r2 2
swap 8 r3 r1 r2
print r3
advance r0
node 3
set r1 64
set r2 3
swap 8 r3 r1 r2
print r3
advance r0
node 4
set r1 64
set r2 4
swap 8 r3 r1 r2
print r3
advance r0
",
};

/// Nodes 1 to 4 each add 1 to one word, and print what they are given. Node 0 prints the sum at the end.
const FOUR_SUMS: File = File {
    name: "sums",
    text: "\
node 0
set r1 4
await r2 r0 r1
set r1 64
load 8 r3 r1
print r3
node 1
set r1 64
set r2 1
fadd 8 r3 r1 r2
print r3
advance r0
node 2
set r1 64
set r2 1
fadd 8 r3 r1 r2
print r3
advance r0
node 3
set r1 64
set r2 1
fadd 8 r3 r1 r2
print r3
advance r0
node 4
set r1 64
set r2 1
fadd 8 r3 r1 r2
print r3
advance r0
",
};

/// Asserts that each of the five nodes printed one line, and that each of 0 to 4 stands in one of them: each number is
/// given to one node, and the last one is left.
fn check_each_once(rt: &impl Abort, printed: &str) {
    expect_same_at(rt, printed, printed.lines().count(), 5);
    for number in [b'0', b'1', b'2', b'3', b'4'] {
        expect_same_at(rt, printed, lines_with(printed, 5, number), 1);
        expect_same_at(rt, printed, lines_with(printed, 8, number), 1);
    }
}

/// How many lines of nine bytes have this digit at this place.
fn lines_with(printed: &str, place: usize, digit: u8) -> usize {
    let has_digit = |line: &&str| line.as_bytes().get(place) == Some(&digit) && line.len() == 9;
    printed.lines().filter(has_digit).count()
}

/// The order of the swaps is open, and each number is given once.
#[test]
fn four_swaps(rt: HostRuntime) -> Result<(), Fail> {
    for line in [
        "run swaps --pages 2 --page-size 64 --manager dynamic",
        "run swaps --pages 2 --page-size 64 --manager dynamic --capacity 1",
        "run swaps --pages 2 --page-size 64 --manager fixed",
        "run swaps --pages 2 --page-size 64 --manager fixed --capacity 1",
    ] {
        let printed = printed_by(&rt, &[FOUR_SWAPS], line)?;
        check_each_once(&rt, printed.as_str());
    }
    Ok(())
}

/// The order of the sums is open, and no two of them find the same number.
#[test]
fn four_sums(rt: HostRuntime) -> Result<(), Fail> {
    for line in [
        "run sums --pages 2 --page-size 64 --manager dynamic",
        "run sums --pages 2 --page-size 64 --manager fixed --capacity 1",
    ] {
        let printed = printed_by(&rt, &[FOUR_SUMS], line)?;
        check_each_once(&rt, printed.as_str());
    }
    Ok(())
}

/// Too few moves for 800 raises: nothing is printed yet, and all nodes go on.
const OPEN: &str = "\
node 0 open
node 1 open
node 2 open
node 3 open
node 4 open
node 5 open
node 6 open
node 7 open
";

/// Under a lock that a swap takes no raise of the number is lost.
#[test]
fn spin_lock(rt: HostRuntime) -> Result<(), Fail> {
    let answer = (0, SPIN_LOCK.out, "");
    check_managers(&rt, &[SPIN_LOCK.programs], "run spin_lock.ivy", answer)
}

/// Nor is one by tickets.
#[test]
fn ticket_lock(rt: HostRuntime) -> Result<(), Fail> {
    let answer = (0, TICKET_LOCK.out, "");
    check_managers(&rt, &[TICKET_LOCK.programs], "run ticket_lock.ivy", answer)
}

/// Whole runs of the other two locks are made by `stress/check`.
#[test]
fn locks_begin(rt: HostRuntime) -> Result<(), Fail> {
    let seeds = [1, 2, 3];
    let spin = ("sim spin_lock.ivy --moves 2000", seeds.as_slice());
    check_seeds(&rt, &[SPIN_LOCK.programs], spin, (0, OPEN, ""))?;
    let ticket = ("sim ticket_lock.ivy --moves 2000", seeds.as_slice());
    check_seeds(&rt, &[TICKET_LOCK.programs], ticket, (0, OPEN, ""))?;
    let fadd = ("sim ticket_fadd.ivy --moves 2000", seeds.as_slice());
    check_seeds(&rt, &[TICKET_FADD.programs], fadd, (0, OPEN, ""))?;
    let cas = ("sim cas_lock.ivy --moves 2000", seeds.as_slice());
    check_seeds(&rt, &[CAS_LOCK.programs], cas, (0, OPEN, ""))
}
