//! With which of its pulses a node tells the sum of its run.

use crate::processes::common::{CONFIG, PROGRAMS, expect_same, spelled};
use crate::processes::serves::{LIMITS, program_of};
use ivy_process::Node;
use std::alloc::Global;
use std::process::Abort;
use std::str;

/// More pulses than two of those lie apart that tell a sum.
const PULSES: u64 = 2050;

/// The numbers of the node's next pulses, from 1 on, with which it tells the other node its sum.
fn telling_pulses(rt: &impl Abort, alloc: Global, node: &mut Node) -> Vec<u64> {
    let mut telling = Vec::new(alloc);
    for before in 0..PULSES {
        let (mut log, mut err) = (Vec::<u8>::new(alloc), Vec::<u8>::new(alloc));
        let mut out = Vec::<u8>::new(alloc);
        node.pulse().expect(rt, "memory");
        node.speak(&mut log, &mut out, &mut err)
            .expect(rt, "memory");
        if str::from_utf8(&out)
            .expect(rt, "a text")
            .contains("1 sum 0 5\n")
        {
            telling.push(before + 1).expect(rt, "memory");
        }
    }
    telling
}

#[test]
fn a_sum_is_told_ever_more_rarely_until_a_frame_comes(rt: HostRuntime) {
    let alloc = rt.alloc();
    let program = program_of(&rt, alloc, PROGRAMS, 0);
    let mut node = Node::start(alloc, &CONFIG, 0, program, LIMITS).expect(&rt, "a node");
    expect_same(&rt, telling_pulses(&rt, alloc, &mut node).len(), 0);
    node.tell_sum(5);
    let telling = telling_pulses(&rt, alloc, &mut node);
    let wanted = [1, 2, 4, 8, 16, 32, 64, 128, 256, 512, 1024, 2048];
    expect_same(&rt, telling.as_slice(), wanted.as_slice());
    let request = spelled(&rt, alloc, "0 REQUEST");
    node.hear(request.as_bytes()).expect(&rt, "memory");
    expect_same(&rt, telling_pulses(&rt, alloc, &mut node).len(), 0);
}
