//! Sessions of as many programs as there can be, and the example for as many.

use crate::commands::common::{check_managers, check_over, with_nodes};
use std::alloc::{AllocError, Allocator};
use std::process::Abort;
use std::sync::Wait;
use std::test::Fail;
use std::thread::Threads;
use test_support::File;
use test_support::outputs::SUM_OF_THIRTY_TWO;

/// Each of 32 programs advances count 0 once, and node 0 then awaits 32 and prints it.
fn crowd<A: Allocator + Copy>(alloc: A) -> Result<String<A>, AllocError> {
    let mut text = String::from_str(
        alloc,
        "node 0\nadvance r0\nset r1 32\nawait r2 r0 r1\nprint r2\n",
    )?;
    for node in 1..32 {
        write!(text, "node {node}\nadvance r0\n")?;
    }
    Ok(text)
}

/// The crowd prints what it has to in a session under this manager.
fn check_crowd<R: Abort + AllocGlobal + Threads + Wait + Sync>(
    rt: &R,
    manager: &str,
) -> Result<(), Fail> {
    let text = crowd(rt.alloc())?;
    let files = [File {
        name: "crowd",
        text: text.as_str(),
    }];
    let line = format!(in rt.alloc(); "run crowd --manager {manager}")?;
    check_over(rt, &files, line.as_str(), (0, "node 0: 32\n", ""))
}

#[test]
fn crowd_under_hints(rt: HostRuntime) -> Result<(), Fail> {
    check_crowd(&rt, "dynamic")
}

#[test]
fn crowd_under_managing_nodes(rt: HostRuntime) -> Result<(), Fail> {
    check_crowd(&rt, "fixed")
}

/// The numbers 1 to 256 are summed by thirty-two nodes.
#[test]
fn sum_of_thirty_two(rt: HostRuntime) -> Result<(), Fail> {
    let files = [SUM_OF_THIRTY_TWO.programs];
    let line = "run sum_of_thirty_two.ivy";
    check_managers(&rt, &files, line, (0, SUM_OF_THIRTY_TWO.out, ""))
}

/// Under 2,000 drawn moves no node of the example ends: node 0 makes more turns before it lets the others begin.
#[test]
fn sum_of_thirty_two_drawn(rt: HostRuntime) -> Result<(), Fail> {
    let out = with_nodes(rt.alloc(), "", 32, "open")?;
    let files = [SUM_OF_THIRTY_TWO.programs];
    let line = "sim sum_of_thirty_two.ivy --moves 2000";
    check_managers(&rt, &files, line, (0, out.as_str(), ""))
}
