//! What the tests share: nodes, and the strings that come to them and that they send.
use crate::common::{PAIR, string};
use ivy_model::{Config, Fault};
use ivy_site::{Program, Site, Turn, Verdict, parse};
use ivy_wire::Bytes;
use std::alloc::Allocator;
use std::process::Abort;

/// A node loads a word that nobody wrote, and prints it.
pub(crate) const LOADS: &str = "node 0\nset r1 64\nload 8 r2 r1\nprint r2\n";

/// Node 0 of a configuration, whose program is empty.
pub(crate) fn owner<A: Allocator + Copy>(rt: &impl Abort, alloc: A, config: &Config) -> Site<A> {
    config.check().expect(rt, "a configuration");
    Site::new(alloc, config, 0, Program::new(alloc, Vec::new(alloc))).expect(rt, "memory")
}

/// The node of this number of a pair, with the program of a text.
pub(crate) fn node_of<A: Allocator + Copy>(
    rt: &impl Abort,
    alloc: A,
    me: u8,
    text: &str,
) -> Site<A> {
    PAIR.check().expect(rt, "a configuration");
    assert!(rt; me < PAIR.nodes);
    let program = parse(alloc, text)
        .expect(rt, "programs")
        .pop()
        .expect(rt, "a program");
    Site::new(alloc, &PAIR, me, program).expect(rt, "memory")
}

/// A turn of a node. Of all that is promised of it, callers need nothing.
pub(crate) fn take_turn<A: Allocator + Copy>(site: &mut Site<A>) -> Result<Turn, Fault> {
    site.program_turn()
}

/// Makes turns of a node, each of which does something.
pub(crate) fn take_turns<A: Allocator + Copy>(rt: &impl Abort, site: &mut Site<A>, number: u64) {
    for _ in 0..number {
        take_turn(site).expect(rt, "a turn");
    }
}

/// A string comes to a node. Of all that is promised of it, callers need nothing.
pub(crate) fn receive<A: Allocator + Copy>(
    site: &mut Site<A>,
    bytes: &[u8],
) -> Result<Verdict, Fault> {
    site.deliver(bytes)
}

/// The same of a string as it is written.
pub(crate) fn comes<A: Allocator + Copy>(
    rt: &impl Abort,
    alloc: A,
    site: &mut Site<A>,
    written: &str,
) -> Result<Verdict, Fault> {
    receive(site, &string(rt, alloc, written))
}

/// A pulse of a node to another of its configuration.
pub(crate) fn pulse<A: Allocator + Copy>(
    rt: &impl Abort,
    site: &mut Site<A>,
    to: u8,
) -> Result<(), Fault> {
    assert!(rt; to < site.config().nodes && to != site.me());
    site.pulse(to)
}

/// The next string of a node, which is gone from it then. Of all that is promised of it, callers
/// need nothing.
pub(crate) fn taken<A: Allocator + Copy>(site: &mut Site<A>) -> Option<Bytes<A>> {
    site.take_frame()
}

/// Takes the next string of a node, which is this one.
pub(crate) fn expect_next<A: Allocator + Copy>(
    rt: &impl Abort,
    alloc: A,
    site: &mut Site<A>,
    written: &str,
) {
    let wanted = string(rt, alloc, written);
    let sent = taken(site).expect(rt, "a string waits");
    assert!(rt; sent.bytes() == wanted.as_slice(), "{written}");
}
