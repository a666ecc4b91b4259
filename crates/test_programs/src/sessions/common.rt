//! What the tests share: configurations, programs, and sessions of them.

use ivy_model::{Config, Fault, Kind, Record};
use ivy_program::parse;
use ivy_session::{Gate, Limits, OpenGate, Report, Session};
use std::alloc::Allocator;
use std::fmt::{Debug, Display};
use std::process::Abort;
use std::sync::Wait;
use std::thread::Threads;

/// Two nodes, and two pages of 64 bytes.
pub(crate) const PAIR: Config = Config {
    nodes: 2,
    pages: 2,
    page_size: 64,
    manager: Kind::Fixed,
};

/// A third node, and hints of who owns a page.
pub(crate) const TRIO: Config = Config {
    nodes: 3,
    manager: Kind::Dynamic,
    ..PAIR
};

/// Eight nodes, and eight pages of 64 bytes.
pub(crate) const EIGHT: Config = Config {
    nodes: 8,
    pages: 8,
    page_size: 64,
    manager: Kind::Dynamic,
};

/// What the program `ivy` takes without options.
pub(crate) const LIMITS: Limits = Limits {
    capacity: 256,
    turns: 100_000_000,
    pulse_every: 1024,
};

/// More pulses.
pub(crate) const PULSING: Limits = Limits {
    pulse_every: 64,
    ..LIMITS
};

/// And the least ether.
pub(crate) const NARROW: Limits = Limits {
    capacity: 1,
    ..PULSING
};

/// Both nodes have ended at once.
pub(crate) const EMPTY: &str = "node 0\nnode 1\n";

/// Node 1 loads a word that nobody wrote, and prints it.
pub(crate) const LOADS: &str = "node 0\nnode 1\nset r1 64\nload 8 r2 r1\nprint r2\n";

/// Node 1 stores and then advances a count; node 0 awaits that and then loads.
pub(crate) const NOTICE: &str = "\
node 0
set r1 1
await r2 r0 r1
set r1 64
load 8 r3 r1
print r3
node 1
set r1 64
set r2 9
store 8 r1 r2
advance r0
";

/// Two nodes each advance a count twice; node 0 awaits four, and counts.
pub(crate) const FOUR_ADVANCES: &str = "\
node 0
set r1 4
await r2 r0 r1
count r3 r0
print r3
node 1
advance r0
advance r0
node 2
advance r0
advance r0
";

/// The last await of node 0 is of more than there is to come.
pub(crate) const WAITS: &str = "\
node 0
set r1 1
set r2 2
await r3 r0 r0
advance r0
await r3 r0 r1
await r3 r0 r2
print r3
node 1
";

/// Runs the programs of a text in a session, behind a gate.
pub(crate) fn run_behind<R, A, G>(
    rt: &R,
    alloc: A,
    config: Config,
    text: &str,
    limits: Limits,
    gate: &G,
) -> Result<Report<A>, Fault>
where
    R: Threads + Wait + Sync,
    A: Allocator + Copy + Send + Sync,
    G: Gate,
{
    Session::run(rt, alloc, config, parse(alloc, text)?, limits, gate)
}

/// Runs the programs of a text in a session.
pub(crate) fn run<R, A>(
    rt: &R,
    alloc: A,
    config: Config,
    text: &str,
    limits: Limits,
) -> Result<Report<A>, Fault>
where
    R: Threads + Wait + Sync,
    A: Allocator + Copy + Send + Sync,
{
    run_behind(rt, alloc, config, text, limits, &OpenGate)
}

/// What a node was answered, and what it printed; nothing where it is not there.
pub(crate) fn shown_of<A: Allocator + Copy>(report: &Report<A>, node: u64) -> (&[Record], &[u64]) {
    if node < report.nodes() {
        (report.history(node), report.output(node))
    } else {
        (&[], &[])
    }
}

/// That a value is the one that is wanted. A call of this costs its caller less proof than `assert_eq!` there would.
pub(crate) fn expect_same<T: PartialEq + Debug + Drop>(rt: &impl Abort, found: T, wanted: T) {
    assert_eq!(rt; found, wanted);
}

/// The same of a row, a node or a growth, which is named where the value is another.
pub(crate) fn expect_same_at<T: PartialEq + Debug + Drop>(
    rt: &impl Abort,
    place: impl Display + Drop,
    found: T,
    wanted: T,
) {
    assert_eq!(rt; found, wanted, "{place}");
}
