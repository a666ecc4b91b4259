//! What the tests share: configurations, strings as they are written, and growths that are refused in turn.
use ivy_model::{Config, Fault, Kind};
use ivy_wire::{FrameKind, read_frame};
use std::alloc::{Allocator, Global};
use std::fmt::{Debug, Display};
use std::process::Abort;
use test_support::Failing;

/// Two nodes, and two pages of 64 bytes.
pub(crate) const PAIR: Config = Config {
    nodes: 2,
    pages: 2,
    page_size: 64,
    manager: Kind::Fixed,
};

/// A third node.
pub(crate) const TRIO: Config = Config { nodes: 3, ..PAIR };

// A string is written in hexadecimal words. Where a page follows, its first word stands behind a plus, in tens, and the
// rest of it is zeros.

/// The request of node 1 for a copy of page 1, as the first of its calls, and the reply.
pub(crate) const REQUEST: &str =
    "495602010100000d 0000000000000001 0000000000000000 01 0000000000000001 00000001";

pub(crate) const REPLY: &str =
    "495602030001004d 0000000000000001 0000000000000000 01 0000000000000001 00000001 + 0";

/// Node 1 asks for page 1 to store, as the first of its calls, and is given it.
pub(crate) const STORE_ASKS: &str =
    "495602020100000d 0000000000000001 0000000000000000 01 0000000000000001 00000001";

pub(crate) const STORE_GETS: &str =
    "4956020400010051 0000000000000001 0000000000000000 01 0000000000000001 00000001 00000000 + 0";

/// Then it asks for page 0 to advance, and is given it.
pub(crate) const ADVANCE_ASKS: &str =
    "495602020100000d 0000000000000002 0000000000000001 01 0000000000000002 00000000";

pub(crate) const ADVANCE_GETS: &str =
    "4956020400010051 0000000000000002 0000000000000001 01 0000000000000002 00000000 00000000 + 0";

/// Node 1 asks for page 0, for the first of its calls, and is given it.
pub(crate) const COUNT_ASKS: &str =
    "495602020100000d 0000000000000001 0000000000000000 01 0000000000000001 00000000";

pub(crate) const COUNT_GETS: &str =
    "4956020400010051 0000000000000001 0000000000000000 01 0000000000000001 00000000 00000000 + 0";

/// Node 0, which gave page 0 away, asks for a copy of it, for the first of its calls, and is given it.
pub(crate) const RETRY_ASKS: &str =
    "495602010001000d 0000000000000002 0000000000000001 00 0000000000000001 00000000";

pub(crate) const RETRY_GETS: &str =
    "495602030100004d 0000000000000002 0000000000000001 00 0000000000000001 00000000 + 1";

/// Node 1 asks for eight bytes, as the first of its calls, and is given them at 64.
pub(crate) const ALLOC_ASKS: &str =
    "4956020701000011 0000000000000001 0000000000000000 01 0000000000000001 0000000000000008";

pub(crate) const ALLOC_GETS: &str =
    "4956020800010012 0000000000000001 0000000000000000 01 0000000000000001 00 0000000000000040";

/// Adds bytes to a string.
fn add<A: Allocator + Copy>(rt: &impl Abort, string: &mut Vec<u8, A>, bytes: &[u8]) {
    string.extend_from_slice(bytes).expect(rt, "memory");
}

/// Adds the bytes of hexadecimal words.
fn add_words<A: Allocator + Copy>(rt: &impl Abort, alloc: A, string: &mut Vec<u8, A>, words: &str) {
    for word in words.split(' ') {
        add(rt, string, &hex::decode(alloc, word).expect(rt, word));
    }
}

/// The number that is written in tens.
pub(crate) fn number(rt: &impl Abort, digits: &str) -> u64 {
    digits.parse::<u64>().expect(rt, digits)
}

/// The bytes of a string.
pub(crate) fn string<A: Allocator + Copy>(rt: &impl Abort, alloc: A, written: &str) -> Vec<u8, A> {
    let mut string = Vec::new(alloc);
    match written.split_once(" + ") {
        Some((words, first)) => {
            add_words(rt, alloc, &mut string, words);
            add(rt, &mut string, &number(rt, first).to_be_bytes());
            add(rt, &mut string, &[0; 56]);
        }
        None => add_words(rt, alloc, &mut string, written),
    }
    string
}

/// What a string is about, its source and its destination.
pub(crate) fn ends_of(config: &Config, bytes: &[u8]) -> Result<(FrameKind, u8, u8), Fault> {
    config.check()?;
    let frame = read_frame(config, bytes)?;
    Ok((frame.kind(), frame.source, frame.dest))
}

/// What asks for memory, and goes on once some was refused.
pub(crate) trait Refusable {
    /// Does it with the n-th growth refused. Whether that was asked for.
    fn is_met(&self, rt: &impl Abort, memory: &Failing<Global>, n: u64) -> bool;
}

/// More growths than anything here asks for.
const MANY: u64 = 1000;

/// Refuses each growth in turn, until one is not asked for.
pub(crate) fn refuse_each(rt: &(impl Abort + AllocGlobal), refusable: &impl Refusable) {
    let memory = Failing::new(rt.alloc());
    for n in 1..MANY {
        if !refusable.is_met(rt, &memory, n) {
            assert!(rt; n > 1);
            return;
        }
    }
    panic!(rt; "no end of growths");
}

/// Whether the growth to be refused was asked for. From now on none is refused.
pub(crate) fn met(memory: &Failing<Global>, n: u64) -> bool {
    let met = memory.asked(n) >= n;
    memory.refuse(0);
    met
}

/// The same of a call that has the fault 1 exactly where it was, and no other fault.
pub(crate) fn is_met(
    rt: &impl Abort,
    memory: &Failing<Global>,
    n: u64,
    fault: Option<Fault>,
) -> bool {
    let met = met(memory, n);
    expect_same_at(rt, n, fault, if met { Some(Fault::Memory) } else { None });
    met
}

/// That a value is the one that is wanted. A call of this costs its caller less proof than `assert_eq!` there would.
pub(crate) fn expect_same<T: PartialEq + Debug + Drop>(rt: &impl Abort, found: T, wanted: T) {
    assert_eq!(rt; found, wanted);
}

/// The same of a row, a node or a growth, which is named where the value is another.
pub(crate) fn expect_same_at<T: PartialEq + Debug + Drop>(
    rt: &impl Abort,
    place: impl Display + Drop,
    found: T,
    wanted: T,
) {
    assert_eq!(rt; found, wanted, "{place}");
}
