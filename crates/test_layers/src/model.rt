//! The flat memory, the order checker, the limits of a configuration and the texts of faults.
use crate::common::{PAIR, expect_same};
use ivy_model::{Call, Config, Fault, Kind, Record, Reply, access_refusal, check_order};
use std::process::Abort;

/// Whether the smallest memory can make these records, in this order.
fn is_order(rt: &(impl Abort + AllocGlobal), records: &[Record]) -> bool {
    check_order(rt.alloc(), &PAIR, records).expect(rt, "memory")
}

/// Whether node 0 can be answered so by the smallest memory, in this order.
fn is_legal(rt: &(impl Abort + AllocGlobal), answers: &[(Call, Reply)]) -> bool {
    let mut order = Vec::new(rt.alloc());
    for &(call, reply) in answers {
        let record = Record {
            node: 0,
            call,
            reply,
        };
        order.push(record).expect(rt, "memory");
    }
    is_order(rt, &order)
}

fn load(width: u8, addr: u64) -> Call {
    Call::Load { width, addr }
}

fn store(width: u8, addr: u64, value: u64) -> Call {
    Call::Store { width, addr, value }
}

fn swap(width: u8, addr: u64, value: u64) -> Call {
    Call::Swap { width, addr, value }
}

fn cas(width: u8, addr: u64, expected: u64, value: u64) -> Call {
    Call::Cas {
        width,
        addr,
        expected,
        value,
    }
}

fn fetch_add(width: u8, addr: u64, value: u64) -> Call {
    Call::FetchAdd { width, addr, value }
}

fn alloc(size: u64) -> Call {
    Call::Alloc { size }
}

/// That each of these configurations is accepted, or refused so.
fn expect_checked(rt: &impl Abort, configs: &[Config], wanted: Result<(), Fault>) {
    for config in configs {
        expect_same(rt, config.check(), wanted);
    }
}

#[test]
fn limits(rt: HostRuntime) {
    let accepted = [
        PAIR,
        Config { nodes: 32, ..PAIR },
        Config { pages: 256, ..PAIR },
        Config {
            page_size: 4096,
            ..PAIR
        },
        Config {
            manager: Kind::Dynamic,
            ..PAIR
        },
    ];
    expect_checked(&rt, &accepted, Ok(()));
    let refused = [
        Config { nodes: 1, ..PAIR },
        Config { nodes: 33, ..PAIR },
        Config { pages: 1, ..PAIR },
        Config { pages: 257, ..PAIR },
        Config {
            page_size: 32,
            ..PAIR
        },
        Config {
            page_size: 96,
            ..PAIR
        },
        Config {
            page_size: 8192,
            ..PAIR
        },
    ];
    expect_checked(&rt, &refused, Err(Fault::BadConfig));
}

#[test]
fn wide_limits(rt: HostRuntime) {
    let with_pages = |pages| Config { pages, ..PAIR };
    for pages in [2, 256, 257, 65_536] {
        expect_same(&rt, with_pages(pages).check_wide(), Ok(()));
    }
    for pages in [0, 1, 65_537, u32::MAX] {
        expect_same(&rt, with_pages(pages).check_wide(), Err(Fault::BadConfig));
    }
    let nodes = Config { nodes: 33, ..PAIR };
    expect_same(&rt, nodes.check_wide(), Err(Fault::BadConfig));
    let page_size = Config {
        page_size: 96,
        ..PAIR
    };
    expect_same(&rt, page_size.check_wide(), Err(Fault::BadConfig));
}

/// That the memory, once it has given the answer before, answers a call right by the first reply and
/// wrong by the second.
fn expect_answer(
    rt: &(impl Abort + AllocGlobal),
    before: (Call, Reply),
    call: Call,
    right: Reply,
    wrong: Reply,
) {
    assert!(rt; is_legal(rt, &[before, (call, right)]), "{call:?}");
    assert!(rt; !is_legal(rt, &[before, (call, wrong)]), "{call:?}");
}

#[test]
fn each_call(rt: HostRuntime) {
    let cases = [
        (load(8, 64), Reply::Value(0), Reply::Value(1)),
        (store(8, 64, 7), Reply::Done, Reply::Value(7)),
        (swap(8, 64, 7), Reply::Value(0), Reply::Value(7)),
        (swap(8, 64, 0), Reply::Value(0), Reply::Done),
        (Call::Count { k: 0 }, Reply::Value(0), Reply::Value(1)),
        (Call::Advance { k: 0 }, Reply::Done, Reply::Value(1)),
        (Call::Await { k: 0, least: 0 }, Reply::Value(0), Reply::Done),
        (alloc(1), Reply::Value(64), Reply::Value(72)),
        (Call::Free { addr: 64 }, Reply::Refused(10), Reply::Done),
    ];
    for (call, right, wrong) in cases {
        assert!(rt; is_legal(&rt, &[(call, right)]), "{call:?}");
        assert!(rt; !is_legal(&rt, &[(call, wrong)]), "{call:?}");
    }
}

/// What a call changed shows in the one after it.
#[test]
fn each_change(rt: HostRuntime) {
    let stored = (store(8, 64, 7), Reply::Done);
    expect_answer(&rt, stored, load(8, 64), Reply::Value(7), Reply::Value(0));
    let advanced = (Call::Advance { k: 0 }, Reply::Done);
    let count = Call::Count { k: 0 };
    expect_answer(&rt, advanced, count, Reply::Value(1), Reply::Value(0));
    let given = (alloc(8), Reply::Value(64));
    expect_answer(&rt, given, alloc(8), Reply::Value(72), Reply::Value(64));
    let free = Call::Free { addr: 64 };
    expect_answer(&rt, given, free, Reply::Done, Reply::Refused(10));
}

#[test]
fn refused_accesses(rt: HostRuntime) {
    let answers = [
        (load(8, 120), Reply::Value(0)),
        (load(8, 121), Reply::Refused(3)),
        (load(1, 128), Reply::Refused(4)),
        (load(1, 0), Reply::Refused(5)),
        (load(8, 129), Reply::Refused(3)),
    ];
    assert!(rt; is_legal(&rt, &answers));
    assert!(rt; !is_legal(&rt, &[(load(3, 66), Reply::Value(0))]));
    expect_same(&rt, access_refusal(&PAIR, 8, 120), None);
    expect_same(&rt, access_refusal(&PAIR, 8, 121), Some(3));
    expect_same(&rt, access_refusal(&PAIR, 1, 128), Some(4));
    expect_same(&rt, access_refusal(&PAIR, 1, 0), Some(5));
    expect_same(&rt, access_refusal(&PAIR, 8, 129), Some(3));
}

#[test]
fn heap(rt: HostRuntime) {
    let free = Call::Free { addr: 64 };
    let answers = [
        (alloc(64), Reply::Value(64)),
        (alloc(1), Reply::Refused(9)),
        (free, Reply::Done),
        (free, Reply::Refused(10)),
        (alloc(1), Reply::Value(64)),
        (alloc(3), Reply::Value(72)),
        (alloc(0), Reply::Refused(8)),
        (alloc(18446744073709551615), Reply::Refused(9)),
    ];
    assert!(rt; is_legal(&rt, &answers));
}

#[test]
fn eventcounts(rt: HostRuntime) {
    let reached = |least| Call::Await { k: 0, least };
    let answers = [
        (reached(0), Reply::Value(0)),
        (Call::Advance { k: 0 }, Reply::Done),
        (reached(1), Reply::Value(1)),
        (Call::Count { k: 7 }, Reply::Value(0)),
        (Call::Count { k: 8 }, Reply::Refused(6)),
    ];
    assert!(rt; is_legal(&rt, &answers));
    assert!(rt; !is_legal(&rt, &[(reached(1), Reply::Value(0))]));
    assert!(rt; !is_legal(&rt, &[(reached(1), Reply::Refused(6))]));
}

#[test]
fn big_endian_widths(rt: HostRuntime) {
    let answers = [
        (store(1, 64, 258), Reply::Done),
        (load(2, 64), Reply::Value(512)),
        (load(8, 64), Reply::Value(144115188075855872)),
    ];
    assert!(rt; is_legal(&rt, &answers));
}

/// Each swap gives what the one before it put there.
#[test]
fn swaps(rt: HostRuntime) {
    let answers = [
        (swap(8, 64, 9), Reply::Value(0)),
        (swap(8, 64, 4), Reply::Value(9)),
        (load(8, 64), Reply::Value(4)),
    ];
    assert!(rt; is_legal(&rt, &answers));
    assert!(rt; !is_legal(&rt, &[answers[0], answers[0]]));
}

/// A swap of one byte gives that byte, and leaves those beside it as they are.
#[test]
fn swap_widths(rt: HostRuntime) {
    let answers = [
        (store(8, 64, 258), Reply::Done),
        (swap(1, 71, 511), Reply::Value(2)),
        (load(8, 64), Reply::Value(511)),
        (swap(8, 65, 1), Reply::Refused(3)),
        (swap(1, 128, 1), Reply::Refused(4)),
        (swap(1, 0, 1), Reply::Refused(5)),
        (load(8, 64), Reply::Value(511)),
    ];
    assert!(rt; is_legal(&rt, &answers));
    assert!(rt; !is_legal(&rt, &[(swap(3, 66, 1), Reply::Value(0))]));
}

/// A compare-and-swap gives the number there, and puts its own in the place of the low bytes that it looks for.
#[test]
fn exchanges(rt: HostRuntime) {
    let answers = [
        (store(8, 64, 258), Reply::Done),
        (cas(1, 71, 258, 511), Reply::Value(2)),
        (cas(1, 71, 2, 0), Reply::Value(255)),
        (load(8, 64), Reply::Value(511)),
        (cas(2, 70, 511, 65539), Reply::Value(511)),
        (cas(4, 68, 4294967299, 4294967295), Reply::Value(3)),
        (cas(8, 64, 4294967296, 1), Reply::Value(4294967295)),
        (cas(8, 64, 4294967295, u64::MAX), Reply::Value(4294967295)),
        (load(8, 64), Reply::Value(u64::MAX)),
    ];
    assert!(rt; is_legal(&rt, &answers));
    let refused = [
        (cas(8, 65, 0, 1), Reply::Refused(3)),
        (cas(1, 128, 0, 1), Reply::Refused(4)),
        (cas(1, 0, 0, 1), Reply::Refused(5)),
        (load(8, 64), Reply::Value(0)),
    ];
    assert!(rt; is_legal(&rt, &refused));
}

/// It answers the number before it, stores nothing where that is another, and has the width of a word.
#[test]
fn exchanges_that_are_not_legal(rt: HostRuntime) {
    assert!(rt; !is_legal(&rt, &[(cas(8, 64, 0, 7), Reply::Value(7))]));
    assert!(rt; !is_legal(&rt, &[(cas(8, 64, 0, 7), Reply::Done)]));
    assert!(rt; !is_legal(&rt, &[(cas(3, 66, 0, 1), Reply::Value(0))]));
    let other = (cas(8, 64, 1, 7), Reply::Value(0));
    assert!(rt; !is_legal(&rt, &[other, (load(8, 64), Reply::Value(7))]));
    let same = (cas(8, 64, 0, 7), Reply::Value(0));
    assert!(rt; !is_legal(&rt, &[same, same]));
}

/// A fetch-and-add gives the number before it, and leaves the sum in the bytes of its word alone.
#[test]
fn sums(rt: HostRuntime) {
    let answers = [
        (fetch_add(8, 64, 258), Reply::Value(0)),
        (fetch_add(1, 71, 254), Reply::Value(2)),
        (load(8, 64), Reply::Value(256)),
        (fetch_add(1, 71, 511), Reply::Value(0)),
        (fetch_add(2, 70, 65535), Reply::Value(511)),
        (fetch_add(4, 68, 4294967295), Reply::Value(510)),
        (fetch_add(8, 64, u64::MAX), Reply::Value(509)),
        (load(8, 64), Reply::Value(508)),
        (fetch_add(8, 65, 1), Reply::Refused(3)),
        (fetch_add(1, 128, 1), Reply::Refused(4)),
        (fetch_add(1, 0, 1), Reply::Refused(5)),
        (load(8, 64), Reply::Value(508)),
    ];
    assert!(rt; is_legal(&rt, &answers));
    assert!(rt; !is_legal(&rt, &[(fetch_add(3, 66, 1), Reply::Value(0))]));
    let first = (fetch_add(8, 64, 1), Reply::Value(0));
    assert!(rt; !is_legal(&rt, &[first, first]));
}

#[test]
fn order_checked(rt: HostRuntime) {
    let record = |node, call, reply| Record { node, call, reply };
    let first = record(1, load(8, 64), Reply::Value(0));
    let second = record(0, store(8, 64, 7), Reply::Done);
    let fresh = record(1, load(8, 64), Reply::Value(7));
    assert!(rt; is_order(&rt, &[first, second, fresh]));
    assert!(rt; !is_order(&rt, &[first, second, first]));
    let stranger = record(2, load(8, 64), Reply::Value(0));
    assert!(rt; !is_order(&rt, &[stranger]));
}

#[test]
fn texts(rt: HostRuntime) {
    let faults = [
        Fault::Memory,
        Fault::BadConfig,
        Fault::Misaligned,
        Fault::OutOfRange,
        Fault::Reserved,
        Fault::NoSuchCount,
        Fault::CountFull,
        Fault::ZeroSize,
        Fault::NoRoom,
        Fault::NotABlock,
        Fault::ShortFrame,
        Fault::BadMagic,
        Fault::BadVersion,
        Fault::BadKind,
        Fault::BadNode,
        Fault::BadBody,
        Fault::NumbersSpent,
        Fault::Busy,
        Fault::NoSuchFrame,
        Fault::ProgramFault(3),
        Fault::TurnLimit,
    ];
    let mut written = String::new(rt.alloc());
    for (before, fault) in faults.iter().enumerate() {
        expect_same(&rt, u64::from(fault.number()), before as u64 + 1);
        writeln!(written, "{fault}").expect(&rt, "memory");
    }
    let texts = "1 Memory
2 BadConfig
3 Misaligned
4 OutOfRange
5 Reserved
6 NoSuchCount
7 CountFull
8 ZeroSize
9 NoRoom
10 NotABlock
11 ShortFrame
12 BadMagic
13 BadVersion
14 BadKind
15 BadNode
16 BadBody
17 NumbersSpent
18 Busy
19 NoSuchFrame
20 ProgramFault line 3
21 TurnLimit
";
    expect_same(&rt, written.as_str(), texts);
}
