//! `ivy_model`: calls, replies, records, configurations and refusals.
use crate::common::{PAIR, expect_same};
use ivy_model::{Call, Config, Fault, Kind, Record, Reply, check_order};
use std::fmt::Debug;
use std::process::Abort;

/// How the owner of a page is found.
fn manager_of(config: &Config) -> &'static str {
    match config.manager {
        Kind::Fixed => "fixed",
        Kind::Dynamic => "dynamic",
    }
}

/// The first number of a call, beside its width.
fn asked(call: Call) -> u64 {
    match call {
        Call::Load { width: _, addr } => addr,
        Call::Store {
            width: _,
            addr,
            value: _,
        } => addr,
        Call::Swap {
            width: _,
            addr,
            value: _,
        } => addr,
        Call::Cas {
            width: _,
            addr,
            expected: _,
            value: _,
        } => addr,
        Call::FetchAdd {
            width: _,
            addr,
            value: _,
        } => addr,
        Call::Count { k } => k,
        Call::Advance { k } => k,
        Call::Await { k, least: _ } => k,
        Call::Alloc { size } => size,
        Call::Free { addr } => addr,
    }
}

/// The number that a reply has.
fn told(reply: Reply) -> Option<u64> {
    match reply {
        Reply::Value(value) => Some(value),
        Reply::Done => None,
        Reply::Refused(code) => Some(u64::from(code)),
    }
}

/// The line that a fault names, or else its number.
fn line_or_number(fault: Fault) -> u64 {
    match fault {
        Fault::ProgramFault(line) => line,
        Fault::Memory
        | Fault::BadConfig
        | Fault::Misaligned
        | Fault::OutOfRange
        | Fault::Reserved
        | Fault::NoSuchCount
        | Fault::CountFull
        | Fault::ZeroSize
        | Fault::NoRoom
        | Fault::NotABlock
        | Fault::ShortFrame
        | Fault::BadMagic
        | Fault::BadVersion
        | Fault::BadKind
        | Fault::BadNode
        | Fault::BadBody
        | Fault::NumbersSpent
        | Fault::Busy
        | Fault::NoSuchFrame
        | Fault::TurnLimit => u64::from(fault.number()),
    }
}

/// That a value may be copied, compared and printed.
fn expect_plain<T: Copy + Eq + Debug + Drop>(rt: &impl Abort, value: T) {
    let copy = value;
    expect_same(rt, copy, value);
}

/// A store by node 0, and then a load by node 1.
const RECORDS: [Record; 2] = [
    Record {
        node: 0,
        call: Call::Store {
            width: 8,
            addr: 64,
            value: 7,
        },
        reply: Reply::Done,
    },
    Record {
        node: 1,
        call: Call::Load { width: 8, addr: 64 },
        reply: Reply::Value(7),
    },
];

#[test]
fn calls_and_replies(rt: HostRuntime) {
    let [stored, loaded] = RECORDS;
    expect_same(&rt, (asked(stored.call), asked(loaded.call)), (64, 64));
    expect_same(&rt, told(stored.reply), None);
    expect_same(&rt, told(loaded.reply), Some(7));
    expect_plain(&rt, loaded.call);
    expect_plain(&rt, loaded.reply);
    expect_plain(&rt, loaded);
}

#[test]
fn configurations_and_faults(rt: HostRuntime) {
    let none = Config { nodes: 0, ..PAIR };
    expect_same(
        &rt,
        (PAIR.check(), none.check()),
        (Ok(()), Err(Fault::BadConfig)),
    );
    expect_same(&rt, manager_of(&PAIR), "fixed");
    expect_same(&rt, line_or_number(Fault::TurnLimit), 21);
    expect_same(&rt, line_or_number(Fault::ProgramFault(3)), 3);
}

#[test]
fn orders(rt: HostRuntime) {
    expect_same(&rt, check_order(rt.alloc(), &PAIR, &RECORDS), Ok(true));
}
