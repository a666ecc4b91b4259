//! A node keeps of its own past what it is told to keep, and does the same whatever that is.
use crate::common::{PAIR, REPLY, REQUEST};
use crate::sites::common::LOADS;
use crate::sites::steps::{Step, make_all};
use ivy_model::{Call, Record, Reply};
use ivy_site::{Site, Verdict, parse};
use ivy_world::Keep;
use std::process::Abort;

/// Node 1 loads a word that nobody wrote, and prints it.
const LOADING: [Step; 6] = [
    Step::Turns(2),
    Step::Sends(REQUEST),
    Step::Comes(REPLY, Ok(Verdict::Next)),
    Step::Turns(2),
    Step::Printed(&[0]),
    Step::Silent,
];

/// What it is answered.
const LOADED: [Record; 1] = [Record {
    node: 1,
    call: Call::Load { width: 8, addr: 64 },
    reply: Reply::Value(0),
}];

/// A node that keeps this loads the word, and then has so many records, and shows these, and so many entries of its
/// event list: two turns, a delivery, two turns.
fn expect_kept<R: Abort + AllocGlobal>(rt: &R, keep: Keep, records: &[Record], entries: usize) {
    PAIR.check().expect(rt, "a configuration");
    let program = parse(rt.alloc(), LOADS)
        .expect(rt, "programs")
        .pop()
        .expect(rt, "a program");
    let mut site = Site::keeping(rt.alloc(), &PAIR, 1, program, keep).expect(rt, "memory");
    make_all(rt, rt.alloc(), &mut site, &LOADING);
    assert_eq!(rt; site.keep(), keep);
    assert_eq!(rt; site.records(), 1);
    assert!(rt; site.history() == records);
    assert_eq!(rt; site.events().len(), entries);
}

#[test]
fn kept_or_not(rt: HostRuntime) {
    expect_kept(&rt, Keep::Nothing, &[], 0);
    expect_kept(&rt, Keep::History, &LOADED, 0);
    expect_kept(&rt, Keep::All, &LOADED, 3);
}
