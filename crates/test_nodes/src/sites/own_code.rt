//! Calls of own code at one node, handed in and begun in one, or handed in and begun by the next turn.
use crate::common::PAIR;
use ivy_model::{Call, Fault, Record, Reply};
use ivy_site::{Site, Turn};
use std::process::Abort;

/// Node 0 has all pages, so a call has its reply in the turn in which it begins.
#[test]
fn replies_at_once(rt: HostRuntime) {
    PAIR.check().expect(&rt, "a configuration");
    let mut site = Site::open(rt.alloc(), &PAIR, 0).expect(&rt, "memory");
    assert!(rt; site.call(Call::Advance { k: 3 }) == Ok(Some(Reply::Done)));
    assert!(rt; site.call(Call::Count { k: 3 }) == Ok(Some(Reply::Value(1))));
    assert!(rt; site.is_free());
    assert!(rt; !site.has_frame());
    // two turns, one after the other, are one entry
    assert_eq!(rt; site.events().len(), 1);
    let last = Record {
        node: 0,
        call: Call::Count { k: 3 },
        reply: Reply::Value(1),
    };
    assert!(rt; site.last_record() == Some(last));
}

/// Node 1 has none: its call is in progress, and it may make no other one.
#[test]
fn replies_later(rt: HostRuntime) {
    PAIR.check().expect(&rt, "a configuration");
    let mut site = Site::open(rt.alloc(), &PAIR, 1).expect(&rt, "memory");
    assert!(rt; site.call(Call::Count { k: 3 }) == Ok(None));
    assert!(rt; site.asked() == Some(Call::Count { k: 3 }));
    assert!(rt; site.call(Call::Advance { k: 3 }) == Err(Fault::Busy));
    assert!(rt; site.asked() == Some(Call::Count { k: 3 }));
    assert!(rt; site.has_frame());
    assert_eq!(rt; site.records(), 0);
}

/// A call that is handed in begins with the next turn.
#[test]
fn handed_first(rt: HostRuntime) {
    PAIR.check().expect(&rt, "a configuration");
    let mut site = Site::open(rt.alloc(), &PAIR, 0).expect(&rt, "memory");
    if site.is_free() {
        assert!(rt; site.hand(Call::Advance { k: 3 }) == Ok(()));
    }
    assert!(rt; !site.is_free());
    assert_eq!(rt; site.records(), 0);
    assert!(rt; site.program_turn() == Ok(Turn::Moved));
    assert_eq!(rt; site.records(), 1);
    assert!(rt; site.program_turn() == Ok(Turn::Ended));
}
