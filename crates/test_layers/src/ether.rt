//! The list of a node's events.
use ivy_moves::{Event, Events};
use ivy_wire::Bytes;
use std::alloc::Global;
use std::process::Abort;

/// The string that is delivered.
const DELIVERED: [u8; 2] = [73, 86];

/// Two turns, what is delivered, one turn and a pulse.
fn add_all(rt: &(impl Abort + AllocGlobal), events: &mut Events<Global>) {
    events.reserve().expect(rt, "memory");
    events.push_turn();
    events.reserve().expect(rt, "memory");
    events.push_turn();
    let string = Bytes::new(rt.alloc(), &DELIVERED).expect(rt, "memory");
    events.reserve().expect(rt, "memory");
    events.push_delivery(string);
    events.reserve().expect(rt, "memory");
    events.push_turn();
    events.reserve().expect(rt, "memory");
    events.push_pulse(1);
}

/// Whether the entries are two turns, what was delivered, one turn and a pulse.
fn are_all(entries: &[Event<Bytes<Global>>]) -> bool {
    match entries {
        [
            Event::Turns(2),
            Event::Delivered(string),
            Event::Turns(1),
            Event::Pulsed(1),
        ] => string.bytes() == DELIVERED.as_slice(),
        _ => false,
    }
}

#[test]
fn turns_in_a_row_are_one_entry(rt: HostRuntime) {
    let mut events = Events::new(rt.alloc());
    add_all(&rt, &mut events);
    assert!(&rt; are_all(events.entries()));
}
