//! Each growth refused in turn where frames are written, read, sent and sent again, in the order checker
//! and in a page table.
use crate::common::{PAIR, REPLY, Refusable, is_met, refuse_each, string};
use ivy_link::Link;
use ivy_model::{Call, Fault, Record, Reply, check_order};
use ivy_pagetable::PageTable;
use ivy_wire::{Content, Frame, Message, Parcel, decode, encode};
use std::alloc::Global;
use std::process::Abort;
use test_support::Failing;

const PAGE: [u8; 64] = [7; 64];

/// A call whose growths are refused.
#[derive(Clone, Copy)]
enum Growing {
    Encode,
    Decode,
    Send,
    Pulse,
    CheckOrder,
    PageTable,
}

/// A page for node 1.
fn message() -> Message<&'static [u8]> {
    Message {
        origin: 1,
        call: 1,
        content: Content::ReadRep {
            page: 1,
            bytes: &PAGE,
        },
    }
}

/// Whether the frames are the same, in order.
fn same_frames(one: &[Frame<&[u8]>], other: &[Frame<&[u8]>]) -> bool {
    one == other
}

fn encode_at(rt: &impl Abort, memory: &Failing<Global>, n: u64) -> bool {
    let frame = Frame {
        source: 0,
        dest: 1,
        number: 1,
        ack: 0,
        body: Some(message()),
    };
    PAIR.check().expect(rt, "a configuration");
    assert!(rt; frame.fits(&PAIR));
    memory.refuse(n);
    let fault = encode(memory, &PAIR, &frame).err();
    is_met(rt, memory, n, fault)
}

fn decode_at(rt: &impl Abort, memory: &Failing<Global>, n: u64) -> bool {
    let string = string(rt, memory, REPLY);
    PAIR.check().expect(rt, "a configuration");
    memory.refuse(n);
    let fault = decode(memory, &PAIR, &string).err();
    is_met(rt, memory, n, fault)
}

/// A refused message is sent later, under the number that it would have had.
fn send_at(rt: &impl Abort, memory: &Failing<Global>, n: u64) -> bool {
    let parcels = [Parcel {
        source: 0,
        dest: 1,
        message: message(),
    }];
    let mut link = Link::new(memory, 0, 2).expect(rt, "memory");
    let mut twin = Link::new(memory, 0, 2).expect(rt, "memory");
    memory.refuse(n);
    let fault = link.send(&parcels).err();
    let met = is_met(rt, memory, n, fault);
    if fault.is_some() {
        let again = link.send(&parcels).expect(rt, "memory");
        let sent = twin.send(&parcels).expect(rt, "memory");
        assert!(rt; same_frames(&again, &sent), "growth {n}");
    }
    met
}

/// A refused pulse leaves all that is kept.
fn pulse_at(rt: &impl Abort, memory: &Failing<Global>, n: u64) -> bool {
    let mut link = Link::new(memory, 0, 2).expect(rt, "memory");
    let parcels = [Parcel {
        source: 0,
        dest: 1,
        message: message(),
    }];
    let _ = link.send(&parcels).expect(rt, "memory");
    memory.refuse(n);
    let fault = link.pulse(1).err();
    let met = is_met(rt, memory, n, fault);
    let frames = link.pulse_frames(1).expect(rt, "memory");
    assert!(rt; frames.len() == 1, "growth {n}");
    met
}

const BLOCK: Record = Record {
    node: 1,
    call: Call::Alloc { size: 8 },
    reply: Reply::Value(64),
};

fn check_order_at(rt: &impl Abort, memory: &Failing<Global>, n: u64) -> bool {
    PAIR.check().expect(rt, "a configuration");
    memory.refuse(n);
    let answer = check_order(memory, &PAIR, &[BLOCK]);
    let met = is_met(rt, memory, n, answer.err());
    assert!(rt; met || answer == Ok(true));
    met
}

fn page_table_at(rt: &impl Abort, memory: &Failing<Global>, n: u64) -> bool {
    PAIR.check().expect(rt, "a configuration");
    memory.refuse(n);
    let fault = PageTable::new(memory, &PAIR, 0).err();
    is_met(rt, memory, n, fault)
}

impl Refusable for Growing {
    fn is_met(&self, rt: &impl Abort, memory: &Failing<Global>, n: u64) -> bool {
        match self {
            Growing::Encode => encode_at(rt, memory, n),
            Growing::Decode => decode_at(rt, memory, n),
            Growing::Send => send_at(rt, memory, n),
            Growing::Pulse => pulse_at(rt, memory, n),
            Growing::CheckOrder => check_order_at(rt, memory, n),
            Growing::PageTable => page_table_at(rt, memory, n),
        }
    }
}

#[test]
fn growths_of_encode(rt: HostRuntime) {
    refuse_each(&rt, &Growing::Encode);
}

#[test]
fn growths_of_decode(rt: HostRuntime) {
    refuse_each(&rt, &Growing::Decode);
}

#[test]
fn growths_of_send(rt: HostRuntime) {
    refuse_each(&rt, &Growing::Send);
}

#[test]
fn growths_of_pulse(rt: HostRuntime) {
    refuse_each(&rt, &Growing::Pulse);
}

#[test]
fn growths_of_check_order(rt: HostRuntime) {
    refuse_each(&rt, &Growing::CheckOrder);
}

#[test]
fn growths_of_a_page_table(rt: HostRuntime) {
    refuse_each(&rt, &Growing::PageTable);
}
