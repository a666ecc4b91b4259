//! `ivy_wire`: messages, and the frames that carry them.
use crate::common::{PAIR, expect_same};
use ivy_model::Fault;
use ivy_wire::{Content, Frame, Message, decode, encode};
use std::process::Abort;

/// The number of bytes of the page that a message brings.
fn page_len(content: &Content<&[u8]>) -> usize {
    match content {
        Content::ReadRep { page: _, bytes } => bytes.len(),
        Content::WriteRep {
            page: _,
            copies: _,
            bytes,
        } => bytes.len(),
        Content::ReadReq { page: _ }
        | Content::WriteReq { page: _ }
        | Content::Inval { page: _ }
        | Content::InvalAck { page: _ }
        | Content::AllocReq { size: _ }
        | Content::AllocRep { code: _, addr: _ }
        | Content::FreeReq { addr: _ }
        | Content::FreeRep { code: _ } => 0,
    }
}

/// Asks for page 1, to read it: the first call of node 1.
pub(crate) const ASKS: Message<&[u8]> = Message {
    origin: 1,
    call: 1,
    content: Content::ReadReq { page: 1 },
};

/// The frame that takes it from node 1 to node 0.
const REQUEST: Frame<&[u8]> = Frame {
    source: 1,
    dest: 0,
    number: 1,
    ack: 0,
    body: Some(ASKS),
};

/// Its string.
const SPELLED: [u8; 37] = [
    b'I', b'V', 2, 1, 1, 0, 0, 13, 0, 0, 0, 0, 0, 0, 0, 1, 0, 0, 0, 0, 0, 0, 0, 0, 1, 0, 0, 0, 0,
    0, 0, 0, 1, 0, 0, 0, 1,
];

/// That a frame is spelled so, and read again.
fn expect_spelled<R: Abort + AllocGlobal>(rt: &R, frame: &Frame<&[u8]>, spelled: &[u8]) {
    assert!(rt; frame.fits(&PAIR));
    let string = encode(rt.alloc(), &PAIR, frame).expect(rt, "memory");
    expect_same(rt, string.as_slice(), spelled);
    let read = decode(rt.alloc(), &PAIR, spelled).expect(rt, "a frame");
    assert!(rt; read.lent() == *frame);
}

#[test]
fn frames(rt: HostRuntime) {
    expect_spelled(&rt, &REQUEST, &SPELLED);
}

#[test]
fn messages(rt: HostRuntime) {
    expect_same(&rt, page_len(&ASKS.content), 0);
}

#[test]
fn no_frame(rt: HostRuntime) {
    let refused = decode(rt.alloc(), &PAIR, &[]).err();
    expect_same(&rt, refused, Some(Fault::ShortFrame));
}
