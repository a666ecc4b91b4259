//! Frames as strings of bytes: the worked examples, and each fault of a string that spells no frame.
use crate::common::{PAIR, expect_items, expect_same};
use ivy_model::Config;
use ivy_wire::{
    Bytes, Content, Frame, FrameKind, Message, OwnedPage, decode, destination, encode,
    grammar_is_prefix_free, read_frame,
};
use std::alloc::Global;
use std::process::Abort;

/// A third node.
const THREE: Config = Config { nodes: 3, ..PAIR };

/// As many nodes as there can be.
const THIRTY_TWO: Config = Config { nodes: 32, ..PAIR };

/// A page of zeros, and one of bytes that are all ones.
pub(crate) const ZEROS: &[u8] = &[0; 64];

const ONES: &[u8] = &[255; 64];

/// The string that is written as hexadecimal words, and then a page.
pub(crate) fn string(rt: &(impl Abort + AllocGlobal), words: &str, page: &[u8]) -> Vec<u8> {
    let mut string = Vec::new(rt.alloc());
    for word in words.split(' ') {
        add_word(rt, &mut string, word);
    }
    string.extend_from_slice(page).expect(rt, "memory");
    string
}

/// Adds the bytes of a hexadecimal word.
fn add_word(rt: &(impl Abort + AllocGlobal), string: &mut Vec<u8>, word: &str) {
    let bytes = hex::decode(rt.alloc(), word).expect(rt, word);
    string.extend_from_slice(&bytes).expect(rt, "memory");
}

/// That the string is read as this frame, its page lent.
fn expect_read(rt: &impl Abort, config: &Config, string: &[u8], frame: &Frame<&[u8]>) {
    config.check().expect(rt, "a configuration");
    let lent = read_frame(config, string).expect(rt, "a frame");
    assert!(rt; lent == *frame);
}

/// The frame that the string is read as, its page copied.
fn decoded(
    rt: &(impl Abort + AllocGlobal),
    config: &Config,
    string: &[u8],
) -> Frame<OwnedPage<Global>> {
    config.check().expect(rt, "a configuration");
    decode(rt.alloc(), config, string).expect(rt, "a frame")
}

/// That the frame is spelled so.
fn expect_spelled(
    rt: &(impl Abort + AllocGlobal),
    config: &Config,
    frame: &Frame<&[u8]>,
    string: &[u8],
) {
    config.check().expect(rt, "a configuration");
    assert!(rt; frame.fits(config));
    let spelled = encode(rt.alloc(), config, frame).expect(rt, "memory");
    expect_items(rt, &spelled, string);
}

/// That the words, with the page after them, are read as this frame, and that the frame is spelled so.
fn spells(
    rt: &(impl Abort + AllocGlobal),
    config: &Config,
    words: &str,
    page: &[u8],
    frame: Frame<&[u8]>,
) {
    let string = string(rt, words, page);
    expect_read(rt, config, &string, &frame);
    assert!(rt; decoded(rt, config, &string).lent() == frame);
    expect_spelled(rt, config, &frame, &string);
}

/// A frame with a message: the node it comes from and the one it goes to, its number and
/// acknowledgement, and the node and the number of the call.
fn frame<'a>(
    ends: (u8, u8),
    numbers: (u64, u64),
    call: (u8, u64),
    content: Content<&'a [u8]>,
) -> Frame<&'a [u8]> {
    Frame {
        source: ends.0,
        dest: ends.1,
        number: numbers.0,
        ack: numbers.1,
        body: Some(Message {
            origin: call.0,
            call: call.1,
            content,
        }),
    }
}

#[test]
fn first_load(rt: HostRuntime) {
    let words = "495602010100000d 0000000000000001 0000000000000000 01 0000000000000001 00000001";
    let asks = frame((1, 0), (1, 0), (1, 1), Content::ReadReq { page: 1 });
    spells(&rt, &PAIR, words, &[], asks);
    let words = "495602030001004d 0000000000000001 0000000000000000 01 0000000000000001 00000001";
    let content = Content::ReadRep {
        page: 1,
        bytes: ZEROS,
    };
    let brings = frame((0, 1), (1, 0), (1, 1), content);
    spells(&rt, &PAIR, words, ZEROS, brings);
    let words = "495602010100000d 0000000000000001 0000000000000001 01 0000000000000001 00000001";
    let asks_again = frame((1, 0), (1, 1), (1, 1), Content::ReadReq { page: 1 });
    spells(&rt, &PAIR, words, &[], asks_again);
    let words = "4956020000010000 0000000000000000 0000000000000001";
    let ack = Frame {
        source: 0,
        dest: 1,
        number: 0,
        ack: 1,
        body: None,
    };
    spells(&rt, &PAIR, words, &[], ack);
}

#[test]
fn page_to_write(rt: HostRuntime) {
    let words =
        "4956020400020051 0000000000000001 0000000000000000 02 0000000000000001 00000001 00000002";
    let content = Content::WriteRep {
        page: 1,
        copies: 2,
        bytes: ZEROS,
    };
    let given = frame((0, 2), (1, 0), (2, 1), content);
    spells(&rt, &THREE, words, ZEROS, given);
    let words =
        "4956020400010051 0000000000000001 0000000000000003 01 0000000000000001 00000001 00000000";
    let content = Content::WriteRep {
        page: 1,
        copies: 0,
        bytes: ZEROS,
    };
    let given = frame((0, 1), (1, 3), (1, 1), content);
    spells(&rt, &PAIR, words, ZEROS, given);
}

#[test]
fn copies_ended(rt: HostRuntime) {
    let words = "495602060102000d 0000000000000001 0000000000000001 02 0000000000000001 00000001";
    let ended = frame((1, 2), (1, 1), (2, 1), Content::InvalAck { page: 1 });
    spells(&rt, &THREE, words, &[], ended);
    let words = "495602060201000d 0000000000000002 0000000000000001 01 0000000000000001 00000001";
    let ended = frame((2, 1), (2, 1), (1, 1), Content::InvalAck { page: 1 });
    spells(&rt, &THREE, words, &[], ended);
    let words = "495602060100000d 0000000000000002 0000000000000001 00 0000000000000001 00000001";
    let ended = frame((1, 0), (2, 1), (0, 1), Content::InvalAck { page: 1 });
    spells(&rt, &PAIR, words, &[], ended);
}

#[test]
fn forged(rt: HostRuntime) {
    let words =
        "4956020401000051 0000000000000001 0000000000000000 00 0000000000000001 00000001 00000000";
    let content = Content::WriteRep {
        page: 1,
        copies: 0,
        bytes: ONES,
    };
    let unasked = frame((1, 0), (1, 0), (0, 1), content);
    spells(&rt, &PAIR, words, ONES, unasked);
    let words = "495602050100000d 0000000000000002 0000000000000000 01 0000000000000001 00000001";
    let ends = frame((1, 0), (2, 0), (1, 1), Content::Inval { page: 1 });
    spells(&rt, &PAIR, words, &[], ends);
    let words = "495602010100000d 0000000000000003 0000000000000000 00 0000000000000001 00000001";
    let own = frame((1, 0), (3, 0), (0, 1), Content::ReadReq { page: 1 });
    spells(&rt, &PAIR, words, &[], own);
    let words = "495602020100000d 0000000000000004 0000000000000009 01 0000000000000001 00000001";
    let asks = frame((1, 0), (4, 9), (1, 1), Content::WriteReq { page: 1 });
    spells(&rt, &PAIR, words, &[], asks);
}

#[test]
fn forged_count(rt: HostRuntime) {
    let mut page = [0; 64];
    for i in 0..8 {
        page[i] = 255;
    }
    let words =
        "4956020400010051 0000000000000001 0000000000000000 01 0000000000000001 00000000 00000000";
    let content = Content::WriteRep {
        page: 0,
        copies: 0,
        bytes: &page[..],
    };
    let brings = frame((0, 1), (1, 0), (1, 1), content);
    spells(&rt, &PAIR, words, &page, brings);
}

#[test]
fn blocks(rt: HostRuntime) {
    let words =
        "4956020701000011 0000000000000001 0000000000000000 01 0000000000000001 0000000000000008";
    let asks = frame((1, 0), (1, 0), (1, 1), Content::AllocReq { size: 8 });
    spells(&rt, &PAIR, words, &[], asks);
    let words =
        "4956020800010012 0000000000000001 0000000000000000 01 0000000000000001 00 0000000000000040";
    let content = Content::AllocRep { code: 0, addr: 64 };
    let brings = frame((0, 1), (1, 0), (1, 1), content);
    spells(&rt, &PAIR, words, &[], brings);
    let words =
        "4956020901000011 0000000000000002 0000000000000001 01 0000000000000002 0000000000000040";
    let gives_back = frame((1, 0), (2, 1), (1, 2), Content::FreeReq { addr: 64 });
    spells(&rt, &PAIR, words, &[], gives_back);
    let words = "4956020a0001000a 0000000000000002 0000000000000002 01 0000000000000002 00";
    let ended = frame((0, 1), (2, 2), (1, 2), Content::FreeRep { code: 0 });
    spells(&rt, &PAIR, words, &[], ended);
}

#[test]
fn refused_blocks(rt: HostRuntime) {
    let words =
        "4956020800010012 0000000000000001 0000000000000000 01 0000000000000001 08 0000000000000000";
    let content = Content::AllocRep { code: 8, addr: 0 };
    let of_no_bytes = frame((0, 1), (1, 0), (1, 1), content);
    spells(&rt, &PAIR, words, &[], of_no_bytes);
    let words =
        "4956020800010012 0000000000000001 0000000000000000 01 0000000000000001 09 0000000000000000";
    let content = Content::AllocRep { code: 9, addr: 0 };
    let without_room = frame((0, 1), (1, 0), (1, 1), content);
    spells(&rt, &PAIR, words, &[], without_room);
    let words = "4956020a0001000a 0000000000000002 0000000000000002 01 0000000000000002 0a";
    let no_block = frame((0, 1), (2, 2), (1, 2), Content::FreeRep { code: 10 });
    spells(&rt, &PAIR, words, &[], no_block);
}

/// That the words, with the page after them, are refused by the fault of this name.
fn refuses(
    rt: &(impl Abort + AllocGlobal),
    config: &Config,
    words: &str,
    page: &[u8],
    fault: &str,
) {
    config.check().expect(rt, "a configuration");
    let string = string(rt, words, page);
    let found = decode(rt.alloc(), config, &string).err().expect(rt, words);
    let name = format!(in rt.alloc(); "{found:?}").expect(rt, "memory");
    assert!(rt; name.as_str() == fault, "{words}");
}

/// The same of the words in each line, behind the name of the fault. This page comes after them.
fn refuses_each(rt: &(impl Abort + AllocGlobal), config: &Config, lines: &str, page: &[u8]) {
    for line in lines.lines() {
        let (fault, words) = line.split_once(": ").expect(rt, line);
        refuses(rt, config, words, page, fault);
    }
}

/// A copy set has four bytes, the version is 2, and strings of version 1 are refused.
#[test]
fn version_2(rt: HostRuntime) {
    let words =
        "4956020400020051 0000000000000001 0000000000000000 02 0000000000000001 00000001 00000002";
    expect_same(&rt, string(&rt, words, ZEROS).len(), 105);
    let words =
        "49560204001f0051 0000000000000002 0000000000000001 1f 0000000000000002 00000001 7ffffffe";
    let content = Content::WriteRep {
        page: 1,
        copies: 0x7fff_fffe,
        bytes: ZEROS,
    };
    let given = frame((0, 31), (2, 1), (31, 2), content);
    spells(&rt, &THIRTY_TWO, words, ZEROS, given);
    let words = "495601010100000d 0000000000000001 0000000000000000 01 0000000000000001 00000001";
    refuses(&rt, &PAIR, words, &[], "BadVersion");
    let words =
        "495601040002004e 0000000000000001 0000000000000000 02 0000000000000001 00000001 02";
    refuses(&rt, &THREE, words, ZEROS, "BadVersion");
}

/// Bit 3 among three nodes; and bits of nodes that are there, with the bytes turned round.
#[test]
fn copy_sets_beyond_the_nodes(rt: HostRuntime) {
    refuses_each(&rt, &THREE, COPY_SETS_BEYOND_THE_NODES, ZEROS);
}

const COPY_SETS_BEYOND_THE_NODES: &str = "\
BadBody: 4956020400020051 0000000000000001 0000000000000000 02 0000000000000001 00000001 00000008
BadBody: 4956020400020051 0000000000000001 0000000000000000 02 0000000000000001 00000001 02000000
";

#[test]
fn refused_frames(rt: HostRuntime) {
    refuses_each(&rt, &PAIR, REFUSED_FRAMES, &[]);
    refuses(&rt, &PAIR, "", &[], "ShortFrame");
}

const REFUSED_FRAMES: &str = "\
ShortFrame: 495602010100000d 0000000000000001 0000000000000000 01 0000000000000001 000000
BadBody: 495602010100000d 0000000000000001 0000000000000000 01 0000000000000001 00000001 00
BadMagic: 485602010100000d 0000000000000001 0000000000000000 01 0000000000000001 00000001
BadVersion: 495601010100000d 0000000000000001 0000000000000000 01 0000000000000001 00000001
BadKind: 4956020b0100000d 0000000000000001 0000000000000000 01 0000000000000001 00000001
BadNode: 495602010200000d 0000000000000001 0000000000000000 01 0000000000000001 00000001
BadNode: 495602010000000d 0000000000000001 0000000000000000 01 0000000000000001 00000001
BadBody: 495602010100000d 0000000000000001 0000000000000000 01 0000000000000001 00000002
BadBody: 495602010100000d 0000000000000001 0000000000000000 02 0000000000000001 00000001
";

#[test]
fn refused_headers(rt: HostRuntime) {
    refuses_each(&rt, &PAIR, REFUSED_HEADERS, &[]);
}

// A header without its last byte, and a request without its last byte. The second magic byte, and a version before the
// first. A destination that is not there.
const REFUSED_HEADERS: &str = "\
ShortFrame: 4956020000010000 0000000000000000 00000000000000
ShortFrame: 495602020100000d 0000000000000004 0000000000000009 01 0000000000000001 000000
BadMagic: 495702010100000d 0000000000000001 0000000000000000 01 0000000000000001 00000001
BadVersion: 495600010100000d 0000000000000001 0000000000000000 01 0000000000000001 00000001
BadNode: 495602010102000d 0000000000000001 0000000000000000 01 0000000000000001 00000001
";

#[test]
fn first_of_two_faults(rt: HostRuntime) {
    refuses_each(&rt, &PAIR, FIRST_OF_TWO_FAULTS, &[]);
}

const FIRST_OF_TWO_FAULTS: &str = "\
ShortFrame: 485602010100000d 0000000000000001 0000000000000000 01 0000000000000001 000000
BadMagic: 485601010100000d 0000000000000001 0000000000000000 01 0000000000000001 00000001
BadVersion: 4956010b0100000d 0000000000000001 0000000000000000 01 0000000000000001 00000001
BadKind: 4956020b0200000d 0000000000000001 0000000000000000 01 0000000000000001 00000001
BadNode: 495602010200000d 0000000000000001 0000000000000000 02 0000000000000001 00000001
BadNode: 495602010200000d 0000000000000001 0000000000000000 01 0000000000000001 00000001 00
";

#[test]
fn wrong_numbers(rt: HostRuntime) {
    refuses_each(&rt, &PAIR, WRONG_NUMBERS, &[]);
}

// An Ack with a number, and a message without one. Call 0, and the length of another kind.
const WRONG_NUMBERS: &str = "\
BadBody: 4956020000010000 0000000000000001 0000000000000001
BadBody: 495602010100000d 0000000000000000 0000000000000000 01 0000000000000001 00000001
BadBody: 495602010100000d 0000000000000001 0000000000000000 01 0000000000000000 00000001
BadBody: 495602070100000d 0000000000000001 0000000000000000 01 0000000000000001 00000001
";

#[test]
fn wrong_codes(rt: HostRuntime) {
    refuses_each(&rt, &PAIR, WRONG_CODES, &[]);
}

// Codes that are none, and then an address beside a refusal.
const WRONG_CODES: &str = "\
BadBody: 4956020800010012 0000000000000001 0000000000000000 01 0000000000000001 0a 0000000000000000
BadBody: 4956020a0001000a 0000000000000002 0000000000000002 01 0000000000000002 09
BadBody: 4956020800010012 0000000000000001 0000000000000000 01 0000000000000001 08 0000000000000040
BadBody: 4956020800010012 0000000000000001 0000000000000000 01 0000000000000001 09 0000000000000040
";

#[test]
fn wrong_pages(rt: HostRuntime) {
    // a copy set with node 2, and the page after the last one
    let lines = "\
BadBody: 4956020400010051 0000000000000001 0000000000000000 01 0000000000000001 00000001 00000004
BadBody: 495602030001004d 0000000000000001 0000000000000000 01 0000000000000001 00000002
";
    refuses_each(&rt, &PAIR, lines, ZEROS);
    // a page of 48 bytes, and one of 65
    let words =
        "4956020400010041 0000000000000001 0000000000000000 01 0000000000000001 00000001 00000002";
    refuses(&rt, &PAIR, words, &[0; 48], "BadBody");
    let words = "495602030001004e 0000000000000001 0000000000000000 01 0000000000000001 00000001";
    refuses(&rt, &PAIR, words, &[0; 65], "BadBody");
}

/// All kinds with their numbers, and the lengths of their bodies where a page has 64 bytes.
pub(crate) const KINDS_AND_LENGTHS: [(FrameKind, u8, u16); 11] = [
    (FrameKind::Ack, 0, 0),
    (FrameKind::ReadReq, 1, 13),
    (FrameKind::WriteReq, 2, 13),
    (FrameKind::ReadRep, 3, 77),
    (FrameKind::WriteRep, 4, 81),
    (FrameKind::Inval, 5, 13),
    (FrameKind::InvalAck, 6, 13),
    (FrameKind::AllocReq, 7, 17),
    (FrameKind::AllocRep, 8, 18),
    (FrameKind::FreeReq, 9, 17),
    (FrameKind::FreeRep, 10, 10),
];

#[test]
fn kinds(rt: HostRuntime) {
    PAIR.check().expect(&rt, "a configuration");
    for (kind, code, len) in KINDS_AND_LENGTHS {
        expect_same(&rt, (kind.code(), kind.text_len(&PAIR)), (code, len));
    }
    let content = Content::FreeReq { addr: 64 };
    expect_same(&rt, content.kind(), FrameKind::FreeReq);
    let asks = frame((1, 0), (1, 0), (1, 1), content);
    expect_same(&rt, asks.kind(), FrameKind::FreeReq);
    grammar_is_prefix_free();
}

#[test]
fn lent_and_owned(rt: HostRuntime) {
    let lent: Message<&[u8]> = Message {
        origin: 1,
        call: 3,
        content: Content::ReadRep {
            page: 1,
            bytes: &[5; 64],
        },
    };
    let owned = lent.owned(rt.alloc()).expect(&rt, "memory");
    expect_same(&rt, owned.lent(), lent);
    let copied = owned.clone().expect(&rt, "memory");
    assert!(rt; copied == owned);
}

#[test]
fn pages(rt: HostRuntime) {
    let page = OwnedPage::new(rt.alloc(), ONES).expect(&rt, "memory");
    expect_items(&rt, page.bytes(), ONES);
    let copied = page.clone().expect(&rt, "memory");
    assert!(rt; copied == page);
    let other = OwnedPage::new(rt.alloc(), ZEROS).expect(&rt, "memory");
    assert!(rt; page != other);
}

/// A request from node 1 to node 0, and a string that has no destination.
#[test]
fn destinations(rt: HostRuntime) {
    let request = [b'I', b'V', 2, 1, 1, 0, 0, 13];
    expect_same(&rt, destination(&request), Some(0));
    expect_same(&rt, destination(&request[..5]), None);
}

/// That two owners of these bytes have them, also where one is gone.
fn shares(rt: &impl Abort, owner: Bytes<Global>, bytes: &[u8]) {
    expect_items(rt, owner.bytes(), bytes);
    let shared = owner.share().expect(rt, "memory");
    drop(owner);
    expect_items(rt, shared.bytes(), bytes);
}

#[test]
fn kept_strings(rt: HostRuntime) {
    let copied = Bytes::new(rt.alloc(), &[1, 2]).expect(&rt, "memory");
    expect_items(&rt, copied.bytes(), &[1, 2]);
    let bytes = vec![in rt.alloc(); 1, 2].expect(&rt, "memory");
    let moved = Bytes::from_vec(rt.alloc(), bytes).expect(&rt, "memory");
    shares(&rt, moved, &[1, 2]);
}

/// A short one lies beside its count, and one byte more does not: both are what they were.
#[test]
fn short_and_long_strings(rt: HostRuntime) {
    for len in [0, 41, 42, 43] {
        let mut bytes = vec![in rt.alloc(); 7; len].expect(&rt, "memory");
        bytes.push(8).expect(&rt, "memory");
        let copied = Bytes::new(rt.alloc(), &bytes).expect(&rt, "memory");
        shares(&rt, copied, &bytes);
    }
}
