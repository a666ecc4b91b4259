//! Messages about one page or of the heap, as rows of tables.
ghost use Rattle.std.specs.Prelude.{◌≢◌, ◌<◌};
ghost use Rattle.ivy_wire.specs.Lent.{owned_message};
ghost use Rattle.ivy_wire.specs.stated.Spelling.{FitsMessage};

use ivy_model::Config;
use ivy_wire::{Content, Frame, Message};
use std::process::Abort;

/// The bytes of a page.
#[derive(Clone, Copy)]
pub(crate) enum Bytes {
    Zeros,
    Ones,
    /// Zeros, but 5 was stored in the first word.
    Stored,
}

static ZEROS: [u8; 64] = [0; 64];

static ONES: [u8; 64] = [255; 64];

static STORED: [u8; 64] = [
    0, 0, 0, 0, 0, 0, 0, 5, 0, 0, 0, 0, 0, 0, 0, 0, 0, 0, 0, 0, 0, 0, 0, 0, 0, 0, 0, 0, 0, 0, 0, 0,
    0, 0, 0, 0, 0, 0, 0, 0, 0, 0, 0, 0, 0, 0, 0, 0, 0, 0, 0, 0, 0, 0, 0, 0, 0, 0, 0, 0, 0, 0, 0, 0,
];

/// What a message says of its page, or of the heap.
#[derive(Clone, Copy)]
pub(crate) enum Said {
    /// Asks for a copy.
    Request,
    /// A copy.
    Copy(Bytes),
    /// Asks for the page itself.
    WriteRequest,
    /// The page itself, and the nodes that have a copy.
    Whole(u32, Bytes),
    /// The order of a node that is to write, and what acknowledges it.
    Order,
    Acknowledgement,
    /// Asks for a block of so many bytes, and what answers it: a code and an address.
    BlockRequest(u64),
    Block(u8, u64),
    /// Asks that the block at this address ends, and what answers it: a code.
    EndRequest(u64),
    End(u8),
}

/// A message, by what it says, the node whose call it is and the number of that call.
pub(crate) type Letter = (Said, u8, u64);

fn page_of(bytes: Bytes) -> &'static [u8] {
    match bytes {
        Bytes::Zeros => &ZEROS,
        Bytes::Ones => &ONES,
        Bytes::Stored => &STORED,
    }
}

fn content(page: u32, said: Said) -> Content<&'static [u8]> {
    match said {
        Said::Request => Content::ReadReq { page },
        Said::Copy(bytes) => Content::ReadRep {
            page,
            bytes: page_of(bytes),
        },
        Said::WriteRequest => Content::WriteReq { page },
        Said::Whole(copies, bytes) => Content::WriteRep {
            page,
            copies,
            bytes: page_of(bytes),
        },
        Said::Order => Content::Inval { page },
        Said::Acknowledgement => Content::InvalAck { page },
        Said::BlockRequest(size) => Content::AllocReq { size },
        Said::Block(code, addr) => Content::AllocRep { code, addr },
        Said::EndRequest(addr) => Content::FreeReq { addr },
        Said::End(code) => Content::FreeRep { code },
    }
}

/// The message about a page. One of the heap is about none.
pub(crate) fn message(page: u32, letter: Letter) -> Message<&'static [u8]> {
    let (said, origin, call) = letter;
    Message {
        origin,
        call,
        content: content(page, said),
    }
}

/// The message, which may come to node `me` from this one.
pub(crate) fn received<'a>(
    rt: &impl Abort,
    config: &Config,
    from: u8,
    me: u8,
    message: Message<&'a [u8]>,
) -> Message<&'a [u8]>
    ensures from { from < config.now.nodes }
    ensures foreign { from ≢ me }
    ensures fits { FitsMessage config.now (owned_message result) }
{
    config.check().expect(rt, "a configuration");
    let frame = Frame {
        source: from,
        dest: me,
        number: 1,
        ack: 0,
        body: Some(message),
    };
    assert!(rt; frame.fits(config));
    frame.body.expect(rt, "a message")
}
