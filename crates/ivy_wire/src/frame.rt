//! What nodes say to one another.
ghost use Rattle.std.specs.Prelude.{◌≡◌, ◌↔◌, IsTrue, IfOk};
ghost use Rattle.ivy_model.specs.stated.Config.{IsConfig};
ghost use Rattle.ivy_wire.specs.Lent.{owned_content, owned_message, owned_body, owned_frame};

use crate::page::OwnedPage;
use ivy_model::{Config, Fault};
use std::alloc::{AllocError, Allocator};

/// What a frame is about. The number of each kind in a frame is its place here, from 0.
#[derive(Clone, Copy, Debug, PartialEq, Eq)]
pub enum FrameKind {
    /// Nothing but an acknowledgement.
    Ack,
    /// Asks for a copy of a page, to read it.
    ReadReq,
    /// Asks for a page itself, to write to it.
    WriteReq,
    /// Brings a copy of a page.
    ReadRep,
    /// Brings a page itself, with the nodes that hold a copy of it.
    WriteRep,
    /// Ends a copy of a page.
    Inval,
    /// Says that a copy was ended.
    InvalAck,
    /// Asks for a block of the heap.
    AllocReq,
    /// Brings a block of the heap, or why there is none.
    AllocRep,
    /// Gives a block back to the heap.
    FreeReq,
    /// Says whether a block was given back.
    FreeRep,
}

/// All kinds, in the order of their numbers.
pub(crate) const KINDS: [FrameKind; 11] = [
    FrameKind::Ack,
    FrameKind::ReadReq,
    FrameKind::WriteReq,
    FrameKind::ReadRep,
    FrameKind::WriteRep,
    FrameKind::Inval,
    FrameKind::InvalAck,
    FrameKind::AllocReq,
    FrameKind::AllocRep,
    FrameKind::FreeReq,
    FrameKind::FreeRep,
];

/// The one version of frames that there is.
pub(crate) const VERSION: u8 = 2;

/// Bytes of a header.
pub(crate) const HEADER_LEN: usize = 24;

/// Bytes of the origin and the call, with which the body of a message begins.
pub(crate) const CALL_LEN: usize = 9;

/// What a message says, beside whose call it is. `B` is what holds the bytes of a page: a
/// [`OwnedPage`] that owns them, or a slice that is lent.
#[derive(Clone, Copy, Debug, Drop, PartialEq, Eq)]
pub enum Content<B> {
    /// Asks for a copy of a page, to read it.
    ReadReq { page: u32 },
    /// Asks for a page itself, to write to it.
    WriteReq { page: u32 },
    /// Brings a copy of a page.
    ReadRep { page: u32, bytes: B },
    /// Brings a page itself. Bit `i` of `copies`, bit 0 the least, says that node `i` has a copy.
    WriteRep { page: u32, copies: u32, bytes: B },
    /// Ends a copy of a page: its writer is about to write to it.
    Inval { page: u32 },
    /// Says that a copy was ended.
    InvalAck { page: u32 },
    /// Asks for a block of so many bytes.
    AllocReq { size: u64 },
    /// Brings the address of a block with code 0, or the fault 8 or 9 with address 0.
    AllocRep { code: u8, addr: u64 },
    /// Gives back the block that begins at the address.
    FreeReq { addr: u64 },
    /// Says by code 0 that a block was given back, or by 10 that there is none at the address.
    FreeRep { code: u8 },
}

/// A message. It always belongs to a call that some node has in progress.
#[derive(Clone, Copy, Debug, Drop, PartialEq, Eq)]
pub struct Message<B> {
    /// The node whose call it is, in requests and in replies alike.
    pub origin: u8,
    /// The number of the call at that node, from 1.
    pub call: u64,
    /// What it says.
    pub content: Content<B>,
}

/// What goes over the network.
#[derive(Clone, Debug, Drop, PartialEq, Eq)]
pub struct Frame<B> {
    /// The node that sends it.
    pub source: u8,
    /// The node that it goes to.
    pub dest: u8,
    /// The number of the message among those of its source and destination, from 1. It is 0 in a
    /// frame that has none.
    pub number: u64,
    /// The greatest number that the source has accepted from the destination.
    pub ack: u64,
    /// The message. A frame without one only acknowledges.
    pub body: Option<Message<B>>,
}

impl FrameKind {
    ghost use Rattle.ivy_wire.specs.stated.Spelling.{code_of, text_len};

    /// The number of the kind in a frame, 0 to 10.
    pub fn code(self) -> u8
        ensures { result ≡ code_of self }
    {
        self as u8
    }

    /// How many bytes the body of a frame of this kind has.
    pub fn text_len(self, config: &Config) -> u16
        requires { IsConfig config.now }
        ensures { result ≡ text_len config.now self }
    {
        match self {
            FrameKind::Ack => 0,
            FrameKind::ReadReq | FrameKind::WriteReq | FrameKind::Inval | FrameKind::InvalAck => 13,
            FrameKind::ReadRep => 13 + config.page_size as u16,
            FrameKind::WriteRep => 17 + config.page_size as u16,
            FrameKind::AllocReq | FrameKind::FreeReq => 17,
            FrameKind::AllocRep => 18,
            FrameKind::FreeRep => 10,
        }
    }
}

/// The same content with other bytes of its page, if it brings one: those that the expression makes of
/// the ones that it has.
macro_rules! with_page {
    ($content:expr, $bytes:ident => $made:expr) => {
        match $content {
            Content::ReadReq { page } => Content::ReadReq { page: *page },
            Content::WriteReq { page } => Content::WriteReq { page: *page },
            Content::ReadRep { page, bytes: $bytes } => Content::ReadRep {
                page: *page,
                bytes: $made,
            },
            Content::WriteRep { page, copies, bytes: $bytes } => Content::WriteRep {
                page: *page,
                copies: *copies,
                bytes: $made,
            },
            Content::Inval { page } => Content::Inval { page: *page },
            Content::InvalAck { page } => Content::InvalAck { page: *page },
            Content::AllocReq { size } => Content::AllocReq { size: *size },
            Content::AllocRep { code, addr } => Content::AllocRep {
                code: *code,
                addr: *addr,
            },
            Content::FreeReq { addr } => Content::FreeReq { addr: *addr },
            Content::FreeRep { code } => Content::FreeRep { code: *code },
        }
    };
}

impl Content<&[u8]> {
    ghost use Rattle.ivy_wire.specs.stated.Spelling.{kind_of, FitsContent};

    /// What the message is about.
    pub fn kind(&self) -> FrameKind
        ensures { result ≡ kind_of (owned_content self.now) }
    {
        match self {
            Content::ReadReq { .. } => FrameKind::ReadReq,
            Content::WriteReq { .. } => FrameKind::WriteReq,
            Content::ReadRep { .. } => FrameKind::ReadRep,
            Content::WriteRep { .. } => FrameKind::WriteRep,
            Content::Inval { .. } => FrameKind::Inval,
            Content::InvalAck { .. } => FrameKind::InvalAck,
            Content::AllocReq { .. } => FrameKind::AllocReq,
            Content::AllocRep { .. } => FrameKind::AllocRep,
            Content::FreeReq { .. } => FrameKind::FreeReq,
            Content::FreeRep { .. } => FrameKind::FreeRep,
        }
    }

    fn fits(&self, config: &Config) -> bool
        requires { IsConfig config.now }
        ensures { IsTrue result ↔ FitsContent config.now (owned_content self.now) }
    {
        match self {
            Content::ReadReq { page }
            | Content::WriteReq { page }
            | Content::Inval { page }
            | Content::InvalAck { page } => *page < config.pages,
            Content::ReadRep { page, bytes } => *page < config.pages
                && bytes.len() == config.page_size as usize,
            Content::WriteRep {
                page,
                copies,
                bytes,
            } => {
                *page < config.pages
                    && u64::from(*copies) < 1 << config.nodes
                    && bytes.len() == config.page_size as usize
            }
            // for the proof: a number behind a reference is in its range once it is read.
            Content::AllocReq { size: number } | Content::FreeReq { addr: number } => {
                let _number = *number;
                true
            }
            Content::AllocRep { code, addr } => {
                let addr = *addr;
                *code == 0
                    || ((*code == Fault::ZeroSize.number() || *code == Fault::NoRoom.number())
                        && addr == 0)
            }
            Content::FreeRep { code } => *code == 0 || *code == Fault::NotABlock.number(),
        }
    }

    fn owned<A: Allocator>(&self, alloc: A) -> Result<Content<OwnedPage<A>>, AllocError>
        ensures { IfOk result (λ content. content ≡ owned_content self.now) }
    {
        Ok(with_page!(self, bytes => OwnedPage::new(alloc, *bytes)?))
    }
}

impl Message<&[u8]> {
    ghost use Rattle.ivy_wire.specs.stated.Spelling.{FitsMessage};

    /// The message with a copy of its page. Err only where the allocator has no memory.
    pub fn owned<A: Allocator>(&self, alloc: A) -> Result<Message<OwnedPage<A>>, AllocError>
        ensures { IfOk result (λ message. message ≡ owned_message self.now) }
    {
        Ok(Message {
            origin: self.origin,
            call: self.call,
            content: self.content.owned(alloc)?,
        })
    }

    fn fits(&self, config: &Config) -> bool
        requires { IsConfig config.now }
        ensures { IsTrue result ↔ FitsMessage config.now (owned_message self.now) }
    {
        self.origin < config.nodes && self.call != 0 && self.content.fits(config)
    }
}

fn owned_body<A: Allocator>(
    alloc: A,
    body: &Option<Message<&[u8]>>,
) -> Result<Option<Message<OwnedPage<A>>>, AllocError>
    ensures { IfOk result (λ copy. copy ≡ owned_body body.now) }
{
    match body {
        None => Ok(None),
        Some(message) => Ok(Some(message.owned(alloc)?)),
    }
}

impl Frame<&[u8]> {
    ghost use Rattle.ivy_wire.specs.stated.Spelling.{Fits, frame_kind};

    /// The frame with a copy of its page. Err only where the allocator has no memory.
    pub fn owned<A: Allocator>(&self, alloc: A) -> Result<Frame<OwnedPage<A>>, AllocError>
        ensures { IfOk result (λ frame. frame ≡ owned_frame self.now) }
    {
        Ok(Frame {
            source: self.source,
            dest: self.dest,
            number: self.number,
            ack: self.ack,
            body: owned_body(alloc, &self.body)?,
        })
    }

    /// What the frame is about.
    pub fn kind(&self) -> FrameKind
        ensures { result ≡ frame_kind (owned_frame self.now).body }
    {
        match &self.body {
            None => FrameKind::Ack,
            Some(message) => message.content.kind(),
        }
    }

    /// Whether the frame has a spelling. It takes no memory.
    pub fn fits(&self, config: &Config) -> bool
        requires { IsConfig config.now }
        ensures { IsTrue result ↔ Fits config.now (owned_frame self.now) }
    {
        let nodes = config.nodes;
        if self.source >= nodes || self.dest >= nodes || self.source == self.dest {
            return false;
        }
        // for the proof: the acknowledgement is in its range once it is read.
        let _ack = self.ack;
        match &self.body {
            None => self.number == 0,
            Some(message) => self.number != 0 && message.fits(config),
        }
    }
}

impl<A: Allocator> Content<OwnedPage<A>> {
    fn lent(&self) -> Content<&[u8]>
        ensures { owned_content result ≡ self.now }
    {
        with_page!(self, bytes => bytes.bytes())
    }
}

impl<A: Allocator> Message<OwnedPage<A>> {
    /// The message with its page lent.
    pub fn lent(&self) -> Message<&[u8]>
        ensures { owned_message result ≡ self.now }
    {
        Message {
            origin: self.origin,
            call: self.call,
            content: self.content.lent(),
        }
    }
}

impl<A: Allocator> Frame<OwnedPage<A>> {
    /// The frame with its page lent.
    pub fn lent(&self) -> Frame<&[u8]>
        ensures { owned_frame result ≡ self.now }
    {
        Frame {
            source: self.source,
            dest: self.dest,
            number: self.number,
            ack: self.ack,
            body: self.body.as_ref().map(|message| message.lent()),
        }
    }
}
