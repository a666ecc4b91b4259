//! From bytes to a frame.
ghost use Rattle.std.specs.Prelude.{◌≡◌, ℕ, ◌+◌, ◌<◌, ◌≤◌, ◌↔◌, List, length, drop, Some, None, option_map, IsTrue, IfNone, IfOk, IfErr, IsOk, IsOkAnd, MatchResult, MatchOption, IsOkUnless};
ghost use Rattle.ivy_model.specs.stated.Config.{IsConfig};
ghost use Rattle.ivy_wire.specs.stated.Lengths.{header_len, call_len};
ghost use Rattle.ivy_wire.specs.stated.Spelling.{text_len, Spells};
ghost use Rattle.ivy_wire.specs.stated.Data.{Frame as SeenFrame};
ghost use Rattle.ivy_wire.specs.stated.Reading.{content_at, message_at, frame_at};
ghost use Rattle.ivy_wire.specs.Destinations.{dest_of, IsDestination};
ghost use Rattle.ivy_wire.specs.Lent.{head_of, owned_content, owned_body, owned_frame};
ghost use Rattle.ivy_model.specs.declared.Config.{Config};
ghost use Rattle.ivy_wire.specs.stated.DecodeErrors.{kind_at, checked, len_at, frame_number_at, ack_at, text_at};
ghost use Rattle.ivy_wire.specs.DecodeErrors.{HasHead};

use crate::frame::{CALL_LEN, Content, Frame, FrameKind, HEADER_LEN, KINDS, Message, VERSION};
use crate::page::OwnedPage;
use byteorder::{BigEndian, ByteOrder};
use ivy_model::{Config, Fault};
use std::alloc::Allocator;

/// The place of the destination in a header.
const DESTINATION: usize = 5;

/// The node that the frame of a string is for, without a look at the rest of it. None where the string
/// is shorter. It takes no memory.
pub fn destination(bytes: &[u8]) -> Option<u8>
    ensures is { result ≡ dest_of bytes.now }
    ensures frame { IsDestination bytes.now result }
{
    bytes.get(DESTINATION).copied()
}

#[tactic(auto, unfolding(crate::specs::stated::DecodeErrors::kind_at))]
fn kind_at(code: u8) -> Option<FrameKind>
    ensures { result ≡ kind_at code }
{
    KINDS.get(usize::from(code)).copied()
}

#[tactic(auto, unfolding(crate::specs::stated::DecodeErrors::len_at))]
fn len_at(bytes: &[u8]) -> u16
    requires { header_len ≤ length bytes.now }
    ensures { result ≡ len_at bytes.now }
{
    BigEndian::read_u16(&bytes[6..])
}

#[tactic(auto, unfolding(crate::specs::stated::DecodeErrors::frame_number_at))]
fn frame_number_at(bytes: &[u8]) -> u64
    requires { header_len ≤ length bytes.now }
    ensures { result ≡ frame_number_at bytes.now }
{
    BigEndian::read_u64(&bytes[8..])
}

#[tactic(auto, unfolding(crate::specs::stated::DecodeErrors::ack_at))]
fn ack_at(bytes: &[u8]) -> u64
    requires { header_len ≤ length bytes.now }
    ensures { result ≡ ack_at bytes.now }
{
    BigEndian::read_u64(&bytes[16..])
}

#[tactic(auto, unfolding(crate::specs::stated::DecodeErrors::text_at))]
fn text_at(bytes: &[u8]) -> &[u8]
    requires { header_len ≤ length bytes.now }
    ensures text { result.now ≡ text_at bytes.now }
    ensures len { header_len + length result.now ≡ length bytes.now }
{
    &bytes[HEADER_LEN..]
}

/// The kind of the frame, where all that comes before number and body is right. Else what is wrong.
#[tactic(auto, unfolding(crate::specs::stated::DecodeErrors::checked, crate::specs::stated::DecodeErrors::checked_kind, crate::specs::stated::DecodeErrors::checked_in))]
fn checked_head(config: &Config, bytes: &[u8]) -> Result<FrameKind, Fault>
    requires { IsConfig config.now }
    ensures found { IfOk result (λ kind. HasHead config.now kind bytes.now) }
    ensures fault { IfErr result (λ fault. checked config.now bytes.now ≡ Err fault) }
{
    if bytes.len() < HEADER_LEN {
        return Err(Fault::ShortFrame);
    }
    let len = len_at(bytes);
    if bytes.len() < HEADER_LEN + usize::from(len) {
        return Err(Fault::ShortFrame);
    }
    if bytes[0] != b'I' || bytes[1] != b'V' {
        return Err(Fault::BadMagic);
    }
    if bytes[2] != VERSION {
        return Err(Fault::BadVersion);
    }
    let Some(kind) = kind_at(bytes[3]) else {
        return Err(Fault::BadKind);
    };
    let source = bytes[4];
    let dest = bytes[5];
    if source >= config.nodes || dest >= config.nodes || source == dest {
        return Err(Fault::BadNode);
    }
    if bytes.len() != HEADER_LEN + usize::from(len) || len != kind.text_len(config) {
        return Err(Fault::BadBody);
    }
    Ok(kind)
}

#[tactic(auto, unfolding(crate::specs::stated::Reading::content_at))]
fn content_at<'a>(config: &Config, kind: FrameKind, rest: &'a [u8]) -> Option<Content<&'a [u8]>>
    requires limits { IsConfig config.now }
    requires len { text_len config.now kind ≤ call_len + length rest.now }
    ensures { option_map owned_content result ≡ content_at kind rest.now }
{
    match kind {
        FrameKind::Ack => None,
        FrameKind::ReadReq => Some(Content::ReadReq {
            page: BigEndian::read_u32(rest),
        }),
        FrameKind::WriteReq => Some(Content::WriteReq {
            page: BigEndian::read_u32(rest),
        }),
        FrameKind::ReadRep => Some(Content::ReadRep {
            page: BigEndian::read_u32(rest),
            bytes: &rest[4..],
        }),
        FrameKind::WriteRep => Some(Content::WriteRep {
            page: BigEndian::read_u32(rest),
            copies: BigEndian::read_u32(&rest[4..]),
            bytes: &rest[8..],
        }),
        FrameKind::Inval => Some(Content::Inval {
            page: BigEndian::read_u32(rest),
        }),
        FrameKind::InvalAck => Some(Content::InvalAck {
            page: BigEndian::read_u32(rest),
        }),
        FrameKind::AllocReq => Some(Content::AllocReq {
            size: BigEndian::read_u64(rest),
        }),
        FrameKind::AllocRep => Some(Content::AllocRep {
            code: rest[0],
            addr: BigEndian::read_u64(&rest[1..]),
        }),
        FrameKind::FreeReq => Some(Content::FreeReq {
            addr: BigEndian::read_u64(rest),
        }),
        FrameKind::FreeRep => Some(Content::FreeRep { code: rest[0] }),
    }
}

#[tactic(auto, unfolding(crate::specs::stated::Reading::message_at, crate::specs::stated::Reading::content_at))]
fn message_at<'a>(config: &Config, kind: FrameKind, text: &'a [u8]) -> Option<Message<&'a [u8]>>
    requires limits { IsConfig config.now }
    requires len { length text.now ≡ text_len config.now kind }
    ensures { owned_body result ≡ message_at kind text.now }
{
    if kind == FrameKind::Ack {
        return None;
    }
    let origin = text[0];
    let call = BigEndian::read_u64(&text[1..]);
    let content = content_at(config, kind, &text[CALL_LEN..])?;
    Some(Message {
        origin,
        call,
        content,
    })
}

#[tactic(auto, unfolding(crate::specs::stated::Reading::frame_at))]
fn frame_at<'a>(config: &Config, kind: FrameKind, bytes: &'a [u8]) -> Frame<&'a [u8]>
    requires limits { IsConfig config.now }
    requires len { length bytes.now ≡ header_len + text_len config.now kind }
    ensures { owned_frame result ≡ frame_at kind bytes.now }
{
    let body = message_at(config, kind, text_at(bytes));
    Frame {
        source: bytes[4],
        dest: bytes[5],
        number: frame_number_at(bytes),
        ack: ack_at(bytes),
        body,
    }
}

/// The frame that a string spells, without its message. It takes no memory.
pub fn head_of(bytes: &[u8]) -> Frame<()>
    requires { (c : Config) × (f : SeenFrame) × Spells c f bytes.now }
    ensures { (c : Config) (f : SeenFrame) → Spells c f bytes.now → result ≡ head_of f }
{
    Frame {
        source: bytes[4],
        dest: bytes[5],
        number: frame_number_at(bytes),
        ack: ack_at(bytes),
        body: None,
    }
}

/// The message of the frame that a string spells, with its page lent from the string. It takes no memory.
pub fn message_of<'a>(config: &Config, bytes: &'a [u8]) -> Option<Message<&'a [u8]>>
    requires limits { IsConfig config.now }
    requires spelled { (f : SeenFrame) × Spells config.now f bytes.now }
    ensures { (f : SeenFrame) → Spells config.now f bytes.now → owned_body result ≡ f.body }
{
    let kind = kind_at(bytes[3])?;
    message_at(config, kind, text_at(bytes))
}

/// The frame that the whole string spells, with its page lent from the string [11 to 16]. It takes no
/// memory.
///
/// A string that spells none is refused with the first of 11 to 16 whose test it fails.
pub fn read_frame<'a>(config: &Config, bytes: &'a [u8]) -> Result<Frame<&'a [u8]>, Fault>
    requires limits { IsConfig config.now }
    // A frame is given only if the whole string spells it.
    ensures found { IfOk result (λ frame. Spells config.now (owned_frame frame) bytes.now) }
    // Where the string spells a frame, that one is given.
    ensures only { (frame : SeenFrame) → Spells config.now frame bytes.now → IsOkAnd result (λ f. owned_frame f ≡ frame) }
    // A string that spells none is refused with the first test that it fails.
    ensures fault { MatchResult (checked config.now bytes.now) (λ _. IsOk result) (λ e. result ≡ Err e) }
{
    let kind = checked_head(config, bytes)?;
    let frame = frame_at(config, kind, bytes);
    if frame.fits(config) {
        Ok(frame)
    } else {
        Err(Fault::BadBody)
    }
}

/// The frame that the whole string spells, with a copy of its page [1, 11 to 16].
///
/// A string that spells none is refused as [`read_frame`] refuses it. Its tests take no memory, so 1 is
/// answered only for a string that spells a frame.
pub fn decode<A: Allocator>(
    alloc: A,
    config: &Config,
    bytes: &[u8],
) -> Result<Frame<OwnedPage<A>>, Fault>
    requires limits { IsConfig config.now }
    // A frame is given only if the whole string spells it.
    ensures found { IfOk result (λ frame. Spells config.now frame bytes.now) }
    // Where the string spells a frame, that one is given, unless memory runs out.
    ensures only { (frame : SeenFrame) → Spells config.now frame bytes.now → MatchResult result (λ f. f ≡ frame) (λ e. e ≡ Fault.Memory) }
    // Memory runs out only for a string that spells a frame.
    ensures memory { result ≡ Err Fault.Memory → (frame : SeenFrame) × Spells config.now frame bytes.now }
    // A string that spells none is refused with the first test that it fails.
    ensures fault { MatchResult (checked config.now bytes.now) (λ _. IsOkUnless result Fault.Memory) (λ e. result ≡ Err e) }
{
    let frame = read_frame(config, bytes)?;
    Ok(frame.owned(alloc)?)
}
