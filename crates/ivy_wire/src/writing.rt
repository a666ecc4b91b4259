//! From a frame to its bytes.
ghost use Rattle.std.specs.Prelude.{◌≡◌, ◌++◌, ◌≤◌, length, take, drop, IfOk, IsOkUnless};
ghost use Rattle.ivy_model.specs.stated.Config.{IsConfig};
ghost use Rattle.ivy_wire.specs.stated.Spelling.{Fits, Spells, frame_kind, spelling};
ghost use Rattle.ivy_wire.specs.Heads.{body_head, body_page, content_head, header};
ghost use Rattle.ivy_wire.specs.Lent.{owned_content, owned_body, owned_frame};

use crate::bytes::{Bytes, SHORT};
use crate::frame::{CALL_LEN, Content, Frame, FrameKind, HEADER_LEN, Message, VERSION};
use byteorder::{BigEndian, ByteOrder};
use ivy_model::{Config, Fault};
use std::alloc::Allocator;

/// The page that a message brings, or nothing.
fn page_of<'p>(body: &Option<Message<&'p [u8]>>) -> &'p [u8]
    ensures { result.now ≡ body_page (owned_body body.now) }
{
    match body {
        None => &[],
        Some(message) => match &message.content {
            Content::ReadRep { bytes, .. } | Content::WriteRep { bytes, .. } => *bytes,
            _ => &[],
        },
    }
}

/// Writes what a content has before its page.
fn write_content(out: &mut [u8], content: &Content<&[u8]>)
    requires { 9 ≤ length out.old }
    ensures { out.new ≡ content_head (owned_content content.now) ++ drop (length (content_head (owned_content content.now))) out.old }
{
    match content {
        Content::ReadReq { page }
        | Content::WriteReq { page }
        | Content::ReadRep { page, .. }
        | Content::Inval { page }
        | Content::InvalAck { page } => BigEndian::write_u32(out, *page),
        Content::WriteRep { page, copies, .. } => {
            BigEndian::write_u32(out, *page);
            BigEndian::write_u32(&mut out[4..], *copies);
        }
        Content::AllocReq { size: number } | Content::FreeReq { addr: number } => {
            BigEndian::write_u64(out, *number);
        }
        Content::AllocRep { code, addr } => {
            out[0] = *code;
            BigEndian::write_u64(&mut out[1..], *addr);
        }
        Content::FreeRep { code } => out[0] = *code,
    }
}

/// Writes what a body has before its page.
fn write_body(out: &mut [u8], body: &Option<Message<&[u8]>>)
    requires { 18 ≤ length out.old }
    ensures { out.new ≡ body_head (owned_body body.now) ++ drop (length (body_head (owned_body body.now))) out.old }
{
    if let Some(message) = body {
        out[0] = message.origin;
        BigEndian::write_u64(&mut out[1..], message.call);
        write_content(&mut out[CALL_LEN..], &message.content);
    }
}

/// Writes the header of a frame whose body has this length.
fn write_header(out: &mut [u8], frame: &Frame<&[u8]>, kind: FrameKind, len: u16)
    requires room { 24 ≤ length out.old }
    requires kind { kind ≡ frame_kind (owned_frame frame.now).body }
    ensures { out.new ≡ header (owned_frame frame.now) len ++ drop 24 out.old }
{
    out[..6].copy_from_slice(&[b'I', b'V', VERSION, kind.code(), frame.source, frame.dest]);
    BigEndian::write_u16(&mut out[6..], len);
    BigEndian::write_u64(&mut out[8..], frame.number);
    BigEndian::write_u64(&mut out[16..], frame.ack);
}

/// The spelling of a frame but for its page, so many bytes of these. It takes no memory.
fn head(config: &Config, frame: &Frame<&[u8]>) -> ([u8; SHORT], usize)
    requires limits { IsConfig config.now }
    requires fits { Fits config.now (owned_frame frame.now) }
    ensures spelled { take result.1 result.0 ++ body_page (owned_body frame.now.body) ≡ spelling (owned_frame frame.now) }
    ensures few { result.1 ≤ 42 }
{
    let kind = frame.kind();
    let len = kind.text_len(config);
    let mut cells = [0u8; SHORT];
    write_header(&mut cells, frame, kind, len);
    write_body(&mut cells[HEADER_LEN..], &frame.body);
    let page = page_of(&frame.body);
    (cells, HEADER_LEN + usize::from(len) - page.len())
}

/// The one spelling of a frame that fits, a header of 24 bytes and then the body [1].
///
/// The header is the two magic bytes `IV`, the version, the kind, the source and the destination
/// in a byte each, the length of the body in two bytes, and the number and the acknowledgement in
/// eight bytes each. All numbers are big-endian. A page is copied once, into the string.
pub fn encode<A: Allocator>(
    alloc: A,
    config: &Config,
    frame: &Frame<&[u8]>,
) -> Result<Vec<u8, A>, Fault>
    requires limits { IsConfig config.now }
    requires fits { Fits config.now (owned_frame frame.now) }
    ensures spelled { IfOk result (λ bytes. Spells config.now (owned_frame frame.now) bytes.items) }
    ensures memory { IsOkUnless result Fault.Memory }
{
    let page = page_of(&frame.body);
    let (cells, len) = head(config, frame);
    let mut out = Vec::with_capacity(alloc, len + page.len())?;
    out.extend_from_slice(&cells[..len])?;
    out.extend_from_slice(page)?;
    Ok(out)
}

/// The string that spells a frame, as [`encode`] says [1]. Of a frame without a page it takes memory once.
pub fn string_of<A: Allocator + Copy>(
    alloc: A,
    config: &Config,
    frame: &Frame<&[u8]>,
) -> Result<Bytes<A>, Fault>
    requires limits { IsConfig config.now }
    requires fits { Fits config.now (owned_frame frame.now) }
    ensures spelled { IfOk result (λ bytes. Spells config.now (owned_frame frame.now) bytes) }
    ensures memory { IsOkUnless result Fault.Memory }
{
    if page_of(&frame.body).is_empty() {
        let (cells, len) = head(config, frame);
        return Ok(Bytes::in_place(alloc, cells, len)?);
    }
    Ok(Bytes::from_vec(alloc, encode(alloc, config, frame)?)?)
}
