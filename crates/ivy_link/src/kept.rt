//! Messages that are kept.
ghost use Rattle.std.specs.Prelude.{◌≡◌, ◌-◌, ◌≤◌, length, drop, IfOk};
ghost use Rattle.ivy_wire.specs.Heads.{content_page};
ghost use Rattle.ivy_wire.specs.Lent.{owned_content, owned_message};
ghost use Rattle.ivy_link.specs.Kept.{content_with, message_with, EndsWith};

use ivy_wire::{Bytes, Content, Message, OwnedPage};
use std::alloc::{AllocError, Allocator};
use std::marker::Model;

/// A page at the end of a string, which is shared.
#[derive(Drop)]
#[derive_where(Debug)]
struct SharedPage<A: Allocator> {
    string: Bytes<A>,
    start: usize,
}

impl<A: Allocator> Model for SharedPage<A> {
    ghost use Rattle.std.specs.Prelude.{◌≤◌, ℕ, List, length, drop};

    ghost Value = { List ℕ };

    ghost view = { λ p. drop p.start p.string };

    ghost invariant = { λ p. p.start ≤ length p.string };
}

impl<A: Allocator> SharedPage<A> {
    /// The last bytes of a string, so many. Err only where 2^63 - 1 own the string.
    fn last(string: &Bytes<A>, len: usize) -> Result<Self, AllocError>
        requires { len ≤ length string.now }
        ensures { IfOk result (λ page. page ≡ drop (length string.now - len) string.now) }
    {
        let start = string.bytes().len() - len;
        Ok(SharedPage {
            string: string.share()?,
            start,
        })
    }

    /// The bytes, lent.
    fn bytes(&self) -> &[u8]
        ensures { result.now ≡ self.now }
    {
        &self.string.bytes()[self.start..]
    }
}

/// A message that is kept, with a page of its own, or with none in place of one that is shared.
#[derive(Drop)]
#[derive_where(Debug)]
pub(crate) struct Kept<A: Allocator> {
    message: Message<OwnedPage<A>>,
    shared: Option<SharedPage<A>>,
}

impl<A: Allocator> Model for Kept<A> {
    ghost use Rattle.ivy_wire.specs.stated.Data.{Message as Said};
    ghost use Rattle.ivy_link.specs.Kept.{kept_as};

    ghost Value = { Said };

    ghost view = { λ k. kept_as k.message k.shared };
}

/// The page that a message brings, or nothing.
fn page_of<'p>(message: &Message<&'p [u8]>) -> &'p [u8]
    ensures { result.now ≡ content_page (owned_message message.now).content }
{
    match &message.content {
        Content::ReadRep { bytes, .. } | Content::WriteRep { bytes, .. } => *bytes,
        _ => &[],
    }
}

/// The content with this page, where it brings one.
fn content_with<'p>(content: Content<&'p [u8]>, bytes: &'p [u8]) -> Content<&'p [u8]>
    ensures { owned_content result ≡ content_with (owned_content content.entry) bytes.now }
{
    match content {
        Content::ReadRep { page, .. } => Content::ReadRep { page, bytes },
        Content::WriteRep { page, copies, .. } => Content::WriteRep {
            page,
            copies,
            bytes,
        },
        other => other,
    }
}

/// The message with this page, where it brings one.
fn message_with<'p>(message: Message<&'p [u8]>, bytes: &'p [u8]) -> Message<&'p [u8]>
    ensures { owned_message result ≡ message_with (owned_message message.entry) bytes.now }
{
    Message {
        origin: message.origin,
        call: message.call,
        content: content_with(message.content, bytes),
    }
}

impl<A: Allocator> Kept<A> {
    /// The message with a copy of its page. Err only where the allocator has no memory.
    pub(crate) fn copied(alloc: A, message: &Message<&[u8]>) -> Result<Self, AllocError>
        ensures { IfOk result (λ kept. kept ≡ owned_message message.now) }
    {
        Ok(Kept {
            message: message.owned(alloc)?,
            shared: None,
        })
    }

    /// The message with its page at the end of a string, which is shared. It copies no page. Err only where the allocator
    /// has no memory, or 2^63 - 1 own the string.
    #[tactic(auto, using(crate::proofs::Kepts::message_back))]
    pub(crate) fn shared(
        alloc: A,
        message: &Message<&[u8]>,
        string: &Bytes<A>,
    ) -> Result<Self, AllocError>
        requires { EndsWith string.now (content_page (owned_message message.now).content) }
        ensures { IfOk result (λ kept. kept ≡ owned_message message.now) }
    {
        let page = SharedPage::last(string, page_of(message).len())?;
        Ok(Kept {
            message: message_with(*message, &[]).owned(alloc)?,
            shared: Some(page),
        })
    }

    /// The message with its page lent.
    pub(crate) fn lent(&self) -> Message<&[u8]>
        ensures { owned_message result ≡ self.now }
    {
        let message = self.message.lent();
        match &self.shared {
            None => message,
            Some(page) => message_with(message, page.bytes()),
        }
    }
}
