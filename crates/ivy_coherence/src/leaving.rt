//! What a message would leave of the access to a page, told before it is handled.
ghost use Rattle.std.specs.Prelude.{◌≡◌, ◌<◌, IsOkUnless};
ghost use Rattle.ivy_wire.specs.Lent.{owned_message};
ghost use Rattle.ivy_wire.specs.stated.Spelling.{FitsMessage};
ghost use Rattle.ivy_pagetable.specs.stated.Tables.{entry_at};
ghost use Rattle.ivy_coherence.specs.Leavings.{access_at, leaves, left_by, wish_of};

use crate::coherence::Coherence;
use ivy_model::Fault;
use ivy_pagetable::{Access, Idle, LentEntry, Manager, Request};
use ivy_wire::{Content, Message};
use std::alloc::Allocator;

/// A page, and what is left of the access to it.
#[derive(Clone, Copy, Debug, PartialEq, Eq)]
pub struct Leaving {
    pub page: u32,
    pub access: Access,
}

/// What a message asks of the entry of a page.
#[derive(Clone, Copy, Debug, PartialEq, Eq)]
pub(crate) struct Wish {
    pub(crate) page: u32,
    pub(crate) kind: Request,
}

/// What a message of a node asks of the entry of a page, where it fits a rule.
fn wish_of(me: u8, from: u8, message: Message<&[u8]>) -> Option<Wish>
    ensures { result ≡ wish_of me from (owned_message message.entry) }
{
    let mine = message.origin == me;
    match message.content {
        Content::ReadReq { page } if !mine => Some(Wish {
            page,
            kind: Request::Read,
        }),
        Content::WriteReq { page } if !mine => Some(Wish {
            page,
            kind: Request::Write,
        }),
        Content::Inval { page } if message.origin == from => Some(Wish {
            page,
            kind: Request::Invalidate,
        }),
        Content::ReadReq { .. }
        | Content::WriteReq { .. }
        | Content::ReadRep { .. }
        | Content::WriteRep { .. }
        | Content::Inval { .. }
        | Content::InvalAck { .. }
        | Content::AllocReq { .. }
        | Content::AllocRep { .. }
        | Content::FreeReq { .. }
        | Content::FreeRep { .. } => None,
    }
}

/// What is left of the access to a page where a request is served, if that takes any of it.
fn left_by(kind: Request, idle: &Idle) -> Option<Access>
    ensures { result ≡ left_by kind idle.now }
{
    match (kind, idle.is_owner()) {
        (Request::Read, true) => Some(Access::Read),
        (Request::Write, true) | (Request::Invalidate, false) => Some(Access::Nil),
        (Request::Read | Request::Write, false) | (Request::Invalidate, true) => None,
    }
}

impl<M: Manager, A: Allocator> Coherence<M, A> {
    /// What this node may do with a page, where no word of it waits there. It takes no memory.
    pub fn access(&self, page: u32) -> Option<Access>
        requires { page < self.now.config.pages }
        ensures { result ≡ access_at (entry_at self.now.table page) }
    {
        self.sound();
        match self.table.entry(page) {
            LentEntry::Idle(idle) => Some(idle.access()),
            LentEntry::AwaitRead(_) | LentEntry::AwaitWrite(_) | LentEntry::AwaitAcks(_) => None,
        }
    }

    /// The page of which a message of another node would take access, if it came now, and what would be left of it. None,
    /// where it would take none. It takes no memory.
    pub fn leaves(&self, from: u8, message: Message<&[u8]>) -> Option<Leaving>
        requires { FitsMessage self.now.config (owned_message message) }
        ensures { result ≡ leaves self.now from (owned_message message.entry) }
    {
        self.sound();
        let wish = wish_of(self.me, from, message)?;
        match self.table.entry(wish.page) {
            LentEntry::Idle(idle) => Some(Leaving {
                page: wish.page,
                access: left_by(wish.kind, idle)?,
            }),
            LentEntry::AwaitRead(_) | LentEntry::AwaitWrite(_) | LentEntry::AwaitAcks(_) => None,
        }
    }

    /// Makes a page, so that no store to it takes memory [1]. Nothing else changes.
    pub fn make(&mut self, page: u32) -> Result<(), Fault>
        requires { page < self.old.config.pages }
        ensures same { self.new ≡ self.old }
        ensures memory { IsOkUnless result Fault.Memory }
    {
        self.sound();
        Ok(self.table.make(page)?)
    }
}
