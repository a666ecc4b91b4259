//! What a node may do with a page, and what a message would leave of that; pages that are fetched.
ghost use Rattle.std.specs.Prelude.{◌≡◌, ◌↔◌, ◌<◌, ◌≤◌, IsTrue, IsOkUnless, IfOk, OnOk, OnErr, length};
ghost use Rattle.ivy_wire.specs.Lent.{owned_message};
ghost use Rattle.ivy_wire.specs.stated.Spelling.{FitsMessage};
ghost use Rattle.ivy_wire.specs.Posts.{IsPostOf, HasPosted};
ghost use Rattle.ivy_coherence.specs.EventLimits.{most_posted};
ghost use Rattle.ivy_memory.specs.Memories.{only_waits};
ghost use Rattle.ivy_memory.specs.stated.Memories.{in_progress, memory_fetched, polled, unserved};
ghost use Rattle.ivy_pagetable.specs.stated.Tables.{entry_at};
ghost use Rattle.ivy_coherence.specs.Leavings.{access_at, leaves};
ghost use Rattle.ivy_memory.specs.stated.Sound.{IsSoundMemory};

use crate::memory::{Asked, Memory, asked_of};
use ivy_coherence::Leaving;
use ivy_model::Fault;
use ivy_pagetable::{Access, Manager};
use ivy_wire::{Message, Post};
use std::alloc::Allocator;

impl<M: Manager, A: Allocator> Memory<M, A> {
    /// What holds of each node's memory holds of this one.
    #[inline(always)]
    pub fn sound(&self)
        ensures { IsSoundMemory M.ops self.now }
    {
        // for the proof: what holds of every value of this type.
        let _ = &self.number;
    }

    /// What this node may do with a page, where no word of it waits there and it is not fetched. It takes no memory.
    pub fn access(&self, page: u32) -> Option<Access>
        requires { page < self.now.coherence.config.pages }
        ensures { result ≡ access_at (entry_at self.now.coherence.table page) }
    {
        self.coherence.access(page)
    }

    /// The page of which a message of another node would take access, if it came now, and what would be left of it. None,
    /// where it would take none. It takes no memory.
    pub fn leaves(&self, from: u8, message: Message<&[u8]>) -> Option<Leaving>
        requires { FitsMessage self.now.coherence.config (owned_message message) }
        ensures { result ≡ leaves self.now.coherence from (owned_message message.entry) }
    {
        self.coherence.leaves(from, message)
    }

    /// Fetches a page, to read or to write: asks for it beside the call in progress, under this number, that of the next
    /// record, and says whether it did [1, 17]. No call waits for it, and there is no reply to it.
    ///
    /// It does nothing where the page is here already, where it is asked for, and where 7 pages are being fetched.
    pub fn fetch<P: Post>(
        &mut self,
        page: u32,
        write: bool,
        number: u64,
        post: &mut P,
    ) -> Result<bool, Fault>
        requires page { page < self.old.coherence.config.pages }
        requires number { 1 ≤ number }
        requires post { IsPostOf P.ops post.old self.old.coherence.config self.old.coherence.me }
        ensures few { length (memory_fetched M.ops self.old page write number).posted ≤ most_posted }
        ensures begun { IfOk result (λ begun.
            begun ≡ (memory_fetched M.ops self.old page write number).begun) }
        ensures ok { OnOk result
            (self.new ≡ (memory_fetched M.ops self.old page write number).after) }
        ensures posted { HasPosted P.ops post.old post.new result
            (memory_fetched M.ops self.old page write number).posted }
        ensures err { OnErr result (self.new ≡ self.old) }
    {
        self.coherence.fetch(page, write, number, post)
    }

    /// Whether so many calls are in progress: the one that is asked for its reply, and those made along with it.
    pub fn has_in_progress(&self, many: usize) -> bool
        ensures { IsTrue result ↔ (length (in_progress self.now.asked self.now.along) ≡ many) }
    {
        match self.asked {
            None => many == 0,
            Some(_) => many > 0 && self.along.left() == many - 1,
        }
    }

    /// Makes a page, so that no store to it takes memory [1]. Nothing else changes.
    pub fn make(&mut self, page: u32) -> Result<(), Fault>
        requires { page < self.old.coherence.config.pages }
        ensures same { self.new ≡ self.old }
        ensures memory { IsOkUnless result Fault.Memory }
    {
        self.coherence.make(page)
    }
}

impl<M: Manager, A: Allocator + Copy> Memory<M, A> {
    #[tactic(auto, using(crate::proofs::keeping::Polling::waiting_unserved))]
    /// Whether no call is in progress, or the one that is can only wait [1]: it has no reply, and its word waits at a page, or
    /// node 0 was asked. To ask it for its reply changes nothing then.
    pub fn only_waits(&self) -> bool
        ensures is { result ≡ only_waits self.now }
        ensures unserved { IsTrue result → polled M.ops self.now ≡ unserved self.now }
    {
        let Some(call) = self.asked else {
            return true;
        };
        if self.reply().is_some() {
            return false;
        }
        match asked_of(&self.coherence.config(), call) {
            Asked::Word { .. } => self.coherence.locked().is_some(),
            Asked::Refused(_) | Asked::Heap(_) => true,
        }
    }
}
