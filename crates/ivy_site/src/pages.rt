//! What a node may do with a page, and what a string would leave of that.
ghost use Rattle.std.specs.Prelude.{◌≡◌, ◌<◌, None, Some, MatchOption, IsOkUnless};
ghost use Rattle.ivy_link.specs.Holding.{ready_of};
ghost use Rattle.ivy_pagetable.specs.stated.Tables.{entry_at};
ghost use Rattle.ivy_coherence.specs.declared.leaving.Leaving.{Leaving};
ghost use Rattle.ivy_coherence.specs.Leavings.{access_at};
ghost use Rattle.ivy_memory.specs.stated.Sound.{IsSoundMemory};
ghost use Rattle.ivy_host.specs.stated.Managers.{managed_ops};
ghost use Rattle.ivy_site.specs.Leavings.{Leaves};
ghost use Rattle.ivy_site.specs.Sites.{IsSite};
ghost use Rattle.ivy_site.specs.SiteView.{holding_at};

use crate::site::Site;
use ivy_link::Verdict;
use ivy_memory::Leaving;
use ivy_model::Fault;
use ivy_pagetable::Access;
use ivy_wire::{Bytes, read_frame};
use std::alloc::Allocator;

impl<A: Allocator + Copy> Site<A> {
    /// What holds of each site, and of the memory of each node, holds of this one.
    #[inline(always)]
    pub fn sound(&self)
        ensures site { IsSite self.now }
        ensures memory { IsSoundMemory managed_ops self.now.node.core.memory }
    {
        self.host.memory.sound();
    }

    /// What this node may do with a page, where no word of it waits there. It takes no memory.
    pub fn access(&self, page: u32) -> Option<Access>
        requires { page < self.now.config.pages }
        ensures { result ≡ access_at (entry_at self.now.node.core.memory.coherence.table page) }
    {
        self.host.memory.access(page)
    }

    /// The page of which a string would take access, were it delivered now as the next one of its source, and what would be
    /// left of it. None, where it would take none. It takes no memory.
    pub fn leaves(&self, bytes: &[u8]) -> Option<Leaving>
        ensures { MatchOption result ((l : Leaving) → Leaves self.now bytes.now l → ⊥) (Leaves self.now bytes.now) }
    {
        let config = self.outbox.config();
        let Ok(frame) = read_frame(&config, bytes) else {
            return None;
        };
        if self.outbox.offer(&frame) != Verdict::Next {
            return None;
        }
        let Some(message) = frame.body else {
            return None;
        };
        self.host.memory.leaves(frame.source, message)
    }

    /// The string that is held of the next number from a node. It takes no memory.
    pub fn ready(&self, from: u8) -> Option<&Bytes<A>>
        requires { from < self.now.config.nodes }
        ensures { MatchOption result (ready_of (holding_at self.now) from ≡ None) (λ s. ready_of (holding_at self.now) from ≡ Some s.now) }
    {
        self.outbox.ready(from)
    }

    /// Makes a page, where there are more than 256, so that no store to it takes memory [1]. Nothing else changes.
    pub fn make_page(&mut self, page: u32) -> Result<(), Fault>
        requires { page < self.old.config.pages }
        ensures same { self.new ≡ self.old }
        ensures memory { IsOkUnless result Fault.Memory }
    {
        self.host.memory.make(page)
    }
}
