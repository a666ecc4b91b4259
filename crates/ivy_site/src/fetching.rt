//! Pages that a site fetches ahead.
ghost use Rattle.std.specs.Prelude.{◌≡◌, ◌+◌, ◌<◌, ◌≤◌, ◌^◌, length, IsTrue, IsFalse, IfErr, OnErr, IfOk, MatchResult, if◌then◌else◌};
ghost use Rattle.ivy_coherence.specs.EventLimits.{most_posted};
ghost use Rattle.ivy_model.specs.Wants.{RanOut};
ghost use Rattle.ivy_host.specs.stated.Managers.{managed_ops};
ghost use Rattle.ivy_memory.specs.stated.Memories.{in_progress, polled, unserved};
ghost use Rattle.ivy_program.specs.OwnCode.{LacksReplies, process_ahead};
ghost use Rattle.ivy_program.specs.Programs.{IsCalled};
ghost use Rattle.ivy_host.specs.Handing.{fetching};
ghost use Rattle.ivy_site.specs.Calls.{AfterFetch, MayFetch};
ghost use Rattle.ivy_site.specs.Handed.{site_fetching};
ghost use Rattle.ivy_site.specs.Inside.{host_in, AfterHostFetch, HasNoNumbers};
ghost use Rattle.ivy_site.specs.Sites.{most_sent, IsSameNode, IsSpentTurn};

use crate::host::Host;
use crate::site::Site;
use ivy_link::Outbox;
use ivy_model::Fault;
use std::alloc::Allocator;

impl<A: Allocator + Copy> Host<A> {
    #[tactic(auto, using(crate::proofs::FetchTurns::may_fetch, crate::proofs::FetchTurns::not_begun, crate::proofs::FetchTurns::not_waiting, crate::proofs::FetchTurns::not_own))]
    /// Whether own code may have a page fetched now: each call that it made has its reply or is in progress, and the one in
    /// progress can only wait.
    fn may_fetch(&self) -> bool
        ensures yes { IsTrue result → MayFetch self.now.memory self.now.machine }
        ensures no { IsFalse result → MayFetch self.now.memory self.now.machine → ⊥ }
        ensures own { IsTrue result → IsCalled self.now.machine.program }
        ensures unserved { IsTrue result → polled managed_ops self.now.memory ≡ unserved self.now.memory }
    {
        let Some(left) = self.machine.left() else {
            return false;
        };
        self.memory.has_in_progress(left) && self.memory.only_waits()
    }

    /// Own code has the node fetch a page beside the call in progress, in a turn [1, 17]. It says whether the page is asked
    /// for from now on; else nothing changes.
    fn fetch(&mut self, outbox: &mut Outbox<A>, page: u32, write: bool) -> Result<bool, Fault>
        requires room { IsTrue self.old.history.has_room }
        requires own { IsCalled self.old.machine.program }
        requires begun { LacksReplies (length (in_progress self.old.memory.asked self.old.memory.along)) self.old.machine }
        requires waits { polled managed_ops self.old.memory ≡ unserved self.old.memory }
        requires page { page < self.old.memory.coherence.config.pages }
        requires config { outbox.old.config ≡ self.old.memory.coherence.config }
        requires me { outbox.old.me ≡ self.old.memory.coherence.me }
        ensures ok { IfOk result (λ begun. AfterHostFetch begun page write (host_in self.old) outbox.old (host_in self.new) outbox.new) }
        ensures err { OnErr result ((host_in self.new ≡ host_in self.old) × (outbox.new ≡ outbox.old)) }
        ensures process { IfOk result (λ begun. self.new.machine ≡ (if begun then process_ahead page write self.old.machine else self.old.machine)) }
        ensures history { self.new.history.records ≡ self.old.history.records }
        ensures kept { self.new.history.kept ≡ self.old.history.kept }
        ensures few { length outbox.new.waiting ≤ length outbox.old.waiting + most_posted }
        ensures spent { IfErr result (HasNoNumbers (fetching page write (host_in self.old)) outbox.old) }
        ensures want { IfErr result RanOut }
    {
        let number = self.history.next_number();
        if !self.memory.fetch(page, write, number, outbox)? {
            return Ok(false);
        }
        self.machine.hand_fetch(page, write);
        Ok(true)
    }
}

impl<A: Allocator + Copy> Site<A> {
    /// Own code has the node fetch a page, to read or to write, in a turn: the page is asked for, and comes while own code
    /// goes on [1, 17]. It says whether it is asked for. No call is of it, and there is no reply to it. A call may be in
    /// progress beside it, which can only wait.
    ///
    /// Else nothing is done: so it is where a turn has to go on with a call before, where the node's program is no own code,
    /// where there is no such page, where the node may do that with it already, or asked for it, and where 7 pages are being fetched.
    pub fn fetch(&mut self, page: u32, write: bool) -> Result<bool, Fault>
        ensures same { IsSameNode self.old self.new }
        ensures done { MatchResult result (λ begun. AfterFetch begun page write self.old self.new) (λ _. self.new ≡ self.old) }
        ensures few { length self.new.waiting ≤ length self.old.waiting + most_sent }
        ensures spent { IfErr result (IsSpentTurn (site_fetching page write self.old)) }
        ensures want { IfErr result RanOut }
    {
        if !self.host.may_fetch() || page >= self.outbox.config().pages {
            return Ok(false);
        }
        self.host.history.reserve()?;
        self.events.reserve()?;
        if !self.host.fetch(&mut self.outbox, page, write)? {
            return Ok(false);
        }
        self.events.push_turn();
        Ok(true)
    }
}
