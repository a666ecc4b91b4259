//! What a node's memory, its program and its history do together in a turn that is about a call.
ghost use Rattle.std.specs.Prelude.{◌≡◌, ◌↔◌, ◌+◌, ◌*◌, ◌%◌, ◌<◌, ◌≤◌, ◌^◌, ◌∷◌, ◌++◌, List, [], None, Some, true, false, length, IfOk, IfErr, OnOk, OnErr, IsTrue};
ghost use Rattle.ivy_model.specs.declared.Call.{Call};
ghost use Rattle.ivy_model.specs.stated.Legal.{HasWidth};
ghost use Rattle.ivy_model.specs.Rows.{calls_of, numbers_in, row};
ghost use Rattle.ivy_moves.specs.Marks.{turns};
ghost use Rattle.ivy_model.specs.Wants.{RanOut};
ghost use Rattle.ivy_program.specs.OwnCode.{AsksNext, IsFree, Rests, asking, process_handed};
ghost use Rattle.ivy_program.specs.Programs.{one_by_one};
ghost use Rattle.ivy_program.specs.stated.Programs.{HandedFetch};
ghost use Rattle.ivy_program.specs.Programs.{IsCalled};
ghost use Rattle.ivy_model.specs.declared.Reply.{Reply};
ghost use Rattle.ivy_program.specs.stated.InstructionSteps.{Asks, along_of, step_of};
ghost use Rattle.ivy_program.specs.InstructionSteps.{AsksMany, answered_all};
ghost use Rattle.ivy_host.specs.Handing.{handing};
ghost use Rattle.ivy_coherence.specs.EventLimits.{most_posted};
ghost use Rattle.ivy_memory.specs.BatchedCalls.{first_call, other_calls, row_has_to_wait};
ghost use Rattle.ivy_site.specs.Calls.{MayCallTogether, TakesReplies, TakesRow, recorded_by, reply_in};
ghost use Rattle.ivy_site.specs.Inside.{host_in, is_served, kept_by, told_by, HasTurn, AfterHostTurn, HasNoNumbers};

use crate::manager::NodeManager;
use ivy_link::Outbox;
use ivy_memory::{CallProgress, Memory};
use ivy_model::{Call, Fault, Record, Reply, Row};
use ivy_moves::{Events, History};
use ivy_program::Machine;
use std::alloc::Allocator;

/// The reply that an answer gives, if it gives one.
fn reply_in(answer: CallProgress) -> Option<Reply>
    ensures { result ≡ reply_in answer }
{
    match answer {
        CallProgress::Given(reply) => Some(reply),
        CallProgress::Awaited | CallProgress::Unserved => None,
    }
}

/// The reply to a call is recorded.
#[inline(always)]
fn record_reply<A: Allocator>(history: &mut History<A>, node: u8, call: Call, reply: Reply)
    requires room { IsTrue history.old.has_room }
    ensures history { history.new.records ≡ history.old.records ++ record { node = node; call = call; reply = reply } ∷ [] }
    ensures kept { history.new.kept ≡ history.old.kept }
{
    history.push(Record { node, call, reply });
}

/// A node without its wire: its memory, its program, and the history of what that was answered.
#[derive(Drop)]
pub(crate) struct Host<A: Allocator> {
    pub(crate) memory: Memory<NodeManager<A>, A>,
    pub(crate) machine: Machine<A>,
    pub(crate) history: History<A>,
}

impl<A: Allocator + Copy> Host<A> {
    /// Where a call was answered its reply is recorded, and the program goes on with it. It says whether the call
    /// was answered, or is in progress from now on.
    #[inline(always)]
    fn keep(&mut self, node: u8, call: Call, answer: CallProgress) -> bool
        requires room { IsTrue self.old.history.has_room }
        requires asks { step_of self.old.machine ≡ Asks call }
        ensures served { result ≡ is_served answer }
        ensures memory { self.new.memory ≡ self.old.memory }
        ensures machine { self.new.machine ≡ told_by self.old.machine answer }
        ensures history { self.new.history.records ≡ kept_by self.old.history.records node call answer }
        ensures kept { self.new.history.kept ≡ self.old.history.kept }
    {
        match answer {
            CallProgress::Given(reply) => {
                self.machine.answer(reply);
                record_reply(&mut self.history, node, call, reply);
                true
            }
            CallProgress::Awaited => true,
            CallProgress::Unserved => false,
        }
    }

    /// What [`Host::keep`] does, of a call that own code makes now. One that is answered at once is nowhere kept.
    #[inline(always)]
    fn keep_made(&mut self, node: u8, call: Call, answer: CallProgress) -> bool
        requires room { IsTrue self.old.history.has_room }
        requires free { IsFree self.old.machine }
        requires width { HasWidth call }
        ensures served { result ≡ is_served answer }
        ensures memory { self.new.memory ≡ self.old.memory }
        ensures machine { self.new.machine ≡ told_by (process_handed ((call ∷ []) ∷ []) self.old.machine) answer }
        ensures history { self.new.history.records ≡ kept_by self.old.history.records node call answer }
        ensures kept { self.new.history.kept ≡ self.old.history.kept }
    {
        match answer {
            CallProgress::Given(reply) => {
                self.machine.hand_answered(call, reply);
                record_reply(&mut self.history, node, call, reply);
                true
            }
            CallProgress::Awaited => {
                self.machine.hand(call);
                true
            }
            CallProgress::Unserved => {
                self.machine.hand(call);
                false
            }
        }
    }

    /// A call that the program makes, and no other along with it, begins: it is answered at once, or in progress from
    /// now on [1, 17]. It gives the reply, where that is there. A refused one changes nothing.
    pub(crate) fn begin(
        &mut self,
        outbox: &mut Outbox<A>,
        call: Call,
    ) -> Result<Option<Reply>, Fault>
        requires room { IsTrue self.old.history.has_room }
        requires idle { self.old.memory.asked ≡ None }
        requires asks { step_of self.old.machine ≡ Asks call }
        requires alone { along_of self.old.machine ≡ [] }
        requires width { HasWidth call }
        requires config { outbox.old.config ≡ self.old.memory.coherence.config }
        requires me { outbox.old.me ≡ self.old.memory.coherence.me }
        ensures ok { OnOk result (HasTurn (host_in self.old) outbox.old (host_in self.new) outbox.new) }
        ensures recorded { IfOk result (λ reply. self.new.history.records ≡ recorded_by self.old.history.records self.old.memory.coherence.me call reply) }
        ensures err { OnErr result ((self.new ≡ self.old) × (outbox.new ≡ outbox.old)) }
        ensures kept { self.new.history.kept ≡ self.old.history.kept }
        ensures few { OnOk result (length outbox.new.waiting ≤ length outbox.old.waiting + most_posted) }
        ensures spent { IfErr result (HasNoNumbers (host_in self.old) outbox.old) }
        ensures want { IfErr result RanOut }
    {
        let number = self.history.next_number();
        let answer = self.memory.begin(call, number, outbox)?;
        let _ = self.keep(outbox.me(), call, answer);
        Ok(reply_in(answer))
    }

    /// Own code makes a call, which begins: it is answered at once, or in progress from now on [1, 17]. It gives the
    /// reply, where that is there. A refused one changes nothing.
    #[inline(always)]
    pub(crate) fn make(
        &mut self,
        outbox: &mut Outbox<A>,
        call: Call,
    ) -> Result<Option<Reply>, Fault>
        requires room { IsTrue self.old.history.has_room }
        requires idle { self.old.memory.asked ≡ None }
        requires free { IsFree self.old.machine }
        requires next { AsksNext self.old.machine }
        requires rests { Rests self.old.machine }
        requires width { HasWidth call }
        requires config { outbox.old.config ≡ self.old.memory.coherence.config }
        requires me { outbox.old.me ≡ self.old.memory.coherence.me }
        ensures ok { OnOk result (HasTurn (handing ((call ∷ []) ∷ []) (host_in self.old)) outbox.old (host_in self.new) outbox.new) }
        ensures recorded { IfOk result (λ reply. self.new.history.records ≡ recorded_by self.old.history.records self.old.memory.coherence.me call reply) }
        ensures err { OnErr result ((self.new ≡ self.old) × (outbox.new ≡ outbox.old)) }
        ensures kept { self.new.history.kept ≡ self.old.history.kept }
        ensures few { OnOk result (length outbox.new.waiting ≤ length outbox.old.waiting + most_posted) }
        ensures spent { IfErr result (HasNoNumbers (handing ((call ∷ []) ∷ []) (host_in self.old)) outbox.old) }
        ensures want { IfErr result RanOut }
    {
        let number = self.history.next_number();
        let begun = self.memory.begin(call, number, outbox)?;
        let _ = self.keep_made(outbox.me(), call, begun);
        Ok(reply_in(begun))
    }

    /// The call in progress is asked for its reply [1, 17]. It says whether anything changed: the reply is recorded, and
    /// given, or the call's word waits from now on.
    pub(crate) fn poll(
        &mut self,
        outbox: &mut Outbox<A>,
        call: Call,
    ) -> Result<(bool, Option<Reply>), Fault>
        requires room { IsTrue self.old.history.has_room }
        requires asked { self.old.memory.asked ≡ Some call }
        requires asks { step_of self.old.machine ≡ Asks call }
        requires config { outbox.old.config ≡ self.old.memory.coherence.config }
        requires me { outbox.old.me ≡ self.old.memory.coherence.me }
        ensures ok { IfOk result (λ p. AfterHostTurn p.0 (host_in self.old) outbox.old (host_in self.new) outbox.new) }
        ensures recorded { IfOk result (λ p. self.new.history.records ≡ recorded_by self.old.history.records self.old.memory.coherence.me call p.1) }
        ensures err { OnErr result ((self.new ≡ self.old) × (outbox.new ≡ outbox.old)) }
        ensures kept { self.new.history.kept ≡ self.old.history.kept }
        ensures few { OnOk result (length outbox.new.waiting ≤ length outbox.old.waiting + most_posted) }
        ensures spent { IfErr result (HasNoNumbers (host_in self.old) outbox.old) }
        ensures want { IfErr result RanOut }
    {
        let answer = self.memory.poll_reply(outbox)?;
        let changed = self.keep(outbox.me(), call, answer);
        Ok((changed, reply_in(answer)))
    }

    /// Whether own code can make calls in a row at once, of so many bytes from `addr` on: none waits, no list of the
    /// past is kept, and the calls can be counted.
    #[inline(always)]
    pub(crate) fn takes_row(&self, events: &Events<A>, addr: u64, bytes: usize) -> bool
        ensures takes { IsTrue result ↔ TakesRow self.now.machine self.now.history events.now.kept addr bytes }
        ensures rests { IsTrue result → Rests self.now.machine }
    {
        self.machine.is_free()
            && self.history.takes_rows(bytes)
            && !events.is_kept()
            && bytes as u64 <= u64::MAX - addr
    }

    /// Lists calls in a row that were made and answered at once: the program goes on with the replies, which are
    /// recorded, and as many turns are listed.
    #[inline(always)]
    pub(crate) fn list_row(
        &mut self,
        events: &mut Events<A>,
        node: u8,
        kind: Row,
        addr: u64,
        words: usize,
        bytes: &[u8],
    )
        requires free { IsFree self.old.machine }
        requires unkept { self.old.history.kept ≡ false }
        requires counted { length self.old.history.records + words < 2 ^ 64 }
        requires unlisted { events.old.kept ≡ false }
        requires within { 8 * words ≤ length bytes.now }
        requires below { addr + 8 * words < 2 ^ 64 }
        ensures memory { self.new.memory ≡ self.old.memory }
        ensures machine { (fetches : List HandedFetch) (rows : List (List Call)) → self.old.machine ≡ asking fetches rows None → self.new.machine ≡ asking fetches (rows ++ one_by_one (calls_of (row kind 0 addr (numbers_in words bytes.now)))) None }
        ensures history { self.new.history.records ≡ self.old.history.records ++ row kind node addr (numbers_in words bytes.now) }
        ensures kept { self.new.history.kept ≡ self.old.history.kept }
        ensures events { events.new.marks ≡ events.old.marks ++ turns words }
        ensures listed { events.new.kept ≡ events.old.kept }
    {
        self.machine.hand_row(kind, addr, words, bytes);
        self.history.push_row(kind, node, addr, words, bytes);
        events.push_turns(words as u64);
    }

    /// Whether own code can make calls together, of so many bytes from `addr` on: none waits, and the calls can be
    /// counted.
    pub(crate) fn takes_together(&self, addr: u64, bytes: usize) -> bool
        ensures takes { IsTrue result ↔ MayCallTogether self.now.machine self.now.history.records addr bytes }
        ensures rests { IsTrue result → Rests self.now.machine }
    {
        self.machine.is_free()
            && bytes as u64 <= u64::MAX - self.history.count()
            && bytes as u64 <= u64::MAX - addr
    }

    /// Own code makes calls in a row together, of which the first has to wait: it is in progress from now on, and the
    /// others are after it [1, 17]. A refused row changes nothing.
    pub(crate) fn begin_row(
        &mut self,
        outbox: &mut Outbox<A>,
        kind: Row,
        addr: u64,
        words: usize,
        bytes: &[u8],
    ) -> Result<(), Fault>
        requires room { IsTrue self.old.history.has_room }
        requires free { IsFree self.old.machine }
        requires rests { Rests self.old.machine }
        requires idle { self.old.memory.asked ≡ None }
        requires waits { row_has_to_wait self.old.memory kind addr ≡ true }
        requires some { 1 ≤ words }
        requires page { addr % self.old.memory.coherence.config.page_size + 8 * words ≤ self.old.memory.coherence.config.page_size }
        requires within { 8 * words ≤ length bytes.now }
        requires counted { length self.old.history.records + words + 1 < 2 ^ 64 }
        requires below { addr + 8 * words < 2 ^ 64 }
        requires config { outbox.old.config ≡ self.old.memory.coherence.config }
        requires me { outbox.old.me ≡ self.old.memory.coherence.me }
        ensures ok { OnOk result (HasTurn (handing (calls_of (row kind 0 addr (numbers_in words bytes.now)) ∷ []) (host_in self.old)) outbox.old (host_in self.new) outbox.new) }
        ensures asked { OnOk result (self.new.memory.asked ≡ Some (first_call kind addr bytes.now)) }
        ensures along { OnOk result (self.new.memory.along ≡ other_calls kind addr words bytes.now) }
        ensures err { OnErr result ((self.new ≡ self.old) × (outbox.new ≡ outbox.old)) }
        ensures history { self.new.history.records ≡ self.old.history.records }
        ensures kept { self.new.history.kept ≡ self.old.history.kept }
        ensures few { OnOk result (length outbox.new.waiting ≤ length outbox.old.waiting + most_posted) }
        ensures spent { IfErr result (HasNoNumbers (handing (calls_of (row kind 0 addr (numbers_in words bytes.now)) ∷ []) (host_in self.old)) outbox.old) }
        ensures want { IfErr result RanOut }
    {
        let number = self.history.next_number();
        self.memory
            .begin_row(kind, addr, words, bytes, number, outbox)?;
        self.machine.hand_together(kind, addr, words, bytes);
        Ok(())
    }

    /// Whether the replies of a row of own code can be taken at once, of so many bytes from `addr` on: no list of the
    /// past is kept, and the calls can be counted.
    pub(crate) fn takes_replies(&self, events: &Events<A>, addr: u64, bytes: usize) -> bool
        ensures { IsTrue result ↔ TakesReplies self.now.machine self.now.history events.now.kept addr bytes }
    {
        self.machine.is_own()
            && self.history.takes_rows(bytes)
            && !events.is_kept()
            && bytes as u64 <= u64::MAX - addr
    }

    /// Lists calls in a row of own code that have their replies: the program goes on with them, they are recorded, and as
    /// many turns are listed.
    pub(crate) fn list_taken(
        &mut self,
        events: &mut Events<A>,
        node: u8,
        kind: Row,
        addr: u64,
        taken: usize,
        bytes: &[u8],
    )
        requires own { IsCalled self.old.machine.program }
        requires asks { AsksMany self.old.machine taken }
        requires unkept { self.old.history.kept ≡ false }
        requires counted { length self.old.history.records + taken < 2 ^ 64 }
        requires unlisted { events.old.kept ≡ false }
        requires within { 8 * taken ≤ length bytes.now }
        requires below { addr + 8 * taken < 2 ^ 64 }
        ensures memory { self.new.memory ≡ self.old.memory }
        ensures machine { (replies : List Reply) → length replies ≡ taken → self.new.machine ≡ answered_all self.old.machine replies }
        ensures history { self.new.history.records ≡ self.old.history.records ++ row kind node addr (numbers_in taken bytes.now) }
        ensures kept { self.new.history.kept ≡ self.old.history.kept }
        ensures events { events.new.marks ≡ events.old.marks ++ turns taken }
        ensures listed { events.new.kept ≡ events.old.kept }
    {
        self.machine.answer_row(taken);
        self.history.push_row(kind, node, addr, taken, bytes);
        events.push_turns(taken as u64);
    }
}
