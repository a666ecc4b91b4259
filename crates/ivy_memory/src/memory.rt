//! The memory of one node, as its program sees it: one call in progress, over the node's coherence, and what a call
//! asks of it.
ghost use Rattle.std.specs.Prelude.{◌≡◌, ◌≢◌, ◌<◌, ◌≤◌, ◌↔◌, ◌⊎◌, ◌*◌, ℕ, [], ◌/◌, ◌%◌, true, false, None, IsSome, is_none, IfNone, IfSome, IfOk, IfErr, OnOk, OnErr, IsOkUnless, IsErrOf, length};
ghost use Rattle.ivy_model.specs.declared.Row.{Row};
ghost use Rattle.ivy_model.specs.declared.Row.TheVariants.{Loads, Stores};
ghost use Rattle.ivy_model.specs.stated.Config.{IsConfig};
ghost use Rattle.ivy_model.specs.stated.Legal.{HasKindWidth, HasWidth, IsWidth};
ghost use Rattle.ivy_model.specs.Rows.{numbers_in, row};
ghost use Rattle.ivy_model.specs.Wants.{RanOut};
ghost use Rattle.ivy_model.specs.stated.Serves.{access_refusal};
ghost use Rattle.ivy_pagetable.specs.Manager.{IsNew};
ghost use Rattle.ivy_wire.specs.Lent.{owned_message};
ghost use Rattle.ivy_wire.specs.stated.Spelling.{FitsMessage};
ghost use Rattle.ivy_wire.specs.Posts.{IsPostOf, HasRefused};
ghost use Rattle.ivy_coherence.specs.Outcomes.{IsWantOfPage};
ghost use Rattle.ivy_coherence.specs.EventLimits.{most_posted};
ghost use Rattle.ivy_memory.specs.Asking.{CallHasToAsk, CallMayMakePage, IsCallWant, IsMessageWant, MayBeRefused};
ghost use Rattle.ivy_memory.specs.stated.Asking.{count_asked, asked_kind, asked_of, word_unless};
ghost use Rattle.ivy_memory.specs.AtOnce.{AnswerAtOnce, IsRowAt, IsStored, is_row_at_hand, row_at_hand};
ghost use Rattle.ivy_memory.specs.stated.Memories.{memory_over, new_memory, first_memory, reply_of, reply_at, call_begun, polled, memory_handled, memory_told, taken_out};
ghost use Rattle.ivy_memory.specs.Memories.{MayFailAgain};

use crate::rest::Rest;
use ivy_alloc::{CallProgress, HeapCall, HeapSide};
use ivy_coherence::{Coherence, Need};
use ivy_event::{advance, await_at_least, read};
use ivy_model::{Call, CallKind, Config, Fault, Reply, access_refusal};
use ivy_pagetable::{Manager, Out, Word};
use ivy_wire::{Message, Post};
use std::alloc::Allocator;
use std::marker::Model;

/// The refusal of a count at its greatest value.
const COUNT_FULL: u8 = 7;

/// How many bytes a word of a row has.
const ROW_WIDTH: u8 = 8;

/// A node's coherence, the call that its program has in progress, those made along with it, and its side of the calls of the
/// heap.
#[derive(Drop)]
pub struct Memory<M: Manager, A: Allocator> {
    pub(crate) coherence: Coherence<M, A>,
    pub(crate) asked: Option<Call>,
    pub(crate) along: Rest<A>,
    /// The number of the call in progress, or of the last one that was.
    pub(crate) number: u64,
    pub(crate) side: HeapSide<A>,
}

impl<M: Manager, A: Allocator> Model for Memory<M, A> {
    ghost use Rattle.ivy_memory.specs.stated.Memories as memories;
    ghost use Rattle.ivy_memory.specs.stated.Sound.{IsSoundMemory};

    ghost Value = { memories.NodeMemory M };

    ghost use Rattle.std.specs.Prelude.{◌≡◌};
    ghost use Rattle.std.specs.Coded.{codes};
    ghost use Rattle.ivy_pagetable.specs.stated.NodeSets.{nodes_code};
    ghost use Rattle.ivy_alloc.specs.Heap.{heap_state_code};

    ghost coded = { Prim.hlevel (codes, nodes_code, heap_state_code) };

    ghost view = { λ m. record { coherence = m.coherence; asked = m.asked; along = m.along.calls; number = m.number; side = m.side } };

    ghost invariant = { λ m. IsSoundMemory M.ops (record { coherence = m.coherence; asked = m.asked; along = m.along.calls; number = m.number; side = m.side })
        × (m.along.size ≡ m.coherence.config.page_size) };
}

impl<M: Manager, A: Allocator + Copy> Memory<M, A> {
    /// The memory of node `me` at the beginning [1].
    pub fn new(alloc: A, config: &Config, me: u8, manager: M) -> Result<Self, Fault>
    where
        M: Drop,
        requires limits { IsConfig config.now }
        requires here { me < config.now.nodes }
        requires fresh { manager ≡ M.ops.first config.now me }
        ensures first { IfOk result (λ m. m ≡ first_memory M.ops config.now me) }
        ensures memory { IsOkUnless result Fault.Memory }
    {
        let coherence = Coherence::new(alloc, config, me, manager)?;
        Memory::over(alloc, config, me, coherence)
    }

    /// The same, with any new manager, but requests are sent on while a copy is awaited, and not put off [1].
    pub fn sending_on(alloc: A, config: &Config, me: u8, manager: M) -> Result<Self, Fault>
    where
        M: Drop,
        requires limits { IsConfig config.now }
        requires here { me < config.now.nodes }
        requires fresh { IsNew M.ops config.now me manager }
        ensures first { IfOk result (λ m. m ≡ new_memory true config.now me manager) }
        ensures memory { IsOkUnless result Fault.Memory }
    {
        let coherence = Coherence::sending_on(alloc, config, me, manager)?;
        Memory::over(alloc, config, me, coherence)
    }

    /// Over a coherence that no word was asked of yet.
    fn over(alloc: A, config: &Config, me: u8, coherence: Coherence<M, A>) -> Result<Self, Fault>
    where
        M: Drop,
        requires config { coherence.config ≡ config.now }
        requires me { coherence.me ≡ me }
        requires idle { coherence.locked ≡ None }
        requires done { coherence.done ≡ None }
        ensures over { IfOk result (λ m. m ≡ memory_over coherence) }
        ensures memory { IsOkUnless result Fault.Memory }
    {
        Ok(Memory {
            coherence,
            asked: None,
            along: Rest::new(alloc, config.page_size)?,
            number: 0,
            side: HeapSide::new(alloc, config, me)?,
        })
    }

    /// The call in progress.
    pub fn asked(&self) -> Option<Call>
        ensures { result ≡ self.now.asked }
    {
        self.asked
    }

    /// How many messages fitted no rule, up to the greatest number. It takes no memory.
    pub fn breaches(&self) -> u64
        ensures { result ≡ self.now.coherence.breaches }
    {
        self.coherence.breaches()
    }

    #[tactic(auto, unfolding(crate::specs::stated::Memories::call_begun))]
    #[inline(always)]
    /// A call begins, as the one of this number [1, 17, 18]: it is answered at once, or it is in progress from now on.
    ///
    /// Refused with 18 exactly where a call is in progress already. Else only a call that other nodes have to be asked
    /// for, or one that the heap gives a block for, is refused: any other takes no memory, and asks the post nothing. Where
    /// there are more than 256 pages, so may be a word that is the first to be written to its page.
    /// A call that is not refused does begin: it is never Unserved. Where its page is fetched otherwise than its word
    /// needs it, it is in progress, and is tried again.
    /// Node 0 serves the calls of the heap at once, and any other node asks node 0.
    pub fn begin<P: Post>(
        &mut self,
        call: Call,
        number: u64,
        post: &mut P,
    ) -> Result<CallProgress, Fault>
        requires width { HasWidth call }
        requires number { 1 ≤ number }
        requires post { IsPostOf P.ops post.old self.old.coherence.config self.old.coherence.me }
        ensures busy { IsErrOf result Fault.Busy ↔ IsSome self.old.asked }
        ensures unasked { IsSome self.old.asked → post.new ≡ post.old }
        ensures few { length (call_begun M.ops self.old call [] number).posted ≤ most_posted }
        ensures begins { IfOk result (λ answer. answer ≢ CallProgress.Unserved) }
        ensures reply { IfOk result (λ answer. answer ≡ (call_begun M.ops self.old call [] number).answer) }
        ensures ok { OnOk result (self.new ≡ (call_begun M.ops self.old call [] number).after) }
        ensures posted { OnOk result (post.new ≡ P.ops.after post.old (call_begun M.ops self.old call [] number).posted) }
        ensures took { OnOk result (P.ops.takes post.old (call_begun M.ops self.old call [] number).posted) }
        ensures err { OnErr result (self.new ≡ self.old) }
        ensures fault { self.old.asked ≡ None → IfErr result (λ fault.
            (IsCallWant self.old.coherence (asked_of self.old.coherence.config call)
            (call_begun M.ops self.old call [] number).answer fault
            × (post.new ≡ post.old))
            ⊎ HasRefused P.ops post.old post.new
            (call_begun M.ops self.old call [] number).posted fault) }
        ensures sure { self.old.asked ≡ None → OnErr result (CallHasToAsk self.old.coherence call
            ⊎ (CallMayMakePage self.old.coherence call
            ⊎ MayBeRefused (asked_of self.old.coherence.config call)
            (call_begun M.ops self.old call [] number).answer)) }
        ensures want { self.old.asked ≡ None → IfErr result RanOut }
    {
        if self.asked.is_some() {
            return Err(Fault::Busy);
        }
        match asked_of(&self.coherence.config(), call) {
            Asked::Refused(code) => Ok(CallProgress::Given(Reply::Refused(code))),
            Asked::Word { page, word } => match self.coherence.need(page, word, number, post)? {
                Need::Have(out) => match reply_of(out) {
                    Some(reply) => Ok(CallProgress::Given(reply)),
                    None => {
                        self.asked = Some(call);
                        self.number = number;
                        Ok(CallProgress::Awaited)
                    }
                },
                Need::Started => {
                    self.asked = Some(call);
                    self.number = number;
                    Ok(CallProgress::Awaited)
                }
                Need::Fetched => {
                    self.asked = Some(call);
                    self.number = number;
                    Ok(CallProgress::Awaited)
                }
                Need::Busy => Ok(CallProgress::Unserved),
            },
            Asked::Heap(of_heap) => {
                let answer = self.side.begin(self.coherence.me(), of_heap, number, post)?;
                if let CallProgress::Awaited = answer {
                    self.asked = Some(call);
                    self.number = number;
                }
                Ok(answer)
            }
        }
    }

    /// The reply of the call in progress, if node 0 gave it, or if its word waited and was carried out.
    pub(crate) fn reply(&self) -> Option<Reply>
        ensures { result ≡ reply_at self.now }
    {
        match self.side.reply() {
            Some(reply) => Some(reply),
            None => reply_of(self.coherence.answer()?),
        }
    }

    /// The call in progress is over, whose reply is there. The next of those made along with it is in progress then, and its
    /// word was carried out too.
    fn take_out(&mut self)
        requires called { IsSome self.old.asked }
        requires there { IsSome (reply_at self.old) }
        ensures { self.new ≡ taken_out self.old }
    {
        self.side.close();
        let next = self.along.take();
        self.asked = next;
        if next.is_some() {
            let _ = self.coherence.returned_next();
            self.number += 1;
        } else {
            let _ = self.coherence.returned();
        }
    }

    #[tactic(auto, unfolding(crate::specs::stated::Memories::polled))]
    /// The reply of the call in progress [1, 17]: it is there, or the call's word is tried again, under the number of
    /// the call. The call is over with its reply, and the next of those made along with it is in progress.
    ///
    /// Where the word has no answer now either, where its page is fetched otherwise than the word needs it, and where no
    /// call is in progress, nothing changes. Only a word that
    /// other nodes have to be asked for is refused by a fault, or, where there are more than 256 pages, one that is the
    /// first to be written to its page: else it takes no memory, and asks the post nothing.
    pub fn poll_reply<P: Post>(&mut self, post: &mut P) -> Result<CallProgress, Fault>
        requires post { IsPostOf P.ops post.old self.old.coherence.config self.old.coherence.me }
        ensures few { length (polled M.ops self.old).posted ≤ most_posted }
        ensures reply { IfOk result (λ answer. answer ≡ (polled M.ops self.old).answer) }
        ensures ok { OnOk result (self.new ≡ (polled M.ops self.old).after) }
        ensures posted { OnOk result (post.new ≡ P.ops.after post.old (polled M.ops self.old).posted) }
        ensures took { OnOk result (P.ops.takes post.old (polled M.ops self.old).posted) }
        ensures err { OnErr result (self.new ≡ self.old) }
        ensures fault { IfErr result (λ fault.
            (IsWantOfPage self.old.coherence fault × (post.new ≡ post.old))
            ⊎ HasRefused P.ops post.old post.new (polled M.ops self.old).posted fault) }
        ensures sure { OnErr result (MayFailAgain self.old) }
        ensures want { IfErr result RanOut }
    {
        let Some(call) = self.asked else {
            return Ok(CallProgress::Unserved);
        };
        if let Some(reply) = self.reply() {
            self.take_out();
            return Ok(CallProgress::Given(reply));
        }
        if self.coherence.locked().is_some() {
            return Ok(CallProgress::Unserved);
        }
        let Asked::Word { page, word } = asked_of(&self.coherence.config(), call) else {
            return Ok(CallProgress::Unserved);
        };
        match self.coherence.need(page, word, self.number, post)? {
            Need::Have(out) => match reply_of(out) {
                Some(reply) => {
                    let _ = self.coherence.returned();
                    self.side.close();
                    self.along.clear();
                    self.asked = None;
                    Ok(CallProgress::Given(reply))
                }
                None => Ok(CallProgress::Unserved),
            },
            Need::Started => {
                let _ = self.coherence.returned();
                self.side.close();
                self.along.clear();
                Ok(CallProgress::Awaited)
            }
            Need::Busy => Ok(CallProgress::Unserved),
            Need::Fetched => Ok(CallProgress::Unserved),
        }
    }

    /// Where the row of words of 8 bytes at an address begins, unless a call is in progress or no such word of the heap
    /// is at that address.
    #[inline(always)]
    fn row_at(&self, addr: u64) -> Option<RowPlace>
        ensures idle { IfSome result (λ at. self.now.asked ≡ None) }
        ensures at { IfSome result (λ at. IsRowAt self.now.coherence.config addr at) }
        ensures none { IfNone result ((kind : Row) → is_row_at_hand self.now kind addr ≡ false) }
    {
        if self.asked.is_some() {
            return None;
        }
        row_place(&self.coherence.config(), addr)
    }

    /// Loads words of 8 bytes from an address on, whose bytes it copies, and says how many words: as many as `into` has
    /// room for and as lie in the page of the address.
    ///
    /// It loads none where a call is in progress, where the address is not a multiple of 8 or not one of the heap, and
    /// where the page may not be read here: then another node has to be asked, by a call. Each word is what a call that
    /// loads it would be answered at once. It takes no memory, and asks the post nothing.
    #[inline]
    pub fn load_row(&self, addr: u64, into: &mut [u8]) -> usize
        ensures many { result ≡ row_at_hand self.now Loads addr (length into.old) }
        ensures hits { (node : ℕ) → AnswerAtOnce M.ops (row Loads node addr (numbers_in result into.new)) self.now self.now }
        ensures fits { result * 8 ≤ length into.old }
        ensures sized { length into.new ≡ length into.old }
        ensures idle { result ≢ 0 → self.now.asked ≡ None }
        ensures small { result * 8 ≤ 4096 }
    {
        let Some(at) = self.row_at(addr) else {
            return 0;
        };
        self.coherence.load_row(at.page, at.offset, into)
    }

    /// Stores words of 8 bytes from an address on, whose bytes it copies, and says how many words: as many as `from` has
    /// and as lie in the page of the address.
    ///
    /// It stores none where a call is in progress, where the address is not a multiple of 8 or not one of the heap, and
    /// where the page may not be written here: then another node has to be asked, by a call. Where there are more than 256
    /// pages, it stores none either on a page that is not made yet: a call makes it. Each word is stored as a call that
    /// stores it would do at once. It takes no memory, and asks the post nothing.
    #[inline]
    pub fn store_row(&mut self, addr: u64, from: &[u8]) -> usize
        ensures many { IsStored self.old addr (length from.now) result }
        ensures hits { (node : ℕ) → AnswerAtOnce M.ops (row Stores node addr (numbers_in result from.now)) self.old self.new }
        ensures fits { result * 8 ≤ length from.now }
        ensures idle { result ≢ 0 → self.old.asked ≡ None }
        ensures kept { self.new.asked ≡ self.old.asked }
        ensures config { self.new.coherence.config ≡ self.old.coherence.config }
        ensures me { self.new.coherence.me ≡ self.old.coherence.me }
        ensures small { result * 8 ≤ 4096 }
    {
        let Some(at) = self.row_at(addr) else {
            return 0;
        };
        self.coherence.store_row(at.page, at.offset, from)
    }

    /// A message of another node [1, 17]. The bytes of a page that it brings are copied once. That takes no memory, but
    /// where there are more than 256 pages: a page is made then when it first comes or is first written.
    pub fn handle<P: Post>(
        &mut self,
        from: u8,
        message: Message<&[u8]>,
        post: &mut P,
    ) -> Result<(), Fault>
        requires from { from < self.old.coherence.config.nodes }
        requires foreign { from ≢ self.old.coherence.me }
        requires fits { FitsMessage self.old.coherence.config (owned_message message) }
        requires post { IsPostOf P.ops post.old self.old.coherence.config self.old.coherence.me }
        ensures few { length (memory_handled M.ops self.old from (owned_message message.entry)).posted ≤ most_posted }
        ensures ok { OnOk result (self.new ≡ memory_told M.ops self.old from (owned_message message.entry)) }
        ensures posted { OnOk result (post.new ≡ P.ops.after post.old (memory_handled M.ops self.old from (owned_message message.entry)).posted) }
        ensures took { OnOk result (P.ops.takes post.old (memory_handled M.ops self.old from (owned_message message.entry)).posted) }
        ensures err { OnErr result (self.new ≡ self.old) }
        ensures fault { IfErr result (λ fault.
            (IsMessageWant self.old.coherence
            (memory_handled M.ops self.old from (owned_message message.entry)).posted fault
            × (post.new ≡ post.old))
            ⊎ HasRefused P.ops post.old post.new
            (memory_handled M.ops self.old from (owned_message message.entry)).posted fault) }
        ensures want { IfErr result RanOut }
    {
        if self.side.handle(self.coherence.me(), from, &message, post)? {
            return Ok(());
        }
        self.coherence.handle(from, message, post)
    }
}

/// What a call is to the memory of a node.
#[derive(Clone, Copy, Debug, PartialEq, Eq)]
pub enum Asked {
    /// It is refused with this number.
    Refused(u8),
    /// It is this word of this page.
    Word { page: u32, word: Word },
    /// It is this call of the heap.
    Heap(HeapCall),
}

/// Where a row of words of 8 bytes begins: the number of its page, and the place of its first byte there.
#[derive(Clone, Copy, Debug, PartialEq, Eq)]
pub(crate) struct RowPlace {
    pub(crate) page: u32,
    pub(crate) offset: u32,
}

/// The reply that a word carried out gives, if it gives one.
fn reply_of(out: Out) -> Option<Reply>
    ensures { result ≡ reply_of out }
{
    match out {
        Out::Value(value) => Some(Reply::Value(value)),
        Out::Done => Some(Reply::Done),
        Out::Full => Some(Reply::Refused(COUNT_FULL)),
        Out::NotYet => None,
    }
}

/// What a call on an eventcount is, whose word is this: it is refused where there is no such count.
fn count_asked(word: Result<Word, Fault>) -> Asked
    ensures { result ≡ count_asked word }
{
    match word {
        Ok(word) => Asked::Word { page: 0, word },
        Err(fault) => Asked::Refused(fault.number()),
    }
}

/// The page of an address. Pages have a power of two of bytes, so it takes no division.
#[tactic(auto, using(crate::proofs::serving::Placing::page_by_shift))]
#[inline(always)]
fn page_of(config: &Config, addr: u64) -> u64
    requires limits { IsConfig config.now }
    ensures { result ≡ addr / config.now.page_size }
{
    addr >> config.page_size.trailing_zeros()
}

/// The place of an address in its page.
#[tactic(auto, using(crate::proofs::serving::Placing::place_by_mask))]
#[inline(always)]
fn offset_of(config: &Config, addr: u64) -> u32
    requires limits { IsConfig config.now }
    ensures { result ≡ addr % config.now.page_size }
{
    (addr & u64::from(config.page_size - 1)) as u32
}

/// What an access to a word is, which is this one in its page: it is refused, or that word.
#[inline(always)]
fn word_asked(config: &Config, width: u8, addr: u64, word: Word) -> Asked
    requires limits { IsConfig config.now }
    requires width { IsWidth width }
    ensures is { result ≡ word_unless (access_refusal config.now width addr) (addr / config.now.page_size) word }
{
    if let Some(code) = access_refusal(config, width, addr) {
        return Asked::Refused(code);
    }
    let page = page_of(config, addr) as u32;
    Asked::Word { page, word }
}

/// Where the row of words of 8 bytes at an address begins, if a word of the heap is there.
#[inline(always)]
pub(crate) fn row_place(config: &Config, addr: u64) -> Option<RowPlace>
    requires limits { IsConfig config.now }
    ensures at { IfSome result (λ at. IsRowAt config.now addr at) }
    ensures none { IfNone result (is_none (access_refusal config.now 8 addr) ≡ false) }
{
    if access_refusal(config, ROW_WIDTH, addr).is_some() {
        return None;
    }
    Some(RowPlace {
        page: page_of(config, addr) as u32,
        offset: offset_of(config, addr),
    })
}

/// What a call of this kind is.
#[inline(always)]
fn asked_kind(config: &Config, kind: CallKind) -> Asked
    requires limits { IsConfig config.now }
    requires width { HasKindWidth kind }
    ensures is { result ≡ asked_kind config.now kind }
{
    match kind {
        CallKind::Word { width, addr, act } => {
            let word = Word::new(act, width, offset_of(config, addr));
            word_asked(config, width, addr, word)
        }
        CallKind::Count { k } => count_asked(read(config, k)),
        CallKind::Advance { k } => count_asked(advance(config, k)),
        CallKind::Await { k, least } => count_asked(await_at_least(config, k, least)),
        CallKind::Alloc { size } => Asked::Heap(HeapCall::Alloc { size }),
        CallKind::Free { addr } => Asked::Heap(HeapCall::Free { addr }),
    }
}

/// What a call of a legal width is: an access to a word of the heap is the word at its address, and a call on an
/// eventcount is that of the 8 bytes at its place in page 0. It takes no memory.
#[inline(always)]
pub fn asked_of(config: &Config, call: Call) -> Asked
    requires limits { IsConfig config.now }
    requires width { HasWidth call }
    ensures is { result ≡ asked_of config.now call }
{
    asked_kind(config, call.kind())
}
