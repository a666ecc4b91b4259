//! A node with own code, and the string that its owner looked at and has not taken.
ghost use Rattle.std.specs.Prelude.{◌≡◌, ◌≢◌, ◌↔◌, ◌≤◌, ◌⊎◌, ◌-◌, ◌*◌, ◌/◌, ◌%◌, ◌∷◌, [], ◌<◌, None, Some, Ok, Err, true, false, take, length, slice_get, OnOk, OnErr, IfOk, IfErr, IsTrue, IsFalse, MatchOption, MatchResult, IsOkUnless};
ghost use Rattle.ivy_model.specs.stated.Config.{IsConfig};
ghost use Rattle.ivy_model.specs.stated.Legal.{HasWidth};
ghost use Rattle.ivy_model.specs.Rows.{calls_of, numbers_in, row};
ghost use Rattle.ivy_model.specs.declared.Row.TheVariants.{Loads, Stores};
ghost use Rattle.ivy_model.specs.Wants.{RanOut};
ghost use Rattle.ivy_moves.specs.stated.Nodes.{pulsing};
ghost use Rattle.ivy_program.specs.OwnCode.{IsFree};
ghost use Rattle.ivy_memory.specs.AtOnce.{IsStored, row_at_hand};
ghost use Rattle.ivy_memory.specs.BatchedReplies.{left_in};
ghost use Rattle.ivy_site.specs.Calls.{AreAnswered, AreTaken, BeginsCall, BeginsRow, MayCallInRow, MayCallTogether, MayTakeRow, row_together};
ghost use Rattle.ivy_site.specs.SiteView.{after_pulse_to};
ghost use Rattle.ivy_site.specs.Handed.{site_handed};
ghost use Rattle.ivy_site.specs.Sites.{AfterDelivery, IsSpentTurn};
ghost use Rattle.ivy_wire.specs.stated.DecodeErrors.{checked};
ghost use Rattle.ivy_embedded.specs.Taking.{IsTaken};
ghost use Rattle.ivy_embedded.specs.Nodes.{first_embedded, opened_embedded, waiting_in};
ghost use Rattle.ivy_embedded.specs.Exports.{AfterCall, AfterBegin, ChangesWaiting, IsBeginFault, IsReady, MayBegin, OfSite};
ghost use Rattle.ivy_embedded.specs.Turns.{CountsTurns};
ghost use Rattle.ivy_embedded.specs.Peers.{AreThose, KeepsFor, OwesTo};
ghost use Rattle.ivy_embedded.specs.Lending.{IsWanted, LendsSoundly, WaitsFor, access_to, is_had, is_more, lending_at, may_call, page_asked, row_lending};
ghost use Rattle.ivy_embedded.specs.Blocks.{HasWords, NoneIsRead};
ghost use Rattle.ivy_embedded.specs.Lends.{DeliversFar, GoesOnBy, IsDeliveryRefusal, IsRowRefusal, MayLend, RefusesLending, StopsAt, WentOn, with_lending};
ghost use Rattle.ivy_embedded.specs.declared.lending.Want.{Want};
ghost use Rattle.ivy_embedded.specs.declared.lending.Lending.TheVariants.{Unlent, ToRead, ToWrite};
ghost use Rattle.ivy_link.specs.Holding.{ready_of};
ghost use Rattle.ivy_memory.specs.stated.Asking.{asked_of};
ghost use Rattle.ivy_site.specs.SiteView.{holding_at};
ghost use Rattle.ivy_pagetable.specs.stated.NodeSets.{nodes_with};

use crate::lending::{
    Lending, Lendings, Want, is_more, left_for, permits, permits_row, suffices_for,
};
use crate::peers::{Kept, Owed, peers_of};
use ivy_link::MOST_AHEAD;
use ivy_memory::{Asked, asked_of};
use ivy_model::{Call, Config, Fault, Reply, Row};
use ivy_site::{Keep, Opening, Site, Turn, Verdict};
use ivy_wire::{Bytes, destination};
use std::alloc::Global;
use std::marker::Model;

/// A node with own code, with the first string that waits, where it was taken out of the node and
/// not handed on, and the number of its turns that were listed. A program that keeps a log tells by
/// that number whether a call had a turn.
///
/// Its pages may be lent to its program, which then touches images of them by itself: no string takes
/// a page that is lent.
#[derive(Drop)]
pub struct Embedded {
    pub(crate) site: Site<Global>,
    first: Option<Bytes<Global>>,
    pub(crate) turns: u64,
    pub(crate) lendings: Lendings,
    /// The page of which the calls are that have no reply yet; the first one, where they are of none.
    waits_at: u32,
}

impl Model for Embedded {
    ghost use Rattle.ivy_embedded.specs.Nodes as nodes;
    ghost use Rattle.std.specs.Coded.{codes};
    ghost use Rattle.ivy_pagetable.specs.stated.NodeSets.{nodes_code};
    ghost use Rattle.ivy_alloc.specs.Heap.{heap_state_code};
    ghost use Rattle.ivy_embedded.specs.Turns.{CountsTurns};

    ghost Value = { nodes.Embedded };

    ghost coded = { Prim.hlevel (codes, nodes_code, heap_state_code) };

    ghost use Rattle.ivy_embedded.specs.Calls.{IsLender};

    ghost view = { λ e. record { site = e.site; first = e.first; lent = e.lendings } };

    ghost invariant = { λ e. CountsTurns e.turns e.site.events × IsLender e.site e.lendings e.waits_at };
}

/// What came of a look at the first string that waits.
pub enum TakenString {
    /// It was written out: its length, and the node that it is for.
    Given(usize, u8),
    /// It is so long, which is longer than the buffer.
    TooLong(usize),
    /// None waits.
    Nothing,
}

/// Why a node does not do what it is asked for.
#[derive(Clone, Copy, Debug, PartialEq, Eq)]
pub enum Declined {
    /// By this fault.
    Fault(Fault),
    /// The page of the call, or of the block, is lent.
    Lent,
    /// The string would take this page, which is lent.
    Wanted(Want),
    /// The page is not here, or not here to be written, or a call waits for it.
    NotHere,
    /// No page can be lent, given back or fetched so.
    NoSuchLending,
}

/// One turn of a node that has a call [1, 17]: its reply, or none yet. Where it is listed, it is
/// counted.
#[tactic(auto, using(crate::proofs::Recording::turned, crate::proofs::Counting::counted_turn))]
fn turn(site: &mut Site<Global>, turns: &mut u64) -> Result<Option<Reply>, Fault>
    requires counts { CountsTurns turns.old site.old.events }
    ensures counted { CountsTurns turns.new site.new.events }
    ensures done { MatchResult result (λ progress. AfterCall progress site.old site.new) (λ _. site.new ≡ site.old) }
    ensures want { IfErr result RanOut }
{
    match site.poll()? {
        (Turn::Idle | Turn::Ended, _) => Ok(None),
        (Turn::Moved, reply) => {
            *turns = turns.wrapping_add(1);
            Ok(reply)
        }
    }
}

/// A call begins at a node that has none [1, 18]: its reply, or none yet. A call whose first turn is
/// refused is in progress: the next turn tries again.
#[tactic(auto, using(crate::proofs::Recording::begun))]
fn begin(site: &mut Site<Global>, turns: &mut u64, call: Call) -> Result<Option<Reply>, Fault>
    requires width { HasWidth call }
    requires counts { CountsTurns turns.old site.old.events }
    ensures counted { CountsTurns turns.new site.new.events }
    ensures done { MatchResult result (λ progress. AfterBegin call progress site.old site.new) (λ _. site.new ≡ site.old) }
    ensures free { IfOk result (λ _. IsFree site.old.node.core.process) }
    ensures refused { IfErr result (λ fault. IsBeginFault fault site.old) }
{
    if !site.is_free() {
        return Err(Fault::Busy);
    }
    match site.call(call) {
        Ok(progress) => {
            *turns = turns.wrapping_add(1);
            Ok(progress)
        }
        Err(_) => {
            site.hand(call)?;
            Ok(None)
        }
    }
}

/// Makes a call. Each arm is compiled for its kind of call, so that the most frequent ones take no further look at it.
#[inline(always)]
fn make_call(site: &mut Site<Global>, call: Call) -> Result<Option<Reply>, Fault>
    requires width { HasWidth call }
    ensures done { MatchResult result (λ reply. BeginsCall call reply site.old site.new) (λ _. site.new ≡ site.old) }
{
    match call {
        Call::Load { width: 8, addr } => site.call_in_place(Call::Load { width: 8, addr }),
        Call::Store {
            width: 8,
            addr,
            value,
        } => site.call_in_place(Call::Store {
            width: 8,
            addr,
            value,
        }),
        other => site.call_in_place(other),
    }
}

/// What [`begin`] does at a node that has none [1], compiled in its caller.
#[tactic(auto, using(crate::proofs::Recording::begun))]
#[inline(always)]
fn begin_in_place(
    site: &mut Site<Global>,
    turns: &mut u64,
    call: Call,
) -> Result<Option<Reply>, Fault>
    requires width { HasWidth call }
    requires free { IsFree site.old.node.core.process }
    requires counts { CountsTurns turns.old site.old.events }
    ensures counted { CountsTurns turns.new site.new.events }
    ensures done { MatchResult result (λ progress. AfterBegin call progress site.old site.new) (λ _. site.new ≡ site.old) }
    ensures memory { IsOkUnless result Fault.Memory }
{
    match make_call(site, call) {
        Ok(progress) => {
            *turns = turns.wrapping_add(1);
            Ok(progress)
        }
        Err(_) => {
            site.hand(call)?;
            Ok(None)
        }
    }
}

/// The page whose word is asked for; else the first one.
fn page_asked(asked: Asked) -> u32
    ensures { result ≡ page_asked asked }
{
    match asked {
        Asked::Word { page, .. } => page,
        Asked::Refused(_) | Asked::Heap(_) => 0,
    }
}

/// The page of which a call is a word at this site; else the first one.
fn page_called(site: &Site<Global>, call: Call) -> u32
    requires { HasWidth call }
    ensures { result ≡ page_asked (asked_of site.now.config call) }
{
    page_asked(asked_of(&site.config(), call))
}

/// Makes a page that is to be lent to be written, so that keeping what was written takes no memory [1].
fn make_for(site: &mut Site<Global>, page: u32, to: Lending) -> Result<(), Fault>
    requires { page < site.old.config.pages }
    ensures same { site.new ≡ site.old }
    ensures memory { IfErr result (λ fault. (fault ≡ Fault.Memory) × (to ≡ ToWrite)) }
{
    if to != Lending::ToWrite {
        return Ok(());
    }
    site.make_page(page)
}

/// Writes a string to the head of a buffer, where it fits, and says whether it does.
fn write_out(string: &[u8], buffer: &mut [u8]) -> bool
    ensures fits { IsTrue result → take (length string.now) buffer.new ≡ string.now }
    ensures none { IsFalse result → length buffer.new < length string.now }
{
    let len = string.len();
    if buffer.len() < len {
        return false;
    }
    buffer[..len].copy_from_slice(string);
    true
}

/// The verdict, or the fault as a refusal.
fn told(delivered: Result<Verdict, Fault>) -> Result<Verdict, Declined>
    ensures { MatchResult delivered (λ verdict. result ≡ Ok verdict) (λ fault. result ≡ Err (Declined.Fault fault)) }
{
    match delivered {
        Ok(verdict) => Ok(verdict),
        Err(fault) => Err(Declined::Fault(fault)),
    }
}

impl Embedded {
    /// A node that has made no call yet [1]. The configuration is within its limits, and `me` is
    /// one of its nodes.
    pub fn open(alloc: Global, config: &Config, me: u8) -> Result<Embedded, Fault>
        requires limits { IsConfig config.now }
        requires here { me < config.now.nodes }
        ensures first { IfOk result (λ e. e ≡ first_embedded config.now me) }
        ensures memory { IsOkUnless result Fault.Memory }
    {
        Embedded::open_by(alloc, config, me, Opening::Configured)
    }

    /// The same, of a node that begins so [1]: by the manager that the configuration names, or by steady hints. All nodes
    /// of a run begin alike.
    pub fn open_by(
        alloc: Global,
        config: &Config,
        me: u8,
        opening: Opening,
    ) -> Result<Embedded, Fault>
        requires limits { IsConfig config.now }
        requires here { me < config.now.nodes }
        ensures first { IfOk result (λ e. e ≡ opened_embedded opening config.now me) }
        ensures memory { IsOkUnless result Fault.Memory }
    {
        Ok(Embedded {
            site: Site::open_by(alloc, config, me, opening, Keep::Nothing)?,
            first: None,
            turns: 0,
            lendings: Lendings::new(alloc, config.pages)?,
            waits_at: 0,
        })
    }

    /// What the call is to the memory: refused, a word of a page, or a call of the heap.
    fn asked(&self, call: Call) -> Asked
        requires { HasWidth call }
        ensures { result ≡ asked_of self.now.site.config call }
    {
        asked_of(&self.site.config(), call)
    }

    /// Whether a call may be made, as its page is lent.
    fn may_call(&self, call: Call) -> bool
        requires { HasWidth call }
        ensures { result ≡ may_call self.now call }
    {
        let config = self.site.config();
        match asked_of(&config, call) {
            Asked::Word { page, word } => permits(self.lendings.of(page), word),
            Asked::Refused(_) | Asked::Heap(_) => true,
        }
    }

    /// The page of an address. Pages have a power of two of bytes, so it takes no division.
    #[tactic(auto, using(crate::proofs::Unlent::page_by_shift))]
    #[inline(always)]
    fn page_of(&self, addr: u64) -> u64
        ensures { result ≡ addr / self.now.site.config.page_size }
    {
        addr >> self.site.config().page_size.trailing_zeros()
    }

    /// The bytes for which the page of an address has room, from there on.
    #[tactic(auto, using(crate::proofs::Stored::room_by_mask))]
    fn inside_page<'a>(&self, addr: u64, bytes: &'a [u8]) -> &'a [u8]
        ensures { result.now ≡ take (self.now.site.config.page_size - addr % self.now.site.config.page_size) bytes.now }
    {
        let size = u64::from(self.site.config().page_size);
        let room = (size - (addr & (size - 1))) as usize;
        if bytes.len() <= room {
            return bytes;
        }
        &bytes[..room]
    }

    /// What the page is lent for at which a row of words of 8 bytes begins, if a word of the heap is at the address.
    fn row_lending(&self, addr: u64) -> Lending
        ensures { result ≡ row_lending self.now addr }
    {
        match self.asked(Call::Load { width: 8, addr }) {
            Asked::Word { page, .. } => self.lendings.at(page),
            Asked::Refused(_) | Asked::Heap(_) => Lending::Unlent,
        }
    }

    /// Whether a call may not be made, as its page is lent, where each before has its reply.
    pub fn is_lent(&self, call: Call) -> bool
        requires width { HasWidth call }
        ensures yes { IsTrue result → IsFree self.now.site.node.core.process × (may_call self.now call ≡ false) }
        ensures no { IsFalse result → IsFree self.now.site.node.core.process → may_call self.now call ≡ true }
    {
        self.site.is_free() && !self.may_call(call)
    }

    /// Whether each call has its reply, and no page is lent, or not the one of this address. Then a call of this address may
    /// be made, and one that names another number there: a hit asks no more.
    #[tactic(auto, using(crate::proofs::Unlent::begins))]
    #[inline(always)]
    pub fn is_ready(&self, place: u64) -> bool
        ensures yes { IsTrue result → IsReady place self.now }
        ensures no { IsFalse result → IsReady place self.now → ⊥ }
        ensures may { IsTrue result → MayBegin place self.now }
    {
        self.site.is_free() && (self.lendings.is_none() || !self.lendings.has(self.page_of(place)))
    }

    /// Hands in a call, and begins it, as [`begin`] says [1, 18]. Its page is not lent, or so that it may be made.
    pub fn begin(&mut self, call: Call) -> Result<Option<Reply>, Fault>
        requires width { HasWidth call }
        requires may { IsFree self.old.site.node.core.process → may_call self.old call ≡ true }
        ensures done { MatchResult result (λ progress. OfSite (AfterBegin call progress) self.old self.new) (λ _. self.new ≡ self.old) }
        ensures free { IfOk result (λ _. IsFree self.old.site.node.core.process) }
        ensures refused { IfErr result (λ fault. IsBeginFault fault self.old.site) }
    {
        self.site.sound();
        match begin(&mut self.site, &mut self.turns, call) {
            Ok(Some(reply)) => Ok(Some(reply)),
            Ok(None) => {
                self.waits_at = page_called(&self.site, call);
                Ok(None)
            }
            Err(fault) => Err(fault),
        }
    }

    /// What [`Embedded::begin`] does where each call before has its reply [1], compiled in its caller.
    #[inline(always)]
    pub fn begin_ready(&mut self, asked: Call) -> Result<Option<Reply>, Fault>
        requires width { HasWidth asked }
        requires free { IsFree self.old.site.node.core.process }
        requires may { may_call self.old asked ≡ true }
        ensures done { MatchResult result (λ progress. OfSite (AfterBegin asked progress) self.old self.new) (λ _. self.new ≡ self.old) }
        ensures memory { IsOkUnless result Fault.Memory }
    {
        self.site.sound();
        match begin_in_place(&mut self.site, &mut self.turns, asked) {
            Ok(Some(reply)) => Ok(Some(reply)),
            Ok(None) => {
                self.waits_at = page_called(&self.site, asked);
                Ok(None)
            }
            Err(fault) => Err(fault),
        }
    }

    /// Whether each call has its reply.
    pub fn is_free(&self) -> bool
        ensures { IsTrue result ↔ IsFree self.now.site.node.core.process }
    {
        self.site.is_free()
    }

    /// Asks the call in progress for its reply [1, 17].
    pub fn poll(&mut self) -> Result<Option<Reply>, Fault>
        ensures done { MatchResult result (λ progress. OfSite (AfterCall progress) self.old self.new) (λ _. self.new ≡ self.old) }
        ensures want { IfErr result RanOut }
    {
        self.site.sound();
        turn(&mut self.site, &mut self.turns)
    }

    /// Loads words of 8 bytes in a row from an address on into the head of the buffer, each in a turn of its own, and says
    /// how many: as many as the buffer has room for, as lie in the page of the address, and as can be read here at once.
    /// Where it loads none nothing was done, and [`Embedded::begin`] loads the first word or says what is wrong with it.
    pub fn load_row(&mut self, addr: u64, into: &mut [u8]) -> usize
        ensures many { MayCallInRow self.old.site addr (length into.old) → result ≡ row_at_hand self.old.site.node.core.memory Loads addr (length into.old) }
        ensures loads { OfSite (AreAnswered (row Loads self.old.site.me addr (numbers_in result into.new))) self.old self.new }
        ensures words { HasWords addr result into.new self.new }
        ensures fits { 8 * result ≤ length into.new }
        ensures sized { length into.new ≡ length into.old }
        ensures waiting { waiting_in self.new ≡ waiting_in self.old }
    {
        if !self.site.is_free() {
            return 0;
        }
        self.site.sound();
        let words = self.site.load_row(addr, into);
        self.turns = self.turns.wrapping_add(words as u64);
        words
    }

    /// Stores the words of 8 bytes of the buffer in a row from an address on, each in a turn of its own, and says how many,
    /// as [`Embedded::load_row`] does: as many as can be written here at once. Where the page of the address is lent to be
    /// read, nothing was done.
    pub fn store_row(&mut self, addr: u64, from: &[u8]) -> Result<usize, Declined>
        ensures many { MayCallInRow self.old.site addr (length from.now) → IfOk result (IsStored self.old.site.node.core.memory addr (length from.now)) }
        ensures stores { MatchResult result (λ n. OfSite (AreAnswered (row Stores self.old.site.me addr (numbers_in n from.now))) self.old self.new) (λ _. self.new ≡ self.old) }
        ensures fits { IfOk result (λ n. 8 * n ≤ length from.now) }
        ensures waiting { waiting_in self.new ≡ waiting_in self.old }
        ensures refused { IfErr result (λ why. (why ≡ Declined.Lent) × IsFree self.old.site.node.core.process × (row_lending self.old addr ≡ ToRead)) }
        ensures lent { IsFree self.old.site.node.core.process → row_lending self.old addr ≡ ToRead → result ≡ Err Declined.Lent }
        ensures unread { IfOk result (NoneIsRead self.old addr) }
        ensures words { IfOk result (λ n. HasWords addr n from.now self.new) }
    {
        if !self.site.is_free() {
            return Ok(0);
        }
        if !self.lendings.is_none() && !permits_row(self.row_lending(addr), Row::Stores) {
            return Err(Declined::Lent);
        }
        self.site.sound();
        let inside = self.inside_page(addr, from);
        let words = self.site.store_row(addr, inside);
        self.turns = self.turns.wrapping_add(words as u64);
        Ok(words)
    }

    /// Makes the calls of words of 8 bytes in a row together, from an address on, with one turn, in which the first begins
    /// and waits [1, 17]: as many as `words`, as there are bytes for, and as lie in the page of the address. It says how many.
    /// Where that is none nothing was done, as where the first need not wait. A refused row was not made; so it is where the
    /// page of the address is lent.
    /// [`Embedded::take_loads`] and [`Embedded::take_stores`] take the replies at once, [`Embedded::poll`] one after another.
    pub fn call_row(
        &mut self,
        kind: Row,
        addr: u64,
        words: usize,
        bytes: &[u8],
    ) -> Result<usize, Declined>
        ensures done { MatchResult result (λ n. OfSite (BeginsRow (calls_of (row kind 0 addr (numbers_in n bytes.now)))) self.old self.new) (λ _. self.new ≡ self.old) }
        ensures many { MayCallTogether self.old.site.node.core.process self.old.site.node.core.history addr (length bytes.now) → IfOk result (λ n. n ≡ row_together self.old.site kind addr words (length bytes.now)) }
        ensures none { row_together self.old.site kind addr words (length bytes.now) ≡ 0 → row_lending self.old addr ≡ Unlent → result ≡ Ok 0 }
        ensures busy { (MayCallTogether self.old.site.node.core.process self.old.site.node.core.history addr (length bytes.now) → ⊥) → IfOk result (λ n. n ≡ 0) }
        ensures fits { IfOk result (λ n. (n ≤ words) × (8 * n ≤ length bytes.now)) }
        ensures refused { IfErr result (λ why. IsRowRefusal why kind addr words bytes.now self.old) }
        ensures lent { IsFree self.old.site.node.core.process → row_lending self.old addr ≢ Unlent → result ≡ Err Declined.Lent }
    {
        if !self.site.is_free() {
            return Ok(0);
        }
        if !self.lendings.is_none() && self.row_lending(addr) != Lending::Unlent {
            return Err(Declined::Lent);
        }
        self.site.sound();
        match self.site.call_row(kind, addr, words, bytes) {
            Ok(begun) => {
                if begun > 0 {
                    self.turns = self.turns.wrapping_add(1);
                    self.waits_at = page_called(&self.site, Call::Load { width: 8, addr });
                }
                Ok(begun)
            }
            Err(fault) => Err(Declined::Fault(fault)),
        }
    }

    /// Takes the replies to loads in a row from an address on, which are in progress, made together or one alone, each in a
    /// turn of its own, and writes their words to the head of the buffer: all of them, where they are there and the buffer
    /// has room, and it says how many. Else it takes none, and nothing was done.
    pub fn take_loads(&mut self, addr: u64, into: &mut [u8]) -> usize
        ensures many { MayTakeRow Loads addr into.old self.old.site → result ≡ left_in self.old.site.node.core.memory }
        ensures taken { OfSite (AreTaken (row Loads self.old.site.me addr (numbers_in result into.new))) self.old self.new }
        ensures fits { 8 * result ≤ length into.new }
        ensures sized { length into.new ≡ length into.old }
        ensures rests { result ≢ 0 → self.new.site.node.core.memory.asked ≡ None }
        ensures waiting { waiting_in self.new ≡ waiting_in self.old }
    {
        self.site.sound();
        let words = self.site.take_loads(addr, into);
        self.turns = self.turns.wrapping_add(words as u64);
        words
    }

    /// Takes the replies to stores of the words of the buffer in a row from an address on, as [`Embedded::take_loads`] does.
    pub fn take_stores(&mut self, addr: u64, from: &[u8]) -> usize
        ensures many { MayTakeRow Stores addr from.now self.old.site → result ≡ left_in self.old.site.node.core.memory }
        ensures taken { OfSite (AreTaken (row Stores self.old.site.me addr (numbers_in result from.now))) self.old self.new }
        ensures fits { 8 * result ≤ length from.now }
        ensures rests { result ≢ 0 → self.new.site.node.core.memory.asked ≡ None }
        ensures waiting { waiting_in self.new ≡ waiting_in self.old }
    {
        self.site.sound();
        let words = self.site.take_stores(addr, from);
        self.turns = self.turns.wrapping_add(words as u64);
        words
    }

    /// How many turns the node listed since it was opened, in 64 bits: a call of [`Embedded::begin`] or
    /// [`Embedded::poll`] had one turn, or none, a row that is carried out or whose replies are taken one for each of its
    /// words, a row that begins one, and [`Embedded::fetch`] one where it asks for a page.
    pub fn turns(&self) -> u64
        ensures { CountsTurns result self.now.site.events }
    {
        self.turns
    }

    /// Which page that is lent a string would take, were it delivered now, and what that may be lent for after it.
    pub fn wanted(&self, bytes: &[u8]) -> Option<Want>
        ensures { MatchOption result ((want : Want) → IsWanted self.now bytes.now want → ⊥) (IsWanted self.now bytes.now) }
    {
        if self.lendings.is_none() {
            return None;
        }
        self.site.sound();
        match self.site.leaves(bytes) {
            Some(left) => {
                let on = left_for(left.access);
                if !is_more(self.lendings.at(left.page), on) {
                    return None;
                }
                Some(Want {
                    page: left.page,
                    on,
                })
            }
            None => None,
        }
    }

    /// Goes on with the string that is held of the next number from a node, unless it would take a page that is lent [1, 17].
    /// It says whether there was one.
    fn go_on_once(&mut self, from: u8) -> Result<bool, Declined>
        requires from { from < self.old.site.config.nodes }
        ensures done { MatchResult result (λ went. IsTrue went → GoesOnBy from self.old self.new) (λ _. self.new ≡ self.old) }
        ensures none { result ≡ Ok false → (self.new ≡ self.old) × (ready_of (holding_at self.old.site) from ≡ None) }
        ensures refused { IfErr result (λ why. StopsAt why from self.old) }
        ensures config { self.new.site.config ≡ self.old.site.config }
    {
        let Some(string) = self.site.ready(from) else {
            return Ok(false);
        };
        match self.wanted(string.bytes()) {
            Some(next) => Err(Declined::Wanted(next)),
            None => {
                self.site.sound();
                match self.site.go_on_with(from) {
                    Ok(string) => Ok(string.is_some()),
                    Err(fault) => Err(Declined::Fault(fault)),
                }
            }
        }
    }

    /// Goes on with the strings of another node that are held and due, each by the whole rule of a delivery, up to one that
    /// would take a page that is lent, or is refused [1, 17]. Those before it were served.
    pub fn go_on(&mut self, from: u8) -> Result<(), Declined>
        requires from { from < self.old.site.config.nodes }
        ensures done { WentOn from result self.old self.new }
    {
        for _ in 0..MOST_AHEAD {
            match self.go_on_once(from) {
                Ok(went) => {
                    if !went {
                        return Ok(());
                    }
                }
                Err(refusal) => return Err(refusal),
            }
        }
        Ok(())
    }

    /// A string comes, as [`Embedded::deliver`] says, that takes no page that is lent.
    fn deliver_past(&mut self, bytes: &[u8]) -> Result<Verdict, Fault>
        requires { (want : Want) → IsWanted self.old bytes.now want → ⊥ }
        ensures done { MatchResult result (λ verdict. OfSite (AfterDelivery bytes.now verdict) self.old self.new) (λ _. self.new ≡ self.old) }
        ensures far { IfOk result (λ verdict. DeliversFar bytes.now verdict self.old self.new) }
        ensures refused { MatchResult (checked self.old.site.config bytes.now) (λ _. IfErr result RanOut) (λ fault. result ≡ Err fault) }
    {
        self.site.sound();
        let (verdict, from) = self.site.deliver_once(bytes)?;
        if verdict != Verdict::Next {
            return Ok(verdict);
        }
        let _ = self.go_on(from);
        Ok(verdict)
    }

    /// A string comes, any bytes at all [1, 11 to 17]. One that would take a page that is lent is refused, and changes
    /// nothing. After the next one of its source the node goes on, as [`Embedded::go_on`] does, and no less far.
    pub fn deliver(&mut self, bytes: &[u8]) -> Result<Verdict, Declined>
        ensures done { MatchResult result (λ verdict. OfSite (AfterDelivery bytes.now verdict) self.old self.new) (λ _. self.new ≡ self.old) }
        ensures far { IfOk result (λ verdict. DeliversFar bytes.now verdict self.old self.new) }
        ensures wanted { (want : Want) → IsWanted self.old bytes.now want → result ≡ Err (Declined.Wanted want) }
        ensures refused { IfErr result (λ why. IsDeliveryRefusal why bytes.now self.old) }
        ensures fault { IfErr (checked self.old.site.config bytes.now) (λ fault. result ≡ Err (Declined.Fault fault)) }
    {
        self.site.sound();
        match self.wanted(bytes) {
            Some(want) => Err(Declined::Wanted(want)),
            None => told(self.deliver_past(bytes)),
        }
    }

    /// Whether a page is here to be lent so: the access to it is enough, no word waits there, and no call without a reply is
    /// of it.
    fn is_here(&self, page: u32, to: Lending) -> bool
        requires there { page < self.now.site.config.pages }
        requires first { 0 < page }
        requires lent { to ≢ Unlent }
        ensures yes { IsTrue result → (is_had (access_to self.now page) to ≡ true) × (WaitsFor self.now page → ⊥) }
        ensures no { IsFalse result → (is_had (access_to self.now page) to ≡ false) ⊎ WaitsFor self.now page }
    {
        if !self.site.is_free() && self.waits_at == page {
            return false;
        }
        match self.site.access(page) {
            Some(access) => suffices_for(access, to),
            None => false,
        }
    }

    /// Lends a page to the program of the node: no string takes it from now on [1]. A page that is lent to be written is made.
    pub fn lend(&mut self, page: u32, to: Lending) -> Result<(), Declined>
        ensures done { OnOk result (MayLend self.old page to × (self.new ≡ with_lending self.old page to)) }
        ensures same { OnErr result (self.new ≡ self.old) }
        ensures refused { IfErr result (λ why. RefusesLending why page to self.old) }
    {
        let config = self.site.config();
        if page == 0 || page >= config.pages || !is_more(to, self.lendings.at(page)) {
            return Err(Declined::NoSuchLending);
        }
        if !self.is_here(page, to) {
            return Err(Declined::NotHere);
        }
        if let Err(fault) = make_for(&mut self.site, page, to) {
            return Err(Declined::Fault(fault));
        }
        self.lendings.set(page, to);
        Ok(())
    }

    /// Gives a page back, but for what it is lent on for.
    pub fn give_back(&mut self, page: u32, on: Lending) -> Result<(), Declined>
        ensures done { OnOk result ((is_more (lending_at self.old page) on ≡ true) × (self.new ≡ with_lending self.old page on)) }
        ensures same { OnErr result (self.new ≡ self.old) }
        ensures refused { IfErr result (λ why. (why ≡ Declined.NoSuchLending) × (is_more (lending_at self.old page) on ≡ false)) }
    {
        if !is_more(self.lendings.at(page), on) {
            return Err(Declined::NoSuchLending);
        }
        self.lendings.set(page, on);
        Ok(())
    }

    /// What holds of the pages that are lent.
    #[tactic(auto, using(crate::proofs::Lenders::soundly))]
    #[inline(always)]
    pub fn lends_soundly(&self)
        ensures { LendsSoundly self.now }
    {
        // for the proof: what holds of every value of this type.
        let _ = &self.turns;
    }

    /// Whether there is such another node.
    pub fn is_peer(&self, to: u8) -> bool
        ensures yes { IsTrue result → (to < self.now.site.config.nodes) × (to ≢ self.now.site.me) }
        ensures no { IsFalse result → (self.now.site.config.nodes ≤ to) ⊎ (to ≡ self.now.site.me) }
    {
        to < self.site.config().nodes && to != self.site.me()
    }

    /// A pulse to another node [1].
    pub fn pulse(&mut self, to: u8) -> Result<(), Fault>
        requires to { to < self.old.site.config.nodes }
        requires other { to ≢ self.old.site.me }
        ensures done { MatchResult result (λ _. OfSite (λ old new. new ≡ after_pulse_to old to (pulsing old.node to)) self.old self.new) (λ _. self.new ≡ self.old) }
        ensures memory { IsOkUnless result Fault.Memory }
    {
        self.site.pulse(to)
    }

    /// The nodes for which some message is not acknowledged yet, so that a pulse makes it again, as the bits of a number.
    pub fn kept_set(&self) -> u32
        ensures { AreThose (KeepsFor self.now.site) self.now.site.config.nodes (nodes_with result) }
    {
        let config = self.site.config();
        peers_of::<Kept>(&self.site, config.nodes).bits()
    }

    /// The nodes to which an acknowledgement is owed, which a pulse or the next message makes, as the bits of a number.
    pub fn owed_set(&self) -> u32
        ensures { AreThose (OwesTo self.now.site) self.now.site.config.nodes (nodes_with result) }
    {
        let config = self.site.config();
        peers_of::<Owed>(&self.site, config.nodes).bits()
    }

    /// Takes the first string that waits out of the node, where none is taken out.
    fn look(&mut self)
        ensures waiting { waiting_in self.new ≡ waiting_in self.old }
        ensures node { ChangesWaiting self.old self.new }
        ensures lent { self.new.lent ≡ self.old.lent }
        ensures none { self.new.first ≡ None → waiting_in self.new ≡ [] }
    {
        if self.first.is_none() {
            self.first = self.site.take_frame();
        }
    }

    /// The first string that waits is written to the head of the buffer, where it fits, and waits
    /// no more.
    pub fn take_into(&mut self, buffer: &mut [u8]) -> TakenString
        ensures taken { IsTaken result buffer.new self.old self.new }
        ensures lent { self.new.lent ≡ self.old.lent }
    {
        self.look();
        let Some(string) = &self.first else {
            return TakenString::Nothing;
        };
        let len = string.bytes().len();
        if !write_out(string.bytes(), buffer) {
            return TakenString::TooLong(len);
        }
        let dest = destination(string.bytes()).unwrap_or(0);
        self.first = None;
        TakenString::Given(len, dest)
    }
}
