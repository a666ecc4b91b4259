//! A site that is seated at an ether, and its turns on the wire with the pulses that are due.
ghost use Rattle.std.specs.Prelude.{◌≡◌, ◌≢◌, ◌↔◌, ◌*◌, ◌<◌, ◌≤◌, [], ◌∷◌, ◌++◌, false, true, Ok, Err, None, Contains, IsTrue, MatchBool, MatchOption, MatchResult, IfOk, IfErr, IfSome, IsSome, IsOkUnless, OnOk, OnErr, length};
ghost use Rattle.ivy_model.specs.Rows.{calls_of, numbers_in, row};
ghost use Rattle.ivy_model.specs.Wants.{RanOut};
ghost use Rattle.ivy_model.specs.stated.Legal.{HasWidth};
ghost use Rattle.ivy_wire.specs.stated.DecodeErrors.{checked};
ghost use Rattle.ivy_link.specs.Outboxes.{next_dest};
ghost use Rattle.ivy_memory.specs.AtOnce.{IsStored, row_at_hand};
ghost use Rattle.ivy_program.specs.OwnCode.{IsFree};
ghost use Rattle.ivy_program.specs.Programs.{one_by_one};
ghost use Rattle.ivy_program.specs.InstructionSteps.{HasEnded};
ghost use Rattle.ivy_moves.specs.stated.Nodes.{pulsing, verdict_of};
ghost use Rattle.ivy_site.specs.Calls.{AfterFetch, AreAnswered, AreTaken, BeginsCall, BeginsRow, MayCallInRow, MayCallTogether, RecordsReply, row_together};
ghost use Rattle.ivy_site.specs.Handed.{site_fetching, site_handed};
ghost use Rattle.ivy_site.specs.SiteView.{after_pulse_to};
ghost use Rattle.ivy_site.specs.Sites.{AfterTurn, AfterDelivery, IsSpentTurn, IsSpentDelivery};
ghost use Rattle.ivy_ether.specs.Views.{with_all_handed, with_handed, with_page};
ghost use Rattle.ivy_workers.specs.Stops.{IsStop};
ghost use Rattle.ivy_seating.specs.Places.{place, IsSeated, IsFreshSeat, KeepsSeat, IsInRun};
ghost use Rattle.ivy_seating.specs.Wire.{AfterWire, Drains, RefusesString, IsPutFor, IsNextOther, pass_after_putting, pass_after_refusing, pass_after_taking, pass_after_looking};
ghost use Rattle.ivy_seating.specs.Turns.{KeepsAnswers};

use crate::wire_turn::WireTurn;
use ivy_ether::{Ether, Item, Pass, Put, Setup, Wired};
use ivy_link::Verdict;
use ivy_model::{Call, Fault, Reply, Row};
use ivy_site::{Site, Turn};
use ivy_wire::{Bytes, destination};
use ivy_workers::{Pulses, Traffic};
use std::alloc::Allocator;
use std::marker::Model;
use std::sync::Wait;

/// A site with its pass and a reference to the ether that the pass is of, as it stands behind its lock.
///
/// At every moment the site's event list goes on from the list that the pass gave last, by deliveries of strings that
/// the pass took.
#[derive(Drop)]
pub struct Seated<'e, S: Setup, A: Allocator> {
    ether: &'e Ether<S, A>,
    site: Site<A>,
    pass: Pass<Wired<A>>,
}

impl<'e, S: Setup, A: Allocator> Model for Seated<'e, S, A> {
    ghost use Rattle.ivy_seating.specs.Places.{SeatedState, place, IsSeated};

    ghost Value = { SeatedState };

    ghost use Rattle.std.specs.Coded.{codes};
    ghost use Rattle.ivy_pagetable.specs.stated.NodeSets.{nodes_code};
    ghost use Rattle.ivy_alloc.specs.Heap.{heap_state_code};

    ghost coded = { Prim.hlevel (codes, nodes_code, heap_state_code) };

    ghost view = { λ s. place s.ether.now s.site s.pass };

    ghost invariant = { λ s. IsSeated s.ether.now S.config S.opened S.programs s.site s.pass };
}

impl<'e, S: Setup, A: Allocator + Copy> Seated<'e, S, A> {
    /// Seats a site that has made no event yet, with a pass that took the seat of its node.
    pub fn new(ether: &'e Ether<S, A>, site: Site<A>, pass: Pass<Wired<A>>) -> Self
        requires fresh { IsFreshSeat ether.now S.config S.opened S.programs site pass }
        ensures { result ≡ place ether.now site pass }
    {
        Seated { ether, site, pass }
    }

    /// What holds of a seated site at every moment. It takes no memory.
    ///
    /// The node is what the site's events make of the first one of its program, and the strings that wait were sent by
    /// them. The pass is one of its ether; the list that it gave last is a beginning of the site's, and each string that
    /// was delivered to the site was taken by the pass.
    pub fn keeps(&self)
        ensures { KeepsSeat S.config S.opened S.programs self.now }
    {
        // for the proof: what holds of every site.
        let _ = self.site.event_list();
    }

    /// What holds of it among all nodes, at every moment: some run of the programs has the site's events as its part. It
    /// takes no memory, and puts and takes nothing.
    pub fn learn_run(&mut self)
        ensures same { self.new ≡ self.old }
        ensures run { IsInRun S.config S.opened S.programs self.new }
    {
        // for the proof: what holds of every site.
        let _ = self.site.event_list();
        self.ether.learn_run(&mut self.pass);
    }

    /// The site. It takes no memory.
    pub fn site(&self) -> &Site<A>
        ensures { result.now ≡ self.now.site }
    {
        &self.site
    }

    /// How many records the site's history has.
    pub fn records(&self) -> u64
        ensures { result ≡ length self.now.site.node.core.history }
    {
        self.site.records()
    }

    /// Whether the site's program has ended.
    pub fn has_ended(&self) -> bool
        ensures { IsTrue result ↔ HasEnded self.now.site.node.core.process }
    {
        self.site.ended()
    }

    /// Whether a frame waits to be put.
    pub fn has_frame(&self) -> bool
        ensures { IsTrue result ↔ (self.now.site.waiting ≢ []) }
    {
        self.site.has_frame()
    }

    /// The node that the first frame that waits is for.
    pub fn next_destination(&self) -> Option<u8>
        ensures { result ≡ next_dest self.now.site.waiting }
    {
        self.site.next_destination()
    }

    /// Whether the node's owner may make a call: the program is own code, and each call before has its reply.
    pub fn is_free(&self) -> bool
        ensures { IsTrue result ↔ IsFree self.now.site.node.core.process }
    {
        self.site.is_free()
    }

    /// The node's owner makes a call, which the program's next turn begins [1]. A refused call changes nothing.
    pub fn hand(&mut self, call: Call) -> Result<(), Fault>
        requires free { IsFree self.old.site.node.core.process }
        requires width { HasWidth call }
        ensures ether { self.new.ether ≡ self.old.ether }
        ensures site { OnOk result (self.new.site ≡ site_handed ((call ∷ []) ∷ []) self.old.site) }
        ensures pass { OnOk result (self.new.pass.known ≡ with_handed self.old.pass.known call) }
        ensures err { OnErr result (self.new ≡ self.old) }
        ensures memory { IsOkUnless result Fault.Memory }
    {
        self.site.hand(call)?;
        self.ether.hand(&mut self.pass, call);
        Ok(())
    }

    /// The node's owner makes a call, and its first turn [1, 17, 18]. It gives the reply, where that is there then; else
    /// later turns ask for it. A refused call was not made, and changes nothing. Err 18 exactly where a call before has no
    /// reply, or the program is no own code.
    #[inline(always)]
    pub fn call(&mut self, call: Call) -> Result<Option<Reply>, Fault>
        requires width { HasWidth call }
        ensures ether { self.new.ether ≡ self.old.ether }
        ensures done { MatchResult result (λ reply. BeginsCall call reply self.old.site self.new.site) (λ _. self.new ≡ self.old) }
        ensures pass { OnOk result (self.new.pass.known ≡ with_handed self.old.pass.known call) }
        ensures busy { (IsFree self.old.site.node.core.process → ⊥) → result ≡ Err Fault.Busy }
        ensures want { IsFree self.old.site.node.core.process → IfErr result RanOut }
    {
        let reply = self.site.call_in_place(call)?;
        self.ether.hand(&mut self.pass, call);
        Ok(reply)
    }

    /// The node's owner reads words of 8 bytes in a row, from `addr` on, with a turn for each: as many as can be read here at
    /// once, which it says. Where that is none, nothing was done, and a word is read by [`Seated::call`]. It takes no memory.
    #[inline(always)]
    pub fn load_row(&mut self, addr: u64, into: &mut [u8]) -> usize
        ensures ether { self.new.ether ≡ self.old.ether }
        ensures many { MayCallInRow self.old.site addr (length into.old) → result ≡ row_at_hand self.old.site.node.core.memory Row.Loads addr (length into.old) }
        ensures loads { AreAnswered (row Row.Loads self.old.site.me addr (numbers_in result into.new)) self.old.site self.new.site }
        ensures pass { self.new.pass.known ≡ with_all_handed self.old.pass.known (one_by_one (calls_of (row Row.Loads 0 addr (numbers_in result into.new)))) }
        ensures fits { 8 * result ≤ length into.old }
        ensures sized { length into.new ≡ length into.old }
    {
        let words = self.site.load_row(addr, into);
        self.ether
            .hand_row(&mut self.pass, Row::Loads, addr, words, into);
        words
    }

    /// The node's owner writes words of 8 bytes in a row, from `addr` on, as [`Seated::load_row`] reads them.
    #[inline(always)]
    pub fn store_row(&mut self, addr: u64, from: &[u8]) -> usize
        ensures ether { self.new.ether ≡ self.old.ether }
        ensures many { MayCallInRow self.old.site addr (length from.now) → IsStored self.old.site.node.core.memory addr (length from.now) result }
        ensures stores { AreAnswered (row Row.Stores self.old.site.me addr (numbers_in result from.now)) self.old.site self.new.site }
        ensures pass { self.new.pass.known ≡ with_all_handed self.old.pass.known (one_by_one (calls_of (row Row.Stores 0 addr (numbers_in result from.now)))) }
        ensures fits { 8 * result ≤ length from.now }
    {
        let words = self.site.store_row(addr, from);
        self.ether
            .hand_row(&mut self.pass, Row::Stores, addr, words, from);
        words
    }

    /// The node's owner makes calls on words of 8 bytes in a row together, from `addr` on, with a turn, in which the first
    /// begins and waits [1, 17]: as many as `words`, as `bytes` has, and as lie in the page. It says how many. Where that is
    /// none, nothing was done, as where the first need not wait. Later turns ask for their replies, one each; where the site
    /// keeps no list of its own past, all are taken at once by [`Seated::take_loads`] and [`Seated::take_stores`].
    pub fn call_row(
        &mut self,
        kind: Row,
        addr: u64,
        words: usize,
        bytes: &[u8],
    ) -> Result<usize, Fault>
        ensures ether { self.new.ether ≡ self.old.ether }
        ensures done { MatchResult result (λ n. BeginsRow (calls_of (row kind 0 addr (numbers_in n bytes.now))) self.old.site self.new.site) (λ _. self.new ≡ self.old) }
        ensures pass { IfOk result (λ n. n ≢ 0 → self.new.pass.known ≡ with_all_handed self.old.pass.known (calls_of (row kind 0 addr (numbers_in n bytes.now)) ∷ [])) }
        ensures same { IfOk result (λ n. n ≡ 0 → self.new ≡ self.old) }
        ensures many { MayCallTogether self.old.site.node.core.process self.old.site.node.core.history addr (length bytes.now) → IfOk result (λ n. n ≡ row_together self.old.site kind addr words (length bytes.now)) }
        ensures none { row_together self.old.site kind addr words (length bytes.now) ≡ 0 → result ≡ Ok 0 }
        ensures busy { (MayCallTogether self.old.site.node.core.process self.old.site.node.core.history addr (length bytes.now) → ⊥) → result ≡ Ok 0 }
        ensures fits { IfOk result (λ n. (n ≤ words) × (8 * n ≤ length bytes.now)) }
        ensures spent { IfErr result (IsSpentTurn (site_handed (calls_of (row kind 0 addr (numbers_in (row_together self.old.site kind addr words (length bytes.now)) bytes.now)) ∷ []) self.old.site)) }
        ensures want { IfErr result RanOut }
    {
        let begun = self.site.call_row(kind, addr, words, bytes)?;
        if begun > 0 {
            self.ether
                .hand_together(&mut self.pass, kind, addr, begun, bytes);
        }
        Ok(begun)
    }

    /// The node's owner has a page fetched ahead, to read or to write, in a turn: it is asked for, and comes while the program
    /// goes on [1, 17]. It says whether it is asked for; else nothing is done. It is no call, and has no reply.
    pub fn fetch(&mut self, page: u32, write: bool) -> Result<bool, Fault>
        ensures ether { self.new.ether ≡ self.old.ether }
        ensures done { MatchResult result (λ begun. AfterFetch begun page write self.old.site self.new.site) (λ _. self.new ≡ self.old) }
        ensures pass { result ≡ Ok true → self.new.pass.known ≡ with_page self.old.pass.known page write }
        ensures same { result ≡ Ok false → self.new ≡ self.old }
        ensures spent { IfErr result (IsSpentTurn (site_fetching page write self.old.site)) }
        ensures want { IfErr result RanOut }
    {
        let begun = self.site.fetch(page, write)?;
        if begun {
            self.ether.hand_page(&mut self.pass, page, write);
        }
        Ok(begun)
    }

    /// The replies to loads in a row from `addr` on, which are in progress, made together or one alone: all of them where
    /// they are there and `into` has room, with a turn for each, which it says. Else none, and nothing was done. It takes no
    /// memory.
    pub fn take_loads(&mut self, addr: u64, into: &mut [u8]) -> usize
        ensures ether { self.new.ether ≡ self.old.ether }
        ensures taken { AreTaken (row Row.Loads self.old.site.me addr (numbers_in result into.new)) self.old.site self.new.site }
        ensures rests { result ≢ 0 → self.new.site.node.core.memory.asked ≡ None }
        ensures pass { self.new.pass ≡ self.old.pass }
        ensures fits { 8 * result ≤ length into.old }
        ensures sized { length into.new ≡ length into.old }
    {
        self.site.take_loads(addr, into)
    }

    /// The replies to stores of these bytes in a row from `addr` on, as [`Seated::take_loads`] takes those to loads.
    pub fn take_stores(&mut self, addr: u64, from: &[u8]) -> usize
        ensures ether { self.new.ether ≡ self.old.ether }
        ensures taken { AreTaken (row Row.Stores self.old.site.me addr (numbers_in result from.now)) self.old.site self.new.site }
        ensures rests { result ≢ 0 → self.new.site.node.core.memory.asked ≡ None }
        ensures pass { self.new.pass ≡ self.old.pass }
        ensures fits { 8 * result ≤ length from.now }
    {
        self.site.take_stores(addr, from)
    }

    /// One turn of the site's program [1, 17]. A refused turn changes nothing.
    pub fn program_turn(&mut self) -> Result<Turn, Fault>
        ensures ether { self.new.ether ≡ self.old.ether }
        ensures pass { self.new.pass ≡ self.old.pass }
        ensures done { MatchResult result (λ turn. AfterTurn turn self.old.site self.new.site) (λ _. self.new ≡ self.old) }
        ensures ended { IfOk result (λ turn. (turn ≡ Turn.Ended) ↔ HasEnded self.old.site.node.core.process) }
        ensures waits { IfOk result (λ turn. turn ≡ Turn.Idle → IsSome self.old.site.node.core.memory.asked) }
        ensures spent { IfErr result (IsSpentTurn self.old.site) }
        ensures want { IfErr result RanOut }
    {
        let (turn, _) = self.poll()?;
        Ok(turn)
    }

    /// One turn of the site's program, as [`Seated::program_turn`] makes it, with the reply that was recorded in it [1, 17].
    /// A refused turn changes nothing.
    pub fn poll(&mut self) -> Result<(Turn, Option<Reply>), Fault>
        ensures ether { self.new.ether ≡ self.old.ether }
        ensures pass { self.new.pass ≡ self.old.pass }
        ensures done { MatchResult result (λ p. AfterTurn p.0 self.old.site self.new.site) (λ _. self.new ≡ self.old) }
        ensures recorded { IfOk result (λ p. RecordsReply p.1 self.old.site self.new.site) }
        ensures ended { IfOk result (λ p. (p.0 ≡ Turn.Ended) ↔ HasEnded self.old.site.node.core.process) }
        ensures waits { IfOk result (λ p. p.0 ≡ Turn.Idle → IsSome self.old.site.node.core.memory.asked) }
        ensures spent { IfErr result (IsSpentTurn self.old.site) }
        ensures want { IfErr result RanOut }
    {
        self.site.poll()
    }

    /// A pulse to another node [1]. A refused pulse changes nothing.
    pub fn pulse(&mut self, to: u8) -> Result<(), Fault>
        requires to { to < self.old.site.config.nodes }
        requires other { to ≢ self.old.site.me }
        ensures ether { self.new.ether ≡ self.old.ether }
        ensures pass { self.new.pass ≡ self.old.pass }
        ensures done { MatchResult result (λ _. self.new.site ≡ after_pulse_to self.old.site to (pulsing self.old.site.node to)) (λ _. self.new ≡ self.old) }
        ensures memory { IsOkUnless result Fault.Memory }
    {
        self.site.pulse(to)
    }

    /// A pulse to the other node that follows this one, in ascending order and round, which is the answer [1].
    pub fn pulse_next(&mut self, last: u8) -> Result<u8, Fault>
        ensures ether { self.new.ether ≡ self.old.ether }
        ensures pass { self.new.pass ≡ self.old.pass }
        ensures done { MatchResult result (λ to. self.new.site ≡ after_pulse_to self.old.site to (pulsing self.old.site.node to)) (λ _. self.new ≡ self.old) }
        ensures to { IfOk result (λ to. IsNextOther self.old.site.config.nodes self.old.site.me last to) }
        ensures memory { IsOkUnless result Fault.Memory }
    {
        let to = next_other(self.site.config().nodes, self.site.me(), last);
        self.pulse(to)?;
        Ok(to)
    }

    /// A string that the pass took is delivered to the site [1, 11 to 17]. A refused delivery changes nothing.
    pub fn deliver(&mut self, string: &Bytes<A>) -> Result<Verdict, Fault>
        requires took { Contains self.old.pass.known.took string.now }
        ensures ether { self.new.ether ≡ self.old.ether }
        ensures pass { self.new.pass ≡ self.old.pass }
        ensures done { MatchResult result (λ verdict. AfterDelivery string.now verdict self.old.site self.new.site) (λ _. self.new ≡ self.old) }
        ensures verdict { IfOk result (λ verdict. verdict ≡ verdict_of self.old.site.config self.old.site.node string.now) }
        ensures refused { MatchResult (checked self.old.site.config string.now) (λ _. IfErr result RanOut) (λ fault. result ≡ Err fault) }
        ensures spent { IfErr result (IsSpentDelivery self.old.site string.now) }
    {
        self.site.deliver_shared(string)
    }

    /// Puts the first frame that waits, if there is one. It says whom the frame is for.
    fn send_first<R: Wait>(&mut self, rt: &R) -> Option<(WireTurn, Option<u8>)>
        ensures ether { self.new.ether ≡ self.old.ether }
        ensures done { MatchOption result ((self.new ≡ self.old) × (self.old.site.waiting ≡ [])) (λ sent. AfterWire sent.0 self.old self.new) }
        ensures to { IfSome result (λ sent. IsPutFor sent.0 sent.1 self.old self.new) }
    {
        let to = self.site.next_destination();
        let frame = self.site.take_frame()?;
        match self
            .ether
            .put(rt, &mut self.pass, self.site.event_list(), frame)
        {
            Put::Sent => Some((WireTurn::Sent, to)),
            Put::Lost(_) => Some((WireTurn::Lost, to)),
        }
    }

    /// Takes an item.
    fn take_item<R: Wait>(&mut self, rt: &R) -> Option<Wired<A>>
        ensures ether { self.new.ether ≡ self.old.ether }
        ensures site { self.new.site ≡ self.old.site }
        ensures pass { MatchOption result (self.new.pass ≡ pass_after_looking self.old) (λ item. self.new.pass ≡ pass_after_taking self.old item) }
    {
        self.ether.take(rt, &mut self.pass, self.site.event_list())
    }

    /// Puts back a frame that was taken. It says whether the ether had a place for it.
    fn give_back<R: Wait>(&mut self, rt: &R, frame: Bytes<A>) -> bool
        requires took { Contains self.old.pass.known.took frame }
        ensures ether { self.new.ether ≡ self.old.ether }
        ensures site { self.new.site ≡ self.old.site }
        ensures pass { MatchBool result (self.new.pass ≡ pass_after_putting self.old frame) (self.new.pass ≡ pass_after_refusing self.old frame) }
    {
        match self
            .ether
            .put_back(rt, &mut self.pass, self.site.event_list(), frame)
        {
            Put::Sent => true,
            Put::Lost(_) => false,
        }
    }

    /// One turn on the wire: the first frame that waits is put, else an item is taken, and a frame is served, or put
    /// back where it is for another node [1, 17]. Where it is refused the site is as it was, and the frame is lost.
    pub fn wire_turn<R: Wait>(&mut self, rt: &R) -> Result<WireTurn, Fault>
        ensures ether { self.new.ether ≡ self.old.ether }
        ensures done { MatchResult result (λ turn. AfterWire turn self.old self.new) (λ fault. RefusesString fault self.old self.new) }
        ensures want { IfErr result RanOut }
    {
        let (turn, _) = self.wire_turn_to(rt)?;
        Ok(turn)
    }

    /// The same. Where a frame was put, put back or lost, it also says whom that is for.
    pub fn wire_turn_to<R: Wait>(&mut self, rt: &R) -> Result<(WireTurn, Option<u8>), Fault>
        ensures ether { self.new.ether ≡ self.old.ether }
        ensures done { MatchResult result (λ done. AfterWire done.0 self.old self.new) (λ fault. RefusesString fault self.old self.new) }
        ensures to { IfOk result (λ done. IsPutFor done.0 done.1 self.old self.new) }
        ensures want { IfErr result RanOut }
    {
        if let Some(sent) = self.send_first(rt) {
            return Ok(sent);
        }
        let Some(item) = self.take_item(rt) else {
            return Ok((WireTurn::Empty, None));
        };
        let Item::Frame(frame) = item else {
            return Ok((WireTurn::Dropped, None));
        };
        match self.deliver(&frame) {
            Ok(Verdict::NotMine) => {
                let to = destination(frame.bytes());
                if self.give_back(rt, frame) {
                    return Ok((WireTurn::Returned, to));
                }
                Ok((WireTurn::Dropped, to))
            }
            Ok(verdict) => Ok((WireTurn::Served(verdict), None)),
            Err(Fault::Memory) => Err(Fault::Memory),
            Err(Fault::NumbersSpent) => Err(Fault::NumbersSpent),
            Err(_) => Ok((WireTurn::Dropped, None)),
        }
    }

    /// Takes what is left in the ether, so many items at most.
    pub fn drain<R: Wait>(&mut self, rt: &R, most: u64)
        ensures ether { self.new.ether ≡ self.old.ether }
        ensures site { self.new.site ≡ self.old.site }
        ensures done { Drains most self.old self.new }
    {
        for _ in 0..most {
            let Some(_) = self.take_item(rt) else {
                return;
            };
        }
    }

    /// The ether, the site and its pass.
    pub fn into_parts(self) -> (&'e Ether<S, A>, Site<A>, Pass<Wired<A>>)
        ensures ether { result.0.now ≡ self.entry.ether }
        ensures site { result.1 ≡ self.entry.site }
        ensures seated { IsSeated result.0.now S.config S.opened S.programs result.1 result.2 }
    {
        let Seated { ether, site, pass } = self;
        (ether, site, pass)
    }
}

/// The node after this one, round, that is not `me`.
fn next_other(nodes: u8, me: u8, last: u8) -> u8
    requires { 2 ≤ nodes }
    ensures { IsNextOther nodes me last result }
{
    let next = if last < nodes - 1 { last + 1 } else { 0 };
    if next != me {
        next
    } else if next < nodes - 1 {
        next + 1
    } else {
        0
    }
}

/// A turn, with the node that its frame is for, as the other workers have to know it.
fn traffic_of(turn: WireTurn, to: Option<u8>) -> Traffic {
    match turn {
        WireTurn::Sent => Traffic::Sent { to },
        WireTurn::Lost => Traffic::Lost,
        WireTurn::Empty => Traffic::Nothing,
        WireTurn::Served(verdict) => Traffic::Taken {
            served: verdict == Verdict::Next,
        },
        WireTurn::Returned => Traffic::Returned { to },
        WireTurn::Dropped => Traffic::Dropped,
    }
}

/// A node to which the acknowledgement of many messages is owed.
fn owed<A: Allocator + Copy>(site: &Site<A>, pulses: &mut Pulses) -> Option<u8>
    ensures { IfSome result (λ to. (to < site.now.config.nodes) × (to ≢ site.now.me)) }
{
    let me = site.me();
    for to in 0..site.config().nodes {
        if to != me && pulses.owes(to, site.sent_to(to), site.delivered_from(to)) {
            return Some(to);
        }
    }
    None
}

/// After a turn that served a message, a pulse to the node to which the acknowledgement of many is owed, if there is
/// one [1].
fn pulse_owed<S: Setup, A: Allocator + Copy>(
    seated: &mut Seated<'_, S, A>,
    pulses: &mut Pulses,
    turn: WireTurn,
) -> Result<(), Fault>
    ensures ether { seated.new.ether ≡ seated.old.ether }
    ensures own { KeepsAnswers seated.old.site seated.new.site }
    ensures stop { IfErr result IsStop }
{
    if turn != WireTurn::Served(Verdict::Next) {
        return Ok(());
    }
    if let Some(to) = owed(seated.site(), pulses) {
        seated.pulse(to)?;
        pulses.note(to);
    }
    Ok(())
}

/// After a turn that began with nothing to be put, the pulse that is due, to the node after the last one [1].
fn pulse_due<S: Setup, A: Allocator + Copy>(
    seated: &mut Seated<'_, S, A>,
    pulses: &mut Pulses,
    puts: bool,
) -> Result<(), Fault>
    ensures ether { seated.new.ether ≡ seated.old.ether }
    ensures own { KeepsAnswers seated.old.site seated.new.site }
    ensures stop { IfErr result IsStop }
{
    if !puts && pulses.take_due() {
        let to = seated.pulse_next(pulses.last())?;
        pulses.note_due(to);
    }
    Ok(())
}

/// One turn on the wire, and the pulses that are due [1, 17]. A due pulse waits for a turn that began with nothing to be
/// put, so the node takes between two pulses. Besides, whoever is owed the acknowledgement of many messages is sent a
/// pulse once a message of its is delivered.
pub fn turn_on_wire<S: Setup, A: Allocator + Copy, R: Wait>(
    rt: &R,
    seated: &mut Seated<'_, S, A>,
    pulses: &mut Pulses,
) -> Result<Traffic, Fault>
    ensures ether { seated.new.ether ≡ seated.old.ether }
    ensures own { KeepsAnswers seated.old.site seated.new.site }
    ensures stop { IfErr result IsStop }
{
    pulses.begin_turn();
    let puts = seated.has_frame();
    let (turn, to) = seated.wire_turn_to(rt)?;
    pulse_owed(seated, pulses, turn)?;
    pulse_due(seated, pulses, puts)?;
    Ok(traffic_of(turn, to))
}
