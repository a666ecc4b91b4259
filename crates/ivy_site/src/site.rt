//! One node: its program, its memory, its link, and the strings that wait to be put on the wire.
ghost use Rattle.std.specs.Prelude.{◌*◌, ◌≡◌, ◌↔◌, ◌≢◌, ◌+◌, ◌<◌, ◌≤◌, [], ◌∷◌, None, Some, Err, length, vec_len, vec_capacity, ◌++◌, false};
ghost use Rattle.std.specs.Prelude.{IsTrue, IsSome, IfOk, IfErr, OnOk, OnErr, IfSome, IsOkUnless, MatchBool, MatchResult, MatchOption, Contains};
ghost use Rattle.ivy_model.specs.stated.Config.{IsConfig};
ghost use Rattle.ivy_model.specs.Wants.{RanOut};
ghost use Rattle.ivy_wire.specs.stated.DecodeErrors.{checked};
ghost use Rattle.ivy_program.specs.OwnCode.{IsFree};
ghost use Rattle.ivy_program.specs.stated.Programs.{Called, fetches_of};
ghost use Rattle.ivy_program.specs.stated.States.{first_state};
ghost use Rattle.ivy_program.specs.InstructionSteps.{HasEnded};
ghost use Rattle.ivy_moves.specs.stated.Nodes.{pulsing};
ghost use Rattle.ivy_coherence.specs.EventLimits.{most_posted};
ghost use Rattle.ivy_link.specs.stated.LinkLimits.{most_ahead};
ghost use Rattle.ivy_link.specs.Holding.{ready_of};
ghost use Rattle.ivy_link.specs.Outboxes.{next_dest};
ghost use Rattle.ivy_model.specs.Rows.{numbers_in, row};
ghost use Rattle.ivy_memory.specs.AtOnce.{IsStored, row_at_hand};
ghost use Rattle.ivy_site.specs.Calls.{AreAnswered, BeginsCall, MayCallInRow, RecordsReply};
ghost use Rattle.ivy_site.specs.Handed.{site_handed};
ghost use Rattle.ivy_site.specs.SiteView.{holding_at, after_pulse_to};
ghost use Rattle.ivy_site.specs.Sites.{most_sent, most_delivered, first_shown, first_keeping, first_opened, AfterTurn, AfterDelivery};
ghost use Rattle.ivy_site.specs.Sites.{SpellsFrame, GoesAsFar, DeliversWhole, IsHeld, early_at, without_ready, IsSpentTurn, IsSpentDelivery, TakesFrame, IsSameNode, IsSentBy, Awaits};
ghost use Rattle.ivy_site.specs.Inside.{Hears, Receives, AfterOnce, HoldsString};
ghost use Rattle.ivy_moves.specs.Marks.{Delivery};
ghost use Rattle.ivy_model.specs.stated.Legal.{HasWidth};

use crate::host::Host;
use crate::opened::opened_memory;
use crate::turn::Turn;
use ivy_host::Opening;
use ivy_link::{MOST_AHEAD, Outbox, Verdict};
use ivy_model::{Call, Config, Fault, Reply, Row};
use ivy_moves::{Event, Events, History, Keep};
use ivy_program::{Machine, Next, Program};
use ivy_wire::{Bytes, head_of, message_of, read_frame};
use std::alloc::{AllocError, Allocator};
use std::marker::Model;

/// One node of a shared memory, with the program that it runs.
pub struct Site<A: Allocator> {
    alloc: A,
    pub(crate) host: Host<A>,
    pub(crate) opening: Opening,
    pub(crate) keep: Keep,
    pub(crate) outbox: Outbox<A>,
    pub(crate) events: Events<A>,
}

// What ends a site is proved here, once: a crate above that has one would prove anew what ends each of its some thirty
// types, were it derived.
impl<A: Allocator> Drop for Site<A> {
    fn drop(self) {
        let Site {
            alloc: _,
            host: _,
            opening: _,
            keep: _,
            outbox: _,
            events: _,
        } = self;
    }
}

impl<A: Allocator> Model for Site<A> {
    ghost use Rattle.ivy_site.specs.SiteView.{SiteView, shown_of};
    ghost use Rattle.ivy_site.specs.Inside.{host_in};
    ghost use Rattle.ivy_site.specs.Sites.{IsSite};
    ghost use Rattle.ivy_moves.specs.Keeping.{AreKept};

    ghost Value = { SiteView };

    ghost use Rattle.std.specs.Coded.{codes};
    ghost use Rattle.ivy_pagetable.specs.stated.NodeSets.{nodes_code};
    ghost use Rattle.ivy_alloc.specs.Heap.{heap_state_code};

    ghost coded = { Prim.hlevel (codes, nodes_code, heap_state_code) };

    ghost view = { λ s. shown_of s.opening s.keep (host_in s.host) s.outbox s.events.marks };

    ghost invariant = { λ s. IsSite (shown_of s.opening s.keep (host_in s.host) s.outbox s.events.marks) × AreKept s.keep s.host.history.kept s.events.kept };
}

/// The string of these bytes once more: shared where there is one, else a copy of them.
fn once_more<A: Allocator + Copy>(
    alloc: A,
    bytes: &[u8],
    string: &Option<Bytes<A>>,
) -> Result<Bytes<A>, AllocError>
    requires string { IfSome string.now (λ s. s ≡ bytes.now) }
    ensures { IfOk result (λ s. s ≡ bytes.now) }
{
    match string {
        Some(string) => string.share(),
        None => Bytes::new(alloc, bytes),
    }
}

/// The string once more, where its frame came before its turn.
fn if_ahead<A: Allocator + Copy>(
    verdict: Verdict,
    alloc: A,
    bytes: &[u8],
    string: &Option<Bytes<A>>,
) -> Result<Option<Bytes<A>>, AllocError>
    requires string { IfSome string.now (λ s. s ≡ bytes.now) }
    ensures { IfOk result (λ o. MatchOption o (verdict ≢ Verdict.Ahead) (λ held. (held ≡ bytes.now) × (verdict ≡ Verdict.Ahead))) }
{
    if verdict == Verdict::Ahead {
        return Ok(Some(once_more(alloc, bytes, string)?));
    }
    Ok(None)
}

/// The string once more, where the events are kept to be read.
fn if_kept<A: Allocator + Copy>(
    events: &Events<A>,
    alloc: A,
    bytes: &[u8],
    string: &Option<Bytes<A>>,
) -> Result<Option<Bytes<A>>, AllocError>
    requires string { IfSome string.now (λ s. s ≡ bytes.now) }
    ensures { IfOk result (λ o. MatchOption o (events.now.kept ≡ false) (λ listed. listed ≡ bytes.now)) }
{
    if events.is_kept() {
        return Ok(Some(once_more(alloc, bytes, string)?));
    }
    Ok(None)
}

/// Lists the delivery of these bytes, with the string of them where that is to be read.
fn list<A: Allocator>(events: &mut Events<A>, bytes: &[u8], string: Option<Bytes<A>>)
    requires room { IsTrue events.old.has_room }
    requires string { MatchOption string (events.old.kept ≡ false) (λ s. s ≡ bytes.now) }
    ensures marks { events.new.marks ≡ events.old.marks ++ Delivery bytes.now ∷ [] }
    ensures kept { events.new.kept ≡ events.old.kept }
{
    match string {
        Some(string) => events.push_delivery(string),
        None => events.push_unkept(bytes),
    }
}

impl<A: Allocator + Copy> Site<A> {
    /// Node `me` at the beginning of its program [1].
    ///
    /// The configuration is within its limits, and `me` is one of its nodes.
    ///
    /// It keeps its history and its events to be read.
    pub fn new(alloc: A, config: &Config, me: u8, program: Program<A>) -> Result<Site<A>, Fault>
        requires limits { IsConfig config.now }
        requires here { me < config.now.nodes }
        ensures first { IfOk result (λ site. site ≡ first_shown config.now me program) }
        ensures keep { IfOk result (λ site. site.keep ≡ Keep.All) }
        ensures memory { IsOkUnless result Fault.Memory }
    {
        Site::keeping(alloc, config, me, program, Keep::All)
    }

    /// Node `me` at the beginning of its program, which keeps these lists of its own past [1].
    ///
    /// The configuration is within its limits, and `me` is one of its nodes.
    pub fn keeping(
        alloc: A,
        config: &Config,
        me: u8,
        program: Program<A>,
        keep: Keep,
    ) -> Result<Site<A>, Fault>
        requires limits { IsConfig config.now }
        requires here { me < config.now.nodes }
        ensures first { IfOk result (λ site. site ≡ first_keeping keep config.now me program) }
        ensures memory { IsOkUnless result Fault.Memory }
    {
        Site::opened(alloc, config, me, Opening::Configured, program, keep)
    }

    /// Node `me` with own code, which has made no call yet [1].
    ///
    /// The configuration is within its limits, and `me` is one of its nodes.
    pub fn open(alloc: A, config: &Config, me: u8) -> Result<Site<A>, Fault>
        requires limits { IsConfig config.now }
        requires here { me < config.now.nodes }
        ensures first { IfOk result (λ site. site ≡ first_shown config.now me (Called [] [])) }
        ensures memory { IsOkUnless result Fault.Memory }
    {
        Site::open_keeping(alloc, config, me, Keep::All)
    }

    /// Node `me` with own code, which has made no call yet, and which keeps these lists of its own past [1].
    ///
    /// The configuration is within its limits, and `me` is one of its nodes.
    pub fn open_keeping(alloc: A, config: &Config, me: u8, keep: Keep) -> Result<Site<A>, Fault>
        requires limits { IsConfig config.now }
        requires here { me < config.now.nodes }
        ensures first { IfOk result (λ site. site ≡ first_keeping keep config.now me (Called [] [])) }
        ensures memory { IsOkUnless result Fault.Memory }
    {
        Site::open_by(alloc, config, me, Opening::Configured, keep)
    }

    /// Node `me` with a machine that has done nothing yet, which begins so.
    pub(crate) fn with_machine(
        alloc: A,
        config: &Config,
        me: u8,
        opening: Opening,
        machine: Machine<A>,
        keep: Keep,
    ) -> Result<Site<A>, Fault>
        requires limits { IsConfig config.now }
        requires here { me < config.now.nodes }
        requires begins { machine.state ≡ first_state }
        requires unfetched { fetches_of machine.program ≡ [] }
        ensures first { IfOk result (λ site. site ≡ first_opened opening keep config.now me machine.program) }
        ensures memory { IsOkUnless result Fault.Memory }
    {
        let outbox = Outbox::new(alloc, config, me)?;
        let memory = opened_memory(alloc, config, me, opening)?;
        Ok(Site {
            alloc,
            host: Host {
                memory,
                machine,
                history: History::new(alloc, keep.keeps_history()),
            },
            opening,
            keep,
            outbox,
            events: Events::keeping(alloc, keep.keeps_events()),
        })
    }

    /// Whether the node has own code of which each call has its reply, so that it may make one. It takes no memory.
    pub fn is_free(&self) -> bool
        ensures { IsTrue result ↔ IsFree self.now.node.core.process }
    {
        self.host.machine.is_free()
    }

    /// Own code makes a call, which the node's next turn begins [1]. Each call before has its reply, and a width is 1,
    /// 2, 4 or 8. A refused call changes nothing.
    pub fn hand(&mut self, call: Call) -> Result<(), Fault>
        requires free { IsFree self.old.node.core.process }
        requires width { HasWidth call }
        ensures ok { OnOk result (self.new ≡ site_handed ((call ∷ []) ∷ []) self.old) }
        ensures err { OnErr result (self.new ≡ self.old) }
        ensures memory { IsOkUnless result Fault.Memory }
    {
        self.host.machine.hand(call);
        Ok(())
    }

    /// Own code makes a call, and has a turn, in which it begins [1, 17, 18]. It gives the reply, where that is there then;
    /// else later turns ask for it. A width is 1, 2, 4 or 8. A refused call was not made, and changes nothing.
    ///
    /// It is [`Site::hand`] and [`Site::program_turn`] in one. Err 18 exactly where a call before has no reply, or the
    /// node's program is no own code.
    pub fn call(&mut self, call: Call) -> Result<Option<Reply>, Fault>
        requires width { HasWidth call }
        ensures same { IsSameNode self.old self.new }
        ensures done { MatchResult result (λ reply. BeginsCall call reply self.old self.new) (λ _. self.new ≡ self.old) }
        ensures busy { (IsFree self.old.node.core.process → ⊥) → result ≡ Err Fault.Busy }
        ensures want { IsFree self.old.node.core.process → IfErr result RanOut }
        ensures few { length self.new.waiting ≤ length self.old.waiting + most_sent }
        ensures spent { IfErr result (IsSpentTurn (site_handed ((call ∷ []) ∷ []) self.old)) }
    {
        // Each arm is compiled for its kind of call, so that the most frequent ones take no further look at it.
        match call {
            Call::Load { width: 8, addr } => self.call_in_place(Call::Load { width: 8, addr }),
            Call::Store {
                width: 8,
                addr,
                value,
            } => self.call_in_place(Call::Store {
                width: 8,
                addr,
                value,
            }),
            other => self.call_in_place(other),
        }
    }

    /// What [`Site::call`] does, compiled in its caller, for one that knows which kind of call it makes.
    #[inline(always)]
    pub fn call_in_place(&mut self, call: Call) -> Result<Option<Reply>, Fault>
        requires width { HasWidth call }
        ensures same { IsSameNode self.old self.new }
        ensures done { MatchResult result (λ reply. BeginsCall call reply self.old self.new) (λ _. self.new ≡ self.old) }
        ensures busy { (IsFree self.old.node.core.process → ⊥) → result ≡ Err Fault.Busy }
        ensures want { IsFree self.old.node.core.process → IfErr result RanOut }
        ensures few { length self.new.waiting ≤ length self.old.waiting + most_sent }
        ensures spent { IfErr result (IsSpentTurn (site_handed ((call ∷ []) ∷ []) self.old)) }
    {
        if !self.host.machine.is_free() {
            return Err(Fault::Busy);
        }
        self.host.history.reserve()?;
        self.events.reserve()?;
        let reply = self.host.make(&mut self.outbox, call)?;
        self.events.push_turn();
        Ok(reply)
    }

    /// Reads words of 8 bytes in a row, from `addr` on, in a turn for each: as many as the buffer has whole places for, as lie
    /// in the page of the address, and as can be read here at once. It says how many. Where that is none, nothing was done:
    /// a page is asked for by [`Site::call`]. So it is where a call before has no reply, and where the site keeps a list of
    /// its own past. It takes no memory.
    ///
    /// A row is what its loads are, with nothing between them.
    pub fn load_row(&mut self, addr: u64, into: &mut [u8]) -> usize
        ensures same { IsSameNode self.old self.new }
        ensures many { MayCallInRow self.old addr (length into.old) → result ≡ row_at_hand self.old.node.core.memory Row.Loads addr (length into.old) }
        ensures loads { AreAnswered (row Row.Loads self.old.me addr (numbers_in result into.new)) self.old self.new }
        ensures fits { 8 * result ≤ length into.old }
        ensures sized { length into.new ≡ length into.old }
        ensures waiting { self.new.waiting ≡ self.old.waiting }
    {
        if !self.host.takes_row(&self.events, addr, into.len()) {
            return 0;
        }
        let words = self.host.memory.load_row(addr, into);
        self.host.list_row(
            &mut self.events,
            self.outbox.me(),
            Row::Loads,
            addr,
            words,
            into,
        );
        words
    }

    /// Writes words of 8 bytes in a row, from `addr` on, in a turn for each: as many as there are whole ones, as lie in the
    /// page of the address, and as can be written here at once. It says how many, as [`Site::load_row`] does.
    pub fn store_row(&mut self, addr: u64, from: &[u8]) -> usize
        ensures same { IsSameNode self.old self.new }
        ensures many { MayCallInRow self.old addr (length from.now) → IsStored self.old.node.core.memory addr (length from.now) result }
        ensures stores { AreAnswered (row Row.Stores self.old.me addr (numbers_in result from.now)) self.old self.new }
        ensures fits { 8 * result ≤ length from.now }
        ensures waiting { self.new.waiting ≡ self.old.waiting }
    {
        if !self.host.takes_row(&self.events, addr, from.len()) {
            return 0;
        }
        let words = self.host.memory.store_row(addr, from);
        self.host.list_row(
            &mut self.events,
            self.outbox.me(),
            Row::Stores,
            addr,
            words,
            from,
        );
        words
    }

    /// Whether a string spells a frame to this node whose message was not delivered here yet. It takes no memory.
    pub fn awaits(&self, bytes: &[u8]) -> bool
        ensures { IsTrue result ↔ Awaits self.now bytes.now }
    {
        let config = self.outbox.config();
        let Ok(frame) = read_frame(&config, bytes) else {
            return false;
        };
        frame.dest == self.outbox.me() && self.outbox.delivered_from(frame.source) < frame.number
    }

    /// The first string that waits to be put on the wire, taken out. The site's events sent it. It takes no memory.
    pub fn take_frame(&mut self) -> Option<Bytes<A>>
        ensures taken { TakesFrame result self.old self.new }
        ensures sent { IfSome result (IsSentBy self.old) }
        ensures same { IsSameNode self.old self.new }
    {
        self.outbox.take()
    }

    /// Whether a string waits to be put on the wire. It takes no memory.
    pub fn has_frame(&self) -> bool
        ensures { IsTrue result ↔ (self.now.waiting ≢ []) }
    {
        self.outbox.has_frame()
    }

    /// The node that the first string that waits is for. It takes no memory.
    pub fn next_destination(&self) -> Option<u8>
        ensures { result ≡ next_dest self.now.waiting }
    {
        self.outbox.next_destination()
    }

    /// One turn of the program: the call in progress is asked for its reply, which is recorded, or an instruction is
    /// carried out, or a call begins [1, 17]. A refused turn changes nothing.
    pub fn program_turn(&mut self) -> Result<Turn, Fault>
        ensures same { IsSameNode self.old self.new }
        ensures done { MatchResult result (λ turn. AfterTurn turn self.old self.new) (λ _. self.new ≡ self.old) }
        ensures ended { IfOk result (λ turn. (turn ≡ Turn.Ended) ↔ HasEnded self.old.node.core.process) }
        ensures waits { IfOk result (λ turn. turn ≡ Turn.Idle → IsSome self.old.node.core.memory.asked) }
        ensures few { length self.new.waiting ≤ length self.old.waiting + most_sent }
        ensures spent { IfErr result (IsSpentTurn self.old) }
        ensures want { IfErr result RanOut }
    {
        let (turn, _) = self.poll()?;
        Ok(turn)
    }

    /// One turn of the program, as [`Site::program_turn`] makes it, with the reply that was recorded in it [1, 17]. A
    /// refused turn changes nothing.
    pub fn poll(&mut self) -> Result<(Turn, Option<Reply>), Fault>
        ensures same { IsSameNode self.old self.new }
        ensures done { MatchResult result (λ p. AfterTurn p.0 self.old self.new) (λ _. self.new ≡ self.old) }
        ensures recorded { IfOk result (λ p. RecordsReply p.1 self.old self.new) }
        ensures ended { IfOk result (λ p. (p.0 ≡ Turn.Ended) ↔ HasEnded self.old.node.core.process) }
        ensures waits { IfOk result (λ p. p.0 ≡ Turn.Idle → IsSome self.old.node.core.memory.asked) }
        ensures few { length self.new.waiting ≤ length self.old.waiting + most_sent }
        ensures spent { IfErr result (IsSpentTurn self.old) }
        ensures want { IfErr result RanOut }
    {
        self.host.history.reserve()?;
        self.events.reserve()?;
        if let Some(call) = self.host.memory.asked() {
            let (changed, reply) = self.host.poll(&mut self.outbox, call)?;
            if !changed {
                return Ok((Turn::Idle, None));
            }
            self.events.push_turn();
            return Ok((Turn::Moved, reply));
        }
        // In the midst of a row the memory has a call in progress, so it never comes to that. No contract says so: a call that
        // is tried again is alone from then on. A turn answers 1 and 17 alone, so it is 1 here.
        if !self.host.machine.is_alone() {
            return Err(Fault::Memory);
        }
        match self.host.machine.next()? {
            Next::Ended => Ok((Turn::Ended, None)),
            Next::Local => {
                self.events.push_turn();
                Ok((Turn::Moved, None))
            }
            Next::Call(call) => {
                let reply = self.host.begin(&mut self.outbox, call)?;
                self.events.push_turn();
                Ok((Turn::Moved, reply))
            }
        }
    }

    /// A string that spells a frame comes, and neither is it held nor does the site go on. The answer is the verdict,
    /// the node that the frame comes from, and, of a frame that came before its turn, the string once more, to be
    /// held. Of a frame that is not the next one no more than the head is read. Where bytes come with no string of them,
    /// they are copied only to be held or to be listed.
    fn hear(
        &mut self,
        bytes: &[u8],
        string: Option<Bytes<A>>,
    ) -> Result<(Verdict, u8, Option<Bytes<A>>), Fault>
        requires spelled { SpellsFrame self.old.config bytes.now }
        requires string { IfSome string (λ s. s ≡ bytes.now) }
        ensures same { IsSameNode self.old self.new }
        ensures done { MatchResult result (λ h. Hears bytes.now h.0 h.1 h.2 self.old self.new) (λ _. self.new ≡ self.old) }
        ensures from { IfOk result (λ h. h.1 < self.old.config.nodes) }
        ensures want { IfErr result RanOut }
        ensures few { length self.new.waiting ≤ length self.old.waiting + most_posted }
        ensures spent { IfErr result (IsSpentDelivery self.old bytes.now) }
    {
        let config = self.outbox.config();
        let head = head_of(bytes);
        let from = head.source;
        let verdict = self.outbox.offer(&head);
        if verdict == Verdict::NotMine {
            return Ok((verdict, from, None));
        }
        self.events.reserve()?;
        let held = if_ahead(verdict, self.alloc, bytes, &string)?;
        let listed = if_kept(&self.events, self.alloc, bytes, &string)?;
        if verdict == Verdict::Next {
            if let Some(message) = message_of(&config, bytes) {
                self.host.memory.handle(from, message, &mut self.outbox)?;
            }
        }
        self.outbox.accept(&head);
        list(&mut self.events, bytes, listed);
        Ok((verdict, from, held))
    }

    /// Holds a string that came too early.
    fn hold(&mut self, string: Bytes<A>)
        requires early { Contains (early_at self.old) string }
        requires spelled { SpellsFrame self.old.config string }
        ensures same { IsSameNode self.old self.new }
        ensures after { HoldsString string self.old self.new }
    {
        let head = head_of(string.bytes());
        self.outbox.hold(&head, string);
    }

    /// What [`Site::receive`] does, of bytes with their string, or alone.
    fn receive_lent(
        &mut self,
        bytes: &[u8],
        string: Option<Bytes<A>>,
    ) -> Result<(Verdict, u8), Fault>
        requires spelled { SpellsFrame self.old.config bytes.now }
        requires string { IfSome string (λ s. s ≡ bytes.now) }
        ensures same { IsSameNode self.old self.new }
        ensures done { MatchResult result (λ r. Receives bytes.now r.0 r.1 self.old self.new) (λ _. self.new ≡ self.old) }
        ensures from { IfOk result (λ r. r.1 < self.old.config.nodes) }
        ensures want { IfErr result RanOut }
        ensures few { length self.new.waiting ≤ length self.old.waiting + most_posted }
        ensures spent { IfErr result (IsSpentDelivery self.old bytes.now) }
    {
        let (verdict, from, early) = self.hear(bytes, string)?;
        if let Some(held) = early {
            self.hold(held);
        }
        Ok((verdict, from))
    }

    /// What [`Site::deliver`] does before the site goes on, with the node that the frame comes from.
    fn receive(&mut self, string: &Bytes<A>) -> Result<(Verdict, u8), Fault>
        requires spelled { SpellsFrame self.old.config string.now }
        ensures same { IsSameNode self.old self.new }
        ensures done { MatchResult result (λ r. Receives string.now r.0 r.1 self.old self.new) (λ _. self.new ≡ self.old) }
        ensures from { IfOk result (λ r. r.1 < self.old.config.nodes) }
        ensures want { IfErr result RanOut }
        ensures few { length self.new.waiting ≤ length self.old.waiting + most_posted }
        ensures spent { IfErr result (IsSpentDelivery self.old string.now) }
    {
        let shared = string.share()?;
        self.receive_lent(string.bytes(), Some(shared))
    }

    /// Takes out the string that is held of the next number from a node.
    fn take_ready(&mut self, from: u8) -> Option<Bytes<A>>
        requires from { from < self.old.config.nodes }
        ensures same { IsSameNode self.old self.new }
        ensures limits { IsConfig self.old.config }
        ensures ready { result ≡ ready_of (holding_at self.old) from }
        ensures after { self.new ≡ without_ready self.old from }
        ensures held { IfSome result (IsHeld self.old from 0) }
    {
        self.outbox.take_ready(from)
    }

    /// Goes on with the string that is held of the next number from a node, if there is one, by the whole rule of
    /// a delivery [1, 17], which lists one event. That string is the answer. One that is refused is held again.
    pub fn go_on_with(&mut self, from: u8) -> Result<Option<Bytes<A>>, Fault>
        requires from { from < self.old.config.nodes }
        ensures same { IsSameNode self.old self.new }
        ensures done { MatchResult result (λ string. AfterOnce string from self.old self.new) (λ _. self.new ≡ self.old) }
        ensures want { IfErr result RanOut }
        ensures few { length self.new.waiting ≤ length self.old.waiting + most_posted }
    {
        let Some(string) = self.take_ready(from) else {
            return Ok(None);
        };
        match self.receive(&string) {
            Ok(_) => Ok(Some(string)),
            Err(fault) => {
                self.hold(string);
                Err(fault)
            }
        }
    }

    /// Goes on with the strings of a node that are ready, one after another, until none is, or one is refused, with
    /// this fault.
    fn go_on(&mut self, from: u8) -> Option<Fault>
        requires from { from < self.old.config.nodes }
        ensures same { IsSameNode self.old self.new }
        ensures done { GoesAsFar from result self.old self.new }
        ensures few { length self.new.waiting ≤ length self.old.waiting + most_posted * most_ahead }
    {
        for _ in 0..MOST_AHEAD {
            match self.go_on_with(from) {
                Ok(Some(string)) => drop(string),
                Ok(None) => return None,
                Err(fault) => return Some(fault),
            }
        }
        None
    }

    /// A string comes, any bytes at all [1, 11 to 17]. What the frame in it is to this node is the answer: one
    /// for another node is left alone, and the message of the next one is served before the frame is accepted.
    /// A page in it is lent to what serves the message. The event list has a copy of the bytes. A refused delivery
    /// changes nothing.
    ///
    /// The string of a frame that came before its turn is held. After the next one the site goes on with the
    /// strings of the same node that it holds and that are the next ones now, each by the whole rule of a
    /// delivery. Where one of them is refused it is held again, and the site goes on no further.
    pub fn deliver(&mut self, bytes: &[u8]) -> Result<Verdict, Fault>
        ensures same { IsSameNode self.old self.new }
        ensures done { MatchResult result (λ verdict. AfterDelivery bytes.now verdict self.old self.new) (λ _. self.new ≡ self.old) }
        ensures refused { MatchResult (checked self.old.config bytes.now) (λ _. IfErr result RanOut) (λ fault. result ≡ Err fault) }
        ensures few { length self.new.waiting ≤ length self.old.waiting + most_delivered }
        ensures spent { IfErr result (IsSpentDelivery self.old bytes.now) }
    {
        let config = self.outbox.config();
        read_frame(&config, bytes)?;
        let string = Bytes::new(self.alloc, bytes)?;
        self.deliver_spelled(&string)
    }

    /// A string comes, as [`Site::deliver`] says. The event list and the link share it, so its bytes are not
    /// copied.
    pub fn deliver_shared(&mut self, string: &Bytes<A>) -> Result<Verdict, Fault>
        ensures same { IsSameNode self.old self.new }
        ensures done { MatchResult result (λ verdict. AfterDelivery string.now verdict self.old self.new) (λ _. self.new ≡ self.old) }
        ensures refused { MatchResult (checked self.old.config string.now) (λ _. IfErr result RanOut) (λ fault. result ≡ Err fault) }
        ensures few { length self.new.waiting ≤ length self.old.waiting + most_delivered }
        ensures spent { IfErr result (IsSpentDelivery self.old string.now) }
    {
        let config = self.outbox.config();
        read_frame(&config, string.bytes())?;
        self.deliver_spelled(string)
    }

    /// A string comes, as [`Site::deliver_shared`] says, but the site does not go on after it. So one event is listed, or
    /// none where the frame is for another node. Besides the verdict it says which node the frame comes from.
    pub fn deliver_alone(&mut self, string: &Bytes<A>) -> Result<(Verdict, u8), Fault>
        ensures same { IsSameNode self.old self.new }
        ensures done { MatchResult result (λ r. Receives string.now r.0 r.1 self.old self.new) (λ _. self.new ≡ self.old) }
        ensures from { IfOk result (λ r. r.1 < self.old.config.nodes) }
        ensures refused { MatchResult (checked self.old.config string.now) (λ _. IfErr result RanOut) (λ fault. result ≡ Err fault) }
        ensures few { length self.new.waiting ≤ length self.old.waiting + most_posted }
        ensures spent { IfErr result (IsSpentDelivery self.old string.now) }
    {
        let config = self.outbox.config();
        read_frame(&config, string.bytes())?;
        self.receive(string)
    }

    /// A string comes, as [`Site::deliver`] says, but the site does not go on after it, as after [`Site::deliver_alone`].
    pub fn deliver_once(&mut self, bytes: &[u8]) -> Result<(Verdict, u8), Fault>
        ensures same { IsSameNode self.old self.new }
        ensures done { MatchResult result (λ r. Receives bytes.now r.0 r.1 self.old self.new) (λ _. self.new ≡ self.old) }
        ensures from { IfOk result (λ r. r.1 < self.old.config.nodes) }
        ensures refused { MatchResult (checked self.old.config bytes.now) (λ _. IfErr result RanOut) (λ fault. result ≡ Err fault) }
        ensures few { length self.new.waiting ≤ length self.old.waiting + most_posted }
        ensures spent { IfErr result (IsSpentDelivery self.old bytes.now) }
    {
        let config = self.outbox.config();
        read_frame(&config, bytes)?;
        self.receive_lent(bytes, None)
    }

    /// A string comes that spells a frame, as [`Site::deliver_shared`] says [1, 17]. It is not tested again.
    pub fn deliver_spelled(&mut self, string: &Bytes<A>) -> Result<Verdict, Fault>
        requires spelled { SpellsFrame self.old.config string.now }
        ensures same { IsSameNode self.old self.new }
        ensures done { MatchResult result (λ verdict. AfterDelivery string.now verdict self.old self.new) (λ _. self.new ≡ self.old) }
        ensures want { IfErr result RanOut }
        ensures few { length self.new.waiting ≤ length self.old.waiting + most_delivered }
        ensures spent { IfErr result (IsSpentDelivery self.old string.now) }
    {
        let (verdict, _) = self.deliver_whole(string)?;
        Ok(verdict)
    }

    /// A string comes that spells a frame, as [`Site::deliver_spelled`] says. Besides the verdict it says with which fault
    /// a string was refused that the site held, and would have gone on with [1, 17]. Where none was, none that is held of
    /// the frame's node is the next one now.
    fn deliver_whole(&mut self, string: &Bytes<A>) -> Result<(Verdict, Option<Fault>), Fault>
        requires spelled { SpellsFrame self.old.config string.now }
        ensures same { IsSameNode self.old self.new }
        ensures done { MatchResult result (λ d. DeliversWhole d.0 d.1 string.now self.old self.new) (λ _. self.new ≡ self.old) }
        ensures want { IfErr result RanOut }
        ensures few { length self.new.waiting ≤ length self.old.waiting + most_delivered }
        ensures spent { IfErr result (IsSpentDelivery self.old string.now) }
    {
        let (verdict, from) = self.receive(string)?;
        if verdict != Verdict::Next {
            return Ok((verdict, None));
        }
        let refused = self.go_on(from);
        Ok((verdict, refused))
    }

    /// A pulse to another node: what that node has not acknowledged waits to be put on the wire again, at most
    /// 32 frames, or an acknowledgement alone where one is owed [1]. A refused pulse changes nothing.
    pub fn pulse(&mut self, to: u8) -> Result<(), Fault>
        requires to { to < self.old.config.nodes }
        requires other { to ≢ self.old.me }
        ensures same { IsSameNode self.old self.new }
        ensures done { MatchResult result (λ _. self.new ≡ after_pulse_to self.old to (pulsing self.old.node to)) (λ _. self.new ≡ self.old) }
        ensures few { length self.new.waiting ≤ length self.old.waiting + most_sent }
        ensures memory { IsOkUnless result Fault.Memory }
    {
        self.events.reserve()?;
        if self.outbox.pulse(to)? {
            self.events.push_pulse(to);
        }
        Ok(())
    }
}
