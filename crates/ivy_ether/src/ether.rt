//! The ether: a queue of seats, frames and reports, under the rule.
ghost use Rattle.std.specs.Prelude.{◌≡◌, ◌⊎◌, ◌<◌, ℕ, List, Some, None, ◌∷◌, [], false, true, Contains, MatchOption, MatchResult, MatchBool, IfOk, IsOkUnless, IsSome, length, replicate, vec_len};
ghost use Rattle.crossbeam_queue.specs.Passes.{view};
ghost use Rattle.ivy_model.specs.Rows.{calls_of, numbers_in, row};
ghost use Rattle.ivy_program.specs.stated.Programs.{Called};
ghost use Rattle.ivy_program.specs.Programs.{one_by_one};
ghost use Rattle.ivy_ether.specs.Programs.{MayGive, SendsFrom, Runs, Told};
ghost use Rattle.ivy_ether.specs.Rule.{times};
ghost use Rattle.ivy_ether.specs.Views.{with_put, with_refused, with_taken, with_empty, with_report, with_issued, with_seat, with_handed, with_all_handed, with_handings, with_page, with_given, with_closed, with_told};
ghost use Rattle.ivy_ether.specs.Handings.{Calls};
ghost use Rattle.ivy_ether.specs.EtherViews.{MatchPut, AreFresh, room_of};

use crate::item::{Item, View, Wired};
use crate::law::{Law, Setup};
use crate::pass::{Pass, unseated};
use crate::steps::{
    Beside, Closes, FindsNone, Given, Gives, Handed, Hands, Issues, Own, Parts, Puts, Refuses,
    Reports, Sits, Takes, Tells,
};
use crossbeam_queue::RuledArrayQueue;
use ivy_model::{Call, Config, Fault, Row};
use ivy_moves::Events;
use ivy_program::Program;
use ivy_wire::Bytes;
use std::alloc::Allocator;
use std::marker::{Brand, Model};
use std::sync::Wait;

/// The ether of a session: what its nodes send lies in one bounded queue, from which anybody takes the first item.
///
/// Each step is one push or one pop, and changes what the pass that makes it knows and nothing else. A list that is lent
/// to a step is read by its contract alone, so the step costs the same however long it is. Contracts see an ether as its
/// name, which tells how many items it holds.
#[derive(Drop)]
pub struct Ether<S: Setup, A: Allocator> {
    queue: RuledArrayQueue<Wired<A>, View, Law<S>, A>,
}

impl<S: Setup, A: Allocator> Model for Ether<S, A> {
    ghost use Rattle.atomic_table.specs.Seated.{TableId};

    ghost Value = { TableId };

    ghost view = { λ e. e.queue.table.shared.table_id };
}

/// What became of a frame that was put.
#[derive(Drop)]
pub enum Put<B> {
    /// It stands in the ether.
    Sent,
    /// The ether was full at some moment; the frame comes back.
    Lost(B),
}

impl<S: Setup, A: Allocator + Copy> Ether<S, A> {
    /// An empty ether of so many items, and so many passes of it, of which the last is the starter's [1].
    pub fn new(
        alloc: A,
        config: &Config,
        programs: &[Program<A>],
        capacity: usize,
        passes: usize,
    ) -> Result<(Self, Vec<Pass<Wired<A>>, A>), Fault>
        requires config { config.now ≡ S.config }
        requires programs { programs.now ≡ S.programs }
        requires capacity { 0 < capacity }
        requires passes { 0 < passes }
        ensures fresh { IfOk result (λ r. AreFresh r.0 r.1.items) }
        ensures each { IfOk result (λ r. vec_len r.1 ≡ passes) }
        ensures room { IfOk result (λ r. room_of r.0 ≡ capacity) }
        ensures memory { IsOkUnless result Fault.Memory }
    {
        // for the proof: the clauses name them.
        let _ = config;
        let _ = programs;
        Ether::laid(alloc, capacity, passes)
    }

    /// The same where each node has own code, which has made no call yet [1].
    pub fn open(
        alloc: A,
        config: &Config,
        capacity: usize,
        passes: usize,
    ) -> Result<(Self, Vec<Pass<Wired<A>>, A>), Fault>
        requires config { config.now ≡ S.config }
        requires programs { S.programs ≡ replicate S.config.nodes (Called [] []) }
        requires capacity { 0 < capacity }
        requires passes { 0 < passes }
        ensures fresh { IfOk result (λ r. AreFresh r.0 r.1.items) }
        ensures each { IfOk result (λ r. vec_len r.1 ≡ passes) }
        ensures room { IfOk result (λ r. room_of r.0 ≡ capacity) }
        ensures memory { IsOkUnless result Fault.Memory }
    {
        // for the proof: the clauses name it.
        let _ = config;
        Ether::laid(alloc, capacity, passes)
    }

    fn laid(
        alloc: A,
        capacity: usize,
        passes: usize,
    ) -> Result<(Self, Vec<Pass<Wired<A>>, A>), Fault>
        requires capacity { 0 < capacity }
        requires passes { 0 < passes }
        ensures fresh { IfOk result (λ r. AreFresh r.0 r.1.items) }
        ensures each { IfOk result (λ r. vec_len r.1 ≡ passes) }
        ensures room { IfOk result (λ r. room_of r.0 ≡ capacity) }
        ensures memory { IsOkUnless result Fault.Memory }
    {
        let (queue, mut first) = RuledArrayQueue::<Wired<A>, View, Law<S>, A>::ruled(
            alloc, capacity,
        )?;
        let mut all = Vec::new(alloc);
        for _ in 1..passes {
            let token = queue.another::<Beside>(&mut first);
            let pass = unseated(token);
            all.reserve(1)?;
            all.push_reserved(pass);
        }
        let starter = unseated(first);
        all.reserve(1)?;
        all.push_reserved(starter);
        Ok((Ether { queue }, all))
    }

    fn take_given<E: Given, R: Wait>(
        &self,
        rt: &R,
        pass: &mut Pass<Wired<A>>,
        events: &Events<A>,
    ) -> Option<Wired<A>>
        requires pass { pass.old.ether ≡ self.now }
        requires given { E.events ≡ events.now.marks }
        requires events { MayGive S.config S.opened S.programs pass.old.known E.events }
        ensures pass { pass.new.ether ≡ pass.old.ether }
        ensures known { MatchOption result (pass.new.known ≡ with_empty pass.old.known) (λ x. pass.new.known ≡ with_taken pass.old.known E.events x) }
    {
        // for the proof: the clauses name them.
        let _ = events;
        let item = self.queue.pop_as::<Takes<E>, R>(rt, &mut pass.token);
        if item.is_none() {
            self.queue.another::<FindsNone>(&mut pass.token);
        }
        item
    }

    /// Takes the first item. None only where the ether was empty at some moment, which the pass knows then.
    ///
    /// `events` is the whole event list of the pass's site. A string that is taken is known to have been sent.
    pub fn take<R: Wait>(
        &self,
        rt: &R,
        pass: &mut Pass<Wired<A>>,
        events: &Events<A>,
    ) -> Option<Wired<A>>
        requires pass { pass.old.ether ≡ self.now }
        requires events { MayGive S.config S.opened S.programs pass.old.known events.now.marks }
        ensures pass { pass.new.ether ≡ pass.old.ether }
        ensures known { MatchOption result (pass.new.known ≡ with_empty pass.old.known) (λ x. pass.new.known ≡ with_taken pass.old.known events.now.marks x) }
    {
        self.take_given::<Brand, R>(rt, pass, events)
    }

    fn put_given<E: Given, R: Wait>(
        &self,
        rt: &R,
        pass: &mut Pass<Wired<A>>,
        events: &Events<A>,
        frame: Bytes<A>,
    ) -> Put<Bytes<A>>
        requires pass { pass.old.ether ≡ self.now }
        requires given { (E.events ≡ events.now.marks) × (E.frame ≡ frame) }
        requires events { MayGive S.config S.opened S.programs pass.old.known E.events }
        requires frame { SendsFrom S.config S.opened S.programs pass.old.known E.events frame ⊎ Contains pass.old.known.took frame }
        ensures pass { pass.new.ether ≡ pass.old.ether }
        ensures known { MatchPut result (pass.new.known ≡ with_put pass.old.known E.events (frame ∷ [])) (λ back. (back ≡ frame) × (pass.new.known ≡ with_refused pass.old.known frame)) }
    {
        // for the proof: the clauses name them.
        let _ = events;
        match self
            .queue
            .push_as::<Puts<E>, R>(rt, &mut pass.token, Item::Frame(frame))
        {
            Ok(()) => Put::Sent,
            Err(Item::Frame(back)) => {
                self.queue.another::<Refuses<E>>(&mut pass.token);
                Put::Lost(back)
            }
            Err(_) => unreachable!(),
        }
    }

    /// Puts a frame that the events of the pass's site send. Lost only where the ether was full at some moment, which the
    /// pass knows then.
    pub fn put<R: Wait>(
        &self,
        rt: &R,
        pass: &mut Pass<Wired<A>>,
        events: &Events<A>,
        frame: Bytes<A>,
    ) -> Put<Bytes<A>>
        requires pass { pass.old.ether ≡ self.now }
        requires events { MayGive S.config S.opened S.programs pass.old.known events.now.marks }
        requires frame { SendsFrom S.config S.opened S.programs pass.old.known events.now.marks frame }
        ensures pass { pass.new.ether ≡ pass.old.ether }
        ensures known { MatchPut result (pass.new.known ≡ with_put pass.old.known events.now.marks (frame ∷ [])) (λ back. (back ≡ frame) × (pass.new.known ≡ with_refused pass.old.known frame)) }
    {
        self.put_given::<Brand, R>(rt, pass, events, frame)
    }

    /// Puts back a frame that this pass took. Lost only where the ether was full at some moment, which the pass knows then.
    pub fn put_back<R: Wait>(
        &self,
        rt: &R,
        pass: &mut Pass<Wired<A>>,
        events: &Events<A>,
        frame: Bytes<A>,
    ) -> Put<Bytes<A>>
        requires pass { pass.old.ether ≡ self.now }
        requires events { MayGive S.config S.opened S.programs pass.old.known events.now.marks }
        requires frame { Contains pass.old.known.took frame }
        ensures pass { pass.new.ether ≡ pass.old.ether }
        ensures known { MatchPut result (pass.new.known ≡ with_put pass.old.known events.now.marks (frame ∷ [])) (λ back. (back ≡ frame) × (pass.new.known ≡ with_refused pass.old.known frame)) }
    {
        self.put_given::<Brand, R>(rt, pass, events, frame)
    }

    /// Issues the seat of a node, with the starter's pass. False only where the ether was full at some moment.
    pub fn issue_seat<R: Wait>(&self, rt: &R, pass: &mut Pass<Wired<A>>, node: u8) -> bool
        requires pass { pass.old.ether ≡ self.now }
        requires starter { pass.old.known.starts ≡ true }
        requires node { node < length S.programs }
        requires new { times node pass.old.known.issued ≡ 0 }
        ensures pass { pass.new.ether ≡ pass.old.ether }
        ensures known { MatchBool result (pass.new.known ≡ with_issued pass.old.known node) (pass.new.known ≡ pass.old.known) }
    {
        self.queue
            .push_as::<Issues, R>(rt, &mut pass.token, Item::Seat(node))
            .is_ok()
    }

    /// Takes a seat, with a pass that has none. None only where the ether was empty, or gave another item.
    pub fn take_seat<R: Wait>(&self, rt: &R, pass: &mut Pass<Wired<A>>) -> Option<u8>
        requires pass { pass.old.ether ≡ self.now }
        requires none { pass.old.known.node ≡ None }
        ensures pass { pass.new.ether ≡ pass.old.ether }
        ensures known { MatchOption result (pass.new.known ≡ pass.old.known) (λ i. pass.new.known ≡ with_seat pass.old.known i) }
    {
        match self.queue.pop_as::<Sits, R>(rt, &mut pass.token) {
            Some(Item::Seat(node)) => {
                pass.node = Some(node);
                Some(node)
            }
            _ => None,
        }
    }

    /// Puts the report of the pass's node: its whole event list, which comes back only where the ether was full at some
    /// moment. After it the pass makes no step.
    pub fn put_report<R: Wait>(
        &self,
        rt: &R,
        pass: &mut Pass<Wired<A>>,
        events: Events<A>,
    ) -> Result<(), Events<A>>
        requires pass { pass.old.ether ≡ self.now }
        requires events { MayGive S.config S.opened S.programs pass.old.known events.marks }
        ensures pass { pass.new.ether ≡ pass.old.ether }
        ensures known { MatchResult result (λ _. pass.new.known ≡ with_report pass.old.known events.marks) (λ back. (back ≡ events) × (pass.new.known ≡ pass.old.known)) }
    {
        let Some(node) = pass.node else {
            unreachable!()
        };
        match self
            .queue
            .push_as::<Reports, R>(rt, &mut pass.token, Item::Report(node, events))
        {
            Ok(()) => Ok(()),
            Err(Item::Report(_, back)) => Err(back),
            Err(_) => unreachable!(),
        }
    }

    /// Takes a report, with the starter's pass. None only where the ether was empty, or gave another item.
    pub fn take_report<R: Wait>(&self, rt: &R, pass: &mut Pass<Wired<A>>) -> Option<(u8, Events<A>)>
        requires pass { pass.old.ether ≡ self.now }
        requires starter { pass.old.known.starts ≡ true }
        ensures pass { pass.new.ether ≡ pass.old.ether }
        ensures known { MatchOption result (pass.new.known ≡ pass.old.known) (λ r. pass.new.known ≡ with_told pass.old.known r.0 r.1.marks) }
    {
        match self.queue.pop_as::<Tells, R>(rt, &mut pass.token) {
            Some(Item::Report(node, events)) => Some((node, events)),
            _ => None,
        }
    }

    fn hand_given<E: Handed>(&self, pass: &mut Pass<Wired<A>>, call: Call)
        requires pass { pass.old.ether ≡ self.now }
        requires given { E.handings ≡ Calls (call ∷ []) ∷ [] }
        requires seated { IsSome pass.old.known.node }
        requires unreported { pass.old.known.reported ≡ false }
        ensures pass { pass.new.ether ≡ pass.old.ether }
        ensures known { pass.new.known ≡ with_handings pass.old.known E.handings }
    {
        // for the proof: the clauses name it.
        let _ = call;
        self.queue.another::<Hands<E>>(&mut pass.token);
    }

    /// A call is handed to the pass's node: from now on the run is one of nodes to which it was handed, and all that
    /// happened before could have happened so. It makes no step of the queue, and does not fail.
    pub fn hand(&self, pass: &mut Pass<Wired<A>>, call: Call)
        requires pass { pass.old.ether ≡ self.now }
        requires seated { IsSome pass.old.known.node }
        requires unreported { pass.old.known.reported ≡ false }
        ensures pass { pass.new.ether ≡ pass.old.ether }
        ensures known { pass.new.known ≡ with_handed pass.old.known call }
    {
        self.hand_given::<Brand>(pass, call)
    }

    fn hand_words_given<E: Handed>(
        &self,
        pass: &mut Pass<Wired<A>>,
        kind: Row,
        addr: u64,
        words: usize,
        bytes: &[u8],
    )
        requires pass { pass.old.ether ≡ self.now }
        requires seated { IsSome pass.old.known.node }
        requires unreported { pass.old.known.reported ≡ false }
        ensures pass { pass.new.ether ≡ pass.old.ether }
        ensures known { pass.new.known ≡ with_handings pass.old.known E.handings }
    {
        // for the proof: the clauses name them.
        let _ = (kind, addr, words);
        let _ = bytes;
        self.queue.another::<Hands<E>>(&mut pass.token);
    }

    /// The calls on so many words of 8 bytes in a row from `addr` on, whose bytes these are, are handed to the pass's node,
    /// as calls made one after another.
    /// However many they are, it costs what [`Ether::hand`] does.
    pub fn hand_row(
        &self,
        pass: &mut Pass<Wired<A>>,
        kind: Row,
        addr: u64,
        words: usize,
        bytes: &[u8],
    )
        requires pass { pass.old.ether ≡ self.now }
        requires seated { IsSome pass.old.known.node }
        requires unreported { pass.old.known.reported ≡ false }
        ensures pass { pass.new.ether ≡ pass.old.ether }
        ensures known { pass.new.known ≡ with_all_handed pass.old.known (one_by_one (calls_of (row kind 0 addr (numbers_in words bytes.now)))) }
    {
        self.hand_words_given::<Brand>(pass, kind, addr, words, bytes)
    }

    /// The same calls are handed to it as calls made together.
    pub fn hand_together(
        &self,
        pass: &mut Pass<Wired<A>>,
        kind: Row,
        addr: u64,
        words: usize,
        bytes: &[u8],
    )
        requires pass { pass.old.ether ≡ self.now }
        requires seated { IsSome pass.old.known.node }
        requires unreported { pass.old.known.reported ≡ false }
        ensures pass { pass.new.ether ≡ pass.old.ether }
        ensures known { pass.new.known ≡ with_all_handed pass.old.known (calls_of (row kind 0 addr (numbers_in words bytes.now)) ∷ []) }
    {
        self.hand_words_given::<Brand>(pass, kind, addr, words, bytes)
    }

    fn hand_page_given<E: Handed>(&self, pass: &mut Pass<Wired<A>>, page: u32, write: bool)
        requires pass { pass.old.ether ≡ self.now }
        requires seated { IsSome pass.old.known.node }
        requires unreported { pass.old.known.reported ≡ false }
        ensures pass { pass.new.ether ≡ pass.old.ether }
        ensures known { pass.new.known ≡ with_handings pass.old.known E.handings }
    {
        // for the proof: the clauses name them.
        let _ = (page, write);
        self.queue.another::<Hands<E>>(&mut pass.token);
    }

    /// A page is handed to the pass's node, to be fetched ahead, to read or to write, after all calls that were handed to it:
    /// as [`Ether::hand`] hands a call.
    pub fn hand_page(&self, pass: &mut Pass<Wired<A>>, page: u32, write: bool)
        requires pass { pass.old.ether ≡ self.now }
        requires seated { IsSome pass.old.known.node }
        requires unreported { pass.old.known.reported ≡ false }
        ensures pass { pass.new.ether ≡ pass.old.ether }
        ensures known { pass.new.known ≡ with_page pass.old.known page write }
    {
        self.hand_page_given::<Brand>(pass, page, write)
    }

    fn give<E: Given>(&self, pass: &mut Pass<Wired<A>>, events: &Events<A>)
        requires pass { pass.old.ether ≡ self.now }
        requires given { E.events ≡ events.now.marks }
        requires events { MayGive S.config S.opened S.programs pass.old.known E.events }
        ensures pass { pass.new.ether ≡ pass.old.ether }
        ensures known { pass.new.known ≡ with_given pass.old.known E.events }
    {
        // for the proof: the clauses name them.
        let _ = events;
        self.queue.another::<Gives<E>>(&mut pass.token);
    }

    fn take_in(&self, starter: &mut Pass<Wired<A>>, pass: Pass<Wired<A>>)
        requires starter { starter.old.ether ≡ self.now }
        requires pass { pass.ether ≡ self.now }
        requires seated { IsSome pass.known.node }
        requires unreported { pass.known.reported ≡ false }
        ensures starter { starter.new.ether ≡ starter.old.ether }
        ensures known { starter.new.known ≡ with_closed starter.old.known pass.known }
    {
        let Pass { node: _, token } = pass;
        self.queue.absorb::<Closes>(&mut starter.token, token);
    }

    /// Takes in the pass of a site, whose whole event list this is: the starter's pass knows of that node's list and calls
    /// from now on, and nobody makes a step for it any more. It makes no step of the queue, and does not fail.
    pub fn close(&self, starter: &mut Pass<Wired<A>>, pass: Pass<Wired<A>>, events: &Events<A>)
        requires starter { starter.old.ether ≡ self.now }
        requires pass { pass.ether ≡ self.now }
        requires events { MayGive S.config S.opened S.programs pass.known events.now.marks }
        ensures starter { starter.new.ether ≡ starter.old.ether }
        ensures known { starter.new.known ≡ with_closed starter.old.known (with_given pass.known events.now.marks) }
    {
        let mut pass = pass;
        self.give::<Brand>(&mut pass, events);
        self.take_in(starter, pass)
    }

    /// What the pass of a site tells at any moment: the list that it gave last is its node's part of some run, in which
    /// each string that it took was sent. It makes no step.
    pub fn learn_run(&self, pass: &mut Pass<Wired<A>>)
        requires pass { pass.old.ether ≡ self.now }
        ensures same { pass.new ≡ pass.old }
        ensures run { Runs S.config S.opened S.programs pass.new.known }
    {
        self.queue.learn_as::<Own<S>>(&mut pass.token);
    }

    /// What the reports that the pass took tell: they are of the parts of one run. It makes no step.
    pub fn learn(&self, pass: &mut Pass<Wired<A>>)
        requires pass { pass.old.ether ≡ self.now }
        ensures same { pass.new ≡ pass.old }
        ensures told { Told S.config S.opened S.programs pass.new.known }
    {
        self.queue.learn_as::<Parts<S>>(&mut pass.token);
    }
}
