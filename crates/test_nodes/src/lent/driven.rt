//! A node, and the images of some of its pages.
ghost use Rattle.ivy_model.specs.stated.Legal.{HasWidth};

use crate::lent::seen::{Log, Seen, count};
use crate::lent::words::{Block, SIZE, WORD, serve_in};
use ivy_embedded::{Declined, Embedded, Lending, Want};
use ivy_model::{Call, Fault, Row};
use ivy_site::Verdict;
use std::process::Abort;

/// How many pages have images: the first one, which is never lent, those behind it, and for the last place the last page.
pub(crate) const PAGES: usize = 4;

/// There are no more nodes.
const MOST_NODES: u8 = 8;

/// A call, and what its page is lent for once it has its reply.
#[derive(Clone, Copy)]
pub(crate) struct Plan {
    pub(crate) call: Call,
    pub(crate) page: usize,
    pub(crate) to: Lending,
}

/// What is in progress at a node.
#[derive(Clone, Copy)]
pub(crate) enum Work {
    Nothing,
    Call(Plan),
    Block(Block),
}

/// A node, with the images of some pages, what these are lent for, and what is in progress.
#[derive(Drop)]
pub(crate) struct Driven {
    pub(crate) node: Embedded,
    pub(crate) me: usize,
    pub(crate) last: u32,
    pub(crate) images: [[u8; SIZE]; PAGES],
    pub(crate) lent: [Lending; PAGES],
    pub(crate) work: Work,
}

/// The address of a page.
pub(crate) fn address(page: u32) -> u64 {
    u64::from(page).wrapping_mul(SIZE as u64)
}

/// Whether a call may be made by the node, where its page is lent for this.
fn permits(lent: Lending, call: Call) -> bool {
    match lent {
        Lending::Unlent => true,
        Lending::ToRead => matches!(call, Call::Load { .. }),
        Lending::ToWrite => false,
    }
}

impl Driven {
    /// The number of the page that has its image in this place.
    pub(crate) fn number(&self, page: usize) -> u32 {
        if page < PAGES - 1 {
            page as u32
        } else {
            self.last
        }
    }

    /// The place of the image of a page.
    fn place(&self, number: u32) -> usize {
        if number == self.last {
            PAGES - 1
        } else {
            number as usize
        }
    }

    /// What a page is lent for.
    pub(crate) fn lending(&self, rt: &impl Abort, page: usize) -> Lending {
        *self.lent.get(page).expect(rt, "a page")
    }

    /// Whether nothing is in progress.
    pub(crate) fn is_free(&self) -> bool {
        matches!(self.work, Work::Nothing)
    }

    /// What stands in the image of a page that is lent to be written is kept.
    fn keep(&mut self, rt: &impl Abort, page: usize) {
        let at = address(self.number(page));
        let image = self.images.get(page).expect(rt, "a page");
        let stored = self.node.store_row(at, image);
        assert!(rt; stored == Ok(SIZE / WORD), "page {page} was not kept");
    }

    /// All pages that are lent to be written are kept.
    fn keep_all(&mut self, rt: &impl Abort) {
        for page in 1..PAGES {
            if self.lent.get(page) == Some(&Lending::ToWrite) {
                self.keep(rt, page);
            }
        }
    }

    /// A page is given back, but for this. It is kept first, unless a call is in progress: then it was before.
    pub(crate) fn give_back(&mut self, rt: &impl Abort, page: usize, on: Lending) {
        if self.is_free() && self.lent.get(page) == Some(&Lending::ToWrite) {
            self.keep(rt, page);
        }
        let number = self.number(page);
        let given = self.node.give_back(number, on);
        assert!(rt; given == Ok(()), "page {page} was not given back");
        *self.lent.get_mut(page).expect(rt, "a page") = on;
    }

    /// A page is lent, with the bytes that the node has of it, unless it is gone.
    pub(crate) fn lend(&mut self, rt: &impl Abort, log: &mut Log, page: usize, to: Lending) {
        let number = self.number(page);
        let image = self.images.get_mut(page).expect(rt, "a page");
        let loaded = self.node.load_row(address(number), image);
        let lent = self.node.lend(number, to);
        if lent == Err(Declined::NotHere) {
            count(&mut log.tally.gone);
            return;
        }
        assert!(rt; lent == Ok(()), "page {page} was not lent");
        assert!(rt; loaded == SIZE / WORD, "page {page} was not loaded");
        *self.lent.get_mut(page).expect(rt, "a page") = to;
    }

    /// Fetches a page ahead, unless it is lent.
    pub(crate) fn fetch(&mut self, rt: &impl Abort, log: &mut Log, page: usize, to: Lending) {
        let before = self.node.turns();
        let lent = self.lending(rt, page);
        let number = self.number(page);
        let begun = self.node.fetch(number, to);
        let begun = begun.expect(rt, "a page is fetched");
        assert!(rt;
            !begun || lent == Lending::Unlent,
            "a lent page was fetched"
        );
        let turns = before.wrapping_add(u64::from(begun));
        assert!(rt; self.node.turns() == turns);
        if begun {
            count(&mut log.tally.fetched);
        }
    }

    /// An access by a pointer, to a page that is lent for it.
    pub(crate) fn touch(&mut self, rt: &impl Abort, log: &mut Log, page: usize, call: Call) {
        let image = self.images.get_mut(page).expect(rt, "a page");
        let reply = serve_in(rt, image, call);
        count(&mut log.tally.hits);
        log.add(rt, Seen::Made(self.me, call, reply));
    }

    /// Begins a call, once what was written is kept. It is forbidden where its page is lent for another use.
    pub(crate) fn begin(&mut self, rt: &impl Abort, log: &mut Log, plan: Plan)
        requires { HasWidth plan.call }
    {
        self.keep_all(rt);
        let may = permits(self.lending(rt, plan.page), plan.call);
        if self.node.is_lent(plan.call) {
            assert!(rt; !may, "a call was forbidden");
            count(&mut log.tally.forbidden);
            return;
        }
        assert!(rt; may, "a call was allowed");
        match self.node.begin(plan.call).expect(rt, "a call begins") {
            Some(reply) => {
                log.add(rt, Seen::Made(self.me, plan.call, reply));
                self.end(rt, log, plan);
            }
            None => {
                count(&mut log.tally.waits);
                log.add(rt, Seen::Began(self.me, plan.call));
                self.work = Work::Call(plan);
            }
        }
    }

    /// A call has its reply: its page is lent, if it is to be.
    fn end(&mut self, rt: &impl Abort, log: &mut Log, plan: Plan) {
        self.work = Work::Nothing;
        if plan.to != Lending::Unlent {
            self.lend(rt, log, plan.page, plan.to);
        }
    }

    /// The words of a block are carried out at once, as many as can be: 0 also where that is forbidden.
    fn carry_out(&mut self, rt: &impl Abort, log: &mut Log, block: &mut Block) -> usize {
        let lent = self.lending(rt, block.page);
        let bytes = block.bytes.get_mut(..block.words.wrapping_mul(WORD));
        let bytes = bytes.expect(rt, "words");
        match block.kind {
            Row::Loads => self.node.load_row(block.addr, bytes),
            Row::Stores => match self.node.store_row(block.addr, bytes) {
                Ok(words) => words,
                Err(refusal) => {
                    assert!(rt; refusal == Declined::Lent && lent == Lending::ToRead);
                    count(&mut log.tally.forbidden);
                    0
                }
            },
        }
    }

    /// The words of a block begin to wait, as many as do: 0 also where that is forbidden.
    fn begin_waiting(&mut self, rt: &impl Abort, block: &Block) -> usize {
        self.keep_all(rt);
        let lent = self.lending(rt, block.page);
        let bytes = block.bytes.get(..block.words.wrapping_mul(WORD));
        let bytes = bytes.expect(rt, "words");
        match self
            .node
            .call_row(block.kind, block.addr, block.words, bytes)
        {
            Ok(words) => words,
            Err(refusal) => {
                assert!(rt; refusal == Declined::Lent && lent != Lending::Unlent);
                0
            }
        }
    }

    /// Adds what is seen of the words of a block.
    fn tell(&self, rt: &impl Abort, log: &mut Log, block: &Block, is_made: bool) {
        for place in 0..block.words {
            let call = block.call(rt, place);
            let reply = block.reply(rt, place);
            let seen = if is_made {
                Seen::Made(self.me, call, reply)
            } else {
                Seen::Ended(self.me, call, reply)
            };
            log.add(rt, seen);
        }
    }

    /// Begins a block. Of a page that is lent to be written its words are accesses by pointers.
    pub(crate) fn begin_block(&mut self, rt: &impl Abort, log: &mut Log, block: Block) {
        if self.lending(rt, block.page) == Lending::ToWrite {
            for place in 0..block.words {
                self.touch(rt, log, block.page, block.call(rt, place));
            }
            return;
        }
        let mut block = block;
        let made = self.carry_out(rt, log, &mut block);
        if made > 0 {
            block.words = made;
            self.tell(rt, log, &block, true);
            return;
        }
        let begun = self.begin_waiting(rt, &block);
        if begun > 0 {
            count(&mut log.tally.waits);
            block.words = begun;
            self.begin_words(rt, log, block);
        }
    }

    /// The words of a block are in progress.
    fn begin_words(&mut self, rt: &impl Abort, log: &mut Log, block: Block) {
        for place in 0..block.words {
            log.add(rt, Seen::Began(self.me, block.call(rt, place)));
        }
        self.work = Work::Block(block);
    }

    /// Takes the replies to a block, if they are there.
    fn look_at_block(&mut self, rt: &impl Abort, log: &mut Log, block: Block) {
        let mut block = block;
        let (kind, addr, words) = (block.kind, block.addr, block.words);
        let bytes = block.bytes.get_mut(..words.wrapping_mul(WORD));
        let bytes = bytes.expect(rt, "words");
        let taken = match kind {
            Row::Loads => self.node.take_loads(addr, bytes),
            Row::Stores => self.node.take_stores(addr, bytes),
        };
        if taken > 0 {
            assert!(rt; taken == words, "a part of a block");
            self.work = Work::Nothing;
            self.tell(rt, log, &block, false);
        }
    }

    /// Takes the reply to what is in progress, if it is there.
    pub(crate) fn look(&mut self, rt: &impl Abort, log: &mut Log) {
        match self.work {
            Work::Nothing => {}
            Work::Block(block) => self.look_at_block(rt, log, block),
            Work::Call(plan) => {
                if let Some(reply) = self.node.poll().expect(rt, "a turn") {
                    log.add(rt, Seen::Ended(self.me, plan.call, reply));
                    self.end(rt, log, plan);
                }
            }
        }
    }

    /// What a string wants is given back.
    fn yield_up(&mut self, rt: &impl Abort, want: Want) {
        let page = self.place(want.page);
        self.give_back(rt, page, want.on);
    }

    /// A string that takes a lent page is refused, and nothing has changed. Once that is given back it is served.
    fn refuse(&mut self, rt: &impl Abort, string: &[u8], want: Want) {
        let before = (
            self.node.turns(),
            self.node.kept_set(),
            self.node.owed_set(),
        );
        let refused = self.node.deliver(string);
        assert!(rt;
            refused == Err(Declined::Wanted(want)),
            "a wanted string was served"
        );
        let after = (
            self.node.turns(),
            self.node.kept_set(),
            self.node.owed_set(),
        );
        assert!(rt; before == after && self.node.wanted(string) == Some(want));
        self.yield_up(rt, want);
        let served = self.node.deliver(string);
        assert!(rt;
            served == Ok(Verdict::Next),
            "the string was not served later"
        );
    }

    /// A string comes. What it wants is given back.
    pub(crate) fn deliver(&mut self, rt: &impl Abort, log: &mut Log, string: &[u8]) {
        match self.node.wanted(string) {
            Some(want) => {
                count(&mut log.tally.wanted);
                self.refuse(rt, string, want);
            }
            None => assert!(rt; self.node.deliver(string).is_ok(), "a string was refused"),
        }
    }

    /// What is no frame comes: it is refused, and wants nothing.
    pub(crate) fn deliver_part(&mut self, rt: &impl Abort, string: &[u8]) {
        let part = string.get(..string.len().saturating_sub(1));
        let part = part.expect(rt, "a part");
        assert!(rt; self.node.wanted(part) == None);
        let refused = self.node.deliver(part);
        assert!(rt;
            matches!(refused, Err(Declined::Fault(_))),
            "a part was served"
        );
    }

    /// Goes on with what is held of a node: what that wants is given back.
    fn go_on_with(&mut self, rt: &impl Abort, log: &mut Log, peer: u8) {
        for _ in 0..PAGES + 1 {
            if !self.node.is_peer(peer) {
                return;
            }
            let went = self.node.go_on(peer);
            self.look(rt, log);
            match went {
                Ok(()) => return,
                Err(Declined::Wanted(want)) => {
                    count(&mut log.tally.held);
                    self.yield_up(rt, want);
                }
                Err(refusal) => assert!(rt; refusal == Declined::Fault(Fault::Memory)),
            }
        }
    }

    /// Goes on with what is held of each node.
    pub(crate) fn go_on(&mut self, rt: &impl Abort, log: &mut Log) {
        for peer in 0..MOST_NODES {
            self.go_on_with(rt, log, peer);
        }
    }

    /// Pulses to all other nodes.
    pub(crate) fn pulse(&mut self, rt: &impl Abort) {
        for to in 0..MOST_NODES {
            if self.node.is_peer(to) {
                assert!(rt; self.node.pulse(to).is_ok());
            }
        }
    }
}
