//! Calls of own code that are made together, and their replies.
ghost use Rattle.std.specs.Prelude.{◌≡◌, ◌≢◌, ◌+◌, ◌*◌, ◌%◌, ◌<◌, ◌≤◌, [], ◌∷◌, None, Ok, length, min, IfErr, IfOk, MatchResult};
ghost use Rattle.ivy_model.specs.Rows.{calls_of, numbers_in, row};
ghost use Rattle.ivy_model.specs.Wants.{RanOut};
ghost use Rattle.ivy_pagetable.specs.WordRows.{row_len};
ghost use Rattle.ivy_memory.specs.BatchedReplies.{left_in};
ghost use Rattle.ivy_site.specs.Calls.{AreTaken, BeginsRow, MayCallTogether, MayTakeRow, row_together};
ghost use Rattle.ivy_site.specs.Handed.{site_handed};
ghost use Rattle.ivy_site.specs.Sites.{most_sent, IsSameNode, IsSpentTurn};

use crate::site::Site;
use ivy_model::{Fault, Row};
use std::alloc::Allocator;

/// How many words of 8 bytes from an address on can be called together: as many as `words`, as lie in the page of the
/// address, whose size in bytes this is, and as `len` bytes have room for.
pub fn words_together(page_size: u32, addr: u64, words: usize, len: usize) -> usize
    requires { 0 < page_size }
    ensures many { result ≡ min words (row_len page_size (addr % page_size) len) }
    ensures fits { (result ≤ words) × (8 * result ≤ len) }
    ensures page { addr % page_size + 8 * result ≤ page_size }
{
    let left = page_size - (addr % page_size as u64) as u32;
    words.min((left as usize / 8).min(len / 8))
}

impl<A: Allocator + Copy> Site<A> {
    /// Own code makes calls in a row together, on words of 8 bytes from `addr` on, and has a turn, in which the first of them
    /// begins and waits [1, 17]: as many as `words`, as the bytes have, and as lie in the page of the address. It says how many.
    /// Later turns ask for their replies, one each; where the site keeps no list of its own past, all can be taken at once,
    /// by [`Site::take_loads`] or [`Site::take_stores`].
    ///
    /// Where that is none, nothing was done: so it is where the first word need not wait, and [`Site::load_row`],
    /// [`Site::store_row`] or a call serves it, and where a call before has no reply. No fault comes then. A refused row was
    /// not made, and changes nothing.
    pub fn call_row(
        &mut self,
        kind: Row,
        addr: u64,
        words: usize,
        bytes: &[u8],
    ) -> Result<usize, Fault>
        ensures same { IsSameNode self.old self.new }
        ensures done { MatchResult result (λ n. BeginsRow (calls_of (row kind 0 addr (numbers_in n bytes.now))) self.old self.new) (λ _. self.new ≡ self.old) }
        ensures many { MayCallTogether self.old.node.core.process self.old.node.core.history addr (length bytes.now) → IfOk result (λ n. n ≡ row_together self.old kind addr words (length bytes.now)) }
        ensures none { row_together self.old kind addr words (length bytes.now) ≡ 0 → result ≡ Ok 0 }
        ensures busy { (MayCallTogether self.old.node.core.process self.old.node.core.history addr (length bytes.now) → ⊥) → result ≡ Ok 0 }
        ensures fits { IfOk result (λ n. (n ≤ words) × (8 * n ≤ length bytes.now)) }
        ensures few { length self.new.waiting ≤ length self.old.waiting + most_sent }
        ensures spent { IfErr result (IsSpentTurn (site_handed (calls_of (row kind 0 addr (numbers_in (row_together self.old kind addr words (length bytes.now)) bytes.now)) ∷ []) self.old)) }
        ensures want { IfErr result RanOut }
    {
        if !self.host.takes_together(addr, bytes.len()) {
            return Ok(0);
        }
        if !self.host.memory.has_to_wait(kind, addr) {
            return Ok(0);
        }
        let words = words_together(self.outbox.config().page_size, addr, words, bytes.len());
        if words == 0 {
            return Ok(0);
        }
        self.host.history.reserve()?;
        self.events.reserve()?;
        self.host
            .begin_row(&mut self.outbox, kind, addr, words, bytes)?;
        self.events.push_turn();
        Ok(words)
    }

    /// Takes the replies of loads in a row of own code, from `addr` on, in a turn for each, where they are in progress, all of
    /// their replies are there, and the buffer has room for their words. It says how many; where that is none, nothing was
    /// done. So it is where the site keeps a list of its own past. It takes no memory.
    pub fn take_loads(&mut self, addr: u64, into: &mut [u8]) -> usize
        ensures same { IsSameNode self.old self.new }
        ensures many { MayTakeRow Row.Loads addr into.old self.old → result ≡ left_in self.old.node.core.memory }
        ensures taken { AreTaken (row Row.Loads self.old.me addr (numbers_in result into.new)) self.old self.new }
        ensures fits { 8 * result ≤ length into.old }
        ensures sized { length into.new ≡ length into.old }
        ensures rests { result ≢ 0 → self.new.node.core.memory.asked ≡ None }
        ensures waiting { self.new.waiting ≡ self.old.waiting }
    {
        if !self.host.takes_replies(&self.events, addr, into.len()) {
            return 0;
        }
        let words = self.host.memory.take_loads(addr, into);
        self.host.list_taken(
            &mut self.events,
            self.outbox.me(),
            Row::Loads,
            addr,
            words,
            into,
        );
        words
    }

    /// Takes the replies of stores in a row of own code, of just these bytes from `addr` on, as [`Site::take_loads`] does.
    pub fn take_stores(&mut self, addr: u64, from: &[u8]) -> usize
        ensures same { IsSameNode self.old self.new }
        ensures many { MayTakeRow Row.Stores addr from.now self.old → result ≡ left_in self.old.node.core.memory }
        ensures taken { AreTaken (row Row.Stores self.old.me addr (numbers_in result from.now)) self.old self.new }
        ensures fits { 8 * result ≤ length from.now }
        ensures rests { result ≢ 0 → self.new.node.core.memory.asked ≡ None }
        ensures waiting { self.new.waiting ≡ self.old.waiting }
    {
        if !self.host.takes_replies(&self.events, addr, from.len()) {
            return 0;
        }
        let words = self.host.memory.take_stores(addr, from);
        self.host.list_taken(
            &mut self.events,
            self.outbox.me(),
            Row::Stores,
            addr,
            words,
            from,
        );
        words
    }
}
