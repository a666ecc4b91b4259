//! Replies of calls of a row that were made together, taken all at once.
ghost use Rattle.std.specs.Prelude.{◌≡◌, ◌≢◌, ◌↔◌, ◌⊎◌, ◌+◌, ◌*◌, ◌≤◌, ℕ, List, [], true, None, IsTrue, IsSome, length};
ghost use Rattle.ivy_model.specs.declared.Row.TheVariants.{Loads, Stores};
ghost use Rattle.ivy_model.specs.Rows.{numbers_in, row};
ghost use Rattle.ivy_memory.specs.stated.Memories.{in_progress};
ghost use Rattle.ivy_memory.specs.BatchedCalls.{row_calls};
ghost use Rattle.ivy_coherence.specs.Takes.{are_given};
ghost use Rattle.ivy_memory.specs.BatchedReplies.{HasReplies, TakesRecords, left_in, records_of};

use crate::memory::Memory;
use byteorder::{BigEndian, ByteOrder};
use ivy_model::{Call, Row};
use ivy_pagetable::Manager;
use std::alloc::Allocator;

impl<M: Manager, A: Allocator + Copy> Memory<M, A> {
    /// Whether no call was made along with the one in progress that has no reply yet. It takes no memory.
    pub fn is_alone(&self) -> bool
        ensures { IsTrue result ↔ (self.now.along ≡ []) }
    {
        self.along.left() == 0
    }

    /// Whether the calls in progress are loads of a row from this address on.
    fn are_loads(&self, addr: u64) -> bool
        ensures called { result ≡ true → IsSome self.now.asked }
        ensures calls { result ≡ true → (bytes : List ℕ) → in_progress self.now.asked self.now.along
            ≡ row_calls Loads addr (length self.now.along + 1) bytes }
        ensures each { (bytes : List ℕ) → in_progress self.now.asked self.now.along
            ≡ row_calls Loads addr (length self.now.along + 1) bytes → result ≡ true }
    {
        match self.asked {
            Some(
                Call::Load {
                    width: 8,
                    addr: first,
                },
            ) => first == addr && self.along.are_loads(addr),
            _ => false,
        }
    }

    /// Whether the calls in progress are stores of a row from this address on, whose numbers are in these bytes.
    fn are_stores(&self, addr: u64, from: &[u8]) -> bool
        requires many { 8 * (length self.now.along + 1) ≤ length from.now }
        ensures called { result ≡ true → IsSome self.now.asked }
        ensures calls { result ≡ true → in_progress self.now.asked self.now.along
            ≡ row_calls Stores addr (length self.now.along + 1) from.now }
        ensures each { in_progress self.now.asked self.now.along
            ≡ row_calls Stores addr (length self.now.along + 1) from.now → result ≡ true }
    {
        match self.asked {
            Some(
                Call::Store {
                    width: 8,
                    addr: first,
                    value,
                },
            ) => {
                first == addr
                    && value == BigEndian::read_u64(from)
                    && self.along.are_stores(addr, &from[8..])
            }
            _ => false,
        }
    }

    /// Takes the replies of all calls in progress, which were made together, and says how many, if all are there and are
    /// those of words of a row of this kind; else none. The numbers of words that were loaded are copied.
    fn take_all(&mut self, kind: Row, into: &mut [u8]) -> usize
        requires called { IsSome self.old.asked }
        requires room { kind ≡ Loads → 8 * (length self.old.along + 1) ≤ length into.old }
        ensures many { (result ≡ 0) ⊎ (result ≡ length self.old.along + 1) }
        ensures all { are_given kind (length self.old.along) self.old.coherence.done self.old.coherence.done_more ≡ true
            → result ≡ length self.old.along + 1 }
        ensures taken { (node : ℕ) → TakesRecords M.ops
            (records_of kind node (in_progress self.old.asked self.old.along) (numbers_in result into.new))
            self.old self.new }
        ensures sized { length into.new ≡ length into.old }
        ensures rests { result ≢ 0 → self.new.asked ≡ None }
        ensures config { self.new.coherence.config ≡ self.old.coherence.config }
        ensures me { self.new.coherence.me ≡ self.old.coherence.me }
    {
        let behind = self.along.left();
        if !self.coherence.has_given(kind, behind) {
            return 0;
        }
        let words = self.coherence.returned_row(kind, behind + 1, into);
        self.side.close();
        self.asked = None;
        self.along.clear();
        self.number += behind as u64;
        words
    }

    /// Takes the replies of all calls in progress, if they are loads of words of 8 bytes in a row from this address on and all
    /// the replies are there, and says how many; else none, and nothing is changed. The bytes of the words are copied, for
    /// all of which there has to be room.
    ///
    /// Each is the reply that [`Memory::poll_reply`] would give. It takes no memory.
    pub fn take_loads(&mut self, addr: u64, into: &mut [u8]) -> usize
        ensures many { HasReplies Loads addr into.old self.old → 8 * left_in self.old ≤ length into.old → result ≡ left_in self.old }
        ensures taken { (node : ℕ) → TakesRecords M.ops (row Loads node addr (numbers_in result into.new)) self.old self.new }
        ensures fits { 8 * result ≤ length into.old }
        ensures sized { length into.new ≡ length into.old }
        ensures rests { result ≢ 0 → self.new.asked ≡ None }
        ensures config { self.new.coherence.config ≡ self.old.coherence.config }
        ensures me { self.new.coherence.me ≡ self.old.coherence.me }
    {
        if into.len() / 8 <= self.along.left() || !self.are_loads(addr) {
            return 0;
        }
        self.take_all(Row::Loads, into)
    }

    /// Takes the replies of all calls in progress, if they are stores of words of 8 bytes in a row from this address on, of
    /// just these bytes, and all the replies are there, and says how many; else none, and nothing is changed.
    ///
    /// Each is the reply that [`Memory::poll_reply`] would give. It takes no memory.
    pub fn take_stores(&mut self, addr: u64, from: &[u8]) -> usize
        ensures many { HasReplies Stores addr from.now self.old → 8 * left_in self.old ≤ length from.now → result ≡ left_in self.old }
        ensures taken { (node : ℕ) → TakesRecords M.ops (row Stores node addr (numbers_in result from.now)) self.old self.new }
        ensures fits { 8 * result ≤ length from.now }
        ensures rests { result ≢ 0 → self.new.asked ≡ None }
        ensures config { self.new.coherence.config ≡ self.old.coherence.config }
        ensures me { self.new.coherence.me ≡ self.old.coherence.me }
    {
        if from.len() / 8 <= self.along.left() || !self.are_stores(addr, from) {
            return 0;
        }
        self.take_all(Row::Stores, &mut [])
    }
}
