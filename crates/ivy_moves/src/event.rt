//! What a node lists of its past: its events, and what it was answered.
ghost use Rattle.std.specs.Prelude.{◌≡◌, ◌↔◌, [], ◌∷◌, ◌++◌, true, ◌+◌, ◌*◌, ◌<◌, ◌≤◌, ◌^◌, length, false, IfOk, OnOk, IsTrue};
ghost use Rattle.ivy_model.specs.Rows.{numbers_in, row};
ghost use Rattle.ivy_moves.specs.Keeping.{read_of, last_of};
ghost use Rattle.ivy_moves.specs.Marks.{Turn, Delivery, Pulse, marks, turns};

use crate::note::note_turn;
use crate::same::{are_same, copy_events, retold};
use crate::story::{Answered, Delivered, Happening, InRow, Pulsed, Turned};
use ivy_model::{Record, Row, Story};
use ivy_wire::Bytes;
use std::alloc::{AllocError, Allocator};
use std::marker::Model;

/// An entry of a node's event list. `B` is a string of bytes.
#[derive(Debug, PartialEq, Eq, Drop)]
pub enum Event<B> {
    /// Turns in a row, in each of which an instruction was carried out, a call began, or a reply was recorded.
    Turns(u64),
    /// A string was delivered, as the bytes that came.
    Delivered(B),
    /// A pulse that gave frames, to the node of this number.
    Pulsed(u8),
}

/// The event list of a node, in order. To make its turns, deliveries and pulses again makes the node again.
///
/// Its entries are there to be read where they are kept. Contracts see the events, whether they are kept or not.
#[derive(Drop)]
#[derive_where(Debug)]
pub struct Events<A: Allocator> {
    #[derive_where(skip)]
    story: Story<Happening>,
    is_kept: bool,
    entries: Vec<Event<Bytes<A>>, A>,
}

impl<A: Allocator> Model for Events<A> {
    ghost use Rattle.std.specs.Prelude.{◌≡◌, vec_len, vec_capacity};
    ghost use Rattle.ivy_moves.specs.Marks.{marks};
    ghost use Rattle.ivy_moves.specs.Listed.{Listed};
    ghost use Rattle.ivy_moves.specs.Keeping.{read_of, has_place};

    ghost Value = { Listed };

    ghost view = { λ e. record { marks = e.story.told; kept = e.is_kept; has_room = has_place e.is_kept (vec_len e.entries) (vec_capacity e.entries) } };

    ghost invariant = { λ e. marks e.entries.items ≡ read_of e.is_kept e.story.told };
}

impl<A: Allocator> Events<A> {
    /// A list of no events, which is kept. It takes no memory.
    pub fn new(alloc: A) -> Self
        ensures marks { result.marks ≡ [] }
        ensures kept { IsTrue result.kept }
    {
        Events::keeping(alloc, true)
    }

    /// A list of no events, which will be kept or not. It takes no memory.
    pub fn keeping(alloc: A, is_kept: bool) -> Self
        ensures marks { result.marks ≡ [] }
        ensures kept { result.kept ≡ is_kept }
    {
        Events {
            story: Story::new(),
            is_kept,
            entries: Vec::new(alloc),
        }
    }

    /// Whether the entries are kept.
    pub fn is_kept(&self) -> bool
        ensures { result ≡ self.now.kept }
    {
        self.is_kept
    }

    /// The entries where they are kept, else none; turns in a row are one entry, up to the greatest number.
    pub fn entries(&self) -> &[Event<Bytes<A>>]
        ensures { marks result.now ≡ read_of self.now.kept self.now.marks }
    {
        &self.entries
    }

    /// Makes a place for one more event. Err only where the allocator has no memory; the events stay the same.
    #[inline(always)]
    pub fn reserve(&mut self) -> Result<(), AllocError>
        ensures room { OnOk result (IsTrue self.new.has_room) }
        ensures same { self.new.marks ≡ self.old.marks }
        ensures kept { self.new.kept ≡ self.old.kept }
    {
        if self.is_kept {
            self.entries.reserve(1)?;
        }
        Ok(())
    }

    /// Lists one more turn, in the place that [`Events::reserve`] made.
    #[inline(always)]
    pub fn push_turn(&mut self)
        requires { IsTrue self.old.has_room }
        ensures marks { self.new.marks ≡ self.old.marks ++ Turn ∷ [] }
        ensures kept { self.new.kept ≡ self.old.kept }
    {
        self.story.append::<u64, Turned>(&1);
        if self.is_kept {
            note_turn(&mut self.entries);
        }
    }

    /// Lists so many more turns, where the entries are not kept.
    #[inline(always)]
    pub fn push_turns(&mut self, count: u64)
        requires { self.old.kept ≡ false }
        ensures marks { self.new.marks ≡ self.old.marks ++ turns count }
        ensures kept { self.new.kept ≡ self.old.kept }
    {
        self.story.append::<u64, Turned>(&count);
    }

    /// Lists one more delivery, of a whole string, in the place that [`Events::reserve`] made.
    #[tactic(auto, using(crate::proofs::Noted::marks_push))]
    pub fn push_delivery(&mut self, bytes: Bytes<A>)
        requires { IsTrue self.old.has_room }
        ensures marks { self.new.marks ≡ self.old.marks ++ Delivery bytes ∷ [] }
        ensures kept { self.new.kept ≡ self.old.kept }
    {
        self.story.append::<&[u8], Delivered>(&bytes.bytes());
        if self.is_kept {
            self.entries.push_reserved(Event::Delivered(bytes));
        }
    }

    /// Lists one more delivery, of a whole string whose bytes these are, where the entries are not kept.
    pub fn push_unkept(&mut self, bytes: &[u8])
        requires { self.old.kept ≡ false }
        ensures marks { self.new.marks ≡ self.old.marks ++ Delivery bytes.now ∷ [] }
        ensures kept { self.new.kept ≡ self.old.kept }
    {
        self.story.append::<&[u8], Delivered>(&bytes);
    }

    /// Lists one more pulse, to a node by its number, in the place that [`Events::reserve`] made.
    #[tactic(auto, using(crate::proofs::Noted::marks_push))]
    pub fn push_pulse(&mut self, to: u8)
        requires { IsTrue self.old.has_room }
        ensures marks { self.new.marks ≡ self.old.marks ++ Pulse to ∷ [] }
        ensures kept { self.new.kept ≡ self.old.kept }
    {
        self.story.append::<u8, Pulsed>(&to);
        if self.is_kept {
            self.entries.push_reserved(Event::Pulsed(to));
        }
    }

    /// Whether both lists are kept, and have the same entries.
    pub fn is_same(&self, other: &Events<A>) -> bool
        ensures { IsTrue result → self.now.marks ≡ other.now.marks }
    {
        self.is_kept && other.is_kept && are_same(&self.entries, &other.entries)
    }
}

impl<A: Allocator + Copy> Events<A> {
    /// A copy of the entries, which shares their strings: the same list, where it is kept. Err only where the allocator has
    /// no memory.
    pub fn copy(&self, alloc: A) -> Result<Events<A>, AllocError>
        ensures marks { IfOk result (λ copy. copy.marks ≡ read_of self.now.kept self.now.marks) }
        ensures kept { IfOk result (λ copy. copy.kept ≡ true) }
    {
        Ok(Events {
            story: retold(&self.entries),
            is_kept: true,
            entries: copy_events(alloc, &self.entries)?,
        })
    }
}

/// What a node was answered, in order, with how many records these are, and the last one. They are all there to be read
/// where they are kept.
///
/// Contracts see the records, whether they are kept or not.
#[derive(Drop)]
pub struct History<A: Allocator> {
    count: u64,
    story: Story<Record>,
    is_kept: bool,
    last: Option<Record>,
    records: Vec<Record, A>,
}

impl<A: Allocator> Model for History<A> {
    ghost use Rattle.std.specs.Prelude.{◌≡◌, length, vec_len, vec_capacity};
    ghost use Rattle.ivy_moves.specs.Histories.{HistoryState};
    ghost use Rattle.ivy_moves.specs.Keeping.{read_of, last_of, has_place, has_count};

    ghost Value = { HistoryState };

    ghost view = { λ h. record { records = h.story.told; kept = h.is_kept; has_room = has_count h.count (has_place h.is_kept (vec_len h.records) (vec_capacity h.records)) } };

    ghost invariant = { λ h. (h.count ≡ length h.story.told) × (h.last ≡ last_of h.story.told) × (h.records.items ≡ read_of h.is_kept h.story.told) };
}

impl<A: Allocator> History<A> {
    /// No records, which will be kept or not. It takes no memory.
    pub fn new(alloc: A, is_kept: bool) -> Self
        ensures records { result.records ≡ [] }
        ensures kept { result.kept ≡ is_kept }
    {
        History {
            count: 0,
            story: Story::new(),
            is_kept,
            last: None,
            records: Vec::new(alloc),
        }
    }

    /// How many records there are.
    pub fn count(&self) -> u64
        ensures { result ≡ length self.now.records }
    {
        self.count
    }

    /// The number of the next record, counted from 1; the place for it was made by [`History::reserve`].
    pub fn next_number(&self) -> u64
        requires { IsTrue self.now.has_room }
        ensures is { result ≡ length self.now.records + 1 }
        ensures small { length self.now.records + 1 < 2 ^ 64 }
    {
        self.count + 1
    }

    /// The records where they are kept, else none.
    pub fn records(&self) -> &[Record]
        ensures { result.now ≡ read_of self.now.kept self.now.records }
    {
        &self.records
    }

    /// The last record, if there is one, whether the records are kept or not.
    pub fn last(&self) -> Option<Record>
        ensures { result ≡ last_of self.now.records }
    {
        self.last
    }

    /// Makes a place for one more record. Err only where the allocator has no memory, or there are 2^64 - 1 records.
    /// The records stay the same.
    #[inline(always)]
    pub fn reserve(&mut self) -> Result<(), AllocError>
        ensures room { OnOk result (IsTrue self.new.has_room) }
        ensures records { self.new.records ≡ self.old.records }
        ensures kept { self.new.kept ≡ self.old.kept }
    {
        if self.count == u64::MAX {
            return Err(AllocError);
        }
        if self.is_kept {
            self.records.reserve(1)?;
        }
        Ok(())
    }

    /// One more record, in the place that [`History::reserve`] made.
    #[inline(always)]
    pub fn push(&mut self, one: Record)
        requires { IsTrue self.old.has_room }
        ensures records { self.new.records ≡ self.old.records ++ one ∷ [] }
        ensures kept { self.new.kept ≡ self.old.kept }
    {
        self.story.push(&one);
        self.count += 1;
        self.last = Some(one);
        if self.is_kept {
            self.records.push_reserved(one);
        }
    }

    /// Whether so many more records can be listed with no place for them: the records are not kept, and can be counted.
    #[inline(always)]
    pub fn takes_rows(&self, words: usize) -> bool
        ensures { IsTrue result ↔ ((self.now.kept ≡ false) × (length self.now.records + words < 2 ^ 64)) }
    {
        !self.is_kept && words as u64 <= u64::MAX - self.count
    }

    /// One more record for each of so many words in a row from `addr` on, of node `node`, whose bytes these are. The records
    /// are not kept.
    #[inline(always)]
    pub fn push_row(&mut self, kind: Row, node: u8, addr: u64, words: usize, bytes: &[u8])
        requires unkept { self.old.kept ≡ false }
        requires room { length self.old.records + words < 2 ^ 64 }
        requires within { 8 * words ≤ length bytes.now }
        requires small { addr + 8 * words < 2 ^ 64 }
        ensures records { self.new.records ≡ self.old.records ++ row kind node addr (numbers_in words bytes.now) }
        ensures kept { self.new.kept ≡ self.old.kept }
    {
        let row = InRow {
            kind,
            node,
            addr,
            words,
            bytes,
        };
        self.story.append::<InRow<'_>, Answered>(&row);
        self.count += words as u64;
        if let Some(last) = kind.last(node, addr, words, bytes) {
            self.last = Some(last);
        }
    }
}
