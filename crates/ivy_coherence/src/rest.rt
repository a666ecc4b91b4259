//! Words of a page that wait along with the one at its entry.
ghost use Rattle.std.specs.Prelude.{◌≡◌, ◌≢◌, ◌+◌, ◌*◌, ◌%◌, ◌<◌, ◌≤◌, ◌++◌, true, false, [], Some, length, drop, min, List, IfOk, IfSome, IfNone, All};
ghost use Rattle.ivy_pagetable.specs.declared.Out.{Out};
ghost use Rattle.ivy_coherence.specs.Takes.{given, given_there};
ghost use Rattle.ivy_model.specs.declared.Row.TheVariants.{Loads};
ghost use Rattle.byteorder.specs.Endian.{big_number};
ghost use Rattle.ivy_model.specs.Rows.{numbers_in};
ghost use Rattle.ivy_pagetable.specs.WordRows.{out_in};
ghost use Rattle.ivy_model.specs.stated.Serves.{overwrite};
ghost use Rattle.ivy_coherence.specs.stated.Several.{all_carried, first_out, later_outs};
ghost use Rattle.ivy_coherence.specs.Rests.{first_word, row_words, outs_of};

use byteorder::{BigEndian, ByteOrder};
use ivy_model::Row;
use ivy_pagetable::{Out, Page, Word};
use std::alloc::{AllocError, Allocator};
use std::marker::Model;

/// Words of 8 bytes in a row, each behind the one before: first they wait, then their answers are there.
///
/// Their bytes stand in `bytes`, which is as long as a page, where they lie in the page: with what lies around them copied
/// there too, it is the page on which they were stored.
#[derive(Drop)]
pub(crate) struct Rest<A: Allocator> {
    kind: Row,
    /// The place in the page of the first word that waits, or whose answer was not taken yet.
    offset: u32,
    /// How many words wait.
    waiting: usize,
    /// How many answers are there that were not taken yet.
    left: usize,
    bytes: Vec<u8, A>,
}

impl<A: Allocator> Model for Rest<A> {
    ghost use Rattle.std.specs.Prelude.{◌≡◌, ◌+◌, ◌*◌, ◌%◌, ◌^◌, ◌<◌, ◌≤◌, length};
    ghost use Rattle.ivy_coherence.specs.Rests.{Behind, behind};

    ghost Value = { Behind };

    ghost view = { λ r. behind r.kind r.offset r.waiting r.left r.bytes.items };

    ghost invariant = { λ r. (r.offset % 8 ≡ 0)
        × (r.offset + 8 * r.waiting ≤ length r.bytes.items)
        × (r.offset + 8 * r.left ≤ length r.bytes.items)
        × (length r.bytes.items < 2 ^ 32)
        × (1 ≤ r.waiting → r.left ≡ 0) };
}

/// The number in the word at this place.
fn number_at(bytes: &[u8], at: usize) -> u64
    requires { at + 8 ≤ length bytes.now }
    ensures { result ≡ big_number 8 (drop at bytes.now) }
{
    BigEndian::read_u64(&bytes[at..])
}

/// Copies bytes over those at a place.
fn put(into: &mut [u8], start: usize, from: &[u8])
    requires { start + length from.now ≤ length into.old }
    ensures bytes { into.new ≡ overwrite into.old start from.now }
    ensures sized { length into.new ≡ length into.old }
    ensures fact { All (λ b. b < 256) into.old }
{
    into[start..start + from.len()].copy_from_slice(from);
}

/// The first word of a row from this place in its page on, whose numbers are in these bytes.
pub(crate) fn word_at(kind: Row, offset: u32, bytes: &[u8]) -> Word
    requires { 8 ≤ length bytes.now }
    ensures { result ≡ first_word kind offset bytes.now }
{
    match kind {
        Row::Loads => Word::Load { width: 8, offset },
        Row::Stores => Word::Store {
            width: 8,
            offset,
            value: number_at(bytes, 0),
        },
    }
}

/// What the word at this place gives.
fn out_at(kind: Row, bytes: &[u8], at: usize) -> Out
    requires { at + 8 ≤ length bytes.now }
    ensures { result ≡ out_in kind (big_number 8 (drop at bytes.now)) }
{
    match kind {
        Row::Loads => Out::Value(number_at(bytes, at)),
        Row::Stores => Out::Done,
    }
}

/// Whether both are of one kind.
fn is_same(one: Row, other: Row) -> bool
    ensures same { result ≡ true → one ≡ other }
    ensures apart { result ≡ false → one ≢ other }
{
    match one {
        Row::Loads => match other {
            Row::Loads => true,
            Row::Stores => false,
        },
        Row::Stores => match other {
            Row::Loads => false,
            Row::Stores => true,
        },
    }
}

/// The number of what a word of a row gave, or 0 of a store; none where it is no word of this kind.
pub(crate) fn number_of(kind: Row, out: Option<Out>) -> Option<u64>
    ensures some { IfSome result (λ number. out ≡ Some (out_in kind number)) }
    ensures none { IfNone result ((more : List Out) → given_there kind out more ≡ 0) }
{
    match kind {
        Row::Loads => match out? {
            Out::Value(number) => Some(number),
            Out::Done | Out::Full | Out::NotYet => None,
        },
        Row::Stores => match out? {
            Out::Done => Some(0),
            Out::Value(_) | Out::Full | Out::NotYet => None,
        },
    }
}

/// Writes the number of the first word of a row, where words were loaded.
pub(crate) fn put_number(kind: Row, into: &mut [u8], number: u64)
    requires { kind ≡ Loads → 8 ≤ length into.old }
    ensures number { out_in kind (big_number 8 into.new) ≡ out_in kind number }
    ensures rest { drop 8 into.new ≡ drop 8 into.old }
    ensures sized { length into.new ≡ length into.old }
{
    match kind {
        Row::Loads => BigEndian::write_u64(into, number),
        Row::Stores => {}
    }
}

/// Copies the numbers of so many words, where words were loaded, behind the first one.
fn copy_numbers(kind: Row, from: &[u8], start: usize, words: usize, into: &mut [u8])
    requires within { start + 8 * words ≤ length from.now }
    requires room { kind ≡ Loads → 8 + 8 * words ≤ length into.old }
    ensures outs { outs_of kind (numbers_in words (drop 8 into.new))
        ≡ outs_of kind (numbers_in words (drop start from.now)) }
    ensures sized { length into.new ≡ length into.old }
{
    match kind {
        Row::Loads => put(into, 8, &from[start..start + 8 * words]),
        Row::Stores => {}
    }
}

/// Carries so many words of a row out on a page. The bytes of the row stand where they lie in the page: loads copy them
/// from there, stores copy what lies around them from there, and then all to the page.
fn carry_row<A: Allocator>(
    kind: Row,
    start: usize,
    words: usize,
    bytes: &mut [u8],
    page: &mut Page<A>,
)
    requires aligned { start % 8 ≡ 0 }
    requires within { start + 8 * words ≤ length page.old }
    requires sized { length bytes.old ≡ length page.old }
    ensures words { row_words kind start (numbers_in words (drop start bytes.new))
        ≡ row_words kind start (numbers_in words (drop start bytes.old)) }
    ensures came { outs_of kind (numbers_in words (drop start bytes.new))
        ≡ (all_carried (row_words kind start (numbers_in words (drop start bytes.old))) page.old).outs }
    ensures page { page.new
        ≡ (all_carried (row_words kind start (numbers_in words (drop start bytes.old))) page.old).bytes }
    ensures sized { length page.new ≡ length page.old }
    ensures kept { length bytes.new ≡ length bytes.old }
{
    let end = start + 8 * words;
    match kind {
        Row::Loads => put(bytes, start, &page.bytes()[start..end]),
        Row::Stores => {
            put(bytes, 0, &page.bytes()[..start]);
            put(bytes, end, &page.bytes()[end..]);
            page.copy_from(bytes);
        }
    }
}

impl<A: Allocator> Rest<A> {
    /// Room for the words of a page of this size; none waits. Err only where the allocator has no memory.
    pub(crate) fn new(alloc: A, page_size: u32) -> Result<Self, AllocError>
        ensures { IfOk result (λ r. r ≡ record { size = page_size; words = []; came = []; outs = [] }) }
    {
        Ok(Rest {
            kind: Row::Loads,
            offset: 0,
            waiting: 0,
            left: 0,
            bytes: vec![in alloc; 0u8; page_size as usize]?,
        })
    }

    /// Sets how many words wait, from this place in the page on; their numbers are in these bytes, of which loads
    /// need none.
    pub(crate) fn wait(&mut self, kind: Row, offset: u32, words: usize, bytes: &[u8])
        requires aligned { offset % 8 ≡ 0 }
        requires within { offset + 8 * words ≤ self.old.size }
        requires many { 8 * words ≤ length bytes.now }
        ensures { self.new ≡ record {
          size = self.old.size;
          words = row_words kind offset (numbers_in words bytes.now);
          came = outs_of kind (numbers_in words bytes.now);
          outs = [];
        } }
    {
        put(&mut self.bytes, offset as usize, &bytes[..8 * words]);
        self.kind = kind;
        self.offset = offset;
        self.waiting = words;
        self.left = 0;
    }

    /// Carries the words that wait out on the page, one after another. They wait still, so that a page that is given up
    /// leaves all as it was.
    pub(crate) fn carry(&mut self, page: &mut Page<A>)
        requires { length page.old ≡ self.old.size }
        ensures size { self.new.size ≡ self.old.size }
        ensures words { self.new.words ≡ self.old.words }
        ensures outs { self.new.outs ≡ self.old.outs }
        ensures came { self.new.came ≡ (all_carried self.old.words page.old).outs }
        ensures bytes { page.new ≡ (all_carried self.old.words page.old).bytes }
        ensures sized { length page.new ≡ length page.old }
    {
        if self.waiting == 0 {
            return;
        }
        let start = self.offset as usize;
        carry_row(self.kind, start, self.waiting, &mut self.bytes, page);
    }

    /// The words that wait were carried out for good: none waits any more, and their answers are there.
    pub(crate) fn end(&mut self)
        ensures { self.new ≡ record {
          size = self.old.size;
          words = [];
          came = [];
          outs = self.old.came;
        } }
    {
        self.left = self.waiting;
        self.waiting = 0;
    }

    /// No word waits, and no answer is there.
    pub(crate) fn clear(&mut self)
        ensures { self.new ≡ record {
          size = self.old.size;
          words = [];
          came = [];
          outs = [];
        } }
    {
        self.waiting = 0;
        self.left = 0;
    }

    /// Takes the first answer that was not taken yet.
    pub(crate) fn take(&mut self) -> Option<Out>
        ensures out { result ≡ first_out self.old.outs }
        ensures rest { self.new ≡ record self.old { outs = later_outs self.old.outs } }
    {
        if self.left == 0 {
            return None;
        }
        let out = out_at(self.kind, &self.bytes, self.offset as usize);
        self.offset += 8;
        self.left -= 1;
        Some(out)
    }

    /// Takes as many answers as are left, of words of this kind, but at most so many, and says how many. The numbers of words that
    /// were loaded are copied behind the first 8 bytes.
    pub(crate) fn take_row(&mut self, kind: Row, most: usize, into: &mut [u8]) -> usize
        requires room { kind ≡ Loads → 8 + 8 * most ≤ length into.old }
        ensures many { result ≡ min most (given kind self.old.outs) }
        ensures size { self.new.size ≡ self.old.size }
        ensures words { self.new.words ≡ self.old.words }
        ensures came { self.new.came ≡ self.old.came }
        ensures outs { self.old.outs
            ≡ outs_of kind (numbers_in result (drop 8 into.new)) ++ self.new.outs }
        ensures sized { length into.new ≡ length into.old }
    {
        if !is_same(kind, self.kind) {
            return 0;
        }
        let words = most.min(self.left);
        copy_numbers(kind, &self.bytes, self.offset as usize, words, into);
        self.offset += 8 * words as u32;
        self.left -= words;
        words
    }

    /// How many answers are left.
    pub(crate) fn left(&self) -> usize
        ensures { result ≡ length self.now.outs }
    {
        self.left
    }

    /// How many answers are left, if they are of words of this kind; else 0.
    pub(crate) fn given(&self, kind: Row) -> usize
        ensures { result ≡ given kind self.now.outs }
    {
        if is_same(kind, self.kind) {
            self.left
        } else {
            0
        }
    }

    /// Whether words wait.
    pub(crate) fn is_waiting(&self) -> bool
        ensures none { result ≡ false → self.now.words ≡ [] }
        ensures some { result ≡ true → self.now.words ≢ [] }
    {
        self.waiting != 0
    }

    /// Whether no answer is there that was not taken yet.
    pub(crate) fn is_taken(&self) -> bool
        ensures none { result ≡ true → self.now.outs ≡ [] }
        ensures some { result ≡ false → self.now.outs ≢ [] }
    {
        self.left == 0
    }
}
