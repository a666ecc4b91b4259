ghost use Rattle.std.specs.Prelude.{◌≡◌, ◌+◌, ◌^◌, ◌<◌, ◌≤◌, ℕ, List, false, length, All, if◌then◌else◌, ◌==◌};
ghost use Rattle.byteorder.specs.Endian.{big_bytes};
ghost use Rattle.ivy_model.specs.stated.Legal.{IsWidth};
ghost use Rattle.ivy_model.specs.stated.Serves.{overwrite};
ghost use Rattle.ivy_pagetable.specs.stated.Words.{IsWord, needs_write, width_of, offset_of, word_with, number_at, access_outcome, advanced, awaited, outcome_of, carried_out, fetch_word};

use byteorder::{BigEndian, ByteOrder};
use ivy_model::{Act, Reply};

/// An access to one aligned word of a page. `offset` is its first byte's place in the page, and
/// `width` its number of bytes, 1, 2, 4 or 8; an eventcount is a word of 8. Numbers stand with
/// their highest byte first.
#[derive(Clone, Copy, Debug, PartialEq, Eq)]
pub enum Word {
    /// The number there.
    Load {
        width: u8,
        offset: u32,
    },
    /// Puts the lowest `width` bytes of the value there.
    Store {
        width: u8,
        offset: u32,
        value: u64,
    },
    /// The number there, in whose place it puts the lowest `width` bytes of the value.
    Swap {
        width: u8,
        offset: u32,
        value: u64,
    },
    /// The number there, in whose place it puts the lowest `width` bytes of the value where that number is the
    /// one in the lowest `width` bytes of `expected`.
    Cas {
        width: u8,
        offset: u32,
        expected: u64,
        value: u64,
    },
    /// The number there, in whose place it puts the sum of it and the value, modulo 2^(8·`width`).
    FetchAdd {
        width: u8,
        offset: u32,
        value: u64,
    },
    /// The eventcount there.
    Count {
        offset: u32,
    },
    /// Adds one to the eventcount there.
    Advance {
        offset: u32,
    },
    /// The eventcount there, once it is at least `least`.
    Await {
        offset: u32,
        least: u64,
    },
}

/// What carrying out a word gives.
#[derive(Clone, Copy, Debug, PartialEq, Eq)]
pub enum Out {
    /// The number that was read.
    Value(u64),
    /// It was written.
    Done,
    /// The eventcount is at its greatest value, and stays there.
    Full,
    /// The eventcount is below the least value that is awaited.
    NotYet,
}

/// What a word gives, and the number that it puts in its place, if it writes it.
#[derive(Clone, Copy, Debug, PartialEq, Eq)]
pub(crate) struct Outcome {
    out: Out,
    next: Option<u64>,
}

impl Word {
    /// The word with which an access does this, of so many bytes and at this place in its page.
    pub fn new(act: Act, width: u8, offset: u32) -> Word
        ensures { result ≡ word_with width offset act }
    {
        match act {
            Act::Load => Word::Load { width, offset },
            Act::Store { value } => Word::Store {
                width,
                offset,
                value,
            },
            Act::Swap { value } => Word::Swap {
                width,
                offset,
                value,
            },
            Act::Cas { expected, value } => Word::Cas {
                width,
                offset,
                expected,
                value,
            },
            Act::FetchAdd { value } => Word::FetchAdd {
                width,
                offset,
                value,
            },
        }
    }

    /// The word of a fetch, which asks for a page to read or to write: one of its kind that changes nothing.
    pub fn of_fetch(write: bool) -> Word
        ensures word { result ≡ fetch_word write }
        ensures lies { (size : ℕ) → 1 ≤ size → IsWord size result }
        ensures writes { needs_write result ≡ write }
        ensures unchanged { (bytes : List ℕ) → 1 ≤ length bytes → All (λ b. b < 256) bytes → (carried_out result bytes).bytes ≡ bytes }
    {
        if write {
            Word::FetchAdd {
                width: 1,
                offset: 0,
                value: 0,
            }
        } else {
            Word::Load {
                width: 1,
                offset: 0,
            }
        }
    }

    /// Whether the word is written, and so needs the access to write; the others need the access
    /// to read.
    #[inline(always)]
    pub fn needs_write(self) -> bool
        ensures { result ≡ needs_write self }
    {
        match self {
            Word::Store { .. }
            | Word::Swap { .. }
            | Word::Cas { .. }
            | Word::FetchAdd { .. }
            | Word::Advance { .. } => true,
            Word::Load { .. } | Word::Count { .. } | Word::Await { .. } => false,
        }
    }

    /// Its number of bytes.
    #[inline(always)]
    pub fn width(self) -> u8
        ensures { result ≡ width_of self }
    {
        match self {
            Word::Load { width, .. }
            | Word::Store { width, .. }
            | Word::Swap { width, .. }
            | Word::Cas { width, .. }
            | Word::FetchAdd { width, .. } => width,
            Word::Count { .. } | Word::Advance { .. } | Word::Await { .. } => COUNT_WIDTH,
        }
    }

    /// The place of its first byte in the page.
    #[inline(always)]
    pub fn offset(self) -> u32
        ensures { result ≡ offset_of self }
    {
        match self {
            Word::Load { offset, .. }
            | Word::Store { offset, .. }
            | Word::Swap { offset, .. }
            | Word::Cas { offset, .. }
            | Word::FetchAdd { offset, .. }
            | Word::Count { offset }
            | Word::Advance { offset }
            | Word::Await { offset, .. } => offset,
        }
    }

    #[inline(always)]
    pub(crate) fn number(self, bytes: &[u8]) -> u64
        requires { IsWord (length bytes.now) self }
        ensures number { result ≡ number_at (width_of self) (offset_of self) bytes.now }
        ensures fact { All (λ b. b < 256) bytes.now }
    {
        number_at(bytes, self.width(), self.offset())
    }

    /// Carries the word out on the bytes of its page.
    #[inline(always)]
    pub fn carry_out(self, bytes: &mut [u8]) -> Out
        requires { IsWord (length bytes.old) self }
        ensures out { result ≡ (carried_out self bytes.old).out }
        ensures bytes { bytes.new ≡ (carried_out self bytes.old).bytes }
        ensures sized { length bytes.new ≡ length bytes.old }
    {
        let outcome = self.outcome(self.number(bytes));
        if let Some(value) = outcome.next {
            overwrite(bytes, self.width(), self.offset(), value);
        }
        outcome.out
    }

    /// What a word that is not written gives, from the bytes of its page.
    pub(crate) fn read(self, bytes: &[u8]) -> Out
        requires word { IsWord (length bytes.now) self }
        requires reads { needs_write self ≡ false }
        ensures out { result ≡ (carried_out self bytes.now).out }
        ensures bytes { (carried_out self bytes.now).bytes ≡ bytes.now }
    {
        self.outcome(self.number(bytes)).out
    }

    /// What the word comes to, from the number that stands in its place.
    #[inline(always)]
    fn outcome(self, number: u64) -> Outcome
        requires { IsWidth (width_of self) }
        ensures { result ≡ outcome_of self number }
    {
        match self {
            Word::Load { width, .. } => access_outcome(Act::Load, width, number),
            Word::Store { width, value, .. } => access_outcome(Act::Store { value }, width, number),
            Word::Swap { width, value, .. } => access_outcome(Act::Swap { value }, width, number),
            Word::Cas {
                width,
                expected,
                value,
                ..
            } => access_outcome(Act::Cas { expected, value }, width, number),
            Word::FetchAdd { width, value, .. } => access_outcome(
                Act::FetchAdd { value },
                width,
                number,
            ),
            Word::Count { .. } => Outcome {
                out: Out::Value(number),
                next: None,
            },
            Word::Advance { .. } => advanced(number),
            Word::Await { least, .. } => Outcome {
                out: awaited(number, least),
                next: None,
            },
        }
    }
}

const COUNT_WIDTH: u8 = 8;

#[inline(always)]
fn number_at(bytes: &[u8], width: u8, offset: u32) -> u64
    requires width { IsWidth width }
    requires within { offset + width ≤ length bytes.now }
    ensures { result ≡ number_at width offset bytes.now }
{
    let word = &bytes[offset as usize..];
    // the width of most words, whose bytes are one load
    if width == 8 {
        return BigEndian::read_u64(word);
    }
    BigEndian::read_uint(word, usize::from(width))
}

#[inline(always)]
fn overwrite(bytes: &mut [u8], width: u8, offset: u32, value: u64)
    requires width { IsWidth width }
    requires within { offset + width ≤ length bytes.old }
    ensures { bytes.new ≡ overwrite bytes.old offset (big_bytes width value) }
{
    let start = offset as usize;
    // the width of most words, whose bytes are one store
    if width == 8 {
        bytes[start..start + 8].copy_from_slice(&value.to_be_bytes());
        return;
    }
    let width = usize::from(width);
    bytes[start..start + width].copy_from_slice(&value.to_be_bytes()[8 - width..]);
}

/// What an access to a word of so many bytes comes to, from the number that stands there.
#[inline(always)]
fn access_outcome(act: Act, width: u8, number: u64) -> Outcome
    requires { IsWidth width }
    ensures { result ≡ access_outcome width act number }
{
    let out = match act.reply(number) {
        Reply::Value(number) => Out::Value(number),
        _ => Out::Done,
    };
    Outcome {
        out,
        next: act.next(width, number),
    }
}

fn advanced(count: u64) -> Outcome
    ensures { result ≡ advanced count }
{
    if count == u64::MAX {
        return Outcome {
            out: Out::Full,
            next: None,
        };
    }
    Outcome {
        out: Out::Done,
        next: Some(count + 1),
    }
}

fn awaited(count: u64, least: u64) -> Out
    ensures { result ≡ awaited count least }
{
    if least <= count {
        Out::Value(count)
    } else {
        Out::NotYet
    }
}
