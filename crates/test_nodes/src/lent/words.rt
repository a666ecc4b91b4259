//! Words of pages, and what accesses do to them.
ghost use Rattle.ivy_model.specs.stated.Legal.{HasWidth};

use ivy_model::{Call, Reply, Row};
use std::process::Abort;

/// A page has so many bytes.
pub(crate) const SIZE: usize = 64;

/// A word of a block has so many.
pub(crate) const WORD: usize = 8;

/// Words of 8 bytes in a row, which lie in one page.
#[derive(Clone, Copy)]
pub(crate) struct Block {
    pub(crate) kind: Row,
    /// The place of the page among those that have images.
    pub(crate) page: usize,
    pub(crate) addr: u64,
    pub(crate) words: usize,
    /// What is stored, at its head, or what was loaded.
    pub(crate) bytes: [u8; SIZE],
}

/// The number that bytes are, the highest first.
fn number_of(bytes: &[u8]) -> u64 {
    let mut number = 0u64;
    for byte in bytes {
        number = number.wrapping_mul(256).wrapping_add(u64::from(*byte));
    }
    number
}

/// Writes the low bytes of a number, as many as there is room for, the highest first.
fn write_number(bytes: &mut [u8], number: u64) {
    let mut rest = number;
    for byte in bytes.iter_mut().rev() {
        *byte = (rest % 256) as u8;
        rest /= 256;
    }
}

/// What an access does to its word, and what it is answered.
pub(crate) fn serve(word: &mut [u8], call: Call) -> Reply {
    let number = number_of(word);
    let written = match call {
        Call::Store { value, .. } | Call::Swap { value, .. } => value,
        Call::FetchAdd { value, .. } => number.wrapping_add(value),
        Call::Cas {
            expected,
            value,
            ..
        } => { if expected == number { value } else { number } }
        _ => number,
    };
    write_number(word, written);
    match call {
        Call::Store { .. } => Reply::Done,
        _ => Reply::Value(number),
    }
}

/// Where an access has its word, and how many bytes this has. None of other calls.
pub(crate) fn word_of(call: Call) -> Option<(u64, usize)> {
    match call {
        Call::Load { width, addr }
        | Call::Store { width, addr, .. }
        | Call::Swap { width, addr, .. }
        | Call::Cas { width, addr, .. }
        | Call::FetchAdd { width, addr, .. } => Some((addr, usize::from(width))),
        _ => None,
    }
}

/// Carries an access out on the bytes of its page.
pub(crate) fn serve_in(rt: &impl Abort, page: &mut [u8], call: Call) -> Reply {
    let (addr, width) = word_of(call).expect(rt, "an access");
    let first = (addr % SIZE as u64) as usize;
    let word = page.get_mut(first..first.wrapping_add(width));
    serve(word.expect(rt, "a word"), call)
}

impl Block {
    /// The bytes of a word.
    fn word(&self, rt: &impl Abort, place: usize) -> u64 {
        let first = place.wrapping_mul(WORD);
        let word = self.bytes.get(first..first.wrapping_add(WORD));
        number_of(word.expect(rt, "a word"))
    }

    /// The call on a word.
    pub(crate) fn call(&self, rt: &impl Abort, place: usize) -> Call
        ensures { HasWidth result }
    {
        let addr = self.addr.wrapping_add(place.wrapping_mul(WORD) as u64);
        match self.kind {
            Row::Loads => Call::Load { width: 8, addr },
            Row::Stores => Call::Store {
                width: 8,
                addr,
                value: self.word(rt, place),
            },
        }
    }

    /// What the call on a word was answered.
    pub(crate) fn reply(&self, rt: &impl Abort, place: usize) -> Reply {
        match self.kind {
            Row::Loads => Reply::Value(self.word(rt, place)),
            Row::Stores => Reply::Done,
        }
    }
}
