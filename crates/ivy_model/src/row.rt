//! Words in a row.
ghost use Rattle.std.specs.Prelude.{◌≡◌, ◌+◌, ◌-◌, ◌*◌, ◌^◌, ◌<◌, ◌≤◌, length, drop, slice_get};
ghost use Rattle.byteorder.specs.Endian.{big_number};
ghost use Rattle.ivy_model.specs.Rows.{numbers_in, record_in, row};

use crate::call::{Call, Record, Reply};
use byteorder::{BigEndian, ByteOrder};

/// What is done to words of 8 bytes of which each lies behind the one before: a block is read or written.
#[derive(Clone, Copy, Debug, PartialEq, Eq)]
pub enum Row {
    /// Each word is loaded.
    Loads,
    /// Each word is stored.
    Stores,
}

/// The number in the word at this place.
fn number_at(bytes: &[u8], at: usize) -> u64
    requires { at + 8 ≤ length bytes.now }
    ensures { result ≡ big_number 8 (drop at bytes.now) }
{
    BigEndian::read_u64(&bytes[at..])
}

impl Row {
    /// The record of the word at `addr`, of node `node`, that has this number.
    pub fn record(self, node: u8, addr: u64, number: u64) -> Record
        ensures { result ≡ record_in self node addr number }
    {
        match self {
            Row::Loads => Record {
                node,
                call: Call::Load { width: 8, addr },
                reply: Reply::Value(number),
            },
            Row::Stores => Record {
                node,
                call: Call::Store {
                    width: 8,
                    addr,
                    value: number,
                },
                reply: Reply::Done,
            },
        }
    }
    /// The record of the last of so many words from `addr` on, of node `node`, whose bytes these are; none of no words.
    pub fn last(self, node: u8, addr: u64, words: usize, bytes: &[u8]) -> Option<Record>
        requires within { 8 * words ≤ length bytes.now }
        requires small { addr + 8 * words < 2 ^ 64 }
        ensures { result ≡ slice_get (row self node addr (numbers_in words bytes.now)) (words - 1) }
    {
        if words == 0 {
            return None;
        }
        let last = 8 * (words - 1);
        let number = number_at(bytes, last);
        Some(self.record(node, addr + last as u64, number))
    }
}
