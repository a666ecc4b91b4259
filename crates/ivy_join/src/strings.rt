//! The strings that nodes sent, found by their bytes.
ghost use Rattle.std.specs.Prelude.{◌≡◌, ◌↔◌, [], IsTrue, OnOk, Contains};
ghost use Rattle.ivy_join.specs.ReplaySites.{AddsOne};
ghost use Rattle.ivy_join.specs.Latest.{hash_of};

use ivy_wire::Bytes;
use std::alloc::{AllocError, Allocator};
use std::collections::BTreeMap;
use std::marker::Model;

/// The offset and the factor of the hash FNV-1a in 64 bits (Fowler, Noll and Vo).
const OFFSET: u64 = 0xcbf2_9ce4_8422_2325;

const FACTOR: u64 = 0x0000_0100_0000_01b3;

/// Strings, each kept once.
#[derive(Drop)]
pub(crate) struct Strings<A: Allocator> {
    strings: Vec<Bytes<A>, A>,
    /// Of each string the place of the one before it with the same hash.
    earlier: Vec<Option<usize>, A>,
    /// The last place of each hash.
    last: BTreeMap<u64, usize, A>,
}

impl<A: Allocator> Model for Strings<A> {
    ghost use Rattle.std.specs.Prelude.{List, ℕ};

    ghost Value = { List (List ℕ) };

    ghost view = { λ s. s.strings.items };

    ghost use Rattle.std.specs.BTreeMap.{get};
    ghost use Rattle.std.specs.Ordering.{nat_cmp};
    ghost use Rattle.ivy_join.specs.Latest.{AreChained};

    ghost invariant = { λ s. AreChained s.strings.items s.earlier.items (get nat_cmp s.last) };
}

fn hash_of(bytes: &[u8]) -> u64
    ensures { result ≡ hash_of bytes.now }
{
    let mut hash = OFFSET;
    for byte in bytes {
        hash = (hash ^ u64::from(*byte)).wrapping_mul(FACTOR);
    }
    hash
}

impl<A: Allocator + Copy> Strings<A> {
    /// No strings. It takes no memory.
    pub(crate) fn new(alloc: A) -> Self
        ensures { result ≡ [] }
    {
        Strings {
            strings: Vec::new(alloc),
            earlier: Vec::new(alloc),
            last: BTreeMap::new(alloc),
        }
    }

    /// Whether these bytes are one of the strings.
    pub(crate) fn contains(&self, bytes: &[u8]) -> bool
        ensures { IsTrue result ↔ Contains self.now bytes.now }
    {
        let mut next = self.last.get(&hash_of(bytes)).copied();
        while let Some(place) = next {
            if self.strings[place].bytes() == bytes {
                return true;
            }
            next = self.earlier[place];
        }
        false
    }

    /// Adds a string, where it is none of them yet. Err only where the allocator has no memory; they are the same then.
    pub(crate) fn add(&mut self, string: Bytes<A>) -> Result<(), AllocError>
        ensures one { AddsOne string self.old self.new }
        ensures there { OnOk result (Contains self.new string) }
    {
        if self.contains(string.bytes()) {
            return Ok(());
        }
        self.strings.reserve(1)?;
        self.earlier.reserve(1)?;
        let place = self.strings.len();
        let earlier = self.last.insert(hash_of(string.bytes()), place)?;
        self.earlier.push_reserved(earlier);
        self.strings.push_reserved(string);
        Ok(())
    }
}
