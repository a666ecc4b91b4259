//! Calls that are made along with the one in progress.
ghost use Rattle.std.specs.Prelude.{◌≡◌, ◌+◌, ◌*◌, ◌^◌, ◌<◌, ◌≤◌, ℕ, true, List, [], length, take, drop, slice_get, IfOk};
ghost use Rattle.ivy_model.specs.declared.Row.TheVariants.{Loads, Stores};
ghost use Rattle.ivy_model.specs.Rows.{numbers_in};
ghost use Rattle.ivy_memory.specs.BatchedCalls.{row_calls, first_call};

use byteorder::{BigEndian, ByteOrder};
use ivy_model::{Call, Row};
use std::alloc::{AllocError, Allocator};
use std::marker::Model;

/// The calls of a row that are left: words of 8 bytes, each behind the one before.
#[derive(Drop)]
pub(crate) struct Rest<A: Allocator> {
    kind: Row,
    /// The address of the next.
    addr: u64,
    left: usize,
    /// Where the number of the next stands in the bytes, which loads do not look at.
    at: usize,
    bytes: Vec<u8, A>,
}

impl<A: Allocator> Model for Rest<A> {
    ghost use Rattle.std.specs.Prelude.{◌≡◌, ◌+◌, ◌*◌, ◌^◌, ◌<◌, ◌≤◌, length};
    ghost use Rattle.ivy_memory.specs.BatchedCalls.{CallsAlong, calls_left};

    ghost Value = { CallsAlong };

    ghost view = { λ r. calls_left r.kind r.addr r.left r.at r.bytes.items };

    ghost invariant = { λ r. (r.at + 8 * r.left ≤ length r.bytes.items)
        × (r.addr + 8 * r.left < 2 ^ 64) };
}

/// The first call of a row from this address on, whose number is in these bytes.
pub(crate) fn first_call(kind: Row, addr: u64, bytes: &[u8]) -> Call
    requires { 8 ≤ length bytes.now }
    ensures { result ≡ first_call kind addr bytes.now }
{
    kind.record(0, addr, BigEndian::read_u64(bytes)).call
}

/// Copies so many bytes over the first ones.
fn put(into: &mut [u8], from: &[u8], many: usize)
    requires room { many ≤ length into.old }
    requires many { many ≤ length from.now }
    ensures bytes { take many into.new ≡ take many from.now }
    ensures sized { length into.new ≡ length into.old }
{
    into[..many].copy_from_slice(&from[..many]);
}

/// Whether so many words have the same bytes here and there, and so the same numbers.
fn are_same(own: &[u8], from: &[u8], words: usize) -> bool
    requires own { 8 * words ≤ length own.now }
    requires from { 8 * words ≤ length from.now }
    ensures bytes { result ≡ true → take (8 * words) own.now ≡ take (8 * words) from.now }
    ensures each { numbers_in words own.now ≡ numbers_in words from.now → result ≡ true }
{
    let len = 8 * words;
    own[..len] == from[..len]
}

impl<A: Allocator> Rest<A> {
    /// Room for the calls of a row in a page of this size; none is left. Err only where the allocator has no memory.
    pub(crate) fn new(alloc: A, page_size: u32) -> Result<Self, AllocError>
        ensures { IfOk result (λ r. r ≡ record { size = page_size; calls = [] }) }
    {
        Ok(Rest {
            kind: Row::Loads,
            addr: 0,
            left: 0,
            at: 0,
            bytes: vec![in alloc; 0u8; page_size as usize]?,
        })
    }

    /// Sets how many calls are left, from this address on; their numbers are in these bytes.
    pub(crate) fn set(&mut self, kind: Row, addr: u64, words: usize, bytes: &[u8])
        requires below { addr + 8 * words < 2 ^ 64 }
        requires room { 8 * words ≤ self.old.size }
        requires many { 8 * words ≤ length bytes.now }
        ensures { self.new ≡ record { size = self.old.size; calls = row_calls kind addr words bytes.now } }
    {
        put(&mut self.bytes, bytes, 8 * words);
        self.kind = kind;
        self.addr = addr;
        self.left = words;
        self.at = 0;
    }

    /// None is left.
    pub(crate) fn clear(&mut self)
        ensures { self.new ≡ record { size = self.old.size; calls = [] } }
    {
        self.left = 0;
    }

    /// How many are left.
    pub(crate) fn left(&self) -> usize
        ensures { result ≡ length self.now.calls }
    {
        self.left
    }

    /// Whether those that are left are loads of a row, behind a first one at this address.
    pub(crate) fn are_loads(&self, addr: u64) -> bool
        ensures calls { result ≡ true → (bytes : List ℕ) →
            self.now.calls ≡ row_calls Loads (addr + 8) (length self.now.calls) bytes }
        ensures each { (bytes : List ℕ) →
            self.now.calls ≡ row_calls Loads (addr + 8) (length self.now.calls) bytes → result ≡ true }
    {
        if self.left == 0 {
            return true;
        }
        match self.kind {
            Row::Loads => self.addr >= 8 && self.addr - 8 == addr,
            Row::Stores => false,
        }
    }

    /// Whether those that are left are stores of a row, behind a first one at this address; their numbers are in these bytes.
    pub(crate) fn are_stores(&self, addr: u64, from: &[u8]) -> bool
        requires many { 8 * length self.now.calls ≤ length from.now }
        ensures calls { result ≡ true →
            self.now.calls ≡ row_calls Stores (addr + 8) (length self.now.calls) from.now }
        ensures each { self.now.calls ≡ row_calls Stores (addr + 8) (length self.now.calls) from.now
            → result ≡ true }
    {
        if self.left == 0 {
            return true;
        }
        if self.addr < 8 || self.addr - 8 != addr {
            return false;
        }
        match self.kind {
            Row::Loads => false,
            Row::Stores => are_same(&self.bytes[self.at..], from, self.left),
        }
    }

    /// Takes the first of those that are left.
    pub(crate) fn take(&mut self) -> Option<Call>
        ensures next { result ≡ slice_get self.old.calls 0 }
        ensures rest { self.new ≡ record { size = self.old.size; calls = drop 1 self.old.calls } }
    {
        if self.left == 0 {
            return None;
        }
        let next = first_call(self.kind, self.addr, &self.bytes[self.at..]);
        self.addr += 8;
        self.at += 8;
        self.left -= 1;
        Some(next)
    }
}
