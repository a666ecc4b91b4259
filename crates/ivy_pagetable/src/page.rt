ghost use Rattle.std.specs.Prelude.{◌≡◌, ◌≢◌, ◌==◌, ◌+◌, ◌≤◌, ℕ, List, [], length, replicate, IfOk, OnOk, OnErr};
ghost use Rattle.ivy_model.specs.stated.Serves.{overwrite};
ghost use Rattle.ivy_pagetable.specs.Pages.{shown_page};
ghost use Rattle.ivy_pagetable.specs.stated.Words.{IsWord, carried_out};

use crate::row::put;
use crate::word::{Out, Word};
use std::alloc::{AllocError, Allocator};
use std::marker::Model;

/// The bytes of a page that are not those of a table.
#[derive(Drop)]
pub struct Page<A: Allocator> {
    bytes: Vec<u8, A>,
}

impl<A: Allocator> Model for Page<A> {
    ghost Value = { List ℕ };

    ghost view = { λ page. page.bytes.items };
}

impl<A: Allocator> Page<A> {
    /// A page of this many zeros. Err only where the allocator has no memory.
    pub fn zeros(alloc: A, len: usize) -> Result<Self, AllocError>
        ensures { IfOk result (λ page. page ≡ replicate len 0) }
    {
        Ok(Page {
            bytes: vec![in alloc; 0u8; len]?,
        })
    }

    /// A page that has no bytes yet. It takes no memory.
    pub(crate) fn none(alloc: A) -> Self
        ensures { result ≡ [] }
    {
        Page {
            bytes: Vec::new(alloc),
        }
    }

    /// Whether the page has no bytes yet.
    pub(crate) fn is_none(&self) -> bool
        ensures { result ≡ (length self.now == 0) }
    {
        self.bytes.is_empty()
    }

    /// Gives a page that has no bytes yet this many zeros. Err only where the allocator has no memory;
    /// then the page is as it was.
    pub(crate) fn make(&mut self, len: usize) -> Result<(), AllocError>
        ensures ok { OnOk result (self.new ≡ shown_page len self.old) }
        ensures sure { OnErr result (self.old ≡ []) }
        ensures err { OnErr result (self.new ≡ self.old) }
    {
        if self.bytes.is_empty() {
            self.bytes.resize(len, 0)?;
        }
        Ok(())
    }

    /// Gives the page this many bytes, whatever they are. Err only where it had another number of them, and the
    /// allocator has no memory; then the page is as it was.
    pub fn size(&mut self, len: usize) -> Result<(), AllocError>
        ensures ok { OnOk result (length self.new ≡ len) }
        ensures sure { OnErr result (length self.old ≢ len) }
        ensures err { OnErr result (self.new ≡ self.old) }
    {
        if self.bytes.len() != len {
            self.bytes.resize(len, 0)?;
        }
        Ok(())
    }

    /// Gives the page these bytes. Err only where it had another number of bytes, and the allocator has
    /// no memory; then the page is as it was.
    pub fn fill(&mut self, bytes: &[u8]) -> Result<(), AllocError>
        ensures ok { OnOk result (self.new ≡ bytes.now) }
        ensures sure { OnErr result (length self.old ≢ length bytes.now) }
        ensures err { OnErr result (self.new ≡ self.old) }
    {
        self.size(bytes.len())?;
        self.copy_from(bytes);
        Ok(())
    }

    /// Each of its bytes is 0 from now on.
    pub(crate) fn clear(&mut self)
        ensures { self.new ≡ replicate (length self.old) 0 }
    {
        self.bytes.fill(0);
    }

    /// Copies bytes over those at a place in the page.
    pub(crate) fn put(&mut self, start: usize, from: &[u8])
        requires { start + length from.now ≤ length self.old }
        ensures bytes { self.new ≡ overwrite self.old start from.now }
        ensures sized { length self.new ≡ length self.old }
    {
        put(&mut self.bytes, start, from);
    }

    /// The bytes, lent.
    pub fn bytes(&self) -> &[u8]
        ensures { result.now ≡ self.now }
    {
        &self.bytes
    }

    /// Copies these bytes to the page, as many as it has.
    pub fn copy_from(&mut self, bytes: &[u8])
        requires { length bytes.now ≡ length self.old }
        ensures { self.new ≡ bytes.now }
    {
        self.bytes.copy_from_slice(bytes);
    }

    /// Carries a word out on the page.
    pub fn carry_out(&mut self, word: Word) -> Out
        requires { IsWord (length self.old) word }
        ensures out { result ≡ (carried_out word self.old).out }
        ensures bytes { self.new ≡ (carried_out word self.old).bytes }
        ensures sized { length self.new ≡ length self.old }
    {
        word.carry_out(&mut self.bytes)
    }
}
