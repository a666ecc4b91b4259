//! Strings that are kept.
ghost use Rattle.std.specs.Prelude.{◌≡◌, ◌≤◌, ℕ, List, length, take, IfOk};
ghost use Rattle.std.specs.Arc.{arc_value};
ghost use Rattle.ivy_wire.specs.Texts.{text_bytes};

use std::alloc::{AllocError, Allocator};
use std::marker::Model;
use std::sync::Arc;

/// Strings of at most so many bytes lie beside the count of their owners. No frame without a page is longer.
pub(crate) const SHORT: usize = 42;

/// Where the bytes of a string lie.
#[derive(Drop)]
#[derive_where(Debug)]
enum Text<A: Allocator> {
    /// The first ones, so many, of these.
    Short(u8, [u8; SHORT]),
    Long(Vec<u8, A>),
}

/// A string of bytes, which may have several owners. Nobody changes it.
#[derive(Drop)]
#[derive_where(Debug)]
pub struct Bytes<A: Allocator> {
    text: Arc<Text<A>, A>,
}

impl<A: Allocator> Model for Bytes<A> {
    ghost Value = { List ℕ };

    ghost view = { λ a. text_bytes (arc_value a.text) };
}

/// The text of so few bytes.
fn short<A: Allocator>(bytes: &[u8]) -> Text<A>
    requires { length bytes.now ≤ 42 }
    ensures { text_bytes result ≡ bytes.now }
{
    let mut cells = [0u8; SHORT];
    cells[..bytes.len()].copy_from_slice(bytes);
    Text::Short(bytes.len() as u8, cells)
}

/// The first bytes, so many, or all where there are fewer.
#[tactic(auto, using(crate::proofs::Firsts::all_taken))]
fn first(bytes: &[u8], len: usize) -> &[u8]
    ensures { result.now ≡ take len bytes.now }
{
    if len < bytes.len() {
        &bytes[..len]
    } else {
        bytes
    }
}

impl<A: Allocator> Bytes<A> {
    /// The bytes, lent.
    pub fn bytes(&self) -> &[u8]
        ensures { result.now ≡ self.now }
    {
        match &*self.text {
            Text::Short(len, cells) => first(cells, usize::from(*len)),
            Text::Long(bytes) => bytes,
        }
    }

    /// The same string for one more owner. It copies nothing and takes no memory. Err only where 2^63 - 1 own it.
    pub fn share(&self) -> Result<Self, AllocError>
        ensures { IfOk result (λ shared. shared ≡ self.now) }
    {
        Ok(Bytes {
            text: Arc::try_clone(&self.text)?,
        })
    }
}

impl<A: Allocator + Copy> Bytes<A> {
    /// The first bytes, so many, of these. Err only where the allocator has no memory.
    pub(crate) fn in_place(alloc: A, cells: [u8; SHORT], len: usize) -> Result<Self, AllocError>
        requires { len ≤ 42 }
        ensures { IfOk result (λ kept. kept ≡ take len cells) }
    {
        let text = Text::Short(len as u8, cells);
        Ok(Bytes {
            text: Arc::new(alloc, text)?,
        })
    }

    /// A copy of the bytes. Err only where the allocator has no memory.
    pub fn new(alloc: A, bytes: &[u8]) -> Result<Self, AllocError>
        ensures { IfOk result (λ kept. kept ≡ bytes.now) }
    {
        let text = if bytes.len() <= SHORT {
            short(bytes)
        } else {
            Text::Long(Vec::from_slice(alloc, bytes)?)
        };
        Ok(Bytes {
            text: Arc::new(alloc, text)?,
        })
    }

    /// The bytes of a vector, of which no more than 42 are copied. Err only where the allocator has no memory.
    pub fn from_vec(alloc: A, bytes: Vec<u8, A>) -> Result<Self, AllocError>
        ensures { IfOk result (λ kept. kept ≡ bytes.items) }
    {
        let text = if bytes.len() <= SHORT {
            short(&bytes)
        } else {
            Text::Long(bytes)
        };
        Ok(Bytes {
            text: Arc::new(alloc, text)?,
        })
    }
}
