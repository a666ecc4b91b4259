//! What tests share: an allocator that refuses the n-th growth, and the texts of examples.
//!
//! Every call of `allocate` is a growth, and so is each `grow` and `shrink` of a collection, which allocate anew. Share
//! it by `&`, which is `Copy` and crosses threads: `let memory = Failing::new(rt.alloc())`, then `Vec::new(&memory)`.
//!
//! Proved: each block is the inner memory's and goes back to it, and the numbers of `Countdown`. Only tested: that a
//! growth counts down, and which one is refused, since no clause can say what an atomic holds.
//!
//! The texts of the folder `examples/`, which `tools/texts` writes, and small programs of tests alone.
#![tactic(auto)]

mod countdown;
mod examples;
mod file;
mod small;

use countdown::Countdown;
pub use examples::{orders, outputs, programs, schedules};
pub use file::{Example, File, Order, Schedule};
pub use small::{EMPTY, LOADS, NOTICE, WAITS};
use std::alloc::{AllocError, Allocator};
use std::sync::atomic::{AtomicU64, Ordering};

/// Memory that passes each growth on to another allocator, but for the one that it was told to refuse.
#[derive(Drop)]
pub struct Failing<B: Allocator> {
    inner: B,
    left: AtomicU64,
}

impl<B: Allocator> Failing<B> {
    /// Refuses none until `refuse`.
    pub fn new(inner: B) -> Failing<B> {
        Failing {
            inner,
            left: AtomicU64::new(Countdown::to_none().left),
        }
    }

    /// The n-th growth from now, counting from 1, answers `Err`, and those before and after it pass. For 0 all pass.
    pub fn refuse(&self, n: u64) {
        self.left.store(Countdown::to_nth(n).left, Ordering::SeqCst);
    }

    /// How many growths were asked for since `refuse(n)`, with the one refused; at 0 also since `new`.
    pub fn asked(&self, n: u64) -> u64 {
        let left = self.left.load(Ordering::SeqCst);
        Countdown { left }.asked_since(n)
    }
}

fn is_refused(left: &AtomicU64) -> bool {
    let left = left.fetch_sub(1, Ordering::SeqCst);
    Countdown { left }.refuses_next()
}

unsafe impl<B: Allocator> Allocator for Failing<B> {
    ghost dealloc_token = { λ memory ty ptr. B.dealloc_token memory.inner ty ptr };

    fn allocate(&self, size: usize, align: usize) -> Result<*mut u8, AllocError> {
        if is_refused(&self.left) {
            return Err(AllocError);
        }
        self.inner.allocate(size, align)
    }

    unsafe fn deallocate(&self, ptr: *mut u8, size: usize, align: usize) {
        self.inner.deallocate(ptr, size, align);
    }
}

#[cfg(test)]
mod tests;
