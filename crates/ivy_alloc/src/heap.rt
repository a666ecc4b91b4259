ghost use Rattle.std.specs.Prelude.{◌≡◌, ℕ, ◌+◌, ◌<◌, ◌≤◌, ◌*◌, ◌↔◌, ◌⊎◌, IsTrue, IsSome, IsOk, IfOk, IfErr, OnErr, OnOk, IsOkUnless};
ghost use Rattle.std.specs.FinMap as map;
ghost use Rattle.ivy_model.specs.stated.Config.{IsConfig};
ghost use Rattle.ivy_model.specs.stated.Serves.{rounded};
ghost use Rattle.ivy_alloc.specs.Heap.{AddsBlock, HasNoRoom, IsLeastRoom, without_block};
ghost use Rattle.ivy_alloc.specs.stated.Heap.{HeapState, first_heap};
ghost use Rattle.ivy_alloc.specs.stated.HeapAnswers.{alloc_reply, alloc_told, ended, free_reply, free_told, gives};

use crate::extent::{Extent, first_fit, give_back, take_front};
use ivy_model::{Config, Fault};
use std::alloc::Allocator;
use std::collections::BTreeMap;
use std::marker::Model;

/// The live blocks of the shared memory's heap.
///
/// What a call answers, and the blocks after it, are functions of the configuration and the live
/// blocks: `alloc_told` and `free_told` in `specs/Told`. They are the flat memory's answers
/// ([`crate::heap_is_flat`]).
///
/// A call takes time at most linear in the number of free extents, and logarithmic in that of live
/// blocks. Memory is linear in the greatest number of live blocks that there were at a time.
#[derive(Drop)]
pub struct Heap<A: Allocator> {
    config: Config,
    // In order, those that touch merged into one. There is a spare place for each live block, since
    // to end the block may leave one extent more.
    extents: Vec<Extent, A>,
    blocks: BTreeMap<u64, u64, A>,
}

impl<A: Allocator> Model for Heap<A> {
    ghost use Rattle.std.specs.Prelude.{◌+◌, ◌≤◌, vec_len, vec_capacity};
    ghost use Rattle.std.specs.BTreeMap.{btree_map_len};
    ghost use Rattle.std.specs.FinMap.{from_entries};
    ghost use Rattle.ivy_alloc.specs.stated.Heap.{HeapState};
    ghost use Rattle.ivy_alloc.specs.Heap.{heap_state_code};
    ghost use Rattle.ivy_alloc.specs.Tied.{IsTied};

    ghost Value = { HeapState };

    ghost coded = { heap_state_code };

    ghost view = { λ h. record { config = h.config; blocks = from_entries h.blocks.entries } };

    ghost invariant = { λ h. IsTied h.config h.extents.items (from_entries h.blocks.entries) × (vec_len h.extents + btree_map_len h.blocks ≤ vec_capacity h.extents) };
}

impl<A: Allocator + Copy> Heap<A> {
    /// A heap with no block [1].
    pub fn new(alloc: A, config: &Config) -> Result<Self, Fault>
        requires { IsConfig config.now }
        ensures first { IfOk result (λ heap. heap ≡ first_heap config.now) }
        ensures memory { IsOkUnless result Fault.Memory }
    {
        let start = u64::from(config.page_size);
        let mut extents = Vec::with_capacity(alloc, 1)?;
        extents.push_reserved(Extent {
            start,
            len: config.heap_end() - start,
        });
        Ok(Heap {
            config: *config,
            extents,
            blocks: BTreeMap::new(alloc),
        })
    }

    /// Takes a block of `size` bytes, rounded up to a multiple of 8, and gives the least address, a
    /// multiple of 8, at which it lies in the heap and meets no live block.
    ///
    /// Refused with 8 exactly where `size` is 0, and 9 exactly where it is more and there is no such
    /// address. After a fault the heap is as it was. It makes the room in memory that [`Heap::free`]
    /// of this block may want [1, 8, 9].
    pub fn alloc(&mut self, size: u64) -> Result<u64, Fault>
        ensures told { (result ≡ Err Fault.Memory) ⊎ (alloc_told self.old.config self.old.blocks size ≡ gives (alloc_reply result) self.new.blocks) }

        ensures found { IfOk result (λ addr. IsLeastRoom self.old size addr) }
        ensures added { IfOk result (λ addr. AddsBlock self.old addr (rounded size) self.new) }
        ensures empty { (result ≡ Err Fault.ZeroSize) ↔ (size ≡ 0) }
        ensures full { (result ≡ Err Fault.NoRoom) ↔ ((0 < size) × HasNoRoom self.old size) }
        ensures faults { IfErr result (λ fault. (fault ≡ Fault.Memory) ⊎ ((fault ≡ Fault.ZeroSize) ⊎ (fault ≡ Fault.NoRoom))) }
        ensures err { OnErr result (self.new ≡ self.old) }
    {
        if size == 0 {
            return Err(Fault::ZeroSize);
        }
        if size > self.config.heap_end() {
            return Err(Fault::NoRoom);
        }
        let size = 8 * ((size + 7) / 8);
        let Some(place) = first_fit(&self.extents, size) else {
            return Err(Fault::NoRoom);
        };
        let addr = self.extents[place].start;
        self.extents.reserve(self.blocks.len() + 1)?;
        self.blocks.insert(addr, size)?;
        take_front(&mut self.extents, place, size);
        Ok(addr)
    }

    /// Ends the live block that starts at `addr`. Refused with 10 exactly where none does, and then
    /// the heap is as it was. It takes no memory [10].
    ///
    /// So a block whose address could not be handed on is taken back by this call: the heap is then
    /// the one before [`Heap::alloc`] gave it.
    pub fn free(&mut self, addr: u64) -> Result<(), Fault>
        ensures told { free_told self.old.blocks addr ≡ gives (free_reply result) self.new.blocks }

        ensures live { OnOk result (IsSome (map.get self.old.blocks addr)) }
        ensures ended { OnOk result (self.new ≡ without_block self.old addr) }
        ensures refused { OnErr result (map.get self.old.blocks addr ≡ None) }
        ensures fault { IsOkUnless result Fault.NotABlock }
        ensures err { OnErr result (self.new ≡ self.old) }

        // The block that was just given: the heap is the one before it.
        ensures taken_back { (before : HeapState) (size : ℕ) → AddsBlock before addr size self.old → IsOk result × (self.new ≡ before) }
    {
        let Some(len) = self.blocks.remove(&addr) else {
            return Err(Fault::NotABlock);
        };
        give_back(&mut self.extents, Extent { start: addr, len });
        Ok(())
    }

    /// Whether a live block starts at `addr`, so that [`Heap::free`] of it will be done. It takes no
    /// memory.
    pub fn is_block(&self, addr: u64) -> bool
        ensures live { IsTrue result ↔ IsSome (map.get self.now.blocks addr) }
        ensures told { free_told self.now.blocks addr ≡ ended self.now.blocks addr result }
    {
        self.blocks.contains_key(&addr)
    }
}
