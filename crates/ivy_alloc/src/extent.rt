//! The free extents of a heap: what lies between its live blocks.
ghost use Rattle.std.specs.Prelude.{◌≡◌, ℕ, ◌+◌, ◌-◌, ◌<◌, ◌≤◌, ◌%◌, ◌↔◌, ◌⊎◌, All, length, slice_index_or, vec_len, vec_capacity, IfSome, IfNone, IsTrue};
ghost use Rattle.ivy_alloc.specs.Extents.{AreExtents, IsExtent, IsFree, IsFirstFit, AreGivenBack, AreTakenFrom, Has, extent_end};

use std::alloc::Allocator;

/// Bytes of the heap in a row that no live block has: those from `start` on, `len` of them.
#[derive(Clone, Copy)]
pub(crate) struct Extent {
    pub start: u64,
    pub len: u64,
}

/// The place of the first extent that is at least this long.
pub(crate) fn first_fit(extents: &[Extent], size: u64) -> Option<usize>
    ensures found { IfSome result (λ place. IsFirstFit extents.now size place) }
    ensures none { IfNone result (All (λ e. e.len < size) extents.now) }
{
    extents.iter().position(|extent| size <= extent.len)
}

/// Takes so many bytes from the front of an extent.
pub(crate) fn take_front<A: Allocator>(extents: &mut Vec<Extent, A>, place: usize, size: u64)
    requires sound { AreExtents extents.old.items }
    requires place { place < length extents.old.items }
    requires fits { (d : Extent) → size ≤ (slice_index_or extents.old.items place d).len }
    requires whole { (0 < size) × (size % 8 ≡ 0) }
    ensures taken { (d : Extent) → AreTakenFrom extents.old.items (slice_index_or extents.old.items place d).start size extents.new.items }
    ensures room { vec_capacity extents.new ≡ vec_capacity extents.old }
    ensures fewer { vec_len extents.new ≤ vec_len extents.old }
{
    let extent = extents[place];
    if extent.len == size {
        extents.remove(place);
    } else {
        extents[place] = Extent {
            start: extent.start + size,
            len: extent.len - size,
        };
    }
}

/// Where an extent that starts here lies among those in order.
fn place_of(extents: &[Extent], start: u64) -> usize
    requires { AreExtents extents.now }
    ensures within { result ≤ length extents.now }
    ensures before { (k : ℕ) (d : Extent) → k < result → (slice_index_or extents.now k d).start < start }
    ensures after { (k : ℕ) (d : Extent) → result ≤ k → k < length extents.now → start ≤ (slice_index_or extents.now k d).start }
{
    extents.partition_point(|extent| extent.start < start)
}

/// Whether the extent before this place ends where the given one starts.
fn joins_before(extents: &[Extent], place: usize, given: Extent) -> bool
    requires sound { AreExtents extents.now }
    requires within { place ≤ length extents.now }
    ensures { IsTrue result ↔ ((0 < place) × (extent_end (slice_index_or extents.now (place - 1) given) ≡ given.start)) }
{
    if place == 0 {
        return false;
    }
    let before = extents[place - 1];
    before.start + before.len == given.start
}

/// Whether the extent at this place starts where the given one ends.
fn joins_after(extents: &[Extent], place: usize, given: Extent) -> bool
    requires { IsExtent given }
    ensures { IsTrue result ↔ ((place < length extents.now) × ((slice_index_or extents.now place given).start ≡ extent_end given)) }
{
    place < extents.len() && extents[place].start == given.start + given.len
}

/// Adds an extent that has no byte of another, and joins it to those that it touches. There is a
/// place for one more.
pub(crate) fn give_back<A: Allocator>(extents: &mut Vec<Extent, A>, given: Extent)
    requires sound { AreExtents extents.old.items }
    requires given { IsExtent given }
    requires taken { (a : ℕ) → Has a given → IsFree extents.old.items a → ⊥ }
    requires room { vec_len extents.old < vec_capacity extents.old }
    ensures given { AreGivenBack extents.old.items given extents.new.items }
    ensures room { vec_capacity extents.new ≡ vec_capacity extents.old }
    ensures one_more { vec_len extents.new ≤ vec_len extents.old + 1 }
{
    let place = place_of(extents, given.start);
    match (
        joins_before(extents, place, given),
        joins_after(extents, place, given),
    ) {
        (true, true) => {
            let after = extents.remove(place);
            extents[place - 1].len += given.len + after.len;
        }
        (true, false) => extents[place - 1].len += given.len,
        (false, true) => {
            extents[place] = Extent {
                start: given.start,
                len: given.len + extents[place].len,
            };
        }
        (false, false) => {
            let Ok(()) = extents.insert(place, given) else {
                unreachable!();
            };
        }
    }
}
