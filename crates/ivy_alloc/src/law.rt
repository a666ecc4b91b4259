//! The laws of the heap's answers.
ghost use Rattle.ivy_alloc.specs.Laws.{HasReplies, HeapIsFlat, StaysApart, TakesBack};

/// What the answers of a [`crate::Heap`] are, whatever live blocks there are. This is a fact, and
/// the call does nothing.
///
/// The flat memory with these blocks answers a call of the allocator with what `alloc_told` and
/// `free_told` say, and with nothing else. Such an answer is an address at which the block lies in
/// the heap, or 8 for no bytes, or 9; or done, or 10. Live blocks stay in the heap and never meet.
/// To end the block that was just given brings back the blocks that there were before.
pub fn heap_is_flat()
    ensures flat { HeapIsFlat }
    ensures replies { HasReplies }
    ensures apart { StaysApart }
    ensures back { TakesBack }
{}
