//! The laws of words and refusals.
ghost use Rattle.ivy_memory.specs.Flat.{RefusalsAreFlat, WordsAreFlat};

/// What the answers of a node's memory are to the flat memory. This is a fact, and the call does
/// nothing.
///
/// A call that is a word of a page is one call of the flat memory: it has the reply that the word
/// gives there, if it gives one, and the bytes of that page are those after the word; all else
/// stays. A call that a node's memory refuses at once, whatever its pages, the flat memory refuses
/// by the same number. Calls of the heap are what [`ivy_alloc::heap_is_flat`] says.
pub fn words_are_flat()
    ensures words { WordsAreFlat }
    ensures refusals { RefusalsAreFlat }
{}
