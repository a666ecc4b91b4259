//! The law of accesses by pointers to pages that are lent.
ghost use Rattle.proof_lent.specs.Lent.{MappedAccessesAreFlat};
ghost use Rattle.proof_lent.specs.LentWorlds.{LentPagesAreFlat};
ghost use Rattle.proof_lent.specs.Numbers.{NumbersAreTurned};

/// What programs call and what they do by pointers with pages that are lent to them are of one flat memory, in the
/// order in which they made it. This is a fact, and the call does nothing.
///
/// It takes from the nodes that a word of a page is carried out while nobody has the page lent to write, and, where it
/// may write, while nobody has it lent at all; and that a page is lent so. It takes from whoever drives a node that an
/// image has the page's bytes when it is lent, changes only by the program while the page is lent to write, and was
/// stored in the node when such a page is given back.
pub fn mapped_accesses_are_flat()
    ensures { MappedAccessesAreFlat }
{}

/// Worlds whose nodes lend pages go on as one flat memory does. This is a fact, and the call does nothing.
///
/// From each opening of any programs, with nothing lent, any moves are made, and between them nodes lend pages,
/// programs access bytes of what is lent to them, and pages are given back, in any order. All calls of the nodes and
/// all accesses are of one flat memory, in the order of time: what was made grows at its end with each that happens.
/// Each node's part of the calls is its history, then nothing, or a record of each call that it has in progress. A
/// node's calls of pages that are lent to write there are its driver's: they stand in its part, and change nothing. No
/// page is lent to write at one node and lent at all at another.
///
/// It takes from each node that it may do itself with a page what it lends it for, before each move, loan and return;
/// and that no call that writes is made of a page that is lent to read there. From whoever drives the nodes it takes
/// that an image has the bytes that the node has when the page is lent, changes only by the program while it is lent to
/// write, and stands in the node when such a page is given back; and that a program accesses what is lent to it.
pub fn lent_pages_are_flat()
    ensures { LentPagesAreFlat }
{}

/// An access by a pointer to an aligned number is a call on a word. This is a fact, and the call does nothing.
///
/// On a machine that stores the low byte first, an aligned load of 1, 2, 4 or 8 bytes is a `Load` of that width, a store
/// a `Store`, and an atomic operation that writes a `Swap` by what it wrote, each of the numbers with their bytes turned
/// round. One that does not write is a load.
pub fn numbers_are_turned()
    ensures { NumbersAreTurned }
{}
