//! The law of nodes that are driven one call at a time.
ghost use Rattle.proof_embedded.specs.Driven.{DrivenNodesAreOfOneRun};
ghost use Rattle.proof_embedded.specs.Mapped.{BlocksArePages, NodesThatLendAreFlat};

/// Nodes that a program drives are the nodes of one run. This is a fact, and the call does nothing.
///
/// All nodes of a configuration begin by one opening, whichever it is. Then the program makes any calls of the functions
/// that begin a call, ask for its reply, read or write a block, begin one and take its replies, fetch a page ahead, deliver a
/// string, take a string out and pulse, at any of the nodes, in any order, with whatever they answer. It delivers only
/// strings that were taken out before. So the nodes are those of a world that moves lead to, of programs that make the calls
/// begun and fetch the pages fetched.
///
/// All holds of them that is promised of such a world: one order of records, growing from move to move, is legal and
/// has each node's history as its part. A block that is read or written is a call for each of its words, and one that
/// is begun makes those calls together. Of calls that a node had in progress together, before any of the requests, the
/// order at the end has no record, or all, next to one another.
pub fn driven_nodes_are_of_one_run()
    ensures { DrivenNodesAreOfOneRun }
{}

/// What programs call and what they do by pointers with pages that nodes lend them are of one flat memory. This is a
/// fact, and the call does nothing.
///
/// All nodes of a configuration begin by one opening, whichever it is. Then the program makes any calls of the
/// functions of the header, at any of the nodes, in any order, with whatever they answer, and between them accesses
/// bytes of what is lent to it, by pointers. All calls, loads, stores and atomic operations are of one flat memory, in
/// the order of time: what was made grows at its end with each that happens. At each moment a node's part of the calls
/// is its history, then nothing, or a record of each call that it has in progress. So an access stands after each call
/// whose reply was recorded before it, and before each call begun after it. Calls of a page that is lent to be written
/// at their node are the driver's, by blocks: they stand in its part and change nothing. No page is lent to be written
/// at one node and lent at all at another.
///
/// Of whoever drives the nodes it takes this, and no more. An image has the bytes that the node has when its page is
/// lent, and changes only by the program while it is lent. A program accesses a page while it is lent to it, to be
/// written where it writes. When a page is given back that was lent to be written, the node has what stands in its image.
/// Strings that are delivered were taken out before. A driver that gives nothing back is refused strings, and never wrong.
///
/// The bytes that a node has are those that its functions give and take: `blocks_are_pages`.
///
/// The nodes are those of a world that moves lead to, so all holds of them that is promised of such a world.
pub fn nodes_that_lend_are_flat()
    ensures { NodesThatLendAreFlat }
{}

/// A buffer of a whole page has the bytes that a node has of it, where its words are the node's. This is a fact, and the call
/// does nothing.
///
/// So it is of a buffer that a block load filled, or a block store was given, by their clause `words`, while no other function
/// is called. It takes that buffer and page have as many bytes as a page, each of them below 256.
pub fn blocks_are_pages()
    ensures { BlocksArePages }
{}
