//! The law that the links of a network keep together.
ghost use Rattle.ivy_link.specs.InOrder.{DeliversInOrder};

/// In a network that loses, repeats and reorders frames, what a node is given from another one is a
/// beginning of what that one sent it: nothing is lost from the middle, doubled or swapped. It holds
/// for any number of nodes, after any list of sends, acceptances and pulses in which any frame ever
/// made may come to any node at any time. This is a fact, and the call does nothing.
pub fn delivers_in_order()
    ensures { DeliversInOrder }
{}
