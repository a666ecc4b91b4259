//! The laws of openings, of deliveries and of breaches.
ghost use Rattle.std.specs.Prelude.{◌≡◌};
ghost use Rattle.ivy_host.specs.declared.opening.Opening.{Opening};
ghost use Rattle.ivy_host.specs.declared.opening.Opening.TheVariants.{Configured};
ghost use Rattle.ivy_host.specs.stated.Managers.{managed_ops};
ghost use Rattle.ivy_host.specs.stated.Openings.{start_of, managed_start};
ghost use Rattle.proof_worlds.specs.consistency.Alone.{WordsAreCarriedAlone};
ghost use Rattle.proof_worlds.specs.headline.OfRun.{NoneIsBreached};
ghost use Rattle.proof_worlds.specs.progress.Answering.{DeliveriesAnswer};
ghost use Rattle.proof_worlds.specs.progress.Ending.{DeliveriesEnd};
ghost use Rattle.proof_worlds.specs.progress.Strings.{StringsEnd};

/// Nodes of a configured opening begin by the manager that their configuration names. This is a fact, and the call does
/// nothing.
///
/// A request that finds a node that awaits a copy is put off there. So what holds of each opening holds of that one.
pub fn configured_begins_as_named()
    ensures { managed_start Configured ≡ start_of managed_ops }
{}

/// A node of a world that moves led to has met no message that fits no rule. This is a fact, and the call does
/// nothing.
///
/// It is said of what contracts show of a node. So a site that is shown as such a node has counted no breach: its
/// `breaches` is 0.
pub fn none_is_breached()
    ensures { NoneIsBreached }
{}

/// Deliveries alone come to an end. This is a fact, and the call does nothing.
///
/// From each FIFO world that moves lead to from an opening of some programs, under each
/// manager: whatever is delivered, in whatever order, while no node takes a turn and each message is
/// delivered once, there are no more deliveries than `most_deliveries` of the nodes and of the work
/// that the messages under way and put off make. And so in each world of strings that follows such an
/// ordered one: whatever strings are delivered, in whatever order and however often, and whatever is
/// sent again, no more of them than that are the next one for their node. It says nothing of time, nor
/// of nodes that take turns meanwhile.
pub fn deliveries_end()
    ensures ordered { (opened : Opening) → DeliveriesEnd managed_ops (managed_start opened) }
    ensures strings { (opened : Opening) → StringsEnd managed_ops (managed_start opened) }
{}

/// Deliveries answer the calls. This is a fact, and the call does nothing.
///
/// From each FIFO world that moves lead to from an opening of some programs, under each
/// manager, and whatever is delivered: a message can be delivered next, or nothing is under way.
/// Then each node has no call in progress, or a call that its next turn answers, or an await of a
/// count that is below its least value; or an await of a count that has come to it, and its next turn
/// asks for a copy of page 0, in which the counts lie, where the node has none; or a call of a page that the node was
/// handed to fetch, which its next turn answers, or for which it waits at the page's entry from then on.
pub fn deliveries_answer()
    ensures { (opened : Opening) → DeliveriesAnswer managed_ops (managed_start opened) }
{}

/// A word is carried out while no other node has a part in its page. This is a fact, and the call does nothing.
///
/// From each opening of any programs, and whatever moves are made, an order of records explains each world, and only
/// grows. Each record that a move adds to it, if its call is a word of a page, was carried out while, by the entries
/// before the move, no other node might write the page; and, if the word may write, while no other node might read it.
/// And each page that a node may read has the bytes that the flat memory has of it after the order.
pub fn words_are_carried_alone()
    ensures { WordsAreCarriedAlone }
{}
