//! What every world keeps: refinement by the rows, the explaining order, progress, the headline.
//!
//! Worlds are refined by the table: each event of a world is rows of it, so what the rows keep, every world that moves
//! lead to keeps, and no page is writable at one node and readable at another. Here too are calls of the heap on their
//! way to node 0 and back, what stands of them in each world, and the turns of hosts. Definitions and lemmas alone, for
//! every manager that keeps the laws.
//!
//! In every world that moves lead to, all copies of a page are those of one flat memory, one order of records explains
//! what the nodes were answered, and each history is a run of its program. Definitions and lemmas alone, for every
//! manager that keeps the laws.
//!
//! In each world of a configuration, whichever manager it names: no message is a breach, whoever waits has its message,
//! and routes lead to who has the page. So where nothing is under way no node is blocked, whatever the others do: each
//! has no call in progress, or one that its next turn answers, or an await of a count that is below its least value, or
//! of one that has come to it, for which its next turn asks. And where no turn does anything either, the world stands
//! still only where one flat memory would. Deliveries alone come to an end ([`deliveries_end`]), and then it is so
//! ([`deliveries_answer`]). All else here is definitions and lemmas.
//!
//! The headline: what is promised of each world that moves lead to from the opening of its programs, and that it holds;
//! and that a node of such a world has met no breach ([`none_is_breached`]). All else here is definitions and lemmas,
//! for the manager of a configuration, whichever it names.
#![tactic(auto)]

mod law;

pub use law::{
    configured_begins_as_named, deliveries_answer, deliveries_end, none_is_breached,
    words_are_carried_alone,
};
