//! What the ether holds, and what a pass knows.
use ivy_moves::Events;
use ivy_wire::Bytes;
use std::marker::Model;

/// An item of the ether. `B` is a string of bytes, `L` an event list.
#[derive(Drop)]
pub enum Item<B, L> {
    /// The seat of a node, by its number, for the pass that takes it.
    Seat(u8),
    /// A frame, as its string.
    Frame(B),
    /// The whole event list of a node, by its number.
    Report(u8, L),
}

/// What a pass knows. It is a type of the definitions, and no value of it is made.
pub struct View;

impl Model for View {
    ghost use Rattle.ivy_ether.specs.Views as views;
    ghost use Rattle.ivy_ether.specs.Views.{beginner};

    ghost Value = { views.View };

    ghost view = { λ _. beginner };
}

/// An item whose strings and lists lie in memory of this allocator.
pub type Wired<A> = Item<Bytes<A>, Events<A>>;
