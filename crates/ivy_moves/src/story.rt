//! What is told of a node: its events, and what it was answered.
use ivy_model::{Record, Row, Tells};
use std::marker::Model;

/// An event of a node, as contracts see it. There is no value of it.
pub(crate) struct Happening;

impl Model for Happening {
    ghost use Rattle.ivy_moves.specs.Marks.{Mark, Turn};

    ghost Value = { Mark };

    ghost view = { λ _. Turn };
}

/// So many turns were made.
pub(crate) struct Turned;

impl Tells<u64, Happening> for Turned {
    ghost use Rattle.ivy_moves.specs.Marks.{turns};

    ghost list = { λ count. turns count };
}

/// A whole string of these bytes was delivered.
pub(crate) struct Delivered;

impl<'a> Tells<&'a [u8], Happening> for Delivered {
    ghost use Rattle.std.specs.Prelude.{[], ◌∷◌};
    ghost use Rattle.ivy_moves.specs.Marks.{Delivery};

    ghost list = { λ bytes. Delivery bytes.now ∷ [] };
}

/// A pulse was made, to the node of this number.
pub(crate) struct Pulsed;

impl Tells<u8, Happening> for Pulsed {
    ghost use Rattle.std.specs.Prelude.{[], ◌∷◌};
    ghost use Rattle.ivy_moves.specs.Marks.{Pulse};

    ghost list = { λ to. Pulse to ∷ [] };
}

/// A record for each of so many words in a row from `addr` on, whose bytes these are.
#[derive(Drop)]
pub(crate) struct InRow<'a> {
    pub(crate) kind: Row,
    pub(crate) node: u8,
    pub(crate) addr: u64,
    pub(crate) words: usize,
    pub(crate) bytes: &'a [u8],
}

/// The records of a row were added.
pub(crate) struct Answered;

impl<'a> Tells<InRow<'a>, Record> for Answered {
    ghost use Rattle.ivy_model.specs.Rows.{numbers_in, row};

    ghost list = { λ r. row r.kind r.node r.addr (numbers_in r.words r.bytes.now) };
}
