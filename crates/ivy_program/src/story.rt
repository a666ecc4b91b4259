//! What is told of own code: the calls that it made, in rows of those that were made together, and the pages that it has
//! fetched ahead.
use ivy_model::{Call, Row, Story, Tells};
use std::marker::Model;

/// Calls that were made together, as contracts see them. There is no value of it.
pub(crate) struct Together;

impl Model for Together {
    ghost use Rattle.std.specs.Prelude.{List, []};
    ghost use Rattle.ivy_model.specs.declared.Call.{Call};

    ghost Value = { List Call };

    ghost view = { λ _. [] };
}

/// A call was made alone.
pub(crate) struct Alone;

impl Tells<Call, Together> for Alone {
    ghost use Rattle.std.specs.Prelude.{[], ◌∷◌};

    ghost list = { λ call. (call ∷ []) ∷ [] };
}

/// A call for each of so many words in a row from `addr` on, whose bytes these are.
#[derive(Drop)]
pub(crate) struct InRow<'a> {
    pub(crate) kind: Row,
    pub(crate) addr: u64,
    pub(crate) words: usize,
    pub(crate) bytes: &'a [u8],
}

/// The calls of a row were made one by one.
pub(crate) struct OneByOne;

impl<'a> Tells<InRow<'a>, Together> for OneByOne {
    ghost use Rattle.ivy_model.specs.Rows.{calls_of, numbers_in, row};
    ghost use Rattle.ivy_program.specs.Programs.{one_by_one};

    ghost list = { λ r. one_by_one (calls_of (row r.kind 0 r.addr (numbers_in r.words r.bytes.now))) };
}

/// The calls of a row were made together.
pub(crate) struct AtOnce;

impl<'a> Tells<InRow<'a>, Together> for AtOnce {
    ghost use Rattle.std.specs.Prelude.{[], ◌∷◌};
    ghost use Rattle.ivy_model.specs.Rows.{calls_of, numbers_in, row};

    ghost list = { λ r. calls_of (row r.kind 0 r.addr (numbers_in r.words r.bytes.now)) ∷ [] };
}

/// A page that is to be fetched ahead, as contracts see it. There is no value of it.
pub(crate) struct Ahead;

impl Model for Ahead {
    ghost use Rattle.std.specs.Prelude.{false};
    ghost use Rattle.ivy_program.specs.stated.Programs.{HandedFetch};

    ghost Value = { HandedFetch };

    ghost view = { λ _. record { page = 0; write = false; after = 0 } };
}

/// A page, to be fetched to read or to write, after the calls that were made.
#[derive(Drop)]
pub(crate) struct AfterCalls<'a> {
    pub(crate) page: u32,
    pub(crate) write: bool,
    pub(crate) made: &'a Story<Together>,
}

/// The page is to be fetched.
pub(crate) struct Handing;

impl<'a> Tells<AfterCalls<'a>, Ahead> for Handing {
    ghost use Rattle.std.specs.Prelude.{[], ◌∷◌, length};
    ghost use Rattle.ivy_program.specs.stated.Programs.{calls_in};

    ghost list = { λ f. record { page = f.page; write = f.write; after = length (calls_in f.made.now.told) } ∷ [] };
}
