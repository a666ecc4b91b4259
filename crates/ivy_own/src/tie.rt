//! Lists with two halves, how they begin, grow and are compared, and the worker's side of the list of a node's answers.
ghost use Rattle.std.specs.Prelude.{◌≡◌, ◌+◌, [], ◌∷◌, ◌++◌, IfOk};
ghost use Rattle.ivy_model.specs.Rows.{numbers_in};
ghost use Rattle.ivy_calls.specs.BlockAnswers.{in_row};
ghost use Rattle.ivy_own.specs.Known.{starts, listed};
ghost use Rattle.ivy_own.specs.OwnSeats.{grown, grown_by};

use crate::known::{Begin, Both, Cell, Compare, Given, Grow, Naming, Off, Pass, Tells};
use ivy_calls::Answer;
use ivy_model::{Call, Reply, Row};
use std::alloc::{AllocError, Allocator};
use std::marker::{Brand, Model, PhantomData};

/// A new table, which has no name yet. Contracts see what names it.
#[derive(Drop)]
pub struct Opened<T, A: Allocator> {
    cell: Cell<T, A>,
    pass: Pass<T>,
}

impl<T, A: Allocator> Model for Opened<T, A> {
    ghost use Rattle.std.specs.Prelude.{◌≡◌};
    ghost use Rattle.atomic_table.specs.Seated.{TableId, table_id_coded};
    ghost use Rattle.ivy_own.specs.Known.{starts};

    ghost Value = { TableId };

    ghost coded = { table_id_coded };

    ghost view = { λ o. o.cell.shared.table_id };

    ghost invariant = { λ o. (o.cell.shared.table_id.words ≡ 1) × (o.pass.table_id ≡ o.cell.shared.table_id) × (o.pass.me.0 ≡ starts 0) };
}

impl<T, A: Allocator> Opened<T, A> {
    /// A table of no list. `Err` where memory for its one word was refused.
    pub fn new(alloc: A) -> Result<Self, AllocError> {
        let (cell, pass) = Cell::<T, A>::of_words(alloc, &[0], &())?;
        Ok(Opened { cell, pass })
    }

    /// The table under a name, and the right to begin its lists, from number 0 on.
    pub fn named<J: Naming>(self) -> (Tie<T, J, A>, Starter<T, J>)
        requires { self ≡ J.table }
        ensures { result.1 ≡ 0 }
    {
        let Opened { cell, pass } = self;
        (
            Tie {
                cell,
                of: PhantomData,
            },
            Starter {
                pass,
                of: PhantomData,
            },
        )
    }
}

/// What ties the halves of all lists. Threads share it by `&`.
#[derive(Drop)]
pub struct Tie<T, J: Naming, A: Allocator> {
    cell: Cell<T, A>,
    of: PhantomData<J>,
    ghost is: { (cell.shared.table_id ≡ J.table) × (cell.shared.table_id.words ≡ 1) },
}

/// The right to begin lists. Contracts see the number of the next one.
#[derive(Drop)]
pub struct Starter<T, J: Naming> {
    pass: Pass<T>,
    of: PhantomData<J>,
}

impl<T, J: Naming> Model for Starter<T, J> {
    ghost use Rattle.std.specs.Prelude.{◌≡◌, ℕ};
    ghost use Rattle.ivy_own.specs.Known.{first_of, IsStart};

    ghost Value = { ℕ };

    ghost view = { λ s. first_of s.pass.me.0 };

    ghost invariant = { λ s. (s.pass.table_id ≡ J.table) × IsStart s.pass.me.0 };
}

/// One of the two halves of a list, which knows it whole. It has no bytes.
///
/// Contracts see the list with its number.
#[derive(Drop)]
pub struct Half<T, J: Naming> {
    pass: Pass<T>,
    of: PhantomData<J>,
}

impl<T, J: Naming> Model for Half<T, J> {
    ghost use Rattle.std.specs.Prelude.{◌≡◌};
    ghost use Rattle.ivy_own.specs.Known.{Listed, list_of, IsHalf};

    ghost Value = { Listed T };

    ghost view = { λ h. list_of h.pass.me.0 };

    ghost invariant = { λ h. (h.pass.table_id ≡ J.table) × IsHalf h.pass.me.0 };
}

impl<T, J: Naming, A: Allocator> Tie<T, J, A> {
    /// Begins a list: its two halves.
    pub fn begin(&self, starter: &mut Starter<T, J>) -> (Half<T, J>, Half<T, J>)
        ensures one { result.0 ≡ listed starter.old [] }
        ensures other { result.1 ≡ listed starter.old [] }
        ensures next { starter.new ≡ starter.old + 1 }
    {
        let mut one = self.cell.shared.split_seat::<Begin>(&mut starter.pass);
        let other = self.cell.shared.split_seat::<Grow<Brand>>(&mut one);
        (
            Half {
                pass: one,
                of: PhantomData,
            },
            Half {
                pass: other,
                of: PhantomData,
            },
        )
    }

    /// The list grows by what `E` gives, which is told of the value, and both halves know it.
    fn grow<E: Given<T>, X>(&self, one: &mut Half<T, J>, other: &mut Half<T, J>, value: &X)
        requires same { other.old.number ≡ one.old.number }
        ensures one { one.new ≡ listed one.old.number (one.old.list ++ E.more) }
        ensures other { other.new ≡ listed other.old.number (other.old.list ++ E.more) }
    {
        // for the proof: the clauses name it.
        let _ = value;
        let moved = self.cell.shared.split_seat::<Off>(&mut other.pass);
        self.cell.shared.join_seat::<Both>(&mut one.pass, moved);
        other.pass = self.cell.shared.split_seat::<Grow<E>>(&mut one.pass);
    }

    /// The list grows by an item, and both halves know it. They are of one list.
    pub fn push(&self, one: &mut Half<T, J>, other: &mut Half<T, J>, item: &T)
        requires same { other.old.number ≡ one.old.number }
        ensures one { one.new ≡ listed one.old.number (one.old.list ++ item.now ∷ []) }
        ensures other { other.new ≡ listed other.old.number (other.old.list ++ item.now ∷ []) }
    {
        self.grow::<Brand, T>(one, other, item)
    }

    /// The list grows by the items that are told of a value, and both halves know them. They are of one list.
    ///
    /// It is one step, however many items that are, and none of them is made.
    pub fn push_told<X, M: Tells<T, X>>(
        &self,
        one: &mut Half<T, J>,
        other: &mut Half<T, J>,
        value: &X,
    )
        requires same { other.old.number ≡ one.old.number }
        ensures one { one.new ≡ listed one.old.number (one.old.list ++ M.items value.now) }
        ensures other { other.new ≡ listed other.old.number (other.old.list ++ M.items value.now) }
    {
        self.grow::<Brand, X>(one, other, value)
    }

    /// Both halves of a list know the same, and nothing changes.
    pub fn agree(&self, one: &mut Half<T, J>, other: &mut Half<T, J>)
        requires same { other.old.number ≡ one.old.number }
        ensures agree { other.old.list ≡ one.old.list }
        ensures one { one.new ≡ one.old }
        ensures other { other.new ≡ other.old }
    {
        let moved = self.cell.shared.split_seat::<Off>(&mut other.pass);
        self.cell.shared.join_seat::<Both>(&mut one.pass, moved);
        self.cell.shared.load::<Compare>(&mut one.pass, 0);
        other.pass = self.cell.shared.split_seat::<Grow<Brand>>(&mut one.pass);
    }
}

/// The worker's side of the list of a node's answers: its half, what ties that to the other one, and the node.
///
/// Contracts see the node's number, and what it was answered.
#[derive(Drop)]
pub struct Side<'t, J: Naming, A: Allocator> {
    tie: &'t Tie<Answer, J, A>,
    mine: Half<Answer, J>,
    me: u8,
}

impl<'t, J: Naming, A: Allocator> Model for Side<'t, J, A> {
    ghost use Rattle.std.specs.Prelude.{◌≡◌};
    ghost use Rattle.ivy_own.specs.Known.{Listed};
    ghost use Rattle.ivy_calls.specs.declared.answer.Answer.{Answer};

    ghost Value = { Listed Answer };

    ghost view = { λ s. s.mine };

    ghost invariant = { λ s. s.mine.number ≡ s.me };
}

/// Calls on words of 8 bytes in a row from `addr` on, whose bytes these are.
#[derive(Drop)]
struct InRow<'a> {
    kind: Row,
    addr: u64,
    words: usize,
    bytes: &'a [u8],
}

/// What each call of a row is answered is told of the row.
struct AnsweredInRow;

impl<'a> Tells<Answer, InRow<'a>> for AnsweredInRow {
    ghost use Rattle.ivy_model.specs.Rows.{numbers_in};
    ghost use Rattle.ivy_calls.specs.BlockAnswers.{in_row};

    ghost items = { λ r. in_row r.kind r.addr (numbers_in r.words r.bytes.now) };
}

impl<'t, J: Naming, A: Allocator> Side<'t, J, A> {
    /// The side of the worker of node `me`, whose half this is.
    pub(crate) fn new(tie: &'t Tie<Answer, J, A>, mine: Half<Answer, J>, me: u8) -> Self
        requires { mine.number ≡ me }
        ensures { result ≡ mine }
    {
        Side { tie, mine, me }
    }

    /// The node.
    #[inline(always)]
    pub(crate) fn me(&self) -> u8
        ensures { result ≡ self.now.number }
    {
        self.me
    }

    /// The worker's half.
    pub(crate) fn into_mine(self) -> Half<Answer, J>
        ensures { result ≡ self.entry }
    {
        let Side {
            tie: _,
            mine,
            me: _,
        } = self;
        mine
    }

    /// Both halves know the reply to a call, where it has one.
    #[inline(always)]
    pub(crate) fn tell(&mut self, half: &mut Half<Answer, J>, call: Call, came: Option<Reply>)
        requires same { self.old.number ≡ half.old.number }
        ensures half { half.new ≡ grown call came half.old }
        ensures mine { self.new ≡ grown call came self.old }
    {
        if let Some(reply) = came {
            self.tie.push(half, &mut self.mine, &Answer { call, reply });
        }
    }

    /// Both halves know what the calls of a row were answered.
    #[inline(always)]
    pub(crate) fn tell_row(
        &mut self,
        half: &mut Half<Answer, J>,
        kind: Row,
        addr: u64,
        words: usize,
        bytes: &[u8],
    )
        requires same { self.old.number ≡ half.old.number }
        ensures half { half.new ≡ grown_by (in_row kind addr (numbers_in words bytes.now)) half.old }
        ensures mine { self.new ≡ grown_by (in_row kind addr (numbers_in words bytes.now)) self.old }
    {
        let row = InRow {
            kind,
            addr,
            words,
            bytes,
        };
        self.tie
            .push_told::<InRow<'_>, AnsweredInRow>(half, &mut self.mine, &row);
    }
}
