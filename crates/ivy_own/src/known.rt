//! What a pass knows, the rule of all passes, and the steps that keep it.
use atomic_table::{Join, Play, Seat, Split, Table, TableRule};
use std::marker::{Brand, Model, PhantomData};

/// What a pass knows: nothing, which lists have not begun, or one or both halves of a list. It is a type of the
/// definitions, and no value of it is made.
pub struct View<T>(PhantomData<T>);

impl<T> Model for View<T> {
    ghost use Rattle.ivy_own.specs.Known.{Known, gone, known_code};

    ghost Value = { Known T };

    ghost coded = { known_code T.code };

    ghost view = { λ _. gone };
}

/// Names the table that all passes are of. Whoever opens one picks the name, at `Brand`.
pub trait Naming {
    ghost use Rattle.atomic_table.specs.Seated.{TableId};

    ghost table: { TableId };
}

impl Naming for Brand {
    ghost use Rattle.ivy_own.specs.Known.{no_table};

    ghost table = { no_table };
}

/// By what a list grows. Each step picks it, at `Brand`.
pub trait Given<T> {
    ghost use Rattle.std.specs.Prelude.{List};

    ghost more: { List T };
}

impl<T> Given<T> for Brand {
    ghost use Rattle.std.specs.Prelude.{[]};

    ghost more = { [] };
}

/// What is told of a value: items, of which none is kept.
pub trait Tells<T, X> {
    ghost use Rattle.std.specs.Prelude.{List};

    ghost items: { X → List T };
}

/// The rule: there are lists that all halves know, and of each at most two halves.
pub struct Twins;

impl<T> TableRule<(), View<T>, ()> for Twins {
    ghost use Rattle.ivy_own.specs.Known.{starts};
    ghost use Rattle.ivy_own.specs.Rule.{Holds};

    ghost holds = { λ _. Holds };

    ghost first = { λ _. starts 0 };
}

/// The table, whose one word is never written.
pub type Cell<T, A> = Table<(), View<T>, (), Twins, A>;

/// What one holder knows of the lists.
pub type Pass<T> = Seat<(), View<T>>;

/// The next list begins.
pub struct Begin;

impl<T> Split<View<T>> for Begin {
    ghost use Rattle.ivy_own.specs.Known.{after_start, started};

    ghost left = { after_start };

    ghost right = { started };
}

/// All that a pass knows goes to a new one.
pub struct Off;

impl<T> Split<View<T>> for Off {
    ghost use Rattle.ivy_own.specs.Known.{gone};

    ghost left = { λ _. gone };

    ghost right = { λ v. v };
}

/// Both halves of a list come together.
pub struct Both;

impl<T> Join<View<T>> for Both {
    ghost use Rattle.ivy_own.specs.Known.{both_halves, gone};

    ghost both = { both_halves };

    ghost spent = { gone };
}

/// The list grows, and both halves part.
pub struct Grow<E>(PhantomData<E>);

impl<T, E: Given<T>> Split<View<T>> for Grow<E> {
    ghost use Rattle.ivy_own.specs.Known.{one_half, other_half};

    ghost left = { one_half E.more };

    ghost right = { other_half E.more };
}

/// Both halves are compared.
pub struct Compare;

impl<T> Play<(), View<T>> for Compare {
    ghost use Rattle.ivy_own.specs.Known.{Compared};

    ghost then = { Compared };
}
