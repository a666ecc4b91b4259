//! Stories: lists that exist in proofs alone, of which no byte is kept.
ghost use Rattle.std.specs.Prelude.{◌≡◌, List, [], ◌∷◌, ◌++◌};
ghost use Rattle.std.specs.Borrow.{ftrue};
ghost use Rattle.std.specs.Coded.{coded_list};

use std::marker::{Model, PhantomData};

/// A list that exists in proofs alone, of what contracts see of values of `T`. Nobody reads it when it runs.
///
/// Nothing but the contracts of its calls ties what it tells.
pub struct Story<T> {
    marker: PhantomData<T>,
    pub ghost told: { List T } by { coded_list T.code },
}

impl<T> Model for Story<T> {
    ghost also_owns = { λ _. ftrue };
}

// It owns nothing.
unsafe impl<T> Send for Story<T> {}

unsafe impl<T> Sync for Story<T> {}

impl<T> Drop for Story<T> {
    fn drop(self) {
        let Self { marker: _ } = self;
    }
}

/// What is told of a value of `X`: some values of `T`, as contracts see them.
pub trait Tells<X, T> {
    ghost use Rattle.std.specs.Prelude.{List};

    ghost list: { X → List T };
}

impl<T> Story<T> {
    /// What `M` tells of a value, and nothing else.
    fn of<X, M: Tells<X, T>>(x: &X) -> Story<T>
        ensures { result.told ≡ M.list x.now }
    {
        // for the proof: what is told is told of it.
        let _ = x;
        Story {
            marker: PhantomData,
        }
    }
}

/// Nothing is told.
struct Nothing;

impl<T> Tells<(), T> for Nothing {
    ghost use Rattle.std.specs.Prelude.{[]};

    ghost list = { λ _. [] };
}

/// What `M` tells of a value goes behind a story.
struct Behind<M> {
    marker: PhantomData<M>,
}

impl<'a, T, X, M: Tells<X, T>> Tells<(&'a Story<T>, &'a X), T> for Behind<M> {
    ghost use Rattle.std.specs.Prelude.{◌++◌};

    ghost list = { λ l. l.0.now.told ++ M.list l.1.now };
}

/// The value itself is told.
struct Itself;

impl<T> Tells<T, T> for Itself {
    ghost use Rattle.std.specs.Prelude.{[], ◌∷◌};

    ghost list = { λ x. x ∷ [] };
}

impl<T> Story<T> {
    /// Nothing is told yet.
    pub fn new() -> Story<T>
        ensures { result.told ≡ [] }
    {
        Story::of::<(), Nothing>(&())
    }

    /// One value more is told.
    pub fn push(&mut self, one: &T)
        ensures { self.new.told ≡ self.old.told ++ one.now ∷ [] }
    {
        self.append::<T, Itself>(one);
    }

    /// What `M` tells of a value goes behind what was told before.
    pub fn append<X, M: Tells<X, T>>(&mut self, x: &X)
        ensures { self.new.told ≡ self.old.told ++ M.list x.now }
    {
        let longer = (&*self, x);
        let next = Story::of::<(&Story<T>, &X), Behind<M>>(&longer);
        *self = next;
    }
}
