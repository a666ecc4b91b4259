//! The strings of one node that came before their turn.
ghost use Rattle.std.specs.Prelude.{◌≡◌, ◌<◌, Some, None, IfOk, IsTrue, MatchOption, if◌then◌else◌};
ghost use Rattle.ivy_link.specs.stated.LinkLimits.{most_ahead};
ghost use Rattle.ivy_link.specs.Windows.{first_window, place_at, is_free, with_string, without_first, shifted};

use ivy_wire::Bytes;
use std::alloc::{AllocError, Allocator};
use std::collections::VecDeque;
use std::marker::Model;

/// How far above the number delivered a string is held.
pub const MOST_AHEAD: usize = 32;

/// A place for the string of each number that follows those delivered, in order.
#[derive(Drop)]
#[derive_where(Debug)]
pub(crate) struct Window<A: Allocator> {
    places: VecDeque<Option<Bytes<A>>, A>,
}

impl<A: Allocator> Model for Window<A> {
    ghost use Rattle.std.specs.Prelude.{◌≡◌, ◌≤◌, length};
    ghost use Rattle.std.specs.VecDeque.{deque_capacity};
    ghost use Rattle.ivy_link.specs.Windows.{Window};

    ghost Value = { Window };

    ghost view = { λ w. w.places.items };

    ghost invariant = { λ w. (length w.places.items ≡ 32) × (32 ≤ deque_capacity w.places) };
}

impl<A: Allocator> Window<A> {
    /// A window that holds nothing. Err only where the allocator has no memory.
    pub(crate) fn new(alloc: A) -> Result<Window<A>, AllocError>
        ensures { IfOk result (λ window. window ≡ first_window) }
    {
        let mut places = VecDeque::with_capacity(alloc, MOST_AHEAD)?;
        for _ in 0..MOST_AHEAD {
            places.push_back_reserved(None);
        }
        Ok(Window { places })
    }

    fn is_free(&self, place: usize) -> bool
        ensures is { result ≡ is_free self.now place }
        ensures inside { IsTrue result → place < most_ahead }
    {
        place < MOST_AHEAD && self.places[place].is_none()
    }

    /// Holds the string in its place, where that is free, and else gives it back.
    pub(crate) fn hold(&mut self, place: usize, string: Bytes<A>) -> Option<Bytes<A>>
        ensures after { self.new ≡ (if is_free self.old place then with_string self.old place string else self.old) }
        ensures result { result ≡ (if is_free self.old place then None else Some string) }
    {
        if !self.is_free(place) {
            return Some(string);
        }
        self.places[place] = Some(string);
        None
    }

    /// The string in the first place.
    pub(crate) fn first(&self) -> Option<&Bytes<A>>
        ensures { MatchOption result (place_at self.now 0 ≡ None) (λ s. place_at self.now 0 ≡ Some s.now) }
    {
        self.places[0].as_ref()
    }

    /// Takes out the string in the first place.
    pub(crate) fn take_first(&mut self) -> Option<Bytes<A>>
        ensures result { result ≡ place_at self.old 0 }
        ensures after { self.new ≡ without_first self.old }
    {
        self.places[0].take()
    }

    /// One more was delivered: the first place goes, with what it holds, and there is a new last one.
    pub(crate) fn move_on(&mut self)
        ensures { self.new ≡ shifted self.old }
    {
        let _ = self.places.pop_front();
        self.places.push_back_reserved(None);
    }
}
