//! What each step tells the pass that makes it.
use crate::item::{View, Wired};
use crate::law::Setup;
use crossbeam_queue::protocol::{Join, Lesson, Outcome, Split};
use std::alloc::Allocator;
use std::marker::{Brand, PhantomData};

/// The event list that a step is given, and the frame, where it puts one. Each step picks them.
pub trait Given {
    ghost use Rattle.std.specs.Prelude.{ℕ, List};
    ghost use Rattle.ivy_moves.specs.Marks.{Mark};

    ghost events: { List Mark };

    ghost frame: { List ℕ };
}

impl Given for Brand {
    ghost use Rattle.std.specs.Prelude.{[]};

    ghost events = { [] };

    ghost frame = { [] };
}

/// The calls and the pages that are handed to a node. Each step picks them.
pub trait Handed {
    ghost use Rattle.std.specs.Prelude.{List};
    ghost use Rattle.ivy_ether.specs.Handings.{Handing};

    ghost handings: { List Handing };
}

impl Handed for Brand {
    ghost use Rattle.std.specs.Prelude.{[]};

    ghost handings = { [] };
}

/// A frame is put.
pub struct Puts<E: Given>(PhantomData<E>);

impl<E: Given, A: Allocator> Outcome<Wired<A>, View> for Puts<E> {
    ghost use Rattle.std.specs.Prelude.{◌≡◌};
    ghost use Rattle.ivy_ether.specs.Views.{with_put};
    ghost use Rattle.ivy_ether.specs.Items.{strings_in};

    ghost then = { λ v x w. w ≡ with_put v E.events (strings_in x) };
}

impl<E: Given, A: Allocator> Lesson<Wired<A>, View> for Puts<E> {
    ghost use Rattle.ivy_ether.specs.EtherViews.{AnyItems};

    ghost fact = { λ v items. AnyItems items };
}

/// An item is taken.
pub struct Takes<E: Given>(PhantomData<E>);

impl<E: Given, A: Allocator> Outcome<Wired<A>, View> for Takes<E> {
    ghost use Rattle.std.specs.Prelude.{◌≡◌};
    ghost use Rattle.ivy_ether.specs.Views.{with_taken};

    ghost then = { λ v x w. w ≡ with_taken v E.events x };
}

impl<E: Given, A: Allocator> Lesson<Wired<A>, View> for Takes<E> {
    ghost use Rattle.ivy_ether.specs.EtherViews.{AnyItems};

    ghost fact = { λ v items. AnyItems items };
}

/// A report is put.
pub struct Reports;

impl<A: Allocator> Outcome<Wired<A>, View> for Reports {
    ghost use Rattle.std.specs.Prelude.{◌≡◌};
    ghost use Rattle.ivy_ether.specs.Views.{with_report};
    ghost use Rattle.ivy_ether.specs.Items.{events_in};

    ghost then = { λ v x w. w ≡ with_report v (events_in x) };
}

impl<A: Allocator> Lesson<Wired<A>, View> for Reports {
    ghost use Rattle.ivy_ether.specs.EtherViews.{AnyItems};

    ghost fact = { λ v items. AnyItems items };
}

/// A seat is issued.
pub struct Issues;

impl<A: Allocator> Outcome<Wired<A>, View> for Issues {
    ghost use Rattle.std.specs.Prelude.{◌≡◌};
    ghost use Rattle.ivy_ether.specs.Views.{with_issued};
    ghost use Rattle.ivy_ether.specs.Items.{seat_of};

    ghost then = { λ v x w. w ≡ with_issued v (seat_of x) };
}

impl<A: Allocator> Lesson<Wired<A>, View> for Issues {
    ghost use Rattle.ivy_ether.specs.EtherViews.{AnyItems};

    ghost fact = { λ v items. AnyItems items };
}

/// A seat is taken.
pub struct Sits;

impl<A: Allocator> Outcome<Wired<A>, View> for Sits {
    ghost use Rattle.std.specs.Prelude.{◌≡◌};
    ghost use Rattle.ivy_ether.specs.Views.{after_seat};

    ghost then = { λ v x w. w ≡ after_seat v x };
}

impl<A: Allocator> Lesson<Wired<A>, View> for Sits {
    ghost use Rattle.ivy_ether.specs.EtherViews.{AnyItems};

    ghost fact = { λ v items. AnyItems items };
}

/// A report is taken.
pub struct Tells;

impl<A: Allocator> Outcome<Wired<A>, View> for Tells {
    ghost use Rattle.std.specs.Prelude.{◌≡◌};
    ghost use Rattle.ivy_ether.specs.Views.{view_after_told};

    ghost then = { λ v x w. w ≡ view_after_told v x };
}

impl<A: Allocator> Lesson<Wired<A>, View> for Tells {
    ghost use Rattle.ivy_ether.specs.EtherViews.{AnyItems};

    ghost fact = { λ v items. AnyItems items };
}

/// What the reports that the starter took tell.
pub struct Parts<S: Setup>(PhantomData<S>);

impl<S: Setup, A: Allocator> Lesson<Wired<A>, View> for Parts<S> {
    ghost use Rattle.ivy_ether.specs.Programs.{Told};

    ghost fact = { λ v items. Told S.config S.opened S.programs v };
}

/// What the run so far is to a pass.
pub struct Own<S: Setup>(PhantomData<S>);

impl<S: Setup, A: Allocator> Lesson<Wired<A>, View> for Own<S> {
    ghost use Rattle.ivy_ether.specs.Programs.{Runs};

    ghost fact = { λ v items. Runs S.config S.opened S.programs v };
}

/// A frame that found the ether full. What a pass notes makes a newcomer beside it, which nobody uses.
pub struct Refuses<E: Given>(PhantomData<E>);

impl<E: Given> Split<View> for Refuses<E> {
    ghost use Rattle.ivy_ether.specs.Views.{newcomer, with_refused};

    ghost left = { λ v. with_refused v E.frame };

    ghost right = { λ v. newcomer };
}

/// An ether that was found empty.
pub struct FindsNone;

impl Split<View> for FindsNone {
    ghost use Rattle.ivy_ether.specs.Views.{newcomer, with_empty};

    ghost left = { λ v. with_empty v };

    ghost right = { λ v. newcomer };
}

/// A newcomer beside a pass.
pub struct Beside;

impl Split<View> for Beside {
    ghost use Rattle.ivy_ether.specs.Views.{newcomer};

    ghost left = { λ v. v };

    ghost right = { λ v. newcomer };
}

/// Calls or pages are handed to the pass's node.
pub struct Hands<E: Handed>(PhantomData<E>);

impl<E: Handed> Split<View> for Hands<E> {
    ghost use Rattle.ivy_ether.specs.Views.{newcomer, with_handings};

    ghost left = { λ v. with_handings v E.handings };

    ghost right = { λ v. newcomer };
}

/// A site's list is given.
pub struct Gives<E: Given>(PhantomData<E>);

impl<E: Given> Split<View> for Gives<E> {
    ghost use Rattle.ivy_ether.specs.Views.{newcomer, with_given};

    ghost left = { λ v. with_given v E.events };

    ghost right = { λ v. newcomer };
}

/// The pass of a site is taken in.
pub struct Closes;

impl Join<View> for Closes {
    ghost use Rattle.ivy_ether.specs.Views.{newcomer, with_closed};

    ghost both = { with_closed };

    ghost spent = { newcomer };
}
