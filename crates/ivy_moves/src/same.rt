//! Lists of events, copied and compared.
ghost use Rattle.std.specs.Prelude.{◌≡◌, ◌++◌, IsTrue, IfOk};
ghost use Rattle.ivy_moves.specs.Marks.{marks, marks_of};

use crate::event::Event;
use crate::story::{Delivered, Happening, Pulsed, Turned};
use ivy_model::Story;
use ivy_wire::Bytes;
use std::alloc::{AllocError, Allocator};

/// A copy of one entry, which shares its string.
fn copy_event<A: Allocator>(event: &Event<Bytes<A>>) -> Result<Event<Bytes<A>>, AllocError>
    ensures copy { IfOk result (λ e. marks_of e ≡ marks_of event.now) }
{
    match event {
        Event::Turns(n) => Ok(Event::Turns(*n)),
        Event::Delivered(bytes) => Ok(Event::Delivered(bytes.share()?)),
        Event::Pulsed(to) => Ok(Event::Pulsed(*to)),
    }
}

/// A copy of the entries, which shares their strings.
pub(crate) fn copy_events<A: Allocator + Copy>(
    alloc: A,
    events: &[Event<Bytes<A>>],
) -> Result<Vec<Event<Bytes<A>>, A>, AllocError>
    ensures copy { IfOk result (λ v. marks v.items ≡ marks events.now) }
{
    let mut copy = Vec::new(alloc);
    for event in events {
        let one = copy_event(event)?;
        copy.reserve(1)?;
        copy.push_reserved(one);
    }
    Ok(copy)
}

/// The story of these entries.
pub(crate) fn retold<A: Allocator>(events: &[Event<Bytes<A>>]) -> Story<Happening>
    ensures { result.told ≡ marks events.now }
{
    let mut story = Story::new();
    for event in events {
        tell(&mut story, event);
    }
    story
}

/// One entry more.
fn tell<A: Allocator>(story: &mut Story<Happening>, event: &Event<Bytes<A>>)
    ensures more { story.new.told ≡ story.old.told ++ marks_of event.now }
{
    match event {
        Event::Turns(n) => story.append::<u64, Turned>(n),
        Event::Delivered(bytes) => story.append::<&[u8], Delivered>(&bytes.bytes()),
        Event::Pulsed(to) => story.append::<u8, Pulsed>(to),
    }
}

/// Whether two entries are the same.
fn is_same<A: Allocator>(a: &Event<Bytes<A>>, b: &Event<Bytes<A>>) -> bool
    ensures { IsTrue result → marks_of a.now ≡ marks_of b.now }
{
    match (a, b) {
        (Event::Turns(m), Event::Turns(n)) => *m == *n,
        (Event::Delivered(x), Event::Delivered(y)) => x.bytes() == y.bytes(),
        (Event::Pulsed(i), Event::Pulsed(j)) => *i == *j,
        _ => false,
    }
}

/// Whether two lists have the same entries.
pub(crate) fn are_same<A: Allocator>(a: &[Event<Bytes<A>>], b: &[Event<Bytes<A>>]) -> bool
    ensures { IsTrue result → marks a.now ≡ marks b.now }
{
    if a.len() != b.len() {
        return false;
    }
    for i in 0..a.len() {
        if !is_same(&a[i], &b[i]) {
            return false;
        }
    }
    true
}
