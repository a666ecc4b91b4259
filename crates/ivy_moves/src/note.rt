//! How turns in a row become one entry.
ghost use Rattle.std.specs.Prelude.{◌≡◌, ◌+◌, ◌<◌, ◌∷◌, ◌++◌, [], vec_len, vec_capacity};
ghost use Rattle.ivy_moves.specs.Marks.{Turn, marks};

use crate::event::Event;
use ivy_wire::Bytes;
use std::alloc::Allocator;

/// Lists one more turn.
pub(crate) fn note_turn<A: Allocator>(entries: &mut Vec<Event<Bytes<A>>, A>)
    requires { vec_len entries.old < vec_capacity entries.old }
    ensures { marks entries.new.items ≡ marks entries.old.items ++ Turn ∷ [] }
{
    match entries.pop() {
        None => entries.push_reserved(Event::Turns(1)),
        Some(last) => push_after(entries, last),
    }
}

/// Puts back the last entry, with one more turn.
fn push_after<A: Allocator>(entries: &mut Vec<Event<Bytes<A>>, A>, last: Event<Bytes<A>>)
    requires { vec_len entries.old + 1 < vec_capacity entries.old }
    ensures { marks entries.new.items ≡ marks (entries.old.items ++ last ∷ []) ++ Turn ∷ [] }
{
    match last {
        Event::Turns(n) if n < u64::MAX => entries.push_reserved(Event::Turns(n + 1)),
        other => {
            entries.push_reserved(other);
            entries.push_reserved(Event::Turns(1));
        }
    }
}
