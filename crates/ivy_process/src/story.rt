//! Lists of answers that exist in proofs alone.
ghost use Rattle.std.specs.Prelude.{◌≡◌, [], ◌∷◌, ◌++◌};

use ivy_calls::Answer;
use std::marker::Model;
use std::snapshot::Snapshot;

/// A list of answers, to which one can be added. Of the answers no byte is kept.
#[cycle(story)]
#[derive(Drop)]
pub(crate) struct Story {
    link: Link,
}

/// Nothing, or a story and one answer more.
#[cycle(story)]
#[derive(Drop)]
enum Link {
    Start,
    More(Snapshot<Story>, Snapshot<Answer>),
}

impl Model for Story {
    ghost use Rattle.std.specs.Prelude.{List, length};
    ghost use Rattle.ivy_calls.specs.declared.Answer.{Answer};

    ghost Value = { List Answer };

    ghost use Rattle.ivy_process.specs.Stories.{answers_to};

    ghost view = { λ s. answers_to s.link };

    ghost size = { length };

    ghost use Rattle.std.proofs.Common.{arith, length-append};

    ghost size_decreases = { λ s h. Prim.grind (arith, length-append) };
}

impl Story {
    /// No answer yet.
    pub(crate) fn new() -> Story
        ensures { result ≡ [] }
    {
        Story { link: Link::Start }
    }

    /// One answer more.
    pub(crate) fn push(&mut self, one: &Answer)
        ensures { self.new ≡ self.old ++ one.now ∷ [] }
    {
        let before = Snapshot::of(&*self);
        let last = Snapshot::of(one);
        *self = Story {
            link: Link::More(before, last),
        };
    }
}
