ghost use Rattle.std.specs.Prelude.{◌≡◌, length, nat_lt, if◌then◌else◌};
ghost use Rattle.ivy_pagetable.specs.stated.Entries.{with_one_put_off};
ghost use Rattle.ivy_pagetable.specs.stated.EntryLimits.{most_put_off};

use crate::put_off::PutOff;
use crate::waiting::Waiting;
use std::marker::Model;

/// A word that writes waits for the page. Until then this node may still have the copy that it had.
#[derive(Drop)]
pub struct AwaitWrite {
    had_copy: bool,
    waiting: Waiting,
}

impl Model for AwaitWrite {
    ghost use Rattle.ivy_pagetable.specs.stated.States.{AwaitWriteState};

    ghost Value = { AwaitWriteState };

    ghost view = { λ s. record { had_copy = s.had_copy; waiting = s.waiting } };
}

impl AwaitWrite {
    /// The word waits, with this copy or none.
    pub fn new(had_copy: bool, waiting: Waiting) -> AwaitWrite
        ensures { result ≡ record { had_copy = had_copy; waiting = waiting } }
    {
        AwaitWrite { had_copy, waiting }
    }

    /// Whether this node still has a copy, to read.
    pub fn had_copy(&self) -> bool
        ensures { result ≡ self.now.had_copy }
    {
        self.had_copy
    }

    /// The word, its call and what was put off.
    pub fn waiting(&self) -> &Waiting
        ensures { result.now ≡ self.now.waiting }
    {
        &self.waiting
    }

    pub(crate) fn try_put_off(&mut self, message: PutOff) -> bool
        ensures done { result ≡ nat_lt (length self.old.waiting.put_off) most_put_off }
        ensures kept { self.new ≡ record {
          had_copy = self.old.had_copy;
          waiting = if nat_lt (length self.old.waiting.put_off) most_put_off
              then with_one_put_off self.old.waiting message
              else self.old.waiting;
        } }
    {
        self.waiting.try_put_off(message)
    }
}
