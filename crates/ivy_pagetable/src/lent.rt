ghost use Rattle.std.specs.Prelude.{◌≡◌};
ghost use Rattle.ivy_pagetable.specs.Lent.{lent_entry};

use crate::await_acks::AwaitAcks;
use crate::await_write::AwaitWrite;
use crate::entry::Entry;
use crate::idle::Idle;
use crate::waiting::Waiting;

/// The entry of a page, lent: what stands in each state.
#[derive(Clone, Copy)]
pub enum LentEntry<'a> {
    /// No word waits.
    Idle(&'a Idle),
    /// A word that reads waits for a copy.
    AwaitRead(&'a Waiting),
    /// A word that writes waits for the page.
    AwaitWrite(&'a AwaitWrite),
    /// A word that writes waits for the acknowledgements of those that had a copy.
    AwaitAcks(&'a AwaitAcks),
}

impl Entry {
    /// The same, lent.
    #[inline(always)]
    pub fn lent(&self) -> LentEntry<'_>
        ensures { lent_entry result ≡ self.now }
    {
        match self {
            Entry::Idle(idle) => LentEntry::Idle(idle),
            Entry::AwaitRead(waiting) => LentEntry::AwaitRead(waiting),
            Entry::AwaitWrite(state) => LentEntry::AwaitWrite(state),
            Entry::AwaitAcks(state) => LentEntry::AwaitAcks(state),
        }
    }
}
