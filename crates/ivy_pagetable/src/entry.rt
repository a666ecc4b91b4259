ghost use Rattle.std.specs.Prelude.{◌≡◌, if◌then◌else◌};
ghost use Rattle.ivy_pagetable.specs.stated.Entries.{is_locked, is_owner, readable, writable, can_put_off, with_put_off};
ghost use Rattle.ivy_pagetable.specs.Entries.{suffices_at};

use crate::await_acks::AwaitAcks;
use crate::await_write::AwaitWrite;
use crate::idle::Idle;
use crate::put_off::PutOff;
use crate::waiting::Waiting;
use crate::word::Word;

/// The entry of a page at a node.
#[derive(Drop)]
pub enum Entry {
    /// No word waits.
    Idle(Idle),
    /// A word that reads waits for a copy.
    AwaitRead(Waiting),
    /// A word that writes waits for the page.
    AwaitWrite(AwaitWrite),
    /// A word that writes waits for the acknowledgements of those that had a copy.
    AwaitAcks(AwaitAcks),
}

impl Entry {
    /// Whether a word waits for the page.
    pub fn is_locked(&self) -> bool
        ensures { result ≡ is_locked self.now }
    {
        match self {
            Entry::Idle(_) => false,
            Entry::AwaitRead(_) | Entry::AwaitWrite(_) | Entry::AwaitAcks(_) => true,
        }
    }

    /// Whether this node is the page's owner.
    pub fn is_owner(&self) -> bool
        ensures { result ≡ is_owner self.now }
    {
        match self {
            Entry::Idle(idle) => idle.is_owner(),
            Entry::AwaitRead(_) | Entry::AwaitWrite(_) => false,
            Entry::AwaitAcks(_) => true,
        }
    }

    /// Whether the page may be read here.
    pub fn readable(&self) -> bool
        ensures { result ≡ readable self.now }
    {
        match self {
            Entry::Idle(idle) => idle.access().reads(),
            Entry::AwaitRead(_) => false,
            Entry::AwaitWrite(state) => state.had_copy(),
            Entry::AwaitAcks(_) => true,
        }
    }

    /// Whether the page may be written here.
    pub fn writable(&self) -> bool
        ensures { result ≡ writable self.now }
    {
        match self {
            Entry::Idle(idle) => idle.access().writes(),
            Entry::AwaitRead(_) | Entry::AwaitWrite(_) | Entry::AwaitAcks(_) => false,
        }
    }

    /// Whether a word can be carried out at once: no word waits for the page, and the access suffices.
    #[inline(always)]
    pub(crate) fn suffices(&self, word: Word) -> bool
        ensures { result ≡ suffices_at self.now word }
    {
        match self {
            Entry::Idle(idle) => idle.access().suffices(word),
            Entry::AwaitRead(_) | Entry::AwaitWrite(_) | Entry::AwaitAcks(_) => false,
        }
    }

    /// Puts a message off where a word waits and there is room, and says whether it did.
    pub(crate) fn put_off(&mut self, message: PutOff) -> bool
        ensures done { result ≡ can_put_off self.old }
        ensures kept { self.new ≡ if can_put_off self.old then with_put_off self.old message else self.old }
    {
        match self {
            Entry::Idle(_) => false,
            Entry::AwaitRead(waiting) => waiting.try_put_off(message),
            Entry::AwaitWrite(state) => state.try_put_off(message),
            Entry::AwaitAcks(state) => state.try_put_off(message),
        }
    }
}
