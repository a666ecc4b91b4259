ghost use Rattle.std.specs.Prelude.{◌≡◌};
ghost use Rattle.ivy_pagetable.specs.stated.Accesses.{reads, writes, suffices};

use crate::word::Word;

/// What this node's program may do with a page without asking another node: the page's protection,
/// after Li and Hudak (1989).
#[derive(Clone, Copy, Debug, PartialEq, Eq)]
pub enum Access {
    /// Nothing.
    Nil,
    /// Read it.
    Read,
    /// Read and write it.
    Write,
}

impl Access {
    /// Whether a word may be read.
    pub fn reads(self) -> bool
        ensures { result ≡ reads self }
    {
        self != Access::Nil
    }

    /// Whether a word may be written.
    pub fn writes(self) -> bool
        ensures { result ≡ writes self }
    {
        self == Access::Write
    }

    /// Whether a word can be carried out with it.
    #[inline(always)]
    pub fn suffices(self, word: Word) -> bool
        ensures { result ≡ suffices self word }
    {
        if word.needs_write() {
            self.writes()
        } else {
            self.reads()
        }
    }
}
