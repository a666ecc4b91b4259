//! What pages are lent for to the program of a node.
ghost use Rattle.std.specs.Prelude.{◌≡◌, ◌≢◌, ◌<◌, ℕ, length, replicate, set, IfOk, IsFalse, IsTrue};
ghost use Rattle.ivy_embedded.specs.Lending.{is_more, left_for, lending_in, permits, permits_row, suffices_for};

use ivy_model::Row;
use ivy_pagetable::{Access, Word};
use std::alloc::{AllocError, Global};
use std::marker::Model;

/// What a page is lent for: its image may not be touched, may be read, or is the page, to be written.
#[derive(Clone, Copy, Debug, PartialEq, Eq)]
pub enum Lending {
    /// The program has no leave.
    Unlent,
    /// It may read.
    ToRead,
    /// It may read and write.
    ToWrite,
}

/// A page that is lent for more than a string leaves, and what that may be lent for after it.
#[derive(Clone, Copy, Debug, PartialEq, Eq)]
pub struct Want {
    pub page: u32,
    pub on: Lending,
}

/// Whether the access to a page is enough to lend it so.
pub(crate) fn suffices_for(access: Access, to: Lending) -> bool
    ensures { result ≡ suffices_for access to }
{
    match to {
        Lending::Unlent => true,
        Lending::ToRead => access.reads(),
        Lending::ToWrite => access.writes(),
    }
}

/// What a page may be lent for where this is the access.
pub(crate) fn left_for(access: Access) -> Lending
    ensures { result ≡ left_for access }
{
    match access {
        Access::Nil => Lending::Unlent,
        Access::Read => Lending::ToRead,
        Access::Write => Lending::ToWrite,
    }
}

/// Whether the one is to be lent for more than the other.
pub(crate) fn is_more(this: Lending, that: Lending) -> bool
    ensures { result ≡ is_more this that }
{
    match (this, that) {
        (Lending::Unlent, _)
        | (Lending::ToRead, Lending::ToRead | Lending::ToWrite)
        | (Lending::ToWrite, Lending::ToWrite) => false,
        (Lending::ToRead, Lending::Unlent)
        | (Lending::ToWrite, Lending::Unlent | Lending::ToRead) => true,
    }
}

/// Whether a call may be a word of a page that is so lent.
pub(crate) fn permits(lending: Lending, word: Word) -> bool
    ensures { result ≡ permits lending word }
{
    match lending {
        Lending::Unlent => true,
        Lending::ToRead => !word.needs_write(),
        Lending::ToWrite => false,
    }
}

/// Whether a block may be carried out at once on a page that is so lent.
pub(crate) fn permits_row(lending: Lending, kind: Row) -> bool
    ensures { result ≡ permits_row lending kind }
{
    match (lending, kind) {
        (Lending::ToRead, Row::Stores) => false,
        (Lending::Unlent | Lending::ToWrite, _) | (Lending::ToRead, Row::Loads) => true,
    }
}

/// What each page is lent for, and how many are.
#[derive(Drop)]
pub(crate) struct Lendings {
    each: Vec<Lending, Global>,
    lent: usize,
}

impl Model for Lendings {
    ghost use Rattle.std.specs.Prelude.{◌≡◌, ◌<◌, ◌^◌, List, length, sum_by};
    ghost use Rattle.ivy_embedded.specs.declared.lending.Lending as lending;
    ghost use Rattle.ivy_embedded.specs.Lending.{one_if_lent};

    ghost Value = { List lending.Lending };

    ghost view = { λ l. l.each.items };

    ghost invariant = { λ l. (l.lent ≡ sum_by one_if_lent l.each.items) × (length l.each.items < 2 ^ 32) };
}

impl Lendings {
    /// The pages of a node, none of which is lent.
    pub(crate) fn new(alloc: Global, pages: u32) -> Result<Lendings, AllocError>
        ensures { IfOk result (λ l. l ≡ replicate pages Lending.Unlent) }
    {
        Ok(Lendings {
            each: vec![in alloc; Lending::Unlent; pages as usize]?,
            lent: 0,
        })
    }

    /// Whether no page is lent.
    #[inline(always)]
    pub(crate) fn is_none(&self) -> bool
        ensures { IsTrue result → (page : ℕ) → lending_in self.now page ≡ Lending.Unlent }
    {
        self.lent == 0
    }

    /// Whether the page of this number is lent, if there is one.
    #[inline(always)]
    pub(crate) fn has(&self, page: u64) -> bool
        ensures yes { IsTrue result → lending_in self.now page ≢ Lending.Unlent }
        ensures no { IsFalse result → lending_in self.now page ≡ Lending.Unlent }
    {
        let place = page as usize;
        place < self.each.len() && self.each[place] != Lending::Unlent
    }

    /// What a page is lent for.
    pub(crate) fn at(&self, page: u32) -> Lending
        ensures is { result ≡ lending_in self.now page }
        ensures there { result ≢ Lending.Unlent → page < length self.now }
    {
        match self.each.get(page as usize) {
            Some(lending) => *lending,
            None => Lending::Unlent,
        }
    }

    /// What a page that is there is lent for.
    pub(crate) fn of(&self, page: u32) -> Lending
        requires { page < length self.now }
        ensures { result ≡ lending_in self.now page }
    {
        self.each[page as usize]
    }

    /// Sets what a page is lent for.
    pub(crate) fn set(&mut self, page: u32, lending: Lending)
        requires { page < length self.old }
        ensures { self.new ≡ set self.old page lending }
    {
        let place = page as usize;
        if self.each[place] != Lending::Unlent {
            self.lent -= 1;
        }
        if lending != Lending::Unlent {
            self.lent += 1;
        }
        self.each[place] = lending;
    }
}
