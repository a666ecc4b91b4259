//! The page table of a node that has many pages and uses few.
ghost use Rattle.std.specs.Prelude.{◌≡◌, ◌+◌, ◌<◌, ◌≤◌, true, [], All, length, map, replicate, if◌then◌else◌, IsTrue, IsFalse, IfSome, IfNone, IfOk, OnOk, OnErr, IsOkUnless};
ghost use Rattle.ivy_model.specs.stated.Config.{IsConfig};
ghost use Rattle.ivy_model.specs.stated.Serves.{overwrite};
ghost use Rattle.ivy_pagetable.specs.stated.Entries.{can_put_off, with_put_off, is_locked};
ghost use Rattle.ivy_pagetable.specs.Lent.{lent_entry};
ghost use Rattle.ivy_pagetable.specs.LockedEntries.{locked_beside, most_locked};
ghost use Rattle.ivy_pagetable.specs.stated.Tables.{first_entry, entry_at, page_at, IsBlank, with_entry, with_page, first_table};
ghost use Rattle.ivy_pagetable.specs.WideTables.{StandsAt, StandsNowhere};
ghost use Rattle.ivy_pagetable.specs.stated.Words.{IsWord, carried_out, needs_write, width_of, offset_of, number_at};

use crate::access::Access;
use crate::entry::Entry;
use crate::idle::Idle;
use crate::lent::LentEntry;
use crate::node_table::first_idle;
use crate::page::Page;
use crate::put_off::PutOff;
use crate::word::{Out, Word};
use arrayvec::ArrayVec;
use ivy_model::{Config, Fault};
use std::alloc::{AllocError, Allocator};
use std::marker::Model;
use std::mem::swap;

/// Locked entries, at most this many.
const MOST_LOCKED: usize = 8;

/// A locked entry, and its page.
#[derive(Drop)]
struct Locked {
    page: u32,
    entry: Entry,
}

impl Default for Locked {
    ghost use Rattle.std.specs.Prelude.{◌≡◌};
    ghost use Rattle.ivy_pagetable.specs.stated.Entries.{nothing};

    ghost is_default = { λ locked. locked ≡ record { page = 0; entry = nothing } };

    /// An idle entry of page 0, which only fills places that hold no locked one.
    fn default() -> Locked {
        Locked {
            page: 0,
            entry: Entry::Idle(Idle::plain(Access::Nil)),
        }
    }
}

/// A page table whose idle entries are small, and whose pages are made when they are first written. A
/// page that was never written is zeros, which all such pages share. At most 8 entries are locked.
#[derive(Drop)]
pub struct WideTable<A: Allocator> {
    page_size: u32,
    /// The entry of each page, but of those that are locked, which have no access here.
    idle: Vec<Idle, A>,
    locked: ArrayVec<Locked, MOST_LOCKED>,
    /// The bytes of each page that was written; the others have none.
    pages: Vec<Page<A>, A>,
    zeros: Page<A>,
}

impl<A: Allocator> Model for WideTable<A> {
    ghost use Rattle.std.specs.Prelude.{map};
    ghost use Rattle.ivy_pagetable.specs.stated.TableState.{Table};
    ghost use Rattle.ivy_pagetable.specs.Pages.{shown_page};
    ghost use Rattle.ivy_pagetable.specs.WideTables.{entries_in, IsWideTable};
    ghost use Rattle.std.specs.Coded.{codes};
    ghost use Rattle.ivy_pagetable.specs.stated.NodeSets.{nodes_code};

    ghost Value = { Table };

    ghost coded = { Prim.hlevel (codes, nodes_code) };

    ghost view = { λ t. record { page_size = t.page_size; entries = entries_in t.idle.items t.locked.items; pages = map (shown_page t.page_size) t.pages.items } };

    ghost invariant = { λ t. IsWideTable t.page_size t.idle.items t.locked.items t.pages.items t.zeros };
}

fn first_idles<A: Allocator>(alloc: A, pages: u32, me: u8) -> Result<Vec<Idle, A>, AllocError>
    ensures { IfOk result (λ idles. map Entry.Idle idles.items ≡ replicate pages (first_entry me)) }
{
    let mut idles = Vec::with_capacity(alloc, pages as usize)?;
    for _ in 0..pages {
        idles.push(first_idle(me))?;
    }
    Ok(idles)
}

fn no_pages<A: Allocator + Copy>(alloc: A, pages: u32) -> Result<Vec<Page<A>, A>, AllocError>
    ensures { IfOk result (λ all. all.items ≡ replicate pages []) }
{
    let mut all = Vec::with_capacity(alloc, pages as usize)?;
    for _ in 0..pages {
        all.push(Page::none(alloc))?;
    }
    Ok(all)
}

/// Which of these is the entry of the page, if one is.
fn place_of(locked: &[Locked], page: u32) -> Option<usize>
    ensures found { IfSome result (StandsAt page locked.now) }
    ensures missing { IfNone result (StandsNowhere page locked.now) }
{
    locked.iter().position(|locked| locked.page == page)
}

impl<A: Allocator + Copy> WideTable<A> {
    /// The table of a node at first: node 0 owns each page, to write, and the others have nothing;
    /// each byte is 0 [1].
    pub fn new(alloc: A, config: &Config, me: u8) -> Result<Self, Fault>
        requires { IsConfig config.now }
        ensures first { IfOk result (λ t. t ≡ first_table config.now me) }
        ensures memory { IsOkUnless result Fault.Memory }
    {
        let idle = first_idles(alloc, config.pages, me)?;
        let pages = no_pages(alloc, config.pages)?;
        let zeros = Page::zeros(alloc, config.page_size as usize)?;
        Ok(WideTable {
            page_size: config.page_size,
            idle,
            locked: ArrayVec::new(),
            pages,
            zeros,
        })
    }
}

impl<A: Allocator> WideTable<A> {
    /// The entry of the page.
    pub fn entry(&self, page: u32) -> LentEntry<'_>
        requires { page < length self.now.entries }
        ensures { lent_entry result ≡ entry_at self.now page }
    {
        let idle = &self.idle[page as usize];
        if idle.access().reads() {
            return LentEntry::Idle(idle);
        }
        match place_of(&self.locked, page) {
            Some(place) => self.locked[place].entry.lent(),
            None => LentEntry::Idle(idle),
        }
    }

    /// The bytes of the page.
    pub fn page(&self, page: u32) -> &[u8]
        requires { page < length self.now.entries }
        ensures bytes { result.now ≡ page_at self.now page }
        ensures sized { length result.now ≡ self.now.page_size }
    {
        let own = &self.pages[page as usize];
        if own.is_none() {
            self.zeros.bytes()
        } else {
            own.bytes()
        }
    }

    /// Replaces the entry of the page. Fewer than 8 others are locked, where this is.
    pub fn set_entry(&mut self, page: u32, entry: Entry)
        requires page { page < length self.old.entries }
        requires room { is_locked entry ≡ true → locked_beside self.old page < most_locked }
        ensures { self.new ≡ with_entry self.old page entry }
    {
        self.locked.retain(|locked| locked.page != page);
        match entry {
            Entry::Idle(idle) => self.idle[page as usize] = idle,
            entry => {
                self.idle[page as usize] = Idle::plain(Access::Nil);
                self.locked.push(Locked { page, entry });
            }
        }
    }

    /// Puts a message off where a word waits for the page and fewer than 32 are put off, and
    /// says whether it did. If not, nothing changes.
    pub fn put_off(&mut self, page: u32, message: PutOff) -> bool
        requires { page < length self.old.entries }
        ensures done { result ≡ can_put_off (entry_at self.old page) }
        ensures kept { self.new ≡ if can_put_off (entry_at self.old page) then with_entry self.old page (with_put_off (entry_at self.old page) message) else self.old }
    {
        let Some(place) = place_of(&self.locked, page) else {
            return false;
        };
        self.locked[place].entry.put_off(message)
    }

    /// The page has these bytes from now on, as many as a page has. What the spare page has then, nobody
    /// needs: the bytes that the page had, or none.
    pub fn exchange(&mut self, page: u32, spare: &mut Page<A>)
        requires page { page < length self.old.entries }
        requires sized { length spare.old ≡ self.old.page_size }
        ensures { self.new ≡ with_page self.old page spare.old }
    {
        swap(&mut self.pages[page as usize], spare);
    }

    /// The page has these bytes from now on, as many as a page has. They are copied to its own, or to the spare page, which
    /// has as many and becomes the page, where it has none.
    pub fn install(&mut self, page: u32, bytes: &[u8], spare: &mut Page<A>)
        requires page { page < length self.old.entries }
        requires sized { length bytes.now ≡ self.old.page_size }
        requires spare { length spare.old ≡ self.old.page_size }
        ensures { self.new ≡ with_page self.old page bytes.now }
    {
        let own = &mut self.pages[page as usize];
        if own.is_none() {
            swap(own, spare);
        }
        own.copy_from(bytes);
    }

    /// The number that stands where the word lies in the page, highest byte first: stored again, it
    /// takes the word back.
    pub fn number(&self, page: u32, word: Word) -> u64
        requires page { page < length self.now.entries }
        requires word { IsWord self.now.page_size word }
        ensures number { result ≡ number_at (width_of word) (offset_of word) (page_at self.now page) }
        ensures fact { All (λ b. b < 256) (page_at self.now page) }
    {
        word.number(self.page(page))
    }

    /// Carries a word out on the page, which is made first where the word writes and the page has no
    /// bytes of its own. If there is no memory for it, nothing changes.
    #[inline]
    pub fn carry_out(&mut self, page: u32, word: Word) -> Result<Out, AllocError>
        requires page { page < length self.old.entries }
        requires word { IsWord self.old.page_size word }
        ensures out { IfOk result (λ out. out ≡ (carried_out word (page_at self.old page)).out) }
        ensures bytes { OnOk result (self.new ≡ with_page self.old page (carried_out word (page_at self.old page)).bytes) }
        ensures sure { OnErr result (IsBlank self.old page × (needs_write word ≡ true)) }
        ensures err { OnErr result (self.new ≡ self.old) }
    {
        if !word.needs_write() {
            return Ok(word.read(self.page(page)));
        }
        let own = &mut self.pages[page as usize];
        own.make(self.page_size as usize)?;
        Ok(own.carry_out(word))
    }

    /// Carries a word out on the page, which the spare page becomes first where the page has no bytes of its own.
    pub fn put_back(&mut self, page: u32, word: Word, spare: &mut Page<A>)
        requires page { page < length self.old.entries }
        requires word { IsWord self.old.page_size word }
        requires spare { length spare.old ≡ self.old.page_size }
        ensures { self.new ≡ with_page self.old page (carried_out word (page_at self.old page)).bytes }
    {
        let own = &mut self.pages[page as usize];
        if own.is_none() {
            swap(own, spare);
            own.clear();
        }
        let _ = own.carry_out(word);
    }

    /// Gives the page bytes of its own, where it has none. Err only where the allocator has no memory for them.
    pub fn make(&mut self, page: u32) -> Result<(), AllocError>
        requires { page < length self.old.entries }
        ensures { self.new ≡ self.old }
    {
        let own = &mut self.pages[page as usize];
        own.make(self.page_size as usize)?;
        Ok(())
    }

    /// Copies bytes over those at a place in the page, where it has bytes of its own, and says whether it has.
    pub(crate) fn put(&mut self, page: u32, start: usize, from: &[u8]) -> bool
        requires page { page < length self.old.entries }
        requires within { start + length from.now ≤ self.old.page_size }
        ensures put { IsTrue result → self.new ≡ with_page self.old page (overwrite (page_at self.old page) start from.now) }
        ensures blank { IsFalse result → IsBlank self.old page }
        ensures same { IsFalse result → self.new ≡ self.old }
    {
        let own = &mut self.pages[page as usize];
        if own.is_none() {
            return false;
        }
        own.put(start, from);
        true
    }
}
