//! The page table of a node of any configuration, and the one of up to 256 pages.
ghost use Rattle.std.specs.Prelude.{◌≡◌, ◌+◌, ◌*◌, ◌%◌, ◌<◌, ◌≤◌, ◌⊎◌, true, false, All, length, drop, replicate, if◌then◌else◌, IsTrue, IsFalse, IsSome, IfSome, IfNone, IfOk, OnOk, OnErr, IsOkUnless};
ghost use Rattle.std.specs.List.{concat};
ghost use Rattle.ivy_model.specs.declared.Row.TheVariants.{Loads, Stores};
ghost use Rattle.ivy_model.specs.Rows.{numbers_in};
ghost use Rattle.ivy_model.specs.stated.Config.{IsConfig};
ghost use Rattle.ivy_model.specs.stated.Serves.{overwrite};
ghost use Rattle.ivy_model.specs.stated.Limits.{most_pages};
ghost use Rattle.ivy_pagetable.specs.stated.Entries.{can_put_off, with_put_off, is_locked};
ghost use Rattle.ivy_pagetable.specs.Entries.{suffices_at};
ghost use Rattle.ivy_pagetable.specs.Either.{MayBeUnmade};
ghost use Rattle.ivy_pagetable.specs.Lent.{lent_entry};
ghost use Rattle.ivy_pagetable.specs.LockedEntries.{locked_beside, most_locked};
ghost use Rattle.ivy_pagetable.specs.stated.Tables.{first_entry, entry_at, page_at, with_entry, with_page, first_table};
ghost use Rattle.ivy_pagetable.specs.WordRows.{row_len, AreCarried, with_row};
ghost use Rattle.ivy_pagetable.specs.stated.Words.{IsWord, carried_out, needs_write, width_of, offset_of, number_at};

use crate::access::Access;
use crate::entry::Entry;
use crate::idle::Idle;
use crate::lent::LentEntry;
use crate::page::Page;
use crate::put_off::PutOff;
use crate::row::{put, row_len};
use crate::wide_table::WideTable;
use crate::word::{Out, Word};
use ivy_model::{Config, Fault, MOST_PAGES};
use std::alloc::{AllocError, Allocator};
use std::marker::Model;
use std::ops::Range;

/// One table of the two.
#[derive(Drop)]
enum Either<A: Allocator> {
    Narrow(PageTable<A>),
    Wide(WideTable<A>),
}

/// The entries and pages of a node: all made at first where the configuration is narrow, and else each
/// page when it is first written.
#[derive(Drop)]
pub struct NodeTable<A: Allocator> {
    table: Either<A>,
}

impl<A: Allocator> Model for NodeTable<A> {
    ghost use Rattle.ivy_pagetable.specs.stated.TableState.{Table};
    ghost use Rattle.ivy_pagetable.specs.Either.{either_table, IsEither};
    ghost use Rattle.std.specs.Coded.{codes};
    ghost use Rattle.ivy_pagetable.specs.stated.NodeSets.{nodes_code};

    ghost Value = { Table };

    ghost coded = { Prim.hlevel (codes, nodes_code) };

    ghost view = { λ t. either_table t.table };

    ghost invariant = { λ t. IsEither t.table };
}

impl<A: Allocator + Copy> NodeTable<A> {
    /// The table of a node at first: node 0 owns each page, to write, and the others have nothing;
    /// each byte is 0 [1].
    pub fn new(alloc: A, config: &Config, me: u8) -> Result<Self, Fault>
        requires { IsConfig config.now }
        ensures first { IfOk result (λ t. t ≡ first_table config.now me) }
        ensures memory { IsOkUnless result Fault.Memory }
    {
        let table = if config.pages <= MOST_PAGES {
            Either::Narrow(PageTable::new(alloc, config, me)?)
        } else {
            Either::Wide(WideTable::new(alloc, config, me)?)
        };
        Ok(NodeTable { table })
    }
}

impl<A: Allocator> NodeTable<A> {
    /// The entry of the page.
    #[inline(always)]
    pub fn entry(&self, page: u32) -> LentEntry<'_>
        requires { page < length self.now.entries }
        ensures { lent_entry result ≡ entry_at self.now page }
    {
        match &self.table {
            Either::Narrow(table) => table.entry(page).lent(),
            Either::Wide(table) => table.entry(page),
        }
    }

    /// The bytes of the page.
    #[inline(always)]
    pub fn page(&self, page: u32) -> &[u8]
        requires { page < length self.now.entries }
        ensures bytes { result.now ≡ page_at self.now page }
        ensures sized { length result.now ≡ self.now.page_size }
    {
        match &self.table {
            Either::Narrow(table) => table.page(page),
            Either::Wide(table) => table.page(page),
        }
    }

    /// Replaces the entry of the page. Fewer than 8 others are locked, where this is.
    pub fn set_entry(&mut self, page: u32, entry: Entry)
        requires page { page < length self.old.entries }
        requires room { is_locked entry ≡ true → locked_beside self.old page < most_locked }
        ensures { self.new ≡ with_entry self.old page entry }
    {
        match &mut self.table {
            Either::Narrow(table) => table.set_entry(page, entry),
            Either::Wide(table) => table.set_entry(page, entry),
        }
    }

    /// Puts a message off where a word waits for the page and fewer than 32 are put off, and
    /// says whether it did. If not, nothing changes.
    pub fn put_off(&mut self, page: u32, message: PutOff) -> bool
        requires { page < length self.old.entries }
        ensures done { result ≡ can_put_off (entry_at self.old page) }
        ensures kept { self.new ≡ if can_put_off (entry_at self.old page) then with_entry self.old page (with_put_off (entry_at self.old page) message) else self.old }
    {
        match &mut self.table {
            Either::Narrow(table) => table.put_off(page, message),
            Either::Wide(table) => table.put_off(page, message),
        }
    }

    /// The page has the bytes of the spare one from now on, as many as a page has. The spare one keeps
    /// them where there are 256 pages at most; else it has what the page had, or nothing.
    pub fn exchange(&mut self, page: u32, spare: &mut Page<A>)
        requires page { page < length self.old.entries }
        requires sized { length spare.old ≡ self.old.page_size }
        ensures page { self.new ≡ with_page self.old page spare.old }
        ensures kept { length self.old.entries ≤ most_pages → spare.new ≡ spare.old }
    {
        match &mut self.table {
            Either::Narrow(table) => table.install(page, spare.bytes()),
            Either::Wide(table) => table.exchange(page, spare),
        }
    }

    /// Copies these bytes to the page, as many as it has. The spare page, which has as many, keeps its bytes where there
    /// are 256 pages at most; else it may become the page.
    pub fn install(&mut self, page: u32, bytes: &[u8], spare: &mut Page<A>)
        requires page { page < length self.old.entries }
        requires sized { length bytes.now ≡ self.old.page_size }
        requires spare { length spare.old ≡ self.old.page_size }
        ensures page { self.new ≡ with_page self.old page bytes.now }
        ensures kept { length self.old.entries ≤ most_pages → spare.new ≡ spare.old }
    {
        match &mut self.table {
            Either::Narrow(table) => table.install(page, bytes),
            Either::Wide(table) => table.install(page, bytes, spare),
        }
    }

    /// The number that stands where the word lies in the page, highest byte first: stored again, it
    /// takes the word back.
    pub fn number(&self, page: u32, word: Word) -> u64
        requires page { page < length self.now.entries }
        requires word { IsWord self.now.page_size word }
        ensures number { result ≡ number_at (width_of word) (offset_of word) (page_at self.now page) }
        ensures fact { All (λ b. b < 256) (page_at self.now page) }
    {
        match &self.table {
            Either::Narrow(table) => table.number(page, word),
            Either::Wide(table) => table.number(page, word),
        }
    }

    /// Carries a word out on the page at once, where no word waits for it, the access suffices and there are 256 pages at
    /// most, and says what the word gives. Else nothing changes.
    ///
    /// A word that hits goes this way alone, which looks at one entry and at one page, and leaves out what other tables and
    /// other entries need.
    #[inline(always)]
    pub fn hit(&mut self, page: u32, word: Word) -> Option<Out>
        requires page { page < length self.old.entries }
        requires word { IsWord self.old.page_size word }
        ensures hit { IsSome result → suffices_at (entry_at self.old page) word ≡ true }
        ensures miss { IfNone result ((suffices_at (entry_at self.old page) word ≡ false) ⊎ (most_pages < length self.old.entries)) }
        ensures out { IfSome result (λ out. out ≡ (carried_out word (page_at self.old page)).out) }
        ensures bytes { IsSome result → self.new ≡ with_page self.old page (carried_out word (page_at self.old page)).bytes }
        ensures same { IfNone result (self.new ≡ self.old) }
    {
        let Either::Narrow(table) = &mut self.table else {
            return None;
        };
        if !table.entry(page).suffices(word) {
            return None;
        }
        Some(table.carry_out(page, word))
    }

    /// Carries a word out on the page. It can lack the memory for a page that is written for the first
    /// time, where there are more than 256 pages; nothing changes then.
    #[inline(always)]
    pub fn carry_out(&mut self, page: u32, word: Word) -> Result<Out, AllocError>
        requires page { page < length self.old.entries }
        requires word { IsWord self.old.page_size word }
        ensures out { IfOk result (λ out. out ≡ (carried_out word (page_at self.old page)).out) }
        ensures bytes { OnOk result (self.new ≡ with_page self.old page (carried_out word (page_at self.old page)).bytes) }
        ensures sure { OnErr result (MayBeUnmade self.old page × (needs_write word ≡ true)) }
        ensures err { OnErr result (self.new ≡ self.old) }
    {
        match &mut self.table {
            Either::Narrow(table) => Ok(table.carry_out(page, word)),
            Either::Wide(table) => table.carry_out(page, word),
        }
    }

    /// Carries a word out on the page, and takes no memory for it: the spare page, which has as many bytes, becomes the
    /// page where it was not made yet. It keeps its bytes where there are 256 pages at most.
    pub fn put_back(&mut self, page: u32, word: Word, spare: &mut Page<A>)
        requires page { page < length self.old.entries }
        requires word { IsWord self.old.page_size word }
        requires spare { length spare.old ≡ self.old.page_size }
        ensures page { self.new ≡ with_page self.old page (carried_out word (page_at self.old page)).bytes }
        ensures kept { length self.old.entries ≤ most_pages → spare.new ≡ spare.old }
    {
        match &mut self.table {
            Either::Narrow(table) => {
                let _ = table.carry_out(page, word);
            }
            Either::Wide(table) => table.put_back(page, word, spare),
        }
    }

    /// Makes the page, where there are more than 256 pages and it is not made yet: then no store to it takes memory. Err only
    /// where the allocator has no memory for it. Either way no byte changes.
    pub fn make(&mut self, page: u32) -> Result<(), AllocError>
        requires { page < length self.old.entries }
        ensures { self.new ≡ self.old }
    {
        match &mut self.table {
            Either::Narrow(_) => Ok(()),
            Either::Wide(table) => table.make(page),
        }
    }

    /// Copies bytes over those at a place in the page, and says whether it did: where there are more than 256 pages, it does
    /// not on a page that is not made yet.
    fn put(&mut self, page: u32, start: usize, from: &[u8]) -> bool
        requires page { page < length self.old.entries }
        requires within { start + length from.now ≤ self.old.page_size }
        ensures put { IsTrue result → self.new ≡ with_page self.old page (overwrite (page_at self.old page) start from.now) }
        ensures unmade { IsFalse result → MayBeUnmade self.old page }
        ensures same { IsFalse result → self.new ≡ self.old }
    {
        match &mut self.table {
            Either::Narrow(table) => {
                table.put(page, start, from);
                true
            }
            Either::Wide(table) => table.put(page, start, from),
        }
    }

    /// Loads words of 8 bytes from a place in the page on, whose bytes it copies, and says how many words: as many as
    /// `into` has room for and as lie in the page.
    #[inline]
    pub fn load_row(&self, page: u32, offset: u32, into: &mut [u8]) -> usize
        requires page { page < length self.now.entries }
        requires aligned { offset % 8 ≡ 0 }
        requires within { offset ≤ self.now.page_size }
        ensures many { result ≡ row_len self.now.page_size offset (length into.old) }
        ensures fits { 8 * result ≤ length into.old }
        ensures within { offset + 8 * result ≤ self.now.page_size }
        ensures carried { AreCarried Loads offset (numbers_in result into.new) (page_at self.now page) (page_at self.now page) }
        ensures rest { drop (8 * result) into.new ≡ drop (8 * result) into.old }
        ensures sized { length into.new ≡ length into.old }
    {
        let bytes = self.page(page);
        let words = row_len(bytes.len(), offset, into.len());
        let start = offset as usize;
        put(into, 0, &bytes[start..start + 8 * words]);
        words
    }

    /// Stores words of 8 bytes from a place in the page on, whose bytes it copies, and says how many words: as many as
    /// `from` has and as lie in the page. It takes no memory: where there are more than 256 pages, it stores none on a page
    /// that is not made yet.
    #[inline]
    pub fn store_row(&mut self, page: u32, offset: u32, from: &[u8]) -> usize
        requires page { page < length self.old.entries }
        requires aligned { offset % 8 ≡ 0 }
        requires within { offset ≤ self.old.page_size }
        ensures many { (result ≡ row_len self.old.page_size offset (length from.now)) ⊎ ((result ≡ 0) × MayBeUnmade self.old page) }
        ensures fits { 8 * result ≤ length from.now }
        ensures within { offset + 8 * result ≤ self.old.page_size }
        ensures carried { AreCarried Stores offset (numbers_in result from.now) (page_at self.old page) (with_row (page_at self.old page) offset result from.now) }
        ensures bytes { self.new ≡ with_page self.old page (with_row (page_at self.old page) offset result from.now) }
    {
        let words = row_len(self.page(page).len(), offset, from.len());
        if !self.put(page, offset as usize, &from[..8 * words]) {
            return 0;
        }
        words
    }
}

/// The page table of a node: the entry and the bytes of each page, which its number names. There
/// are as many as the configuration has, all of its one size.
#[derive(Drop)]
pub struct PageTable<A: Allocator> {
    page_size: u32,
    entries: Vec<Entry, A>,
    /// The bytes of all pages, in order.
    region: Vec<u8, A>,
}

impl<A: Allocator> Model for PageTable<A> {
    ghost use Rattle.std.specs.Prelude.{◌≡◌, ◌*◌, length};
    ghost use Rattle.ivy_pagetable.specs.stated.TableState.{Table, pages_in};
    ghost use Rattle.std.specs.Coded.{codes};
    ghost use Rattle.ivy_pagetable.specs.stated.NodeSets.{nodes_code};

    ghost Value = { Table };

    ghost coded = { Prim.hlevel (codes, nodes_code) };

    ghost view = { λ t. record { page_size = t.page_size; entries = t.entries.items; pages = pages_in t.page_size (length t.entries.items) t.region.items } };

    ghost invariant = { λ t. length t.region.items ≡ length t.entries.items * t.page_size };
}

impl<A: Allocator + Copy> PageTable<A> {
    /// The table of a node at first: node 0 owns each page, to write, and the others have nothing;
    /// each byte is 0 [1].
    pub fn new(alloc: A, config: &Config, me: u8) -> Result<Self, Fault>
        requires { IsConfig config.now }
        ensures first { IfOk result (λ t. t ≡ first_table config.now me) }
        ensures memory { IsOkUnless result Fault.Memory }
    {
        let entries = first_entries(alloc, config.pages, me)?;
        let len = config.pages as usize * config.page_size as usize;
        Ok(PageTable {
            page_size: config.page_size,
            entries,
            region: vec![in alloc; 0u8; len]?,
        })
    }
}

impl<A: Allocator> PageTable<A> {
    ghost use Rattle.std.specs.Borrow.{sem};
    ghost use Rattle.ivy_pagetable.specs.Lending.{LendsPage};

    /// The entry of the page.
    pub fn entry(&self, page: u32) -> &Entry
        requires { page < length self.now.entries }
        ensures { result.now ≡ entry_at self.now page }
    {
        &self.entries[page as usize]
    }

    /// The bytes of the page.
    pub fn page(&self, page: u32) -> &[u8]
        requires { page < length self.now.entries }
        ensures bytes { result.now ≡ page_at self.now page }
        ensures sized { length result.now ≡ self.now.page_size }
    {
        let place = place(page, self.page_size);
        &self.region[place]
    }

    /// The bytes of all pages, in order. It takes no memory.
    pub fn bytes(&self) -> &[u8]
        ensures { result.now ≡ concat self.now.pages }
    {
        &self.region
    }

    /// The bytes of the page, to be written.
    #[inline(always)]
    pub fn page_mut(&mut self, page: u32) -> &mut [u8]
        requires { page < length self.old.entries }
        ensures* writes_back { sem 𝓛 (LendsPage A.row A.Allocator self.entry page result) }
        ensures bytes { result.now ≡ page_at self.old page }
        ensures sized { length result.now ≡ self.old.page_size }
    {
        let place = place(page, self.page_size);
        self.region.slice_mut(place)
    }

    /// Replaces the entry of the page.
    pub fn set_entry(&mut self, page: u32, entry: Entry)
        requires { page < length self.old.entries }
        ensures { self.new ≡ with_entry self.old page entry }
    {
        self.entries[page as usize] = entry;
    }

    /// Puts a message off where a word waits for the page and fewer than 32 are put off, and
    /// says whether it did. If not, nothing changes.
    pub fn put_off(&mut self, page: u32, message: PutOff) -> bool
        requires { page < length self.old.entries }
        ensures done { result ≡ can_put_off (entry_at self.old page) }
        ensures kept { self.new ≡ if can_put_off (entry_at self.old page) then with_entry self.old page (with_put_off (entry_at self.old page) message) else self.old }
    {
        self.entries[page as usize].put_off(message)
    }

    /// Copies these bytes to the page, as many as it has.
    pub fn install(&mut self, page: u32, bytes: &[u8])
        requires page { page < length self.old.entries }
        requires sized { length bytes.now ≡ self.old.page_size }
        ensures { self.new ≡ with_page self.old page bytes.now }
    {
        self.page_mut(page).copy_from_slice(bytes);
    }

    /// The number that stands where the word lies in the page, highest byte first: stored again, it
    /// takes the word back.
    pub fn number(&self, page: u32, word: Word) -> u64
        requires page { page < length self.now.entries }
        requires word { IsWord self.now.page_size word }
        ensures number { result ≡ number_at (width_of word) (offset_of word) (page_at self.now page) }
        ensures fact { All (λ b. b < 256) (page_at self.now page) }
    {
        word.number(self.page(page))
    }

    /// Carries a word out on the page.
    #[inline(always)]
    pub fn carry_out(&mut self, page: u32, word: Word) -> Out
        requires page { page < length self.old.entries }
        requires word { IsWord self.old.page_size word }
        ensures out { result ≡ (carried_out word (page_at self.old page)).out }
        ensures bytes { self.new ≡ with_page self.old page (carried_out word (page_at self.old page)).bytes }
    {
        word.carry_out(self.page_mut(page))
    }

    /// Copies bytes over those at a place in the page.
    pub(crate) fn put(&mut self, page: u32, start: usize, from: &[u8])
        requires page { page < length self.old.entries }
        requires within { start + length from.now ≤ self.old.page_size }
        ensures { self.new ≡ with_page self.old page (overwrite (page_at self.old page) start from.now) }
    {
        put(self.page_mut(page), start, from);
    }
}

/// The state of each entry at first: node 0 owns the page, and the others have nothing of it.
pub(crate) fn first_idle(me: u8) -> Idle
    ensures { Entry.Idle result ≡ first_entry me }
{
    if me == 0 {
        Idle::owned()
    } else {
        Idle::plain(Access::Nil)
    }
}

fn first_entries<A: Allocator>(alloc: A, pages: u32, me: u8) -> Result<Vec<Entry, A>, AllocError>
    ensures { IfOk result (λ entries. entries.items ≡ replicate pages (first_entry me)) }
{
    let mut entries = Vec::new(alloc);
    for _ in 0..pages {
        entries.push(Entry::Idle(first_idle(me)))?;
    }
    Ok(entries)
}

/// Where a page lies in the region.
fn place(page: u32, page_size: u32) -> Range<usize>
    ensures start { result.start ≡ page * page_size }
    ensures end { result.end ≡ page * page_size + page_size }
{
    let size = page_size as usize;
    let start = page as usize * size;
    start..start + size
}
