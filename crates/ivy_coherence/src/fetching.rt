//! Pages that are fetched: asked for beside the one at whose entry a word waits.
ghost use Rattle.std.specs.Prelude.{◌≡◌, ◌<◌, ◌≤◌, ℕ, true, false, [], None, is_some, IfSome, IfOk, OnOk, OnErr};
ghost use Rattle.ivy_wire.specs.Posts.{IsPostOf, HasPosted};
ghost use Rattle.ivy_pagetable.specs.Lent.{lent_entry};
ghost use Rattle.ivy_pagetable.specs.stated.Entries.{is_locked};
ghost use Rattle.ivy_pagetable.specs.stated.Tables.{entry_at};
ghost use Rattle.ivy_pagetable.specs.stated.Words.{IsWord, needs_write};
ghost use Rattle.ivy_coherence.specs.stated.Fetching.{without_page, waits_at, suits, joined_by};
ghost use Rattle.ivy_coherence.specs.stated.PageFaults.{joined, fetchable, fetch_begun, fetch};
ghost use Rattle.ivy_coherence.specs.PageFaults.{IsFetchable};

use crate::coherence::Coherence;
use crate::need::Need;
use arrayvec::ArrayVec;
use ivy_model::Fault;
use ivy_pagetable::{AwaitAcks, AwaitWrite, Entry, Idle, LentEntry, Manager, Word};
use ivy_wire::Post;
use std::alloc::Allocator;

/// Pages that are fetched at once, at most this many.
pub(crate) const MOST_FETCHED: usize = 7;

/// These pages but this one.
pub(crate) fn leave_out(pages: &mut ArrayVec<u32, MOST_FETCHED>, page: u32)
    ensures { pages.new.items ≡ without_page page pages.old.items }
{
    pages.retain(|fetched| *fetched != page);
}

/// The locked entry, at which this word waits from now on, where it needs to write just where the page was asked for to be
/// written.
fn joined_by(entry: LentEntry<'_>, word: Word) -> Option<Entry>
    ensures suits { is_some result ≡ suits (lent_entry entry.entry) (needs_write word) }
    ensures entry { IfSome result (λ e. e ≡ joined_by (lent_entry entry.entry) word) }
{
    let write = word.needs_write();
    match entry {
        LentEntry::Idle(_) => None,
        LentEntry::AwaitRead(waiting) => {
            if write {
                return None;
            }
            Some(Entry::AwaitRead(waiting.with_word(word)))
        }
        LentEntry::AwaitWrite(state) => {
            if !write {
                return None;
            }
            let waiting = state.waiting().with_word(word);
            Some(Entry::AwaitWrite(AwaitWrite::new(state.had_copy(), waiting)))
        }
        LentEntry::AwaitAcks(state) => {
            if !write {
                return None;
            }
            let waiting = state.waiting().with_word(word);
            Some(Entry::AwaitAcks(AwaitAcks::new(*state.left(), waiting)))
        }
    }
}

impl<M: Manager, A: Allocator> Coherence<M, A> {
    /// Whether a word waits at the entry of this page.
    pub(crate) fn waits_at(&self, page: u32) -> bool
        ensures { result ≡ waits_at self.now.locked page }
    {
        match self.locked {
            Some(locked) => locked == page,
            None => false,
        }
    }

    /// The access of [`Coherence::need`] to a page that is fetched: the word waits at its entry from now on, where the page
    /// was asked for as the word needs it.
    #[cold]
    #[inline(never)]
    pub(crate) fn join(&mut self, page: u32, word: Word) -> Need
        requires page { page < self.old.config.pages }
        requires word { IsWord self.old.config.page_size word }
        requires free { self.old.locked ≡ None }
        requires fetched { is_locked (entry_at self.old.table page) ≡ true }
        ensures need { result ≡ (joined M.ops self.old page word (entry_at self.old.table page)).need }
        ensures after { self.new ≡ (joined M.ops self.old page word (entry_at self.old.table page)).after }
        ensures quiet { (joined M.ops self.old page word (entry_at self.old.table page)).posted ≡ [] }
    {
        match joined_by(self.table.entry(page), word) {
            Some(entry) => {
                self.table.set_entry(page, entry);
                leave_out(&mut self.fetched, page);
                self.locked = Some(page);
                Need::Started
            }
            None => Need::Fetched,
        }
    }

    /// The entry of a page that may be fetched.
    fn fetchable(&self, page: u32, write: bool) -> Option<Idle>
        requires page { page < self.now.config.pages }
        ensures { result ≡ fetchable self.now page write }
    {
        match self.table.entry(page) {
            LentEntry::Idle(idle) => {
                let word = Word::of_fetch(write);
                if self.fetched.is_full() {
                    return None;
                }
                if idle.access().suffices(word) {
                    return None;
                }
                Some(idle.copied())
            }
            LentEntry::AwaitRead(_) | LentEntry::AwaitWrite(_) | LentEntry::AwaitAcks(_) => None,
        }
    }

    /// The page is fetched from now on.
    fn start_fetch<P: Post>(
        &mut self,
        page: u32,
        write: bool,
        call: u64,
        idle: Idle,
        post: &mut P,
    ) -> Result<(), Fault>
        requires page { page < self.old.config.pages }
        requires may { IsFetchable self.old page write idle }
        requires call { 1 ≤ call }
        requires post { IsPostOf P.ops post.old self.old.config self.old.me }
        ensures ok { OnOk result (self.new ≡ (fetch_begun M.ops self.old page write call idle).after) }
        ensures posted { HasPosted P.ops post.old post.new result
            (fetch_begun M.ops self.old page write call idle).posted }
        ensures err { OnErr result (self.new ≡ self.old) }
    {
        let word = Word::of_fetch(write);
        let entry = self.fault(page, word, call, &idle, post)?;
        self.table.set_entry(page, entry);
        self.fetched.push(page);
        Ok(())
    }

    /// Fetches a page, to read or to write: asks for it beside the call in progress, under the number of the next record, and
    /// says whether it did [1, 17]. No word waits for it, and nothing is answered when it comes.
    ///
    /// It does nothing where the page is here already, where it is asked for, and where 7 pages are being fetched.
    #[tactic(auto, unfolding(crate::specs::stated::PageFaults::fetch))]
    pub fn fetch<P: Post>(
        &mut self,
        page: u32,
        write: bool,
        call: u64,
        post: &mut P,
    ) -> Result<bool, Fault>
        requires page { page < self.old.config.pages }
        requires call { 1 ≤ call }
        requires post { IsPostOf P.ops post.old self.old.config self.old.me }
        ensures begun { IfOk result (λ begun. begun ≡ (fetch M.ops self.old page write call).begun) }
        ensures ok { OnOk result (self.new ≡ (fetch M.ops self.old page write call).after) }
        ensures posted { HasPosted P.ops post.old post.new result
            (fetch M.ops self.old page write call).posted }
        ensures err { OnErr result (self.new ≡ self.old) }
    {
        match self.fetchable(page, write) {
            Some(idle) => {
                self.start_fetch(page, write, call, idle, post)?;
                Ok(true)
            }
            None => Ok(false),
        }
    }
}
