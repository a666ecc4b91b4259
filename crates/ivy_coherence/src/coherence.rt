//! The entries and pages of one node, and the rules by which they change.
ghost use Rattle.std.specs.Prelude.{◌≡◌, ◌≢◌, ◌<◌, ◌≤◌, ◌+◌, ◌*◌, ◌%◌, ◌^◌, ◌⊎◌, ℕ, true, false, None, List, [], IfOk, IfErr, OnOk, OnErr, IsOkUnless, length, min, if◌then◌else◌};
ghost use Rattle.ivy_model.specs.declared.Row.TheVariants.{Loads, Stores};
ghost use Rattle.ivy_model.specs.stated.Config.{IsConfig};
ghost use Rattle.ivy_model.specs.Rows.{numbers_in};
ghost use Rattle.ivy_model.specs.Wants.{RanOut};
ghost use Rattle.ivy_wire.specs.Posts.{IsPostOf, HasPosted, HasRefused};
ghost use Rattle.ivy_pagetable.specs.stated.Words.{IsWord, needs_write};
ghost use Rattle.ivy_pagetable.specs.WordRows.{row_len};
ghost use Rattle.ivy_pagetable.specs.Either.{MayBeUnmade};
ghost use Rattle.ivy_pagetable.specs.stated.Entries.{is_locked};
ghost use Rattle.ivy_pagetable.specs.stated.Tables.{entry_at};
ghost use Rattle.ivy_pagetable.specs.stated.Accesses.{suffices};
ghost use Rattle.ivy_coherence.specs.PageFaults.{IsIdleAt, HasToAsk, MayMakePage};
ghost use Rattle.ivy_coherence.specs.stated.PageFaults.{fault_entry, fault_posted, faulted, begun, begun_row};
ghost use Rattle.ivy_coherence.specs.Rests.{first_word, other_words};
ghost use Rattle.ivy_coherence.specs.Hits.{permits, stores, is_at_hand, has_to_wait, AreHits};
ghost use Rattle.ivy_coherence.specs.Outcomes.{IsWantOfPage};
ghost use Rattle.ivy_coherence.specs.stated.Several.{first_out, later_outs};
ghost use Rattle.ivy_coherence.specs.Takes.{are_given, AreOutsTaken, given_there};
ghost use Rattle.ivy_coherence.specs.stated.Sound.{new_coherent, first_coherent, IsSound};
ghost use Rattle.ivy_pagetable.specs.Manager.{IsNew};

use crate::fetching::MOST_FETCHED;
use crate::need::Need;
use crate::rest::{Rest, number_of, put_number, word_at};
use crate::serving::invalidate;
use arrayvec::ArrayVec;
use ivy_model::{Config, Fault, Row};
use ivy_pagetable::{
    Access, AwaitAcks, AwaitWrite, Entry, Idle, LentEntry, Manager, NodeTable, Out, Page, Waiting,
    Word,
};
use ivy_wire::{Content, Post, post_one};
use std::alloc::Allocator;
use std::marker::Model;

/// The entries and pages of one node, with the manager that says where their owners are.
#[derive(Drop)]
pub struct Coherence<M: Manager, A: Allocator> {
    pub(crate) config: Config,
    pub(crate) me: u8,
    /// Whether requests are sent on while a copy is awaited, and not put off.
    pub(crate) sends_on: bool,
    pub(crate) table: NodeTable<A>,
    pub(crate) manager: M,
    pub(crate) locked: Option<u32>,
    /// The pages that are fetched.
    pub(crate) fetched: ArrayVec<u32, MOST_FETCHED>,
    pub(crate) done: Option<Out>,
    pub(crate) breaches: u64,
    /// The bytes of a page that comes are written here, and become the page of the table once the post
    /// took all. No value shows them.
    pub(crate) spare: Page<A>,
    /// The words that wait along with the one at the locked entry, and their answers.
    pub(crate) rest: Rest<A>,
}

impl<M: Manager, A: Allocator> Model for Coherence<M, A> {
    ghost use Rattle.ivy_coherence.specs.stated.Coherent.{Coherent};
    ghost use Rattle.ivy_coherence.specs.stated.Sound.{IsSound};

    ghost Value = { Coherent M };

    ghost use Rattle.std.specs.Prelude.{◌≡◌, ◌≤◌, length};
    ghost use Rattle.ivy_model.specs.stated.Limits.{most_pages};
    ghost use Rattle.std.specs.Coded.{codes};
    ghost use Rattle.ivy_pagetable.specs.stated.NodeSets.{nodes_code};

    ghost coded = { Prim.hlevel (codes, nodes_code) };

    ghost view = { λ c. record {
      config = c.config;
      me = c.me;
      sends_on = c.sends_on;
      table = c.table;
      manager = c.manager;
      locked = c.locked;
      fetched = c.fetched.items;
      more = c.rest.words;
      done = c.done;
      done_more = c.rest.outs;
      breaches = c.breaches;
    } };

    ghost invariant = { λ c. IsSound M.ops (record {
      config = c.config;
      me = c.me;
      sends_on = c.sends_on;
      table = c.table;
      manager = c.manager;
      locked = c.locked;
      fetched = c.fetched.items;
      more = c.rest.words;
      done = c.done;
      done_more = c.rest.outs;
      breaches = c.breaches;
    }) × (c.config.pages ≤ most_pages → length c.spare ≡ c.config.page_size)
        × (c.rest.size ≡ c.config.page_size) };
}

/// Whether the words of a row can be carried out at once where this is the access.
fn permits(access: Access, kind: Row) -> bool
    ensures { result ≡ permits access kind }
{
    match kind {
        Row::Loads => access.reads(),
        Row::Stores => access.writes(),
    }
}

/// Whether the words of a row store.
fn stores(kind: Row) -> bool
    ensures { result ≡ stores kind }
{
    match kind {
        Row::Loads => false,
        Row::Stores => true,
    }
}

impl<M: Manager, A: Allocator + Copy> Coherence<M, A> {
    /// The coherence of node `me` at the beginning: node 0 owns all pages, and all bytes are 0 [1].
    ///
    /// The configuration is within its limits, `me` is one of its nodes, and the manager a new one of both.
    pub fn new(alloc: A, config: &Config, me: u8, manager: M) -> Result<Self, Fault>
    where
        M: Drop,
        requires limits { IsConfig config.now }
        requires here { me < config.now.nodes }
        requires fresh { manager ≡ M.ops.first config.now me }
        ensures first { IfOk result (λ c. c ≡ first_coherent M.ops config.now me) }
        ensures memory { IsOkUnless result Fault.Memory }
    {
        Coherence::made(alloc, config, me, false, manager)
    }

    /// The same, with any new manager, but requests are sent on while a copy is awaited, and not put off [1].
    pub fn sending_on(alloc: A, config: &Config, me: u8, manager: M) -> Result<Self, Fault>
    where
        M: Drop,
        requires limits { IsConfig config.now }
        requires here { me < config.now.nodes }
        requires fresh { IsNew M.ops config.now me manager }
        ensures first { IfOk result (λ c. c ≡ new_coherent true config.now me manager) }
        ensures memory { IsOkUnless result Fault.Memory }
    {
        Coherence::made(alloc, config, me, true, manager)
    }

    fn made(alloc: A, config: &Config, me: u8, sends_on: bool, manager: M) -> Result<Self, Fault>
    where
        M: Drop,
        requires limits { IsConfig config.now }
        requires here { me < config.now.nodes }
        requires fresh { IsNew M.ops config.now me manager }
        ensures first { IfOk result (λ c. c ≡ new_coherent sends_on config.now me manager) }
        ensures memory { IsOkUnless result Fault.Memory }
    {
        let table = NodeTable::new(alloc, config, me)?;
        let spare = Page::zeros(alloc, config.page_size as usize)?;
        let rest = Rest::new(alloc, config.page_size)?;
        let fetched = ArrayVec::new();
        Ok(Coherence {
            config: *config,
            me,
            sends_on,
            table,
            manager,
            locked: None,
            fetched,
            done: None,
            breaches: 0,
            spare,
            rest,
        })
    }
}

impl<M: Manager, A: Allocator> Coherence<M, A> {
    /// How many messages fitted no rule, up to the greatest number. It takes no memory.
    pub fn breaches(&self) -> u64
        ensures { result ≡ self.now.breaches }
    {
        self.breaches
    }

    /// The answer of the word that faulted, once it was carried out; it stays there. It takes no memory.
    pub fn answer(&self) -> Option<Out>
        ensures { result ≡ self.now.done }
    {
        self.done
    }

    /// The page whose entry a word waits at, if one does. It takes no memory.
    pub fn locked(&self) -> Option<u32>
        ensures { result ≡ self.now.locked }
    {
        self.locked
    }

    /// What holds of each node's coherence holds of this one.
    pub(crate) fn sound(&self)
        ensures { IsSound M.ops self.now }
    {
        // for the proof: what holds of every value of this type.
        let _ = &self.me;
    }

    /// The node that this is. It takes no memory.
    pub fn me(&self) -> u8
        ensures { result ≡ self.now.me }
    {
        self.me
    }

    /// The configuration of the nodes. It takes no memory.
    pub fn config(&self) -> Config
        ensures { result ≡ self.now.config }
    {
        self.config
    }

    /// Takes out the answer of the word that faulted, once it was carried out. It takes no memory.
    pub fn returned(&mut self) -> Option<Out>
        ensures answer { result ≡ self.old.done }
        ensures taken { self.new ≡ record self.old { done = None } }
    {
        self.done.take()
    }

    /// Takes out the answer of the word that faulted, as [`Coherence::returned`] does; that of the next of the words that
    /// were carried out along with it is there then. It takes no memory.
    pub fn returned_next(&mut self) -> Option<Out>
        ensures answer { result ≡ self.old.done }
        ensures taken { self.new ≡ record self.old {
          done = first_out self.old.done_more;
          done_more = later_outs self.old.done_more;
        } }
    {
        let answer = self.done;
        self.done = self.rest.take();
        answer
    }

    /// Takes out the answers of words of a row of this kind, one after another as [`Coherence::returned_next`] does, all that are
    /// there but at most so many, and says how many. The numbers of words that were loaded are copied. It takes no memory.
    pub fn returned_row(&mut self, kind: Row, most: usize, into: &mut [u8]) -> usize
        requires room { kind ≡ Loads → 8 * most ≤ length into.old }
        ensures many { result ≡ min most (given_there kind self.old.done self.old.done_more) }
        ensures taken { AreOutsTaken kind (numbers_in result into.new) self.old self.new }
        ensures sized { length into.new ≡ length into.old }
    {
        if most == 0 {
            return 0;
        }
        let Some(number) = number_of(kind, self.done) else {
            return 0;
        };
        let words = self.rest.take_row(kind, most - 1, into);
        put_number(kind, into, number);
        self.done = self.rest.take();
        words + 1
    }

    /// Whether an answer is there, and just so many behind it, all of words of a row of this kind. It takes no memory.
    pub fn has_given(&self, kind: Row, behind: usize) -> bool
        ensures { result ≡ are_given kind behind self.now.done self.now.done_more }
    {
        number_of(kind, self.done).is_some()
            && self.rest.left() == behind
            && self.rest.given(kind) == behind
    }

    /// Whether the answers of all words that were carried out along with one that faulted were taken. It takes no memory.
    pub fn is_taken(&self) -> bool
        ensures none { result ≡ true → self.now.done_more ≡ [] }
        ensures some { result ≡ false → self.now.done_more ≢ [] }
    {
        self.rest.is_taken()
    }

    /// What the word's page is asked for by, and the entry that it waits at then.
    pub(crate) fn fault<P: Post>(
        &self,
        page: u32,
        word: Word,
        call: u64,
        idle: &Idle,
        post: &mut P,
    ) -> Result<Entry, Fault>
        requires page { page < self.now.config.pages }
        requires idle { IsIdleAt self.now.table page idle.now }
        requires short { suffices idle.now.access word ≡ false }
        requires call { 1 ≤ call }
        requires post { IsPostOf P.ops post.old self.now.config self.now.me }
        ensures entry { IfOk result (λ e. e ≡ fault_entry word call idle.now) }
        ensures posted { HasPosted P.ops post.old post.new result
            (fault_posted M.ops self.now page word call idle.now) }
    {
        let waiting = Waiting::new(word, call);
        let hop = self.manager.next_hop(page);
        if !word.needs_write() {
            post_one(post, self.me, hop, self.me, call, Content::ReadReq { page })?;
            return Ok(Entry::AwaitRead(waiting));
        }
        if idle.is_owner() {
            let left = *idle.copies();
            invalidate(self.me, page, call, &left, post)?;
            return Ok(Entry::AwaitAcks(AwaitAcks::new(left, waiting)));
        }
        let had_copy = idle.access().reads();
        post_one(
            post,
            self.me,
            hop,
            self.me,
            call,
            Content::WriteReq { page },
        )?;
        Ok(Entry::AwaitWrite(AwaitWrite::new(had_copy, waiting)))
    }

    /// The word waits at its page's entry from now on, and what it lacks is asked for.
    ///
    /// It stands apart from [`Coherence::need`], so that a word that hits clears no room for what is put off.
    #[cold]
    #[inline(never)]
    fn start<P: Post>(
        &mut self,
        page: u32,
        word: Word,
        call: u64,
        idle: Idle,
        post: &mut P,
    ) -> Result<(), Fault>
        requires page { page < self.old.config.pages }
        requires word { IsWord self.old.config.page_size word }
        requires free { self.old.locked ≡ None }
        requires idle { IsIdleAt self.old.table page idle }
        requires short { suffices idle.access word ≡ false }
        requires call { 1 ≤ call }
        requires post { IsPostOf P.ops post.old self.old.config self.old.me }
        ensures ok { OnOk result (self.new ≡ (faulted M.ops self.old page word call idle).after) }
        ensures posted { HasPosted P.ops post.old post.new result
            (fault_posted M.ops self.old page word call idle) }
        ensures err { OnErr result (self.new ≡ self.old) }
    {
        let entry = self.fault(page, word, call, &idle, post)?;
        self.table.set_entry(page, entry);
        self.locked = Some(page);
        Ok(())
    }

    #[tactic(auto, unfolding(crate::specs::stated::PageFaults::begun))]
    #[inline(always)]
    /// An access of this node's program to a word of a page, by the call of this number [1, 17].
    ///
    /// The word lies within the page and is aligned; the page is below the number of pages. Where access
    /// suffices, and where an entry is locked already, it asks the post nothing, takes no memory and succeeds; but where
    /// there are more than 256 pages, a page is made when it is first written, which may be refused. An answer that is
    /// there stays there.
    pub fn need<P: Post>(
        &mut self,
        page: u32,
        word: Word,
        call: u64,
        post: &mut P,
    ) -> Result<Need, Fault>
        requires page { page < self.old.config.pages }
        requires word { IsWord self.old.config.page_size word }
        requires call { 1 ≤ call }
        requires post { IsPostOf P.ops post.old self.old.config self.old.me }
        ensures sure { OnErr result (HasToAsk self.old page word ⊎ MayMakePage self.old page word) }
        ensures idle { OnErr result (is_locked (entry_at self.old.table page) ≡ false) }
        ensures need { IfOk result (λ need. need ≡ (begun M.ops self.old page word call).need) }
        ensures ok { OnOk result (self.new ≡ (begun M.ops self.old page word call).after) }
        ensures posted { OnOk result
            (post.new ≡ P.ops.after post.old (begun M.ops self.old page word call).posted) }
        ensures err { OnErr result (self.new ≡ self.old) }
        ensures took { OnOk result (P.ops.takes post.old (begun M.ops self.old page word call).posted) }
        ensures fault { IfErr result (λ fault.
            (IsWantOfPage self.old fault × (post.new ≡ post.old))
            ⊎ HasRefused P.ops post.old post.new
            (begun M.ops self.old page word call).posted fault) }
        ensures want { IfErr result RanOut }
    {
        if self.locked.is_some() {
            return Ok(Need::Busy);
        }
        if let Some(out) = self.table.hit(page, word) {
            return Ok(Need::Have(out));
        }
        self.begin(page, word, call, post)
    }

    #[tactic(auto, unfolding(crate::specs::stated::PageFaults::begun))]
    /// The access of [`Coherence::need`], whatever the table and the entry, where no word of this node waits.
    ///
    /// It stands apart, so that a word that hits does nothing that only other words need.
    fn begin<P: Post>(
        &mut self,
        page: u32,
        word: Word,
        call: u64,
        post: &mut P,
    ) -> Result<Need, Fault>
        requires page { page < self.old.config.pages }
        requires word { IsWord self.old.config.page_size word }
        requires free { self.old.locked ≡ None }
        requires call { 1 ≤ call }
        requires post { IsPostOf P.ops post.old self.old.config self.old.me }
        ensures sure { OnErr result (HasToAsk self.old page word ⊎ MayMakePage self.old page word) }
        ensures idle { OnErr result (is_locked (entry_at self.old.table page) ≡ false) }
        ensures need { IfOk result (λ need. need ≡ (begun M.ops self.old page word call).need) }
        ensures ok { OnOk result (self.new ≡ (begun M.ops self.old page word call).after) }
        ensures posted { OnOk result
            (post.new ≡ P.ops.after post.old (begun M.ops self.old page word call).posted) }
        ensures err { OnErr result (self.new ≡ self.old) }
        ensures took { OnOk result (P.ops.takes post.old (begun M.ops self.old page word call).posted) }
        ensures fault { IfErr result (λ fault.
            (IsWantOfPage self.old fault × (post.new ≡ post.old))
            ⊎ HasRefused P.ops post.old post.new
            (begun M.ops self.old page word call).posted fault) }
        ensures want { IfErr result RanOut }
    {
        match self.table.entry(page) {
            LentEntry::Idle(idle) => {
                if idle.access().suffices(word) {
                    return Ok(Need::Have(self.table.carry_out(page, word)?));
                }
                let idle = idle.copied();
                self.start(page, word, call, idle, post)?;
                Ok(Need::Started)
            }
            LentEntry::AwaitRead(_) | LentEntry::AwaitWrite(_) | LentEntry::AwaitAcks(_) => {
                Ok(self.join(page, word))
            }
        }
    }

    /// An access of this node's program to words of 8 bytes in a row of a page, by the call of this number for the first of
    /// them [1, 17]. The bytes have the numbers of the words, at which loads do not look.
    ///
    /// It is the access of [`Coherence::need`] to the first word. Where that one has to wait, the others wait along with it,
    /// and are carried out behind it with nothing between; else they are left alone. No answer of words that were carried out
    /// before may be there still.
    pub fn need_row<P: Post>(
        &mut self,
        page: u32,
        kind: Row,
        offset: u32,
        words: usize,
        bytes: &[u8],
        call: u64,
        post: &mut P,
    ) -> Result<Need, Fault>
        requires page { page < self.old.config.pages }
        requires aligned { offset % 8 ≡ 0 }
        requires some { 1 ≤ words }
        requires within { offset + 8 * words ≤ self.old.config.page_size }
        requires many { 8 * words ≤ length bytes.now }
        requires taken { self.old.done_more ≡ [] }
        requires call { 1 ≤ call }
        requires post { IsPostOf P.ops post.old self.old.config self.old.me }
        ensures sure { OnErr result (HasToAsk self.old page (first_word kind offset bytes.now)
            ⊎ MayMakePage self.old page (first_word kind offset bytes.now)) }
        ensures idle { OnErr result (is_locked (entry_at self.old.table page) ≡ false) }
        ensures need { IfOk result (λ need.
            need ≡ (begun M.ops self.old page (first_word kind offset bytes.now) call).need) }
        ensures ok { OnOk result (self.new ≡ (begun_row M.ops self.old page
            (first_word kind offset bytes.now) (other_words kind offset words bytes.now) call).after) }
        ensures posted { OnOk result (post.new ≡ P.ops.after post.old
            (begun M.ops self.old page (first_word kind offset bytes.now) call).posted) }
        ensures err { OnErr result (self.new ≡ self.old) }
        ensures took { OnOk result (P.ops.takes post.old
            (begun M.ops self.old page (first_word kind offset bytes.now) call).posted) }
        ensures fault { IfErr result (λ fault.
            (IsWantOfPage self.old fault × (post.new ≡ post.old))
            ⊎ HasRefused P.ops post.old post.new
            (begun M.ops self.old page (first_word kind offset bytes.now) call).posted fault) }
        ensures want { IfErr result RanOut }
    {
        self.sound();
        let word = word_at(kind, offset, bytes);
        let need = self.need(page, word, call, post)?;
        match need {
            Need::Started => self.rest.wait(kind, offset + 8, words - 1, &bytes[8..]),
            Need::Have(_) | Need::Busy | Need::Fetched => {}
        }
        Ok(need)
    }

    /// Whether words of a page, begun together by [`Coherence::need_row`], would wait: no word of this node waits, all answers
    /// of words that waited along with an earlier one were taken, and the access does not suffice. It takes no memory.
    #[tactic(auto, using(crate::proofs::batches::Hits::taken_is))]
    pub fn has_to_wait(&self, page: u32, kind: Row) -> bool
        requires { page < self.now.config.pages }
        ensures { result ≡ has_to_wait self.now page kind }
    {
        if self.locked.is_some() || !self.is_taken() {
            return false;
        }
        match self.table.entry(page) {
            LentEntry::Idle(idle) => !permits(idle.access(), kind),
            LentEntry::AwaitRead(_) => !stores(kind),
            LentEntry::AwaitWrite(_) | LentEntry::AwaitAcks(_) => stores(kind),
        }
    }

    /// Whether words of a page can be carried out at once: no word of this node waits, and the access suffices.
    #[inline(always)]
    fn is_at_hand(&self, page: u32, kind: Row) -> bool
        requires { page < self.now.config.pages }
        ensures { result ≡ is_at_hand self.now page kind }
    {
        if self.locked.is_some() {
            return false;
        }
        match self.table.entry(page) {
            LentEntry::Idle(idle) => permits(idle.access(), kind),
            LentEntry::AwaitRead(_) | LentEntry::AwaitWrite(_) | LentEntry::AwaitAcks(_) => false,
        }
    }

    /// Loads words of 8 bytes from a place in a page on, whose bytes it copies, and says how many words: as many as
    /// `into` has room for and as lie in the page, or none where a word waits or the page may not be read.
    ///
    /// Each word is what an access that loads it would be told at once.
    #[inline]
    pub fn load_row(&self, page: u32, offset: u32, into: &mut [u8]) -> usize
        requires page { page < self.now.config.pages }
        requires aligned { offset % 8 ≡ 0 }
        requires within { offset ≤ self.now.config.page_size }
        ensures many { result ≡ if is_at_hand self.now page Loads
            then row_len self.now.config.page_size offset (length into.old) else 0 }
        ensures hits { AreHits M.ops Loads page offset (numbers_in result into.new) self.now self.now }
        ensures fits { 8 * result ≤ length into.old }
        ensures within { offset + 8 * result ≤ self.now.config.page_size }
        ensures sized { length into.new ≡ length into.old }
    {
        if !self.is_at_hand(page, Row::Loads) {
            return 0;
        }
        self.table.load_row(page, offset, into)
    }

    /// Stores words of 8 bytes from a place in a page on, whose bytes it copies, and says how many words: as many as
    /// `from` has and as lie in the page, or none where a word waits or the page may not be written.
    ///
    /// Each word is stored as an access that stores it would do at once. It takes no memory: where there are more than 256
    /// pages, it stores none on a page that is not made yet, which is one of zeros.
    #[inline]
    pub fn store_row(&mut self, page: u32, offset: u32, from: &[u8]) -> usize
        requires page { page < self.old.config.pages }
        requires aligned { offset % 8 ≡ 0 }
        requires within { offset ≤ self.old.config.page_size }
        ensures many { (result ≡ if is_at_hand self.old page Stores
            then row_len self.old.config.page_size offset (length from.now) else 0)
            ⊎ ((result ≡ 0) × MayBeUnmade self.old.table page) }
        ensures hits { AreHits M.ops Stores page offset (numbers_in result from.now) self.old self.new }
        ensures fits { 8 * result ≤ length from.now }
        ensures within { offset + 8 * result ≤ self.old.config.page_size }
        ensures config { self.new.config ≡ self.old.config }
        ensures me { self.new.me ≡ self.old.me }
        ensures locked { self.new.locked ≡ self.old.locked }
        ensures done { self.new.done ≡ self.old.done }
        ensures done_more { self.new.done_more ≡ self.old.done_more }
        ensures sound { IsSound M.ops self.new }
    {
        if !self.is_at_hand(page, Row::Stores) {
            return 0;
        }
        self.table.store_row(page, offset, from)
    }
}
