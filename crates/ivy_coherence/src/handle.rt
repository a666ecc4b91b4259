//! Messages of other nodes.
ghost use Rattle.std.specs.FinSet as set;
ghost use Rattle.std.specs.Prelude.{◌≡◌, ◌≢◌, ◌<◌, ◌≤◌, ◌^◌, ◌⊎◌, ℕ, true, false, Some, None, [], OnOk, OnErr, IfErr, length};
ghost use Rattle.ivy_model.specs.Wants.{RanOut};
ghost use Rattle.ivy_wire.specs.Lent.{owned_message};
ghost use Rattle.ivy_wire.specs.stated.Spelling.{FitsMessage};
ghost use Rattle.ivy_wire.specs.Posts.{IsPostOf, HasRefused};
ghost use Rattle.ivy_pagetable.specs.declared.Request.TheVariants as request;
ghost use Rattle.ivy_pagetable.specs.stated.Entries.{is_locked, owning};
ghost use Rattle.ivy_pagetable.specs.stated.Tables.{entry_at, page_at};
ghost use Rattle.ivy_pagetable.specs.stated.NodeSets.{IsBelow};
ghost use Rattle.ivy_coherence.specs.stated.IdleSound.{CanBeServed, AreOthers};
ghost use Rattle.ivy_coherence.specs.EventLimits.{most_posted};
ghost use Rattle.ivy_coherence.specs.Outcomes.{IsStep, IsWantOfPage};
ghost use Rattle.ivy_coherence.specs.MessageSteps.{IsWaiting, IsCollecting};
ghost use Rattle.ivy_coherence.specs.stated.Fetching.{without_page};
ghost use Rattle.ivy_coherence.specs.stated.MessageSteps.{unlocked_as};
ghost use Rattle.ivy_coherence.specs.stated.MessageSteps.{is_none, word_unlocked, fetch_unlocked, unlocked_by_reply, unlocked_by_last};
ghost use Rattle.ivy_coherence.specs.stated.MessageSteps.{reply_as, sent_on, put_aside_at, given_up, asked_at, copy_came_at, owned_with, page_came_at, left_with, acknowledged_at, handled};

use crate::coherence::Coherence;
use crate::fetching::leave_out;
use crate::serving::{Place, count, invalidate, serve_put_off};
use ivy_model::Fault;
use ivy_pagetable::{
    Access, AwaitAcks, AwaitWrite, Entry, Idle, LentEntry, Manager, NodeSet, PutOff, Request,
    Waiting, Word,
};
use ivy_wire::{Content, Message, Post, post_one};
use std::alloc::Allocator;

/// The entry once the page, or a copy, came.
fn unlocked_as(kind: Request) -> Idle
    ensures { result ≡ unlocked_as kind }
{
    match kind {
        Request::Write => Idle::owned(),
        Request::Read | Request::Invalidate => Idle::plain(Access::Read),
    }
}

#[tactic(auto, unfolding(crate::specs::stated::MessageSteps::reply_as))]
/// What the manager learns once the page, or a copy, came.
fn reply_as(kind: Request, waiting: &Waiting) -> Option<Request>
    ensures { result ≡ reply_as kind waiting.now }
{
    match kind {
        Request::Write => Some(Request::Write),
        Request::Read | Request::Invalidate => {
            if waiting.sent_on() {
                None
            } else {
                Some(Request::Read)
            }
        }
    }
}

/// Whether the set has no node.
fn is_none(nodes: &NodeSet) -> bool
    ensures none { result ≡ is_none nodes.now }
    ensures some { result ≡ false → nodes.now ≢ set.empty }
{
    nodes.is_empty()
}

impl<M: Manager, A: Allocator> Coherence<M, A> {
    /// A request of another node for a copy or for the page, or its order to give a copy up.
    fn asked<P: Post>(&mut self, page: u32, message: PutOff, post: &mut P) -> Result<(), Fault>
        requires page { page < self.old.config.pages }
        requires message { CanBeServed self.old.config self.old.me message }
        requires post { IsPostOf P.ops post.old self.old.config self.old.me }
        ensures { IsStep P.ops post.old post.new result self.old self.new
            (asked_at M.ops self.old page message) }
    {
        match self.table.entry(page) {
            LentEntry::Idle(idle) => {
                let at = Place {
                    me: self.me,
                    from: message.origin,
                    page,
                    bytes: self.table.page(page),
                };
                let idle = idle.copied();
                let breaches = &mut self.breaches;
                let after = serve_put_off(
                    at,
                    None,
                    idle,
                    &mut self.manager,
                    breaches,
                    &[message],
                    post,
                )?;
                self.table.set_entry(page, Entry::Idle(after));
            }
            LentEntry::AwaitRead(_) | LentEntry::AwaitWrite(_) | LentEntry::AwaitAcks(_) => {
                self.asked_later(page, message, post)?;
            }
        }
        Ok(())
    }

    /// What [`Coherence::asked`] does where a word waits for the page.
    ///
    /// It stands apart, so that a page or a copy is given with no room cleared for what is put off.
    #[inline(never)]
    fn asked_later<P: Post>(
        &mut self,
        page: u32,
        message: PutOff,
        post: &mut P,
    ) -> Result<(), Fault>
        requires page { page < self.old.config.pages }
        requires message { CanBeServed self.old.config self.old.me message }
        requires locked { is_locked (entry_at self.old.table page) ≡ true }
        requires post { IsPostOf P.ops post.old self.old.config self.old.me }
        ensures { IsStep P.ops post.old post.new result self.old self.new
            (asked_at M.ops self.old page message) }
    {
        let is_order = message.kind == Request::Invalidate;
        match self.table.entry(page) {
            LentEntry::Idle(_) => unreachable!(),
            LentEntry::AwaitRead(waiting) if self.sends_on && !is_order => {
                let waiting = waiting.copied();
                self.send_on(page, waiting, message, post)?;
            }
            LentEntry::AwaitWrite(state) if is_order => {
                let waiting = state.waiting().copied();
                self.give_up(page, waiting, message, post)?;
            }
            LentEntry::AwaitAcks(_) if is_order => count(&mut self.breaches),
            LentEntry::AwaitRead(_) | LentEntry::AwaitWrite(_) | LentEntry::AwaitAcks(_) => {
                self.put_aside(page, message);
            }
        }
        Ok(())
    }

    /// A node that waits for a copy sends a request on, the way that its own went, and remembers that.
    fn send_on<P: Post>(
        &mut self,
        page: u32,
        waiting: Waiting,
        message: PutOff,
        post: &mut P,
    ) -> Result<(), Fault>
        requires page { page < self.old.config.pages }
        requires message { CanBeServed self.old.config self.old.me message }
        requires waits { IsWaiting (entry_at self.old.table page) request.Read waiting }
        requires post { IsPostOf P.ops post.old self.old.config self.old.me }
        ensures { IsStep P.ops post.old post.new result self.old self.new
            (sent_on M.ops self.old page waiting message) }
    {
        let at = Place {
            me: self.me,
            from: message.origin,
            page,
            bytes: self.table.page(page),
        };
        let idle = Idle::plain(Access::Nil);
        let breaches = &mut self.breaches;
        serve_put_off(
            at,
            None,
            idle,
            &mut self.manager,
            breaches,
            &[message],
            post,
        )?;
        let mut waiting = waiting;
        waiting.send_on();
        self.table.set_entry(page, Entry::AwaitRead(waiting));
        Ok(())
    }

    /// At a locked entry a message waits until it is unlocked.
    fn put_aside(&mut self, page: u32, message: PutOff)
        requires page { page < self.old.config.pages }
        requires message { CanBeServed self.old.config self.old.me message }
        ensures { self.new ≡ (put_aside_at M.ops self.old page message).after }
    {
        if !self.table.put_off(page, message) {
            count(&mut self.breaches);
        }
    }

    /// A node that waits to write gives up at once the copy that it had.
    fn give_up<P: Post>(
        &mut self,
        page: u32,
        waiting: Waiting,
        message: PutOff,
        post: &mut P,
    ) -> Result<(), Fault>
        requires page { page < self.old.config.pages }
        requires message { CanBeServed self.old.config self.old.me message }
        requires waits { IsWaiting (entry_at self.old.table page) request.Write waiting }
        requires post { IsPostOf P.ops post.old self.old.config self.old.me }
        ensures { IsStep P.ops post.old post.new result self.old self.new
            (given_up M.ops self.old page waiting message) }
    {
        let PutOff { origin, call, .. } = message;
        post_one(
            post,
            self.me,
            origin,
            origin,
            call,
            Content::InvalAck { page },
        )?;
        let entry = Entry::AwaitWrite(AwaitWrite::new(false, waiting));
        self.table.set_entry(page, entry);
        self.manager.on_invalidated(page, origin);
        Ok(())
    }

    /// The page's bytes come, to read or to write: for the word that waits there, or for none, where the page was fetched.
    fn unlock<P: Post>(
        &mut self,
        from: u8,
        page: u32,
        kind: Request,
        waiting: &Waiting,
        bytes: &[u8],
        post: &mut P,
    ) -> Result<(), Fault>
        requires from { from < self.old.config.nodes }
        requires foreign { from ≢ self.old.me }
        requires page { page < self.old.config.pages }
        requires sized { length bytes.now ≡ self.old.config.page_size }
        requires waits { IsWaiting (entry_at self.old.table page) kind waiting.now }
        requires post { IsPostOf P.ops post.old self.old.config self.old.me }
        ensures { IsStep P.ops post.old post.new result self.old self.new
            (unlocked_by_reply M.ops self.old from page kind bytes.now waiting.now) }
    {
        if self.waits_at(page) {
            return self.word_came(from, page, kind, waiting, bytes, post);
        }
        self.fetch_came(from, page, kind, waiting, bytes, post)
    }

    /// The word is carried out on a copy of the bytes, and the words that wait along with it; what was put off is served
    /// with that, and it becomes the page.
    fn word_came<P: Post>(
        &mut self,
        from: u8,
        page: u32,
        kind: Request,
        waiting: &Waiting,
        bytes: &[u8],
        post: &mut P,
    ) -> Result<(), Fault>
        requires from { from < self.old.config.nodes }
        requires foreign { from ≢ self.old.me }
        requires page { page < self.old.config.pages }
        requires sized { length bytes.now ≡ self.old.config.page_size }
        requires waits { IsWaiting (entry_at self.old.table page) kind waiting.now }
        requires here { self.old.locked ≡ Some page }
        requires post { IsPostOf P.ops post.old self.old.config self.old.me }
        ensures { IsStep P.ops post.old post.new result self.old self.new
            (word_unlocked M.ops self.old from page (unlocked_as kind) (reply_as kind waiting.now)
            bytes.now waiting.now) }
    {
        self.spare.fill(bytes)?;
        let out = self.spare.carry_out(waiting.word());
        self.rest.carry(&mut self.spare);
        let at = Place {
            me: self.me,
            from,
            page,
            bytes: self.spare.bytes(),
        };
        let idle = unlocked_as(kind);
        let breaches = &mut self.breaches;
        let messages = waiting.put_offs();
        let reply = reply_as(kind, waiting);
        let after = serve_put_off(at, reply, idle, &mut self.manager, breaches, messages, post)?;
        self.table.set_entry(page, Entry::Idle(after));
        self.table.exchange(page, &mut self.spare);
        self.rest.end();
        self.done = Some(out);
        self.locked = None;
        Ok(())
    }

    /// The page's bytes come, and no word waits for them. What was put off is served, and they become the page; words that
    /// wait elsewhere go on waiting.
    fn fetch_came<P: Post>(
        &mut self,
        from: u8,
        page: u32,
        kind: Request,
        waiting: &Waiting,
        bytes: &[u8],
        post: &mut P,
    ) -> Result<(), Fault>
        requires from { from < self.old.config.nodes }
        requires foreign { from ≢ self.old.me }
        requires page { page < self.old.config.pages }
        requires sized { length bytes.now ≡ self.old.config.page_size }
        requires waits { IsWaiting (entry_at self.old.table page) kind waiting.now }
        requires elsewhere { self.old.locked ≢ Some page }
        requires post { IsPostOf P.ops post.old self.old.config self.old.me }
        ensures { IsStep P.ops post.old post.new result self.old self.new
            (fetch_unlocked M.ops self.old from page (unlocked_as kind) (reply_as kind waiting.now)
            bytes.now waiting.now) }
    {
        self.spare.fill(bytes)?;
        let at = Place {
            me: self.me,
            from,
            page,
            bytes: self.spare.bytes(),
        };
        let after = serve_put_off(
            at,
            reply_as(kind, waiting),
            unlocked_as(kind),
            &mut self.manager,
            &mut self.breaches,
            waiting.put_offs(),
            post,
        )?;
        self.table.set_entry(page, Entry::Idle(after));
        let came = &mut self.spare;
        self.table.exchange(page, came);
        leave_out(&mut self.fetched, page);
        Ok(())
    }

    /// The last copy of a page that is fetched to write was given up, and no word waits for that. What was put off is served.
    fn fetch_ended<P: Post>(
        &mut self,
        from: u8,
        page: u32,
        waiting: &Waiting,
        post: &mut P,
    ) -> Result<(), Fault>
        requires from { from < self.old.config.nodes }
        requires foreign { from ≢ self.old.me }
        requires page { page < self.old.config.pages }
        requires waits { IsCollecting (entry_at self.old.table page) waiting.now }
        requires elsewhere { self.old.locked ≢ Some page }
        requires post { IsPostOf P.ops post.old self.old.config self.old.me }
        ensures { IsStep P.ops post.old post.new result self.old self.new
            (fetch_unlocked M.ops self.old from page owning None (page_at self.old.table page)
            waiting.now) }
    {
        let at = Place {
            me: self.me,
            from,
            page,
            bytes: self.table.page(page),
        };
        let breaches = &mut self.breaches;
        let after = serve_put_off(
            at,
            None,
            Idle::owned(),
            &mut self.manager,
            breaches,
            waiting.put_offs(),
            post,
        )?;
        self.table.set_entry(page, Entry::Idle(after));
        leave_out(&mut self.fetched, page);
        Ok(())
    }

    #[tactic(auto, unfolding(crate::specs::stated::MessageSteps::reply_as))]
    /// A copy comes for the word that waits to read.
    fn copy_came<P: Post>(
        &mut self,
        from: u8,
        call: u64,
        page: u32,
        bytes: &[u8],
        post: &mut P,
    ) -> Result<(), Fault>
        requires from { from < self.old.config.nodes }
        requires foreign { from ≢ self.old.me }
        requires page { page < self.old.config.pages }
        requires sized { length bytes.now ≡ self.old.config.page_size }
        requires post { IsPostOf P.ops post.old self.old.config self.old.me }
        ensures { IsStep P.ops post.old post.new result self.old self.new
            (copy_came_at M.ops self.old from call page bytes.now) }
    {
        match self.table.entry(page) {
            LentEntry::AwaitRead(waiting) if waiting.call() == call => {
                let waiting = waiting.copied();
                self.unlock(from, page, Request::Read, &waiting, bytes, post)?;
            }
            _ => count(&mut self.breaches),
        }
        Ok(())
    }

    /// The page itself comes, with the nodes that have a copy.
    fn page_came<P: Post>(
        &mut self,
        from: u8,
        call: u64,
        page: u32,
        copies: NodeSet,
        bytes: &[u8],
        post: &mut P,
    ) -> Result<(), Fault>
        requires from { from < self.old.config.nodes }
        requires foreign { from ≢ self.old.me }
        requires page { page < self.old.config.pages }
        requires sized { length bytes.now ≡ self.old.config.page_size }
        requires call { 1 ≤ call }
        requires copies { IsBelow self.old.config.nodes copies }
        requires post { IsPostOf P.ops post.old self.old.config self.old.me }
        ensures { IsStep P.ops post.old post.new result self.old self.new
            (page_came_at M.ops self.old from call page copies bytes.now) }
    {
        match self.table.entry(page) {
            LentEntry::AwaitWrite(state)
                if state.waiting().call() == call && !copies.contains(self.me) => {
                let waiting = state.waiting().copied();
                self.owned_with(from, call, page, copies, waiting, bytes, post)?;
            }
            _ => count(&mut self.breaches),
        }
        Ok(())
    }

    #[tactic(auto, unfolding(crate::specs::stated::MessageSteps::reply_as))]
    /// The page is this node's, and these nodes have a copy: they give it up before the word is carried out.
    fn owned_with<P: Post>(
        &mut self,
        from: u8,
        call: u64,
        page: u32,
        copies: NodeSet,
        waiting: Waiting,
        bytes: &[u8],
        post: &mut P,
    ) -> Result<(), Fault>
        requires from { from < self.old.config.nodes }
        requires foreign { from ≢ self.old.me }
        requires page { page < self.old.config.pages }
        requires sized { length bytes.now ≡ self.old.config.page_size }
        requires call { 1 ≤ call }
        requires below { IsBelow self.old.config.nodes copies }
        requires apart { set.contains copies self.old.me ≡ false }
        requires waits { IsWaiting (entry_at self.old.table page) request.Write waiting }
        requires post { IsPostOf P.ops post.old self.old.config self.old.me }
        ensures { IsStep P.ops post.old post.new result self.old self.new
            (owned_with M.ops self.old from call page copies bytes.now waiting) }
    {
        if is_none(&copies) {
            self.unlock(from, page, Request::Write, &waiting, bytes, post)?;
            return Ok(());
        }
        self.spare.size(bytes.len())?;
        invalidate(self.me, page, call, &copies, post)?;
        self.manager.on_replied(page, true, from);
        let entry = Entry::AwaitAcks(AwaitAcks::new(copies, waiting));
        self.table.set_entry(page, entry);
        self.table.install(page, bytes, &mut self.spare);
        Ok(())
    }

    /// A copy was given up.
    fn acknowledged<P: Post>(
        &mut self,
        from: u8,
        call: u64,
        page: u32,
        post: &mut P,
    ) -> Result<(), Fault>
        requires from { from < self.old.config.nodes }
        requires foreign { from ≢ self.old.me }
        requires page { page < self.old.config.pages }
        requires post { IsPostOf P.ops post.old self.old.config self.old.me }
        ensures { IsStep P.ops post.old post.new result self.old self.new
            (acknowledged_at M.ops self.old from call page) }
    {
        match self.table.entry(page) {
            LentEntry::AwaitAcks(state)
                if state.waiting().call() == call && state.left().contains(from) => {
                let waiting = state.waiting().copied();
                let mut left = *state.left();
                left.remove(from);
                self.left_with(from, page, left, waiting, post)?;
            }
            _ => count(&mut self.breaches),
        }
        Ok(())
    }

    /// The acknowledgements of these nodes are missing still; with the last one the word is carried out.
    fn left_with<P: Post>(
        &mut self,
        from: u8,
        page: u32,
        left: NodeSet,
        waiting: Waiting,
        post: &mut P,
    ) -> Result<(), Fault>
        requires from { from < self.old.config.nodes }
        requires foreign { from ≢ self.old.me }
        requires page { page < self.old.config.pages }
        requires left { AreOthers self.old.config self.old.me left }
        requires waits { IsCollecting (entry_at self.old.table page) waiting }
        requires post { IsPostOf P.ops post.old self.old.config self.old.me }
        ensures { IsStep P.ops post.old post.new result self.old self.new
            (left_with M.ops self.old from page left waiting) }
    {
        if is_none(&left) {
            self.write(from, page, &waiting, post)?;
            return Ok(());
        }
        let entry = Entry::AwaitAcks(AwaitAcks::new(left, waiting));
        self.table.set_entry(page, entry);
        Ok(())
    }

    /// The last copy was given up: the word that waits is carried out on the page here, if one does, and what was put off is
    /// served.
    fn write<P: Post>(
        &mut self,
        from: u8,
        page: u32,
        waiting: &Waiting,
        post: &mut P,
    ) -> Result<(), Fault>
        requires from { from < self.old.config.nodes }
        requires foreign { from ≢ self.old.me }
        requires page { page < self.old.config.pages }
        requires waits { IsCollecting (entry_at self.old.table page) waiting.now }
        requires post { IsPostOf P.ops post.old self.old.config self.old.me }
        ensures { IsStep P.ops post.old post.new result self.old self.new
            (unlocked_by_last M.ops self.old from page waiting.now) }
    {
        if self.waits_at(page) {
            return self.write_word(from, page, waiting, post);
        }
        self.fetch_ended(from, page, waiting, post)
    }

    /// The word that waits is carried out on the page here, and those that wait along with it.
    fn write_word<P: Post>(
        &mut self,
        from: u8,
        page: u32,
        waiting: &Waiting,
        post: &mut P,
    ) -> Result<(), Fault>
        requires from { from < self.old.config.nodes }
        requires foreign { from ≢ self.old.me }
        requires page { page < self.old.config.pages }
        requires waits { IsCollecting (entry_at self.old.table page) waiting.now }
        requires here { self.old.locked ≡ Some page }
        requires post { IsPostOf P.ops post.old self.old.config self.old.me }
        ensures { IsStep P.ops post.old post.new result self.old self.new
            (word_unlocked M.ops self.old from page owning None (page_at self.old.table page)
            waiting.now) }
    {
        if self.rest.is_waiting() {
            return self.write_all(from, page, waiting, post);
        }
        self.write_one(from, page, waiting, post)
    }

    /// The same with the words that wait along, on a copy of the page, which becomes the page once the post took all: so
    /// none of them has to be taken back.
    fn write_all<P: Post>(
        &mut self,
        from: u8,
        page: u32,
        waiting: &Waiting,
        post: &mut P,
    ) -> Result<(), Fault>
        requires from { from < self.old.config.nodes }
        requires foreign { from ≢ self.old.me }
        requires page { page < self.old.config.pages }
        requires waits { IsCollecting (entry_at self.old.table page) waiting.now }
        requires here { self.old.locked ≡ Some page }
        requires post { IsPostOf P.ops post.old self.old.config self.old.me }
        ensures { IsStep P.ops post.old post.new result self.old self.new
            (word_unlocked M.ops self.old from page owning None (page_at self.old.table page)
            waiting.now) }
    {
        self.spare.fill(self.table.page(page))?;
        let first = self.spare.carry_out(waiting.word());
        self.rest.carry(&mut self.spare);
        let at = Place {
            me: self.me,
            from,
            page,
            bytes: self.spare.bytes(),
        };
        let breaches = &mut self.breaches;
        let messages = waiting.put_offs();
        let after = serve_put_off(
            at,
            None,
            Idle::owned(),
            &mut self.manager,
            breaches,
            messages,
            post,
        )?;
        self.table.set_entry(page, Entry::Idle(after));
        let now = &mut self.spare;
        self.table.exchange(page, now);
        self.rest.end();
        self.done = Some(first);
        self.locked = None;
        Ok(())
    }

    /// The last copy was given up, and no word waits along: the word is carried out on the page here, and what was put off
    /// is served. Where that is refused, the number that stood there is put back, for which the spare page is there before.
    fn write_one<P: Post>(
        &mut self,
        from: u8,
        page: u32,
        waiting: &Waiting,
        post: &mut P,
    ) -> Result<(), Fault>
        requires from { from < self.old.config.nodes }
        requires foreign { from ≢ self.old.me }
        requires page { page < self.old.config.pages }
        requires waits { IsCollecting (entry_at self.old.table page) waiting.now }
        requires here { self.old.locked ≡ Some page }
        requires alone { self.old.more ≡ [] }
        requires post { IsPostOf P.ops post.old self.old.config self.old.me }
        ensures { IsStep P.ops post.old post.new result self.old self.new
            (word_unlocked M.ops self.old from page owning None (page_at self.old.table page)
            waiting.now) }
    {
        let word = waiting.word();
        let before = Word::Store {
            width: word.width(),
            offset: word.offset(),
            value: self.table.number(page, word),
        };
        self.spare.size(self.config.page_size as usize)?;
        let out = self.table.carry_out(page, word)?;
        let at = Place {
            me: self.me,
            from,
            page,
            bytes: self.table.page(page),
        };
        let breaches = &mut self.breaches;
        let messages = waiting.put_offs();
        match serve_put_off(
            at,
            None,
            Idle::owned(),
            &mut self.manager,
            breaches,
            messages,
            post,
        ) {
            Ok(after) => self.table.set_entry(page, Entry::Idle(after)),
            Err(fault) => {
                self.table.put_back(page, before, &mut self.spare);
                return Err(fault);
            }
        }
        self.rest.clear();
        self.done = Some(out);
        self.locked = None;
        Ok(())
    }

    #[tactic(auto, unfolding(crate::specs::stated::MessageSteps::handled))]
    /// A message that comes from another node [1, 17]. One that fits no rule is counted, and changes
    /// nothing else.
    ///
    /// The message fits the configuration, and `from` is another one of its nodes. The bytes of a page that it
    /// brings are copied once. That takes no memory, but where there are more than 256 pages: a page is made then
    /// when it first comes or is first written.
    pub fn handle<P: Post>(
        &mut self,
        from: u8,
        message: Message<&[u8]>,
        post: &mut P,
    ) -> Result<(), Fault>
        requires from { from < self.old.config.nodes }
        requires foreign { from ≢ self.old.me }
        requires fits { FitsMessage self.old.config (owned_message message) }
        requires post { IsPostOf P.ops post.old self.old.config self.old.me }
        ensures ok { OnOk result (self.new ≡ (handled M.ops self.old from (owned_message message.entry)).after) }
        ensures few { length (handled M.ops self.old from (owned_message message.entry)).posted ≤ most_posted }
        ensures posted { OnOk result (post.new ≡ P.ops.after post.old (handled M.ops self.old from (owned_message message.entry)).posted) }
        ensures err { OnErr result (self.new ≡ self.old) }
        ensures took { OnOk result (P.ops.takes post.old (handled M.ops self.old from (owned_message message.entry)).posted) }
        ensures fault { IfErr result (λ fault. (IsWantOfPage self.old fault × (post.new ≡ post.old)) ⊎ HasRefused P.ops post.old post.new (handled M.ops self.old from (owned_message message.entry)).posted fault) }
        ensures want { IfErr result RanOut }
    {
        self.sound();
        let (origin, call) = (message.origin, message.call);
        let mine = origin == self.me;
        match message.content {
            Content::ReadReq { page } if !mine => {
                let kind = Request::Read;
                self.asked(page, PutOff { kind, origin, call }, post)?;
            }
            Content::WriteReq { page } if !mine => {
                let kind = Request::Write;
                self.asked(page, PutOff { kind, origin, call }, post)?;
            }
            Content::Inval { page } if origin == from => {
                let kind = Request::Invalidate;
                self.asked(page, PutOff { kind, origin, call }, post)?;
            }
            Content::ReadRep { page, bytes } if mine => {
                self.copy_came(from, call, page, bytes, post)?;
            }
            Content::WriteRep {
                page,
                copies,
                bytes,
            } if mine => {
                self.page_came(from, call, page, NodeSet::from_bits(copies), bytes, post)?;
            }
            Content::InvalAck { page } if mine => {
                self.acknowledged(from, call, page, post)?;
            }
            Content::ReadReq { .. }
            | Content::WriteReq { .. }
            | Content::ReadRep { .. }
            | Content::WriteRep { .. }
            | Content::Inval { .. }
            | Content::InvalAck { .. }
            | Content::AllocReq { .. }
            | Content::AllocRep { .. }
            | Content::FreeReq { .. }
            | Content::FreeRep { .. } => count(&mut self.breaches),
        }
        Ok(())
    }
}
