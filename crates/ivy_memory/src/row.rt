//! Calls of a row, made together.
ghost use Rattle.std.specs.Prelude.{◌≡◌, ◌+◌, ◌*◌, ◌%◌, ◌^◌, ◌≤◌, ◌⊎◌, true, Some, IfErr, OnOk, OnErr, length};
ghost use Rattle.ivy_model.specs.Wants.{RanOut};
ghost use Rattle.ivy_wire.specs.Posts.{IsPostOf, HasRefused};
ghost use Rattle.ivy_coherence.specs.EventLimits.{most_posted};
ghost use Rattle.ivy_coherence.specs.Outcomes.{IsWantOfPage};
ghost use Rattle.ivy_alloc.specs.declared.CallProgress.TheVariants.{Awaited};
ghost use Rattle.ivy_memory.specs.Asking.{CallHasToAsk};
ghost use Rattle.ivy_memory.specs.BatchedCalls.{first_call, other_calls, row_begun, row_has_to_wait};

use crate::memory::{Memory, row_place};
use crate::rest::first_call;
use ivy_model::{Fault, Row};
use ivy_pagetable::Manager;
use ivy_wire::Post;
use std::alloc::Allocator;

impl<M: Manager, A: Allocator + Copy> Memory<M, A> {
    /// Whether the calls of a row of words of 8 bytes at an address would wait, if they began together: no call is in progress,
    /// and another node has to be asked for the page of that address, which is one of the heap, or it is fetched already, to
    /// read for loads and to write for stores. It takes no memory.
    pub fn has_to_wait(&self, kind: Row, addr: u64) -> bool
        ensures { result ≡ row_has_to_wait self.now kind addr }
    {
        if self.asked.is_some() {
            return false;
        }
        match row_place(&self.coherence.config(), addr) {
            Some(at) => self.coherence.has_to_wait(at.page, kind),
            None => false,
        }
    }

    /// The calls of a row of words of 8 bytes begin together, where they have to wait, the first of them as the one of this
    /// number [1, 17]. The bytes have the numbers of the words, at which loads do not look.
    ///
    /// The first one is in progress from now on, and the others after it: their words are carried out with its word, in order,
    /// with nothing between. Each is given its reply by [`Memory::poll_reply`].
    pub fn begin_row<P: Post>(
        &mut self,
        kind: Row,
        addr: u64,
        words: usize,
        bytes: &[u8],
        number: u64,
        post: &mut P,
    ) -> Result<(), Fault>
        requires waits { row_has_to_wait self.old kind addr ≡ true }
        requires some { 1 ≤ words }
        requires within { addr % self.old.coherence.config.page_size + 8 * words
            ≤ self.old.coherence.config.page_size }
        requires many { 8 * words ≤ length bytes.now }
        requires number { 1 ≤ number }
        requires numbers { number + words ≤ 2 ^ 64 }
        requires post { IsPostOf P.ops post.old self.old.coherence.config self.old.coherence.me }
        ensures few { length (row_begun M.ops self.old kind addr words bytes.now number).posted ≤ most_posted }
        ensures waits { (row_begun M.ops self.old kind addr words bytes.now number).answer ≡ Awaited }
        ensures ok { OnOk result (self.new ≡ (row_begun M.ops self.old kind addr words bytes.now number).after) }
        ensures asked { OnOk result (self.new.asked ≡ Some (first_call kind addr bytes.now)) }
        ensures along { OnOk result (self.new.along ≡ other_calls kind addr words bytes.now) }
        ensures posted { OnOk result (post.new ≡ P.ops.after post.old
            (row_begun M.ops self.old kind addr words bytes.now number).posted) }
        ensures took { OnOk result (P.ops.takes post.old
            (row_begun M.ops self.old kind addr words bytes.now number).posted) }
        ensures err { OnErr result (self.new ≡ self.old) }
        ensures fault { IfErr result (λ fault.
            (IsWantOfPage self.old.coherence fault × (post.new ≡ post.old))
            ⊎ HasRefused P.ops post.old post.new
            (row_begun M.ops self.old kind addr words bytes.now number).posted fault) }
        ensures sure { OnErr result (CallHasToAsk self.old.coherence (first_call kind addr bytes.now)) }
        ensures want { IfErr result RanOut }
    {
        let Some(at) = row_place(&self.coherence.config(), addr) else {
            return Ok(());
        };
        self.coherence
            .need_row(at.page, kind, at.offset, words, bytes, number, post)?;
        self.asked = Some(first_call(kind, addr, bytes));
        self.number = number;
        self.along.set(kind, addr + 8, words - 1, &bytes[8..]);
        Ok(())
    }
}
