use ivy_model::{Call, Fault, Reply};

/// A memory as one node sees it, which serves one call after another.
pub trait SharedMemory {
    ghost use Rattle.std.specs.Prelude.{◌≡◌, ◌≤◌, ◌*◌, ◌++◌, ◌∷◌, [], List, IfErr, IfOk, length};
    ghost use Rattle.ivy_model.specs.stated.Legal.{HasWidth};
    ghost use Rattle.ivy_model.specs.Rows.{numbers_in};
    ghost use Rattle.ivy_model.specs.declared.row.Row.TheVariants.{Loads, Stores};
    ghost use Rattle.ivy_model.specs.declared.fault.Fault.{Fault};
    ghost use Rattle.ivy_calls.specs.declared.answer.Answer.{Answer};
    ghost use Rattle.ivy_calls.specs.Answers.{Adds};
    ghost use Rattle.ivy_calls.specs.BlockAnswers.{in_row};

    /// What was answered so far.
    ghost answers: { Self → List Answer };

    /// Whether a call may fail so, with no answer.
    ghost can_fail: { Self → Fault → Type 0 };

    /// Makes a call, and waits for its reply. Each width in it is 1, 2, 4 or 8.
    ///
    /// An `Ok` adds the call and its reply, which may be a refusal, to what was answered. An `Err`
    /// adds nothing.
    fn call(&mut self, call: Call) -> Result<Reply, Fault>
        requires width { HasWidth call }
        ensures made { IfOk result (λ reply. Adds call reply (answers self.old) (answers self.new)) }
        ensures failed { IfErr result (λ fault. (answers self.new ≡ answers self.old) × can_fail self.old fault) };

    /// Loads words of 8 bytes that follow one another, from `addr` on, into the bytes of `into`, and says how many words:
    /// as many as it has room for and are at hand. Each was answered as by a [`Call::Load`].
    ///
    /// None (0) where the first has to be asked for, or would be refused: then [`SharedMemory::call`] does that. A memory
    /// may give none ever.
    fn load_row(&mut self, addr: u64, into: &mut [u8]) -> usize
        ensures answered { answers self.new ≡ answers self.old ++ in_row Loads addr (numbers_in result into.new) }
        ensures fits { 8 * result ≤ length into.old }
        ensures sized { length into.new ≡ length into.old }
    {
        0
    }

    /// Stores the bytes of `from` into words of 8 bytes that follow one another, from `addr` on, and says how many words:
    /// as many as it has and are at hand. Each was answered as by a [`Call::Store`].
    ///
    /// None (0) where the first has to be asked for, or would be refused: then [`SharedMemory::call`] does that. A memory
    /// may take none ever.
    fn store_row(&mut self, addr: u64, from: &[u8]) -> usize
        ensures answered { answers self.new ≡ answers self.old ++ in_row Stores addr (numbers_in result from.now) }
        ensures fits { 8 * result ≤ length from.now }
    {
        0
    }

    /// A hint that the page of this address is needed soon, to read, or to write too. Its node may ask for the page now, so
    /// that it comes while the program goes on.
    ///
    /// It is no call: nothing is answered, and where the page is not asked for nothing is done. A memory may do nothing
    /// ever, as this does.
    fn fetch_ahead(&mut self, addr: u64, write: bool)
        ensures { answers self.new ≡ answers self.old }
    {
        let _ = (addr, write);
    }

    /// Lets others run: who waits for a word has looked at it so often, each time in vain.
    ///
    /// Nothing is asked. A memory whose node has a processor of its own may return at once, as this does.
    fn rest(&mut self, looks: u64)
        ensures { answers self.new ≡ answers self.old }
    {
        let _ = looks;
    }
}
