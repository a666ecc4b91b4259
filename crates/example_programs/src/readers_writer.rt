//! A lock for many readers or one writer, by an atomic swap.
ghost use Rattle.std.specs.Prelude.{◌≡◌, ◌++◌, ◌∷◌, [], IfOk};
ghost use Rattle.ivy_sync.specs.Doing.{stores};
ghost use Rattle.example_programs.specs.Adding.{AddsSome};
ghost use Rattle.example_programs.specs.Readers.{CountsIn, CountsOut, EntersToWrite, Takes};

use ivy_calls::{load, store, swap};
use ivy_model::{CANNOT_HAPPEN, Fault};
use ivy_node::{SharedMemory, Work};
use ivy_sync::Barrier;

/// What stands in the word of the lock while a node has taken it: a writer, or who changes the
/// number of readers.
const TAKEN: u64 = u64::MAX;

/// A lock for many readers or one writer, in the word of 8 bytes at `addr`: how many readers are
/// inside, 0 at first, or that the word is taken. It spins.
#[derive(Clone, Copy, Debug)]
pub struct ReadersWriter {
    /// Where the word lies.
    pub addr: u64,
}

impl ReadersWriter {
    /// Takes the word, and gives how many readers are inside.
    fn take<M: SharedMemory>(&self, memory: &mut M) -> Result<u64, Fault>
        ensures { IfOk result (λ readers.
            AddsSome (Takes self.now.addr readers) (M.answers memory.old) (M.answers memory.new)) }
    {
        for _ in 0..u64::MAX {
            let found = swap(memory, self.addr, TAKEN)?;
            if found != TAKEN {
                return Ok(found);
            }
        }
        Err(CANNOT_HAPPEN)
    }

    /// Waits until no writer is inside, and enters as a reader.
    #[tactic(auto, using(crate::proofs::Reading::counts_on))]
    pub fn enter_to_read<M: SharedMemory>(&self, memory: &mut M) -> Result<(), Fault>
        ensures { IfOk result (λ _.
            AddsSome (CountsIn self.now.addr) (M.answers memory.old) (M.answers memory.new)) }
    {
        let readers = self.take(memory)?;
        store(memory, self.addr, readers + 1)?;
        Ok(())
    }

    /// A reader leaves.
    #[tactic(auto, using(crate::proofs::Reading::counts_on))]
    pub fn leave_reading<M: SharedMemory>(&self, memory: &mut M) -> Result<(), Fault>
        ensures { IfOk result (λ _.
            AddsSome (CountsOut self.now.addr) (M.answers memory.old) (M.answers memory.new)) }
    {
        let readers = self.take(memory)?;
        store(memory, self.addr, readers.saturating_sub(1))?;
        Ok(())
    }

    /// Waits until nobody is inside, and enters as the writer.
    pub fn enter_to_write<M: SharedMemory>(&self, memory: &mut M) -> Result<(), Fault>
        ensures { IfOk result (λ _.
            AddsSome (EntersToWrite self.now.addr) (M.answers memory.old) (M.answers memory.new)) }
    {
        for _ in 0..u64::MAX {
            let readers = self.take(memory)?;
            if readers == 0 {
                return Ok(());
            }
            store(memory, self.addr, readers)?;
        }
        Err(CANNOT_HAPPEN)
    }

    /// The writer leaves.
    pub fn leave_writing<M: SharedMemory>(&self, memory: &mut M) -> Result<(), Fault>
        ensures { IfOk result (λ _.
            M.answers memory.new ≡ M.answers memory.old ++ stores self.now.addr 0 ∷ []) }
    {
        store(memory, self.addr, 0u64)?;
        Ok(())
    }
}
/// Two words that a writer changes together. Nodes of even number add 1 to both so many times; the others look at both as
/// often, and give how often they differed. At the end each node of even number gives the first word.
#[derive(Clone, Copy, Debug)]
pub struct Ledger {
    /// Who may look at the words, or change them.
    pub lock: ReadersWriter,
    /// The two words, 0 at first.
    pub words: (u64, u64),
    /// How often each node enters.
    pub times: u64,
    /// Where all nodes meet.
    pub barrier: Barrier,
}

impl Ledger {
    /// Adds 1 to both words.
    fn write<M: SharedMemory>(&self, memory: &mut M) -> Result<(), Fault> {
        self.lock.enter_to_write(memory)?;
        let one: u64 = load(memory, self.words.0)?;
        store(memory, self.words.0, one.wrapping_add(1))?;
        let other: u64 = load(memory, self.words.1)?;
        store(memory, self.words.1, other.wrapping_add(1))?;
        self.lock.leave_writing(memory)
    }

    /// Whether both words are the same.
    fn read<M: SharedMemory>(&self, memory: &mut M) -> Result<bool, Fault> {
        self.lock.enter_to_read(memory)?;
        let one: u64 = load(memory, self.words.0)?;
        let other: u64 = load(memory, self.words.1)?;
        self.lock.leave_reading(memory)?;
        Ok(one == other)
    }
}

impl Work for Ledger {
    type Out = u64;

    ghost done = { λ _ _ _ _. Unit {0} };

    fn work<M: SharedMemory>(&self, me: u8, memory: &mut M) -> Result<u64, Fault> {
        let writes = me % 2 == 0;
        let mut different = 0u64;
        for _ in 0..self.times {
            if writes {
                self.write(memory)?;
            } else if !self.read(memory)? {
                different = different.wrapping_add(1);
            }
        }
        let mut barrier = self.barrier;
        barrier.wait(memory)?;
        if writes {
            return Ok(load(memory, self.words.0)?);
        }
        Ok(different)
    }
}
