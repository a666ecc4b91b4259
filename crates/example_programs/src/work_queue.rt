//! A bounded queue of jobs.
ghost use Rattle.std.specs.Prelude.{◌≡◌, IfOk};
ghost use Rattle.example_programs.specs.Adding.{AddsSome};
ghost use Rattle.example_programs.specs.Jobs.{PutsAJob, PutsOrIsFull, TakesAJob, TakesOrIsEmpty, place_of};

use ivy_calls::{load, store};
use ivy_model::{CANNOT_HAPPEN, Fault};
use ivy_node::{SharedMemory, Work};
use ivy_sync::Lock;

/// Where a bounded queue of jobs lies, from which any node takes. All of it is guarded by its lock.
#[derive(Clone, Copy, Debug)]
pub struct WorkQueue {
    /// Who may look at the queue.
    pub lock: Lock,
    /// The word that says how many jobs were put: 0 at first.
    pub put: u64,
    /// The word that says how many were taken: 0 at first.
    pub taken: u64,
    /// The first of the words in which jobs lie.
    pub places: u64,
    /// How many such words there are.
    pub size: u64,
}

impl WorkQueue {
    /// The word in which the `n`-th job lies, if the queue has places of 64 bits.
    fn place(&self, n: u64) -> Result<u64, Fault>
        ensures { IfOk result (λ place. place ≡ place_of self.now n) }
    {
        let Some(number) = n.checked_rem(self.size) else {
            return Err(Fault::OutOfRange);
        };
        let Some(offset) = number.checked_mul(8) else {
            return Err(Fault::OutOfRange);
        };
        self.places.checked_add(offset).ok_or(Fault::OutOfRange)
    }

    /// Puts a job, if there is room. It says whether there was.
    fn try_put<M: SharedMemory>(&self, memory: &mut M, job: u64) -> Result<bool, Fault>
        ensures { IfOk result (λ done.
            AddsSome (PutsOrIsFull self.now job done) (M.answers memory.old) (M.answers memory.new)) }
    {
        self.lock.acquire(memory)?;
        let put: u64 = load(memory, self.put)?;
        let taken: u64 = load(memory, self.taken)?;
        if put.saturating_sub(taken) >= self.size {
            self.lock.release(memory)?;
            return Ok(false);
        }
        let Some(more) = put.checked_add(1) else {
            return Err(Fault::CountFull);
        };
        store(memory, self.place(put)?, job)?;
        store(memory, self.put, more)?;
        self.lock.release(memory)?;
        Ok(true)
    }

    /// Takes a job, if there is one.
    fn try_take<M: SharedMemory>(&self, memory: &mut M) -> Result<Option<u64>, Fault>
        ensures { IfOk result (λ found.
            AddsSome (TakesOrIsEmpty self.now found) (M.answers memory.old) (M.answers memory.new)) }
    {
        self.lock.acquire(memory)?;
        let put: u64 = load(memory, self.put)?;
        let taken: u64 = load(memory, self.taken)?;
        if put <= taken {
            self.lock.release(memory)?;
            return Ok(None);
        }
        let job: u64 = load(memory, self.place(taken)?)?;
        store(memory, self.taken, taken + 1)?;
        self.lock.release(memory)?;
        Ok(Some(job))
    }

    /// Waits for room, and puts a job.
    pub fn put<M: SharedMemory>(&self, memory: &mut M, job: u64) -> Result<(), Fault>
        ensures { IfOk result (λ _.
            AddsSome (PutsAJob self.now job) (M.answers memory.old) (M.answers memory.new)) }
    {
        for _ in 0..u64::MAX {
            if self.try_put(memory, job)? {
                return Ok(());
            }
        }
        Err(CANNOT_HAPPEN)
    }

    /// Waits for a job, and takes it.
    pub fn take<M: SharedMemory>(&self, memory: &mut M) -> Result<u64, Fault>
        ensures { IfOk result (λ job.
            AddsSome (TakesAJob self.now job) (M.answers memory.old) (M.answers memory.new)) }
    {
        for _ in 0..u64::MAX {
            if let Some(job) = self.try_take(memory)? {
                return Ok(job);
            }
        }
        Err(CANNOT_HAPPEN)
    }
}

/// Node 0 puts the numbers from `jobs` down to 1 into a queue, and then a 0 for each other node. These take numbers until
/// they find a 0, and each gives the sum of the squares of what it took.
#[derive(Clone, Copy, Debug)]
pub struct Squares {
    /// Where the numbers go through.
    pub queue: WorkQueue,
    /// How many numbers there are.
    pub jobs: u64,
    /// How many nodes take them.
    pub workers: u64,
}

impl Work for Squares {
    type Out = u64;

    ghost done = { λ _ _ _ _. Unit {0} };

    fn work<M: SharedMemory>(&self, me: u8, memory: &mut M) -> Result<u64, Fault> {
        if me == 0 {
            for done in 0..self.jobs {
                self.queue.put(memory, self.jobs - done)?;
            }
            for _ in 0..self.workers {
                self.queue.put(memory, 0)?;
            }
            return Ok(0);
        }
        let mut sum = 0u64;
        for _ in 0..=self.jobs {
            let job = self.queue.take(memory)?;
            if job == 0 {
                return Ok(sum);
            }
            sum = sum.wrapping_add(job.wrapping_mul(job));
        }
        Ok(sum)
    }
}
