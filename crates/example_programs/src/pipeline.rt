ghost use Rattle.std.specs.Prelude.{◌≡◌, IfOk, []};
ghost use Rattle.ivy_sync.specs.queueing.Queues.{AreApart, IsPlace};

use ivy_calls::{SharedMemory, Work};
use ivy_model::Fault;
use ivy_sync::{Queue, Receiver, Sender};
use std::alloc::Global;

/// What the middle of a pipeline makes of a number.
pub trait Stage {
    ghost use Rattle.std.specs.Prelude.{◌≡◌, ℕ};

    /// The number that becomes of one.
    ghost gives: { Self → ℕ → ℕ };

    /// Makes it.
    fn apply(&self, number: u64) -> u64
        ensures { result ≡ gives self.now number };
}

/// A pipeline of three stages: node 0 sends the values into the first queue, node 1 takes them from there and
/// sends what it makes of each into the second, and node 2 takes those and gives them. Other nodes do nothing.
///
/// What node 2 gives is the map of the values, in their order, as [`crate::pipelines_map`] says.
#[derive(Drop)]
pub struct Pipeline<S> {
    pub values: Vec<u64>,
    pub stage: S,
    pub first: Queue,
    pub second: Queue,
    /// Where the lists lie that are given.
    pub alloc: Global,
    ghost first_place: { IsPlace first },
    ghost second_place: { IsPlace second },
    ghost apart: { AreApart first second },
}

impl<S: Stage> Pipeline<S> {
    ghost use Rattle.example_programs.specs.Pipeline.{CollectsAll, Feeds, Relays};

    /// What node 0 does.
    fn feed<M: SharedMemory>(&self, memory: &mut M) -> Result<(), Fault>
        requires { M.answers memory.old ≡ [] }
        ensures { IfOk result (λ _.
            Feeds self.now.first self.now.second self.now.values.items (M.answers memory.new)) }
    {
        let mut sender = Sender {
            queue: self.first,
            next: 0,
        };
        for value in &self.values {
            sender.send(memory, *value)?;
        }
        Ok(())
    }

    /// What node 1 does.
    fn relay<M: SharedMemory>(&self, memory: &mut M) -> Result<(), Fault>
        requires { M.answers memory.old ≡ [] }
        ensures { IfOk result (λ _.
            Relays (S.gives self.now.stage) self.now.first self.now.second
            self.now.values.items (M.answers memory.new)) }
    {
        let mut receiver = Receiver {
            queue: self.first,
            next: 0,
        };
        let mut sender = Sender {
            queue: self.second,
            next: 0,
        };
        for _ in 0..self.values.len() {
            let number = receiver.take(memory)?;
            sender.send(memory, self.stage.apply(number))?;
        }
        Ok(())
    }

    /// What node 2 does, and gives.
    fn collect<M: SharedMemory>(&self, memory: &mut M) -> Result<Vec<u64>, Fault>
        requires { M.answers memory.old ≡ [] }
        ensures { IfOk result (λ out.
            CollectsAll self.now.first self.now.second self.now.values.items (M.answers memory.new) out.items) }
    {
        let mut receiver = Receiver {
            queue: self.second,
            next: 0,
        };
        let mut out = Vec::new(self.alloc);
        for _ in 0..self.values.len() {
            out.push(receiver.take(memory)?)?;
        }
        Ok(out)
    }
}

impl<S: Stage> Work for Pipeline<S> {
    ghost use Rattle.example_programs.specs.Pipeline.{HasPiped};

    type Out = Vec<u64>;

    ghost done = { λ work me answers out.
        HasPiped (S.gives work.stage) work.first work.second work.values.items me answers out.items };

    fn work<M: SharedMemory>(&self, me: u8, memory: &mut M) -> Result<Vec<u64>, Fault> {
        match me {
            0 => self.feed(memory)?,
            1 => self.relay(memory)?,
            2 => return self.collect(memory),
            _ => {}
        }
        Ok(Vec::new(self.alloc))
    }
}
