ghost use Rattle.std.specs.Prelude.{[], ◌≡◌, ◌≢◌, ◌-◌, IfOk};
ghost use Rattle.ivy_sync.specs.queueing.Queues.{IsPlace};

use ivy_calls::{SharedMemory, Work};
use ivy_model::Fault;
use ivy_sync::{Receiver, SharedSender};
use std::alloc::Global;

/// Each node sends its number to node 0, by one queue for all. Node 0 gives the numbers in the order in which they
/// came, with its own as the first; the others give nothing.
///
/// So node 0 gives each node's number once, as [`crate::all_are_called`] says.
#[derive(Drop)]
pub struct RollCall {
    /// By which the others send.
    pub sender: SharedSender,
    /// How many nodes there are.
    pub nodes: u8,
    /// Where the list lies that is given.
    pub alloc: Global,
    ghost place: { IsPlace sender.queue },
    ghost two: { sender.queue.sent ≢ sender.queue.taken },
}

impl RollCall {
    ghost use Rattle.example_programs.specs.RollCall.{Calls};

    /// What node 0 does, and gives.
    #[tactic(auto, using(crate::proofs::Calling::calls_none))]
    fn call<M: SharedMemory>(&self, memory: &mut M) -> Result<Vec<u64>, Fault>
        requires { M.answers memory.old ≡ [] }
        ensures { IfOk result (λ out. Calls self.now (self.now.nodes - 1) (M.answers memory.new) out.items) }
    {
        let mut receiver = Receiver {
            queue: self.sender.queue,
            next: 0,
        };
        let mut out = Vec::new(self.alloc);
        out.push(0)?;
        for _ in 0..self.nodes.saturating_sub(1) {
            out.push(receiver.take(memory)?)?;
        }
        Ok(out)
    }
}

impl Work for RollCall {
    ghost use Rattle.example_programs.specs.RollCall.{HasCalled};

    type Out = Vec<u64>;

    ghost done = { λ work me answers out. HasCalled work me answers out.items };

    fn work<M: SharedMemory>(&self, me: u8, memory: &mut M) -> Result<Vec<u64>, Fault> {
        if me == 0 {
            return self.call(memory);
        }
        self.sender.send(memory, u64::from(me))?;
        Ok(Vec::new(self.alloc))
    }
}
