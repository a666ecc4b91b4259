//! Peterson's mutual exclusion.
ghost use Rattle.std.specs.Prelude.{◌≡◌, ◌++◌, ◌∷◌, ◌*◌, ◌<◌, [], All, IfOk};
ghost use Rattle.example_programs.specs.Peterson.{IsCountPlace, IsEntry, IsRound, NoTwoInside, NoneIsLost, wish_of};
ghost use Rattle.ivy_sync.specs.Doing.{stores};
ghost use Rattle.example_programs.specs.Adding.{AddsSome};

use ivy_calls::{load, store};
use ivy_model::{CANNOT_HAPPEN, Config, Fault};
use ivy_node::{Limits, OpenGate, OwnFault, SharedMemory, Work, run_with};
use ivy_sync::Barrier;
use std::alloc::Allocator;
use std::sync::Wait;
use std::thread::Threads;

/// Peterson's mutual exclusion of the nodes 0 and 1, by loads and stores alone.
///
/// Who wants to enter says so, lets the other one go first, and waits until that one does not want
/// to enter, or has let this one go first.
#[derive(Clone, Copy, Debug)]
pub struct Peterson {
    /// The word in which node 0 says that it wants to enter: 0 at first.
    pub wish_0: u64,
    /// The word in which node 1 does: 0 at first.
    pub wish_1: u64,
    /// The word that says who goes first.
    pub turn: u64,
}

impl Peterson {
    /// The word in which a node says that it wants to enter.
    fn wish(&self, node: u8) -> u64
        ensures { result ≡ wish_of self.now node }
    {
        if node == 0 { self.wish_0 } else { self.wish_1 }
    }

    /// Enters, as soon as the other node does not want to or lets this one go first.
    pub fn enter<M: SharedMemory>(&self, me: u8, memory: &mut M) -> Result<(), Fault>
        requires { me < 2 }
        ensures { IfOk result (λ _.
            AddsSome (IsEntry self.now me) (M.answers memory.old) (M.answers memory.new)) }
    {
        let other = 1 - me;
        store(memory, self.wish(me), 1u64)?;
        store(memory, self.turn, u64::from(other))?;
        for _ in 0..u64::MAX {
            if load::<u64, M>(memory, self.wish(other))? == 0 {
                return Ok(());
            }
            if load::<u64, M>(memory, self.turn)? == u64::from(me) {
                return Ok(());
            }
        }
        Err(CANNOT_HAPPEN)
    }

    /// Leaves.
    pub fn leave<M: SharedMemory>(&self, me: u8, memory: &mut M) -> Result<(), Fault>
        ensures { IfOk result (λ _.
            M.answers memory.new ≡ M.answers memory.old ++ stores (wish_of self.now me) 0 ∷ []) }
    {
        store(memory, self.wish(me), 0u64)?;
        Ok(())
    }
}

/// Two nodes that add 1 to a word so many times each, inside by Peterson's mutual exclusion, meet,
/// and give what is in the word.
///
/// No two are inside at once, as [`no_two_inside`] says, so no 1 is lost: [`none_is_lost`].
#[derive(Clone, Copy, Debug)]
pub struct TwoCount {
    /// Who may change the word.
    pub lock: Peterson,
    /// The word to which both add: 0 at first.
    pub sum: u64,
    /// How often each adds.
    pub times: u64,
    /// Where both meet.
    pub barrier: Barrier,
}

impl TwoCount {
    /// Enters, adds 1, and leaves.
    #[tactic(auto, using(crate::proofs::Trying::adds_round))]
    fn add<M: SharedMemory>(&self, me: u8, memory: &mut M) -> Result<(), Fault>
        requires { me < 2 }
        ensures { IfOk result (λ _.
            AddsSome (IsRound self.now me) (M.answers memory.old) (M.answers memory.new)) }
    {
        self.lock.enter(me, memory)?;
        let sum: u64 = load(memory, self.sum)?;
        let Some(more) = sum.checked_add(1) else {
            return Err(Fault::CountFull);
        };
        store(memory, self.sum, more)?;
        self.lock.leave(me, memory)
    }
}

impl Work for TwoCount {
    ghost use Rattle.example_programs.specs.Peterson.{HasCounted};

    type Out = u64;

    ghost done = { HasCounted };

    fn work<M: SharedMemory>(&self, me: u8, memory: &mut M) -> Result<u64, Fault> {
        if me > 1 {
            return Err(Fault::BadNode);
        }
        for _ in 0..self.times {
            self.add(me, memory)?;
        }
        let mut barrier = self.barrier;
        barrier.wait(memory)?;
        Ok(load(memory, self.sum)?)
    }
}

/// At no point are two nodes inside.
pub fn no_two_inside()
    ensures { NoTwoInside }
{}

/// No 1 is lost: each node gives what all added together.
pub fn none_is_lost()
    ensures { NoneIsLost }
{}

/// Lets the nodes count in the threads of a session, and gives what each found.
pub fn count<A, R>(
    rt: &R,
    alloc: A,
    config: Config,
    work: &TwoCount,
    limits: Limits,
) -> Result<Vec<u64, A>, OwnFault>
where
    A: Allocator + Copy + Send + Sync,
    R: Threads + Wait + Sync,
    requires { IsCountPlace config work.now }
    ensures { IfOk result (λ outs. All (λ out. out ≡ config.nodes * work.now.times) outs.items) }
{
    let report = run_with(rt, alloc, config, work, limits, &OpenGate)?;
    Ok(report.outs)
}
