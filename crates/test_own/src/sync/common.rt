//! What the tests share.
ghost use Rattle.std.specs.Prelude.{◌≡◌, []};

use ivy_calls::{Alone, Answer, SharedMemory};
use ivy_model::{Call, Config, Fault, Kind, Reply};
use std::alloc::{Allocator, Global};
use std::fmt::Debug;
use std::process::Abort;

/// A heap from 64 to 255, and eight eventcounts.
pub(crate) const SMALL: Config = Config {
    nodes: 2,
    pages: 4,
    page_size: 64,
    manager: Kind::Fixed,
};

/// That a value is the one that is wanted.
pub(crate) fn expect_same<T: PartialEq + Debug + Drop>(rt: &impl Abort, found: T, wanted: T) {
    assert_eq!(rt; found, wanted);
}

/// The small memory.
pub(crate) fn small<A: Allocator + Copy>(rt: &impl Abort, alloc: A) -> Alone<A>
    ensures { result.answers ≡ [] }
{
    Alone::new(alloc, SMALL).expect(rt, "memory")
}

/// A memory as one more node sees it: what it was answered is listed anew.
///
/// So the programs of several nodes can be tried on one flat memory, one after another.
#[derive(Drop)]
pub(crate) struct AsNode<M, A: Allocator> {
    memory: M,
    answers: Vec<Answer, A>,
}

impl<M, A: Allocator> AsNode<M, A> {
    pub(crate) fn new(alloc: A, memory: M) -> Self
        ensures { result.answers.items ≡ [] }
    {
        AsNode {
            memory,
            answers: Vec::new(alloc),
        }
    }

    /// The memory, for the next node.
    pub(crate) fn into_memory(self) -> M {
        self.memory
    }
}

impl<M: SharedMemory, A: Allocator> SharedMemory for AsNode<M, A> {
    ghost use Rattle.std.specs.Prelude.{◌⊎◌};
    ghost use Rattle.ivy_model.specs.declared.fault.Fault.TheVariants.{Memory};

    ghost answers = { λ node. node.answers.items };

    ghost can_fail = { λ node fault. M.can_fail node.memory fault ⊎ (fault ≡ Memory) };

    fn call(&mut self, call: Call) -> Result<Reply, Fault> {
        self.answers.reserve(1)?;
        let reply = self.memory.call(call)?;
        self.answers.push_reserved(Answer { call, reply });
        Ok(reply)
    }

    fn fetch_ahead(&mut self, addr: u64, write: bool) {
        self.memory.fetch_ahead(addr, write);
    }
}
