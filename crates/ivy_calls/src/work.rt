use crate::memory::SharedMemory;
use ivy_model::Fault;

/// A program for all nodes, over any memory.
pub trait Work {
    ghost use Rattle.std.specs.Prelude.{◌≡◌, ℕ, List, [], MatchResult};
    ghost use Rattle.ivy_model.specs.declared.fault.Fault.{Fault};
    ghost use Rattle.ivy_calls.specs.declared.answer.Answer.{Answer};

    /// What the work of one node gives.
    type Out: Send + Drop;

    /// What a node, by its number, has done where it was answered so and gave this.
    ghost done: { Self → ℕ → List Answer → Self.Out → Type 0 };

    /// With what fault a node, by its number, gives up where it was answered so. With any, where a work does not say.
    ghost gives_up: { Self → ℕ → List Answer → Fault → Type 0 } = { λ _ _ _ _. Unit {0} };

    /// The work of node `me`. An `Err` gives up: it is the fault of a call, or one of the program's own.
    fn work<M: SharedMemory>(&self, me: u8, memory: &mut M) -> Result<Self::Out, Fault>
        requires { M.answers memory.old ≡ [] }
        ensures { MatchResult result (λ out. done self.now me (M.answers memory.new) out) (λ fault. gives_up self.now me (M.answers memory.new) fault) };
}
