ghost use Rattle.std.specs.Prelude.{◌≡◌, [], IfErr, IfOk, IsOkUnless};
ghost use Rattle.ivy_model.specs.stated.Accesses.{kind_of_call};
ghost use Rattle.ivy_model.specs.stated.Config.{IsConfig};
ghost use Rattle.ivy_model.specs.stated.Memory.{first};
ghost use Rattle.ivy_calls.specs.Alone.{AreFlat};

use crate::answer::Answer;
use crate::memory::SharedMemory;
use ivy_model::{Call, Config, Fault, Flat, Reply};
use std::alloc::Allocator;
use std::marker::Model;

/// One flat memory with no other node, on which a program can be tested.
///
/// Each reply is the flat memory's. An [`Call::Await`] of more than the count, which nobody else will ever
/// advance, is not answered but fails with 21, as a session's does whose turns run out. No other call does. Any
/// call may fail with 1, where memory for a block or for the list of answers was refused.
#[derive(Drop)]
pub struct Alone<A: Allocator> {
    flat: Flat<A>,
    answers: Vec<Answer, A>,
}

impl<A: Allocator> Model for Alone<A> {
    ghost use Rattle.ivy_calls.specs.Alone.{AloneState, AreFlat, alone_state_code};

    ghost Value = { AloneState };

    ghost coded = { alone_state_code };

    ghost view = { λ a. record { flat = a.flat; answers = a.answers.items } };

    ghost invariant = { λ a. AreFlat a.flat a.answers.items };
}

impl<A: Allocator + Copy> Alone<A> {
    /// A memory of zeros, with no live block. Refuses with 1 where there is no room for it.
    pub fn new(alloc: A, config: Config) -> Result<Self, Fault>
        requires { IsConfig config }
        ensures first { IfOk result (λ alone. alone ≡ record { flat = record { config = config; memory = first config }; answers = [] }) }
        ensures memory { IsOkUnless result Fault.Memory }
    {
        Ok(Alone {
            flat: Flat::new(alloc, config)?,
            answers: Vec::new(alloc),
        })
    }

    /// What was answered so far.
    pub fn answers(&self) -> &[Answer]
        ensures are { result.now ≡ self.now.answers }
        ensures flat { AreFlat self.now.flat self.now.answers }
    {
        &self.answers
    }
}

impl<A: Allocator + Copy> SharedMemory for Alone<A> {
    ghost use Rattle.ivy_model.specs.stated.Legal.{HasWidth};
    ghost use Rattle.ivy_calls.specs.Alone.{IsEndless, IsLack};
    ghost use Rattle.ivy_calls.specs.Answers.{Adds};

    ghost answers = { λ a. a.answers };

    ghost can_fail = { λ _ fault. IsLack fault };

    fn call(&mut self, call: Call) -> Result<Reply, Fault>
        requires width { HasWidth call }
        ensures made { IfOk result (λ reply. Adds call reply self.old.answers self.new.answers) }
        ensures failed { IfErr result (λ fault. (self.new.answers ≡ self.old.answers) × IsLack fault) }
        ensures endless { IfErr result (λ fault. fault ≡ Fault.TurnLimit → IsEndless self.old.flat.memory (kind_of_call call)) }
    {
        self.answers.reserve(1)?;
        let Some(reply) = self.flat.serve(call)? else {
            return Err(Fault::TurnLimit);
        };
        self.answers.push_reserved(Answer { call, reply });
        Ok(reply)
    }
}
