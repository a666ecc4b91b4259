//! The calls of works, as their nodes have them.
ghost use Rattle.std.specs.Prelude.{◌≡◌, ◌<◌, ◌∷◌, [], IfErr, IfOk, IfSome, OnErr, slice_get};
ghost use Rattle.ivy_model.specs.stated.Legal.{HasWidth};
ghost use Rattle.ivy_program.specs.OwnCode.{IsFree};
ghost use Rattle.ivy_world.specs.HandedWorlds.{run_handed};
ghost use Rattle.ivy_play.specs.Faults.{IsUnanswered};

use ivy_model::{Call, Fault};
use ivy_world::World;
use std::alloc::Allocator;

/// That a node was handed a call. Only [`hand`] makes one, so who has it knows which call that was.
#[derive(Clone, Copy, Drop)]
pub(crate) struct Handed {
    call: Call,
}

impl Handed {
    /// The call.
    pub(crate) fn call(self) -> Call
        ensures { result ≡ self.call }
    {
        self.call
    }
}

/// Own code at a node makes this call; or nothing changes [1].
pub(crate) fn hand<A: Allocator + Copy>(
    world: &mut World<A>,
    node: u64,
    call: Call,
) -> Result<Handed, Fault>
    requires node { node < world.old.config.nodes }
    requires free { IfSome (slice_get world.old.world.nodes node) (λ n. IsFree n.core.process) }
    requires width { HasWidth call }
    ensures own { IfOk result (λ handed. handed.call ≡ call) }
    ensures handed { IfOk result (λ handed. world.new ≡ run_handed node ((handed.call ∷ []) ∷ []) world.old) }
    ensures refused { OnErr result (world.new ≡ world.old) }
    ensures unanswered { IfErr result IsUnanswered }
{
    world.hand(node, call)?;
    Ok(Handed { call })
}
