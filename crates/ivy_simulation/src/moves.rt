//! One move of a world that a command runs.
ghost use Rattle.std.specs.Prelude.{◌≡◌, [], ◌∷◌, OnOk};
ghost use Rattle.ivy_host.specs.stated.Holding.{AllSpell};
ghost use Rattle.proof_worlds.specs.stated.Reached.{IsLedTo, IsReached};

use ivy_model::Fault;
use ivy_world::{Move, World};
use std::alloc::Allocator;

/// Makes a move, or changes nothing [1, 17, 19].
pub fn make<A: Allocator + Copy>(world: &mut World<A>, step: Move) -> Result<(), Fault>
    ensures made { OnOk result (IsLedTo world.old.config world.old.world (step ∷ []) world.new.world) }
    ensures config { world.new.config ≡ world.old.config }
    ensures spelled { AllSpell world.new.config world.new.world }
    ensures reached { IsReached world.new }
{
    match world.run(&[step]) {
        Ok(()) => Ok(()),
        Err((_place, fault)) => Err(fault),
    }
}
