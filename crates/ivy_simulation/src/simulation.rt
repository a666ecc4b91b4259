//! Worlds that run by drawn moves.
ghost use Rattle.std.specs.Prelude.{◌≡◌, OnOk};
ghost use Rattle.ivy_model.specs.stated.Config.{IsConfig};
ghost use Rattle.proof_worlds.specs.stated.Reached.{IsReached};
ghost use Rattle.ivy_simulation.specs.Simulated.{DrawnTo};
ghost use Rattle.ivy_texts.specs.Drawn.{seeded};

use crate::moves::make;
use ivy_model::{Config, Fault};
use ivy_texts::{draw, generator_of};
use ivy_world::World;
use std::alloc::Allocator;

/// Makes so many moves, which the generator of a seed draws, up to the first that is refused [1, 17, 19].
pub fn run_drawn<A: Allocator + Copy>(
    config: &Config,
    world: &mut World<A>,
    seed: u64,
    moves: u64,
) -> Result<(), Fault>
    requires limits { IsConfig config.now }
    requires config { world.old.config ≡ config.now }
    ensures drawn { OnOk result (DrawnTo config.now (seeded seed) moves world.old.world world.new.world) }
    ensures reached { OnOk result (IsReached world.new) }
{
    // The strings that were sent already are long enough to be read.
    world.keeps();
    let mut generator = generator_of(seed);
    for _made in 0..moves {
        let step = draw(&mut generator, config.nodes, world.sent());
        make(world, step)?;
    }
    world.keeps();
    Ok(())
}
