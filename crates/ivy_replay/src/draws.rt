//! Moves that a generator draws.
ghost use Rattle.std.specs.Prelude.{◌≡◌};

use crate::progress::Progress;
use crate::text::Text;
use ivy_model::Fault;
use ivy_moves::Move;
use ivy_texts::{draw, generator_of};
use ivy_world::World;
use rand_pcg::Lcg64Xsh32;
use std::alloc::Global;

/// The next move that is drawn.
fn next_drawn(generator: &mut Lcg64Xsh32, world: &World<Global>) -> Move {
    // for the proof: what holds of a world at every moment
    world.keeps();
    draw(generator, world.nodes() as u8, world.sent())
}

/// Draws so many moves, makes them, and adds them to these.
fn draw_all<P: Progress>(
    world: &mut World<Global>,
    generator: &mut Lcg64Xsh32,
    moves: &mut Vec<Move>,
    count: u64,
    progress: &mut P,
) -> Result<(), Fault> {
    for made in 0..count {
        progress.tell(made, "moves");
        let step = next_drawn(generator, world);
        if let Err((_place, fault)) = world.run(&[step]) {
            return Err(fault);
        }
        moves.push(step)?;
    }
    Ok(())
}

/// The first moves that the generator of a seed draws [1, 2, 17, 20].
pub fn drawn_moves<P: Progress>(
    text: &Text<'_>,
    seed: u64,
    count: u64,
    progress: &mut P,
) -> Result<Vec<Move>, Fault> {
    let mut world = text.world()?;
    let mut generator = generator_of(seed);
    let mut moves = Vec::new(text.alloc);
    match draw_all(&mut world, &mut generator, &mut moves, count, progress) {
        Ok(()) => Ok(moves),
        Err(fault) => Err(fault),
    }
}
