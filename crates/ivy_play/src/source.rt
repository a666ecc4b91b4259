//! Where the moves of a play come from.
ghost use Rattle.std.specs.Prelude.{◌≡◌};
ghost use Rattle.ivy_texts.specs.Drawn.{drawn};
ghost use Rattle.ivy_play.specs.Given.{always, seed_moves};

use ivy_model::Fault;
use ivy_texts::{draw, generator_of};
use ivy_world::{Move, World};
use rand_pcg::Lcg64Xsh32;
use std::alloc::Allocator;

/// Where the moves of a play come from.
pub trait MoveSource {
    ghost use Rattle.std.specs.Prelude.{◌≡◌, List, IfErr, IfOk};
    ghost use Rattle.ivy_play.specs.Faults.{IsPlayStop};
    ghost use Rattle.ivy_play.specs.Given.{GivesNext, Giving};

    /// The moves that it gives next, each by the world in which it is asked for. Where none is left it may give any.
    ghost gives: { Self → List Giving };

    /// The next move in this world, or none at the end [1].
    fn next<A: Allocator + Copy>(&mut self, world: &World<A>) -> Result<Option<Move>, Fault>
        ensures next { IfOk result (λ step. GivesNext (gives self.old) world.now step (gives self.new)) }
        ensures same { IfErr result (λ _. gives self.new ≡ gives self.old) }
        ensures stop { IfErr result IsPlayStop };
}

/// Moves that the generator of a seed draws, up to a number of them: half of them are turns, three of eight deliver one of the last 64
/// strings, and one of eight is a pulse.
#[derive(Drop)]
pub struct Drawn {
    generator: Lcg64Xsh32,
    left: u64,
}

impl Drawn {
    /// The first moves of this seed.
    pub fn new(seed: u64, moves: u64) -> Drawn
        ensures { ⟦<Drawn as MoveSource>⟧.gives result ≡ seed_moves seed moves }
    {
        Drawn {
            generator: generator_of(seed),
            left: moves,
        }
    }
}

/// Draws a move in a world.
fn next_drawn<A: Allocator + Copy>(generator: &mut Lcg64Xsh32, world: &World<A>) -> Move
    ensures { (result, generator.new) ≡ drawn world.now.config.nodes world.now.world.sent generator.old }
{
    // for the proof: what holds of a world at every moment
    world.keeps();
    draw(generator, world.nodes() as u8, world.sent())
}

impl MoveSource for Drawn {
    ghost use Rattle.ivy_play.specs.Given.{moves_of};

    ghost gives = { λ d. moves_of d.left d.generator };

    fn next<A: Allocator + Copy>(&mut self, world: &World<A>) -> Result<Option<Move>, Fault> {
        if self.left == 0 {
            return Ok(None);
        }
        self.left -= 1;
        Ok(Some(next_drawn(&mut self.generator, world)))
    }
}

/// The moves of a schedule, in order.
#[derive(Clone, Copy)]
pub struct Listed<'m> {
    moves: &'m [Move],
    made: usize,
}

impl<'m> Listed<'m> {
    /// These moves.
    pub fn new(moves: &'m [Move]) -> Listed<'m>
        ensures { ⟦<Listed<'m> as MoveSource>⟧.gives result ≡ always moves.now }
    {
        Listed { moves, made: 0 }
    }
}

impl MoveSource for Listed<'_> {
    ghost use Rattle.std.specs.Prelude.{drop};
    ghost use Rattle.ivy_play.specs.Given.{always};

    ghost gives = { λ l. always (drop l.made l.moves.now) };

    fn next<A: Allocator + Copy>(&mut self, _world: &World<A>) -> Result<Option<Move>, Fault> {
        let Some(step) = self.moves.get(self.made) else {
            return Ok(None);
        };
        self.made += 1;
        Ok(Some(*step))
    }
}
