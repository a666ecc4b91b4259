//! That a play goes on until its world stands still and each work that waits has a call in progress, or its moves run out.
ghost use Rattle.std.specs.Prelude.{◌≡◌, ◌-◌, ◌+◌, ◌≤◌, ◌<◌, ◌↔◌, false, length, max, take, IfErr, IfOk, IsTrue, OnOk};
ghost use Rattle.ivy_model.specs.declared.Config.{Config};
ghost use Rattle.ivy_play.specs.Faults.{IsPlayStop};
ghost use Rattle.ivy_play.specs.Played.{HasDrawn, IsStillWhere, LeadsOn};
ghost use Rattle.ivy_play.specs.Endings.{AreWaiting, ComesToRest, HaveSameCores, IsWaiting};

use crate::report::Outcome;
use crate::stage::{Played, play_move};
use ivy_model::Fault;
use ivy_world::{Move, Rest, World};
use std::alloc::Allocator;

/// Whether a work waits that has no call in progress.
fn is_open<T, A: Allocator + Copy>(world: &World<A>, node: u64, outcome: &Outcome<T>) -> bool
    requires { node < world.now.config.nodes }
    ensures { result ≡ false → IsWaiting world.now.world node outcome.now }
{
    match outcome {
        Outcome::Waits => world.asked(node).is_none(),
        Outcome::Gave(_) | Outcome::GaveUp(_) => false,
    }
}

/// Whether each work that waits has a call in progress.
fn are_waiting<T, A: Allocator + Copy>(world: &World<A>, outcomes: &[Outcome<T>]) -> bool
    requires { length outcomes.now ≡ world.now.config.nodes }
    ensures { IsTrue result → AreWaiting world.now.world outcomes.now }
{
    for node in 0..outcomes.len() {
        if is_open(world, node as u64, &outcomes[node]) {
            return false;
        }
    }
    true
}

/// Whether the world stands still, and each work that waits has a call in progress.
fn is_at_rest<T, A: Allocator + Copy>(world: &World<A>, outcomes: &[Outcome<T>], rest: Rest) -> bool
    requires { length outcomes.now ≡ world.now.config.nodes }
    ensures { IsTrue result → (rest ≡ Rest.Still) × AreWaiting world.now.world outcomes.now }
{
    match rest {
        Rest::Still => are_waiting(world, outcomes),
        Rest::Going => false,
    }
}

/// Makes pulses until so many moves were made after the drawn ones [1, 17].
fn spend<A: Allocator + Copy>(
    world: &mut World<A>,
    moves: &mut Vec<Move, A>,
    drawn: usize,
    most: u64,
) -> Result<(), Fault>
    requires { drawn ≤ length moves.old.items }
    ensures played { LeadsOn moves.old.items world.old moves.new.items world.new }
    ensures cores { HaveSameCores world.old.world world.new.world }
    ensures config { world.new.config ≡ world.old.config }
    ensures spent { IfOk result (λ _. most ≤ length moves.new.items - drawn) }
    ensures few { length moves.new.items ≤ max (length moves.old.items) (drawn + most) }
    ensures first { take drawn moves.new.items ≡ take drawn moves.old.items }
    ensures longer { length moves.old.items ≤ length moves.new.items }
    ensures stop { IfErr result IsPlayStop }
{
    let made = (moves.len() - drawn) as u64;
    for _ in made..most {
        play_move(world, moves, Move::Pulse { from: 0, to: 1 })?;
    }
    Ok(())
}

/// The play that came to these outcomes, once its moves have run out, or its world stands still and each work that waits has
/// a call in progress [1, 17].
pub(crate) fn rested<T, A: Allocator + Copy>(
    played: Played<A>,
    outcomes: &[Outcome<T>],
    settle: u64,
) -> Result<Played<A>, Fault>
    requires count { length outcomes.now ≡ played.world.config.nodes }
    requires within { played.drawn ≤ length played.moves.items }
    ensures played { IfOk result (λ p. LeadsOn played.moves.items played.world p.moves.items p.world) }
    ensures still { IsStillWhere played.rest played.world → IfOk result (λ p. IsStillWhere p.rest p.world) }
    ensures cores { IfOk result (λ p. HaveSameCores played.world.world p.world.world) }
    ensures config { IfOk result (λ p. p.world.config ≡ played.world.config) }
    ensures drawn { (c : Config) → HasDrawn c settle played.moves.items played.drawn → IfOk result (λ p. HasDrawn c settle p.moves.items p.drawn) }
    ensures first { IfOk result (λ p. take p.drawn p.moves.items ≡ take played.drawn played.moves.items) }
    ensures rests { IfOk result (λ p. ComesToRest p.world.config settle p.moves.items p.drawn p.world.world outcomes.now p.rest) }
    ensures stop { IfErr result IsPlayStop }
{
    let Played {
        world,
        moves,
        drawn,
        rest,
    } = played;
    let left = settle.saturating_sub((moves.len() - drawn) as u64);
    if left < world.nodes() {
        return Ok(Played {
            world,
            moves,
            drawn,
            rest,
        });
    }
    if is_at_rest(&world, outcomes, rest) {
        return Ok(Played {
            world,
            moves,
            drawn,
            rest,
        });
    }
    // No thread is known to have run. Where a work made no call though moves were left, pulses use these up.
    let (mut world, mut moves) = (world, moves);
    spend(&mut world, &mut moves, drawn, settle)?;
    Ok(Played {
        world,
        moves,
        drawn,
        rest: Rest::Going,
    })
}
