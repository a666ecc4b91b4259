//! The order of records that explains a run.
ghost use Rattle.std.specs.Prelude.{◌≡◌, IfOk, IfSome};
ghost use Rattle.ivy_replay.specs.Orders.{IsPlayed, IsOrderOf};

use crate::explanation::explains;
use crate::play::seen;
use crate::progress::Progress;
use crate::text::Text;
use crate::world::history_of;
use ivy_charts::{Moment, moments_of};
use ivy_model::{Fault, Record};
use ivy_moves::Move;
use ivy_world::World;
use std::alloc::Global;

/// How many moves an answer that is under way needs at most, beside a delivery of each string.
const MORE_MOVES: u64 = 1_000;

/// The world to which the moves lead [1, 2, 17, 19, 20].
fn played(text: &Text<'_>, moves: &[Move]) -> Result<World<Global>, Fault>
    ensures { IfOk result (λ world. IsPlayed text.now.config text.now.opening text.now.programs.now moves.now world.world) }
{
    let mut world = text.world()?;
    match world.run(moves) {
        Ok(()) => Ok(world),
        Err((_place, fault)) => Err(fault),
    }
}

/// The world to which the moves lead, and then some more, so that each call that was carried out is answered.
fn answered(text: &Text<'_>, moves: &[Move]) -> Result<World<Global>, Fault> {
    let mut world = played(text, moves)?;
    let most = (world.sent().len() as u64).saturating_add(MORE_MOVES);
    match world.settle(most) {
        Err((_made, Fault::Memory)) => Err(Fault::Memory),
        _ => Ok(world),
    }
}

/// The records of these calls, in their order.
fn records_of(
    text: &Text<'_>,
    world: &World<Global>,
    moments: &[Moment],
) -> Result<Vec<Record>, Fault> {
    let mut records = Vec::new(text.alloc);
    for moment in moments {
        let place = moment.number.saturating_sub(1) as usize;
        if let Some(record) = history_of(world, moment.node).get(place) {
            records.push(*record)?;
        }
    }
    Ok(records)
}

/// The records of these calls, each of which is answered.
fn answered_records(
    text: &Text<'_>,
    moves: &[Move],
    moments: &[Moment],
) -> Result<Vec<Record>, Fault> {
    let later = answered(text, moves)?;
    records_of(text, &later, moments)
}

/// The calls of a run, in the order in which they were carried out.
fn moments_in<P: Progress>(
    text: &Text<'_>,
    moves: &[Move],
    progress: &mut P,
) -> Result<Vec<Moment>, Fault> {
    let play = seen(text, moves, progress)?;
    Ok(moments_of(text.alloc, play.log())?)
}

/// The records of a run, in the order in which their calls were carried out.
fn candidate<P: Progress>(
    text: &Text<'_>,
    moves: &[Move],
    progress: &mut P,
) -> Result<Vec<Record>, Fault> {
    let moments = moments_in(text, moves, progress)?;
    answered_records(text, moves, &moments)
}

/// The order of records that explains the run of a text by these moves: it is legal, and each node's part of it is what
/// the node was answered, followed at most by one record, of the call that it has in progress [1, 2, 17, 19, 20].
///
/// The records stand in the order in which their calls were carried out. None is given where that list did not pass the
/// test, which was not seen yet.
pub fn order_of<P: Progress>(
    text: &Text<'_>,
    moves: &[Move],
    progress: &mut P,
) -> Result<Option<Vec<Record>>, Fault>
    ensures { IfOk result (λ found. IfSome found (λ order. IsOrderOf text.now.config text.now.opening text.now.programs.now moves.now order.items)) }
{
    let order = candidate(text, moves, progress)?;
    let world = played(text, moves)?;
    text.config.check()?;
    if explains(text.alloc, &text.config, &world, &order)? {
        Ok(Some(order))
    } else {
        Ok(None)
    }
}
