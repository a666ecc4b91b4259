//! Whether an order of records explains what the nodes of a world were answered.
ghost use Rattle.std.specs.Prelude.{◌≡◌, ◌<◌, ◌≤◌, length, take, IsTrue, IfOk};
ghost use Rattle.ivy_model.specs.stated.Config.{IsConfig};
ghost use Rattle.ivy_model.specs.stated.Explains.{part, IsExplained};
ghost use Rattle.ivy_replay.specs.Orders.{IsAskedAlone, IsOwedAlone, IsPartAlone, HavePartsBelow, answers_of};

use ivy_model::{Call, Config, Fault, Record, check_order};
use ivy_world::World;
use std::alloc::{AllocError, Global};

/// A node's part of an order.
fn part_of(alloc: Global, order: &[Record], node: u64) -> Result<Vec<Record>, AllocError>
    ensures { IfOk result (λ mine. mine.items ≡ part node order.now) }
{
    order
        .iter()
        .copied()
        .filter(|record| u64::from(record.node) == node)
        .collect(alloc)
}

/// Whether these records, past a history, are none, or one of the call that is the only one in progress.
fn is_owed(asked: Option<Call>, rest: &[Record]) -> bool
    ensures { IsTrue result → IsOwedAlone asked rest.now }
{
    match *rest {
        [] => true,
        [record] => asked == Some(record.call),
        _ => false,
    }
}

fn is_same(one: Record, other: Record) -> bool
    ensures node { IsTrue result → one.node ≡ other.node }
    ensures call { IsTrue result → one.call ≡ other.call }
    ensures reply { IsTrue result → one.reply ≡ other.reply }
{
    one.node == other.node && one.call == other.call && one.reply == other.reply
}

/// Whether records begin with these.
fn begins_with(mine: &[Record], history: &[Record]) -> bool
    requires { length history.now ≤ length mine.now }
    ensures { IsTrue result → take (length history.now) mine.now ≡ history.now }
{
    for place in 0..history.len() {
        if !is_same(mine[place], history[place]) {
            return false;
        }
    }
    true
}

/// Whether a node's part of an order is its history, and perhaps a record of the call in progress.
fn is_part(mine: &[Record], history: &[Record], asked: Option<Call>) -> bool
    ensures { IsTrue result → IsPartAlone mine.now history.now asked }
{
    if mine.len() < history.len() || !begins_with(mine, history) {
        return false;
    }
    is_owed(asked, &mine[history.len()..])
}

/// The call that a node has in progress, where none was made along with it.
fn asked_alone(world: &World<Global>, node: u64) -> Option<Call>
    requires { node < world.now.config.nodes }
    ensures { IsAskedAlone world.now.world node result }
{
    if world.is_alone(node) {
        world.asked(node)
    } else {
        None
    }
}

/// Whether the order's part of each node is what the node was answered. Where a node has several calls in progress, which
/// were made together, no record of them is told, so the order may have none.
fn has_parts(alloc: Global, world: &World<Global>, order: &[Record]) -> Result<bool, AllocError>
    ensures { IfOk result (λ yes. IsTrue yes → HavePartsBelow world.now.config.nodes world.now.world order.now) }
{
    for node in 0..world.nodes() {
        let mine = part_of(alloc, order, node)?;
        if !is_part(&mine, world.history(node), asked_alone(world, node)) {
            return Ok(false);
        }
    }
    Ok(true)
}

/// Whether the order is legal, and explains what the nodes of the world were answered: each node's part of it is the
/// node's history, followed at most by one record, of the one call that the node has in progress [1].
pub fn explains(
    alloc: Global,
    config: &Config,
    world: &World<Global>,
    order: &[Record],
) -> Result<bool, Fault>
    requires limits { IsConfig config.now }
    ensures { IfOk result (λ yes. IsTrue yes → IsExplained config.now order.now (answers_of world.now.world)) }
{
    if !check_order(alloc, config, order)? {
        return Ok(false);
    }
    // for the proof: what holds of a world at every moment
    world.keeps();
    Ok(has_parts(alloc, world, order)?)
}
