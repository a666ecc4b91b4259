//! Worlds that run by a schedule, with a trace of each move.
ghost use Rattle.std.specs.Prelude.{◌≡◌, [], ◌∷◌, OnOk};
ghost use Rattle.ivy_model.specs.stated.Config.{IsConfig};
ghost use Rattle.proof_worlds.specs.stated.Reached.{IsLedTo};
ghost use Rattle.ivy_simulation.specs.Played.{Adds};

use crate::halt::Halt;
use crate::moves::make;
use ivy_model::{Config, Record};
use ivy_texts::{Decimal, MoveText, RecordText, kind_name};
use ivy_wire::{Bytes, read_frame};
use ivy_world::{Move, World};
use std::alloc::Allocator;
use std::io::{self, Write};

/// What the node was answered so far, or nothing where it is not there.
fn history_of<A: Allocator + Copy>(world: &World<A>, node: u64) -> &[Record] {
    if node < world.nodes() {
        world.history(node)
    } else {
        &[]
    }
}

/// The node whose event a move is.
fn node_of(step: Move) -> u64 {
    match step {
        Move::Turn(node) => node,
        Move::Deliver { to, .. } => to,
        Move::Pulse { from, .. } => from,
    }
}

/// Prints a line for each string from this one on.
fn trace_sent<A: Allocator + Copy, W: Write>(
    config: &Config,
    sent: &[Bytes<A>],
    from: usize,
    out: &mut W,
) -> Result<(), Halt>
    requires { IsConfig config.now }
    ensures { OnOk result (Adds (W.contents out.old) (W.contents out.new)) }
{
    for index in from..sent.len() {
        let frame = read_frame(config, sent[index].bytes())?;
        let name = kind_name(frame.kind());
        let source = Decimal(u64::from(frame.source));
        let dest = Decimal(u64::from(frame.dest));
        let number = Decimal(frame.number);
        writeln!(
            out,
            "  sent {} {name} {source} {dest} {number}",
            Decimal(index as u64)
        )?;
    }
    Ok(())
}

/// Prints a line for each record from this one on.
fn trace_records<W: Write>(history: &[Record], from: usize, out: &mut W) -> io::Result<()>
    ensures { OnOk result (Adds (W.contents out.old) (W.contents out.new)) }
{
    for place in from..history.len() {
        writeln!(out, "  {}", RecordText(history[place]))?;
    }
    Ok(())
}

/// Makes a move and prints what came of it.
fn trace_move<A: Allocator + Copy, W: Write>(
    config: &Config,
    world: &mut World<A>,
    step: Move,
    out: &mut W,
) -> Result<(), Halt>
    requires { IsConfig config.now }
    ensures made { OnOk result (IsLedTo world.old.config world.old.world (step ∷ []) world.new.world) }
    ensures config { world.new.config ≡ world.old.config }
    ensures printed { OnOk result (Adds (W.contents out.old) (W.contents out.new)) }
{
    let sent = world.sent().len();
    let records = history_of(world, node_of(step)).len();
    if let Err(fault) = make(world, step) {
        writeln!(out, "  refused {}", Decimal(u64::from(fault.number())))?;
        return Err(Halt::Refused(fault));
    }
    trace_sent(config, world.sent(), sent, out)?;
    trace_records(history_of(world, node_of(step)), records, out)?;
    Ok(())
}

/// Makes the moves of a schedule in order, up to the first that is refused. For each it prints a line
/// with its number from 1, and under it the strings that were sent and the reply that was recorded.
///
/// The refusal of a move, where one is; and where standard output took no more, nothing is printed
/// after that.
pub fn trace_moves<A: Allocator + Copy, W: Write>(
    config: &Config,
    world: &mut World<A>,
    moves: &[Move],
    out: &mut W,
) -> Result<(), Halt>
    requires { IsConfig config.now }
    ensures made { OnOk result (IsLedTo world.old.config world.old.world moves.now world.new.world) }
    ensures printed { OnOk result (Adds (W.contents out.old) (W.contents out.new)) }
{
    for (before, step) in moves.iter().enumerate() {
        writeln!(out, "{} {}", Decimal(before as u64 + 1), MoveText(*step))?;
        trace_move(config, world, *step, out)?;
    }
    Ok(())
}
