//! What each node comes to.
ghost use Rattle.std.specs.Prelude.{IfOk};
ghost use Rattle.ivy_scope.specs.Statuses.{IsStatus};

use crate::played::text_of;
use ivy_explain::{Listing, NodeState, STANDSTILL, ScopeFailure, ScopeRequest, print_standing};
use ivy_model::Fault;
use ivy_program::parse;
use ivy_replay::{Progress, call_in_progress, drawn_moves, ended_in, history_of, output_of};
use ivy_texts::print_output;
use ivy_world::{Rest, World};
use std::alloc::{AllocError, Global};
use std::io::{self, Write};

/// How many moves the world may take to a standstill.
const MOST_MOVES: u64 = 1_000_000;

/// The world after drawn moves, played on to a standstill.
fn played_on<P: Progress>(
    alloc: Global,
    request: &ScopeRequest<'_>,
    progress: &mut P,
) -> Result<(World<Global>, Rest), Fault> {
    let text = text_of(alloc, request)?;
    let (seed, count) = request.drawn();
    let moves = drawn_moves(&text, seed, count, progress)?;
    let mut world = text.world()?;
    if let Err((_place, fault)) = world.run(&moves) {
        return Err(fault);
    }
    match world.settle(MOST_MOVES) {
        Ok(rest) => Ok((world, rest)),
        Err((_made, fault)) => Err(fault),
    }
}

/// What each node of a world came to.
fn standings_of(alloc: Global, world: &World<Global>) -> Result<Vec<NodeState<'_>>, AllocError> {
    let mut nodes = Vec::new(alloc);
    for node in 0..world.nodes() {
        nodes.push(NodeState {
            history: history_of(world, node),
            asked: call_in_progress(world, node),
            has_ended: ended_in(world, node),
        })?;
    }
    Ok(nodes)
}

/// Prints what each node printed and what it came to.
fn print_nodes<W: Write>(
    listing: &Listing,
    nodes: &[NodeState<'_>],
    world: &World<Global>,
    out: &mut W,
) -> io::Result<()> {
    for node in 0..world.nodes() {
        print_output(node, output_of(world, node), out)?;
        print_standing(listing, nodes, node, out)?;
    }
    Ok(())
}

/// Prints what each node of the programs of a request printed and what it came to.
fn print_standings<W: Write>(
    alloc: Global,
    request: &ScopeRequest<'_>,
    world: &World<Global>,
    out: &mut W,
) -> Result<(), ScopeFailure<'static>> {
    let listing = Listing::of(alloc, request.programs())?;
    let nodes = standings_of(alloc, world)?;
    Ok(print_nodes(&listing, &nodes, world, out)?)
}

/// Whether all programs have ended.
fn have_ended(world: &World<Global>) -> bool {
    for node in 0..world.nodes() {
        if !ended_in(world, node) {
            return false;
        }
    }
    true
}

/// Prints what a world came to. It gives the exit status: whether it stands still while a program has not ended.
fn print_world<W: Write>(
    alloc: Global,
    request: &ScopeRequest<'_>,
    world: &World<Global>,
    rest: Rest,
    out: &mut W,
) -> Result<u8, ScopeFailure<'static>>
    ensures { IfOk result IsStatus }
{
    print_standings(alloc, request, world, out)?;
    if rest == Rest::Going {
        writeln!(out, "it was still going after {MOST_MOVES} moves")?;
    }
    let waits = rest == Rest::Still && !have_ended(world);
    Ok(if waits { STANDSTILL } else { 0 })
}

/// Plays drawn moves and then on to a standstill, and prints what each node came to. It gives the exit status: whether
/// the world stands still while a program has not ended.
pub(crate) fn settle<W: Write, P: Progress>(
    alloc: Global,
    request: &ScopeRequest<'_>,
    out: &mut W,
    progress: &mut P,
) -> Result<u8, ScopeFailure<'static>>
    ensures { IfOk result IsStatus }
{
    let (world, rest) = played_on(alloc, request, progress)?;
    print_world(alloc, request, &world, rest, out)
}
