//! Moves that go on meaning the same strings where others are dropped.
ghost use Rattle.std.specs.Prelude.{IfErr};
ghost use Rattle.ivy_play.specs.Faults.{IsPlayStop};

use crate::{Move, MoveSource, PlayReport, World};
use ivy_charts::RunHead;
use ivy_model::{Config, Fault};
use ivy_replay::Named;
use std::alloc::Allocator;

/// Reads the heads of the strings that were sent since [1, 19].
fn read_heads<A: Allocator, B: Allocator + Copy>(
    config: &Config,
    world: &World<B>,
    heads: &mut Vec<RunHead, A>,
) -> Result<(), Fault>
    ensures { IfErr result IsPlayStop }
{
    let sent = world.sent();
    for index in heads.len()..sent.len() {
        match RunHead::read(config, sent[index].bytes()) {
            Ok(head) => heads.push(head)?,
            Err(_) => return Err(Fault::NoSuchFrame),
        }
    }
    Ok(())
}

/// Moves that name their strings by source, destination and number. Those that name a string that was not sent are left
/// out.
#[derive(Drop)]
pub(crate) struct Renamed<'n, A: Allocator> {
    config: Config,
    named: &'n [Named],
    made: usize,
    heads: Vec<RunHead, A>,
}

impl<'n, A: Allocator> Renamed<'n, A> {
    /// These moves.
    pub(crate) fn new(alloc: A, config: Config, named: &'n [Named]) -> Self {
        Renamed {
            config,
            named,
            made: 0,
            heads: Vec::new(alloc),
        }
    }
}

impl<A: Allocator> MoveSource for Renamed<'_, A> {
    ghost use Rattle.std.specs.Prelude.{[]};

    ghost gives = { λ _. [] };

    fn next<B: Allocator + Copy>(&mut self, world: &World<B>) -> Result<Option<Move>, Fault> {
        read_heads(&self.config, world, &mut self.heads)?;
        let named = self.named;
        for place in self.made..named.len() {
            self.made = place + 1;
            if let Some(step) = named[place].step(&self.heads) {
                return Ok(Some(step));
            }
        }
        Ok(None)
    }
}

/// The name of a move, where these strings were sent.
fn name_of(step: Move, heads: &[RunHead]) -> Named {
    let Move::Deliver { index, to } = step else {
        return Named::Plain(step);
    };
    match heads.get(index as usize) {
        None => Named::Plain(step),
        Some(head) => Named::Deliver {
            source: head.source,
            dest: head.dest,
            number: head.number,
            to,
        },
    }
}

/// The names of the drawn moves of a play [1, 19].
pub(crate) fn names_of<T: Drop, A: Allocator + Copy>(
    alloc: A,
    config: &Config,
    report: &PlayReport<T, A>,
) -> Result<Vec<Named, A>, Fault>
    ensures { IfErr result IsPlayStop }
{
    let mut heads = Vec::new(alloc);
    read_heads(config, &report.world, &mut heads)?;
    let mut named = Vec::new(alloc);
    for step in report.moves.iter().take(report.drawn) {
        named.push(name_of(*step, &heads))?;
    }
    Ok(named)
}

/// Whether the move is a turn of the node.
fn is_turn_of(named: Named, node: u64) -> bool {
    match named {
        Named::Plain(step) => step == Move::Turn(node),
        Named::Deliver { .. } => false,
    }
}

/// How many turns of one node follow one another from a place on.
pub(crate) fn turns_at(named: &[Named], from: usize) -> usize {
    let Some(Named::Plain(Move::Turn(node))) = named.get(from).copied() else {
        return 0;
    };
    for place in from..named.len() {
        if !is_turn_of(named[place], node) {
            return place - from;
        }
    }
    named.len().saturating_sub(from)
}

/// The moves without so many from a place on.
pub(crate) fn without<A: Allocator + Copy>(
    alloc: A,
    named: &[Named],
    from: usize,
    count: usize,
) -> Result<Vec<Named, A>, Fault>
    ensures { IfErr result IsPlayStop }
{
    let mut rest = Vec::new(alloc);
    for (place, one) in named.iter().enumerate() {
        if place < from || place - from >= count {
            rest.push(*one)?;
        }
    }
    Ok(rest)
}
