//! Schedules: the moves of a world, one a line.
ghost use Rattle.std.specs.Prelude.{IfOk, IfErr, IfSome, map};
ghost use Rattle.ivy_program.specs.texts.Texts.{IsRefusal};
ghost use Rattle.ivy_moves.specs.declared.Move.{Move};
ghost use Rattle.ivy_texts.specs.Spelled.{SpellsMove, SpellsSchedule};

use ivy_model::Fault;
use ivy_moves::Move;
use ivy_program::{few_words, parse_number};
use std::alloc::Allocator;

/// The most words that a line of a schedule can have.
const MOST_WORDS: usize = 3;

/// The move of a line, where its words are one.
fn parse_move(words: &[&str]) -> Option<Move>
    ensures { IfSome result (SpellsMove (map (λ w. w.now) words.now)) }
{
    match *words {
        ["turn", node] => Some(Move::Turn(parse_number(node)?)),
        ["deliver", index, to] => Some(Move::Deliver {
            index: parse_number(index)?,
            to: parse_number(to)?,
        }),
        ["pulse", from, to] => Some(Move::Pulse {
            from: parse_number(from)?,
            to: parse_number(to)?,
        }),
        _ => None,
    }
}

/// The moves of a text, in order: lines `turn I`, `deliver K I` and `pulse I J`.
///
/// 1 where a growth was refused, and 20 with the first line that is none of these, counted from 1.
pub fn parse_schedule<A: Allocator + Copy>(alloc: A, text: &str) -> Result<Vec<Move, A>, Fault>
    ensures moves { IfOk result (λ moves. SpellsSchedule text.now moves.items) }
    ensures refused { IfErr result IsRefusal }
{
    let mut moves = Vec::new(alloc);
    for (before, line) in text.lines().enumerate() {
        let fault = Fault::ProgramFault(before as u64 + 1);
        let mut places = [""; MOST_WORDS];
        let Some(count) = few_words(line, &mut places) else {
            return Err(fault);
        };
        let words = &places[..count];
        if words.is_empty() {
            continue;
        }
        let Some(step) = parse_move(words) else {
            return Err(fault);
        };
        moves.push(step)?;
    }
    Ok(moves)
}
