//! What each move of a run did.

use crate::played::Run;
use ivy_charts::{Happening, RunHead, RunLog};
use ivy_explain::ScopeFailure;
use ivy_model::{Act, CallKind, Record, Reply};
use ivy_moves::Move;
use ivy_program::parse;
use ivy_replay::{Play, Progress, ended_in, output_of};
use ivy_simulation::{Halt, step_opened};
use ivy_texts::{MoveText, Settings, kind_name};
use std::alloc::{AllocError, Global};
use std::io::{self, Write};

/// The greatest number that a reader of objects holds exactly.
const MOST_EXACT: u64 = (1 << 53) - 1;

/// Moves as a schedule.
fn schedule_of(alloc: Global, moves: &[Move]) -> Result<String, AllocError> {
    let mut text = String::new(alloc);
    for step in moves {
        let line = format!(in alloc; "{}\n", MoveText(*step))?;
        text.push_str(line.as_str())?;
    }
    Ok(text)
}

/// Prints what each move did, as `ivy step` does.
pub(crate) fn trace<W: Write, P: Progress>(
    run: &Run<'_>,
    out: &mut W,
    progress: &mut P,
) -> Result<(), ScopeFailure<'static>> {
    let (alloc, config, opening) = (run.text.alloc, run.text.config, run.text.opening);
    let schedule = schedule_of(alloc, &run.moves(progress)?)?;
    let settings = Settings {
        pages: u64::from(config.pages),
        page_size: u64::from(config.page_size),
        manager: config.manager,
    };
    let programs = parse(alloc, run.text.programs)?;
    match step_opened(alloc, opening, programs, schedule.as_str(), settings, out) {
        Ok(()) => Ok(()),
        Err(Halt::Refused(fault)) => Err(ScopeFailure::Refused(fault)),
        Err(Halt::Unwritten) => Err(ScopeFailure::Unwritten),
    }
}

/// Prints a field behind others: a number, in quotes where a reader may not hold it exactly.
fn print_number<W: Write>(name: &str, number: u64, out: &mut W) -> io::Result<()> {
    if number > MOST_EXACT {
        write!(out, ",\"{name}\":\"{number}\"")
    } else {
        write!(out, ",\"{name}\":{number}")
    }
}

/// Prints a field behind others: a word.
fn print_word<W: Write>(name: &str, word: &str, out: &mut W) -> io::Result<()> {
    write!(out, ",\"{name}\":\"{word}\"")
}

/// Prints a move.
fn print_move<W: Write>(number: usize, step: Move, out: &mut W) -> io::Result<()> {
    write!(out, "{{\"move\":{number}")?;
    match step {
        Move::Turn(node) => print_number("turn", node, out),
        Move::Deliver { index, to } => {
            print_number("deliver", index, out)?;
            print_number("to", to, out)
        }
        Move::Pulse { from, to } => {
            print_number("pulse", from, out)?;
            print_number("to", to, out)
        }
    }
}

/// Prints a string that was sent.
fn print_sent<W: Write>(string: usize, head: &RunHead, out: &mut W) -> io::Result<()> {
    write!(out, "{{\"string\":{string}")?;
    print_word("kind", kind_name(head.kind), out)?;
    print_number("from", u64::from(head.source), out)?;
    print_number("to", u64::from(head.dest), out)?;
    print_number("number", head.number, out)?;
    if let Some(page) = head.page() {
        print_number("page", u64::from(page), out)?;
    }
    out.write_all(b"}")
}

/// Prints the strings that a move sent.
fn print_strings<W: Write>(log: &RunLog, happening: &Happening, out: &mut W) -> io::Result<()> {
    out.write_all(b",\"sent\":[")?;
    let mut string = happening.sent_before;
    for head in log.sent_by(happening) {
        if string > happening.sent_before {
            out.write_all(b",")?;
        }
        print_sent(string, head, out)?;
        string = string.saturating_add(1);
    }
    out.write_all(b"]")
}

/// The name of an access.
fn act_name(act: Act) -> &'static str {
    match act {
        Act::Load => "load",
        Act::Store { .. } => "store",
        Act::Swap { .. } => "swap",
        Act::Cas { .. } => "cas",
        Act::FetchAdd { .. } => "fadd",
    }
}

/// Prints what an access puts into its word.
fn print_act<W: Write>(act: Act, out: &mut W) -> io::Result<()> {
    match act {
        Act::Load => Ok(()),
        Act::Store { value } | Act::Swap { value } | Act::FetchAdd { value } => {
            print_number("value", value, out)
        }
        Act::Cas { expected, value } => {
            print_number("expected", expected, out)?;
            print_number("value", value, out)
        }
    }
}

/// Prints a call on an eventcount or the heap, with its number.
fn print_other<W: Write>(name: &str, field: &str, number: u64, out: &mut W) -> io::Result<()> {
    print_word("call", name, out)?;
    print_number(field, number, out)
}

/// Prints a call.
fn print_call<W: Write>(kind: CallKind, out: &mut W) -> io::Result<()> {
    match kind {
        CallKind::Word { width, addr, act } => {
            print_word("call", act_name(act), out)?;
            print_number("width", u64::from(width), out)?;
            print_number("addr", addr, out)?;
            print_act(act, out)
        }
        CallKind::Count { k } => print_other("count", "count", k, out),
        CallKind::Advance { k } => print_other("advance", "count", k, out),
        CallKind::Await { k, least } => {
            print_other("await", "count", k, out)?;
            print_number("least", least, out)
        }
        CallKind::Alloc { size } => print_other("alloc", "size", size, out),
        CallKind::Free { addr } => print_other("free", "addr", addr, out),
    }
}

/// Prints a reply.
fn print_reply<W: Write>(reply: Reply, out: &mut W) -> io::Result<()> {
    match reply {
        Reply::Value(value) => print_number("reply", value, out),
        Reply::Done => print_word("reply", "done", out),
        Reply::Refused(code) => print_number("refused", u64::from(code), out),
    }
}

/// Prints what a node was answered.
fn print_record<W: Write>(record: &Record, out: &mut W) -> io::Result<()> {
    write!(out, ",\"record\":{{\"node\":{}", record.node)?;
    print_call(record.call.kind(), out)?;
    print_reply(record.reply, out)?;
    out.write_all(b"}")
}

/// Prints what the last move did.
fn print_happening<W: Write>(log: &RunLog, out: &mut W) -> io::Result<()> {
    if let Some(happening) = log.happenings.last() {
        print_strings(log, happening, out)?;
        if let Some(record) = &happening.record {
            print_record(record, out)?;
        }
    }
    out.write_all(b"}\n")
}

/// Makes a move, and prints it and what it did.
fn trace_move<W: Write>(
    play: &mut Play,
    number: usize,
    step: Move,
    out: &mut W,
) -> Result<(), ScopeFailure<'static>> {
    print_move(number, step, out)?;
    if let Err(fault) = play.make(step) {
        print_number("refused", u64::from(fault.number()), out)?;
        out.write_all(b"}\n")?;
        return Err(ScopeFailure::Refused(fault));
    }
    print_happening(play.log(), out)?;
    Ok(())
}

/// Prints the values that a node printed, each as a number or in quotes.
fn print_values<W: Write>(values: &[u64], out: &mut W) -> io::Result<()> {
    for place in 0..values.len() {
        let value = values[place];
        let comma = if place == 0 { "" } else { "," };
        if value > MOST_EXACT {
            write!(out, "{comma}\"{value}\"")?;
        } else {
            write!(out, "{comma}{value}")?;
        }
    }
    Ok(())
}

/// Prints what each node came to.
fn print_nodes<W: Write>(play: &Play, out: &mut W) -> io::Result<()> {
    let world = play.world();
    for node in 0..world.nodes() {
        write!(out, "{{\"node\":{node},\"prints\":[")?;
        print_values(output_of(world, node), out)?;
        writeln!(out, "],\"ended\":{}}}", ended_in(world, node))?;
    }
    Ok(())
}

/// Makes moves, and prints each and what it did; and then what each node came to.
fn trace_all<W: Write>(
    play: &mut Play,
    moves: &[Move],
    out: &mut W,
) -> Result<(), ScopeFailure<'static>> {
    for (before, step) in moves.iter().enumerate() {
        trace_move(play, before.saturating_add(1), *step, out)?;
    }
    print_nodes(play, out)?;
    Ok(())
}

/// Prints what each move did, one object a line.
pub(crate) fn trace_objects<W: Write, P: Progress>(
    run: &Run<'_>,
    out: &mut W,
    progress: &mut P,
) -> Result<(), ScopeFailure<'static>> {
    let moves = run.moves(progress)?;
    let mut play = Play::new(&run.text)?;
    trace_all(&mut play, &moves, out)
}
