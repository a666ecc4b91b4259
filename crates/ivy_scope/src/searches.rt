//! What a search through all orders of moves found.
ghost use Rattle.std.specs.Prelude.{IfOk};
ghost use Rattle.ivy_scope.specs.Statuses.{IsStatus};

use crate::goals::goals_of;
use crate::played::{print_moves, text_of};
use ivy_explain::{FAILED, STANDSTILL, ScopeFailure, ScopeRequest, UNFINISHED};
use ivy_moves::Move;
use ivy_replay::{Found, Limit, Progress, search};
use std::alloc::Global;
use std::io::{self, Write};

/// Prints what a node printed, after so many other values. It says how many values were printed then.
fn print_values<W: Write>(
    node: usize,
    values: &[u64],
    before: u64,
    out: &mut W,
) -> io::Result<u64> {
    let mut count = before;
    for value in values {
        let comma = if count == 0 { "" } else { "," };
        write!(out, "{comma} node {node}: {value}")?;
        count = count.saturating_add(1);
    }
    Ok(count)
}

/// Prints what nodes printed at an end, all in one line.
fn print_outputs<W: Write>(outputs: &[Vec<u64>], out: &mut W) -> io::Result<()> {
    let mut count = 0u64;
    out.write_all(b"outputs:")?;
    for node in 0..outputs.len() {
        count = print_values(node, &outputs[node], count, out)?;
    }
    let end = if count == 0 { " none\n" } else { "\n" };
    out.write_all(end.as_bytes())
}

/// Prints a schedule under what it leads to, so that each other line is a comment.
fn print_way<W: Write>(title: &str, way: &[Move], out: &mut W) -> io::Result<()> {
    let count = way.len();
    writeln!(out, "# {title}, by {count} moves:")?;
    print_moves(way, out)
}

/// Prints how many states there are, and which outputs occur.
fn print_found<W: Write>(found: &Found, out: &mut W) -> io::Result<()> {
    let (states, ends) = (found.states, found.ends);
    let more = if found.is_whole { "" } else { " and more" };
    writeln!(out, "{states} states{more}, and {ends} of them are ends")?;
    for outputs in &found.outputs {
        print_outputs(outputs, out)?;
    }
    match &found.waiting {
        Some(way) => print_way("an end at which a node waits", way, out),
        None => out.write_all(said_of_ends(found).as_bytes()),
    }
}

/// What is known of ends where no node waits at one that was reached.
fn said_of_ends(found: &Found) -> &'static str {
    match (found.ends, found.is_whole) {
        (0, true) => "no order of moves leads to an end: some program goes on for ever\n",
        (0, false) => "no end was reached, so nothing is known of ends\n",
        (_, true) => "at each of these ends all programs have ended\n",
        (_, false) => "at each end that was reached all programs have ended\n",
    }
}

/// Prints the schedule that leads to what is looked for. It says whether there is one.
fn print_reached<W: Write>(found: &Found, out: &mut W) -> io::Result<bool> {
    let Some(way) = &found.reached else {
        print_missed(found, out)?;
        return Ok(false);
    };
    print_way("what was looked for", way, out)?;
    Ok(true)
}

/// Prints that no schedule was found.
fn print_missed<W: Write>(found: &Found, out: &mut W) -> io::Result<()> {
    if found.is_whole {
        return out.write_all(b"# no order of moves leads there\n");
    }
    writeln!(
        out,
        "# none of {} states is that; there are more",
        found.states
    )
}

/// What a search finds.
fn found_in<'a, P: Progress>(
    alloc: Global,
    request: &ScopeRequest<'a>,
    progress: &mut P,
) -> Result<Found, ScopeFailure<'a>> {
    let goals = goals_of(alloc, request.until())?;
    let limit = Limit {
        states: request.states(),
        goals: &goals,
    };
    Ok(search(&text_of(alloc, request)?, limit, progress)?)
}

/// The exit status of a search through all states: whether a node waits at an end, and if not, whether it was whole.
fn status_of(found: &Found) -> u8
    ensures { IsStatus result }
{
    if found.waiting.is_some() {
        STANDSTILL
    } else if found.is_whole {
        0
    } else {
        UNFINISHED
    }
}

/// The exit status of a search for something, which was found or not.
fn status_by(found: &Found, is_found: bool) -> u8
    ensures { IsStatus result }
{
    if is_found {
        0
    } else if found.is_whole {
        FAILED
    } else {
        UNFINISHED
    }
}

/// Goes through all orders of turns and deliveries, and prints what is found. It gives the exit status: whether that is
/// what was looked for, if anything was; else whether a node waits at an end; and whether the search was whole.
pub(crate) fn look<'a, W: Write, P: Progress>(
    alloc: Global,
    request: &ScopeRequest<'a>,
    out: &mut W,
    progress: &mut P,
) -> Result<u8, ScopeFailure<'a>>
    ensures { IfOk result IsStatus }
{
    let found = found_in(alloc, request, progress)?;
    if request.until().is_none() {
        print_found(&found, out)?;
        return Ok(status_of(&found));
    }
    let is_found = print_reached(&found, out)?;
    Ok(status_by(&found, is_found))
}
