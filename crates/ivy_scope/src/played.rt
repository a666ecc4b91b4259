//! The moves of a run, and what is printed of a schedule and an order.
ghost use Rattle.std.specs.Prelude.{IfOk, IfSome, OnOk, flat_map};
ghost use Rattle.std.specs.Io.KnownBytes.{Appends};
ghost use Rattle.ivy_texts.specs.Spelled.{SpellsSchedule};
ghost use Rattle.ivy_scope.specs.PrintedOrder.{record_line, sizes_line, order_text, IsOrderBy, PrintsOrder};

use ivy_explain::{ScopeFailure, ScopeRequest};
use ivy_model::{Config, Fault, Kind, Record};
use ivy_moves::Move;
use ivy_program::parse;
use ivy_replay::{Progress, Shorter, Text, drawn_moves, order_of, shortened};
use ivy_site::Opening;
use ivy_texts::{Decimal, MoveText, RecordText, parse_schedule};
use std::alloc::Global;
use std::io::{self, Write};

/// A run: its programs, and where its moves come from.
#[derive(Clone, Copy)]
pub(crate) struct Run<'a> {
    pub(crate) text: Text<'a>,
    /// The text of the schedule, where there is one.
    schedule: Option<&'a str>,
    /// The seed and the number of drawn moves, where there is no schedule.
    drawn: (u64, u64),
}

/// How nodes begin, as a request asks for it.
pub(crate) fn opening_of(request: &ScopeRequest<'_>) -> Opening {
    if request.is_steady() {
        Opening::Steady
    } else {
        Opening::Configured
    }
}

/// The programs of a request, and the configuration that it asks for.
pub(crate) fn text_of<'a>(alloc: Global, request: &'a ScopeRequest<'_>) -> Result<Text<'a>, Fault> {
    let programs = request.programs();
    let nodes = parse(alloc, programs)?.len();
    Ok(Text {
        alloc,
        config: request.settings().config(nodes)?,
        opening: opening_of(request),
        programs,
    })
}

impl<'a> Run<'a> {
    /// The run that a request asks for.
    pub(crate) fn of(alloc: Global, request: &'a ScopeRequest<'_>) -> Result<Run<'a>, Fault> {
        Ok(Run {
            text: text_of(alloc, request)?,
            schedule: request.schedule(),
            drawn: request.drawn(),
        })
    }

    /// The same under a manager that a configuration names.
    pub(crate) fn under(&self, manager: Kind) -> Run<'a> {
        Run {
            text: Text {
                config: Config {
                    manager,
                    ..self.text.config
                },
                opening: Opening::Configured,
                ..self.text
            },
            ..*self
        }
    }

    /// The moves: those that the schedule says, where there is one.
    pub(crate) fn moves<P: Progress>(&self, progress: &mut P) -> Result<Vec<Move>, Fault>
        ensures { IfOk result (λ moves. IfSome self.now.schedule (λ text. SpellsSchedule text.now moves.items)) }
    {
        let (seed, count) = self.drawn;
        match self.schedule {
            Some(schedule) => parse_schedule(self.text.alloc, schedule),
            None => drawn_moves(&self.text, seed, count, progress),
        }
    }
}

/// Prints moves, one a line.
pub(crate) fn print_moves<W: Write>(moves: &[Move], out: &mut W) -> io::Result<()> {
    for step in moves {
        writeln!(out, "{}", MoveText(*step))?;
    }
    Ok(())
}

/// Prints the moves of a run.
pub(crate) fn schedule<W: Write, P: Progress>(
    run: &Run<'_>,
    out: &mut W,
    progress: &mut P,
) -> Result<(), ScopeFailure<'static>> {
    let moves = run.moves(progress)?;
    print_moves(&moves, out)?;
    Ok(())
}

/// Tells how far the dropping of moves came.
fn tell<E: Write>(shorter: &Shorter, before: usize, err: &mut E) -> io::Result<()> {
    let (after, runs) = (shorter.moves.len(), shorter.runs);
    let end = if shorter.is_least {
        "none of them can be left out alone"
    } else {
        "the runs that are allowed were used up"
    };
    writeln!(
        err,
        "ivyscope: {after} of {before} moves, by {runs} runs; {end}"
    )
}

/// The moves of a run that are needed for what is printed. It tells how far it came.
fn needed<E: Write, P: Progress>(
    run: &Run<'_>,
    err: &mut E,
    progress: &mut P,
) -> Result<Shorter, Fault> {
    let moves = run.moves(progress)?;
    let shorter = shortened(&run.text, &moves, progress)?;
    // What is told is no part of the schedule.
    let _ = tell(&shorter, moves.len(), err);
    Ok(shorter)
}

/// Prints the moves of a run that are needed for what is printed, and tells how far it came.
pub(crate) fn shortest<W: Write, E: Write, P: Progress>(
    run: &Run<'_>,
    out: &mut W,
    err: &mut E,
    progress: &mut P,
) -> Result<(), ScopeFailure<'static>> {
    let shorter = needed(run, err, progress)?;
    print_moves(&shorter.moves, out)?;
    Ok(())
}

/// Prints records, one a line.
pub(crate) fn print_records<W: Write>(records: &[Record], out: &mut W) -> io::Result<()>
    ensures { OnOk result (Appends (W.contents out.old) (W.contents out.new) (flat_map record_line records.now)) }
{
    for record in records {
        writeln!(out, "{}", RecordText(*record))?;
    }
    Ok(())
}

/// Prints the sizes of an order.
fn print_sizes<W: Write>(config: &Config, out: &mut W) -> io::Result<()>
    ensures { OnOk result (Appends (W.contents out.old) (W.contents out.new) (sizes_line config.now)) }
{
    let nodes = Decimal(u64::from(config.nodes));
    let pages = Decimal(u64::from(config.pages));
    let size = Decimal(u64::from(config.page_size));
    writeln!(out, "ivy order {nodes} {pages} {size}")
}

/// Prints records as an order.
fn print_order<W: Write>(config: &Config, records: &[Record], out: &mut W) -> io::Result<()>
    ensures { OnOk result (Appends (W.contents out.old) (W.contents out.new) (order_text config.now records.now)) }
{
    print_sizes(config, out)?;
    print_records(records, out)
}

/// The order of records that explains a run.
fn records_of<P: Progress>(run: &Run<'_>, progress: &mut P) -> Result<Option<Vec<Record>>, Fault>
    ensures { IfOk result (λ found. IfSome found (λ order. IsOrderBy run.now.text.config run.now.text.opening run.now.text.programs.now (λ moves. IfSome run.now.schedule (λ text. SpellsSchedule text.now moves)) order.items)) }
{
    let moves = run.moves(progress)?;
    order_of(&run.text, &moves, progress)
}

/// Prints the order of records that explains a run, by the moves that the schedule says, where there is one.
pub(crate) fn order<W: Write, P: Progress>(
    run: &Run<'_>,
    out: &mut W,
    progress: &mut P,
) -> Result<(), ScopeFailure<'static>>
    ensures { OnOk result (PrintsOrder run.now.text.config run.now.text.opening run.now.text.programs.now (λ moves. IfSome run.now.schedule (λ text. SpellsSchedule text.now moves)) (W.contents out.old) (W.contents out.new)) }
{
    let Some(records) = records_of(run, progress)? else {
        return Err(ScopeFailure::NoOrder);
    };
    print_order(&run.text.config, &records, out)?;
    Ok(())
}
