//! Pictures and numbers of a run.

use crate::played::Run;
use ivy_charts::{
    Chart, Part, Picture, RunCounts, RunLog, Writes, count_run, print_both, print_counts,
    print_sharing,
};
use ivy_explain::{ScopeFailure, ScopeRequest};
use ivy_model::{Fault, Kind};
use ivy_replay::{Progress, seen};
use std::io::{self, Write};

/// What is seen of a run.
fn log_of<P: Progress>(run: &Run<'_>, progress: &mut P) -> Result<RunLog, Fault> {
    let moves = run.moves(progress)?;
    Ok(seen(&run.text, &moves, progress)?.into_log())
}

/// How high a picture may be before that is told, in pixels.
const HIGH: u64 = 5_000;

/// The page of the first string that is about one, or 1.
fn first_page(log: &RunLog) -> u32 {
    for head in log.strings.iter() {
        if let Some(page) = head.page() {
            return page;
        }
    }
    1
}

/// The page whose access is shown: the one that is named, where one is.
fn page_of(request: &ScopeRequest<'_>, log: &RunLog) -> u32 {
    match request.page() {
        Some(page) => u32::try_from(page).unwrap_or(u32::MAX),
        None => first_page(log),
    }
}

/// Which moves are drawn.
fn part_of(request: &ScopeRequest<'_>) -> Part {
    let (first, last) = request.range();
    Part {
        first,
        last,
        all: request.draws_all(),
    }
}

/// Tells that a picture is high.
fn tell_height<E: Write>(picture: &Picture, err: &mut E) -> io::Result<()> {
    let height = picture.height();
    if height > HIGH {
        writeln!(
            err,
            "ivyscope: the picture is {height} pixels high; --from and --to draw a part"
        )?;
    }
    Ok(())
}

/// Draws a run, and tells where the picture is high.
pub(crate) fn chart<W: Write, E: Write, P: Progress>(
    run: &Run<'_>,
    request: &ScopeRequest<'_>,
    out: &mut W,
    err: &mut E,
    progress: &mut P,
) -> Result<(), ScopeFailure<'static>> {
    let log = log_of(run, progress)?;
    let chart = Chart {
        nodes: u64::from(run.text.config.nodes),
        page: page_of(request, &log),
        part: part_of(request),
    };
    let picture = Picture::of(run.text.alloc, chart, &log)?;
    // What is told is no part of the picture.
    let _ = tell_height(&picture, err);
    picture.draw(&log, out)?;
    Ok(())
}

fn counts_of<P: Progress>(run: &Run<'_>, progress: &mut P) -> Result<RunCounts, Fault> {
    let log = log_of(run, progress)?;
    Ok(count_run(run.text.alloc, &run.text.config, &log)?)
}

/// What is counted and what was written of a run.
fn measures_of<P: Progress>(run: &Run<'_>, progress: &mut P) -> Result<(RunCounts, Writes), Fault> {
    let (alloc, config) = (run.text.alloc, &run.text.config);
    let log = log_of(run, progress)?;
    let writes = Writes::of(alloc, config, &log)?;
    Ok((count_run(alloc, config, &log)?, writes))
}

/// Prints what is counted of a run, by node and by page.
pub(crate) fn counts<W: Write, P: Progress>(
    run: &Run<'_>,
    out: &mut W,
    progress: &mut P,
) -> Result<(), ScopeFailure<'static>> {
    let (counts, writes) = measures_of(run, progress)?;
    print_counts(&counts, out)?;
    print_sharing(&writes, out)?;
    Ok(())
}

/// Prints what is counted of a run under either manager.
pub(crate) fn both<W: Write, P: Progress>(
    run: &Run<'_>,
    out: &mut W,
    progress: &mut P,
) -> Result<(), ScopeFailure<'static>> {
    let fixed = counts_of(&run.under(Kind::Fixed), progress)?;
    let dynamic = counts_of(&run.under(Kind::Dynamic), progress)?;
    print_both(&fixed, &dynamic, out)?;
    Ok(())
}
