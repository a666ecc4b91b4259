//! What is at fault in a text.

use crate::failure::ScopeFailure;
use crate::{Blame, Wanted, blames_of_order, blames_of_programs, blames_of_schedule, print_blame};
use ivy_model::{Fault, LEAST_NODES, LEAST_PAGES, MOST_NODES, MOST_PAGES, PAGE_SIZES};
use ivy_options::Shown;
use ivy_program::{parse, parse_number, words_of};
use ivy_texts::{Sizes, parse_order, parse_schedule};
use std::alloc::{AllocError, Global};
use std::io::{self, Write};

/// What a text is.
#[derive(Clone, Copy)]
pub(crate) enum Kind {
    Programs,
    Schedule,
    Order,
}

/// What a text is that has a line with this first word, if the word tells.
fn kind_by(first: &str) -> Option<Kind> {
    match first {
        "node" => Some(Kind::Programs),
        "turn" | "deliver" | "pulse" => Some(Kind::Schedule),
        "ivy" => Some(Kind::Order),
        // A record begins with its node.
        _ if parse_number(first).is_some() => Some(Kind::Order),
        _ => None,
    }
}

/// What a text is that has this line, if the line tells.
fn kind_by_line(alloc: Global, line: &str) -> Result<Option<Kind>, AllocError> {
    let words = words_of(alloc, line)?;
    match words.first() {
        Some(first) => Ok(kind_by(first)),
        None => Ok(None),
    }
}

/// What a text is, by the first of its lines whose first word tells. Else it is taken for programs.
fn kind_of(alloc: Global, text: &str) -> Result<Kind, AllocError> {
    for line in text.lines() {
        if let Some(kind) = kind_by_line(alloc, line)? {
            return Ok(kind);
        }
    }
    Ok(Kind::Programs)
}

/// The line that the parser of such texts finds at fault first, if it does.
fn line_at_fault(alloc: Global, kind: Kind, text: &str) -> Result<Option<u64>, Fault> {
    let found = match kind {
        Kind::Programs => parse(alloc, text).err(),
        Kind::Schedule => parse_schedule(alloc, text).err(),
        Kind::Order => parse_order(alloc, text).err(),
    };
    match found {
        None => Ok(None),
        Some(Fault::ProgramFault(line)) => Ok(Some(line)),
        Some(fault) => Err(fault),
    }
}

/// What is at fault in a text, line by line.
fn blames_of<'a>(alloc: Global, kind: Kind, text: &'a str) -> Result<Vec<Blame<'a>>, AllocError> {
    match kind {
        Kind::Programs => blames_of_programs(alloc, text),
        Kind::Schedule => blames_of_schedule(alloc, text),
        Kind::Order => blames_of_order(alloc, text),
    }
}

/// Those of these from a place on.
fn rest_of<'b, 'a>(blames: &'b [Blame<'a>], from: usize) -> &'b [Blame<'a>] {
    &blames[from.min(blames.len())..]
}

/// Tells what is at fault in a line: the first of these, from a place on. It gives the place of the next one.
fn tell_line<E: Write>(
    file: &str,
    (number, line): (usize, &str),
    blames: &[Blame<'_>],
    from: usize,
    err: &mut E,
) -> io::Result<usize> {
    let mut place = from;
    for blame in rest_of(blames, from) {
        if blame.line != number {
            break;
        }
        print_blame(file, line.trim_end(), blame, err)?;
        place = place.saturating_add(1);
    }
    Ok(place)
}

/// Tells what is at fault, line by line: it stands in the order of the lines.
fn tell<E: Write>(file: &str, text: &str, blames: &[Blame<'_>], err: &mut E) -> io::Result<()> {
    let mut place = 0usize;
    for (before, line) in text.lines().enumerate() {
        let number = before.saturating_add(1);
        place = tell_line(file, (number, line), blames, place, err)?;
    }
    for blame in rest_of(blames, place) {
        print_blame(file, "", blame, err)?;
    }
    Ok(())
}

/// Whether one of these is of a line.
fn has_line(blames: &[Blame<'_>], line: usize) -> bool {
    for blame in blames {
        if blame.line == line {
            return true;
        }
    }
    false
}

/// Adds a line that a parser finds at fault and no test of a line does.
fn add_line(blames: &mut Vec<Blame<'_>>, line: usize) -> Result<(), AllocError> {
    if has_line(blames, line) {
        return Ok(());
    }
    blames.push(Blame {
        line,
        column: 1,
        word: None,
        wanted: Wanted::of("a text within its limits"),
    })?;
    blames.sort_by_key(|blame| blame.line)
}

/// Tells what is at fault in a text of which this line is.
fn tell_faults<E: Write>(
    alloc: Global,
    kind: Kind,
    file: &str,
    text: &str,
    line: u64,
    err: &mut E,
) -> Result<(), AllocError> {
    let mut blames = blames_of(alloc, kind, text)?;
    add_line(&mut blames, usize::try_from(line).unwrap_or(usize::MAX))?;
    // The status tells of the fault also where the stream takes nothing.
    let _ = tell(file, text, &blames, err);
    Ok(())
}

/// How many nodes a memory has.
fn may_have(nodes: u64) -> bool {
    u64::from(LEAST_NODES) <= nodes && nodes <= u64::from(MOST_NODES)
}

/// Whether a memory may have the sizes that an order names.
fn are_sizes(sizes: &Sizes) -> bool {
    let page_size = u32::try_from(sizes.page_size).unwrap_or(0);
    may_have(sizes.nodes)
        && u64::from(LEAST_PAGES) <= sizes.pages
        && sizes.pages <= u64::from(MOST_PAGES)
        && PAGE_SIZES.contains(&page_size)
}

/// Tells where a text that a parser takes is of no memory, since that has other sizes. It says whether that is so.
fn has_bad_sizes<E: Write>(
    alloc: Global,
    kind: Kind,
    file: &str,
    text: &str,
    err: &mut E,
) -> Result<bool, Fault> {
    let file = Shown(file);
    // The status tells of the fault also where the stream takes nothing.
    match kind {
        Kind::Schedule => Ok(false),
        Kind::Programs => {
            let nodes = parse(alloc, text)?.len() as u64;
            if may_have(nodes) {
                return Ok(false);
            }
            let _ = writeln!(
                err,
                "{file}: programs of {nodes} nodes, and 2 to 32 share a memory"
            );
            Ok(true)
        }
        Kind::Order => {
            let sizes = parse_order(alloc, text)?.sizes;
            if are_sizes(&sizes) {
                return Ok(false);
            }
            let _ = writeln!(
                err,
                "{file}: an order has 2 to 32 nodes, 2 to 256 pages, and of bytes a power of two from 64 to 4096"
            );
            Ok(true)
        }
    }
}

/// Whether a text is no fault. Else it is told what is, on a stream.
pub(crate) fn is_sound<E: Write>(
    alloc: Global,
    kind: Kind,
    file: &str,
    text: &str,
    err: &mut E,
) -> Result<bool, Fault> {
    match line_at_fault(alloc, kind, text)? {
        Some(line) => {
            tell_faults(alloc, kind, file, text, line, err)?;
            Ok(false)
        }
        None => Ok(!has_bad_sizes(alloc, kind, file, text, err)?),
    }
}

/// A text that is no fault, of which standard error is told else.
pub(crate) fn sound<'a, E: Write>(
    alloc: Global,
    kind: Kind,
    file: &'a str,
    text: &str,
    err: &mut E,
) -> Result<(), ScopeFailure<'a>> {
    if is_sound(alloc, kind, file, text, err)? {
        Ok(())
    } else {
        Err(ScopeFailure::AtFault(file))
    }
}

/// Prints what is at fault in a text, or that nothing is. It says whether something is.
pub(crate) fn explain<'a, W: Write>(
    alloc: Global,
    file: &'a str,
    text: &str,
    out: &mut W,
) -> Result<bool, ScopeFailure<'a>> {
    let kind = kind_of(alloc, text)?;
    if !is_sound(alloc, kind, file, text, out)? {
        return Ok(false);
    }
    let what = match kind {
        Kind::Programs => "programs",
        Kind::Schedule => "a schedule",
        Kind::Order => "an order",
    };
    writeln!(out, "{}: {what}, and nothing is at fault", Shown(file))?;
    Ok(true)
}
