//! Whether an order is legal, and if not, where it breaks.

use crate::failure::ScopeFailure;
use crate::{Broken, first_broken};
use ivy_model::{Config, Fault, Kind, Record};
use ivy_program::words_of;
use ivy_texts::{Order, RecordText, ReplyText, Settings, parse_order};
use std::alloc::{AllocError, Global};
use std::io::{self, Write};

fn has_words(alloc: Global, line: &str) -> Result<bool, AllocError> {
    Ok(!words_of(alloc, line)?.is_empty())
}

/// The line of a record of an order: the records are its lines with words, after the first.
fn line_of(alloc: Global, text: &str, place: usize) -> Result<usize, AllocError> {
    let mut left = place.saturating_add(2);
    let mut number = 0usize;
    for line in text.lines() {
        number = number.saturating_add(1);
        if has_words(alloc, line)? {
            left = left.saturating_sub(1);
        }
        if left == 0 {
            return Ok(number);
        }
    }
    Ok(0)
}

/// Prints the record at which an order breaks.
fn print_broken<W: Write>(
    file: &str,
    line: usize,
    record: Record,
    broken: &Broken,
    out: &mut W,
) -> io::Result<()> {
    write!(out, "not legal\n{file}:{line}: {}", RecordText(record))?;
    match (broken.reply, broken.waits) {
        (Some(reply), true) => writeln!(
            out,
            ": it has no answer yet, the count is {}",
            ReplyText(reply)
        ),
        (Some(reply), false) if reply != record.reply => {
            writeln!(out, ": one memory answers {} here", ReplyText(reply))
        }
        _ => writeln!(out, ": one memory does not answer so here"),
    }
}

/// Prints where an order breaks.
fn print_place<W: Write>(
    alloc: Global,
    file: &str,
    text: &str,
    records: &[Record],
    broken: &Broken,
    out: &mut W,
) -> Result<(), ScopeFailure<'static>> {
    if let Some(record) = records.get(broken.place) {
        let line = line_of(alloc, text, broken.place)?;
        print_broken(file, line, *record, broken, out)?;
    }
    Ok(())
}

/// The configuration of an order. Legality does not depend on how owners are found.
fn config_of(order: &Order<Global>) -> Result<Config, Fault> {
    let settings = Settings {
        pages: order.sizes.pages,
        page_size: order.sizes.page_size,
        manager: Kind::Fixed,
    };
    settings.config(usize::try_from(order.sizes.nodes).unwrap_or(usize::MAX))
}

/// The first record at which no legal order goes on.
fn broken_of(alloc: Global, order: &Order<Global>) -> Result<Option<Broken>, Fault> {
    first_broken(alloc, &config_of(order)?, &order.records)
}

/// Prints whether an order is legal, of this text.
fn judge_order<W: Write>(
    alloc: Global,
    file: &str,
    text: &str,
    order: &Order<Global>,
    out: &mut W,
) -> Result<bool, ScopeFailure<'static>> {
    match broken_of(alloc, order)? {
        Some(broken) => {
            print_place(alloc, file, text, &order.records, &broken, out)?;
            Ok(false)
        }
        None => {
            out.write_all(b"legal\n")?;
            Ok(true)
        }
    }
}

/// Prints whether an order is legal, and else the first record at which no legal order goes on. It says whether it is.
pub(crate) fn judge<'a, W: Write>(
    alloc: Global,
    file: &'a str,
    text: &str,
    out: &mut W,
) -> Result<bool, ScopeFailure<'a>> {
    let order = parse_order(alloc, text)?;
    judge_order(alloc, file, text, &order, out)
}
