//! What was counted, as tables.

use crate::counts::RunCounts;
use crate::tally::Tally;
use std::io::{self, Write};

/// Prints the numbers of a tally, each under its name.
fn print_numbers<W: Write>(tally: &Tally, out: &mut W) -> io::Result<()> {
    let (names, numbers) = (Tally::names(), tally.numbers());
    for place in 0..names.len().min(numbers.len()) {
        let (number, width) = (numbers[place], names[place].len());
        write!(out, "  {number:>width$}")?;
    }
    out.write_all(b"\n")
}

fn print_names<W: Write>(out: &mut W) -> io::Result<()> {
    out.write_all(b"        ")?;
    for name in Tally::names() {
        write!(out, "  {name}")?;
    }
    out.write_all(b"\n")
}

/// Whether anything was counted.
fn is_zero(tally: &Tally) -> bool {
    for number in tally.numbers() {
        if *number != 0 {
            return false;
        }
    }
    true
}

/// Prints a line for each of these of which anything was counted.
fn print_rows<W: Write>(name: &str, rows: &[Tally], out: &mut W) -> io::Result<()> {
    for number in 0..rows.len() {
        if !is_zero(&rows[number]) {
            write!(out, "{name} {number:>3}")?;
            print_numbers(&rows[number], out)?;
        }
    }
    Ok(())
}

/// Prints what was counted of each node and of each page, where it is anything, and in all.
pub fn print_counts<W: Write>(counts: &RunCounts, out: &mut W) -> io::Result<()> {
    print_names(out)?;
    print_rows("node", &counts.nodes, out)?;
    print_rows("page", &counts.pages, out)?;
    out.write_all(b"in all  ")?;
    print_numbers(&counts.all, out)
}

/// Prints what was counted in all under either manager, side by side.
pub fn print_both<W: Write>(fixed: &RunCounts, dynamic: &RunCounts, out: &mut W) -> io::Result<()> {
    out.write_all(b"                   fixed    dynamic\n")?;
    let (names, left, right) = (Tally::names(), fixed.all.numbers(), dynamic.all.numbers());
    for place in 0..names.len().min(left.len()).min(right.len()) {
        let name = names[place];
        writeln!(out, "{name:<14}{:>10} {:>10}", left[place], right[place])?;
    }
    Ok(())
}
