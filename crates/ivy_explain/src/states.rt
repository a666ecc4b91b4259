//! What nodes came to, and where their programs are.

use crate::{Lines, Place, Walk, lines_of};
use ivy_model::{Call, Fault, Record, Reply};
use ivy_program::{Program, parse};
use ivy_texts::CallText;
use std::alloc::Global;
use std::io::{self, Write};

/// What a node came to.
#[derive(Clone, Copy)]
pub struct NodeState<'a> {
    pub history: &'a [Record],
    /// The call in progress.
    pub asked: Option<Call>,
    pub has_ended: bool,
}

/// Programs, with the lines of their instructions.
#[derive(Drop)]
pub struct Listing {
    pub programs: Vec<Program<Global>>,
    pub lines: Lines,
}

impl Listing {
    /// The programs of a text that is no fault.
    pub fn of(alloc: Global, text: &str) -> Result<Listing, Fault> {
        Ok(Listing {
            programs: parse(alloc, text)?,
            lines: lines_of(alloc, text)?,
        })
    }

    /// The line at which a node's program is after these replies, where that is a call.
    fn line_after(&self, node: u64, history: &[Record]) -> Option<usize> {
        let mut walk = Walk::new(self.programs.get(node as usize)?);
        for record in history {
            let _ = walk.next();
            walk.answer(record);
        }
        match walk.next() {
            Place::Call(place) => self.lines.get(node, place),
            _ => None,
        }
    }
}

/// How often a node advanced a count.
fn advances_of(history: &[Record], k: u64) -> u64 {
    let mut count = 0u64;
    for record in history {
        if record.call == (Call::Advance { k }) && record.reply == Reply::Done {
            count = count.saturating_add(1);
        }
    }
    count
}

/// What a count is: how often it was advanced.
fn count_of(nodes: &[NodeState<'_>], k: u64) -> u64 {
    let mut count = 0u64;
    for node in nodes {
        count = count.saturating_add(advances_of(node.history, k));
    }
    count
}

/// Prints at which line a node is.
fn print_place<W: Write>(
    listing: &Listing,
    node: &NodeState<'_>,
    number: u64,
    out: &mut W,
) -> io::Result<()> {
    match listing.line_after(number, node.history) {
        Some(line) => write!(out, "node {number}, line {line}:"),
        None => write!(out, "node {number}"),
    }
}

/// Prints what a node came to: that it has ended, or its line and what it waits for.
pub fn print_standing<W: Write>(
    listing: &Listing,
    nodes: &[NodeState<'_>],
    number: u64,
    out: &mut W,
) -> io::Result<()> {
    let Some(node) = nodes.get(number as usize) else {
        return Ok(());
    };
    if node.has_ended {
        return writeln!(out, "node {number} ended");
    }
    print_place(listing, node, number, out)?;
    match node.asked {
        Some(Call::Await { k, least }) => {
            let count = count_of(nodes, k);
            writeln!(
                out,
                " waits for count {k} to reach {least}, and it is {count}"
            )
        }
        Some(call) => writeln!(out, " {} is in progress", CallText(call)),
        None => out.write_all(b" still going\n"),
    }
}
