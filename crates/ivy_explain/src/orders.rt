//! What is at fault in an order.

use crate::blame::{Blame, Wanted};
use crate::grammar::{Form, Operand, blame_at, blame_end, blame_form, blame_operands};
use crate::words::{Reader, Word, Words, read_lines};
use ivy_program::parse_number;
use std::alloc::{AllocError, Global};

/// The calls of a record.
const CALLS: [Form; 10] = [
    ("load", &[Operand::Width, Operand::Number]),
    ("store", &[Operand::Width, Operand::Number, Operand::Number]),
    ("swap", &[Operand::Width, Operand::Number, Operand::Number]),
    (
        "cas",
        &[
            Operand::Width,
            Operand::Number,
            Operand::Number,
            Operand::Number,
        ],
    ),
    ("fadd", &[Operand::Width, Operand::Number, Operand::Number]),
    ("count", &[Operand::Number]),
    ("advance", &[Operand::Number]),
    ("await", &[Operand::Number, Operand::Number]),
    ("alloc", &[Operand::Number]),
    ("free", &[Operand::Number]),
];

/// The replies of a record.
const REPLIES: [Form; 3] = [
    ("value", &[Operand::Number]),
    ("done", &[]),
    ("refused", &[Operand::Number]),
];

const FIRST_LINE: &str = "`ivy order`, and how many nodes, pages and bytes of a page";

const BYTE: &str = "a number, 0 to 255";

/// Whether a word is a number of one byte.
fn is_byte(word: Word<'_>) -> bool {
    matches!(parse_number(word.text), Some(0..=255))
}

/// What is at fault in words that are to be a reply.
fn blame_reply<'a>(line: usize, words: Words<'_, 'a>) -> Option<Blame<'a>> {
    let blame = blame_form(line, words, &REPLIES, Wanted::reply());
    if blame.is_some() {
        return blame;
    }
    let code = words.get(1)?;
    if words.get(0)?.text != "refused" || is_byte(code) {
        return None;
    }
    Some(blame_at(line, code, Wanted::of(BYTE)))
}

/// What is at fault in the line of a record behind its node.
fn blame_call<'a>(line: usize, words: Words<'_, 'a>) -> Option<Blame<'a>> {
    let count = words.count();
    let equals = words.position("=").unwrap_or(count);
    let blame = blame_form(line, words.part(1, equals), &CALLS, Wanted::call());
    if blame.is_some() {
        return blame;
    }
    if equals == count {
        return Some(blame_end(line, words, Wanted::of("`=` and a reply")));
    }
    blame_reply(line, words.part(equals.saturating_add(1), count))
}

/// What is at fault in the line of a record.
fn blame_record<'a>(line: usize, words: Words<'_, 'a>) -> Option<Blame<'a>> {
    let node = words.get(0)?;
    if is_byte(node) {
        blame_call(line, words)
    } else {
        Some(blame_at(line, node, Wanted::of(BYTE)))
    }
}

/// What is at fault in the first line.
fn blame_first<'a>(line: usize, words: Words<'_, 'a>) -> Option<Blame<'a>> {
    for (place, text) in ["ivy", "order"].iter().enumerate() {
        match words.get(place) {
            None => return Some(blame_end(line, words, Wanted::of(FIRST_LINE))),
            Some(word) if word.text != *text => {
                return Some(blame_at(line, word, Wanted::of(FIRST_LINE)));
            }
            Some(_) => {}
        }
    }
    let sizes = [Operand::Number, Operand::Number, Operand::Number];
    blame_operands(line, words, 2, &sizes)
}

/// An order that is read line by line.
#[derive(Drop)]
struct Reading<'a> {
    /// Whether no line was read yet.
    is_first: bool,
    blames: Vec<Blame<'a>>,
}

impl<'a> Reading<'a> {
    /// Adds what is at fault where no line was read.
    fn end(&mut self) -> Result<(), AllocError> {
        if self.is_first {
            self.blames.push(Blame {
                line: 1,
                column: 1,
                word: None,
                wanted: Wanted::of(FIRST_LINE),
            })?;
        }
        Ok(())
    }

    fn read_all(&mut self, alloc: Global, text: &'a str) -> Result<(), AllocError> {
        read_lines(alloc, text, self)?;
        self.end()
    }
}

impl<'a> Reader<'a> for Reading<'a> {
    fn read(&mut self, line: usize, words: Words<'_, 'a>) -> Result<(), AllocError> {
        let blame = if self.is_first {
            blame_first(line, words)
        } else {
            blame_record(line, words)
        };
        self.is_first = false;
        match blame {
            Some(blame) => Ok(self.blames.push(blame)?),
            None => Ok(()),
        }
    }
}

/// What is at fault in each line of an order.
pub fn blames_of_order<'a>(alloc: Global, text: &'a str) -> Result<Vec<Blame<'a>>, AllocError> {
    let mut reading = Reading {
        is_first: true,
        blames: Vec::new(alloc),
    };
    match reading.read_all(alloc, text) {
        Ok(()) => Ok(reading.blames),
        Err(error) => Err(error),
    }
}
