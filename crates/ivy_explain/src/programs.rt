//! What is at fault in a text of programs.

use crate::blame::{Blame, MOST_INSTRUCTIONS, Wanted};
use crate::grammar::{Form, Operand, blame_at, blame_form};
use crate::labels::{Labels, Named};
use crate::words::{Reader, Word, Words, read_lines};
use Operand::{Name, Number, Register, Width};
use ivy_program::parse_number;
use std::alloc::{AllocError, Global};

/// The lines of a text of programs.
const FORMS: [Form; 22] = [
    ("node", &[Number]),
    ("label", &[Name]),
    ("set", &[Register, Number]),
    ("mov", &[Register, Register]),
    ("add", &[Register, Register, Register]),
    ("sub", &[Register, Register, Register]),
    ("mul", &[Register, Register, Register]),
    ("load", &[Width, Register, Register]),
    ("store", &[Width, Register, Register]),
    ("swap", &[Width, Register, Register, Register]),
    ("cas", &[Width, Register, Register, Register, Register]),
    ("fadd", &[Width, Register, Register, Register]),
    ("count", &[Register, Register]),
    ("advance", &[Register]),
    ("await", &[Register, Register, Register]),
    ("alloc", &[Register, Register]),
    ("free", &[Register]),
    ("status", &[Register]),
    ("print", &[Register]),
    ("jump", &[Name]),
    ("jumpz", &[Register, Name]),
    ("stop", &[]),
];

const FIRST_NODE: &str = "a line `node 0` before it";

const NO_MARK: &str = "a text without a byte order mark";

/// A byte order mark.
const MARK: char = '\u{feff}';

/// A text of programs that is read line by line.
#[derive(Drop)]
struct Reading<'a> {
    /// How many lines `node` there were.
    nodes: u64,
    /// How many instructions the last node has so far.
    instructions: u64,
    labels: Labels<'a>,
    blames: Vec<Blame<'a>>,
}

impl<'a> Reading<'a> {
    fn begin_node(&mut self) {
        self.nodes = self.nodes.saturating_add(1);
        self.instructions = 0;
    }

    /// A line `node` has the number of the next node.
    fn node(&mut self, line: usize, word: Word<'a>) -> Option<Blame<'a>> {
        if parse_number(word.text) != Some(self.nodes) {
            return Some(blame_at(line, word, Wanted::node(self.nodes)));
        }
        self.begin_node();
        None
    }

    /// A byte order mark is at fault alone: a line `node` behind it begins a node.
    fn mark(&mut self, line: usize, first: Word<'a>) -> Option<Blame<'a>> {
        let behind = first.text.strip_prefix(MARK)?;
        if behind == "node" {
            self.begin_node();
        }
        Some(blame_at(line, first, Wanted::of(NO_MARK)))
    }

    /// An instruction. The first that is one too many is at fault.
    fn instruction(&mut self, line: usize, first: Word<'a>) -> Option<Blame<'a>> {
        if first.text != "label" {
            self.instructions = self.instructions.saturating_add(1);
        }
        if self.instructions == MOST_INSTRUCTIONS + 1 && first.text != "label" {
            return Some(blame_at(line, first, Wanted::no_instruction()));
        }
        None
    }

    /// What is at fault in a line of a node with what it names.
    fn name(&mut self, first: &str, named: Named<'a>) -> Result<Option<Blame<'a>>, AllocError> {
        match first {
            "label" => self.labels.add(named),
            "jump" | "jumpz" => {
                self.labels.jump(named)?;
                Ok(None)
            }
            _ => Ok(None),
        }
    }

    /// What is at fault in a line that is well formed.
    fn blame_formed(
        &mut self,
        line: usize,
        words: Words<'_, 'a>,
    ) -> Result<Option<Blame<'a>>, AllocError> {
        let (Some(first), Some(word)) = (words.get(0), words.last()) else {
            return Ok(None);
        };
        if first.text == "node" {
            return Ok(self.node(line, word));
        }
        if self.nodes == 0 {
            return Ok(Some(blame_at(line, first, Wanted::of(FIRST_NODE))));
        }
        let node = self.nodes;
        let blame = self.instruction(line, first);
        if blame.is_some() {
            return Ok(blame);
        }
        self.name(first.text, Named { node, line, word })
    }

    fn blame(
        &mut self,
        line: usize,
        words: Words<'_, 'a>,
    ) -> Result<Option<Blame<'a>>, AllocError> {
        if let Some(first) = words.get(0) {
            let mark = self.mark(line, first);
            if mark.is_some() {
                return Ok(mark);
            }
        }
        let blame = blame_form(line, words, &FORMS, Wanted::line());
        if blame.is_some() {
            return Ok(blame);
        }
        self.blame_formed(line, words)
    }

    /// Reads all lines, and sorts what is at fault by line.
    fn read_all(&mut self, alloc: Global, text: &'a str) -> Result<(), AllocError> {
        read_lines(alloc, text, self)?;
        self.labels.blame(&mut self.blames)?;
        self.blames.sort_by_key(|blame| blame.line)
    }
}

impl<'a> Reader<'a> for Reading<'a> {
    fn read(&mut self, line: usize, words: Words<'_, 'a>) -> Result<(), AllocError> {
        match self.blame(line, words)? {
            Some(blame) => Ok(self.blames.push(blame)?),
            None => Ok(()),
        }
    }
}

/// What is at fault in each line of a text of programs, by line.
pub fn blames_of_programs<'a>(alloc: Global, text: &'a str) -> Result<Vec<Blame<'a>>, AllocError> {
    let mut reading = Reading {
        nodes: 0,
        instructions: 0,
        labels: Labels::new(alloc),
        blames: Vec::new(alloc),
    };
    match reading.read_all(alloc, text) {
        Ok(()) => Ok(reading.blames),
        Err(error) => Err(error),
    }
}
