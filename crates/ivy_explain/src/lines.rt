//! The line of each instruction.

use crate::words::{Reader, Words, read_lines};
use std::alloc::{AllocError, Global};

/// Of each node, the lines of its instructions, from 1.
#[derive(Drop)]
pub struct Lines {
    alloc: Global,
    nodes: Vec<Vec<usize>>,
}

impl Lines {
    /// The line of an instruction of a node. The end of a program has none.
    pub fn get(&self, node: u64, place: usize) -> Option<usize> {
        let lines = self.nodes.get(usize::try_from(node).ok()?)?;
        lines.get(place).copied()
    }

    /// Adds a line of the last node.
    fn push(&mut self, line: usize) -> Result<(), AllocError> {
        match self.nodes.last_mut() {
            Some(lines) => Ok(lines.push(line)?),
            None => Ok(()),
        }
    }
}

impl<'a> Reader<'a> for Lines {
    fn read(&mut self, line: usize, words: Words<'_, 'a>) -> Result<(), AllocError> {
        let Some(first) = words.get(0) else {
            return Ok(());
        };
        match first.text {
            "node" => Ok(self.nodes.push(Vec::new(self.alloc))?),
            "label" => Ok(()),
            _ => self.push(line),
        }
    }
}

/// The lines of the instructions of a text that is no fault.
pub fn lines_of(alloc: Global, text: &str) -> Result<Lines, AllocError> {
    let mut lines = Lines {
        alloc,
        nodes: Vec::new(alloc),
    };
    match read_lines(alloc, text, &mut lines) {
        Ok(()) => Ok(lines),
        Err(error) => Err(error),
    }
}
