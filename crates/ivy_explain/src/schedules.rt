//! What is at fault in a schedule.

use crate::blame::{Blame, Wanted};
use crate::grammar::{Form, Operand, blame_form};
use crate::words::{Reader, Words, read_lines};
use std::alloc::{AllocError, Global};

const FORMS: [Form; 3] = [
    ("turn", &[Operand::Number]),
    ("deliver", &[Operand::Number, Operand::Number]),
    ("pulse", &[Operand::Number, Operand::Number]),
];

/// A schedule that is read line by line.
#[derive(Drop)]
struct Reading<'a> {
    blames: Vec<Blame<'a>>,
}

impl<'a> Reader<'a> for Reading<'a> {
    fn read(&mut self, line: usize, words: Words<'_, 'a>) -> Result<(), AllocError> {
        match blame_form(line, words, &FORMS, Wanted::line()) {
            Some(blame) => Ok(self.blames.push(blame)?),
            None => Ok(()),
        }
    }
}

/// What is at fault in each line of a schedule.
pub fn blames_of_schedule<'a>(alloc: Global, text: &'a str) -> Result<Vec<Blame<'a>>, AllocError> {
    let mut reading = Reading {
        blames: Vec::new(alloc),
    };
    match read_lines(alloc, text, &mut reading) {
        Ok(()) => Ok(reading.blames),
        Err(error) => Err(error),
    }
}
