//! The words of a line, and where they stand.

use std::alloc::{AllocError, Global};

/// A word of a line.
#[derive(Clone, Copy)]
pub(crate) struct Word<'a> {
    pub(crate) text: &'a str,
    /// The place of its first letter in the line, from 0.
    pub(crate) at: usize,
}

/// Words of a line, and where the last one ends.
#[derive(Clone, Copy)]
pub(crate) struct Words<'w, 'a> {
    words: &'w [Word<'a>],
    pub(crate) end: usize,
}

/// What reads a text line by line.
pub(crate) trait Reader<'a> {
    /// A line that has words, by its number from 1.
    fn read(&mut self, line: usize, words: Words<'_, 'a>) -> Result<(), AllocError>;
}

fn without_comment(line: &str) -> &str {
    match line.split_once('#') {
        Some((before, _comment)) => before,
        None => line,
    }
}

/// The words of a line, which spaces and tabs part, up to a comment.
fn words_of<'a>(alloc: Global, line: &'a str) -> Result<Vec<Word<'a>>, AllocError> {
    let mut words = Vec::new(alloc);
    let mut at = 0usize;
    for text in without_comment(line).split([' ', '\t']) {
        if !text.is_empty() {
            words.push(Word { text, at })?;
        }
        at = at.saturating_add(text.chars().count()).saturating_add(1);
    }
    Ok(words)
}

fn read_line<'a, R: Reader<'a>>(
    alloc: Global,
    line: usize,
    text: &'a str,
    reader: &mut R,
) -> Result<(), AllocError> {
    let words = words_of(alloc, text)?;
    let Some(last) = words.last() else {
        return Ok(());
    };
    let end = last.end();
    reader.read(line, Words { words: &words, end })
}

/// Reads the lines of a text that have words.
pub(crate) fn read_lines<'a, R: Reader<'a>>(
    alloc: Global,
    text: &'a str,
    reader: &mut R,
) -> Result<(), AllocError> {
    for (before, line) in text.lines().enumerate() {
        read_line(alloc, before.saturating_add(1), line, reader)?;
    }
    Ok(())
}

impl Word<'_> {
    /// The place behind its last letter.
    fn end(&self) -> usize {
        self.at.saturating_add(self.text.chars().count())
    }
}

impl<'w, 'a> Words<'w, 'a> {
    /// The word at a place.
    pub(crate) fn get(self, place: usize) -> Option<Word<'a>> {
        self.words.get(place).copied()
    }

    pub(crate) fn last(self) -> Option<Word<'a>> {
        self.words.last().copied()
    }

    /// How many words there are.
    pub(crate) fn count(self) -> usize {
        self.words.len()
    }

    /// The place of a word of this text.
    pub(crate) fn position(self, text: &str) -> Option<usize> {
        for place in 0..self.words.len() {
            if self.words[place].text == text {
                return Some(place);
            }
        }
        None
    }

    /// The words from a place up to another. Where there are none, they end where all words do.
    pub(crate) fn part(self, from: usize, to: usize) -> Words<'w, 'a> {
        let to = to.min(self.words.len());
        let words = &self.words[from.min(to)..to];
        let end = match words.last() {
            Some(word) => word.end(),
            None => self.end,
        };
        Words { words, end }
    }
}
