//! Texts of others as they may go to a terminal.

use std::fmt;

/// A text whose characters that a terminal would obey, or not show, are written as `\u{1b}`.
#[derive(Clone, Copy)]
pub struct Shown<'a>(pub &'a str);

/// Whether a terminal would obey a character, or not show it.
fn is_hidden(letter: char) -> bool {
    matches!(
        letter,
        '\u{0}'..='\u{1f}'
            | '\u{7f}'..='\u{9f}'
            | '\u{200b}'..='\u{200f}'
            | '\u{202a}'..='\u{202e}'
            | '\u{2066}'..='\u{2069}'
            | '\u{feff}'
    )
}

/// How many letters stand for a character. A tab stands for one.
pub fn width_of(letter: char) -> usize {
    if !is_hidden(letter) || letter == '\t' {
        return 1;
    }
    match letter {
        '\u{0}'..='\u{f}' => 5,
        '\u{10}'..='\u{ff}' => 6,
        _ => 8,
    }
}

impl fmt::Display for Shown<'_> {
    fn fmt<W: fmt::Write>(&self, f: &mut fmt::Formatter<W>) -> fmt::Result {
        for letter in self.0.chars() {
            if letter == '\t' {
                f.write_str(" ")?;
            } else if is_hidden(letter) {
                write!(f, "\\u{{{:x}}}", letter as u32)?;
            } else {
                f.write_char(letter)?;
            }
        }
        Ok(())
    }
}
