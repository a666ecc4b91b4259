//! What is at fault in a line, and what was expected there.

use ivy_options::{Shown, width_of};
use std::fmt;
use std::io::{self, Write};

/// How many letters of a line are shown at most, and so many of these before what is at fault.
const MOST_OF_LINE: usize = 200;

const MOST_BEFORE: usize = 80;

/// How many letters of a word are shown at most.
const MOST_OF_WORD: usize = 64;

/// What stands for letters that are not shown.
const CUT: &str = "..";

/// The most instructions that a program can have.
pub(crate) const MOST_INSTRUCTIONS: u64 = 4_096;

/// What was expected.
#[derive(Clone, Copy)]
pub struct Wanted {
    /// What stands before the text, if anything does.
    number: Option<u64>,
    text: &'static str,
    /// The word that is perhaps meant.
    near: Option<&'static str>,
    /// What stands behind the text where no word is nearly what was expected.
    example: &'static str,
}

impl Wanted {
    /// A text and an example.
    fn like(text: &'static str, example: &'static str) -> Wanted {
        Wanted {
            number: None,
            text,
            near: None,
            example,
        }
    }

    /// This.
    pub fn of(text: &'static str) -> Wanted {
        Wanted::like(text, "")
    }

    /// No further instruction.
    pub(crate) fn no_instruction() -> Wanted {
        Wanted {
            number: Some(MOST_INSTRUCTIONS),
            ..Wanted::of(" instructions of a node at most")
        }
    }

    /// A word that begins a line.
    pub(crate) fn line() -> Wanted {
        Wanted::of("a word that begins a line")
    }

    pub(crate) fn call() -> Wanted {
        Wanted::like("a call", ", as `load 8 256`")
    }

    pub(crate) fn reply() -> Wanted {
        Wanted::like("a reply", ": `value X`, `done` or `refused X`")
    }

    /// The number of the next node.
    pub(crate) fn node(number: u64) -> Wanted {
        Wanted {
            number: Some(number),
            ..Wanted::of(", the number of the next node")
        }
    }

    /// The same, of which a word is perhaps meant.
    pub(crate) fn near(self, near: Option<&'static str>) -> Wanted {
        Wanted { near, ..self }
    }
}

impl fmt::Display for Wanted {
    fn fmt<W: fmt::Write>(&self, f: &mut fmt::Formatter<W>) -> fmt::Result {
        if let Some(number) = self.number {
            number.fmt(f)?;
        }
        f.write_str(self.text)?;
        match self.near {
            Some(name) => write!(f, ", perhaps `{name}`"),
            None => f.write_str(self.example),
        }
    }
}

/// What is at fault in a line.
#[derive(Clone, Copy)]
pub struct Blame<'a> {
    /// The line, from 1.
    pub line: usize,
    /// The column, from 1.
    pub column: usize,
    /// The word that stands there, or nothing at the end of the line.
    pub word: Option<&'a str>,
    pub wanted: Wanted,
}

/// Some letters of a text, from one on.
#[derive(Clone, Copy)]
struct Part<'a> {
    text: &'a str,
    from: usize,
    most: usize,
}

impl<'a> Part<'a> {
    /// The first ones of a word.
    fn of_word(word: &'a str) -> Part<'a> {
        Part {
            text: word,
            from: 0,
            most: MOST_OF_WORD,
        }
    }

    /// Those of a line that are shown, of which so many stand before what is at fault.
    fn of_line(line: &'a str, before: usize) -> Part<'a> {
        let is_long = has_more(line, MOST_OF_LINE);
        Part {
            text: line,
            from: if is_long {
                before.saturating_sub(MOST_BEFORE)
            } else {
                0
            },
            most: MOST_OF_LINE,
        }
    }

    /// How many letters stand for what is shown before a place.
    fn width_to(&self, place: usize) -> usize {
        let mut width = if self.from > 0 { CUT.len() } else { 0 };
        for letter in self.text.chars().take(place).skip(self.from) {
            width = width.saturating_add(width_of(letter));
        }
        width
    }

    /// The place behind it, if the text goes on there.
    fn end(&self) -> usize {
        self.from.saturating_add(self.most)
    }
}

/// Whether a text has more letters than so many.
fn has_more(text: &str, many: usize) -> bool {
    text.chars().skip(many).next().is_some()
}

impl fmt::Display for Part<'_> {
    fn fmt<W: fmt::Write>(&self, f: &mut fmt::Formatter<W>) -> fmt::Result {
        if self.from > 0 {
            f.write_str(CUT)?;
        }
        for letter in self.text.chars().take(self.end()).skip(self.from) {
            let mut room = [0u8; 4];
            Shown(letter.encode_utf8(&mut room)).fmt(f)?;
        }
        if has_more(self.text, self.end()) {
            f.write_str(CUT)?;
        }
        Ok(())
    }
}

/// Prints a text so many times.
fn print_times<W: Write>(text: &str, times: usize, out: &mut W) -> io::Result<()> {
    for _ in 0..times {
        out.write_all(text.as_bytes())?;
    }
    Ok(())
}

/// Prints spaces, and then marks below a word.
fn print_mark<W: Write>(line: &Part<'_>, blame: &Blame<'_>, out: &mut W) -> io::Result<()> {
    let width = match blame.word {
        Some(word) => Part::of_word(word).width_to(MOST_OF_WORD),
        None => 1,
    };
    let before = blame.column.saturating_sub(1);
    // behind the line there are spaces
    let behind = before.saturating_sub(line.text.chars().count());
    out.write_all(b"    ")?;
    print_times(" ", line.width_to(before).saturating_add(behind), out)?;
    print_times("^", width, out)?;
    out.write_all(b"\n")
}

/// Prints where something is at fault, and what was expected there.
fn print_place<W: Write>(file: &str, blame: &Blame<'_>, out: &mut W) -> io::Result<()> {
    let (number, column, wanted) = (blame.line, blame.column, blame.wanted);
    let file = Shown(file);
    write!(out, "{file}:{number}:{column}: expected {wanted}, found ")
}

/// Prints what stands there.
fn print_word<W: Write>(blame: &Blame<'_>, out: &mut W) -> io::Result<()> {
    match blame.word {
        Some(word) => writeln!(out, "`{}`", Part::of_word(word)),
        None => out.write_all(b"the end of the line\n"),
    }
}

/// Prints what is at fault: file, line, column, what was expected and what stands there, and the line with a mark. Of a
/// long word or line a part is printed.
pub fn print_blame<W: Write>(
    file: &str,
    line: &str,
    blame: &Blame<'_>,
    out: &mut W,
) -> io::Result<()> {
    let part = Part::of_line(line, blame.column.saturating_sub(1));
    print_place(file, blame, out)?;
    print_word(blame, out)?;
    writeln!(out, "    {part}")?;
    print_mark(&part, blame, out)
}
