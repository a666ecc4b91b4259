//! From a command line to its command.

use crate::misuse::Misuse;
use crate::table::{Command, CommandTable};

/// What a command line asks for.
#[derive(Clone, Copy)]
pub enum Line<'a> {
    /// What the program is for, or one of its commands.
    Help(Option<&'static Command>),
    Version,
    /// A command, and the words behind it.
    Command(&'static Command, &'a [String]),
}

/// What a word asks for that stands at any place.
fn line_by_word<'a>(word: &str, command: Option<&'static Command>) -> Option<Line<'a>> {
    match word {
        "--help" | "-h" => Some(Line::Help(command)),
        "--version" | "-V" => Some(Line::Version),
        _ => None,
    }
}

/// What the first of these words asks for that may stand at any place.
fn line_by_words<'a>(words: &[String], command: &'static Command) -> Option<Line<'a>> {
    for word in words {
        let line = line_by_word(word.as_str(), Some(command));
        if line.is_some() {
            return line;
        }
    }
    None
}

/// What the words ask for. The first is the program's name.
pub fn read_line<'a>(program: &CommandTable, words: &'a [String]) -> Result<Line<'a>, Misuse<'a>> {
    let (name, rest) = match words {
        [_, name, rest @ ..] => (name.as_str(), rest),
        _ => return Err(Misuse::NoCommand(program.name)),
    };
    if let Some(line) = line_by_word(name, None) {
        return Ok(line);
    }
    let Some(command) = program.command(name) else {
        return Err(Misuse::unknown_command(program, name));
    };
    match line_by_words(rest, command) {
        Some(line) => Ok(line),
        None => Ok(Line::Command(command, rest)),
    }
}
