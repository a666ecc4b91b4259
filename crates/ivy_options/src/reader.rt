//! From the words behind a command to its files and options.

use crate::given::{Given, GivenOption};
use crate::misuse::{Misuse, NoOptions};
use crate::numbers::{number_within, power_within};
use crate::table::{Command, CommandOption, Value};
use std::alloc::Global;

/// What the words so far give, and what the next one may be.
#[derive(Drop)]
pub(crate) struct Reader<'a> {
    pub(crate) given: Given<'a>,
    /// The option whose value is the next word.
    open: Option<&'static CommandOption>,
    /// Whether each further word is a file.
    only_files: bool,
}

/// The manager that a word names, as a word.
fn manager_word(word: &str) -> Result<&str, Misuse<'_>> {
    match word {
        "fixed" | "dynamic" | "steady" => Ok(word),
        _ => Err(Misuse::unknown_manager(word)),
    }
}

/// An option with the word behind it, if that suits.
fn given_option<'a>(
    option: &'static CommandOption,
    word: &'a str,
) -> Result<GivenOption<'a>, Misuse<'a>> {
    let name = option.name;
    let number = match option.value {
        Value::Number { bounds, .. } => Some(number_within(name, word, bounds)?),
        Value::Power { bounds, .. } => Some(power_within(name, word, bounds)?),
        Value::Manager => {
            manager_word(word)?;
            None
        }
        Value::Nothing | Value::Word(_) => None,
    };
    Ok(GivenOption { name, word, number })
}

impl<'a> Reader<'a> {
    /// No word was taken yet.
    pub(crate) fn new(alloc: Global, command: &'static Command) -> Reader<'a> {
        Reader {
            given: Given::nothing(alloc, command),
            open: None,
            only_files: false,
        }
    }

    /// Takes all words.
    pub(crate) fn take_all(&mut self, words: &'a [String]) -> Result<(), NoOptions<'a>> {
        for word in words {
            self.take(word.as_str())?;
        }
        match self.missing() {
            Some(misuse) => Err(NoOptions::Misused(misuse)),
            None => Ok(()),
        }
    }

    /// What is missing behind all words, if anything is.
    fn missing(&self) -> Option<Misuse<'a>> {
        if let Some(option) = self.open {
            return Some(Misuse::Lacks {
                name: option.name,
                what: "value",
            });
        }
        let command = self.given.command();
        match command.operands.get(self.given.files().len()) {
            Some(operand) if operand.is_needed => Some(Misuse::Lacks {
                name: command.name,
                what: operand.name,
            }),
            _ => None,
        }
    }

    /// Takes the next word.
    fn take(&mut self, word: &'a str) -> Result<(), NoOptions<'a>> {
        if let Some(option) = self.open {
            self.open = None;
            return self.choose(option, word);
        }
        if self.only_files || !word.starts_with('-') || word == "-" {
            return self.file(word);
        }
        if word == "--" {
            self.only_files = true;
            return Ok(());
        }
        self.option(word)
    }

    fn file(&mut self, word: &'a str) -> Result<(), NoOptions<'a>> {
        let command = self.given.command();
        if command.operand(self.given.files().len()).is_some() {
            return Ok(self.given.push_file(word)?);
        }
        Err(NoOptions::Misused(Misuse::FurtherFile {
            command: command.name,
            word,
        }))
    }

    /// An option, perhaps with its value behind an equals sign.
    fn option(&mut self, word: &'a str) -> Result<(), NoOptions<'a>> {
        let (name, value) = match word.split_once('=') {
            Some((name, value)) => (name, Some(value)),
            None => (word, None),
        };
        let command = self.given.command();
        match command.option(name) {
            Some(option) => self.begin(option, value),
            None => Err(NoOptions::Misused(Misuse::unknown_option(command, name))),
        }
    }

    /// An option of the command, with its value where that is given.
    fn begin(
        &mut self,
        option: &'static CommandOption,
        value: Option<&'a str>,
    ) -> Result<(), NoOptions<'a>> {
        let takes_none = matches!(option.value, Value::Nothing);
        match value {
            Some(_) if takes_none => { Err(NoOptions::Misused(Misuse::NeedlessValue(option.name))) }
            Some(value) => self.choose(option, value),
            None if takes_none => self.choose(option, ""),
            None => {
                self.open = Some(option);
                Ok(())
            }
        }
    }

    /// Adds an option with the word behind it.
    fn choose(
        &mut self,
        option: &'static CommandOption,
        word: &'a str,
    ) -> Result<(), NoOptions<'a>> {
        if self.given.has(option.name) {
            return Err(NoOptions::Misused(Misuse::GivenTwice(option.name)));
        }
        let given = given_option(option, word)?;
        Ok(self.given.push_option(given)?)
    }
}
