//! The files and options behind a command.

use crate::misuse::NoOptions;
use crate::reader::Reader;
use crate::table::{Command, Value};
use std::alloc::{AllocError, Global};

/// An option that is given, with what stands behind it.
#[derive(Clone, Copy)]
pub(crate) struct GivenOption<'a> {
    pub(crate) name: &'static str,
    /// Empty where the option takes no value.
    pub(crate) word: &'a str,
    /// What the word spells, where the option takes a number.
    pub(crate) number: Option<u64>,
}

/// The files and options behind a command.
#[derive(Drop)]
pub struct Given<'a> {
    command: &'static Command,
    files: Vec<&'a str>,
    options: Vec<GivenOption<'a>>,
}

impl<'a> Given<'a> {
    /// What the words behind a command give.
    pub fn of(
        alloc: Global,
        command: &'static Command,
        words: &'a [String],
    ) -> Result<Given<'a>, NoOptions<'a>> {
        let mut reader = Reader::new(alloc, command);
        match reader.take_all(words) {
            Ok(()) => Ok(reader.given),
            Err(why) => Err(why),
        }
    }

    /// Nothing behind this command.
    pub(crate) fn nothing(alloc: Global, command: &'static Command) -> Given<'a> {
        Given {
            command,
            files: Vec::new(alloc),
            options: Vec::new(alloc),
        }
    }

    pub(crate) fn push_file(&mut self, word: &'a str) -> Result<(), AllocError> {
        Ok(self.files.push(word)?)
    }

    pub(crate) fn push_option(&mut self, option: GivenOption<'a>) -> Result<(), AllocError> {
        Ok(self.options.push(option)?)
    }

    /// The command.
    pub fn command(&self) -> &'static Command {
        self.command
    }

    /// The words that are no options, in order.
    pub fn files(&self) -> &[&'a str] {
        &self.files
    }

    /// The file at a place, from 0, where it is given.
    pub fn file(&self, place: usize) -> Option<&'a str> {
        self.files.get(place).copied()
    }

    /// The option of this name, where it is given.
    fn option(&self, name: &str) -> Option<GivenOption<'a>> {
        for option in self.options.iter() {
            if option.name == name {
                return Some(*option);
            }
        }
        None
    }

    /// Whether an option is given.
    pub fn has(&self, name: &str) -> bool {
        self.option(name).is_some()
    }

    /// The word behind an option, where that is given.
    pub fn word(&self, name: &str) -> Option<&'a str> {
        Some(self.option(name)?.word)
    }

    /// The number of an option, or what stands for a missing one.
    pub fn number(&self, name: &str) -> Option<u64> {
        if let Some(option) = self.option(name) {
            return option.number;
        }
        match self.command.option(name)?.value {
            Value::Number { missing, .. } | Value::Power { missing, .. } => missing,
            _ => None,
        }
    }
}
