//! What a program states of its command line: its commands, and the operands and options of each.

/// The least and the most that a number may be.
#[derive(Clone, Copy)]
pub struct Bounds {
    pub least: u64,
    pub most: u64,
}

/// Bounds that each number keeps.
pub const ANY_NUMBER: Bounds = Bounds {
    least: 0,
    most: u64::MAX,
};

/// What stands behind an option.
#[derive(Clone, Copy)]
pub enum Value {
    /// Nothing: the option is there or not.
    Nothing,
    /// A number within bounds, and what a missing option stands for, if for any.
    Number {
        missing: Option<u64>,
        bounds: Bounds,
    },
    /// The same, of powers of two.
    Power {
        missing: Option<u64>,
        bounds: Bounds,
    },
    /// `fixed`, `dynamic` or `steady`. A missing option stands for `dynamic`.
    Manager,
    /// Any word. Help calls it this.
    Word(&'static str),
}

/// An option of a command.
#[derive(Clone, Copy)]
pub struct CommandOption {
    /// As it is written, with its two dashes.
    pub name: &'static str,
    pub value: Value,
    pub about: &'static str,
}

/// What a command takes beside its options, most often a file.
#[derive(Clone, Copy)]
pub struct Operand {
    /// As the usage shows it, such as `FILE`, `[SCHEDULE]` or `LOG..`.
    pub usage: &'static str,
    /// What a message calls it where it is missing, such as `file`.
    pub name: &'static str,
    /// Whether it must be there.
    pub is_needed: bool,
    /// Whether more words like it may follow.
    pub may_repeat: bool,
}

/// A command.
#[derive(Clone, Copy)]
pub struct Command {
    pub name: &'static str,
    pub operands: &'static [Operand],
    pub options: &'static [CommandOption],
    pub about: &'static str,
    /// What its help says below the usage: whole lines, or nothing.
    pub note: &'static str,
}

/// A program and its commands.
#[derive(Clone, Copy)]
pub struct CommandTable {
    pub name: &'static str,
    /// What its help begins with.
    pub about: &'static str,
    /// What the usage shows behind the program's name.
    pub usage: &'static str,
    pub commands: &'static [Command],
}

impl CommandTable {
    /// The command of this name.
    pub fn command(&self, name: &str) -> Option<&'static Command> {
        for command in self.commands {
            if command.name == name {
                return Some(command);
            }
        }
        None
    }
}

impl Command {
    /// Its option of this name.
    pub fn option(&self, name: &str) -> Option<&'static CommandOption> {
        for option in self.options {
            if option.name == name {
                return Some(option);
            }
        }
        None
    }

    /// The operand at a place, from 0. The last one stands for each further word where it may repeat.
    pub fn operand(&self, place: usize) -> Option<&'static Operand> {
        match self.operands.get(place) {
            Some(operand) => Some(operand),
            None => match self.operands.last() {
                Some(last) if last.may_repeat => Some(last),
                _ => None,
            },
        }
    }
}
