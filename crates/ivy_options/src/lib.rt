//! A command line reader driven by a table of commands and options, for ivyscope.
//!
//! A program states its commands in a constant [`CommandTable`]. [`read_line`] gives the command of a line, or that help is wanted;
//! [`Given::of`] gives the files and options behind a command. What no row of the table allows is a [`Misuse`], whose text
//! names the word at fault and what is perhaps meant.
#![tactic(auto)]

mod given;
mod help;
mod line;
mod misuse;
mod nearest;
mod numbers;
mod reader;
mod settings;
mod shown;
mod table;

pub use given::Given;
pub use help::print_help;
pub use line::{Line, read_line};
pub use misuse::{Misuse, NoOptions};
pub use nearest::Nearest;
pub use settings::{MANAGER, PAGE_SIZE, PAGES};
pub use shown::{Shown, width_of};
pub use table::{ANY_NUMBER, Bounds, Command, CommandOption, CommandTable, Operand, Value};
