//! What a node runs: program texts, their parser and machine, or own code as a list of calls.
//!
//! Numbers in brackets, as `[1, 20]`, are those of the faults that a call may answer.
#![tactic(auto)]

mod caller;
mod instruction;
mod interpreter;
mod line;
mod machine;
mod parser;
mod program;
mod story;
mod words;

pub use instruction::{Instruction, Operation, Register, Width};
pub use machine::{Machine, Next};
pub use parser::parse;
pub use program::Program;
pub use words::{few_words, parse_number, words_of};
