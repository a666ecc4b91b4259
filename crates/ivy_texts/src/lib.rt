//! Texts of schedules, orders and printed values, drawn moves, and the files that commands read.
//!
//! A schedule has a world's moves, one a line, and an order the records of all nodes. Numbers in brackets, as `[1,
//! 20]`, are those of the faults that a call may answer.
//!
//! The texts of the files that a command line names, whatever knows them.
#![tactic(auto)]

mod drawn;
mod order;
mod print;
mod schedule;
mod settings;
mod texts;

pub use drawn::{draw, generator_of};
pub use order::{Order, Sizes, parse_byte, parse_call, parse_order};
pub use print::{
    CallText, Decimal, MoveText, RecordText, ReplyText, kind_name, print_end, print_output,
    print_verdict,
};
pub use schedule::parse_schedule;
pub use settings::Settings;
pub use texts::{FilesOf, Texts};
