//! The lines of a node in a process: frames in hexadecimal digits, and its log.
//!
//! A frame's line is `TO HEX`: the node that it is for, and its string of bytes. A log is a line `ivy log I N P S
//! fixed`, `dynamic` or `steady` of node I, where it is told with the sum of its run behind it, and then the node's events:
//! `turns N`, `took HEX` and `pulse J`. Every line ends in LF. What stands behind a log's last LF is no line yet: the
//! node was killed while it wrote. By a line `TO sum I SUM` node I tells another one that sum.
//!
//! A log of own code begins with `ivy own` in place of `ivy log`, and has besides what the node's code called and was
//! answered: `call CALL`, and then `done CALL`, `value X CALL` or `refused C CALL`. And it has the pages that the code
//! had fetched ahead: `fetch read P` or `fetch write P`, which is the turn too in which the node asked for the page.
//!
//! Numbers in brackets, as `[1, 20]`, are those of the faults that a call may answer.
//!
//! What the digits of bytes are, the crate `hex` says, in whose words the contracts speak. It goes digit by digit,
//! through a table and a match, which takes five times as many instructions. Here each digit is made without a branch, so
//! that the compiler makes sixteen at once.
#![tactic(auto)]

mod frame;
mod laws;
mod log;
mod print;
mod sum;
mod sum_line;
mod write;

pub use frame::{FrameLine, parse_frame};
pub use laws::logs_read_back;
pub use log::{Log, LogEntry, LogHead, LogKind, bytes_of, count_answers, parse_log};
pub use print::{
    push_entry, push_event, push_frame, push_head, push_head_of_run, push_log, push_log_of_run,
};
pub use sum::{sum_of_run, sum_opened};
pub use sum_line::{SumLine, parse_sum_line, push_sum_line};
pub use write::push_digits;
