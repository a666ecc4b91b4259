//! How often a node made each call.

use ivy_model::{Call, Record, Reply};
use std::io::{self, Write};

/// How many kinds of calls there are, with those that were refused.
const KINDS: usize = 11;

static NAMES: [&str; KINDS] = [
    "load", "store", "swap", "cas", "fadd", "count", "advance", "await", "alloc", "free", "refused",
];

fn place_of(call: Call) -> usize {
    match call {
        Call::Load { .. } => 0,
        Call::Store { .. } => 1,
        Call::Swap { .. } => 2,
        Call::Cas { .. } => 3,
        Call::FetchAdd { .. } => 4,
        Call::Count { .. } => 5,
        Call::Advance { .. } => 6,
        Call::Await { .. } => 7,
        Call::Alloc { .. } => 8,
        Call::Free { .. } => 9,
    }
}

/// How often each call was made, and how many calls were refused.
fn numbers_of(history: &[Record]) -> [u64; KINDS] {
    let mut numbers = [0u64; KINDS];
    for record in history {
        let place = match record.reply {
            Reply::Refused(_) => KINDS - 1,
            _ => place_of(record.call),
        };
        if let Some(number) = numbers.get_mut(place) {
            *number = number.saturating_add(1);
        }
    }
    numbers
}

/// Prints how often a node made each call, and how many of them were refused.
pub fn print_calls<W: Write>(node: u64, history: &[Record], out: &mut W) -> io::Result<()> {
    let numbers = numbers_of(history);
    write!(out, "node {node}:")?;
    for place in 0..KINDS {
        if numbers[place] > 0 {
            write!(out, " {} {}", NAMES[place], numbers[place])?;
        }
    }
    out.write_all(b"\n")
}
