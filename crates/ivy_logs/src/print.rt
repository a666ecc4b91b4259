//! What is written of frames and of logs.
ghost use Rattle.std.specs.Prelude.{◌≡◌, ◌++◌, OnOk, flat_map, string_bytes};
ghost use Rattle.ivy_logs.specs.Entries.{entry_line};
ghost use Rattle.ivy_logs.specs.Spelled.{fetch_word, manager_word};
ghost use Rattle.ivy_logs.specs.Printed.{event_line, first_line, frame_line, head_line, head_line_of_run, log_text, log_text_of_run, node_text, sum_end};

use crate::log::{LogEntry, LogHead, LogKind};
use crate::push_digits;
use ivy_model::Kind;
use ivy_moves::Event;
use ivy_texts::{CallText, Decimal, ReplyText};
use ivy_wire::Bytes;
use std::alloc::{AllocError, Allocator};
use std::fmt::Write;

/// Writes the line of a frame for a node behind a text. Err only where the allocator has no memory.
pub fn push_frame<A: Allocator + Copy>(
    alloc: A,
    text: &mut String<A>,
    to: u8,
    bytes: &[u8],
) -> Result<(), AllocError>
    ensures { OnOk result (string_bytes text.new ≡ string_bytes text.old ++ frame_line to bytes.now) }
{
    write!(text, "{} ", Decimal(u64::from(to)))?;
    push_digits(alloc, text, bytes)?;
    text.push('\n')
}

/// The word of the manager with which nodes begin, under a configuration that names this kind.
fn manager_word(steady: bool, kind: Kind) -> &'static str
    ensures { result.now ≡ manager_word steady kind }
{
    match (steady, kind) {
        (true, _) => "steady",
        (false, Kind::Fixed) => "fixed",
        (false, Kind::Dynamic) => "dynamic",
    }
}

/// Writes the words of a node and its configuration behind a text. Err only where the allocator has no memory.
fn push_node<A: Allocator>(text: &mut String<A>, head: &LogHead) -> Result<(), AllocError>
    ensures { OnOk result (string_bytes text.new ≡ string_bytes text.old ++ node_text head.now) }
{
    let (me, nodes) = (
        Decimal(u64::from(head.me)),
        Decimal(u64::from(head.config.nodes)),
    );
    let pages = Decimal(u64::from(head.config.pages));
    let page_size = Decimal(u64::from(head.config.page_size));
    let manager = manager_word(head.steady, head.config.manager);
    write!(text, " {me} {nodes} {pages} {page_size} {manager}")
}

/// Writes a sum behind a text, where there is one, and ends the line. Err only where the allocator has no memory.
fn push_sum<A: Allocator>(text: &mut String<A>, sum: Option<u64>) -> Result<(), AllocError>
    ensures { OnOk result (string_bytes text.new ≡ string_bytes text.old ++ sum_end sum) }
{
    match sum {
        Some(sum) => writeln!(text, " {}", Decimal(sum)),
        None => text.push_str("\n"),
    }
}

/// Writes the first line of a log of this kind behind a text, which names this sum, or none.
fn push_first<A: Allocator>(
    text: &mut String<A>,
    kind: LogKind,
    head: &LogHead,
    sum: Option<u64>,
) -> Result<(), AllocError>
    ensures { OnOk result (string_bytes text.new ≡ string_bytes text.old ++ first_line kind head.now sum) }
{
    text.push_str("ivy ")?;
    text.push_str(kind.word())?;
    push_node(text, head)?;
    push_sum(text, sum)
}

/// Writes the first line of a log of this kind behind a text, which names no sum. Err only where the allocator has no
/// memory.
pub fn push_head<A: Allocator>(
    text: &mut String<A>,
    kind: LogKind,
    head: &LogHead,
) -> Result<(), AllocError>
    ensures { OnOk result (string_bytes text.new ≡ string_bytes text.old ++ head_line kind head.now) }
{
    push_first(text, kind, head, None)
}

/// Writes the first line of the log of a program behind a text, with the sum of its run. Err only where the allocator has
/// no memory.
pub fn push_head_of_run<A: Allocator>(
    text: &mut String<A>,
    head: &LogHead,
    sum: u64,
) -> Result<(), AllocError>
    ensures { OnOk result (string_bytes text.new ≡ string_bytes text.old ++ head_line_of_run head.now sum) }
{
    push_first(text, LogKind::OfProgram, head, Some(sum))
}

/// Writes the line of an event behind a text. Err only where the allocator has no memory.
pub fn push_event<A: Allocator + Copy>(
    alloc: A,
    text: &mut String<A>,
    event: &Event<Bytes<A>>,
) -> Result<(), AllocError>
    ensures { OnOk result (string_bytes text.new ≡ string_bytes text.old ++ event_line event.now) }
{
    match event {
        Event::Turns(count) => writeln!(text, "turns {}", Decimal(*count)),
        Event::Pulsed(to) => writeln!(text, "pulse {}", Decimal(u64::from(*to))),
        Event::Delivered(bytes) => {
            text.push_str("took ")?;
            push_digits(alloc, text, bytes.bytes())?;
            text.push('\n')
        }
    }
}

/// The word of what a page is fetched ahead for.
fn fetch_word(write: bool) -> &'static str
    ensures { result.now ≡ fetch_word write }
{
    if write { "write" } else { "read" }
}

/// Writes the line of an entry behind a text. Err only where the allocator has no memory.
pub fn push_entry<A: Allocator + Copy>(
    alloc: A,
    text: &mut String<A>,
    entry: &LogEntry<Bytes<A>>,
) -> Result<(), AllocError>
    ensures { OnOk result (string_bytes text.new ≡ string_bytes text.old ++ entry_line entry.now) }
{
    match entry {
        LogEntry::Did(event) => push_event(alloc, text, event),
        LogEntry::Asked(call) => writeln!(text, "call {}", CallText(*call)),
        LogEntry::Answered(answer) => writeln!(
            text,
            "{} {}",
            ReplyText(answer.reply),
            CallText(answer.call)
        ),
        LogEntry::Fetched { page, write } => {
            let access = fetch_word(*write);
            writeln!(text, "fetch {access} {}", Decimal(u64::from(*page)))
        }
    }
}

/// Writes the lines of events behind a text.
fn push_events<A: Allocator + Copy>(
    alloc: A,
    text: &mut String<A>,
    events: &[Event<Bytes<A>>],
) -> Result<(), AllocError>
    ensures { OnOk result (string_bytes text.new ≡ string_bytes text.old ++ flat_map event_line events.now) }
{
    for event in events {
        push_event(alloc, text, event)?;
    }
    Ok(())
}

/// Writes a whole log of a program behind a text. Err only where the allocator has no memory.
pub fn push_log<A: Allocator + Copy>(
    alloc: A,
    text: &mut String<A>,
    head: &LogHead,
    events: &[Event<Bytes<A>>],
) -> Result<(), AllocError>
    ensures { OnOk result (string_bytes text.new ≡ string_bytes text.old ++ log_text head.now events.now) }
{
    push_head(text, LogKind::OfProgram, head)?;
    push_events(alloc, text, events)
}

/// Writes a whole log of a program behind a text, with the sum of its run. Err only where the allocator has no memory.
pub fn push_log_of_run<A: Allocator + Copy>(
    alloc: A,
    text: &mut String<A>,
    head: &LogHead,
    sum: u64,
    events: &[Event<Bytes<A>>],
) -> Result<(), AllocError>
    ensures { OnOk result (string_bytes text.new ≡ string_bytes text.old ++ log_text_of_run head.now sum events.now) }
{
    push_head_of_run(text, head, sum)?;
    push_events(alloc, text, events)
}
