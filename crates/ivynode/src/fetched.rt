//! How many pages own code had fetched ahead, by its log, and how many of them it called for.
ghost use Rattle.std.specs.Prelude.{◌≡◌, ◌+◌, ◌<◌, ◌≤◌, ◌^◌, ◌∷◌, List, false, length, map, slice_index_or, slice_set, IfOk, OnOk};
ghost use Rattle.std.specs.Io.KnownBytes.{Appends};
ghost use Rattle.ivy_model.specs.stated.Accesses.{kind_of_call};
ghost use Rattle.ivy_logs.specs.Entries.{LogEntry as Told};
ghost use Rattle.ivynode.specs.Fetched.{IsCounted, all_fetched_in, fetched_in, fetched_line, page_of, used_in};

use ivy_logs::{Log, LogEntry};
use ivy_model::{Call, CallKind, Config};
use ivy_texts::Decimal;
use ivy_wire::Bytes;
use std::alloc::{AllocError, Global};
use std::io::{self, Write};

/// How many pages were fetched ahead, and how many of them a call asked for before they were fetched again.
#[derive(Clone, Copy)]
struct Counts {
    fetched: u64,
    used: u64,
}

/// The page that a call is about: that of its word, or the first one, where the counts lie.
fn page_of(call: Call, page_size: u32) -> Option<u64>
    ensures { result ≡ page_of page_size (kind_of_call call) }
{
    match call.kind() {
        CallKind::Word { addr, .. } => addr.checked_div(u64::from(page_size)),
        CallKind::Count { .. } | CallKind::Advance { .. } | CallKind::Await { .. } => Some(0),
        CallKind::Alloc { .. } | CallKind::Free { .. } => None,
    }
}

/// Puts down whether a call for a page comes, where there is such a page, and says whether that stood there before.
fn put(called: &mut [bool], page: usize, comes: bool) -> bool
    ensures was { result ≡ slice_index_or called.old page false }
    ensures put { called.new ≡ slice_set called.old page comes }
{
    if page >= called.len() {
        return false;
    }
    let was = called[page];
    called[page] = comes;
    was
}

/// Counts an entry, before which those behind it were counted.
fn count_entry(
    entry: &LogEntry<Bytes<Global>>,
    page_size: u32,
    called: &mut [bool],
    counts: Counts,
) -> Counts
    requires few { counts.fetched < 2 ^ 63 }
    requires used { counts.used ≤ counts.fetched }
    ensures counted { (rest : List Told) → IsCounted page_size (length called.old) rest called.old counts.fetched counts.used → IsCounted page_size (length called.old) (entry.now ∷ rest) called.new result.fetched result.used }
    ensures few { result.fetched ≤ counts.fetched + 1 }
    ensures used { result.used ≤ result.fetched }
{
    match entry {
        LogEntry::Fetched { page, .. } => {
            let is_used = put(called, *page as usize, false);
            Counts {
                fetched: counts.fetched + 1,
                used: counts.used + u64::from(is_used),
            }
        }
        LogEntry::Asked(call) => {
            if let Some(page) = page_of(*call, page_size) {
                let _ = put(called, page as usize, true);
            }
            counts
        }
        LogEntry::Did(_) | LogEntry::Answered(_) => counts,
    }
}

/// Counts the entries of a log, the last one first.
fn count_fetches(
    alloc: Global,
    config: &Config,
    entries: &[LogEntry<Bytes<Global>>],
) -> Result<Counts, AllocError>
    ensures fetched { IfOk result (λ counts. counts.fetched ≡ fetched_in entries.now) }
    ensures used { IfOk result (λ counts. counts.used ≡ used_in config.now.page_size config.now.pages entries.now) }
{
    let mut called = vec![in alloc; false; config.pages as usize]?;
    let mut counts = Counts {
        fetched: 0,
        used: 0,
    };
    for at in (0..entries.len()).rev() {
        counts = count_entry(
            &entries[at],
            config.page_size,
            called.as_mut_slice(),
            counts,
        );
    }
    Ok(counts)
}

/// Prints the line of a node, where any page was fetched.
fn print_line<W: Write>(node: u64, counts: Counts, out: &mut W) -> io::Result<()>
    ensures { OnOk result (Appends (W.contents out.old) (W.contents out.new) (fetched_line node counts.fetched counts.used)) }
{
    if counts.fetched == 0 {
        return Ok(());
    }
    let (fetched, used) = (Decimal(counts.fetched), Decimal(counts.used));
    writeln!(
        out,
        "node {}: {fetched} fetched, {used} used",
        Decimal(node)
    )
}

/// Prints of each node whose code had pages fetched how many, and how many of them it called for.
pub(crate) fn print_fetched<W: Write>(
    alloc: Global,
    config: &Config,
    logs: &[Log<Global>],
    out: &mut W,
) -> io::Result<()>
    ensures { OnOk result (Appends (W.contents out.old) (W.contents out.new) (all_fetched_in config.now (map (λ l. l.entries.items) logs.now))) }
{
    for node in 0..logs.len() {
        let counts = count_fetches(alloc, config, &logs[node].entries)?;
        print_line(node as u64, counts, out)?;
    }
    Ok(())
}
