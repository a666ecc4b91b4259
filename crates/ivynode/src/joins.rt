//! The files that a command line names, and the joining of logs.
ghost use Rattle.std.specs.Prelude.{◌≡◌, ◌<◌, ◌++◌, length, map, slice_get, IfErr, IfOk, IfSome, OnOk};
ghost use Rattle.std.specs.List.{All};
ghost use Rattle.std.specs.Io.KnownBytes.{Appends};
ghost use Rattle.ivy_simulation.specs.Nodes.{outputs_text};
ghost use Rattle.ivy_join.specs.Calls.{HandNothing};
ghost use Rattle.ivynode.specs.Joined.{AreOfNoRun, AreRefused, AreSpelled, IsNoRun, IsSpelled, PrintsJoined, PrintsRun, outputs_in, ends_in};
ghost use Rattle.ivynode.specs.OwnJoined.{PrintsOwnJoined, all_answered_in, all_open_in, answered_line, is_whole, open_line, own_text};

use crate::failure::Failure;
use crate::fetched::print_fetched;
use ivy_join::{Joined, Unjoined, join_opened, join_own_opened};
use ivy_logs::{Log, LogKind, count_answers, parse_log};
use ivy_model::{Config, Fault};
use ivy_program::{Program, parse};
use ivy_simulation::{Outputs, print_outputs};
use ivy_texts::{Decimal, print_end};
use std::alloc::Global;
use std::fs;
use std::io::{self, ErrorKind, Write};
use std::rt::Files;

/// The nodes of a run at its end.
#[derive(Drop)]
struct Nodes<'a>(&'a Joined<Global>);

impl Outputs for Nodes<'_> {
    ghost use Rattle.std.specs.Prelude.{length};
    ghost use Rattle.ivynode.specs.Joined.{outputs_in};

    ghost count = { λ n. length n.0.now };

    ghost outputs = { λ n. outputs_in n.0.now };

    fn nodes(&self) -> u64 {
        self.0.nodes()
    }

    fn output(&self, node: u64) -> &[u64] {
        self.0.output(node)
    }
}

fn cannot_read(alloc: Global, name: &str) -> Failure
    ensures { IsNoRun result → ⊥ }
{
    match String::from_str(alloc, name) {
        Ok(name) => Failure::CannotRead(name),
        Err(_) => Failure::Refused(Fault::Memory),
    }
}

/// A fault of the text of a file.
pub(crate) fn fault_in(alloc: Global, name: &str, fault: Fault) -> Failure
    ensures { IsNoRun result → ⊥ }
{
    if fault == Fault::Memory {
        return Failure::Refused(fault);
    }
    match String::from_str(alloc, name) {
        Ok(name) => Failure::AtFault(name, fault),
        Err(_) => Failure::Refused(Fault::Memory),
    }
}

fn refused(alloc: Global, name: &str, error: &io::Error) -> Failure
    ensures { IsNoRun result → ⊥ }
{
    match error.kind() {
        ErrorKind::OutOfMemory => Failure::Refused(Fault::Memory),
        _ => cannot_read(alloc, name),
    }
}

/// The text of a file.
pub(crate) fn text_of<R: Files + AllocGlobal>(rt: &R, name: &str) -> Result<String, Failure>
    ensures { IfErr result (λ why. IsNoRun why → ⊥) }
{
    match fs::read_to_string(rt, name) {
        Ok(text) => Ok(text),
        Err(error) => Err(refused(rt.alloc(), name, &error)),
    }
}

/// The programs of the text of a file.
pub(crate) fn programs_in(
    alloc: Global,
    name: &str,
    text: &str,
) -> Result<Vec<Program<Global>>, Failure>
    ensures spelled { IfOk result (λ programs. AreSpelled programs.items) }
    ensures other { IfErr result (λ why. IsNoRun why → ⊥) }
{
    match parse(alloc, text) {
        Ok(programs) => Ok(programs),
        Err(fault) => Err(fault_in(alloc, name, fault)),
    }
}

/// The programs of a file.
pub(crate) fn programs_of<R: Files + AllocGlobal>(
    rt: &R,
    name: &str,
) -> Result<Vec<Program<Global>>, Failure>
    ensures spelled { IfOk result (λ programs. AreSpelled programs.items) }
    ensures other { IfErr result (λ why. IsNoRun why → ⊥) }
{
    let text = text_of(rt, name)?;
    programs_in(rt.alloc(), name, text.as_str())
}

/// The log of this kind of this text, which is that of a file.
fn log_of(alloc: Global, kind: LogKind, name: &str, text: &str) -> Result<Log<Global>, Failure>
    ensures spelled { IfOk result (λ log. IsSpelled kind log.head log.entries.items) }
    ensures other { IfErr result (λ why. IsNoRun why → ⊥) }
{
    match parse_log(alloc, kind, text) {
        Ok(log) => Ok(log),
        Err(fault) => Err(fault_in(alloc, name, fault)),
    }
}

/// The logs of this kind of these files, by the numbers of their nodes.
fn logs_of<R: Files + AllocGlobal>(
    rt: &R,
    kind: LogKind,
    names: &[&str],
) -> Result<Vec<Log<Global>>, Failure>
    ensures spelled { IfOk result (λ logs. All (λ l. IsSpelled kind l.head l.entries.items) logs.items) }
    ensures other { IfErr result (λ why. IsNoRun why → ⊥) }
{
    let mut logs = Vec::new(rt.alloc());
    for name in names {
        let text = text_of(rt, name)?;
        logs.push(log_of(rt.alloc(), kind, name, text.as_str())?)?;
    }
    logs.sort_by_key(|log| log.head.me)?;
    Ok(logs)
}

/// Prints which programs have ended.
fn print_ends<W: Write>(joined: &Joined<Global>, out: &mut W) -> io::Result<()>
    ensures { OnOk result (Appends (W.contents out.old) (W.contents out.new) (ends_in joined.now)) }
{
    for node in 0..joined.nodes() {
        print_end(node, joined.ended(node), out)?;
    }
    Ok(())
}

/// Prints what each program printed, and which of them have ended.
fn print_joined<W: Write>(joined: &Joined<Global>, out: &mut W) -> io::Result<()>
    ensures { OnOk result (Appends (W.contents out.old) (W.contents out.new) (outputs_text (outputs_in joined.now) ++ ends_in joined.now)) }
{
    print_outputs(&Nodes(joined), out)?;
    print_ends(joined, out)
}

/// Joins logs, which stand in the order of their nodes, and prints what the programs printed.
///
/// The failure says of logs without calls and fetches that they are not the parts of a run only where they are the
/// parts of none.
fn join_logs<W: Write>(
    alloc: Global,
    programs: Vec<Program<Global>>,
    logs: &[Log<Global>],
    out: &mut W,
) -> Result<(), Failure>
    ensures joined { OnOk result (PrintsRun programs.items (map (λ l. l.head) logs.now) (map (λ l. l.entries.items) logs.now) (W.contents out.old) (W.contents out.new)) }
    ensures refused { IfErr result (λ why. IsNoRun why → HandNothing (map (λ l. l.entries.items) logs.now) → AreOfNoRun programs.items (map (λ l. l.head) logs.now) (map (λ l. l.entries.items) logs.now)) }
{
    let Some(first) = logs.first() else {
        return Err(Failure::Unjoined(Unjoined::Missing(0)));
    };
    let joined = join_opened(alloc, first.head.steady, first.head.config, programs, logs)?;
    print_joined(&joined, out)?;
    Ok(())
}

/// Joins the logs of these files, and prints what the programs printed. The failure says that they are not the parts of a
/// run only where they are the parts of none.
pub(crate) fn join_files<R: Files + AllocGlobal, W: Write>(
    rt: &R,
    file: &str,
    names: &[&str],
    out: &mut W,
) -> Result<(), Failure>
    ensures joined { OnOk result (PrintsJoined (W.contents out.old) (W.contents out.new)) }
    ensures refused { IfErr result (λ why. IsNoRun why → AreRefused) }
{
    let programs = programs_of(rt, file)?;
    let logs = logs_of(rt, LogKind::OfProgram, names)?;
    join_logs(rt.alloc(), programs, &logs, out)
}

/// Prints a line that says how many calls of a node were answered.
fn print_count<W: Write>(node: u64, count: u64, out: &mut W) -> io::Result<()>
    ensures { OnOk result (Appends (W.contents out.old) (W.contents out.new) (answered_line node count)) }
{
    writeln!(out, "node {}: {} answered", Decimal(node), Decimal(count))
}

/// Prints how many calls of each node were answered.
fn print_answered<W: Write>(joined: &Joined<Global>, out: &mut W) -> io::Result<()>
    ensures { OnOk result (Appends (W.contents out.old) (W.contents out.new) (all_answered_in joined.now)) }
{
    for node in 0..joined.nodes() {
        print_count(node, joined.records(node), out)?;
    }
    Ok(())
}

/// Whether a node has no call in progress, and its log all that it was answered.
fn has_all(joined: &Joined<Global>, node: u64, log: &Log<Global>) -> bool
    requires { node < length joined.now }
    ensures { IfSome (slice_get joined.now node) (λ s. result ≡ is_whole log.now.entries.items s) }
{
    joined.asked(node).is_none() && joined.records(node) == count_answers(&log.entries)
}

/// Prints that a node is open, where it is not whole.
fn print_if_open<W: Write>(node: u64, is_whole: bool, out: &mut W) -> io::Result<()>
    ensures { OnOk result (Appends (W.contents out.old) (W.contents out.new) (open_line node is_whole)) }
{
    if is_whole {
        return Ok(());
    }
    print_end(node, false, out)
}

/// Prints a line for each node that has a call in progress, or whose log lacks what it was answered last.
fn print_open<W: Write>(
    joined: &Joined<Global>,
    logs: &[Log<Global>],
    out: &mut W,
) -> io::Result<()>
    requires { length logs.now ≡ length joined.now }
    ensures { OnOk result (Appends (W.contents out.old) (W.contents out.new) (all_open_in (map (λ l. l.entries.items) logs.now) joined.now)) }
{
    for node in 0..joined.nodes() {
        let is_whole = has_all(joined, node, &logs[node as usize]);
        print_if_open(node, is_whole, out)?;
    }
    Ok(())
}

/// Prints what is said of logs of own code that were joined.
fn print_own<W: Write>(
    alloc: Global,
    config: &Config,
    joined: &Joined<Global>,
    logs: &[Log<Global>],
    out: &mut W,
) -> io::Result<()>
    requires { length logs.now ≡ length joined.now }
    ensures { OnOk result (Appends (W.contents out.old) (W.contents out.new) (own_text config.now (map (λ l. l.entries.items) logs.now) joined.now)) }
{
    print_answered(joined, out)?;
    print_fetched(alloc, config, logs, out)?;
    print_open(joined, logs, out)
}

/// Joins the logs of own code of these files, and prints how many calls of each node were answered, how many pages its code
/// had fetched ahead and called for, and which nodes have a call in progress, or lack in their log what they were answered last.
pub(crate) fn join_own_files<R: Files + AllocGlobal, W: Write>(
    rt: &R,
    names: &[&str],
    out: &mut W,
) -> Result<(), Failure>
    ensures { OnOk result (PrintsOwnJoined (W.contents out.old) (W.contents out.new)) }
{
    let logs = logs_of(rt, LogKind::OfOwnCode, names)?;
    let Some(first) = logs.first() else {
        return Err(Failure::Unjoined(Unjoined::Missing(0)));
    };
    let config = first.head.config;
    let joined = join_own_opened(rt.alloc(), first.head.steady, config, &logs)?;
    print_own(rt.alloc(), &config, &joined, &logs, out)?;
    Ok(())
}
