//! What a command line asks for, with the texts of its files.
ghost use Rattle.std.specs.Prelude.{◌≤◌, IfOk};
ghost use Rattle.ivy_explain.specs.Statuses.{EndsWithin};

use crate::commands::program;
use crate::failure::{MISUSED, NOT_LEGAL, ScopeFailure};
use crate::faults::{Kind, explain, sound};
use crate::request::ScopeRequest;
use crate::verdict::judge;
use ivy_options::{Command, Given, Line, print_help, read_line};
use ivy_texts::Texts;
use std::alloc::Global;
use std::io::Write;

/// What `--version` prints.
const VERSION: &str = "ivyscope 1\n";

/// What became of a command line.
#[derive(Drop)]
pub enum Answered<'a> {
    /// It was carried out, with this exit status.
    Done(u8),
    /// It asks for something of programs.
    Asks(ScopeRequest<'a>),
}

fn text_of<'a, T: Texts>(files: &T, name: &'a str) -> Result<String, ScopeFailure<'a>> {
    match files.text(name)? {
        Some(text) => Ok(text),
        None => Err(ScopeFailure::Unreadable(name)),
    }
}

/// The text of a file that is no fault. Else standard error is told what is.
fn sound_text<'a, T: Texts, E: Write>(
    alloc: Global,
    kind: Kind,
    name: &'a str,
    files: &T,
    err: &mut E,
) -> Result<String, ScopeFailure<'a>> {
    let text = text_of(files, name)?;
    match sound(alloc, kind, name, text.as_str(), err) {
        Ok(()) => Ok(text),
        Err(failure) => Err(failure),
    }
}

/// The text of the schedule of a run, where it has one.
fn schedule_of<'a, T: Texts, E: Write>(
    alloc: Global,
    name: Option<&'a str>,
    files: &T,
    err: &mut E,
) -> Result<Option<String>, ScopeFailure<'a>> {
    match name {
        Some(name) => Ok(Some(sound_text(alloc, Kind::Schedule, name, files, err)?)),
        None => Ok(None),
    }
}

/// The file of a command. Each command needs one.
fn first_file<'a>(given: &Given<'a>) -> &'a str {
    given.file(0).unwrap_or("")
}

/// The texts of the programs, and of the schedule where there is one.
fn texts_of<'a, T: Texts, E: Write>(
    alloc: Global,
    given: &Given<'a>,
    files: &T,
    err: &mut E,
) -> Result<(String, Option<String>), ScopeFailure<'a>> {
    let programs = sound_text(alloc, Kind::Programs, first_file(given), files, err)?;
    match schedule_of(alloc, given.file(1), files, err) {
        Ok(schedule) => Ok((programs, schedule)),
        Err(failure) => Err(failure),
    }
}

/// What is asked of programs, with the texts of the files.
fn asked<'a, T: Texts, E: Write>(
    alloc: Global,
    given: Given<'a>,
    files: &T,
    err: &mut E,
) -> Result<Answered<'a>, ScopeFailure<'a>>
    ensures { IfOk result EndsWithin }
{
    match texts_of(alloc, &given, files, err) {
        Ok((programs, schedule)) => Ok(Answered::Asks(ScopeRequest {
            given,
            programs,
            schedule,
        })),
        Err(failure) => Err(failure),
    }
}

/// Says what is at fault in a text.
fn explained<'a, T: Texts, W: Write>(
    alloc: Global,
    file: &'a str,
    files: &T,
    out: &mut W,
) -> Result<u8, ScopeFailure<'a>>
    ensures { IfOk result (λ status. status ≤ 3) }
{
    let text = text_of(files, file)?;
    let is_sound = explain(alloc, file, text.as_str(), out)?;
    Ok(if is_sound { 0 } else { MISUSED })
}

/// Says whether an order is legal.
fn checked<'a, T: Texts, W: Write, E: Write>(
    alloc: Global,
    file: &'a str,
    files: &T,
    out: &mut W,
    err: &mut E,
) -> Result<u8, ScopeFailure<'a>>
    ensures { IfOk result (λ status. status ≤ 3) }
{
    let text = sound_text(alloc, Kind::Order, file, files, err)?;
    let is_legal = judge(alloc, file, text.as_str(), out)?;
    Ok(if is_legal { 0 } else { NOT_LEGAL })
}

/// Carries out a command that needs no run.
fn carry_out<'a, T: Texts, W: Write, E: Write>(
    alloc: Global,
    command: &'static Command,
    words: &'a [String],
    files: &T,
    out: &mut W,
    err: &mut E,
) -> Result<Answered<'a>, ScopeFailure<'a>>
    ensures { IfOk result EndsWithin }
{
    let given = Given::of(alloc, command, words)?;
    let done = match command.name {
        "explain" => explained(alloc, first_file(&given), files, out),
        "check" => checked(alloc, first_file(&given), files, out, err),
        _ => return asked(alloc, given, files, err),
    };
    match done {
        Ok(status) => Ok(Answered::Done(status)),
        Err(failure) => Err(failure),
    }
}

/// Carries out what a command line asks for, where that needs no run. The first word is the program's name. What is at
/// fault in a file is told on standard error.
pub fn answer<'a, T: Texts, W: Write, E: Write>(
    alloc: Global,
    words: &'a [String],
    files: &T,
    out: &mut W,
    err: &mut E,
) -> Result<Answered<'a>, ScopeFailure<'a>>
    ensures { IfOk result EndsWithin }
{
    match read_line(program(), words)? {
        Line::Help(command) => print_help(program(), command, out)?,
        Line::Version => out.write_all(VERSION.as_bytes())?,
        Line::Command(command, rest) => return carry_out(alloc, command, rest, files, out, err),
    }
    Ok(Answered::Done(0))
}
