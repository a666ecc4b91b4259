//! Whole commands.
ghost use Rattle.std.specs.Prelude.{◌≡◌, ◌≤◌, ◌⊎◌, IfOk, IfErr, OnOk, MatchResult, length};
ghost use Rattle.ivy_simulation.specs.Played.{config_of};
ghost use Rattle.ivy_commands.specs.Commands.{final_status, AreSpelled, IsCarriedOut, IsRequestDone, IsSessionFailure, PrintsSession};

use crate::failure::Failure;
use crate::print::OutputLines;
use ivy_arguments::IvyCommand;
use ivy_program::{Program, parse};
use ivy_session::{Keep, Limits, OpenGate, Session};
use ivy_simulation::{check, sim, step};
use ivy_texts::{Settings, Texts};
use std::alloc::Global;
use std::io::{self, Write};
use std::sync::Wait;
use std::thread::Threads;

/// The exit status where the command line, a file or the configuration is at fault.
const MISUSED: u8 = 2;

/// The exit status of an order that is not legal.
const NOT_LEGAL: u8 = 3;

fn text_of<'a, T: Texts>(files: &T, name: &'a str) -> Result<String, Failure<'a>> {
    files.text(name)?.ok_or(Failure::CannotRead(name))
}

/// The programs of a file.
fn programs_of<'a, T: Texts>(
    alloc: Global,
    files: &T,
    name: &'a str,
) -> Result<Vec<Program<Global>>, Failure<'a>>
    ensures { IfOk result (λ programs. AreSpelled programs.items) }
{
    Ok(parse(alloc, text_of(files, name)?.as_str())?)
}

/// Runs programs in threads, and prints what they printed.
fn run<'a, R: Threads + Wait + Sync, W: Write>(
    rt: &R,
    alloc: Global,
    programs: Vec<Program<Global>>,
    limits: Limits,
    settings: Settings,
    out: &mut W,
) -> Result<(), Failure<'a>>
    ensures done { OnOk result (PrintsSession (config_of settings (length programs.items)) programs.items (W.contents out.old) (W.contents out.new)) }
    ensures failed { IfErr result IsSessionFailure }
{
    let config = settings.config(programs.len())?;
    let printed = Session::print::<OutputLines, _, _, _, _>(
        rt,
        alloc,
        config,
        programs,
        limits,
        &OpenGate,
        Keep::Nothing,
        out,
    )?;
    printed?;
    Ok(())
}

/// Carries out a request, and gives the exit status.
fn carry_out<'a, R: Threads + Wait + Sync, T: Texts, W: Write>(
    rt: &R,
    alloc: Global,
    request: IvyCommand<'a>,
    files: &T,
    out: &mut W,
) -> Result<u8, Failure<'a>>
    ensures { MatchResult result (λ status. IsCarriedOut request.entry status (W.contents out.old) (W.contents out.new)) (λ _. Unit {0}) }
{
    match request {
        IvyCommand::Run {
            file,
            turns,
            capacity,
            pulse,
            settings,
        } => {
            let programs = programs_of(alloc, files, file)?;
            let limits = Limits {
                capacity,
                turns,
                pulse_every: pulse,
            };
            run(rt, alloc, programs, limits, settings, out)?;
            Ok(0)
        }
        IvyCommand::Step {
            file,
            schedule,
            settings,
        } => {
            let programs = programs_of(alloc, files, file)?;
            let schedule = text_of(files, schedule)?;
            step(alloc, programs, schedule.as_str(), settings, out)?;
            Ok(0)
        }
        IvyCommand::Sim {
            file,
            seed,
            moves,
            settings,
        } => {
            let programs = programs_of(alloc, files, file)?;
            sim(alloc, programs, seed, moves, settings, out)?;
            Ok(0)
        }
        IvyCommand::Check { order } => {
            let text = text_of(files, order)?;
            let is_legal = check(alloc, text.as_str(), out)?;
            Ok(if is_legal { 0 } else { NOT_LEGAL })
        }
    }
}

/// Carries out what the words ask for, and gives the exit status.
fn obey<'a, R: Threads + Wait + Sync, T: Texts, W: Write>(
    rt: &R,
    alloc: Global,
    words: &'a [String],
    files: &T,
    out: &mut W,
) -> Result<u8, Failure<'a>>
    ensures { MatchResult result (λ status. IsRequestDone status (W.contents out.old) (W.contents out.new)) (λ _. Unit {0}) }
{
    let request = IvyCommand::read(alloc, words)?;
    carry_out(rt, alloc, request, files, out)
}

/// The exit status of a command that ended so, and where standard output then took all of it or not. Standard error is
/// told of a failure.
///
/// What is found before a run stands, since nothing was printed then. Else nothing more is printed where standard output
/// did not take all.
fn concluded<E: Write>(done: Result<u8, Failure<'_>>, flushed: io::Result<()>, err: &mut E) -> u8
    ensures { result ≡ final_status done.entry flushed }
{
    let failure = match (done, flushed) {
        (Ok(status), Ok(())) => return status,
        (Err(failure), Ok(())) => failure,
        (Err(failure), Err(_)) if failure.status() == MISUSED => failure,
        (_, Err(_)) => Failure::Unwritten,
    };
    failure.report(err)
}

/// Carries out a command and gives its exit status: 0 where it was done, 1 where the run was refused
/// or standard output took no more, 2 where the command line, a file or the configuration is at
/// fault, and 3 where an order is not legal.
///
/// The first word is the program's name. What is at fault is printed on standard error.
pub fn perform<R: Threads + Wait + Sync, T: Texts, O: Write, E: Write>(
    rt: &R,
    alloc: Global,
    words: &[String],
    files: &T,
    out: &mut O,
    err: &mut E,
) -> u8
    ensures known { result ≤ 3 }
    ensures done { (result ≡ 0) ⊎ (result ≡ 3) → IsRequestDone result (O.contents out.old) (O.contents out.new) }
{
    let done = obey(rt, alloc, words, files, out);
    let flushed = out.flush();
    concluded(done, flushed, err)
}
