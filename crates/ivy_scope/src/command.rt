//! Whole commands.
ghost use Rattle.std.specs.Prelude.{IfOk};
ghost use Rattle.ivy_scope.specs.Statuses.{IsStatus};

use crate::logs::Logs;
use crate::played::{Run, order, schedule, shortest};
use crate::searches::look;
use crate::sessions::run;
use crate::settled::settle;
use crate::traces::{trace, trace_objects};
use crate::views::{both, chart, counts};
use ivy_explain::{Answered, MISUSED, ScopeFailure, ScopeRequest, Showing, Task, answer};
use ivy_replay::Progress;
use ivy_texts::Texts;
use std::alloc::Global;
use std::io::Write;
use std::sync::Wait;
use std::thread::Threads;

/// Prints what is to be seen of a run.
fn show<W: Write, E: Write, P: Progress>(
    alloc: Global,
    request: &ScopeRequest<'_>,
    view: Showing,
    out: &mut W,
    err: &mut E,
    progress: &mut P,
) -> Result<(), ScopeFailure<'static>> {
    let run = Run::of(alloc, request)?;
    match view {
        Showing::Schedule => schedule(&run, out, progress),
        Showing::Shortest => shortest(&run, out, err, progress),
        Showing::Order => order(&run, out, progress),
        Showing::Chart => chart(&run, request, out, err, progress),
        Showing::Counts => counts(&run, out, progress),
        Showing::Both => both(&run, out, progress),
        Showing::Trace => trace(&run, out, progress),
        Showing::Objects => trace_objects(&run, out, progress),
    }
}

/// Carries out what is asked of programs, and gives the exit status.
fn carry_out<
    'a,
    R: Threads + Wait + AllocGlobal + Sync,
    L: Logs,
    W: Write,
    E: Write + Send,
    P: Progress + Send,
>(
    rt: &R,
    request: &ScopeRequest<'a>,
    files: &L,
    out: &mut W,
    err: &mut E,
    progress: &mut P,
) -> Result<u8, ScopeFailure<'a>>
    ensures { IfOk result IsStatus }
{
    let alloc = rt.alloc();
    match request.task() {
        Task::Run => run(rt, alloc, request, files, out, err, progress),
        Task::Search => look(alloc, request, out, progress),
        Task::Settle => settle(alloc, request, out, progress),
        Task::Show(view) => match show(alloc, request, view, out, err, progress) {
            Ok(()) => Ok(0),
            Err(failure) => Err(failure),
        },
    }
}

/// Carries out a command and gives its exit status: 0 where it was done, 1 where a run was refused, what was looked for
/// was not found, or standard output took no more, 2 where the command line, a file or the configuration is at fault, 3
/// where an order is not legal, 5 at a standstill where a program has not ended, and 6 where a search was not whole.
///
/// The first word is the program's name. What is at fault is printed on standard error. What may take long tells how far
/// it is.
pub fn run_command<
    R: Threads + Wait + AllocGlobal + Sync,
    T: Texts + Logs,
    O: Write,
    E: Write + Send,
    P: Progress + Send,
>(rt: &R, words: &[String], files: &T, out: &mut O, err: &mut E, progress: &mut P) -> u8
    ensures { IsStatus result }
{
    let done = match answer(rt.alloc(), words, files, out, err) {
        Ok(Answered::Done(status)) => Ok(status),
        Ok(Answered::Asks(request)) => carry_out(rt, &request, files, out, err, progress),
        Err(failure) => Err(failure),
    };
    let failure = match (done, out.flush()) {
        (Ok(status), Ok(())) => return status,
        (Err(failure), Ok(())) => failure,
        (Err(failure), Err(_)) if failure.status() == MISUSED => failure,
        (_, Err(_)) => ScopeFailure::Unwritten,
    };
    failure.report(err)
}
