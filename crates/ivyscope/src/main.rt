//! The program `ivyscope`: its `main` alone.
#![tactic(auto)]

use ivy_model::Fault;
use ivy_options::Misuse;
use ivy_replay::Progress;
use ivy_scope::{ScopeFailure, run_command};
use ivy_texts::FilesOf;
use std::env;
use std::io::{self, BufWriter, ErrorKind, IsTerminal, Write};
use std::process::ExitCode;
use std::rt::{Clock, Env, Files};
use std::sync::Wait;
use std::thread::Threads;

/// How many seconds pass before anything is told.
const SILENT: u64 = 2;

/// Tells standard error how far something is, once a second, where that is a terminal.
#[derive(Drop)]
struct Teller<'a, R> {
    runtime: &'a R,
    is_terminal: bool,
    /// In seconds: when the program began, and when something was told.
    began: u64,
    told: u64,
}

/// The seconds of the clock, or 0 where it is refused.
fn seconds<R: Clock>(rt: &R) -> u64 {
    match rt.monotonic() {
        Ok(time) => time.as_secs(),
        Err(_) => 0,
    }
}

impl<R: Clock + Eprint> Progress for Teller<'_, R> {
    fn tell(&mut self, done: u64, what: &str) {
        if !self.is_terminal {
            return;
        }
        let now = seconds(self.runtime);
        if now > self.began.saturating_add(SILENT) && now > self.told {
            self.told = now;
            // Nothing else is said where standard error takes nothing.
            let _ = eprintln!(self.runtime; "ivyscope: {done} {what} so far");
        }
    }
}

/// Carries out the command. Err only where memory is short before it begins, or a word is not UTF-8.
fn performed<R, O, E>(rt: &R, out: O, err: &mut E) -> io::Result<u8>
where
    R: Env + Files + Clock + Eprint + AllocGlobal + Threads + Wait + Sync,
    O: Write + Drop,
    E: Write + IsTerminal + Send,
{
    let words: Vec<String> = env::args(rt)?.collect(rt.alloc())?;
    let mut out = BufWriter::new(rt.alloc(), out)?;
    let files = FilesOf { runtime: rt };
    let mut teller = Teller {
        runtime: rt,
        is_terminal: err.is_terminal(),
        began: seconds(rt),
        told: 0,
    };
    Ok(run_command(rt, &words, &files, &mut out, err, &mut teller))
}

/// Why the command did not begin.
fn failure_of(error: &io::Error) -> ScopeFailure<'static> {
    match error.kind() {
        ErrorKind::OutOfMemory => ScopeFailure::Refused(Fault::Memory),
        _ => ScopeFailure::Misused(Misuse::NotUtf8),
    }
}

fn main(rt: HostRuntime) -> ExitCode {
    let mut err = rt.stderr();
    let status = match performed(&rt, rt.stdout(), &mut err) {
        Ok(status) => status,
        Err(error) => failure_of(&error).report(&mut err),
    };
    ExitCode::from(status)
}
