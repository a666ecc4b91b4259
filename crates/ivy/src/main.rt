//! The program `ivy`: its `main` alone.
#![tactic(auto)]

use ivy_commands::{Failure, FilesOf, perform};
use ivy_model::Fault;
use std::env;
use std::io::{self, BufWriter, ErrorKind, Write};
use std::process::ExitCode;
use std::rt::{Env, Files};
use std::sync::Wait;
use std::thread::Threads;

/// Carries out the command. Err only where memory is short before it begins, or a word is not UTF-8.
fn performed<R, O, E>(rt: &R, out: O, err: &mut E) -> io::Result<u8>
where
    R: Env + Files + AllocGlobal + Threads + Wait + Sync,
    O: Write + Drop,
    E: Write,
{
    let words: Vec<String> = env::args(rt)?.collect(rt.alloc())?;
    let mut out = BufWriter::new(rt.alloc(), out)?;
    let files = FilesOf { runtime: rt };
    Ok(perform(rt, rt.alloc(), &words, &files, &mut out, err))
}

/// Why the command did not begin.
fn failure_of(error: &io::Error) -> Failure<'static> {
    match error.kind() {
        ErrorKind::OutOfMemory => Failure::Refused(Fault::Memory),
        _ => Failure::BadCommandLine,
    }
}

fn main(rt: HostRuntime) -> ExitCode {
    let mut err = rt.stderr();
    let status = match performed(&rt, rt.stdout(), &mut err) {
        Ok(status) => status,
        Err(error) => failure_of(&error).report(&mut err),
    };
    ExitCode::from(status)
}
