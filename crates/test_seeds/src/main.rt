//! Plays drawn seeds of worlds and of own code under either manager, and prints what came of them in few lines.
//!
//! What must hold of each play is known beforehand: what programs print, what works give, and that one legal order of
//! records explains what the nodes were answered. The numbers of moves and records are printed so that a change shows.
#![tactic(auto)]

mod checks;
mod digest;
mod plays;
mod runs;

use anyhow::Error;
use plays::play_works;
use runs::run_texts;
use std::io::{BufWriter, Write};
use std::process::ExitCode;
use std::sync::Wait;
use std::thread::Threads;

/// Plays all seeds. It says whether all that must hold does.
fn played<R, O>(rt: &R, out: O) -> Result<bool, Error>
where
    R: Threads + Wait + AllocGlobal + Sync,
    O: Write + Drop,
{
    let mut out = BufWriter::new(rt.alloc(), out)?;
    let texts_hold = run_texts(rt.alloc(), &mut out)?;
    let works_hold = play_works(rt, &mut out)?;
    out.flush()?;
    Ok(texts_hold && works_hold)
}

fn main(rt: HostRuntime) -> Result<ExitCode, Error> {
    let holds = played(&rt, rt.stdout())?;
    Ok(ExitCode::from(u8::from(!holds)))
}
