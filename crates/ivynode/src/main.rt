//! The program `ivynode`: its commands and its `main`.
#![tactic(auto)]

ghost use Rattle.std.specs.Prelude.{◌≡◌, IsOk, MatchResult, map, string_bytes};
ghost use Rattle.ivynode.specs.Joined.{AreRefused, IsNoRun, PrintsJoined};
ghost use Rattle.ivynode.specs.OwnJoined.{PrintsOwnJoined};
ghost use Rattle.ivynode.specs.Requests.{AsksToJoin, AsksToJoinOwn, IsJoin, IsJoinOwn};

mod failure;
mod fetched;
mod joins;
mod lines;
mod misuse;
mod node_process;
mod request;
mod standing;

use failure::Failure;
use joins::{join_files, join_own_files};
use lines::LineByLine;
use node_process::{run, run_router};
use request::{Help, Request, read};
use std::env;
use std::fs::File;
use std::io::{self, BufWriter, Write};
use std::process::ExitCode;
use std::rt::{Clock, Env, Files, Stdin};
use std::sync::Wait;
use std::thread::Threads;

/// What `--help` prints.
const HELP: &str = "\
ivynode: nodes of a shared memory in processes of their own

Usage:
  ivynode run FILE I [options]    one node of the programs of FILE, with its number
  ivynode join FILE LOG..         whether the logs of all nodes are the parts of one run
  ivynode join-own LOG..          the same of logs of own code
  ivynode router [options]        hands lines from standard input on, and mistreats them

Options of run:
  --pages N, --page-size N      as for ivy; 16, 256
  --manager fixed|dynamic|steady    how the owner of a page is found; dynamic
  --log LOG        the node's log; where it has lines, the node is made again from them
  --sync           each line of the log is on the disk before what follows from it goes out
  --pulse-ms M     the time between pulses, 1 to 60000; 20
  --turns T        the most turns of the program; 100000000
  --kept K         the most messages for one node that are kept; 1000000

Options of router, in percent but for K and S:
  --lose P, --repeat P, --reorder K, --seed S          0, 0, 0, 1
";

/// Tells of the program.
fn tell<O: Write>(help: Help, out: &mut O) -> Result<(), Failure> {
    match help {
        Help::Usage => write!(out, "{HELP}")?,
        Help::Version => writeln!(out, "ivynode 1")?,
    }
    Ok(())
}

/// Carries out a request, and gives the exit status.
fn carry_out<R, O, E>(
    rt: R,
    request: Request<'_>,
    stdin: Stdin,
    out: &mut O,
    err: &mut E,
    told: &mut E,
) -> Result<u8, Failure>
where
    R: Files<File = File> + Clock + AllocGlobal + Threads + Wait + Copy + Send + 'static,
    O: Write,
    E: Write,
    ensures joins { IsJoin request.entry → MatchResult result (λ status. (status ≡ 0) × PrintsJoined (O.contents out.old) (O.contents out.new)) (λ why. IsNoRun why → AreRefused) }
    ensures own { IsJoinOwn request.entry → MatchResult result (λ status. PrintsOwnJoined (O.contents out.old) (O.contents out.new)) (λ _. Unit {0}) }
{
    match request {
        Request::Help(help) => tell(help, out).and(Ok(0)),
        Request::Run(asked) => run(rt, &asked, stdin, out, err, told),
        Request::Router { harm, seed } => run_router(rt, harm, seed, stdin, out).and(Ok(0)),
        Request::Join { file, logs } => join_files(&rt, file, &logs, out).and(Ok(0)),
        Request::JoinOwn { logs } => join_own_files(&rt, &logs, out).and(Ok(0)),
    }
}

/// Carries out what the words ask for, and gives the exit status.
fn obey<R, O, E>(
    rt: R,
    words: &[String],
    stdin: Stdin,
    out: &mut O,
    err: &mut E,
    told: &mut E,
) -> Result<u8, Failure>
where
    R: Files<File = File> + Clock + AllocGlobal + Threads + Wait + Copy + Send + 'static,
    O: Write,
    E: Write,
    ensures joins { AsksToJoin (map (λ w. string_bytes w) words.now) → MatchResult result (λ status. (status ≡ 0) × PrintsJoined (O.contents out.old) (O.contents out.new)) (λ why. IsNoRun why → AreRefused) }
    ensures own { AsksToJoinOwn (map (λ w. string_bytes w) words.now) → MatchResult result (λ status. PrintsOwnJoined (O.contents out.old) (O.contents out.new)) (λ _. Unit {0}) }
{
    let request = read(rt.alloc(), words)?;
    carry_out(rt, request, stdin, out, err, told)
}

/// The exit status of a command that ended so, where standard output then took all of it or not. Standard error is told
/// of a failure.
fn concluded<E: Write>(done: Result<u8, Failure>, flushed: io::Result<()>, err: &mut E) -> u8
    ensures zero { result ≡ 0 → IsOk done }
    ensures all { result ≡ 0 → IsOk flushed }
    ensures three { result ≡ 3 → MatchResult done (λ status. status ≡ 3) IsNoRun }
{
    match (done, flushed) {
        (Ok(status), Ok(())) => status,
        (Ok(_), Err(error)) => Failure::from(error).report(err),
        (Err(failure), _) => failure.report(err),
    }
}

/// Carries out the command of these words, of which the first is the program's name, and gives its exit status.
///
/// Where that is 0 and the command was to join logs, they are the parts of one run of the programs, and what is printed
/// is what the programs printed in it, and which of them have ended there; of logs of own code, how many calls of each node
/// were answered in it, and which nodes have a call in progress there, or lack an answer in their log. Where that is 3 and
/// the command was to join logs of programs, they are the parts of no run of them.
fn perform<R, O, E>(
    rt: R,
    words: &[String],
    stdin: Stdin,
    out: &mut O,
    err: &mut E,
    told: &mut E,
) -> u8
where
    R: Files<File = File> + Clock + AllocGlobal + Threads + Wait + Copy + Send + 'static,
    O: Write,
    E: Write,
    ensures joins { AsksToJoin (map (λ w. string_bytes w) words.now) → result ≡ 0 → PrintsJoined (O.contents out.old) (O.contents out.new) }
    ensures refused { AsksToJoin (map (λ w. string_bytes w) words.now) → result ≡ 3 → AreRefused }
    ensures own { AsksToJoinOwn (map (λ w. string_bytes w) words.now) → result ≡ 0 → PrintsOwnJoined (O.contents out.old) (O.contents out.new) }
{
    let done = obey(rt, words, stdin, out, err, told);
    let flushed = out.flush();
    concluded(done, flushed, err)
}

/// Carries out the command. Err only where memory is short before it begins, or a word is not UTF-8.
fn performed<R, O, E>(rt: R, stdin: Stdin, out: O, err: &mut E, told: &mut E) -> io::Result<u8>
where
    R: Env + Files<File = File> + Clock + AllocGlobal + Threads + Wait + Copy + Send + 'static,
    O: Write + Drop,
    E: Write,
{
    let words: Vec<String> = env::args(&rt)?.collect(rt.alloc())?;
    let mut out = BufWriter::new(rt.alloc(), out)?;
    Ok(perform(rt, &words, stdin, &mut out, err, told))
}

fn main(rt: HostRuntime) -> ExitCode {
    let mut err = rt.stderr();
    let mut told = rt.stderr();
    let out = LineByLine { out: rt.stdout() };
    let status = match performed(rt, rt.stdin(), out, &mut err, &mut told) {
        Ok(status) => status,
        Err(error) => Failure::from(error).report(&mut err),
    };
    ExitCode::from(status)
}
