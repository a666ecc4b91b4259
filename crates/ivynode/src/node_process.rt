//! One node, and the router.
ghost use Rattle.std.specs.Prelude.{◌<◌, IfOk};
ghost use Rattle.ivy_model.specs.stated.Config.{IsConfig};

use crate::failure::{Failure, Limit, OtherLog};
use crate::joins::{fault_in, programs_in, text_of};
use crate::misuse::Misuse;
use crate::request::Asked;
use crate::standing::{Calls, Standing};
use ivy_explain::Listing;
use ivy_join::opening_by;
use ivy_logs::{Log as OldLog, LogHead, LogKind, parse_log, sum_opened};
use ivy_model::{Call, Config, Fault, LEAST_NODES, LEAST_PAGES, MOST_NODES, MOST_PAGES};
use ivy_moves::Keep;
use ivy_process::{
    Clockwork, Ending, Harm, LogFile, Mail, Node, Router, Streams, Untaken, inbox_of, open_log,
    route, serve_watched,
};
use ivy_program::Program;
use ivy_site::Site;
use ivy_texts::CallText;
use std::alloc::Global;
use std::fs::File;
use std::io::{self, Write};
use std::rt::{Clock, Files, Stdin};
use std::sync::Wait;
use std::thread::Threads;

/// The status of a node whose input has ended while its program waits.
const WAITING: u8 = 3;

/// The status of a node of which another one ran something else.
const MISUSED: u8 = 2;

/// A line of a frame has so many bytes at most beside two for each byte of the page: its header, the number of its node.
const LINE_BYTES: usize = 256;

/// How many bytes a line of the router has at most.
const ROUTER_BYTES: usize = 16_384;

/// The clock of a runtime.
#[derive(Drop)]
struct RuntimeClock<R> {
    rt: R,
}

impl<R: Clock> Clockwork for RuntimeClock<R> {
    fn millis(&self) -> u64 {
        match self.rt.monotonic() {
            Ok(time) => time
                .as_secs()
                .saturating_mul(1000)
                .saturating_add(u64::from(time.subsec_millis())),
            Err(_) => 0,
        }
    }
}

/// A log on the way to its file, or none.
#[derive(Drop)]
enum Log {
    /// Nothing is written.
    Nowhere,
    File(LogFile),
}

impl Write for Log {
    fn write(&mut self, bytes: &[u8]) -> io::Result<usize> {
        match self {
            Log::Nowhere => Ok(bytes.len()),
            Log::File(file) => file.write(bytes),
        }
    }

    fn flush(&mut self) -> io::Result<()> {
        match self {
            Log::Nowhere => Ok(()),
            Log::File(file) => file.flush(),
        }
    }
}

/// A log of this name that is another one than the node's.
fn other_log(alloc: Global, name: &str, why: OtherLog) -> Failure {
    match String::from_str(alloc, name) {
        Ok(name) => Failure::OtherLog(name, why),
        Err(_) => Failure::Refused(Fault::Memory),
    }
}

/// Opens the log of this name, and gives its text as it was found.
fn log_of<R: Files<File = File> + AllocGlobal>(
    rt: &R,
    name: &str,
    is_synced: bool,
) -> Result<(Log, String), Failure> {
    match open_log(rt, rt.alloc(), name, is_synced) {
        Ok((file, text)) => Ok((Log::File(file), text)),
        Err(why) => match String::from_str(rt.alloc(), name) {
            Ok(name) => Err(Failure::NoLog(name, why)),
            Err(_) => Err(Failure::Refused(Fault::Memory)),
        },
    }
}

/// The number of a node, where there is such a node.
fn node_number(config: &Config, node: u64) -> Result<u8, Failure>
    ensures { IfOk result (λ me. me < config.now.nodes) }
{
    if node < u64::from(config.nodes) {
        Ok(node as u8)
    } else {
        Err(Failure::BadCommandLine(Misuse::Words("there is no such node")))
    }
}

/// The program of a node.
fn program_of(programs: Vec<Program<Global>>, node: u64) -> Result<Program<Global>, Failure> {
    let mut place = 0u64;
    for program in programs {
        if place == node {
            return Ok(program);
        }
        place = place.saturating_add(1);
    }
    Err(Failure::BadCommandLine(Misuse::Words("the file has no program of this node")))
}

/// What this node runs.
#[derive(Drop)]
struct Part {
    config: Config,
    /// The sum of the run, of which all its nodes and logs have the same.
    sum: u64,
    program: Program<Global>,
}

/// Why a log is not the one of this node, where it is not.
fn other_in(old: &OldLog<Global>, head: &LogHead, sum: u64) -> Option<OtherLog> {
    if old.head.me != head.me {
        return Some(OtherLog::Node(old.head.me));
    }
    if old.head != *head {
        return Some(OtherLog::Config);
    }
    if old.sum.is_some_and(|other| other != sum) {
        return Some(OtherLog::Run);
    }
    None
}

/// The log of the node as it was found, if it has a line. It has to be this node's.
fn past_of(
    alloc: Global,
    asked: &Asked<'_>,
    part: &Part,
    text: &str,
) -> Result<Option<OldLog<Global>>, Failure> {
    let Some(name) = asked.log else {
        return Ok(None);
    };
    if !text.contains('\n') {
        return Ok(None);
    }
    let old = match parse_log(alloc, LogKind::OfProgram, text) {
        Ok(old) => old,
        Err(fault) => return Err(fault_in(alloc, name, fault)),
    };
    let head = LogHead {
        me: node_number(&part.config, asked.node)?,
        config: part.config,
        steady: asked.steady,
    };
    match other_in(&old, &head, part.sum) {
        Some(why) => Err(other_log(alloc, name, why)),
        None => Ok(Some(old)),
    }
}

/// The node as it was when its log ended; where the log has no line, at its beginning, and its log is begun.
fn node_of(
    alloc: Global,
    asked: &Asked<'_>,
    part: Part,
    past: Option<&OldLog<Global>>,
    log: &mut Log,
) -> Result<Node, Failure>
    requires limits { IsConfig part.config }
{
    let Part {
        config,
        sum,
        program,
    } = part;
    let me = node_number(&config, asked.node)?;
    let opening = opening_by(asked.steady);
    let mut node = match past {
        Some(past) => {
            Node::restart_opened(alloc, &config, me, opening, program, asked.limits, past)?
        }
        None => {
            let node = Node::start_opened(alloc, &config, me, opening, program, asked.limits)?;
            node.begin_log_of_run(sum, log)?;
            node
        }
    };
    node.tell_sum(sum);
    Ok(node)
}

/// Tells of what the node did not take. The status tells nothing of it, since no line ends a node.
fn tell_of<E: Write>(told: Untaken, err: &mut E) {
    if told.bad_lines > 0 || told.no_frames > 0 {
        let _ = writeln!(
            err,
            "ivynode: {} lines without a frame, {} strings of another configuration",
            told.bad_lines, told.no_frames
        );
    }
}

/// Tells in which call the program of a node waits.
fn print_waiting<E: Write>(node: &Node, standing: Standing, err: &mut E) -> io::Result<()> {
    write!(err, "ivynode: node {}", node.me())?;
    if let Some(line) = standing.line {
        write!(err, ", line {line}")?;
    }
    match node.asked() {
        Some(Call::Await { k, least }) => write!(err, ": waits for count {k} to reach {least}")?,
        Some(call) => write!(err, ": {} is in progress", CallText(call))?,
        None => write!(err, ": has not ended")?,
    }
    match standing.seen {
        Some(seen) => writeln!(err, ", and saw it at {seen} last"),
        None => writeln!(err),
    }
}

/// The node at its beginning.
fn first_site(
    alloc: Global,
    asked: &Asked<'_>,
    config: &Config,
    text: &str,
) -> Result<Site<Global>, Failure>
    requires { IsConfig config.now }
{
    let programs = programs_in(alloc, asked.file, text)?;
    let program = program_of(programs, asked.node)?;
    let me = node_number(config, asked.node)?;
    let opening = opening_by(asked.steady);
    Ok(Site::opened(alloc, config, me, opening, program, Keep::Nothing)?)
}

/// The configuration that is asked for, of so many nodes. The failure names the limit that it is out of.
fn config_of(asked: &Asked<'_>, nodes: usize) -> Result<Config, Failure>
    ensures { IfOk result IsConfig }
{
    let settings = asked.settings;
    if nodes < usize::from(LEAST_NODES) || usize::from(MOST_NODES) < nodes {
        return Err(Failure::BadConfig(Limit::Nodes));
    }
    if settings.pages < u64::from(LEAST_PAGES) || u64::from(MOST_PAGES) < settings.pages {
        return Err(Failure::BadConfig(Limit::Pages));
    }
    match settings.config(nodes) {
        Ok(config) => Ok(config),
        Err(_) => Err(Failure::BadConfig(Limit::PageSize)),
    }
}

/// What the node runs, by the text of its file.
fn part_of(alloc: Global, asked: &Asked<'_>, text: &str) -> Result<Part, Failure>
    ensures { IfOk result (λ part. IsConfig part.config) }
{
    let programs = programs_in(alloc, asked.file, text)?;
    let config = config_of(asked, programs.len())?;
    let sum = sum_opened(asked.steady, &config, &programs);
    let program = program_of(programs, asked.node)?;
    Ok(Part {
        config,
        sum,
        program,
    })
}

/// How many bytes a line has at most that a node hears.
fn line_bytes(config: &Config) -> usize {
    (config.page_size as usize)
        .saturating_mul(2)
        .saturating_add(LINE_BYTES)
}

/// A node that is ready to serve.
#[derive(Drop)]
struct Opened {
    node: Node,
    log: Log,
    /// Its log as it was found, if it had a line.
    past: Option<OldLog<Global>>,
    config: Config,
    /// The text of its file.
    text: String,
}

/// The node with its log.
fn open<R: Files<File = File> + AllocGlobal>(rt: &R, asked: &Asked<'_>) -> Result<Opened, Failure>
    ensures { IfOk result (λ opened. IsConfig opened.config) }
{
    let file = text_of(rt, asked.file)?;
    let part = part_of(rt.alloc(), asked, file.as_str())?;
    let config = part.config;
    let (mut log, text) = match asked.log {
        Some(name) => log_of(rt, name, asked.is_synced)?,
        None => (Log::Nowhere, String::new(rt.alloc())),
    };
    let past = past_of(rt.alloc(), asked, &part, text.as_str())?;
    Ok(Opened {
        node: node_of(rt.alloc(), asked, part, past.as_ref(), &mut log)?,
        log,
        past,
        config,
        text: file,
    })
}

/// Serves until the input ends. The status is 3 where the program waits then, and 2 where another node runs something else.
fn serve_all<R, O, E, T>(
    rt: R,
    calls: &mut Calls<'_, T>,
    node: &mut Node,
    streams: &mut Streams<'_, Mail, Log, O, E>,
) -> Result<u8, Failure>
where
    R: Clock + Wait + Copy,
    O: Write,
    E: Write,
    T: Write,
{
    let clock = RuntimeClock { rt };
    let served = serve_watched(&rt, &clock, node, streams, calls);
    let told = node.told();
    tell_of(told, &mut streams.err);
    calls.sum_up();
    let ending = served?;
    if ending == Ending::Waits {
        // The status tells that it waits, where standard error takes nothing.
        let _ = print_waiting(node, calls.standing(node), &mut streams.err);
    }
    match ending {
        _ if told.others > 0 => Ok(MISUSED),
        Ending::Ended => Ok(0),
        Ending::Waits => Ok(WAITING),
    }
}

/// Runs one node until its input ends. The status is 3 where its program waits then. `told` leads to standard error as `err`
/// does, and is told of calls that are refused.
pub(crate) fn run<R, O, E>(
    rt: R,
    asked: &Asked<'_>,
    stdin: Stdin,
    out: &mut O,
    err: &mut E,
    told: &mut E,
) -> Result<u8, Failure>
where
    R: Files<File = File> + Clock + AllocGlobal + Threads + Wait + Copy + Send + 'static,
    O: Write,
    E: Write,
{
    let alloc = rt.alloc();
    let Opened {
        mut node,
        log,
        past,
        config,
        text,
    } = open(&rt, asked)?;
    let listing = Listing::of(alloc, text.as_str())?;
    let mut calls = Calls::new(alloc, &listing, node.me(), told);
    if let Some(past) = past {
        let site = first_site(alloc, asked, &config, text.as_str())?;
        calls.go_through(site, &past.entries);
    }
    let inbox = inbox_of(rt, alloc, stdin, line_bytes(&config))?;
    let mut streams = Streams {
        inbox: &*inbox,
        log,
        out,
        err,
    };
    serve_all(rt, &mut calls, &mut node, &mut streams)
}

/// Hands the lines of standard input on until it ends.
pub(crate) fn run_router<R, O>(
    rt: R,
    harm: Harm,
    seed: u64,
    stdin: Stdin,
    out: &mut O,
) -> Result<(), Failure>
where
    R: AllocGlobal + Threads + Wait + Copy + Send + 'static,
    O: Write,
{
    let alloc = rt.alloc();
    let inbox = inbox_of(rt, alloc, stdin, ROUTER_BYTES)?;
    let mut router = Router::new(alloc, harm, seed);
    route(&rt, &*inbox, &mut router, out)?;
    Ok(())
}
