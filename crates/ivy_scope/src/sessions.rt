//! Sessions, and what is told of them.
ghost use Rattle.std.specs.Prelude.{IfOk};
ghost use Rattle.ivy_scope.specs.Statuses.{IsStatus};

use crate::logs::{Logs, write_logs};
use crate::played::{opening_of, print_records};
use crate::refused::Refusals;
use crate::watched::{WatchTerms, run_watched};
use ivy_explain::{
    FAILED, Listing, NodeState, STANDSTILL, ScopeFailure, ScopeRequest, Wishes, print_calls,
    print_standing,
};
use ivy_logs::sum_opened;
use ivy_model::{Config, Fault, Record};
use ivy_program::parse;
use ivy_replay::Progress;
use ivy_session::Keep;
use ivy_standstill::{End, ReportSoFar};
use ivy_texts::print_output;
use std::alloc::{AllocError, Global};
use std::io::{self, Write};
use std::sync::Wait;
use std::thread::Threads;

/// What the nodes keep of their past for what is wished.
fn keep_of(wishes: &Wishes<'_>) -> Keep {
    match wishes.logs {
        Some(_) => Keep::All,
        None => Keep::History,
    }
}

/// Prints what is wished for of a node beside its output.
fn print_wished<W: Write>(
    node: u64,
    history: &[Record],
    wishes: &Wishes<'_>,
    out: &mut W,
) -> io::Result<()> {
    if wishes.history {
        print_records(history, out)?;
    }
    if wishes.counts {
        print_calls(node, history, out)?;
    }
    Ok(())
}

/// Prints what nodes printed, and what else is wished for.
fn print_report<W: Write>(
    report: &ReportSoFar<Global>,
    wishes: &Wishes<'_>,
    out: &mut W,
) -> io::Result<()> {
    for node in 0..report.nodes() {
        print_output(node, report.output(node), out)?;
        print_wished(node, report.history(node), wishes, out)?;
    }
    Ok(())
}

/// What each node of a session came to.
fn standings_of(
    alloc: Global,
    report: &ReportSoFar<Global>,
) -> Result<Vec<NodeState<'_>>, AllocError> {
    let mut nodes = Vec::new(alloc);
    for node in 0..report.nodes() {
        nodes.push(NodeState {
            history: report.history(node),
            asked: report.asked(node),
            has_ended: report.has_ended(node),
        })?;
    }
    Ok(nodes)
}

/// Tells what each node came to.
fn tell_standings<E: Write>(
    alloc: Global,
    listing: &Listing,
    report: &ReportSoFar<Global>,
    err: &mut E,
) -> Result<(), AllocError> {
    let nodes = standings_of(alloc, report)?;
    for node in 0..report.nodes() {
        // The status tells of it also where standard error takes nothing.
        let _ = print_standing(listing, &nodes, node, err);
    }
    Ok(())
}

/// What a session came to: its report, why it ended, how many calls were refused, and the sum of its run.
#[derive(Drop)]
struct Ended {
    report: ReportSoFar<Global>,
    end: End,
    refused: u64,
    sum: u64,
}

/// What is to be run, and what is printed of it.
#[derive(Drop)]
struct Plan<'a> {
    config: Config,
    /// Whether nodes begin with steady hints, in place of the manager of the configuration.
    steady: bool,
    listing: Listing,
    wishes: Wishes<'a>,
}

/// Runs programs in a session, and tells of each call that is refused, as it is found.
fn run_session<'x, R: Threads + Wait + Sync, E: Write + Send, P: Progress + Send>(
    rt: &'x R,
    alloc: Global,
    request: &ScopeRequest<'_>,
    plan: &'x Plan<'_>,
    err: &'x mut E,
    progress: &'x mut P,
) -> Result<Ended, Fault> {
    let (config, wishes) = (plan.config, &plan.wishes);
    let parsed = parse(alloc, request.programs())?;
    let sum = sum_opened(request.is_steady(), &config, &parsed);
    let refusals = Refusals::new(rt, alloc, &plan.listing, wishes.strict, err, progress)?;
    let terms = WatchTerms {
        rt,
        alloc,
        opening: opening_of(request),
        limits: request.limits(),
        watch: &refusals,
        keep: keep_of(wishes),
    };
    match run_watched(&terms, config, parsed) {
        Ok((report, end)) => Ok(Ended {
            report,
            end,
            refused: refusals.finish(),
            sum,
        }),
        Err(fault) => Err(fault),
    }
}

/// Prints what a session came to, and where it ended before its programs, tells what each node came to.
fn tell<'a, L: Logs, W: Write, E: Write>(
    alloc: Global,
    plan: &Plan<'a>,
    ended: &Ended,
    files: &L,
    out: &mut W,
    err: &mut E,
) -> Result<u8, ScopeFailure<'a>>
    ensures { IfOk result IsStatus }
{
    let wishes = &plan.wishes;
    if let Some(folder) = wishes.logs {
        write_logs(
            alloc,
            (plan.config, plan.steady, ended.sum),
            &ended.report,
            files,
            folder,
        )?;
    }
    print_report(&ended.report, wishes, out)?;
    if matches!(ended.end, End::Standstill | End::Turns) {
        tell_standings(alloc, &plan.listing, &ended.report, err)?;
    }
    match ended.end {
        End::Turns => Err(ScopeFailure::Refused(Fault::TurnLimit)),
        End::Standstill => Ok(STANDSTILL),
        _ if wishes.strict && ended.refused > 0 => Ok(FAILED),
        _ => Ok(0),
    }
}

/// Runs programs in a session, and tells of each call that is refused, as it is found. It prints what the nodes printed,
/// and where the session ended before its programs, tells what each node came to. It gives the exit status. It tells how
/// far it is.
pub(crate) fn run<
    'a,
    R: Threads + Wait + Sync,
    L: Logs,
    W: Write,
    E: Write + Send,
    P: Progress + Send,
>(
    rt: &R,
    alloc: Global,
    request: &ScopeRequest<'a>,
    files: &L,
    out: &mut W,
    err: &mut E,
    progress: &mut P,
) -> Result<u8, ScopeFailure<'a>>
    ensures { IfOk result IsStatus }
{
    let listing = Listing::of(alloc, request.programs())?;
    let config = request.settings().config(listing.programs.len())?;
    let plan = Plan {
        config,
        steady: request.is_steady(),
        listing,
        wishes: request.wishes(),
    };
    let ended = run_session(rt, alloc, request, &plan, err, progress)?;
    tell(alloc, &plan, &ended, files, out, err)
}
