//! What the words of a command line ask for.
ghost use Rattle.std.specs.Prelude.{IfOk};
ghost use Rattle.ivy_arguments.specs.Requests.{AsksNoMore};

use crate::error::CommandLineError;
use clap::{Arg, ArgAction, ArgMatches, Command};
use ivy_model::Kind;
use ivy_program::parse_number;
use ivy_texts::Settings;
use std::alloc::{AllocError, Global};

/// What a command line asks for.
#[derive(Clone, Copy, Debug, PartialEq, Eq)]
pub enum IvyCommand<'a> {
    /// Runs the programs of a file in a session: each worker makes so many turns at most, the ether holds so many items,
    /// and each `pulse`-th turn on the wire begins with a pulse.
    Run {
        file: &'a str,
        turns: u64,
        capacity: u64,
        pulse: u64,
        settings: Settings,
    },
    /// Runs the programs of a file by the schedule of another, and prints each move.
    Step {
        file: &'a str,
        schedule: &'a str,
        settings: Settings,
    },
    /// Runs the programs of a file by so many moves, which the generator of a seed draws.
    Sim {
        file: &'a str,
        seed: u64,
        moves: u64,
        settings: Settings,
    },
    /// Says whether the order of a file is legal.
    Check {
        order: &'a str,
    },
}

/// The options of `run` beside those of every configuration, and the number that stands for a
/// missing one.
const TURNS: (&str, u64) = ("turns", 100_000_000);

const CAPACITY: (&str, u64) = ("capacity", 256);

const PULSE: (&str, u64) = ("pulse", 1024);

/// The options of `sim` beside those of every configuration.
const SEED: (&str, u64) = ("seed", 1);

const MOVES: (&str, u64) = ("moves", 10_000);

/// How many moves can be asked for.
const MOST_MOVES: u64 = 1_000_000;

const PAGES: (&str, u64) = ("pages", 16);

const PAGE_SIZE: (&str, u64) = ("page-size", 256);

const MANAGER: &str = "manager";

const FILE: &str = "file";

const SCHEDULE: &str = "schedule";

const ORDER: &str = "order";

fn file<'a>(alloc: Global, name: &'a str) -> Arg<'a> {
    Arg::new(alloc, name).required(true).action(ArgAction::Set)
}

fn option<'a>(alloc: Global, name: &'a str) -> Arg<'a> {
    Arg::new(alloc, name).long(name).action(ArgAction::Set)
}

/// A subcommand on a file of programs, with the options of its configuration.
fn subcommand<'a>(alloc: Global, name: &'a str) -> Result<Command<'a>, AllocError> {
    Command::new(alloc, name)
        .arg(file(alloc, FILE))?
        .arg(option(alloc, PAGES.0))?
        .arg(option(alloc, PAGE_SIZE.0))?
        .arg(option(alloc, MANAGER))
}

fn run_command<'a>(alloc: Global) -> Result<Command<'a>, AllocError> {
    subcommand(alloc, "run")?
        .arg(option(alloc, TURNS.0))?
        .arg(option(alloc, CAPACITY.0))?
        .arg(option(alloc, PULSE.0))
}

fn step_command<'a>(alloc: Global) -> Result<Command<'a>, AllocError> {
    subcommand(alloc, "step")?.arg(file(alloc, SCHEDULE))
}

fn sim_command<'a>(alloc: Global) -> Result<Command<'a>, AllocError> {
    subcommand(alloc, "sim")?
        .arg(option(alloc, SEED.0))?
        .arg(option(alloc, MOVES.0))
}

fn check_command<'a>(alloc: Global) -> Result<Command<'a>, AllocError> {
    Command::new(alloc, "check").arg(file(alloc, ORDER))
}

// Each way out drops what was made, so few commands live at each.
fn command<'a>(alloc: Global) -> Result<Command<'a>, AllocError> {
    let ivy = Command::new(alloc, "ivy").subcommand_required(true);
    let ivy = ivy.subcommand(run_command(alloc)?)?;
    let ivy = ivy.subcommand(step_command(alloc)?)?;
    let ivy = ivy.subcommand(sim_command(alloc)?)?;
    ivy.subcommand(check_command(alloc)?)
}

/// The word that a required argument was given.
fn word_of<'a>(matches: &ArgMatches<'a>, name: &str) -> Result<&'a str, CommandLineError> {
    matches
        .get_str(name)
        .ok_or(CommandLineError::BadCommandLine)
}

/// The number that an option was given, or else its default.
fn number_of<'a>(
    matches: &ArgMatches<'a>,
    (name, default): (&str, u64),
) -> Result<u64, CommandLineError> {
    match matches.get_str(name) {
        None => Ok(default),
        Some(word) => parse_number(word).ok_or(CommandLineError::BadCommandLine),
    }
}

fn manager_of<'a>(matches: &ArgMatches<'a>) -> Result<Kind, CommandLineError> {
    match matches.get_str(MANAGER) {
        None | Some("dynamic") => Ok(Kind::Dynamic),
        Some("fixed") => Ok(Kind::Fixed),
        Some(_) => Err(CommandLineError::BadCommandLine),
    }
}

fn settings_of<'a>(matches: &ArgMatches<'a>) -> Result<Settings, CommandLineError> {
    Ok(Settings {
        pages: number_of(matches, PAGES)?,
        page_size: number_of(matches, PAGE_SIZE)?,
        manager: manager_of(matches)?,
    })
}

fn run_of<'a>(matches: &ArgMatches<'a>) -> Result<IvyCommand<'a>, CommandLineError>
    ensures { IfOk result AsksNoMore }
{
    Ok(IvyCommand::Run {
        file: word_of(matches, FILE)?,
        turns: number_of(matches, TURNS)?,
        capacity: number_of(matches, CAPACITY)?,
        pulse: number_of(matches, PULSE)?,
        settings: settings_of(matches)?,
    })
}

fn step_of<'a>(matches: &ArgMatches<'a>) -> Result<IvyCommand<'a>, CommandLineError>
    ensures { IfOk result AsksNoMore }
{
    Ok(IvyCommand::Step {
        file: word_of(matches, FILE)?,
        schedule: word_of(matches, SCHEDULE)?,
        settings: settings_of(matches)?,
    })
}

fn sim_of<'a>(matches: &ArgMatches<'a>) -> Result<IvyCommand<'a>, CommandLineError>
    ensures { IfOk result AsksNoMore }
{
    let moves = number_of(matches, MOVES)?;
    if moves > MOST_MOVES {
        return Err(CommandLineError::BadCommandLine);
    }
    Ok(IvyCommand::Sim {
        file: word_of(matches, FILE)?,
        seed: number_of(matches, SEED)?,
        moves,
        settings: settings_of(matches)?,
    })
}

fn check_of<'a>(matches: &ArgMatches<'a>) -> Result<IvyCommand<'a>, CommandLineError>
    ensures { IfOk result AsksNoMore }
{
    Ok(IvyCommand::Check {
        order: word_of(matches, ORDER)?,
    })
}

impl<'a> IvyCommand<'a> {
    /// What the words ask for. The first is the program's name.
    ///
    /// Refused for memory where a growth was refused, and else as a bad command line where they are no request. A
    /// request for drawn moves is for 1,000,000 of them at most.
    pub fn read(alloc: Global, words: &'a [String]) -> Result<IvyCommand<'a>, CommandLineError>
        ensures few { IfOk result AsksNoMore }
    {
        let matches = command(alloc)?.try_get_matches_from(words)?;
        match matches.subcommand() {
            Some(("run", matches)) => run_of(matches),
            Some(("step", matches)) => step_of(matches),
            Some(("sim", matches)) => sim_of(matches),
            Some(("check", matches)) => check_of(matches),
            _ => Err(CommandLineError::BadCommandLine),
        }
    }
}
