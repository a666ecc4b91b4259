//! What a command line asks for, by its words: options, and the others in order.
ghost use Rattle.std.specs.Prelude.{IfOk, map, string_bytes};
ghost use Rattle.ivynode.specs.Requests.{AsksToJoin, AsksToJoinOwn, IsJoin, IsJoinOwn};

use crate::misuse::Misuse;
use ivy_model::Kind;
use ivy_process::{Harm, NodeLimits};
use ivy_program::parse_number;
use ivy_texts::Settings;
use std::alloc::Global;

const RUN_OPTIONS: Known = Known {
    valued: &[
        "--pages",
        "--page-size",
        "--manager",
        "--log",
        "--pulse-ms",
        "--turns",
        "--kept",
    ],
    bare: &["--sync"],
};

const ROUTER_OPTIONS: Known = Known {
    valued: &["--lose", "--repeat", "--reorder", "--seed"],
    bare: &[],
};

const NO_OPTIONS: Known = Known {
    valued: &[],
    bare: &[],
};

/// The most that a number can be which has no limit of its own.
const MOST: u64 = u64::MAX;

/// What is told of the program.
#[derive(Clone, Copy)]
pub(crate) enum Help {
    Usage,
    Version,
}

/// A node that is to run.
#[derive(Clone, Copy)]
pub(crate) struct Asked<'a> {
    pub(crate) file: &'a str,
    pub(crate) node: u64,
    /// Whether it begins with steady hints, in place of the manager of the settings.
    pub(crate) steady: bool,
    pub(crate) settings: Settings,
    pub(crate) log: Option<&'a str>,
    pub(crate) is_synced: bool,
    pub(crate) limits: NodeLimits,
}

/// What a command line asks for.
#[derive(Drop)]
pub(crate) enum Request<'a> {
    Help(Help),
    Run(Asked<'a>),
    Join { file: &'a str, logs: Vec<&'a str> },
    JoinOwn { logs: Vec<&'a str> },
    Router { harm: Harm, seed: u64 },
}

/// What the words of a command line are.
#[derive(Drop)]
pub(crate) struct Words<'a> {
    /// The words that are no options, in order.
    pub(crate) plain: Vec<&'a str>,
    options: Vec<(&'static str, &'a str)>,
}

/// The options that a command has.
#[derive(Clone, Copy)]
pub(crate) struct Known {
    /// Each of these takes a value.
    pub(crate) valued: &'static [&'static str],
    /// And none of these.
    pub(crate) bare: &'static [&'static str],
}

/// What one word is, beside the others.
#[derive(Clone, Copy)]
enum Word<'a> {
    Plain(&'a str),
    /// An option that stands with its value, or takes none.
    Whole(&'static str, &'a str),
    /// An option whose value is the next word.
    Open(&'static str),
}

impl<'a> Words<'a> {
    /// The words behind a command, which has these options. Behind `--` none is an option.
    pub(crate) fn new(
        alloc: Global,
        words: &'a [String],
        known: Known,
    ) -> Result<Words<'a>, Misuse> {
        let mut plain = Vec::new(alloc);
        let mut options = Vec::new(alloc);
        let mut open = None;
        let mut are_plain = false;
        for word in words {
            let word = word.as_str();
            if let Some(name) = open {
                options.push((name, word))?;
                open = None;
                continue;
            }
            if word == "--" && !are_plain {
                are_plain = true;
                continue;
            }
            let read = if are_plain {
                Word::Plain(word)
            } else {
                word_of(alloc, word, known)?
            };
            match read {
                Word::Plain(word) => plain.push(word)?,
                Word::Whole(name, value) => options.push((name, value))?,
                Word::Open(name) => open = Some(name),
            }
        }
        match open {
            Some(name) => Err(Misuse::Option(name, "lacks its value")),
            None => Ok(Words { plain, options }),
        }
    }

    /// The value of an option, where it is there once.
    pub(crate) fn value(&self, name: &'static str) -> Result<Option<&'a str>, Misuse> {
        let mut found = None;
        for (other, value) in &self.options {
            if *other == name {
                if found.is_some() {
                    return Err(Misuse::Option(name, "stands twice"));
                }
                found = Some(*value);
            }
        }
        Ok(found)
    }

    /// The number of an option between two others, or this one where the option is missing.
    pub(crate) fn number(
        &self,
        name: &'static str,
        missing: u64,
        least: u64,
        most: u64,
    ) -> Result<u64, Misuse> {
        let Some(value) = self.value(name)? else {
            return Ok(missing);
        };
        match parse_number(value) {
            Some(number) if least <= number && number <= most => Ok(number),
            _ => Err(Misuse::Number { name, least, most }),
        }
    }
}

/// The one of these names that this is.
fn find(name: &str, names: &'static [&'static str]) -> Option<&'static str> {
    for one in names {
        if *one == name {
            return Some(*one);
        }
    }
    None
}

/// What a word is that no option stands before.
fn word_of<'a>(alloc: Global, word: &'a str, known: Known) -> Result<Word<'a>, Misuse> {
    if !word.starts_with("--") {
        return Ok(Word::Plain(word));
    }
    if let Some(name) = find(word, known.bare) {
        return Ok(Word::Whole(name, ""));
    }
    if let Some(name) = find(word, known.valued) {
        return Ok(Word::Open(name));
    }
    let Some((name, value)) = word.split_once('=') else {
        return Err(Misuse::no_such(alloc, "option", word));
    };
    match (find(name, known.valued), find(name, known.bare)) {
        (Some(name), _) => Ok(Word::Whole(name, value)),
        (None, Some(name)) => Err(Misuse::Option(name, "takes no value")),
        (None, None) => Err(Misuse::no_such(alloc, "option", word)),
    }
}

/// The manager that a configuration names, and whether nodes begin with steady hints in its place: these are dynamic there.
fn manager_of(word: Option<&str>) -> Result<(Kind, bool), Misuse> {
    match word {
        None | Some("dynamic") => Ok((Kind::Dynamic, false)),
        Some("fixed") => Ok((Kind::Fixed, false)),
        Some("steady") => Ok((Kind::Dynamic, true)),
        Some(_) => Err(Misuse::Option("--manager", "is `fixed`, `dynamic` or `steady`")),
    }
}

fn settings_of(words: &Words<'_>, manager: Kind) -> Result<Settings, Misuse> {
    Ok(Settings {
        pages: words.number("--pages", 16, 0, MOST)?,
        page_size: words.number("--page-size", 256, 0, MOST)?,
        manager,
    })
}

fn limits_of(words: &Words<'_>) -> Result<NodeLimits, Misuse> {
    Ok(NodeLimits {
        pulse_millis: words.number("--pulse-ms", 20, 1, 60_000)?,
        turns: words.number("--turns", 100_000_000, 1, MOST)?,
        kept: words.number("--kept", 1_000_000, 1, MOST)?,
    })
}

/// The node that words ask for. They are borrowed, since each way out would end them if they were owned.
fn asked_of<'a>(words: &Words<'a>) -> Result<Asked<'a>, Misuse> {
    let [file, node] = *words.plain.as_slice() else {
        return Err(Misuse::Words("run takes a file and a node"));
    };
    let Some(node) = parse_number(node) else {
        return Err(Misuse::Words("the node is no number"));
    };
    let (manager, steady) = manager_of(words.value("--manager")?)?;
    Ok(Asked {
        file,
        node,
        steady,
        settings: settings_of(words, manager)?,
        log: words.value("--log")?,
        is_synced: words.value("--sync")?.is_some(),
        limits: limits_of(words)?,
    })
}

/// Whether the first word behind a command asks how it is used.
fn ask_for_help(words: &[String]) -> bool {
    match words.first() {
        Some(word) => word.as_str() == "--help" || word.as_str() == "-h",
        None => false,
    }
}

fn run<'a>(alloc: Global, words: &'a [String]) -> Result<Request<'a>, Misuse> {
    if ask_for_help(words) {
        return Ok(Request::Help(Help::Usage));
    }
    let words = Words::new(alloc, words, RUN_OPTIONS)?;
    Ok(Request::Run(asked_of(&words)?))
}

fn join<'a>(alloc: Global, words: &'a [String]) -> Result<Request<'a>, Misuse>
    ensures { IfOk result IsJoin }
{
    let words = Words::new(alloc, words, NO_OPTIONS)?;
    let Some((file, logs)) = words.plain.split_first() else {
        return Err(Misuse::Words("join takes a file and logs"));
    };
    Ok(Request::Join {
        file: *file,
        logs: Vec::from_slice(alloc, logs)?,
    })
}

fn join_own<'a>(alloc: Global, words: &'a [String]) -> Result<Request<'a>, Misuse>
    ensures { IfOk result IsJoinOwn }
{
    let words = Words::new(alloc, words, NO_OPTIONS)?;
    Ok(Request::JoinOwn { logs: words.plain })
}

fn harm_of(words: &Words<'_>) -> Result<Harm, Misuse> {
    Ok(Harm {
        lose: words.number("--lose", 0, 0, 100)?,
        repeat: words.number("--repeat", 0, 0, 100)?,
        reorder: words.number("--reorder", 0, 0, 65_536)?,
    })
}

fn router<'a>(alloc: Global, words: &'a [String]) -> Result<Request<'a>, Misuse> {
    if ask_for_help(words) {
        return Ok(Request::Help(Help::Usage));
    }
    let words = Words::new(alloc, words, ROUTER_OPTIONS)?;
    if !words.plain.is_empty() {
        return Err(Misuse::Words("router takes no file"));
    }
    Ok(Request::Router {
        harm: harm_of(&words)?,
        seed: words.number("--seed", 1, 0, MOST)?,
    })
}

/// What the words ask for. The first is the program's name.
pub(crate) fn read<'a>(alloc: Global, words: &'a [String]) -> Result<Request<'a>, Misuse>
    ensures joins { AsksToJoin (map (λ w. string_bytes w) words.now) → IfOk result IsJoin }
    ensures own { AsksToJoinOwn (map (λ w. string_bytes w) words.now) → IfOk result IsJoinOwn }
{
    let Some(command) = words.get(1) else {
        return Err(Misuse::Words("a command is missing"));
    };
    let rest = &words[2..];
    match command.as_str() {
        "run" => run(alloc, rest),
        "join" => join(alloc, rest),
        "join-own" => join_own(alloc, rest),
        "router" => router(alloc, rest),
        "--help" | "-h" | "help" => Ok(Request::Help(Help::Usage)),
        "--version" | "-V" => Ok(Request::Help(Help::Version)),
        _ => Err(Misuse::no_such(alloc, "command", command.as_str())),
    }
}
