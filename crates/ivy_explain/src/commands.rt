//! The commands of `ivyscope`, and the options of each.

use ivy_options::{
    ANY_NUMBER, Bounds, Command, CommandOption, CommandTable, MANAGER, Operand, PAGE_SIZE, PAGES,
    Value,
};

/// The file of a command.
const FILE: Operand = Operand {
    usage: "FILE",
    name: "file",
    is_needed: true,
    may_repeat: false,
};

/// The schedule of a run, which may be missing.
const SCHEDULE: Operand = Operand {
    usage: "[SCHEDULE]",
    name: "schedule",
    is_needed: false,
    may_repeat: false,
};

/// Said of a command that takes a schedule.
const DRAWN: &str = "Without SCHEDULE the moves are drawn.\n";

/// How many drawn moves can be asked for.
const DRAWN_MOVES: Bounds = Bounds {
    least: 0,
    most: 1_000_000,
};

/// Of what there has to be one at least.
const SOME: Bounds = Bounds {
    least: 1,
    most: u64::MAX,
};

/// How many items an ether may hold.
const ITEMS: Bounds = Bounds {
    least: 1,
    most: 65_536,
};

const SEED: CommandOption = CommandOption {
    name: "--seed",
    value: Value::Number {
        missing: Some(1),
        bounds: ANY_NUMBER,
    },
    about: "the seed of the generator of moves",
};

const MOVES: CommandOption = CommandOption {
    name: "--moves",
    value: Value::Number {
        missing: Some(10_000),
        bounds: DRAWN_MOVES,
    },
    about: "how many moves are drawn, 1000000 at most",
};

/// Of `settle`, which plays on by itself.
const FIRST_MOVES: CommandOption = CommandOption {
    name: "--moves",
    value: Value::Number {
        missing: Some(0),
        bounds: DRAWN_MOVES,
    },
    about: "how many moves are drawn first, 1000000 at most",
};

const TURNS: CommandOption = CommandOption {
    name: "--turns",
    value: Value::Number {
        missing: Some(100_000_000),
        bounds: SOME,
    },
    about: "the most turns of a worker",
};

const CAPACITY: CommandOption = CommandOption {
    name: "--capacity",
    value: Value::Number {
        missing: Some(256),
        bounds: ITEMS,
    },
    about: "how many items the ether holds, 65536 at most",
};

const PULSE: CommandOption = CommandOption {
    name: "--pulse",
    value: Value::Number {
        missing: Some(1024),
        bounds: SOME,
    },
    about: "turns on the wire from a pulse to the next",
};

const STRICT: CommandOption = CommandOption {
    name: "--strict",
    value: Value::Nothing,
    about: "ends the session at the first call that is refused",
};

const HISTORY: CommandOption = CommandOption {
    name: "--history",
    value: Value::Nothing,
    about: "prints what each node was answered",
};

const COUNTS: CommandOption = CommandOption {
    name: "--counts",
    value: Value::Nothing,
    about: "prints how often each node made each call",
};

const LOGS: CommandOption = CommandOption {
    name: "--logs",
    value: Value::Word("FOLDER"),
    about: "takes the log of each node, for `ivynode join`",
};

const SHORTEST: CommandOption = CommandOption {
    name: "--shortest",
    value: Value::Nothing,
    about: "drops moves as long as the outputs stay",
};

const PAGE: CommandOption = CommandOption {
    name: "--page",
    value: Value::Number {
        missing: None,
        bounds: ANY_NUMBER,
    },
    about: "whose access is shown, else that of the first string",
};

const FIRST: CommandOption = CommandOption {
    name: "--from",
    value: Value::Number {
        missing: Some(1),
        bounds: SOME,
    },
    about: "the number of the first move that is drawn",
};

const LAST: CommandOption = CommandOption {
    name: "--to",
    value: Value::Number {
        missing: None,
        bounds: SOME,
    },
    about: "the number of the last move that is drawn",
};

const ALL: CommandOption = CommandOption {
    name: "--all",
    value: Value::Nothing,
    about: "also what came again, and what came after the last reply",
};

const JSON: CommandOption = CommandOption {
    name: "--json",
    value: Value::Nothing,
    about: "one object a line",
};

const BOTH: CommandOption = CommandOption {
    name: "--both",
    value: Value::Nothing,
    about: "the totals under both managers, side by side",
};

const STATES: CommandOption = CommandOption {
    name: "--states",
    value: Value::Number {
        missing: Some(20_000),
        bounds: ANY_NUMBER,
    },
    about: "how many states are looked at, at most",
};

const UNTIL: CommandOption = CommandOption {
    name: "--until",
    value: Value::Word("WORDS"),
    about: "the least schedule to 'node I prints X', more of them joined by 'and'",
};

/// The program and its commands.
static PROGRAM: CommandTable = CommandTable {
    name: "ivyscope",
    about: "Shows what happened in a run of programs over one shared memory.",
    usage: "COMMAND FILE [SCHEDULE] [OPTIONS]",
    commands: &[
        Command {
            name: "explain",
            operands: &[FILE],
            options: &[],
            about: "says what is at fault in a text, a schedule or an order",
            note: "",
        },
        Command {
            name: "run",
            operands: &[FILE],
            options: &[
                PAGES, PAGE_SIZE, MANAGER, TURNS, CAPACITY, PULSE, STRICT, HISTORY, COUNTS, LOGS,
            ],
            about: "runs programs in threads, and tells of each call that is refused",
            note: "",
        },
        Command {
            name: "schedule",
            operands: &[FILE, SCHEDULE],
            options: &[PAGES, PAGE_SIZE, MANAGER, SEED, MOVES, SHORTEST],
            about: "prints the moves of a run, as a schedule for `ivy step`",
            note: DRAWN,
        },
        Command {
            name: "trace",
            operands: &[FILE, SCHEDULE],
            options: &[PAGES, PAGE_SIZE, MANAGER, SEED, MOVES, JSON],
            about: "prints what each move of a run did, as `ivy step` does",
            note: DRAWN,
        },
        Command {
            name: "chart",
            operands: &[FILE, SCHEDULE],
            options: &[
                PAGES, PAGE_SIZE, MANAGER, SEED, MOVES, PAGE, FIRST, LAST, ALL,
            ],
            about: "draws a run as a picture, in SVG",
            note: DRAWN,
        },
        Command {
            name: "counts",
            operands: &[FILE, SCHEDULE],
            options: &[PAGES, PAGE_SIZE, MANAGER, SEED, MOVES, BOTH],
            about: "counts the faults, hits and messages of a run, by node and by page",
            note: DRAWN,
        },
        Command {
            name: "search",
            operands: &[FILE],
            options: &[PAGES, PAGE_SIZE, MANAGER, STATES, UNTIL],
            about: "goes through all orders of turns and deliveries",
            note: "",
        },
        Command {
            name: "settle",
            operands: &[FILE],
            options: &[PAGES, PAGE_SIZE, MANAGER, SEED, FIRST_MOVES],
            about: "plays on to a standstill, and says what each node waits for",
            note: "",
        },
        Command {
            name: "order",
            operands: &[FILE, SCHEDULE],
            options: &[PAGES, PAGE_SIZE, MANAGER, SEED, MOVES],
            about: "prints the order of records that explains a run, for `ivy check`",
            note: DRAWN,
        },
        Command {
            name: "check",
            operands: &[FILE],
            options: &[],
            about: "says whether an order is legal, and if not, where it breaks",
            note: "",
        },
    ],
};

/// The program and its commands. Each function that names the table itself costs its proof the whole table.
pub(crate) fn program() -> &'static CommandTable {
    &PROGRAM
}
