//! Command lines: what is printed on both streams, and the status.

use crate::commands::common::{check_each, expect_same, printed_by, words_of};
use ivy_arguments::IvyCommand;
use ivy_model::Kind;
use ivy_texts::Settings;
use std::process::Abort;
use std::sync::Wait;
use std::test::Fail;
use std::thread::Threads;
use test_support::{EMPTY, File, LOADS, NOTICE, WAITS, programs};

/// The files of every test.
const FILES: [File; 20] = [
    File {
        name: "empty",
        text: EMPTY,
    },
    File {
        name: "load",
        text: LOADS,
    },
    File {
        name: "faulty",
        text: "node 0\nset r16 1\n",
    },
    File {
        name: "lone",
        text: "node 0\n",
    },
    File {
        name: "nine",
        text: "node 0\nnode 1\nnode 2\nnode 3\nnode 4\nnode 5\nnode 6\nnode 7\nnode 8\n",
    },
    File {
        name: "none",
        text: "",
    },
    File {
        name: "endless",
        text: "node 0\nlabel again\njump again\nnode 1\n",
    },
    File {
        name: "waiting",
        text: WAITS,
    },
    programs::STORE_BUFFERING,
    File {
        name: "notice",
        text: NOTICE,
    },
    File {
        name: "third",
        text: NOTICE_BESIDE_A_THIRD,
    },
    File {
        name: "first",
        text: "turn 1\nturn 1\ndeliver 0 0\ndeliver 1 1\nturn 1\nturn 1\n",
    },
    File {
        name: "prints",
        text: "node 0\nlabel a\nprint r0\njump a\nnode 1\nlabel a\nprint r0\njump a\nnode 2\nlabel a\nprint r0\njump a\n",
    },
    File {
        name: "just",
        text: "node 0\nset r1 1461\nset r2 1\nlabel a\nsub r1 r1 r2\njumpz r1 b\njump a\nlabel b\nnode 1\n",
    },
    File {
        name: "beyond",
        text: "node 0\nset r1 1462\nset r2 1\nlabel a\nsub r1 r1 r2\njumpz r1 b\njump a\nlabel b\nnode 1\n",
    },
    File {
        name: "blocks",
        text: "node 0\nnode 1\nset r1 8\nalloc r2 r1\nfree r2\n",
    },
    File {
        name: "answers",
        text: "turn 1\nturn 1\ndeliver 0 0\ndeliver 1 1\nturn 1\nturn 1\ndeliver 2 0\ndeliver 3 1\nturn 1\n",
    },
    File {
        name: "moves",
        text: "turn 1\n",
    },
    File {
        name: "spaced",
        text: " # two moves\r\n\r\n\tturn\t01 # the first\r\nturn 1",
    },
    File {
        name: "unknown",
        text: "turn 1\n\nturn 1 1\nturn",
    },
];

/// Node 1 stores and then advances a count, which node 0 awaits. A third program is empty.
const NOTICE_BESIDE_A_THIRD: &str = "\
node 0
set r1 1
await r2 r0 r1
set r1 64
load 8 r3 r1
print r3
node 1
set r1 64
set r2 9
store 8 r1 r2
advance r0
node 2
";

/// The trace of the first load.
const FIRST_LOAD: &str = "\
1 turn 1
2 turn 1
  sent 0 ReadReq 1 0 1
3 deliver 0 0
  sent 1 ReadRep 0 1 1
4 deliver 1 1
5 turn 1
  1 load 8 64 = value 0
6 turn 1
node 1: 0
node 0 ended
node 1 ended
";

/// The trace of a block that node 1 asks for and ends.
const BLOCK: &str = "\
1 turn 1
2 turn 1
  sent 0 AllocReq 1 0 1
3 deliver 0 0
  sent 1 AllocRep 0 1 1
4 deliver 1 1
5 turn 1
  1 alloc 8 = value 64
6 turn 1
  sent 2 FreeReq 1 0 2
7 deliver 2 0
  sent 3 FreeRep 0 1 2
8 deliver 3 1
9 turn 1
  1 free 64 = done
node 0 ended
node 1 ended
";

/// What three nodes print in the first twelve moves of seed 1, of which 3, 2 and 4 are their turns. Two turns print once.
const DRAWN_BY_1: &str = "\
node 0: 0
node 0: 0
node 1: 0
node 2: 0
node 2: 0
node 0 open
node 1 open
node 2 open
";

/// The same of seed 7: 5, 3 and 3 are their turns.
const DRAWN_BY_7: &str = "\
node 0: 0
node 0: 0
node 0: 0
node 1: 0
node 1: 0
node 2: 0
node 2: 0
node 0 open
node 1 open
node 2 open
";

/// Command lines that end with status 0, by what they print.
const DONE: [(&str, &[&str]); 11] = [
    (
        DRAWN_BY_1,
        &["sim prints --moves 12", "sim prints --seed 1 --moves 12"],
    ),
    (DRAWN_BY_7, &["sim prints --seed 7 --moves 12"]),
    (
        "node 0 open\nnode 1 ended\n",
        // Of the first 10,000 moves of seed 1 over two nodes, 4,384 are turns of node 0. It makes 4,387.
        &["sim beyond"],
    ),
    (
        FIRST_LOAD,
        &["step load first --pages 2 --page-size 64 --manager fixed"],
    ),
    (
        BLOCK,
        &["step blocks answers --pages 2 --page-size 64 --manager fixed"],
    ),
    (
        "node 0: 9\n",
        &[
            "run notice --pages 2 --page-size 64 --manager fixed",
            "run notice --pages 2 --page-size 64 --manager dynamic",
            "run third --pages 2 --page-size 64 --manager fixed --capacity 1",
            "run third --pages 2 --page-size 64 --manager dynamic --capacity 1",
        ],
    ),
    (
        "",
        &[
            "run empty",
            "run empty --capacity 65536 --turns 18446744073709551615",
            "run nine --pages 2 --page-size 64 --manager fixed",
        ],
    ),
    (
        "node 1: 0\n",
        &[
            "run load --pages 2 --page-size 64 --manager fixed",
            "run load --page-size=64 --capacity 1 --pulse 7",
            "run --page-size=64 -- load",
        ],
    ),
    (
        "1 turn 1\n2 turn 1\n  sent 0 ReadReq 1 0 1\nnode 0 ended\nnode 1 open\n",
        &["step load spaced --pages 2 --page-size 64 --manager fixed"],
    ),
    (
        "node 0 ended\nnode 1 ended\n",
        // Of `just` node 0 makes 4,384 turns.
        &["step empty none", "sim empty", "sim just"],
    ),
    (
        "node 0 ended\nnode 1 open\n",
        &[
            "sim load --moves 0 --pages 2 --page-size 64 --manager fixed",
            // Of the first eight moves of this seed seven are turns of node 0, and one is a pulse.
            "sim load --seed 1 --moves 8 --pages 2 --page-size 64 --manager fixed",
        ],
    ),
];

#[test]
fn done(rt: HostRuntime) -> Result<(), Fail> {
    for (out, lines) in &DONE {
        check_each(&rt, &FILES, lines, (0, out, ""))?;
    }
    Ok(())
}

/// Command lines that print nothing, by their status and what standard error is told.
const REFUSED: [(u8, &str, &[&str]); 5] = [
    (
        1,
        "ivy: 21 TurnLimit\n",
        &[
            "run load --page-size 64 --turns 1",
            "run endless --turns 5",
            "run waiting --turns 1000",
        ],
    ),
    (
        2,
        "ivy: 2 BadConfig\n",
        &[
            "run empty --turns 0",
            "run empty --capacity 0",
            "run empty --capacity 65537",
            "run empty --pulse 0",
            "run none --capacity 0",
            "run waiting --turns 1000 --pulse 0",
            "run load --pages 1",
            "run load --pages 4294967298",
            "run load --page-size 96",
            "run none",
            "run lone",
            "sim load --pages 1",
        ],
    ),
    (
        2,
        "ivy: cannot read missing\n",
        &[
            "run missing",
            "run missing --capacity 0",
            "step load missing --pages 1",
            "sim missing --moves 0",
        ],
    ),
    (
        2,
        "ivy: 20 ProgramFault line 2\n",
        &[
            "run faulty --capacity 0",
            "run faulty --pages 1",
            "step faulty missing",
            "sim faulty --pages 1",
        ],
    ),
    (
        2,
        "ivy: 20 ProgramFault line 3\n",
        &["step load unknown --pages 1"],
    ),
];

#[test]
fn refused(rt: HostRuntime) -> Result<(), Fail> {
    for (status, err, lines) in &REFUSED {
        check_each(&rt, &FILES, lines, (*status, "", err))?;
    }
    Ok(())
}

/// Command lines that mean nothing.
const BAD: [&str; 20] = [
    "",
    "walk load",
    "run",
    "run load moves",
    "step load",
    "step load moves --turns 1",
    "sim",
    "sim load --moves 1000001",
    "sim load --seed 18446744073709551616",
    "sim load --turns 1",
    "run load --turns",
    "run load --turns 1 --turns 1",
    "run load --pages +3",
    "run load --turns -1",
    "run load --pulse 18446744073709551616",
    "run load --capacity 000000000000000000001",
    "run missing --manager central",
    "run missing --manager steady",
    "help",
    "run --help",
];

#[test]
fn bad_command_lines(rt: HostRuntime) -> Result<(), Fail> {
    check_each(&rt, &FILES, &BAD, (2, "", "ivy: bad command line\n"))
}

/// What stands for each option that is not given.
#[test]
fn defaults(rt: HostRuntime) -> Result<(), Fail> {
    let settings = Settings {
        pages: 16,
        page_size: 256,
        manager: Kind::Dynamic,
    };
    let run = words_of(rt.alloc(), "run load")?;
    let wanted = IvyCommand::Run {
        file: "load",
        turns: 100_000_000,
        capacity: 256,
        pulse: 1024,
        settings,
    };
    expect_same(&rt, IvyCommand::read(rt.alloc(), &run).ok(), Some(wanted));
    let step = words_of(rt.alloc(), "step load moves")?;
    let wanted = IvyCommand::Step {
        file: "load",
        schedule: "moves",
        settings,
    };
    expect_same(&rt, IvyCommand::read(rt.alloc(), &step).ok(), Some(wanted));
    let sim = words_of(rt.alloc(), "sim load")?;
    let wanted = IvyCommand::Sim {
        file: "load",
        seed: 1,
        moves: 10_000,
        settings,
    };
    expect_same(&rt, IvyCommand::read(rt.alloc(), &sim).ok(), Some(wanted));
    Ok(())
}

/// Two runs of one seed print the same bytes.
fn check_again<R: Abort + AllocGlobal + Threads + Wait + Sync>(
    rt: &R,
    line: &str,
) -> Result<(), Fail> {
    let first = printed_by(rt, &FILES, line)?;
    let again = printed_by(rt, &FILES, line)?;
    expect_same(rt, first.as_str(), again.as_str());
    Ok(())
}

#[test]
fn drawn_again(rt: HostRuntime) -> Result<(), Fail> {
    check_again(&rt, "sim load --page-size 64")?;
    check_again(
        &rt,
        "sim load --page-size 64 --seed 18446744073709551615 --moves 100",
    )
}

/// Asserts that in these drawn moves both nodes end, and that they do not both load 0.
fn check_loaded<R: Abort + AllocGlobal + Threads + Wait + Sync>(
    rt: &R,
    manager: &str,
    seed: u64,
) -> Result<(), Fail> {
    let line = format!(in rt.alloc();
        "sim store_buffering.ivy --pages 3 --manager {manager} --seed {seed}"
    )?;
    let printed = printed_by(rt, &FILES, line.as_str())?;
    let loaded = printed
        .as_str()
        .strip_suffix("node 0 ended\nnode 1 ended\n");
    assert!(rt;
        matches!(
            loaded,
            Some("node 0: 0\nnode 1: 1\n" | "node 0: 1\nnode 1: 0\n" | "node 0: 1\nnode 1: 1\n")
        ),
        "{line}"
    );
    Ok(())
}

/// Under moves that are drawn, too, the nodes do not both load 0. A script tries more seeds.
#[test]
fn stores_and_loads_drawn(rt: HostRuntime) -> Result<(), Fail> {
    for manager in ["fixed", "dynamic"] {
        for seed in 1..9 {
            check_loaded(&rt, manager, seed)?;
        }
    }
    Ok(())
}
