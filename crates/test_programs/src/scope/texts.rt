//! What is said of texts and command lines: their faults, and where an order breaks.

use crate::scope::common::{Case, Told, check_each, check_shut};
use test_support::File;

const FILES: [File; 10] = [
    File {
        name: "four_faults.ivy",
        text: "node 0\nlod 8 r1 r2   # a letter is missing\nset r16 1\nlabel a\njump b\nprint r1 r2\n",
    },
    File {
        name: "sound.ivy",
        text: "node 0\nnode 1\n",
    },
    File {
        name: "--odd",
        text: "node 0\nnode 1\n",
    },
    File {
        name: "marked.ivy",
        text: "\u{feff}node 0\nnode 1\n",
    },
    File {
        name: "bell.ivy",
        text: "node 0\nset\tr1 \u{7}1\nnode 1\n",
    },
    File {
        name: "empty.ivy",
        text: "",
    },
    File {
        name: "wide.order",
        text: "ivy order 2 300 64\n",
    },
    File {
        name: "short.schedule",
        text: "trun 1\nturn 0\ndeliver 0\n",
    },
    File {
        name: "odd.order",
        text: "ivy order 2 2 64\n0 store 8 64 = done\n0 load 3 64 = value 0\n1 lod 8 64 = value 0\n",
    },
    File {
        name: "stale.order",
        text: "ivy order 2 2 64\n0 store 8 64 7 = done\n\n0 advance 0 = done\n1 load 8 64 = value 0\n",
    },
];

const CASES: [Case<'static>; 26] = [
    (
        &["explain", "four_faults.ivy"],
        2,
        Told::Is(
            "four_faults.ivy:2:1: expected a word that begins a line, perhaps `load`, found `lod`\n    \
             lod 8 r1 r2   # a letter is missing\n    ^^^\n\
             four_faults.ivy:3:5: expected a register, `r0` to `r15`, found `r16`\n    \
             set r16 1\n        ^^^\n\
             four_faults.ivy:5:6: expected the name of a label of this node, found `b`\n    \
             jump b\n         ^\n\
             four_faults.ivy:6:10: expected the end of the line, found `r2`\n    \
             print r1 r2\n             ^^\n",
        ),
        Told::Is(""),
    ),
    // A byte order mark and a bell are shown, and not sent; the mark stands below the word, and is the one fault.
    (
        &["explain", "marked.ivy"],
        2,
        Told::Is(
            "marked.ivy:1:1: expected a text without a byte order mark, found `\\u{feff}node`\n    \
             \\u{feff}node 0\n    ^^^^^^^^^^^^\n",
        ),
        Told::Is(""),
    ),
    (
        &["explain", "bell.ivy"],
        2,
        Told::Is(
            "bell.ivy:2:8: expected a number, 0 to 18446744073709551615, found `\\u{7}1`\n    \
             set r1 \\u{7}1\n           ^^^^^^\n",
        ),
        Told::Is(""),
    ),
    (
        &["explain", "empty.ivy"],
        2,
        Told::Is("empty.ivy: programs of 0 nodes, and 2 to 32 share a memory\n"),
        Told::Is(""),
    ),
    (
        &["check", "wide.order"],
        2,
        Told::Is(""),
        Told::Has(&[
            "wide.order: an order has 2 to 32 nodes, 2 to 256 pages",
            "ivyscope: wide.order is at fault\n",
        ]),
    ),
    (
        &["run", "sound.ivy", "--capacity", "0"],
        2,
        Told::Is(""),
        Told::Is("ivyscope: bad command line: `--capacity` is 1 at least\n"),
    ),
    (
        &["run", "sound.ivy", "--pages=257"],
        2,
        Told::Is(""),
        Told::Is("ivyscope: bad command line: `--pages` is 256 at most\n"),
    ),
    (
        &["run", "sound.ivy", "--page-size", "100"],
        2,
        Told::Is(""),
        Told::Is("ivyscope: bad command line: `--page-size` is a power of two\n"),
    ),
    (
        &["explain", "sound.ivy"],
        0,
        Told::Is("sound.ivy: programs, and nothing is at fault\n"),
        Told::Is(""),
    ),
    // Behind `--` are files. An option has its value as the next word or behind `=`.
    (
        &["explain", "--", "--odd"],
        0,
        Told::Is("--odd: programs, and nothing is at fault\n"),
        Told::Is(""),
    ),
    (
        &["run", "--pages=2", "--page-size", "64", "--", "--odd"],
        0,
        Told::Is(""),
        Told::Is(""),
    ),
    // What a terminal would obey is shown.
    (
        &["run", "mis\u{1b}sing"],
        2,
        Told::Is(""),
        Told::Is("ivyscope: cannot read mis\\u{1b}sing\n"),
    ),
    (
        &["wa\u{1b}lk"],
        2,
        Told::Is(""),
        Told::Has(&["ivyscope: bad command line: `wa\\u{1b}lk` is no command"]),
    ),
    (
        &["explain", "short.schedule"],
        2,
        Told::Is(
            "short.schedule:1:1: expected a word that begins a line, perhaps `turn`, found `trun`\n    \
             trun 1\n    ^^^^\n\
             short.schedule:3:11: expected a number, 0 to 18446744073709551615, found the end of the line\n    \
             deliver 0\n              ^\n",
        ),
        Told::Is(""),
    ),
    (
        &["explain", "odd.order"],
        2,
        Told::Is(
            "odd.order:2:14: expected a number, 0 to 18446744073709551615, found the end of the line\n    \
             0 store 8 64 = done\n                 ^\n\
             odd.order:3:8: expected a width: 1, 2, 4 or 8, found `3`\n    \
             0 load 3 64 = value 0\n           ^\n\
             odd.order:4:3: expected a call, perhaps `load`, found `lod`\n    \
             1 lod 8 64 = value 0\n      ^^^\n",
        ),
        Told::Is(""),
    ),
    (
        &["check", "stale.order"],
        3,
        Told::Is(
            "not legal\nstale.order:5: 1 load 8 64 = value 0: one memory answers value 7 here\n",
        ),
        Told::Is(""),
    ),
    (
        &["counts", "short.schedule"],
        2,
        Told::Is(""),
        Told::Has(&[
            "short.schedule:2:1: ",
            "ivyscope: short.schedule is at fault\n",
        ]),
    ),
    (
        &["counts", "missing"],
        2,
        Told::Is(""),
        Told::Is("ivyscope: cannot read missing\n"),
    ),
    (
        &["--help"],
        0,
        Told::Has(&["  explain ", "  search ", "  settle "]),
        Told::Is(""),
    ),
    (
        &["search", "--help"],
        0,
        Told::Has(&[
            "Usage: ivyscope search FILE [OPTIONS]\n",
            "  --states ",
            "(20000)\n",
        ]),
        Told::Is(""),
    ),
    (
        &["chart", "--version"],
        0,
        Told::Is("ivyscope 1\n"),
        Told::Is(""),
    ),
    (
        &["shedule", "sound.ivy"],
        2,
        Told::Is(""),
        Told::Is("ivyscope: bad command line: `shedule` is no command, perhaps `schedule`\n"),
    ),
    (
        &["order", "sound.ivy", "--see", "1"],
        2,
        Told::Is(""),
        Told::Is("ivyscope: bad command line: `order` has no option `--see`, perhaps `--seed`\n"),
    ),
    (
        &["order", "sound.ivy", "--moves=1000001"],
        2,
        Told::Is(""),
        Told::Is("ivyscope: bad command line: `--moves` is 1000000 at most\n"),
    ),
    (
        &["run", "sound.ivy", "--manager", "dynamo"],
        2,
        Told::Is(""),
        Told::Has(&["`dynamo`, perhaps `dynamic`\n"]),
    ),
    (
        &["order", "sound.ivy", "--manager", "stead"],
        2,
        Told::Is(""),
        Told::Is(
            "ivyscope: bad command line: a manager is `fixed`, `dynamic` or `steady`, and not `stead`, \
             perhaps `steady`\n",
        ),
    ),
];

#[test]
fn texts(rt: HostRuntime) {
    check_each(&rt, &FILES, &CASES);
}

/// Where standard output takes nothing, standard error is told so.
#[test]
fn tells_of_full_output(rt: HostRuntime) {
    let told = Told::Is("ivyscope: standard output took no more\n");
    check_shut(&rt, &FILES, &["explain", "sound.ivy"], 1, told);
}
