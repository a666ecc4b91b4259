//! What is found in all orders of moves, and at standstills.

use crate::scope::common::{Case, Told, check_each};
use test_support::{File, programs};

const FILES: [File; 7] = [
    programs::STORE_BUFFERING,
    programs::FIRST_LOAD,
    // Each awaits what the other one advances after that.
    File {
        name: "deadlock.ivy",
        text: "node 0\nset r1 1\nawait r2 r3 r1\nadvance r1\nnode 1\nset r1 1\nawait r2 r1 r1\nadvance r3\n",
    },
    // Nobody advances what node 0 awaits.
    File {
        name: "left.ivy",
        text: "node 0\nset r1 7\nprint r1\nload 8 r2 r1\nawait r2 r0 r1\nnode 1\nadvance r0\n",
    },
    // Node 0 goes on for ever without a call.
    File {
        name: "circle.ivy",
        text: "node 0\nset r1 7\nprint r1\nlabel a\njump a\nnode 1\n",
    },
    File {
        name: "lock.ivy",
        text: "node 0\nset r1 256\nset r2 1\nset r3 512\nlabel a\nswap 8 r4 r1 r2\njumpz r4 in\njump a\nlabel in\n\
               load 8 r5 r3\nadd r5 r5 r2\nstore 8 r3 r5\nstore 8 r1 r0\nprint r5\n\
               node 1\nset r1 256\nset r2 1\nset r3 512\nlabel a\nswap 8 r4 r1 r2\njumpz r4 in\njump a\nlabel in\n\
               load 8 r5 r3\nadd r5 r5 r2\nstore 8 r3 r5\nstore 8 r1 r0\nprint r5\n",
    },
    File {
        name: "prints.ivy",
        text: "node 0\nset r1 7\nprint r1\nnode 1\n",
    },
];

const CASES: [Case<'static>; 17] = [
    (
        &["settle", "deadlock.ivy"],
        5,
        Told::Is(
            "node 0, line 3: waits for count 0 to reach 1, and it is 0\n\
             node 1, line 7: waits for count 1 to reach 1, and it is 0\n",
        ),
        Told::Is(""),
    ),
    (
        &["settle", "prints.ivy"],
        0,
        Told::Is("node 0: 7\nnode 0 ended\nnode 1 ended\n"),
        Told::Is(""),
    ),
    (
        &["search", "prints.ivy", "--until", "node 0 prints 7"],
        0,
        Told::Is("# what was looked for, by 2 moves:\nturn 0\nturn 0\n"),
        Told::Is(""),
    ),
    (
        &["search", "prints.ivy", "--until", "node 0 says 7"],
        2,
        Told::Is(""),
        Told::Is("ivyscope: `node 0 says 7` is not `node I prints X`\n"),
    ),
    // Of two nodes that store and load each other's word, at most one loads 0. Nobody waits at an end.
    (
        &["search", "store_buffering.ivy"],
        0,
        Told::HasBut(
            &[
                "outputs: node 0: 0, node 1: 1\n",
                "outputs: node 0: 1, node 1: 0\n",
                "outputs: node 0: 1, node 1: 1\n",
                "at each of these ends all programs have ended\n",
            ],
            "node 0: 0, node 1: 0",
        ),
        Told::Is(""),
    ),
    // A first load has four states, by hand: the opening with the turn that no other node can see, then one after the turn
    // that asks, one after the request came, and one after the answer, with the two turns behind it. So four are all of them,
    // and the end is not among three.
    (
        &["search", "first_load.ivy", "--states", "4"],
        0,
        Told::Is(
            "4 states, and 1 of them are ends\noutputs: node 1: 0\n\
             at each of these ends all programs have ended\n",
        ),
        Told::Is(""),
    ),
    (
        &["search", "first_load.ivy", "--states", "3"],
        6,
        Told::Is(
            "3 states and more, and 0 of them are ends\n\
             no end was reached, so nothing is known of ends\n",
        ),
        Told::Is(""),
    ),
    // Steady hints: no copy is awaited by another node, so the states are as many.
    (
        &[
            "search",
            "first_load.ivy",
            "--states",
            "4",
            "--manager",
            "steady",
        ],
        0,
        Told::Is(
            "4 states, and 1 of them are ends\noutputs: node 1: 0\n\
             at each of these ends all programs have ended\n",
        ),
        Told::Is(""),
    ),
    (
        &["search", "store_buffering.ivy", "--manager", "steady"],
        0,
        Told::HasBut(
            &[
                "outputs: node 0: 0, node 1: 1\n",
                "outputs: node 0: 1, node 1: 0\n",
                "outputs: node 0: 1, node 1: 1\n",
                "at each of these ends all programs have ended\n",
            ],
            "node 0: 0, node 1: 0",
        ),
        Told::Is(""),
    ),
    // A loop without a call costs one state, and there is no end.
    (
        &["search", "circle.ivy"],
        0,
        Told::Is(
            "1 states, and 0 of them are ends\n\
             no order of moves leads to an end: some program goes on for ever\n",
        ),
        Told::Is(""),
    ),
    // Two nodes take a lock that spins, and each adds 1 to a word under it.
    (
        &["search", "lock.ivy"],
        0,
        Told::HasBut(
            &[
                "outputs: node 0: 1, node 1: 2\n",
                "outputs: node 0: 2, node 1: 1\n",
                "at each of these ends all programs have ended\n",
            ],
            "node 0: 1, node 1: 1",
        ),
        Told::Is(""),
    ),
    // No more states are looked at than the option says, wherever a search is then.
    (
        &["search", "store_buffering.ivy", "--states", "20"],
        6,
        Told::Has(&["20 states and more, and "]),
        Told::Is(""),
    ),
    (
        &[
            "search",
            "first_load.ivy",
            "--states",
            "6",
            "--until",
            "node 1 prints 0",
        ],
        6,
        Told::Is("# none of 6 states is that; there are more\n"),
        Told::Is(""),
    ),
    // A text that deadlocks has an end at which a node waits.
    (
        &["search", "deadlock.ivy"],
        5,
        Told::Has(&["outputs: none\n", "# an end at which a node waits, by"]),
        Told::Is(""),
    ),
    // A session that stands still ends at once.
    (
        &["run", "deadlock.ivy"],
        5,
        Told::Is(""),
        Told::Is(
            "node 0, line 3: waits for count 0 to reach 1, and it is 0\n\
             node 1, line 7: waits for count 1 to reach 1, and it is 0\n",
        ),
    ),
    // What was printed and refused before is told.
    (
        &["run", "left.ivy"],
        5,
        Told::Is("node 0: 7\n"),
        Told::Is(
            "node 0, line 4: load 8 at 7: 3 address no multiple of the width\n\
             calls that were refused: 1\n\
             node 0, line 5: waits for count 0 to reach 7, and it is 1\n\
             node 1 ended\n",
        ),
    ),
    // What was printed before the turns were used up is not lost.
    (
        &["run", "circle.ivy", "--turns", "200000"],
        1,
        Told::Is("node 0: 7\n"),
        Told::Is("node 0 still going\nnode 1 ended\nivyscope: 21 TurnLimit\n"),
    ),
];

#[test]
fn searches(rt: HostRuntime) {
    check_each(&rt, &FILES, &CASES);
}
