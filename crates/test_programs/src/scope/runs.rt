//! What is printed of runs: schedules, orders, numbers, pictures and sessions.

use crate::scope::common::{Case, Told, check_each};
use test_support::{File, programs};

const FILES: [File; 8] = [
    programs::FIRST_LOAD,
    programs::STORE_BUFFERING,
    File {
        name: "acknowledged.schedule",
        text: "turn 1\nturn 1\ndeliver 0 0\ndeliver 1 1\nturn 1\nturn 1\npulse 1 0\ndeliver 2 0\npulse 0 1\n\
               deliver 3 1\npulse 1 0\npulse 0 1\n",
    },
    // Node 0 stores at once, and node 1 has the page but not its turn after that.
    File {
        name: "carried_out.schedule",
        text: "turn 1\nturn 1\nturn 1\nturn 1\ndeliver 0 0\ndeliver 1 1\n",
    },
    File {
        name: "large.ivy",
        text: "node 0\nset r1 9007199254740991\nprint r1\nset r1 9007199254740992\nprint r1\nnode 1\n",
    },
    File {
        name: "two_turns.schedule",
        text: "turn 0\nturn 0\nturn 0\nturn 0\n",
    },
    File {
        name: "past_the_heap.ivy",
        text: "node 0\nset r1 70000\nstore 8 r1 r1\nstore 8 r2 r1\nnode 1\n",
    },
    // By turns, two nodes write a word each of one page.
    File {
        name: "neighbours.ivy",
        text: "node 0\nset r1 256\nset r2 1\nstore 8 r1 r2\nadvance r0\nawait r3 r2 r2\nstore 8 r1 r2\nadvance r0\n\
               node 1\nset r1 264\nset r2 1\nset r4 2\nawait r3 r0 r2\nstore 8 r1 r2\nadvance r2\nawait r3 r0 r4\n\
               store 8 r1 r2\n",
    },
];

const CASES: [Case<'static>; 17] = [
    // The draws of this seed among nodes that sent nothing, as the tests of draws have them.
    (
        &[
            "schedule",
            "first_load.ivy",
            "--seed",
            "1",
            "--moves",
            "8",
            "--pages",
            "2",
        ],
        0,
        Told::Is("turn 0\nturn 0\nturn 0\nturn 0\nturn 0\nturn 0\npulse 0 1\nturn 0\n"),
        Told::Is(""),
    ),
    // Of the moves until all is acknowledged, those are left that the load needs.
    (
        &[
            "schedule",
            "first_load.ivy",
            "acknowledged.schedule",
            "--shortest",
        ],
        0,
        Told::Is("turn 1\nturn 1\ndeliver 0 0\ndeliver 1 1\nturn 1\nturn 1\n"),
        Told::Has(&["6 of 12 moves", "none of them can be left out alone"]),
    ),
    (
        &["order", "first_load.ivy", "acknowledged.schedule"],
        0,
        Told::Is("ivy order 2 16 256\n1 load 8 256 = value 0\n"),
        Told::Is(""),
    ),
    // The store was carried out when the page came, and its reply is owed.
    (
        &["order", "store_buffering.ivy", "carried_out.schedule"],
        0,
        Told::Is("ivy order 2 16 256\n1 store 8 512 1 = done\n"),
        Told::Is(""),
    ),
    // A request of 37 bytes, a copy of 293, the request once more, and an acknowledgement of 24.
    (
        &["counts", "first_load.ivy", "acknowledged.schedule"],
        0,
        Told::Has(&[
            "read faults",
            "in all              1             0     0        1         0        1         0      0         0         0\
             \x20        0        0        0    1         0           1    391\n",
        ]),
        Told::Is(""),
    ),
    (
        &["counts", "neighbours.ivy"],
        0,
        Told::Has(&[
            "false sharing: page 1 is written by turns, at different words, as by nodes 0 and 1\n",
        ]),
        Told::Is(""),
    ),
    // Without all, a picture has each string with its page and the reply, and nothing that came again or after the reply.
    (
        &["chart", "first_load.ivy", "acknowledged.schedule"],
        0,
        Told::HasBut(
            &[
                ">ReadReq 1</text>",
                ">ReadRep 1</text>",
                ">load 8 256 = value 0</text>",
                ">5 turn 1</text>",
            ],
            " again</text>",
        ),
        Told::Is(""),
    ),
    // A part of it: the request, which is sent in move 2, and comes in move 3.
    (
        &[
            "chart",
            "first_load.ivy",
            "acknowledged.schedule",
            "--from",
            "2",
            "--to",
            "3",
        ],
        0,
        Told::HasBut(
            &[
                ">ReadReq 1</text>",
                ">2 turn 1</text>",
                ">3 deliver 0 0</text>",
            ],
            ">5 turn 1</text>",
        ),
        Told::Is(""),
    ),
    // What `ivy step` prints, by the rules of the protocol, and the same as objects.
    (
        &["trace", "first_load.ivy", "carried_out.schedule"],
        0,
        Told::Is(
            "1 turn 1\n2 turn 1\n  sent 0 ReadReq 1 0 1\n3 turn 1\n4 turn 1\n5 deliver 0 0\n\
             \x20 sent 1 ReadRep 0 1 1\n6 deliver 1 1\nnode 0 ended\nnode 1 open\n",
        ),
        Told::Is(""),
    ),
    (
        &["trace", "first_load.ivy", "acknowledged.schedule", "--json"],
        0,
        Told::Has(&[
            "{\"move\":1,\"turn\":1,\"sent\":[]}\n",
            "{\"move\":2,\"turn\":1,\"sent\":[{\"string\":0,\"kind\":\"ReadReq\",\"from\":1,\"to\":0,\"number\":1,\"page\":1}]}\n",
            ",\"sent\":[],\"record\":{\"node\":1,\"call\":\"load\",\"width\":8,\"addr\":256,\"reply\":0}}\n",
            "{\"move\":7,\"pulse\":1,\"to\":0,",
            "{\"node\":0,\"prints\":[],\"ended\":true}\n{\"node\":1,\"prints\":[0],\"ended\":true}\n",
        ]),
        Told::Is(""),
    ),
    // 2^53 - 1 is a number, and the next one stands in quotes.
    (
        &["trace", "large.ivy", "two_turns.schedule", "--json"],
        0,
        Told::Has(&["\"prints\":[9007199254740991,\"9007199254740992\"]"]),
        Told::Is(""),
    ),
    // A picture of all has the second request as one that came again.
    (
        &["chart", "first_load.ivy", "acknowledged.schedule", "--all"],
        0,
        Told::Has(&[
            "<svg xmlns=",
            ">ReadReq 1</text>",
            ">ReadRep 1</text>",
            ">ReadReq 1 again</text>",
            ">load 8 256 = value 0</text>",
            "<line class=\"again\"",
            "</svg>\n",
        ]),
        Told::Is(""),
    ),
    (
        &["run", "past_the_heap.ivy"],
        0,
        Told::Is(""),
        Told::Is(
            "node 0, line 3: store 8 at 70000: 4 address out of range\n\
             node 0, line 4: store 8 at 0: 5 address in page 0, which has the counts\n\
             calls that were refused: 2\n",
        ),
    ),
    (
        &["run", "first_load.ivy", "--history", "--counts", "--strict"],
        0,
        Told::Is("node 0:\nnode 1: 0\n1 load 8 256 = value 0\nnode 1: load 1\n"),
        Told::Is(""),
    ),
    (
        &["run", "past_the_heap.ivy", "--strict"],
        1,
        Told::Is(""),
        Told::Is(
            "node 0, line 3: store 8 at 70000: 4 address out of range\ncalls that were refused: 1\n",
        ),
    ),
    (
        &["run", "first_load.ivy", "--logs", "there"],
        0,
        Told::Is("node 1: 0\n"),
        Told::Is(""),
    ),
    (
        &["run", "first_load.ivy", "--logs", "elsewhere"],
        2,
        Told::Is(""),
        Told::Is("ivyscope: cannot write into elsewhere\n"),
    ),
];

#[test]
fn runs(rt: HostRuntime) {
    check_each(&rt, &FILES, &CASES);
}
