//! Schedules, with their programs and traces. `tools/texts` writes this file from `examples/`.

use crate::examples::{programs, traces};
use crate::file::{File, Schedule};

/// `acknowledged.schedule`, with its trace.
pub const ACKNOWLEDGED: Schedule = Schedule {
    programs: programs::FIRST_LOAD,
    moves: File {
        name: "acknowledged.schedule",
        text: "\
# ivy step first_load.ivy acknowledged.schedule\n# What the pulses after the load send, until all is \
acknowledged.\nturn 1\nturn 1\ndeliver 0 0\ndeliver 1 1\nturn 1\nturn 1\npulse 1 0           # strin\
g 2: the request again, which acknowledges the copy\ndeliver 2 0         # a repeat, so node 0 owes \
an acknowledgement\npulse 0 1           # string 3: an acknowledgement alone\ndeliver 3 1\npulse 1 0           \
# nothing is left to send\npulse 0 1\n",
    },
    options: "",
    trace: traces::ACKNOWLEDGED,
};

/// `chase.schedule`, with its trace.
pub const CHASE: Schedule = Schedule {
    programs: programs::CHASE,
    moves: File {
        name: "chase.schedule",
        text: "\
# ivy step chase.ivy chase.schedule --pages 2 --page-size 64\n# A load that is not answered, though \
each message is delivered, those of a pair in order. Node 3 asks for the page in\n# move 8. Its requ\
est comes to node 0 and to node 1 in turn, each time while that node waits for a copy, so it is put\n\
# off; and when the copy has come, the page is promised to another node. Meanwhile the others are an\
swered nine times.\n# The last 38 moves can be repeated for ever, each time with strings whose numbe\
rs are higher by 20: nothing would end\n# it but the greatest number of a message.\nturn 0              \
# set\nturn 1              # set\nturn 2              # set\nturn 2              # set\nturn 3              \
# set\nturn 1              # load: string 0, to node 0, which owns the page\nturn 2              # s\
tore: string 1, to node 0\nturn 3              # load: string 2, to node 0. This is the request that \
is sent round\ndeliver 1 0         # node 0 gives the page to node 2: string 3\ndeliver 3 2\nturn 2              \
# the store of node 2 is answered\nturn 2              # jump\ndeliver 0 0         # sent on to node \
2: string 4\nturn 0              # load: string 5, to node 2\ndeliver 4 2         # a copy for node \
1: string 6\ndeliver 6 1\nturn 1              # the load of node 1 is answered\nturn 1              \
# store: string 7, to node 2\ndeliver 7 2         # node 2 gives the page to node 1: string 8\ndeliv\
er 5 2         # the request of node 0 is sent on to node 1: string 9\ndeliver 8 1\ndeliver 2 0         \
# node 3's request comes to node 0, which waits for a copy: it is put off\nturn 1              # the \
store of node 1 is answered\nturn 1              # jump\n# From here on the moves can be repeated fo\
r ever.\nturn 2              # store: string 10, to node 1\ndeliver 9 1         # a copy for node 0: \
string 11\ndeliver 11 0        # it comes, and node 3's request goes on to node 1: string 12\nturn 0              \
# the load of node 0 is answered\ndeliver 10 1        # node 1 gives the page to node 2: string 13\n\
turn 1              # load: string 14, to node 2\ndeliver 12 1        # node 3's request comes to no\
de 1, which waits for a copy: it is put off\ndeliver 13 2        # the page comes to node 2, which o\
rders node 0 to give its copy up: string 15\ndeliver 15 0        # it does: its hint is node 2 now, \
past node 3's request\nturn 0              # store: string 17, to node 2\ndeliver 16 2        # the \
last copy is given up\nturn 2              # the store of node 2 is answered\nturn 2              # \
jump\ndeliver 17 2        # node 2 gives the page to node 0: string 18\ndeliver 14 2        # the re\
quest of node 1 is sent on to node 0: string 19\ndeliver 18 0\nturn 0              # the store of no\
de 0 is answered\nturn 0              # jump\nturn 3              # node 3 waits\n# The same with no\
des 0 and 1 changed over.\nturn 2              # store: string 20, to node 0\ndeliver 19 0        # \
a copy for node 1: string 21\ndeliver 21 1        # it comes, and node 3's request goes on to node 0\
: string 22\nturn 1              # the load of node 1 is answered\ndeliver 20 0        # node 0 give\
s the page to node 2: string 23\nturn 0              # load: string 24, to node 2\ndeliver 22 0        \
# node 3's request comes to node 0 again, which waits for a copy: it is put off\ndeliver 23 2        \
# the page comes to node 2, which orders node 1 to give its copy up: string 25\ndeliver 25 1        \
# it does: its hint is node 2 now, past node 3's request\nturn 1              # store: string 27, to \
node 2\ndeliver 26 2        # the last copy is given up\nturn 2              # the store of node 2 i\
s answered\nturn 2              # jump\ndeliver 27 2        # node 2 gives the page to node 1: strin\
g 28\ndeliver 24 2        # the request of node 0 is sent on to node 1: string 29\ndeliver 28 1\ntur\
n 1              # the store of node 1 is answered\nturn 1              # jump\nturn 3              \
# node 3 waits\n",
    },
    options: "--pages 2 --page-size 64",
    trace: traces::CHASE,
};

/// `first_load.schedule`, with its trace.
pub const FIRST_LOAD: Schedule = Schedule {
    programs: programs::FIRST_LOAD,
    moves: File {
        name: "first_load.schedule",
        text: "\
# ivy step first_load.ivy first_load.schedule\nturn 1              # set\nturn 1              # load\
: the page is asked for\ndeliver 0 0         # node 0 answers with a copy\ndeliver 1 1         # the \
word is loaded\nturn 1              # its value goes to the program\nturn 1              # print\n",
    },
    options: "",
    trace: traces::FIRST_LOAD,
};

/// `forwarded_read.schedule`, with its trace.
pub const FORWARDED_READ: Schedule = Schedule {
    programs: programs::FORWARDED_READ,
    moves: File {
        name: "forwarded_read.schedule",
        text: "\
# ivy step forwarded_read.ivy forwarded_read.schedule --pages 2 --page-size 64 --manager fixed\nturn \
2\nturn 2              # string 0: a request to node 1\ndeliver 0 1         # string 1: the request \
goes on to node 0\ndeliver 1 0         # string 2: a copy for node 2\ndeliver 2 2\nturn 2\nturn 2\n",
    },
    options: "--pages 2 --page-size 64 --manager fixed",
    trace: traces::FORWARDED_READ,
};

/// `four_readers.schedule`, with its trace.
pub const FOUR_READERS: Schedule = Schedule {
    programs: programs::FOUR_READERS,
    moves: File {
        name: "four_readers.schedule",
        text: "\
# ivy step four_readers.ivy four_readers.schedule --manager fixed\nturn 1\nturn 1              # loa\
d: string 0, a request to node 2, which manages the page\nturn 2\nturn 2              # load: string \
1, a request to node 0, which owns the page\nturn 3\nturn 3              # load: string 2, a request \
to node 2\ndeliver 0 2         # put off, since node 2 waits for the page itself\ndeliver 2 2         \
# put off behind it\ndeliver 1 0         # string 3: a copy for node 2\ndeliver 3 2         # node 2 \
loads, and sends on what was put off: strings 4 and 5\ndeliver 4 0         # string 6: a copy for no\
de 1\ndeliver 5 0         # string 7: a copy for node 3\ndeliver 7 3\ndeliver 7 3         # a repeat\
, which changes nothing\ndeliver 6 1\nturn 0\nturn 0              # node 0 loads at once: it still m\
ay read its page\nturn 0\nturn 1\nturn 1\nturn 2\nturn 2\nturn 3\nturn 3\n",
    },
    options: "--manager fixed",
    trace: traces::FOUR_READERS,
};

/// `late_read_page.schedule`, with its trace.
pub const LATE_READ_PAGE: Schedule = Schedule {
    programs: programs::LATE_READ_PAGE,
    moves: File {
        name: "late_read_page.schedule",
        text: "\
# ivy step late_read_page.ivy late_read_page.schedule --manager fixed\n# The copy for node 2 is late\
: it comes after the message that is to end it. That message waits for it. Would\n# node 2 answer at \
once, the copy would stay there past the store, and its later loads would find the old word.\nturn 2\
\nturn 2              # load: string 0, a request to node 1\ndeliver 0 1         # string 1: the req\
uest goes on to node 0\ndeliver 1 0         # string 2: the copy for node 2, which is late\nturn 1\n\
turn 1\nturn 1              # store: string 3 asks for the page itself\ndeliver 3 0         # string \
4: the page, and that node 2 has a copy\ndeliver 4 1         # string 5: the copy at node 2 is to be \
ended\ndeliver 5 2         # put off, since node 2 waits for that very copy\nturn 1              # n\
othing: the store waits\ndeliver 2 2         # the word is loaded, then the copy is ended: string 6\n\
deliver 6 1         # the word is stored\nturn 1\nturn 2\nturn 2\n",
    },
    options: "--manager fixed",
    trace: traces::LATE_READ_PAGE,
};

/// `lost_request.schedule`, with its trace.
pub const LOST_REQUEST: Schedule = Schedule {
    programs: programs::FIRST_LOAD,
    moves: File {
        name: "lost_request.schedule",
        text: "\
# ivy step first_load.ivy lost_request.schedule\n# The request is lost, and a pulse sends it again.\n\
turn 1\nturn 1              # string 0 is never delivered\npulse 1 0           # string 1: the same \
request\ndeliver 1 0\ndeliver 2 1\nturn 1\nturn 1\n",
    },
    options: "",
    trace: traces::LOST_REQUEST,
};

/// `node_0_first.schedule`, with its trace.
pub const NODE_0_FIRST: Schedule = Schedule {
    programs: programs::STORE_BUFFERING,
    moves: File {
        name: "node_0_first.schedule",
        text: "\
# ivy step store_buffering.ivy node_0_first.schedule\n# Node 0 goes to its end first. It owns both p\
ages, so it sends nothing.\nturn 0\nturn 0\nturn 0\nturn 0              # store\nturn 0              \
# load: node 1 did not store yet\nturn 0\nturn 1\nturn 1\nturn 1\nturn 1              # store: strin\
g 0 asks for page 2, to write it\ndeliver 0 0         # string 1: the page, which nobody else has a \
copy of\ndeliver 1 1         # the word is stored\nturn 1\nturn 1              # load: string 2 asks \
for a copy of page 1\ndeliver 2 0\ndeliver 3 1         # the word that node 0 stored\nturn 1\nturn 1\
\n",
    },
    options: "",
    trace: traces::NODE_0_FIRST,
};

/// `node_1_first.schedule`, with its trace.
pub const NODE_1_FIRST: Schedule = Schedule {
    programs: programs::STORE_BUFFERING,
    moves: File {
        name: "node_1_first.schedule",
        text: "\
# ivy step store_buffering.ivy node_1_first.schedule\n# Node 1 goes to its end first, and keeps a co\
py of page 1. Node 0 owns that page, but does not store to it\n# before the copy is ended: else node \
1 could load the old word after node 0 was told that the store is done.\nturn 1\nturn 1\nturn 1\ntur\
n 1              # store: string 0 asks for page 2, to write it\ndeliver 0 0         # string 1: the \
page\ndeliver 1 1         # the word is stored\nturn 1\nturn 1              # load: string 2 asks fo\
r a copy of page 1\ndeliver 2 0         # string 3: the copy; from now on node 0 may only read the p\
age\ndeliver 3 1\nturn 1\nturn 1\nturn 0\nturn 0\nturn 0\nturn 0              # store: string 4 ends \
the copy at node 1\nturn 0              # nothing: the store waits\ndeliver 4 1         # string 5: \
the copy was ended\ndeliver 5 0         # the word is stored\nturn 0\nturn 0              # load: st\
ring 6 asks for a copy of page 2\ndeliver 6 1\ndeliver 7 0         # the word that node 1 stored\ntu\
rn 0\nturn 0\n",
    },
    options: "",
    trace: traces::NODE_1_FIRST,
};

/// `refused_accesses.schedule`, with its trace.
pub const REFUSED_ACCESSES: Schedule = Schedule {
    programs: programs::REFUSED_ACCESSES,
    moves: File {
        name: "refused_accesses.schedule",
        text: "\
# ivy step refused_accesses.ivy refused_accesses.schedule --pages 2 --page-size 64\nturn 0\nturn 0\n\
turn 0\nturn 0\nturn 0\nturn 0\nturn 0\nturn 0\nturn 0\nturn 0\n",
    },
    options: "--pages 2 --page-size 64",
    trace: traces::REFUSED_ACCESSES,
};

/// `stale_hint.schedule`, with its trace.
pub const STALE_HINT: Schedule = Schedule {
    programs: programs::STALE_HINT,
    moves: File {
        name: "stale_hint.schedule",
        text: "\
# ivy step stale_hint.ivy stale_hint.schedule\n# The request of node 2 takes two hops: node 2 was no\
t told that node 0 gave the page to node 1, so it still\n# asks node 0, which sends the request on a\
long its own hint. Node 0 then hints at node 2, which is to have the\n# page, and so its own request \
takes one hop.\nturn 1\nturn 1\nturn 1              # store: string 0, a request to node 0\ndeliver \
0 0         # string 1: the page, which node 1 owns from now on\ndeliver 1 1         # the word is s\
tored\nturn 1\nturn 2\nturn 2\nturn 2              # store: string 2, a request to node 0, by a hint \
that is stale\ndeliver 2 0         # string 3: the request goes on to node 1\ndeliver 3 1         # \
string 4: the page for node 2\ndeliver 4 2         # the word is stored\nturn 2\nturn 0\nturn 0              \
# load: string 5, a request to node 2\ndeliver 5 2         # string 6: a copy\ndeliver 6 0         # \
the word is loaded\nturn 0\nturn 0\n",
    },
    options: "",
    trace: traces::STALE_HINT,
};

/// `stores_first.schedule`, with its trace.
pub const STORES_FIRST: Schedule = Schedule {
    programs: programs::STORE_BUFFERING,
    moves: File {
        name: "stores_first.schedule",
        text: "\
# ivy step store_buffering.ivy stores_first.schedule\n# Both stores are done before either load begi\
ns, so both nodes load 1.\nturn 0\nturn 0\nturn 0\nturn 0              # store: node 0 still owns pa\
ge 1, to write it\nturn 1\nturn 1\nturn 1\nturn 1              # store: string 0 asks for page 2\nde\
liver 0 0\ndeliver 1 1\nturn 1\nturn 0              # load: string 2 asks for a copy of page 2\nturn \
1              # load: string 3 asks for a copy of page 1\ndeliver 2 1         # node 1 waits for pa\
ge 1, but serves page 2\ndeliver 3 0\ndeliver 4 0\ndeliver 5 1\nturn 0\nturn 1\nturn 0\nturn 1\n",
    },
    options: "",
    trace: traces::STORES_FIRST,
};

/// `string_not_sent.schedule`, with its trace.
pub const STRING_NOT_SENT: Schedule = Schedule {
    programs: programs::FIRST_LOAD,
    moves: File {
        name: "string_not_sent.schedule",
        text: "\
# ivy step first_load.ivy string_not_sent.schedule\n# The last move names a string that was not sent \
yet, so it is refused by 19.\nturn 1\nturn 1\ndeliver 1 1\n",
    },
    options: "",
    trace: traces::STRING_NOT_SENT,
};
