//! Pages with counts that come to a node: thrice, and with a count that is full.
use crate::common::{ADVANCE_ASKS, ADVANCE_GETS, COUNT_ASKS, RETRY_ASKS, STORE_ASKS, STORE_GETS};
use crate::sites::steps::{Step, play};
use ivy_model::{Call, Record, Reply};
use ivy_site::Verdict;

/// A node stores and then advances count 0.
const NOTICE: &str = "node 0
set r1 64
set r2 9
store 8 r1 r2
advance r0
";

/// What node 1 is answered.
const NOTICED: [Record; 2] = [
    Record {
        node: 1,
        call: Call::Store {
            width: 8,
            addr: 64,
            value: 9,
        },
        reply: Reply::Done,
    },
    Record {
        node: 1,
        call: Call::Advance { k: 0 },
        reply: Reply::Done,
    },
];

/// What happens at node 1: each page comes three times, and is new once.
const GIVEN_THRICE: [Step; 14] = [
    Step::Turns(3),
    Step::Sends(STORE_ASKS),
    Step::Comes(STORE_GETS, Ok(Verdict::Next)),
    Step::Comes(STORE_GETS, Ok(Verdict::Repeat)),
    Step::Comes(STORE_GETS, Ok(Verdict::Repeat)),
    Step::Turns(2),
    Step::Sends(ADVANCE_ASKS),
    Step::Comes(ADVANCE_GETS, Ok(Verdict::Next)),
    Step::Comes(ADVANCE_GETS, Ok(Verdict::Repeat)),
    Step::Comes(ADVANCE_GETS, Ok(Verdict::Repeat)),
    Step::Turns(1),
    Step::Silent,
    Step::Ended,
    Step::Answered(&NOTICED),
];

/// Both pages come to node 1 three times, and it asks and is answered as if they came once.
#[test]
fn pages_given_thrice(rt: HostRuntime) {
    play(&rt, rt.alloc(), 1, NOTICE, &GIVEN_THRICE);
}

/// A node advances and reads a count, and advances it again.
const FULL: &str = "node 0
advance r0
count r1 r0
print r1
advance r0
status r2
print r2
";

/// An advance of a count that is full.
const REFUSED: Record = Record {
    node: 1,
    call: Call::Advance { k: 0 },
    reply: Reply::Refused(7),
};

/// What node 1 is answered.
const FULL_ANSWERS: [Record; 3] = [
    REFUSED,
    Record {
        node: 1,
        call: Call::Count { k: 0 },
        reply: Reply::Value(18_446_744_073_709_551_615),
    },
    REFUSED,
];

/// The page and its copy, whose counts are full.
const COUNT_GETS_FULL: &str =
    "4956020400010051 0000000000000001 0000000000000000 01 0000000000000001 00000000 00000000 \
     + 18446744073709551615";

const RETRY_GETS_FULL: &str =
    "495602030100004d 0000000000000002 0000000000000001 00 0000000000000001 00000000 + 18446744073709551615";

/// What happens at node 1: it asks for the page, which comes with a full count, and goes on to its
/// end. Then another node asks for a copy of the page, whose count is full still.
const GIVEN_FULL: [Step; 9] = [
    Step::Turns(1),
    Step::Sends(COUNT_ASKS),
    Step::Comes(COUNT_GETS_FULL, Ok(Verdict::Next)),
    Step::Turns(6),
    Step::Answered(&FULL_ANSWERS),
    Step::Ended,
    Step::Printed(&[18_446_744_073_709_551_615, 7]),
    Step::Comes(RETRY_ASKS, Ok(Verdict::Next)),
    Step::Sends(RETRY_GETS_FULL),
];

/// The page is forged: its count is full. Nothing changes, neither where the page comes nor where it is at hand.
#[test]
fn full_count(rt: HostRuntime) {
    play(&rt, rt.alloc(), 1, FULL, &GIVEN_FULL);
}
