//! Calls of the heap at two nodes. Node 0 keeps the heap, and node 1 asks it.
use crate::common::{Growing, Scene, Stepped, expect_scene};
use crate::letters::{Letter, Said};
use crate::memory::{Node, Outcome, Step, check, refuse};
use ivy_memory::CallProgress;
use ivy_model::{Call, Fault, Reply};
use std::alloc::Global;
use std::process::Abort;

/// What calls come to: the block at address 64, where the heap begins; the end of a block; and the refusals of no
/// bytes, of more than there is room for, and of the end of a block that is not there.
const AT_64: Outcome = Ok(CallProgress::Given(Reply::Value(64)));

const DONE: Outcome = Ok(CallProgress::Given(Reply::Done));

const NO_BYTES: Outcome = Ok(CallProgress::Given(Reply::Refused(8)));

const NO_ROOM: Outcome = Ok(CallProgress::Given(Reply::Refused(9)));

const NO_BLOCK: Outcome = Ok(CallProgress::Given(Reply::Refused(10)));

/// Node 0 has to be asked, or has not answered yet.
const AWAITED: Outcome = Ok(CallProgress::Awaited);

const UNSERVED: Outcome = Ok(CallProgress::Unserved);

/// Node 1 asks for 8 bytes by its first call, and is given the block at 64.
const WANTS_8: Letter = (Said::BlockRequest(8), 1, 1);

const GETS_64: Letter = (Said::Block(0, 64), 1, 1);

/// A call of node 1: it begins, node 0 is asked and answers, and the call has its reply. `keeper` is node 0.
struct Round {
    begins: Step,
    asks: Letter,
    answers: Letter,
    ends: Step,
}

/// Whether the round goes as it says.
fn goes_round(
    rt: &impl Abort,
    keeper: &mut Node<Global>,
    node: &mut Node<Global>,
    round: &Round,
) -> bool {
    node.goes(rt, &round.begins)
        && keeper.takes_last(rt, node.posts(), round.asks)
        && node.takes_last(rt, keeper.posts(), round.answers)
        && node.goes(rt, &round.ends)
}

fn check_rounds(rt: &impl Abort, keeper: &mut Node<Global>, node: &mut Node<Global>) {
    for (index, round) in ROUNDS.iter().enumerate() {
        assert!(rt; goes_round(rt, keeper, node, round), "round {index}");
    }
    expect_scene(rt, node, &ASKED);
    expect_scene(rt, keeper, &ANSWERED);
}

/// Node 1 makes the calls of the rounds, with node 0.
fn check_asking(rt: &(impl Abort + AllocGlobal), keeper: &mut Node<Global>) {
    let mut node = Node::new(rt, rt.alloc(), 1);
    check_rounds(rt, keeper, &mut node);
}

/// Each request and each answer is the one message that its node posts. What will be refused is asked for too.
#[test]
fn node_1_asks_node_0(rt: HostRuntime) {
    let mut keeper = Node::new(&rt, rt.alloc(), 0);
    check_asking(&rt, &mut keeper);
}

static ROUNDS: [Round; 5] = [
    Round {
        begins: Step::Allocates(8, 1, AWAITED),
        asks: WANTS_8,
        answers: GETS_64,
        ends: Step::Polls(AT_64),
    },
    Round {
        begins: Step::Allocates(0, 2, AWAITED),
        asks: (Said::BlockRequest(0), 1, 2),
        answers: (Said::Block(8, 0), 1, 2),
        ends: Step::Polls(NO_BYTES),
    },
    Round {
        begins: Step::Allocates(u64::MAX, 3, AWAITED),
        asks: (Said::BlockRequest(u64::MAX), 1, 3),
        answers: (Said::Block(9, 0), 1, 3),
        ends: Step::Polls(NO_ROOM),
    },
    Round {
        begins: Step::Frees(64, 4, AWAITED),
        asks: (Said::EndRequest(64), 1, 4),
        answers: (Said::End(0), 1, 4),
        ends: Step::Polls(DONE),
    },
    Round {
        begins: Step::Frees(64, 5, AWAITED),
        asks: (Said::EndRequest(64), 1, 5),
        answers: (Said::End(10), 1, 5),
        ends: Step::Polls(NO_BLOCK),
    },
];

/// What the nodes have posted after these rounds.
static ANSWERED: Scene<'static, Step> = Scene {
    me: 0,
    steps: &[Step::Breaches(0)],
    posted: &[
        (1, GETS_64),
        (1, (Said::Block(8, 0), 1, 2)),
        (1, (Said::Block(9, 0), 1, 3)),
        (1, (Said::End(0), 1, 4)),
        (1, (Said::End(10), 1, 5)),
    ],
};

static ASKED: Scene<'static, Step> = Scene {
    me: 1,
    steps: &[Step::Breaches(0), Step::Asked(None)],
    posted: &[
        (0, WANTS_8),
        (0, (Said::BlockRequest(0), 1, 2)),
        (0, (Said::BlockRequest(u64::MAX), 1, 3)),
        (0, (Said::EndRequest(64), 1, 4)),
        (0, (Said::EndRequest(64), 1, 5)),
    ],
};

/// Node 0 serves its own calls at once, and posts nothing.
#[test]
fn node_0_asks_nobody(rt: HostRuntime) {
    check(&rt, &AT_NODE_0);
}

static AT_NODE_0: Scene<'static, Step> = Scene {
    me: 0,
    steps: &[
        Step::Allocates(8, 1, AT_64),
        Step::Allocates(0, 2, NO_BYTES),
        Step::Allocates(u64::MAX, 3, NO_ROOM),
        Step::Frees(64, 4, DONE),
        Step::Frees(64, 5, NO_BLOCK),
        Step::Asked(None),
    ],
    posted: &[],
};

/// An answer that nobody waits for, one of another call, one to a Free, one to another node's call, and requests to a
/// node that keeps no heap: each is one breach, and the call waits on. So is an answer that comes twice.
#[test]
fn forged_answers(rt: HostRuntime) {
    check(&rt, &FORGED_ANSWERS);
}

static FORGED_ANSWERS: Scene<'static, Step> = Scene {
    me: 1,
    steps: &[
        Step::Comes(0, GETS_64),
        Step::Breaches(1),
        Step::Allocates(8, 1, AWAITED),
        Step::Comes(0, (Said::Block(0, 64), 1, 2)),
        Step::Breaches(2),
        Step::Comes(0, (Said::End(0), 1, 1)),
        Step::Breaches(3),
        Step::Comes(0, (Said::Block(0, 64), 0, 1)),
        Step::Breaches(4),
        Step::Comes(0, (Said::BlockRequest(8), 0, 1)),
        Step::Breaches(5),
        Step::Comes(0, (Said::EndRequest(64), 0, 1)),
        Step::Breaches(6),
        Step::Polls(UNSERVED),
        Step::Asked(Some(Call::Alloc { size: 8 })),
        Step::Comes(0, GETS_64),
        Step::Breaches(6),
        Step::Comes(0, (Said::Block(0, 72), 1, 1)),
        Step::Breaches(7),
        Step::Polls(AT_64),
        Step::Asked(None),
        Step::Comes(0, GETS_64),
        Step::Breaches(8),
    ],
    posted: &[(0, WANTS_8)],
};

/// Answers with codes that their calls cannot have: 8 for some bytes, 9 for none, and an address for none. Each is the
/// reply of its call, and no breach.
#[test]
fn forged_codes(rt: HostRuntime) {
    check(&rt, &FORGED_CODES);
}

static FORGED_CODES: Scene<'static, Step> = Scene {
    me: 1,
    steps: &[
        Step::Allocates(8, 1, AWAITED),
        Step::Comes(0, (Said::Block(8, 0), 1, 1)),
        Step::Polls(NO_BYTES),
        Step::Allocates(0, 2, AWAITED),
        Step::Comes(0, (Said::Block(9, 0), 1, 2)),
        Step::Polls(NO_ROOM),
        Step::Allocates(0, 3, AWAITED),
        Step::Comes(0, (Said::Block(0, 64), 1, 3)),
        Step::Polls(AT_64),
        Step::Asked(None),
        Step::Breaches(0),
    ],
    posted: &[
        (0, WANTS_8),
        (0, (Said::BlockRequest(0), 1, 2)),
        (0, (Said::BlockRequest(0), 1, 3)),
    ],
};

/// A request that is not its sender's, and answers to the node that gives them: each is one breach, and the heap
/// stays as it was.
#[test]
fn forged_requests(rt: HostRuntime) {
    check(&rt, &FORGED_REQUESTS);
}

static FORGED_REQUESTS: Scene<'static, Step> = Scene {
    me: 0,
    steps: &[
        Step::Allocates(8, 1, AT_64),
        Step::Comes(1, (Said::BlockRequest(8), 0, 1)),
        Step::Breaches(1),
        Step::Comes(1, (Said::EndRequest(64), 0, 1)),
        Step::Breaches(2),
        Step::Comes(1, (Said::Block(0, 64), 0, 1)),
        Step::Breaches(3),
        Step::Comes(1, (Said::End(0), 0, 1)),
        Step::Breaches(4),
        Step::Posted(0),
        Step::Frees(64, 2, DONE),
        Step::Comes(1, WANTS_8),
        Step::Breaches(4),
    ],
    posted: &[(1, GETS_64)],
};

/// A call whose request is refused does not begin.
#[test]
fn a_refused_request(rt: HostRuntime) {
    check(&rt, &REFUSED_REQUEST);
}

static REFUSED_REQUEST: Scene<'static, Step> = Scene {
    me: 1,
    steps: &[
        Step::IsFull(true),
        Step::Allocates(8, 1, Err(Fault::Memory)),
        Step::Asked(None),
        Step::Comes(0, GETS_64),
        Step::Breaches(1),
        Step::IsFull(false),
        Step::Allocates(8, 1, AWAITED),
        Step::Comes(0, GETS_64),
        Step::Polls(AT_64),
    ],
    posted: &[(0, WANTS_8)],
};

/// A block whose answer is refused is taken back, and is given again. One is there still where the answer to its end
/// is refused.
#[test]
fn a_refused_answer(rt: HostRuntime) {
    check(&rt, &REFUSED_ANSWER);
}

static REFUSED_ANSWER: Scene<'static, Step> = Scene {
    me: 0,
    steps: &[
        Step::IsFull(true),
        Step::Refuses(1, WANTS_8),
        Step::Frees(64, 1, NO_BLOCK),
        Step::IsFull(false),
        Step::Comes(1, WANTS_8),
        Step::IsFull(true),
        Step::Refuses(1, (Said::EndRequest(64), 1, 2)),
        Step::IsFull(false),
        Step::Comes(1, (Said::EndRequest(64), 1, 2)),
        Step::Breaches(0),
    ],
    posted: &[(1, GETS_64), (1, (Said::End(0), 1, 2))],
};

/// Node 1 asks for a block that the heap has no memory for: that is refused with 1, and is served when it comes again.
#[test]
fn growths_of_a_request(rt: HostRuntime) {
    refuse(&rt, &REQUEST_COMES);
}

static REQUEST_COMES: Growing<'static, Step> = Growing {
    before: &[],
    refused: Step::Refuses(1, WANTS_8),
    after: Scene {
        me: 0,
        steps: &[
            Step::Posted(0),
            Step::Frees(64, 1, NO_BLOCK),
            Step::Comes(1, WANTS_8),
            Step::Breaches(0),
        ],
        posted: &[(1, GETS_64)],
    },
};

/// So is a call of node 0 itself.
#[test]
fn growths_of_a_call(rt: HostRuntime) {
    refuse(&rt, &NODE_0_CALLS);
}

static NODE_0_CALLS: Growing<'static, Step> = Growing {
    before: &[],
    refused: Step::Allocates(8, 1, Err(Fault::Memory)),
    after: Scene {
        me: 0,
        steps: &[
            Step::Asked(None),
            Step::Frees(64, 1, NO_BLOCK),
            Step::Allocates(8, 1, AT_64),
        ],
        posted: &[],
    },
};
