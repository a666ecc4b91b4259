//! Each growth refused in turn in a turn of a node, in the delivery of a string and in a pulse: where it loads,
//! advances a count or asks for a block, at once or by asking another node, where it tries an await again, and where
//! what comes is served or answers it. A refused call changes nothing: the node goes on as a twin does that was never refused,
//! to the same strings and replies.
use crate::common::{
    ALLOC_ASKS, ALLOC_GETS, COUNT_ASKS, COUNT_GETS, REPLY, REQUEST, RETRY_ASKS, RETRY_GETS,
    Refusable, expect_same_at, is_met, met, refuse_each, string,
};
use crate::sites::common::{LOADS, expect_next, node_of, pulse, receive, take_turn, take_turns};
use crate::sites::steps::{Step, expect_silent, make_all};
use ivy_model::{Call, Fault, Record, Reply};
use ivy_site::{Site, Verdict};
use std::alloc::{Allocator, Global};
use std::process::Abort;
use test_support::Failing;

const EMPTY: &str = "node 0\n";

const ADVANCES: &str = "node 0\nadvance r0\n";

const AWAITS: &str = "node 0\nset r1 1\nawait r2 r0 r1\n";

const ALLOCS: &str = "node 0\nset r1 8\nalloc r2 r1\n";

/// A turn of a node, or a delivery to it, in which growths are refused.
#[derive(Clone, Copy)]
struct Growing<'a> {
    me: u8,
    /// Its program.
    text: &'a str,
    before: &'a [Step<'a>],
    /// The string that comes. Where there is none, the node makes a turn.
    comes: Option<&'a str>,
    /// The string that it sends for it.
    sends: Option<&'a str>,
    /// What its program was answered after one more turn.
    answers: &'a [Record],
}

/// The node before growths are refused.
fn begun<A: Allocator + Copy>(rt: &impl Abort, alloc: A, growing: &Growing) -> Site<A> {
    let mut site = node_of(rt, alloc, growing.me, growing.text);
    make_all(rt, alloc, &mut site, growing.before);
    site
}

/// Whether the nodes show the same, strings aside.
fn same_sites<A: Allocator + Copy>(one: &Site<A>, other: &Site<A>) -> bool {
    one.history() == other.history()
        && one.output() == other.output()
        && one.ended() == other.ended()
        && one.events().len() == other.events().len()
}

/// A string comes to a node, or else it makes a turn.
fn go_on<A: Allocator + Copy>(site: &mut Site<A>, comes: Option<&[u8]>) -> Result<(), Fault> {
    match comes {
        Some(bytes) => {
            receive(site, bytes)?;
        }
        None => {
            take_turn(site)?;
        }
    }
    Ok(())
}

/// Both go on, the first with the n-th growth refused, and once more where it was asked for. Whether it was.
fn go_on_at<A: Allocator + Copy>(
    rt: &impl Abort,
    memory: &Failing<Global>,
    n: u64,
    comes: Option<&[u8]>,
    site: &mut Site<A>,
    twin: &mut Site<A>,
) -> bool {
    memory.refuse(n);
    let fault = go_on(site, comes).err();
    let met = is_met(rt, memory, n, fault);
    if met {
        assert!(rt; same_sites(site, twin), "growth {n}");
        if comes.is_some() {
            assert!(rt; take_turn(site) == take_turn(twin), "growth {n}");
        }
        expect_same_at(rt, n, go_on(site, comes), Ok(()));
    }
    expect_same_at(rt, n, go_on(twin, comes), Ok(()));
    met
}

/// Asserts what the node sent, and what its program was answered after one more turn.
fn check_site<A: Allocator + Copy>(
    rt: &impl Abort,
    alloc: A,
    site: &mut Site<A>,
    growing: &Growing,
) {
    if let Some(sends) = growing.sends {
        expect_next(rt, alloc, site, sends);
    }
    take_turns(rt, site, 1);
    expect_silent(rt, site);
    assert!(rt; site.history() == growing.answers);
}

/// Both nodes sent and were answered what they have to, and show the same.
fn check_both<A: Allocator + Copy>(
    rt: &impl Abort,
    alloc: A,
    growing: &Growing,
    site: &mut Site<A>,
    twin: &mut Site<A>,
) {
    check_site(rt, alloc, site, growing);
    check_site(rt, alloc, twin, growing);
    assert!(rt; same_sites(site, twin));
}

/// The n-th growth is refused to a node that has begun. It and its twin are held by two functions, which costs less proof
/// than one.
fn refused_beside_twin<A: Allocator + Copy>(
    rt: &impl Abort,
    (memory, alloc, n): (&Failing<Global>, A, u64),
    growing: &Growing,
    site: &mut Site<A>,
) -> bool {
    let mut twin = begun(rt, alloc, growing);
    refused_in_one(rt, (memory, alloc, n), growing, site, &mut twin)
}

/// The same of two nodes that have begun.
fn refused_in_one<A: Allocator + Copy>(
    rt: &impl Abort,
    (memory, alloc, n): (&Failing<Global>, A, u64),
    growing: &Growing,
    site: &mut Site<A>,
    twin: &mut Site<A>,
) -> bool {
    let met = match growing.comes {
        Some(written) => {
            let comes = string(rt, alloc, written);
            go_on_at(rt, memory, n, Some(&comes), site, twin)
        }
        None => go_on_at(rt, memory, n, None, site, twin),
    };
    check_both(rt, alloc, growing, site, twin);
    met
}

/// A node takes its memory as any allocator, by which it costs less proof.
fn refused_at<A: Allocator + Copy>(
    rt: &impl Abort,
    (memory, alloc, n): (&Failing<Global>, A, u64),
    growing: &Growing,
) -> bool {
    let mut site = begun(rt, alloc, growing);
    refused_beside_twin(rt, (memory, alloc, n), growing, &mut site)
}

impl Refusable for Growing<'_> {
    fn is_met(&self, rt: &impl Abort, memory: &Failing<Global>, n: u64) -> bool {
        refused_at(rt, (memory, memory, n), self)
    }
}

/// A turn of node 0, whose program is empty, in which it sends nothing. Rows say what is more than that.
const OF_NODE_0: Growing = Growing {
    me: 0,
    text: EMPTY,
    before: &[],
    comes: None,
    sends: None,
    answers: &[],
};

/// A load faults: the request waits to be put on the wire.
const TURN: Growing = Growing {
    me: 1,
    text: LOADS,
    before: &[Step::Turns(1)],
    sends: Some(REQUEST),
    ..OF_NODE_0
};

#[test]
fn growths_of_a_turn(rt: HostRuntime) {
    refuse_each(&rt, &TURN);
}

/// The request comes to the owner.
const REQUEST_COMES: Growing = Growing {
    comes: Some(REQUEST),
    sends: Some(REPLY),
    ..OF_NODE_0
};

#[test]
fn growths_of_a_request_that_comes(rt: HostRuntime) {
    refuse_each(&rt, &REQUEST_COMES);
}

/// The order to give the copy up, which comes before the copy, and the answer to it.
const ENDS: &str =
    "495602050001000d 0000000000000002 0000000000000001 00 0000000000000001 00000001";

const ENDED: &str =
    "495602060100000d 0000000000000002 0000000000000001 00 0000000000000001 00000001";

/// Node 1 asked for a copy, and holds the order that came before it.
const HOLDING: [Step; 4] = [
    Step::Turns(2),
    Step::Sends(REQUEST),
    Step::Comes(ENDS, Ok(Verdict::Ahead)),
    Step::Silent,
];

/// The copy comes with the n-th growth refused. Whether that growth was asked for.
fn copy_comes<A: Allocator + Copy>(
    rt: &impl Abort,
    memory: &Failing<Global>,
    n: u64,
    site: &mut Site<A>,
    copy: &[u8],
) -> (Result<Verdict, Fault>, bool) {
    memory.refuse(n);
    let answer = receive(site, copy);
    let met = met(memory, n);
    assert!(rt;
        answer == Ok(Verdict::Next) || (met && answer == Err(Fault::Memory)),
        "growth {n}"
    );
    (answer, met)
}

/// The node gives the copy up, at once or once what was refused comes again, and its load is answered.
fn goes_on<A: Allocator + Copy>(
    rt: &impl Abort,
    (memory, alloc, n): (&Failing<Global>, A, u64),
    site: &mut Site<A>,
) -> bool {
    let copy = string(rt, alloc, REPLY);
    let (answer, met) = copy_comes(rt, memory, n, site, &copy);
    if answer.is_err() {
        expect_same_at(rt, n, receive(site, &copy), Ok(Verdict::Next));
    } else if met {
        // The copy came, and the order is held still: it is not tried again before it comes again.
        expect_silent(rt, site);
        let ends = string(rt, alloc, ENDS);
        expect_same_at(rt, n, receive(site, &ends), Ok(Verdict::Next));
    }
    expect_next(rt, alloc, site, ENDED);
    take_turns(rt, site, 1);
    expect_silent(rt, site);
    assert!(rt; site.history() == LOADED.as_slice());
    met
}

/// The same of a node that holds the order.
fn goes_on_at<A: Allocator + Copy>(
    rt: &impl Abort,
    (memory, alloc, n): (&Failing<Global>, A, u64),
) -> bool {
    let mut site = node_of(rt, alloc, 1, LOADS);
    make_all(rt, alloc, &mut site, &HOLDING);
    goes_on(rt, (memory, alloc, n), &mut site)
}

/// A copy comes to a node that holds the order to give it up.
struct Held;

impl Refusable for Held {
    fn is_met(&self, rt: &impl Abort, memory: &Failing<Global>, n: u64) -> bool {
        goes_on_at(rt, (memory, memory, n))
    }
}

#[test]
fn growths_while_a_string_is_held(rt: HostRuntime) {
    refuse_each(&rt, &Held);
}

const LOADED: [Record; 1] = [Record {
    node: 1,
    call: Call::Load { width: 8, addr: 64 },
    reply: Reply::Value(0),
}];

const ADVANCED: [Record; 1] = [Record {
    node: 0,
    call: Call::Advance { k: 0 },
    reply: Reply::Done,
}];

const ALLOCATED: Record = Record {
    node: 0,
    call: Call::Alloc { size: 8 },
    reply: Reply::Value(64),
};

const AWAITED: [Record; 1] = [Record {
    node: 0,
    call: Call::Await { k: 0, least: 1 },
    reply: Reply::Value(1),
}];

/// Node 1 at its load, and once it asked for the page.
const LOADING: [Step; 3] = [Step::Turns(1), Step::Turns(1), Step::Sends(REQUEST)];

/// The reply comes to the node that asked.
const REPLY_COMES: Growing = Growing {
    me: 1,
    text: LOADS,
    before: &LOADING,
    comes: Some(REPLY),
    answers: &LOADED,
    ..OF_NODE_0
};

#[test]
fn growths_of_a_reply_that_comes(rt: HostRuntime) {
    refuse_each(&rt, &REPLY_COMES);
}

/// Node 0 advances a count of its own page.
const ADVANCE: Growing = Growing {
    text: ADVANCES,
    answers: &ADVANCED,
    ..OF_NODE_0
};

#[test]
fn growths_of_an_advance(rt: HostRuntime) {
    refuse_each(&rt, &ADVANCE);
}

/// Node 1 asks for the page to advance its count.
const ADVANCE_ASKS: Growing = Growing {
    me: 1,
    text: ADVANCES,
    sends: Some(COUNT_ASKS),
    ..OF_NODE_0
};

#[test]
fn growths_of_an_advance_that_asks(rt: HostRuntime) {
    refuse_each(&rt, &ADVANCE_ASKS);
}

/// Node 0 is at an await that waits, and gives its page to node 1.
const GIVING: [Step; 4] = [
    Step::Turns(1),
    Step::Turns(1),
    Step::Comes(COUNT_ASKS, Ok(Verdict::Next)),
    Step::Sends(COUNT_GETS),
];

/// Then it tries the await again, and asks for a copy.
const WAITING: [Step; 6] = [
    Step::Turns(1),
    Step::Turns(1),
    Step::Comes(COUNT_ASKS, Ok(Verdict::Next)),
    Step::Sends(COUNT_GETS),
    Step::Turns(1),
    Step::Sends(RETRY_ASKS),
];

/// The await is tried again, and asks for a copy.
const AWAIT_TRIED: Growing = Growing {
    text: AWAITS,
    before: &GIVING,
    sends: Some(RETRY_ASKS),
    ..OF_NODE_0
};

#[test]
fn growths_of_an_await_tried_again(rt: HostRuntime) {
    refuse_each(&rt, &AWAIT_TRIED);
}

/// The copy comes, and the count is high enough.
const ANSWER_COMES: Growing = Growing {
    text: AWAITS,
    before: &WAITING,
    comes: Some(RETRY_GETS),
    answers: &AWAITED,
    ..OF_NODE_0
};

#[test]
fn growths_of_an_answer_to_an_await(rt: HostRuntime) {
    refuse_each(&rt, &ANSWER_COMES);
}

/// Node 0 gives itself a block.
const ALLOC: Growing = Growing {
    text: ALLOCS,
    before: &[Step::Turns(1)],
    answers: &[ALLOCATED],
    ..OF_NODE_0
};

#[test]
fn growths_of_an_alloc(rt: HostRuntime) {
    refuse_each(&rt, &ALLOC);
}

/// Node 1 asks for a block.
const ALLOC_OF_NODE_1: Growing = Growing {
    me: 1,
    text: ALLOCS,
    before: &[Step::Turns(1)],
    sends: Some(ALLOC_ASKS),
    ..OF_NODE_0
};

#[test]
fn growths_of_an_alloc_that_asks(rt: HostRuntime) {
    refuse_each(&rt, &ALLOC_OF_NODE_1);
}

/// Node 0 is asked for it. Where it is refused, the block has its place again when it is asked once more.
const ALLOC_COMES: Growing = Growing {
    comes: Some(ALLOC_ASKS),
    sends: Some(ALLOC_GETS),
    ..OF_NODE_0
};

#[test]
fn growths_of_an_alloc_that_comes(rt: HostRuntime) {
    refuse_each(&rt, &ALLOC_COMES);
}

/// Node 0 is asked to end that block. Where it is refused, the block is still there to be ended.
const FREE_COMES: Growing = Growing {
    before: &[
        Step::Comes(ALLOC_ASKS, Ok(Verdict::Next)),
        Step::Sends(ALLOC_GETS),
    ],
    comes: Some(
        "4956020901000011 0000000000000002 0000000000000001 01 0000000000000002 0000000000000040",
    ),
    sends: Some("4956020a0001000a 0000000000000002 0000000000000001 01 0000000000000002 00"),
    ..OF_NODE_0
};

#[test]
fn growths_of_a_free_that_comes(rt: HostRuntime) {
    refuse_each(&rt, &FREE_COMES);
}

/// The block comes to node 1.
const BLOCK_COMES: Growing = Growing {
    me: 1,
    text: ALLOCS,
    before: &[Step::Turns(1), Step::Turns(1), Step::Sends(ALLOC_ASKS)],
    comes: Some(ALLOC_GETS),
    answers: &[Record {
        node: 1,
        ..ALLOCATED
    }],
    ..OF_NODE_0
};

#[test]
fn growths_of_a_block_that_comes(rt: HostRuntime) {
    refuse_each(&rt, &BLOCK_COMES);
}

/// Node 1, whose request is on the wire.
fn asking<A: Allocator + Copy>(rt: &impl Abort, alloc: A) -> Site<A> {
    let mut site = node_of(rt, alloc, 1, LOADS);
    make_all(rt, alloc, &mut site, &LOADING);
    site
}

/// How many calls of its program a node answered, and how many events it had.
fn shown<A: Allocator + Copy>(site: &Site<A>) -> (usize, usize) {
    (site.history().len(), site.events().len())
}

/// The request goes to the owner once more, and nothing else does.
fn pulse_of<A: Allocator + Copy>(
    rt: &impl Abort,
    (memory, alloc, n): (&Failing<Global>, A, u64),
    site: &mut Site<A>,
) -> bool {
    let before = shown(site);
    memory.refuse(n);
    let fault = pulse(rt, site, 0).err();
    let met = is_met(rt, memory, n, fault);
    if met {
        expect_same_at(rt, n, shown(site), before);
        expect_same_at(rt, n, pulse(rt, site, 0), Ok(()));
    }
    expect_next(rt, alloc, site, REQUEST);
    expect_silent(rt, site);
    met
}

/// The same where node 1 pulses, which sends its request again.
fn pulse_at<A: Allocator + Copy>(
    rt: &impl Abort,
    (memory, alloc, n): (&Failing<Global>, A, u64),
) -> bool {
    let mut site = asking(rt, alloc);
    pulse_of(rt, (memory, alloc, n), &mut site)
}

/// A node sends its request again.
struct Pulse;

impl Refusable for Pulse {
    fn is_met(&self, rt: &impl Abort, memory: &Failing<Global>, n: u64) -> bool {
        pulse_at(rt, (memory, memory, n))
    }
}

#[test]
fn growths_of_a_pulse(rt: HostRuntime) {
    refuse_each(&rt, &Pulse);
}
