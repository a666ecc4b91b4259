//! What happens at a node, step by step, and what it has to show. One function has the node and
//! lends it to each step, since each that has a node of its own costs more proof than the steps do.
use crate::common::{ends_of, expect_same, string};
use crate::sites::common::{
    comes, expect_next, node_of, owner, pulse, receive, take_turn, take_turns, taken,
};
use crate::sites::forged::{expect_judged, hand_drawn};
use ivy_model::{Config, Fault, Record};
use ivy_site::{Site, Turn, Verdict};
use ivy_wire::FrameKind;
use std::alloc::Allocator;
use std::process::Abort;

/// What happens at a node, with no growth refused, or what it has to show then.
#[derive(Clone, Copy)]
pub(crate) enum Step<'a> {
    /// It makes a turn, which comes to this.
    Turn(Turn),
    /// It makes so many turns.
    Turns(u64),
    /// A string comes, and is answered so.
    Comes(&'a str, Result<Verdict, Fault>),
    /// The string of each line comes, and is refused by the fault whose name stands before it.
    Refuses(&'a str),
    /// Each beginning of a string comes, and is too short.
    Beginnings(&'a str),
    /// These bytes come, and are taken, or refused as ones that spell no frame.
    Judged(&'a [u8]),
    /// So do ten thousand strings that differ from this one in drawn bytes.
    Drawn(&'a str),
    /// It sends again what node 1 did not acknowledge.
    Pulse,
    /// This is its next string.
    Sends(&'a str),
    /// This is what its next string is about, its source and its destination.
    SendsKind(FrameKind, u8, u8),
    /// No string waits.
    Silent,
    /// It has listed so many events.
    Listed(usize),
    /// How many messages fitted no rule.
    Breaches(u64),
    /// Its program has ended.
    Ended,
    /// This is what its program was answered.
    Answered(&'a [Record]),
    /// This is what its program printed.
    Printed(&'a [u64]),
}

/// That a turn comes to this.
fn expect_turn<A: Allocator + Copy>(rt: &impl Abort, site: &mut Site<A>, turn: Turn) {
    expect_same(rt, take_turn(site), Ok(turn));
}

/// That a string is answered so.
fn expect_answer<A: Allocator + Copy>(
    rt: &impl Abort,
    alloc: A,
    site: &mut Site<A>,
    written: &str,
    answer: Result<Verdict, Fault>,
) {
    assert!(rt; comes(rt, alloc, site, written) == answer, "{written}");
}

/// That the string of each line is refused by the fault whose name stands before it.
fn expect_refused<A: Allocator + Copy>(rt: &impl Abort, alloc: A, site: &mut Site<A>, lines: &str) {
    for line in lines.lines() {
        let (name, written) = line.split_once(": ").expect(rt, line);
        let fault = comes(rt, alloc, site, written).err().expect(rt, line);
        let found = format!(in alloc; "{fault:?}").expect(rt, "memory");
        assert!(rt; found.as_str() == name, "{line}");
    }
}

/// That each beginning of a string is too short.
fn expect_too_short<A: Allocator + Copy>(rt: &impl Abort, site: &mut Site<A>, bytes: &[u8]) {
    for len in 0..bytes.len() {
        expect_same(rt, receive(site, &bytes[..len]), Err(Fault::ShortFrame));
    }
}

/// What the next string of a node is about, its source and its destination.
fn expect_kind<A: Allocator + Copy>(
    rt: &impl Abort,
    site: &mut Site<A>,
    ends: (FrameKind, u8, u8),
) {
    let sent = taken(site).expect(rt, "a string waits");
    expect_same(rt, ends_of(&site.config(), sent.bytes()), Ok(ends));
}

/// That no string of a node waits.
pub(crate) fn expect_silent<A: Allocator + Copy>(rt: &impl Abort, site: &mut Site<A>) {
    assert!(rt; !site.has_frame());
    assert!(rt; taken(site).is_none());
}

fn make<A: Allocator + Copy>(rt: &impl Abort, alloc: A, site: &mut Site<A>, step: &Step) {
    match step {
        Step::Turn(turn) => expect_turn(rt, site, *turn),
        Step::Turns(number) => take_turns(rt, site, *number),
        Step::Comes(written, answer) => expect_answer(rt, alloc, site, written, *answer),
        Step::Refuses(lines) => expect_refused(rt, alloc, site, lines),
        Step::Beginnings(written) => expect_too_short(rt, site, &string(rt, alloc, written)),
        Step::Judged(bytes) => expect_judged(rt, site, bytes),
        Step::Drawn(written) => hand_drawn(rt, alloc, site, &string(rt, alloc, written)),
        Step::Pulse => expect_same(rt, pulse(rt, site, 1), Ok(())),
        Step::Sends(written) => expect_next(rt, alloc, site, written),
        Step::SendsKind(kind, source, dest) => expect_kind(rt, site, (*kind, *source, *dest)),
        Step::Silent => expect_silent(rt, site),
        Step::Listed(number) => expect_same(rt, site.events().len(), *number),
        Step::Breaches(number) => expect_same(rt, site.breaches(), *number),
        Step::Ended => assert!(rt; site.ended()),
        Step::Answered(records) => assert!(rt; site.history() == *records),
        Step::Printed(numbers) => assert!(rt; site.output() == *numbers),
    }
}

/// These steps happen at a node, one after another.
pub(crate) fn make_all<A: Allocator + Copy>(
    rt: &impl Abort,
    alloc: A,
    site: &mut Site<A>,
    steps: &[Step],
) {
    for step in steps {
        make(rt, alloc, site, step);
    }
}

/// All that happens at a node that is new.
fn play_all<A: Allocator + Copy>(rt: &impl Abort, alloc: A, mut site: Site<A>, steps: &[Step]) {
    make_all(rt, alloc, &mut site, steps);
}

/// All that happens at the node of this number of a pair, with the program of a text.
pub(crate) fn play<A: Allocator + Copy>(
    rt: &impl Abort,
    alloc: A,
    me: u8,
    text: &str,
    steps: &[Step],
) {
    play_all(rt, alloc, node_of(rt, alloc, me, text), steps);
}

/// All that happens at node 0 of a configuration, whose program is empty.
pub(crate) fn play_owner<A: Allocator + Copy>(
    rt: &impl Abort,
    alloc: A,
    config: &Config,
    steps: &[Step],
) {
    play_all(rt, alloc, owner(rt, alloc, config), steps);
}
