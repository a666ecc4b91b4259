//! What the tests share: worlds, their moves, and what they have to show.
ghost use Rattle.std.specs.Prelude.{◌<◌, length, IfErr};

use crate::common::{PAIR, ends_of, expect_same_at, number, string};
use ivy_model::{Call, Config, Fault, Record, Reply};
use ivy_wire::Bytes;
use ivy_world::{Move, World, parse};
use std::alloc::Allocator;
use std::process::Abort;

/// A load from an address, which is answered a value.
pub(crate) fn loaded(node: u8, width: u8, addr: u64, value: u64) -> Record {
    let call = Call::Load { width, addr };
    let reply = Reply::Value(value);
    Record { node, call, reply }
}

/// What a node has to show: all that its program was answered and printed, and whether it has ended.
#[derive(Clone, Copy)]
pub(crate) struct Shown<'a> {
    pub(crate) node: u64,
    pub(crate) answers: &'a [Record],
    pub(crate) printed: &'a [u64],
    pub(crate) ended: bool,
}

/// What a node shows that has ended.
pub(crate) fn ended<'a>(node: u64, answers: &'a [Record], printed: &'a [u64]) -> Shown<'a> {
    Shown {
        node,
        answers,
        printed,
        ended: true,
    }
}

/// What node 0 shows where it has not ended, and was answered nothing.
pub(crate) const STUCK: Shown = Shown {
    node: 0,
    answers: &[],
    printed: &[],
    ended: false,
};

/// What node 1 shows of that load, once it has ended.
pub(crate) const HAS_LOADED: Shown = ended!(1, &[loaded!(1, 64, 0)], &[0]);

/// Moves in words, and how many strings were ever sent once they are made: `1` is a turn of node 1, and `1*3` are three;
/// `4>1,0` delivers string 4 to node 1 and the next string to node 0; `0~1` is a pulse of node 0 to node 1.
pub(crate) type Stage<'a> = (&'a str, usize);

/// The strings from this index on.
pub(crate) type Sent<'a> = (usize, &'a [&'a str]);

/// Programs, the moves of their world, and what it has to show once they are made.
#[derive(Clone, Copy)]
pub(crate) struct Run<'a> {
    pub(crate) config: Config,
    pub(crate) text: &'a str,
    pub(crate) stages: &'a [Stage<'a>],
    /// What the first strings are about, their source and their destination, as `ReadReq:1>0`.
    pub(crate) kinds: &'a str,
    /// Some strings.
    pub(crate) strings: &'a [Sent<'a>],
    pub(crate) nodes: &'a [Shown<'a>],
}

/// Two nodes without programs, of which nothing is asked. Runs say what is more than that.
pub(crate) const IDLE: Run = Run {
    config: PAIR,
    text: "",
    stages: &[],
    kinds: "",
    strings: &[],
    nodes: &[],
};

/// Node 1 asks for page 1 to write it, and is given it between the turns in which its first call asks and is answered.
pub(crate) const WRITES: Run = Run {
    stages: &[("1*3", 1), ("0>0,1", 2), ("1*4", 2)],
    kinds: "WriteReq:1>0 WriteRep:0>1",
    ..IDLE
};

/// A delivery of the string of this index to a node.
pub(crate) fn deliver(index: u64, to: u64) -> Move {
    Move::Deliver { index, to }
}

fn add<A: Allocator>(rt: &impl Abort, moves: &mut Vec<Move, A>, step: Move) {
    moves.push(step).expect(rt, "memory");
}

/// Adds so many turns of a node.
fn add_turns<A: Allocator>(rt: &impl Abort, moves: &mut Vec<Move, A>, node: u64, times: u64) {
    for _ in 0..times {
        add(rt, moves, Move::Turn(node));
    }
}

/// Adds deliveries of strings from this one on.
fn add_deliveries<A: Allocator>(
    rt: &impl Abort,
    moves: &mut Vec<Move, A>,
    first: u64,
    nodes: &str,
) {
    let mut index = first;
    for node in nodes.split(',') {
        add(rt, moves, deliver(index, number(rt, node)));
        index = index.saturating_add(1);
    }
}

/// Adds the moves of a word.
fn add_word<A: Allocator>(rt: &impl Abort, moves: &mut Vec<Move, A>, word: &str) {
    if let Some((first, nodes)) = word.split_once('>') {
        add_deliveries(rt, moves, number(rt, first), nodes);
    } else if let Some((from, to)) = word.split_once('~') {
        let (from, to) = (number(rt, from), number(rt, to));
        add(rt, moves, Move::Pulse { from, to });
    } else if let Some((node, times)) = word.split_once('*') {
        add_turns(rt, moves, number(rt, node), number(rt, times));
    } else {
        add(rt, moves, Move::Turn(number(rt, word)));
    }
}

/// Adds the moves of a stage.
pub(crate) fn add_moves<A: Allocator>(rt: &impl Abort, moves: &mut Vec<Move, A>, words: &str) {
    for word in words.split_ascii_whitespace() {
        add_word(rt, moves, word);
    }
}

/// The moves of a stage.
pub(crate) fn moves_of<A: Allocator>(rt: &impl Abort, alloc: A, words: &str) -> Vec<Move, A> {
    let mut moves = Vec::new(alloc);
    add_moves(rt, &mut moves, words);
    moves
}

/// The world of the programs of a text, as it begins.
pub(crate) fn world<A: Allocator + Copy>(
    rt: &impl Abort,
    alloc: A,
    config: Config,
    text: &str,
) -> World<A> {
    let programs = parse(alloc, text).expect(rt, "programs");
    World::new(alloc, config, programs).expect(rt, "a world")
}

/// Makes the moves of a world. Of all that is promised of it, callers need only this.
pub(crate) fn play<A: Allocator + Copy>(
    world: &mut World<A>,
    moves: &[Move],
) -> Result<(), (usize, Fault)>
    ensures { IfErr result (λ e. e.0 < length moves.now) }
{
    world.run(moves)
}

/// Whether a node shows this.
pub(crate) fn shows<A: Allocator + Copy>(world: &World<A>, shown: &Shown) -> bool {
    shown.node < world.nodes()
        && world.history(shown.node) == shown.answers
        && world.output(shown.node) == shown.printed
        && world.ended(shown.node) == shown.ended
}

/// Makes the moves of a stage, and asserts how many strings were sent then.
pub(crate) fn play_stage<A: Allocator + Copy>(
    rt: &impl Abort,
    alloc: A,
    world: &mut World<A>,
    stage: Stage,
) {
    let made = play(world, &moves_of(rt, alloc, stage.0));
    expect_same_at(rt, stage.0, (made, world.sent().len()), (Ok(()), stage.1));
}

/// That the first strings are about this, and have this source and destination.
fn check_kinds<A: Allocator + Copy>(
    rt: &impl Abort,
    alloc: A,
    config: &Config,
    sent: &[Bytes<A>],
    kinds: &str,
) {
    for (index, wanted) in kinds.split_ascii_whitespace().enumerate() {
        let string = sent.get(index).expect(rt, wanted);
        let (kind, source, dest) = ends_of(config, string.bytes()).expect(rt, wanted);
        let found = format!(in alloc; "{kind:?}:{source}>{dest}").expect(rt, "memory");
        assert!(rt; found.as_str() == wanted, "{wanted}");
    }
}

/// That the string of this index is one of those sent, and is this.
pub(crate) fn check_string<A: Allocator + Copy>(
    rt: &impl Abort,
    alloc: A,
    sent: &[Bytes<A>],
    index: usize,
    written: &str,
) {
    let found = sent.get(index).expect(rt, written);
    let wanted = string(rt, alloc, written);
    assert!(rt; found.bytes() == wanted.as_slice(), "{index} {written}");
}

/// That the strings from an index on are these.
fn check_sent<A: Allocator + Copy>(rt: &impl Abort, alloc: A, sent: &[Bytes<A>], wanted: Sent) {
    let mut index = wanted.0;
    for written in wanted.1 {
        check_string(rt, alloc, sent, index, written);
        index = index.saturating_add(1);
    }
}

fn check_nodes<A: Allocator + Copy>(rt: &impl Abort, world: &World<A>, nodes: &[Shown]) {
    for shown in nodes {
        expect_same_at(rt, shown.node, shows(world, shown), true);
    }
}

/// Makes the moves of a run in a world, and asserts that the world shows what the run says.
pub(crate) fn check_world<A: Allocator + Copy>(
    rt: &impl Abort,
    alloc: A,
    world: &mut World<A>,
    run: &Run,
) {
    for stage in run.stages {
        play_stage(rt, alloc, world, *stage);
    }
    check_nodes(rt, world, run.nodes);
    check_kinds(rt, alloc, &run.config, world.sent(), run.kinds);
    for wanted in run.strings {
        check_sent(rt, alloc, world.sent(), *wanted);
    }
}

/// Makes the moves of a run, and asserts that the world shows what it has to.
pub(crate) fn check_run(rt: &(impl Abort + AllocGlobal), run: &Run) {
    let mut world = world(rt, rt.alloc(), run.config, run.text);
    check_world(rt, rt.alloc(), &mut world, run);
}
