//! Blocks of own code in worlds whose moves are drawn: strings come out of order, more than once, or late.
//!
//! That the replies are those of one flat memory is proved. No clause says that the calls of a block, which begin together,
//! are answered together; so it is tested that a block is never torn, against an array and against another block.
ghost use Rattle.std.specs.Prelude.{◌≤◌};
ghost use Rattle.ivy_model.specs.stated.Legal.{HasWidth};

use crate::common::{PAIR, expect_same, expect_same_at};
use ivy_model::{Call, Config, Kind, Record, Reply, Row};
use ivy_wire::{Bytes, destination};
use ivy_world::{Move, Rest, World};
use rand_core::SeedableRng;
use rand_core::utils::NextWord;
use rand_pcg::Lcg64Xsh32;
use std::alloc::{Allocator, Global};
use std::process::Abort;

/// How many seeds are two of each kind of world: of 2, 3 or 4 nodes, of each manager, of few pages and of many.
const SEEDS: u64 = 24;

/// The blocks lie in the last pages of a world, of 64 bytes each. Page 0 has the eventcounts.
const PAGES: u64 = 4;

/// The numbers of the words of these pages.
type Words = [u64; 32];

/// What a node is asked to do with words in a row, that lie in one of these pages.
#[derive(Clone, Copy)]
struct Block {
    node: u64,
    kind: Row,
    addr: u64,
    /// The place of the first word among those of these pages.
    place: usize,
    words: u64,
    /// What is stored in the first word, and one more in each behind it.
    first: u64,
    /// How many calls of the node were answered before.
    before: usize,
}

fn config_of(seed: u64) -> Config {
    let pages = if seed / 6 % 2 == 0 { 5 } else { 1_000 };
    let manager = if seed / 3 % 2 == 0 {
        Kind::Fixed
    } else {
        Kind::Dynamic
    };
    Config {
        nodes: 2 + (seed % 3) as u8,
        pages,
        manager,
        ..PAIR
    }
}

/// One of the last eight strings comes to its destination, whether or not it came there before.
fn delivery<A: Allocator>(sent: &[Bytes<A>], drawn: u8) -> Option<Move> {
    let back = usize::from(drawn) % sent.len().clamp(1, 8);
    let index = sent.len().checked_sub(back + 1)?;
    let to = destination(sent.get(index)?.bytes())?;
    Some(Move::Deliver {
        index: index as u64,
        to: u64::from(to),
    })
}

/// The next move: as often a delivery as a turn, and now and then a pulse.
fn next_move<A: Allocator>(generator: &mut Lcg64Xsh32, nodes: u64, sent: &[Bytes<A>]) -> Move
    requires { 2 ≤ nodes }
{
    let [kind, one, other, _] = generator.next_word().to_le_bytes();
    let node = u64::from(one) % nodes;
    match kind % 8 {
        0..=2 => Move::Turn(node),
        3..=6 => delivery(sent, other).unwrap_or(Move::Turn(node)),
        _ => {
            let place = u64::from(other) % (nodes - 1);
            let to = if place < node { place } else { place + 1 };
            Move::Pulse { from: node, to }
        }
    }
}

/// Makes a move that is drawn.
fn make_drawn<A: Allocator + Copy>(
    rt: &impl Abort,
    world: &mut World<A>,
    generator: &mut Lcg64Xsh32,
) {
    assert!(rt; 2 <= world.nodes());
    let step = next_move(generator, world.nodes(), world.sent());
    assert!(rt; world.make(step).is_ok(), "{step:?}");
}

/// How many moves are drawn, and then the world comes to rest.
fn go_on<A: Allocator + Copy>(
    rt: &impl Abort,
    world: &mut World<A>,
    generator: &mut Lcg64Xsh32,
    moves: u8,
) {
    for _ in 0..moves {
        make_drawn(rt, world, generator);
    }
    expect_same(rt, world.settle(10_000), Ok(Rest::Still));
}

/// The numbers that a block stores, the highest byte of each first.
fn bytes_of<A: Allocator>(rt: &impl Abort, alloc: A, block: &Block) -> Vec<u8, A> {
    let mut bytes = Vec::new(alloc);
    for word in 0..block.words {
        let number = block.first.wrapping_add(word);
        bytes
            .extend_from_slice(&number.to_be_bytes())
            .expect(rt, "memory");
    }
    bytes
}

/// The calls of a block begin together. It says how many do.
fn begin<A: Allocator + Copy>(
    rt: &impl Abort,
    alloc: A,
    world: &mut World<A>,
    block: &Block,
) -> u64 {
    let bytes = bytes_of(rt, alloc, block);
    assert!(rt; block.node < world.nodes());
    let begun = world.hand_block(block.node, block.kind, block.addr, bytes.len() / 8, &bytes);
    begun.expect(rt, "memory") as u64
}

/// The call on a word of a block.
fn call_of(block: &Block, word: u64) -> Call
    ensures { HasWidth result }
{
    let addr = block.addr.wrapping_add(word.wrapping_mul(8));
    match block.kind {
        Row::Loads => Call::Load { width: 8, addr },
        Row::Stores => Call::Store {
            width: 8,
            addr,
            value: block.first.wrapping_add(word),
        },
    }
}

/// Own code at a node makes a call.
fn hand<A: Allocator + Copy>(rt: &impl Abort, world: &mut World<A>, node: u64, call: Call)
    requires { HasWidth call }
{
    assert!(rt; node < world.nodes());
    assert!(rt; world.is_free(node));
    assert!(rt; world.hand(node, call).is_ok());
}

/// The words of a block from this one on are called for one after another, as the page is at its node.
fn hand_each<A: Allocator + Copy>(
    rt: &impl Abort,
    world: &mut World<A>,
    generator: &mut Lcg64Xsh32,
    block: &Block,
    begun: u64,
) {
    for word in begun..block.words {
        hand(rt, world, block.node, call_of(block, word));
        go_on(rt, world, generator, 4);
    }
}

/// What a node is answered for a word of a block, which has this number.
fn answer(block: &Block, word: u64, number: u64) -> Record {
    let reply = match block.kind {
        Row::Loads => Reply::Value(number),
        Row::Stores => Reply::Done,
    };
    Record {
        node: (block.node % 32) as u8,
        call: call_of(block, word),
        reply,
    }
}

/// The number of a word of a block from now on: what the block stores there, or what was there.
fn number_of(words: &mut Words, block: &Block, word: u64) -> u64 {
    let Some(number) = words.get_mut(block.place.wrapping_add(word as usize)) else {
        return 0;
    };
    if block.kind == Row::Stores {
        *number = block.first.wrapping_add(word);
    }
    *number
}

/// What a block has to be answered, in order.
fn answers<A: Allocator>(
    rt: &impl Abort,
    alloc: A,
    words: &mut Words,
    block: &Block,
) -> Vec<Record, A> {
    let mut answers = Vec::new(alloc);
    for word in 0..block.words {
        let number = number_of(words, block, word);
        answers
            .push(answer(block, word, number))
            .expect(rt, "memory");
    }
    answers
}

/// What a node was answered since a block began.
fn answered<'a, A: Allocator + Copy>(
    rt: &impl Abort,
    world: &'a World<A>,
    block: &Block,
) -> &'a [Record] {
    assert!(rt; block.node < world.nodes());
    let history = world.history(block.node);
    assert!(rt; block.before <= history.len());
    &history[block.before..]
}

/// Words from this place on, at a node of a world whose pages of blocks begin here.
fn block_at<A: Allocator + Copy>(
    rt: &impl Abort,
    world: &World<A>,
    (start, node): (u64, u64),
    (kind, first): (Row, u64),
    (place, words): (u64, u64),
) -> Block {
    assert!(rt; node < world.nodes());
    Block {
        node,
        kind,
        addr: start.wrapping_add(place.wrapping_mul(8)),
        place: (place % 32) as usize,
        words,
        first,
        before: world.history(node).len(),
    }
}

/// A block of a node that is drawn, in this page.
fn drawn_block<A: Allocator + Copy>(
    rt: &impl Abort,
    world: &World<A>,
    generator: &mut Lcg64Xsh32,
    (start, node): (u64, u64),
    page: u64,
) -> Block {
    let [kind, word, words, _] = generator.next_word().to_le_bytes();
    let first = u64::from(generator.next_word());
    let word = u64::from(word) % 8;
    let words = 1 + u64::from(words) % (8 - word);
    let kind = if kind % 2 == 0 {
        Row::Loads
    } else {
        Row::Stores
    };
    let place = page % PAGES * 8 + word;
    block_at(rt, world, (start, node), (kind, first), (place, words))
}

/// A block begins at each node, all in other pages, so that their order is no matter. With each it is said how many of its
/// calls began together.
fn begin_round<A: Allocator + Copy>(
    rt: &impl Abort,
    alloc: A,
    world: &mut World<A>,
    generator: &mut Lcg64Xsh32,
    (start, round): (u64, u64),
) -> Vec<(Block, u64), A> {
    let mut blocks = Vec::new(alloc);
    for node in 0..world.nodes() {
        let page = round.wrapping_add(node);
        let block = drawn_block(rt, world, generator, (start, node), page);
        let begun = begin(rt, alloc, world, &block);
        blocks.push((block, begun)).expect(rt, "memory");
    }
    blocks
}

/// The calls that are left are made, and each block was answered as the array has it.
fn end_round<A: Allocator + Copy>(
    rt: &impl Abort,
    alloc: A,
    world: &mut World<A>,
    generator: &mut Lcg64Xsh32,
    words: &mut Words,
    blocks: &[(Block, u64)],
) {
    for (block, begun) in blocks {
        hand_each(rt, world, generator, block, *begun);
        let wanted = answers(rt, alloc, words, block);
        expect_same(rt, answered(rt, world, block), wanted.as_slice());
    }
}

/// Where the last pages of a world begin.
fn start_of(config: &Config) -> u64 {
    u64::from(config.pages)
        .saturating_sub(PAGES)
        .wrapping_mul(64)
}

/// How many of these blocks began together.
fn count_begun(blocks: &[(Block, u64)]) -> usize {
    blocks.iter().filter(|(_, begun)| *begun > 0).count()
}

/// Rounds in the world of a seed. It says how many blocks began together, and how many there were.
fn play_rounds(rt: &(impl Abort + AllocGlobal), seed: u64) -> (usize, usize) {
    let config = config_of(seed);
    let alloc = rt.alloc();
    let mut world = World::open(alloc, config).expect(rt, "a world");
    let mut generator = Lcg64Xsh32::seed_from_u64(seed);
    let mut words = [0; 32];
    let (mut begun, mut all): (usize, usize) = (0, 0);
    for round in 0..12 {
        let at = (start_of(&config), round);
        let blocks = begin_round(rt, alloc, &mut world, &mut generator, at);
        go_on(rt, &mut world, &mut generator, 60);
        end_round(rt, alloc, &mut world, &mut generator, &mut words, &blocks);
        begun = begun.wrapping_add(count_begun(&blocks));
        all = all.wrapping_add(blocks.len());
    }
    (begun, all)
}

/// Each block is answered as an array would, whether its calls begin together or one after another.
#[test]
fn blocks_agree_with_an_array(rt: HostRuntime) {
    for seed in 0..SEEDS {
        let (begun, all) = play_rounds(&rt, seed);
        expect_same_at(&rt, seed, 0 < begun && begun < all, true);
    }
}

/// Whether all that a node was answered since a block began is as if this writer had been the last one before.
fn is_after<A: Allocator + Copy>(
    rt: &impl Abort,
    alloc: A,
    world: &World<A>,
    block: &Block,
    writer: &Block,
) -> bool {
    let mut words = [0; 32];
    let _ = answers(rt, alloc, &mut words, writer);
    let wanted = answers(rt, alloc, &mut words, block);
    answered(rt, world, block) == wanted.as_slice()
}

/// A block of a whole page, at the node of this place in a round: at 0 the page is before, 1 and 2 write it, and 3 reads it,
/// where that is another node.
fn page_at<A: Allocator + Copy>(
    rt: &impl Abort,
    world: &World<A>,
    (start, round): (u64, u64),
    place: u64,
    kind: Row,
) -> Block {
    assert!(rt; 1 <= world.nodes());
    let node = round.wrapping_add(place) % world.nodes();
    let first = round
        .wrapping_mul(1_000)
        .wrapping_add(place.wrapping_mul(100));
    let words = (round % PAGES * 8, 8);
    block_at(rt, world, (start, node), (kind, first), words)
}

/// A node writes a page, which no other node has then.
fn write_page<A: Allocator + Copy>(
    rt: &impl Abort,
    alloc: A,
    world: &mut World<A>,
    generator: &mut Lcg64Xsh32,
    at: (u64, u64),
) -> Block {
    let before = page_at(rt, world, at, 0, Row::Stores);
    let begun = begin(rt, alloc, world, &before);
    go_on(rt, world, generator, 60);
    hand_each(rt, world, generator, &before, begun);
    before
}

/// The node reads the page again, which is as one of the two writers left it.
fn read_page<A: Allocator + Copy>(
    rt: &impl Abort,
    alloc: A,
    world: &mut World<A>,
    generator: &mut Lcg64Xsh32,
    at: (u64, u64),
    (one, other): (&Block, &Block),
) {
    let reader = page_at(rt, world, at, 0, Row::Loads);
    expect_same_at(rt, at.1, begin(rt, alloc, world, &reader), 8);
    go_on(rt, world, generator, 60);
    let is_one = is_after(rt, alloc, world, &reader, one);
    let is_other = is_after(rt, alloc, world, &reader, other);
    expect_same_at(rt, at.1, is_one != is_other, true);
}

/// Two nodes write a page at once, which is at another node, and where there is a fourth one, it reads the page meanwhile.
fn race<A: Allocator + Copy>(
    rt: &impl Abort,
    alloc: A,
    world: &mut World<A>,
    generator: &mut Lcg64Xsh32,
    at: (u64, u64),
) {
    let before = write_page(rt, alloc, world, generator, at);
    let one = page_at(rt, world, at, 1, Row::Stores);
    let other = page_at(rt, world, at, 2, Row::Stores);
    let reader = page_at(rt, world, at, 3, Row::Loads);
    for writer in [&one, &other] {
        expect_same_at(rt, at.1, begin(rt, alloc, world, writer), 8);
    }
    let read = begin(rt, alloc, world, &reader);
    expect_same_at(rt, at.1, read, if world.nodes() == 4 { 8 } else { 0 });
    go_on(rt, world, generator, 60);
    let is_whole = [&before, &one, &other]
        .iter()
        .any(|writer| is_after(rt, alloc, world, &reader, writer));
    expect_same_at(rt, at.1, is_whole, read > 0);
    expect_same_at(rt, at.1, is_after(rt, alloc, world, &one, &one), true);
    expect_same_at(rt, at.1, is_after(rt, alloc, world, &other, &other), true);
    read_page(rt, alloc, world, generator, at, (&one, &other));
}

/// Such races in the world of a seed, of 3 nodes or 4.
fn play_races(rt: &(impl Abort + AllocGlobal), seed: u64) {
    let config = Config {
        nodes: 3 + (seed % 2) as u8,
        ..config_of(seed)
    };
    let mut world = World::open(rt.alloc(), config).expect(rt, "a world");
    let mut generator = Lcg64Xsh32::seed_from_u64(seed);
    for round in 0..8 {
        let at = (start_of(&config), round);
        race(rt, rt.alloc(), &mut world, &mut generator, at);
    }
}

/// A block that is read is wholly as one of those that wrote it left it.
#[test]
fn blocks_are_never_torn(rt: HostRuntime) {
    for seed in 0..SEEDS {
        play_races(&rt, seed);
    }
}
