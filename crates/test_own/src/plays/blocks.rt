//! Blocks under drawn schedules. Calls of a row are made together where the first has to wait, and else one behind the
//! other with no other move between. Of batched words `IsUntorn` says that they stand together in the order; of words that
//! hit no clause does.
use crate::plays::common::{ENOUGH, KINDS, MOVES, all_gave, config, meeting};
use ivy_calls::{SharedMemory, Work, advance_count, await_, read_into, write_from};
use ivy_model::Fault;
use ivy_play::{Move, play_drawn, play_listed};
use ivy_sync::Lock;
use std::process::Abort;
use std::sync::Wait;
use std::test::Fail;
use std::thread::Threads;

/// Where the block lies, within one page.
const BLOCK: u64 = 264;

/// A block of eight words.
type Block = [u8; 64];

/// How often each node raises the block.
const TIMES: u64 = 3;

/// How often a block is written with no lock, and read.
const WRITES: u64 = 20;

/// What the nodes raise it by in all.
const RAISED: u64 = 9;

/// The block whose words are the multiples of a number, each with its highest byte first.
fn block_of(number: u64) -> Block {
    let mut block = [0; 64];
    for word in 0..8usize {
        let multiple = number.wrapping_mul(word as u64 + 1);
        block[8 * word..8 * word + 8].copy_from_slice(&multiple.to_be_bytes());
    }
    block
}

/// The number whose multiples the words are, or none where they are of several.
fn number_of(block: &Block) -> Option<u64> {
    let number = u64::from_be_bytes([
        block[0], block[1], block[2], block[3], block[4], block[5], block[6], block[7],
    ]);
    if block.as_slice() == block_of(number).as_slice() {
        Some(number)
    } else {
        None
    }
}

/// Reads the block, which has to be of one number.
fn read_block<M: SharedMemory>(memory: &mut M) -> Result<u64, Fault> {
    let mut block = block_of(0);
    read_into(memory, BLOCK, &mut block)?;
    number_of(&block).ok_or(Fault::BadBody)
}

/// Raises the number of the block.
fn raise<M: SharedMemory>(memory: &mut M, by: u64) -> Result<(), Fault> {
    let number = read_block(memory)?;
    write_from(memory, BLOCK, &block_of(number.wrapping_add(by)))?;
    Ok(())
}

/// The nodes raise the block by turns, node 0 by one and node 1 by two.
struct ByTurns;

impl Work for ByTurns {
    type Out = u64;

    ghost done = { λ _ _ _ _. Unit {0} };

    fn work<M: SharedMemory>(&self, me: u8, memory: &mut M) -> Result<u64, Fault> {
        for time in 0..TIMES {
            await_(memory, 0, 2 * time + u64::from(me))?;
            raise(memory, u64::from(me) + 1)?;
            advance_count(memory, 0)?;
        }
        await_(memory, 0, 2 * TIMES)?;
        read_block(memory)
    }
}

/// The nodes raise the block so whenever they come under its lock, which lies in another page.
struct AtOnce;

/// The lock of the block.
const LOCK: Lock = Lock { addr: 512 };

impl Work for AtOnce {
    type Out = u64;

    ghost done = { λ _ _ _ _. Unit {0} };

    fn work<M: SharedMemory>(&self, me: u8, memory: &mut M) -> Result<u64, Fault> {
        for _ in 0..TIMES {
            LOCK.acquire(memory)?;
            raise(memory, u64::from(me) + 1)?;
            LOCK.release(memory)?;
        }
        let mut barrier = meeting(2);
        barrier.wait(memory)?;
        read_block(memory)
    }
}

/// The block of eight words that are each this number.
fn equal_words(number: u64) -> Block {
    let mut block = [0; 64];
    for word in 0..8usize {
        block[8 * word..8 * word + 8].copy_from_slice(&number.to_be_bytes());
    }
    block
}

/// Whether two words of the block differ.
fn is_torn(block: &Block) -> bool {
    block[..56] != block[8..]
}

/// Node 0 writes blocks of equal words, and node 1 reads them, with no lock. Each says how many torn blocks it read.
struct Unlocked;

impl Work for Unlocked {
    type Out = u64;

    ghost done = { λ _ _ _ _. Unit {0} };

    fn work<M: SharedMemory>(&self, me: u8, memory: &mut M) -> Result<u64, Fault> {
        let mut torn = 0u64;
        for time in 0..WRITES {
            if me == 0 {
                write_from(memory, BLOCK, &equal_words(time))?;
            } else {
                let mut block = equal_words(0);
                read_into(memory, BLOCK, &mut block)?;
                torn = torn.wrapping_add(u64::from(is_torn(&block)));
            }
        }
        Ok(torn)
    }
}

/// That both nodes give this, by seeds under either manager, and that the moves of each play, listed, play the same.
fn expect_given<W, R>(rt: &R, work: &W, wanted: u64) -> Result<(), Fail>
where
    W: Work<Out = u64> + Sync,
    R: Threads + Wait + Abort + AllocGlobal + Sync,
{
    let alloc = rt.alloc();
    for kind in KINDS {
        for seed in 1..=20 {
            let nodes = config(2, kind);
            let drawn = play_drawn(rt, alloc, nodes, work, seed, MOVES, ENOUGH)?;
            assert!(rt; all_gave(&drawn, wanted));
            let listed = play_listed(rt, alloc, nodes, work, &drawn.moves, 0)?;
            assert!(rt; listed.moves == drawn.moves);
            assert!(rt; listed.outcomes == drawn.outcomes);
        }
    }
    Ok(())
}

#[test]
fn by_turns(rt: HostRuntime) -> Result<(), Fail> {
    expect_given(&rt, &ByTurns, RAISED)
}

#[test]
fn at_once(rt: HostRuntime) -> Result<(), Fail> {
    expect_given(&rt, &AtOnce, RAISED)
}

#[test]
fn with_no_lock(rt: HostRuntime) -> Result<(), Fail> {
    expect_given(&rt, &Unlocked, 0)
}

/// Node 1 alone reads the block.
struct ReadsAlone;

impl Work for ReadsAlone {
    type Out = u64;

    ghost done = { λ _ _ _ _. Unit {0} };

    fn work<M: SharedMemory>(&self, me: u8, memory: &mut M) -> Result<u64, Fault> {
        if me == 0 {
            return Ok(0);
        }
        read_block(memory)
    }
}

#[test]
fn words_that_wait_together(rt: HostRuntime) -> Result<(), Fail> {
    for kind in KINDS {
        let nodes = config(2, kind);
        let turn = [Move::Turn(1)];
        let begun = play_listed(&rt, rt.alloc(), nodes, &ReadsAlone, &turn, 0)?;
        assert!(&rt; begun.moves.as_slice() == turn.as_slice());
        assert!(&rt; begun.world.nodes() == 2);
        if 1 < begun.world.nodes() {
            assert!(&rt; !begun.world.is_alone(1));
        }
        let ended = play_listed(&rt, rt.alloc(), nodes, &ReadsAlone, &turn, ENOUGH)?;
        assert!(&rt; all_gave(&ended, 0));
    }
    Ok(())
}
