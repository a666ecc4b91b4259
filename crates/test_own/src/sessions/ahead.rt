//! Pages that nodes fetch ahead: by a hint, and where a block reaches past its first page.
use crate::sessions::common::{ROOMY, config, meeting};
use ivy_calls::{load, read_into, store, write_from};
use ivy_model::{Config, Fault, Kind};
use ivy_own::{OpenGate, SharedMemory, Work, run_with};

/// Bytes of a page.
const PAGE: u64 = 64;

/// So many nodes with twenty pages of 64 bytes.
fn small_pages(nodes: u8, manager: Kind) -> Config {
    Config {
        pages: 20,
        page_size: 64,
        ..config(nodes, manager)
    }
}

/// Each of three nodes stores its number and one in three pages of its own. Then it has the pages of the next node fetched
/// ahead, also one that no node has, and gives the sum of what it loads there.
struct Hinted;

impl Work for Hinted {
    type Out = u64;

    ghost done = { λ _ _ _ _. Unit {0} };

    fn work<M: SharedMemory>(&self, me: u8, memory: &mut M) -> Result<u64, Fault> {
        let mine = PAGE * (1 + 3 * u64::from(me));
        for page in 0..3 {
            memory.fetch_ahead(mine + PAGE * page, true);
        }
        for page in 0..3 {
            store(memory, mine + PAGE * page, u64::from(me) + 1)?;
        }
        let mut barrier = meeting(3);
        barrier.wait(memory)?;
        let next = PAGE * (1 + 3 * (u64::from(me) + 1) % 9);
        memory.fetch_ahead(PAGE * 20, false);
        memory.fetch_ahead(u64::MAX, true);
        for page in 0..3 {
            memory.fetch_ahead(next + PAGE * page, false);
        }
        let mut sum = 0u64;
        for page in 0..3 {
            let number: u64 = load(memory, next + PAGE * page)?;
            sum = sum.wrapping_add(number);
        }
        Ok(sum)
    }
}

#[test]
fn hinted_pages_are_loaded(rt: HostRuntime) {
    for manager in [Kind::Fixed, Kind::Dynamic] {
        let nodes = small_pages(3, manager);
        let report = run_with(&rt, rt.alloc(), nodes, &Hinted, ROOMY, &OpenGate).expect(
            &rt, "a report",
        );
        assert_eq!(&rt; report.outs.as_slice(), [6, 9, 3].as_slice());
    }
}

/// Bytes of a block of fifteen pages and a half, which begins inside a page.
const LONG: usize = 992;

/// Node 0 writes the block, then node 1 reads it whole and writes it anew, one more in each byte, and node 0 reads that. Each
/// gives the sum of what it read.
struct LongBlock;

impl Work for LongBlock {
    type Out = u64;

    ghost done = { λ _ _ _ _. Unit {0} };

    fn work<M: SharedMemory>(&self, me: u8, memory: &mut M) -> Result<u64, Fault> {
        let begin = PAGE + 32;
        let mut barrier = meeting(2);
        let mut block = [0u8; LONG];
        if me == 0 {
            write_from(memory, begin, &[3; LONG])?;
        }
        barrier.wait(memory)?;
        if me == 1 {
            read_into(memory, begin, &mut block)?;
            write_from(memory, begin, &[4; LONG])?;
        }
        barrier.wait(memory)?;
        if me == 0 {
            read_into(memory, begin, &mut block)?;
        }
        let mut sum = 0u64;
        for byte in block.iter() {
            sum = sum.wrapping_add(u64::from(*byte));
        }
        Ok(sum)
    }
}

#[test]
fn long_blocks_are_read_whole(rt: HostRuntime) {
    for manager in [Kind::Fixed, Kind::Dynamic] {
        let nodes = small_pages(2, manager);
        let report = run_with(&rt, rt.alloc(), nodes, &LongBlock, ROOMY, &OpenGate).expect(
            &rt, "a report",
        );
        assert_eq!(&rt; report.outs.as_slice(), [3_968, 2_976].as_slice());
    }
}

/// Each node writes the same block of many pages and reads it, twenty times without a pause. It gives the last byte.
struct SameBlock;

impl Work for SameBlock {
    type Out = u64;

    ghost done = { λ _ _ _ _. Unit {0} };

    fn work<M: SharedMemory>(&self, me: u8, memory: &mut M) -> Result<u64, Fault> {
        let mut block = [0u8; LONG];
        for _ in 0..20 {
            write_from(memory, PAGE, &[me; LONG])?;
            read_into(memory, PAGE, &mut block)?;
        }
        Ok(u64::from(block[LONG - 1]))
    }
}

#[test]
fn writers_of_one_long_block_all_finish(rt: HostRuntime) {
    for nodes in [2, 8] {
        let nodes = small_pages(nodes, Kind::Dynamic);
        let report = run_with(&rt, rt.alloc(), nodes, &SameBlock, ROOMY, &OpenGate).expect(
            &rt, "a report",
        );
        for last in report.outs.iter() {
            assert!(&rt; *last < u64::from(nodes.nodes));
        }
    }
}
