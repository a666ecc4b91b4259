//! Blocks that nodes write and read.
use crate::sessions::common::{ROOMY, config, meeting, run};
use ivy_calls::{fill, read_into, write_from};
use ivy_model::{Fault, Kind};
use ivy_own::{Keep, OpenGate, SharedMemory, Work, run_with_keeping};

/// Bytes of a share: 23 words, so that each but the first begins inside a page of 256 bytes.
const SHARE: usize = 184;

/// Each of four nodes writes its share of 736 bytes, its number and one in each, and gives the sum of all bytes.
struct Shares;

impl Work for Shares {
    type Out = u64;

    ghost done = { λ _ _ _ _. Unit {0} };

    fn work<M: SharedMemory>(&self, me: u8, memory: &mut M) -> Result<u64, Fault> {
        let mine = [me.wrapping_add(1); SHARE];
        write_from(memory, 256 + SHARE as u64 * u64::from(me), &mine)?;
        let mut barrier = meeting(4);
        barrier.wait(memory)?;
        let mut all = [0u8; 4 * SHARE];
        read_into(memory, 256, &mut all)?;
        let mut sum = 0u64;
        for byte in all.iter() {
            sum = sum.wrapping_add(u64::from(*byte));
        }
        Ok(sum)
    }
}

#[test]
fn shares_are_read_by_all(rt: HostRuntime) {
    let report = run(&rt, rt.alloc(), 4, &Shares).expect(&rt, "a report");
    assert_eq!(&rt; report.outs.as_slice(), [1840, 1840, 1840, 1840].as_slice());
}

#[test]
fn so_they_are_where_histories_are_kept(rt: HostRuntime) {
    let report = run_with_keeping(
        &rt,
        rt.alloc(),
        config(4, Kind::Fixed),
        &Shares,
        ROOMY,
        &OpenGate,
        Keep::History,
    )
    .expect(&rt, "a report");
    assert_eq!(&rt; report.outs.as_slice(), [1840, 1840, 1840, 1840].as_slice());
    for node in 0..report.nodes.nodes() {
        assert!(&rt; report.nodes.history(node).len() >= 117);
    }
}

/// Each node writes one page as a block and reads it, a hundred times without a pause. It gives the number in the last word.
struct Rounds;

impl Work for Rounds {
    type Out = u64;

    ghost done = { λ _ _ _ _. Unit {0} };

    fn work<M: SharedMemory>(&self, me: u8, memory: &mut M) -> Result<u64, Fault> {
        let mut page = [0u8; 256];
        for _ in 0..100 {
            fill(memory, 256, 32, u64::from(me))?;
            read_into(memory, 256, &mut page)?;
        }
        Ok(u64::from(page[255]))
    }
}

#[test]
fn writers_of_one_page_all_finish(rt: HostRuntime) {
    for nodes in [2, 8] {
        let report = run(&rt, rt.alloc(), nodes, &Rounds).expect(&rt, "a report");
        for last in report.outs.iter() {
            assert!(&rt; *last < u64::from(nodes));
        }
    }
}
