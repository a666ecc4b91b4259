//! Blocks whose first word is not at hand: the words behind it wait along with it.
use crate::sessions::common::{ROOMY, config, meeting, run};
use ivy_calls::{advance_count, await_, read_into, write_from};
use ivy_model::{Fault, Kind};
use ivy_own::{Gate, Role, SharedMemory, Work, run_with};
use std::sync::atomic::{AtomicBool, Ordering};

/// The sum of some bytes.
fn sum_of(bytes: &[u8]) -> u64 {
    let mut sum = 0u64;
    for byte in bytes {
        sum = sum.wrapping_add(u64::from(*byte));
    }
    sum
}

/// Two nodes write a page by turns, with the number of the round in each byte, and both read it after each round. A node
/// gives the sum of all bytes that it read.
struct ByTurns;

impl Work for ByTurns {
    type Out = u64;

    ghost done = { λ _ _ _ _. Unit {0} };

    fn work<M: SharedMemory>(&self, me: u8, memory: &mut M) -> Result<u64, Fault> {
        let mut barrier = meeting(2);
        let mut sum = 0u64;
        for round in 0..20u8 {
            if round % 2 == me {
                write_from(memory, 256, &[round; 256])?;
            }
            barrier.wait(memory)?;
            let mut page = [0u8; 256];
            read_into(memory, 256, &mut page)?;
            sum = sum.wrapping_add(sum_of(&page));
            barrier.wait(memory)?;
        }
        Ok(sum)
    }
}

#[test]
fn blocks_by_turns(rt: HostRuntime) {
    let report = run(&rt, rt.alloc(), 2, &ByTurns).expect(&rt, "a report");
    assert_eq!(&rt; report.outs.as_slice(), [48_640, 48_640].as_slice());
}

/// Node 1, which has no copy of the page, writes all its words, and node 0, which lost its own by that, reads them then.
struct BothKinds;

impl Work for BothKinds {
    type Out = u64;

    ghost done = { λ _ _ _ _. Unit {0} };

    fn work<M: SharedMemory>(&self, me: u8, memory: &mut M) -> Result<u64, Fault> {
        if me == 1 {
            write_from(memory, 256, &[3; 256])?;
            advance_count(memory, 0)?;
            return Ok(0);
        }
        await_(memory, 0, 1)?;
        let mut page = [0u8; 256];
        read_into(memory, 256, &mut page)?;
        Ok(sum_of(&page))
    }
}

/// Sees whether a node has a turn in which some calls of its row were answered, and not all 32.
#[derive(Drop)]
struct Within {
    seen: AtomicBool,
}

impl Gate for Within {
    fn enter(&self, node: u8, _role: Role, records: u64) {
        // Node 0 has the await before its row, and node 1 has nothing.
        let before = if node == 0 { 1 } else { 0 };
        if records > before && records < before + 32 {
            self.seen.store(true, Ordering::SeqCst);
        }
    }
}

#[test]
fn rows_are_answered_at_once(rt: HostRuntime) {
    for kind in [Kind::Fixed, Kind::Dynamic] {
        let within = Within {
            seen: AtomicBool::new(false),
        };
        let nodes = config(2, kind);
        let report = run_with(&rt, rt.alloc(), nodes, &BothKinds, ROOMY, &within).expect(
            &rt, "a report",
        );
        assert_eq!(&rt; report.outs.as_slice(), [768, 0].as_slice());
        assert!(&rt; !within.seen.load(Ordering::SeqCst));
    }
}
