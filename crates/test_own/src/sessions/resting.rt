//! Who waits for a word by loads rests between two looks.
use crate::sessions::common::{ROOMY, config};
use ivy_model::{Fault, Kind};
use ivy_own::{Gate, Role, SharedMemory, Work, run_with};
use ivy_sync::WordBarrier;
use std::sync::atomic::{AtomicU64, Ordering};
use std::thread::sleep;
use std::time::{Clock, Duration};

/// Two nodes meet by two words.
struct Meets;

impl Work for Meets {
    type Out = ();

    ghost done = { λ _ _ _ _. Unit {0} };

    fn work<M: SharedMemory>(&self, _me: u8, memory: &mut M) -> Result<(), Fault> {
        let mut barrier = WordBarrier {
            arrived: 256,
            opened: 512,
            nodes: 2,
            passed: 0,
        };
        barrier.wait(memory)?;
        Ok(())
    }
}

/// Lets node 1 be late, and counts the turns of node 0's program.
#[derive(Drop)]
struct Late<'r, R> {
    rt: &'r R,
    turns: AtomicU64,
}

impl<R: Clock + Sync> Gate for Late<'_, R> {
    fn enter(&self, node: u8, role: Role, records: u64) {
        if role != Role::Program {
            return;
        }
        if node == 0 {
            self.turns.fetch_add(1, Ordering::SeqCst);
        } else if records == 0 {
            sleep(self.rt, Duration::from_millis(100));
        }
    }
}

#[test]
fn who_waits_by_loads_rests(rt: HostRuntime) {
    let late = Late {
        rt: &rt,
        turns: AtomicU64::new(0),
    };
    let nodes = config(2, Kind::Dynamic);
    let report = run_with(&rt, rt.alloc(), nodes, &Meets, ROOMY, &late).expect(&rt, "a report");
    assert_eq!(&rt; report.outs.len(), 2);
    // Without a rest it looks some hundred thousand times meanwhile.
    assert!(&rt; late.turns.load(Ordering::SeqCst) < 1_000);
}
