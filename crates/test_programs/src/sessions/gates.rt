//! Gates that hold workers until others were seen at work: no lock stands round two nodes, or round a session.
use crate::sessions::common::{LIMITS, LOADS, PAIR, expect_same_at, run_behind, shown_of};
use ivy_session::{Gate, Role};
use std::process::Abort;
use std::sync::Wait;
use std::sync::atomic::{AtomicBool, Ordering};
use std::thread::{self, Threads};

/// How often a worker that is held looks for the other.
const LOOKS: u64 = 10_000_000;

/// Something that one worker does, once, and another looks for.
#[derive(Drop)]
struct Flag {
    raised: AtomicBool,
}

impl Flag {
    fn new() -> Flag {
        Flag {
            raised: AtomicBool::new(false),
        }
    }

    /// Raises it. Whether it had been raised before.
    fn raise(&self) -> bool {
        self.raised.swap(true, Ordering::SeqCst)
    }

    fn is_raised(&self) -> bool {
        self.raised.load(Ordering::SeqCst)
    }

    /// Looks for it. Whether it was raised in time.
    fn is_seen(&self) -> bool {
        for _ in 0..LOOKS {
            if self.is_raised() {
                return true;
            }
            thread::yield_now();
        }
        false
    }
}

/// Runs two programs behind a gate. Asserts what each node printed.
fn check_printed<R: Abort + AllocGlobal + Threads + Wait + Sync, G: Gate>(
    rt: &R,
    text: &str,
    gate: &G,
    printed: &[&[u64]],
) {
    let report = run_behind(rt, rt.alloc(), PAIR, text, LIMITS, gate).expect(rt, "a report");
    for (node, numbers) in printed.iter().enumerate() {
        expect_same_at(rt, node, shown_of(&report, node as u64).1, *numbers);
    }
}

/// Holds node 0's first turn until node 1's program worker has come to its own, and that one until node 0's program has
/// been answered twice.
#[derive(Drop)]
struct AtOnce {
    first: Flag,
    second: Flag,
    answered: Flag,
    saw_second: Flag,
    saw_answered: Flag,
}

impl Gate for AtOnce {
    fn enter(&self, node: u8, role: Role, records: u64) {
        if role == Role::Wire {
            return;
        }
        if node == 0 {
            if records >= 2 {
                self.answered.raise();
            }
            if !self.first.raise() && self.second.is_seen() {
                self.saw_second.raise();
            }
        } else if !self.second.raise() && self.answered.is_seen() {
            self.saw_answered.raise();
        }
    }
}

/// Node 0 stores to its own page and loads what it stored. Node 1 loads that word.
const STORES_AND_LOADS: &str = "\
node 0
set r1 64
set r2 7
store 8 r1 r2
load 8 r3 r1
print r3
node 1
set r1 64
load 8 r2 r1
print r2
";

/// Two program workers are in their turns at the same time.
#[test]
fn programs_at_once(rt: HostRuntime) {
    let gate = AtOnce {
        first: Flag::new(),
        second: Flag::new(),
        answered: Flag::new(),
        saw_second: Flag::new(),
        saw_answered: Flag::new(),
    };
    check_printed(&rt, STORES_AND_LOADS, &gate, &[&[7], &[7]]);
    assert!(&rt; gate.saw_second.is_raised());
    assert!(&rt; gate.saw_answered.is_raised());
}

/// Holds the first turn of each wire worker of two nodes until the other has come to its own.
#[derive(Drop)]
struct OnTheWire {
    first: Flag,
    second: Flag,
    saw_first: Flag,
    saw_second: Flag,
}

impl Gate for OnTheWire {
    fn enter(&self, node: u8, role: Role, _records: u64) {
        if role == Role::Program {
            return;
        }
        if node == 0 {
            if !self.first.raise() && self.second.is_seen() {
                self.saw_second.raise();
            }
        } else if !self.second.raise() && self.first.is_seen() {
            self.saw_first.raise();
        }
    }
}

/// Two wire workers are in their turns at the same time.
#[test]
fn wires_at_once(rt: HostRuntime) {
    let gate = OnTheWire {
        first: Flag::new(),
        second: Flag::new(),
        saw_first: Flag::new(),
        saw_second: Flag::new(),
    };
    check_printed(&rt, LOADS, &gate, &[&[], &[0]]);
    assert!(&rt; gate.saw_first.is_raised());
    assert!(&rt; gate.saw_second.is_raised());
}
