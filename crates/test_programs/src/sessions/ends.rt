//! Sessions that give no report, and one that just does.
use crate::sessions::common::{
    LIMITS, NOTICE, PAIR, WAITS, expect_same_at, run, run_behind, shown_of,
};
use ivy_model::{Config, Fault};
use ivy_session::{Gate, Limits, Role};
use std::process::Abort;
use std::sync::Wait;
use std::sync::atomic::{AtomicU64, Ordering};
use std::thread::Threads;

/// Asserts that a session ends with this fault. The number of the case is named where it does not.
fn check_fault<R: Abort + AllocGlobal + Threads + Wait + Sync>(
    rt: &R,
    case: usize,
    (config, text, limits): (Config, &str, Limits),
    fault: Fault,
) {
    let found = run(rt, rt.alloc(), config, text, limits).err();
    expect_same_at(rt, case, found, Some(fault));
}

/// Asserts that each of these sessions ends with this fault.
fn check_faults<R: Abort + AllocGlobal + Threads + Wait + Sync>(
    rt: &R,
    sessions: &[(Config, &str, Limits)],
    fault: Fault,
) {
    for (case, session) in sessions.iter().enumerate() {
        check_fault(rt, case, *session, fault);
    }
}

/// A program that waits forever uses up its turns.
const SPENT: [(Config, &str, Limits); 3] = [
    (PAIR, WAITS, Limits { turns: 1, ..LIMITS }),
    (PAIR, WAITS, Limits { turns: 5, ..LIMITS }),
    (
        PAIR,
        WAITS,
        Limits {
            turns: 1000,
            ..LIMITS
        },
    ),
];

#[test]
fn turns_spent(rt: HostRuntime) {
    check_faults(&rt, &SPENT, Fault::TurnLimit);
}

/// How many turns each of the four workers of two nodes begins.
#[derive(Drop)]
struct Counted {
    turns: [AtomicU64; 4],
}

impl Counted {
    fn new() -> Counted {
        Counted {
            turns: [
                AtomicU64::new(0),
                AtomicU64::new(0),
                AtomicU64::new(0),
                AtomicU64::new(0),
            ],
        }
    }

    /// The most turns of a worker.
    fn most(&self) -> u64 {
        let mut most = 0;
        for turns in &self.turns {
            most = turns.load(Ordering::SeqCst).max(most);
        }
        most
    }
}

impl Gate for Counted {
    fn enter(&self, node: u8, role: Role, _records: u64) {
        let place = match role {
            Role::Program => usize::from(node),
            Role::Wire => usize::from(node).saturating_add(2),
        };
        if let Some(turns) = self.turns.get(place) {
            turns.fetch_add(1, Ordering::SeqCst);
        }
    }
}

/// The session is over once a worker has made as many turns as are allowed, and no worker makes more.
#[test]
fn turns_counted(rt: HostRuntime) {
    let gate = Counted::new();
    let limits = Limits {
        turns: 50,
        ..LIMITS
    };
    let found = run_behind(&rt, rt.alloc(), PAIR, WAITS, limits, &gate).err();
    expect_same_at(&rt, 0, found, Some(Fault::TurnLimit));
    expect_same_at(&rt, 1, gate.most(), 50);
}

/// Sessions of which a limit, the configuration or the number of programs does not suit.
const UNSUITED: [(Config, &str, Limits); 8] = [
    (
        PAIR,
        NOTICE,
        Limits {
            capacity: 0,
            ..LIMITS
        },
    ),
    (
        PAIR,
        NOTICE,
        Limits {
            capacity: 65_537,
            ..LIMITS
        },
    ),
    (PAIR, NOTICE, Limits { turns: 0, ..LIMITS }),
    (
        PAIR,
        NOTICE,
        Limits {
            pulse_every: 0,
            ..LIMITS
        },
    ),
    (Config { nodes: 1, ..PAIR }, NOTICE, LIMITS),
    (Config { nodes: 3, ..PAIR }, NOTICE, LIMITS),
    (Config { pages: 1, ..PAIR }, NOTICE, LIMITS),
    (PAIR, "", LIMITS),
];

#[test]
fn unsuited(rt: HostRuntime) {
    check_faults(&rt, &UNSUITED, Fault::BadConfig);
}

/// Node 0 counts down from 1000 and prints what is left: two turns, three for each number but the last, two for that one,
/// and one that prints and is the end. That is 3002. A node that waits makes few turns on the wire meanwhile.
const COUNTS_DOWN: &str = "\
node 0
set r1 1000
set r2 1
label again
sub r1 r1 r2
jumpz r1 out
jump again
label out
print r1
node 1
";

/// No pulse is long in coming, so a wire worker with nothing to do makes few turns.
const COUNTED_DOWN: Limits = Limits {
    turns: 3002,
    pulse_every: 1,
    ..LIMITS
};

/// A program that its last turn ends is done.
#[test]
fn ends_in_its_last_turn(rt: HostRuntime) {
    let report = run(&rt, rt.alloc(), PAIR, COUNTS_DOWN, COUNTED_DOWN).expect(&rt, "a report");
    expect_same_at(&rt, 0, shown_of(&report, 0).1, &[0u64][..]);
}

#[test]
fn ends_a_turn_too_late(rt: HostRuntime) {
    let limits = Limits {
        turns: COUNTED_DOWN.turns - 1,
        ..COUNTED_DOWN
    };
    check_fault(&rt, 0, (PAIR, COUNTS_DOWN, limits), Fault::TurnLimit);
}
