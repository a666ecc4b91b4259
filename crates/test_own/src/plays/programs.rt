//! The programs of `example_programs` under drawn schedules. Each gives what its theorem says.
use crate::plays::common::{ENOUGH, KINDS, MOVES, all_gave, config, meeting};
use example_programs::{
    AddsUp, ByNumbers, ByTickets, Farm, MadeLock, Pipeline, Product, RollCall, Stage,
};
use ivy_model::Kind;
use ivy_play::{Outcome, Rest, play_drawn};
use ivy_sync::{Barrier, Broadcast, Lock, Queue, SharedSender, TicketLock};
use std::test::Fail;

#[test]
fn nodes_add_up(rt: HostRuntime) -> Result<(), Fail> {
    let work = AddsUp {
        lock: Lock { addr: 256 },
        sum: 512,
        barrier: meeting(4),
    };
    for kind in KINDS {
        for seed in 0..100 {
            let report = play_drawn(&rt, rt.alloc(), config(4, kind), &work, seed, MOVES, ENOUGH)?;
            assert!(&rt; all_gave(&report, 6));
        }
    }
    Ok(())
}

#[test]
fn jobs_are_shared_out(rt: HostRuntime) -> Result<(), Fail> {
    let work = Farm {
        next: 256,
        jobs: 20,
        alloc: rt.alloc(),
    };
    for seed in 0..20 {
        let report = play_drawn(
            &rt,
            rt.alloc(),
            config(3, Kind::Dynamic),
            &work,
            seed,
            MOVES,
            ENOUGH,
        )?;
        let mut done = 0usize;
        for outcome in &report.outcomes {
            if let Outcome::Gave(jobs) = outcome {
                done = done.saturating_add(jobs.len());
            }
        }
        assert_eq!(&rt; done, 20);
        assert_eq!(&rt; report.rest, Rest::Still);
    }
    Ok(())
}

/// Three times a number and one, modulo 2^64.
#[derive(Drop)]
struct TripledAndOne;

impl Stage for TripledAndOne {
    ghost use Rattle.std.specs.Prelude.{◌+◌, ◌*◌, ◌%◌, ◌^◌};

    ghost gives = { λ _ n. (n * 3 % 2 ^ 64 + 1) % 2 ^ 64 };

    fn apply(&self, number: u64) -> u64 {
        number.wrapping_mul(3).wrapping_add(1)
    }
}

#[test]
fn three_stages(rt: HostRuntime) -> Result<(), Fail> {
    let work = Pipeline {
        values: vec![in rt.alloc(); 7, 0, u64::MAX]?,
        stage: TripledAndOne,
        first: Queue {
            at: 256,
            size: 3,
            sent: 1,
            taken: 2,
        },
        second: Queue {
            at: 512,
            size: 4,
            sent: 3,
            taken: 4,
        },
        alloc: rt.alloc(),
    };
    for seed in 0..20 {
        let report = play_drawn(
            &rt,
            rt.alloc(),
            config(3, Kind::Fixed),
            &work,
            seed,
            MOVES,
            ENOUGH,
        )?;
        let Some(Outcome::Gave(last)) = report.outcomes.get(2) else {
            panic!(&rt; "the last stage ends");
        };
        assert_eq!(&rt; last.as_slice(), [22, 1, 18446744073709551614].as_slice());
    }
    Ok(())
}

#[test]
fn two_rows_of_a_product(rt: HostRuntime) -> Result<(), Fail> {
    let work = Product {
        left: vec![in rt.alloc(); 1, 2, 3, 4]?,
        right: vec![in rt.alloc(); 5, 6, 7, 8]?,
        addr: 256,
        barrier: Barrier {
            count: 0,
            nodes: 2,
            passed: 0,
        },
        alloc: rt.alloc(),
    };
    for seed in 0..20 {
        let report = play_drawn(
            &rt,
            rt.alloc(),
            config(2, Kind::Dynamic),
            &work,
            seed,
            MOVES,
            ENOUGH,
        )?;
        let mut entries = Vec::new(rt.alloc());
        for outcome in &report.outcomes {
            if let Outcome::Gave(row) = outcome {
                for entry in row {
                    entries.push(*entry)?;
                }
            }
        }
        assert_eq!(&rt; entries.as_slice(), [19, 22, 43, 50].as_slice());
    }
    Ok(())
}

#[test]
fn a_lock_is_made_for_all(rt: HostRuntime) -> Result<(), Fail> {
    let work = MadeLock {
        told: Broadcast {
            addr: 1016,
            barrier: meeting(3),
        },
    };
    for kind in KINDS {
        for seed in 0..20 {
            let report = play_drawn(&rt, rt.alloc(), config(3, kind), &work, seed, MOVES, ENOUGH)?;
            assert!(&rt; all_gave(&report, 256));
        }
    }
    Ok(())
}

#[test]
fn all_are_called(rt: HostRuntime) -> Result<(), Fail> {
    let work = RollCall {
        sender: SharedSender {
            queue: Queue {
                at: 512,
                size: 2,
                sent: 0,
                taken: 1,
            },
            lock: Lock { addr: 256 },
        },
        nodes: 4,
        alloc: rt.alloc(),
    };
    for seed in 0..20 {
        let report = play_drawn(
            &rt,
            rt.alloc(),
            config(4, Kind::Dynamic),
            &work,
            seed,
            MOVES,
            ENOUGH,
        )?;
        let Some(Outcome::Gave(numbers)) = report.outcomes.get(0) else {
            panic!(&rt; "node 0 ends");
        };
        assert_eq!(&rt; numbers.len(), 4);
        for node in 0..4u64 {
            assert!(&rt; numbers.contains(&node));
        }
    }
    Ok(())
}

#[test]
fn nodes_take_turns(rt: HostRuntime) -> Result<(), Fail> {
    let by_tickets = ByTickets {
        lock: TicketLock { next: 256, turn: 0 },
    };
    let by_numbers = ByNumbers { turn: 0 };
    for kind in KINDS {
        for seed in 0..20 {
            let here = config(3, kind);
            let drawn = play_drawn(&rt, rt.alloc(), here, &by_tickets, seed, MOVES, ENOUGH)?;
            for ticket in 0..3u64 {
                assert!(&rt; drawn.outcomes.contains(&Outcome::Gave(ticket)));
            }
            let counted = play_drawn(&rt, rt.alloc(), here, &by_numbers, seed, MOVES, ENOUGH)?;
            let wanted = [Outcome::Gave(0), Outcome::Gave(1), Outcome::Gave(2)];
            assert_eq!(&rt; counted.outcomes.as_slice(), wanted.as_slice());
        }
    }
    Ok(())
}
