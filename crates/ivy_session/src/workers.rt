//! The workers of a session whose programs are written down, two for each node.
ghost use Rattle.std.specs.Prelude.{IfErr};
ghost use Rattle.ivy_workers.specs.Stops.{IsStop};

use ivy_model::Fault;
use ivy_seating::{ProgramSeat, Turn};
use ivy_workers::{Crew, Gate, Limits, Shared, Turnstile};
use std::alloc::Allocator;
use std::sync::{Mutex, Wait};
use std::thread;
use std::thread::Threads;

/// Makes the turns of a node's program, one turn a lock, until it has ended.
fn run_program<T: ProgramSeat, A: Allocator + Copy, R: Wait, G: Turnstile>(
    crew: &Crew<'_, '_, '_, '_, T, A, R, G>,
    seat: &Mutex<T>,
    node: u8,
) {
    let Some(mut worker) = crew.program_worker(seat, node) else {
        return;
    };
    for _ in 0..crew.limits.turns {
        let Some(mut seated) = worker.enter() else {
            return;
        };
        let turn = seated.program_turn();
        worker.leave(seated, turn == Ok(Turn::Idle));
        match turn {
            Ok(Turn::Moved) => {}
            Ok(Turn::Idle) => worker.rest(),
            Ok(Turn::Ended) => {
                crew.shared.end(crew.rt);
                return;
            }
            Err(fault) => {
                crew.shared.stop(crew.rt, fault);
                return;
            }
        }
    }
    if seat.lock(crew.rt).has_ended() {
        crew.shared.end(crew.rt);
    } else {
        crew.shared.stop(crew.rt, Fault::TurnLimit);
    }
}

/// Runs two workers for each node, and joins them all.
fn run_crew<T, A, R, G>(all: &Crew<'_, '_, '_, '_, T, A, R, G>)
where
    T: ProgramSeat + Send,
    A: Allocator + Copy + Send + Sync,
    R: Threads + Wait + Sync,
    G: Gate,
{
    thread::scope(thread::scope_env(), all.rt, move |scope| {
        let mut next = 0u8;
        for seat in all.seats {
            let node = next;
            let program = scope.spawn(move || run_program(all, seat, node));
            let wire = scope.spawn(move || all.run_wire(seat, node));
            if program.is_err() || wire.is_err() {
                all.shared.stop(all.rt, Fault::Memory);
            }
            next = node.saturating_add(1);
        }
    });
}

/// Runs two workers for each node, and joins them all [1, 17, 21].
pub fn run_workers<T, A, R, G>(
    rt: &R,
    alloc: A,
    seats: &[Mutex<T>],
    limits: Limits,
    gate: &G,
) -> Result<(), Fault>
where
    T: ProgramSeat + Send,
    A: Allocator + Copy + Send + Sync,
    R: Threads + Wait + Sync,
    G: Gate,
    ensures { IfErr result IsStop }
{
    let shared = Shared::new(rt, alloc, seats.len(), limits)?;
    let crew = Crew {
        rt,
        seats,
        gate,
        shared: &shared,
        limits,
    };
    run_crew(&crew);
    match shared.into_stop() {
        None => Ok(()),
        Some(fault) => Err(fault),
    }
}
