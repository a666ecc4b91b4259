//! The workers of a session of own code, two for each node.
ghost use Rattle.std.specs.Prelude.{◌≡◌, ◌<◌, ℕ, [], Some, IfErr, IfOk, MatchResult, slice_get, vec_len};
ghost use Rattle.ivy_own.specs.Known.{listed};
ghost use Rattle.ivy_workers.specs.Stops.{IsStop};
ghost use Rattle.ivy_own.specs.Ended.{AreFresh, HasEnded};
ghost use Rattle.ivy_own.specs.Faults.{StopsFor};

use crate::joined::{Ended, GivenUp, Works, join_all};
use crate::memory::OwnMemory;
use crate::owned::OwnSeat;
use crate::tie::Side;
use crate::{Half, Naming, Tie};
use ivy_calls::{Answer, Work};
use ivy_model::Fault;
use ivy_workers::{Crew, Gate, Turnstile};
use std::alloc::Allocator;
use std::sync::{Mutex, Wait};
use std::thread;
use std::thread::Threads;

/// That a worker stopped, and its work did not give up of itself.
const CUT_OFF: GivenUp = GivenUp {
    fault: Fault::TurnLimit,
    is_first: false,
};

/// Does the work of a node, whose place this is. Where it gives up the session stops.
fn run_work<T, J, A, R, G, W>(
    crew: &Crew<'_, '_, '_, '_, T, A, R, G>,
    tie: &Tie<Answer, J, A>,
    work: &W,
    me: u8,
    seat: &Mutex<T>,
    mine: Half<Answer, J>,
) -> Result<Ended<W::Out, J>, GivenUp>
where
    T: OwnSeat<J, A>,
    J: Naming,
    A: Allocator + Copy,
    R: Wait,
    G: Turnstile,
    W: Work,
    requires { mine ≡ listed me [] }
    ensures { MatchResult result (λ ended. HasEnded (W.done work.now) me ended.mine ended.out) (StopsFor (W.gives_up work.now) me) }
{
    match do_work(crew, tie, work, me, seat, mine) {
        Ok(ended) => {
            crew.shared.end(crew.rt);
            Ok(ended)
        }
        Err(up) => {
            let stops = crew.shared.stop(crew.rt, Fault::TurnLimit);
            Err(GivenUp {
                fault: up.fault,
                is_first: stops && up.is_first,
            })
        }
    }
}

/// Does the work of a node, whose place this is.
fn do_work<T, J, A, R, G, W>(
    crew: &Crew<'_, '_, '_, '_, T, A, R, G>,
    tie: &Tie<Answer, J, A>,
    work: &W,
    me: u8,
    seat: &Mutex<T>,
    mine: Half<Answer, J>,
) -> Result<Ended<W::Out, J>, GivenUp>
where
    T: OwnSeat<J, A>,
    J: Naming,
    A: Allocator + Copy,
    R: Wait,
    G: Turnstile,
    W: Work,
    requires { mine ≡ listed me [] }
    ensures { MatchResult result (λ ended. HasEnded (W.done work.now) me ended.mine ended.out) (StopsFor (W.gives_up work.now) me) }
{
    let Some(worker) = crew.program_worker(seat, me) else {
        return Err(CUT_OFF);
    };
    let mut memory = OwnMemory::new(worker, Side::new(tie, mine, me));
    match work.work(me, &mut memory) {
        Ok(out) if memory.me() == me => Ok(Ended {
            mine: memory.into_mine(),
            out,
        }),
        Ok(_) => Err(CUT_OFF),
        Err(fault) => Err(GivenUp {
            fault,
            is_first: true,
        }),
    }
}

/// Runs two workers for each node, and joins them all.
pub fn run_crew<T, J, A, R, G, W>(
    crew: &Crew<'_, '_, '_, '_, T, A, R, G>,
    alloc: A,
    tie: &Tie<Answer, J, A>,
    work: &W,
    mines: Vec<Half<Answer, J>, A>,
) -> Result<Vec<Result<Ended<W::Out, J>, GivenUp>, A>, Fault>
where
    T: OwnSeat<J, A> + Send,
    J: Naming + Send + Sync,
    A: Allocator + Copy + Send + Sync,
    R: Threads + Wait + Sync,
    G: Gate,
    W: Work + Sync,
    requires fresh { AreFresh mines.items }
    requires few { vec_len mines < 256 }
    ensures all { IfOk result (λ all. vec_len all ≡ vec_len mines) }
    ensures given { IfOk result (λ all. (i : ℕ) (r : _) → slice_get all.items i ≡ Some r → MatchResult r (λ ended. HasEnded (W.done work.now) i ended.mine ended.out) (StopsFor (W.gives_up work.now) i)) }
    ensures stop { IfErr result IsStop }
{
    thread::scope(
        thread::scope_env(),
        crew.rt,
        |scope| -> Result<Vec<Result<Ended<W::Out, J>, GivenUp>, A>, Fault>
            requires fresh { AreFresh mines.items }
            requires few { vec_len mines < 256 }
            ensures all { IfOk result (λ all. vec_len all ≡ vec_len mines) }
            ensures given { IfOk result (λ all. (i : ℕ) (r : _) → slice_get all.items i ≡ Some r → MatchResult r (λ ended. HasEnded (W.done work.entry.now) i ended.mine ended.out) (StopsFor (W.gives_up work.entry.now) i)) }
            ensures stop { IfErr result IsStop }
        {
            let mut handles = Vec::with_capacity(alloc, mines.len())?;
            let all = Vec::with_capacity(alloc, mines.len())?;
            let mut me = 0u8;
            for mine in mines {
                let Some(seat) = crew.seats.get(usize::from(me)) else {
                    crew.shared.stop(crew.rt, Fault::TurnLimit);
                    return Err(Fault::TurnLimit);
                };
                let works = Works { work, me };
                let one = move || -> Result<Ended<W::Out, J>, GivenUp>
                    requires { mine ≡ listed me [] }
                    ensures { MatchResult result (λ ended. HasEnded (W.done work.entry.now) me ended.mine ended.out) (StopsFor (W.gives_up work.entry.now) me) }
                { run_work(crew, tie, work, me, seat, mine) };
                let wire = scope.spawn(move || crew.run_wire(seat, me));
                let Ok(handle) = scope.spawn_with(works, one) else {
                    crew.shared.stop(crew.rt, Fault::Memory);
                    return Err(Fault::Memory);
                };
                handles.push_reserved(handle);
                if wire.is_err() {
                    crew.shared.stop(crew.rt, Fault::Memory);
                }
                me = me.wrapping_add(1);
            }
            Ok(join_all(crew.rt, work, handles, all))
        },
    )
}
