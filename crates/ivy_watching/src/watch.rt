//! The workers of a watched session of own code.
ghost use Rattle.std.specs.Prelude.{◌≡◌, ◌<◌, ℕ, Some, IfErr, IfOk, IfSome, MatchResult, slice_get, vec_len};
ghost use Rattle.ivy_workers.specs.Stops.{IsStop};
ghost use Rattle.ivy_own.specs.Ended.{AreFresh, HasEnded};
ghost use Rattle.ivy_own.specs.Faults.{StopsFor};

use crate::close::Stopped;
use crate::noted::{EndSeat, Noted};
use crate::noting::Noting;
use ivy_calls::{Answer, Work};
use ivy_ether::Setup;
use ivy_model::Fault;
use ivy_own::{Ended, GivenUp, Half, Naming, OwnSeat, Owned, Places, Tie, run_crew};
use ivy_seating::{Home, Plan};
use ivy_standstill::Notes;
use ivy_workers::{Crew, Gate, Shared};
use std::alloc::{AllocError, Allocator};
use std::sync::{Mutex, Wait};
use std::thread::Threads;

/// Each place with what is noted of it [1].
fn note_all<'e, 'n, 'r, S, H, J, A, R>(
    alloc: A,
    seats: Vec<Mutex<Owned<'e, S, H, J, A>>, A>,
    notes: &'n Notes<'r, R, A>,
) -> Result<Vec<Mutex<Noted<'e, 'n, 'r, S, H, J, A, R>>, A>, AllocError>
where
    S: Setup,
    H: Home,
    J: Naming,
    A: Allocator + Copy,
    R: Wait,
{
    let mut noted = Vec::new(alloc);
    let mut node = 0u8;
    for seat in seats {
        let seat = Noted::new(seat.into_inner(), node, notes);
        noted.push(Mutex::new(seat))?;
        node = node.saturating_add(1);
    }
    Ok(noted)
}

/// Each place without what is noted of it [1].
fn part_all<'e, 'n, 'r, S, H, J, A, R>(
    alloc: A,
    noted: Vec<Mutex<Noted<'e, 'n, 'r, S, H, J, A, R>>, A>,
) -> Result<Vec<Mutex<Owned<'e, S, H, J, A>>, A>, AllocError>
where
    S: Setup,
    H: Home,
    J: Naming,
    A: Allocator + Copy,
    R: Wait,
{
    let mut seats = Vec::new(alloc);
    for seat in noted {
        seats.push(Mutex::new(seat.into_inner().into_owned()))?;
    }
    Ok(seats)
}

/// What the workers of all nodes gave, and why they were stopped, if they were.
type Run<W, J, A> = (
    Vec<Result<Ended<<W as Work>::Out, J>, GivenUp>, A>,
    Option<Fault>,
);

/// Runs the workers of all nodes [1, 17, 21], each of which notes where its work has ended.
fn run_works<T, J, A, R, G, W>(
    plan: &Plan<'_, '_, A, R, G>,
    tie: &Tie<Answer, J, A>,
    work: &W,
    seats: &[Mutex<T>],
    mines: Vec<Half<Answer, J>, A>,
) -> Result<Run<W, J, A>, Fault>
where
    T: OwnSeat<J, A> + EndSeat + Send,
    J: Naming + Send + Sync,
    A: Allocator + Copy + Send + Sync,
    R: Threads + Wait + Sync,
    G: Gate,
    W: Work + Sync,
    requires fresh { AreFresh mines.items }
    requires few { vec_len mines < 256 }
    ensures all { IfOk result (λ r. vec_len r.0 ≡ vec_len mines) }
    ensures given { IfOk result (λ r. (i : ℕ) (x : _) → slice_get r.0.items i ≡ Some x → MatchResult x (λ ended. HasEnded (W.done work.now) i ended.mine ended.out) (StopsFor (W.gives_up work.now) i)) }
    ensures why { IfOk result (λ r. IfSome r.1 IsStop) }
    ensures stop { IfErr result IsStop }
{
    let shared = Shared::new(plan.rt, plan.alloc, seats.len(), plan.limits)?;
    let crew = Crew {
        rt: plan.rt,
        seats,
        gate: plan.gate,
        shared: &shared,
        limits: plan.limits,
    };
    let noting = Noting {
        work,
        seats,
        rt: plan.rt,
    };
    let joined = run_crew(&crew, plan.alloc, tie, &noting, mines);
    let stop = shared.into_stop();
    let all = joined?;
    Ok((all, stop))
}

/// How a watched session ended.
#[derive(Drop)]
pub(crate) struct Ending {
    /// Why the workers were stopped, if they were.
    pub(crate) stop: Option<Fault>,
    /// Whether the session stands still.
    pub(crate) stands_still: bool,
}

/// Runs the workers of the nodes at these places until their works have ended, or the session stops or stands still
/// [1, 17, 21].
pub(crate) fn watch<'e, S, H, J, A, R, G, W>(
    plan: &Plan<'_, '_, A, R, G>,
    tie: &Tie<Answer, J, A>,
    work: &W,
    places: Places<'e, S, H, J, A>,
) -> Result<(Stopped<'e, S, H, J, A, W::Out>, Ending), Fault>
where
    S: Setup + Send + Sync,
    H: Home + Send + Sync,
    J: Naming + Send + Sync,
    A: Allocator + Copy + Send + Sync,
    R: Threads + Wait + Sync,
    G: Gate,
    W: Work + Sync,
    requires fresh { AreFresh places.mines.items }
    requires few { vec_len places.mines < 256 }
    ensures all { IfOk result (λ r. vec_len r.0.all ≡ vec_len places.entry.mines) }
    ensures given { IfOk result (λ r. (i : ℕ) (x : _) → slice_get r.0.all.items i ≡ Some x → MatchResult x (λ ended. HasEnded (W.done work.now) i ended.mine ended.out) (StopsFor (W.gives_up work.now) i)) }
    ensures why { IfOk result (λ r. IfSome r.1.stop IsStop) }
    ensures stop { IfErr result IsStop }
{
    let Places { seats, mines } = places;
    let notes = Notes::new(plan.rt, plan.alloc, mines.len())?;
    let noted = note_all(plan.alloc, seats, &notes)?;
    let (all, stop) = run_works(plan, tie, work, &noted, mines)?;
    let seats = part_all(plan.alloc, noted)?;
    if let Some(first) = seats.first() {
        first.lock(plan.rt).drain(plan.rt, plan.limits.capacity);
    }
    let ending = Ending {
        stop,
        stands_still: notes.stands_still(),
    };
    Ok((Stopped { seats, all }, ending))
}
