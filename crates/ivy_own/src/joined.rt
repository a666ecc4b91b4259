//! What the workers of the nodes give, one after another.
ghost use Rattle.std.specs.Prelude.{◌≡◌, ◌<◌, ◌≤◌, ℕ, Some, IfErr, IfOk, IfSome, MatchResult, length, slice_get, vec_len, vec_capacity};
ghost use Rattle.ivy_workers.specs.Stops.{IsStop};
ghost use Rattle.ivy_own.specs.Ended.{HasEnded};
ghost use Rattle.ivy_own.specs.Faults.{IsNamedIn, IsOwnStop, StopsFor};

use crate::fault::OwnFault;
use crate::{Half, Naming};
use ivy_calls::{Answer, Work};
use ivy_model::Fault;
use std::alloc::Allocator;
use std::thread::{Promise, PromisedHandle, Threads};

/// What the worker of a node gives: its half of the list of its answers, and what its work gave.
#[derive(Drop)]
pub struct Ended<T, J: Naming> {
    /// Its half.
    pub mine: Half<Answer, J>,
    /// What its work gave.
    pub out: T,
}

/// That the work of a node gave up.
#[derive(Clone, Copy, Debug, Drop)]
pub struct GivenUp {
    /// The fault with which it did.
    pub fault: Fault,
    /// Whether the work did so of itself, and the session stopped for that.
    pub is_first: bool,
}

/// That a thread does the work of this node.
pub(crate) struct Works<'w, W> {
    pub(crate) work: &'w W,
    pub(crate) me: u8,
}

impl<'w, W> Drop for Works<'w, W> {
    fn drop(self) {
        let Works { work: _, me: _ } = self;
    }
}

impl<'w, W: Work, J: Naming> Promise<Result<Ended<W::Out, J>, GivenUp>> for Works<'w, W> {
    ghost use Rattle.std.specs.Prelude.{MatchResult};
    ghost use Rattle.ivy_own.specs.Ended.{HasEnded};
    ghost use Rattle.ivy_own.specs.Faults.{StopsFor};

    ghost kept_by = { λ p r. MatchResult r (λ e. HasEnded (W.done p.work.now) p.me e.mine e.out) (StopsFor (W.gives_up p.work.now) p.me) };
}

/// What is joined for a worker.
pub(crate) type Doing<'w, W, J> = PromisedHandle<
    Result<Ended<<W as Work>::Out, J>, GivenUp>,
    Works<'w, W>,
>;

/// Waits for the work of all nodes. There is room for what each gives.
pub(crate) fn join_all<J: Naming, W: Work, R: Threads, A: Allocator + Copy>(
    rt: &R,
    work: &W,
    handles: Vec<Doing<'_, W, J>, A>,
    all: Vec<Result<Ended<W::Out, J>, GivenUp>, A>,
) -> Vec<Result<Ended<W::Out, J>, GivenUp>, A>
    requires each { (k : ℕ) (h : _) → slice_get handles.items k ≡ Some h → (h.promise.work.now ≡ work.now) × (h.promise.me ≡ k) }
    requires none { vec_len all ≡ 0 }
    requires room { vec_len handles ≤ vec_capacity all }
    ensures all { vec_len result ≡ vec_len handles.entry }
    ensures given { (i : ℕ) (r : _) → slice_get result.items i ≡ Some r → MatchResult r (λ ended. HasEnded (W.done work.now) i ended.mine ended.out) (StopsFor (W.gives_up work.now) i) }
{
    // for the proof: the clauses name the work.
    let _ = work;
    let mut all = all;
    for handle in handles {
        let given = handle.join(rt);
        all.push_reserved(given);
    }
    all
}

/// The node whose work gave up and so ended the session, if one did.
pub fn first_given_up<J: Naming, W: Work>(
    work: &W,
    all: &[Result<Ended<W::Out, J>, GivenUp>],
) -> Option<OwnFault>
    requires few { length all.now < 256 }
    requires given { (i : ℕ) (r : _) → slice_get all.now i ≡ Some r → MatchResult r (λ ended. HasEnded (W.done work.now) i ended.mine ended.out) (StopsFor (W.gives_up work.now) i) }
    ensures named { IfSome result (IsNamedIn all.now) }
    ensures stop { IfSome result (IsOwnStop (length all.now) (W.gives_up work.now)) }
{
    // for the proof: the clauses name the work.
    let _ = work;
    let mut node = 0u8;
    for given in all {
        if let Err(up) = given {
            if up.is_first {
                return Some(OwnFault::GaveUp {
                    node,
                    fault: up.fault,
                });
            }
        }
        node = node.wrapping_add(1);
    }
    None
}

/// What the works gave, where none gave up [1, 21].
pub fn take_ended<J: Naming, W: Work, A: Allocator + Copy>(
    alloc: A,
    work: &W,
    all: Vec<Result<Ended<W::Out, J>, GivenUp>, A>,
) -> Result<Vec<Ended<W::Out, J>, A>, Fault>
    requires given { (i : ℕ) (r : _) → slice_get all.items i ≡ Some r → MatchResult r (λ ended. HasEnded (W.done work.now) i ended.mine ended.out) (StopsFor (W.gives_up work.now) i) }
    ensures all { IfOk result (λ ended. vec_len ended ≡ vec_len all) }
    ensures done { IfOk result (λ ended. (i : ℕ) (e : _) → slice_get ended.items i ≡ Some e → HasEnded (W.done work.now) i e.mine e.out) }
    ensures stop { IfErr result IsStop }
{
    // for the proof: the clauses name the work.
    let _ = work;
    let mut taken = Vec::new(alloc);
    for given in all {
        taken.reserve(1)?;
        let Ok(ended) = given else {
            return Err(Fault::TurnLimit);
        };
        taken.push_reserved(ended);
    }
    Ok(taken)
}
