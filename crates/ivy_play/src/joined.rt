//! What the workers of the nodes give, one after another.
ghost use Rattle.std.specs.Prelude.{◌≡◌, ◌≤◌, ℕ, Some, IfOk, slice_get, vec_len, vec_capacity};

use ivy_calls::{Answer, Work};
use ivy_model::Fault;
use std::alloc::Allocator;
use std::thread::{Promise, PromisedHandle, Threads};

/// What the worker of a node gives: what its work was answered, and what it gave.
#[derive(Drop)]
pub(crate) struct Ended<T, A: Allocator> {
    pub(crate) answers: Vec<Answer, A>,
    pub(crate) out: T,
    /// Whether a call of it was not answered.
    pub(crate) is_cut: bool,
}

/// That the work of a node gave up.
#[derive(Clone, Copy, Debug, Drop)]
pub(crate) struct GivenUp {
    /// The fault with which it did.
    pub(crate) fault: Fault,
    /// Whether a call of it was not answered.
    pub(crate) is_cut: bool,
}

/// That a thread does the work of this node.
pub(crate) struct Works<'w, W> {
    pub(crate) work: &'w W,
    pub(crate) me: u8,
}

impl<'w, W> Drop for Works<'w, W> {
    fn drop(self) {
        let Works { work: _, me: _ } = self;
    }
}

impl<'w, W: Work, A: Allocator> Promise<Result<Ended<W::Out, A>, GivenUp>> for Works<'w, W> {
    ghost use Rattle.std.specs.Prelude.{IfOk};

    ghost kept_by = { λ p r. IfOk r (λ e. W.done p.work.now p.me e.answers.items e.out) };
}

/// What is joined for a worker.
pub(crate) type Doing<'w, W, A> = PromisedHandle<
    Result<Ended<<W as Work>::Out, A>, GivenUp>,
    Works<'w, W>,
>;

/// Waits for the work of all nodes. There is room for what each gives.
pub(crate) fn join_all<W: Work, R: Threads, A: Allocator + Copy>(
    rt: &R,
    work: &W,
    handles: Vec<Doing<'_, W, A>, A>,
    all: Vec<Result<Ended<W::Out, A>, GivenUp>, A>,
) -> Vec<Result<Ended<W::Out, A>, GivenUp>, A>
    requires each { (k : ℕ) (h : _) → slice_get handles.items k ≡ Some h → (h.promise.work.now ≡ work.now) × (h.promise.me ≡ k) }
    requires none { vec_len all ≡ 0 }
    requires room { vec_len handles ≤ vec_capacity all }
    ensures all { vec_len result ≡ vec_len handles.entry }
    ensures done { (i : ℕ) (r : _) → slice_get result.items i ≡ Some r → IfOk r (λ ended. W.done work.now i ended.answers.items ended.out) }
{
    // for the proof: the clauses name the work
    let _ = work;
    let mut all = all;
    for handle in handles {
        let given = handle.join(rt);
        all.push_reserved(given);
    }
    all
}
