//! The workers of a play, one for each node.
ghost use Rattle.std.specs.Prelude.{◌≡◌, ℕ, Some, IfErr, IfOk, slice_get, vec_len};
ghost use Rattle.ivy_play.specs.Faults.{IsPlayStop};

use crate::driver::Play;
use crate::joined::{Ended, GivenUp, Works, join_all};
use crate::memory::NodeMemory;
use crate::source::MoveSource;
use crate::stage::Setting;
use ivy_calls::Work;
use ivy_model::Fault;
use std::alloc::Allocator;
use std::sync::Wait;
use std::thread;
use std::thread::Threads;

/// Does the work of a node.
fn do_work<S, A, M, R, W>(
    play: &Play<'_, '_, '_, S, A, M, R>,
    work: &W,
    me: u8,
) -> Result<Ended<W::Out, A>, GivenUp>
where
    S: Setting,
    A: Allocator + Copy,
    M: MoveSource + Drop,
    R: Wait,
    W: Work,
    ensures { IfOk result (λ ended. W.done work.now me ended.answers.items ended.out) }
{
    if play.baton.is_over() {
        return Err(GivenUp {
            fault: Fault::TurnLimit,
            is_cut: true,
        });
    }
    let mut memory = NodeMemory::new(play, me);
    match work.work(me, &mut memory) {
        Ok(out) => Ok(Ended {
            is_cut: memory.is_cut(),
            answers: memory.into_answers(),
            out,
        }),
        Err(fault) => Err(GivenUp {
            fault,
            is_cut: memory.is_cut(),
        }),
    }
}

/// Does the work of a node, whenever it is let run.
fn run_work<S, A, M, R, W>(
    play: &Play<'_, '_, '_, S, A, M, R>,
    work: &W,
    me: u8,
) -> Result<Ended<W::Out, A>, GivenUp>
where
    S: Setting,
    A: Allocator + Copy,
    M: MoveSource + Drop,
    R: Wait,
    W: Work,
    ensures { IfOk result (λ ended. W.done work.now me ended.answers.items ended.out) }
{
    play.baton.wait(play.rt, me);
    let given = do_work(play, work, me);
    play.baton.end(me);
    given
}

/// Makes the moves of the source, and lets the world settle with at most so many more, while the workers of so many nodes
/// do their work [1, 17, 19]. It gives what each gave.
pub(crate) fn run_all<S, A, M, R, W>(
    play: &Play<'_, '_, '_, S, A, M, R>,
    work: &W,
    nodes: u8,
    settle: u64,
) -> Result<Vec<Result<Ended<W::Out, A>, GivenUp>, A>, Fault>
where
    S: Setting + Send + Sync,
    A: Allocator + Copy + Send + Sync,
    M: MoveSource + Drop + Send,
    R: Threads + Wait + Sync,
    W: Work + Sync,
    ensures all { IfOk result (λ all. vec_len all ≡ nodes) }
    ensures done { IfOk result (λ all. (i : ℕ) (r : _) → slice_get all.items i ≡ Some r → IfOk r (λ ended. W.done work.now i ended.answers.items ended.out)) }
    ensures stop { IfErr result IsPlayStop }
{
    thread::scope(
        thread::scope_env(),
        play.rt,
        |scope| -> Result<Vec<Result<Ended<W::Out, A>, GivenUp>, A>, Fault>
            ensures all { IfOk result (λ all. vec_len all ≡ nodes) }
            ensures done { IfOk result (λ all. (i : ℕ) (r : _) → slice_get all.items i ≡ Some r → IfOk r (λ ended. W.done work.entry.now i ended.answers.items ended.out)) }
            ensures stop { IfErr result IsPlayStop }
        {
            let mut handles = Vec::with_capacity(play.alloc, usize::from(nodes))?;
            let all = Vec::with_capacity(play.alloc, usize::from(nodes))?;
            for me in 0..nodes {
                let works = Works { work, me };
                let one = move || -> Result<Ended<W::Out, A>, GivenUp>
                    ensures { IfOk result (λ ended. W.done work.entry.now me ended.answers.items ended.out) }
                { run_work(play, work, me) };
                let Ok(handle) = scope.spawn_with(works, one) else {
                    play.baton.finish(play.rt, me);
                    return Err(Fault::Memory);
                };
                handles.push_reserved(handle);
            }
            let driven = play.drive(settle);
            play.baton.finish(play.rt, nodes);
            let all = join_all(play.rt, work, handles, all);
            driven?;
            Ok(all)
        },
    )
}
