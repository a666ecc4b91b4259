//! Own code in a world whose moves are drawn, or listed.
ghost use Rattle.std.specs.Prelude.{◌≡◌, ◌↔◌, ◌≤◌, ℕ, Some, IsErrOf, IfErr, IfOk, MatchResult, slice_get, take, vec_len};
ghost use Rattle.ivy_model.specs.stated.Config.{IsConfig};
ghost use Rattle.ivy_play.specs.Faults.{IsPlayFault, IsPlayStop};
ghost use Rattle.ivy_play.specs.Ends.{HasEnded, HasGivenUp};
ghost use Rattle.ivy_play.specs.Given.{AreAmong, AreDrawn, seed_moves};
ghost use Rattle.ivy_play.specs.Played.{HasDrawn, own_opening};
ghost use Rattle.ivy_play.specs.Reports.{IsPlayReport};
ghost use Rattle.ivy_play.specs.Endings.{ComesToRest};

use crate::baton::Baton;
use crate::close::outcomes_of;
use crate::driver::Play;
use crate::joined::{Ended, GivenUp};
use crate::report::PlayReport;
use crate::rested::rested;
use crate::source::{Drawn, Listed, MoveSource};
use crate::stage::{Played, Setting, Stage};
use crate::workers::run_all;
use ivy_calls::Work;
use ivy_model::{Config, Fault};
use ivy_world::{Move, Opening, World};
use std::alloc::Allocator;
use std::marker::Brand;
use std::sync::{Mutex, Wait};
use std::thread::Threads;

/// The report of what was played, and of what each work gave [1].
fn close<S: Setting, A: Allocator + Copy, M: MoveSource + Drop, W: Work>(
    alloc: A,
    work: &W,
    stage: Stage<S, A, M>,
    all: Vec<Result<Ended<W::Out, A>, GivenUp>, A>,
    settle: u64,
) -> Result<PlayReport<W::Out, A>, Fault>
    requires settle { settle ≡ S.settle }
    requires all { vec_len all ≡ S.config.nodes }
    requires done { (i : ℕ) (r : _) → slice_get all.items i ≡ Some r → IfOk r (λ ended. W.done work.now i ended.answers.items ended.out) }
    ensures report { IfOk result (λ report. IsPlayReport S.config (W.done work.now) report.moves.items report.world report.outcomes.items report.rest) }
    ensures rests { IfOk result (λ report. ComesToRest S.config settle report.moves.items report.drawn report.world.world report.outcomes.items report.rest) }
    ensures drawn { IfOk result (λ report. HasDrawn S.config settle report.moves.items report.drawn) }
    ensures given { IfOk result (λ report. AreDrawn S.config S.gives report.moves.items report.drawn report.world) }
    ensures opened { IfOk result (λ report. report.world.opened ≡ S.opened) }
    ensures stand { IfOk result (λ report. (i : ℕ) (outcome : _) → slice_get report.outcomes.items i ≡ Some outcome → (r : _) → slice_get all.items i ≡ Some r → MatchResult r (λ ended. HasEnded report.world.world i ended.answers.items ended.is_cut ended.out outcome) (λ up. HasGivenUp report.world.world i up outcome)) }
    ensures stop { IfErr result IsPlayStop }
{
    let played = stage.into_played()?;
    // for the proof: what holds of a world at every moment
    played.world.keeps();
    let outcomes = outcomes_of(alloc, &played.world, work, all)?;
    let ended = rested(played, &outcomes, settle)?;
    // for the proof: what holds of a world at every moment
    ended.world.keeps();
    let Played {
        world,
        moves,
        drawn,
        rest,
    } = ended;
    Ok(PlayReport {
        world,
        moves,
        drawn,
        outcomes,
        rest,
    })
}

/// A configuration, how nodes begin, and the opening world of own code at it.
#[derive(Drop)]
struct Beginning<A: Allocator> {
    config: Config,
    opening: Opening,
    world: World<A>,
}

/// Plays the work of each node, from this beginning on [1, 17, 19].
fn play<S, A, R, M, W>(
    rt: &R,
    alloc: A,
    beginning: Beginning<A>,
    work: &W,
    source: M,
    settle: u64,
) -> Result<PlayReport<W::Out, A>, Fault>
where
    S: Setting + Send + Sync,
    A: Allocator + Copy + Send + Sync,
    R: Threads + Wait + Sync,
    M: MoveSource + Drop + Send,
    W: Work + Sync,
    requires config { beginning.config ≡ S.config }
    requires opened { beginning.opening ≡ S.opened }
    requires opens { beginning.world ≡ own_opening S.opened S.config }
    requires settle { settle ≡ S.settle }
    requires gives { M.gives source ≡ S.gives }
    ensures report { IfOk result (λ report. IsPlayReport S.config (W.done work.now) report.moves.items report.world report.outcomes.items report.rest) }
    ensures rests { IfOk result (λ report. ComesToRest S.config settle report.moves.items report.drawn report.world.world report.outcomes.items report.rest) }
    ensures drawn { IfOk result (λ report. HasDrawn S.config settle report.moves.items report.drawn) }
    ensures given { IfOk result (λ report. AreDrawn S.config S.gives report.moves.items report.drawn report.world) }
    ensures opened { IfOk result (λ report. report.world.opened ≡ S.opened) }
    ensures stop { IfErr result IsPlayStop }
{
    let Beginning {
        config,
        opening: _,
        world,
    } = beginning;
    // for the proof: what holds of a world at every moment
    world.keeps();
    let stage = Mutex::new(Stage::<S, A, M>::new(alloc, config, world, source, settle));
    let baton = Baton::new(alloc, config.nodes)?;
    let play = Play {
        rt,
        alloc,
        stage: &stage,
        baton: &baton,
    };
    let all = run_all(&play, work, config.nodes, settle)?;
    close::<S, A, M, W>(alloc, work, stage.into_inner(), all, settle)
}

/// Runs the work of each node over one shared memory, in a world that makes the moves of this source [1, 2, 17, 19], and
/// then settles, with at most so many more. A call waits until its node's turns have answered it. It ends with fewer of these
/// left than there are nodes, or where the world stands still and each work that has not ended has a call in progress.
///
/// The words of a row that lie in one page are answered with no other move between them where that page is at hand, each by a
/// turn of its node. These turns go with the one before which the work made the row, and all are among the moves of the
/// report. Those of them that the source asks for next were made already, and are not made again: so the moves, listed, play
/// the same. In settling there can be more moves by those that go with the last one. The moves that the source gives are
/// among the drawn ones, in their order, each as it was given at a moment of the play.
///
/// One legal order of records explains what all nodes were answered, and each work that has ended has done what it says,
/// with exactly its node's part of that order as what it was answered. It is 2 exactly where the configuration is out of
/// the wide limits, and 19 only where a move that the source gives names a node or a string that is not there.
pub fn play_with<A, R, M, W>(
    rt: &R,
    alloc: A,
    config: Config,
    work: &W,
    source: M,
    settle: u64,
) -> Result<PlayReport<W::Out, A>, Fault>
where
    A: Allocator + Copy + Send + Sync,
    R: Threads + Wait + Sync,
    M: MoveSource + Drop + Send,
    W: Work + Sync,
    ensures report { IfOk result (λ report. IsPlayReport config (W.done work.now) report.moves.items report.world report.outcomes.items report.rest) }
    ensures rests { IfOk result (λ report. ComesToRest config settle report.moves.items report.drawn report.world.world report.outcomes.items report.rest) }
    ensures drawn { IfOk result (λ report. HasDrawn config settle report.moves.items report.drawn) }
    ensures given { IfOk result (λ report. AreDrawn config (M.gives source) report.moves.items report.drawn report.world) }
    ensures opened { IfOk result (λ report. report.world.opened ≡ Opening.Configured) }
    ensures bad { IsErrOf result Fault.BadConfig ↔ ¬ IsConfig config }
    ensures fault { IfErr result IsPlayFault }
{
    play_with_opening(rt, alloc, config, work, source, settle, Opening::Configured)
}

/// The same, of nodes that begin so: by the manager that the configuration names, or by steady hints [1, 2, 17, 19].
pub fn play_with_opening<A, R, M, W>(
    rt: &R,
    alloc: A,
    config: Config,
    work: &W,
    source: M,
    settle: u64,
    opening: Opening,
) -> Result<PlayReport<W::Out, A>, Fault>
where
    A: Allocator + Copy + Send + Sync,
    R: Threads + Wait + Sync,
    M: MoveSource + Drop + Send,
    W: Work + Sync,
    ensures report { IfOk result (λ report. IsPlayReport config (W.done work.now) report.moves.items report.world report.outcomes.items report.rest) }
    ensures rests { IfOk result (λ report. ComesToRest config settle report.moves.items report.drawn report.world.world report.outcomes.items report.rest) }
    ensures drawn { IfOk result (λ report. HasDrawn config settle report.moves.items report.drawn) }
    ensures given { IfOk result (λ report. AreDrawn config (M.gives source) report.moves.items report.drawn report.world) }
    ensures opened { IfOk result (λ report. report.world.opened ≡ opening) }
    ensures bad { IsErrOf result Fault.BadConfig ↔ ¬ IsConfig config }
    ensures fault { IfErr result IsPlayFault }
{
    let world = World::open_by(alloc, config, opening)?;
    let beginning = Beginning {
        config,
        opening,
        world,
    };
    play::<Brand, A, R, M, W>(rt, alloc, beginning, work, source, settle)
}

/// The same, by so many moves that the generator of a seed draws [1, 2, 17].
pub fn play_drawn<A, R, W>(
    rt: &R,
    alloc: A,
    config: Config,
    work: &W,
    seed: u64,
    moves: u64,
    settle: u64,
) -> Result<PlayReport<W::Out, A>, Fault>
where
    A: Allocator + Copy + Send + Sync,
    R: Threads + Wait + Sync,
    W: Work + Sync,
    ensures report { IfOk result (λ report. IsPlayReport config (W.done work.now) report.moves.items report.world report.outcomes.items report.rest) }
    ensures rests { IfOk result (λ report. ComesToRest config settle report.moves.items report.drawn report.world.world report.outcomes.items report.rest) }
    ensures drawn { IfOk result (λ report. HasDrawn config settle report.moves.items report.drawn) }
    ensures given { IfOk result (λ report. AreDrawn config (seed_moves seed moves) report.moves.items report.drawn report.world) }
    ensures opened { IfOk result (λ report. report.world.opened ≡ Opening.Configured) }
    ensures many { IfOk result (λ report. moves ≤ report.drawn) }
    ensures bad { IsErrOf result Fault.BadConfig ↔ ¬ IsConfig config }
    ensures fault { IfErr result IsPlayFault }
{
    play_drawn_opening(
        rt,
        alloc,
        config,
        work,
        seed,
        moves,
        settle,
        Opening::Configured,
    )
}

/// The same, of nodes that begin so: by the manager that the configuration names, or by steady hints [1, 2, 17].
pub fn play_drawn_opening<A, R, W>(
    rt: &R,
    alloc: A,
    config: Config,
    work: &W,
    seed: u64,
    moves: u64,
    settle: u64,
    opening: Opening,
) -> Result<PlayReport<W::Out, A>, Fault>
where
    A: Allocator + Copy + Send + Sync,
    R: Threads + Wait + Sync,
    W: Work + Sync,
    ensures report { IfOk result (λ report. IsPlayReport config (W.done work.now) report.moves.items report.world report.outcomes.items report.rest) }
    ensures rests { IfOk result (λ report. ComesToRest config settle report.moves.items report.drawn report.world.world report.outcomes.items report.rest) }
    ensures drawn { IfOk result (λ report. HasDrawn config settle report.moves.items report.drawn) }
    ensures given { IfOk result (λ report. AreDrawn config (seed_moves seed moves) report.moves.items report.drawn report.world) }
    ensures opened { IfOk result (λ report. report.world.opened ≡ opening) }
    ensures many { IfOk result (λ report. moves ≤ report.drawn) }
    ensures bad { IsErrOf result Fault.BadConfig ↔ ¬ IsConfig config }
    ensures fault { IfErr result IsPlayFault }
{
    let source = Drawn::new(seed, moves);
    play_with_opening(rt, alloc, config, work, source, settle, opening)
}

/// The same, by the moves of a schedule [1, 2, 17, 19].
pub fn play_listed<A, R, W>(
    rt: &R,
    alloc: A,
    config: Config,
    work: &W,
    moves: &[Move],
    settle: u64,
) -> Result<PlayReport<W::Out, A>, Fault>
where
    A: Allocator + Copy + Send + Sync,
    R: Threads + Wait + Sync,
    W: Work + Sync,
    ensures report { IfOk result (λ report. IsPlayReport config (W.done work.now) report.moves.items report.world report.outcomes.items report.rest) }
    ensures rests { IfOk result (λ report. ComesToRest config settle report.moves.items report.drawn report.world.world report.outcomes.items report.rest) }
    ensures drawn { IfOk result (λ report. HasDrawn config settle report.moves.items report.drawn) }
    ensures given { IfOk result (λ report. AreAmong moves.now (take report.drawn report.moves.items)) }
    ensures opened { IfOk result (λ report. report.world.opened ≡ Opening.Configured) }
    ensures bad { IsErrOf result Fault.BadConfig ↔ ¬ IsConfig config }
    ensures fault { IfErr result IsPlayFault }
{
    play_with(rt, alloc, config, work, Listed::new(moves), settle)
}
