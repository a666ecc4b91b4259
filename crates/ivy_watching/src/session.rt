//! Watched sessions of own code.
ghost use Rattle.std.specs.Prelude.{◌≡◌, ◌↔◌, ◌<◌, ℕ, Some, All, IsErrOf, IfOk, IfErr, IfSome, MatchResult, slice_get, vec_len};
ghost use Rattle.ivy_model.specs.stated.Config.{IsConfig};
ghost use Rattle.ivy_ether.specs.Views.{beginner};
ghost use Rattle.ivy_ether.specs.EtherViews.{IsNewcomer};
ghost use Rattle.ivy_workers.specs.SessionLimits.{AreLimits};
ghost use Rattle.ivy_workers.specs.Stops.{IsStop};
ghost use Rattle.ivy_seating.specs.Reports.{AllKeep};
ghost use Rattle.ivy_own.specs.Ended.{HasEnded};
ghost use Rattle.ivy_own.specs.Faults.{IsOwnFault, IsOwnStop, StopsFor};
ghost use Rattle.ivy_own.specs.Reports.{IsOwnReport, all_open};
ghost use Rattle.ivy_standstill.specs.SoFar.{AllKeepSoFar};
ghost use Rattle.ivy_watching.specs.Standings.{IsOwnStandstill};

use crate::close::{Stopped, collect_standing};
use crate::report::Watched;
use crate::watch::{Ending, watch};
use ivy_calls::{Answer, Work};
use ivy_ether::{Ether, Opening, Pass, Setup, Wired};
use ivy_model::{Config, Fault};
use ivy_own::{
    Naming, Opened, OwnFault, OwnReport, Tie, WorkedPlaces, collect, first_given_up, place_all,
    take_ended,
};
use ivy_seating::{Home, Keep, Plan};
use ivy_workers::{Gate, Limits};
use std::alloc::Allocator;
use std::marker::Brand;
use std::sync::Wait;
use std::thread::Threads;

/// Closes the nodes, and hands out what their sites tell together, where all works have ended, and the session was not
/// stopped [1, 21].
fn collect_ended<S: Setup, H: Home, J: Naming, A: Allocator + Copy, R, G, W: Work>(
    plan: &Plan<'_, '_, A, R, G>,
    ether: &Ether<S, A>,
    starter: Pass<Wired<A>>,
    tie: &Tie<Answer, J, A>,
    work: &W,
    stopped: Stopped<'_, S, H, J, A, W::Out>,
    stop: Option<Fault>,
) -> Result<OwnReport<W::Out, A>, OwnFault>
    requires limits { IsConfig S.config }
    requires programs { S.programs ≡ all_open S.config }
    requires home { ether.now ≡ H.ether }
    requires starter { starter.ether ≡ ether.now }
    requires nodes { vec_len stopped.all ≡ S.config.nodes }
    requires given { (i : ℕ) (r : _) → slice_get stopped.all.items i ≡ Some r → MatchResult r (λ ended. HasEnded (W.done work.now) i ended.mine ended.out) (StopsFor (W.gives_up work.now) i) }
    requires why { IfSome stop IsStop }
    ensures report { IfOk result (λ report. IsOwnReport S.config S.opened (W.done work.now) report.nodes report.outs.items) }
    ensures keep { IfOk result (λ report. AllKeep plan.now.keep report.nodes) }
    ensures fault { IfErr result (IsOwnStop S.config.nodes (W.gives_up work.now)) }
{
    let Stopped { seats, all } = stopped;
    if let Some(given_up) = first_given_up(work, &all) {
        return Err(given_up);
    }
    if let Some(fault) = stop {
        return Err(OwnFault::Session(fault));
    }
    let all = take_ended(plan.alloc, work, all)?;
    let worked = WorkedPlaces { seats, all };
    let report = collect(plan, ether, starter, tie, work, worked)?;
    Ok(report)
}

/// Seats the nodes at their ether, runs their workers, and closes them [1, 17, 21].
fn play_tied<S, H, J, A, R, G, W>(
    plan: &Plan<'_, '_, A, R, G>,
    ether: &Ether<S, A>,
    opened: Opened<Answer, A>,
    starter: Pass<Wired<A>>,
    passes: Vec<Pass<Wired<A>>, A>,
    work: &W,
) -> Result<Watched<W::Out, A>, OwnFault>
where
    S: Setup + Send + Sync,
    H: Home + Send + Sync,
    J: Naming + Send + Sync,
    A: Allocator + Copy + Send + Sync,
    R: Threads + Wait + Sync,
    G: Gate,
    W: Work + Sync,
    requires config { plan.now.config ≡ S.config }
    requires opened { plan.now.opening ≡ S.opened }
    requires limits { IsConfig plan.now.config }
    requires programs { S.programs ≡ all_open S.config }
    requires home { ether.now ≡ H.ether }
    requires named { opened ≡ J.table }
    requires starter { (starter.ether ≡ ether.now) × (starter.known ≡ beginner) }
    requires passes { All (IsNewcomer ether.now) passes.items }
    requires enough { vec_len passes ≡ plan.now.config.nodes }
    ensures report { IfOk result (λ watched. MatchResult watched (λ report. IsOwnReport S.config S.opened (W.done work.now) report.nodes report.outs.items) (λ s. IsOwnStandstill S.config S.opened (W.done work.now) s.nodes s.outs.items)) }
    ensures keep { IfOk result (λ watched. MatchResult watched (λ report. AllKeep plan.now.keep report.nodes) (λ s. AllKeepSoFar plan.now.keep s.nodes)) }
    ensures fault { IfErr result (IsOwnStop S.config.nodes (W.gives_up work.now)) }
{
    let (tie, mut lists) = opened.named::<J>();
    let mut starter = starter;
    let places = place_all::<S, H, J, A, R, G>(
        plan,
        ether,
        &tie,
        &mut lists,
        &mut starter,
        passes,
    )?;
    let (stopped, ending) = watch(plan, &tie, work, places)?;
    if ending.stands_still {
        let standstill = collect_standing(plan, ether, starter, &tie, work, stopped)?;
        return Ok(Err(standstill));
    }
    let report = collect_ended(plan, ether, starter, &tie, work, stopped, ending.stop)?;
    Ok(Ok(report))
}

/// Begins the lists of the nodes' answers, and runs the works of the nodes at their ether [1, 17, 21].
fn play_at<S, H, A, R, G, W>(
    plan: &Plan<'_, '_, A, R, G>,
    ether: &Ether<S, A>,
    starter: Pass<Wired<A>>,
    passes: Vec<Pass<Wired<A>>, A>,
    work: &W,
) -> Result<Watched<W::Out, A>, OwnFault>
where
    S: Setup + Send + Sync,
    H: Home + Send + Sync,
    A: Allocator + Copy + Send + Sync,
    R: Threads + Wait + Sync,
    G: Gate,
    W: Work + Sync,
    requires config { plan.now.config ≡ S.config }
    requires opened { plan.now.opening ≡ S.opened }
    requires limits { IsConfig plan.now.config }
    requires programs { S.programs ≡ all_open S.config }
    requires home { ether.now ≡ H.ether }
    requires starter { (starter.ether ≡ ether.now) × (starter.known ≡ beginner) }
    requires passes { All (IsNewcomer ether.now) passes.items }
    requires enough { vec_len passes ≡ plan.now.config.nodes }
    ensures report { IfOk result (λ watched. MatchResult watched (λ report. IsOwnReport S.config S.opened (W.done work.now) report.nodes report.outs.items) (λ s. IsOwnStandstill S.config S.opened (W.done work.now) s.nodes s.outs.items)) }
    ensures keep { IfOk result (λ watched. MatchResult watched (λ report. AllKeep plan.now.keep report.nodes) (λ s. AllKeepSoFar plan.now.keep s.nodes)) }
    ensures fault { IfErr result (IsOwnStop S.config.nodes (W.gives_up work.now)) }
{
    let Ok(opened) = Opened::new(plan.alloc) else {
        return Err(OwnFault::Session(Fault::Memory));
    };
    play_tied::<S, H, Brand, A, R, G, W>(plan, ether, opened, starter, passes, work)
}

/// Lays the ether, and runs the works of the nodes there, which begin so [1, 17, 21].
fn play<S, A, R, G, W>(
    plan: &Plan<'_, '_, A, R, G>,
    work: &W,
) -> Result<Watched<W::Out, A>, OwnFault>
where
    S: Setup + Send + Sync,
    A: Allocator + Copy + Send + Sync,
    R: Threads + Wait + Sync,
    G: Gate,
    W: Work + Sync,
    requires config { plan.now.config ≡ S.config }
    requires opened { plan.now.opening ≡ S.opened }
    requires limits { IsConfig plan.now.config }
    requires programs { S.programs ≡ all_open S.config }
    requires capacity { 0 < plan.now.limits.capacity }
    ensures report { IfOk result (λ watched. MatchResult watched (λ report. IsOwnReport S.config S.opened (W.done work.now) report.nodes report.outs.items) (λ s. IsOwnStandstill S.config S.opened (W.done work.now) s.nodes s.outs.items)) }
    ensures keep { IfOk result (λ watched. MatchResult watched (λ report. AllKeep plan.now.keep report.nodes) (λ s. AllKeepSoFar plan.now.keep s.nodes)) }
    ensures fault { IfErr result (IsOwnStop S.config.nodes (W.gives_up work.now)) }
{
    let capacity = plan.limits.capacity as usize;
    let passes = usize::from(plan.config.nodes) + 1;
    let (ether, mut passes) = Ether::<S, A>::open(plan.alloc, &plan.config, capacity, passes)?;
    let Some(starter) = passes.pop() else {
        unreachable!()
    };
    play_at::<S, Brand, A, R, G, W>(plan, &ether, starter, passes, work)
}

/// Runs the work of each node in a thread of its own, over one shared memory, until all have done theirs, or the session
/// stands still [1, 2, 17, 21]. Each node keeps these lists of its own past, which the report has.
///
/// Where all have done theirs it gives the report that [`ivy_own::run_with_keeping`] gives. Where it stands still, all that
/// was sent was delivered, and no node's next turn does anything; each work has ended, by its own answers, or has a call in
/// progress, which is an await of a count that is too low. That it says so wherever a session stands still is only tested.
/// A work that looks at a word again and again makes calls, so it does not stand still.
pub fn run_watching<A, R, G, W>(
    rt: &R,
    alloc: A,
    config: Config,
    work: &W,
    limits: Limits,
    gate: &G,
    keep: Keep,
) -> Result<Watched<W::Out, A>, OwnFault>
where
    A: Allocator + Copy + Send + Sync,
    R: Threads + Wait + Sync,
    G: Gate,
    W: Work + Sync,
    ensures report { IfOk result (λ watched. MatchResult watched (λ report. IsOwnReport config Opening.Configured (W.done work.now) report.nodes report.outs.items) (λ s. IsOwnStandstill config Opening.Configured (W.done work.now) s.nodes s.outs.items)) }
    ensures bad { IsErrOf result (OwnFault.Session Fault.BadConfig) ↔ ¬ (IsConfig config × AreLimits limits) }
    ensures keep { IfOk result (λ watched. MatchResult watched (λ report. AllKeep keep report.nodes) (λ s. AllKeepSoFar keep s.nodes)) }
    ensures fault { IfErr result (IsOwnFault config.nodes (W.gives_up work.now)) }
{
    run_watching_opening(
        rt,
        alloc,
        config,
        work,
        limits,
        gate,
        keep,
        Opening::Configured,
    )
}

/// The same, of nodes that begin so: by the manager that the configuration names, or by steady hints [1, 2, 17, 21].
pub fn run_watching_opening<A, R, G, W>(
    rt: &R,
    alloc: A,
    config: Config,
    work: &W,
    limits: Limits,
    gate: &G,
    keep: Keep,
    opening: Opening,
) -> Result<Watched<W::Out, A>, OwnFault>
where
    A: Allocator + Copy + Send + Sync,
    R: Threads + Wait + Sync,
    G: Gate,
    W: Work + Sync,
    ensures report { IfOk result (λ watched. MatchResult watched (λ report. IsOwnReport config opening (W.done work.now) report.nodes report.outs.items) (λ s. IsOwnStandstill config opening (W.done work.now) s.nodes s.outs.items)) }
    ensures bad { IsErrOf result (OwnFault.Session Fault.BadConfig) ↔ ¬ (IsConfig config × AreLimits limits) }
    ensures keep { IfOk result (λ watched. MatchResult watched (λ report. AllKeep keep report.nodes) (λ s. AllKeepSoFar keep s.nodes)) }
    ensures fault { IfErr result (IsOwnFault config.nodes (W.gives_up work.now)) }
{
    if config.check_wide().is_err() || !limits.are_valid() {
        return Err(OwnFault::Session(Fault::BadConfig));
    }
    let plan = Plan {
        rt,
        alloc,
        config,
        opening,
        limits,
        gate,
        keep,
    };
    play::<Brand, A, R, G, W>(&plan, work)
}
