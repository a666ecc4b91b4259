//! Sessions of own code.
ghost use Rattle.std.specs.Prelude.{◌≡◌, ◌↔◌, ◌<◌, ℕ, true, Some, All, IsErrOf, IfOk, IfErr, slice_get, vec_len};
ghost use Rattle.ivy_model.specs.stated.Config.{IsConfig};
ghost use Rattle.ivy_ether.specs.Views.{beginner};
ghost use Rattle.ivy_ether.specs.EtherViews.{IsNewcomer};
ghost use Rattle.ivy_workers.specs.SessionLimits.{AreLimits};
ghost use Rattle.ivy_workers.specs.Stops.{IsStop};
ghost use Rattle.ivy_seating.specs.Reports.{AllKeep};
ghost use Rattle.ivy_own.specs.Ended.{AreFresh, HasEnded};
ghost use Rattle.ivy_own.specs.Faults.{IsOwnFault, IsOwnStop};
ghost use Rattle.ivy_own.specs.Reports.{IsOwnReport, all_open};

use crate::fault::OwnFault;
use crate::joined::{Ended, first_given_up, take_ended};
use crate::owned::{OwnSeat, Owned};
use crate::places::{Places, WorkedPlaces, close_all, place_all};
use crate::report::OwnReport;
use crate::workers::run_crew;
use crate::{Half, Naming, Opened, Tie};
use ivy_calls::{Answer, Work};
use ivy_ether::{Ether, Opening, Pass, Setup, Wired};
use ivy_model::{Config, Fault};
use ivy_seating::{Home, Keep, Plan, Report};
use ivy_workers::{Crew, Gate, Limits, Shared};
use std::alloc::Allocator;
use std::marker::Brand;
use std::sync::{Mutex, Wait};
use std::thread::Threads;

/// Runs the workers of all nodes [1, 17, 21], and gives what their works gave.
fn run_workers<T, J, A, R, G, W>(
    plan: &Plan<'_, '_, A, R, G>,
    tie: &Tie<Answer, J, A>,
    work: &W,
    seats: &[Mutex<T>],
    mines: Vec<Half<Answer, J>, A>,
) -> Result<Vec<Ended<W::Out, J>, A>, OwnFault>
where
    T: OwnSeat<J, A> + Send,
    J: Naming + Send + Sync,
    A: Allocator + Copy + Send + Sync,
    R: Threads + Wait + Sync,
    G: Gate,
    W: Work + Sync,
    requires fresh { AreFresh mines.items }
    requires few { vec_len mines < 256 }
    ensures all { IfOk result (λ all. vec_len all ≡ vec_len mines) }
    ensures done { IfOk result (λ all. (i : ℕ) (e : _) → slice_get all.items i ≡ Some e → HasEnded (W.done work.now) i e.mine e.out) }
    ensures fault { IfErr result (IsOwnStop (vec_len mines) (W.gives_up work.now)) }
{
    let shared = Shared::new(plan.rt, plan.alloc, seats.len(), plan.limits)?;
    let crew = Crew {
        rt: plan.rt,
        seats,
        gate: plan.gate,
        shared: &shared,
        limits: plan.limits,
    };
    let joined = run_crew(&crew, plan.alloc, tie, work, mines);
    let stop = shared.into_stop();
    let all = joined?;
    if let Some(given_up) = first_given_up(work, &all) {
        return Err(given_up);
    }
    if let Some(fault) = stop {
        return Err(OwnFault::Session(fault));
    }
    let all = take_ended(plan.alloc, work, all)?;
    Ok(all)
}

/// Closes the nodes, and hands out what their sites tell together, with what their works gave [1, 21].
pub fn collect<S: Setup, H: Home, J: Naming, A: Allocator + Copy, R, G, W: Work>(
    plan: &Plan<'_, '_, A, R, G>,
    ether: &Ether<S, A>,
    starter: Pass<Wired<A>>,
    tie: &Tie<Answer, J, A>,
    work: &W,
    worked: WorkedPlaces<'_, S, H, J, A, W::Out>,
) -> Result<OwnReport<W::Out, A>, Fault>
    requires limits { IsConfig S.config }
    requires programs { S.programs ≡ all_open S.config }
    requires home { ether.now ≡ H.ether }
    requires starter { starter.ether ≡ ether.now }
    requires nodes { vec_len worked.all ≡ S.config.nodes }
    requires done { (i : ℕ) (e : _) → slice_get worked.all.items i ≡ Some e → HasEnded (W.done work.now) i e.mine e.out }
    ensures report { IfOk result (λ report. IsOwnReport S.config S.opened (W.done work.now) report.nodes report.outs.items) }
    ensures keep { IfOk result (λ report. AllKeep plan.now.keep report.nodes) }
    ensures stop { IfErr result IsStop }
{
    let mut starter = starter;
    let (sites, outs) = close_all(plan, ether, &mut starter, tie, work, worked)?;
    let nodes = Report::new(sites);
    ether.learn(&mut starter);
    Ok(OwnReport { nodes, outs })
}

/// Seats the nodes at their ether, runs their workers, and closes them [1, 17, 21].
fn play_tied<S, H, J, A, R, G, W>(
    plan: &Plan<'_, '_, A, R, G>,
    ether: &Ether<S, A>,
    opened: Opened<Answer, A>,
    starter: Pass<Wired<A>>,
    passes: Vec<Pass<Wired<A>>, A>,
    work: &W,
) -> Result<OwnReport<W::Out, A>, OwnFault>
where
    S: Setup + Send + Sync,
    H: Home + Send + Sync,
    J: Naming + Send + Sync,
    A: Allocator + Copy + Send + Sync,
    R: Threads + Wait + Sync,
    G: Gate,
    W: Work + Sync,
    requires config { plan.now.config ≡ S.config }
    requires opened { plan.now.opening ≡ S.opened }
    requires limits { IsConfig plan.now.config }
    requires programs { S.programs ≡ all_open S.config }
    requires home { ether.now ≡ H.ether }
    requires named { opened ≡ J.table }
    requires starter { (starter.ether ≡ ether.now) × (starter.known ≡ beginner) }
    requires passes { All (IsNewcomer ether.now) passes.items }
    requires enough { vec_len passes ≡ plan.now.config.nodes }
    ensures report { IfOk result (λ report. IsOwnReport S.config S.opened (W.done work.now) report.nodes report.outs.items) }
    ensures keep { IfOk result (λ report. AllKeep plan.now.keep report.nodes) }
    ensures fault { IfErr result (IsOwnStop S.config.nodes (W.gives_up work.now)) }
{
    let (tie, mut lists) = opened.named::<J>();
    let mut starter = starter;
    let Places { seats, mines } = place_all::<S, H, J, A, R, G>(
        plan,
        ether,
        &tie,
        &mut lists,
        &mut starter,
        passes,
    )?;
    let all = run_workers(plan, &tie, work, &seats, mines)?;
    if let Some(first) = seats.first() {
        first.lock(plan.rt).drain(plan.rt, plan.limits.capacity);
    }
    let worked = WorkedPlaces { seats, all };
    let report = collect(plan, ether, starter, &tie, work, worked)?;
    Ok(report)
}

/// Begins the lists of the nodes' answers, and runs the works of the nodes at their ether [1, 17, 21].
fn play_at<S, H, A, R, G, W>(
    plan: &Plan<'_, '_, A, R, G>,
    ether: &Ether<S, A>,
    starter: Pass<Wired<A>>,
    passes: Vec<Pass<Wired<A>>, A>,
    work: &W,
) -> Result<OwnReport<W::Out, A>, OwnFault>
where
    S: Setup + Send + Sync,
    H: Home + Send + Sync,
    A: Allocator + Copy + Send + Sync,
    R: Threads + Wait + Sync,
    G: Gate,
    W: Work + Sync,
    requires config { plan.now.config ≡ S.config }
    requires opened { plan.now.opening ≡ S.opened }
    requires limits { IsConfig plan.now.config }
    requires programs { S.programs ≡ all_open S.config }
    requires home { ether.now ≡ H.ether }
    requires starter { (starter.ether ≡ ether.now) × (starter.known ≡ beginner) }
    requires passes { All (IsNewcomer ether.now) passes.items }
    requires enough { vec_len passes ≡ plan.now.config.nodes }
    ensures report { IfOk result (λ report. IsOwnReport S.config S.opened (W.done work.now) report.nodes report.outs.items) }
    ensures keep { IfOk result (λ report. AllKeep plan.now.keep report.nodes) }
    ensures fault { IfErr result (IsOwnStop S.config.nodes (W.gives_up work.now)) }
{
    let Ok(opened) = Opened::new(plan.alloc) else {
        return Err(OwnFault::Session(Fault::Memory));
    };
    play_tied::<S, H, Brand, A, R, G, W>(plan, ether, opened, starter, passes, work)
}

/// Lays the ether, and runs the works of the nodes there, which begin so [1, 17, 21].
fn play<S, A, R, G, W>(
    plan: &Plan<'_, '_, A, R, G>,
    work: &W,
) -> Result<OwnReport<W::Out, A>, OwnFault>
where
    S: Setup + Send + Sync,
    A: Allocator + Copy + Send + Sync,
    R: Threads + Wait + Sync,
    G: Gate,
    W: Work + Sync,
    requires config { plan.now.config ≡ S.config }
    requires opened { plan.now.opening ≡ S.opened }
    requires limits { IsConfig plan.now.config }
    requires programs { S.programs ≡ all_open S.config }
    requires capacity { 0 < plan.now.limits.capacity }
    ensures report { IfOk result (λ report. IsOwnReport S.config S.opened (W.done work.now) report.nodes report.outs.items) }
    ensures keep { IfOk result (λ report. AllKeep plan.now.keep report.nodes) }
    ensures fault { IfErr result (IsOwnStop S.config.nodes (W.gives_up work.now)) }
{
    let capacity = plan.limits.capacity as usize;
    let passes = usize::from(plan.config.nodes) + 1;
    let (ether, mut passes) = Ether::<S, A>::open(plan.alloc, &plan.config, capacity, passes)?;
    let Some(starter) = passes.pop() else {
        unreachable!()
    };
    play_at::<S, Brand, A, R, G, W>(plan, &ether, starter, passes, work)
}

/// Runs the work of each node in a thread of its own, over one shared memory, until all have done theirs
/// [1, 2, 17, 21]. The report has what each gave.
///
/// By its own answers, which are its part of an order that one flat memory makes, each node has done what the work says.
/// Where the work of a node gives up the session ends, and the fault names that node and its fault: one with which the work
/// says that it gives up there. It is 2 exactly where the configuration is out of the wide limits, or a limit of the run is
/// out of its bounds.
pub fn run_with<A, R, G, W>(
    rt: &R,
    alloc: A,
    config: Config,
    work: &W,
    limits: Limits,
    gate: &G,
) -> Result<OwnReport<W::Out, A>, OwnFault>
where
    A: Allocator + Copy + Send + Sync,
    R: Threads + Wait + Sync,
    G: Gate,
    W: Work + Sync,
    ensures report { IfOk result (λ report. IsOwnReport config Opening.Configured (W.done work.now) report.nodes report.outs.items) }
    ensures bad { IsErrOf result (OwnFault.Session Fault.BadConfig) ↔ ¬ (IsConfig config × AreLimits limits) }
    ensures keep { IfOk result (λ report. AllKeep Keep.Nothing report.nodes) }
    ensures fault { IfErr result (IsOwnFault config.nodes (W.gives_up work.now)) }
{
    run_with_keeping(rt, alloc, config, work, limits, gate, Keep::Nothing)
}

/// The same, where each node keeps these lists of its own past, which the report has [1, 2, 17, 21].
pub fn run_with_keeping<A, R, G, W>(
    rt: &R,
    alloc: A,
    config: Config,
    work: &W,
    limits: Limits,
    gate: &G,
    keep: Keep,
) -> Result<OwnReport<W::Out, A>, OwnFault>
where
    A: Allocator + Copy + Send + Sync,
    R: Threads + Wait + Sync,
    G: Gate,
    W: Work + Sync,
    ensures report { IfOk result (λ report. IsOwnReport config Opening.Configured (W.done work.now) report.nodes report.outs.items) }
    ensures bad { IsErrOf result (OwnFault.Session Fault.BadConfig) ↔ ¬ (IsConfig config × AreLimits limits) }
    ensures keep { IfOk result (λ report. AllKeep keep report.nodes) }
    ensures fault { IfErr result (IsOwnFault config.nodes (W.gives_up work.now)) }
{
    run_with_opening(
        rt,
        alloc,
        config,
        work,
        limits,
        gate,
        keep,
        Opening::Configured,
    )
}

/// The same, of nodes that begin so: by the manager that the configuration names, or by steady hints [1, 2, 17, 21].
pub fn run_with_opening<A, R, G, W>(
    rt: &R,
    alloc: A,
    config: Config,
    work: &W,
    limits: Limits,
    gate: &G,
    keep: Keep,
    opening: Opening,
) -> Result<OwnReport<W::Out, A>, OwnFault>
where
    A: Allocator + Copy + Send + Sync,
    R: Threads + Wait + Sync,
    G: Gate,
    W: Work + Sync,
    ensures report { IfOk result (λ report. IsOwnReport config opening (W.done work.now) report.nodes report.outs.items) }
    ensures bad { IsErrOf result (OwnFault.Session Fault.BadConfig) ↔ ¬ (IsConfig config × AreLimits limits) }
    ensures keep { IfOk result (λ report. AllKeep keep report.nodes) }
    ensures fault { IfErr result (IsOwnFault config.nodes (W.gives_up work.now)) }
{
    if config.check_wide().is_err() || !limits.are_valid() {
        return Err(OwnFault::Session(Fault::BadConfig));
    }
    let plan = Plan {
        rt,
        alloc,
        config,
        opening,
        limits,
        gate,
        keep,
    };
    play::<Brand, A, R, G, W>(&plan, work)
}
