//! Sessions.
ghost use Rattle.std.specs.Prelude.{◌≡◌, ◌↔◌, ◌<◌, ◌+◌, All, IsErrOf, IfOk, IfErr, length, vec_len};
ghost use Rattle.ivy_model.specs.stated.Config.{IsConfig, IsNarrow};
ghost use Rattle.ivy_ether.specs.Views.{beginner};
ghost use Rattle.ivy_ether.specs.EtherViews.{AreFresh, room_of};
ghost use Rattle.ivy_workers.specs.Stops.{IsStop};
ghost use Rattle.ivy_program.specs.Programs.{IsWritten};
ghost use Rattle.ivy_ether.specs.EtherViews.{IsNewcomer};
ghost use Rattle.ivy_seating.specs.Reports.{IsReport, IsHandedReport, AllKeep};
ghost use Rattle.ivy_session.specs.Faults.{IsSessionFault};
ghost use Rattle.ivy_workers.specs.SessionLimits.{AreLimits};

use crate::report::collect;
use crate::workers::run_workers;
use ivy_ether::{Ether, Opening, Pass, Setup, Wired};
use ivy_model::{Config, Fault};
use ivy_program::Program;
use ivy_seating::{Home, Keep, Plan, Report, seat_all};
use ivy_workers::{Gate, Limits};
use std::alloc::Allocator;
use std::marker::Brand;
use std::sync::Wait;
use std::thread::Threads;

/// Runs the programs of all nodes in threads.
pub struct Session;

/// The ether of a session, which holds as many items as its limits say, with a pass for each node, and one for the
/// starter [1].
pub fn lay<S: Setup, A: Allocator + Copy>(
    alloc: A,
    config: &Config,
    programs: &[Program<A>],
    limits: Limits,
) -> Result<(Ether<S, A>, Vec<Pass<Wired<A>>, A>), Fault>
    requires config { config.now ≡ S.config }
    requires programs { programs.now ≡ S.programs }
    requires capacity { 0 < limits.capacity }
    ensures fresh { IfOk result (λ r. AreFresh r.0 r.1.items) }
    ensures each { IfOk result (λ r. vec_len r.1 ≡ length programs.now + 1) }
    ensures room { IfOk result (λ r. room_of r.0 ≡ limits.capacity) }
    ensures stop { IfErr result IsStop }
{
    let capacity = limits.capacity as usize;
    let passes = programs.len() + 1;
    Ether::<S, A>::new(alloc, config, programs, capacity, passes)
}

/// Seats the nodes at their ether, runs their workers, and closes them [1, 17, 21].
fn play_at<S, H, A, R, G>(
    plan: &Plan<'_, '_, A, R, G>,
    ether: &Ether<S, A>,
    starter: Pass<Wired<A>>,
    passes: Vec<Pass<Wired<A>>, A>,
    programs: Vec<Program<A>, A>,
) -> Result<Report<A>, Fault>
where
    S: Setup + Send + Sync,
    H: Home + Send + Sync,
    A: Allocator + Copy + Send + Sync,
    R: Threads + Wait + Sync,
    G: Gate,
    requires config { plan.now.config ≡ S.config }
    requires opened { plan.now.opening ≡ S.opened }
    requires limits { IsConfig plan.now.config }
    requires programs { programs.items ≡ S.programs }
    requires each { length programs.items ≡ plan.now.config.nodes }
    requires home { ether.now ≡ H.ether }
    requires starter { (starter.ether ≡ ether.now) × (starter.known ≡ beginner) }
    requires passes { All (IsNewcomer ether.now) passes.items }
    requires enough { vec_len passes ≡ length programs.items }
    ensures report { IfOk result (λ report. IsHandedReport S.config S.opened S.programs report) }
    ensures keep { IfOk result (AllKeep plan.now.keep) }
    ensures stop { IfErr result IsStop }
{
    let nodes = programs.len();
    let mut starter = starter;
    let seats = seat_all::<S, H, A, R, G>(plan, ether, &mut starter, passes, programs)?;
    let sites = Vec::with_capacity(plan.alloc, nodes)?;
    run_workers(plan.rt, plan.alloc, &seats, plan.limits, plan.gate)?;
    if let Some(first) = seats.first() {
        first
            .lock(plan.rt)
            .seated
            .drain(plan.rt, plan.limits.capacity);
    }
    collect(ether, starter, seats, sites, nodes, plan.keep)
}

/// Lays the ether, and runs the programs of the nodes there, which begin so [1, 17, 21].
fn play<S, A, R, G>(
    plan: &Plan<'_, '_, A, R, G>,
    programs: Vec<Program<A>, A>,
) -> Result<Report<A>, Fault>
where
    S: Setup + Send + Sync,
    A: Allocator + Copy + Send + Sync,
    R: Threads + Wait + Sync,
    G: Gate,
    requires config { plan.now.config ≡ S.config }
    requires opened { plan.now.opening ≡ S.opened }
    requires limits { IsConfig plan.now.config }
    requires programs { programs.items ≡ S.programs }
    requires each { length programs.items ≡ plan.now.config.nodes }
    requires capacity { 0 < plan.now.limits.capacity }
    ensures report { IfOk result (λ report. IsHandedReport S.config S.opened S.programs report) }
    ensures keep { IfOk result (AllKeep plan.now.keep) }
    ensures stop { IfErr result IsStop }
{
    let (ether, mut passes) = lay::<S, A>(plan.alloc, &plan.config, &programs, plan.limits)?;
    let Some(starter) = passes.pop() else {
        unreachable!()
    };
    play_at::<S, Brand, A, R, G>(plan, &ether, starter, passes, programs)
}

/// The programs are written down. It takes no memory.
pub fn are_written<A: Allocator + Copy>(programs: &[Program<A>])
    ensures { All IsWritten programs.now }
{
    for program in programs {
        // for the proof: what holds of every program: it is written down.
        let _ = program.instructions();
    }
}

impl Session {
    /// Runs the programs, one for each node, until all have ended [1, 2, 17, 21]. The report has all histories and events.
    ///
    /// It is 2 exactly where the configuration is out of the narrow limits, there are not as many programs as nodes, or a
    /// limit of the run is out of its bounds.
    pub fn run<A, R, G>(
        rt: &R,
        alloc: A,
        config: Config,
        programs: Vec<Program<A>, A>,
        limits: Limits,
        gate: &G,
    ) -> Result<Report<A>, Fault>
    where
        A: Allocator + Copy + Send + Sync,
        R: Threads + Wait + Sync,
        G: Gate,
        ensures report { IfOk result (λ report. IsReport config Opening.Configured programs.items report) }
        ensures bad { IsErrOf result Fault.BadConfig ↔ ¬ (IsNarrow config × (length programs.items ≡ config.nodes) × AreLimits limits) }
        ensures keep { IfOk result (AllKeep Keep.All) }
        ensures fault { IfErr result IsSessionFault }
    {
        Session::run_keeping(rt, alloc, config, programs, limits, gate, Keep::All)
    }

    /// Runs the programs, one for each node, until all have ended [1, 2, 17, 21]. Each node keeps these lists of its own
    /// past, which the report has; where it keeps nothing the report has the outputs alone, and what the session takes of
    /// memory does not grow with the calls.
    pub fn run_keeping<A, R, G>(
        rt: &R,
        alloc: A,
        config: Config,
        programs: Vec<Program<A>, A>,
        limits: Limits,
        gate: &G,
        keep: Keep,
    ) -> Result<Report<A>, Fault>
    where
        A: Allocator + Copy + Send + Sync,
        R: Threads + Wait + Sync,
        G: Gate,
        ensures report { IfOk result (λ report. IsReport config Opening.Configured programs.items report) }
        ensures bad { IsErrOf result Fault.BadConfig ↔ ¬ (IsNarrow config × (length programs.items ≡ config.nodes) × AreLimits limits) }
        ensures keep { IfOk result (AllKeep keep) }
        ensures fault { IfErr result IsSessionFault }
    {
        config.check()?;
        Session::run_wide(rt, alloc, config, programs, limits, gate, keep)
    }

    /// The same as [`Session::run_keeping`], with up to 65,536 pages [1, 2, 17, 21].
    ///
    /// It is 2 exactly where the configuration is out of the wide limits, there are not as many programs as nodes, or a
    /// limit of the run is out of its bounds.
    pub fn run_wide<A, R, G>(
        rt: &R,
        alloc: A,
        config: Config,
        programs: Vec<Program<A>, A>,
        limits: Limits,
        gate: &G,
        keep: Keep,
    ) -> Result<Report<A>, Fault>
    where
        A: Allocator + Copy + Send + Sync,
        R: Threads + Wait + Sync,
        G: Gate,
        ensures report { IfOk result (λ report. IsReport config Opening.Configured programs.items report) }
        ensures bad { IsErrOf result Fault.BadConfig ↔ ¬ (IsConfig config × (length programs.items ≡ config.nodes) × AreLimits limits) }
        ensures keep { IfOk result (AllKeep keep) }
        ensures fault { IfErr result IsSessionFault }
    {
        Session::run_opening(
            rt,
            alloc,
            config,
            programs,
            limits,
            gate,
            keep,
            Opening::Configured,
        )
    }

    /// The same, of nodes that begin so: by the manager that the configuration names, or by steady hints [1, 2, 17, 21].
    pub fn run_opening<A, R, G>(
        rt: &R,
        alloc: A,
        config: Config,
        programs: Vec<Program<A>, A>,
        limits: Limits,
        gate: &G,
        keep: Keep,
        opening: Opening,
    ) -> Result<Report<A>, Fault>
    where
        A: Allocator + Copy + Send + Sync,
        R: Threads + Wait + Sync,
        G: Gate,
        ensures report { IfOk result (λ report. IsReport config opening programs.items report) }
        ensures bad { IsErrOf result Fault.BadConfig ↔ ¬ (IsConfig config × (length programs.items ≡ config.nodes) × AreLimits limits) }
        ensures keep { IfOk result (AllKeep keep) }
        ensures fault { IfErr result IsSessionFault }
    {
        config.check_wide()?;
        if programs.len() != usize::from(config.nodes) || !limits.are_valid() {
            return Err(Fault::BadConfig);
        }
        are_written(&programs);
        let plan = Plan {
            rt,
            alloc,
            config,
            opening,
            limits,
            gate,
            keep,
        };
        play::<Brand, A, R, G>(&plan, programs)
    }
}
