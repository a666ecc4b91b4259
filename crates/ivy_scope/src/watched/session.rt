//! Watched sessions.
ghost use Rattle.std.specs.Prelude.{◌≡◌, ◌↔◌, ◌<◌, ◌+◌, All, IsErrOf, IfOk, IfErr, OnOk, length, vec_len};
ghost use Rattle.ivy_model.specs.stated.Config.{IsConfig, IsNarrow};
ghost use Rattle.ivy_session.specs.Faults.{IsSessionFault};
ghost use Rattle.ivy_workers.specs.SessionLimits.{AreLimits};
ghost use Rattle.ivy_workers.specs.Stops.{IsStop};
ghost use Rattle.ivy_ether.specs.Views.{beginner};
ghost use Rattle.ivy_ether.specs.EtherViews.{IsNewcomer};
ghost use Rattle.ivy_scope.specs.Played.{IsPlayed};
ghost use Rattle.ivy_standstill.specs.Ends.{HaveEnded, IsStandstill, AreSettledSoFar};
ghost use Rattle.ivy_standstill.specs.SoFar.{AllKeepSoFar, AreUnblockedSoFar, IsReportSoFar};

use crate::watched::close::collect;
use crate::watched::seat::Watched;
use crate::watched::watch::{Watch, WatchTerms};
use ivy_ether::{Ether, Pass, Setup, Wired};
use ivy_model::{CANNOT_HAPPEN, Config, Fault};
use ivy_program::Program;
use ivy_seating::{Home, Homed, Plan, seat_all};
use ivy_session::{are_written, lay, run_workers};
use ivy_standstill::{End, Notes, ReportSoFar};
use std::alloc::{AllocError, Allocator};
use std::marker::Brand;
use std::sync::{Mutex, Wait};
use std::thread::Threads;

/// Each seat with what is noted of it [1].
fn watch_all<'e, 'n, 'r, 'w, S, H, A, R, W>(
    alloc: A,
    seats: Vec<Mutex<Homed<'e, S, H, A>>, A>,
    notes: &'n Notes<'r, R, A>,
    watch: &'w W,
) -> Result<Vec<Mutex<Watched<'e, 'n, 'r, 'w, S, H, A, R, W>>, A>, AllocError>
where
    S: Setup,
    H: Home,
    A: Allocator + Copy,
    R: Wait,
    W: Watch,
{
    let mut watched = Vec::new(alloc);
    let mut node = 0u8;
    for seat in seats {
        let seat = Watched::new(seat.into_inner(), node, notes, watch);
        watched.push(Mutex::new(seat))?;
        node = node.saturating_add(1);
    }
    Ok(watched)
}

/// Looks in the report whether the session ended so, and hands it out where it did [1, 17, 21].
fn look_again<A: Allocator + Copy>(
    report: ReportSoFar<A>,
    end: End,
) -> Result<ReportSoFar<A>, Fault>
    ensures same { IfOk result (λ looked. looked ≡ report) }
    ensures ended { IfOk result (λ looked. end ≡ End.Programs → HaveEnded looked) }
    ensures still { IfOk result (λ looked. end ≡ End.Standstill → IsStandstill looked) }
    ensures stop { IfErr result IsStop }
{
    match end {
        End::Watch => Ok(report),
        End::Turns => Ok(report),
        End::Programs if report.have_ended() => Ok(report),
        End::Standstill => report.at_standstill(),
        End::Programs => Err(CANNOT_HAPPEN),
    }
}

/// Runs the workers of seated nodes, and takes what these came to [1, 17, 21].
fn play_seats<S, H, A, R, W>(
    terms: &WatchTerms<'_, '_, A, R, W>,
    ether: &Ether<S, A>,
    starter: Pass<Wired<A>>,
    seats: Vec<Mutex<Homed<'_, S, H, A>>, A>,
    nodes: usize,
) -> Result<(ReportSoFar<A>, End), Fault>
where
    S: Setup + Send + Sync,
    H: Home + Send + Sync,
    A: Allocator + Copy + Send + Sync,
    R: Threads + Wait + Sync,
    W: Watch,
    requires limits { IsConfig S.config }
    requires each { length S.programs ≡ S.config.nodes }
    requires nodes { nodes ≡ length S.programs }
    requires home { ether.now ≡ H.ether }
    requires starter { starter.ether ≡ ether.now }
    ensures played { IfOk result (IsPlayed S.config S.opened S.programs terms.now.keep) }
    ensures stop { IfErr result IsStop }
{
    let rt = terms.rt;
    let alloc = terms.alloc;
    let notes = Notes::new(rt, alloc, nodes)?;
    let seats = watch_all(alloc, seats, &notes, terms.watch)?;
    let end = notes.end_of(run_workers(rt, alloc, &seats, terms.limits, terms.watch))?;
    if let Some(first) = seats.first() {
        first.lock(rt).drain(rt, terms.limits.capacity);
    }
    let report = collect(alloc, ether, starter, seats, nodes, terms.keep)?;
    let looked = look_again(report, end)?;
    Ok((looked, end))
}

/// Seats the nodes at their ether, runs their workers, and takes what they came to [1, 17, 21].
fn play_at<S, H, A, R, W>(
    terms: &WatchTerms<'_, '_, A, R, W>,
    config: &Config,
    ether: &Ether<S, A>,
    starter: Pass<Wired<A>>,
    passes: Vec<Pass<Wired<A>>, A>,
    programs: Vec<Program<A>, A>,
) -> Result<(ReportSoFar<A>, End), Fault>
where
    S: Setup + Send + Sync,
    H: Home + Send + Sync,
    A: Allocator + Copy + Send + Sync,
    R: Threads + Wait + Sync,
    W: Watch,
    requires config { config.now ≡ S.config }
    requires opened { terms.now.opening ≡ S.opened }
    requires limits { IsConfig config.now }
    requires programs { programs.items ≡ S.programs }
    requires each { length programs.items ≡ config.now.nodes }
    requires home { ether.now ≡ H.ether }
    requires starter { (starter.ether ≡ ether.now) × (starter.known ≡ beginner) }
    requires passes { All (IsNewcomer ether.now) passes.items }
    requires enough { vec_len passes ≡ length programs.items }
    ensures played { IfOk result (IsPlayed S.config S.opened S.programs terms.now.keep) }
    ensures stop { IfErr result IsStop }
{
    let nodes = programs.len();
    let mut starter = starter;
    let plan = Plan {
        rt: terms.rt,
        alloc: terms.alloc,
        config: *config,
        opening: terms.opening,
        limits: terms.limits,
        gate: terms.watch,
        keep: terms.keep,
    };
    let seats = seat_all::<S, H, A, R, W>(&plan, ether, &mut starter, passes, programs)?;
    play_seats(terms, ether, starter, seats, nodes)
}

/// Lays the ether, and runs the programs of the nodes there, which begin so [1, 17, 21].
fn play<S, A, R, W>(
    terms: &WatchTerms<'_, '_, A, R, W>,
    config: &Config,
    programs: Vec<Program<A>, A>,
) -> Result<(ReportSoFar<A>, End), Fault>
where
    S: Setup + Send + Sync,
    A: Allocator + Copy + Send + Sync,
    R: Threads + Wait + Sync,
    W: Watch,
    requires config { config.now ≡ S.config }
    requires opened { terms.now.opening ≡ S.opened }
    requires limits { IsConfig config.now }
    requires programs { programs.items ≡ S.programs }
    requires each { length programs.items ≡ config.now.nodes }
    requires capacity { 0 < terms.now.limits.capacity }
    ensures played { IfOk result (IsPlayed S.config S.opened S.programs terms.now.keep) }
    ensures stop { IfErr result IsStop }
{
    let (ether, mut passes) = lay::<S, A>(terms.alloc, config, &programs, terms.limits)?;
    let Some(starter) = passes.pop() else {
        unreachable!()
    };
    play_at::<S, Brand, A, R, W>(terms, config, &ether, starter, passes, programs)
}

/// Runs the programs, one for each node, and tells the watch of each reply, until all have ended, the watch lets the
/// session go on no further, it stands still, or a worker made as many turns as it may [1, 2, 17]. It says which of these
/// it was, and what the nodes came to. Each node keeps these lists of its past, which the report has. 21 only where not
/// all of that could be gathered.
///
/// Where it says that all programs have ended, they have. Where it says that it stands still, one has not, all that was
/// sent was delivered, and no node's next turn does anything. So each call in progress there is an await of a count that is
/// too low. That a session ends, and that it says so wherever it could, is only tested.
pub fn run_watched<A, R, W>(
    terms: &WatchTerms<'_, '_, A, R, W>,
    config: Config,
    programs: Vec<Program<A>, A>,
) -> Result<(ReportSoFar<A>, End), Fault>
where
    A: Allocator + Copy + Send + Sync,
    R: Threads + Wait + Sync,
    W: Watch,
    ensures report { IfOk result (λ r. IsReportSoFar config terms.now.opening programs.items r.0) }
    ensures bad { IsErrOf result Fault.BadConfig ↔ ¬ (IsNarrow config × (length programs.items ≡ config.nodes) × AreLimits terms.now.limits) }
    ensures keep { IfOk result (λ r. AllKeepSoFar terms.now.keep r.0) }
    ensures ended { IfOk result (λ r. r.1 ≡ End.Programs → HaveEnded r.0) }
    ensures still { IfOk result (λ r. r.1 ≡ End.Standstill → IsStandstill r.0) }
    ensures unblocked { IfOk result (λ r. r.1 ≡ End.Standstill → AreUnblockedSoFar config r.0) }
    ensures settled { IfOk result (λ r. r.1 ≡ End.Standstill → AreSettledSoFar config r.0) }
    ensures fault { IfErr result IsSessionFault }
{
    config.check()?;
    if programs.len() != usize::from(config.nodes) || !terms.limits.are_valid() {
        return Err(Fault::BadConfig);
    }
    // for the proof: each program is written down
    are_written(&programs);
    play::<Brand, A, R, W>(terms, &config, programs)
}
