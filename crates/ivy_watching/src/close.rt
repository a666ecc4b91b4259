//! How the nodes of a session of own code are closed that stands still.
ghost use Rattle.std.specs.Prelude.{◌≡◌, ◌<◌, ℕ, Some, IfErr, IfOk, IfSome, MatchResult, map, slice_get, vec_len};
ghost use Rattle.ivy_calls.specs.Answers.{answers};
ghost use Rattle.ivy_model.specs.stated.Config.{IsConfig};
ghost use Rattle.ivy_workers.specs.Stops.{IsStop};
ghost use Rattle.ivy_own.specs.Ended.{HasEnded};
ghost use Rattle.ivy_own.specs.Faults.{StopsFor};
ghost use Rattle.ivy_own.specs.Reports.{all_open};
ghost use Rattle.ivy_standstill.specs.CollectedSoFar.{AreToldSoFar, TellsSoFar};
ghost use Rattle.ivy_standstill.specs.SoFar.{so_far_of, AllKeepSoFar};
ghost use Rattle.ivy_watching.specs.Standings.{AllStand, IsOwnStandstill, Stands};

use crate::report::OwnStandstill;
use ivy_calls::{Answer, Work};
use ivy_ether::{Ether, Pass, Setup, Wired};
use ivy_model::{CANNOT_HAPPEN, Fault};
use ivy_own::{Ended, GivenUp, Naming, Owned, Tie};
use ivy_seating::{Home, Homed, Plan, Site};
use ivy_standstill::{ReportSoFar, close_one};
use std::alloc::Allocator;
use std::sync::Mutex;

/// What the worker of a node gave.
pub(crate) type Given<W, J> = Result<Ended<<W as Work>::Out, J>, GivenUp>;

/// The seated site of a node, with what its work gave, where it gave something [21].
fn part_with<'e, S: Setup, H: Home, J: Naming, A: Allocator + Copy, W: Work>(
    owned: Owned<'e, S, H, J, A>,
    tie: &Tie<Answer, J, A>,
    work: &W,
    given: Given<W, J>,
    node: u8,
) -> Result<(Homed<'e, S, H, A>, Option<W::Out>), Fault>
    requires given { MatchResult given (λ ended. HasEnded (W.done work.now) node ended.mine ended.out) (StopsFor (W.gives_up work.now) node) }
    ensures done { IfOk result (λ r. IfSome r.1 (λ out. W.done work.now node (answers r.0.seated.site.node.core.history) out)) }
    ensures stop { IfErr result IsStop }
{
    let _ = work;
    match given {
        Ok(ended) => {
            let Ended { mine, out } = ended;
            let homed = owned.agree(tie, mine, node)?;
            Ok((homed, Some(out)))
        }
        Err(_) => Ok((owned.into_homed(), None)),
    }
}

/// What the work of a site gave, where it has ended and no call is in progress [21]. Else there is one.
fn stands<A: Allocator + Copy, W: Work>(
    site: &Site<A>,
    work: &W,
    out: Option<W::Out>,
    node: u8,
) -> Result<Option<W::Out>, Fault>
    requires done { IfSome out (λ out. W.done work.now node (answers site.now.node.core.history) out) }
    ensures stands { IfOk result (Stands (W.done work.now) node (so_far_of site.now)) }
    ensures stop { IfErr result IsStop }
{
    let _ = work;
    let _ = node;
    match (site.asked(), out) {
        (Some(_), _) => Ok(None),
        (None, Some(out)) => Ok(Some(out)),
        (None, None) => Err(CANNOT_HAPPEN),
    }
}

/// Closes a node, which keeps the lists that the plan says, and hands out its site, with what its work gave that has ended
/// [21].
fn close_node<S: Setup, H: Home, A: Allocator + Copy, R, G, W: Work>(
    plan: &Plan<'_, '_, A, R, G>,
    ether: &Ether<S, A>,
    starter: &mut Pass<Wired<A>>,
    work: &W,
    parted: (Homed<'_, S, H, A>, Option<W::Out>),
    node: u8,
) -> Result<(Site<A>, Option<W::Out>), Fault>
    requires home { ether.now ≡ H.ether }
    requires starter { starter.old.ether ≡ ether.now }
    requires done { IfSome parted.1 (λ out. W.done work.now node (answers parted.0.seated.site.node.core.history) out) }
    ensures starter { starter.new.ether ≡ starter.old.ether }
    ensures told { IfOk result (λ r. TellsSoFar S.config S.opened S.programs starter.old.known node (so_far_of r.0) starter.new.known) }
    ensures keep { IfOk result (λ r. r.0.keep ≡ plan.now.keep) }
    ensures stands { IfOk result (λ r. Stands (W.done work.now) node (so_far_of r.0) r.1) }
    ensures stop { IfErr result IsStop }
{
    let (homed, out) = parted;
    let site = close_one(ether, starter, homed, node, plan.keep)?;
    let out = stands(&site, work, out, node)?;
    Ok((site, out))
}

/// The places of the nodes where all workers have stopped, and what these gave.
#[derive(Drop)]
pub(crate) struct Stopped<'e, S: Setup, H: Home, J: Naming, A: Allocator, T> {
    pub(crate) seats: Vec<Mutex<Owned<'e, S, H, J, A>>, A>,
    pub(crate) all: Vec<Result<Ended<T, J>, GivenUp>, A>,
}

/// Closes all nodes, each of which keeps the lists that the plan says, and hands out their sites, with what the works gave
/// that have ended [1, 21].
fn close_all<S: Setup, H: Home, J: Naming, A: Allocator + Copy, R, G, W: Work>(
    plan: &Plan<'_, '_, A, R, G>,
    ether: &Ether<S, A>,
    starter: &mut Pass<Wired<A>>,
    tie: &Tie<Answer, J, A>,
    work: &W,
    stopped: Stopped<'_, S, H, J, A, W::Out>,
) -> Result<(Vec<Site<A>, A>, Vec<Option<W::Out>, A>), Fault>
    requires home { ether.now ≡ H.ether }
    requires starter { starter.old.ether ≡ ether.now }
    requires few { vec_len stopped.all < 256 }
    requires given { (i : ℕ) (r : _) → slice_get stopped.all.items i ≡ Some r → MatchResult r (λ ended. HasEnded (W.done work.now) i ended.mine ended.out) (StopsFor (W.gives_up work.now) i) }
    ensures starter { starter.new.ether ≡ starter.old.ether }
    ensures all { IfOk result (λ r. (vec_len r.0 ≡ vec_len stopped.entry.all) × (vec_len r.1 ≡ vec_len stopped.entry.all)) }
    ensures told { IfOk result (λ r. AreToldSoFar S.config S.opened S.programs starter.new.known (map so_far_of r.0.items)) }
    ensures keep { IfOk result (λ r. AllKeepSoFar plan.now.keep (map so_far_of r.0.items)) }
    ensures stand { IfOk result (λ r. AllStand (W.done work.now) (map so_far_of r.0.items) r.1.items) }
    ensures stop { IfErr result IsStop }
{
    let Stopped { seats, all } = stopped;
    let mut seats = seats.into_iter();
    let mut sites = Vec::with_capacity(plan.alloc, all.len())?;
    let mut outs = Vec::with_capacity(plan.alloc, all.len())?;
    let mut node = 0u8;
    for given in all {
        let Some(seat) = seats.next() else {
            return Err(CANNOT_HAPPEN);
        };
        let parted = part_with(seat.into_inner(), tie, work, given, node)?;
        let (site, out) = close_node(plan, ether, starter, work, parted, node)?;
        sites.push_reserved(site);
        outs.push_reserved(out);
        node = node.wrapping_add(1);
    }
    Ok((sites, outs))
}

/// Closes the nodes of a session that stands still, and hands out what their sites tell together, with what the works gave
/// that have ended [1, 17, 21].
pub(crate) fn collect_standing<S, H, J, A, R, G, W>(
    plan: &Plan<'_, '_, A, R, G>,
    ether: &Ether<S, A>,
    starter: Pass<Wired<A>>,
    tie: &Tie<Answer, J, A>,
    work: &W,
    stopped: Stopped<'_, S, H, J, A, W::Out>,
) -> Result<OwnStandstill<W::Out, A>, Fault>
where
    S: Setup,
    H: Home,
    J: Naming,
    A: Allocator + Copy,
    W: Work,
    requires limits { IsConfig S.config }
    requires programs { S.programs ≡ all_open S.config }
    requires home { ether.now ≡ H.ether }
    requires starter { starter.ether ≡ ether.now }
    requires nodes { vec_len stopped.all ≡ S.config.nodes }
    requires given { (i : ℕ) (r : _) → slice_get stopped.all.items i ≡ Some r → MatchResult r (λ ended. HasEnded (W.done work.now) i ended.mine ended.out) (StopsFor (W.gives_up work.now) i) }
    ensures report { IfOk result (λ s. IsOwnStandstill S.config S.opened (W.done work.now) s.nodes s.outs.items) }
    ensures keep { IfOk result (λ s. AllKeepSoFar plan.now.keep s.nodes) }
    ensures stop { IfErr result IsStop }
{
    let mut starter = starter;
    let (sites, outs) = close_all(plan, ether, &mut starter, tie, work, stopped)?;
    let report = ReportSoFar::new(sites);
    ether.learn(&mut starter);
    let nodes = report.at_standstill()?;
    Ok(OwnStandstill { nodes, outs })
}
