//! How the nodes of a watched session are closed, whether their programs have ended or not.
ghost use Rattle.std.specs.Prelude.{◌≡◌, IfOk, IfErr, length};
ghost use Rattle.ivy_model.specs.stated.Config.{IsConfig};
ghost use Rattle.ivy_workers.specs.Stops.{IsStop};
ghost use Rattle.ivy_standstill.specs.SoFar.{AllKeepSoFar, IsHandedSoFar};
ghost use Rattle.ivy_standstill.specs.CollectedSoFar.{AreToldSoFar};

use crate::watched::seat::Watched;
use ivy_ether::{Ether, Pass, Setup, Wired};
use ivy_model::{CANNOT_HAPPEN, Fault};
use ivy_seating::{Home, Keep};
use ivy_standstill::{ReportSoFar, close_one};
use std::alloc::Allocator;
use std::sync::Mutex;

/// Closes all nodes, each of which keeps these lists, and hands out the report of their sites [1, 21].
fn close_all<S, H, A, R, W>(
    alloc: A,
    ether: &Ether<S, A>,
    starter: &mut Pass<Wired<A>>,
    seats: Vec<Mutex<Watched<'_, '_, '_, '_, S, H, A, R, W>>, A>,
    keep: Keep,
) -> Result<ReportSoFar<A>, Fault>
where
    S: Setup,
    H: Home,
    A: Allocator + Copy,
    requires home { ether.now ≡ H.ether }
    requires starter { starter.old.ether ≡ ether.now }
    ensures starter { starter.new.ether ≡ starter.old.ether }
    ensures told { IfOk result (λ report. AreToldSoFar S.config S.opened S.programs starter.new.known report) }
    ensures keep { IfOk result (AllKeepSoFar keep) }
    ensures stop { IfErr result IsStop }
{
    let mut sites = Vec::with_capacity(alloc, seats.len())?;
    let mut node = 0u8;
    for seat in seats {
        let site = close_one(ether, starter, seat.into_inner().into_homed(), node, keep)?;
        sites.push_reserved(site);
        let Some(next) = node.checked_add(1) else {
            return Err(CANNOT_HAPPEN);
        };
        node = next;
    }
    Ok(ReportSoFar::new(sites))
}

/// Takes what so many nodes came to from their sites, which keep these lists, and hands out what they tell together
/// [1, 21].
pub(crate) fn collect<S, H, A, R, W>(
    alloc: A,
    ether: &Ether<S, A>,
    starter: Pass<Wired<A>>,
    seats: Vec<Mutex<Watched<'_, '_, '_, '_, S, H, A, R, W>>, A>,
    nodes: usize,
    keep: Keep,
) -> Result<ReportSoFar<A>, Fault>
where
    S: Setup,
    H: Home,
    A: Allocator + Copy,
    requires limits { IsConfig S.config }
    requires each { length S.programs ≡ S.config.nodes }
    requires nodes { nodes ≡ length S.programs }
    requires home { ether.now ≡ H.ether }
    requires starter { starter.ether ≡ ether.now }
    ensures report { IfOk result (IsHandedSoFar S.config S.opened S.programs) }
    ensures keep { IfOk result (AllKeepSoFar keep) }
    ensures stop { IfErr result IsStop }
{
    let mut starter = starter;
    let report = close_all(alloc, ether, &mut starter, seats, keep)?;
    if report.nodes() != nodes as u64 {
        return Err(CANNOT_HAPPEN);
    }
    ether.learn(&mut starter);
    Ok(report)
}
