//! The report of a session, of what its sites told.
ghost use Rattle.std.specs.Prelude.{◌≡◌, ◌≤◌, [], IfOk, IfErr, length, vec_len, vec_capacity};
ghost use Rattle.ivy_model.specs.stated.Config.{IsConfig};
ghost use Rattle.ivy_seating.specs.Reports.{IsHandedReport, AllKeep};

use ivy_ether::{Ether, Pass, Setup, Wired};
use ivy_model::Fault;
use ivy_seating::{Home, Homed, Keep, Report, Site, close_seats};
use std::alloc::Allocator;
use std::sync::Mutex;

/// Takes the reports of so many nodes from their sites, which keep these lists, and hands out what they tell together
/// [21]. The sites go into an empty list that has a place for each.
pub(crate) fn collect<S: Setup, H: Home, A: Allocator + Copy>(
    ether: &Ether<S, A>,
    starter: Pass<Wired<A>>,
    seats: Vec<Mutex<Homed<'_, S, H, A>>, A>,
    empty: Vec<Site<A>, A>,
    nodes: usize,
    keep: Keep,
) -> Result<Report<A>, Fault>
    requires limits { IsConfig S.config }
    requires each { length S.programs ≡ S.config.nodes }
    requires nodes { nodes ≡ length S.programs }
    requires home { ether.now ≡ H.ether }
    requires starter { starter.ether ≡ ether.now }
    requires empty { empty.items ≡ [] }
    requires places { vec_len seats ≤ vec_capacity empty }
    ensures report { IfOk result (λ report. IsHandedReport S.config S.opened S.programs report) }
    ensures keep { IfOk result (AllKeep keep) }
    ensures limit { IfErr result (λ fault. fault ≡ Fault.TurnLimit) }
{
    let mut starter = starter;
    let report = close_seats(ether, &mut starter, seats, empty, keep)?;
    if report.nodes() != nodes as u64 {
        return Err(Fault::TurnLimit);
    }
    ether.learn(&mut starter);
    Ok(report)
}
