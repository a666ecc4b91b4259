//! How the sites of a session are seated, and how their reports are taken.
ghost use Rattle.std.specs.Prelude.{◌≡◌, ◌<◌, ◌≤◌, ◌+◌, true, Some, [], All, IfOk, IfErr, IsTrue, OnOk, length, vec_len, vec_capacity, slice_get};
ghost use Rattle.ivy_model.specs.stated.Config.{IsConfig};
ghost use Rattle.ivy_ether.specs.Rule.{times};
ghost use Rattle.ivy_ether.specs.Views.{beginner, with_issued};
ghost use Rattle.ivy_ether.specs.EtherViews.{IsNewcomer};
ghost use Rattle.ivy_workers.specs.Stops.{IsStop};
ghost use Rattle.ivy_seating.specs.Places.{IsSeated};
ghost use Rattle.ivy_seating.specs.Reports.{report_of, AllKeep};
ghost use Rattle.ivy_seating.specs.Collected.{TellsOf, AreTold};

use crate::homed::{Home, Homed};
use crate::plan::Plan;
use crate::report::Report;
use crate::seated::Seated;
use ivy_ether::{Ether, Pass, Setup, Wired};
use ivy_model::Fault;
use ivy_program::Program;
use ivy_site::{Keep, Site};
use std::alloc::Allocator;
use std::sync::{Mutex, Wait};

/// What ends a session where a seat, a node or the end of its program is not what the session itself made of it. No contract
/// of a thread says that it is, so it is asked for; no run has been seen to come here.
const NEVER_SEEN: Fault = Fault::TurnLimit;

/// Seats a node [1, 21]: its seat is issued and taken, and its site is made.
fn seat_one<'e, S: Setup, A: Allocator + Copy, R: Wait, G>(
    plan: &Plan<'_, '_, A, R, G>,
    ether: &'e Ether<S, A>,
    starter: &mut Pass<Wired<A>>,
    pass: Pass<Wired<A>>,
    node: u8,
    program: Program<A>,
) -> Result<Seated<'e, S, A>, Fault>
    requires config { plan.now.config ≡ S.config }
    requires opened { plan.now.opening ≡ S.opened }
    requires limits { IsConfig plan.now.config }
    requires each { length S.programs ≡ plan.now.config.nodes }
    requires there { slice_get S.programs node ≡ Some program }
    requires starter { (starter.old.ether ≡ ether.now) × (starter.old.known.starts ≡ true) }
    requires pass { IsNewcomer ether.now pass }
    requires node { node < length S.programs }
    requires new { times node starter.old.known.issued ≡ 0 }
    ensures starter { starter.new.ether ≡ starter.old.ether }
    ensures issued { IfOk result (λ _. starter.new.known ≡ with_issued starter.old.known node) }
    ensures ether { IfOk result (λ seated. seated.ether ≡ ether.now) }
    ensures stop { IfErr result IsStop }
{
    let mut pass = pass;
    if !ether.issue_seat(plan.rt, starter, node) {
        return Err(NEVER_SEEN);
    }
    let Some(found) = ether.take_seat(plan.rt, &mut pass) else {
        return Err(NEVER_SEEN);
    };
    if found != node {
        return Err(NEVER_SEEN);
    }
    let site = Site::opened(
        plan.alloc,
        &plan.config,
        node,
        plan.opening,
        program,
        plan.keep,
    )?;
    Ok(Seated::new(ether, site, pass))
}

/// Seats all nodes [1, 21], with a pass and a program for each. Each keeps the lists of its own past that the plan says.
pub fn seat_all<'e, S: Setup, H: Home, A: Allocator + Copy, R: Wait, G>(
    plan: &Plan<'_, '_, A, R, G>,
    ether: &'e Ether<S, A>,
    starter: &mut Pass<Wired<A>>,
    passes: Vec<Pass<Wired<A>>, A>,
    programs: Vec<Program<A>, A>,
) -> Result<Vec<Mutex<Homed<'e, S, H, A>>, A>, Fault>
    requires home { ether.now ≡ H.ether }
    requires config { plan.now.config ≡ S.config }
    requires opened { plan.now.opening ≡ S.opened }
    requires limits { IsConfig plan.now.config }
    requires programs { programs.items ≡ S.programs }
    requires each { length programs.items ≡ plan.now.config.nodes }
    requires starter { (starter.old.ether ≡ ether.now) × (starter.old.known ≡ beginner) }
    requires passes { All (IsNewcomer ether.now) passes.items }
    requires enough { vec_len passes ≡ length programs.items }
    ensures seats { IfOk result (λ seats. vec_len seats ≡ length programs.items) }
    ensures starter { starter.new.ether ≡ starter.old.ether }
    ensures starts { IfOk result (λ _. starter.new.known.starts ≡ true) }
    ensures stop { IfErr result IsStop }
{
    let mut passes = passes;
    let mut seats = Vec::new(plan.alloc);
    let mut node = 0u8;
    for program in programs {
        let Some(pass) = passes.pop() else {
            unreachable!()
        };
        seats.reserve(1)?;
        let seated = seat_one(plan, ether, starter, pass, node, program)?;
        seats.push_reserved(Mutex::new(Homed::new(seated)));
        node += 1;
    }
    Ok(seats)
}

/// Takes in the pass of a site whose program has ended [21].
fn take_in<S: Setup, A: Allocator + Copy>(
    ether: &Ether<S, A>,
    starter: &mut Pass<Wired<A>>,
    site: &Site<A>,
    pass: Pass<Wired<A>>,
    node: u8,
) -> Result<(), Fault>
    requires starter { starter.old.ether ≡ ether.now }
    requires seated { IsSeated ether.now S.config S.opened S.programs site.now pass }
    ensures ether { starter.new.ether ≡ starter.old.ether }
    ensures told { OnOk result (TellsOf S.config S.opened S.programs starter.old.known node (report_of site.now) starter.new.known) }
    ensures limit { IfErr result (λ fault. fault ≡ Fault.TurnLimit) }
{
    if site.me() != node {
        return Err(NEVER_SEEN);
    }
    if !site.ended() {
        return Err(NEVER_SEEN);
    }
    ether.close(starter, pass, site.event_list());
    Ok(())
}

/// Whether a site keeps these lists of its own past.
fn is_keeping<A: Allocator + Copy>(site: &Site<A>, keep: Keep) -> bool
    ensures { IsTrue result → site.now.keep ≡ keep }
{
    site.keep() == keep
}

/// Closes a node that keeps these lists, and hands out its site [21].
pub fn close_seat<S: Setup, H: Home, A: Allocator + Copy>(
    ether: &Ether<S, A>,
    starter: &mut Pass<Wired<A>>,
    homed: Homed<'_, S, H, A>,
    node: u8,
    keep: Keep,
) -> Result<Site<A>, Fault>
    requires home { ether.now ≡ H.ether }
    requires starter { starter.old.ether ≡ ether.now }
    ensures site { IfOk result (λ site. site ≡ homed.entry.seated.site) }
    ensures ether { starter.new.ether ≡ starter.old.ether }
    ensures told { IfOk result (λ site. TellsOf S.config S.opened S.programs starter.old.known node (report_of site) starter.new.known) }
    ensures keep { IfOk result (λ site. site.keep ≡ keep) }
    ensures limit { IfErr result (λ fault. fault ≡ Fault.TurnLimit) }
{
    let seated = homed.into_seated();
    let (_, site, pass) = seated.into_parts();
    if !is_keeping(&site, keep) {
        return Err(NEVER_SEEN);
    }
    match take_in(ether, starter, &site, pass, node) {
        Ok(()) => Ok(site),
        Err(fault) => Err(fault),
    }
}

/// Closes all nodes, each of which keeps these lists, and hands out the report of their sites [21]. The sites go into an
/// empty list that has a place for each: no memory is asked for once the programs have ended.
pub fn close_seats<S: Setup, H: Home, A: Allocator + Copy>(
    ether: &Ether<S, A>,
    starter: &mut Pass<Wired<A>>,
    seats: Vec<Mutex<Homed<'_, S, H, A>>, A>,
    empty: Vec<Site<A>, A>,
    keep: Keep,
) -> Result<Report<A>, Fault>
    requires home { ether.now ≡ H.ether }
    requires starter { starter.old.ether ≡ ether.now }
    requires empty { empty.items ≡ [] }
    requires places { vec_len seats ≤ vec_capacity empty }
    ensures starter { starter.new.ether ≡ starter.old.ether }
    ensures told { IfOk result (λ report. AreTold S.config S.opened S.programs starter.new.known report) }
    ensures keep { IfOk result (AllKeep keep) }
    ensures limit { IfErr result (λ fault. fault ≡ Fault.TurnLimit) }
{
    let mut sites = empty;
    let mut node = 0u8;
    for seat in seats {
        let site = close_seat(ether, starter, seat.into_inner(), node, keep)?;
        sites.push_reserved(site);
        let Some(next) = node.checked_add(1) else {
            return Err(NEVER_SEEN);
        };
        node = next;
    }
    Ok(Report::new(sites))
}
