//! How a node of a session is closed, whether its program has ended or not.
ghost use Rattle.std.specs.Prelude.{◌≡◌, IsTrue, IfOk, IfErr, OnOk};
ghost use Rattle.ivy_workers.specs.Stops.{IsStop};
ghost use Rattle.ivy_seating.specs.Places.{IsSeated};
ghost use Rattle.ivy_standstill.specs.SoFar.{so_far_of};
ghost use Rattle.ivy_standstill.specs.CollectedSoFar.{TellsSoFar};

use ivy_ether::{Ether, Pass, Setup, Wired};
use ivy_model::{CANNOT_HAPPEN, Fault};
use ivy_seating::{Home, Homed, Keep, Site};
use std::alloc::Allocator;

/// Whether a site keeps these lists of its own past.
fn is_keeping<A: Allocator + Copy>(site: &Site<A>, keep: Keep) -> bool
    ensures { IsTrue result → site.now.keep ≡ keep }
{
    site.keep() == keep
}

/// Takes in the pass of a site that keeps these lists [21].
fn take_in<S: Setup, A: Allocator + Copy>(
    ether: &Ether<S, A>,
    starter: &mut Pass<Wired<A>>,
    site: &Site<A>,
    pass: Pass<Wired<A>>,
    node: u8,
    keep: Keep,
) -> Result<(), Fault>
    requires starter { starter.old.ether ≡ ether.now }
    requires seated { IsSeated ether.now S.config S.opened S.programs site.now pass }
    ensures ether { starter.new.ether ≡ starter.old.ether }
    ensures told { OnOk result (TellsSoFar S.config S.opened S.programs starter.old.known node (so_far_of site.now) starter.new.known) }
    ensures keep { OnOk result (site.now.keep ≡ keep) }
    ensures stop { IfErr result IsStop }
{
    if site.me() != node || !is_keeping(site, keep) {
        return Err(CANNOT_HAPPEN);
    }
    ether.close(starter, pass, site.event_list());
    Ok(())
}

/// Closes a node that keeps these lists, and hands out its site [21].
pub fn close_one<S: Setup, H: Home, A: Allocator + Copy>(
    ether: &Ether<S, A>,
    starter: &mut Pass<Wired<A>>,
    homed: Homed<'_, S, H, A>,
    node: u8,
    keep: Keep,
) -> Result<Site<A>, Fault>
    requires home { ether.now ≡ H.ether }
    requires starter { starter.old.ether ≡ ether.now }
    ensures site { IfOk result (λ site. site ≡ homed.entry.seated.site) }
    ensures ether { starter.new.ether ≡ starter.old.ether }
    ensures told { IfOk result (λ site. TellsSoFar S.config S.opened S.programs starter.old.known node (so_far_of site) starter.new.known) }
    ensures keep { IfOk result (λ site. site.keep ≡ keep) }
    ensures stop { IfErr result IsStop }
{
    let seated = homed.into_seated();
    let (_, site, pass) = seated.into_parts();
    match take_in(ether, starter, &site, pass, node, keep) {
        Ok(()) => Ok(site),
        Err(fault) => Err(fault),
    }
}
