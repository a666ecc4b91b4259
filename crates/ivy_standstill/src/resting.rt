//! Whether the programs of a session have ended, and whether its nodes have anything left to do.
ghost use Rattle.std.specs.Prelude.{◌≡◌, ◌↔◌, All, IsTrue, IfOk, IfErr, OnOk, map};
ghost use Rattle.ivy_workers.specs.Stops.{IsStop};
ghost use Rattle.ivy_standstill.specs.Ends.{HasNoTurn, HaveEnded, HaveNoTurn};
ghost use Rattle.ivy_standstill.specs.SoFar.{so_far_of};

use ivy_model::{CANNOT_HAPPEN, Fault};
use ivy_seating::{Site, Turn};
use std::alloc::Allocator;

/// Whether the programs of all these sites have ended.
pub(crate) fn have_ended<A: Allocator + Copy>(sites: &[Site<A>]) -> bool
    ensures { IsTrue result ↔ HaveEnded (map so_far_of sites.now) }
{
    for site in sites {
        if !site.ended() {
            return false;
        }
    }
    true
}

/// Makes the next turn of a site, which has to do nothing [1, 17, 21].
fn rest<A: Allocator + Copy>(site: &mut Site<A>) -> Result<(), Fault>
    ensures same { OnOk result (site.new ≡ site.old) }
    ensures rests { OnOk result (HasNoTurn site.old.node) }
    ensures stop { IfErr result IsStop }
{
    match site.program_turn()? {
        Turn::Idle | Turn::Ended => Ok(()),
        Turn::Moved => Err(CANNOT_HAPPEN),
    }
}

/// These sites, where the next turn of each does nothing [1, 17, 21]. A turn that does something leaves none of them.
pub(crate) fn rest_all<A: Allocator + Copy>(
    sites: Vec<Site<A>, A>,
) -> Result<Vec<Site<A>, A>, Fault>
    ensures same { IfOk result (λ rested. rested.items ≡ sites.items) }
    ensures rest { IfOk result (λ rested. HaveNoTurn (map so_far_of rested.items)) }
    ensures stop { IfErr result IsStop }
{
    let mut sites = sites;
    for place in 0..sites.len() {
        rest(&mut sites[place])?;
    }
    Ok(sites)
}
