//! Whether all that the nodes of a session sent to each other was delivered.
ghost use Rattle.std.specs.Prelude.{◌≡◌, ◌≢◌, ◌<◌, IsTrue, length};
ghost use Rattle.ivy_link.specs.stated.Linked.{peer_at};
ghost use Rattle.ivy_standstill.specs.Delivered.{AreSitesDelivered, IsSiteDelivered};

use ivy_seating::Site;
use std::alloc::Allocator;

/// Whether all that the one node sent to the other, if it is another one, was delivered there.
fn is_pair_delivered<A: Allocator + Copy>(
    source: &Site<A>,
    dest: &Site<A>,
    from: u8,
    to: u8,
) -> bool
    ensures { IsTrue result → from ≢ to → (peer_at dest.now.node.link from).delivered ≡ (peer_at source.now.node.link to).sent }
{
    if from == to {
        return true;
    }
    from < dest.config().nodes
        && to < source.config().nodes
        && dest.delivered_from(from) == source.sent_to(to)
}

/// Whether all that a node sent to the others was delivered there.
fn is_delivered_from<A: Allocator + Copy>(sites: &[Site<A>], nodes: u8, from: u8) -> bool
    requires each { length sites.now ≡ nodes }
    requires from { from < nodes }
    ensures { IsTrue result → IsSiteDelivered sites.now from }
{
    let source = &sites[usize::from(from)];
    for to in 0..nodes {
        let dest = &sites[usize::from(to)];
        if !is_pair_delivered(source, dest, from, to) {
            return false;
        }
    }
    true
}

/// Whether all that these nodes sent to each other was delivered.
pub(crate) fn is_delivered<A: Allocator + Copy>(sites: &[Site<A>], nodes: u8) -> bool
    requires each { length sites.now ≡ nodes }
    ensures { IsTrue result → AreSitesDelivered sites.now }
{
    for from in 0..nodes {
        if !is_delivered_from(sites, nodes, from) {
            return false;
        }
    }
    true
}
