//! For which other nodes a pulse has something to say.
ghost use Rattle.std.specs.Prelude.{◌≡◌, ◌≤◌};
ghost use Rattle.ivy_model.specs.stated.Limits.{most_nodes};
ghost use Rattle.ivy_embedded.specs.Peers.{AreThose};

use ivy_pagetable::NodeSet;
use ivy_site::Site;
use std::alloc::Global;

/// What may hold of a site and another node.
pub(crate) trait Relation {
    ghost use Rattle.std.specs.Prelude.{◌<◌, ◌↔◌, ℕ, IsTrue};
    ghost use Rattle.ivy_site.specs.SiteView.{SiteView};

    ghost holds: { SiteView → ℕ → Type 0 };

    /// Whether it holds.
    fn is(site: &Site<Global>, to: u8) -> bool
        requires { to < site.now.config.nodes }
        ensures { IsTrue result ↔ holds site.now to };
}

/// Some message to the node is not acknowledged yet.
pub(crate) struct Kept;

impl Relation for Kept {
    ghost use Rattle.ivy_embedded.specs.Peers.{KeepsFor};

    ghost holds = { KeepsFor };

    fn is(site: &Site<Global>, to: u8) -> bool {
        site.keeps_for(to)
    }
}

/// An acknowledgement is owed to the node.
pub(crate) struct Owed;

impl Relation for Owed {
    ghost use Rattle.ivy_embedded.specs.Peers.{OwesTo};

    ghost holds = { OwesTo };

    fn is(site: &Site<Global>, to: u8) -> bool {
        site.owes(to)
    }
}

/// The nodes of which it holds.
pub(crate) fn peers_of<T: Relation>(site: &Site<Global>, nodes: u8) -> NodeSet
    requires all { nodes ≡ site.now.config.nodes }
    requires few { nodes ≤ most_nodes }
    ensures { AreThose (T.holds site.now) nodes result }
{
    let mut those = NodeSet::new();
    for to in 0..nodes {
        if T::is(site, to) {
            those.insert(to);
        }
    }
    those
}
