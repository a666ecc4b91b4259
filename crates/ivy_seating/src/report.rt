//! What a finished session gives.
ghost use Rattle.std.specs.Prelude.{◌≡◌, ◌<◌, IfSome, length, map, slice_get};
ghost use Rattle.ivy_moves.specs.Keeping.{keeps_history, keeps_events, read_of};
ghost use Rattle.ivy_moves.specs.Marks.{marks};
ghost use Rattle.ivy_seating.specs.Reports.{report_of};

use ivy_model::Record;
use ivy_moves::Event;
use ivy_site::Site;
use ivy_wire::Bytes;
use std::alloc::Allocator;
use std::marker::Model;

/// What each node of a finished session was answered, what its program printed, and its events.
#[derive(Drop)]
pub struct Report<A: Allocator> {
    sites: Vec<Site<A>, A>,
}

impl<A: Allocator> Model for Report<A> {
    ghost use Rattle.std.specs.Prelude.{List, map};
    ghost use Rattle.ivy_seating.specs.Reports.{NodeReport, report_of};

    ghost Value = { List NodeReport };

    ghost view = { λ r. map report_of r.sites.items };
}

impl<A: Allocator + Copy> Report<A> {
    /// The report of these sites, in the order of their nodes.
    pub fn new(sites: Vec<Site<A>, A>) -> Self
        ensures { result ≡ map report_of sites.items }
    {
        Report { sites }
    }

    /// How many nodes there are.
    pub fn nodes(&self) -> u64
        ensures { result ≡ length self.now }
    {
        self.sites.len() as u64
    }

    /// What a node was answered, in order, where its site kept that; else nothing. The node is one of the session's.
    pub fn history(&self, node: u64) -> &[Record]
        requires { node < length self.now }
        ensures { IfSome (slice_get self.now node) (λ n. result.now ≡ read_of (keeps_history n.keep) n.history) }
    {
        self.sites[node as usize].history()
    }

    /// What a node's program printed; the node is one of the session's.
    pub fn output(&self, node: u64) -> &[u64]
        requires { node < length self.now }
        ensures { IfSome (slice_get self.now node) (λ n. result.now ≡ n.output) }
    {
        self.sites[node as usize].output()
    }

    /// The events of a node, in order, where its site kept them; else none. The node is one of the session's.
    pub fn events(&self, node: u64) -> &[Event<Bytes<A>>]
        requires { node < length self.now }
        ensures { IfSome (slice_get self.now node) (λ n. marks result.now ≡ read_of (keeps_events n.keep) n.events) }
    {
        self.sites[node as usize].events()
    }
}
