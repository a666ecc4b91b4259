//! The report of a session whose programs need not have ended.
ghost use Rattle.std.specs.Prelude.{◌≡◌, ◌↔◌, ◌<◌, IsTrue, IfOk, IfErr, IfSome, Some, length, map, slice_get};
ghost use Rattle.ivy_moves.specs.Keeping.{keeps_history, keeps_events, read_of};
ghost use Rattle.ivy_moves.specs.Marks.{marks};
ghost use Rattle.ivy_program.specs.InstructionSteps.{HasEnded};
ghost use Rattle.ivy_workers.specs.Stops.{IsStop};
ghost use Rattle.ivy_standstill.specs.Ends.{HaveEnded, IsStandstill};
ghost use Rattle.ivy_standstill.specs.SoFar.{so_far_of, AreDelivered};

use crate::delivered::is_delivered;
use crate::resting::{have_ended, rest_all};
use ivy_model::{CANNOT_HAPPEN, Call, Fault, Record};
use ivy_moves::Event;
use ivy_seating::Site;
use ivy_wire::Bytes;
use std::alloc::Allocator;
use std::marker::Model;

/// What each node of a session came to, whether its program has ended or not.
#[derive(Drop)]
pub struct ReportSoFar<A: Allocator> {
    sites: Vec<Site<A>, A>,
}

impl<A: Allocator> Model for ReportSoFar<A> {
    ghost use Rattle.std.specs.Prelude.{List, map};
    ghost use Rattle.ivy_standstill.specs.SoFar.{NodeSoFar, so_far_of};

    ghost Value = { List NodeSoFar };

    ghost use Rattle.std.specs.Coded.{codes};
    ghost use Rattle.ivy_pagetable.specs.stated.NodeSets.{nodes_code};
    ghost use Rattle.ivy_alloc.specs.Heap.{heap_state_code};

    ghost coded = { Prim.hlevel (codes, nodes_code, heap_state_code) };

    ghost view = { λ r. map so_far_of r.sites.items };
}

impl<A: Allocator + Copy> ReportSoFar<A> {
    /// The report of these sites, in the order of their nodes.
    pub fn new(sites: Vec<Site<A>, A>) -> Self
        ensures { result ≡ map so_far_of sites.items }
    {
        ReportSoFar { sites }
    }

    /// How many nodes there are.
    pub fn nodes(&self) -> u64
        ensures { result ≡ length self.now }
    {
        self.sites.len() as u64
    }

    /// The site of a node, which is one of the session's.
    fn site(&self, node: u64) -> &Site<A>
        requires { node < length self.now }
        ensures { slice_get self.now node ≡ Some (so_far_of result.now) }
    {
        &self.sites[node as usize]
    }

    /// What a node was answered so far, in order, where its site kept that; else nothing. The node is one of the
    /// session's.
    pub fn history(&self, node: u64) -> &[Record]
        requires { node < length self.now }
        ensures { IfSome (slice_get self.now node) (λ n. result.now ≡ read_of (keeps_history n.keep) n.node.core.history) }
    {
        self.site(node).history()
    }

    /// What a node's program printed so far; the node is one of the session's.
    pub fn output(&self, node: u64) -> &[u64]
        requires { node < length self.now }
        ensures { IfSome (slice_get self.now node) (λ n. result.now ≡ n.node.core.process.state.output) }
    {
        self.site(node).output()
    }

    /// The events of a node, in order, where its site kept them; else none. The node is one of the session's.
    pub fn events(&self, node: u64) -> &[Event<Bytes<A>>]
        requires { node < length self.now }
        ensures { IfSome (slice_get self.now node) (λ n. marks result.now ≡ read_of (keeps_events n.keep) n.events) }
    {
        self.site(node).events()
    }

    /// The call that a node has in progress; the node is one of the session's.
    pub fn asked(&self, node: u64) -> Option<Call>
        requires { node < length self.now }
        ensures { IfSome (slice_get self.now node) (λ n. result ≡ n.node.core.memory.asked) }
    {
        self.site(node).asked()
    }

    /// Whether a node's program has ended; the node is one of the session's.
    pub fn has_ended(&self, node: u64) -> bool
        requires { node < length self.now }
        ensures { IfSome (slice_get self.now node) (λ n. IsTrue result ↔ HasEnded n.node.core.process) }
    {
        self.site(node).ended()
    }

    /// Whether all that the nodes sent to each other was delivered.
    fn is_delivered(&self) -> bool
        ensures { IsTrue result → AreDelivered self.now }
    {
        match u8::try_from(self.sites.len()) {
            Ok(nodes) => is_delivered(&self.sites, nodes),
            Err(_) => false,
        }
    }

    /// Whether all programs have ended.
    pub fn have_ended(&self) -> bool
        ensures { IsTrue result ↔ HaveEnded self.now }
    {
        have_ended(&self.sites)
    }

    /// The report, where its nodes stand still and a program has not ended [1, 17, 21].
    pub fn at_standstill(self) -> Result<Self, Fault>
        ensures same { IfOk result (λ report. report ≡ self) }
        ensures still { IfOk result IsStandstill }
        ensures stop { IfErr result IsStop }
    {
        if self.have_ended() {
            return Err(CANNOT_HAPPEN);
        }
        if !self.is_delivered() {
            return Err(CANNOT_HAPPEN);
        }
        let sites = rest_all(self.sites)?;
        Ok(ReportSoFar { sites })
    }
}
