ghost use Rattle.std.specs.Prelude.{◌≡◌, ◌≢◌, length, nat_lt, if◌then◌else◌};
ghost use Rattle.std.specs.FinSet as set;
ghost use Rattle.ivy_pagetable.specs.stated.Entries.{with_one_put_off};
ghost use Rattle.ivy_pagetable.specs.stated.EntryLimits.{most_put_off};

use crate::node_set::NodeSet;
use crate::put_off::PutOff;
use crate::waiting::Waiting;
use std::marker::Model;

/// This node is the owner, and a word that writes waits until each copy was given up.
#[derive(Drop)]
pub struct AwaitAcks {
    left: NodeSet,
    waiting: Waiting,
}

impl Model for AwaitAcks {
    ghost use Rattle.ivy_pagetable.specs.stated.States.{AwaitAcksState};
    ghost use Rattle.ivy_pagetable.specs.States.{IsAwaitAcks};
    ghost use Rattle.std.specs.Coded.{codes};
    ghost use Rattle.ivy_pagetable.specs.stated.NodeSets.{nodes_code};

    ghost Value = { AwaitAcksState };

    ghost coded = { Prim.hlevel (codes, nodes_code) };

    ghost view = { λ s. record { left = s.left; waiting = s.waiting } };

    ghost invariant = { λ s. IsAwaitAcks (record { left = s.left; waiting = s.waiting }) };
}

impl AwaitAcks {
    /// The acknowledgements of these nodes are missing, of one at least.
    pub fn new(left: NodeSet, waiting: Waiting) -> AwaitAcks
        requires { left ≢ set.empty }
        ensures { result ≡ record { left = left; waiting = waiting } }
    {
        AwaitAcks { left, waiting }
    }

    /// The nodes whose acknowledgement is missing.
    pub fn left(&self) -> &NodeSet
        ensures left { result.now ≡ self.now.left }
        ensures fact { self.now.left ≢ set.empty }
    {
        &self.left
    }

    /// The word, its call and what was put off.
    pub fn waiting(&self) -> &Waiting
        ensures { result.now ≡ self.now.waiting }
    {
        &self.waiting
    }

    pub(crate) fn try_put_off(&mut self, message: PutOff) -> bool
        ensures done { result ≡ nat_lt (length self.old.waiting.put_off) most_put_off }
        ensures kept { self.new ≡ record {
          left = self.old.left;
          waiting = if nat_lt (length self.old.waiting.put_off) most_put_off
              then with_one_put_off self.old.waiting message
              else self.old.waiting;
        } }
    {
        self.waiting.try_put_off(message)
    }
}
