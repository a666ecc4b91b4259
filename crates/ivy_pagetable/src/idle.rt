ghost use Rattle.std.specs.Prelude.{◌≡◌, ◌≢◌, ◌<◌, true, false};
ghost use Rattle.std.specs.FinSet as set;
ghost use Rattle.ivy_pagetable.specs.declared.access.Access.TheVariants.{Read, Write};
ghost use Rattle.ivy_model.specs.stated.Limits.{most_nodes};
ghost use Rattle.ivy_pagetable.specs.States.{IsIdle};

use crate::access::Access;
use crate::node_set::NodeSet;
use std::marker::Model;

/// No word waits for the page. Beside the access: whether this node is the page's owner, and the
/// nodes that have a copy of it, which the owner alone keeps.
#[derive(Drop)]
pub struct Idle {
    access: Access,
    owner: bool,
    copies: NodeSet,
}

impl Model for Idle {
    ghost use Rattle.ivy_pagetable.specs.stated.States.{IdleState};
    ghost use Rattle.ivy_pagetable.specs.States.{IsIdle};
    ghost use Rattle.std.specs.Coded.{codes};
    ghost use Rattle.ivy_pagetable.specs.stated.NodeSets.{nodes_code};

    ghost Value = { IdleState };

    ghost coded = { Prim.hlevel (codes, nodes_code) };

    ghost view = { λ s. record { access = s.access; owner = s.owner; copies = s.copies } };

    ghost invariant = { λ s. IsIdle (record { access = s.access; owner = s.owner; copies = s.copies }) };
}

impl Idle {
    /// Another node is the owner, and this one has a copy to read, or nothing of the page.
    pub fn plain(access: Access) -> Idle
        requires { access ≢ Write }
        ensures { result ≡ record { access = access; owner = false; copies = set.empty } }
    {
        Idle {
            access,
            owner: false,
            copies: NodeSet::new(),
        }
    }

    /// The whole page is this node's, to write, and no other node has a copy.
    pub fn owned() -> Idle
        ensures { result ≡ record { access = Write; owner = true; copies = set.empty } }
    {
        Idle {
            access: Access::Write,
            owner: true,
            copies: NodeSet::new(),
        }
    }

    /// The owner's page after it gave a node a copy: this node can read it only, from now on, and
    /// the node is among those that have one.
    pub fn with_reader(&self, node: u8) -> Idle
        requires owner { self.now.owner ≡ true }
        requires node { node < most_nodes }
        ensures { result ≡ record { access = Read; owner = true; copies = set.insert self.now.copies node } }
    {
        let mut copies = self.copies;
        copies.insert(node);
        Idle {
            access: Access::Read,
            owner: true,
            copies,
        }
    }

    /// The same state.
    pub fn copied(&self) -> Idle
        ensures { result ≡ self.now }
    {
        Idle {
            access: self.access,
            owner: self.owner,
            copies: self.copies,
        }
    }

    /// What this node may do with the page.
    pub fn access(&self) -> Access
        ensures access { result ≡ self.now.access }
        ensures fact { IsIdle self.now }
    {
        self.access
    }

    /// Whether this node is the page's owner.
    pub fn is_owner(&self) -> bool
        ensures owner { result ≡ self.now.owner }
        ensures fact { IsIdle self.now }
    {
        self.owner
    }

    /// The nodes that have a copy, where this node is the owner.
    pub fn copies(&self) -> &NodeSet
        ensures { result.now ≡ self.now.copies }
    {
        &self.copies
    }
}
