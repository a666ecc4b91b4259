ghost use Rattle.std.specs.Prelude.{◌≡◌, ◌<◌, ◌↔◌, IsTrue};
ghost use Rattle.std.specs.FinSet as set;
ghost use Rattle.ivy_model.specs.stated.Limits.{most_nodes};
ghost use Rattle.ivy_pagetable.specs.stated.NodeSets.{nodes_of, bits_of, nodes_with};

use arrayvec::ArrayVec;
use ivy_model::MOST_NODES;
use std::marker::Model;

/// The nodes of a set, at most this many.
const MOST_LISTED: usize = MOST_NODES as usize;

/// A set of nodes, each of a number below [`MOST_NODES`]. Bit i of the number stands for node i.
#[derive(Clone, Copy)]
pub struct NodeSet {
    bits: u32,
}

impl Model for NodeSet {
    ghost use Rattle.std.specs.Ordering.{nat_cmp};
    ghost use Rattle.std.specs.FinSet as set;
    ghost use Rattle.std.specs.Coded.{coded_ℕ};
    ghost use Rattle.std.specs.Prelude.{◌<◌, ◌^◌};
    ghost use Rattle.ivy_model.specs.stated.Limits.{most_nodes};
    ghost use Rattle.ivy_pagetable.specs.stated.NodeSets.{nodes_with};
    ghost use Rattle.ivy_pagetable.specs.Bits.{number_of_set, number_of_set_with};

    ghost Value = { set.FinSet nat_cmp };

    ghost coded = { set.code coded_ℕ };

    ghost view = { λ s. nodes_with s.bits };

    ghost invariant = { λ s. s.bits < 2 ^ most_nodes };

    ghost inverse = { λ nodes. record { bits = number_of_set nodes } };

    ghost inverse_ok = { λ s small i. record { bits = number_of_set_with s.bits small i } };
}

fn has(bits: u32, node: u8) -> bool
    requires { node < most_nodes }
    ensures { result ≡ set.contains (nodes_with bits) node }
{
    bits >> node & 1 == 1
}

impl NodeSet {
    /// No node.
    pub fn new() -> NodeSet
        ensures { result ≡ set.empty }
    {
        NodeSet { bits: 0 }
    }

    /// Whether the node is one of them.
    pub fn contains(&self, node: u8) -> bool
        requires { node < most_nodes }
        ensures { result ≡ set.contains self.now node }
    {
        has(self.bits, node)
    }

    /// The same with this node.
    pub fn insert(&mut self, node: u8)
        requires { node < most_nodes }
        ensures { self.new ≡ set.insert self.old node }
    {
        self.bits |= 1 << node;
    }

    /// The same without this node.
    pub fn remove(&mut self, node: u8)
        requires { node < most_nodes }
        ensures { self.new ≡ set.remove self.old node }
    {
        self.bits &= !(1 << node);
    }

    /// Whether there is none.
    pub fn is_empty(&self) -> bool
        ensures { IsTrue result ↔ (self.now ≡ set.empty) }
    {
        self.bits == 0
    }

    /// The nodes in ascending order.
    pub fn nodes(&self) -> ArrayVec<u8, MOST_LISTED>
        ensures { result.items ≡ nodes_of self.now }
    {
        let mut nodes = ArrayVec::new();
        for node in 0..MOST_NODES {
            if has(self.bits, node) {
                nodes.push(node);
            }
        }
        nodes
    }

    /// The nodes as the bits of a number, bit 0 the least: a frame carries a copy set so.
    pub fn bits(&self) -> u32
        ensures { result ≡ bits_of self.now }
    {
        self.bits
    }

    /// The nodes whose bits the number has.
    pub fn from_bits(bits: u32) -> NodeSet
        ensures { result ≡ nodes_with bits }
    {
        NodeSet { bits }
    }
}
