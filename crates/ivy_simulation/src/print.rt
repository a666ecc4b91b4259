//! What is printed of all nodes.
ghost use Rattle.std.specs.Prelude.{◌≡◌, OnOk, length};
ghost use Rattle.std.specs.Io.KnownBytes.{Appends};
ghost use Rattle.ivy_simulation.specs.Played.{world_text};
ghost use Rattle.ivy_simulation.specs.Nodes.{outputs_text, ends_text};

use ivy_texts::{print_end, print_output};
use ivy_world::World;
use std::alloc::Allocator;
use std::io::{self, Write};

/// What knows the outputs of the programs of all nodes.
pub trait Outputs {
    ghost use Rattle.std.specs.Prelude.{◌≡◌, ◌<◌, ℕ, List, IfSome, slice_get};

    /// How many nodes it says that there are.
    ghost count: { Self → ℕ };

    /// What the program of each node printed.
    ghost outputs: { Self → List (List ℕ) };

    /// How many nodes there are.
    fn nodes(&self) -> u64
        ensures { result ≡ count self.now };

    /// What the program of a node printed; the node is one of these.
    fn output(&self, node: u64) -> &[u64]
        requires { node < count self.now }
        ensures { IfSome (slice_get (outputs self.now) node) (λ values. result.now ≡ values) };
}

impl<A: Allocator + Copy> Outputs for World<A> {
    ghost use Rattle.ivy_simulation.specs.Nodes.{outputs_of};

    ghost count = { λ r. r.config.nodes };

    ghost outputs = { λ r. outputs_of r.world.nodes };

    fn nodes(&self) -> u64 {
        World::nodes(self)
    }

    fn output(&self, node: u64) -> &[u64] {
        World::output(self, node)
    }
}

/// Prints a line for each value that each program printed, by node.
pub fn print_outputs<N: Outputs, W: Write>(nodes: &N, out: &mut W) -> io::Result<()>
    requires { length (N.outputs nodes.now) ≡ N.count nodes.now }
    ensures { OnOk result (Appends (W.contents out.old) (W.contents out.new) (outputs_text (N.outputs nodes.now))) }
{
    for node in 0..nodes.nodes() {
        print_output(node, nodes.output(node), out)?;
    }
    Ok(())
}

/// Prints a line for each node, which says whether its program has ended.
fn print_ends<A: Allocator + Copy, W: Write>(world: &World<A>, out: &mut W) -> io::Result<()>
    requires { length world.now.world.nodes ≡ world.now.config.nodes }
    ensures { OnOk result (Appends (W.contents out.old) (W.contents out.new) (ends_text world.now.world.nodes)) }
{
    for node in 0..world.nodes() {
        print_end(node, world.ended(node), out)?;
    }
    Ok(())
}

/// Prints what the programs of a world printed, and then which of them have ended.
pub fn print_world<A: Allocator + Copy, W: Write>(world: &World<A>, out: &mut W) -> io::Result<()>
    requires { length world.now.world.nodes ≡ world.now.config.nodes }
    ensures { OnOk result (Appends (W.contents out.old) (W.contents out.new) (world_text world.now.world)) }
{
    print_outputs(world, out)?;
    print_ends(world, out)
}
