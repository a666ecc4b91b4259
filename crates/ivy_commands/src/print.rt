//! What is printed of a session.
use ivy_session::{Printing, Report};
use ivy_simulation::{Outputs, print_outputs};
use std::alloc::Allocator;
use std::io::{self, Write};

/// The outputs of a report.
#[derive(Drop)]
struct Reported<'a, A: Allocator>(&'a Report<A>);

impl<A: Allocator + Copy> Outputs for Reported<'_, A> {
    ghost use Rattle.std.specs.Prelude.{length, map};

    ghost count = { λ r. length r.0.now };

    ghost outputs = { λ r. map (λ n. n.output) r.0.now };

    fn nodes(&self) -> u64 {
        self.0.nodes()
    }

    fn output(&self, node: u64) -> &[u64] {
        self.0.output(node)
    }
}

/// A line for each value that each node of a session printed, by node.
pub struct OutputLines;

impl<A: Allocator + Copy> Printing<A> for OutputLines {
    ghost use Rattle.std.specs.Prelude.{map};
    ghost use Rattle.ivy_simulation.specs.Nodes.{outputs_text};

    ghost text = { λ nodes. outputs_text (map (λ n. n.output) nodes) };

    fn print<W: Write>(report: &Report<A>, out: &mut W) -> io::Result<()> {
        print_outputs(&Reported(report), out)
    }
}
