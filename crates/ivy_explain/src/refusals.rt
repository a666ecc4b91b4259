//! Calls that were refused, in words.
ghost use Rattle.std.specs.Prelude.{◌≡◌};
ghost use Rattle.ivy_explain.specs.Refused.{one_more};

use ivy_model::Call;
use ivy_texts::CallText;
use std::alloc::Global;
use std::fmt;
use std::io::{self, Write};

/// The calls of one line of a node that were refused for one reason.
#[derive(Clone, Copy)]
pub struct Refusal {
    pub node: u8,
    pub line: Option<usize>,
    /// The first of them.
    pub call: Call,
    pub code: u8,
    pub count: u64,
}

/// A call that was refused, in words.
#[derive(Clone, Copy)]
struct Words(Call);

/// Why a call is refused, in words.
#[derive(Clone, Copy)]
struct Reason(u8);

impl fmt::Display for Words {
    fn fmt<W: fmt::Write>(&self, f: &mut fmt::Formatter<W>) -> fmt::Result {
        let (name, width, addr) = match self.0 {
            Call::Load { width, addr } => ("load", width, addr),
            Call::Store { width, addr, .. } => ("store", width, addr),
            Call::Swap { width, addr, .. } => ("swap", width, addr),
            Call::Cas { width, addr, .. } => ("cas", width, addr),
            Call::FetchAdd { width, addr, .. } => ("fadd", width, addr),
            call => return CallText(call).fmt(f),
        };
        write!(f, "{name} {width} at {addr}")
    }
}

impl fmt::Display for Reason {
    fn fmt<W: fmt::Write>(&self, f: &mut fmt::Formatter<W>) -> fmt::Result {
        f.write_str(match self.0 {
            3 => "3 address no multiple of the width",
            4 => "4 address out of range",
            5 => "5 address in page 0, which has the counts",
            6 => "6 no such count",
            7 => "7 count at its greatest value",
            8 => "8 a block of no bytes",
            9 => "9 no room for the block",
            10 => "10 no block begins there",
            _ => "refused",
        })
    }
}

/// Tells of the first refusal of its line.
fn tell<E: Write>(refusal: &Refusal, err: &mut E) -> io::Result<()> {
    write!(err, "node {}", refusal.node)?;
    if let Some(line) = refusal.line {
        write!(err, ", line {line}")?;
    }
    writeln!(err, ": {}: {}", Words(refusal.call), Reason(refusal.code))
}

/// Counts a call among those of its line and reason, where one of them is known. It says whether one is.
fn is_counted(refusals: &mut [Refusal], refusal: &Refusal) -> bool {
    for known in refusals {
        if known.node == refusal.node && known.line == refusal.line && known.code == refusal.code {
            known.count = known.count.saturating_add(1);
            return true;
        }
    }
    false
}

/// The stream that is told, and the calls that were refused.
#[derive(Drop)]
pub struct Printed<'a, E> {
    err: &'a mut E,
    refusals: Vec<Refusal>,
    /// How many calls were refused.
    pub count: u64,
}

impl<'a, E: Write> Printed<'a, E> {
    /// Nothing was refused yet. It takes no memory.
    pub fn new(alloc: Global, err: &'a mut E) -> Self
        ensures { result.count ≡ 0 }
    {
        Printed {
            err,
            refusals: Vec::new(alloc),
            count: 0,
        }
    }

    /// Adds a call to those of its line, and tells of the first one.
    pub fn note(&mut self, refusal: Refusal)
        ensures { self.new.count ≡ one_more self.old.count }
    {
        self.count = self.count.saturating_add(1);
        if is_counted(&mut self.refusals, &refusal) {
            return;
        }
        // The session goes on where a stream takes nothing. Without memory a line is told of more than once.
        let _ = tell(&refusal, self.err);
        let _ = self.refusals.push(refusal);
    }

    /// Tells how many calls of a line were refused, where these are several, and how many in all.
    pub fn sum_up(&mut self) -> io::Result<()> {
        for refusal in self.refusals.iter() {
            if refusal.count > 1 {
                write!(self.err, "{} times: ", refusal.count)?;
                tell(refusal, self.err)?;
            }
        }
        if self.count > 0 {
            writeln!(self.err, "calls that were refused: {}", self.count)?;
        }
        Ok(())
    }
}
