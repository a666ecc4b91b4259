//! Sessions whose report is printed.
ghost use Rattle.std.specs.Prelude.{◌≡◌, List, IfOk, IfErr, OnOk};
ghost use Rattle.std.specs.Io.KnownBytes.{Appends};
ghost use Rattle.ivy_host.specs.declared.opening.Opening.TheVariants.{Configured};
ghost use Rattle.ivy_session.specs.Faults.{IsSessionFault};
ghost use Rattle.ivy_seating.specs.Reports.{NodeReport, IsReport};

use crate::session::Session;
use ivy_model::{Config, Fault};
use ivy_program::Program;
use ivy_seating::{Keep, Report};
use ivy_workers::{Gate, Limits};
use std::alloc::Allocator;
use std::io::{self, Write};
use std::sync::Wait;
use std::thread::Threads;

/// How a report is printed.
pub trait Printing<A: Allocator> {
    ghost use Rattle.std.specs.Prelude.{ℕ, List, OnOk};
    ghost use Rattle.std.specs.Io.KnownBytes.{Appends};
    ghost use Rattle.ivy_seating.specs.Reports.{NodeReport};

    /// What is printed of a report.
    ghost text: { List NodeReport → List ℕ };

    /// Prints a report.
    fn print<W: Write>(report: &Report<A>, out: &mut W) -> io::Result<()>
        ensures { OnOk result (Appends (W.contents out.old) (W.contents out.new) (text report.now)) };
}

impl Session {
    /// Runs the programs as [`Session::run_keeping`] does, and prints the report [1, 2, 17, 21]. Where the session ended, it
    /// tells whether the writer took all.
    ///
    /// The report ends here, so that callers prove nothing of what a report is made of.
    pub fn print<P, A, R, G, W>(
        rt: &R,
        alloc: A,
        config: Config,
        programs: Vec<Program<A>, A>,
        limits: Limits,
        gate: &G,
        keep: Keep,
        out: &mut W,
    ) -> Result<io::Result<()>, Fault>
    where
        P: Printing<A>,
        A: Allocator + Copy + Send + Sync,
        R: Threads + Wait + Sync,
        G: Gate,
        W: Write,
        ensures printed { IfOk result (λ printed. OnOk printed ((report : List NodeReport) × IsReport config Configured programs.items report × Appends (W.contents out.old) (W.contents out.new) (P.text report))) }
        ensures fault { IfErr result IsSessionFault }
    {
        let report = Session::run_keeping(rt, alloc, config, programs, limits, gate, keep)?;
        Ok(P::print(&report, out))
    }
}
