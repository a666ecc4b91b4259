//! What is asked of the report of each play.
use crate::PlayReport;
use std::alloc::Allocator;

/// What is asked of the report of each play.
pub trait Check<T: Drop> {
    ghost use Rattle.std.specs.Prelude.{◌≡◌, List, false};
    ghost use Rattle.ivy_play.specs.declared.report.Outcome.{Outcome};

    /// What is known of outcomes that it does not hold of.
    ghost fails: { Self → List (Outcome T) → Type 0 };

    /// Whether it holds.
    fn holds<A: Allocator + Copy>(&self, report: &PlayReport<T, A>) -> bool
        ensures { result ≡ false → fails self.now report.now.outcomes.items };
}
