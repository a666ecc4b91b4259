//! What each move did.
ghost use Rattle.std.specs.Prelude.{◌≡◌};
ghost use Rattle.ivy_charts.specs.Sent.{sent_by};

use crate::head::RunHead;
use ivy_link::Verdict;
use ivy_model::{Call, Record};
use ivy_moves::Move;
use std::alloc::Global;

/// What a move did.
#[derive(Drop)]
pub struct Happening {
    pub step: Move,
    /// The node whose event it is.
    pub node: u64,
    /// How many strings were sent before it.
    pub sent_before: usize,
    /// How many strings were sent after it.
    pub sent_after: usize,
    /// What the frame of a delivered string was to the node.
    pub heard: Option<Verdict>,
    /// The strings whose messages the node served, by their place among all sent, in order.
    pub served: Vec<usize>,
    /// The call that the node had in progress before it.
    pub before: Option<Call>,
    /// The call that the node had in progress after it.
    pub after: Option<Call>,
    /// The reply that was recorded.
    pub record: Option<Record>,
}

/// What was seen of a run from its opening on.
#[derive(Drop)]
pub struct RunLog {
    /// Every string that was sent, in the order sent.
    pub strings: Vec<RunHead>,
    /// What each move did, in order.
    pub happenings: Vec<Happening>,
}

impl RunLog {
    /// Nothing was seen yet. It takes no memory.
    pub fn new(alloc: Global) -> RunLog {
        RunLog {
            strings: Vec::new(alloc),
            happenings: Vec::new(alloc),
        }
    }

    /// The strings that a move sent.
    pub fn sent_by(&self, happening: &Happening) -> &[RunHead]
        ensures { result.now ≡ sent_by self.now happening.now }
    {
        let (from, to) = (happening.sent_before, happening.sent_after);
        if to > self.strings.len() || from > to {
            return &[];
        }
        &self.strings[from..to]
    }
}
