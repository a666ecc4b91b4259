//! The laws of the parts of a run.
ghost use Rattle.ivy_moves.specs.Parts.{RunsOfAnyRules, PartsOfAnyRules};
ghost use Rattle.ivy_moves.specs.Carrying.{RunsCarryOver, AllEventsCarryOver};

/// In each run each node is what its own events make of it, and the strings sent are those that they send.
/// It holds over any core. This is a fact, and the call does nothing.
#[tactic(auto, using(crate::proofs::Parts::runs_are_their_parts))]
pub fn runs_are_their_parts<C>()
    ensures { RunsOfAnyRules C }
{}

/// Event lists that go on from the parts of a run by further events, whose deliveries are strings that the
/// run has sent, are again the parts of a run. It holds over any core. This is a fact, and the call does
/// nothing.
pub fn parts_go_on<C>()
    ensures { PartsOfAnyRules C }
{}

/// A change of each node's core that turns and messages do not see leaves a run a run, with the same events
/// of each node. It holds over any core. This is a fact, and the call does nothing.
pub fn runs_carry_over<C>()
    ensures { RunsCarryOver C }
{}

/// Nor does such a change change what a node's own events make of it. This is a fact, and the call does
/// nothing.
pub fn events_carry_over<C>()
    ensures { AllEventsCarryOver C }
{}
