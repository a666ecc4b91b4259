//! What a play came to.
ghost use Rattle.std.specs.Prelude.{◌≡◌, ◌<◌, ◌↔◌, IfSome, IsTrue, slice_get};
ghost use Rattle.ivy_play.specs.Reports.{AllGave, last_call_in, standing_of};

use ivy_model::{Call, Fault, Record};
use ivy_texts::{CallText, Decimal, MoveText};
use ivy_world::{Move, Rest, World};
use std::alloc::Allocator;
use std::fmt;

/// How the work of a node stands at the end of a play.
#[derive(Clone, Copy, Debug, PartialEq, Eq, Drop)]
pub enum Outcome<T> {
    /// It has ended, and gave this.
    Gave(T),
    /// It gave up of itself, with this fault.
    GaveUp(Fault),
    /// It has not come to its end.
    Waits,
}

/// What a play came to.
#[derive(Drop)]
pub struct PlayReport<T: Drop, A: Allocator> {
    /// The world: what each node was answered, which call it has in progress, and the strings that were sent.
    pub world: World<A>,
    /// The moves that were made. Listed, they play the same again.
    pub moves: Vec<Move, A>,
    /// How many of them were drawn, or listed, or are turns that went with such a one, by which a row was answered; the others
    /// were made to let the world settle.
    pub drawn: usize,
    /// How the work of each node stands, in the order of the nodes.
    pub outcomes: Vec<Outcome<T>, A>,
    /// Whether the world stands still.
    pub rest: Rest,
}

/// How a node stands at the end of a play. Its text says it in words.
#[derive(Clone, Copy, Debug, PartialEq, Eq)]
pub struct Standing {
    /// The node.
    pub node: u64,
    /// How its work stands, without what that gave.
    pub outcome: Outcome<()>,
    /// The call that the node has in progress.
    pub asked: Option<Call>,
    /// The call that was answered to it last.
    pub last: Option<Call>,
}

impl<T> Outcome<T> {
    /// How the work stands, without what it gave.
    pub fn standing(&self) -> Outcome<()>
        ensures { result ≡ standing_of self.now }
    {
        match self {
            Outcome::Gave(_) => Outcome::Gave(()),
            Outcome::GaveUp(fault) => Outcome::GaveUp(*fault),
            Outcome::Waits => Outcome::Waits,
        }
    }
}

/// The call in the last of these records.
fn last_call(history: &[Record]) -> Option<Call>
    ensures { result ≡ last_call_in history.now }
{
    match history.last() {
        Some(record) => Some(record.call),
        None => None,
    }
}

/// Whether each work has ended.
fn all_gave<T>(outcomes: &[Outcome<T>]) -> bool
    ensures { IsTrue result → AllGave outcomes.now }
{
    for outcome in outcomes {
        let Outcome::Gave(_) = outcome else {
            return false;
        };
    }
    true
}

impl<T: Drop, A: Allocator + Copy> PlayReport<T, A> {
    /// Whether the work of each node has ended.
    pub fn all_gave(&self) -> bool
        ensures { IsTrue result → AllGave self.now.outcomes.items }
    {
        all_gave(&self.outcomes)
    }

    /// How a node stands, with the call that it has in progress, and the one that was answered last. The node is one of the
    /// world's.
    pub fn standing(&self, node: u64) -> Standing
        requires { node < self.now.world.config.nodes }
        ensures node { result.node ≡ node }
        ensures outcome { IfSome (slice_get self.now.outcomes.items node) (λ outcome. result.outcome ≡ standing_of outcome) }
        ensures asked { IfSome (slice_get self.now.world.world.nodes node) (λ n. result.asked ≡ n.core.memory.asked) }
        ensures last { IfSome (slice_get self.now.world.world.nodes node) (λ n. result.last ≡ last_call_in n.core.history) }
    {
        let outcome = match self.outcomes.get(node as usize) {
            Some(outcome) => outcome.standing(),
            None => Outcome::Waits,
        };
        Standing {
            node,
            outcome,
            asked: self.world.asked(node),
            last: last_call(self.world.history(node)),
        }
    }
}

impl fmt::Display for Standing {
    fn fmt<W: fmt::Write>(&self, f: &mut fmt::Formatter<W>) -> fmt::Result {
        let node = Decimal(self.node);
        match self.outcome {
            Outcome::Gave(()) => write!(f, "node {node} ended"),
            Outcome::GaveUp(fault) => write!(f, "node {node} gave up: {fault}"),
            Outcome::Waits => match (self.asked, self.last) {
                (Some(call), _) => write!(f, "node {node} waits: {}", CallText(call)),
                (None, Some(call)) => write!(f, "node {node} is still going: {}", CallText(call)),
                (None, None) => write!(f, "node {node} is open"),
            },
        }
    }
}

/// Moves as the text of a schedule, one a line.
#[derive(Clone, Copy)]
pub struct Schedule<'m>(pub &'m [Move]);

impl fmt::Display for Schedule<'_> {
    fn fmt<W: fmt::Write>(&self, f: &mut fmt::Formatter<W>) -> fmt::Result {
        for step in self.0 {
            writeln!(f, "{}", MoveText(*step))?;
        }
        Ok(())
    }
}
