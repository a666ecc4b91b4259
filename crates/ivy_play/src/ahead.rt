//! Turns of a node that were made with the last row of its work, before they were asked for.
ghost use Rattle.std.specs.Prelude.{◌≡◌, ◌+◌, ◌<◌, true};
ghost use Rattle.ivy_moves.specs.declared.Move.TheVariants.{Turn};

use ivy_world::Move;

/// How many turns of a node were made with the last row of its work, and are still to be asked for. No other move was made
/// behind them.
#[derive(Clone, Copy)]
pub(crate) struct Ahead {
    turns: usize,
    of_node: u64,
}

impl Ahead {
    /// How many turns of a node.
    pub(crate) fn new(turns: usize, of_node: u64) -> Ahead
        ensures turns { result.turns ≡ turns }
        ensures of { result.of_node ≡ of_node }
    {
        Ahead { turns, of_node }
    }

    /// No turn.
    pub(crate) fn none() -> Ahead
        ensures { result.turns ≡ 0 }
    {
        Ahead::new(0, 0)
    }

    /// Whether this move is one of the turns.
    pub(crate) fn has(self, step: Move) -> bool
        ensures { result ≡ true → (0 < self.turns) × (step ≡ Turn self.of_node) }
    {
        self.turns > 0 && step == Move::Turn(self.of_node)
    }

    /// The turns that are left, once one of them was asked for.
    pub(crate) fn without_one(self) -> Ahead
        requires { 0 < self.turns }
        ensures turns { self.turns ≡ result.turns + 1 }
        ensures of { result.of_node ≡ self.of_node }
    {
        Ahead::new(self.turns - 1, self.of_node)
    }
}
