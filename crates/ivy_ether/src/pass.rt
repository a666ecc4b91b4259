//! Passes.
ghost use Rattle.std.specs.Prelude.{◌≡◌, [], Some, None, MatchOption};
ghost use Rattle.crossbeam_queue.specs.Passes.{view};
ghost use Rattle.ivy_ether.specs.Held.{held};

use crate::item::View;
use std::marker::Model;

/// The right to make steps of one ether, with the node whose seat it took. `I` is the ether's item.
///
/// Contracts see the ether that it is of, and what it knows.
#[derive(Drop)]
pub struct Pass<I> {
    pub(crate) node: Option<u8>,
    pub(crate) token: crossbeam_queue::Pass<I, View>,
}

impl<I> Model for Pass<I> {
    ghost use Rattle.std.specs.Prelude.{◌≡◌, []};
    ghost use Rattle.crossbeam_queue.specs.Passes as passes;
    ghost use Rattle.ivy_ether.specs.Held.{Held, held};

    ghost Value = { Held };

    ghost view = { λ p. held p.token.table_id (passes.view p.token) };

    ghost invariant = { λ p. (p.token.me.1 ≡ []) × ((passes.view p.token).node ≡ p.node) };
}

/// A pass that has no seat.
pub(crate) fn unseated<I>(token: crossbeam_queue::Pass<I, View>) -> Pass<I>
    requires token { token.me.1 ≡ [] }
    requires none { (view token).node ≡ None }
    ensures { result ≡ held token.table_id (view token) }
{
    Pass { node: None, token }
}
