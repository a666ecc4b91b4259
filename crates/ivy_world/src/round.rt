//! The rounds in which a world settles.
ghost use Rattle.std.specs.Prelude.{◌≡◌, ◌↔◌, ℕ, ◌<◌, ◌≤◌, ◌+◌, ◌^◌, length, false, IsTrue, IfSome, MatchOption};
ghost use Rattle.ivy_world.specs.WorldSites.{AreSites};
ghost use Rattle.ivy_world.specs.WorldRounds.{IsUnderWay, IsUnderWayTo, HasNoneUnderWay, IsNextMove, IsDeliveredFrom, round_after};

use ivy_model::Config;
use ivy_moves::Move;
use ivy_site::Site;
use ivy_wire::{Bytes, destination};
use std::alloc::Allocator;

/// How far a round has come: what is under way is delivered, and then each node has a turn.
#[derive(Clone, Copy, Debug, PartialEq, Eq)]
pub(crate) struct Round {
    /// The node whose turn is the next one.
    pub(crate) turn: u64,
    /// Whether a turn of this round did anything.
    pub(crate) stirred: bool,
}

impl Round {
    /// No node had a turn yet.
    pub(crate) fn first() -> Round
        ensures { result ≡ record { turn = 0; stirred = false } }
    {
        Round {
            turn: 0,
            stirred: false,
        }
    }

    /// The round after this move, of which it is said whether it did anything.
    pub(crate) fn after(self, step: Move, stirred: bool) -> Round
        requires room { self.turn + 1 < 2 ^ 64 }
        ensures { result ≡ round_after self step stirred }
    {
        match step {
            Move::Turn(_) => Round {
                turn: self.turn + 1,
                stirred: self.stirred || stirred,
            },
            _ => self,
        }
    }
}

/// The node that a string is under way to.
fn under_way_to<A: Allocator + Copy>(sites: &[Site<A>], string: &Bytes<A>) -> Option<usize>
    ensures { MatchOption result ((to : ℕ) → IsUnderWayTo sites.now string.now to → ⊥) (IsUnderWayTo sites.now string.now) }
{
    let to = usize::from(destination(string.bytes())?);
    if !sites.get(to)?.awaits(string.bytes()) {
        return None;
    }
    Some(to)
}

/// The first string from a place on that is under way, and the node that it is under way to.
fn first_under_way<A: Allocator + Copy>(
    sites: &[Site<A>],
    sent: &[Bytes<A>],
    from: usize,
) -> Option<(usize, usize)>
    ensures found { IfSome result (λ f. IsUnderWay sites.now sent.now f.0 f.1 × (from ≤ f.0)) }
    ensures first { MatchOption result (HasNoneUnderWay sites.now sent.now from (length sent.now)) (λ f. HasNoneUnderWay sites.now sent.now from f.0) }
{
    for index in from..sent.len() {
        if let Some(to) = under_way_to(sites, &sent[index]) {
            return Some((index, to));
        }
    }
    None
}

/// Whether all that a node sent to the others was delivered there.
fn is_delivered_from<A: Allocator + Copy>(sites: &[Site<A>], config: &Config, from: u8) -> bool
    requires sites { AreSites config.now sites.now }
    requires each { length sites.now ≡ config.now.nodes }
    requires from { from < config.now.nodes }
    ensures { IsTrue result ↔ IsDeliveredFrom sites.now from }
{
    let site = &sites[usize::from(from)];
    for to in 0..config.nodes {
        let other = &sites[usize::from(to)];
        if to != from && other.delivered_from(from) != site.sent_to(to) {
            return false;
        }
    }
    true
}

/// Whether all that nodes sent to each other was delivered.
pub(crate) fn is_delivered<A: Allocator + Copy>(sites: &[Site<A>], config: &Config) -> bool
    requires sites { AreSites config.now sites.now }
    requires each { length sites.now ≡ config.now.nodes }
    ensures { IsTrue result ↔ ((from : ℕ) → IsDeliveredFrom sites.now from) }
{
    for from in 0..config.nodes {
        if !is_delivered_from(sites, config, from) {
            return false;
        }
    }
    true
}

/// The next move of a round: before the first turn the first string under way is delivered, of those from place
/// `passed` on, and else the next node has its turn. No string before the place is looked at again.
pub(crate) fn next_move<A: Allocator + Copy>(
    sites: &[Site<A>],
    sent: &[Bytes<A>],
    passed: &mut usize,
    round: Round,
) -> Move
    requires within { passed.old ≤ length sent.now }
    ensures next { IsNextMove sites.now sent.now passed.old round.turn result }
    ensures passed { HasNoneUnderWay sites.now sent.now passed.old passed.new }
    ensures within { passed.new ≤ length sent.now }
{
    if round.turn > 0 {
        return Move::Turn(round.turn);
    }
    let Some((index, to)) = first_under_way(sites, sent, *passed) else {
        *passed = sent.len();
        return Move::Turn(0);
    };
    *passed = index;
    Move::Deliver {
        index: index as u64,
        to: to as u64,
    }
}
