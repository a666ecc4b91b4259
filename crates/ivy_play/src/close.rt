//! The end of a play: what the work of each node gave, beside what its node was answered.
ghost use Rattle.std.specs.Prelude.{◌≡◌, ◌<◌, ◌↔◌, ℕ, Some, IsTrue, IfErr, IfOk, MatchResult, map, slice_get, vec_len};
ghost use Rattle.ivy_calls.specs.Answers.{answer, answers};
ghost use Rattle.ivy_play.specs.Faults.{IsPlayStop};
ghost use Rattle.ivy_play.specs.Ends.{HasEnded, HasGivenUp};
ghost use Rattle.ivy_play.specs.Reports.{HasGiven, HaveGiven};

use crate::joined::{Ended, GivenUp};
use crate::report::Outcome;
use ivy_calls::{Answer, Work};
use ivy_model::{Call, Fault, Record, Reply};
use ivy_world::World;
use std::alloc::Allocator;

/// Whether an answer is of this call, with this reply.
fn is_of(given: Answer, call: Call, reply: Reply) -> bool
    ensures { IsTrue result ↔ (given.call ≡ call) × (given.reply ≡ reply) }
{
    given.call == call && given.reply == reply
}

/// Whether this is the answer of a record.
fn is_same(given: Answer, past: Record) -> bool
    ensures { IsTrue result ↔ given ≡ answer past }
{
    is_of(given, past.call, past.reply)
}

/// Whether these are the answers of a history.
fn are_answers(given: &[Answer], history: &[Record]) -> bool
    ensures { IsTrue result ↔ given.now ≡ answers history.now }
{
    if given.len() != history.len() {
        return false;
    }
    for place in 0..given.len() {
        if !is_same(given[place], history[place]) {
            return false;
        }
    }
    true
}

/// How a node stands whose work gave up [1]. It waits where the work was cut off, or the node has a call in progress.
fn outcome_of_given_up<A: Allocator + Copy, T>(
    world: &World<A>,
    node: u64,
    up: GivenUp,
) -> Result<Outcome<T>, Fault>
    requires { node < world.now.config.nodes }
    ensures stands { IfOk result (HasGivenUp world.now.world node up) }
    ensures stop { IfErr result IsPlayStop }
{
    if up.fault == Fault::Memory {
        return Err(Fault::Memory);
    }
    if up.is_cut || world.asked(node).is_some() {
        return Ok(Outcome::Waits);
    }
    Ok(Outcome::GaveUp(up.fault))
}

/// How a node stands whose work has ended. What it gave counts where it was answered exactly what the node was.
fn outcome_of_ended<A: Allocator + Copy, W: Work>(
    world: &World<A>,
    work: &W,
    node: u64,
    ended: Ended<W::Out, A>,
) -> Outcome<W::Out>
    requires node { node < world.now.config.nodes }
    requires done { W.done work.now node ended.answers.items ended.out }
    ensures given { HasGiven (W.done work.now) world.now.world node result }
    ensures stands { HasEnded world.now.world node ended.answers.items ended.is_cut ended.out result }
{
    // for the proof: the clauses name the work
    let _ = work;
    let Ended {
        answers,
        out,
        is_cut,
    } = ended;
    if is_cut || world.asked(node).is_some() {
        return Outcome::Waits;
    }
    if !are_answers(&answers, world.history(node)) {
        return Outcome::Waits;
    }
    Outcome::Gave(out)
}

/// How a node stands [1].
fn outcome_of<A: Allocator + Copy, W: Work>(
    world: &World<A>,
    work: &W,
    node: u64,
    given: Result<Ended<W::Out, A>, GivenUp>,
) -> Result<Outcome<W::Out>, Fault>
    requires node { node < world.now.config.nodes }
    requires done { IfOk given (λ ended. W.done work.now node ended.answers.items ended.out) }
    ensures given { IfOk result (HasGiven (W.done work.now) world.now.world node) }
    ensures stands { IfOk result (λ outcome. MatchResult given (λ ended. HasEnded world.now.world node ended.answers.items ended.is_cut ended.out outcome) (λ up. HasGivenUp world.now.world node up outcome)) }
    ensures stop { IfErr result IsPlayStop }
{
    match given {
        Ok(ended) => Ok(outcome_of_ended(world, work, node, ended)),
        Err(up) => outcome_of_given_up(world, node, up),
    }
}

/// How the nodes stand [1].
pub(crate) fn outcomes_of<A: Allocator + Copy, W: Work>(
    alloc: A,
    world: &World<A>,
    work: &W,
    all: Vec<Result<Ended<W::Out, A>, GivenUp>, A>,
) -> Result<Vec<Outcome<W::Out>, A>, Fault>
    requires all { vec_len all ≡ world.now.config.nodes }
    requires done { (i : ℕ) (r : _) → slice_get all.items i ≡ Some r → IfOk r (λ ended. W.done work.now i ended.answers.items ended.out) }
    ensures all { IfOk result (λ outcomes. vec_len outcomes ≡ world.now.config.nodes) }
    ensures given { IfOk result (λ outcomes. HaveGiven (W.done work.now) world.now.world outcomes.items) }
    ensures stand { IfOk result (λ outcomes. (i : ℕ) (outcome : _) → slice_get outcomes.items i ≡ Some outcome → (r : _) → slice_get all.items i ≡ Some r → MatchResult r (λ ended. HasEnded world.now.world i ended.answers.items ended.is_cut ended.out outcome) (λ up. HasGivenUp world.now.world i up outcome)) }
    ensures stop { IfErr result IsPlayStop }
{
    let mut outcomes = Vec::new(alloc);
    for given in all {
        let node = outcomes.len() as u64;
        outcomes.reserve(1)?;
        let outcome = outcome_of(world, work, node, given)?;
        outcomes.push_reserved(outcome);
    }
    Ok(outcomes)
}
