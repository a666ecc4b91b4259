//! The world of a play behind its lock, with the moves that were made.
ghost use Rattle.std.specs.Prelude.{◌≡◌, ◌+◌, ◌*◌, ◌≤◌, ◌++◌, ◌∷◌, [], List, Ok, false, true, length, take, IfErr, IfOk, IfSome, OnErr, OnOk};
ghost use Rattle.ivy_model.specs.declared.Config.{Config};
ghost use Rattle.ivy_model.specs.stated.Config.{IsConfig};
ghost use Rattle.ivy_model.specs.stated.Legal.{HasWidth};
ghost use Rattle.ivy_moves.specs.declared.Move.{Move};
ghost use Rattle.ivy_moves.specs.stated.Worlds.{Moves};
ghost use Rattle.ivy_host.specs.stated.Hosts.{host_rules};
ghost use Rattle.ivy_host.specs.stated.Managers.{managed_ops};
ghost use Rattle.ivy_world.specs.WorldRounds.{DoesNothing};
ghost use Rattle.ivy_world.specs.stated.Runs.{IsSameRun};
ghost use Rattle.ivy_world.specs.Settling.{HasSettled};
ghost use Rattle.ivy_play.specs.Faults.{IsPlayStop, IsUnanswered};
ghost use Rattle.ivy_play.specs.Given.{AreDrawn, HoldsOn};
ghost use Rattle.ivy_play.specs.Played.{HasDrawn, HasGoneOn, IsAnsweredAt, IsStillWhere, LeadsOn, first_moment, own_opening};

use crate::ahead::Ahead;
use crate::budget::Budget;
use crate::handed::{Handed, hand};
use crate::source::MoveSource;
use crate::together::{HandedRow, RowCalls, play_row};
use ivy_model::{CANNOT_HAPPEN, Call, Config, Fault, Reply};
use ivy_world::{Move, Rest, World};
use std::alloc::Allocator;
use std::marker::{Brand, Model, PhantomData};

/// Names the configuration of a play, how its nodes began, how many moves may let its world settle, and the moves that its
/// source gives. Whoever begins one picks them, at `Brand`.
pub trait Setting {
    ghost use Rattle.std.specs.Prelude.{ℕ, List};
    ghost use Rattle.ivy_model.specs.declared.Config.{Config};
    ghost use Rattle.ivy_host.specs.declared.opening.Opening.{Opening};
    ghost use Rattle.ivy_play.specs.Given.{Giving};

    ghost config: { Config };

    ghost opened: { Opening };

    ghost settle: { ℕ };

    ghost gives: { List Giving };
}

impl Setting for Brand {
    ghost use Rattle.std.specs.Prelude.{[]};
    ghost use Rattle.ivy_host.specs.declared.opening.Opening.TheVariants.{Configured};
    ghost use Rattle.ivy_play.specs.Played.{no_config};

    ghost config = { no_config };

    ghost opened = { Configured };

    ghost settle = { 0 };

    ghost gives = { [] };
}

/// The reply that a node got to its call of this number, counted from 0, where it got one.
fn reply_of<A: Allocator + Copy>(
    world: &World<A>,
    node: u8,
    number: usize,
    call: Call,
) -> Option<Reply>
    ensures { IfSome result (λ reply. IsAnsweredAt world.now.world node number call reply) }
{
    let node = u64::from(node);
    if node >= world.nodes() {
        return None;
    }
    let record = world.history(node).get(number)?;
    if record.call != call {
        return None;
    }
    Some(record.reply)
}

/// Makes a move, and lists it; or changes nothing [1, 17, 19]. It says whether it did anything.
pub(crate) fn play_move<A: Allocator + Copy>(
    world: &mut World<A>,
    moves: &mut Vec<Move, A>,
    step: Move,
) -> Result<bool, Fault>
    ensures stays { IsSameRun world.old world.new }
    ensures idle { result ≡ Ok false → DoesNothing world.old.world step × (world.new ≡ world.old) }
    ensures made { OnOk result (Moves (host_rules managed_ops) world.old.config world.old.world step world.new.world) }
    ensures listed { OnOk result (moves.new.items ≡ moves.old.items ++ step ∷ []) }
    ensures longer { OnOk result (length moves.new.items ≡ length moves.old.items + 1) }
    ensures refused { OnErr result ((world.new ≡ world.old) × (moves.new.items ≡ moves.old.items)) }
    ensures played { LeadsOn moves.old.items world.old moves.new.items world.new }
    ensures stop { IfErr result IsPlayStop }
{
    moves.reserve(1)?;
    let did = world.make(step)?;
    moves.push_reserved(step);
    Ok(did)
}

/// Gives each node a turn, as long as none does anything, and lists them [1, 17]. It says whether the world stands still.
fn find_still<A: Allocator + Copy>(
    world: &mut World<A>,
    moves: &mut Vec<Move, A>,
) -> Result<bool, Fault>
    ensures played { LeadsOn moves.old.items world.old moves.new.items world.new }
    ensures more { (more : List Move) × (moves.new.items ≡ moves.old.items ++ more) }
    ensures still { result ≡ Ok true → HasSettled world.new }
    ensures longer { length moves.old.items ≤ length moves.new.items }
    ensures few { length moves.new.items ≤ length moves.old.items + world.old.config.nodes }
    ensures stop { IfErr result IsPlayStop }
{
    for node in 0..world.nodes() {
        let stirred = play_move(world, moves, Move::Turn(node))?;
        if stirred {
            return Ok(false);
        }
    }
    // for the proof: what holds of a world at every moment
    world.keeps();
    let none_left = world.is_delivered();
    Ok(none_left)
}

/// What a world has come to.
fn rest_of(is_still: bool) -> Rest
    ensures { result ≡ Rest.Still → is_still ≡ true }
{
    if is_still { Rest::Still } else { Rest::Going }
}

/// The move that is held, once this one was made.
fn not_made(held: Option<Move>, step: Move) -> Option<Move>
    ensures { HoldsOn held step result }
{
    if held == Some(step) { None } else { held }
}

/// The world of a play, the moves that were made, whether it is known to stand still, and where its moves come from.
#[derive(Drop)]
pub(crate) struct Stage<S: Setting, A: Allocator, M: MoveSource> {
    world: World<A>,
    moves: Vec<Move, A>,
    budget: Budget,
    rest: Rest,
    config: Config,
    ahead: Ahead,
    source: M,
    /// The move that the source gave last, where it was not made yet.
    held: Option<Move>,
    of: PhantomData<S>,
}

impl<S: Setting, A: Allocator, M: MoveSource> Model for Stage<S, A, M> {
    ghost use Rattle.std.specs.Prelude.{◌≡◌};
    ghost use Rattle.ivy_model.specs.stated.Config.{IsConfig};
    ghost use Rattle.ivy_play.specs.Given.{IsGiven};
    ghost use Rattle.ivy_play.specs.Played.{HasDrawn, HasGoneOn, IsStillWhere, first_moment};

    ghost Value = { Unit {0} };

    ghost view = { λ _. tt };

    ghost invariant = { λ s. HasGoneOn (first_moment S.opened S.config) s.moves.items s.world × IsStillWhere s.rest s.world × IsConfig s.config × (s.config ≡ S.config) × (s.budget.most ≡ S.settle) × HasDrawn S.config S.settle s.moves.items s.budget.drawn × IsGiven S.config S.gives s.moves.items s.world s.budget s.ahead s.held (M.gives s.source) };
}

impl<S: Setting, A: Allocator + Copy, M: MoveSource + Drop> Stage<S, A, M> {
    /// The opening world of own code. So many moves may let it settle, once the source has come to its end.
    pub(crate) fn new(alloc: A, config: Config, world: World<A>, source: M, settle: u64) -> Self
        requires opens { world ≡ own_opening S.opened S.config }
        requires limits { IsConfig config }
        requires config { config ≡ S.config }
        requires gives { M.gives source ≡ S.gives }
        requires settle { settle ≡ S.settle }
    {
        Stage {
            world,
            moves: Vec::new(alloc),
            budget: Budget::new(settle),
            rest: Rest::Going,
            config,
            ahead: Ahead::none(),
            source,
            held: None,
            of: PhantomData,
        }
    }

    /// Whether the work of a node goes on before the turn of the node that is asked for now: that turn was not made yet, and
    /// each call of the node has its reply.
    pub(crate) fn goes_on(&self, node: u8) -> bool {
        let node = u64::from(node);
        node < self.world.nodes() && !self.ahead.has(Move::Turn(node)) && self.world.is_free(node)
    }

    /// How many nodes there are.
    pub(crate) fn nodes(&self) -> u64 {
        self.world.nodes()
    }

    /// The work of a node makes this call [1, 21].
    pub(crate) fn hand(&mut self, node: u8, call: Call) -> Result<Handed, Fault>
        requires { HasWidth call }
        ensures own { IfOk result (λ handed. handed.call ≡ call) }
        ensures unanswered { IfErr result IsUnanswered }
    {
        let node = u64::from(node);
        if node >= self.world.nodes() {
            return Err(CANNOT_HAPPEN);
        }
        if !self.world.is_free(node) {
            return Err(CANNOT_HAPPEN);
        }
        self.rest = Rest::Going;
        hand(&mut self.world, node, call)
    }

    /// The work of a node makes these calls of a row, with no other move between [1, 17]. It says how many, which have their
    /// replies or wait; none where the moves have run out. The turns in which they were made are those that the node is asked
    /// to have next, the first of them that before which the work goes on.
    pub(crate) fn call_row<'b>(
        &mut self,
        asked: RowCalls<'b>,
    ) -> Result<Option<HandedRow<'b>>, Fault>
        ensures own { IfOk result (λ row. IfSome row (λ handed. handed.asked ≡ asked.entry)) }
        ensures fits { IfOk result (λ row. IfSome row (λ handed. 8 * handed.calls ≤ length asked.entry.bytes.now)) }
        ensures stop { IfErr result IsPlayStop }
    {
        let made = self.moves.len();
        if asked.node >= self.world.nodes() || self.budget.is_spent(made) {
            return Ok(None);
        }
        self.rest = Rest::Going;
        let handed = play_row(&mut self.world, &mut self.moves, &self.config, asked)?;
        self.budget = self.budget.after(self.moves.len());
        self.ahead = Ahead::new(self.moves.len().saturating_sub(made), asked.node);
        Ok(Some(handed))
    }

    /// The reply that a node got to its call of this number, counted from 0, where it got one.
    pub(crate) fn reply(&self, node: u8, number: usize, call: Call) -> Option<Reply> {
        reply_of(&self.world, node, number, call)
    }

    /// The next move, which the source gives, where the one that it gave last was made [1]. Where there is none, the moves
    /// from here on let the world settle.
    pub(crate) fn next(&mut self) -> Result<Option<Move>, Fault>
        ensures { IfErr result IsPlayStop }
    {
        if let Some(step) = self.held {
            return Ok(Some(step));
        }
        if self.budget.is_settling() {
            return Ok(None);
        }
        match self.source.next(&self.world)? {
            Some(step) => {
                self.held = Some(step);
                Ok(Some(step))
            }
            None => {
                self.budget = self.budget.settling(self.moves.len());
                Ok(None)
            }
        }
    }

    /// Makes a move, or changes nothing [1, 17, 19]. It says whether it did anything. The turns that were made with a row are
    /// not made again. Nor is a move that is to let the world settle, where none is left.
    pub(crate) fn make(&mut self, step: Move) -> Result<bool, Fault>
        ensures { IfErr result IsPlayStop }
    {
        if self.ahead.has(step) {
            self.ahead = self.ahead.without_one();
            self.held = not_made(self.held, step);
            return Ok(true);
        }
        if self.budget.is_spent(self.moves.len()) {
            return Ok(false);
        }
        self.rest = Rest::Going;
        let did = play_move(&mut self.world, &mut self.moves, step)?;
        self.budget = self.budget.after(self.moves.len());
        self.ahead = Ahead::none();
        self.held = not_made(self.held, step);
        Ok(did)
    }

    /// How many moves are left of those that let the world settle.
    pub(crate) fn left(&self) -> u64 {
        self.budget.left(self.moves.len())
    }

    /// Delivers the first string that is under way [1, 17]. It says whether one was.
    pub(crate) fn deliver_next(&mut self) -> Result<bool, Fault>
        ensures { IfErr result IsPlayStop }
    {
        let Some(step) = self.world.next_delivery() else {
            return Ok(false);
        };
        self.make(step)?;
        Ok(true)
    }

    /// Whether the world stands still, which a turn of each node shows, where so many moves are left [1, 17].
    pub(crate) fn stands_still(&mut self) -> Result<bool, Fault>
        ensures { IfErr result IsPlayStop }
    {
        if self.budget.left(self.moves.len()) < self.world.nodes() {
            return Ok(false);
        }
        self.ahead = Ahead::none();
        self.rest = Rest::Going;
        let is_still = find_still(&mut self.world, &mut self.moves)?;
        self.rest = rest_of(is_still);
        Ok(is_still)
    }

    /// What was played [1]. A source that has not come to its end has given more moves than memory holds.
    pub(crate) fn into_played(self) -> Result<Played<A>, Fault>
        ensures played { IfOk result (λ p. HasGoneOn (first_moment S.opened S.config) p.moves.items p.world × IsStillWhere p.rest p.world × HasDrawn S.config S.settle p.moves.items p.drawn) }
        ensures given { IfOk result (λ p. AreDrawn S.config S.gives p.moves.items p.drawn p.world) }
        ensures stop { IfErr result IsPlayStop }
    {
        let Stage {
            world,
            moves,
            budget,
            rest,
            config: _,
            ahead: _,
            source: _,
            held: _,
            of: _,
        } = self;
        if !budget.is_settling() {
            return Err(Fault::Memory);
        }
        Ok(Played {
            world,
            moves,
            drawn: budget.drawn,
            rest,
        })
    }
}

/// What was played: the world, the moves that were made, and whether it is known to stand still.
#[derive(Drop)]
pub(crate) struct Played<A: Allocator> {
    pub(crate) world: World<A>,
    pub(crate) moves: Vec<Move, A>,
    /// How many of the moves were not made to let the world settle.
    pub(crate) drawn: usize,
    pub(crate) rest: Rest,
}
