//! The driver, which makes the moves, and lets a worker run where its node has a turn.
ghost use Rattle.std.specs.Prelude.{IfErr};
ghost use Rattle.ivy_play.specs.Faults.{IsPlayStop};

use crate::baton::Baton;
use crate::source::MoveSource;
use crate::stage::{Setting, Stage};
use ivy_model::Fault;
use ivy_world::Move;
use std::alloc::Allocator;
use std::sync::{Mutex, Wait};

/// What all threads of a play share. Each reference has a lifetime of its own.
#[derive(Drop)]
pub(crate) struct Play<'r, 's, 'b, S: Setting, A: Allocator, M: MoveSource, R> {
    pub(crate) rt: &'r R,
    pub(crate) alloc: A,
    pub(crate) stage: &'s Mutex<Stage<S, A, M>>,
    pub(crate) baton: &'b Baton<A>,
}

impl<'r, 's, 'b, S, A, M, R> Play<'r, 's, 'b, S, A, M, R>
where
    S: Setting,
    A: Allocator + Copy,
    M: MoveSource + Drop,
    R: Wait,
{
    /// Whether the work of a node goes on before the turn of the node that is asked for now.
    fn goes_on(&self, node: u8) -> bool {
        self.stage.lock(self.rt).goes_on(node)
    }

    /// Where the work of a node goes on before this turn of it, it does, until it makes a call, or calls of a row, or ends.
    fn let_run(&self, node: u64) {
        let Ok(node) = u8::try_from(node) else {
            return;
        };
        if self.goes_on(node) {
            self.baton.let_run(self.rt, node);
        }
    }

    /// Makes a move, before which the work of the node that has a turn goes on; or changes nothing [1, 17, 19]. It says
    /// whether the move did anything. Where that work makes calls of a row that are answered at once, the turns in which they
    /// are go with this one, and are not made again where they are asked for right behind it.
    fn make(&self, step: Move) -> Result<bool, Fault>
        ensures { IfErr result IsPlayStop }
    {
        if let Move::Turn(node) = step {
            self.let_run(node);
        }
        self.stage.lock(self.rt).make(step)
    }

    /// The next move of the source [1].
    fn next(&self) -> Result<Option<Move>, Fault>
        ensures { IfErr result IsPlayStop }
    {
        self.stage.lock(self.rt).next()
    }

    /// Makes the moves of the source, and then lets the world settle, with at most so many moves [1, 17, 19].
    pub(crate) fn drive(&self, most: u64) -> Result<(), Fault>
        ensures { IfErr result IsPlayStop }
    {
        for _ in 0..u64::MAX {
            let Some(step) = self.next()? else {
                break;
            };
            self.make(step)?;
        }
        self.settle(most)
    }

    /// How many moves are left of those that let the world settle.
    fn left(&self) -> u64 {
        self.stage.lock(self.rt).left()
    }

    /// Delivers what is under way, with at most so many moves in all.
    fn deliver_all(&self, most: u64) -> Result<(), Fault>
        ensures { IfErr result IsPlayStop }
    {
        for _ in 0..most {
            if self.left() == 0 || !self.stage.lock(self.rt).deliver_next()? {
                return Ok(());
            }
        }
        Ok(())
    }

    /// Gives each node a turn, before which its work goes on, as long as moves are left. It says whether a turn did anything.
    fn turn_all(&self, nodes: u64) -> Result<bool, Fault>
        ensures { IfErr result IsPlayStop }
    {
        let mut stirred = false;
        for node in 0..nodes {
            if self.left() > 0 && self.make(Move::Turn(node))? {
                stirred = true;
            }
        }
        Ok(stirred)
    }

    /// Lets the world come to rest, with at most so many moves: it delivers what is under way until nothing is, gives each
    /// node a turn, and begins again, until the world stands still, or fewer moves are left than there are nodes.
    fn settle(&self, most: u64) -> Result<(), Fault>
        ensures { IfErr result IsPlayStop }
    {
        let nodes = self.stage.lock(self.rt).nodes();
        for _ in 0..most {
            self.deliver_all(most)?;
            let stirred = self.turn_all(nodes)?;
            if self.left() < nodes {
                return Ok(());
            }
            if !stirred && self.stage.lock(self.rt).stands_still()? {
                return Ok(());
            }
        }
        Ok(())
    }
}
