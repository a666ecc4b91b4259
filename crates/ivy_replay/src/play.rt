//! A world that is played move by move, and what was seen of it.
ghost use Rattle.std.specs.Prelude.{◌≡◌, length, OnOk};
ghost use Rattle.ivy_replay.specs.Seen.{NotesHeads, NotesMove, NotesSome, SeesMove, happenings_in, heads_in, sent_in};

use crate::progress::Progress;
use crate::text::Text;
use crate::world::{call_in_progress, history_of, node_of};
use ivy_charts::{Happening, Receivers, RunHead, RunLog, Verdict};
use ivy_model::{Call, Config, Fault};
use ivy_moves::Move;
use ivy_wire::Bytes;
use ivy_world::World;
use std::alloc::{AllocError, Global};

/// A world that is played move by move, and what was seen of it.
#[derive(Drop)]
pub struct Play {
    alloc: Global,
    config: Config,
    world: World<Global>,
    receivers: Receivers,
    log: RunLog,
}

/// What is to be noted of a move before it is made.
#[derive(Clone, Copy)]
struct Before {
    step: Move,
    /// The node whose event it is.
    node: u64,
    /// How many strings were sent, and how many replies were recorded at the node.
    sent: usize,
    records: usize,
    asked: Option<Call>,
}

/// Reads the strings whose heads are not noted yet.
fn read_heads(
    config: &Config,
    sent: &[Bytes<Global>],
    heads: &mut Vec<RunHead>,
) -> Result<(), Fault>
    ensures { OnOk result (NotesHeads config.now sent.now heads.old.items heads.new.items) }
{
    for index in heads.len()..sent.len() {
        heads.push(RunHead::read(config, sent[index].bytes())?)?;
    }
    Ok(())
}

impl Play {
    /// The opening world of the programs [1, 2, 20].
    pub fn new(text: &Text<'_>) -> Result<Play, Fault> {
        Ok(Play {
            alloc: text.alloc,
            config: text.config,
            world: text.world()?,
            receivers: Receivers::new(text.alloc),
            log: RunLog::new(text.alloc),
        })
    }

    /// The world.
    pub fn world(&self) -> &World<Global> {
        &self.world
    }

    /// What was seen of it.
    pub fn log(&self) -> &RunLog {
        &self.log
    }

    /// What was seen of it.
    pub fn into_log(self) -> RunLog {
        self.log
    }

    /// How many messages of a node were delivered to another.
    pub(crate) fn delivered(&self, to: u64, source: u8) -> u64 {
        self.receivers.delivered(to, source)
    }

    /// Reads the strings that were sent since.
    fn read_strings(&mut self) -> Result<(), Fault>
        ensures config { self.new.config ≡ self.old.config }
        ensures world { self.new.world ≡ self.old.world }
        ensures happenings { happenings_in self.new ≡ happenings_in self.old }
        ensures heads { OnOk result (NotesHeads self.old.config (sent_in self.old) (heads_in self.old) (heads_in self.new)) }
    {
        read_heads(&self.config, self.world.sent(), &mut self.log.strings)
    }

    /// What the string of a move is to its node, and which messages are served then.
    fn hear(&mut self, step: Move, served: &mut Vec<usize>) -> Result<Option<Verdict>, AllocError>
        ensures world { self.new.world ≡ self.old.world }
        ensures log { self.new.log ≡ self.old.log }
    {
        let Move::Deliver { index, to } = step else {
            return Ok(None);
        };
        let Some(head) = self.log.strings.get(index as usize).copied() else {
            return Ok(None);
        };
        let verdict = self.receivers.hear(to, index as usize, &head, served)?;
        Ok(Some(verdict))
    }

    /// What is to be noted of a move before it is made.
    fn before(&self, step: Move) -> Before
        ensures step { result.step ≡ step }
        ensures sent { result.sent ≡ length (sent_in self.now) }
    {
        let node = node_of(step);
        Before {
            step,
            node,
            sent: self.world.sent().len(),
            records: history_of(&self.world, node).len(),
            asked: call_in_progress(&self.world, node),
        }
    }

    /// Notes what a move did.
    fn note(
        &mut self,
        before: &Before,
        heard: Option<Verdict>,
        served: Vec<usize>,
    ) -> Result<(), AllocError>
        ensures world { self.new.world ≡ self.old.world }
        ensures heads { heads_in self.new ≡ heads_in self.old }
        ensures noted { OnOk result (NotesMove before.now heard served.items self.old self.new) }
    {
        let node = before.node;
        self.log.happenings.push(Happening {
            step: before.step,
            node,
            sent_before: before.sent,
            sent_after: self.world.sent().len(),
            heard,
            served,
            before: before.asked,
            after: call_in_progress(&self.world, node),
            record: history_of(&self.world, node).get(before.records).copied(),
        })?;
        Ok(())
    }

    /// Notes what a move did, and which messages its node served.
    fn note_served(&mut self, before: &Before) -> Result<(), AllocError>
        ensures world { self.new.world ≡ self.old.world }
        ensures heads { heads_in self.new ≡ heads_in self.old }
        ensures noted { OnOk result (NotesSome before.now self.old self.new) }
    {
        let mut served = Vec::new(self.alloc);
        match self.hear(before.step, &mut served) {
            Ok(heard) => self.note(before, heard, served),
            Err(error) => Err(error),
        }
    }

    /// Makes a move, and notes what it did [1, 17, 19].
    pub fn make(&mut self, step: Move) -> Result<(), Fault>
        ensures seen { OnOk result (SeesMove step self.old self.new) }
    {
        let before = self.before(step);
        if let Err((_place, fault)) = self.world.run(&[step]) {
            return Err(fault);
        }
        self.read_strings()?;
        Ok(self.note_served(&before)?)
    }
}

impl Play {
    /// Makes moves, and tells how far it is.
    fn make_all<P: Progress>(&mut self, moves: &[Move], progress: &mut P) -> Result<(), Fault> {
        for made in 0..moves.len() {
            progress.tell(made as u64, "moves");
            self.make(moves[made])?;
        }
        Ok(())
    }
}

/// What was seen of the run by these moves [1, 2, 17, 19, 20].
pub fn seen<P: Progress>(text: &Text<'_>, moves: &[Move], progress: &mut P) -> Result<Play, Fault> {
    let mut play = Play::new(text)?;
    match play.make_all(moves, progress) {
        Ok(()) => Ok(play),
        Err(fault) => Err(fault),
    }
}
