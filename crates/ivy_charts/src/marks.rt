//! Where everything stands in a picture.

use crate::log::{Happening, RunLog};
use crate::part::{Drawn, tells};
use ivy_link::Verdict;
use ivy_moves::Move;
use std::alloc::{AllocError, Global};

/// From one line of a node to the next.
const LANE: u64 = 150;

/// From one row to the next.
const ROW: u64 = 20;

/// Left of the first line.
const LEFT: u64 = 180;

/// Above the first row.
const TOP: u64 = 94;

/// A place in the picture.
#[derive(Clone, Copy)]
pub(crate) struct Spot {
    pub(crate) x: u64,
    pub(crate) y: u64,
}

/// Where the line of a node is.
pub(crate) fn lane(node: u64) -> u64 {
    node.saturating_mul(LANE).saturating_add(LEFT)
}

/// How many lines of nodes are left of here, or here.
pub(crate) fn lanes_left_of(x: u64) -> u64 {
    if x < LEFT { 0 } else { (x - LEFT) / LANE + 1 }
}

/// Where a row is.
pub(crate) fn row(number: u64) -> u64 {
    number.saturating_mul(ROW).saturating_add(TOP)
}

/// The number that lies these hundredths of the way from one to another.
fn along(from: u64, to: u64, hundredths: u64) -> u64 {
    if to >= from {
        from.saturating_add((to - from).saturating_mul(hundredths) / 100)
    } else {
        from - ((from - to).saturating_mul(hundredths) / 100).min(from)
    }
}

/// The spot that lies these hundredths of the way from one to another.
pub(crate) fn between(from: Spot, to: Spot, hundredths: u64) -> Spot {
    Spot {
        x: along(from.x, to.x, hundredths),
        y: along(from.y, to.y, hundredths),
    }
}

/// A way of a string.
#[derive(Clone, Copy)]
pub(crate) struct Way {
    /// The string's place among all.
    pub(crate) string: usize,
    pub(crate) from: Spot,
    pub(crate) to: Spot,
    /// What it was where it came, or nothing where it was lost.
    pub(crate) heard: Option<Verdict>,
    /// Whether a pulse sent it.
    pub(crate) is_again: bool,
}

/// How much of a lost string's way is drawn, in hundredths.
const LOST: u64 = 70;

impl Way {
    /// Where its line ends: short of the node where it was lost.
    pub(crate) fn tip(&self) -> Spot {
        match self.heard {
            Some(_) => self.to,
            None => between(self.from, self.to, LOST),
        }
    }

    /// How far right its line is at a height: where it begins above, and where it ends below.
    pub(crate) fn x_at(&self, y: u64) -> u64 {
        let (from, tip) = (self.from, self.tip());
        let all = tip.y.saturating_sub(from.y);
        let down = y.saturating_sub(from.y).min(all);
        let across = from.x.abs_diff(tip.x).saturating_mul(down);
        let across = across.checked_div(all).unwrap_or(0);
        if tip.x >= from.x {
            from.x.saturating_add(across)
        } else {
            from.x.saturating_sub(across)
        }
    }
}

/// The move that sent a string: its row, whether it was a pulse, and whether it is drawn.
#[derive(Clone, Copy)]
struct Sender {
    row: u64,
    is_again: bool,
    is_drawn: bool,
}

/// The row of each move, and the move that sent each string.
#[derive(Drop)]
pub(crate) struct Marks {
    pub(crate) rows: Vec<u64>,
    /// Of each string, the move that sent it.
    senders: Vec<Sender>,
    /// Which moves are drawn.
    drawn: Vec<bool>,
    /// Of each string, whether it came, in a move that is drawn or not.
    came: Vec<bool>,
    pub(crate) ways: Vec<Way>,
    /// How many rows there are.
    pub(crate) height: u64,
}

impl Marks {
    /// Whether something is to be seen of a move, and which strings it sent.
    fn pass(
        &mut self,
        log: &RunLog,
        happening: &Happening,
        is_drawn: bool,
    ) -> Result<(), AllocError> {
        if is_drawn {
            self.height = self.height.saturating_add(1);
        }
        self.rows.push(self.height)?;
        self.drawn.push(is_drawn)?;
        let sender = Sender {
            row: self.height,
            is_again: matches!(happening.step, Move::Pulse { .. }),
            is_drawn,
        };
        self.send(log.sent_by(happening).len(), sender)
    }

    /// Notes that strings are sent.
    fn send(&mut self, count: usize, sender: Sender) -> Result<(), AllocError> {
        for _ in 0..count {
            self.senders.push(sender)?;
            self.came.push(false)?;
        }
        Ok(())
    }

    /// The row of a move, by its place among all.
    pub(crate) fn row_of(&self, place: usize) -> u64 {
        self.rows.get(place).copied().unwrap_or(0)
    }

    /// Whether a move is drawn, by its place among all.
    pub(crate) fn is_drawn(&self, place: usize) -> bool {
        self.drawn.get(place).copied().unwrap_or(false)
    }

    /// Where a string leaves, and what sent it.
    fn start(&self, log: &RunLog, string: usize) -> Option<(Spot, Sender)> {
        let head = log.strings.get(string)?;
        let sender = self.senders.get(string).copied()?;
        let spot = Spot {
            x: lane(u64::from(head.source)),
            y: row(sender.row),
        };
        Some((spot, sender))
    }

    /// Where a string comes in a move, where something of its way is drawn: below all rows where the move itself is not.
    fn end(&self, place: usize, string: usize, to: u64) -> Option<Spot> {
        let is_sent = self.senders.get(string).copied()?.is_drawn;
        let y = match (self.is_drawn(place), is_sent) {
            (true, _) => row(self.row_of(place)),
            (false, true) => row(self.height.saturating_add(1)),
            (false, false) => return None,
        };
        Some(Spot { x: lane(to), y })
    }

    /// Notes that a string came.
    fn note_came(&mut self, string: usize) {
        if let Some(came) = self.came.get_mut(string) {
            *came = true;
        }
    }

    /// Adds the ways of the strings that came.
    fn come(&mut self, log: &RunLog) -> Result<(), AllocError> {
        for place in 0..log.happenings.len() {
            let happening = &log.happenings[place];
            if let Move::Deliver { index, to } = happening.step {
                let string = index as usize;
                self.note_came(string);
                let is_shown = self.is_drawn(place) || tells(happening);
                if let (true, Some(end)) = (is_shown, self.end(place, string, to)) {
                    self.add(log, string, end, happening.heard)?;
                }
            }
        }
        Ok(())
    }

    /// Adds the way of a string to where it came or was lost.
    fn add(
        &mut self,
        log: &RunLog,
        string: usize,
        to: Spot,
        heard: Option<Verdict>,
    ) -> Result<(), AllocError> {
        if let Some((from, sender)) = self.start(log, string) {
            self.ways.push(Way {
                string,
                from,
                to,
                heard,
                is_again: sender.is_again,
            })?;
        }
        Ok(())
    }

    /// Where the way of a lost string ends: below the row of the move that sent it. None where that is not drawn.
    fn end_of_lost(&self, log: &RunLog, drawn: &Drawn, string: usize) -> Option<Spot> {
        let head = log.strings.get(string)?;
        let (from, sender) = self.start(log, string)?;
        if !sender.is_drawn || !drawn.has_lost(sender.is_again) {
            return None;
        }
        Some(Spot {
            x: lane(u64::from(head.dest)),
            y: from.y.saturating_add(ROW),
        })
    }

    /// Adds the ways of the strings that never came.
    fn lose(&mut self, log: &RunLog, drawn: &Drawn) -> Result<(), AllocError> {
        for string in 0..log.strings.len() {
            if self.came.get(string) != Some(&false) {
                continue;
            }
            if let Some(to) = self.end_of_lost(log, drawn, string) {
                self.add(log, string, to, None)?;
            }
        }
        Ok(())
    }

    /// Where everything stands in the picture of a run.
    pub(crate) fn of(alloc: Global, log: &RunLog, drawn: &Drawn) -> Result<Marks, AllocError> {
        let mut marks = Marks {
            rows: Vec::new(alloc),
            senders: Vec::new(alloc),
            drawn: Vec::new(alloc),
            came: Vec::new(alloc),
            ways: Vec::new(alloc),
            height: 0,
        };
        match marks.read(log, drawn) {
            Ok(()) => Ok(marks),
            Err(error) => Err(error),
        }
    }

    /// Goes through what was seen of a run.
    fn read(&mut self, log: &RunLog, drawn: &Drawn) -> Result<(), AllocError> {
        for place in 0..log.happenings.len() {
            let happening = &log.happenings[place];
            self.pass(log, happening, drawn.has(place, happening))?;
        }
        self.come(log)?;
        self.lose(log, drawn)
    }
}
