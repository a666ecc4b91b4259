//! The faults, hits and messages of a run.

use crate::head::RunHead;
use crate::log::{Happening, RunLog};
use crate::tally::{Measure, Tally};
use ivy_model::{Call, CallKind, Config, Reply};
use ivy_moves::Move;
use ivy_wire::FrameKind;
use std::alloc::{AllocError, Global};

/// What was counted of a run.
#[derive(Drop)]
pub struct RunCounts {
    /// Of each node, by number.
    pub nodes: Vec<Tally>,
    /// Of each page, by number.
    pub pages: Vec<Tally>,
    /// In all.
    pub all: Tally,
}

/// The page that a call is about, where it is about one.
pub(crate) fn page_of(call: Call, config: &Config) -> Option<usize> {
    match call.kind() {
        CallKind::Word { addr, .. } => {
            let page = addr.checked_div(u64::from(config.page_size))?;
            usize::try_from(page).ok()
        }
        CallKind::Count { .. } | CallKind::Advance { .. } | CallKind::Await { .. } => Some(0),
        CallKind::Alloc { .. } | CallKind::Free { .. } => None,
    }
}

impl RunCounts {
    fn new(alloc: Global, config: &Config) -> Result<RunCounts, AllocError> {
        Ok(RunCounts {
            nodes: vec![in alloc; Tally::zero(); usize::from(config.nodes)]?,
            pages: vec![in alloc; Tally::zero(); config.pages as usize]?,
            all: Tally::zero(),
        })
    }

    /// Adds to a measure, of a node and perhaps of a page.
    fn add(&mut self, node: usize, page: Option<usize>, measure: Measure, count: u64) {
        self.all.add(measure, count);
        if let Some(tally) = self.nodes.get_mut(node) {
            tally.add(measure, count);
        }
        let Some(page) = page else {
            return;
        };
        if let Some(tally) = self.pages.get_mut(page) {
            tally.add(measure, count);
        }
    }

    /// A string was sent, perhaps once more.
    fn string(&mut self, head: &RunHead, is_pulse: bool) {
        let node = usize::from(head.source);
        let page = head.page_place();
        self.add(node, page, Measure::Bytes, head.len as u64);
        if is_pulse && head.kind != FrameKind::Ack {
            self.add(node, page, Measure::Again, 1);
            return;
        }
        self.add(node, page, Measure::Sent(head.kind), 1);
        match (head.kind, head.is_of_its_source()) {
            (FrameKind::ReadReq, true) => self.add(node, page, Measure::ReadFault, 1),
            (FrameKind::WriteReq, true) => self.add(node, page, Measure::WriteFault, 1),
            (FrameKind::ReadReq | FrameKind::WriteReq, false) => {
                self.add(node, page, Measure::Forward, 1);
            }
            _ => {}
        }
    }

    /// An owner that orders copies to be given up, to write, waits as one does that asks for the page.
    fn upgrade(&mut self, happening: &Happening, sent: &[RunHead]) {
        let Move::Turn(_) = happening.step else {
            return;
        };
        for head in sent {
            if head.kind == FrameKind::Inval {
                let page = head.page_place();
                self.add(usize::from(head.source), page, Measure::WriteFault, 1);
                return;
            }
        }
    }

    /// A call that was answered in the turn that began it.
    fn hit(&mut self, happening: &Happening, config: &Config) {
        let Some(record) = happening.record else {
            return;
        };
        if happening.before.is_some() || matches!(record.reply, Reply::Refused(_)) {
            return;
        }
        let page = page_of(record.call, config);
        self.add(usize::from(record.node), page, Measure::Hit, 1);
    }
}

/// Counts what was seen of a run.
pub fn count_run(alloc: Global, config: &Config, log: &RunLog) -> Result<RunCounts, AllocError> {
    let mut counts = RunCounts::new(alloc, config)?;
    for happening in log.happenings.iter() {
        let sent = log.sent_by(happening);
        let is_pulse = matches!(happening.step, Move::Pulse { .. });
        for head in sent {
            counts.string(head, is_pulse);
        }
        counts.upgrade(happening, sent);
        counts.hit(happening, config);
    }
    Ok(counts)
}
