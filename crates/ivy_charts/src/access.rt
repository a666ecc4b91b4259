//! The access that each node has to one page, told from the messages alone.

use crate::head::RunHead;
use crate::log::{Happening, RunLog};
use ivy_wire::FrameKind;
use std::alloc::{AllocError, Global};

/// What a node may do with the page.
#[derive(Clone, Copy, PartialEq, Eq)]
pub(crate) enum Access {
    Nil,
    Read,
    Write,
}

/// What a node has of the page.
#[derive(Clone, Copy)]
struct Holding {
    access: Access,
    /// How many acknowledgements are missing.
    missing: u64,
}

/// What each node has of the page.
#[derive(Drop)]
pub(crate) struct Accesses {
    page: u32,
    nodes: Vec<Holding>,
}

const NOTHING: Holding = Holding {
    access: Access::Nil,
    missing: 0,
};

const ALL: Holding = Holding {
    access: Access::Write,
    missing: 0,
};

/// What a node has after it sent a message about the page.
fn after_sending(holding: Holding, head: &RunHead) -> Holding {
    match head.kind {
        FrameKind::ReadRep if holding.access == Access::Write => Holding {
            access: Access::Read,
            ..holding
        },
        FrameKind::WriteRep | FrameKind::InvalAck => NOTHING,
        FrameKind::Inval => Holding {
            missing: holding.missing.saturating_add(1),
            access: Access::Read,
        },
        _ => holding,
    }
}

/// What a node has after it served a message about the page.
fn after_serving(holding: Holding, head: &RunHead) -> Holding {
    match head.kind {
        FrameKind::ReadRep => Holding {
            access: Access::Read,
            missing: 0,
        },
        FrameKind::WriteRep => ALL,
        FrameKind::InvalAck if holding.missing == 1 => ALL,
        FrameKind::InvalAck => Holding {
            missing: holding.missing.saturating_sub(1),
            ..holding
        },
        _ => holding,
    }
}

impl Accesses {
    /// At first node 0 has the page, to write.
    pub(crate) fn new(alloc: Global, page: u32, nodes: usize) -> Result<Accesses, AllocError> {
        let mut holdings = vec![in alloc; NOTHING; nodes]?;
        if let Some(first) = holdings.first_mut() {
            *first = ALL;
        }
        Ok(Accesses {
            page,
            nodes: holdings,
        })
    }

    /// What a node may do with the page.
    pub(crate) fn of(&self, node: usize) -> Access {
        match self.nodes.get(node) {
            Some(holding) => holding.access,
            None => Access::Nil,
        }
    }

    /// Goes on by what a move did.
    pub(crate) fn follow(&mut self, log: &RunLog, happening: &Happening) {
        let Some(mut holding) = self.nodes.get(happening.node as usize).copied() else {
            return;
        };
        for place in happening.served.iter() {
            if let Some(head) = log.strings.get(*place) {
                if head.page() == Some(self.page) {
                    holding = after_serving(holding, head);
                }
            }
        }
        for head in log.sent_by(happening) {
            if head.page() == Some(self.page) && !is_pulse(happening) {
                holding = after_sending(holding, head);
            }
        }
        if let Some(place) = self.nodes.get_mut(happening.node as usize) {
            *place = holding;
        }
    }
}

/// Whether the move sends again what was sent.
pub(crate) fn is_pulse(happening: &Happening) -> bool {
    matches!(happening.step, ivy_moves::Move::Pulse { .. })
}

/// Whether something is to be seen of a move: a message, a reply, or a call that begins.
pub(crate) fn is_seen(happening: &Happening) -> bool {
    happening.heard.is_some()
        || happening.sent_after > happening.sent_before
        || happening.record.is_some()
        || (happening.before.is_none() && happening.after.is_some())
}
