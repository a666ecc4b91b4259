//! When each call was carried out.
//!
//! A call is carried out in the turn that begins it where its node has what it needs, else when the copy, the page or
//! the last acknowledgement comes, or in a later turn for an await; and a call of the heap when node 0 serves it.

use crate::head::RunHead;
use crate::log::{Happening, RunLog};
use ivy_model::Call;
use ivy_moves::Move;
use ivy_wire::FrameKind;
use std::alloc::{AllocError, Global};
use std::collections::BTreeMap;

/// A call is carried out.
#[derive(Clone, Copy)]
pub struct Moment {
    /// The node whose call it is.
    pub node: u64,
    /// The number of the call at that node, from 1.
    pub number: u64,
}

/// How far a node is with its call.
#[derive(Clone, Copy)]
struct Doing {
    /// How many calls it began.
    number: u64,
    /// Whether the last one was carried out.
    is_done: bool,
    /// Whether it need not wait for the page any more, to write to it.
    has_page: bool,
    /// How many acknowledgements are missing.
    missing: u64,
}

/// A node that began no call.
const AT_FIRST: Doing = Doing {
    number: 0,
    is_done: true,
    has_page: false,
    missing: 0,
};

#[derive(Drop)]
struct Watch {
    nodes: BTreeMap<u64, Doing>,
    counts: BTreeMap<u64, u64>,
    moments: Vec<Moment>,
}

/// How many messages among these order a copy to be given up.
fn orders_in(sent: &[RunHead]) -> u64 {
    let mut count = 0u64;
    for head in sent {
        if head.kind == FrameKind::Inval && head.is_of_its_source() {
            count = count.saturating_add(1);
        }
    }
    count
}

/// Whether one of these asks for a page.
fn asks(sent: &[RunHead]) -> bool {
    for head in sent {
        let is_request = matches!(head.kind, FrameKind::ReadReq | FrameKind::WriteReq);
        if is_request && head.is_of_its_source() {
            return true;
        }
    }
    false
}

impl Watch {
    fn doing(&self, node: u64) -> Doing {
        self.nodes.get(&node).copied().unwrap_or(AT_FIRST)
    }

    fn put(&mut self, node: u64, doing: Doing) -> Result<(), AllocError> {
        self.nodes.insert(node, doing)?;
        Ok(())
    }

    /// The call of a node is carried out, unless it was already.
    fn carry_out(&mut self, node: u64, call: Option<Call>) -> Result<(), AllocError> {
        let doing = self.doing(node);
        if doing.is_done {
            return Ok(());
        }
        if let Some(Call::Advance { k }) = call {
            let count = self.counts.get(&k).copied().unwrap_or(0);
            self.counts.insert(k, count.saturating_add(1))?;
        }
        self.put(
            node,
            Doing {
                is_done: true,
                ..doing
            },
        )?;
        self.moments.push(Moment {
            node,
            number: doing.number,
        })?;
        Ok(())
    }

    /// Whether a call that reads has an answer now.
    fn is_answered(&self, call: Option<Call>) -> bool {
        match call {
            Some(Call::Await { k, least }) => { self.counts.get(&k).copied().unwrap_or(0) >= least }
            _ => true,
        }
    }

    /// A turn of a node.
    fn turn(&mut self, happening: &Happening, sent: &[RunHead]) -> Result<(), AllocError> {
        let asked = match happening.record {
            Some(record) => Some(record.call),
            None => happening.after,
        };
        if happening.before.is_none() && asked.is_some() {
            let number = self.doing(happening.node).number.saturating_add(1);
            self.put(
                happening.node,
                Doing {
                    number,
                    is_done: false,
                    has_page: !asks(sent),
                    missing: orders_in(sent),
                },
            )?;
        }
        if happening.record.is_some() {
            self.carry_out(happening.node, asked)?;
        }
        Ok(())
    }

    /// Where nothing is missing any more, the call of a node that writes is carried out.
    fn write(&mut self, node: u64, call: Option<Call>, doing: Doing) -> Result<(), AllocError> {
        self.put(node, doing)?;
        if doing.has_page && doing.missing == 0 {
            self.carry_out(node, call)?;
        }
        Ok(())
    }

    /// A node serves a message, and sends these.
    fn serve(
        &mut self,
        node: u64,
        call: Option<Call>,
        head: &RunHead,
        sent: &[RunHead],
    ) -> Result<(), AllocError> {
        let Some(about) = head.about else {
            return Ok(());
        };
        let origin = u64::from(about.origin);
        let doing = self.doing(node);
        match head.kind {
            FrameKind::AllocReq | FrameKind::FreeReq => self.carry_out(origin, None),
            FrameKind::ReadRep if origin == node && self.is_answered(call) => {
                self.carry_out(node, call)
            }
            FrameKind::WriteRep if origin == node => {
                let doing = Doing {
                    has_page: true,
                    missing: orders_in(sent),
                    ..doing
                };
                self.write(node, call, doing)
            }
            FrameKind::InvalAck if origin == node => {
                let doing = Doing {
                    missing: doing.missing.saturating_sub(1),
                    ..doing
                };
                self.write(node, call, doing)
            }
            _ => Ok(()),
        }
    }

    /// A node serves messages, one after another.
    fn serve_all(
        &mut self,
        happening: &Happening,
        strings: &[RunHead],
        sent: &[RunHead],
    ) -> Result<(), AllocError> {
        for place in happening.served.iter() {
            if let Some(head) = strings.get(*place) {
                self.serve(happening.node, happening.before, head, sent)?;
            }
        }
        Ok(())
    }
}

/// The calls of a run, in the order in which they were carried out.
pub fn moments_of(alloc: Global, log: &RunLog) -> Result<Vec<Moment>, AllocError> {
    let mut watch = Watch {
        nodes: BTreeMap::new(alloc),
        counts: BTreeMap::new(alloc),
        moments: Vec::new(alloc),
    };
    for happening in log.happenings.iter() {
        let sent = log.sent_by(happening);
        match happening.step {
            Move::Turn(_) => watch.turn(happening, sent)?,
            Move::Deliver { .. } => watch.serve_all(happening, &log.strings, sent)?,
            Move::Pulse { .. } => {}
        }
    }
    Ok(watch.moments)
}
