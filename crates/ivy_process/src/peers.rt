//! What a node in a process knows of the others.

use std::alloc::{AllocError, Global};

/// Whether a node runs what this one does.
#[derive(Clone, Copy, PartialEq, Eq)]
enum Kin {
    /// As far as it said.
    Same,
    /// It has the sum of another run, which is still to be told.
    Other,
    /// And that was told.
    OtherAndTold,
}

/// What is known of a node.
#[derive(Clone, Copy)]
struct Peer {
    /// The greatest number that it acknowledged.
    acknowledged: u64,
    /// Whether a frame of it came.
    has_come: bool,
    kin: Kin,
}

/// A node tells its sum at least with each pulse whose number this divides.
const MOST_BETWEEN: u64 = 1024;

/// With which of its pulses a node tells its sum: with those whose numbers are 1, 2, 4 and so on, and then with each
/// one whose number [`MOST_BETWEEN`] divides.
#[derive(Clone, Copy)]
struct Telling {
    /// How many pulses are left until the next of these, which counts too.
    left: u64,
    /// How many pulses lie between that and the one behind it.
    between: u64,
}

/// What a node knows of each other one, and when it tells them its sum.
#[derive(Drop)]
pub(crate) struct Peers {
    peers: Vec<Peer>,
    telling: Telling,
}

impl Peers {
    /// Nothing is known of so many nodes.
    pub(crate) fn new(alloc: Global, nodes: u8) -> Result<Peers, AllocError> {
        let unknown = Peer {
            acknowledged: 0,
            has_come: false,
            kin: Kin::Same,
        };
        Ok(Peers {
            peers: vec![in alloc; unknown; usize::from(nodes)]?,
            telling: Telling {
                left: 1,
                between: 1,
            },
        })
    }

    /// Whether the node tells its sum with its next pulse, which is made now.
    pub(crate) fn may_tell(&mut self) -> bool {
        let Telling { left, between } = self.telling;
        if left > 1 {
            self.telling.left = left - 1;
            return false;
        }
        self.telling = Telling {
            left: between,
            between: between.saturating_mul(2).min(MOST_BETWEEN),
        };
        true
    }

    fn get(&self, node: u8) -> Option<&Peer> {
        self.peers.get(usize::from(node))
    }

    /// A node acknowledges all messages up to a number.
    pub(crate) fn acknowledge(&mut self, from: u8, number: u64) {
        if let Some(peer) = self.peers.get_mut(usize::from(from)) {
            peer.acknowledged = peer.acknowledged.max(number);
        }
    }

    /// The greatest number that a node acknowledged.
    pub(crate) fn acknowledged(&self, node: u8) -> u64 {
        match self.get(node) {
            Some(peer) => peer.acknowledged,
            None => 0,
        }
    }

    /// A frame of a node came.
    pub(crate) fn note_frame(&mut self, from: u8) {
        if let Some(peer) = self.peers.get_mut(usize::from(from)) {
            peer.has_come = true;
        }
    }

    /// Whether a frame of a node came.
    pub(crate) fn has_come(&self, from: u8) -> bool {
        match self.get(from) {
            Some(peer) => peer.has_come,
            None => false,
        }
    }

    /// A node has the sum of another run.
    pub(crate) fn note_other(&mut self, from: u8) {
        if let Some(peer) = self.peers.get_mut(usize::from(from)) {
            if peer.kin == Kin::Same {
                peer.kin = Kin::Other;
            }
        }
    }

    /// Whether a node has the sum of another run.
    pub(crate) fn is_other(&self, node: u8) -> bool {
        match self.get(node) {
            Some(peer) => peer.kin != Kin::Same,
            None => false,
        }
    }

    /// How many nodes have the sum of another run.
    pub(crate) fn others(&self) -> u64 {
        self.peers.iter().filter(|p| p.kin != Kin::Same).count() as u64
    }

    /// Whether a node has the sum of another run and that was not told; it is now.
    pub(crate) fn take_news(&mut self, node: u8) -> bool {
        match self.peers.get_mut(usize::from(node)) {
            Some(peer) if peer.kin == Kin::Other => {
                peer.kin = Kin::OtherAndTold;
                true
            }
            _ => false,
        }
    }
}
