//! When a node pulses, and to whom.
use ivy_model::MOST_NODES;

/// Whoever owes a node the acknowledgement of so many messages pulses to it.
const MOST_OWED: u64 = 32;

/// What a node's workers know of the messages of another node.
#[derive(Clone, Copy)]
struct Peer {
    /// How many had been sent to it when a worker looked last, and how many of its own were delivered.
    sent: u64,
    delivered: u64,
    /// How many of these were acknowledged, at least: a frame made to a node says how many of its messages came.
    acknowledged: u64,
}

impl Peer {
    /// The worker looks. It tells whether the node is owed much.
    fn look(&mut self, sent: u64, delivered: u64) -> bool {
        if sent != self.sent {
            self.sent = sent;
            self.acknowledged = self.delivered;
        }
        self.delivered = delivered;
        delivered.saturating_sub(self.acknowledged) >= MOST_OWED
    }
}

/// When a node pulses, and to whom: after so many turns to the next node, and to each that is owed the
/// acknowledgement of many messages.
#[derive(Drop)]
pub struct Pulses {
    every: u64,
    turns: u64,
    is_due: bool,
    last: u8,
    peers: [Peer; MOST_NODES as usize],
}

impl Pulses {
    /// Each such turn makes a pulse due.
    pub(crate) fn new(every: u64) -> Pulses {
        let peer = Peer {
            sent: 0,
            delivered: 0,
            acknowledged: 0,
        };
        Pulses {
            every,
            turns: 0,
            is_due: false,
            last: u8::MAX,
            peers: [peer; MOST_NODES as usize],
        }
    }

    /// A turn begins.
    pub fn begin_turn(&mut self) {
        self.turns = self.turns.saturating_add(1);
        if self.turns >= self.every {
            self.turns = 0;
            self.is_due = true;
        }
    }

    /// Whether a pulse is due, which is then made: no more than one is remembered.
    pub fn take_due(&mut self) -> bool {
        std::mem::replace(&mut self.is_due, false)
    }

    /// The node that the last pulse that was due went to; 255 before the first.
    pub fn last(&self) -> u8 {
        self.last
    }

    /// The pulse that was due was made to this node.
    pub fn note_due(&mut self, to: u8) {
        self.last = to;
        self.note(to);
    }

    /// A pulse was made to a node, which acknowledges what was delivered.
    pub fn note(&mut self, to: u8) {
        if let Some(peer) = self.peers.get_mut(usize::from(to)) {
            peer.acknowledged = peer.delivered;
        }
    }

    /// Whether a node is owed the acknowledgement of many messages, where so many were sent to it and so many of its own
    /// delivered.
    pub fn owes(&mut self, to: u8, sent: u64, delivered: u64) -> bool {
        match self.peers.get_mut(usize::from(to)) {
            Some(peer) => peer.look(sent, delivered),
            None => false,
        }
    }
}
