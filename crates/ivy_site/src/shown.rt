//! What a site shows of itself: its number, its program's past, its call in progress, and its links.
ghost use Rattle.std.specs.Prelude.{◌≡◌, ◌↔◌, ◌≢◌, ◌<◌, [], length};
ghost use Rattle.std.specs.Prelude.{IsTrue};
ghost use Rattle.ivy_model.specs.stated.Config.{IsConfig};
ghost use Rattle.ivy_link.specs.stated.Linked.{peer_at};
ghost use Rattle.ivy_program.specs.InstructionSteps.{HasEnded};
ghost use Rattle.ivy_moves.specs.Keeping.{keeps_history, keeps_events, read_of, last_of};
ghost use Rattle.ivy_moves.specs.Marks.{marks};
ghost use Rattle.ivy_site.specs.Sites.{IsMadeByEvents, await_in};

use crate::site::Site;
use ivy_host::Opening;
use ivy_model::{Call, Config, Record};
use ivy_moves::{Event, Events, Keep};
use ivy_wire::Bytes;
use std::alloc::Allocator;

impl<A: Allocator + Copy> Site<A> {
    /// The number of this node. It takes no memory.
    pub fn me(&self) -> u8
        ensures { result ≡ self.now.me }
    {
        self.outbox.me()
    }

    /// The configuration of the nodes, which is within its limits. It takes no memory.
    pub fn config(&self) -> Config
        ensures is { result ≡ self.now.config }
        ensures limits { IsConfig result }
    {
        self.outbox.config()
    }

    /// What the program was answered so far, in order, where the site keeps that; else nothing. It takes no memory.
    pub fn history(&self) -> &[Record]
        ensures { result.now ≡ read_of (keeps_history self.now.keep) self.now.node.core.history }
    {
        self.host.history.records()
    }

    /// How many calls the program was answered so far. It takes no memory.
    pub fn records(&self) -> u64
        ensures { result ≡ length self.now.node.core.history }
    {
        self.host.history.count()
    }

    /// The last call that was answered, with its reply, if there is one. It can be read whatever the site keeps.
    pub fn last_record(&self) -> Option<Record>
        ensures { result ≡ last_of self.now.node.core.history }
    {
        self.host.history.last()
    }

    /// How the node began: by the manager of its configuration, or by steady hints. It takes no memory.
    pub fn opening(&self) -> Opening
        ensures { result ≡ self.now.opened }
    {
        self.opening
    }

    /// Which lists of its own past the site keeps. It takes no memory.
    pub fn keep(&self) -> Keep
        ensures { result ≡ self.now.keep }
    {
        self.keep
    }

    /// What the program printed so far. It takes no memory.
    pub fn output(&self) -> &[u64]
        ensures { result.now ≡ self.now.node.core.process.state.output }
    {
        self.host.machine.output()
    }

    /// Whether the program has ended. It takes no memory.
    pub fn ended(&self) -> bool
        ensures { IsTrue result ↔ HasEnded self.now.node.core.process }
    {
        self.host.machine.ended()
    }

    /// The call in progress. It takes no memory.
    pub fn asked(&self) -> Option<Call>
        ensures { result ≡ self.now.node.core.memory.asked }
    {
        self.host.memory.asked()
    }

    /// Whether no call was made along with the one in progress. It takes no memory.
    pub fn is_alone(&self) -> bool
        ensures { IsTrue result ↔ (self.now.node.core.memory.along ≡ []) }
    {
        self.host.memory.is_alone()
    }

    /// The count and the least value of the await in progress, where the call in progress is one. It takes no memory.
    pub fn waits(&self) -> Option<(u64, u64)>
        ensures { result ≡ await_in self.now.node.core.memory.asked }
    {
        match self.host.memory.asked()? {
            Call::Await { k, least } => Some((k, least)),
            _ => None,
        }
    }

    /// How many messages this node sent to another one, each counted once. It takes no memory.
    pub fn sent_to(&self, to: u8) -> u64
        requires to { to < self.now.config.nodes }
        ensures { result ≡ (peer_at self.now.node.link to).sent }
    {
        self.outbox.sent_to(to)
    }

    /// How many messages of another node were delivered to this one, each counted once. It takes no memory.
    pub fn delivered_from(&self, from: u8) -> u64
        requires from { from < self.now.config.nodes }
        ensures { result ≡ (peer_at self.now.node.link from).delivered }
    {
        self.outbox.delivered_from(from)
    }

    /// Whether some message of this node to another one is not acknowledged yet, so that a pulse makes it again. It takes
    /// no memory.
    pub fn keeps_for(&self, to: u8) -> bool
        requires to { to < self.now.config.nodes }
        ensures { IsTrue result ↔ ((peer_at self.now.node.link to).kept ≢ []) }
    {
        self.outbox.keeps_for(to)
    }

    /// Whether this node owes another one an acknowledgement, which a pulse or the next message makes. It takes no memory.
    pub fn owes(&self, to: u8) -> bool
        requires to { to < self.now.config.nodes }
        ensures { result ≡ (peer_at self.now.node.link to).owed }
    {
        self.outbox.owes(to)
    }

    /// How many messages fitted no rule, up to the greatest number. It takes no memory. None where the site is a node of
    /// a world that moves led to: that is a law above, `none_is_breached` of `proof_worlds`.
    pub fn breaches(&self) -> u64
        ensures { result ≡ self.now.node.core.memory.coherence.breaches }
    {
        self.host.memory.breaches()
    }

    /// The events of this node so far, in order, where the site keeps them; else none. Making all of them again, from the
    /// node as it begins, makes the node again, and what waits to be put on the wire was sent by them. It takes no memory.
    pub fn events(&self) -> &[Event<Bytes<A>>]
        ensures is { marks result.now ≡ read_of (keeps_events self.now.keep) self.now.events }
        ensures made { IsMadeByEvents self.now }
    {
        self.events.entries()
    }

    /// The list of those events, lent whole. It takes no memory.
    pub fn event_list(&self) -> &Events<A>
        ensures is { result.now.marks ≡ self.now.events }
        ensures made { IsMadeByEvents self.now }
    {
        &self.events
    }
}
