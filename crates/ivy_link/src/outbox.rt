//! A node's link, and the strings that wait to be put on the wire.
ghost use Rattle.std.specs.Prelude.{ℕ, List, ◌≡◌, ◌≢◌, ◌↔◌, ◌+◌, ◌++◌, ◌<◌, ◌≤◌, ◌^◌, [], replicate, map, take, true, None, Some, MatchOption, All, IfOk, OnOk, OnErr, IsOkUnless, IsTrue, length};
ghost use Rattle.ivy_model.specs.stated.Config.{IsConfig};
ghost use Rattle.ivy_wire.specs.Lent.{owned_frame, owned_parcel};
ghost use Rattle.ivy_wire.specs.stated.Spelling.{spelling, Fits, FitsParcel};
ghost use Rattle.ivy_link.specs.stated.Linked.{first_link, peer_at, frames_of, sends, has_numbers, AreWithin};
ghost use Rattle.ivy_link.specs.stated.Accepted.{offered};
ghost use Rattle.ivy_link.specs.Fitting.{FitsLink};
ghost use Rattle.ivy_link.specs.stated.LinkLimits.{most_again};
ghost use Rattle.ivy_link.specs.Windows.{first_window};
ghost use Rattle.ivy_link.specs.Holding.{link_of, AreToPeers, has_numbers_for, after_sending, accepted_at, after_hold, ready_of, after_taking};
ghost use Rattle.ivy_link.specs.stated.Pulsed.{frames_again, pulsed};
ghost use Rattle.ivy_link.specs.Outboxes.{holding_of, with_holding, with_waiting, with_sending, TakesFirst, next_dest};

use crate::{Counts, Link, Verdict};
use ivy_model::{Config, Fault};
use ivy_wire::{Bytes, Frame, Parcel, Post, destination, string_of};
use std::alloc::Allocator;
use std::collections::VecDeque;
use std::marker::Model;

/// A node's link, with the strings of its frames that wait to be put on the wire. It is the post of the node: what is
/// posted waits as the strings of numbered frames, and its messages are kept until they are acknowledged.
#[derive(Drop)]
pub struct Outbox<A: Allocator> {
    alloc: A,
    config: Config,
    me: u8,
    link: Link<A>,
    waiting: VecDeque<Bytes<A>, A>,
}

impl<A: Allocator> Model for Outbox<A> {
    ghost use Rattle.ivy_link.specs.Holding.{link_of};
    ghost use Rattle.ivy_link.specs.Outboxes as outboxes;
    ghost use Rattle.ivy_link.specs.Outboxes.{IsSoundOutbox};

    ghost Value = { outboxes.Outbox };

    ghost view = { λ o. record { config = o.config; me = o.me; link = link_of o.link; waiting = o.waiting.items; held = o.link.held } };

    ghost invariant = { λ o. IsSoundOutbox (record { config = o.config; me = o.me; link = link_of o.link; waiting = o.waiting.items; held = o.link.held }) };
}

/// Adds the spellings of the frames, in order. A refused call may have added some.
fn spell_again<A: Allocator + Copy>(
    strings: &mut VecDeque<Bytes<A>, A>,
    alloc: A,
    config: &Config,
    frames: &[Frame<&[u8]>],
) -> Result<(), Fault>
    requires limits { IsConfig config.now }
    requires fit { All (Fits config.now) (map owned_frame frames.now) }
    ensures ok { OnOk result (strings.new.items ≡ strings.old.items ++ map spelling (map owned_frame frames.now)) }
    ensures front { take (length strings.old.items) strings.new.items ≡ strings.old.items }
    ensures memory { IsOkUnless result Fault.Memory }
{
    strings.reserve(frames.len())?;
    for frame in frames {
        strings.push_back(string_of(alloc, config, frame)?)?;
    }
    Ok(())
}

/// Adds the spellings of the frames of the parcels, in order. A refused call may have added some.
fn spell<A: Allocator + Copy>(
    strings: &mut VecDeque<Bytes<A>, A>,
    alloc: A,
    config: &Config,
    link: &Link<A>,
    parcels: &[Parcel<&[u8]>],
) -> Result<(), Fault>
    requires limits { IsConfig config.now }
    requires within { AreWithin (link_of link.now) (map owned_parcel parcels.now) }
    requires numbers { has_numbers (link_of link.now) (map owned_parcel parcels.now) ≡ true }
    requires fit { All (Fits config.now) (frames_of (link_of link.now) (map owned_parcel parcels.now)) }
    ensures ok { OnOk result (strings.new.items ≡ strings.old.items ++ map spelling (frames_of (link_of link.now) (map owned_parcel parcels.now))) }
    ensures front { take (length strings.old.items) strings.new.items ≡ strings.old.items }
    ensures memory { IsOkUnless result Fault.Memory }
{
    strings.reserve(parcels.len())?;
    let mut counts = Counts::none();
    for index in 0..parcels.len() {
        let frame = link.frame(parcels, index, &mut counts);
        strings.push_back(string_of(alloc, config, &frame)?)?;
    }
    Ok(())
}

/// Keeps the messages of the parcels, of whose frames the last strings are. One alone shares its page with its string.
fn keep_sent<A: Allocator + Copy>(
    link: &mut Link<A>,
    strings: &VecDeque<Bytes<A>, A>,
    parcels: &[Parcel<&[u8]>],
) -> Result<(), Fault>
    requires within { AreToPeers link.old (map owned_parcel parcels.now) }
    requires numbers { has_numbers_for link.old (map owned_parcel parcels.now) ≡ true }
    requires spelled { (before : List (List ℕ)) × (strings.now.items ≡ before ++ map spelling (frames_of (link_of link.old) (map owned_parcel parcels.now))) }
    ensures ok { OnOk result (link.new ≡ after_sending link.old (map owned_parcel parcels.now)) }
    ensures nodes { length link.new.peers ≡ length link.old.peers }
    ensures err { OnErr result (link.new ≡ link.old) }
    ensures memory { IsOkUnless result Fault.Memory }
{
    if let [parcel] = parcels {
        if let Some(string) = strings.back() {
            link.keep_spelled(parcel, string)?;
            return Ok(());
        }
    }
    link.keep(parcels)
}

impl<A: Allocator + Copy> Outbox<A> {
    /// The link of node `me` at the beginning, and no string [1].
    ///
    /// The configuration is within its limits, and `me` is one of its nodes.
    pub fn new(alloc: A, config: &Config, me: u8) -> Result<Self, Fault>
        requires limits { IsConfig config.now }
        requires here { me < config.now.nodes }
        ensures first { IfOk result (λ o. o ≡ record { config = config.now; me = me; link = first_link me config.now.nodes; waiting = []; held = replicate config.now.nodes first_window }) }
        ensures memory { IsOkUnless result Fault.Memory }
    {
        Ok(Outbox {
            alloc,
            config: *config,
            me,
            link: Link::new(alloc, me, config.nodes)?,
            waiting: VecDeque::new(alloc),
        })
    }

    /// The number of the node whose link it is. It takes no memory.
    pub fn me(&self) -> u8
        ensures { result ≡ self.now.me }
    {
        self.me
    }

    /// The configuration of the nodes, which is within its limits; and the link is that of the same node. It takes no
    /// memory.
    pub fn config(&self) -> Config
        ensures is { result ≡ self.now.config }
        ensures limits { IsConfig result }
        ensures mine { self.now.link.me ≡ self.now.me }
        ensures fits { FitsLink self.now.config self.now.link }
    {
        self.config
    }

    /// How many messages were sent to a node, each counted once. It takes no memory.
    pub fn sent_to(&self, to: u8) -> u64
        requires to { to < self.now.config.nodes }
        ensures { result ≡ (peer_at self.now.link to).sent }
    {
        self.link.sent_to(to)
    }

    /// How many messages of a node were delivered here, each counted once. It takes no memory.
    pub fn delivered_from(&self, from: u8) -> u64
        requires from { from < self.now.config.nodes }
        ensures { result ≡ (peer_at self.now.link from).delivered }
    {
        self.link.delivered_from(from)
    }

    /// Whether some message to a node is not acknowledged yet. It takes no memory.
    pub fn keeps_for(&self, to: u8) -> bool
        requires to { to < self.now.config.nodes }
        ensures { IsTrue result ↔ ((peer_at self.now.link to).kept ≢ []) }
    {
        self.link.keeps_for(to)
    }

    /// Whether an acknowledgement is owed to a node. It takes no memory.
    pub fn owes(&self, to: u8) -> bool
        requires to { to < self.now.config.nodes }
        ensures { result ≡ (peer_at self.now.link to).owed }
    {
        self.link.owes(to)
    }

    /// The first string that waits, taken out. It takes no memory.
    pub fn take(&mut self) -> Option<Bytes<A>>
        ensures { TakesFirst result self.old self.new }
    {
        self.waiting.pop_front()
    }

    /// Whether a string waits. It takes no memory.
    pub fn has_frame(&self) -> bool
        ensures { IsTrue result ↔ (self.now.waiting ≢ []) }
    {
        !self.waiting.is_empty()
    }

    /// The node that the first string that waits is for. It takes no memory.
    pub fn next_destination(&self) -> Option<u8>
        ensures { result ≡ next_dest self.now.waiting }
    {
        destination(self.waiting.front()?.bytes())
    }

    /// What a frame is to this node; its source is one of the nodes. It takes no memory.
    pub fn offer<B>(&self, frame: &Frame<B>) -> Verdict
        requires source { frame.now.source < self.now.config.nodes }
        ensures { result ≡ offered self.now.link frame.now }
    {
        self.link.offer(frame)
    }

    /// Takes the acknowledgement of a frame, and counts its message where it is the next: then no string of its
    /// number is held. It takes no memory.
    pub fn accept<B>(&mut self, frame: &Frame<B>)
        requires source { frame.now.source < self.old.config.nodes }
        requires number { frame.now.number < 2 ^ 64 }
        ensures { self.new ≡ with_holding self.old (accepted_at (holding_of self.old) frame.now) }
    {
        self.link.accept(frame);
    }

    /// Holds the string of a frame that came before its turn, where there is a place for it. It takes no memory.
    pub fn hold<B>(&mut self, frame: &Frame<B>, string: Bytes<A>)
        requires source { frame.now.source < self.old.config.nodes }
        ensures { self.new ≡ with_holding self.old (after_hold (holding_of self.old) frame.now string) }
    {
        let _ = self.link.hold(frame, string);
    }

    /// The string that is held of the next number from a node. It takes no memory.
    pub fn ready(&self, from: u8) -> Option<&Bytes<A>>
        requires from { from < self.now.config.nodes }
        ensures { MatchOption result (ready_of (holding_of self.now) from ≡ None) (λ s. ready_of (holding_of self.now) from ≡ Some s.now) }
    {
        self.link.ready(from)
    }

    /// Takes out the string that is held of the next number from a node. It takes no memory.
    pub fn take_ready(&mut self, from: u8) -> Option<Bytes<A>>
        requires from { from < self.old.config.nodes }
        ensures limits { IsConfig self.old.config }
        ensures ready { result ≡ ready_of (holding_of self.old) from }
        ensures after { self.new ≡ with_holding self.old (after_taking (holding_of self.old) from) }
    {
        self.link.take_ready(from)
    }

    /// What a pulse gives waits [1]. A refused call may leave strings after those that waited.
    fn send_again(&mut self, to: u8) -> Result<bool, Fault>
        requires to { to < self.old.config.nodes }
        requires other { to ≢ self.old.me }
        ensures ok { OnOk result (self.new ≡ with_sending self.old (pulsed self.old.link to)) }
        ensures err { OnErr result (with_waiting self.new (take (length self.old.waiting) self.new.waiting) ≡ self.old) }
        ensures few { OnOk result (length self.new.waiting ≤ length self.old.waiting + most_again) }
        ensures made { IfOk result (λ made. IsTrue made ↔ (frames_again self.old.link to ≢ [])) }
        ensures memory { IsOkUnless result Fault.Memory }
    {
        let frames = self.link.pulse_frames(to)?;
        spell_again(&mut self.waiting, self.alloc, &self.config, &frames)?;
        let made = !frames.is_empty();
        drop(frames);
        self.link.pulsed(to);
        Ok(made)
    }

    /// A pulse to another node: what it has not acknowledged waits again, at most 32 frames, or an acknowledgement
    /// alone does where one is owed [1]. Says whether a frame was made. A refused pulse changes nothing.
    pub fn pulse(&mut self, to: u8) -> Result<bool, Fault>
        requires to { to < self.old.config.nodes }
        requires other { to ≢ self.old.me }
        ensures ok { OnOk result (self.new ≡ with_sending self.old (pulsed self.old.link to)) }
        ensures err { OnErr result (self.new ≡ self.old) }
        ensures few { OnOk result (length self.new.waiting ≤ length self.old.waiting + most_again) }
        ensures made { IfOk result (λ made. IsTrue made ↔ (frames_again self.old.link to ≢ [])) }
        ensures memory { IsOkUnless result Fault.Memory }
    {
        let waiting = self.waiting.len();
        match self.send_again(to) {
            Ok(made) => Ok(made),
            Err(fault) => {
                self.waiting.truncate(waiting);
                Err(fault)
            }
        }
    }

    /// Sends the parcels: their messages are kept, and the strings of their frames wait [1]. A refused
    /// call may leave strings after those that waited.
    fn send(&mut self, parcels: &[Parcel<&[u8]>]) -> Result<(), Fault>
        requires fits { All (FitsParcel self.old.config self.old.me) (map owned_parcel parcels.now) }
        requires numbers { has_numbers self.old.link (map owned_parcel parcels.now) ≡ true }
        ensures ok { OnOk result (self.new ≡ with_sending self.old (sends self.old.link (map owned_parcel parcels.now))) }
        ensures err { OnErr result (with_waiting self.new (take (length self.old.waiting) self.new.waiting) ≡ self.old) }
        ensures memory { IsOkUnless result Fault.Memory }
    {
        spell(
            &mut self.waiting,
            self.alloc,
            &self.config,
            &self.link,
            parcels,
        )?;
        keep_sent(&mut self.link, &self.waiting, parcels)?;
        Ok(())
    }
}

impl<A: Allocator + Copy> Post for Outbox<A> {
    ghost use Rattle.ivy_link.specs.Outboxes.{outbox_ops, outbox_laws};

    ghost ops = { outbox_ops };

    ghost laws = { outbox_laws };

    fn post(&mut self, parcels: &[Parcel<&[u8]>]) -> Result<(), Fault> {
        if parcels.is_empty() {
            return Ok(());
        }
        if !self.link.has_numbers(parcels) {
            return Err(Fault::NumbersSpent);
        }
        let waiting = self.waiting.len();
        if let Err(fault) = self.send(parcels) {
            self.waiting.truncate(waiting);
            return Err(fault);
        }
        Ok(())
    }
}
