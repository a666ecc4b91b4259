//! The link of one node to all others: what it knows of each, how messages are numbered and kept, and their frames.
ghost use Rattle.std.specs.Prelude.{◌≡◌, ◌≢◌, ◌↔◌, ℕ, ◌<◌, List, [], ◌∷◌, ◌+◌, ◌++◌, ◌≤◌, length, map, take, slice_get, true, false, drop, None, Some, MatchOption, IsTrue, IfOk, IfErr, IsOk, OnOk, OnErr, IsErrOf, IsOkUnless, if◌then◌else◌};
ghost use Rattle.ivy_model.specs.Wants.{RanOut};
ghost use Rattle.ivy_model.specs.declared.Fault.TheVariants.{Memory, NumbersSpent};
ghost use Rattle.ivy_wire.specs.Lent.{owned_parcel, owned_frame};
ghost use Rattle.ivy_wire.specs.Heads.{content_page};
ghost use Rattle.ivy_link.specs.stated.Linked.{peer_at, with_message, after_sends, has_numbers, AreWithin};
ghost use Rattle.ivy_link.specs.stated.Pulsed.{repeated};
ghost use Rattle.ivy_link.specs.Kept.{EndsWith};
ghost use Rattle.ivy_link.specs.Sides.{IsCountOf, peer_of, held_of, linked, message_of, count_to, HasRoomFor};
ghost use Rattle.ivy_link.specs.Holding.{link_of, first_holding, offered_at, accepted_at, after_sending, frames_for, has_numbers_for, AreToPeers, frames_repeated, after_pulsing, after_hold};
ghost use Rattle.ivy_link.specs.Holding.{given_back, ready_of, after_taking};
ghost use Rattle.ivy_link.specs.stated.LinkLimits.{greatest_number};
ghost use Rattle.ivy_link.specs.Windows.{first_window, place_at, place_of, can_hold, with_string, without_first, moved_by};

use crate::counts::Counts;
use crate::kept::Kept;
use crate::verdict::Verdict;
use crate::window::Window;
use ivy_model::Fault;
use ivy_wire::{Bytes, Frame, OwnedPage, Parcel};
use std::alloc::{AllocError, Allocator};
use std::collections::VecDeque;
use std::marker::Model;
use std::slice;

/// How many kept messages are sent again at once.
pub const MOST_AGAIN: usize = 32;

/// One node's side of its links to all others.
#[derive(Drop)]
#[derive_where(Debug)]
pub struct Link<A: Allocator> {
    #[derive_where(skip)]
    alloc: A,
    me: u8,
    /// What is known of each node, by number.
    sides: Vec<Side<A>, A>,
}

impl<A: Allocator> Model for Link<A> {
    ghost use Rattle.ivy_link.specs.Holding.{Holding};
    ghost use Rattle.ivy_link.specs.Sides.{seen};

    ghost Value = { Holding };

    ghost view = { λ l. seen l.me l.sides.items };
}

impl<A: Allocator + Copy> Link<A> {
    /// The link of node `me` among so many nodes: nothing was sent either way, and nothing is held [1].
    pub fn new(alloc: A, me: u8, nodes: u8) -> Result<Link<A>, Fault>
        ensures ok { IfOk result (λ link. link ≡ first_holding me nodes) }
        ensures want { IsOkUnless result Memory }
    {
        let mut sides = Vec::with_capacity(alloc, usize::from(nodes))?;
        for _ in 0..nodes {
            sides.push(Side::new(alloc)?)?;
        }
        Ok(Link { alloc, me, sides })
    }

    /// What a frame is to this node.
    pub fn offer<B>(&self, frame: &Frame<B>) -> Verdict
        requires source { frame.now.dest ≡ self.now.me → frame.now.source < length self.now.peers }
        ensures { result ≡ offered_at self.now frame.now }
    {
        if frame.dest != self.me {
            return Verdict::NotMine;
        }
        self.sides[usize::from(frame.source)].verdict(frame.number)
    }

    /// How many messages were sent to a node. It takes no memory.
    pub fn sent_to(&self, to: u8) -> u64
        requires to { to < length self.now.peers }
        ensures { result ≡ (peer_at (link_of self.now) to).sent }
    {
        self.sides[usize::from(to)].sent()
    }

    /// How many messages of a node were delivered here. It takes no memory.
    pub fn delivered_from(&self, from: u8) -> u64
        requires from { from < length self.now.peers }
        ensures { result ≡ (peer_at (link_of self.now) from).delivered }
    {
        self.sides[usize::from(from)].delivered()
    }

    /// Whether some message to a node is not acknowledged yet, so that a pulse makes its frame again. It takes no memory.
    pub fn keeps_for(&self, to: u8) -> bool
        requires to { to < length self.now.peers }
        ensures { IsTrue result ↔ ((peer_at (link_of self.now) to).kept ≢ []) }
    {
        !self.sides[usize::from(to)].kept().is_empty()
    }

    /// Whether an acknowledgement is owed to a node. It takes no memory.
    pub fn owes(&self, to: u8) -> bool
        requires to { to < length self.now.peers }
        ensures { result ≡ (peer_at (link_of self.now) to).owed }
    {
        self.sides[usize::from(to)].is_owed()
    }

    /// Takes the acknowledgement of a frame, and counts its message as delivered where it is the next: no
    /// string of its number is held any more. A frame for another node changes nothing. It takes no memory.
    pub fn accept<B>(&mut self, frame: &Frame<B>)
        requires source { frame.now.dest ≡ self.old.me → frame.now.source < length self.old.peers }
        ensures after { self.new ≡ accepted_at self.old frame.now }
        ensures nodes { length self.new.peers ≡ length self.old.peers }
    {
        if frame.dest == self.me {
            self.sides[usize::from(frame.source)].hear(frame.number, frame.ack);
        }
    }

    /// Holds the string of a frame that is the next one or came before its turn, until those before it have
    /// come. It gives the string back where the frame is neither, its number is more than [`MOST_AHEAD`]
    /// above those delivered, or a string of that number is held. Of the frame it reads the source, the
    /// destination and the number. It takes no memory.
    ///
    /// [`MOST_AHEAD`]: crate::MOST_AHEAD
    pub fn hold<B>(&mut self, frame: &Frame<B>, string: Bytes<A>) -> Option<Bytes<A>>
        requires source { frame.now.dest ≡ self.old.me → frame.now.source < length self.old.peers }
        ensures after { self.new ≡ after_hold self.old frame.now string }
        ensures nodes { length self.new.peers ≡ length self.old.peers }
        ensures result { result ≡ given_back self.old frame.now string }
    {
        if frame.dest != self.me {
            return Some(string);
        }
        self.sides[usize::from(frame.source)].hold(frame.number, string)
    }

    /// The string that is held of the number after the last one delivered from the node. It takes no memory.
    pub fn ready(&self, from: u8) -> Option<&Bytes<A>>
        requires from { from < length self.now.peers }
        ensures { MatchOption result (ready_of self.now from ≡ None) (λ s. ready_of self.now from ≡ Some s.now) }
    {
        self.sides[usize::from(from)].ready()
    }

    /// Takes out the string that is held of the number after the last one delivered from the node. It takes
    /// no memory.
    pub fn take_ready(&mut self, from: u8) -> Option<Bytes<A>>
        requires from { from < length self.old.peers }
        ensures result { result ≡ ready_of self.old from }
        ensures after { self.new ≡ after_taking self.old from }
        ensures nodes { length self.new.peers ≡ length self.old.peers }
    {
        self.sides[usize::from(from)].take_ready()
    }

    /// Ends what is owed to the node, as the frames of [`Link::pulse_frames`] do. It takes no memory.
    pub fn pulsed(&mut self, to: u8)
        requires to { to < length self.old.peers }
        ensures after { self.new ≡ after_pulsing self.old to }
        ensures nodes { length self.new.peers ≡ length self.old.peers }
    {
        self.sides[usize::from(to)].owe_nothing();
    }

    /// Whether a number is left for each of the parcels.
    pub fn has_numbers(&self, parcels: &[Parcel<&[u8]>]) -> bool
        requires within { AreToPeers self.now (map owned_parcel parcels.now) }
        ensures { result ≡ has_numbers_for self.now (map owned_parcel parcels.now) }
    {
        for parcel in parcels {
            let side = &self.sides[usize::from(parcel.dest)];
            if !has_numbers_to(side, parcels, parcel.dest) {
                return false;
            }
        }
        true
    }

    /// The frame of the parcel at this index, one of those that [`Link::frames`] would give now. The parcels
    /// before it were counted, and it is counted then, too: so a whole list is walked once.
    pub fn frame<'p>(
        &self,
        parcels: &[Parcel<&'p [u8]>],
        index: usize,
        counts: &mut Counts,
    ) -> Frame<&'p [u8]>
        requires within { AreToPeers self.now (map owned_parcel parcels.now) }
        requires numbers { has_numbers_for self.now (map owned_parcel parcels.now) ≡ true }
        requires inside { index < length parcels.now }
        requires before { IsCountOf counts.old (map owned_parcel (take index parcels.now)) }
        ensures frame { slice_get (frames_for self.now (map owned_parcel parcels.now)) index ≡ Some (owned_frame result) }
        ensures after { IsCountOf counts.new (map owned_parcel (take (index + 1) parcels.now)) }
    {
        let parcel = &parcels[index];
        let side = &self.sides[usize::from(parcel.dest)];
        let earlier = counts.pass(parcels, index);
        Frame {
            source: self.me,
            dest: parcel.dest,
            number: side.sent() + earlier as u64 + 1,
            ack: side.delivered(),
            body: Some(parcel.message),
        }
    }

    fn numbered<'p>(
        &self,
        parcels: &[Parcel<&'p [u8]>],
    ) -> Result<Vec<Frame<&'p [u8]>, A>, AllocError>
        requires within { AreToPeers self.now (map owned_parcel parcels.now) }
        requires numbers { has_numbers_for self.now (map owned_parcel parcels.now) ≡ true }
        ensures ok { IfOk result (λ frames. map owned_frame frames.items ≡ frames_for self.now (map owned_parcel parcels.now)) }
        ensures sure { length parcels.now ≡ 0 → IsOk result }
    {
        let mut frames = Vec::with_capacity(self.alloc, parcels.len())?;
        let mut counts = Counts::none();
        for index in 0..parcels.len() {
            add(&mut frames, self.frame(parcels, index, &mut counts))?;
        }
        Ok(frames)
    }

    /// The frames that [`Link::send`] would give now [1, 17]. They number the messages that
    /// [`Link::keep`] keeps. Of no parcel there are none, and that takes no memory.
    pub fn frames<'p>(&self, parcels: &[Parcel<&'p [u8]>]) -> Result<Vec<Frame<&'p [u8]>, A>, Fault>
        requires within { AreToPeers self.now (map owned_parcel parcels.now) }
        ensures ok { IfOk result (λ frames. map owned_frame frames.items ≡ frames_for self.now (map owned_parcel parcels.now)) }
        ensures spent { IsErrOf result NumbersSpent ↔ (has_numbers_for self.now (map owned_parcel parcels.now) ≡ false) }
        ensures sure { length parcels.now ≡ 0 → IsOk result }
        ensures want { IfErr result RanOut }
    {
        if self.has_numbers(parcels) {
            Ok(self.numbered(parcels)?)
        } else {
            Err(Fault::NumbersSpent)
        }
    }

    /// Numbers the messages and keeps copies of them until they are acknowledged [1, 17]: all of them, or
    /// none and the link stays as it was. 17 is answered exactly where a number above 2^64 - 1 would be
    /// needed. Of no parcel nothing is kept, and that takes no memory.
    ///
    /// It makes no frames. A caller that has more to do before the messages count as sent, such as to
    /// spell their frames, takes these from [`Link::frame`] first, and calls this with the same parcels
    /// last.
    pub fn keep(&mut self, parcels: &[Parcel<&[u8]>]) -> Result<(), Fault>
        requires within { AreToPeers self.old (map owned_parcel parcels.now) }
        ensures ok { OnOk result (self.new ≡ after_sending self.old (map owned_parcel parcels.now)) }
        ensures nodes { length self.new.peers ≡ length self.old.peers }
        ensures err { OnErr result (self.new ≡ self.old) }
        ensures spent { IsErrOf result NumbersSpent ↔ (has_numbers_for self.old (map owned_parcel parcels.now) ≡ false) }
        ensures sure { length parcels.now ≡ 0 → IsOk result }
        ensures want { IfErr result RanOut }
    {
        if !self.has_numbers(parcels) {
            return Err(Fault::NumbersSpent);
        }
        let copies = copies(self.alloc, parcels)?;
        reserve(&mut self.sides, parcels)?;
        keep_each(&mut self.sides, parcels, copies);
        Ok(())
    }

    /// Keeps the message of a parcel, as [`Link::keep`] does, with its page at the end of the string of its frame, which is
    /// shared. Err only where the allocator has no memory; then the link stays as it was.
    pub(crate) fn keep_spelled(
        &mut self,
        parcel: &Parcel<&[u8]>,
        string: &Bytes<A>,
    ) -> Result<(), AllocError>
        requires within { AreToPeers self.old (owned_parcel parcel.now ∷ []) }
        requires numbers { has_numbers_for self.old (owned_parcel parcel.now ∷ []) ≡ true }
        requires ends { EndsWith string.now (content_page (owned_parcel parcel.now).message.content) }
        ensures ok { OnOk result (self.new ≡ after_sending self.old (owned_parcel parcel.now ∷ [])) }
        ensures nodes { length self.new.peers ≡ length self.old.peers }
        ensures err { OnErr result (self.new ≡ self.old) }
    {
        let kept = Kept::shared(self.alloc, &parcel.message, string)?;
        reserve(&mut self.sides, slice::from_ref(parcel))?;
        keep_one(&mut self.sides, parcel, kept);
        Ok(())
    }

    /// Keeps the messages, as [`Link::keep`] does, and gives their frames [1, 17]. Of no parcel that
    /// takes no memory.
    pub fn send<'p>(
        &mut self,
        parcels: &[Parcel<&'p [u8]>],
    ) -> Result<Vec<Frame<&'p [u8]>, A>, Fault>
        requires within { AreToPeers self.old (map owned_parcel parcels.now) }
        ensures ok { OnOk result (self.new ≡ after_sending self.old (map owned_parcel parcels.now)) }
        ensures nodes { length self.new.peers ≡ length self.old.peers }
        ensures frames { IfOk result (λ frames. map owned_frame frames.items ≡ frames_for self.old (map owned_parcel parcels.now)) }
        ensures err { OnErr result (self.new ≡ self.old) }
        ensures spent { IsErrOf result NumbersSpent ↔ (has_numbers_for self.old (map owned_parcel parcels.now) ≡ false) }
        ensures sure { length parcels.now ≡ 0 → IsOk result }
        ensures want { IfErr result RanOut }
    {
        let frames = self.frames(parcels)?;
        self.keep(parcels)?;
        Ok(frames)
    }

    /// The frames that [`Link::pulse`] would give now [1]: the first [`MOST_AGAIN`] kept messages again,
    /// in order, or an acknowledgement alone, where one is owed and nothing is kept. Where there are none,
    /// that takes no memory.
    pub fn pulse_frames(&self, to: u8) -> Result<Vec<Frame<&[u8]>, A>, Fault>
        requires to { to < length self.now.peers }
        ensures ok { IfOk result (λ frames. map owned_frame frames.items ≡ frames_repeated self.now to) }
        ensures sure { frames_repeated self.now to ≡ [] → IsOk result }
        ensures want { IsOkUnless result Memory }
    {
        let side = &self.sides[usize::from(to)];
        if !side.kept().is_empty() {
            return Ok(self.repeated(to)?);
        }
        let mut frames = Vec::new(self.alloc);
        if side.is_owed() {
            frames.push(Frame {
                source: self.me,
                dest: to,
                number: 0,
                ack: side.delivered(),
                body: None,
            })?;
        }
        Ok(frames)
    }

    /// Sends again what is kept for the node, as [`Link::pulse_frames`] says, with copies of the pages
    /// [1]. A refused call leaves the link as it was, and one that gives no frame takes no memory.
    pub fn pulse(&mut self, to: u8) -> Result<Vec<Frame<OwnedPage<A>>, A>, Fault>
        requires to { to < length self.old.peers }
        ensures ok { OnOk result (self.new ≡ after_pulsing self.old to) }
        ensures nodes { length self.new.peers ≡ length self.old.peers }
        ensures frames { IfOk result (λ frames. frames.items ≡ frames_repeated self.old to) }
        ensures err { OnErr result (self.new ≡ self.old) }
        ensures sure { frames_repeated self.old to ≡ [] → IsOk result }
        ensures want { IsOkUnless result Memory }
    {
        let frames = copied(self.alloc, &self.pulse_frames(to)?)?;
        self.pulsed(to);
        Ok(frames)
    }

    fn repeated(&self, to: u8) -> Result<Vec<Frame<&[u8]>, A>, AllocError>
        requires to { to < length self.now.peers }
        ensures { IfOk result (λ frames. map owned_frame frames.items ≡ repeated self.now.me to (peer_at (link_of self.now) to)) }
    {
        let side = &self.sides[usize::from(to)];
        let kept = side.kept();
        let count = kept.len().min(MOST_AGAIN);
        let acknowledged = side.sent() - kept.len() as u64;
        let mut frames = Vec::with_capacity(self.alloc, count)?;
        for i in 0..count {
            let frame = Frame {
                source: self.me,
                dest: to,
                number: acknowledged + 1 + i as u64,
                ack: side.delivered(),
                body: Some(kept[i].lent()),
            };
            add(&mut frames, frame)?;
        }
        Ok(frames)
    }
}

/// The traffic with one other node: counts of the messages both ways, and those to keep.
#[derive(Drop)]
#[derive_where(Debug)]
pub(crate) struct Side<A: Allocator> {
    /// How many messages were sent.
    sent: u64,
    /// The last ones of them: those not acknowledged yet.
    kept: VecDeque<Kept<A>, A>,
    /// How many messages were delivered.
    delivered: u64,
    /// Whether an acknowledgement is owed.
    owed: bool,
    /// The strings that came before their turn.
    held: Window<A>,
}

impl<A: Allocator> Model for Side<A> {
    ghost use Rattle.ivy_link.specs.Sides.{Sided};
    ghost use Rattle.std.specs.Prelude.{◌-◌, ◌≤◌, length};
    ghost use Rattle.std.specs.VecDeque.{deque_len, deque_capacity};

    ghost Value = { Sided };

    ghost view = { λ s. record { peer = record { sent = s.sent; kept = s.kept.items; delivered = s.delivered; owed = s.owed }; room = deque_capacity s.kept - deque_len s.kept; held = s.held } };

    ghost invariant = { λ s. length s.kept.items ≤ s.sent };
}

impl<A: Allocator> Side<A> {
    ghost use Rattle.ivy_link.specs.stated.Linked.{fresh};
    ghost use Rattle.ivy_link.specs.stated.Accepted.{verdict_on, heard};
    ghost use Rattle.ivy_link.specs.stated.Pulsed.{owing_nothing};

    pub(crate) fn new(alloc: A) -> Result<Side<A>, AllocError>
    where
        A: Copy,
        ensures { IfOk result (λ side. (side.peer ≡ fresh) × (side.held ≡ first_window)) }
    {
        Ok(Side {
            sent: 0,
            kept: VecDeque::new(alloc),
            delivered: 0,
            owed: false,
            held: Window::new(alloc)?,
        })
    }

    pub(crate) fn sent(&self) -> u64
        ensures { result ≡ self.now.peer.sent }
    {
        self.sent
    }

    /// Whether so many more messages can be numbered.
    pub(crate) fn has_numbers(&self, more: usize) -> bool
        ensures { IsTrue result ↔ (self.now.peer.sent + more ≤ greatest_number) }
    {
        self.sent.checked_add(more as u64).is_some()
    }

    pub(crate) fn delivered(&self) -> u64
        ensures { result ≡ self.now.peer.delivered }
    {
        self.delivered
    }

    pub(crate) fn is_owed(&self) -> bool
        ensures { result ≡ self.now.peer.owed }
    {
        self.owed
    }

    pub(crate) fn kept(&self) -> &VecDeque<Kept<A>, A>
        ensures items { result.now.items ≡ self.now.peer.kept }
        ensures within { length self.now.peer.kept ≤ self.now.peer.sent }
    {
        &self.kept
    }

    /// Makes room for so many more messages to keep.
    pub(crate) fn reserve(&mut self, more: usize) -> Result<(), AllocError>
        ensures peer { self.new.peer ≡ self.old.peer }
        ensures held { self.new.held ≡ self.old.held }
        ensures room { OnOk result (more ≤ self.new.room) }
    {
        self.kept.reserve(more)
    }

    /// One more message was sent: it is kept, in the room that was made, and nothing is owed.
    pub(crate) fn keep(&mut self, message: Kept<A>)
        requires room { 1 ≤ self.old.room }
        requires number { self.old.peer.sent < greatest_number }
        ensures peer { self.new.peer ≡ with_message self.old.peer message }
        ensures room { self.new.room + 1 ≡ self.old.room }
        ensures held { self.new.held ≡ self.old.held }
    {
        self.kept.push_back_reserved(message);
        self.sent += 1;
        self.owed = false;
    }

    /// What a frame of this number is.
    pub(crate) fn verdict(&self, number: u64) -> Verdict
        ensures { result ≡ verdict_on self.now.peer.delivered number }
    {
        if number <= self.delivered {
            Verdict::Repeat
        } else if number - self.delivered == 1 {
            Verdict::Next
        } else {
            Verdict::Ahead
        }
    }

    /// Takes the acknowledgement of a frame of this number, and counts its message if it is the next. Then no
    /// string of that number is held.
    pub(crate) fn hear(&mut self, number: u64, ack: u64)
        ensures peer { self.new.peer ≡ heard (verdict_on self.old.peer.delivered number) self.old.peer number ack }
        ensures held { self.new.held ≡ moved_by (verdict_on self.old.peer.delivered number) self.old.held }
    {
        if ack <= self.sent {
            let acknowledged = self.sent - self.kept.len() as u64;
            drop_first(&mut self.kept, ack.saturating_sub(acknowledged));
        }
        match self.verdict(number) {
            Verdict::Next => {
                self.delivered = number;
                self.owed = true;
                self.held.move_on();
            }
            Verdict::Repeat => self.owed = self.owed || number >= 1,
            Verdict::Ahead | Verdict::NotMine => {}
        }
    }

    /// A frame was made: nothing is owed any more.
    pub(crate) fn owe_nothing(&mut self)
        ensures peer { self.new.peer ≡ owing_nothing self.old.peer }
        ensures held { self.new.held ≡ self.old.held }
    {
        self.owed = false;
    }

    /// Holds the string of a frame of this number, or gives it back.
    pub(crate) fn hold(&mut self, number: u64, string: Bytes<A>) -> Option<Bytes<A>>
        ensures peer { self.new.peer ≡ self.old.peer }
        ensures held { self.new.held ≡ (if can_hold self.old.peer.delivered self.old.held number then with_string self.old.held (place_of self.old.peer.delivered number) string else self.old.held) }
        ensures result { result ≡ (if can_hold self.old.peer.delivered self.old.held number then None else Some string) }
    {
        if self.delivered >= number {
            return Some(string);
        }
        let place = number - self.delivered - 1;
        self.held.hold(place as usize, string)
    }

    /// The string that is held of the number after those delivered.
    pub(crate) fn ready(&self) -> Option<&Bytes<A>>
        ensures { MatchOption result (place_at self.now.held 0 ≡ None) (λ s. place_at self.now.held 0 ≡ Some s.now) }
    {
        self.held.first()
    }

    /// Takes out the string that is held of the number after those delivered.
    pub(crate) fn take_ready(&mut self) -> Option<Bytes<A>>
        ensures peer { self.new.peer ≡ self.old.peer }
        ensures held { self.new.held ≡ without_first self.old.held }
        ensures result { result ≡ place_at self.old.held 0 }
    {
        self.held.take_first()
    }
}

fn drop_first<T: Drop, A: Allocator>(queue: &mut VecDeque<T, A>, count: u64)
    requires { count ≤ length queue.old.items }
    ensures { queue.new.items ≡ drop count queue.old.items }
{
    for _ in 0..count {
        let _ = queue.pop_front();
    }
}

/// How many of the parcels go to the node.
pub(crate) fn count_to(parcels: &[Parcel<&[u8]>], node: u8) -> usize
    ensures { result ≡ count_to (map owned_parcel parcels.now) node }
{
    parcels.iter().filter(|parcel| parcel.dest == node).count()
}

/// Whether a number is left, at the side of a node, for each of the parcels that go there. They are counted only
/// where none is left for all parcels.
#[tactic(auto, using(crate::proofs::Counting::counted_few))]
pub(crate) fn has_numbers_to<A: Allocator>(
    side: &Side<A>,
    parcels: &[Parcel<&[u8]>],
    node: u8,
) -> bool
    ensures { IsTrue result ↔ (side.now.peer.sent + count_to (map owned_parcel parcels.now) node ≤ greatest_number) }
{
    side.has_numbers(parcels.len()) || side.has_numbers(count_to(parcels, node))
}

/// Makes room at each node for the messages of the parcels that go there. They are not counted: there is room
/// for all parcels then.
pub(crate) fn reserve<A: Allocator>(
    sides: &mut Vec<Side<A>, A>,
    parcels: &[Parcel<&[u8]>],
) -> Result<(), AllocError>
    requires within { AreWithin (linked 0 sides.old.items) (map owned_parcel parcels.now) }
    ensures peers { map peer_of sides.new.items ≡ map peer_of sides.old.items }
    ensures held { map held_of sides.new.items ≡ map held_of sides.old.items }
    ensures room { OnOk result (HasRoomFor sides.new.items (map owned_parcel parcels.now)) }
    ensures sure { length parcels.now ≡ 0 → IsOk result }
{
    for parcel in parcels {
        sides[usize::from(parcel.dest)].reserve(parcels.len())?;
    }
    Ok(())
}

/// Keeps the messages of the parcels, each at its node.
pub(crate) fn keep_each<A: Allocator>(
    sides: &mut Vec<Side<A>, A>,
    parcels: &[Parcel<&[u8]>],
    mut copies: VecDeque<Kept<A>, A>,
)
    requires within { AreWithin (linked 0 sides.old.items) (map owned_parcel parcels.now) }
    requires room { HasRoomFor sides.old.items (map owned_parcel parcels.now) }
    requires numbers { has_numbers (linked 0 sides.old.items) (map owned_parcel parcels.now) ≡ true }
    requires copies { copies.items ≡ map message_of (map owned_parcel parcels.now) }
    ensures after { linked 0 sides.new.items ≡ after_sends (linked 0 sides.old.items) (map owned_parcel parcels.now) }
    ensures held { map held_of sides.new.items ≡ map held_of sides.old.items }
{
    for parcel in parcels {
        let Some(copy) = copies.pop_front() else {
            unreachable!();
        };
        sides[usize::from(parcel.dest)].keep(copy);
    }
}

/// Keeps the message of one parcel at its node.
pub(crate) fn keep_one<A: Allocator>(
    sides: &mut Vec<Side<A>, A>,
    parcel: &Parcel<&[u8]>,
    kept: Kept<A>,
)
    requires within { AreWithin (linked 0 sides.old.items) (owned_parcel parcel.now ∷ []) }
    requires room { HasRoomFor sides.old.items (owned_parcel parcel.now ∷ []) }
    requires numbers { has_numbers (linked 0 sides.old.items) (owned_parcel parcel.now ∷ []) ≡ true }
    requires kept { kept ≡ message_of (owned_parcel parcel.now) }
    ensures after { linked 0 sides.new.items ≡ after_sends (linked 0 sides.old.items) (owned_parcel parcel.now ∷ []) }
    ensures held { map held_of sides.new.items ≡ map held_of sides.old.items }
{
    sides[usize::from(parcel.dest)].keep(kept);
}

/// Adds a frame to those made.
pub(crate) fn add<'p, A: Allocator>(
    frames: &mut Vec<Frame<&'p [u8]>, A>,
    frame: Frame<&'p [u8]>,
) -> Result<(), AllocError>
    ensures { OnOk result (map owned_frame frames.new.items ≡ map owned_frame frames.old.items ++ owned_frame frame.entry ∷ []) }
{
    frames.push(frame)?;
    Ok(())
}

/// The messages of the parcels, with copies of their pages.
pub(crate) fn copies<A: Allocator + Copy>(
    alloc: A,
    parcels: &[Parcel<&[u8]>],
) -> Result<VecDeque<Kept<A>, A>, AllocError>
    ensures ok { IfOk result (λ copies. copies.items ≡ map message_of (map owned_parcel parcels.now)) }
    ensures sure { length parcels.now ≡ 0 → IsOk result }
{
    let mut copies = VecDeque::with_capacity(alloc, parcels.len())?;
    for parcel in parcels {
        copies.push_back(Kept::copied(alloc, &parcel.message)?)?;
    }
    Ok(copies)
}

/// The frames with copies of their pages.
pub(crate) fn copied<A: Allocator + Copy>(
    alloc: A,
    frames: &[Frame<&[u8]>],
) -> Result<Vec<Frame<OwnedPage<A>>, A>, AllocError>
    ensures ok { IfOk result (λ copies. copies.items ≡ map owned_frame frames.now) }
    ensures sure { length frames.now ≡ 0 → IsOk result }
{
    let mut copies = Vec::with_capacity(alloc, frames.len())?;
    for frame in frames {
        copies.push(frame.owned(alloc)?)?;
    }
    Ok(copies)
}
