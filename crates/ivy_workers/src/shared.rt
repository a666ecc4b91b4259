//! What the workers of a session share: how the session stands, whom the frames on the ether are for, and the bells on
//! which workers sleep.
ghost use Rattle.std.specs.Prelude.{IfSome, IfErr};
ghost use Rattle.ivy_workers.specs.Stops.{IsStop};

use crate::limits::Limits;
use crate::pulses::Pulses;
use crate::traffic::Traffic;
use ivy_model::Fault;
use std::alloc::Allocator;
use std::hint::spin_loop;
use std::sync::atomic::{AtomicBool, AtomicU64, Ordering};
use std::sync::{Mutex, Wait};
use std::thread;
use std::thread::Threads;
use std::time::Duration;

/// How many turns a round of pulses has at most.
const MOST_ROUND: u64 = 32_768;

/// How often a worker looks for something to do before it sleeps, where there is a processor for each that may look. What
/// one worker waits for the next one does soon then, and a sleep would cost more. Where there are more of them than
/// processors a worker that looks takes the processor from one that has something to do.
const LOOKS: u32 = 8_000;

/// How many places of an ether are kept, if it has twice as many, for the node that the first frame is for. It has to put
/// its frames before it takes.
const KEPT_PLACES: u64 = 3;

/// How many frames behind the first one are looked at for one that can be taken.
const MOST_BEHIND: u64 = 64;

/// Where so few places of the ether are left, whoever waits for one is woken when one may have come.
const FEW_PLACES: u64 = 8;

/// How often a program worker looks whether the wire worker has the lock that it wants.
const COURTESY: u32 = 200;

/// The bell of a worker that is up.
const UP: u64 = 0;

/// The bell of a worker that lies down.
const LIES: u64 = 1;

/// Why a session ends before its programs do.
#[derive(Drop)]
struct Stop {
    fault: Fault,
    ghost why: { IsStop fault },
}

/// How many programs have ended, and why the session stops before they all have, if it does.
#[derive(Drop)]
struct Standing {
    ended: u64,
    stop: Option<Stop>,
}

/// How a session stands, whom the frames on the ether are for, and what the workers sleep on.
#[derive(Drop)]
pub struct Shared<A: Allocator> {
    programs: u64,
    pulse_every: u64,
    kept_places: u64,
    looks: u32,
    program_looks: u32,
    over: AtomicBool,
    stopped: AtomicBool,
    standing: Mutex<Standing>,
    /// Whether any frame was lost.
    lossy: AtomicBool,
    line: Line<A>,
    bells: Vec<Bells, A>,
}

impl<A: Allocator + Copy> Shared<A> {
    /// Of a session of so many programs, of which none has ended yet [1].
    pub fn new<R: Threads>(rt: &R, alloc: A, programs: usize, limits: Limits) -> Result<Self, Fault>
        ensures { IfErr result IsStop }
    {
        let line = Line::new(alloc, limits.capacity, programs)?;
        let mut bells = Vec::new(alloc);
        for _ in 0..programs {
            bells.reserve(1)?;
            bells.push_reserved(Bells::new(limits.pulse_every));
        }
        let many = processors(rt);
        Ok(Shared {
            programs: programs as u64,
            pulse_every: limits.pulse_every,
            kept_places: KEPT_PLACES.min(limits.capacity / 2),
            looks: looks_among(programs as u64, many / 2),
            program_looks: looks_among(programs as u64, many),
            over: AtomicBool::new(false),
            stopped: AtomicBool::new(false),
            standing: Mutex::new(Standing {
                ended: 0,
                stop: None,
            }),
            lossy: AtomicBool::new(false),
            line,
            bells,
        })
    }
}

impl<A: Allocator> Shared<A> {
    /// One more program has ended.
    pub fn end<R: Wait>(&self, rt: &R) {
        let mut standing = self.standing.lock(rt);
        standing.ended = standing.ended.saturating_add(1);
        let all = standing.ended >= self.programs;
        drop(standing);
        if all {
            self.over.store(true, Ordering::SeqCst);
            self.wake_all();
        }
    }

    /// The session stops with this fault, unless all programs have ended, or it has stopped with another one. It tells
    /// whether it stops with this one.
    pub fn stop<R: Wait>(&self, rt: &R, fault: Fault) -> bool
        requires { IsStop fault }
    {
        let mut standing = self.standing.lock(rt);
        if standing.ended >= self.programs {
            return false;
        }
        let is_first = standing.stop.is_none();
        if is_first {
            standing.stop = Some(Stop { fault });
        }
        drop(standing);
        self.stopped.store(true, Ordering::SeqCst);
        self.over.store(true, Ordering::SeqCst);
        self.wake_all();
        is_first
    }

    /// Whether the session stops before all programs have ended.
    pub(crate) fn is_stopped(&self) -> bool {
        self.stopped.load(Ordering::SeqCst)
    }

    /// Whether all programs have ended, or the session stops before.
    pub(crate) fn is_over(&self) -> bool {
        self.over.load(Ordering::SeqCst)
    }

    /// In so many turns on the wire a node pulses to each other one, but for a bound.
    pub(crate) fn round(&self) -> u64 {
        self.programs
            .saturating_mul(self.pulse_every)
            .min(MOST_ROUND)
    }

    /// How many turns are made on the wire where nobody has woken the wire worker for a while, so that a pulse comes.
    pub(crate) fn nap_round(&self) -> u64 {
        self.pulse_every.min(MOST_ROUND)
    }

    /// How often a wire worker looks for something to do before it sleeps, at most.
    pub(crate) fn looks(&self) -> u32 {
        self.looks
    }

    /// How often a program worker that waits looks for something to do before it sleeps, at most.
    pub(crate) fn program_looks(&self) -> u32 {
        self.program_looks
    }

    /// Wakes all workers, so that they see how the session stands.
    fn wake_all(&self) {
        for bells in &self.bells {
            bells.wake();
        }
    }

    /// What the workers of a node sleep on.
    pub(crate) fn bells(&self, node: u8) -> Option<&Bells> {
        self.bells.get(usize::from(node))
    }

    /// Whom the frames on the ether are for.
    pub(crate) fn line(&self) -> &Line<A> {
        &self.line
    }

    /// Whether any frame was lost.
    pub(crate) fn is_lossy(&self) -> bool {
        self.lossy.load(Ordering::SeqCst)
    }

    /// A frame is lost. A node makes a round of pulses, so that it is sent again.
    fn begin_round(&self, bells: &Bells) {
        self.lossy.store(true, Ordering::SeqCst);
        bells.begin_round(self.round());
        bells.ring_wire();
    }

    fn has_frame(&self, node: u8) -> bool {
        match self.bells(node) {
            None => false,
            Some(bells) => bells.waiting().is_some(),
        }
    }

    /// Whether there is a place for a frame of this node.
    pub(crate) fn has_place(&self, node: u8) -> bool {
        let places = self.line.places();
        if places > self.kept_places {
            return true;
        }
        match self.line.first() {
            None => true,
            Some(first) => first == node && places > 0,
        }
    }

    /// The node that is to put back what is before its frame, where the first frame's node can take nothing: it has a
    /// frame to put, and there is no place.
    pub(crate) fn turner(&self) -> Option<u8> {
        if self.line.places() > 0 || !self.has_frame(self.line.first()?) {
            return None;
        }
        for others in 1..MOST_BEHIND {
            let node = self.line.behind(others)?;
            if !self.has_frame(node) {
                return Some(node);
            }
        }
        None
    }

    /// Wakes the worker that makes a node's turns on the wire.
    fn wake_wire(&self, node: Option<u8>) {
        let Some(node) = node else {
            return;
        };
        if let Some(bells) = self.bells(node) {
            bells.ring_wire();
        }
    }

    /// Whether a node that waits for that may go on: there is a place for its frame, or nothing is on the ether, so that
    /// it is to pulse.
    fn may_go_on(&self, node: u8) -> bool {
        match self.bells(node) {
            None => false,
            Some(bells) if bells.waiting().is_some() => self.has_place(node),
            Some(bells) => bells.round() > 0 && self.line.first().is_none(),
        }
    }

    /// Wakes the worker of a node that waits for a place, or until nothing is on the ether, and may go on: the next one
    /// after this node round.
    fn wake_next(&self, after: u8) {
        let mut place = usize::from(after);
        for _ in 0..self.bells.len() {
            let next = place.saturating_add(1);
            place = if next < self.bells.len() { next } else { 0 };
            let node = place.min(255) as u8;
            if self.may_go_on(node) {
                self.wake_wire(Some(node));
                return;
            }
        }
    }

    /// A frame was put, which is for this node, if it is a frame.
    fn put(&self, to: Option<u8>) {
        if let Some(to) = to {
            self.line.add(to);
        }
    }

    /// Tells the workers what a node's turn on the wire came to: `own` are its bells.
    pub(crate) fn tell(&self, own: &Bells, node: u8, traffic: Traffic) {
        match traffic {
            Traffic::Lost => {
                self.begin_round(own);
                return;
            }
            Traffic::Nothing => return,
            Traffic::Sent { to } => self.put(to),
            Traffic::Returned { to } => {
                self.line.strike_out();
                self.put(to);
            }
            Traffic::Taken { served } => {
                self.line.strike_out();
                if served {
                    own.count_served();
                }
            }
            Traffic::Dropped => {
                self.line.strike_out();
                for bells in &self.bells {
                    self.begin_round(bells);
                }
            }
        }
        let first = self.line.first();
        self.wake_wire(first);
        if (first.is_none() && self.is_lossy()) || self.line.places() < FEW_PLACES {
            self.wake_next(node);
            self.wake_wire(self.turner());
        }
    }

    /// Why the session stopped, if it did.
    pub fn into_stop(self) -> Option<Fault>
        ensures { IfSome result IsStop }
    {
        let Shared {
            programs: _,
            pulse_every: _,
            kept_places: _,
            looks: _,
            program_looks: _,
            over: _,
            stopped: _,
            standing,
            lossy: _,
            line: _,
            bells: _,
        } = self;
        match standing.into_inner().stop {
            None => None,
            Some(stop) => Some(stop.fault),
        }
    }
}

/// The nodes that the frames on the ether are for, about in the order in which they lie there.
///
/// It goes along with the ether: who put a frame adds its node behind the others, and who took one strikes out the
/// first, each right after the turn. So as many stand here as lie there. Workers may tell of their turns in another
/// order than they made them: then a worker finds the frame of another node, puts it back and adds that node again,
/// and line and ether agree once more.
#[derive(Drop)]
pub(crate) struct Line<A: Allocator> {
    capacity: u64,
    /// How many were added, and how many struck out.
    added: AtomicU64,
    struck: AtomicU64,
    /// The nodes that were added last, each at the place of its number, round.
    nodes: Vec<AtomicU64, A>,
}

impl<A: Allocator + Copy> Line<A> {
    /// No frame is on an ether of so many items, at which so many nodes sit [1].
    pub(crate) fn new(alloc: A, capacity: u64, nodes: usize) -> Result<Self, Fault>
        ensures { IfErr result IsStop }
    {
        // A worker that took a frame and one that put another may both be late to tell.
        let most = (capacity as usize).saturating_add(nodes.saturating_mul(2));
        let mut places = Vec::new(alloc);
        for _ in 0..most {
            places.reserve(1)?;
            places.push_reserved(AtomicU64::new(0));
        }
        Ok(Line {
            capacity,
            added: AtomicU64::new(0),
            struck: AtomicU64::new(0),
            nodes: places,
        })
    }
}

impl<A: Allocator> Line<A> {
    fn place(&self, number: u64) -> Option<&AtomicU64> {
        let places = self.nodes.len() as u64;
        self.nodes.get(number.checked_rem(places)? as usize)
    }

    /// A frame was put for a node.
    pub(crate) fn add(&self, node: u8) {
        let number = self.added.fetch_add(1, Ordering::SeqCst);
        if let Some(place) = self.place(number) {
            place.store(u64::from(node), Ordering::SeqCst);
        }
    }

    /// The first frame was taken.
    pub(crate) fn strike_out(&self) {
        self.struck.fetch_add(1, Ordering::SeqCst);
    }

    /// How many frames are on the ether.
    fn length(&self) -> u64 {
        let struck = self.struck.load(Ordering::SeqCst);
        self.added.load(Ordering::SeqCst).saturating_sub(struck)
    }

    /// The node that the frame is for behind so many others.
    pub(crate) fn behind(&self, others: u64) -> Option<u8> {
        let number = self.struck.load(Ordering::SeqCst).saturating_add(others);
        if self.added.load(Ordering::SeqCst) <= number {
            return None;
        }
        let node = self.place(number)?.load(Ordering::SeqCst);
        Some(node.min(255) as u8)
    }

    /// The node that the first frame is for.
    pub(crate) fn first(&self) -> Option<u8> {
        self.behind(0)
    }

    /// Whether any frame is on the ether.
    #[inline(always)]
    pub(crate) fn has_any(&self) -> bool {
        self.added.load(Ordering::SeqCst) != self.struck.load(Ordering::SeqCst)
    }

    /// How often anything was told.
    pub(crate) fn changes(&self) -> u64 {
        let struck = self.struck.load(Ordering::SeqCst);
        struck.wrapping_add(self.added.load(Ordering::SeqCst))
    }

    /// How many places are left.
    pub(crate) fn places(&self) -> u64 {
        self.capacity.saturating_sub(self.length())
    }
}

/// What one worker sleeps on: 1 from when it lies down until its bell is rung or it gets up, else 0.
///
/// The worker lies down, and then looks whether there is something to do; who gives it something to do rings afterwards.
/// So it finds that, or is woken.
pub(crate) type Bell = AtomicU64;

/// What the two workers of a node sleep on, and what the workers of other nodes know of it.
#[derive(Drop)]
pub(crate) struct Bells {
    pub(crate) program: Bell,
    pub(crate) wire: Bell,
    /// How many frames the node has served, which its program may have waited for.
    served: AtomicU64,
    /// 0 where no frame of the node waits to be put, else one more than the node that the first one is for.
    waiting: AtomicU64,
    /// Whether the wire worker waits for the node's site.
    wanted: AtomicBool,
    /// Whether the program worker waits, and makes the turns on the wire meanwhile.
    polled: AtomicBool,
    /// How many turns on the wire are still to be made while nothing is on the ether, so that pulses are made.
    round: AtomicU64,
    /// When the node pulses, and to whom, whichever worker makes its turns on the wire.
    pub(crate) pulses: Mutex<Pulses>,
    /// How many turns on the wire were begun.
    wire_turns: AtomicU64,
}

impl Bells {
    /// Nothing was served, and nothing waits. Each so many turns on the wire make a pulse due.
    pub(crate) fn new(pulse_every: u64) -> Bells {
        Bells {
            program: Bell::new(UP),
            wire: Bell::new(UP),
            served: AtomicU64::new(0),
            waiting: AtomicU64::new(0),
            wanted: AtomicBool::new(false),
            polled: AtomicBool::new(false),
            round: AtomicU64::new(0),
            pulses: Mutex::new(Pulses::new(pulse_every)),
            wire_turns: AtomicU64::new(0),
        }
    }

    /// How many frames the node has served, which its program may have waited for.
    pub(crate) fn served(&self) -> u64 {
        self.served.load(Ordering::SeqCst)
    }

    /// The node has served a frame. Its program worker sees that where it looks, and sleeps on until its bell is rung.
    pub(crate) fn count_served(&self) {
        self.served.fetch_add(1, Ordering::SeqCst);
    }

    /// The node that the first frame is for that waits to be put.
    pub(crate) fn waiting(&self) -> Option<u8> {
        match self.waiting.load(Ordering::SeqCst) {
            0 => None,
            next => Some((next - 1).min(255) as u8),
        }
    }

    /// Says whom the first frame is for that waits to be put, if one does. The node's site is locked. It tells whether
    /// that is news.
    pub(crate) fn set_waiting(&self, waiting: Option<u8>) -> bool {
        let next = match waiting {
            None => 0,
            Some(to) => u64::from(to) + 1,
        };
        if next == self.waiting.load(Ordering::SeqCst) {
            return false;
        }
        self.waiting.store(next, Ordering::SeqCst);
        true
    }

    /// Says whether the wire worker waits for the node's site.
    pub(crate) fn want(&self, wanted: bool) {
        self.wanted.store(wanted, Ordering::SeqCst);
    }

    /// The program worker lets the wire worker lock the site first. A program in a loop of hits would hold it off else.
    pub(crate) fn let_wire_go(&self) {
        for _ in 0..COURTESY {
            if !self.wanted.load(Ordering::SeqCst) {
                return;
            }
            spin_loop();
        }
    }

    /// Whether the program worker makes the turns on the wire.
    pub(crate) fn is_polled(&self) -> bool {
        self.polled.load(Ordering::SeqCst)
    }

    /// Says whether the program worker makes the turns on the wire.
    pub(crate) fn poll(&self, polled: bool) {
        self.polled.store(polled, Ordering::SeqCst);
    }

    /// How many turns on the wire are still to be made while nothing is on the ether, so that pulses are made.
    pub(crate) fn round(&self) -> u64 {
        self.round.load(Ordering::SeqCst)
    }

    /// How many of these are to be made at least.
    pub(crate) fn begin_round(&self, turns: u64) {
        self.round.fetch_max(turns, Ordering::SeqCst);
    }

    /// One of these was made, if any is left. The node's site is locked.
    pub(crate) fn go_round(&self) {
        if self.round() > 0 {
            self.round.fetch_sub(1, Ordering::SeqCst);
        }
    }

    /// A turn on the wire begins, unless so many were made.
    pub(crate) fn begin_wire_turn(&self, most: u64) -> bool {
        self.wire_turns.fetch_add(1, Ordering::SeqCst) < most
    }

    /// Wakes the worker that makes the turns on the wire.
    pub(crate) fn ring_wire(&self) {
        if self.is_polled() {
            ring(&self.program);
        } else {
            ring(&self.wire);
        }
    }

    /// Wakes both workers.
    pub(crate) fn wake(&self) {
        ring(&self.program);
        ring(&self.wire);
    }
}

/// How many processors a session may use, where that is known.
fn processors<R: Threads>(rt: &R) -> u64 {
    match thread::available_parallelism(rt) {
        Ok(found) => found.get() as u64,
        Err(_) => 1,
    }
}

/// How often a worker looks, by how many such workers there are, and how many processors for them.
fn looks_among(workers: u64, processors: u64) -> u32 {
    if workers <= processors { LOOKS } else { 0 }
}

/// Wakes a worker that lies down.
pub(crate) fn ring(bell: &Bell) {
    if bell.load(Ordering::SeqCst) == LIES && bell.swap(UP, Ordering::SeqCst) == LIES {
        bell.wake_one();
    }
}

/// The worker is about to sleep.
pub(crate) fn lie_down(bell: &Bell) {
    bell.store(LIES, Ordering::SeqCst);
}

/// The worker is up. It tells whether the bell was rung since it lay down.
pub(crate) fn get_up(bell: &Bell) -> bool {
    bell.swap(UP, Ordering::SeqCst) == UP
}

/// The worker, which lay down, sleeps until the bell is rung, so many microseconds at most. It tells whether it was.
pub(crate) fn sleep<R: Wait>(rt: &R, bell: &Bell, most: u64) -> bool {
    bell.park_timeout(rt, LIES as u32, Duration::from_micros(most));
    get_up(bell)
}
