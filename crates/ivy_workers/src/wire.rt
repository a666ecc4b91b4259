//! The turns of a node on the wire: who makes them, when the next one is due, and when a worker sleeps.
use crate::gate::{Role, Turnstile};
use crate::limits::Limits;
use crate::seat::Seat;
use crate::shared::{Bells, Shared, get_up, lie_down, ring, sleep};
use crate::traffic::Traffic;
use crate::turns::{ProgramWorker, lock_looks, lock_soon};
use ivy_model::Fault;
use std::alloc::Allocator;
use std::hint::spin_loop;
use std::sync::{Mutex, MutexGuard, Wait};

/// How many microseconds a wire worker first sleeps at most. Each time that nobody wakes it, it sleeps twice as long, but
/// for a bound: where work for it is long in coming, pulses would only take time from the others.
const NAP: u64 = 2_000;

/// How often that time is doubled at most.
const DOUBLINGS: u32 = 5;

/// How many microseconds a worker sleeps at most where the ether has no place for what the node has to put, and where a
/// frame was lost and it makes a round of pulses as soon as nothing is on the ether.
const SHORT_NAP: u64 = 500;

/// How many microseconds a program worker sleeps at most.
const PROGRAM_NAP: u64 = 10_000;

/// How many frames a wire worker serves at most before the program worker is woken.
const MOST_UNHEARD: u32 = 8;

/// How often a worker looks after it looked in vain.
const FEW_LOOKS: u32 = 200;

/// How often in a row it looks in vain before it looks for long again.
const MOST_MISSES: u32 = 16;

/// What makes a node's turns on the wire. Each reference has a lifetime of its own.
#[derive(Drop)]
pub(crate) struct Wire<'r, 's, 'g, 'a, T, A: Allocator, R, G> {
    pub(crate) rt: &'r R,
    pub(crate) seat: &'s Mutex<T>,
    pub(crate) gate: &'g G,
    pub(crate) shared: &'a Shared<A>,
    pub(crate) bells: &'a Bells,
    pub(crate) node: u8,
    most_turns: u64,
    /// How often anything had been noted of the frames on the ether before the last turn, if that found none.
    empty_at: Option<u64>,
}

impl<'r, 's, 'g, 'a, T: Seat, A: Allocator + Copy, R: Wait, G: Turnstile> Wire<
    'r,
    's,
    'g,
    'a,
    T,
    A,
    R,
    G,
> {
    /// That of this node, whose place this is. None where the session has no such node.
    pub(crate) fn new(
        rt: &'r R,
        seat: &'s Mutex<T>,
        gate: &'g G,
        shared: &'a Shared<A>,
        node: u8,
        limits: Limits,
    ) -> Option<Self> {
        let bells = shared.bells(node)?;
        Some(Wire {
            rt,
            seat,
            gate,
            shared,
            bells,
            node,
            most_turns: limits.turns,
            empty_at: None,
        })
    }

    /// Makes a turn at the node's place, which is locked, and tells the other workers what it came to. None where it is
    /// refused, or the node has made all its turns: then the session stops.
    pub(crate) fn turn(&mut self, seated: MutexGuard<'s, T>) -> Option<Traffic> {
        let mut seated = seated;
        if !self.bells.begin_wire_turn(self.most_turns) {
            drop(seated);
            self.shared.stop(self.rt, Fault::TurnLimit);
            return None;
        }
        let changes = self.shared.line().changes();
        self.gate.pass(self.node, Role::Wire, seated.records());
        let mut pulses = self.bells.pulses.lock(self.rt);
        let turn = seated.wire_turn(self.rt, &mut pulses);
        drop(pulses);
        if turn == Ok(Traffic::Nothing) {
            self.bells.go_round();
        }
        let news = self.bells.set_waiting(seated.waiting());
        drop(seated);
        match turn {
            Ok(traffic) => {
                if news {
                    self.bells.ring_wire();
                }
                self.shared.tell(self.bells, self.node, traffic);
                self.empty_at = (traffic == Traffic::Nothing).then_some(changes);
                Some(traffic)
            }
            Err(fault) => {
                self.shared.stop(self.rt, fault);
                None
            }
        }
    }

    /// Whether there is a frame to put for which there is a place, or the first frame to take, unless another worker has
    /// it in hand, or to put back, where its node can't take it. While nothing is on the ether, it is the turns that bring
    /// the next pulses.
    pub(crate) fn has_work(&self) -> bool {
        let first = self.shared.line().first();
        if self.bells.waiting().is_some() {
            return self.shared.has_place(self.node)
                || (first == Some(self.node) && self.shared.turner().is_none());
        }
        match first {
            None => self.bells.round() > 0,
            Some(node) if node == self.node => {
                self.empty_at != Some(self.shared.line().changes())
            }
            Some(_) => self.shared.turner() == Some(self.node),
        }
    }

    /// Whether the node has a frame to put, or makes a round of pulses for what was lost, as soon as the ether lets it.
    pub(crate) fn is_held_up(&self) -> bool {
        self.bells.waiting().is_some() || self.bells.round() > self.shared.nap_round()
    }
}

/// How often a worker looks for something to do before it sleeps: as often as it may where that helped, and less often
/// where it was in vain, as on a machine that does other work.
#[derive(Drop)]
pub(crate) struct Patience {
    most: u32,
    looks: u32,
    misses: u32,
}

impl Patience {
    /// At most so often, and so often at first.
    pub(crate) fn new(most: u32) -> Patience {
        Patience {
            most,
            looks: most,
            misses: 0,
        }
    }

    /// Something was found, or not.
    fn learn(&mut self, found: bool) {
        self.misses = if found || self.misses >= MOST_MISSES {
            0
        } else {
            self.misses + 1
        };
        self.looks = if self.misses == 0 {
            self.most
        } else {
            FEW_LOOKS.min(self.most)
        };
    }
}

/// What a wire worker knows of what there is to do for it.
#[derive(Drop)]
pub(crate) struct Watch {
    /// How often in a row nobody woke it.
    naps: u32,
    /// How many frames the node has served since its program worker was woken.
    unheard: u32,
    patience: Patience,
}

impl Watch {
    /// Of a wire worker that has made no turn yet.
    pub(crate) fn new(most_looks: u32) -> Watch {
        Watch {
            naps: 0,
            unheard: 0,
            patience: Patience::new(most_looks),
        }
    }

    /// It has made a turn.
    pub(crate) fn note(&mut self, traffic: Traffic) {
        if let Traffic::Taken { served } = traffic {
            self.naps = 0;
            if served {
                self.unheard = self.unheard.saturating_add(1);
            }
        }
    }

    /// Whether there is something to do on the wire, unless the program worker does so, or the session is over.
    fn is_due<T: Seat, A: Allocator + Copy, R: Wait, G: Turnstile>(
        &self,
        wire: &Wire<'_, '_, '_, '_, T, A, R, G>,
    ) -> bool {
        wire.shared.is_over() || (!wire.bells.is_polled() && wire.has_work())
    }

    /// Looks for a while whether there is something to do.
    fn comes<T: Seat, A: Allocator + Copy, R: Wait, G: Turnstile>(
        &self,
        wire: &Wire<'_, '_, '_, '_, T, A, R, G>,
    ) -> bool {
        for _ in 0..self.patience.looks {
            if self.is_due(wire) {
                return true;
            }
            spin_loop();
        }
        false
    }

    /// Waits until there is something to do, or for a while. The program worker is woken before, once for what was
    /// served since.
    pub(crate) fn rest<T: Seat, A: Allocator + Copy, R: Wait, G: Turnstile>(
        &mut self,
        wire: &Wire<'_, '_, '_, '_, T, A, R, G>,
    ) {
        let is_due = self.is_due(wire);
        if self.unheard > MOST_UNHEARD || (self.unheard > 0 && !is_due) {
            self.unheard = 0;
            ring(&wire.bells.program);
        }
        if is_due {
            return;
        }
        let found = self.comes(wire);
        self.patience.learn(found);
        if !found {
            self.sleep(wire);
        }
    }

    /// Sleeps until there is something to do, or for a while in which nobody wakes it: then a pulse is to be made.
    fn sleep<T: Seat, A: Allocator + Copy, R: Wait, G: Turnstile>(
        &mut self,
        wire: &Wire<'_, '_, '_, '_, T, A, R, G>,
    ) {
        let (rt, bells) = (wire.rt, wire.bells);
        let most = nap(wire, NAP << self.naps.min(DOUBLINGS));
        for _ in rt.forever() {
            lie_down(&bells.wire);
            if self.is_due(wire) {
                get_up(&bells.wire);
                return;
            }
            if !sleep(rt, &bells.wire, most) {
                break;
            }
            if self.is_due(wire) {
                return;
            }
        }
        self.naps = self.naps.saturating_add(1);
        bells.begin_round(wire.shared.nap_round());
        bells.ring_wire();
    }
}

/// What the workers of a session share. Each reference has a lifetime of its own.
#[derive(Drop)]
pub struct Crew<'r, 's, 'g, 'a, T, A: Allocator, R, G> {
    /// The runtime.
    pub rt: &'r R,
    /// The places of the nodes, each behind its lock, in the order of the nodes.
    pub seats: &'s [Mutex<T>],
    /// What is told of each turn.
    pub gate: &'g G,
    /// What the workers tell one another.
    pub shared: &'a Shared<A>,
    /// What the session may use.
    pub limits: Limits,
}

impl<'r, 's, 'g, 'a, T, A, R, G> Crew<'r, 's, 'g, 'a, T, A, R, G>
where
    T: Seat,
    A: Allocator + Copy,
    R: Wait,
    G: Turnstile,
{
    /// What makes the turns on the wire of a node, whose place this is. None where the session has no such node.
    fn wire<'p>(&self, seat: &'p Mutex<T>, node: u8) -> Option<Wire<'r, 'p, 'g, 'a, T, A, R, G>> {
        Wire::new(self.rt, seat, self.gate, self.shared, node, self.limits)
    }

    /// The program worker of a node, whose place this is. None where the session has no such node.
    pub fn program_worker<'p>(
        &self,
        seat: &'p Mutex<T>,
        node: u8,
    ) -> Option<ProgramWorker<'r, 'p, 'g, 'a, T, A, R, G>> {
        let wire = self.wire(seat, node)?;
        Some(ProgramWorker::new(wire, self.limits.turns))
    }

    /// Makes the turns of a node on the wire, whose place this is, one turn a lock, until all programs have ended.
    pub fn run_wire(&self, seat: &Mutex<T>, node: u8) {
        if let Some(mut wire) = self.wire(seat, node) {
            run_wire(&mut wire, self.limits.turns);
        }
    }
}

/// How many microseconds a worker sleeps at most, which sleeps so long where nothing holds it up.
fn nap<T: Seat, A: Allocator + Copy, R: Wait, G: Turnstile>(
    wire: &Wire<'_, '_, '_, '_, T, A, R, G>,
    most: u64,
) -> u64 {
    if wire.is_held_up() { SHORT_NAP } else { most }
}

/// Looks for a while whether the node has served a frame more, has something to do on the wire, or the session is stopped.
fn comes_for_program<T: Seat, A: Allocator + Copy, R: Wait, G: Turnstile>(
    wire: &Wire<'_, '_, '_, '_, T, A, R, G>,
    looks: u32,
    served: u64,
) -> bool {
    for _ in 0..looks {
        if wire.bells.served() != served || wire.has_work() || wire.shared.is_stopped() {
            return true;
        }
        spin_loop();
    }
    false
}

/// A program worker, which had nothing to do when its node had served so many frames, waits until it has served one
/// more, or has something to do on the wire, or for a while. It says whether anything came. Where nothing did, and frames are
/// lost, a pulse is to be made.
pub(crate) fn rest_program<T: Seat, A: Allocator + Copy, R: Wait, G: Turnstile>(
    wire: &Wire<'_, '_, '_, '_, T, A, R, G>,
    patience: &mut Patience,
    served: u64,
) -> bool {
    let found = comes_for_program(wire, patience.looks, served);
    patience.learn(found);
    if found {
        return true;
    }
    let bell = &wire.bells.program;
    lie_down(bell);
    if comes_for_program(wire, 1, served) {
        get_up(bell);
        return true;
    }
    let rung = sleep(wire.rt, bell, nap(wire, PROGRAM_NAP));
    if !rung && wire.shared.is_lossy() && !wire.is_held_up() {
        wire.bells.begin_round(wire.shared.nap_round());
    }
    rung
}

/// Locks a node's site for its wire worker. Where the program worker has it, that one lets the wire worker go next.
fn lock_for_wire<'m, T, R: Wait>(
    rt: &R,
    seat: &'m Mutex<T>,
    bells: &Bells,
    looks: u32,
) -> MutexGuard<'m, T> {
    if let Some(seated) = seat.try_lock() {
        return seated;
    }
    bells.want(true);
    let seated = lock_soon(rt, seat, looks);
    bells.want(false);
    seated
}

/// Makes the turns of a node on the wire, one turn a lock, until all programs have ended. While the node's program waits
/// its worker makes them.
fn run_wire<T: Seat, A: Allocator + Copy, R: Wait, G: Turnstile>(
    wire: &mut Wire<'_, '_, '_, '_, T, A, R, G>,
    turns: u64,
) {
    let looks = wire.shared.looks();
    let mut watch = Watch::new(looks);
    for _ in 0..turns {
        if wire.shared.is_over() {
            return;
        }
        let seated = lock_for_wire(wire.rt, wire.seat, wire.bells, lock_looks(looks));
        let Some(traffic) = wire.turn(seated) else {
            return;
        };
        watch.note(traffic);
        watch.rest(wire);
    }
    wire.shared.stop(wire.rt, Fault::TurnLimit);
}
