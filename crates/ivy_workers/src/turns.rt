//! The program worker of a node, whatever makes the turns.
use crate::gate::{Role, Turnstile};
use crate::seat::Seat;
use crate::shared::ring;
use crate::wire::{Patience, Wire, rest_program};
use std::alloc::Allocator;
use std::hint::spin_loop;
use std::sync::{Mutex, MutexGuard, Wait};
use std::thread::yield_now;

/// How often a worker looks whether the other one of its node has left the site, before it sleeps until then. A turn takes
/// no longer.
const MOST_LOCK_LOOKS: u32 = 500;

/// How many turns a program worker makes while the same frame lies first on the ether, before it sees to it. The worker that
/// is woken for the frame takes it sooner where it finds a processor.
const MOST_PASSED: u32 = 64;

/// How many turns on the wire a program worker makes at most before its program goes on.
const MOST_WIRE_TURNS: u32 = 8;

/// How often a worker looks for a lock, where it looks so often for something to do.
pub(crate) fn lock_looks(looks: u32) -> u32 {
    MOST_LOCK_LOOKS.min(looks)
}

/// Locks a site, and looks so often whether it is free before it sleeps.
pub(crate) fn lock_soon<'m, T, R: Wait>(
    rt: &R,
    seat: &'m Mutex<T>,
    looks: u32,
) -> MutexGuard<'m, T> {
    for _ in 0..looks {
        if let Some(seated) = seat.try_lock() {
            return seated;
        }
        spin_loop();
    }
    seat.lock(rt)
}

/// The program worker of a node: for each turn it locks the node's place, and leaves it. While it waits it makes the
/// node's turns on the wire, so that no other worker has to be woken for what it waits for.
///
/// Each reference has a lifetime of its own.
#[derive(Drop)]
pub struct ProgramWorker<'r, 's, 'g, 'a, T, A: Allocator, R, G> {
    wire: Wire<'r, 's, 'g, 'a, T, A, R, G>,
    /// How many turns are left to it.
    turns: u64,
    /// How many frames the node had served before the last turn.
    served: u64,
    /// Whether it makes the turns on the wire.
    polls: bool,
    patience: Patience,
    /// How many turns it has made since the frames on the ether were these.
    passed: u32,
    changes: u64,
}

impl<'r, 's, 'g, 'a, T: Seat, A: Allocator + Copy, R: Wait, G: Turnstile> ProgramWorker<
    'r,
    's,
    'g,
    'a,
    T,
    A,
    R,
    G,
> {
    /// The program worker of this node, which makes so many turns at most.
    pub(crate) fn new(wire: Wire<'r, 's, 'g, 'a, T, A, R, G>, turns: u64) -> Self {
        let patience = Patience::new(wire.shared.program_looks());
        ProgramWorker {
            wire,
            turns,
            served: 0,
            polls: false,
            patience,
            passed: 0,
            changes: 0,
        }
    }

    /// Locks the node's place for a turn. None where the session stops, or no turn is left.
    #[inline(always)]
    pub fn enter(&mut self) -> Option<MutexGuard<'s, T>> {
        if self.turns == 0 || self.wire.shared.is_stopped() {
            return None;
        }
        self.turns -= 1;
        if !self.polls && self.wire.shared.line().has_any() {
            self.make_way();
        }
        let wire = &self.wire;
        self.served = wire.bells.served();
        wire.bells.let_wire_go();
        let seated = lock_soon(wire.rt, wire.seat, lock_looks(wire.shared.looks()));
        wire.gate.pass(wire.node, Role::Program, seated.records());
        Some(seated)
    }

    /// Frames are on the ether. Where they stay the same for long, this worker holds off whoever is to take the first of
    /// them: so it makes the node's turns on the wire itself, or gives the processor up.
    #[inline(never)]
    fn make_way(&mut self) {
        let changes = self.wire.shared.line().changes();
        if changes != self.changes {
            self.changes = changes;
            self.passed = 0;
        }
        self.passed = self.passed.saturating_add(1);
        if self.passed < MOST_PASSED {
            return;
        }
        self.passed = 0;
        if self.wire.has_work() {
            self.turn_for_wire();
        } else {
            yield_now();
        }
    }

    /// Makes the turns on the wire that are due, in place of the wire worker, which is woken where one is left.
    fn turn_for_wire(&mut self) {
        let bells = self.wire.bells;
        bells.poll(true);
        for _ in 0..MOST_WIRE_TURNS {
            if !self.wire.has_work() || !self.turn_on_wire() {
                break;
            }
        }
        bells.poll(false);
        if self.wire.has_work() {
            ring(&bells.wire);
        }
    }

    /// Leaves the node's place after a turn. Where the program rests next, this worker makes the node's turns on the wire
    /// from now on, and else the wire worker does, which is woken if there is something to do.
    #[inline(always)]
    pub fn leave(&mut self, seated: MutexGuard<'s, T>, rests: bool) {
        let bells = self.wire.bells;
        let news = bells.set_waiting(seated.waiting());
        drop(seated);
        if rests != self.polls {
            self.polls = rests;
            bells.poll(rests);
            if !rests && self.wire.has_work() {
                ring(&bells.wire);
            }
        } else if news && !rests {
            ring(&bells.wire);
        }
    }

    /// Waits until the node has served one more frame than before the last turn, or for a while, and makes the node's
    /// turns on the wire meanwhile.
    pub fn rest(&mut self) {
        for _ in self.wire.rt.forever() {
            if !self.poll() {
                return;
            }
        }
    }

    /// Makes a turn on the wire where there is something to do there, and else waits for that. It says whether it is to
    /// do so again.
    fn poll(&mut self) -> bool {
        let wire = &self.wire;
        if wire.bells.served() != self.served || wire.shared.is_stopped() {
            return false;
        }
        if wire.has_work() {
            return self.turn_on_wire();
        }
        rest_program(wire, &mut self.patience, self.served)
    }

    /// Makes a turn on the wire. It says whether the session goes on.
    fn turn_on_wire(&mut self) -> bool {
        let wire = &mut self.wire;
        let seated = lock_soon(wire.rt, wire.seat, lock_looks(wire.shared.looks()));
        wire.turn(seated).is_some()
    }
}
