//! Which of the threads runs: one at a time, and the others sleep.
use std::alloc::{AllocError, Allocator};
use std::sync::Wait;
use std::sync::atomic::{AtomicBool, AtomicU64, Ordering};

/// What a thread sleeps on.
type Bell = AtomicU64;

/// The bell of a thread that is to sleep.
const SLEEPS: u64 = 0;

/// The bell of a thread that may run.
const RUNS: u64 = 1;

/// The bell of a worker whose work has come to its end.
const ENDED: u64 = 2;

fn ring(bell: &Bell, value: u64) {
    bell.store(value, Ordering::SeqCst);
    bell.wake_one();
}

/// Sleeps until the bell says that the thread may run.
fn sleep<R: Wait>(rt: &R, bell: &Bell) {
    for _ in rt.forever() {
        if bell.swap(SLEEPS, Ordering::SeqCst) == RUNS {
            break;
        }
        bell.park(rt, SLEEPS as u32);
    }
}

/// Which of the threads runs: the driver, or the worker of one node.
#[derive(Drop)]
pub(crate) struct Baton<A: Allocator> {
    workers: Vec<Bell, A>,
    driver: Bell,
    /// Whether no further call is answered.
    is_over: AtomicBool,
}

impl<A: Allocator + Copy> Baton<A> {
    /// The driver runs.
    pub(crate) fn new(alloc: A, nodes: u8) -> Result<Self, AllocError> {
        let mut workers = Vec::new(alloc);
        for _ in 0..nodes {
            workers.push(Bell::new(SLEEPS))?;
        }
        Ok(Baton {
            workers,
            driver: Bell::new(SLEEPS),
            is_over: AtomicBool::new(false),
        })
    }

    /// Whether no further call is answered.
    pub(crate) fn is_over(&self) -> bool {
        self.is_over.load(Ordering::SeqCst)
    }

    /// The worker of a node sleeps until it may run.
    pub(crate) fn wait<R: Wait>(&self, rt: &R, me: u8) {
        if let Some(bell) = self.workers.get(usize::from(me)) {
            sleep(rt, bell);
        }
    }

    /// The worker that runs lets the driver run.
    pub(crate) fn give_back(&self) {
        ring(&self.driver, RUNS);
    }

    /// The work of the node has come to its end, and the driver runs.
    pub(crate) fn end(&self, me: u8) {
        if let Some(bell) = self.workers.get(usize::from(me)) {
            bell.store(ENDED, Ordering::SeqCst);
        }
        self.give_back();
    }

    /// The driver lets the worker of a node run, where its work has not come to its end, until it makes a call or ends.
    pub(crate) fn let_run<R: Wait>(&self, rt: &R, node: u8) {
        let Some(bell) = self.workers.get(usize::from(node)) else {
            return;
        };
        if bell.load(Ordering::SeqCst) != ENDED {
            ring(bell, RUNS);
            sleep(rt, &self.driver);
        }
    }

    /// From now on no further call is answered. The first workers, so many, run one after another to their end.
    pub(crate) fn finish<R: Wait>(&self, rt: &R, workers: u8) {
        self.is_over.store(true, Ordering::SeqCst);
        for node in 0..workers {
            self.let_run(rt, node);
        }
    }
}
