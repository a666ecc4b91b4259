//! Lines on their way from the thread that reads to the one that serves.

use std::alloc::{Allocator, Global};
use std::collections::VecDeque;
use std::hint::spin_loop;
use std::sync::atomic::{AtomicBool, AtomicU64, Ordering};
use std::sync::{Mutex, Wait};
use std::thread::Parker;
use std::time::Duration;

/// How many lines wait at most; one that finds no place is lost.
const MOST_LINES: usize = 1024;

/// How often who waits looks whether something came before it sleeps, since to be woken takes as long as many an answer.
const MOST_LOOKS: u64 = 16_384;

/// What was found.
#[derive(Drop)]
pub enum Mailed {
    /// A line, without its LF.
    Line(Vec<u8>),
    /// No line waits.
    Nothing,
    /// No line waits, and none will come.
    Ended,
}

/// Where lines come from, as who serves sees it.
pub trait Inbox {
    /// The first line that waits.
    fn take<R: Wait>(&self, rt: &R) -> Mailed;

    /// Waits until something comes, so many milliseconds at most. It may return before.
    fn wait<R: Wait>(&self, rt: &R, millis: u64);
}

#[derive(Drop)]
struct Inside {
    lines: VecDeque<Vec<u8>>,
    has_ended: bool,
}

impl Inside {
    fn put(&mut self, line: Vec<u8>) -> bool {
        self.lines.len() < MOST_LINES && self.lines.push_back(line).is_ok()
    }

    fn take(&mut self) -> Mailed {
        match self.lines.pop_front() {
            Some(line) => Mailed::Line(line),
            None if self.has_ended => Mailed::Ended,
            None => Mailed::Nothing,
        }
    }
}

/// Lines between two threads, of which one puts and the other takes.
pub struct Mail {
    inside: Mutex<Inside>,
    /// Whether something came since nothing was found.
    has_come: AtomicBool,
    /// Whether who takes sleeps, or is about to.
    sleeps: AtomicBool,
    /// How often who takes looks before it sleeps.
    looks: AtomicU64,
    bell: Parker,
}

impl Drop for Mail {
    fn drop(self) {
        let Mail {
            inside: _,
            has_come: _,
            sleeps: _,
            looks: _,
            bell: _,
        } = self;
    }
}

impl Mail {
    /// No line waits. It takes no memory.
    pub fn new(alloc: Global) -> Mail {
        Mail {
            inside: Mutex::new(Inside {
                lines: VecDeque::new(alloc),
                has_ended: false,
            }),
            has_come: AtomicBool::new(false),
            sleeps: AtomicBool::new(false),
            looks: AtomicU64::new(MOST_LOOKS),
            bell: Parker::new(),
        }
    }

    /// Something came.
    fn tell(&self) {
        self.has_come.store(true, Ordering::SeqCst);
        if self.sleeps.swap(false, Ordering::SeqCst) {
            self.bell.unpark();
        }
    }

    /// Puts a line behind those that wait. It tells whether it found a place.
    pub fn put<R: Wait>(&self, rt: &R, line: Vec<u8>) -> bool {
        let mut inside = self.inside.lock(rt);
        let kept = inside.put(line);
        drop(inside);
        self.tell();
        kept
    }

    /// No line will come any more.
    pub fn end<R: Wait>(&self, rt: &R) {
        let mut inside = self.inside.lock(rt);
        inside.has_ended = true;
        drop(inside);
        self.tell();
    }

    /// Looks for a while whether something comes: half as long after each time in vain, and as long as at first after all of
    /// these. So where others need the processor, or nothing comes, next to none of its time is taken.
    fn look(&self) -> bool {
        let looks = self.looks.load(Ordering::SeqCst);
        for _ in 0..looks {
            if self.has_come.load(Ordering::SeqCst) {
                self.looks.store(MOST_LOOKS, Ordering::SeqCst);
                return true;
            }
            spin_loop();
        }
        let next = if looks == 0 { MOST_LOOKS } else { looks / 2 };
        self.looks.store(next, Ordering::SeqCst);
        false
    }
}

impl Inbox for Mail {
    fn take<R: Wait>(&self, rt: &R) -> Mailed {
        self.has_come.store(false, Ordering::SeqCst);
        self.inside.lock(rt).take()
    }

    fn wait<R: Wait>(&self, rt: &R, millis: u64) {
        if self.look() {
            return;
        }
        self.sleeps.store(true, Ordering::SeqCst);
        if !self.has_come.load(Ordering::SeqCst) {
            self.bell.park_timeout(rt, Duration::from_millis(millis));
        }
        self.sleeps.store(false, Ordering::SeqCst);
    }
}
