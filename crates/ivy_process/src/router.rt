//! A medium that mistreats frames: it loses, repeats and reorders lines.

use crate::mail::{Inbox, Mailed};
use ivy_texts::generator_of;
use rand_core::utils::NextWord;
use rand_pcg::Lcg64Xsh32;
use std::alloc::Global;
use std::io::{self, Write};
use std::sync::Wait;

/// After so many milliseconds in which no line comes, those that are held back go out.
const QUIET_MILLIS: u64 = 2;

/// How many milliseconds it waits where nothing is held back.
const LONG_MILLIS: u64 = 1000;

/// What is done to lines.
#[derive(Clone, Copy, Debug)]
pub struct Harm {
    /// How many of a hundred are lost.
    pub lose: u64,
    /// How many of a hundred come twice.
    pub repeat: u64,
    /// How many lines are held back, of which any goes out next.
    pub reorder: u64,
}

/// Lines on their way through a medium, each with its LF.
pub struct Router {
    harm: Harm,
    generator: Lcg64Xsh32,
    held: Vec<Vec<u8>>,
}

impl Drop for Router {
    fn drop(self) {
        let Router {
            harm: _,
            generator: _,
            held: _,
        } = self;
    }
}

impl Router {
    /// No line is on its way. It takes no memory.
    pub fn new(alloc: Global, harm: Harm, seed: u64) -> Router {
        Router {
            harm,
            generator: generator_of(seed),
            held: Vec::new(alloc),
        }
    }

    /// The next word of the generator.
    fn draw(&mut self) -> u64 {
        u64::from(self.generator.next_word())
    }

    /// Any of the lines that are held back goes out.
    fn let_one_go<W: Write>(&mut self, out: &mut W) -> io::Result<()> {
        let word = self.draw();
        let is_repeated = self.draw() % 100 < self.harm.repeat;
        let count = self.held.len();
        if count == 0 {
            return Ok(());
        }
        let line = self.held.swap_remove((word % count as u64) as usize);
        out.write_all(&line)?;
        if is_repeated {
            out.write_all(&line)?;
        }
        Ok(())
    }

    /// A line comes. It may be lost, and one that is held back may go out.
    pub fn hear<W: Write>(&mut self, mut line: Vec<u8>, out: &mut W) -> io::Result<()> {
        if self.draw() % 100 < self.harm.lose {
            return Ok(());
        }
        line.push(b'\n')?;
        self.held.push(line)?;
        if self.held.len() as u64 > self.harm.reorder {
            self.let_one_go(out)?;
        }
        Ok(())
    }

    /// All lines that are held back go out.
    pub fn let_all_go<W: Write>(&mut self, out: &mut W) -> io::Result<()> {
        for _ in 0..self.held.len() {
            self.let_one_go(out)?;
        }
        out.flush()
    }
}

/// Hands on the lines of an inbox until it ends. Lines that are held back go out where no other comes for a while.
pub fn route<R: Wait, I: Inbox, W: Write>(
    rt: &R,
    inbox: &I,
    router: &mut Router,
    out: &mut W,
) -> io::Result<()> {
    let mut is_quiet = false;
    for _ in rt.forever() {
        match inbox.take(rt) {
            Mailed::Line(line) => {
                is_quiet = false;
                router.hear(line, out)?;
            }
            Mailed::Ended => break,
            Mailed::Nothing if is_quiet => {
                router.let_all_go(out)?;
                inbox.wait(rt, LONG_MILLIS);
            }
            Mailed::Nothing => {
                is_quiet = true;
                out.flush()?;
                inbox.wait(rt, QUIET_MILLIS);
            }
        }
    }
    router.let_all_go(out)
}
