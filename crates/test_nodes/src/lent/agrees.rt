//! Each access of a run is one of an array.
use crate::lent::drawn::{play, shape_of};
use crate::lent::driven::{PAGES, address};
use crate::lent::seen::{Seen, Tally};
use crate::lent::words::{SIZE, serve_in, word_of};
use ivy_model::{Call, Reply};
use std::process::Abort;

/// How many seeds are played: numbers of nodes, managers and numbers of pages in turn.
const SEEDS: u64 = 50;

/// How many eventcounts are used.
const COUNTS: usize = 4;

/// The one memory that all accesses are of: the pages that have images, and eventcounts.
#[derive(Drop)]
struct Flat {
    pages: [[u8; SIZE]; PAGES],
    counts: [u64; COUNTS],
    /// The address of the last page.
    last: u64,
}

impl Flat {
    /// What a call of an eventcount does, and is answered.
    fn count(&mut self, rt: &impl Abort, k: u64, advances: bool) -> Reply {
        let count = self.counts.get_mut(k as usize).expect(rt, "a count");
        if advances {
            *count = count.wrapping_add(1);
            return Reply::Done;
        }
        Reply::Value(*count)
    }

    /// What an access does, and is answered.
    fn access(&mut self, rt: &impl Abort, call: Call) -> Reply {
        let (addr, _) = word_of(call).expect(rt, "an access");
        let place = if addr >= self.last {
            PAGES - 1
        } else {
            (addr / SIZE as u64) as usize
        };
        let page = self.pages.get_mut(place).expect(rt, "a page");
        serve_in(rt, page, call)
    }

    /// What a call does, and is answered.
    fn serve(&mut self, rt: &impl Abort, call: Call) -> Reply {
        match call {
            Call::Advance { k } => self.count(rt, k, true),
            Call::Count { k } => self.count(rt, k, false),
            _ => self.access(rt, call),
        }
    }

    /// What is seen of a call: a reply is that of this memory now.
    fn check(&mut self, rt: &impl Abort, seed: u64, seen: &Seen) {
        match seen {
            Seen::Began(_, _) => {}
            Seen::Ended(node, call, reply) | Seen::Made(node, call, reply) => {
                let wanted = self.serve(rt, *call);
                assert!(rt; *reply == wanted, "seed {seed}, node {node}: another reply");
            }
        }
    }
}

/// Plays a seed, and says how often what was seen.
fn check_play(rt: &(impl Abort + AllocGlobal), seed: u64) -> Tally {
    let mut flat = Flat {
        pages: [[0; SIZE]; PAGES],
        counts: [0; COUNTS],
        last: address(shape_of(seed).pages.wrapping_sub(1)),
    };
    let drive = play(rt, rt.alloc(), seed, shape_of(seed));
    for seen in &drive.log.seen {
        flat.check(rt, seed, seen);
    }
    drive.log.tally
}

/// Whatever nodes lend, and whatever their programs write, each access is one of an array. Replies are looked for as soon as
/// a string came, so that each stands where it was carried out.
#[test]
fn accesses_agree_with_an_array(rt: HostRuntime) {
    let mut tally = Tally::new();
    for seed in 0..SEEDS {
        tally.add(check_play(&rt, seed));
    }
    assert!(rt; tally.has_each(), "some case was never met");
}
