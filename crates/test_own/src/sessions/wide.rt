//! Own code over a memory of more than 256 pages.
use crate::sessions::common::{ROOMY, config};
use ivy_calls::fetch_add;
use ivy_model::{Config, Fault, Kind};
use ivy_own::{OpenGate, OwnFault, SharedMemory, Work, run_with};
use std::alloc::Allocator;
use std::sync::Wait;
use std::thread::Threads;

/// The last word of 1,000 pages of 256 bytes.
const LAST: u64 = 255_992;

/// Each node draws a ticket there.
struct Tickets;

impl Work for Tickets {
    ghost use Rattle.std.specs.Prelude.{◌≡◌, ◌∷◌, []};
    ghost use Rattle.ivy_sync.specs.Doing.{draws};

    type Out = u64;

    ghost done = { λ _ _ answers ticket. answers ≡ draws 255992 ticket ∷ [] };

    fn work<M: SharedMemory>(&self, _me: u8, memory: &mut M) -> Result<u64, Fault> {
        Ok(fetch_add(memory, LAST, 1u64)?)
    }
}

/// Whether two nodes draw the tickets 0 and 1 from so many pages.
fn draw<R, A>(rt: &R, alloc: A, pages: u32) -> Result<bool, OwnFault>
where
    R: Threads + Wait + Sync,
    A: Allocator + Copy + Send + Sync,
{
    let nodes = Config {
        pages,
        ..config(2, Kind::Dynamic)
    };
    let report = run_with(rt, alloc, nodes, &Tickets, ROOMY, &OpenGate)?;
    Ok(report.outs.contains(&0) && report.outs.contains(&1))
}

#[test]
fn many_pages(rt: HostRuntime) {
    assert_eq!(&rt; draw(&rt, rt.alloc(), 1_000), Ok(true));
    assert_eq!(&rt; draw(&rt, rt.alloc(), 65_536), Ok(true));
    let refused = Err(OwnFault::Session(Fault::BadConfig));
    assert_eq!(&rt; draw(&rt, rt.alloc(), 65_537), refused);
}
