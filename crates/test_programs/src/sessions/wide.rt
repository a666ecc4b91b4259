//! Sessions of more than 256 pages.
use crate::sessions::common::{LIMITS, PAIR, expect_same, shown_of};
use ivy_model::{Config, Fault};
use ivy_program::parse;
use ivy_session::{Keep, OpenGate, Session};
use std::alloc::Allocator;
use std::sync::Wait;
use std::thread::Threads;

/// Node 1 stores to the last word of 1,000 pages of 64 bytes, and node 0 loads it afterwards.
const LAST: &str = "\
node 0
set r1 1
await r2 r0 r1
set r1 63992
load 8 r3 r1
print r3
node 1
set r1 63992
set r2 9
store 8 r1 r2
advance r0
";

/// What node 0 of a session of so many pages prints first.
fn printed<R, A>(rt: &R, alloc: A, pages: u32) -> Result<Option<u64>, Fault>
where
    R: Threads + Wait + Sync,
    A: Allocator + Copy + Send + Sync,
{
    let config = Config { pages, ..PAIR };
    let programs = parse(alloc, LAST)?;
    let keep = Keep::Nothing;
    let report = Session::run_wide(rt, alloc, config, programs, LIMITS, &OpenGate, keep)?;
    Ok(shown_of(&report, 0).1.first().copied())
}

#[test]
fn many_pages(rt: HostRuntime) {
    expect_same(&rt, printed(&rt, rt.alloc(), 1_000), Ok(Some(9)));
    expect_same(&rt, printed(&rt, rt.alloc(), 65_536), Ok(Some(9)));
    expect_same(&rt, printed(&rt, rt.alloc(), 65_537), Err(Fault::BadConfig));
}

/// Without being asked for, wide limits are not given.
fn narrow<R, A>(rt: &R, alloc: A) -> Result<Option<Fault>, Fault>
where
    R: Threads + Wait + Sync,
    A: Allocator + Copy + Send + Sync,
{
    let config = Config { pages: 257, ..PAIR };
    let programs = parse(alloc, LAST)?;
    Ok(Session::run(rt, alloc, config, programs, LIMITS, &OpenGate).err())
}

#[test]
fn one_page_too_many(rt: HostRuntime) {
    expect_same(&rt, narrow(&rt, rt.alloc()), Ok(Some(Fault::BadConfig)));
}
