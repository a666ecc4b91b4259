//! `ivy_memory`: the calls of one node.
ghost use Rattle.std.specs.Prelude.{◌≡◌, None};
ghost use Rattle.ivy_dynamic.specs.stated.Dynamic.{steady_hints};

use crate::common::{PAIR, expect_same};
use crate::managers::Watched;
use crate::posts::Counting;
use crate::wire::ASKS;
use ivy_dynamic::DynamicManager;
use ivy_memory::{CallProgress, Memory};
use ivy_model::{Call, Reply};
use std::alloc::Global;
use std::process::Abort;

/// The reply, where there is one.
fn reply_in(answer: CallProgress) -> Option<Reply> {
    match answer {
        CallProgress::Given(reply) => Some(reply),
        CallProgress::Awaited | CallProgress::Unserved => None,
    }
}

/// The memory of node 0 at the beginning, under a manager of one's own.
fn first(rt: &(impl Abort + AllocGlobal)) -> Memory<Watched<Global>, Global>
    ensures config { result.coherence.config ≡ PAIR }
    ensures me { result.coherence.me ≡ 0 }
{
    let manager = Watched::new(rt.alloc(), &PAIR, 0).expect(rt, "memory");
    Memory::new(rt.alloc(), &PAIR, 0, manager).expect(rt, "memory")
}

#[test]
fn a_call(rt: HostRuntime) {
    let mut memory = first(&rt);
    let mut post = Counting::new(0);
    let answer = memory
        .begin(Call::Advance { k: 0 }, 1, &mut post)
        .expect(&rt, "memory");
    expect_same(&rt, reply_in(answer), Some(Reply::Done));
    expect_same(&rt, memory.breaches(), 0);
}

/// No call is in progress.
#[test]
fn no_reply(rt: HostRuntime) {
    let mut memory = first(&rt);
    let mut post = Counting::new(0);
    let answer = memory.poll_reply(&mut post).expect(&rt, "memory");
    expect_same(&rt, reply_in(answer), None);
}

#[test]
fn a_message(rt: HostRuntime) {
    let mut memory = first(&rt);
    let mut post = Counting::new(0);
    expect_same(&rt, memory.handle(1, ASKS, &mut post), Ok(()));
    expect_same(&rt, post.count(), 1);
}

/// The memory of node 1 at the beginning, which sends requests on, under hints that are steady.
fn sending_on(
    rt: &(impl Abort + AllocGlobal),
    manager: DynamicManager<Global>,
) -> Memory<DynamicManager<Global>, Global>
    requires { manager ≡ steady_hints PAIR 1 }
{
    Memory::sending_on(rt.alloc(), &PAIR, 1, manager).expect(rt, "memory")
}

#[test]
fn steady_memory(rt: HostRuntime) {
    let manager = DynamicManager::steady(rt.alloc(), &PAIR, 1).expect(&rt, "memory");
    let memory = sending_on(&rt, manager);
    expect_same(&rt, memory.breaches(), 0);
    expect_same(&rt, memory.asked(), None);
}
