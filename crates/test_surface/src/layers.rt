//! `ivy_pagetable`, `ivy_coherence`, `ivy_event` and `ivy_alloc`: a node's pages, its faults, and the heap.
ghost use Rattle.std.specs.Prelude.{◌≡◌};
ghost use Rattle.ivy_pagetable.specs.stated.Words.{IsWord};
ghost use Rattle.ivy_dynamic.specs.stated.Dynamic.{steady_hints};

use crate::common::{PAIR, expect_same};
use crate::managers::Watched;
use crate::posts::Counting;
use crate::wire::ASKS;
use ivy_alloc::Heap;
use ivy_coherence::{Coherence, Need};
use ivy_dynamic::DynamicManager;
use ivy_event::{advance, await_at_least, read};
use ivy_model::Fault;
use ivy_pagetable::{Access, Entry, Out, PageTable, Waiting, Word};
use std::alloc::Global;
use std::process::Abort;

/// Whether a page may be read now.
fn is_readable(entry: &Entry) -> bool {
    match entry {
        Entry::Idle(idle) => match idle.access() {
            Access::Nil => false,
            Access::Read | Access::Write => true,
        },
        Entry::AwaitRead(_) => false,
        Entry::AwaitWrite(state) => state.had_copy(),
        Entry::AwaitAcks(state) => !state.left().is_empty(),
    }
}

/// The place of a word in its page.
fn offset_of(word: Word) -> u32 {
    match word {
        Word::Load { width: _, offset } => offset,
        Word::Store {
            width: _,
            offset,
            value: _,
        } => offset,
        Word::Swap {
            width: _,
            offset,
            value: _,
        } => offset,
        Word::Cas {
            width: _,
            offset,
            expected: _,
            value: _,
        } => offset,
        Word::FetchAdd {
            width: _,
            offset,
            value: _,
        } => offset,
        Word::Count { offset } => offset,
        Word::Advance { offset } => offset,
        Word::Await { offset, least: _ } => offset,
    }
}

/// What a word gave, where it is a number.
fn number_in(out: Out) -> Option<u64> {
    match out {
        Out::Value(value) => Some(value),
        Out::Done | Out::Full | Out::NotYet => None,
    }
}

/// What an access gave, where it was carried out at once.
fn given(need: Need) -> Option<Out> {
    match need {
        Need::Have(out) => Some(out),
        Need::Started | Need::Busy | Need::Fetched => None,
    }
}

#[test]
fn page_tables(rt: HostRuntime) {
    let mut table = PageTable::new(rt.alloc(), &PAIR, 0).expect(&rt, "memory");
    assert!(rt; is_readable(table.entry(1)));
    expect_same(&rt, table.page(1).len(), 64);
    expect_same(&rt, table.bytes().len(), 128);
    table.page_mut(1)[0] = 9;
}

#[test]
fn eventcounts(rt: HostRuntime) {
    expect_same(&rt, read(&PAIR, 1).map(offset_of), Ok(8));
    expect_same(&rt, advance(&PAIR, 7).map(offset_of), Ok(56));
    expect_same(&rt, await_at_least(&PAIR, 8, 1), Err(Fault::NoSuchCount));
}

/// The coherence of node 0 at the beginning, under a manager of one's own.
fn first(rt: &(impl Abort + AllocGlobal)) -> Coherence<Watched<Global>, Global>
    ensures config { result.config ≡ PAIR }
    ensures me { result.me ≡ 0 }
{
    let manager = Watched::new(rt.alloc(), &PAIR, 0).expect(rt, "memory");
    Coherence::new(rt.alloc(), &PAIR, 0, manager).expect(rt, "memory")
}

/// The first word of page 1 is read.
const LOAD: Word = Word::Load {
    width: 8,
    offset: 0,
};

/// An access by the first call of node 0 to page 1.
fn need(
    coherence: &mut Coherence<Watched<Global>, Global>,
    word: Word,
    post: &mut Counting,
) -> Result<Need, Fault>
    requires config { coherence.old.config ≡ PAIR }
    requires me { coherence.old.me ≡ 0 }
    requires word { IsWord 64 word }
    requires post { post.old ≡ (PAIR, 0) }
{
    coherence.need(1, word, 1, post)
}

/// The owner reads its page without asking.
#[test]
fn an_access(rt: HostRuntime) {
    let mut coherence = first(&rt);
    let mut post = Counting::new(0);
    let found = need(&mut coherence, LOAD, &mut post).expect(&rt, "memory");
    expect_same(&rt, given(found).and_then(number_in), Some(0));
    expect_same(&rt, coherence.returned(), None);
    expect_same(&rt, (coherence.breaches(), post.count()), (0, 0));
}

/// It answers a request.
#[test]
fn a_message(rt: HostRuntime) {
    let mut coherence = first(&rt);
    let mut post = Counting::new(0);
    expect_same(&rt, coherence.handle(1, ASKS, &mut post), Ok(()));
    expect_same(&rt, post.count(), 1);
}

#[test]
fn heaps(rt: HostRuntime) {
    let mut heap = Heap::new(rt.alloc(), &PAIR).expect(&rt, "memory");
    expect_same(&rt, heap.alloc(8), Ok(64));
    assert!(rt; heap.is_block(64));
    expect_same(&rt, heap.free(64), Ok(()));
}

/// The coherence of node 1 at the beginning, which sends requests on, under hints that are steady.
fn sending_on(
    rt: &(impl Abort + AllocGlobal),
    manager: DynamicManager<Global>,
) -> Coherence<DynamicManager<Global>, Global>
    requires { manager ≡ steady_hints PAIR 1 }
{
    Coherence::sending_on(rt.alloc(), &PAIR, 1, manager).expect(rt, "memory")
}

/// Node 1 has no breach at the beginning, whichever way it treats requests.
#[test]
fn steady_coherence(rt: HostRuntime) {
    let manager = DynamicManager::steady(rt.alloc(), &PAIR, 1).expect(&rt, "memory");
    let coherence = sending_on(&rt, manager);
    expect_same(&rt, coherence.breaches(), 0);
    expect_same(&rt, coherence.answer(), None);
}

#[test]
fn a_waiting_entry(rt: HostRuntime) {
    let mut waiting = Waiting::new(LOAD, 1);
    assert!(rt; !waiting.sent_on());
    waiting.send_on();
    assert!(rt; waiting.sent_on());
}
