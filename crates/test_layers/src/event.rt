//! Eventcounts as words of page 0.
use crate::common::{PAIR, expect_same};
use ivy_event::{advance, await_at_least, read};
use ivy_model::Fault;
use ivy_pagetable::Word;

#[test]
fn words_of_page_0(rt: HostRuntime) {
    expect_same(&rt, read(&PAIR, 0), Ok(Word::Count { offset: 0 }));
    expect_same(&rt, advance(&PAIR, 3), Ok(Word::Advance { offset: 24 }));
    let last = Word::Await {
        offset: 56,
        least: 9,
    };
    expect_same(&rt, await_at_least(&PAIR, 7, 9), Ok(last));
}

#[test]
fn no_such_count(rt: HostRuntime) {
    for k in [8, 64, u64::MAX] {
        expect_same(&rt, read(&PAIR, k), Err(Fault::NoSuchCount));
        expect_same(&rt, advance(&PAIR, k), Err(Fault::NoSuchCount));
        expect_same(&rt, await_at_least(&PAIR, k, 0), Err(Fault::NoSuchCount));
    }
}
