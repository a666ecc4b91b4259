//! Single calls, by each type of words, and a program over them.
use crate::sync::common::{SMALL, expect_same, small};
use ivy_calls::{
    Alone, Answer, CallError, SharedMemory, SharedWord, Work, advance_count, alloc, await_, cas,
    fetch_add, free, load, read_count, store, swap,
};
use ivy_model::{Call, Fault, Reply};
use std::alloc::Allocator;
use std::fmt::Debug;
use std::process::Abort;
use test_support::Failing;

/// That a value is stored and loaded, and changed by each access that does both.
fn check_word<W: SharedWord + PartialEq + Debug + Drop, M: SharedMemory>(
    rt: &impl Abort,
    memory: &mut M,
    values: [W; 4],
) {
    let [zero, one, two, most] = values;
    expect_same(rt, store(memory, 64, one), Ok(()));
    expect_same(rt, load(memory, 64), Ok(one));
    expect_same(rt, swap(memory, 64, two), Ok(one));
    expect_same(rt, cas(memory, 64, one, zero), Ok(two));
    expect_same(rt, cas(memory, 64, two, most), Ok(two));
    expect_same(rt, fetch_add(memory, 64, one), Ok(most));
    expect_same(rt, load(memory, 64), Ok(zero));
}

#[test]
fn words_of_each_width(rt: HostRuntime) {
    let mut memory = small(&rt, rt.alloc());
    check_word(&rt, &mut memory, [0u8, 1, 2, u8::MAX]);
    check_word(&rt, &mut memory, [0u16, 1, 2, u16::MAX]);
    check_word(&rt, &mut memory, [0u32, 1, 2, u32::MAX]);
    check_word(&rt, &mut memory, [0u64, 1, 2, u64::MAX]);
}

#[test]
fn the_highest_byte_lies_first(rt: HostRuntime) {
    let mut memory = small(&rt, rt.alloc());
    expect_same(
        &rt,
        store(&mut memory, 72, 0x0102_0304_0506_0708u64),
        Ok(()),
    );
    expect_same(&rt, load(&mut memory, 72), Ok(1u8));
    expect_same(&rt, load(&mut memory, 74), Ok(0x0304u16));
    expect_same(&rt, load(&mut memory, 76), Ok(0x0506_0708u32));
}

#[test]
fn counts_and_blocks(rt: HostRuntime) {
    let mut memory = small(&rt, rt.alloc());
    expect_same(&rt, read_count(&mut memory, 7), Ok(0));
    expect_same(&rt, advance_count(&mut memory, 7), Ok(()));
    expect_same(&rt, await_(&mut memory, 7, 1), Ok(1));
    expect_same(&rt, alloc(&mut memory, 9), Ok(64));
    expect_same(&rt, alloc(&mut memory, 8), Ok(80));
    expect_same(&rt, free(&mut memory, 64), Ok(()));
    let wanted = [
        (Call::Count { k: 7 }, Reply::Value(0)),
        (Call::Advance { k: 7 }, Reply::Done),
        (Call::Await { k: 7, least: 1 }, Reply::Value(1)),
        (Call::Alloc { size: 9 }, Reply::Value(64)),
        (Call::Alloc { size: 8 }, Reply::Value(80)),
        (Call::Free { addr: 64 }, Reply::Done),
    ];
    expect_same(&rt, memory.answers().len(), wanted.len());
    for (answer, (call, reply)) in memory.answers().iter().zip(wanted) {
        expect_same(&rt, *answer, Answer { call, reply });
    }
}

#[test]
fn refusals(rt: HostRuntime) {
    let mut memory = small(&rt, rt.alloc());
    let misaligned = CallError::Refused {
        call: Call::Load { width: 8, addr: 65 },
        fault: Fault::Misaligned,
    };
    expect_same(&rt, load::<u64, _>(&mut memory, 65), Err(misaligned));
    expect_same(&rt, Fault::from(misaligned), Fault::Misaligned);
    let past = CallError::Refused {
        call: Call::Store {
            width: 1,
            addr: 256,
            value: 7,
        },
        fault: Fault::OutOfRange,
    };
    expect_same(&rt, store(&mut memory, 256, 7u8), Err(past));
    expect_same(&rt, memory.answers().len(), 2);
}

#[test]
fn an_await_that_nobody_ends(rt: HostRuntime) {
    let mut memory = small(&rt, rt.alloc());
    let unanswered = CallError::Fault {
        call: Call::Await { k: 0, least: 1 },
        fault: Fault::TurnLimit,
    };
    expect_same(&rt, await_(&mut memory, 0, 1), Err(unanswered));
    expect_same(&rt, Fault::from(unanswered), Fault::TurnLimit);
    expect_same(&rt, memory.answers().len(), 0);
}

#[test]
fn texts_of_errors(rt: HostRuntime) {
    let call = Call::Load { width: 8, addr: 65 };
    let refused = CallError::Refused {
        call,
        fault: Fault::Misaligned,
    };
    let unfit = CallError::Unfit {
        call,
        reply: Reply::Done,
    };
    let fault = CallError::Fault {
        call,
        fault: Fault::Memory,
    };
    let texts = [
        (
            refused,
            "Load { width: 8, addr: 65 } was refused: 3 Misaligned",
        ),
        (unfit, "Load { width: 8, addr: 65 } was answered Done"),
        (
            fault,
            "Load { width: 8, addr: 65 } was not answered: 1 Memory",
        ),
    ];
    for (error, wanted) in texts {
        let text = format!(in rt.alloc(); "{error}").expect(&rt, "memory");
        assert_eq!(rt; text.as_str(), wanted);
    }
}

/// An alloc where the n-th growth is refused: it is answered nothing, and then the same as if it were the first.
fn check_refused<A: Allocator>(rt: &impl Abort, memory: &Failing<A>, n: u64) {
    let mut alone = small(rt, memory);
    memory.refuse(n);
    let refused = CallError::Fault {
        call: Call::Alloc { size: 8 },
        fault: Fault::Memory,
    };
    expect_same(rt, alloc(&mut alone, 8), Err(refused));
    expect_same(rt, alone.answers().len(), 0);
    expect_same(rt, alloc(&mut alone, 8), Ok(64));
}

#[test]
fn refused_growths(rt: HostRuntime) {
    let memory = Failing::new(rt.alloc());
    for n in 1..3 {
        memory.refuse(n);
        assert!(rt; Alone::new(&memory, SMALL).is_err());
        memory.refuse(0);
    }
    check_refused(&rt, &memory, 1);
    check_refused(&rt, &memory, 2);
}

/// A program that counts its own call in a word, and gives what was there.
struct CountsItself;

impl Work for CountsItself {
    type Out = u64;

    ghost done = { λ _ _ _ _. Unit {0} };

    fn work<M: SharedMemory>(&self, me: u8, memory: &mut M) -> Result<u64, Fault> {
        Ok(fetch_add(memory, 64 + 8 * u64::from(me), 1u64)?)
    }
}

#[test]
fn a_program(rt: HostRuntime) {
    let mut memory = small(&rt, rt.alloc());
    expect_same(&rt, CountsItself.work(1, &mut memory), Ok(0));
    expect_same(&rt, load(&mut memory, 72), Ok(1u64));
}
