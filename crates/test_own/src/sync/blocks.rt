//! Blocks of bytes, over a flat memory that answers them word by word.
use crate::sync::common::{expect_same, small};
use ivy_calls::{Answer, CallError, fill, load, read_into, write_from};
use ivy_model::{Call, Fault, Reply};

#[test]
fn a_block_is_read_as_it_was_written(rt: HostRuntime) {
    let mut memory = small(&rt, rt.alloc());
    let written: [u8; 20] = [
        1, 2, 3, 4, 5, 6, 7, 8, 9, 10, 11, 12, 13, 14, 15, 16, 17, 18, 19, 20,
    ];
    expect_same(&rt, write_from(&mut memory, 64, &written), Ok(()));
    expect_same(&rt, load(&mut memory, 72), Ok(0x090a_0b0c_0d0e_0f10u64));
    // the last four bytes are no word
    let mut found = [99; 20];
    expect_same(&rt, read_into(&mut memory, 64, &mut found), Ok(()));
    expect_same(&rt, &found[..16], &written[..16]);
    expect_same(&rt, &found[16..], &[99; 4][..]);
    let second = Call::Store {
        width: 8,
        addr: 72,
        value: 0x090a_0b0c_0d0e_0f10,
    };
    expect_same(&rt, memory.answers().len(), 5);
    expect_same(
        &rt,
        memory.answers().get(1).copied(),
        Some(Answer {
            call: second,
            reply: Reply::Done,
        }),
    );
}

#[test]
fn words_are_filled(rt: HostRuntime) {
    let mut memory = small(&rt, rt.alloc());
    expect_same(&rt, fill(&mut memory, 72, 3, 258), Ok(()));
    let mut found = [1; 40];
    expect_same(&rt, read_into(&mut memory, 64, &mut found), Ok(()));
    let wanted: [u8; 40] = [
        0, 0, 0, 0, 0, 0, 0, 0, 0, 0, 0, 0, 0, 0, 1, 2, 0, 0, 0, 0, 0, 0, 1, 2, 0, 0, 0, 0, 0, 0,
        1, 2, 0, 0, 0, 0, 0, 0, 0, 0,
    ];
    expect_same(&rt, &found[..], &wanted[..]);
}

#[test]
fn a_block_ends_at_the_first_word_that_is_refused(rt: HostRuntime) {
    let mut memory = small(&rt, rt.alloc());
    expect_same(&rt, fill(&mut memory, 240, 2, 7), Ok(()));
    let mut found = [9; 32];
    let past = CallError::Refused {
        call: Call::Load {
            width: 8,
            addr: 256,
        },
        fault: Fault::OutOfRange,
    };
    expect_same(&rt, read_into(&mut memory, 240, &mut found), Err(past));
    expect_same(&rt, &found[..8], &[0, 0, 0, 0, 0, 0, 0, 7][..]);
    // two stores, two loads, and the one that was refused
    expect_same(&rt, memory.answers().len(), 5);
    let misaligned = CallError::Refused {
        call: Call::Store {
            width: 8,
            addr: 65,
            value: 7,
        },
        fault: Fault::Misaligned,
    };
    expect_same(&rt, fill(&mut memory, 65, 2, 7), Err(misaligned));
    expect_same(&rt, memory.answers().len(), 6);
}

#[test]
fn a_block_past_the_last_address_is_not_asked_for(rt: HostRuntime) {
    let mut memory = small(&rt, rt.alloc());
    let addr = u64::MAX - 7;
    let past = CallError::Fault {
        call: Call::Store {
            width: 8,
            addr,
            value: 1,
        },
        fault: Fault::OutOfRange,
    };
    expect_same(
        &rt,
        write_from(&mut memory, addr, &[0, 0, 0, 0, 0, 0, 0, 1]),
        Err(past),
    );
    expect_same(&rt, memory.answers().len(), 0);
}
