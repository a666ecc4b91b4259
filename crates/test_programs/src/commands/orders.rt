//! Orders, and whether they are legal.
use crate::commands::common::{check_each, check_over};
use std::alloc::{AllocError, Global};
use std::process::Abort;
use std::sync::Wait;
use std::test::Fail;
use std::thread::Threads;
use test_support::{File, Order, orders};

const LOADED_LATER: &str = "\
ivy order 2 2 64
1 load 8 64 = value 0
0 store 8 64 7 = done
1 load 8 64 = value 7
";

const LOADED_EARLIER: &str = "\
ivy order 2 2 64
1 load 8 64 = value 0
0 store 8 64 7 = done
1 load 8 64 = value 0
";

/// Both nodes swap 1 into a word, and the second one is given what stood there before the first.
const SWAPPED_AT_ONCE: &str = "\
ivy order 2 2 64
0 swap 8 64 1 = value 0
1 swap 8 64 1 = value 0
";

const SWAPPED_IN_TURN: &str = "\
ivy order 2 2 64
0 swap 8 64 1 = value 0
1 swap 8 64 1 = value 1
";

/// Both nodes put their number in the place of 0, and both are told that they found it there.
const EXCHANGED_TWICE: &str = "\
ivy order 2 2 64
0 cas 8 64 0 1 = value 0
1 cas 8 64 0 2 = value 0
";

/// The second one finds 1, and puts nothing there. The third compares the low byte of 257.
const EXCHANGED_ONCE: &str = "\
ivy order 2 2 64
0 cas 8 64 0 1 = value 0
1 cas 8 64 0 2 = value 1
1 load 8 64 = value 1
0 cas 1 71 257 3 = value 1
1 load 8 64 = value 3
";

const SUMMED_AT_ONCE: &str = "\
ivy order 2 2 64
0 fadd 8 64 1 = value 0
1 fadd 8 64 1 = value 0
";

/// The sum of 1 and 255 in one byte is 0, and 2 beside it stays.
const SUMMED_IN_TURN: &str = "\
ivy order 2 2 64
0 fadd 8 64 513 = value 0
1 fadd 1 71 255 = value 1
1 load 8 64 = value 512
";

/// A call of each kind, and each refusal that the flat memory has but for a full count.
const EACH_CALL: &str = "# two nodes\r\n\r\n\
\tivy order 2 3 64 # of 3 pages\r\n\
0 advance 7 = done\n1 await 7 1 = value 1\n1 count 7 = value 1\n1 count 8 = refused 6\n\
0 alloc 9 = value 64\n1 alloc 8 = value 80\n1 alloc 0 = refused 8\n1 alloc 128 = refused 9\n\
1 free 64 = done\n1 free 64 = refused 10\n\
0 store 1 66 255 = done\n0 load 2 66 = value 65280\n\
1 swap 1 67 7 = value 0\n0 load 2 66 = value 65287\n1 swap 2 65 7 = refused 3\n\
0 cas 4 64 65287 9 = value 65287\n1 fadd 4 64 4294967287 = value 9\n\
0 cas 2 65 7 8 = refused 3\n1 fadd 8 192 1 = refused 4\n1 cas 1 63 1 1 = refused 5\n\
0 load 2 65 = refused 3\n0 load 4 192 = refused 4\n0 load 8 56 = refused 5";

/// Asserts what `check` says of an order.
fn check<R: Abort + AllocGlobal + Threads + Wait + Sync>(
    rt: &R,
    text: &str,
    answer: (u8, &str, &str),
) -> Result<(), Fail> {
    let files = [File {
        name: "order",
        text,
    }];
    check_over(rt, &files, "check order", answer)
}

/// Asserts that `check` says the same of each of these orders.
fn check_texts<R: Abort + AllocGlobal + Threads + Wait + Sync>(
    rt: &R,
    texts: &[&str],
    answer: (u8, &str, &str),
) -> Result<(), Fail> {
    for text in texts {
        check(rt, text, answer)?;
    }
    Ok(())
}

/// `check` prints the verdict of an example, with this status.
fn check_example<R: Abort + AllocGlobal + Threads + Wait + Sync>(
    rt: &R,
    example: &Order,
    status: u8,
) -> Result<(), Fail> {
    check(rt, example.records.text, (status, example.verdict, ""))
}

#[test]
fn examples(rt: HostRuntime) -> Result<(), Fail> {
    check_example(&rt, &orders::ONE_STORE, 0)?;
    check_example(&rt, &orders::STALE_LOAD, 3)
}

const LEGAL: [&str; 6] = [
    LOADED_LATER,
    SWAPPED_IN_TURN,
    EXCHANGED_ONCE,
    SUMMED_IN_TURN,
    EACH_CALL,
    "ivy order 2 2 64",
];

#[test]
fn legal(rt: HostRuntime) -> Result<(), Fail> {
    check_texts(&rt, &LEGAL, (0, "legal\n", ""))
}

const NOT_LEGAL: [&str; 13] = [
    LOADED_EARLIER,
    SWAPPED_AT_ONCE,
    EXCHANGED_TWICE,
    SUMMED_AT_ONCE,
    "ivy order 2 2 64\n0 cas 8 64 0 1 = value 1\n",
    "ivy order 2 2 64\n0 cas 8 64 1 0 = value 0\n0 load 8 64 = value 1\n",
    "ivy order 2 2 64\n0 fadd 8 64 1 = done\n",
    "ivy order 2 2 64\n0 swap 8 64 1 = value 1\n",
    "ivy order 2 2 64\n0 swap 8 64 1 = done\n",
    "ivy order 2 2 64\n2 load 8 64 = value 0\n",
    "ivy order 2 2 64\n0 count 0 = value 18446744073709551615\n",
    "ivy order 2 2 64\n0 await 0 1 = value 0\n",
    "ivy order 2 2 64\n0 load 8 64 = refused 255\n",
];

#[test]
fn not_legal(rt: HostRuntime) -> Result<(), Fail> {
    check_texts(&rt, &NOT_LEGAL, (3, "not legal\n", ""))
}

/// A swap has a width, an address and a value.
const SWAPS_AT_FAULT: [&str; 4] = [
    "ivy order 2 2 64\n0 swap 3 64 1 = value 0\n",
    "ivy order 2 2 64\n0 swap 8 64 = value 0\n",
    "ivy order 2 2 64\n0 swap 8 64 1 1 = value 0\n",
    "ivy order 2 2 64\n0 swap 8 64 r1 = value 0\n",
];

#[test]
fn swaps_at_fault(rt: HostRuntime) -> Result<(), Fail> {
    let answer = (2, "", "ivy: 20 ProgramFault line 2\n");
    check_texts(&rt, &SWAPS_AT_FAULT, answer)
}

/// A compare-and-swap has the number that it looks for before the one that it puts in its place.
const EXCHANGES_AT_FAULT: [&str; 8] = [
    "ivy order 2 2 64\n0 cas 3 64 1 2 = value 0\n",
    "ivy order 2 2 64\n0 cas 8 64 1 = value 0\n",
    "ivy order 2 2 64\n0 cas 8 64 1 2 3 = value 0\n",
    "ivy order 2 2 64\n0 cas 8 64 r1 2 = value 0\n",
    "ivy order 2 2 64\n0 fadd 0 64 1 = value 0\n",
    "ivy order 2 2 64\n0 fadd 8 64 = value 0\n",
    "ivy order 2 2 64\n0 fadd 8 64 1 1 = value 0\n",
    "ivy order 2 2 64\n0 fadd 8 64 1\n",
];

#[test]
fn exchanges_at_fault(rt: HostRuntime) -> Result<(), Fail> {
    let answer = (2, "", "ivy: 20 ProgramFault line 2\n");
    check_texts(&rt, &EXCHANGES_AT_FAULT, answer)
}

/// Orders, by what is told of them: the least line at fault, before sizes that are out of their limits.
const AT_FAULT: [(&str, &[&str]); 4] = [
    (
        "ivy: 20 ProgramFault line 1\n",
        &["", "# nothing\n", "0 count 0 = value 0\n"],
    ),
    (
        "ivy: 20 ProgramFault line 2\n",
        &[
            "\nivy order 2 2\n",
            "ivy order 2 2 64\n256 count 0 = value 0\n0 count = value 0\n",
            "ivy order 2 2 64\n0 count 0 = refused 256\n",
            "ivy order 2 2 64\n0 count 0 value 0\n",
            "ivy order 2 2 64\n0 count 0 = value 18446744073709551616\n",
            "ivy order 2 2 64\nivy order 2 2 64\n",
        ],
    ),
    (
        "ivy: 20 ProgramFault line 3\n",
        &["ivy order 1 1 1\n0 count 0 = value 0\n0 load 3 64 = value 0"],
    ),
    (
        "ivy: 2 BadConfig\n",
        &[
            "ivy order 1 2 64\n",
            "ivy order 33 2 64\n",
            "ivy order 258 2 64\n",
            "ivy order 2 4294967298 64\n",
            "ivy order 2 2 96\n",
        ],
    ),
];

/// Command lines of `check` that mean nothing.
const BAD: [&str; 3] = ["check", "check order order", "check order --pages 2"];

#[test]
fn at_fault(rt: HostRuntime) -> Result<(), Fail> {
    for (err, texts) in &AT_FAULT {
        check_texts(&rt, texts, (2, "", err))?;
    }
    check_over(&rt, &[], "check order", (2, "", "ivy: cannot read order\n"))?;
    check_each(&rt, &[], &BAD, (2, "", "ivy: bad command line\n"))
}

/// An order of 70,000 records, each of a count that nobody advanced.
fn long_order(alloc: Global) -> Result<String, AllocError> {
    let mut text = String::from_str(alloc, "ivy order 2 2 64\n")?;
    for _ in 0..70_000 {
        text.push_str("0 count 0 = value 0\n")?;
    }
    Ok(text)
}

/// An order may have more records than two bytes count.
#[test]
fn many_records(rt: HostRuntime) -> Result<(), Fail> {
    let text = long_order(rt.alloc())?;
    let files = [File {
        name: "long",
        text: text.as_str(),
    }];
    check_over(&rt, &files, "check long", (0, "legal\n", ""))
}
