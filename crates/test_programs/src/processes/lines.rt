//! The lines of logs and of frames, read and written.

use crate::processes::common::{CONFIG, expect_same, expect_text, log_of};
use ivy_logs::{
    LogKind, parse_frame, parse_log, push_entry, push_frame, push_head, sum_of_run, sum_opened,
};
use ivy_model::{Config, Fault, Kind};
use ivy_program::parse;
use std::alloc::Global;
use std::process::Abort;

/// The text of a log once it was read.
fn written(rt: &impl Abort, alloc: Global, form: &str) -> String {
    let log = log_of(rt, alloc, form);
    let mut text = String::new(alloc);
    push_head(&mut text, LogKind::OfProgram, &log.head).expect(rt, "memory");
    for entry in &log.entries {
        push_entry(alloc, &mut text, entry).expect(rt, "memory");
    }
    text
}

#[test]
fn a_log_is_written_as_it_was_read(rt: HostRuntime) {
    let alloc = rt.alloc();
    let form =
        "ivy log 1 2 2 64 dynamic\nturns 2\ntook ANSWER\npulse 0\nturns 18446744073709551615\n";
    let text = written(&rt, alloc, form);
    expect_text(&rt, alloc, text.as_bytes(), form);
    let log = log_of(&rt, alloc, form);
    expect_same(&rt, log.head.me, 1);
    expect_same(&rt, log.head.config, CONFIG);
    expect_same(&rt, log.lines.as_slice(), [2, 3, 4, 5].as_slice());
}

/// A log of nodes that began with steady hints names these, and its configuration the dynamic manager.
#[test]
fn a_log_names_steady_hints(rt: HostRuntime) {
    let alloc = rt.alloc();
    let form = "ivy log 1 2 2 64 steady\nturns 2\n";
    let text = written(&rt, alloc, form);
    expect_text(&rt, alloc, text.as_bytes(), form);
    let log = log_of(&rt, alloc, form);
    expect_same(&rt, log.head.config, CONFIG);
    assert!(rt; log.head.steady);
    let other = log_of(&rt, alloc, "ivy log 1 2 2 64 dynamic\n");
    assert!(rt; !other.head.steady);
}

#[test]
fn a_torn_line_is_none_and_a_faulty_one_is_named(rt: HostRuntime) {
    let alloc = rt.alloc();
    let torn = log_of(&rt, alloc, "ivy log 1 2 2 64 fixed\nturns 2\nturns 3");
    expect_same(&rt, torn.entries.len(), 1);
    let faulty = [
        ("", 1),
        ("ivy log 1 2 2 64 fixed", 1),
        ("ivy log 1 2 2 64 loose\n", 1),
        ("ivy log 1 2 2 64 fixed\nturns 2\nturn 2\n", 3),
        ("ivy log 1 2 2 64 fixed\ntook 4x\n", 2),
        ("ivy log 1 2 2 64 fixed\ntook 456\n", 2),
        ("ivy log 1 2 2 64 fixed\npulse 256\n", 2),
        (
            "ivy log 1 2 2 64 fixed\n\n# a comment\npulse 1\nturn 2\nturn 3\n",
            5,
        ),
        ("ivy log 1 2 2 64 fixed x\n", 1),
        ("ivy log 1 2 2 64 fixed 5 6\n", 1),
        // Calls and answers stand in logs of own code alone.
        ("ivy own 1 2 2 64 fixed\n", 1),
        ("ivy log 1 2 2 64 fixed\nturns 2\ncall load 8 512\n", 3),
        ("ivy log 1 2 2 64 fixed\nvalue 0 load 8 512\n", 2),
    ];
    for (text, line) in &faulty {
        let fault = parse_log(alloc, LogKind::OfProgram, *text).err();
        expect_same(&rt, fault, Some(Fault::ProgramFault(*line)));
    }
}

#[test]
fn lines_at_the_bounds_are_read(rt: HostRuntime) {
    let alloc = rt.alloc();
    let read = [
        (
            LogKind::OfProgram,
            "ivy log 1 2 2 64 fixed\npulse 16\npulse 255\n",
            2usize,
        ),
        (
            LogKind::OfProgram,
            "ivy log 255 0 4294967295 0 dynamic\n",
            0,
        ),
        (
            LogKind::OfProgram,
            "ivy log 1 2 2 64 fixed 18446744073709551615\npulse 0\n",
            1,
        ),
        (
            LogKind::OfOwnCode,
            "ivy own 1 2 2 64 fixed\ncall advance 0\ndone advance 0\nrefused 255 load 8 0\n",
            3,
        ),
    ];
    for (kind, text, count) in &read {
        let log = parse_log(alloc, *kind, *text).expect(&rt, "a log");
        expect_same(&rt, log.entries.len(), *count);
    }
}

/// The expected numbers were computed apart from this code.
#[test]
fn a_sum_is_of_the_configuration_and_the_programs(rt: HostRuntime) {
    let alloc = rt.alloc();
    let text = "node 0\nnode 1\nset r1 256   # a comment\nload 8 r2 r1\nprint r2\n";
    let programs = parse(alloc, text).expect(&rt, "programs");
    for (manager, sum) in [
        (Kind::Dynamic, 2_704_658_206_453_180),
        (Kind::Fixed, 3_141_397_415_622_469),
    ] {
        let config = Config {
            pages: 16,
            page_size: 256,
            manager,
            ..CONFIG
        };
        expect_same(&rt, sum_of_run(&config, &programs), sum);
        expect_same(&rt, sum_opened(false, &config, &programs), sum);
        // Nodes that begin with steady hints are in another run.
        expect_same(
            &rt,
            sum_opened(true, &config, &programs),
            7_721_909_631_575_499,
        );
    }
    let own = parse_log(alloc, LogKind::OfOwnCode, "ivy own 1 2 2 64 fixed 5\n");
    expect_same(&rt, own.err(), Some(Fault::ProgramFault(1)));
    let log = log_of(&rt, alloc, "ivy log 1 2 2 64 fixed 5\n");
    expect_same(&rt, log.sum, Some(5));
}

#[test]
fn a_frame_has_a_line(rt: HostRuntime) {
    let alloc = rt.alloc();
    let found = parse_frame(alloc, b"7 4Aa0").expect(&rt, "memory");
    let frame = found.expect(&rt, "a frame");
    expect_same(&rt, frame.to, 7);
    let mut line = String::new(alloc);
    push_frame(alloc, &mut line, 7, &frame.bytes).expect(&rt, "memory");
    expect_same(&rt, line.as_str(), "7 4aa0\n");
    for bad in &["", "7", "7 4", "7 4g", "x 4a", "7 4a 4a", "-1 4a", "4a4a"] {
        let none = parse_frame(alloc, bad.as_bytes()).expect(&rt, "memory");
        assert!(&rt; none.is_none());
    }
}
