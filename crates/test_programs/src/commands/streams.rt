//! Streams that take no more, or fail where they are flushed.

use crate::commands::common::{expect_same, expect_same_at, told_by};
use std::io::{self, ErrorKind, Write};
use std::process::Abort;
use std::sync::Wait;
use std::test::Fail;
use std::thread::Threads;
use test_support::{EMPTY, File, schedules};

/// A stream that takes so many bytes and no more.
#[derive(Drop)]
struct Narrow {
    room: usize,
}

impl Write for Narrow {
    fn write(&mut self, buf: &[u8]) -> io::Result<usize> {
        let taken = self.room.min(buf.len());
        self.room -= taken;
        Ok(taken)
    }

    fn flush(&mut self) -> io::Result<()> {
        Ok(())
    }
}

/// Where standard output takes no more, nothing is told either.
#[test]
fn unwritten(rt: HostRuntime) -> Result<(), Fail> {
    let files = [
        schedules::STRING_NOT_SENT.programs,
        schedules::STRING_NOT_SENT.moves,
    ];
    let line = "step first_load.ivy string_not_sent.schedule";
    let (status, told) = told_by(&rt, &files, line, &mut Narrow { room: 12 })?;
    expect_same(&rt, status, 1);
    expect_same(&rt, told.as_str(), "");
    Ok(())
}

/// A stream that takes nothing, and fails where it is flushed.
#[derive(Drop)]
struct Shut;

impl Write for Shut {
    fn write(&mut self, _buf: &[u8]) -> io::Result<usize> {
        Ok(0)
    }

    fn flush(&mut self) -> io::Result<()> {
        Err(io::Error::from(ErrorKind::StorageFull))
    }
}

/// The files that the commands name.
const FILES: [File; 4] = [
    File {
        name: "empty",
        text: EMPTY,
    },
    File {
        name: "faulty",
        text: "node 0\nset r16 1\n",
    },
    File {
        name: "lone",
        text: "node 0\n",
    },
    File {
        name: "endless",
        text: "node 0\nlabel again\njump again\nnode 1\n",
    },
];

/// Command lines over a stream that fails where it is flushed, their status, and what is told.
const UNFLUSHED: [(&str, u8, &str); 7] = [
    ("walk load", 2, "ivy: bad command line\n"),
    ("run missing", 2, "ivy: cannot read missing\n"),
    ("step faulty moves", 2, "ivy: 20 ProgramFault line 2\n"),
    ("sim lone", 2, "ivy: 2 BadConfig\n"),
    ("run endless --turns 5", 1, ""),
    ("run empty", 1, ""),
    ("sim empty", 1, ""),
];

/// Performs a command line over a stream that fails where it is flushed. Asserts its status and what is told.
fn check_unflushed<R: Abort + AllocGlobal + Threads + Wait + Sync>(
    rt: &R,
    line: &str,
    (status, err): (u8, &str),
) -> Result<(), Fail> {
    let (answer, told) = told_by(rt, &FILES, line, &mut Shut)?;
    expect_same_at(rt, line, told.as_str(), err);
    expect_same_at(rt, line, answer, status);
    Ok(())
}

/// What is found before a run is told all the same.
#[test]
fn unflushed(rt: HostRuntime) -> Result<(), Fail> {
    for (line, status, err) in &UNFLUSHED {
        check_unflushed(&rt, line, (*status, err))?;
    }
    Ok(())
}
