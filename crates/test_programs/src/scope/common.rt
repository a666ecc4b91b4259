//! What the tests share: files that lie in memory, and the check of commands over them.

use ivy_model::Fault;
use ivy_replay::Silence;
use ivy_scope::{Logs, run_command};
use ivy_texts::Texts;
use std::alloc::Global;
use std::io::{self, ErrorKind, Write};
use std::process::Abort;
use std::str;
use std::sync::Wait;
use std::thread::Threads;
use test_support::File;

/// What a stream has to be told.
#[derive(Clone, Copy)]
pub(crate) enum Told<'a> {
    /// Exactly this.
    Is(&'a str),
    /// Each of these, among others.
    Has(&'a [&'a str]),
    /// The same, and not this.
    HasBut(&'a [&'a str], &'a str),
}

/// The words of a command line behind the program's name, its status, and what both streams are told.
pub(crate) type Case<'a> = (&'a [&'a str], u8, Told<'a>, Told<'a>);

/// Files that lie in memory.
#[derive(Drop)]
struct Shelf<'a> {
    alloc: Global,
    files: &'a [File<'a>],
}

impl Texts for Shelf<'_> {
    fn text(&self, name: &str) -> Result<Option<String>, Fault> {
        for file in self.files {
            if file.name == name {
                return Ok(Some(String::from_str(self.alloc, file.text)?));
            }
        }
        Ok(None)
    }
}

/// Whether the first line of a log has eight words, of which the last one is a sum of 16 digits.
fn names_sum(text: &str) -> bool {
    let first = text.lines().next().unwrap_or("");
    let mut count = 0u64;
    let mut digits = 0usize;
    for word in first.split(' ') {
        count = count.saturating_add(1);
        digits = word.len();
    }
    count == 8 && digits == 16
}

/// A folder takes no logs but where it is called so, and the logs name the sum of their run.
impl Logs for Shelf<'_> {
    fn write_log(&self, folder: &str, _node: u64, text: &str) -> Result<bool, Fault> {
        Ok(folder == "there" && names_sum(text))
    }
}

/// The words of a command line.
fn words_of(rt: &impl Abort, alloc: Global, line: &[&str]) -> Vec<String> {
    let mut words = Vec::new(alloc);
    for word in ["ivyscope"].iter().chain(line) {
        let word = String::from_str(alloc, word).expect(rt, "memory");
        words.push(word).expect(rt, "memory");
    }
    words
}

fn has_all(found: &str, parts: &[&str]) -> bool {
    for part in parts {
        if !found.contains(*part) {
            return false;
        }
    }
    true
}

/// Whether a stream was told what it has to be.
fn is_told(found: &str, wanted: Told<'_>) -> bool {
    match wanted {
        Told::Is(text) => found == text,
        Told::Has(parts) => has_all(found, parts),
        Told::HasBut(parts, none) => has_all(found, parts) && !found.contains(none),
    }
}

/// Asserts what a stream was told.
fn expect_told(rt: &impl Abort, line: &[&str], found: &[u8], wanted: Told<'_>) {
    let text = str::from_utf8(found).expect(rt, "a text");
    assert!(rt; is_told(text, wanted), "{line:?} says {text}");
}

/// Asserts the exit status of a command line.
fn expect_status(rt: &impl Abort, line: &[&str], found: u8, wanted: u8) {
    assert!(rt; found == wanted, "{line:?} ends with {found}");
}

/// Performs a command line over files. Asserts its status, and what both streams are told.
fn check_case<R: Abort + AllocGlobal + Threads + Wait + Sync>(
    rt: &R,
    shelf: &Shelf<'_>,
    case: &Case<'_>,
) {
    let (line, status, out, err) = *case;
    let alloc = rt.alloc();
    let words = words_of(rt, alloc, line);
    let (mut printed, mut told) = (Vec::new(alloc), Vec::new(alloc));
    let found = run_command(rt, &words, shelf, &mut printed, &mut told, &mut Silence);
    expect_told(rt, line, &printed, out);
    expect_told(rt, line, &told, err);
    expect_status(rt, line, found, status);
}

/// A stream that takes nothing.
#[derive(Drop)]
struct Shut;

impl Write for Shut {
    fn write(&mut self, _buf: &[u8]) -> io::Result<usize> {
        Ok(0)
    }

    fn flush(&mut self) -> io::Result<()> {
        Err(io::Error::from(ErrorKind::StorageFull))
    }
}

/// Performs a command line over files where standard output takes nothing. Asserts its status, and what is told.
pub(crate) fn check_shut<R: Abort + AllocGlobal + Threads + Wait + Sync>(
    rt: &R,
    files: &[File],
    line: &[&str],
    status: u8,
    err: Told<'_>,
) {
    let alloc = rt.alloc();
    let shelf = Shelf { alloc, files };
    let words = words_of(rt, alloc, line);
    let mut told = Vec::new(alloc);
    let found = run_command(rt, &words, &shelf, &mut Shut, &mut told, &mut Silence);
    expect_told(rt, line, &told, err);
    expect_status(rt, line, found, status);
}

/// Performs each command line over files.
pub(crate) fn check_each<R: Abort + AllocGlobal + Threads + Wait + Sync>(
    rt: &R,
    files: &[File],
    cases: &[Case<'_>],
) {
    let shelf = Shelf {
        alloc: rt.alloc(),
        files,
    };
    for case in cases {
        check_case(rt, &shelf, case);
    }
}
