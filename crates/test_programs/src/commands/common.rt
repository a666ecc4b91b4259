//! What the tests share: files that lie in memory, and the check of a command over them.

use ivy_commands::{Texts, perform};
use ivy_model::Fault;
use std::alloc::{AllocError, Global};
use std::fmt::{Debug, Display};
use std::io::Write;
use std::process::Abort;
use std::sync::Wait;
use std::test::Fail;
use std::thread::Threads;
use test_support::File;

/// Files that lie in memory.
#[derive(Drop)]
struct Shelf<'a> {
    alloc: Global,
    files: &'a [File<'a>],
}

impl Texts for Shelf<'_> {
    fn text(&self, name: &str) -> Result<Option<String>, Fault> {
        for file in self.files {
            if file.name == name {
                return Ok(Some(String::from_str(self.alloc, file.text)?));
            }
        }
        Ok(None)
    }
}

/// The words of a command line that is given without the program's name.
pub(crate) fn words_of(alloc: Global, line: &str) -> Result<Vec<String>, AllocError> {
    let mut words = Vec::new(alloc);
    words.push(String::from_str(alloc, "ivy")?)?;
    for word in line.split_whitespace() {
        words.push(String::from_str(alloc, word)?)?;
    }
    Ok(words)
}

/// Performs a command line over files, with a stream for what it prints. Gives its status and what standard error
/// is told.
pub(crate) fn told_by<R: Abort + AllocGlobal + Threads + Wait + Sync, O: Write>(
    rt: &R,
    files: &[File],
    line: &str,
    out: &mut O,
) -> Result<(u8, String), Fail> {
    let alloc = rt.alloc();
    let words = words_of(alloc, line)?;
    let mut told: Vec<u8> = Vec::new(alloc);
    let status = perform(rt, alloc, &words, &Shelf { alloc, files }, out, &mut told);
    Ok((status, String::from_utf8(told)?))
}

/// Performs a command line over files. Asserts its status and what it prints on both streams.
pub(crate) fn check_over<R: Abort + AllocGlobal + Threads + Wait + Sync>(
    rt: &R,
    files: &[File],
    line: &str,
    (status, out, err): (u8, &str, &str),
) -> Result<(), Fail> {
    let mut printed: Vec<u8> = Vec::new(rt.alloc());
    let (answer, told) = told_by(rt, files, line, &mut printed)?;
    expect_same_at(rt, line, String::from_utf8(printed)?.as_str(), out);
    expect_same_at(rt, line, told.as_str(), err);
    expect_same_at(rt, line, answer, status);
    Ok(())
}

/// Performs command lines over the same files. Asserts that each has this status and prints this.
pub(crate) fn check_each<R: Abort + AllocGlobal + Threads + Wait + Sync>(
    rt: &R,
    files: &[File],
    lines: &[&str],
    answer: (u8, &str, &str),
) -> Result<(), Fail> {
    for line in lines {
        check_over(rt, files, line, answer)?;
    }
    Ok(())
}

/// Performs a command line under either manager. Asserts its status and what it prints on both streams.
pub(crate) fn check_managers<R: Abort + AllocGlobal + Threads + Wait + Sync>(
    rt: &R,
    files: &[File],
    line: &str,
    answer: (u8, &str, &str),
) -> Result<(), Fail> {
    for manager in ["dynamic", "fixed"] {
        let line = format!(in rt.alloc(); "{line} --manager {manager}")?;
        check_over(rt, files, line.as_str(), answer)?;
    }
    Ok(())
}

/// Performs a command line with each of these seeds, under either manager. Asserts its status and what it prints on
/// both streams.
pub(crate) fn check_seeds<R: Abort + AllocGlobal + Threads + Wait + Sync>(
    rt: &R,
    files: &[File],
    (line, seeds): (&str, &[u64]),
    answer: (u8, &str, &str),
) -> Result<(), Fail> {
    for seed in seeds {
        let line = format!(in rt.alloc(); "{line} --seed {seed}")?;
        check_managers(rt, files, line.as_str(), answer)?;
    }
    Ok(())
}

/// What a command line prints over files, with status 0 and nothing told.
pub(crate) fn printed_by<R: Abort + AllocGlobal + Threads + Wait + Sync>(
    rt: &R,
    files: &[File],
    line: &str,
) -> Result<String, Fail> {
    let mut printed: Vec<u8> = Vec::new(rt.alloc());
    let (status, told) = told_by(rt, files, line, &mut printed)?;
    expect_same_at(rt, line, status, 0);
    expect_same_at(rt, line, told.as_str(), "");
    Ok(String::from_utf8(printed)?)
}

/// What is printed, and then the line that `sim` prints of each node at the end, with this word.
pub(crate) fn with_nodes(
    alloc: Global,
    printed: &str,
    nodes: u64,
    word: &str,
) -> Result<String, AllocError> {
    let mut text = String::from_str(alloc, printed)?;
    for node in 0..nodes {
        write!(text, "node {node} {word}\n")?;
    }
    Ok(text)
}

/// That a value is the one that is wanted. A call of this costs its caller less proof than `assert_eq!` there would.
pub(crate) fn expect_same<T: PartialEq + Debug + Drop>(rt: &impl Abort, found: T, wanted: T) {
    assert_eq!(rt; found, wanted);
}

/// The same of a row, a node or a growth, which is named where the value is another.
pub(crate) fn expect_same_at<T: PartialEq + Debug + Drop>(
    rt: &impl Abort,
    place: impl Display + Drop,
    found: T,
    wanted: T,
) {
    assert_eq!(rt; found, wanted, "{place}");
}
