//! What the tests share: a text of programs, of which one loads a word that nobody wrote, the two frames that this takes,
//! and how texts are spelled and compared.

use ivy_logs::{Log, LogKind, parse_log};
use ivy_model::{Config, Kind};
use ivy_process::Mail;
use std::alloc::Global;
use std::fmt::Debug;
use std::process::Abort;
use std::str;
use std::sync::Wait;

pub(crate) const PROGRAMS: &str = "node 0\nnode 1\nset r1 64\nload 8 r2 r1\nprint r2\n";

pub(crate) const CONFIG: Config = Config {
    nodes: 2,
    pages: 2,
    page_size: 64,
    manager: Kind::Dynamic,
};

/// Node 1 asks node 0 for a copy of page 1, by its first message, for its first call.
const REQUEST: &str = "495602010100000d0000000000000001000000000000000001000000000000000100000001";

/// Node 0 sends it, by its first message: 64 bytes that are 0.
const ANSWER: &str =
    "495602030001004d00000000000000010000000000000000010000000000000001000000010000000000000000000000\
    000000000000000000000000000000000000000000000000000000000000000000000000000000000000000000000000\
    0000000000";

/// The text of a form, in which `REQUEST` and `ANSWER` stand for the two frames.
pub(crate) fn spelled(rt: &impl Abort, alloc: Global, form: &str) -> String {
    let text = form.replace(alloc, "REQUEST", REQUEST).expect(rt, "memory");
    text.replace(alloc, "ANSWER", ANSWER).expect(rt, "memory")
}

/// The log of this form.
pub(crate) fn log_of(rt: &impl Abort, alloc: Global, form: &str) -> Log<Global> {
    let text = spelled(rt, alloc, form);
    parse_log(alloc, LogKind::OfProgram, text.as_str()).expect(rt, "a log")
}

/// An inbox that has these lines, and gets no more.
pub(crate) fn mail_of<R: Abort + Wait>(rt: &R, alloc: Global, forms: &[&str]) -> Mail {
    let inbox = Mail::new(alloc);
    for form in forms {
        let line = spelled(rt, alloc, form);
        assert!(rt; inbox.put(rt, line.into_bytes()));
    }
    inbox.end(rt);
    inbox
}

/// That a value is the one that is wanted.
pub(crate) fn expect_same<T: PartialEq + Debug + Drop>(rt: &impl Abort, found: T, wanted: T) {
    assert_eq!(rt; found, wanted);
}

/// That bytes are the text of a form.
pub(crate) fn expect_text(rt: &impl Abort, alloc: Global, found: &[u8], form: &str) {
    let wanted = spelled(rt, alloc, form);
    expect_same(rt, str::from_utf8(found).ok(), Some(wanted.as_str()));
}
