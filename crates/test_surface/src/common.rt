//! What the tests share: a configuration, programs, and how a value is compared with the one that is wanted.
use ivy_model::{Config, Kind};
use std::fmt::Debug;
use std::process::Abort;

/// Two nodes, and two pages of 64 bytes.
pub(crate) const PAIR: Config = Config {
    nodes: 2,
    pages: 2,
    page_size: 64,
    manager: Kind::Fixed,
};

/// Node 1 loads a word that nobody wrote, and prints it.
pub(crate) const LOADS: &str = "node 0\nnode 1\nset r1 64\nload 8 r2 r1\nprint r2\n";

/// That a value is the one that is wanted. A call of this costs its caller less proof than `assert_eq!` there would.
pub(crate) fn expect_same<T: PartialEq + Debug + Drop>(rt: &impl Abort, found: T, wanted: T) {
    assert_eq!(rt; found, wanted);
}
