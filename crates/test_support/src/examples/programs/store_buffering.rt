//! The programs of `store_buffering.ivy`. `tools/texts` writes this file from `examples/`.

use crate::file::File;

/// The text of `store_buffering.ivy`.
pub const STORE_BUFFERING: File = File {
    name: "store_buffering.ivy",
    text: "\
# Each node stores to a word of its own and then loads the other's, each in a page of its own. Whate\
ver the\n# order of the moves, at most one of them loads 0: the stores come first in the one order o\
f all calls.\nnode 0\nset r1 256          # a word of page 1, where a page has 256 bytes\nset r2 512          \
# a word of page 2\nset r3 1\nstore 8 r1 r3\nload 8 r4 r2\nprint r4\n\nnode 1\nset r1 256\nset r2 51\
2\nset r3 1\nstore 8 r2 r3\nload 8 r4 r1\nprint r4\n",
};
