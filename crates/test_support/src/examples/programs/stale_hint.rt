//! The programs of `stale_hint.ivy`. `tools/texts` writes this file from `examples/`.

use crate::file::File;

/// The text of `stale_hint.ivy`.
pub const STALE_HINT: File = File {
    name: "stale_hint.ivy",
    text: "\
# Three nodes use one word after another. Each finds the owner of its page by a hint, at first node \
0.\nnode 0\nset r1 256          # the first word of page 1, where a page has 256 bytes\nload 8 r2 r1\
\nprint r2\n\nnode 1\nset r1 256\nset r2 1\nstore 8 r1 r2\n\nnode 2\nset r1 256\nset r2 2\nstore 8 r\
1 r2\n",
};
