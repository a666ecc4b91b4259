//! The programs of `four_readers.ivy`. `tools/texts` writes this file from `examples/`.

use crate::file::File;

/// The text of `four_readers.ivy`.
pub const FOUR_READERS: File = File {
    name: "four_readers.ivy",
    text: "\
# Four nodes load the same word. Run it with --manager fixed: node 2 manages the word's page, node 0 \
owns it.\nnode 0\nset r1 512          # the first word of page 2, where a page has 256 bytes\nload 8 \
r2 r1\nprint r2\n\nnode 1\nset r1 512\nload 8 r2 r1\nprint r2\n\nnode 2\nset r1 512\nload 8 r2 r1\np\
rint r2\n\nnode 3\nset r1 512\nload 8 r2 r1\nprint r2\n",
};
