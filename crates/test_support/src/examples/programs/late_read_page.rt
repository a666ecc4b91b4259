//! The programs of `late_read_page.ivy`. `tools/texts` writes this file from `examples/`.

use crate::file::File;

/// The text of `late_read_page.ivy`.
pub const LATE_READ_PAGE: File = File {
    name: "late_read_page.ivy",
    text: "\
# Node 2 loads a word while node 1 stores to it. Run it with --manager fixed: node 1 manages the pag\
e, node 0\n# owns it.\nnode 0\n\nnode 1\nset r1 256          # the first word of page 1, where a pag\
e has 256 bytes\nset r2 5\nstore 8 r1 r2\n\nnode 2\nset r1 256\nload 8 r2 r1\nprint r2\n",
};
