//! The programs of `forwarded_read.ivy`. `tools/texts` writes this file from `examples/`.

use crate::file::File;

/// The text of `forwarded_read.ivy`.
pub const FORWARDED_READ: File = File {
    name: "forwarded_read.ivy",
    text: "\
# Options: --pages 2 --page-size 64 --manager fixed. Node 1 manages the page, node 0 owns it, node 2 \
loads.\nnode 0\nnode 1\nnode 2\nset r1 64\nload 8 r2 r1\nprint r2\n",
};
