//! The programs of `refused_accesses.ivy`. `tools/texts` writes this file from `examples/`.

use crate::file::File;

/// The text of `refused_accesses.ivy`.
pub const REFUSED_ACCESSES: File = File {
    name: "refused_accesses.ivy",
    text: "\
# Options: --pages 2 --page-size 64. Each refused load leaves its register as it was.\nnode 0\nset r\
1 120\nload 8 r2 r1        # the last word of the heap\nset r1 121\nload 8 r2 r1        # 3: not a m\
ultiple of 8\nset r1 128\nload 1 r2 r1        # 4: past the heap\nset r1 0\nload 1 r2 r1        # 5: \
page 0 is reserved\nset r1 129\nload 8 r2 r1        # 3 comes before 4\nnode 1\n",
};
