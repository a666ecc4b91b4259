//! The programs of `chase.ivy`. `tools/texts` writes this file from `examples/`.

use crate::file::File;

/// The text of `chase.ivy`.
pub const CHASE: File = File {
    name: "chase.ivy",
    text: "\
# Options: --pages 2 --page-size 64. Nodes 0 and 1 load a word and store it again, for ever, node 2 \
stores it for ever,\n# and node 3 loads it once. In chase.schedule node 3 is not answered, under the \
dynamic manager, which is the default.\nnode 0\nset r1 64\nlabel a\nload 8 r2 r1\nstore 8 r1 r2\njum\
p a\nnode 1\nset r1 64\nlabel a\nload 8 r2 r1\nstore 8 r1 r2\njump a\nnode 2\nset r1 64\nset r2 7\nl\
abel a\nstore 8 r1 r2\njump a\nnode 3\nset r1 64\nload 8 r2 r1\nprint r2\n",
};
