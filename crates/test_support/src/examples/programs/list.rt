//! The programs of `list.ivy`. `tools/texts` writes this file from `examples/`.

use crate::file::File;

/// The text of `list.ivy`.
pub const LIST: File = File {
    name: "list.ivy",
    text: "\
# ivy run list.ivy\n# Node 1 builds a list of the squares of 1 to 6. Each of its blocks has a number \
and the address of the block\n# behind it, or 0. The first block of all lies at 256, where a page ha\
s 256 bytes: it has the address of the list.\n# Node 0 awaits the list, sums it and frees its blocks\
, and prints the sum, 91. Then it allocs 16 bytes and prints\n# where: 264, the least address with r\
oom again.\nnode 0\nset r0 0            # the count of lists that are built\nset r1 1            # o\
ne\nset r2 256          # where the address of the list lies\nset r3 8            # from a block's n\
umber to the address behind it\nset r4 0            # the sum\nawait r5 r0 r1      # until the list \
is built\nload 8 r6 r2        # its first block\nlabel next\njumpz r6 end\nload 8 r7 r6\nadd r4 r4 r\
7\nadd r8 r6 r3\nload 8 r9 r8        # the block behind this one\nfree r6\nmov r6 r9\njump next\nlab\
el end\nprint r4\nset r5 16\nalloc r6 r5\nprint r6\n\nnode 1\nset r0 0\nset r1 1\nset r3 8\nset r5 1\
6           # bytes of a block\nset r6 0            # the list so far: no block\nset r7 6            \
# the number whose square is next, from 6 down to 1\nalloc r2 r3         # the first block of all\nl\
abel next\nalloc r8 r5\nmul r9 r7 r7\nstore 8 r8 r9\nadd r10 r8 r3\nstore 8 r10 r6      # the list s\
o far goes behind the new block\nmov r6 r8\nsub r7 r7 r1\njumpz r7 done\njump next\nlabel done\nstor\
e 8 r2 r6\nadvance r0\n",
};
