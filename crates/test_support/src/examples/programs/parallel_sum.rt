//! The programs of `parallel_sum.ivy`. `tools/texts` writes this file from `examples/`.

use crate::file::File;

/// The text of `parallel_sum.ivy`.
pub const PARALLEL_SUM: File = File {
    name: "parallel_sum.ivy",
    text: "\
# ivy run parallel_sum.ivy\n# Two nodes sum the numbers 1 to 16. Node 0 allocs a block for the numbe\
rs and one for the sums of the two halves,\n# and fills the first. Each node sums its half, advances \
count 1 and awaits 2, a barrier: both halves are summed then.\n# So both print the sum of both, 136.\
\nnode 0\nset r0 0            # this node\nset r1 1            # one, and the count of parts that ar\
e summed\nset r2 8            # bytes of a number\nset r3 2            # so many nodes\nset r4 8            \
# numbers of a part\nmul r5 r3 r4        # all numbers\nmul r6 r5 r2        # and their bytes\nset r\
7 16           # the block that has the addresses of the two others\nalloc r7 r7\nalloc r8 r6         \
# the numbers\nmul r9 r3 r2\nalloc r9 r9         # the sums of the parts\nstore 8 r7 r8\nadd r10 r7 \
r2\nstore 8 r10 r9\nmul r6 r5 r2\nlabel fill          # from the last number to the first\nsub r6 r6 \
r2\nadd r10 r8 r6\nstore 8 r10 r5\nsub r5 r5 r1\njumpz r5 filled\njump fill\nlabel filled\nadvance r\
5          # count 0: the numbers are there\nmul r10 r0 r4\nmul r10 r10 r2\nadd r8 r8 r10       # th\
is node's part\nmul r10 r0 r2\nadd r10 r9 r10      # where its sum goes\nset r11 0           # the s\
um\nlabel part\nload 8 r12 r8\nadd r11 r11 r12\nadd r8 r8 r2\nsub r4 r4 r1\njumpz r4 summed\njump pa\
rt\nlabel summed\nstore 8 r10 r11\nadvance r1\nawait r12 r1 r3     # until all parts are summed\nset \
r11 0           # the sum of the sums\nlabel all\nload 8 r12 r9\nadd r11 r11 r12\nadd r9 r9 r2\nsub \
r3 r3 r1\njumpz r3 end\njump all\nlabel end\nprint r11\n\nnode 1\nset r0 1\nset r1 1\nset r2 8\nset \
r3 2\nset r4 8\nset r5 0\nawait r6 r5 r1      # until the numbers are there\nset r7 256          # t\
he first block of all, where a page has 256 bytes\nload 8 r8 r7\nadd r10 r7 r2\nload 8 r9 r10\nmul r\
10 r0 r4\nmul r10 r10 r2\nadd r8 r8 r10\nmul r10 r0 r2\nadd r10 r9 r10\nset r11 0\nlabel part\nload \
8 r12 r8\nadd r11 r11 r12\nadd r8 r8 r2\nsub r4 r4 r1\njumpz r4 summed\njump part\nlabel summed\nsto\
re 8 r10 r11\nadvance r1\nawait r12 r1 r3\nset r11 0\nlabel all\nload 8 r12 r9\nadd r11 r11 r12\nadd \
r9 r9 r2\nsub r3 r3 r1\njumpz r3 end\njump all\nlabel end\nprint r11\n",
};
