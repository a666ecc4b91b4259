//! The programs of `dot_product.ivy`. `tools/texts` writes this file from `examples/`.

use crate::file::File;

/// The text of `dot_product.ivy`.
pub const DOT_PRODUCT: File = File {
    name: "dot_product.ivy",
    text: "\
# ivy run dot_product.ivy\n# Four nodes make the dot product of the vectors 1 to 12 and 12 down to 1\
, which node 0 allocs and fills. Each takes\n# every fourth number, so all of them read the pages of \
both. It stores its sum of three products and advances count\n# 1. Node 0 awaits that it is 4, and p\
rints the sum of the sums, 364.\nnode 0\nset r0 0            # this node\nset r1 1            # one, \
and the count of sums that are made\nset r2 8            # bytes of a number\nset r3 32           # \
bytes of four numbers, and of the block that the nodes share\nalloc r4 r3         # the block that h\
as the addresses of the three others\nset r5 96\nalloc r6 r5         # 1 to 12\nalloc r7 r5         \
# 12 down to 1\nalloc r8 r3         # a sum of each node\nstore 8 r4 r6\nadd r4 r4 r2\nstore 8 r4 r7\
\nadd r4 r4 r2\nstore 8 r4 r8\nset r9 12           # from 12 down to 1\nmov r10 r7\nlabel fill\nsub \
r5 r5 r2\nadd r11 r6 r5\nstore 8 r11 r9\nstore 8 r10 r9\nadd r10 r10 r2\nsub r9 r9 r1\njumpz r9 fill\
ed\njump fill\nlabel filled\nadvance r9          # count 0: both vectors are there\nmul r10 r0 r2\na\
dd r6 r6 r10       # this node's first number of either\nadd r7 r7 r10\nadd r10 r8 r10      # where \
its sum goes\nset r9 3            # products to go\nset r11 0           # the sum\nlabel product\nlo\
ad 8 r12 r6\nload 8 r13 r7\nmul r12 r12 r13\nadd r11 r11 r12\nadd r6 r6 r3        # four numbers on\n\
add r7 r7 r3\nsub r9 r9 r1\njumpz r9 summed\njump product\nlabel summed\nstore 8 r10 r11\nadvance r1\
\nset r9 4\nawait r10 r1 r9     # until all sums are made\nset r11 0\nlabel all\nload 8 r12 r8\nadd \
r11 r11 r12\nadd r8 r8 r2\nsub r9 r9 r1\njumpz r9 end\njump all\nlabel end\nprint r11\n\nnode 1\nset \
r0 1\nset r1 1\nset r2 8\nset r3 32\nset r9 0\nawait r5 r9 r1      # until both vectors are there\ns\
et r4 256          # the first block of all, where a page has 256 bytes\nload 8 r6 r4\nadd r4 r4 r2\n\
load 8 r7 r4\nadd r4 r4 r2\nload 8 r8 r4\nmul r10 r0 r2\nadd r6 r6 r10\nadd r7 r7 r10\nadd r10 r8 r1\
0\nset r9 3\nset r11 0\nlabel product\nload 8 r12 r6\nload 8 r13 r7\nmul r12 r12 r13\nadd r11 r11 r1\
2\nadd r6 r6 r3\nadd r7 r7 r3\nsub r9 r9 r1\njumpz r9 summed\njump product\nlabel summed\nstore 8 r1\
0 r11\nadvance r1\n\nnode 2\nset r0 2\nset r1 1\nset r2 8\nset r3 32\nset r9 0\nawait r5 r9 r1\nset \
r4 256\nload 8 r6 r4\nadd r4 r4 r2\nload 8 r7 r4\nadd r4 r4 r2\nload 8 r8 r4\nmul r10 r0 r2\nadd r6 \
r6 r10\nadd r7 r7 r10\nadd r10 r8 r10\nset r9 3\nset r11 0\nlabel product\nload 8 r12 r6\nload 8 r13 \
r7\nmul r12 r12 r13\nadd r11 r11 r12\nadd r6 r6 r3\nadd r7 r7 r3\nsub r9 r9 r1\njumpz r9 summed\njum\
p product\nlabel summed\nstore 8 r10 r11\nadvance r1\n\nnode 3\nset r0 3\nset r1 1\nset r2 8\nset r3 \
32\nset r9 0\nawait r5 r9 r1\nset r4 256\nload 8 r6 r4\nadd r4 r4 r2\nload 8 r7 r4\nadd r4 r4 r2\nlo\
ad 8 r8 r4\nmul r10 r0 r2\nadd r6 r6 r10\nadd r7 r7 r10\nadd r10 r8 r10\nset r9 3\nset r11 0\nlabel \
product\nload 8 r12 r6\nload 8 r13 r7\nmul r12 r12 r13\nadd r11 r11 r12\nadd r6 r6 r3\nadd r7 r7 r3\n\
sub r9 r9 r1\njumpz r9 summed\njump product\nlabel summed\nstore 8 r10 r11\nadvance r1\n",
};
