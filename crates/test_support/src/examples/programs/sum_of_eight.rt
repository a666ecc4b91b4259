//! The programs of `sum_of_eight.ivy`. `tools/texts` writes this file from `examples/`.

use crate::file::File;

/// The text of `sum_of_eight.ivy`.
pub const SUM_OF_EIGHT: File = File {
    name: "sum_of_eight.ivy",
    text: "\
# ivy run sum_of_eight.ivy\n# Eight nodes sum the numbers 1 to 64, eight numbers each, in blocks tha\
t node 0 allocs. Each node sums its part,\n# advances count 1 and awaits 8, a barrier: all parts are \
summed then. So each prints the sum of all, 2080.\nnode 0\nset r0 0            # this node\nset r1 1            \
# one, and the count of parts that are summed\nset r2 8            # bytes of a number\nset r3 8            \
# so many nodes\nset r4 8            # numbers of a part\nmul r5 r3 r4        # all numbers\nmul r6 \
r5 r2        # and their bytes\nset r7 16           # the block that has the addresses of the two ot\
hers\nalloc r7 r7\nalloc r8 r6         # the numbers\nmul r9 r3 r2\nalloc r9 r9         # the sums o\
f the parts\nstore 8 r7 r8\nadd r10 r7 r2\nstore 8 r10 r9\nmul r6 r5 r2\nlabel fill          # from \
the last number to the first\nsub r6 r6 r2\nadd r10 r8 r6\nstore 8 r10 r5\nsub r5 r5 r1\njumpz r5 fi\
lled\njump fill\nlabel filled\nadvance r5          # count 0: the numbers are there\nmul r10 r0 r4\n\
mul r10 r10 r2\nadd r8 r8 r10       # this node's part\nmul r10 r0 r2\nadd r10 r9 r10      # where i\
ts sum goes\nset r11 0           # the sum\nlabel part\nload 8 r12 r8\nadd r11 r11 r12\nadd r8 r8 r2\
\nsub r4 r4 r1\njumpz r4 summed\njump part\nlabel summed\nstore 8 r10 r11\nadvance r1\nawait r12 r1 \
r3     # until all parts are summed\nset r11 0           # the sum of the sums\nlabel all\nload 8 r1\
2 r9\nadd r11 r11 r12\nadd r9 r9 r2\nsub r3 r3 r1\njumpz r3 end\njump all\nlabel end\nprint r11\n\nn\
ode 1\nset r0 1\nset r1 1\nset r2 8\nset r3 8\nset r4 8\nset r5 0\nawait r6 r5 r1      # until the n\
umbers are there\nset r7 256          # the first block of all, where a page has 256 bytes\nload 8 r\
8 r7\nadd r10 r7 r2\nload 8 r9 r10\nmul r10 r0 r4\nmul r10 r10 r2\nadd r8 r8 r10\nmul r10 r0 r2\nadd \
r10 r9 r10\nset r11 0\nlabel part\nload 8 r12 r8\nadd r11 r11 r12\nadd r8 r8 r2\nsub r4 r4 r1\njumpz \
r4 summed\njump part\nlabel summed\nstore 8 r10 r11\nadvance r1\nawait r12 r1 r3\nset r11 0\nlabel a\
ll\nload 8 r12 r9\nadd r11 r11 r12\nadd r9 r9 r2\nsub r3 r3 r1\njumpz r3 end\njump all\nlabel end\np\
rint r11\n\nnode 2\nset r0 2\nset r1 1\nset r2 8\nset r3 8\nset r4 8\nset r5 0\nawait r6 r5 r1\nset \
r7 256\nload 8 r8 r7\nadd r10 r7 r2\nload 8 r9 r10\nmul r10 r0 r4\nmul r10 r10 r2\nadd r8 r8 r10\nmu\
l r10 r0 r2\nadd r10 r9 r10\nset r11 0\nlabel part\nload 8 r12 r8\nadd r11 r11 r12\nadd r8 r8 r2\nsu\
b r4 r4 r1\njumpz r4 summed\njump part\nlabel summed\nstore 8 r10 r11\nadvance r1\nawait r12 r1 r3\n\
set r11 0\nlabel all\nload 8 r12 r9\nadd r11 r11 r12\nadd r9 r9 r2\nsub r3 r3 r1\njumpz r3 end\njump \
all\nlabel end\nprint r11\n\nnode 3\nset r0 3\nset r1 1\nset r2 8\nset r3 8\nset r4 8\nset r5 0\nawa\
it r6 r5 r1\nset r7 256\nload 8 r8 r7\nadd r10 r7 r2\nload 8 r9 r10\nmul r10 r0 r4\nmul r10 r10 r2\n\
add r8 r8 r10\nmul r10 r0 r2\nadd r10 r9 r10\nset r11 0\nlabel part\nload 8 r12 r8\nadd r11 r11 r12\n\
add r8 r8 r2\nsub r4 r4 r1\njumpz r4 summed\njump part\nlabel summed\nstore 8 r10 r11\nadvance r1\na\
wait r12 r1 r3\nset r11 0\nlabel all\nload 8 r12 r9\nadd r11 r11 r12\nadd r9 r9 r2\nsub r3 r3 r1\nju\
mpz r3 end\njump all\nlabel end\nprint r11\n\nnode 4\nset r0 4\nset r1 1\nset r2 8\nset r3 8\nset r4 \
8\nset r5 0\nawait r6 r5 r1\nset r7 256\nload 8 r8 r7\nadd r10 r7 r2\nload 8 r9 r10\nmul r10 r0 r4\n\
mul r10 r10 r2\nadd r8 r8 r10\nmul r10 r0 r2\nadd r10 r9 r10\nset r11 0\nlabel part\nload 8 r12 r8\n\
add r11 r11 r12\nadd r8 r8 r2\nsub r4 r4 r1\njumpz r4 summed\njump part\nlabel summed\nstore 8 r10 r\
11\nadvance r1\nawait r12 r1 r3\nset r11 0\nlabel all\nload 8 r12 r9\nadd r11 r11 r12\nadd r9 r9 r2\n\
sub r3 r3 r1\njumpz r3 end\njump all\nlabel end\nprint r11\n\nnode 5\nset r0 5\nset r1 1\nset r2 8\n\
set r3 8\nset r4 8\nset r5 0\nawait r6 r5 r1\nset r7 256\nload 8 r8 r7\nadd r10 r7 r2\nload 8 r9 r10\
\nmul r10 r0 r4\nmul r10 r10 r2\nadd r8 r8 r10\nmul r10 r0 r2\nadd r10 r9 r10\nset r11 0\nlabel part\
\nload 8 r12 r8\nadd r11 r11 r12\nadd r8 r8 r2\nsub r4 r4 r1\njumpz r4 summed\njump part\nlabel summ\
ed\nstore 8 r10 r11\nadvance r1\nawait r12 r1 r3\nset r11 0\nlabel all\nload 8 r12 r9\nadd r11 r11 r\
12\nadd r9 r9 r2\nsub r3 r3 r1\njumpz r3 end\njump all\nlabel end\nprint r11\n\nnode 6\nset r0 6\nse\
t r1 1\nset r2 8\nset r3 8\nset r4 8\nset r5 0\nawait r6 r5 r1\nset r7 256\nload 8 r8 r7\nadd r10 r7 \
r2\nload 8 r9 r10\nmul r10 r0 r4\nmul r10 r10 r2\nadd r8 r8 r10\nmul r10 r0 r2\nadd r10 r9 r10\nset \
r11 0\nlabel part\nload 8 r12 r8\nadd r11 r11 r12\nadd r8 r8 r2\nsub r4 r4 r1\njumpz r4 summed\njump \
part\nlabel summed\nstore 8 r10 r11\nadvance r1\nawait r12 r1 r3\nset r11 0\nlabel all\nload 8 r12 r\
9\nadd r11 r11 r12\nadd r9 r9 r2\nsub r3 r3 r1\njumpz r3 end\njump all\nlabel end\nprint r11\n\nnode \
7\nset r0 7\nset r1 1\nset r2 8\nset r3 8\nset r4 8\nset r5 0\nawait r6 r5 r1\nset r7 256\nload 8 r8 \
r7\nadd r10 r7 r2\nload 8 r9 r10\nmul r10 r0 r4\nmul r10 r10 r2\nadd r8 r8 r10\nmul r10 r0 r2\nadd r\
10 r9 r10\nset r11 0\nlabel part\nload 8 r12 r8\nadd r11 r11 r12\nadd r8 r8 r2\nsub r4 r4 r1\njumpz \
r4 summed\njump part\nlabel summed\nstore 8 r10 r11\nadvance r1\nawait r12 r1 r3\nset r11 0\nlabel a\
ll\nload 8 r12 r9\nadd r11 r11 r12\nadd r9 r9 r2\nsub r3 r3 r1\njumpz r3 end\njump all\nlabel end\np\
rint r11\n",
};
