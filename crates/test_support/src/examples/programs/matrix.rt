//! The programs of `matrix.ivy`. `tools/texts` writes this file from `examples/`.

use crate::file::File;

/// The text of `matrix.ivy`.
pub const MATRIX: File = File {
    name: "matrix.ivy",
    text: "\
# ivy run matrix.ivy\n# Three nodes multiply two matrices of three rows, a row each. Node 0 allocs a\
nd fills them: the numbers 1 to 9, and\n# 9 down to 1. Each node makes its row of the product and ad\
vances count 1. Node 0 awaits that it is 3, and prints the\n# product, row by row: 30 24 18, 84 69 5\
4, 138 114 90.\nnode 0\nset r0 0            # this node, and its row\nset r1 1            # one, and \
the count of rows that are made\nset r2 8            # bytes of a number\nset r3 3            # rows\
, and numbers of a row\nset r4 24           # bytes of a row\nalloc r5 r4         # the block that h\
as the addresses of the three matrices\nset r6 72\nalloc r7 r6         # 1 2 3, 4 5 6, 7 8 9\nalloc \
r8 r6         # 9 8 7, 6 5 4, 3 2 1\nalloc r9 r6         # their product\nstore 8 r5 r7\nadd r5 r5 r\
2\nstore 8 r5 r8\nadd r5 r5 r2\nstore 8 r5 r9\nset r10 9           # from 9 down to 1\nmov r11 r8\nl\
abel fill\nsub r6 r6 r2\nadd r12 r7 r6\nstore 8 r12 r10\nstore 8 r11 r10\nadd r11 r11 r2\nsub r10 r1\
0 r1\njumpz r10 filled\njump fill\nlabel filled\nadvance r10         # count 0: both matrices are th\
ere\nmul r10 r0 r4\nadd r7 r7 r10       # this row of the first matrix\nadd r9 r9 r10       # and of \
the product\nmov r5 r3           # columns to go\nlabel column\nset r10 0           # the number at \
this row and column\nmov r11 r7\nmov r12 r8\nmov r6 r3           # products to go\nlabel product\nlo\
ad 8 r13 r11\nload 8 r14 r12\nmul r13 r13 r14\nadd r10 r10 r13\nadd r11 r11 r2\nadd r12 r12 r4\nsub \
r6 r6 r1\njumpz r6 made\njump product\nlabel made\nstore 8 r9 r10\nadd r9 r9 r2\nadd r8 r8 r2        \
# the next column of the second matrix\nsub r5 r5 r1\njumpz r5 done\njump column\nlabel done\nadvanc\
e r1\nawait r5 r1 r3      # until all rows are made\nsub r9 r9 r4        # back to the first number\n\
mul r5 r3 r3        # numbers to go\nlabel show\nload 8 r10 r9\nprint r10\nadd r9 r9 r2\nsub r5 r5 r\
1\njumpz r5 end\njump show\nlabel end\nstop\n\nnode 1\nset r0 1\nset r1 1\nset r2 8\nset r3 3\nset r\
4 24\nset r10 0\nawait r5 r10 r1     # until both matrices are there\nset r5 256          # the firs\
t block of all, where a page has 256 bytes\nload 8 r7 r5\nadd r5 r5 r2\nload 8 r8 r5\nadd r5 r5 r2\n\
load 8 r9 r5\nmul r10 r0 r4\nadd r7 r7 r10\nadd r9 r9 r10\nmov r5 r3\nlabel column\nset r10 0\nmov r\
11 r7\nmov r12 r8\nmov r6 r3\nlabel product\nload 8 r13 r11\nload 8 r14 r12\nmul r13 r13 r14\nadd r1\
0 r10 r13\nadd r11 r11 r2\nadd r12 r12 r4\nsub r6 r6 r1\njumpz r6 made\njump product\nlabel made\nst\
ore 8 r9 r10\nadd r9 r9 r2\nadd r8 r8 r2\nsub r5 r5 r1\njumpz r5 done\njump column\nlabel done\nadva\
nce r1\n\nnode 2\nset r0 2\nset r1 1\nset r2 8\nset r3 3\nset r4 24\nset r10 0\nawait r5 r10 r1\nset \
r5 256\nload 8 r7 r5\nadd r5 r5 r2\nload 8 r8 r5\nadd r5 r5 r2\nload 8 r9 r5\nmul r10 r0 r4\nadd r7 \
r7 r10\nadd r9 r9 r10\nmov r5 r3\nlabel column\nset r10 0\nmov r11 r7\nmov r12 r8\nmov r6 r3\nlabel \
product\nload 8 r13 r11\nload 8 r14 r12\nmul r13 r13 r14\nadd r10 r10 r13\nadd r11 r11 r2\nadd r12 r\
12 r4\nsub r6 r6 r1\njumpz r6 made\njump product\nlabel made\nstore 8 r9 r10\nadd r9 r9 r2\nadd r8 r\
8 r2\nsub r5 r5 r1\njumpz r5 done\njump column\nlabel done\nadvance r1\n",
};
