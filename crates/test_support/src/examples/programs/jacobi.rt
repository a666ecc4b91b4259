//! The programs of `jacobi.ivy`. `tools/texts` writes this file from `examples/`.

use crate::file::File;

/// The text of `jacobi.ivy`.
pub const JACOBI: File = File {
    name: "jacobi.ivy",
    text: "\
# ivy run jacobi.ivy\n# Two nodes sweep a grid of four rows of four cells four times, two rows each. \
A border of zeros lies around the\n# cells. In a sweep each cell becomes the sum of its four neighbo\
urs in the grid before, so there are two grids, which\n# change places. After each sweep a node adva\
nces count 1 and awaits that the other has, too: without that it could\n# read cells that are not ma\
de yet, or write over cells that the other still reads.\n# At first one cell, in a corner, is 1. Nod\
e 0 prints the last grid, row by row: in how many ways four steps lead from\n# that corner to each c\
ell.\nnode 0\nset r1 1            # one, and the count of halves that are swept\nset r2 8            \
# bytes of a cell\nset r3 48           # bytes of a row of six cells\nset r4 16           # the bloc\
k that has the addresses of the two grids\nalloc r6 r4\nset r4 288\nalloc r5 r4         # the grid t\
o come\nalloc r4 r4         # the grid as it is\nstore 8 r6 r4\nadd r6 r6 r2\nstore 8 r6 r5\nset r6 \
56           # the first cell within the border\nadd r6 r4 r6\nstore 8 r6 r1\nset r0 0\nadvance r0          \
# count 0: the grids are there\nset r6 4            # sweeps to go\nset r7 0            # halves tha\
t are swept when this sweep is done\nlabel sweep\nset r8 56           # this node's first cell: row \
1, column 1\nset r9 2            # rows to go\nlabel row\nset r10 4           # cells to go\nlabel c\
ell\nadd r11 r4 r8\nsub r12 r11 r2\nload 8 r13 r12      # left\nadd r12 r11 r2\nload 8 r14 r12      \
# right\nadd r13 r13 r14\nsub r12 r11 r3\nload 8 r14 r12      # above\nadd r13 r13 r14\nadd r12 r11 \
r3\nload 8 r14 r12      # below\nadd r13 r13 r14\nadd r12 r5 r8\nstore 8 r12 r13\nadd r8 r8 r2\nsub \
r10 r10 r1\njumpz r10 border\njump cell\nlabel border\nadd r8 r8 r2        # past the last cell of t\
his row and the first of the next\nadd r8 r8 r2\nsub r9 r9 r1\njumpz r9 swept\njump row\nlabel swept\
\nadvance r1\nadd r7 r7 r1\nadd r7 r7 r1\nawait r12 r1 r7     # until the other half is swept, too\n\
mov r12 r4          # the grids change places\nmov r4 r5\nmov r5 r12\nsub r6 r6 r1\njumpz r6 done\nj\
ump sweep\nlabel done\nset r8 56\nadd r8 r4 r8\nset r9 4            # rows to go\nlabel line\nset r1\
0 4           # cells to go\nlabel show\nload 8 r13 r8\nprint r13\nadd r8 r8 r2\nsub r10 r10 r1\njum\
pz r10 beside\njump show\nlabel beside\nadd r8 r8 r2\nadd r8 r8 r2\nsub r9 r9 r1\njumpz r9 end\njump \
line\nlabel end\nstop\n\nnode 1\nset r1 1\nset r2 8\nset r3 48\nset r0 0\nawait r6 r0 r1      # unti\
l the grids are there\nset r6 256          # the first block of all, where a page has 256 bytes\nloa\
d 8 r4 r6\nadd r6 r6 r2\nload 8 r5 r6\nset r6 4\nset r7 0\nlabel sweep\nset r8 152          # row 3, \
column 1\nset r9 2\nlabel row\nset r10 4\nlabel cell\nadd r11 r4 r8\nsub r12 r11 r2\nload 8 r13 r12\n\
add r12 r11 r2\nload 8 r14 r12\nadd r13 r13 r14\nsub r12 r11 r3\nload 8 r14 r12\nadd r13 r13 r14\nad\
d r12 r11 r3\nload 8 r14 r12\nadd r13 r13 r14\nadd r12 r5 r8\nstore 8 r12 r13\nadd r8 r8 r2\nsub r10 \
r10 r1\njumpz r10 border\njump cell\nlabel border\nadd r8 r8 r2\nadd r8 r8 r2\nsub r9 r9 r1\njumpz r\
9 swept\njump row\nlabel swept\nadvance r1\nadd r7 r7 r1\nadd r7 r7 r1\nawait r12 r1 r7\nmov r12 r4\n\
mov r4 r5\nmov r5 r12\nsub r6 r6 r1\njumpz r6 done\njump sweep\nlabel done\nstop\n",
};
