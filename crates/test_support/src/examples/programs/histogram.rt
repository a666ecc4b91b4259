//! The programs of `histogram.ivy`. `tools/texts` writes this file from `examples/`.

use crate::file::File;

/// The text of `histogram.ivy`.
pub const HISTOGRAM: File = File {
    name: "histogram.ivy",
    text: "\
# ivy run histogram.ivy\n# Three nodes count the first 24 digits of pi. Each node has eight of them, \
as the bytes of one word, and\n# advances count D for each digit D. An advance reads, adds and write\
s in one step, so none is lost.\n# At its end each node advances count 31. Node 0 awaits that it is \
3, and prints how often each digit stands.\nnode 0\nset r0 256          # the word, in a page of thi\
s node's own\nset r1 216458659516449286   # the bytes 3 1 4 1 5 9 2 6\nstore 8 r0 r1\nset r2 1            \
# one\nset r3 8            # digits to go\nlabel digit\nload 1 r4 r0        # the next digit\nadvanc\
e r4          # its bucket\nadd r0 r0 r2\nsub r3 r3 r2\njumpz r3 done\njump digit\nlabel done\nset r\
5 31           # the count of nodes that are done\nadvance r5\nset r6 3\nawait r7 r5 r6      # until \
all are done\nset r4 0            # the first bucket\nset r3 10           # buckets to go\nlabel buc\
ket\ncount r7 r4\nprint r7\nadd r4 r4 r2\nsub r3 r3 r2\njumpz r3 end\njump bucket\nlabel end\nstop\n\
\nnode 1\nset r0 512\nset r1 361137927189104899   # the bytes 5 3 5 8 9 7 9 3\nstore 8 r0 r1\nset r2 \
1\nset r3 8\nlabel digit\nload 1 r4 r0\nadvance r4\nadd r0 r0 r2\nsub r3 r3 r2\njumpz r3 done\njump \
digit\nlabel done\nset r5 31\nadvance r5\n\nnode 2\nset r0 768\nset r1 144968426379675140   # the by\
tes 2 3 8 4 6 2 6 4\nstore 8 r0 r1\nset r2 1\nset r3 8\nlabel digit\nload 1 r4 r0\nadvance r4\nadd r\
0 r0 r2\nsub r3 r3 r2\njumpz r3 done\njump digit\nlabel done\nset r5 31\nadvance r5\n",
};
