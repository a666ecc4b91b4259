//! The programs of `barrier.ivy`. `tools/texts` writes this file from `examples/`.

use crate::file::File;

/// The text of `barrier.ivy`.
pub const BARRIER: File = File {
    name: "barrier.ivy",
    text: "\
# ivy run barrier.ivy\n# A barrier of four nodes by one count. Each node stores a word of its own, a\
dvances count 0 and awaits 4.\n# The count is 4 only once all four have stored, so each node then lo\
ads what the next one stored.\n# Without the await a node could load the next one's word too early, \
and print 0.\nnode 0\nset r0 0            # the count\nset r1 4            # so many nodes\nset r2 2\
56          # this node's word, of page 1, where a page has 256 bytes\nset r3 264          # the nex\
t node's word\nset r4 10\nstore 8 r2 r4\nadvance r0\nawait r5 r0 r1      # until all have stored\nlo\
ad 8 r6 r3\nprint r6\n\nnode 1\nset r0 0\nset r1 4\nset r2 264\nset r3 272\nset r4 20\nstore 8 r2 r4\
\nadvance r0\nawait r5 r0 r1\nload 8 r6 r3\nprint r6\n\nnode 2\nset r0 0\nset r1 4\nset r2 272\nset \
r3 280\nset r4 30\nstore 8 r2 r4\nadvance r0\nawait r5 r0 r1\nload 8 r6 r3\nprint r6\n\nnode 3\nset \
r0 0\nset r1 4\nset r2 280\nset r3 256\nset r4 40\nstore 8 r2 r4\nadvance r0\nawait r5 r0 r1\nload 8 \
r6 r3\nprint r6\n",
};
