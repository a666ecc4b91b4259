//! The programs of `ticket_fadd.ivy`. `tools/texts` writes this file from `examples/`.

use crate::file::File;

/// The text of `ticket_fadd.ivy`.
pub const TICKET_FADD: File = File {
    name: "ticket_fadd.ivy",
    text: "\
# ivy run ticket_fadd.ivy\n# The number of ticket_lock.ivy again, which eight nodes each raise 100 t\
imes, with tickets that are drawn by a\n# fetch-and-add. The word at 256 is the next ticket: a fetch\
-and-add of 1 gives a node its ticket and leaves the one\n# after it, so no two nodes draw the same, \
and none has to draw again. Count 0 says whose turn it is, as there. Node 0\n# awaits the end of all \
turns, and prints 800.\nnode 0\nset r0 0            # the count of turns that are over\nset r1 1            \
# one\nset r2 256          # the next ticket\nset r3 512          # the number\nset r4 100          \
# raises to go\nlabel draw\nfadd 8 r6 r2 r1     # the ticket of this node\nawait r7 r0 r6      # unt\
il it is this node's turn\nload 8 r7 r3\nadd r7 r7 r1\nstore 8 r3 r7\nadvance r0          # the turn \
is over\nsub r4 r4 r1\njumpz r4 end\njump draw\nlabel end\nset r6 800          # so many turns\nawai\
t r7 r0 r6\nload 8 r7 r3\nprint r7\n\nnode 1\nset r0 0\nset r1 1\nset r2 256\nset r3 512\nset r4 100\
\nlabel draw\nfadd 8 r6 r2 r1\nawait r7 r0 r6\nload 8 r7 r3\nadd r7 r7 r1\nstore 8 r3 r7\nadvance r0\
\nsub r4 r4 r1\njumpz r4 end\njump draw\nlabel end\nstop\n\nnode 2\nset r0 0\nset r1 1\nset r2 256\n\
set r3 512\nset r4 100\nlabel draw\nfadd 8 r6 r2 r1\nawait r7 r0 r6\nload 8 r7 r3\nadd r7 r7 r1\nsto\
re 8 r3 r7\nadvance r0\nsub r4 r4 r1\njumpz r4 end\njump draw\nlabel end\nstop\n\nnode 3\nset r0 0\n\
set r1 1\nset r2 256\nset r3 512\nset r4 100\nlabel draw\nfadd 8 r6 r2 r1\nawait r7 r0 r6\nload 8 r7 \
r3\nadd r7 r7 r1\nstore 8 r3 r7\nadvance r0\nsub r4 r4 r1\njumpz r4 end\njump draw\nlabel end\nstop\n\
\nnode 4\nset r0 0\nset r1 1\nset r2 256\nset r3 512\nset r4 100\nlabel draw\nfadd 8 r6 r2 r1\nawait \
r7 r0 r6\nload 8 r7 r3\nadd r7 r7 r1\nstore 8 r3 r7\nadvance r0\nsub r4 r4 r1\njumpz r4 end\njump dr\
aw\nlabel end\nstop\n\nnode 5\nset r0 0\nset r1 1\nset r2 256\nset r3 512\nset r4 100\nlabel draw\nf\
add 8 r6 r2 r1\nawait r7 r0 r6\nload 8 r7 r3\nadd r7 r7 r1\nstore 8 r3 r7\nadvance r0\nsub r4 r4 r1\n\
jumpz r4 end\njump draw\nlabel end\nstop\n\nnode 6\nset r0 0\nset r1 1\nset r2 256\nset r3 512\nset \
r4 100\nlabel draw\nfadd 8 r6 r2 r1\nawait r7 r0 r6\nload 8 r7 r3\nadd r7 r7 r1\nstore 8 r3 r7\nadva\
nce r0\nsub r4 r4 r1\njumpz r4 end\njump draw\nlabel end\nstop\n\nnode 7\nset r0 0\nset r1 1\nset r2 \
256\nset r3 512\nset r4 100\nlabel draw\nfadd 8 r6 r2 r1\nawait r7 r0 r6\nload 8 r7 r3\nadd r7 r7 r1\
\nstore 8 r3 r7\nadvance r0\nsub r4 r4 r1\njumpz r4 end\njump draw\nlabel end\nstop\n",
};
