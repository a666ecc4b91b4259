//! The programs of `ticket_lock.ivy`. `tools/texts` writes this file from `examples/`.

use crate::file::File;

/// The text of `ticket_lock.ivy`.
pub const TICKET_LOCK: File = File {
    name: "ticket_lock.ivy",
    text: "\
# ivy run ticket_lock.ivy\n# The number of spin_lock.ivy again, which eight nodes each raise 100 tim\
es, with tickets. The word at 256 is the\n# next ticket. A node swaps a mark into it that is no tick\
et, until it is given one, and then stores the ticket after\n# that. Count 0 says whose turn it is: \
a node awaits its ticket there, raises the number and advances the count. So\n# the nodes have their \
turns in the order in which they drew. Node 0 awaits the end of all turns, and prints 800.\nnode 0\n\
set r0 0            # the count of turns that are over\nset r1 1            # one\nset r2 256          \
# the next ticket\nset r3 512          # the number\nset r4 100          # raises to go\nsub r5 r0 r\
1        # the mark, 2^64 - 1\nlabel draw\nswap 8 r6 r2 r5\nsub r7 r6 r5\njumpz r7 draw       # anot\
her node has just drawn\nadd r7 r6 r1\nstore 8 r2 r7       # the ticket for the next who draws\nawai\
t r7 r0 r6      # until it is this node's turn\nload 8 r7 r3\nadd r7 r7 r1\nstore 8 r3 r7\nadvance r\
0          # the turn is over\nsub r4 r4 r1\njumpz r4 end\njump draw\nlabel end\nset r6 800          \
# so many turns\nawait r7 r0 r6\nload 8 r7 r3\nprint r7\n\nnode 1\nset r0 0\nset r1 1\nset r2 256\ns\
et r3 512\nset r4 100\nsub r5 r0 r1\nlabel draw\nswap 8 r6 r2 r5\nsub r7 r6 r5\njumpz r7 draw\nadd r\
7 r6 r1\nstore 8 r2 r7\nawait r7 r0 r6\nload 8 r7 r3\nadd r7 r7 r1\nstore 8 r3 r7\nadvance r0\nsub r\
4 r4 r1\njumpz r4 end\njump draw\nlabel end\nstop\n\nnode 2\nset r0 0\nset r1 1\nset r2 256\nset r3 \
512\nset r4 100\nsub r5 r0 r1\nlabel draw\nswap 8 r6 r2 r5\nsub r7 r6 r5\njumpz r7 draw\nadd r7 r6 r\
1\nstore 8 r2 r7\nawait r7 r0 r6\nload 8 r7 r3\nadd r7 r7 r1\nstore 8 r3 r7\nadvance r0\nsub r4 r4 r\
1\njumpz r4 end\njump draw\nlabel end\nstop\n\nnode 3\nset r0 0\nset r1 1\nset r2 256\nset r3 512\ns\
et r4 100\nsub r5 r0 r1\nlabel draw\nswap 8 r6 r2 r5\nsub r7 r6 r5\njumpz r7 draw\nadd r7 r6 r1\nsto\
re 8 r2 r7\nawait r7 r0 r6\nload 8 r7 r3\nadd r7 r7 r1\nstore 8 r3 r7\nadvance r0\nsub r4 r4 r1\njum\
pz r4 end\njump draw\nlabel end\nstop\n\nnode 4\nset r0 0\nset r1 1\nset r2 256\nset r3 512\nset r4 \
100\nsub r5 r0 r1\nlabel draw\nswap 8 r6 r2 r5\nsub r7 r6 r5\njumpz r7 draw\nadd r7 r6 r1\nstore 8 r\
2 r7\nawait r7 r0 r6\nload 8 r7 r3\nadd r7 r7 r1\nstore 8 r3 r7\nadvance r0\nsub r4 r4 r1\njumpz r4 \
end\njump draw\nlabel end\nstop\n\nnode 5\nset r0 0\nset r1 1\nset r2 256\nset r3 512\nset r4 100\ns\
ub r5 r0 r1\nlabel draw\nswap 8 r6 r2 r5\nsub r7 r6 r5\njumpz r7 draw\nadd r7 r6 r1\nstore 8 r2 r7\n\
await r7 r0 r6\nload 8 r7 r3\nadd r7 r7 r1\nstore 8 r3 r7\nadvance r0\nsub r4 r4 r1\njumpz r4 end\nj\
ump draw\nlabel end\nstop\n\nnode 6\nset r0 0\nset r1 1\nset r2 256\nset r3 512\nset r4 100\nsub r5 \
r0 r1\nlabel draw\nswap 8 r6 r2 r5\nsub r7 r6 r5\njumpz r7 draw\nadd r7 r6 r1\nstore 8 r2 r7\nawait \
r7 r0 r6\nload 8 r7 r3\nadd r7 r7 r1\nstore 8 r3 r7\nadvance r0\nsub r4 r4 r1\njumpz r4 end\njump dr\
aw\nlabel end\nstop\n\nnode 7\nset r0 0\nset r1 1\nset r2 256\nset r3 512\nset r4 100\nsub r5 r0 r1\n\
label draw\nswap 8 r6 r2 r5\nsub r7 r6 r5\njumpz r7 draw\nadd r7 r6 r1\nstore 8 r2 r7\nawait r7 r0 r\
6\nload 8 r7 r3\nadd r7 r7 r1\nstore 8 r3 r7\nadvance r0\nsub r4 r4 r1\njumpz r4 end\njump draw\nlab\
el end\nstop\n",
};
