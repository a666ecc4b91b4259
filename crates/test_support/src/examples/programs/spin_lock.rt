//! The programs of `spin_lock.ivy`. `tools/texts` writes this file from `examples/`.

use crate::file::File;

/// The text of `spin_lock.ivy`.
pub const SPIN_LOCK: File = File {
    name: "spin_lock.ivy",
    text: "\
# ivy run spin_lock.ivy\n# Eight nodes each raise one number 100 times, under a lock: the word at 25\
6 is 1 while a node has the lock. A node\n# swaps 1 into it until it is given 0. Of several that try\
, one alone is given the 0 that another left. Who has the\n# lock loads the number, adds one and sto\
res it, and then stores 0 into the lock. So no raise is lost: node 0 awaits\n# that all have ended, \
and prints 800. The lock and the number lie in two pages.\nnode 0\nset r0 0            # free, and t\
he count of nodes that have ended\nset r1 1            # one, and taken\nset r2 256          # the l\
ock\nset r3 512          # the number\nset r4 100          # raises to go\nlabel raise\nswap 8 r5 r2 \
r1     # 0 where this node has it now\njumpz r5 taken\njump raise\nlabel taken\nload 8 r6 r3\nadd r6 \
r6 r1\nstore 8 r3 r6\nstore 8 r2 r0       # the lock is free\nsub r4 r4 r1\njumpz r4 end\njump raise\
\nlabel end\nadvance r0\nset r7 8            # so many nodes\nawait r7 r0 r7\nload 8 r6 r3\nprint r6\
\n\nnode 1\nset r0 0\nset r1 1\nset r2 256\nset r3 512\nset r4 100\nlabel raise\nswap 8 r5 r2 r1\nju\
mpz r5 taken\njump raise\nlabel taken\nload 8 r6 r3\nadd r6 r6 r1\nstore 8 r3 r6\nstore 8 r2 r0\nsub \
r4 r4 r1\njumpz r4 end\njump raise\nlabel end\nadvance r0\n\nnode 2\nset r0 0\nset r1 1\nset r2 256\n\
set r3 512\nset r4 100\nlabel raise\nswap 8 r5 r2 r1\njumpz r5 taken\njump raise\nlabel taken\nload \
8 r6 r3\nadd r6 r6 r1\nstore 8 r3 r6\nstore 8 r2 r0\nsub r4 r4 r1\njumpz r4 end\njump raise\nlabel e\
nd\nadvance r0\n\nnode 3\nset r0 0\nset r1 1\nset r2 256\nset r3 512\nset r4 100\nlabel raise\nswap \
8 r5 r2 r1\njumpz r5 taken\njump raise\nlabel taken\nload 8 r6 r3\nadd r6 r6 r1\nstore 8 r3 r6\nstor\
e 8 r2 r0\nsub r4 r4 r1\njumpz r4 end\njump raise\nlabel end\nadvance r0\n\nnode 4\nset r0 0\nset r1 \
1\nset r2 256\nset r3 512\nset r4 100\nlabel raise\nswap 8 r5 r2 r1\njumpz r5 taken\njump raise\nlab\
el taken\nload 8 r6 r3\nadd r6 r6 r1\nstore 8 r3 r6\nstore 8 r2 r0\nsub r4 r4 r1\njumpz r4 end\njump \
raise\nlabel end\nadvance r0\n\nnode 5\nset r0 0\nset r1 1\nset r2 256\nset r3 512\nset r4 100\nlabe\
l raise\nswap 8 r5 r2 r1\njumpz r5 taken\njump raise\nlabel taken\nload 8 r6 r3\nadd r6 r6 r1\nstore \
8 r3 r6\nstore 8 r2 r0\nsub r4 r4 r1\njumpz r4 end\njump raise\nlabel end\nadvance r0\n\nnode 6\nset \
r0 0\nset r1 1\nset r2 256\nset r3 512\nset r4 100\nlabel raise\nswap 8 r5 r2 r1\njumpz r5 taken\nju\
mp raise\nlabel taken\nload 8 r6 r3\nadd r6 r6 r1\nstore 8 r3 r6\nstore 8 r2 r0\nsub r4 r4 r1\njumpz \
r4 end\njump raise\nlabel end\nadvance r0\n\nnode 7\nset r0 0\nset r1 1\nset r2 256\nset r3 512\nset \
r4 100\nlabel raise\nswap 8 r5 r2 r1\njumpz r5 taken\njump raise\nlabel taken\nload 8 r6 r3\nadd r6 \
r6 r1\nstore 8 r3 r6\nstore 8 r2 r0\nsub r4 r4 r1\njumpz r4 end\njump raise\nlabel end\nadvance r0\n",
};
