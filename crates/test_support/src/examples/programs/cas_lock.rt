//! The programs of `cas_lock.ivy`. `tools/texts` writes this file from `examples/`.

use crate::file::File;

/// The text of `cas_lock.ivy`.
pub const CAS_LOCK: File = File {
    name: "cas_lock.ivy",
    text: "\
# ivy run cas_lock.ivy\n# The number of spin_lock.ivy again, which eight nodes each raise 100 times, \
under a lock that is taken by a\n# compare-and-swap: the word at 256 is 1 while a node has the lock. \
A node loads it until it is 0, which it does from a\n# copy of its own, and then puts 1 in the place \
of 0. Of several that try, one alone finds the 0. Who has the lock\n# raises the number, and stores \
0 into the lock. Node 0 awaits that all have ended, and prints 800.\nnode 0\nset r0 0            # f\
ree, and the count of nodes that have ended\nset r1 1            # one, and taken\nset r2 256          \
# the lock\nset r3 512          # the number\nset r4 100          # raises to go\nlabel raise\nload \
8 r5 r2\njumpz r5 free\njump raise          # another node has it\nlabel free\ncas 8 r5 r2 r0 r1   # \
0 where this node has it now\njumpz r5 taken\njump raise\nlabel taken\nload 8 r6 r3\nadd r6 r6 r1\ns\
tore 8 r3 r6\nstore 8 r2 r0       # the lock is free\nsub r4 r4 r1\njumpz r4 end\njump raise\nlabel \
end\nadvance r0\nset r7 8            # so many nodes\nawait r7 r0 r7\nload 8 r6 r3\nprint r6\n\nnode \
1\nset r0 0\nset r1 1\nset r2 256\nset r3 512\nset r4 100\nlabel raise\nload 8 r5 r2\njumpz r5 free\n\
jump raise\nlabel free\ncas 8 r5 r2 r0 r1\njumpz r5 taken\njump raise\nlabel taken\nload 8 r6 r3\nad\
d r6 r6 r1\nstore 8 r3 r6\nstore 8 r2 r0\nsub r4 r4 r1\njumpz r4 end\njump raise\nlabel end\nadvance \
r0\n\nnode 2\nset r0 0\nset r1 1\nset r2 256\nset r3 512\nset r4 100\nlabel raise\nload 8 r5 r2\njum\
pz r5 free\njump raise\nlabel free\ncas 8 r5 r2 r0 r1\njumpz r5 taken\njump raise\nlabel taken\nload \
8 r6 r3\nadd r6 r6 r1\nstore 8 r3 r6\nstore 8 r2 r0\nsub r4 r4 r1\njumpz r4 end\njump raise\nlabel e\
nd\nadvance r0\n\nnode 3\nset r0 0\nset r1 1\nset r2 256\nset r3 512\nset r4 100\nlabel raise\nload \
8 r5 r2\njumpz r5 free\njump raise\nlabel free\ncas 8 r5 r2 r0 r1\njumpz r5 taken\njump raise\nlabel \
taken\nload 8 r6 r3\nadd r6 r6 r1\nstore 8 r3 r6\nstore 8 r2 r0\nsub r4 r4 r1\njumpz r4 end\njump ra\
ise\nlabel end\nadvance r0\n\nnode 4\nset r0 0\nset r1 1\nset r2 256\nset r3 512\nset r4 100\nlabel \
raise\nload 8 r5 r2\njumpz r5 free\njump raise\nlabel free\ncas 8 r5 r2 r0 r1\njumpz r5 taken\njump \
raise\nlabel taken\nload 8 r6 r3\nadd r6 r6 r1\nstore 8 r3 r6\nstore 8 r2 r0\nsub r4 r4 r1\njumpz r4 \
end\njump raise\nlabel end\nadvance r0\n\nnode 5\nset r0 0\nset r1 1\nset r2 256\nset r3 512\nset r4 \
100\nlabel raise\nload 8 r5 r2\njumpz r5 free\njump raise\nlabel free\ncas 8 r5 r2 r0 r1\njumpz r5 t\
aken\njump raise\nlabel taken\nload 8 r6 r3\nadd r6 r6 r1\nstore 8 r3 r6\nstore 8 r2 r0\nsub r4 r4 r\
1\njumpz r4 end\njump raise\nlabel end\nadvance r0\n\nnode 6\nset r0 0\nset r1 1\nset r2 256\nset r3 \
512\nset r4 100\nlabel raise\nload 8 r5 r2\njumpz r5 free\njump raise\nlabel free\ncas 8 r5 r2 r0 r1\
\njumpz r5 taken\njump raise\nlabel taken\nload 8 r6 r3\nadd r6 r6 r1\nstore 8 r3 r6\nstore 8 r2 r0\n\
sub r4 r4 r1\njumpz r4 end\njump raise\nlabel end\nadvance r0\n\nnode 7\nset r0 0\nset r1 1\nset r2 \
256\nset r3 512\nset r4 100\nlabel raise\nload 8 r5 r2\njumpz r5 free\njump raise\nlabel free\ncas 8 \
r5 r2 r0 r1\njumpz r5 taken\njump raise\nlabel taken\nload 8 r6 r3\nadd r6 r6 r1\nstore 8 r3 r6\nsto\
re 8 r2 r0\nsub r4 r4 r1\njumpz r4 end\njump raise\nlabel end\nadvance r0\n",
};
