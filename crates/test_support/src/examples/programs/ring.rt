//! The programs of `ring.ivy`. `tools/texts` writes this file from `examples/`.

use crate::file::File;

/// The text of `ring.ivy`.
pub const RING: File = File {
    name: "ring.ivy",
    text: "\
# ivy run ring.ivy\n# A token, the word at 256, goes round a ring of three nodes. Count I says how o\
ften node I was given it. Each\n# node awaits its own count, prints the token, adds one to it and ad\
vances the count of the next node.\n# The token numbers the times it was held: each node prints ever\
y third number, and none stands twice.\nnode 0\nset r0 0            # the count of this node\nset r1 \
1            # the count of the next node\nset r2 256          # the token\nset r3 1            # on\
e\nset r4 0            # how often this node was given the token\nset r5 3            # laps to go\n\
advance r0          # the token is here at first\nlabel lap\nadd r4 r4 r3\nawait r6 r0 r4      # unt\
il it is here again\nload 8 r7 r2\nprint r7\nadd r7 r7 r3\nstore 8 r2 r7\nadvance r1          # the \
next node has it\nsub r5 r5 r3\njumpz r5 end\njump lap\nlabel end\nstop\n\nnode 1\nset r0 1\nset r1 \
2\nset r2 256\nset r3 1\nset r4 0\nset r5 3\nlabel lap\nadd r4 r4 r3\nawait r6 r0 r4\nload 8 r7 r2\n\
print r7\nadd r7 r7 r3\nstore 8 r2 r7\nadvance r1\nsub r5 r5 r3\njumpz r5 end\njump lap\nlabel end\n\
stop\n\nnode 2\nset r0 2\nset r1 0\nset r2 256\nset r3 1\nset r4 0\nset r5 3\nlabel lap\nadd r4 r4 r\
3\nawait r6 r0 r4\nload 8 r7 r2\nprint r7\nadd r7 r7 r3\nstore 8 r2 r7\nadvance r1\nsub r5 r5 r3\nju\
mpz r5 end\njump lap\nlabel end\nstop\n",
};
