//! The programs of `producer_consumer.ivy`. `tools/texts` writes this file from `examples/`.

use crate::file::File;

/// The text of `producer_consumer.ivy`.
pub const PRODUCER_CONSUMER: File = File {
    name: "producer_consumer.ivy",
    text: "\
# ivy run producer_consumer.ivy\n# Node 0 makes the squares of 1 to 10 and node 1 prints them, throu\
gh a buffer of four words. Count 0 says how\n# many words were put, count 1 how many places were giv\
en: four at first, then one for each word taken.\n# Each node awaits what it needs, so no word is wr\
itten over before it was read, and they come in order.\nnode 0\nset r0 0            # the count of w\
ords put\nset r1 1            # the count of places given\nset r2 256          # the place of the ne\
xt word\nset r3 288          # past the four places\nset r4 8            # bytes of a place\nset r5 \
1            # one\nset r6 0            # the number of the word\nset r7 10           # words to go\n\
label next\nadd r6 r6 r5\nawait r8 r1 r6      # until its place is given\nmul r9 r6 r6\nstore 8 r2 r\
9\nadvance r0          # it is put\nadd r2 r2 r4\nsub r8 r2 r3\njumpz r8 first\njump on\nlabel first\
\nset r2 256          # after the last place comes the first\nlabel on\nsub r7 r7 r5\njumpz r7 end\n\
jump next\nlabel end\nstop\n\nnode 1\nset r0 0\nset r1 1\nset r2 256\nset r3 288\nset r4 8\nset r5 1\
\nset r6 0\nset r7 10\nadvance r1          # the buffer is empty: four places are given\nadvance r1\n\
advance r1\nadvance r1\nlabel next\nadd r6 r6 r5\nawait r8 r0 r6      # until the word is put\nload \
8 r9 r2\nprint r9\nadvance r1          # its place is given again\nadd r2 r2 r4\nsub r8 r2 r3\njumpz \
r8 first\njump on\nlabel first\nset r2 256\nlabel on\nsub r7 r7 r5\njumpz r7 end\njump next\nlabel e\
nd\nstop\n",
};
