//! The programs of `four_advances.ivy`. `tools/texts` writes this file from `examples/`.

use crate::file::File;

/// The text of `four_advances.ivy`.
pub const FOUR_ADVANCES: File = File {
    name: "four_advances.ivy",
    text: "\
# ivy run four_advances.ivy\n# Two nodes each advance count 0 twice. An advance reads, adds and writ\
es in one step, so none of the four is\n# lost, wherever the page is. Node 0 awaits 4, counts again \
and prints: 4, since no more advances come.\n# `stress/run seeds` also runs it under drawn moves.\nn\
ode 0\nset r0 0            # the count\nset r1 4\nawait r2 r0 r1\ncount r3 r0\nprint r3\n\nnode 1\ns\
et r0 0\nadvance r0\nadvance r0\n\nnode 2\nset r0 0\nadvance r0\nadvance r0\n",
};
