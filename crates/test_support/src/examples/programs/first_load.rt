//! The programs of `first_load.ivy`. `tools/texts` writes this file from `examples/`.

use crate::file::File;

/// The text of `first_load.ivy`.
pub const FIRST_LOAD: File = File {
    name: "first_load.ivy",
    text: "\
# Node 1 loads a word that nobody wrote. Its page lies at node 0, so a copy is fetched.\nnode 0\n\nn\
ode 1\nset r1 256          # the first word after page 0, where a page has 256 bytes\nload 8 r2 r1\n\
print r2\n",
};
