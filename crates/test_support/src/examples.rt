//! The texts of the folder `examples/`, with a module for each kind of file. `tools/texts` writes these modules.

pub mod orders;
pub mod outputs;
pub mod programs;
pub mod schedules;
mod traces;
