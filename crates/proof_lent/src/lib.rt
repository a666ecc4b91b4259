//! Pages that are lent to programs: what these do by pointers, and their calls, are of one flat memory.
//!
//! All else here is definitions and lemmas.
#![tactic(auto)]

mod law;

pub use law::{lent_pages_are_flat, mapped_accesses_are_flat, numbers_are_turned};
