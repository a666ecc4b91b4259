//! Tests of the commands of `ivyscope`: what each prints, as tables.
//!
//! The commands promise nothing of their texts but of `order`, so these tests have an example of each.

mod common;
mod runs;
mod searches;
mod texts;
