//! Every public name, used as a crate above uses it: a changed surface does not compile.
//!
//! What these calls do is proved where they stand, and tested in `test_layers`, `test_nodes` and `test_programs`. Here
//! a literal names all fields of a struct, a match all variants of an enum and an impl all methods of a trait, so a
//! field, a variant or a method more does not compile; and each call is made once, with the arguments that it takes. A
//! variant of `Call`, of `Word` or of the instructions may be added, with its arm here.
//!
//! A crate of one's own names the crates of the surface in `crates.txt` by themselves. This one cites some by a crate
//! above them, which hands them on.
#![tactic(auto)]

#[cfg(test)]
mod common;
#[cfg(test)]
mod draws;
#[cfg(test)]
mod ether;
#[cfg(test)]
mod layers;
#[cfg(test)]
mod library;
#[cfg(test)]
mod link;
#[cfg(test)]
mod managers;
#[cfg(test)]
mod memory;
#[cfg(test)]
mod model;
#[cfg(test)]
mod nodes;
#[cfg(test)]
mod posts;
#[cfg(test)]
mod program;
#[cfg(test)]
mod sessions;
#[cfg(test)]
mod wire;
