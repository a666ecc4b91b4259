//! Tests of the layers below a whole node, through their public calls.
//!
//! What the contracts say is proved, so these tests hold what no contract says: values of the worked examples, that a
//! call can succeed, and that a refused growth leaves all as it was.
//!
//! A helper ends its test where memory runs out and gives no `Err` back, since each `?` is a way out of the test that
//! has to be proved too.
#![tactic(auto)]

#[cfg(test)]
mod alloc;
#[cfg(test)]
mod coherence;
#[cfg(test)]
mod common;
#[cfg(test)]
mod dynamic;
#[cfg(test)]
mod ether;
#[cfg(test)]
mod event;
#[cfg(test)]
mod fixed;
#[cfg(test)]
mod foreign;
#[cfg(test)]
mod growths;
#[cfg(test)]
mod heap;
#[cfg(test)]
mod held;
#[cfg(test)]
mod letters;
#[cfg(test)]
mod link;
#[cfg(test)]
mod managers;
#[cfg(test)]
mod memory;
#[cfg(test)]
mod model;
#[cfg(test)]
mod node_manager;
#[cfg(test)]
mod pagetable;
#[cfg(test)]
mod posted;
#[cfg(test)]
mod program;
#[cfg(test)]
mod wide;
#[cfg(test)]
mod wire;
