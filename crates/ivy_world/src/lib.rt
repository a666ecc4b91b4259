//! All nodes and every frame ever sent, as one value whose moves a single caller makes.
//!
//! In a comment, numbers in brackets as [1, 17] are the fault numbers that a call may answer.
#![tactic(auto)]

mod rest;
mod round;
mod world;

pub use ivy_moves::{Keep, Move};
pub use ivy_site::{Opening, Program, Site, Turn, Verdict, parse};
pub use rest::Rest;
pub use world::World;
