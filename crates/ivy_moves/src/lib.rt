//! Events and histories, and the definitions of node event, world, FIFO world and parts of a run.
//!
//! The definitions of the node event and of the world stand in `specs/`, over any core: they know of links and strings,
//! and nothing of pages.
#![tactic(auto)]

mod event;
mod keep;
mod laws;
mod moves;
mod note;
mod same;
mod story;

pub use event::{Event, Events, History};
pub use keep::Keep;
pub use laws::{events_carry_over, parts_go_on, runs_are_their_parts, runs_carry_over};
pub use moves::Move;
