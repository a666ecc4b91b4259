//! Own code under drawn or listed schedules: plays, failing seeds, and shorter schedules.
//!
//! A call of a node's work waits until the moves have given its node the turn that answers it. So a run is a function
//! of its seed or its schedule, and one that failed can be played again, move by move.
//!
//! In a comment, numbers in brackets as [1, 17] are the fault numbers that a call may answer.
//!
//! Own code by many seeds: the first one whose play fails a check, and a short schedule that fails it too.
#![tactic(auto)]

mod ahead;
mod baton;
mod budget;
mod checks;
mod close;
mod driver;
mod handed;
mod joined;
mod memory;
mod named_moves;
mod play;
mod report;
mod rested;
mod seed_plays;
mod shorter;
mod source;
mod stage;
mod together;
mod workers;

pub use checks::Check;
pub use ivy_calls::{Answer, SharedMemory, Work};
pub use ivy_world::{Move, Opening, Rest, World};
pub use play::{play_drawn, play_drawn_opening, play_listed, play_with, play_with_opening};
pub use report::{Outcome, PlayReport, Schedule, Standing};
pub use seed_plays::{Failing, Seeds, play_all, play_all_opening};
pub use shorter::{ShorterPlay, shortest};
pub use source::{Drawn, Listed, MoveSource};
