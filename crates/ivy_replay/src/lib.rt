//! Worlds played move by move: the order that explains a run, shorter schedules, the search.
//!
//! In a comment, numbers in brackets as [1, 17] are the fault numbers that a call may answer.
#![tactic(auto)]

mod by_pasts;
mod draws;
mod explanation;
mod exploring;
mod image;
mod named;
mod order;
mod play;
mod progress;
mod searches;
mod shorter;
mod states;
mod text;
mod ways;
mod world;

pub use draws::drawn_moves;
pub use explanation::explains;
pub use named::Named;
pub use order::order_of;
pub use play::{Play, seen};
pub use progress::{Progress, Silence};
pub use searches::{Found, Goal, Limit, search};
pub use shorter::{Shorter, shortened};
pub use text::Text;
pub use world::{call_in_progress, ended_in, history_of, output_of};
