//! The crate to name for your own program: nodes, worlds, sessions, plays, calls, synchronization.
//!
//! It has no function of its own. A node and its turns stand in `ivy_site`, nodes whose moves a caller makes one by one in
//! `ivy_world`, what a session is made of in `ivy_ether` and `ivy_seating`, and nodes that run in threads in `ivy_session`
//! and `ivy_own`. [`World::run`] makes given moves, [`Session::run`] runs each program in threads of its own until all have
//! ended, [`run_with`] so a function of one's own at each node, and [`play_all`] plays that function by many seeds. The
//! first two take what [`parse`] gives, and all a `Config` of `ivy_model`.
//!
//! Contracts cite the definitions of a crate by `Rattle.ivy_node.specs` and its name, as `ivy_world`.
#![tactic(auto)]

// a node: its program's turns, its deliveries and its pulses, and what of them its event list has
pub use ivy_ether::{Event, Events};
pub use ivy_world::{Program, Site, Turn, Verdict, parse};

// a world: nodes, and all strings that they sent
pub use ivy_world::{Move, Opening, Rest, World};

// a session: seated nodes, and what is reported of their turns
pub use ivy_session::{Gate, Limits, OpenGate, Report, Role, Seated, Session, WireTurn};

// own code: what a node's function is given, and the calls that it makes
pub use ivy_calls::{
    Answer, CallError, SharedMemory, SharedWord, Work, advance_count, alloc, await_, cas,
    fetch_add, fill, free, load, read_count, read_into, store, swap, write_from,
};

// own code in a session of threads, and what all of its nodes gave
pub use ivy_own::{OwnFault, OwnReport, run_with, run_with_keeping, run_with_opening};

// the same, which ends where it stands still, and says so
pub use ivy_watching::{OwnStandstill, Watched, run_watching, run_watching_opening};

// own code under drawn schedules
pub use ivy_play::{
    Check, PlayReport, Seeds, play_all, play_all_opening, play_drawn, play_drawn_opening,
    play_listed, play_with_opening, shortest,
};

// the crates that these stand in, for what else they have
pub use ivy_calls;
pub use ivy_ether;
pub use ivy_own;
pub use ivy_play;
pub use ivy_session;
pub use ivy_sync;
pub use ivy_watching;
pub use ivy_world;
