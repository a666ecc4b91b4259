//! Programs of own code, most with a theorem: sums, farms, pipelines, roll calls, turns, locks, matrices, an election.
//!
//! They are written to be read: `docs/PROGRAMS.md` goes through one of them.
//!
//! They name the public surface alone, as a user's programs do. A theorem holds of every order that explains what the
//! nodes were answered. Most follow from a law of `ivy_sync`.
//!
//! `crates/test_own` runs each in the threads of a session.
#![tactic(auto)]

mod adds_up;
mod election;
mod farm;
mod highest;
mod in_order;
mod law;
mod made_lock;
mod matrix;
mod peterson;
mod pipeline;
mod product;
mod readers_writer;
mod rings;
mod roll_call;
mod trees;
mod turns;
mod work_queue;

pub use adds_up::AddsUp;
pub use election::{Election, all_name_one, elect};
pub use farm::Farm;
pub use highest::Highest;
pub use in_order::InOrder;
pub use law::{
    all_are_called, all_are_counted, all_hear_node_0, all_name_the_highest,
    all_name_the_highest_by_tree, all_read_the_sum, each_job_once, made_locks_exclude,
    one_place_at_a_time, one_ticket_at_a_time, one_turn_at_a_time, pipelines_map, products_by_rows,
    tree_rings_meet, tree_rings_turn, word_rings_meet, word_rings_turn,
};
pub use made_lock::MadeLock;
pub use matrix::Matrices;
pub use peterson::{Peterson, TwoCount, count, no_two_inside, none_is_lost};
pub use pipeline::{Pipeline, Stage};
pub use product::Product;
pub use readers_writer::{Ledger, ReadersWriter};
pub use rings::{TreeRing, WordRing};
pub use roll_call::RollCall;
pub use trees::{Herald, HighestByTree};
pub use turns::{ByNumbers, ByTickets};
pub use work_queue::{Squares, WorkQueue};
