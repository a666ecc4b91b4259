//! Locks, barriers, queues, reductions and broadcasts over shared memory, with laws to reason by.
#![tactic(auto)]

mod array_lock;
mod barrier;
mod broadcast;
mod cleared;
mod error;
mod law;
mod lock;
mod look;
mod once;
mod queue;
mod reduction;
mod shared_sender;
mod ticket_lock;
mod touching;
mod tree_barrier;
mod tree_reduction;
mod word_barrier;

pub use array_lock::ArrayLock;
pub use barrier::Barrier;
pub use broadcast::Broadcast;
pub use error::SyncError;
pub use law::{
    array_locks_exclude, array_sections_are_serial, barrier_separates, broadcasts_arrive,
    left_locks_are_free, messages_pass, mutual_exclusion, phases_share, queues_keep_order,
    reductions_agree, sections_are_serial, set_up_is_there, shared_queues_keep_order,
    sums_are_whole, ticket_locks_exclude, tickets_exclude, touches_keep, tree_barrier_separates,
    tree_folds_are_whole, tree_phases_share, tree_reductions_agree, word_barrier_separates,
    word_phases_share, words_are_registers,
};
pub use lock::Lock;
pub use once::Once;
pub use queue::{Queue, Receiver, Sender};
pub use reduction::Reduction;
pub use shared_sender::SharedSender;
pub use ticket_lock::TicketLock;
pub use touching::touch;
pub use tree_barrier::TreeBarrier;
pub use tree_reduction::TreeReduction;
pub use word_barrier::WordBarrier;
