//! The pages of one node: their bytes, the states of an entry, and the laws of page managers.
//!
//! Numbers in brackets, as [1], at the end of what a call does are those of the faults that the call may answer
//! (`ivy_model`'s `Fault`). A call without brackets answers none.
#![tactic(auto)]

mod access;
mod await_acks;
mod await_write;
mod entry;
mod idle;
mod lent;
mod manager;
mod node_set;
mod node_table;
mod page;
mod put_off;
mod row;
mod waiting;
mod wide_table;
mod word;

pub use access::Access;
pub use await_acks::AwaitAcks;
pub use await_write::AwaitWrite;
pub use entry::Entry;
pub use idle::Idle;
pub use lent::LentEntry;
pub use manager::Manager;
pub use node_set::NodeSet;
pub use node_table::{NodeTable, PageTable};
pub use page::Page;
pub use put_off::{PutOff, Request};
pub use waiting::Waiting;
pub use wide_table::WideTable;
pub use word::{Out, Word};
