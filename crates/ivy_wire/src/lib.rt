//! Messages and frames, their one spelling as bytes, and the trait of whatever sends messages.
//!
//! A [`Frame`] carries at most one [`Message`]. [`encode`] writes it as a string of bytes, the one that spells it.
//! [`read_frame`] and [`decode`] read exactly these strings: the page of what [`read_frame`] gives is lent from the string, and
//! [`decode`] copies it.
//!
//! Numbers in brackets at the end of a sentence, as in `[1, 11 to 16]`, are those of the faults that a call may answer
//! ([`ivy_model::Fault::number`]).
#![tactic(auto)]

mod bytes;
mod frame;
mod grammar;
mod page;
mod parcel;
mod reading;
mod writing;

pub use bytes::Bytes;
pub use frame::{Content, Frame, FrameKind, Message};
pub use grammar::grammar_is_prefix_free;
pub use page::OwnedPage;
pub use parcel::{Parcel, Post, parcel_to, post_one};
pub use reading::{decode, destination, head_of, message_of, read_frame};
pub use writing::{encode, string_of};
