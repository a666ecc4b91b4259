//! A node's links: numbers, acknowledgements, retransmission, and the frames that wait to be sent.
//!
//! A [`Link`] numbers the messages that its node sends each other one and keeps them until they are acknowledged, tells
//! by its [`Verdict`] which frames carry the next message, and sends what is kept again. The strings of frames that
//! came before their turn it can hold until those before them have come. So each node is given the messages of another
//! one in the order in which they were sent, each once ([`delivers_in_order`]). An [`Outbox`] is a link with the strings
//! of the frames that wait to be put on the wire.
//!
//! Numbers in brackets at the end of a sentence, as in `[1, 17]`, are those of the faults that a call may answer
//! ([`ivy_model::Fault::number`]).
#![tactic(auto)]

mod counts;
mod kept;
mod link;
mod order;
mod outbox;
mod verdict;
mod window;

pub use counts::Counts;
pub use link::{Link, MOST_AGAIN};
pub use order::delivers_in_order;
pub use outbox::Outbox;
pub use verdict::Verdict;
pub use window::MOST_AHEAD;
