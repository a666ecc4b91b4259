//! Sessions of own code: the work of each node in a thread of its own, and the report of all.
//!
//! A node's work makes its calls one at a time, each by the node's own site, which stands behind the node's lock as in
//! a session of programs. What a worker was answered is its site's history, though neither keeps a list of it for the
//! other: two halves of a list that exists in proofs alone tie them ([`tie::Tie`]). Words in a row that are at hand are
//! read or written with the lock taken once; where the first is not, those of its page wait for the page together. Each
//! of them is a call of its own in that list.
//!
//! In a comment, numbers in brackets as [1, 17] are the fault numbers that a call may answer.
//!
//! Lists that exist in proofs alone, each known whole to two halves, of which neither can change it without the other.
//!
//! One half lies under a lock, beside what the list is of, and the other is in the hands of a thread. Nothing is known
//! of a value that was behind a lock but its type's invariant; but what the half that was there knows, the thread's
//! half knows too ([`Tie::agree`]), and where the list grew, both grew ([`Tie::push`], [`Tie::push_told`]). So a
//! handle's answers are its site's history, and no list is kept. A half has no bytes, and a step of it is three loads
//! of one word that is never written. No step fails.
//!
//! It stands on the kit's `atomic_table`: a table of one word serves all lists of a session, and what a pass of it
//! knows is a half (`specs/Known.antt`). The rule that every step keeps is in `specs/Rule.antt`.
#![tactic(auto)]

mod fault;
mod joined;
mod known;
mod memory;
mod owned;
mod places;
mod report;
mod session;
mod tie;
mod workers;

pub use fault::OwnFault;
pub use ivy_calls::{Answer, SharedMemory, Work};
pub use ivy_session::{Gate, Keep, Limits, OpenGate, Opening, Report, Role};
pub(crate) use known::{Tells, View};
pub use report::OwnReport;
pub use session::{collect, run_with, run_with_keeping, run_with_opening};

// what watched sessions have in common with these
pub use joined::{Ended, GivenUp, first_given_up, take_ended};
pub use known::Naming;
pub use owned::{OwnSeat, Owned};
pub use places::{Places, WorkedPlaces, place_all};
pub use tie::{Half, Opened, Side, Starter, Tie};
pub use workers::run_crew;
