//! One node as a value in the numbers of other languages: calls by kind, statuses, frames, pages lent.
//!
//! In a comment, numbers in brackets as [1, 2] are the fault numbers that a call may answer.
#![tactic(auto)]

mod embedded;
mod fetching;
mod lending;
mod peers;
mod status;

pub use embedded::{Declined, Embedded, TakenString};
pub use lending::{Lending, Want};
pub use status::{
    ADVANCE, ALLOCATE, AWAIT, BAD_ARGUMENT, BAD_CONFIG, BUSY, CLOSED, COMPARE_AND_SWAP, COUNT,
    DONE, DYNAMIC, FETCH_AND_ADD, FIXED, FREE, LENT, LOAD, MEMORY, NO_CALL, NO_FRAME, NO_PAGE,
    NO_REPLY, OPEN, PENDING, SHORT_BUFFER, STEADY, STORE, SWAP, TO_READ, TO_WRITE, UNLENT, WANTED,
    call_of, config_of, lending_number, lending_of, manager_of, refusal_status, status_of, tell,
    verdict_number,
};
