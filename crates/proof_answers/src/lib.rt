//! Which calls are answered, in how many rounds, and what pulses and sweeps deliver.
//!
//! Nothing undelivered is ever dropped ([`nothing_is_dropped`]), and what a pulse achieves whose strings are delivered
//! in order ([`pulses_deliver`]), and two of them ([`pulses_move_on`]). In rounds of a node whose call is due somebody
//! is answered ([`some_call_is_answered`]), or a page comes that was fetched ahead: each configuration has a number of
//! rounds for that.
//!
//! Who is answered: under managing nodes each node ([`calls_are_answered`]), and under either manager each one that
//! allocates or frees ([`heap_calls_are_answered`]). Where a node fetches pages ahead, that of its call may have to come
//! first, and as many rounds more are enough.
//!
//! Under steady hints each call that is due is answered too ([`steady_calls_are_answered`]). Of each request that is out
//! some nodes are late: what they ask for comes after it, and they stay late until it is served
//! ([`late_nodes_stay_late`]). Each other node keeps it up for four rounds at most. A node that sends it on is late from
//! then on ([`few_nodes_send_on`]).
//!
//! What sweeps of pulses achieve: few messages are under way between two nodes ([`few_are_under_way`]), so three sweeps
//! deliver all that had been sent before ([`sweeps_deliver`]), and are a round ([`sweeps_are_rounds`]), where no page is
//! fetched; else some times three of them. All else here is definitions and lemmas.
#![tactic(auto)]

mod law;

pub use law::{
    calls_are_answered, few_are_under_way, few_nodes_send_on, heap_calls_are_answered,
    late_nodes_stay_late, nothing_is_dropped, pulses_deliver, pulses_move_on,
    some_call_is_answered, steady_calls_are_answered, sweeps_are_rounds, sweeps_deliver,
};
