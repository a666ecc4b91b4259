//! The rows of the table of coherence events and what each keeps: exclusive pages, routes, waiting.
//!
//! Definitions and lemmas alone, for every manager that keeps the laws.
//!
//! Where requests, copies and pages are on their way. Under any manager under which requests go down: whoever waits has
//! its message, no message is a breach, and from each node routes lead to one that has the page. Then for managing
//! nodes, by where the requests for a page are under them, and for hints, by the heights by which requests, copies on
//! their way and hints lead down: each row keeps it. Definitions and lemmas alone.
//!
//! How long a request waits under managing nodes. Requests to read come before those to write, each step keeps it so
//! ([`readers_come_first`]), and in how many rounds a word that waits is answered. All else here is definitions and
//! lemmas.
#![tactic(auto)]

mod law;

pub use law::readers_come_first;
