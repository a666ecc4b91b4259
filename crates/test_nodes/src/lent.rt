//! Tests of nodes whose pages are lent to programs that touch images of them.
//!
//! What a function does to one node is proved. No clause says what several nodes come to whose programs write by
//! themselves, so runs are drawn, and each access is checked against one array. And each function is tried on what it has
//! to refuse. `stress/lent` plays more of these runs, where replies are looked for late too.

mod agrees;
mod drawn;
mod driven;
mod driver;
mod refusals;
mod seen;
mod words;
