//! Tests of own code: calls, locks, sessions, plays and the example programs.
#![tactic(auto)]

#[cfg(test)]
mod plays;
#[cfg(test)]
mod sessions;
#[cfg(test)]
mod sync;
#[cfg(test)]
mod works;
