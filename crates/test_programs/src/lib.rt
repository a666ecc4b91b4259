//! Tests of sessions and of the commands of `ivy`, `ivyscope` and `ivynode`.
//!
//! That a finished session is coherent, and that a command which says that it is done did what it was asked for, is
//! proved, so these tests hold no property of all sessions or commands.
#![tactic(auto)]

#[cfg(test)]
mod commands;
#[cfg(test)]
mod processes;
#[cfg(test)]
mod scope;
#[cfg(test)]
mod sessions;
