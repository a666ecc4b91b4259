//! Tests of own code under drawn schedules. What a report says is proved, so these tests hold that plays end well, that they
//! are the same again by their seed or their moves, and that what is wrong in a program is found.

mod blocks;
mod common;
mod found;
mod programs;
mod refusals;
mod same;
mod standstill;
