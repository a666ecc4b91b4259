//! Tests of one node: strings that come to it, well spelled, forged and broken, and each growth of memory refused in
//! turn, in its turns, deliveries and pulses, and where strings are written, read and sent.
//!
//! That every run is coherent is proved, so these tests hold no property of all runs. They hold what no contract says:
//! the bytes of the worked examples, and that a call can succeed, and go on after a refusal.

mod common;
mod counts;
mod forged;
mod growths_of_sites;
mod growths_of_strings;
mod keeping;
mod own_code;
mod site_alone;
mod steps;
