//! What must hold of a play.

use ivy_play::Outcome;

/// What must hold of what the works of all nodes gave.
pub(crate) trait Check<T> {
    /// Whether it does.
    fn holds(&self, outcomes: &[Outcome<T>]) -> bool;
}

/// The work of each node gives this number.
#[derive(Clone, Copy)]
pub(crate) struct AllGive(pub(crate) u64);

impl Check<u64> for AllGive {
    fn holds(&self, outcomes: &[Outcome<u64>]) -> bool {
        for outcome in outcomes {
            if *outcome != Outcome::Gave(self.0) {
                return false;
            }
        }
        true
    }
}

/// The works give these numbers, one after another.
#[derive(Clone, Copy)]
pub(crate) struct GiveEach<'l>(pub(crate) &'l [u64]);

impl Check<u64> for GiveEach<'_> {
    fn holds(&self, outcomes: &[Outcome<u64>]) -> bool {
        if outcomes.len() != self.0.len() {
            return false;
        }
        for (outcome, wanted) in outcomes.iter().zip(self.0.iter()) {
            if *outcome != Outcome::Gave(*wanted) {
                return false;
            }
        }
        true
    }
}

/// The works give each job from 0 up to this number, and each job once.
#[derive(Clone, Copy)]
pub(crate) struct EachJobOnce(pub(crate) u64);

/// How often a job stands in a list.
fn times_in(list: &[u64], job: u64) -> usize {
    list.iter().filter(|other| **other == job).count()
}

/// How often a work gave a job.
fn times_of(outcome: &Outcome<Vec<u64>>, job: u64) -> usize {
    match outcome {
        Outcome::Gave(list) => times_in(list, job),
        _ => 0,
    }
}

impl Check<Vec<u64>> for EachJobOnce {
    fn holds(&self, outcomes: &[Outcome<Vec<u64>>]) -> bool {
        for job in 0..self.0 {
            let mut times = 0usize;
            for outcome in outcomes {
                times = times.saturating_add(times_of(outcome, job));
            }
            if times != 1 {
                return false;
            }
        }
        true
    }
}
