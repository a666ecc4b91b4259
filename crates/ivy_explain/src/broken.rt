//! The first record of an order at which no legal order goes on.

use crate::memory::Stood;
use ivy_model::{Call, Config, Fault, Record, Reply, check_order};
use std::alloc::Global;

/// A record that one memory does not make, after those before it.
#[derive(Clone, Copy)]
pub struct Broken {
    /// Its place among the records, from 0.
    pub place: usize,
    /// What the memory would have answered, where that is a word or a count.
    pub reply: Option<Reply>,
    /// Whether it has no answer yet: an await of a count that is too low.
    pub waits: bool,
}

/// Whether the first records, so many, are a legal order.
fn is_legal(
    alloc: Global,
    config: &Config,
    records: &[Record],
    count: usize,
) -> Result<bool, Fault> {
    config.check()?;
    check_order(alloc, config, &records[..count.min(records.len())])
}

/// How many records, from the first on, are a legal order at most.
fn most_legal(alloc: Global, config: &Config, records: &[Record]) -> Result<usize, Fault> {
    let mut legal = 0usize;
    let mut not = records.len().saturating_add(1);
    for _ in 0..64 {
        if legal.saturating_add(1) >= not {
            break;
        }
        let middle = legal + (not - legal) / 2;
        if is_legal(alloc, config, records, middle)? {
            legal = middle;
        } else {
            not = middle;
        }
    }
    Ok(legal)
}

/// What stood in the memory after the first records, so many.
fn stood_after(alloc: Global, records: &[Record], count: usize) -> Result<Stood, Fault> {
    let mut stood = Stood::new(alloc);
    for record in records.iter().take(count) {
        stood.make(record)?;
    }
    Ok(stood)
}

/// The first record at which no legal order goes on, if there is one [1, 2].
pub fn first_broken(
    alloc: Global,
    config: &Config,
    records: &[Record],
) -> Result<Option<Broken>, Fault> {
    let place = most_legal(alloc, config, records)?;
    let Some(record) = records.get(place) else {
        return Ok(None);
    };
    let stood = stood_after(alloc, records, place)?;
    let reply = stood.reply(config, record.call);
    let waits = match (record.call, reply) {
        (Call::Await { least, .. }, Some(Reply::Value(count))) => count < least,
        _ => false,
    };
    Ok(Some(Broken {
        place,
        reply,
        waits,
    }))
}
