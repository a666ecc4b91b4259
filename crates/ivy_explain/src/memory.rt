//! What stood in one memory before a record.
ghost use Rattle.std.specs.Prelude.{◌↔◌, IsTrue};
ghost use Rattle.ivy_model.specs.stated.Legal.{IsWidth};

use ivy_model::{Call, CallKind, Config, Fault, Record, Reply, access_refusal};
use std::alloc::{AllocError, Global};
use std::collections::BTreeMap;

/// The bytes of the heap and the counts that are not 0.
#[derive(Drop)]
pub(crate) struct Stood {
    bytes: BTreeMap<u64, u8>,
    counts: BTreeMap<u64, u64>,
}

/// Whether a word may have so many bytes.
fn is_width(width: u8) -> bool
    ensures { IsTrue result ↔ IsWidth width }
{
    [1, 2, 4, 8].contains(&width)
}

impl Stood {
    pub(crate) fn new(alloc: Global) -> Stood {
        Stood {
            bytes: BTreeMap::new(alloc),
            counts: BTreeMap::new(alloc),
        }
    }

    /// The number in a word.
    fn number(&self, width: u8, addr: u64) -> u64 {
        let mut number = 0u64;
        for place in 0..u64::from(width) {
            let byte = match addr.checked_add(place) {
                Some(at) => self.bytes.get(&at).copied().unwrap_or(0),
                None => 0,
            };
            number = number.wrapping_mul(256).wrapping_add(u64::from(byte));
        }
        number
    }

    /// Puts a number into a word.
    fn put(&mut self, width: u8, addr: u64, number: u64) -> Result<(), AllocError> {
        let bytes = number.to_be_bytes();
        let skipped = usize::from(8 - width.min(8));
        for (place, byte) in bytes.iter().skip(skipped).enumerate() {
            if let Some(at) = addr.checked_add(place as u64) {
                self.bytes.insert(at, *byte)?;
            }
        }
        Ok(())
    }

    /// A record that the memory makes.
    pub(crate) fn make(&mut self, record: &Record) -> Result<(), AllocError> {
        if matches!(record.reply, Reply::Refused(_)) {
            return Ok(());
        }
        match record.call.kind() {
            CallKind::Word { width, addr, act } if is_width(width) => {
                if let Some(number) = act.next(width, self.number(width, addr)) {
                    self.put(width, addr, number)?;
                }
            }
            CallKind::Advance { k } => {
                let count = self.count(k);
                self.counts.insert(k, count.saturating_add(1))?;
            }
            _ => {}
        }
        Ok(())
    }

    fn count(&self, k: u64) -> u64 {
        self.counts.get(&k).copied().unwrap_or(0)
    }

    /// What the memory answers to a call of a word or a count.
    pub(crate) fn reply(&self, config: &Config, call: Call) -> Option<Reply> {
        match call.kind() {
            CallKind::Word { width, addr, act } if is_width(width) => {
                if config.check().is_err() {
                    return None;
                }
                Some(match access_refusal(config, width, addr) {
                    Some(code) => Reply::Refused(code),
                    None => act.reply(self.number(width, addr)),
                })
            }
            CallKind::Count { k } | CallKind::Await { k, .. } | CallKind::Advance { k }
                if k >= u64::from(config.page_size) / 8 => {
                Some(Reply::Refused(Fault::NoSuchCount.number()))
            }
            CallKind::Count { k } | CallKind::Await { k, .. } => Some(Reply::Value(self.count(k))),
            CallKind::Advance { .. } => Some(Reply::Done),
            _ => None,
        }
    }
}
