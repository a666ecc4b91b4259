//! Blocks of bytes: words of 8 bytes that follow one another, as many at once as are at hand.
ghost use Rattle.std.specs.Prelude.{◌≡◌, ◌+◌, ◌*◌, ◌/◌, ◌^◌, ◌<◌, ◌≤◌, ◌++◌, ◌∷◌, [], Err, IfErr, IfOk, OnOk, drop, length, replicate};
ghost use Rattle.ivy_model.specs.declared.row.Row.TheVariants.{Loads, Stores};
ghost use Rattle.ivy_model.specs.Rows.{numbers_in};
ghost use Rattle.ivy_calls.specs.Fails.{Fails};
ghost use Rattle.ivy_calls.specs.BlockAnswers.{AtSome, StopsInRow, first_number, in_row, block_numbers, block_words};

use crate::calls::{load, store};
use crate::error::CallError;
use crate::memory::SharedMemory;
use ivy_model::{Call, Fault};

/// Loads the first words of a row, at least one, and says how many: those that are at hand, else the first by a call.
#[inline]
fn load_some<M: SharedMemory>(
    memory: &mut M,
    addr: u64,
    into: &mut [u8],
) -> Result<usize, CallError>
    requires word { 8 ≤ length into.old }
    ensures some { IfOk result (λ words. (1 ≤ words) × (8 * words ≤ length into.old)) }
    ensures loads { IfOk result (λ words. M.answers memory.new ≡ M.answers memory.old ++ in_row Loads addr (numbers_in words into.new)) }
    ensures fails { IfErr result (λ error. Fails (AtSome M.can_fail) (Call.Load 8 addr) error (M.answers memory.old) (M.answers memory.new)) }
    ensures sized { length into.new ≡ length into.old }
{
    let words = memory.load_row(addr, into);
    if words > 0 {
        return Ok(words);
    }
    let number: u64 = load(memory, addr)?;
    put_number(into, number);
    Ok(1)
}

/// Stores the first words of a row, at least one, and says how many: those that are at hand, else the first by a call.
#[inline]
fn store_some<M: SharedMemory>(memory: &mut M, addr: u64, from: &[u8]) -> Result<usize, CallError>
    requires word { 8 ≤ length from.now }
    ensures some { IfOk result (λ words. (1 ≤ words) × (8 * words ≤ length from.now)) }
    ensures stores { IfOk result (λ words. M.answers memory.new ≡ M.answers memory.old ++ in_row Stores addr (numbers_in words from.now)) }
    ensures fails { IfErr result (λ error. Fails (AtSome M.can_fail) (Call.Store 8 addr (first_number from.now)) error (M.answers memory.old) (M.answers memory.new)) }
{
    let words = memory.store_row(addr, from);
    if words > 0 {
        return Ok(words);
    }
    store(memory, addr, number_first_in(from))?;
    Ok(1)
}

/// Puts the number into the first 8 bytes, the highest first.
fn put_number(into: &mut [u8], number: u64)
    requires word { 8 ≤ length into.old }
    ensures number { numbers_in 1 into.new ≡ number ∷ [] }
    ensures sized { length into.new ≡ length into.old }
{
    into[..8].copy_from_slice(&number.to_be_bytes());
}

/// The number in the first 8 bytes, the highest first.
fn number_first_in(bytes: &[u8]) -> u64
    requires word { 8 ≤ length bytes.now }
    ensures { result ≡ first_number bytes.now }
{
    u64::from_be_bytes([
        bytes[0], bytes[1], bytes[2], bytes[3], bytes[4], bytes[5], bytes[6], bytes[7],
    ])
}

/// Reads words of 8 bytes that follow one another, from `addr` on, into the bytes of `into`, each with its highest byte
/// first.
///
/// Each word is answered as by [`load`], and a memory that has several at hand gives them at once; other nodes' calls may
/// stand between two words. Whole words alone are read: where `into` is no multiple of 8 bytes long, its last bytes, fewer
/// than 8, stay as they are.
///
/// After an `Err` the words before the one that failed were read, and the bytes behind them may be any. The error has the
/// call of that word: it is refused with 3 where `addr` is no multiple of 8, else 4 past the heap, else 5 in page 0. A row
/// that does not end below 2^64 is not asked for, and its error is [`CallError::Fault`] with 4.
pub fn read_into<M: SharedMemory>(
    memory: &mut M,
    addr: u64,
    into: &mut [u8],
) -> Result<(), CallError>
    ensures reads { OnOk result (M.answers memory.new ≡ M.answers memory.old ++ in_row Loads addr (block_numbers into.new)) }
    ensures fails { addr + 8 * block_words into.old < 2 ^ 64 → IfErr result (λ error. StopsInRow (AtSome M.can_fail) Loads addr (block_numbers into.new) error (M.answers memory.old) (M.answers memory.new)) }
    ensures past { 2 ^ 64 ≤ addr + 8 * block_words into.old → (result ≡ Err (CallError.Fault (Call.Load 8 addr) Fault.OutOfRange)) × (M.answers memory.new ≡ M.answers memory.old) }
    ensures sized { length into.new ≡ length into.old }
    ensures rest { drop (8 * block_words into.old) into.new ≡ drop (8 * block_words into.old) into.old }
{
    let end = 8 * (into.len() / 8);
    if addr.checked_add(end as u64).is_none() {
        return Err(CallError::Fault {
            call: Call::Load { width: 8, addr },
            fault: Fault::OutOfRange,
        });
    }
    let mut words = 0;
    while 8 * words < end {
        let at = 8 * words;
        let some = load_some(memory, addr + at as u64, &mut into[at..end])?;
        words += some;
    }
    Ok(())
}

/// Writes the bytes of `from`, each 8 with the highest first, into words that follow one another, from `addr` on.
///
/// Each word is answered as by [`store`], and a memory that has several at hand takes them at once; other nodes' calls may
/// stand between two words. Whole words alone are written: where `from` is no multiple of 8 bytes long, its last bytes,
/// fewer than 8, are not.
///
/// After an `Err` the words before the one that failed were written. The error has the call of that word: it is refused
/// with 3 where `addr` is no multiple of 8, else 4 past the heap, else 5 in page 0. A row that does not end below 2^64 is
/// not asked for, and its error is [`CallError::Fault`] with 4.
pub fn write_from<M: SharedMemory>(memory: &mut M, addr: u64, from: &[u8]) -> Result<(), CallError>
    ensures writes { OnOk result (M.answers memory.new ≡ M.answers memory.old ++ in_row Stores addr (block_numbers from.now)) }
    ensures fails { addr + 8 * block_words from.now < 2 ^ 64 → IfErr result (λ error. StopsInRow (AtSome M.can_fail) Stores addr (block_numbers from.now) error (M.answers memory.old) (M.answers memory.new)) }
    ensures past { 2 ^ 64 ≤ addr + 8 * block_words from.now → (result ≡ Err (CallError.Fault (Call.Store 8 addr (first_number from.now)) Fault.OutOfRange)) × (M.answers memory.new ≡ M.answers memory.old) }
{
    let end = 8 * (from.len() / 8);
    if addr.checked_add(end as u64).is_none() {
        return Err(CallError::Fault {
            call: Call::Store {
                width: 8,
                addr,
                value: number_first_in(from),
            },
            fault: Fault::OutOfRange,
        });
    }
    let mut words = 0;
    while 8 * words < end {
        let at = 8 * words;
        let some = store_some(memory, addr + at as u64, &from[at..end])?;
        words += some;
    }
    Ok(())
}

/// How many words [`fill`] offers at once.
const FILLED: usize = 64;

/// The bytes of as many words that each have this number.
fn bytes_of(number: u64) -> [u8; 8 * FILLED]
    ensures { numbers_in 64 result ≡ replicate 64 number }
{
    let mut bytes = [0; 8 * FILLED];
    for word in 0..FILLED {
        put_number(&mut bytes[8 * word..8 * word + 8], number);
    }
    bytes
}

/// Writes the value into `words` words of 8 bytes that follow one another, from `addr` on.
///
/// Each word is answered as by [`store`], and a memory that has several at hand takes up to 64 at once; other nodes' calls
/// may stand between two words.
///
/// After an `Err` the words before the one that failed were written. The error has the call of that word: it is refused
/// with 3 where `addr` is no multiple of 8, else 4 past the heap, else 5 in page 0. A row that does not end below 2^64 is
/// not asked for, and its error is [`CallError::Fault`] with 4.
pub fn fill<M: SharedMemory>(
    memory: &mut M,
    addr: u64,
    words: u64,
    value: u64,
) -> Result<(), CallError>
    ensures fills { OnOk result (M.answers memory.new ≡ M.answers memory.old ++ in_row Stores addr (replicate words value)) }
    ensures fails { addr + 8 * words < 2 ^ 64 → IfErr result (λ error. StopsInRow (AtSome M.can_fail) Stores addr (replicate words value) error (M.answers memory.old) (M.answers memory.new)) }
    ensures past { 2 ^ 64 ≤ addr + 8 * words → (result ≡ Err (CallError.Fault (Call.Store 8 addr value) Fault.OutOfRange)) × (M.answers memory.new ≡ M.answers memory.old) }
{
    if words > (u64::MAX - addr) / 8 {
        return Err(CallError::Fault {
            call: Call::Store {
                width: 8,
                addr,
                value,
            },
            fault: Fault::OutOfRange,
        });
    }
    let bytes = bytes_of(value);
    let mut done = 0;
    while done < words {
        let most = (words - done).min(FILLED as u64) as usize;
        let some = store_some(memory, addr + 8 * done, &bytes[..8 * most])?;
        done += some as u64;
    }
    Ok(())
}
