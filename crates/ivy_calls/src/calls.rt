//! One call each.
ghost use Rattle.std.specs.Prelude.{◌≡◌, ◌<◌, ◌*◌, ◌^◌, ℕ, IfErr, IfOk};
ghost use Rattle.ivy_model.specs.stated.Accesses.{kind_of_call};
ghost use Rattle.ivy_model.specs.stated.Legal.{HasWidth};
ghost use Rattle.ivy_calls.specs.Answers.{Adds};
ghost use Rattle.ivy_calls.specs.Fails.{Fails, GivesNone, GivesNumber, IsCarriedOut};

use crate::error::{CallError, refusal};
use crate::memory::SharedMemory;
use crate::word::SharedWord;
use ivy_model::{Call, Reply};

/// Makes the call. An `Ok` is no refusal.
#[inline(always)]
fn ask<M: SharedMemory>(memory: &mut M, call: Call) -> Result<Reply, CallError>
    requires width { HasWidth call }
    ensures asks { IfOk result (λ reply. Adds call reply (M.answers memory.old) (M.answers memory.new)) }
    ensures carried { IfOk result IsCarriedOut }
    ensures fails { IfErr result (λ error. Fails (M.can_fail memory.old) call error (M.answers memory.old) (M.answers memory.new)) }
{
    match memory.call(call) {
        Ok(Reply::Refused(code)) => match refusal(code) {
            Some(fault) => Err(CallError::Refused { call, fault }),
            None => Err(CallError::Unfit {
                call,
                reply: Reply::Refused(code),
            }),
        },
        Ok(reply) => Ok(reply),
        Err(fault) => Err(CallError::Fault { call, fault }),
    }
}

/// Makes a call that gives no number.
#[inline(always)]
fn done<M: SharedMemory>(memory: &mut M, call: Call) -> Result<(), CallError>
    requires width { HasWidth call }
    requires none { (n : ℕ) → GivesNumber (kind_of_call call) n → ⊥ }
    ensures asks { IfOk result (λ _. Adds call Reply.Done (M.answers memory.old) (M.answers memory.new)) }
    ensures fails { IfErr result (λ error. Fails (M.can_fail memory.old) call error (M.answers memory.old) (M.answers memory.new)) }
{
    match ask(memory, call)? {
        Reply::Done => Ok(()),
        reply => Err(CallError::Unfit { call, reply }),
    }
}

/// Makes a call that gives a number.
#[inline(always)]
fn number<M: SharedMemory>(memory: &mut M, call: Call) -> Result<u64, CallError>
    requires width { HasWidth call }
    requires some { GivesNone (kind_of_call call) → ⊥ }
    ensures asks { IfOk result (λ n. Adds call (Reply.Value n) (M.answers memory.old) (M.answers memory.new)) }
    ensures fails { IfErr result (λ error. Fails (M.can_fail memory.old) call error (M.answers memory.old) (M.answers memory.new)) }
{
    match ask(memory, call)? {
        Reply::Value(number) => Ok(number),
        reply => Err(CallError::Unfit { call, reply }),
    }
}

/// Makes a call that gives the number in a word.
#[inline(always)]
fn word<W: SharedWord, M: SharedMemory>(memory: &mut M, call: Call) -> Result<W, CallError>
    requires width { HasWidth call }
    requires some { GivesNone (kind_of_call call) → ⊥ }
    requires fits { (n : ℕ) → GivesNumber (kind_of_call call) n → n < 2 ^ (8 * W.WIDTH) }
    ensures asks { IfOk result (λ found. Adds call (Reply.Value (W.number_of found)) (M.answers memory.old) (M.answers memory.new)) }
    ensures fails { IfErr result (λ error. Fails (M.can_fail memory.old) call error (M.answers memory.old) (M.answers memory.new)) }
{
    let number = number(memory, call)?;
    match W::from_number(number) {
        Some(word) => Ok(word),
        None => Err(CallError::Unfit {
            call,
            reply: Reply::Value(number),
        }),
    }
}

/// The number in the word at `addr`.
///
/// Refused with 3 where `addr` is no multiple of the width, else 4 past the heap, else 5 in page 0.
#[inline(always)]
pub fn load<W: SharedWord, M: SharedMemory>(memory: &mut M, addr: u64) -> Result<W, CallError>
    ensures asks { IfOk result (λ found. Adds (Call.Load W.WIDTH addr) (Reply.Value (W.number_of found)) (M.answers memory.old) (M.answers memory.new)) }
    ensures fails { IfErr result (λ error. Fails (M.can_fail memory.old) (Call.Load W.WIDTH addr) error (M.answers memory.old) (M.answers memory.new)) }
{
    word(
        memory,
        Call::Load {
            width: W::WIDTH,
            addr,
        },
    )
}

/// Writes the value into the word at `addr`.
///
/// Refused with 3 where `addr` is no multiple of the width, else 4 past the heap, else 5 in page 0.
#[inline(always)]
pub fn store<W: SharedWord, M: SharedMemory>(
    memory: &mut M,
    addr: u64,
    value: W,
) -> Result<(), CallError>
    ensures asks { IfOk result (λ _. Adds (Call.Store W.WIDTH addr (W.number_of value)) (Reply.Done) (M.answers memory.old) (M.answers memory.new)) }
    ensures fails { IfErr result (λ error. Fails (M.can_fail memory.old) (Call.Store W.WIDTH addr (W.number_of value)) error (M.answers memory.old) (M.answers memory.new)) }
{
    done(
        memory,
        Call::Store {
            width: W::WIDTH,
            addr,
            value: value.to_number(),
        },
    )
}

/// Writes the value into the word at `addr`, and gives what was there, with no other call between.
///
/// Refused with 3 where `addr` is no multiple of the width, else 4 past the heap, else 5 in page 0.
pub fn swap<W: SharedWord, M: SharedMemory>(
    memory: &mut M,
    addr: u64,
    value: W,
) -> Result<W, CallError>
    ensures asks { IfOk result (λ found. Adds (Call.Swap W.WIDTH addr (W.number_of value)) (Reply.Value (W.number_of found)) (M.answers memory.old) (M.answers memory.new)) }
    ensures fails { IfErr result (λ error. Fails (M.can_fail memory.old) (Call.Swap W.WIDTH addr (W.number_of value)) error (M.answers memory.old) (M.answers memory.new)) }
{
    word(
        memory,
        Call::Swap {
            width: W::WIDTH,
            addr,
            value: value.to_number(),
        },
    )
}

/// Gives what is in the word at `addr`, and where that is `expected` writes the value there, with no other
/// call between: a compare-and-swap.
///
/// Refused with 3 where `addr` is no multiple of the width, else 4 past the heap, else 5 in page 0.
pub fn cas<W: SharedWord, M: SharedMemory>(
    memory: &mut M,
    addr: u64,
    expected: W,
    value: W,
) -> Result<W, CallError>
    ensures asks { IfOk result (λ found. Adds (Call.Cas W.WIDTH addr (W.number_of expected) (W.number_of value)) (Reply.Value (W.number_of found)) (M.answers memory.old) (M.answers memory.new)) }
    ensures fails { IfErr result (λ error. Fails (M.can_fail memory.old) (Call.Cas W.WIDTH addr (W.number_of expected) (W.number_of value)) error (M.answers memory.old) (M.answers memory.new)) }
{
    word(
        memory,
        Call::Cas {
            width: W::WIDTH,
            addr,
            expected: expected.to_number(),
            value: value.to_number(),
        },
    )
}

/// Gives what is in the word at `addr`, and writes its sum with the value there, modulo the word's size,
/// with no other call between: a fetch-and-add.
///
/// Refused with 3 where `addr` is no multiple of the width, else 4 past the heap, else 5 in page 0.
pub fn fetch_add<W: SharedWord, M: SharedMemory>(
    memory: &mut M,
    addr: u64,
    value: W,
) -> Result<W, CallError>
    ensures asks { IfOk result (λ found. Adds (Call.FetchAdd W.WIDTH addr (W.number_of value)) (Reply.Value (W.number_of found)) (M.answers memory.old) (M.answers memory.new)) }
    ensures fails { IfErr result (λ error. Fails (M.can_fail memory.old) (Call.FetchAdd W.WIDTH addr (W.number_of value)) error (M.answers memory.old) (M.answers memory.new)) }
{
    word(
        memory,
        Call::FetchAdd {
            width: W::WIDTH,
            addr,
            value: value.to_number(),
        },
    )
}

/// Adds one to eventcount `k`.
///
/// Refused with 6 where there is none, and 7 at `u64::MAX`.
pub fn advance_count<M: SharedMemory>(memory: &mut M, k: u64) -> Result<(), CallError>
    ensures asks { IfOk result (λ _. Adds (Call.Advance k) (Reply.Done) (M.answers memory.old) (M.answers memory.new)) }
    ensures fails { IfErr result (λ error. Fails (M.can_fail memory.old) (Call.Advance k) error (M.answers memory.old) (M.answers memory.new)) }
{
    done(memory, Call::Advance { k })
}

/// The value of eventcount `k`. Refused with 6 where there is none.
pub fn read_count<M: SharedMemory>(memory: &mut M, k: u64) -> Result<u64, CallError>
    ensures asks { IfOk result (λ count. Adds (Call.Count k) (Reply.Value count) (M.answers memory.old) (M.answers memory.new)) }
    ensures fails { IfErr result (λ error. Fails (M.can_fail memory.old) (Call.Count k) error (M.answers memory.old) (M.answers memory.new)) }
{
    number(memory, Call::Count { k })
}

/// Waits until eventcount `k` is at least `least`, and gives its value then.
///
/// Refused with 6 where there is none.
pub fn await_<M: SharedMemory>(memory: &mut M, k: u64, least: u64) -> Result<u64, CallError>
    ensures asks { IfOk result (λ count. Adds (Call.Await k least) (Reply.Value count) (M.answers memory.old) (M.answers memory.new)) }
    ensures fails { IfErr result (λ error. Fails (M.can_fail memory.old) (Call.Await k least) error (M.answers memory.old) (M.answers memory.new)) }
{
    number(memory, Call::Await { k, least })
}

/// The address of a new block of `size` bytes, rounded up to a multiple of 8. It is not cleared.
///
/// Refused with 8 for no bytes, and 9 where there is no room.
pub fn alloc<M: SharedMemory>(memory: &mut M, size: u64) -> Result<u64, CallError>
    ensures asks { IfOk result (λ addr. Adds (Call.Alloc size) (Reply.Value addr) (M.answers memory.old) (M.answers memory.new)) }
    ensures fails { IfErr result (λ error. Fails (M.can_fail memory.old) (Call.Alloc size) error (M.answers memory.old) (M.answers memory.new)) }
{
    number(memory, Call::Alloc { size })
}

/// Ends the live block that starts at `addr`. Refused with 10 where none does.
pub fn free<M: SharedMemory>(memory: &mut M, addr: u64) -> Result<(), CallError>
    ensures asks { IfOk result (λ _. Adds (Call.Free addr) (Reply.Done) (M.answers memory.old) (M.answers memory.new)) }
    ensures fails { IfErr result (λ error. Fails (M.can_fail memory.old) (Call.Free addr) error (M.answers memory.old) (M.answers memory.new)) }
{
    done(memory, Call::Free { addr })
}
