//! The numbers that C knows statuses, calls and verdicts by.
ghost use Rattle.std.specs.Prelude.{◌≡◌, ◌≢◌, ◌+◌, MatchOption, MatchResult};
ghost use Rattle.ivy_model.specs.stated.Legal.{HasWidth, IsWidth};
ghost use Rattle.ivy_embedded.specs.Exports.{AsksNone, IsNoAccess, IsRequest, IsStatus, Tells, TellsProgress, verdict_number};
ghost use Rattle.ivy_embedded.specs.Numbers.{IsRefusalStatus, lending_number};
ghost use Rattle.ivy_embedded.specs.declared.lending.Lending.{Lending};
ghost use Rattle.ivy_embedded.specs.Openings.{IsManager, IsNoManager, Names, NamesNone};

use crate::embedded::Declined;
use crate::lending::Lending;
use ivy_model::{Call, Config, Fault, Kind, Reply};
use ivy_site::Verdict;

/// The memory carried the call out, or the function did what it says.
pub const DONE: u32 = 0;

/// The statuses from here on are no replies of the memory.
pub const NO_REPLY: u32 = 256;

/// The allocator gives no memory.
pub const MEMORY: u32 = 257;

/// The configuration is out of its limits.
pub const BAD_CONFIG: u32 = 258;

/// A call is in progress already.
pub const BUSY: u32 = 274;

/// The call is in progress.
pub const PENDING: u32 = 300;

/// No call is in progress.
pub const NO_CALL: u32 = 301;

/// No string waits.
pub const NO_FRAME: u32 = 302;

/// The buffer is shorter than the string.
pub const SHORT_BUFFER: u32 = 303;

/// There is no such call, node or kind of manager.
pub const BAD_ARGUMENT: u32 = 304;

/// The handle has no node.
pub const CLOSED: u32 = 305;

/// The handle has a node already.
pub const OPEN: u32 = 306;

/// The string would take a page that is lent.
pub const WANTED: u32 = 307;

/// The page of the call or of the block is lent.
pub const LENT: u32 = 308;

/// The page is not here, or not here to be written, or a call waits for it.
pub const NO_PAGE: u32 = 309;

/// A page is not lent.
pub const UNLENT: u32 = 0;

/// It is lent to be read.
pub const TO_READ: u32 = 1;

/// It is lent to be written.
pub const TO_WRITE: u32 = 2;

/// Managers that keep the owner of each page at a fixed node.
pub const FIXED: u32 = 0;

/// Managers that follow hints.
pub const DYNAMIC: u32 = 1;

/// Managers that follow steady hints. No configuration names them: the nodes begin with them, under one that names
/// [`DYNAMIC`].
pub const STEADY: u32 = 2;

/// A load: the kinds of calls are numbered from it on.
pub const LOAD: u32 = 0;

/// A store.
pub const STORE: u32 = 1;

/// A swap.
pub const SWAP: u32 = 2;

/// A compare-and-swap.
pub const COMPARE_AND_SWAP: u32 = 3;

/// A fetch-and-add.
pub const FETCH_AND_ADD: u32 = 4;

/// The value of an eventcount.
pub const COUNT: u32 = 5;

/// An eventcount gets one more.
pub const ADVANCE: u32 = 6;

/// A wait until an eventcount is at least a value.
pub const AWAIT: u32 = 7;

/// A block of the heap is taken.
pub const ALLOCATE: u32 = 8;

/// A block of the heap is given back.
pub const FREE: u32 = 9;

/// The kind of manager of this number, where there is one.
pub fn manager_of(number: u32) -> Option<Kind>
    ensures { MatchOption result (IsNoManager number) (IsManager number) }
{
    match number {
        FIXED => Some(Kind::Fixed),
        DYNAMIC => Some(Kind::Dynamic),
        _ => None,
    }
}

/// The configuration of these numbers, where there is one within the wide limits: up to 65,536 pages.
pub fn config_of(nodes: u32, pages: u32, page_size: u32, manager: u32) -> Option<Config>
    ensures { MatchOption result (NamesNone nodes pages page_size manager) (Names nodes pages page_size manager) }
{
    let config = Config {
        nodes: u8::try_from(nodes).ok()?,
        pages,
        page_size,
        manager: manager_of(manager)?,
    };
    config.check_wide().ok()?;
    Some(config)
}

/// The width of a word, where it is one.
fn width_of(width: u32) -> Option<u8>
    ensures { MatchOption result (IsWidth width → ⊥) (λ w. (w ≡ width) × IsWidth w) }
{
    match width {
        1 => Some(1),
        2 => Some(2),
        4 => Some(4),
        8 => Some(8),
        _ => None,
    }
}

/// The access to a word that is asked for, where the kind is one of an access.
fn access_of(kind: u32, width: u8, addr: u64, value: u64, expected: u64) -> Option<Call>
    requires { IsWidth width }
    ensures { MatchOption result (IsNoAccess kind) (λ call. IsRequest kind width addr value expected call × HasWidth call) }
{
    match kind {
        LOAD => Some(Call::Load { width, addr }),
        STORE => Some(Call::Store { width, addr, value }),
        SWAP => Some(Call::Swap { width, addr, value }),
        COMPARE_AND_SWAP => Some(Call::Cas {
            width,
            addr,
            expected,
            value,
        }),
        FETCH_AND_ADD => Some(Call::FetchAdd { width, addr, value }),
        _ => None,
    }
}

/// The call of any kind and width that is asked for, if there is one.
fn any_call_of(kind: u32, width: u32, place: u64, operand: u64, expected: u64) -> Option<Call>
    ensures { MatchOption result (AsksNone (IsRequest kind width place operand expected)) (λ call. IsRequest kind width place operand expected call × HasWidth call) }
{
    match kind {
        COUNT => Some(Call::Count { k: place }),
        ADVANCE => Some(Call::Advance { k: place }),
        AWAIT => Some(Call::Await {
            k: place,
            least: operand,
        }),
        ALLOCATE => Some(Call::Alloc { size: operand }),
        FREE => Some(Call::Free { addr: place }),
        _ => access_of(kind, width_of(width)?, place, operand, expected),
    }
}

/// The call that is asked for, if there is one. The most frequent ones take no table of kinds and widths.
pub fn call_of(kind: u32, width: u32, place: u64, operand: u64, expected: u64) -> Option<Call>
    ensures { MatchOption result (AsksNone (IsRequest kind width place operand expected)) (λ call. IsRequest kind width place operand expected call × HasWidth call) }
{
    match (kind, width) {
        (LOAD, 8) => Some(Call::Load {
            width: 8,
            addr: place,
        }),
        (STORE, 8) => Some(Call::Store {
            width: 8,
            addr: place,
            value: operand,
        }),
        _ => any_call_of(kind, width, place, operand, expected),
    }
}

/// The status of a fault.
pub fn status_of(fault: Fault) -> u32
    ensures { IsStatus result fault }
{
    NO_REPLY + u32::from(fault.number())
}

/// The status of a refusal.
pub fn refusal_status(refusal: Declined) -> u32
    ensures { IsRefusalStatus result refusal }
{
    match refusal {
        Declined::Fault(fault) => status_of(fault),
        Declined::Lent => LENT,
        Declined::Wanted(_) => WANTED,
        Declined::NotHere => NO_PAGE,
        Declined::NoSuchLending => BAD_ARGUMENT,
    }
}

/// What a page is lent for by this number, where it is one.
pub fn lending_of(number: u32) -> Option<Lending>
    ensures { MatchOption result ((l : Lending) → number ≢ lending_number l) (λ l. number ≡ lending_number l) }
{
    match number {
        UNLENT => Some(Lending::Unlent),
        TO_READ => Some(Lending::ToRead),
        TO_WRITE => Some(Lending::ToWrite),
        _ => None,
    }
}

/// The number of what a page is lent for.
pub fn lending_number(lending: Lending) -> u32
    ensures { result ≡ lending_number lending }
{
    match lending {
        Lending::Unlent => UNLENT,
        Lending::ToRead => TO_READ,
        Lending::ToWrite => TO_WRITE,
    }
}

/// Tells a reply: its status is the answer.
fn tell_reply(reply: Reply, value: &mut u64) -> u32
    ensures { Tells reply result value.old value.new }
{
    match reply {
        Reply::Value(number) => {
            *value = number;
            DONE
        }
        Reply::Done => DONE,
        Reply::Refused(number) => u32::from(number),
    }
}

/// Tells whether there is a reply, and which.
pub fn tell(progress: Option<Reply>, value: &mut u64) -> u32
    ensures { TellsProgress progress result value.old value.new }
{
    match progress {
        Some(reply) => tell_reply(reply, value),
        None => PENDING,
    }
}

/// The number of a verdict.
pub fn verdict_number(verdict: Verdict) -> u32
    ensures { result ≡ verdict_number verdict }
{
    match verdict {
        Verdict::Next => 0,
        Verdict::Repeat => 1,
        Verdict::Ahead => 2,
        Verdict::NotMine => 3,
    }
}
