//! The functions of `ivy.h`, as a static library with an opaque handle over `ivy_embedded`.
//!
//! `include/ivy.h` says what a program in C owes, and what each status leaves.
#![tactic(auto)]

ghost use Rattle.std.specs.Prelude.{◌≡◌, ◌≢◌, ◌<◌, Option, None, Some, IfSome, MatchOption, length};
ghost use Rattle.std.specs.Mem.{manually_drop_value};
ghost use Rattle.std.specs.Coded.{codes};
ghost use Rattle.ivy_model.specs.declared.Config.{Config};
ghost use Rattle.ivy_model.specs.declared.Row.TheVariants.{Loads, Stores};
ghost use Rattle.ivy_model.specs.stated.Legal.{HasWidth};
ghost use Rattle.ivy_pagetable.specs.stated.NodeSets.{nodes_code};
ghost use Rattle.ivy_alloc.specs.Heap.{heap_state_code};
ghost use Rattle.ivy_embedded.specs.Nodes.{Embedded, first_embedded, opened_embedded};
ghost use Rattle.ivy_embedded.specs.Blocks.{BeginsAll, HasWordsAt, LoadsAll, RefusesBlock, RefusesStores, StoresAll, StoresNoneRead, TakesAll};
ghost use Rattle.ivy_embedded.specs.Exports.{Answers, AsksNone, Begins, BeginsBlock, CarriesOut, Delivers, IsRequest, Polls, Pulses, RefusesCall, RefusesPoll, RefusesPulse, RefusesString, TakesAt, TakesBlock, marks_at};
ghost use Rattle.ivy_embedded.specs.Fetches.{Fetches, RefusesFetch};
ghost use Rattle.ivy_embedded.specs.Lending.{LendsSoundly};
ghost use Rattle.ivy_embedded.specs.LentPages.{DeliversFarAt, GivesBack, GoesOnFor, IsTold, Lends, RefusesGiveBack, RefusesLend, RefusesPeer, TellsWanted};
ghost use Rattle.ivy_embedded.specs.declared.lending.Want.{Want};
ghost use Rattle.ivy_embedded.specs.Openings.{IsOpenedBy, Names, RefusesOpening, RefusesOpeningBy};
ghost use Rattle.ivy_embedded.specs.Peers.{KeepsFor, OwesTo, TellsThose};
ghost use Rattle.ivy_embedded.specs.Turns.{TellsTurns};
ghost use Rattle.ivy_c.specs.Ownership.{handle_owns};

use ivy_embedded::{
    BAD_ARGUMENT, BAD_CONFIG, CLOSED, DONE, DYNAMIC, Declined, Embedded, FETCH_AND_ADD, LENT,
    MEMORY, NO_CALL, NO_FRAME, OPEN, PENDING, SHORT_BUFFER, STEADY, TakenString, WANTED, Want,
    call_of, config_of, lending_number, lending_of, manager_of, refusal_status, status_of, tell,
    verdict_number,
};
use ivy_model::{Call, Row};
use ivy_site::Opening;
use std::alloc::Global;
use std::marker::Model;
use std::mem::{ManuallyDrop, replace};
use std::ptr::null_mut;

/// The version of the functions of `include/ivy.h`.
pub const VERSION: u32 = 1;

/// A node on the heap that is not dropped with its box: a box that C holds is none that anything
/// drops. [`end`] drops it.
pub type Held = Box<ManuallyDrop<Embedded>, Global>;

/// Nothing, or a node on the heap. All its bytes zero, it is nothing.
#[repr(C)]
pub struct Handle {
    at: *mut u8,
    pub ghost held: { Option Embedded } by { Prim.hlevel (codes, nodes_code, heap_state_code) },
}

impl Model for Handle {
    ghost also_owns = { λ h. handle_owns h.at h.held };
}

impl Handle {
    /// Nothing.
    pub fn nothing() -> Handle
        ensures { result.held ≡ None }
    {
        Handle { at: null_mut() }
    }

    /// A handle of a node.
    pub fn of(node: Held) -> Handle
        ensures { result.held ≡ Some (manually_drop_value node.value) }
    {
        let at = Box::into_raw(node);
        Handle { at: at as *mut u8 }
    }

    /// The node, if there is one.
    pub fn into_box(self, alloc: Global) -> Option<Held>
        ensures { MatchOption result (self.held ≡ None) (λ node. self.held ≡ Some (manually_drop_value node.value)) }
    {
        let Handle { at } = self;
        if at.is_null() {
            return None;
        }
        Some(unsafe { Box::from_raw(alloc, at as *mut ManuallyDrop<Embedded>) })
    }
}

/// Puts a node on the heap, or drops it where there is no memory.
fn held(alloc: Global, node: Embedded) -> Option<Held>
    ensures { IfSome result (λ it. manually_drop_value it.value ≡ node) }
{
    match Box::new(alloc, ManuallyDrop::new(node)) {
        Ok(it) => Some(it),
        Err(refused) => {
            drop(ManuallyDrop::into_inner(refused.value));
            None
        }
    }
}

/// Drops a node that is on the heap. It stands apart, since it moves the whole node to the stack, and callers are made often.
#[cold]
#[inline(never)]
fn end(node: Held) {
    drop(ManuallyDrop::into_inner(Box::into_inner(node)));
}

/// Takes the node out of a handle.
fn take(alloc: Global, handle: &mut Handle) -> Option<Held>
    ensures taken { MatchOption result (handle.old.held ≡ None) (λ node. handle.old.held ≡ Some (manually_drop_value node.value)) }
    ensures nothing { handle.new.held ≡ None }
{
    replace(handle, Handle::nothing()).into_box(alloc)
}

/// Puts a node into a handle, in the place of what it had.
fn put(alloc: Global, handle: &mut Handle, node: Held)
    ensures held { handle.new.held ≡ Some (manually_drop_value node.value) }
    ensures lent { LendsSoundly (manually_drop_value node.value) }
{
    node.lends_soundly();
    if let Some(before) = replace(handle, Handle::of(node)).into_box(alloc) {
        end(before);
    }
}

/// The version of these functions.
#[unsafe(no_mangle)]
pub extern "C" fn ivy_version() -> u32
    ensures { result ≡ VERSION }
{
    VERSION
}

/// Opens node `me` of a configuration in a handle that has none. It has made no call yet.
///
/// OPEN where the handle has a node. Else the first that holds: BAD_ARGUMENT where there is no such manager, BAD_CONFIG where
/// the configuration is out of its limits, BAD_ARGUMENT where it has no such node. Else DONE, or MEMORY.
#[unsafe(no_mangle)]
pub extern "C" fn ivy_open(
    alloc: Global,
    handle: &mut Handle,
    nodes: u32,
    pages: u32,
    page_size: u32,
    manager: u32,
    me: u32,
) -> u32
    ensures done { result ≡ DONE → (c : Config) × Names nodes pages page_size manager c × (me < c.nodes) × (handle.old.held ≡ None) × (handle.new.held ≡ Some (first_embedded c me)) }
    ensures same { result ≢ DONE → handle.new.held ≡ handle.old.held }
    ensures refused { result ≢ DONE → RefusesOpening nodes pages page_size manager me result handle.old.held }
    ensures lent { IfSome handle.new.held LendsSoundly }
{
    let opening = Opening::Configured;
    open_as(alloc, handle, nodes, pages, page_size, manager, me, opening)
}

/// The same by any manager: a number of [`ivy_open`], or STEADY, with which all nodes of a run begin under a configuration
/// that names DYNAMIC.
#[unsafe(no_mangle)]
pub extern "C" fn ivy_open_by(
    alloc: Global,
    handle: &mut Handle,
    nodes: u32,
    pages: u32,
    page_size: u32,
    manager: u32,
    me: u32,
) -> u32
    ensures done { result ≡ DONE → IsOpenedBy nodes pages page_size manager me handle.old.held handle.new.held }
    ensures same { result ≢ DONE → handle.new.held ≡ handle.old.held }
    ensures refused { result ≢ DONE → RefusesOpeningBy nodes pages page_size manager me result handle.old.held }
    ensures lent { IfSome handle.new.held LendsSoundly }
{
    if manager == STEADY {
        let opening = Opening::Steady;
        return open_as(alloc, handle, nodes, pages, page_size, DYNAMIC, me, opening);
    }
    let opening = Opening::Configured;
    open_as(alloc, handle, nodes, pages, page_size, manager, me, opening)
}

/// Opens node `me`, which begins so, under a configuration of these numbers.
fn open_as(
    alloc: Global,
    handle: &mut Handle,
    nodes: u32,
    pages: u32,
    page_size: u32,
    manager: u32,
    me: u32,
    opening: Opening,
) -> u32
    ensures done { result ≡ DONE → (c : Config) × Names nodes pages page_size manager c × (me < c.nodes) × (handle.old.held ≡ None) × (handle.new.held ≡ Some (opened_embedded opening c me)) }
    ensures same { result ≢ DONE → handle.new.held ≡ handle.old.held }
    ensures refused { result ≢ DONE → RefusesOpening nodes pages page_size manager me result handle.old.held }
    ensures lent { IfSome handle.new.held LendsSoundly }
{
    if let Some(node) = take(alloc, handle) {
        put(alloc, handle, node);
        return OPEN;
    }
    if manager_of(manager).is_none() {
        return BAD_ARGUMENT;
    }
    let Some(config) = config_of(nodes, pages, page_size, manager) else {
        return BAD_CONFIG;
    };
    let Ok(me) = u8::try_from(me) else {
        return BAD_ARGUMENT;
    };
    if config.nodes <= me {
        return BAD_ARGUMENT;
    }
    let Ok(node) = Embedded::open_by(alloc, &config, me, opening) else {
        return MEMORY;
    };
    let Some(node) = held(alloc, node) else {
        return MEMORY;
    };
    put(alloc, handle, node);
    DONE
}

/// Ends a node, and frees what it had. A handle that has none stays as it is.
#[unsafe(no_mangle)]
pub extern "C" fn ivy_close(alloc: Global, handle: &mut Handle)
    ensures { handle.new.held ≡ None }
{
    if let Some(node) = take(alloc, handle) {
        end(node);
    }
}

/// Hands in a call, and begins it, whatever call is in progress and whatever page is lent.
#[cold]
#[inline(never)]
fn begin_slowly(
    alloc: Global,
    handle: &mut Handle,
    kind: u32,
    width: u32,
    place: u64,
    operand: u64,
    expected: u64,
    value: &mut u64,
) -> u32
    ensures answers { Answers result handle.old.held handle.new.held (Begins (IsRequest kind width place operand expected) result value.old value.new) (RefusesCall (IsRequest kind width place operand expected) result) }
    ensures lent { IfSome handle.new.held LendsSoundly }
{
    let Some(mut node) = take(alloc, handle) else {
        return CLOSED;
    };
    let Some(call) = call_of(kind, width, place, operand, expected) else {
        put(alloc, handle, node);
        return BAD_ARGUMENT;
    };
    if node.is_lent(call) {
        put(alloc, handle, node);
        return LENT;
    }
    let begun = node.begin(call);
    put(alloc, handle, node);
    match begun {
        Ok(progress) => tell(progress, value),
        Err(fault) => status_of(fault),
    }
}

/// The call that is asked for, if there is one. A fetch-and-add of 8 bytes takes no look at its width, as loads and stores
/// of 8 bytes take none in [`call_of`].
fn asked(kind: u32, width: u32, place: u64, operand: u64, expected: u64) -> Option<Call>
    ensures { MatchOption result (AsksNone (IsRequest kind width place operand expected)) (λ call. IsRequest kind width place operand expected call × HasWidth call) }
{
    match kind {
        FETCH_AND_ADD if width == 8 => Some(Call::FetchAdd {
            width: 8,
            addr: place,
            value: operand,
        }),
        _ => call_of(kind, width, place, operand, expected),
    }
}

/// Hands in a call, and begins it.
#[unsafe(no_mangle)]
pub extern "C" fn ivy_begin(
    alloc: Global,
    handle: &mut Handle,
    kind: u32,
    width: u32,
    place: u64,
    operand: u64,
    expected: u64,
    value: &mut u64,
) -> u32
    ensures answers { Answers result handle.old.held handle.new.held (Begins (IsRequest kind width place operand expected) result value.old value.new) (RefusesCall (IsRequest kind width place operand expected) result) }
    ensures lent { IfSome handle.new.held LendsSoundly }
{
    let Some(mut node) = take(alloc, handle) else {
        return CLOSED;
    };
    if !node.is_ready(place) {
        put(alloc, handle, node);
        return begin_slowly(alloc, handle, kind, width, place, operand, expected, value);
    }
    let Some(call) = asked(kind, width, place, operand, expected) else {
        put(alloc, handle, node);
        return BAD_ARGUMENT;
    };
    // told before the node goes back, where it is known still which reply it is: so a hit looks at it once
    let status = match node.begin_ready(call) {
        Ok(progress) => tell(progress, value),
        Err(fault) => status_of(fault),
    };
    put(alloc, handle, node);
    status
}

/// The reply of the call in progress.
#[unsafe(no_mangle)]
pub extern "C" fn ivy_reply(alloc: Global, handle: &mut Handle, value: &mut u64) -> u32
    ensures answers { Answers result handle.old.held handle.new.held (Polls result value.old value.new) (RefusesPoll result) }
    ensures lent { IfSome handle.new.held LendsSoundly }
{
    let Some(mut node) = take(alloc, handle) else {
        return CLOSED;
    };
    if node.is_free() {
        put(alloc, handle, node);
        return NO_CALL;
    }
    let polled = node.poll();
    put(alloc, handle, node);
    match polled {
        Ok(progress) => tell(progress, value),
        Err(fault) => status_of(fault),
    }
}

/// Words of 8 bytes in a row from an address on are loaded into the head of a buffer, and it is told how many: as many as
/// the buffer has room for, as lie in the page of the address, and as can be read here at once. Where it is none nothing
/// was done, and the first word is asked for by [`ivy_begin`].
#[unsafe(no_mangle)]
pub extern "C" fn ivy_load_block(
    alloc: Global,
    handle: &mut Handle,
    addr: u64,
    into: &mut [u8],
    words: &mut usize,
) -> u32
    ensures loads { Answers result handle.old.held handle.new.held (CarriesOut Loads addr into.new result words.new) (λ _. ⊥) }
    ensures many { LoadsAll addr (length into.old) words.new handle.old.held }
    ensures words { HasWordsAt addr result words.new into.new handle.new.held }
    ensures sized { length into.new ≡ length into.old }
    ensures lent { IfSome handle.new.held LendsSoundly }
{
    let Some(mut node) = take(alloc, handle) else {
        return CLOSED;
    };
    *words = node.load_row(addr, into);
    put(alloc, handle, node);
    DONE
}

/// The words of 8 bytes of a buffer are stored in a row from an address on, and it is told how many, as [`ivy_load_block`]
/// does: as many as can be written here at once. LENT where the page is lent to be read.
#[unsafe(no_mangle)]
pub extern "C" fn ivy_store_block(
    alloc: Global,
    handle: &mut Handle,
    addr: u64,
    from: &[u8],
    words: &mut usize,
) -> u32
    ensures stores { Answers result handle.old.held handle.new.held (CarriesOut Stores addr from.now result words.new) (RefusesStores addr result) }
    ensures many { StoresAll addr (length from.now) result words.new handle.old.held }
    ensures unread { StoresNoneRead addr result words.new handle.old.held }
    ensures words { HasWordsAt addr result words.new from.now handle.new.held }
    ensures lent { IfSome handle.new.held LendsSoundly }
{
    let Some(mut node) = take(alloc, handle) else {
        return CLOSED;
    };
    let stored = node.store_row(addr, from);
    put(alloc, handle, node);
    match stored {
        Ok(many) => {
            *words = many;
            DONE
        }
        Err(refusal) => refusal_status(refusal),
    }
}

/// The calls of words of 8 bytes in a row from an address on are made together, where the first has to wait, and it is
/// told how many: as many as the bytes have, and as lie in the page of the address.
fn begin_block(
    alloc: Global,
    handle: &mut Handle,
    kind: Row,
    addr: u64,
    bytes: &[u8],
    words: &mut usize,
) -> u32
    ensures begins { Answers result handle.old.held handle.new.held (BeginsBlock kind addr bytes.now result words.new) (RefusesBlock addr result) }
    ensures many { BeginsAll kind addr (length bytes.now) result words.new handle.old.held }
    ensures lent { IfSome handle.new.held LendsSoundly }
{
    let Some(mut node) = take(alloc, handle) else {
        return CLOSED;
    };
    let begun = node.call_row(kind, addr, bytes.len() / 8, bytes);
    put(alloc, handle, node);
    match begun {
        Ok(many) => {
            *words = many;
            if many == 0 { DONE } else { PENDING }
        }
        Err(refusal) => refusal_status(refusal),
    }
}

/// The loads of words of 8 bytes in a row from an address on, for which a buffer has room, are made together, where the
/// first has to wait, and it is told how many. Where it is none nothing was done; so it is with LENT, where the page is
/// lent. No byte of the buffer is looked at, or kept.
#[unsafe(no_mangle)]
pub extern "C" fn ivy_begin_load_block(
    alloc: Global,
    handle: &mut Handle,
    addr: u64,
    room: &[u8],
    words: &mut usize,
) -> u32
    ensures begins { Answers result handle.old.held handle.new.held (BeginsBlock Loads addr room.now result words.new) (RefusesBlock addr result) }
    ensures many { BeginsAll Loads addr (length room.now) result words.new handle.old.held }
    ensures lent { IfSome handle.new.held LendsSoundly }
{
    begin_block(alloc, handle, Row::Loads, addr, room, words)
}

/// The stores of the words of 8 bytes of a buffer in a row from an address on are made together, as those of loads are by
/// [`ivy_begin_load_block`]. The buffer is not kept.
#[unsafe(no_mangle)]
pub extern "C" fn ivy_begin_store_block(
    alloc: Global,
    handle: &mut Handle,
    addr: u64,
    from: &[u8],
    words: &mut usize,
) -> u32
    ensures begins { Answers result handle.old.held handle.new.held (BeginsBlock Stores addr from.now result words.new) (RefusesBlock addr result) }
    ensures many { BeginsAll Stores addr (length from.now) result words.new handle.old.held }
    ensures lent { IfSome handle.new.held LendsSoundly }
{
    begin_block(alloc, handle, Row::Stores, addr, from, words)
}

/// The replies to loads in a row from an address on, which are in progress, are taken at once, where they are there and the
/// buffer has room for all of their words, and it is told how many. Where it is none nothing was done.
#[unsafe(no_mangle)]
pub extern "C" fn ivy_take_load_block(
    alloc: Global,
    handle: &mut Handle,
    addr: u64,
    into: &mut [u8],
    words: &mut usize,
) -> u32
    ensures taken { Answers result handle.old.held handle.new.held (TakesBlock Loads addr into.new result words.new) (λ _. ⊥) }
    ensures many { TakesAll Loads addr into.old words.new handle.old.held }
    ensures sized { length into.new ≡ length into.old }
    ensures lent { IfSome handle.new.held LendsSoundly }
{
    let Some(mut node) = take(alloc, handle) else {
        return CLOSED;
    };
    *words = node.take_loads(addr, into);
    put(alloc, handle, node);
    DONE
}

/// The replies to stores of the words at the head of a buffer in a row from an address on, which are in progress, are
/// taken, as those of loads are by [`ivy_take_load_block`].
#[unsafe(no_mangle)]
pub extern "C" fn ivy_take_store_block(
    alloc: Global,
    handle: &mut Handle,
    addr: u64,
    from: &[u8],
    words: &mut usize,
) -> u32
    ensures taken { Answers result handle.old.held handle.new.held (TakesBlock Stores addr from.now result words.new) (λ _. ⊥) }
    ensures many { TakesAll Stores addr from.now words.new handle.old.held }
    ensures lent { IfSome handle.new.held LendsSoundly }
{
    let Some(mut node) = take(alloc, handle) else {
        return CLOSED;
    };
    *words = node.take_stores(addr, from);
    put(alloc, handle, node);
    DONE
}

/// The node fetches a page, 1 to be read or 2 to be written, in a turn: the page is asked for, and comes while the program
/// goes on. No call is of it, and there is no reply to it. It is told whether the page is asked for from now on: 1, or 0
/// where nothing was done.
#[unsafe(no_mangle)]
pub extern "C" fn ivy_fetch(
    alloc: Global,
    handle: &mut Handle,
    page: u32,
    to: u32,
    begun: &mut u32,
) -> u32
    ensures answers { Answers result handle.old.held handle.new.held (Fetches page to result begun.new) (RefusesFetch page to result) }
    ensures lent { IfSome handle.new.held LendsSoundly }
{
    let Some(mut node) = take(alloc, handle) else {
        return CLOSED;
    };
    let Some(lending) = lending_of(to) else {
        put(alloc, handle, node);
        return BAD_ARGUMENT;
    };
    let fetched = node.fetch(page, lending);
    put(alloc, handle, node);
    match fetched {
        Ok(is_begun) => {
            *begun = u32::from(is_begun);
            DONE
        }
        Err(refusal) => refusal_status(refusal),
    }
}

/// How many turns the node listed since it was opened, in 64 bits. It changes nothing.
#[unsafe(no_mangle)]
pub extern "C" fn ivy_turns(alloc: Global, handle: &mut Handle, turns: &mut u64) -> u32
    ensures answers { Answers result handle.old.held handle.new.held (TellsTurns result turns.new) (λ _. ⊥) }
    ensures lent { IfSome handle.new.held LendsSoundly }
{
    let Some(node) = take(alloc, handle) else {
        return CLOSED;
    };
    *turns = node.turns();
    put(alloc, handle, node);
    DONE
}

/// The nodes for which some message is not acknowledged yet, as the bits of a number. It changes nothing.
#[unsafe(no_mangle)]
pub extern "C" fn ivy_kept_set(alloc: Global, handle: &mut Handle, nodes: &mut u32) -> u32
    ensures answers { Answers result handle.old.held handle.new.held (TellsThose KeepsFor result nodes.new) (λ _. ⊥) }
    ensures lent { IfSome handle.new.held LendsSoundly }
{
    let Some(node) = take(alloc, handle) else {
        return CLOSED;
    };
    *nodes = node.kept_set();
    put(alloc, handle, node);
    DONE
}

/// The nodes to which an acknowledgement is owed, as the bits of a number. It changes nothing.
#[unsafe(no_mangle)]
pub extern "C" fn ivy_owed_set(alloc: Global, handle: &mut Handle, nodes: &mut u32) -> u32
    ensures answers { Answers result handle.old.held handle.new.held (TellsThose OwesTo result nodes.new) (λ _. ⊥) }
    ensures lent { IfSome handle.new.held LendsSoundly }
{
    let Some(node) = take(alloc, handle) else {
        return CLOSED;
    };
    *nodes = node.owed_set();
    put(alloc, handle, node);
    DONE
}

/// A string comes, any bytes at all. What it was: 0 the next message of its source, 1 nothing new,
/// 2 one before which others are missing, 3 one for another node. WANTED where it would take a page that is lent.
#[unsafe(no_mangle)]
pub extern "C" fn ivy_deliver(
    alloc: Global,
    handle: &mut Handle,
    bytes: &[u8],
    what: &mut u32,
) -> u32
    ensures answers { Answers result handle.old.held handle.new.held (Delivers bytes.now result what.new) (RefusesString bytes.now result) }
    ensures far { DeliversFarAt bytes.now result what.new handle.old.held handle.new.held }
    ensures lent { IfSome handle.new.held LendsSoundly }
{
    let Some(mut node) = take(alloc, handle) else {
        return CLOSED;
    };
    let delivered = node.deliver(bytes);
    put(alloc, handle, node);
    match delivered {
        Ok(verdict) => {
            *what = verdict_number(verdict);
            DONE
        }
        Err(refusal) => refusal_status(refusal),
    }
}

/// The first string that waits is written to the head of a buffer, with its length and the node
/// that it is for, and waits no more. Where the buffer is too short it waits, and its length is
/// told.
#[unsafe(no_mangle)]
pub extern "C" fn ivy_next_frame(
    alloc: Global,
    handle: &mut Handle,
    buffer: &mut [u8],
    len: &mut usize,
    dest: &mut u32,
) -> u32
    ensures answers { TakesAt result buffer.new len.new dest.new handle.old.held handle.new.held }
    ensures marks { marks_at handle.new.held ≡ marks_at handle.old.held }
    ensures lent { IfSome handle.new.held LendsSoundly }
{
    let Some(mut node) = take(alloc, handle) else {
        return CLOSED;
    };
    let taken = node.take_into(buffer);
    put(alloc, handle, node);
    match taken {
        TakenString::Given(length, to) => {
            *len = length;
            *dest = u32::from(to);
            DONE
        }
        TakenString::TooLong(length) => {
            *len = length;
            SHORT_BUFFER
        }
        TakenString::Nothing => NO_FRAME,
    }
}

/// What another node has not acknowledged waits to be put on the wire again, or an acknowledgement
/// where one is owed.
#[unsafe(no_mangle)]
pub extern "C" fn ivy_pulse(alloc: Global, handle: &mut Handle, to: u8) -> u32
    ensures answers { Answers result handle.old.held handle.new.held (Pulses to result) (RefusesPulse to result) }
    ensures lent { IfSome handle.new.held LendsSoundly }
{
    let Some(mut node) = take(alloc, handle) else {
        return CLOSED;
    };
    if !node.is_peer(to) {
        put(alloc, handle, node);
        return BAD_ARGUMENT;
    }
    let pulsed = node.pulse(to);
    put(alloc, handle, node);
    match pulsed {
        Ok(()) => DONE,
        Err(fault) => status_of(fault),
    }
}

/// A page is lent to the program: no string takes it from now on, until it is given back. What for: 1 to be read, 2 to be
/// written.
#[unsafe(no_mangle)]
pub extern "C" fn ivy_lend(alloc: Global, handle: &mut Handle, page: u32, lending: u32) -> u32
    ensures answers { Answers result handle.old.held handle.new.held (Lends page lending result) (RefusesLend page lending result) }
    ensures lent { IfSome handle.new.held LendsSoundly }
{
    let Some(mut node) = take(alloc, handle) else {
        return CLOSED;
    };
    let Some(to) = lending_of(lending) else {
        put(alloc, handle, node);
        return BAD_ARGUMENT;
    };
    let lent = node.lend(page, to);
    put(alloc, handle, node);
    match lent {
        Ok(()) => DONE,
        Err(refusal) => refusal_status(refusal),
    }
}

/// A page that is lent is given back: 0 whole, 1 all but the right to read it.
#[unsafe(no_mangle)]
pub extern "C" fn ivy_give_back(alloc: Global, handle: &mut Handle, page: u32, on: u32) -> u32
    ensures answers { Answers result handle.old.held handle.new.held (GivesBack page on result) (RefusesGiveBack page on result) }
    ensures lent { IfSome handle.new.held LendsSoundly }
{
    let Some(mut node) = take(alloc, handle) else {
        return CLOSED;
    };
    let Some(lending) = lending_of(on) else {
        put(alloc, handle, node);
        return BAD_ARGUMENT;
    };
    let given = node.give_back(page, lending);
    put(alloc, handle, node);
    match given {
        Ok(()) => DONE,
        Err(refusal) => refusal_status(refusal),
    }
}

/// Tells which page is wanted, and what it may be lent for then.
fn tell_want(want: Want, page: &mut u32, on: &mut u32)
    ensures { IsTold want page.new on.new }
{
    *page = want.page;
    *on = lending_number(want.on);
}

/// Which page that is lent a string would take, were it delivered now, and what that may be lent for after it: WANTED. It
/// changes nothing.
#[unsafe(no_mangle)]
pub extern "C" fn ivy_wanted(
    alloc: Global,
    handle: &mut Handle,
    bytes: &[u8],
    page: &mut u32,
    on: &mut u32,
) -> u32
    ensures answers { Answers result handle.old.held handle.new.held (TellsWanted bytes.now result page.new on.new) (λ _. ⊥) }
    ensures lent { IfSome handle.new.held LendsSoundly }
{
    let Some(node) = take(alloc, handle) else {
        return CLOSED;
    };
    let wanted = node.wanted(bytes);
    put(alloc, handle, node);
    match wanted {
        Some(want) => {
            tell_want(want, page, on);
            WANTED
        }
        None => DONE,
    }
}

/// The node goes on with the strings of another one that it holds and that are due, up to one that would take a page that is
/// lent: that page is told then.
#[unsafe(no_mangle)]
pub extern "C" fn ivy_go_on(
    alloc: Global,
    handle: &mut Handle,
    peer: u8,
    page: &mut u32,
    on: &mut u32,
) -> u32
    ensures answers { Answers result handle.old.held handle.new.held (GoesOnFor peer result page.new on.new) (RefusesPeer peer result) }
    ensures lent { IfSome handle.new.held LendsSoundly }
{
    let Some(mut node) = take(alloc, handle) else {
        return CLOSED;
    };
    if !node.is_peer(peer) {
        put(alloc, handle, node);
        return BAD_ARGUMENT;
    }
    let went = node.go_on(peer);
    put(alloc, handle, node);
    match went {
        Ok(()) => DONE,
        Err(Declined::Wanted(want)) => {
            tell_want(want, page, on);
            WANTED
        }
        Err(refusal) => refusal_status(refusal),
    }
}
