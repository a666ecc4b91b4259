//! Sets of nodes, words of a page, the entries of a page table and the messages put off at them.
ghost use Rattle.std.specs.Prelude.{◌≡◌, length};

use crate::common::{expect_items, expect_same};
use ivy_model::{Config, Kind};
use ivy_pagetable::{
    Access, AwaitAcks, AwaitWrite, Entry, Idle, NodeSet, Out, Page, PageTable, PutOff, Request,
    Waiting, Word,
};
use std::alloc::Global;
use std::process::Abort;
use std::test::Fail;

const CONFIG: Config = Config {
    nodes: 4,
    pages: 2,
    page_size: 128,
    manager: Kind::Fixed,
};

/// The table of a node at first. That it has two pages of 128 bytes is proved here once, and not in each test.
fn first_table(rt: &(impl Abort + AllocGlobal), me: u8) -> PageTable<Global>
    ensures pages { length result.entries ≡ 2 }
    ensures sized { result.page_size ≡ 128 }
{
    PageTable::new(rt.alloc(), &CONFIG, me).expect(rt, "memory")
}

#[test]
fn sets_of_nodes(rt: HostRuntime) {
    let mut set = NodeSet::new();
    assert!(rt; set.is_empty());
    set.insert(7);
    set.insert(0);
    set.insert(5);
    set.insert(5);
    expect_items(&rt, set.nodes().as_slice(), &[0, 5, 7]);
    assert!(rt; set.contains(5));
    assert!(rt; !set.contains(6));
    let before = set;
    set.remove(5);
    set.remove(6);
    expect_items(&rt, set.nodes().as_slice(), &[0, 7]);
    assert!(rt; before.contains(5));
}

#[test]
fn all_nodes_in_a_set(rt: HostRuntime) {
    let mut set = NodeSet::new();
    for node in 0..8 {
        set.insert(7 - node);
    }
    expect_same(&rt, set.nodes().len(), 8);
}

/// Bit i of the number stands for node i.
#[test]
fn sets_as_numbers(rt: HostRuntime) {
    let set = NodeSet::from_bits(0b1000_0010);
    expect_items(&rt, set.nodes().as_slice(), &[1, 7]);
    expect_same(&rt, set.bits(), 130);
}

#[test]
fn numbers_have_their_highest_byte_first(rt: HostRuntime) -> Result<(), Fail> {
    let mut table = PageTable::new(rt.alloc(), &CONFIG, 0)?;
    let store = Word::Store {
        width: 1,
        offset: 64,
        value: 258,
    };
    let load = Word::Load {
        width: 2,
        offset: 64,
    };
    expect_same(&rt, table.carry_out(1, store), Out::Done);
    expect_same(&rt, table.carry_out(1, load), Out::Value(512));
    expect_same(&rt, table.carry_out(0, load), Out::Value(0));
    Ok(())
}

/// A swap is written, and gives the number that stood there.
#[test]
fn swap_of_a_byte(rt: HostRuntime) {
    let mut table = first_table(&rt, 0);
    let swap = Word::Swap {
        width: 1,
        offset: 7,
        value: 511,
    };
    assert!(rt; swap.needs_write());
    expect_same(&rt, (swap.width(), swap.offset()), (1, 7));
    expect_same(&rt, table.carry_out(1, swap), Out::Value(0));
    let mut bytes = [1u8; 8];
    expect_same(&rt, swap.carry_out(&mut bytes), Out::Value(1));
    expect_same(&rt, bytes, [1, 1, 1, 1, 1, 1, 1, 255]);
}

/// A compare-and-swap is written, and looks at the bytes of its word alone.
#[test]
fn compare_and_swap_of_a_byte(rt: HostRuntime) {
    let cas = Word::Cas {
        width: 1,
        offset: 7,
        expected: 257,
        value: 511,
    };
    assert!(rt; cas.needs_write());
    expect_same(&rt, (cas.width(), cas.offset()), (1, 7));
    let mut bytes = [1u8; 8];
    expect_same(&rt, cas.carry_out(&mut bytes), Out::Value(1));
    expect_same(&rt, bytes, [1, 1, 1, 1, 1, 1, 1, 255]);
    expect_same(&rt, cas.carry_out(&mut bytes), Out::Value(255));
    expect_same(&rt, bytes, [1, 1, 1, 1, 1, 1, 1, 255]);
}

/// A sum is written, and loses what does not fit its word.
#[test]
fn fetch_and_add_of_two_bytes(rt: HostRuntime) {
    let add = Word::FetchAdd {
        width: 2,
        offset: 6,
        value: 65535,
    };
    assert!(rt; add.needs_write());
    expect_same(&rt, (add.width(), add.offset()), (2, 6));
    let mut bytes = [1u8; 8];
    expect_same(&rt, add.carry_out(&mut bytes), Out::Value(257));
    expect_same(&rt, bytes, [1, 1, 1, 1, 1, 1, 1, 0]);
}

/// The number that stands where a word is to be stored.
#[test]
fn number_of_a_word(rt: HostRuntime) -> Result<(), Fail> {
    let mut table = PageTable::new(rt.alloc(), &CONFIG, 0)?;
    table.install(1, [1u8; 128].as_slice());
    let store = Word::Store {
        width: 2,
        offset: 64,
        value: 3,
    };
    expect_same(&rt, table.number(1, store), 257);
    Ok(())
}

#[test]
fn eventcounts(rt: HostRuntime) {
    let mut bytes = [0u8; 64];
    let least = Word::Await {
        offset: 8,
        least: 1,
    };
    expect_same(&rt, least.carry_out(&mut bytes), Out::NotYet);
    expect_same(
        &rt,
        Word::Advance { offset: 8 }.carry_out(&mut bytes),
        Out::Done,
    );
    expect_same(&rt, least.carry_out(&mut bytes), Out::Value(1));
    expect_same(&rt, (least.width(), least.offset()), (8, 8));
}

#[test]
fn greatest_eventcount(rt: HostRuntime) {
    let mut bytes = [255u8; 64];
    expect_same(
        &rt,
        Word::Advance { offset: 8 }.carry_out(&mut bytes),
        Out::Full,
    );
    expect_same(
        &rt,
        Word::Count { offset: 8 }.carry_out(&mut bytes),
        Out::Value(u64::MAX),
    );
}

#[test]
fn page_of_a_table(rt: HostRuntime) {
    let mut table = first_table(&rt, 0);
    table.install(0, [7u8; 128].as_slice());
    expect_items(&rt, table.page(0), &[7u8; 128]);
    expect_items(&rt, table.page(1), &[0u8; 128]);
}

/// A page comes with a word carried out on it already, and the pages beside it stay.
#[test]
fn page_installed_from_a_spare_one(rt: HostRuntime) {
    let mut table = first_table(&rt, 0);
    table.install(1, [7u8; 128].as_slice());
    let mut spare = Page::zeros(rt.alloc(), 128).expect(&rt, "memory");
    spare.copy_from([1u8; 128].as_slice());
    let store = Word::Store {
        width: 1,
        offset: 64,
        value: 9,
    };
    expect_same(&rt, spare.carry_out(store), Out::Done);
    table.install(1, spare.bytes());
    let page = table.page(1);
    expect_same(&rt, (page[63], page[64]), (1, 9));
    expect_items(&rt, table.page(0), &[0u8; 128]);
}

#[test]
fn byte_of_a_page_written(rt: HostRuntime) {
    let mut table = first_table(&rt, 0);
    table.page_mut(1)[3] = 9;
    expect_same(&rt, table.page(1)[3], 9);
}

/// All pages are one slice, in order.
#[test]
fn bytes_of_all_pages(rt: HostRuntime) {
    let mut table = first_table(&rt, 0);
    table.install(0, [7u8; 128].as_slice());
    table.install(1, [9u8; 128].as_slice());
    let bytes = table.bytes();
    expect_same(&rt, bytes.len(), 256);
    expect_same(&rt, (bytes[127], bytes[128]), (7, 9));
}

#[test]
fn first_entries_of_nodes(rt: HostRuntime) {
    let owner = first_table(&rt, 0);
    let other = first_table(&rt, 3);
    assert!(rt; !owner.entry(0).is_locked());
    let owned = owner.entry(1);
    assert!(rt; owned.is_owner());
    assert!(rt; owned.writable());
    let absent = other.entry(1);
    assert!(rt; !absent.is_owner());
    assert!(rt; !absent.readable());
}

#[test]
fn reader_of_an_owned_page(rt: HostRuntime) {
    let mut table = first_table(&rt, 0);
    let shared = Idle::owned().with_reader(2).with_reader(1);
    expect_items(&rt, shared.copies().nodes().as_slice(), &[1, 2]);
    table.set_entry(0, Entry::Idle(shared));
    let entry = table.entry(0);
    assert!(rt; entry.is_owner());
    assert!(rt; entry.readable());
    assert!(rt; !entry.writable());
    assert!(rt; table.entry(1).writable());
}

/// That an entry waits to read, for this call, and that these messages are put off there, in order.
fn expect_put_off(rt: &impl Abort, entry: &Entry, word: Word, call: u64, messages: &[PutOff]) {
    let Entry::AwaitRead(waiting) = entry else {
        panic!(rt; "no word waits to read");
    };
    expect_items(rt, waiting.put_offs(), messages);
    let copied = waiting.copied();
    expect_items(rt, copied.put_offs(), messages);
    expect_same(rt, (waiting.word(), waiting.call()), (word, call));
    assert!(rt; !waiting.is_full());
}

#[test]
fn messages_are_put_off_in_order(rt: HostRuntime) {
    let mut table = first_table(&rt, 1);
    let word = Word::Count { offset: 0 };
    let first = PutOff {
        kind: Request::Invalidate,
        origin: 2,
        call: 5,
    };
    let second = PutOff {
        kind: Request::Read,
        origin: 3,
        call: 1,
    };
    assert!(rt; !table.put_off(0, first));
    table.set_entry(0, Entry::AwaitRead(Waiting::new(word, 9)));
    assert!(rt; table.put_off(0, first));
    assert!(rt; table.put_off(0, second));
    let entry = table.entry(0);
    assert!(rt; entry.is_locked());
    assert!(rt; !entry.readable());
    expect_put_off(&rt, entry, word, 9, &[first, second]);
}

/// Thirty-two messages can be put off at a locked entry, and no further one.
#[test]
fn thirty_two_are_put_off(rt: HostRuntime) {
    let mut table = first_table(&rt, 1);
    let word = Word::Advance { offset: 8 };
    assert!(rt; word.needs_write());
    assert!(rt; !Word::Count { offset: 8 }.needs_write());
    let message = PutOff {
        kind: Request::Write,
        origin: 2,
        call: 7,
    };
    let mut waiting = Waiting::new(word, 3);
    for _ in 0..32 {
        assert!(rt; !waiting.is_full());
        waiting.put_off(message);
    }
    let state = AwaitWrite::new(true, waiting);
    assert!(rt; state.had_copy());
    assert!(rt; state.waiting().is_full());
    table.set_entry(1, Entry::AwaitWrite(state));
    let entry = table.entry(1);
    assert!(rt; entry.readable());
    assert!(rt; !entry.is_owner());
    assert!(rt; !table.put_off(1, message));
}

/// A waiting entry is marked once a request was sent on from it.
#[test]
fn a_request_was_sent_on(rt: HostRuntime) {
    let mut waiting = Waiting::new(Word::Count { offset: 8 }, 3);
    assert!(rt; !waiting.sent_on());
    waiting.send_on();
    assert!(rt; waiting.sent_on());
    expect_same(&rt, waiting.call(), 3);
}

/// An owner that waits for acknowledgements reads its page, and does not write it yet.
#[test]
fn acknowledgements_are_missing(rt: HostRuntime) {
    let mut table = first_table(&rt, 1);
    let mut copies = NodeSet::new();
    copies.insert(3);
    assert!(rt; !copies.is_empty());
    let state = AwaitAcks::new(copies, Waiting::new(Word::Advance { offset: 8 }, 3));
    expect_items(&rt, state.left().nodes().as_slice(), &[3]);
    expect_same(&rt, state.waiting().call(), 3);
    let entry = Entry::AwaitAcks(state);
    assert!(rt; entry.is_locked());
    assert!(rt; entry.is_owner());
    assert!(rt; entry.readable());
    assert!(rt; !entry.writable());
    table.set_entry(0, entry);
    assert!(rt; table.entry(0).is_locked());
}

/// A copy is read, and its holder is no owner.
#[test]
fn copy_of_another_node(rt: HostRuntime) {
    let copy = Idle::plain(Access::Read);
    assert!(rt; copy.access().reads());
    assert!(rt; !copy.access().writes());
    assert!(rt; !copy.is_owner());
    assert!(rt; copy.copies().is_empty());
}
