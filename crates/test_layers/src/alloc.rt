//! The heap: least addresses, blocks that end and join, drawn calls beside a plain list of blocks, and
//! each growth refused in turn.
use crate::common::{PAIR, expect_same, expect_same_at};
use ivy_alloc::Heap;
use ivy_model::{Config, Fault};
use rand_core::utils::NextWord;
use rand_pcg::Lcg64Xsh32;
use std::alloc::{Allocator, Global};
use std::process::Abort;
use test_support::Failing;

/// A heap of 448 bytes, from 64 to 511.
const WIDE: Config = Config { pages: 8, ..PAIR };

const LEAST: u64 = 64;

const END: u64 = 512;

/// The smallest heap, of one page: from 64 to 127.
fn small_heap<A: Allocator + Copy>(rt: &impl Abort, alloc: A) -> Heap<A> {
    Heap::new(alloc, &PAIR).expect(rt, "memory")
}

/// A block of the heap. Of all that is promised of it, callers need nothing.
fn take<A: Allocator + Copy>(heap: &mut Heap<A>, size: u64) -> Result<u64, Fault> {
    heap.alloc(size)
}

/// The end of a block of the heap. Of all that is promised of it, callers need nothing.
fn end<A: Allocator + Copy>(heap: &mut Heap<A>, addr: u64) -> Result<(), Fault> {
    heap.free(addr)
}

/// That blocks are taken at the least addresses with room for them.
fn check_least<A: Allocator + Copy>(rt: &impl Abort, heap: &mut Heap<A>) {
    expect_same(rt, take(heap, 64), Ok(64));
    expect_same(rt, take(heap, 1), Err(Fault::NoRoom));
    expect_same(rt, end(heap, 64), Ok(()));
    expect_same(rt, end(heap, 64), Err(Fault::NotABlock));
    expect_same(rt, take(heap, 1), Ok(64));
    expect_same(rt, take(heap, 3), Ok(72));
    expect_same(rt, take(heap, 0), Err(Fault::ZeroSize));
    expect_same(rt, take(heap, u64::MAX), Err(Fault::NoRoom));
    expect_same(rt, take(heap, 48), Ok(80));
    expect_same(rt, take(heap, 8), Err(Fault::NoRoom));
}

#[test]
fn least_address(rt: HostRuntime) {
    check_least(&rt, &mut small_heap(&rt, rt.alloc()));
}

/// That a block is one where it starts, until it ends, and nowhere else.
fn check_starts<A: Allocator + Copy>(rt: &impl Abort, heap: &mut Heap<A>) {
    assert!(rt; !heap.is_block(64));
    expect_same(rt, take(heap, 16), Ok(64));
    assert!(rt; heap.is_block(64) && !heap.is_block(72));
    expect_same(rt, end(heap, 72), Err(Fault::NotABlock));
    expect_same(rt, end(heap, 64), Ok(()));
    assert!(rt; !heap.is_block(64));
}

#[test]
fn blocks_start_where_they_were_given(rt: HostRuntime) {
    check_starts(&rt, &mut small_heap(&rt, rt.alloc()));
}

/// Takes blocks of these sizes.
fn take_blocks<A: Allocator + Copy>(rt: &impl Abort, heap: &mut Heap<A>, sizes: &[u64]) {
    for &size in sizes {
        take(heap, size).expect(rt, "room");
    }
}

/// Ends the blocks that begin here.
fn end_blocks<A: Allocator + Copy>(rt: &impl Abort, heap: &mut Heap<A>, starts: &[u64]) {
    for &addr in starts {
        expect_same_at(rt, addr, end(heap, addr), Ok(()));
    }
}

/// Whether the whole heap has room again after blocks that fill it end in this order.
fn joins_again(rt: &(impl Abort + AllocGlobal), order: [u64; 3]) -> bool {
    let mut heap = small_heap(rt, rt.alloc());
    take_blocks(rt, &mut heap, &[16, 24, 24]);
    end_blocks(rt, &mut heap, &order);
    take(&mut heap, 64) == Ok(64)
}

#[test]
fn ended_blocks_join(rt: HostRuntime) {
    let orders = [
        [64, 80, 104],
        [64, 104, 80],
        [80, 64, 104],
        [80, 104, 64],
        [104, 64, 80],
        [104, 80, 64],
    ];
    for order in orders {
        assert!(rt; joins_again(&rt, order), "{order:?}");
    }
}

/// A live block of the plain list: its first byte, and the byte after it.
#[derive(Clone, Copy)]
struct Block {
    from: u64,
    to: u64,
}

/// Whether these bytes meet none of the blocks.
fn is_apart(blocks: &[Block], from: u64, to: u64) -> bool {
    for block in blocks {
        if block.from < to && from < block.to {
            return false;
        }
    }
    true
}

/// The least address, tried one word after another, at which so many bytes meet none of the blocks.
fn plain_room(blocks: &[Block], size: u64) -> Option<u64> {
    for word in 8..64u64 {
        let from = 8 * word;
        let to = from.saturating_add(size);
        if to <= END && is_apart(blocks, from, to) {
            return Some(from);
        }
    }
    None
}

/// What a plain list of blocks answers, and the list after it.
fn plain_alloc(rt: &impl Abort, blocks: &mut Vec<Block>, size: u64) -> Result<u64, Fault> {
    if size == 0 {
        return Err(Fault::ZeroSize);
    }
    let size = (size / 8 + u64::from(size % 8 != 0)).saturating_mul(8);
    let Some(from) = plain_room(blocks, size) else {
        return Err(Fault::NoRoom);
    };
    let to = from.saturating_add(size);
    blocks.push(Block { from, to }).expect(rt, "memory");
    Ok(from)
}

fn plain_free(blocks: &mut Vec<Block>, addr: u64) -> Result<(), Fault> {
    let Some(place) = blocks.iter().position(|b| b.from == addr) else {
        return Err(Fault::NotABlock);
    };
    blocks.swap_remove(place);
    Ok(())
}

/// One drawn call, of the heap and of the plain list of blocks. Sizes are 0 to 63 bytes, addresses
/// those of the heap's words and of some past it.
fn drawn_call(
    rt: &(impl Abort + AllocGlobal),
    heap: &mut Heap<Global>,
    blocks: &mut Vec<Block>,
    generator: &mut Lcg64Xsh32,
) {
    let word = u64::from(generator.next_word());
    let drawn = word / 2 % 64;
    if word % 2 == 0 {
        let plain = plain_alloc(rt, blocks, drawn);
        expect_same_at(rt, drawn, take(heap, drawn), plain);
    } else {
        let addr = LEAST + 8 * drawn;
        assert!(rt; heap.is_block(addr) == blocks.iter().any(|b| b.from == addr));
        let plain = plain_free(blocks, addr);
        expect_same_at(rt, addr, end(heap, addr), plain);
    }
}

#[test]
fn drawn_calls(rt: HostRuntime) {
    let mut heap = Heap::new(rt.alloc(), &WIDE).expect(&rt, "memory");
    let mut blocks = Vec::new(rt.alloc());
    let mut generator = Lcg64Xsh32::new(1, 1);
    for _ in 0..10_000u32 {
        drawn_call(&rt, &mut heap, &mut blocks, &mut generator);
    }
}

/// Whether the n-th growth of a call was asked for; then the fault is want of memory.
fn is_met(rt: &impl Abort, memory: &Failing<Global>, n: u64, fault: Option<Fault>) -> bool {
    let met = memory.asked(n) >= n;
    memory.refuse(0);
    expect_same_at(rt, n, fault, if met { Some(Fault::Memory) } else { None });
    met
}

fn new_at(rt: &impl Abort, memory: &Failing<Global>, n: u64) -> bool {
    memory.refuse(n);
    let fault = Heap::new(memory, &PAIR).err();
    is_met(rt, memory, n, fault)
}

/// The first block is taken with the n-th growth refused; then the heap is as it was.
fn alloc_at(rt: &impl Abort, memory: &Failing<Global>, n: u64) -> bool {
    let mut heap = small_heap(rt, memory);
    memory.refuse(n);
    let fault = take(&mut heap, 8).err();
    let met = is_met(rt, memory, n, fault);
    assert!(rt; heap.is_block(64) != met, "growth {n}");
    if met {
        expect_same_at(rt, n, take(&mut heap, 64), Ok(64));
    }
    met
}

/// Blocks that fill the heap end, and each second one leaves an extent more, with no growth.
#[test]
fn ending_a_block_takes_no_memory(rt: HostRuntime) {
    let memory = Failing::new(rt.alloc());
    let mut heap = small_heap(&rt, &memory);
    take_blocks(&rt, &mut heap, &[8; 8]);
    memory.refuse(1);
    end_blocks(&rt, &mut heap, &[64, 80, 96, 112, 72, 104, 120, 88]);
    expect_same(&rt, memory.asked(1), 0);
    memory.refuse(0);
    expect_same(&rt, take(&mut heap, 64), Ok(64));
}

#[test]
fn growths_of_a_heap(rt: HostRuntime) {
    let memory = Failing::new(rt.alloc());
    assert!(rt; new_at(&rt, &memory, 1));
    assert!(rt; !new_at(&rt, &memory, 2));
    let mut refused = 0;
    for n in 1..100 {
        if !alloc_at(&rt, &memory, n) {
            break;
        }
        refused = n;
    }
    assert!(rt; refused > 0 && refused < 99);
}
