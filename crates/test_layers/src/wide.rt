//! Tables of many pages, each of which is made when it is first written.
ghost use Rattle.std.specs.Prelude.{◌≡◌, length};
ghost use Rattle.ivy_pagetable.specs.stated.Words.{IsWord};

use crate::common::{PAIR, expect_same};
use ivy_model::Config;
use ivy_pagetable::{NodeTable, Out, Word};
use std::alloc::{Allocator, Global};
use std::process::Abort;
use test_support::Failing;

/// More pages than a node makes as it begins.
const WIDE: Config = Config { pages: 257, ..PAIR };

const LOAD: Word = Word::Load {
    width: 8,
    offset: 8,
};

const STORE: Word = Word::Store {
    width: 8,
    offset: 8,
    value: 5,
};

/// The table of node 0 at first. That it has 257 pages of 64 bytes is proved here once.
fn first_table<'a>(rt: &impl Abort, memory: &'a Failing<Global>) -> NodeTable<&'a Failing<Global>>
    ensures pages { length result.entries ≡ 257 }
    ensures sized { result.page_size ≡ 64 }
{
    NodeTable::new(memory, &WIDE, 0).expect(rt, "memory")
}

/// What a word of the last page gives; none where it is refused. The table has as many pages then, of the same size.
fn gives<A: Allocator>(table: &mut NodeTable<A>, word: Word) -> Option<Out>
    requires pages { length table.old.entries ≡ 257 }
    requires sized { table.old.page_size ≡ 64 }
    requires word { IsWord 64 word }
    ensures pages { length table.new.entries ≡ length table.old.entries }
    ensures sized { table.new.page_size ≡ table.old.page_size }
{
    table.carry_out(256, word).ok()
}

/// How many words a row of one word stores on the last page. The table has as many pages then, of the same size.
fn stores<A: Allocator>(table: &mut NodeTable<A>) -> usize
    requires pages { length table.old.entries ≡ 257 }
    requires sized { table.old.page_size ≡ 64 }
    ensures pages { length table.new.entries ≡ length table.old.entries }
    ensures sized { table.new.page_size ≡ table.old.page_size }
{
    table.store_row(256, 8, &[0, 0, 0, 0, 0, 0, 0, 7])
}

#[test]
fn pages_are_made_when_written(rt: HostRuntime) {
    let memory = Failing::new(rt.alloc());
    let mut table = first_table(&rt, &memory);
    memory.refuse(1);
    expect_same(&rt, gives(&mut table, LOAD), Some(Out::Value(0)));
    expect_same(&rt, stores(&mut table), 0);
    expect_same(&rt, gives(&mut table, STORE), None);
    expect_same(&rt, gives(&mut table, LOAD), Some(Out::Value(0)));
    expect_same(&rt, gives(&mut table, STORE), Some(Out::Done));
    expect_same(&rt, gives(&mut table, LOAD), Some(Out::Value(5)));
    memory.refuse(1);
    expect_same(&rt, stores(&mut table), 1);
    expect_same(&rt, gives(&mut table, LOAD), Some(Out::Value(7)));
    expect_same(&rt, gives(&mut table, STORE), Some(Out::Done));
}
