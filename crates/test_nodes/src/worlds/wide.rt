//! Worlds of more than 256 pages: which are opened, and the last word of their heap.
use crate::common::{PAIR, expect_same, expect_same_at};
use crate::worlds::common::{Shown, shows};
use ivy_model::{Call, Config, Fault};
use ivy_world::{Rest, World, parse};
use std::alloc::{Allocator, Global};

/// A thousand pages of 64 bytes: the heap ends at 64,000.
const THOUSAND: Config = Config {
    pages: 1_000,
    ..PAIR
};

/// The most pages that there may be, of 64 bytes: the heap ends at 4,194,304.
const MOST: Config = Config {
    pages: 65_536,
    ..PAIR
};

/// One page more.
const ABOVE: Config = Config {
    pages: 65_537,
    ..PAIR
};

const NOBODY: &str = "node 0\nnode 1\n";

/// Why the world of these programs is not made: by the narrow limits, by the wide ones, and of own code.
fn refusals(alloc: Global, config: Config) -> Result<[Option<Fault>; 3], Fault> {
    Ok([
        World::new(alloc, config, parse(alloc, NOBODY)?).err(),
        World::wide(alloc, config, parse(alloc, NOBODY)?).err(),
        World::open(alloc, config).err(),
    ])
}

#[test]
fn worlds_of_many_pages(rt: HostRuntime) {
    let refused = Some(Fault::BadConfig);
    for (config, wanted) in [
        (PAIR, [None, None, None]),
        (THOUSAND, [refused, None, None]),
        (MOST, [refused, None, None]),
        (ABOVE, [refused, refused, refused]),
    ] {
        expect_same_at(&rt, config.pages, refusals(rt.alloc(), config), Ok(wanted));
    }
}

/// Whether a node of the world of these programs shows this once it stands still.
fn comes_to<A: Allocator + Copy>(
    alloc: A,
    config: Config,
    text: &str,
    shown: &Shown,
) -> Result<bool, Fault> {
    let mut world = World::wide(alloc, config, parse(alloc, text)?)?;
    Ok(world.settle(100) == Ok(Rest::Still) && shows(&world, shown))
}

/// Node 1 stores and loads the last word, and loads the one behind it, which is refused.
#[test]
fn last_word_of_a_thousand_pages(rt: HostRuntime) {
    let text = "node 0
node 1
set r1 63992
set r2 7
store 8 r1 r2
load 8 r3 r1
print r3
set r1 64000
load 8 r3 r1
";
    let behind = Call::Load {
        width: 8,
        addr: 64_000,
    };
    let answers = [
        stored!(1, 63_992, 7),
        loaded!(1, 63_992, 7),
        refused!(1, behind, 4),
    ];
    let shown = ended!(1, &answers, &[7]);
    expect_same(&rt, comes_to(rt.alloc(), THOUSAND, text, &shown), Ok(true));
}

/// The page is sent to and fro: its number needs three bytes.
#[test]
fn last_word_of_the_most_pages(rt: HostRuntime) {
    let text = "node 0
set r1 4194296
set r2 1
await r3 r0 r2
load 8 r4 r1
print r4
node 1
set r1 4194296
set r2 7
store 8 r1 r2
advance r0
";
    let answers = [awaited!(0, 1, 1), loaded!(0, 4_194_296, 7)];
    let shown = ended!(0, &answers, &[7]);
    expect_same(&rt, comes_to(rt.alloc(), MOST, text, &shown), Ok(true));
}
