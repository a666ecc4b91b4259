//! How a world is made and run. `docs/LIBRARY.md` has these very lines.
use ivy_model::{Config, Kind};
use ivy_node::{Move, World, parse};
use std::test::Fail;

/// Node 0 stores a word, and node 1 loads and prints it.
const PROGRAMS: &str = "\
node 0
set r1 64
set r2 7
store 8 r1 r2
node 1
set r1 64
load 8 r2 r1
print r2
";

/// The store comes first. Then node 1 asks for a copy of the page, has it, and loads.
const MOVES: [Move; 9] = [
    Move::Turn(0),
    Move::Turn(0),
    Move::Turn(0),
    Move::Turn(1),
    Move::Turn(1),
    Move::Deliver { index: 0, to: 0 },
    Move::Deliver { index: 1, to: 1 },
    Move::Turn(1),
    Move::Turn(1),
];

/// What each node's program printed, and what it was answered.
const TOLD: &str = "\
node 0: [] [Record { node: 0, call: Store { width: 8, addr: 64, value: 7 }, reply: Done }]
node 1: [7] [Record { node: 1, call: Load { width: 8, addr: 64 }, reply: Value(7) }]
";

#[test]
fn as_a_library(rt: HostRuntime) -> Result<(), Fail> {
    let alloc = rt.alloc();
    let config = Config {
        nodes: 2,
        pages: 2,
        page_size: 64,
        manager: Kind::Dynamic,
    };
    let mut world = World::new(alloc, config, parse(alloc, PROGRAMS)?)?;
    assert_eq!(rt; world.run(&MOVES), Ok(()));
    let mut told = String::new(alloc);
    for node in 0..world.nodes() {
        let (printed, answered) = (world.output(node), world.history(node));
        writeln!(told, "node {node}: {printed:?} {answered:?}")?;
    }
    assert_eq!(rt; told.as_str(), TOLD);
    Ok(())
}
