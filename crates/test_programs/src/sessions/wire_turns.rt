//! Turns on the wire of two sites, one after the other, at an ether that holds one item.
ghost use Rattle.std.specs.Prelude.{◌≡◌, ◌<◌, length, slice_get, Some, true};
ghost use Rattle.ivy_model.specs.stated.Config.{IsConfig};
ghost use Rattle.ivy_host.specs.declared.opening.Opening.TheVariants.{Configured};
ghost use Rattle.ivy_ether.specs.Rule.{times};
ghost use Rattle.ivy_ether.specs.Views.{with_issued};
ghost use Rattle.ivy_ether.specs.EtherViews.{IsNewcomer};

use crate::sessions::common::{TRIO, expect_same};
use ivy_ether::{Ether, Pass, Setup, Wired};
use ivy_link::Verdict;
use ivy_model::{Config, Fault, Kind};
use ivy_program::{Program, parse};
use ivy_session::{Seated, WireTurn};
use ivy_site::{Site, Turn};
use std::alloc::{Allocator, Global};
use std::marker::Brand;
use std::process::Abort;
use std::sync::Wait;
use std::test::Fail;
use test_support::Failing;

/// Three nodes under managing nodes.
const FIXED_TRIO: Config = Config {
    manager: Kind::Fixed,
    ..TRIO
};

/// More growths than any turn here asks for.
const MANY: u64 = 100;

/// Node 1 asks node 0 for a block. Node 2 loads from page 1, whose managing node is node 1.
const ASKS: &str = "\
node 0
node 1
set r1 8
alloc r2 r1
node 2
set r1 64
load 8 r2 r1
";

/// Issues a node's seat, takes it, and seats the node's site.
fn seat<'e, S: Setup, A: Allocator + Copy, R: Wait + Abort>(
    rt: &R,
    alloc: A,
    ether: &'e Ether<S, A>,
    config: &Config,
    starter: &mut Pass<Wired<A>>,
    pass: Pass<Wired<A>>,
    node: u8,
    program: Program<A>,
) -> Seated<'e, S, A>
    requires config { config.now ≡ S.config }
    requires opened { S.opened ≡ Configured }
    requires limits { IsConfig config.now }
    requires each { length S.programs ≡ config.now.nodes }
    requires there { slice_get S.programs node ≡ Some program }
    requires starter { (starter.old.ether ≡ ether.now) × (starter.old.known.starts ≡ true) }
    requires pass { IsNewcomer ether.now pass }
    requires node { node < length S.programs }
    requires new { times node starter.old.known.issued ≡ 0 }
    ensures starter { starter.new.ether ≡ starter.old.ether }
    ensures issued { starter.new.known ≡ with_issued starter.old.known node }
{
    let mut pass = pass;
    assert!(rt; ether.issue_seat(rt, starter, node));
    let Some(found) = ether.take_seat(rt, &mut pass) else {
        panic!(rt; "no seat");
    };
    assert!(rt; found == node);
    let Ok(site) = Site::new(alloc, config, node, program) else {
        panic!(rt; "memory");
    };
    Seated::new(ether, site, pass)
}

/// Two turns of a site's program: a register is set, and a call begins.
fn begin<S: Setup, A: Allocator + Copy>(rt: &impl Abort, site: &mut Seated<'_, S, A>) {
    for _ in 0..2 {
        expect_same(rt, site.program_turn(), Ok(Turn::Moved));
    }
}

/// One turn on the wire of a site, which is this one.
fn expect_turn<S: Setup, A: Allocator + Copy, R: Wait + Abort>(
    rt: &R,
    site: &mut Seated<'_, S, A>,
    wanted: WireTurn,
) {
    expect_same(rt, site.wire_turn(rt), Ok(wanted));
}

/// Node 1 takes the request of node 2 with the n-th growth refused. Whether that growth was asked for: the request is lost
/// then, the node is as it was, and it serves the request that a pulse of node 2 brings again.
fn serve<S: Setup, A: Allocator + Copy, R: Wait + Abort>(
    rt: &R,
    (memory, n): (&Failing<Global>, u64),
    one: &mut Seated<'_, S, A>,
    two: &mut Seated<'_, S, A>,
) -> bool {
    memory.refuse(n);
    let turn = one.wire_turn(rt);
    let met = memory.asked(n) >= n;
    memory.refuse(0);
    if !met {
        expect_same(rt, turn, Ok(WireTurn::Served(Verdict::Next)));
        return false;
    }
    expect_same(rt, turn, Err(Fault::Memory));
    assert!(rt; !one.has_frame());
    expect_turn(rt, two, WireTurn::Empty);
    expect_same(rt, two.pulse_next(0), Ok(1));
    expect_turn(rt, two, WireTurn::Sent);
    expect_turn(rt, one, WireTurn::Served(Verdict::Next));
    true
}

/// One turn on the wire after the other, of node 2 and then of node 1, with the n-th growth of one of them refused. Whether
/// that growth was asked for.
fn turn_by_turn<S: Setup, A: Allocator + Copy, R: Wait + Abort>(
    rt: &R,
    refused: (&Failing<Global>, u64),
    one: &mut Seated<'_, S, A>,
    two: &mut Seated<'_, S, A>,
) -> bool {
    begin(rt, two);
    begin(rt, one);
    expect_same(rt, two.next_destination(), Some(1));
    expect_turn(rt, two, WireTurn::Sent);
    expect_same(rt, one.next_destination(), Some(0));
    expect_turn(rt, one, WireTurn::Lost);
    expect_turn(rt, two, WireTurn::Returned);
    let met = serve(rt, refused, one, two);
    expect_same(rt, one.next_destination(), Some(0));
    expect_turn(rt, two, WireTurn::Empty);
    expect_turn(rt, one, WireTurn::Sent);
    met
}

/// Seats nodes 1 and 2, and makes the turns.
fn play<S: Setup, A: Allocator + Copy, R: Wait + Abort>(
    rt: &R,
    alloc: A,
    refused: (&Failing<Global>, u64),
    config: &Config,
    programs: Vec<Program<A>, A>,
) -> Result<bool, Fail>
    requires config { config.now ≡ S.config }
    requires opened { S.opened ≡ Configured }
    requires limits { IsConfig config.now }
    requires programs { programs.items ≡ S.programs }
    requires each { length programs.items ≡ config.now.nodes }
    requires trio { length programs.items ≡ 3 }
{
    let mut programs = programs;
    let (ether, mut passes) = Ether::<S, A>::new(alloc, config, &programs, 1, 3)?;
    let (Some(mut starter), Some(first), Some(second)) = (passes.pop(), passes.pop(), passes.pop())
    else {
        return Err("there are three passes".into());
    };
    let (Some(loads), Some(asks)) = (programs.pop(), programs.pop()) else {
        return Err("there are three programs".into());
    };
    let mut one = seat(rt, alloc, &ether, config, &mut starter, first, 1, asks);
    let mut two = seat(rt, alloc, &ether, config, &mut starter, second, 2, loads);
    Ok(turn_by_turn(rt, refused, &mut one, &mut two))
}

/// Makes the turns with the n-th growth refused.
fn play_at<R: Wait + Abort>(rt: &R, memory: &Failing<Global>, n: u64) -> Result<bool, Fail> {
    let programs = parse(memory, ASKS)?;
    FIXED_TRIO.check()?;
    assert!(rt; programs.len() == 3);
    play::<Brand, &Failing<Global>, R>(rt, memory, (memory, n), &FIXED_TRIO, programs)
}

/// Each growth of the turn that serves is refused in turn, and in the last of these runs none.
#[test]
fn wire_turns_at_capacity_one(rt: HostRuntime) -> Result<(), Fail> {
    let memory = Failing::new(rt.alloc());
    for n in 1..MANY {
        if !play_at(&rt, &memory, n)? {
            assert!(&rt; n > 1);
            return Ok(());
        }
    }
    Err("no end of growths".into())
}
