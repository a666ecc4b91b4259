//! `ivy_ether`, and the seats of `ivy_node`: what a session's threads do with an ether.
//!
//! Each call stands in a function that asks what the call asks, and no test makes an ether here: sites that are seated at one
//! are tested in `test_programs` (`sessions::wire_turns`), and all of it by each session.
ghost use Rattle.std.specs.Prelude.{◌≡◌, ◌<◌, [], length, replicate, None, Contains, true};
ghost use Rattle.ivy_ether.specs.Programs.{MayGive, SendsFrom};
ghost use Rattle.ivy_ether.specs.Rule.{times};
ghost use Rattle.ivy_program.specs.stated.Programs.{Called};
ghost use Rattle.ivy_seating.specs.Places.{IsFreshSeat};

use crate::common::expect_same;
use ivy_model::{Config, Fault};
use ivy_node::ivy_ether::{Ether, Event, Events, Item, Pass, Put, Setup, Wired};
use ivy_node::{Program, Seated, Site, Turn, Verdict, WireTurn};
use ivy_wire::Bytes;
use std::alloc::Global;
use std::process::Abort;
use std::sync::Wait;

/// Whether a turn on the wire found something to put or to take.
fn is_busy(turn: WireTurn) -> bool {
    match turn {
        WireTurn::Sent | WireTurn::Lost | WireTurn::Returned | WireTurn::Dropped => true,
        WireTurn::Served(verdict) => verdict != Verdict::NotMine,
        WireTurn::Empty => false,
    }
}

/// The string of an item, where it is a frame.
fn frame_in(item: Wired<Global>) -> Option<Bytes<Global>> {
    match item {
        Item::Frame(frame) => Some(frame),
        Item::Seat(_) | Item::Report(_, _) => None,
    }
}

/// Whether the ether took a frame.
fn is_sent(put: Put<Bytes<Global>>) -> bool {
    match put {
        Put::Sent => true,
        Put::Lost(_) => false,
    }
}

/// Puts a frame of the node's own. Whether the ether took it.
fn put<S: Setup, R: Wait>(
    rt: &R,
    ether: &Ether<S, Global>,
    pass: &mut Pass<Wired<Global>>,
    events: &Events<Global>,
    frame: Bytes<Global>,
) -> bool
    requires pass { pass.old.ether ≡ ether.now }
    requires events { MayGive S.config S.opened S.programs pass.old.known events.now.marks }
    requires frame { SendsFrom S.config S.opened S.programs pass.old.known events.now.marks frame }
{
    is_sent(ether.put(rt, pass, events, frame))
}

/// Takes an item, and gives its string.
fn take<S: Setup, R: Wait>(
    rt: &R,
    ether: &Ether<S, Global>,
    pass: &mut Pass<Wired<Global>>,
    events: &Events<Global>,
) -> Option<Bytes<Global>>
    requires pass { pass.old.ether ≡ ether.now }
    requires events { MayGive S.config S.opened S.programs pass.old.known events.now.marks }
{
    frame_in(ether.take(rt, pass, events)?)
}

/// Puts the frame of another node back. Whether the ether took it.
fn put_back<S: Setup, R: Wait>(
    rt: &R,
    ether: &Ether<S, Global>,
    pass: &mut Pass<Wired<Global>>,
    events: &Events<Global>,
    frame: Bytes<Global>,
) -> bool
    requires pass { pass.old.ether ≡ ether.now }
    requires events { MayGive S.config S.opened S.programs pass.old.known events.now.marks }
    requires frame { Contains pass.old.known.took frame }
{
    is_sent(ether.put_back(rt, pass, events, frame))
}

/// Puts the report of a node. Whether the ether took it.
fn put_report<S: Setup, R: Wait>(
    rt: &R,
    ether: &Ether<S, Global>,
    pass: &mut Pass<Wired<Global>>,
    events: Events<Global>,
) -> bool
    requires pass { pass.old.ether ≡ ether.now }
    requires events { MayGive S.config S.opened S.programs pass.old.known events.marks }
{
    ether.put_report(rt, pass, events).is_ok()
}

/// Takes a report, and whose it is, where there is one.
fn take_report<S: Setup, R: Wait>(
    rt: &R,
    ether: &Ether<S, Global>,
    starter: &mut Pass<Wired<Global>>,
) -> Option<u8>
    requires starter { (starter.old.ether ≡ ether.now) × (starter.old.known.starts ≡ true) }
{
    let (node, _events) = ether.take_report(rt, starter)?;
    Some(node)
}

/// A new ether of one item, and two passes of it.
fn new_ether<S: Setup>(
    rt: &impl Abort,
    alloc: Global,
    config: &Config,
    programs: &[Program<Global>],
) -> (Ether<S, Global>, Vec<Pass<Wired<Global>>, Global>)
    requires config { config.now ≡ S.config }
    requires programs { programs.now ≡ S.programs }
{
    Ether::<S, Global>::new(alloc, config, programs, 1, 2).expect(rt, "memory")
}

/// A new ether for own code.
fn open_ether<S: Setup>(
    rt: &impl Abort,
    alloc: Global,
    config: &Config,
) -> (Ether<S, Global>, Vec<Pass<Wired<Global>>, Global>)
    requires config { config.now ≡ S.config }
    requires programs { S.programs ≡ replicate S.config.nodes (Called [] []) }
{
    Ether::<S, Global>::open(alloc, config, 1, 2).expect(rt, "memory")
}

/// Issues the seat of a node. Whether the ether took it.
fn issue<S: Setup, R: Wait>(
    rt: &R,
    ether: &Ether<S, Global>,
    starter: &mut Pass<Wired<Global>>,
    node: u8,
) -> bool
    requires starter { (starter.old.ether ≡ ether.now) × (starter.old.known.starts ≡ true) }
    requires node { node < length S.programs }
    requires new { times node starter.old.known.issued ≡ 0 }
{
    ether.issue_seat(rt, starter, node)
}

/// Takes a seat, and whose it is, where there is one.
fn take_seat<S: Setup, R: Wait>(
    rt: &R,
    ether: &Ether<S, Global>,
    pass: &mut Pass<Wired<Global>>,
) -> Option<u8>
    requires pass { pass.old.ether ≡ ether.now }
    requires none { pass.old.known.node ≡ None }
{
    ether.take_seat(rt, pass)
}

/// Seats the site of the node whose seat the pass took.
fn seat<'e, S: Setup>(
    ether: &'e Ether<S, Global>,
    site: Site<Global>,
    pass: Pass<Wired<Global>>,
) -> Seated<'e, S, Global>
    requires { IsFreshSeat ether.now S.config S.opened S.programs site pass }
{
    Seated::new(ether, site, pass)
}

/// A turn of a seated site's program, and one on the wire. Whether either changed anything.
fn go_on<S: Setup, R: Wait>(rt: &R, site: &mut Seated<'_, S, Global>) -> Result<bool, Fault> {
    let turn = site.program_turn()?;
    let wire = site.wire_turn(rt)?;
    Ok(turn == Turn::Moved || is_busy(wire))
}

/// Has a page fetched ahead to read. Whether it was asked for.
fn fetch<S: Setup>(site: &mut Seated<'_, S, Global>) -> Result<bool, Fault> {
    site.fetch(1, false)
}

/// The events of a list. One of none is new.
fn weight_of(events: &[Event<Bytes<Global>>]) -> u64 {
    match events.first() {
        Some(Event::Turns(turns)) => *turns,
        Some(Event::Delivered(_)) | Some(Event::Pulsed(_)) => 1,
        None => 0,
    }
}

#[test]
fn events(rt: HostRuntime) {
    let none: Events<Global> = Events::new(rt.alloc());
    expect_same(&rt, weight_of(none.entries()), 0);
    expect_same(&rt, weight_of(&[Event::Turns(3)]), 3);
    expect_same(&rt, weight_of(&[Event::Pulsed(1)]), 1);
}
