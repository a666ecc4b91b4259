//! A node serves until its input ends.
ghost use Rattle.std.specs.Prelude.{OnOk};
ghost use Rattle.ivy_process.specs.NodeLogs.{AddsEvents, StreamsPart, StreamsWhole};

use crate::failure::NodeFailure;
use crate::mail::{Inbox, Mailed};
use crate::node::Node;
use crate::streams::Streams;
use crate::watch::{CallWatch, Unwatched};
use std::io::Write;
use std::sync::Wait;

/// How many strings are heard, and how many turns made, before the node speaks.
const MOST_STRINGS: u64 = 64;

const MOST_TURNS: u64 = 1024;

/// What tells the time.
pub trait Clockwork {
    /// The milliseconds since some moment.
    fn millis(&self) -> u64;
}

/// How a node's service ended.
#[derive(Clone, Copy, Debug, PartialEq, Eq)]
pub enum Ending {
    /// Its program has ended.
    Ended,
    /// Its program waits.
    Waits,
}

/// What was heard.
#[derive(Clone, Copy)]
struct Heard {
    lines: u64,
    has_ended: bool,
}

/// What a service has told, when it pulsed last, and what is told of calls.
#[derive(Drop)]
pub(crate) struct Service<W> {
    pub(crate) pulsed: u64,
    pub(crate) was_told: bool,
    pub(crate) watch: W,
}

/// Hears the lines that wait, so many at most.
fn hear<R: Wait, I: Inbox>(rt: &R, inbox: &I, node: &mut Node) -> Result<Heard, NodeFailure>
    ensures { OnOk result (AddsEvents node.old node.new) }
{
    let mut lines = 0u64;
    while lines < MOST_STRINGS {
        match inbox.take(rt) {
            Mailed::Line(line) => node.hear(&line)?,
            Mailed::Nothing => {
                return Ok(Heard {
                    lines,
                    has_ended: false,
                });
            }
            Mailed::Ended => {
                return Ok(Heard {
                    lines,
                    has_ended: true,
                });
            }
        }
        lines += 1;
    }
    Ok(Heard {
        lines,
        has_ended: false,
    })
}

/// Tells once that the program has ended.
fn tell_end<E: Write>(node: &Node, was_told: &mut bool, err: &mut E) {
    if node.ended() && !*was_told {
        *was_told = true;
        // A node that is started again tells it again.
        let _ = writeln!(err, "node {} ended", node.me());
    }
}

/// Hears what waits, makes turns, speaks, and pulses where it is time. Where nothing came it waits, so many milliseconds at
/// most. It says whether there is no more to do.
fn serve_once<R: Wait, I: Inbox, C: Clockwork, W: CallWatch, L: Write, O: Write, E: Write>(
    rt: &R,
    clock: &C,
    node: &mut Node,
    service: &mut Service<W>,
    streams: &mut Streams<'_, I, L, O, E>,
    nap: u64,
) -> Result<bool, NodeFailure>
    ensures { OnOk result (StreamsPart node.old node.new (L.contents streams.old.log) (L.contents streams.new.log)) }
{
    let every = node.limits().pulse_millis;
    let heard = hear(rt, streams.inbox, node)?;
    let made = node.make_watched_turns(MOST_TURNS, &mut service.watch)?;
    node.speak(&mut streams.log, &mut streams.out, &mut streams.err)?;
    node.check_kept()?;
    tell_end(node, &mut service.was_told, &mut streams.err);
    if heard.lines == 0 && made == 0 {
        if heard.has_ended {
            return Ok(true);
        }
        streams.inbox.wait(rt, nap);
    }
    let now = clock.millis();
    if now.saturating_sub(service.pulsed) >= every {
        node.pulse()?;
        node.speak(&mut streams.log, &mut streams.out, &mut streams.err)?;
        service.pulsed = now;
    }
    Ok(false)
}

/// Has a node go on with what it holds, and pulse to each other node: it may have been killed before. Its service begins
/// then.
pub(crate) fn awake<C: Clockwork, W: CallWatch + Drop>(
    clock: &C,
    node: &mut Node,
    was_told: bool,
    watch: W,
) -> Result<Service<W>, NodeFailure>
    ensures { OnOk result (AddsEvents node.old node.new) }
{
    node.go_on_all()?;
    node.pulse()?;
    Ok(Service {
        pulsed: clock.millis(),
        was_told,
        watch,
    })
}

/// Serves until there is no more to do, or where it is asked to, until the calls of the node's code have their replies. It
/// says whether they had.
pub(crate) fn serve_on<R: Wait, I: Inbox, C: Clockwork, W: CallWatch, L: Write, O: Write, E: Write>(
    rt: &R,
    clock: &C,
    node: &mut Node,
    service: &mut Service<W>,
    streams: &mut Streams<'_, I, L, O, E>,
    until_free: bool,
) -> Result<bool, NodeFailure>
    ensures { OnOk result (StreamsPart node.old node.new (L.contents streams.old.log) (L.contents streams.new.log)) }
{
    let nap = node.limits().pulse_millis;
    for _ in rt.forever() {
        if until_free && node.is_free() {
            return Ok(true);
        }
        if serve_once(rt, clock, node, service, streams, nap)? {
            return Ok(false);
        }
    }
    Ok(false)
}

/// Serves until the next millisecond. It says whether there is more to do.
pub(crate) fn serve_briefly<R: Wait, I: Inbox, C: Clockwork, L: Write, O: Write, E: Write>(
    rt: &R,
    clock: &C,
    node: &mut Node,
    service: &mut Service<Unwatched>,
    streams: &mut Streams<'_, I, L, O, E>,
) -> Result<bool, NodeFailure>
    ensures { OnOk result (StreamsPart node.old node.new (L.contents streams.old.log) (L.contents streams.new.log)) }
{
    let began = clock.millis();
    for _ in rt.forever() {
        if serve_once(rt, clock, node, service, streams, 1)? {
            return Ok(false);
        }
        if clock.millis() != began {
            return Ok(true);
        }
    }
    Ok(true)
}

/// How a node's service ended.
fn ending_of(node: &Node) -> Ending {
    if node.ended() {
        Ending::Ended
    } else {
        Ending::Waits
    }
}

/// Serves until the input has ended and the program's next turn does nothing.
///
/// What the node did stands in the log before a frame or a printed value of it goes out. After a nap in which nothing
/// came, and whenever so much time has passed, it pulses to each other node; at the beginning as well, for it may have
/// been killed before.
pub fn serve<R: Wait, I: Inbox, C: Clockwork, L: Write, O: Write, E: Write>(
    rt: &R,
    clock: &C,
    node: &mut Node,
    streams: &mut Streams<'_, I, L, O, E>,
) -> Result<Ending, NodeFailure>
    ensures { OnOk result (StreamsWhole node.old node.new (L.contents streams.old.log) (L.contents streams.new.log)) }
{
    serve_watched(rt, clock, node, streams, &mut Unwatched)
}

/// Serves as [`serve`] does, and tells of each call of the program that is answered.
pub fn serve_watched<R, I, C, W, L, O, E>(
    rt: &R,
    clock: &C,
    node: &mut Node,
    streams: &mut Streams<'_, I, L, O, E>,
    watch: &mut W,
) -> Result<Ending, NodeFailure>
where
    R: Wait,
    I: Inbox,
    C: Clockwork,
    W: CallWatch,
    L: Write,
    O: Write,
    E: Write,
    ensures { OnOk result (StreamsWhole node.old node.new (L.contents streams.old.log) (L.contents streams.new.log)) }
{
    let mut service = awake(clock, node, false, watch)?;
    serve_on(rt, clock, node, &mut service, streams, false)?;
    node.speak(&mut streams.log, &mut streams.out, &mut streams.err)?;
    Ok(ending_of(node))
}
