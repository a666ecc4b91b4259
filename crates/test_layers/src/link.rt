//! Messages between nodes: numbered, acknowledged, sent again, and told apart.
ghost use Rattle.std.specs.Prelude.{◌≡◌, ◌<◌, length, map};
ghost use Rattle.ivy_wire.specs.Lent.{owned_parcel};
ghost use Rattle.ivy_link.specs.Holding.{AreToPeers};

use crate::letters::{Bytes, Said, message};
use ivy_link::{Link, Verdict, delivers_in_order};
use ivy_wire::{Frame, Message, OwnedPage, Parcel};
use std::alloc::Global;
use std::process::Abort;

const NODES: u8 = 3;

/// The messages of a load from page 1 by node 1, the first call of its program.
#[derive(Clone, Copy)]
enum Load {
    Request,
    Reply,
}

/// A frame: source, destination, number, acknowledgement, and the message where it has one.
type Row = (u8, u8, u64, u64, Option<Load>);

/// What happens to the link of a node, and what has to come of it.
enum Step<'a> {
    /// It sends one message to a node, in this frame.
    Sends(u8, Load, Row),
    /// It sends a message to each of three nodes in one call, in these frames.
    SendsEach([u8; 3], Load, &'a [Row]),
    /// It keeps a message for a node.
    Keeps(u8, Load),
    /// A frame is this to it, or is taken.
    Offers(Row, Verdict),
    Accepts(Row),
    /// It sends these frames again to a node, or would send them, or sent those that it would.
    Pulses(u8, &'a [Row]),
    Shows(u8, &'a [Row]),
    Pulsed(u8),
    /// It would send so many frames again to a node, of which the first and the last have these numbers.
    Spans(u8, usize, Option<(u64, u64)>),
}

fn message_of(sent: Load) -> Message<&'static [u8]> {
    let said = match sent {
        Load::Request => Said::Request,
        Load::Reply => Said::Copy(Bytes::Zeros),
    };
    message(1, (said, 1, 1))
}

fn body(sent: Option<Load>) -> Option<Message<&'static [u8]>> {
    Some(message_of(sent?))
}

fn frame(row: Row) -> Frame<&'static [u8]>
    ensures source { result.source ≡ row.0 }
    ensures dest { result.dest ≡ row.1 }
{
    let (source, dest, number, ack, sent) = row;
    Frame {
        source,
        dest,
        number,
        ack,
        body: body(sent),
    }
}

fn parcel(source: u8, dest: u8, sent: Load) -> Parcel<&'static [u8]>
    ensures { result.dest ≡ dest }
{
    Parcel {
        source,
        dest,
        message: message_of(sent),
    }
}

/// Whether the frame is this.
fn is(sent: &Frame<&[u8]>, row: Row) -> bool {
    *sent == frame(row)
}

/// Whether the frames are these.
fn are(frames: &[Frame<&[u8]>], rows: &[Row]) -> bool {
    for (sent, row) in frames.iter().zip(rows) {
        if !is(sent, *row) {
            return false;
        }
    }
    frames.len() == rows.len()
}

fn are_owned(frames: &[Frame<OwnedPage<Global>>], rows: &[Row]) -> bool {
    for (sent, row) in frames.iter().zip(rows) {
        if !is(&sent.lent(), *row) {
            return false;
        }
    }
    frames.len() == rows.len()
}

/// The node, which is one of the three.
fn peer(rt: &impl Abort, node: u8) -> u8
    ensures within { result < NODES }
    ensures same { result ≡ node }
{
    assert!(rt; node < NODES);
    node
}

/// Sends the messages. Whether their frames are these, and were shown before.
fn sends(rt: &impl Abort, link: &mut Link<Global>, parcels: &[Parcel<&[u8]>], rows: &[Row]) -> bool
    requires nodes { length link.old.peers ≡ NODES }
    requires within { AreToPeers link.old (map owned_parcel parcels.now) }
    ensures { length link.new.peers ≡ NODES }
{
    let shown = are(&link.frames(parcels).expect(rt, "memory"), rows);
    let sent = are(&link.send(parcels).expect(rt, "memory"), rows);
    shown && sent
}

fn sends_one(rt: &impl Abort, link: &mut Link<Global>, ends: (u8, u8), sent: Load, row: Row) -> bool
    requires { length link.old.peers ≡ NODES }
    ensures { length link.new.peers ≡ NODES }
{
    let to = peer(rt, ends.1);
    sends(rt, link, &[parcel(ends.0, to, sent)], &[row])
}

fn sends_each(
    rt: &impl Abort,
    link: &mut Link<Global>,
    ends: (u8, [u8; 3]),
    sent: Load,
    rows: &[Row],
) -> bool
    requires { length link.old.peers ≡ NODES }
    ensures { length link.new.peers ≡ NODES }
{
    let (me, [first, second, third]) = ends;
    let first = peer(rt, first);
    let second = peer(rt, second);
    let third = peer(rt, third);
    let parcels = [
        parcel(me, first, sent),
        parcel(me, second, sent),
        parcel(me, third, sent),
    ];
    sends(rt, link, &parcels, rows)
}

fn keeps(rt: &impl Abort, link: &mut Link<Global>, me: u8, to: u8, sent: Load)
    requires { length link.old.peers ≡ NODES }
    ensures { length link.new.peers ≡ NODES }
{
    let to = peer(rt, to);
    link.keep(&[parcel(me, to, sent)]).expect(rt, "memory");
}

fn offers(rt: &impl Abort, link: &Link<Global>, row: Row) -> Verdict
    requires { length link.now.peers ≡ NODES }
{
    let _source = peer(rt, row.0);
    link.offer(&frame(row))
}

fn accepts(rt: &impl Abort, link: &mut Link<Global>, row: Row)
    requires { length link.old.peers ≡ NODES }
    ensures { length link.new.peers ≡ NODES }
{
    let _source = peer(rt, row.0);
    link.accept(&frame(row));
}

fn pulses(rt: &impl Abort, link: &mut Link<Global>, to: u8, rows: &[Row]) -> bool
    requires { length link.old.peers ≡ NODES }
    ensures { length link.new.peers ≡ NODES }
{
    let to = peer(rt, to);
    are_owned(&link.pulse(to).expect(rt, "memory"), rows)
}

fn shows(rt: &impl Abort, link: &Link<Global>, to: u8, rows: &[Row]) -> bool
    requires { length link.now.peers ≡ NODES }
{
    let to = peer(rt, to);
    are(&link.pulse_frames(to).expect(rt, "memory"), rows)
}

/// How many frames it would send again, and the first and the last number.
fn span(rt: &impl Abort, link: &Link<Global>, to: u8) -> (usize, Option<(u64, u64)>)
    requires { length link.now.peers ≡ NODES }
{
    let to = peer(rt, to);
    let frames = link.pulse_frames(to).expect(rt, "memory");
    let ends = match (frames.first(), frames.last()) {
        (Some(first), Some(last)) => Some((first.number, last.number)),
        _ => None,
    };
    (frames.len(), ends)
}

/// Whether the step goes as it says, of the link of node `me`.
fn goes(rt: &impl Abort, link: &mut Link<Global>, me: u8, step: &Step) -> bool
    requires { length link.old.peers ≡ NODES }
    ensures { length link.new.peers ≡ NODES }
{
    match step {
        Step::Sends(to, sent, row) => sends_one(rt, link, (me, *to), *sent, *row),
        Step::SendsEach(to, sent, rows) => sends_each(rt, link, (me, *to), *sent, rows),
        Step::Keeps(to, sent) => {
            keeps(rt, link, me, *to, *sent);
            true
        }
        Step::Offers(row, verdict) => offers(rt, link, *row) == *verdict,
        Step::Accepts(row) => {
            accepts(rt, link, *row);
            true
        }
        Step::Pulses(to, rows) => pulses(rt, link, *to, rows),
        Step::Shows(to, rows) => shows(rt, link, *to, rows),
        Step::Pulsed(to) => {
            link.pulsed(peer(rt, *to));
            true
        }
        Step::Spans(to, count, ends) => span(rt, link, *to) == (*count, *ends),
    }
}

fn check_link(rt: &impl Abort, link: &mut Link<Global>, me: u8, steps: &[Step])
    requires { length link.old.peers ≡ NODES }
{
    for (index, step) in steps.iter().enumerate() {
        assert!(rt; goes(rt, link, me, step), "step {index}");
    }
}

/// The link of node `me` of three. That there are three is proved here once.
fn link_of(rt: &(impl Abort + AllocGlobal), me: u8) -> Link<Global>
    ensures { length result.peers ≡ NODES }
{
    Link::new(rt.alloc(), me, NODES).expect(rt, "memory")
}

/// Asserts that the steps go as they say, of the link of node `me` of three.
fn check(rt: &(impl Abort + AllocGlobal), me: u8, steps: &[Step]) {
    let mut link = link_of(rt, me);
    check_link(rt, &mut link, me, steps);
}

/// Frames of node 1 with its request, at first and with the answer acknowledged, and its second message.
const ASKS: Row = (1, 0, 1, 0, Some(Load::Request));

const ASKS_AGAIN: Row = (1, 0, 1, 1, Some(Load::Request));

const ASKS_ONCE_MORE: Row = (1, 0, 2, 0, Some(Load::Request));

/// Frames of node 0 with its answer, before and after it took the request, and one that only acknowledges.
const ANSWERS: Row = (0, 1, 1, 0, Some(Load::Reply));

const ANSWERS_LATER: Row = (0, 1, 1, 1, Some(Load::Reply));

const ACKNOWLEDGES: Row = (0, 1, 0, 1, None);

/// Node 1 asks for a page, and node 0 answers.
#[test]
fn first_load(rt: HostRuntime) {
    check(&rt, 1, &ASKING);
    check(&rt, 0, &ANSWERING);
}

static ASKING: [Step<'static>; 3] = [
    Step::Sends(0, Load::Request, ASKS),
    Step::Offers(ASKS, Verdict::NotMine),
    Step::Offers(ANSWERS, Verdict::Next),
];

static ANSWERING: [Step<'static>; 2] = [
    Step::Offers(ASKS, Verdict::Next),
    Step::Sends(1, Load::Reply, ANSWERS),
];

/// The node that asked sends its request again, with the answer acknowledged, until it is acknowledged.
#[test]
fn request_sent_again(rt: HostRuntime) {
    check(&rt, 1, &SENT_AGAIN);
}

static SENT_AGAIN: [Step<'static>; 5] = [
    Step::Sends(0, Load::Request, ASKS),
    Step::Accepts(ANSWERS),
    Step::Pulses(0, &[ASKS_AGAIN]),
    Step::Accepts(ACKNOWLEDGES),
    Step::Shows(0, &[]),
];

/// The node that answered owes an acknowledgement for a request that comes again, once.
#[test]
fn answer_acknowledged(rt: HostRuntime) {
    check(&rt, 0, &ACKNOWLEDGED);
}

static ACKNOWLEDGED: [Step<'static>; 7] = [
    Step::Keeps(1, Load::Reply),
    Step::Accepts(ASKS),
    Step::Offers(ASKS, Verdict::Repeat),
    Step::Offers(ASKS_AGAIN, Verdict::Repeat),
    Step::Accepts(ASKS_AGAIN),
    Step::Pulses(1, &[ACKNOWLEDGES]),
    Step::Shows(1, &[]),
];

/// Once the frames that a pulse shows are sent, no acknowledgement is owed any more, and what is kept
/// stays so.
#[test]
fn pulse_in_two_calls(rt: HostRuntime) {
    check(&rt, 0, &TWO_CALLS);
}

static TWO_CALLS: [Step<'static>; 7] = [
    Step::Accepts(ASKS),
    Step::Shows(1, &[ACKNOWLEDGES]),
    Step::Pulsed(1),
    Step::Shows(1, &[]),
    Step::Sends(1, Load::Reply, ANSWERS_LATER),
    Step::Pulsed(1),
    Step::Shows(1, &[ANSWERS_LATER]),
];

/// The messages to each node have numbers of their own.
#[test]
fn numbers_of_each_pair(rt: HostRuntime) {
    check(&rt, 1, &EACH_PAIR);
}

static EACH_PAIR: [Step<'static>; 3] = [
    Step::SendsEach(
        [0, 2, 0],
        Load::Request,
        &[ASKS, (1, 2, 1, 0, Some(Load::Request)), ASKS_ONCE_MORE],
    ),
    Step::Shows(0, &[ASKS, ASKS_ONCE_MORE]),
    Step::Shows(2, &[(1, 2, 1, 0, Some(Load::Request))]),
];

/// A frame for another node is NotMine, and accepting it changes nothing.
#[test]
fn frame_for_another_node(rt: HostRuntime) {
    check(&rt, 1, &ANOTHER_NODE);
}

static ANOTHER_NODE: [Step<'static>; 4] = [
    Step::Sends(0, Load::Request, ASKS),
    Step::Offers(ASKS_AGAIN, Verdict::NotMine),
    Step::Accepts(ASKS_AGAIN),
    Step::Shows(0, &[ASKS]),
];

/// Node 1 keeps so many messages for node 0.
fn keep_many(rt: &impl Abort, link: &mut Link<Global>, count: u64)
    requires { length link.old.peers ≡ NODES }
    ensures { length link.new.peers ≡ NODES }
{
    for _ in 0..count {
        keeps(rt, link, 1, 0, Load::Request);
    }
}

/// A pulse sends the first 32 of the messages that are kept, and an acknowledgement of more than was
/// sent drops none of them.
#[test]
fn more_kept_than_a_pulse(rt: HostRuntime) {
    let mut link = link_of(&rt, 1);
    keep_many(&rt, &mut link, 34);
    check_link(&rt, &mut link, 1, &MORE_KEPT);
}

static MORE_KEPT: [Step<'static>; 7] = [
    Step::Spans(0, 32, Some((1, 32))),
    Step::Accepts((0, 1, 0, 35, None)),
    Step::Spans(0, 32, Some((1, 32))),
    Step::Accepts((0, 1, 0, 3, None)),
    Step::Spans(0, 31, Some((4, 34))),
    Step::Accepts((0, 1, 0, 34, None)),
    Step::Spans(0, 0, None),
];

/// A message before which another one is missing is Ahead and is owed nothing.
#[test]
fn a_message_ahead(rt: HostRuntime) {
    delivers_in_order();
    check(&rt, 1, &SENDS_TWO);
    check(&rt, 0, &AHEAD);
}

static SENDS_TWO: [Step<'static>; 2] = [
    Step::Sends(0, Load::Request, ASKS),
    Step::Sends(0, Load::Request, ASKS_ONCE_MORE),
];

static AHEAD: [Step<'static>; 6] = [
    Step::Offers(ASKS_ONCE_MORE, Verdict::Ahead),
    Step::Accepts(ASKS_ONCE_MORE),
    Step::Shows(1, &[]),
    Step::Accepts(ASKS),
    Step::Offers(ASKS_ONCE_MORE, Verdict::Next),
    Step::Sends(1, Load::Reply, ANSWERS_LATER),
];
