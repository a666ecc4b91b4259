//! Messages that are served at an idle entry, one after another, and posted together.
ghost use Rattle.std.specs.Prelude.{◌≡◌, ◌+◌, ◌<◌, ◌≤◌, ◌++◌, ℕ, [], ◌∷◌, true, false, length, map, All, OnOk, OnErr, IfOk, IfErr};
ghost use Rattle.ivy_wire.specs.Lent.{owned_parcel};
ghost use Rattle.ivy_wire.specs.stated.Spelling.{FitsParcel};
ghost use Rattle.ivy_model.specs.stated.Limits.{most_nodes};
ghost use Rattle.ivy_wire.specs.stated.Posts.{parcel_to};
ghost use Rattle.ivy_wire.specs.Posts.{HasPosted};
ghost use Rattle.ivy_pagetable.specs.stated.NodeSets.{nodes_of};
ghost use Rattle.ivy_pagetable.specs.Manager.{brought_back};
ghost use Rattle.ivy_coherence.specs.stated.Serving.{serving, put_off_served, counted, is_write, served_by_owner, served_by_other, served, all_served, invalidations};
ghost use Rattle.ivy_coherence.specs.EventLimits.{most_posted};
ghost use Rattle.ivy_coherence.specs.Served.{HasServed};

use arrayvec::ArrayVec;
use ivy_model::{Fault, MOST_NODES};
use ivy_pagetable::{Access, Idle, Manager, NodeSet, PutOff, Request};
use ivy_wire::{Content, Parcel, Post, parcel_to};

/// How many messages a node posts in one event at most.
const MOST_POSTED: usize = MOST_NODES as usize;

/// What a node posts in one event, in order, so many at most.
type Parcels<'a, const MOST: usize> = ArrayVec<Parcel<&'a [u8]>, MOST>;

/// Where messages are served: this node, the one whose message brings that about, and the page with its bytes.
#[derive(Clone, Copy)]
pub struct Place<'a> {
    pub me: u8,
    pub from: u8,
    pub page: u32,
    pub bytes: &'a [u8],
}

/// Counts a message that fits no rule, up to the greatest number. It takes no memory.
pub fn count(breaches: &mut u64)
    ensures { breaches.new ≡ counted breaches.old }
{
    if *breaches < u64::MAX {
        *breaches += 1;
    }
}

/// The owner serves a message: it gives a copy, or the page.
fn serve_as_owner<'a, M: Manager, const MOST: usize>(
    at: Place<'a>,
    idle: &mut Idle,
    manager: &mut M,
    breaches: &mut u64,
    message: PutOff,
    out: &mut Parcels<'a, MOST>,
)
    requires room { length out.old.items < MOST }
    requires owner { idle.old.owner ≡ true }
    requires origin { message.origin < most_nodes }
    ensures after { let before = serving idle.old manager.old breaches.old (map owned_parcel out.old.items) in
        let after = serving idle.new manager.new breaches.new (map owned_parcel out.new.items) in
        after ≡ served_by_owner M.ops at.entry.me at.entry.page at.entry.bytes.now
        before message.origin message.call message.kind }
    ensures room { length out.new.items ≤ length out.old.items + 1 }
{
    let PutOff { kind, origin, call } = message;
    let Place {
        me,
        page,
        bytes,
        ..
    } = at;
    match kind {
        Request::Read => {
            out.push(parcel_to(me, origin, origin, call, Content::ReadRep { page, bytes }));
            *idle = idle.with_reader(origin);
        }
        Request::Write => {
            let mut others = *idle.copies();
            others.remove(origin);
            let copies = others.bits();
            out.push(parcel_to(
                me,
                origin,
                origin,
                call,
                Content::WriteRep {
                    page,
                    copies,
                    bytes,
                },
            ));
            *idle = Idle::plain(Access::Nil);
            manager.on_given(page, origin);
        }
        Request::Invalidate => count(breaches),
    }
}

/// Another node serves a message: it sends a request on, or gives its copy up.
fn serve_as_other<'a, M: Manager, const MOST: usize>(
    at: Place<'a>,
    idle: &mut Idle,
    manager: &mut M,
    message: PutOff,
    out: &mut Parcels<'a, MOST>,
)
    requires room { length out.old.items < MOST }
    ensures after { (breaches : ℕ) →
        let before = serving idle.old manager.old breaches (map owned_parcel out.old.items) in
        let after = serving idle.new manager.new breaches (map owned_parcel out.new.items) in
        after ≡ served_by_other M.ops at.entry.me at.entry.page at.entry.bytes.now
        before message.origin message.call message.kind }
    ensures room { length out.new.items ≤ length out.old.items + 1 }
{
    let PutOff { kind, origin, call } = message;
    let Place { me, page, .. } = at;
    match kind {
        Request::Read => {
            let hop = manager.next_hop(page);
            out.push(parcel_to(me, hop, origin, call, Content::ReadReq { page }));
            manager.on_forward(page, false, origin);
        }
        Request::Write => {
            let hop = manager.next_hop(page);
            out.push(parcel_to(me, hop, origin, call, Content::WriteReq { page }));
            manager.on_forward(page, true, origin);
        }
        Request::Invalidate => {
            out.push(parcel_to(me, origin, origin, call, Content::InvalAck { page }));
            *idle = Idle::plain(Access::Nil);
            manager.on_invalidated(page, origin);
        }
    }
}

/// Serves a message at an idle entry.
fn serve<'a, M: Manager, const MOST: usize>(
    at: Place<'a>,
    idle: &mut Idle,
    manager: &mut M,
    breaches: &mut u64,
    message: PutOff,
    out: &mut Parcels<'a, MOST>,
)
    requires room { length out.old.items < MOST }
    requires origin { message.origin < most_nodes }
    ensures after { let before = serving idle.old manager.old breaches.old (map owned_parcel out.old.items) in
        let after = serving idle.new manager.new breaches.new (map owned_parcel out.new.items) in
        after ≡ served M.ops at.entry.me at.entry.page at.entry.bytes.now before message }
    ensures room { length out.new.items ≤ length out.old.items + 1 }
{
    if idle.is_owner() {
        serve_as_owner(at, idle, manager, breaches, message, out);
    } else {
        serve_as_other(at, idle, manager, message, out);
    }
}

/// Serves messages at an idle entry, in order.
fn serve_all<'a, M: Manager, const MOST: usize>(
    at: Place<'a>,
    idle: &mut Idle,
    manager: &mut M,
    breaches: &mut u64,
    messages: &[PutOff],
    out: &mut Parcels<'a, MOST>,
)
    requires few { length messages.now ≤ MOST }
    requires empty { out.old.items ≡ [] }
    requires origins { All (λ q. q.origin < most_nodes) messages.now }
    ensures after { let before = serving idle.old manager.old breaches.old [] in
        let after = serving idle.new manager.new breaches.new (map owned_parcel out.new.items) in
        after ≡ all_served M.ops at.entry.me at.entry.page at.entry.bytes.now before messages.now }
{
    for message in messages {
        serve(at, idle, manager, breaches, *message, out);
    }
}

/// Takes back what a refused step told the manager: one call does, whatever was told of the page.
fn take_back<M: Manager>(at: Place, hop: u8, manager: &mut M)
    requires { at.me ≡ M.ops.me manager.old }
    ensures { manager.new ≡ brought_back M.ops at.entry.page hop at.entry.from manager.old }
{
    if hop == at.me {
        manager.on_replied(at.page, true, at.from);
    } else {
        manager.on_given(at.page, hop);
    }
}

fn is_write(kind: Request) -> bool
    ensures { result ≡ is_write kind }
{
    match kind {
        Request::Write => true,
        Request::Read | Request::Invalidate => false,
    }
}

/// What [`serve_put_off`] does, with room for what is posted.
fn serve_in<'a, M: Manager, P: Post, const MOST: usize>(
    at: Place<'a>,
    reply: Option<Request>,
    idle: Idle,
    manager: &mut M,
    breaches: &mut u64,
    messages: &[PutOff],
    post: &mut P,
    room: &mut Parcels<'a, MOST>,
) -> Result<Idle, Fault>
    requires mine { at.me ≡ M.ops.me manager.old }
    requires few { length messages.now ≤ MOST }
    requires empty { room.old.items ≡ [] }
    requires origins { All (λ q. q.origin < most_nodes) messages.now }
    requires fits { All (FitsParcel (P.ops.config post.old) (P.ops.node post.old))
        (put_off_served M.ops at.me at.from at.page at.bytes.now
        idle manager.old breaches.old reply messages.now).posted }
    ensures { HasServed P.ops post.old post.new result
        manager.old manager.new breaches.old breaches.new
        (put_off_served M.ops at.entry.me at.entry.from at.entry.page at.entry.bytes.now
        idle manager.old breaches.old reply messages.now) }
{
    let hop = manager.next_hop(at.page);
    if let Some(kind) = reply {
        manager.on_replied(at.page, is_write(kind), at.from);
    }
    let mut after = idle;
    let mut counted = *breaches;
    serve_all(at, &mut after, manager, &mut counted, messages, room);
    if let Err(fault) = post.post(room.as_slice()) {
        take_back(at, hop, manager);
        return Err(fault);
    }
    *breaches = counted;
    Ok(after)
}

/// What [`serve_put_off`] does, of as many messages as there are.
///
/// It stands apart, so that one message is served with no room cleared for more.
#[inline(never)]
fn serve_many<M: Manager, P: Post>(
    at: Place,
    reply: Option<Request>,
    idle: Idle,
    manager: &mut M,
    breaches: &mut u64,
    messages: &[PutOff],
    post: &mut P,
) -> Result<Idle, Fault>
    requires mine { at.me ≡ M.ops.me manager.old }
    requires few { length messages.now ≤ most_posted }
    requires origins { All (λ q. q.origin < most_nodes) messages.now }
    requires fits { All (FitsParcel (P.ops.config post.old) (P.ops.node post.old))
        (put_off_served M.ops at.me at.from at.page at.bytes.now
        idle manager.old breaches.old reply messages.now).posted }
    ensures { HasServed P.ops post.old post.new result
        manager.old manager.new breaches.old breaches.new
        (put_off_served M.ops at.entry.me at.entry.from at.entry.page at.entry.bytes.now
        idle manager.old breaches.old reply messages.now) }
{
    let mut room: Parcels<MOST_POSTED> = ArrayVec::new();
    serve_in(
        at, reply, idle, manager, breaches, messages, post, &mut room,
    )
}

/// Serves messages at an idle entry and posts what comes of it, or changes nothing [1, 17]. First the manager
/// learns that `from` replied, to a request to write or to read, where that brings it about. What the entry is
/// then.
pub fn serve_put_off<M: Manager, P: Post>(
    at: Place,
    reply: Option<Request>,
    idle: Idle,
    manager: &mut M,
    breaches: &mut u64,
    messages: &[PutOff],
    post: &mut P,
) -> Result<Idle, Fault>
    requires mine { at.me ≡ M.ops.me manager.old }
    requires few { length messages.now ≤ most_posted }
    requires origins { All (λ q. q.origin < most_nodes) messages.now }
    requires fits { All (FitsParcel (P.ops.config post.old) (P.ops.node post.old))
        (put_off_served M.ops at.me at.from at.page at.bytes.now
        idle manager.old breaches.old reply messages.now).posted }
    ensures { HasServed P.ops post.old post.new result
        manager.old manager.new breaches.old breaches.new
        (put_off_served M.ops at.entry.me at.entry.from at.entry.page at.entry.bytes.now
        idle manager.old breaches.old reply messages.now) }
{
    if messages.len() > 1 {
        return serve_many(at, reply, idle, manager, breaches, messages, post);
    }
    let mut room: Parcels<1> = ArrayVec::new();
    serve_in(
        at, reply, idle, manager, breaches, messages, post, &mut room,
    )
}

/// Tells each of these nodes to give its copy up, or changes nothing [1, 17].
pub fn invalidate<P: Post>(
    me: u8,
    page: u32,
    call: u64,
    nodes: &NodeSet,
    post: &mut P,
) -> Result<(), Fault>
    requires few { length (nodes_of nodes.now) ≤ most_posted }
    requires fits { All (FitsParcel (P.ops.config post.old) (P.ops.node post.old))
        (invalidations me page call nodes.now) }
    ensures { HasPosted P.ops post.old post.new result
        (invalidations me page call nodes.now) }
{
    let mut parcels: Parcels<MOST_POSTED> = ArrayVec::new();
    for node in nodes.nodes().as_slice() {
        parcels.push(parcel_to(me, *node, me, call, Content::Inval { page }));
    }
    post.post(parcels.as_slice())
}
