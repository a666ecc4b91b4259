//! Own code at a node in a process: the memory that its work has, and the service around it.
ghost use Rattle.std.specs.Prelude.{◌≡◌, ◌+◌, ◌≤◌, [], IfOk, None, Ok, OnOk, length, take};
ghost use Rattle.ivy_logs.specs.Entries.{answers_in};
ghost use Rattle.ivy_model.specs.stated.Legal.{HasWidth};
ghost use Rattle.ivy_process.specs.NodeLogs.{StreamsPart, StreamsWhole};
ghost use Rattle.ivy_process.specs.OwnNodes.{begun, HasResumed, HasWorked, OwnStreams, Replies, RepliesFrom, Resumes};

use crate::failure::{NODE_FAILED, NodeFailure, line_of};
use crate::mail::Inbox;
use crate::node::Node;
use crate::past::{Recalled, check_told, recall};
use crate::service::{Clockwork, Service, awake, serve, serve_briefly, serve_on};
use crate::story::Story;
use crate::streams::Streams;
use crate::watch::Unwatched;
use ivy_calls::{Answer, SharedMemory, Work};
use ivy_logs::{Log, count_answers};
use ivy_model::{Call, Fault, Reply};
use std::alloc::Global;
use std::io::Write;
use std::marker::{Brand, Model, PhantomData};
use std::sync::Wait;

/// Where a node's work began. Whoever begins one picks it, at `Brand`.
pub trait Beginning {
    ghost use Rattle.ivy_process.specs.OwnNodes.{Begun};

    ghost begun: { Begun };
}

impl Beginning for Brand {
    ghost use Rattle.std.specs.Prelude.{[], None};
    ghost use Rattle.ivy_program.specs.stated.Programs.{Called};

    ghost begun = { record { past = []; program = Called [] []; history = []; events = []; unlogged = []; log = None } };
}

/// A node that serves its own code, with what it hears and speaks to.
#[derive(Drop)]
struct ServedNode<'a, I, L, O, E> {
    node: Node,
    service: Service<Unwatched>,
    streams: Streams<'a, I, L, O, E>,
    /// How many answers its log has.
    answered: u64,
}

/// The memory of a node in a process as its work has it. A work that is begun again makes its calls again: those that the
/// log has are answered as it says.
///
/// Contracts see what was answered. The log has it, unless a call failed.
#[derive(Drop)]
struct OwnMemory<'a, S: Beginning, R, C, I, L: Write, O, E> {
    rt: &'a R,
    clock: &'a C,
    past: &'a Log<Global>,
    /// The place in the log behind what the work was told of it.
    place: usize,
    served: ServedNode<'a, I, L, O, E>,
    told: Story,
    failure: Option<NodeFailure>,
    of: PhantomData<S>,
}

impl<'a, S: Beginning, R, C, I, L: Write, O, E> Model for OwnMemory<'a, S, R, C, I, L, O, E> {
    ghost use Rattle.std.specs.Prelude.{◌≡◌, ◌≤◌, List, length};
    ghost use Rattle.ivy_calls.specs.declared.Answer.{Answer};
    ghost use Rattle.ivy_process.specs.OwnNodes.{ResumesUnless};

    ghost Value = { List Answer };

    ghost view = { λ m. m.told };

    ghost invariant = { λ m. (m.past.now.entries.items ≡ S.begun.past) × (m.place ≤ length m.past.now.entries.items) × ResumesUnless m.failure S.begun m.place m.served.answered m.served.node (L.contents m.served.streams.log) m.told };
}

/// Serves until the call that was made has its reply.
fn hear_reply<R: Wait, C: Clockwork, I: Inbox, L: Write, O: Write, E: Write>(
    rt: &R,
    clock: &C,
    served: &mut ServedNode<'_, I, L, O, E>,
    call: Call,
) -> Result<Reply, NodeFailure>
    ensures replies { IfOk result (λ reply. Replies call reply served.old.answered served.old.node served.new.node (L.contents served.old.streams.log) (L.contents served.new.streams.log)) }
    ensures one { OnOk result (served.new.answered ≡ served.old.answered + 1) }
{
    let is_free = serve_on(
        rt,
        clock,
        &mut served.node,
        &mut served.service,
        &mut served.streams,
        true,
    )?;
    if !is_free {
        return Err(NodeFailure::Unanswered);
    }
    let reply = served.node.answer(call, served.answered)?;
    served.answered = served.node.answered();
    Ok(reply)
}

/// Makes a call, and serves until it has its reply.
fn ask<R: Wait, C: Clockwork, I: Inbox, L: Write, O: Write, E: Write>(
    rt: &R,
    clock: &C,
    served: &mut ServedNode<'_, I, L, O, E>,
    call: Call,
) -> Result<Reply, NodeFailure>
    requires width { HasWidth call }
    ensures replies { IfOk result (λ reply. Replies call reply served.old.answered served.old.node served.new.node (L.contents served.old.streams.log) (L.contents served.new.streams.log)) }
    ensures one { OnOk result (served.new.answered ≡ served.old.answered + 1) }
{
    served.node.ask(call)?;
    hear_reply(rt, clock, served, call)
}

/// Answers a call that the log has or lacks, but for its reply.
fn reply_to<R: Wait, C: Clockwork, I: Inbox, L: Write, O: Write, E: Write>(
    rt: &R,
    clock: &C,
    served: &mut ServedNode<'_, I, L, O, E>,
    call: Call,
    recalled: Recalled,
) -> Result<Reply, NodeFailure>
    requires width { HasWidth call }
    ensures replies { IfOk result (λ reply. Replies call reply served.old.answered served.old.node served.new.node (L.contents served.old.streams.log) (L.contents served.new.streams.log)) }
    ensures one { OnOk result (served.new.answered ≡ served.old.answered + 1) }
{
    match recalled {
        Recalled::New => ask(rt, clock, served, call),
        _ => hear_reply(rt, clock, served, call),
    }
}

/// Whether no call failed, and a log says nothing more of calls from a place on.
fn check_done(
    past: &Log<Global>,
    place: usize,
    failure: Option<NodeFailure>,
) -> Result<(), NodeFailure>
    requires { place ≤ length past.now.entries.items }
    ensures went { OnOk result (failure ≡ None) }
    ensures told { OnOk result (answers_in past.now.entries.items ≡ answers_in (take place past.now.entries.items)) }
{
    if let Some(failure) = failure {
        return Err(failure);
    }
    if let Err(at) = check_told(&past.entries, place) {
        return Err(NodeFailure::Differs(line_of(&past.lines, at)));
    }
    Ok(())
}

/// Answers a call as the log says from a place on, or else by the node. The place behind what the work was told is given
/// too.
fn reply_from<R: Wait, C: Clockwork, I: Inbox, L: Write, O: Write, E: Write>(
    rt: &R,
    clock: &C,
    past: &Log<Global>,
    place: usize,
    served: &mut ServedNode<'_, I, L, O, E>,
    call: Call,
) -> Result<(Reply, usize), NodeFailure>
    requires width { HasWidth call }
    requires within { place ≤ length past.now.entries.items }
    ensures { IfOk result (λ r. RepliesFrom past.now.entries.items call r.0 place r.1 served.old.answered served.new.answered served.old.node served.new.node (L.contents served.old.streams.log) (L.contents served.new.streams.log)) }
{
    let recalled = match recall(&past.entries, place, call) {
        Ok(recalled) => recalled,
        Err(at) => return Err(NodeFailure::Differs(line_of(&past.lines, at))),
    };
    if let Recalled::Known { reply, next } = recalled {
        return Ok((reply, next));
    }
    let reply = reply_to(rt, clock, served, call, recalled)?;
    Ok((reply, past.entries.len()))
}

/// Serves while a work waits for a word. Where the input has ended, the work waits in vain.
fn serve_rest<R: Wait, C: Clockwork, I: Inbox, L: Write, O: Write, E: Write>(
    rt: &R,
    clock: &C,
    served: &mut ServedNode<'_, I, L, O, E>,
) -> Result<(), NodeFailure>
    ensures went { OnOk result (StreamsPart served.old.node served.new.node (L.contents served.old.streams.log) (L.contents served.new.streams.log)) }
    ensures none { OnOk result (served.new.answered ≡ served.old.answered) }
{
    let goes_on = serve_briefly(
        rt,
        clock,
        &mut served.node,
        &mut served.service,
        &mut served.streams,
    )?;
    if goes_on {
        Ok(())
    } else {
        Err(NodeFailure::Unanswered)
    }
}

/// Has the page of an address fetched ahead, and speaks of it. Nothing is done where there is no such page, or the node may not
/// ask for it now.
fn fetch_at<I, L: Write, O: Write, E: Write>(
    node: &mut Node,
    streams: &mut Streams<'_, I, L, O, E>,
    addr: u64,
    write: bool,
) -> Result<(), NodeFailure>
    ensures { OnOk result (OwnStreams (begun [] node.old (L.contents streams.old.log)) node.new (L.contents streams.new.log) []) }
{
    let Some(page) = node.page_at(addr) else {
        return Ok(());
    };
    if !node.fetch(page, write)? {
        return Ok(());
    }
    node.speak(&mut streams.log, &mut streams.out, &mut streams.err)
}

/// The same of a node that serves its own code.
fn fetch_page<I, L: Write, O: Write, E: Write>(
    served: &mut ServedNode<'_, I, L, O, E>,
    addr: u64,
    write: bool,
) -> Result<(), NodeFailure>
    ensures went { OnOk result (OwnStreams (begun [] served.old.node (L.contents served.old.streams.log)) served.new.node (L.contents served.new.streams.log) []) }
    ensures none { OnOk result (served.new.answered ≡ served.old.answered) }
{
    fetch_at(&mut served.node, &mut served.streams, addr, write)
}

impl<'a, S, R, C, I, L, O, E> SharedMemory for OwnMemory<'a, S, R, C, I, L, O, E>
where
    S: Beginning,
    R: Wait,
    C: Clockwork,
    I: Inbox,
    L: Write,
    O: Write,
    E: Write,
{
    ghost use Rattle.std.specs.Prelude.{◌≡◌};
    ghost use Rattle.ivy_model.specs.declared.Fault.TheVariants.{TurnLimit};

    ghost answers = { λ m. m };

    ghost can_fail = { λ _ fault. fault ≡ TurnLimit };

    fn call(&mut self, call: Call) -> Result<Reply, Fault> {
        if self.failure.is_some() {
            return Err(NODE_FAILED);
        }
        let found = reply_from(
            self.rt,
            self.clock,
            self.past,
            self.place,
            &mut self.served,
            call,
        );
        match found {
            Ok((reply, next)) => {
                self.place = next;
                self.told.push(&Answer { call, reply });
                Ok(reply)
            }
            Err(failure) => {
                self.failure = Some(failure);
                Err(NODE_FAILED)
            }
        }
    }

    /// The log has a line for the page, where the node asks for it. What the log says is not asked for again.
    fn fetch_ahead(&mut self, addr: u64, write: bool) {
        if self.failure.is_some() || self.place < self.past.entries.len() {
            return;
        }
        if let Err(failure) = fetch_page(&mut self.served, addr, write) {
            self.failure = Some(failure);
        }
    }

    /// Serves until the next millisecond: each look stands in the log. What the log says waits for nobody.
    fn rest(&mut self, looks: u64) {
        let _ = looks;
        if self.failure.is_some() || self.place < self.past.entries.len() {
            return;
        }
        if let Err(failure) = serve_rest(self.rt, self.clock, &mut self.served) {
            self.failure = Some(failure);
        }
    }
}

impl<'a, S, R, C, I, L, O, E> OwnMemory<'a, S, R, C, I, L, O, E>
where
    S: Beginning,
    L: Write + Drop,
    O: Drop,
    E: Drop,
{
    /// The node and its streams, where no call failed, and the work has made all calls that the log has.
    fn into_served(self) -> Result<ServedNode<'a, I, L, O, E>, NodeFailure>
        ensures { IfOk result (λ served. HasResumed S.begun served.answered served.node (L.contents served.streams.log) self.entry) }
    {
        check_done(self.past, self.place, self.failure)?;
        Ok(self.served)
    }
}

/// What the work of a node in a process gave, and its node and its log once its input had ended.
#[derive(Drop)]
pub struct Worked<T, L> {
    /// What the work gave.
    pub gave: T,
    /// The node.
    pub node: Node,
    /// Its log.
    pub log: L,
}

/// The memory of a work that begins.
fn memory_of<'a, S, R, C, I, L, O, E>(
    rt: &'a R,
    clock: &'a C,
    past: &'a Log<Global>,
    served: ServedNode<'a, I, L, O, E>,
) -> OwnMemory<'a, S, R, C, I, L, O, E>
where
    S: Beginning,
    L: Write,
    requires past { past.now.entries.items ≡ S.begun.past }
    requires began { Resumes S.begun 0 served.answered served.node (L.contents served.streams.log) [] }
    ensures { result ≡ [] }
{
    let memory = OwnMemory::<S, R, C, I, L, O, E> {
        rt,
        clock,
        past,
        place: 0,
        served,
        told: Story::new(),
        failure: None,
        of: PhantomData,
    };
    memory
}

/// Where a work gave something, serves until the input has ended. The log has all that its node was answered.
fn finish<R, C, I, T, L, O, E>(
    rt: &R,
    clock: &C,
    gave: Result<T, Fault>,
    served: ServedNode<'_, I, L, O, E>,
) -> Result<Worked<T, L>, NodeFailure>
where
    R: Wait,
    C: Clockwork,
    I: Inbox,
    T: Drop,
    L: Write + Drop,
    O: Write + Drop,
    E: Write + Drop,
    ensures gave { IfOk result (λ worked. gave ≡ Ok worked.gave) }
    ensures went { IfOk result (λ worked. StreamsWhole served.entry.node worked.node (L.contents served.entry.streams.log) (L.contents worked.log)) }
    ensures told { IfOk result (λ worked. length worked.node.site.node.core.history ≡ served.entry.answered) }
{
    let gave = match gave {
        Ok(gave) => gave,
        Err(fault) => return Err(NodeFailure::GaveUp(fault)),
    };
    let ServedNode {
        mut node,
        service: _,
        mut streams,
        answered,
    } = served;
    serve(rt, clock, &mut node, &mut streams)?;
    if node.answered() != answered {
        return Err(NodeFailure::Unanswered);
    }
    Ok(Worked {
        gave,
        node,
        log: streams.log,
    })
}

/// Does the work of a node that began so, and then serves until the input has ended.
fn work_from<S, R, C, I, W, L, O, E>(
    rt: &R,
    clock: &C,
    past: &Log<Global>,
    node: Node,
    work: &W,
    streams: Streams<'_, I, L, O, E>,
) -> Result<Worked<W::Out, L>, NodeFailure>
where
    S: Beginning,
    R: Wait,
    C: Clockwork,
    I: Inbox,
    W: Work,
    L: Write + Drop,
    O: Write + Drop,
    E: Write + Drop,
    requires { begun past.now.entries.items node (L.contents streams.log) ≡ S.begun }
    ensures { IfOk result (λ worked. HasWorked (W.done work.now) past.now.entries.items node worked.node (L.contents streams.entry.log) (L.contents worked.log) worked.gave) }
{
    let me = node.me();
    let mut node = node;
    // That its code may make a call is no end, so none is to be told.
    let service = awake(clock, &mut node, true, Unwatched)?;
    let served = ServedNode {
        node,
        service,
        streams,
        answered: count_answers(&past.entries),
    };
    let mut memory = memory_of::<S, R, C, I, L, O, E>(rt, clock, past, served);
    let gave = work.work(me, &mut memory);
    let last = memory.into_served()?;
    finish(rt, clock, gave, last)
}

/// Does the work of a node with own code, and then serves the other nodes until its input has ended.
///
/// `past` is the log of the node as it was found, of which [`Node::open`] made it; without entries where the node is new.
/// A work that is begun again is answered as that log says, as long as it has the call: it has to make the same calls where
/// it is answered the same, and else the line is named of the call that it does not make. What the node did since, what its
/// work called and what it was answered stand in the log, and before a frame of it goes out. These are the calls that the
/// node made and the answers that it had, and by all of them the work has done what it had to.
pub fn serve_work<R, C, I, W, L, O, E>(
    rt: &R,
    clock: &C,
    past: &Log<Global>,
    node: Node,
    work: &W,
    streams: Streams<'_, I, L, O, E>,
) -> Result<Worked<W::Out, L>, NodeFailure>
where
    R: Wait,
    C: Clockwork,
    I: Inbox,
    W: Work,
    L: Write + Drop,
    O: Write + Drop,
    E: Write + Drop,
    ensures { IfOk result (λ worked. HasWorked (W.done work.now) past.now.entries.items node worked.node (L.contents streams.entry.log) (L.contents worked.log) worked.gave) }
{
    work_from::<Brand, R, C, I, W, L, O, E>(rt, clock, past, node, work, streams)
}
