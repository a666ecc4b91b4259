//! Calls at one of two nodes, under managing nodes. Node 0 keeps the owner of page 0, where the counts are.
ghost use Rattle.ivy_model.specs.stated.Legal.{HasWidth};

use crate::common::{Growing, PAIR, Scene, Stepped, expect_scene, refuse_each};
use crate::letters::{Bytes, Letter, Said, message, received};
use crate::posted::Posted;
use ivy_fixed::FixedManager;
use ivy_memory::{CallProgress, Memory};
use ivy_model::{Call, Fault, Reply};
use ivy_wire::Message;
use std::alloc::Allocator;
use std::marker::Model;
use std::process::Abort;
use test_support::Failing;

/// One of the two nodes, and what it posts.
#[derive(Drop)]
pub(crate) struct Node<A: Allocator> {
    memory: Memory<FixedManager<A>, A>,
    posted: Posted<A>,
}

impl<A: Allocator> Model for Node<A> {
    ghost use Rattle.std.specs.Prelude.{◌≡◌, ℕ, List};
    ghost use Rattle.ivy_model.specs.declared.Config as declared;
    ghost use Rattle.ivy_wire.specs.stated.Data as wire;
    ghost use Rattle.ivy_fixed.specs.stated.Fixed.{Owners};
    ghost use Rattle.ivy_memory.specs.stated.Memories as memories;
    ghost use Rattle.test_layers.specs.declared.common.TheConstants.{PAIR};
    ghost use Rattle.std.specs.Coded.{codes};
    ghost use Rattle.ivy_pagetable.specs.stated.NodeSets.{nodes_code};
    ghost use Rattle.ivy_alloc.specs.Heap.{heap_state_code};

    ghost Value = { memories.NodeMemory Owners × (declared.Config × ℕ × List wire.Parcel) };

    ghost coded = { Prim.hlevel (codes, nodes_code, heap_state_code) };

    ghost view = { λ n. (n.memory, n.posted) };

    ghost invariant = { λ n. (n.memory.coherence.config ≡ PAIR) × (n.posted.0 ≡ PAIR) × (n.posted.1 ≡ n.memory.coherence.me) };
}

/// What a call comes to.
pub(crate) type Outcome = Result<CallProgress, Fault>;

/// What happens to a node, or what it shows.
#[derive(Clone, Copy)]
pub(crate) enum Step {
    /// Its program makes a call, the one of this number: awaits that count 0 is at least this, reads or advances a
    /// count, wants a block of so many bytes, or ends the block at an address. What that comes to.
    Awaits(u64, u64, Outcome),
    Reads(u64, u64, Outcome),
    Advances(u64, u64, Outcome),
    Allocates(u64, u64, Outcome),
    Frees(u64, u64, Outcome),
    /// The call in progress is asked for its reply.
    Polls(Outcome),
    /// A message about page 0 or of the heap comes from the other node, and is taken, or is refused with 1.
    Comes(u8, Letter),
    Refuses(u8, Letter),
    /// Whether its messages are refused from now on.
    IsFull(bool),
    /// How many messages were posted.
    Posted(usize),
    /// The call in progress.
    Asked(Option<Call>),
    /// How many messages that came fitted no rule.
    Breaches(u64),
}

impl<A: Allocator + Copy> Node<A> {
    /// Whether a call comes to this.
    fn begins(&mut self, rt: &impl Abort, call: Call, number: u64, outcome: Outcome) -> bool
        requires { HasWidth call }
    {
        assert!(rt; number != 0);
        match self.memory.begin(call, number, &mut self.posted) {
            Ok(answer) => outcome == Ok(answer),
            Err(fault) => outcome == Err(fault),
        }
    }

    /// Whether the reply of the call comes to this.
    fn polls(&mut self, outcome: Outcome) -> bool {
        match self.memory.poll_reply(&mut self.posted) {
            Ok(answer) => outcome == Ok(answer),
            Err(fault) => outcome == Err(fault),
        }
    }

    /// Whether a message of the other node comes to this.
    fn takes(
        &mut self,
        rt: &impl Abort,
        from: u8,
        message: Message<&[u8]>,
        outcome: Result<(), Fault>,
    ) -> bool {
        let message = received(rt, &PAIR, from, self.posted.node(), message);
        match self.memory.handle(from, message, &mut self.posted) {
            Ok(()) => outcome == Ok(()),
            Err(fault) => outcome == Err(fault),
        }
    }

    /// Whether the message that another node posted last is this letter to this node, and is taken.
    pub(crate) fn takes_last(
        &mut self,
        rt: &impl Abort,
        other: &Posted<A>,
        letter: Letter,
    ) -> bool {
        match other.last_to(self.posted.node(), letter) {
            Some(parcel) => self.takes(rt, parcel.source, parcel.message.lent(), Ok(())),
            None => false,
        }
    }

    /// All messages that it posted.
    pub(crate) fn posts(&self) -> &Posted<A> {
        &self.posted
    }
}

impl<A: Allocator + Copy> Stepped<A> for Node<A> {
    type Step = Step;

    fn new(rt: &impl Abort, alloc: A, me: u8) -> Node<A> {
        PAIR.check().expect(rt, "a configuration");
        assert!(rt; me < PAIR.nodes);
        let manager = FixedManager::new(alloc, &PAIR, me).expect(rt, "memory");
        Node {
            memory: Memory::new(alloc, &PAIR, me, manager).expect(rt, "memory"),
            posted: Posted::new(alloc, PAIR, me),
        }
    }

    fn goes(&mut self, rt: &impl Abort, step: &Step) -> bool {
        match step {
            Step::Awaits(least, number, outcome) => {
                let call = Call::Await {
                    k: 0,
                    least: *least,
                };
                self.begins(rt, call, *number, *outcome)
            }
            Step::Reads(k, number, outcome) => {
                self.begins(rt, Call::Count { k: *k }, *number, *outcome)
            }
            Step::Advances(k, number, outcome) => {
                self.begins(rt, Call::Advance { k: *k }, *number, *outcome)
            }
            Step::Allocates(size, number, outcome) => {
                self.begins(rt, Call::Alloc { size: *size }, *number, *outcome)
            }
            Step::Frees(addr, number, outcome) => {
                self.begins(rt, Call::Free { addr: *addr }, *number, *outcome)
            }
            Step::Polls(outcome) => self.polls(*outcome),
            Step::Comes(from, letter) => self.takes(rt, *from, message(0, *letter), Ok(())),
            Step::Refuses(from, letter) => {
                self.takes(rt, *from, message(0, *letter), Err(Fault::Memory))
            }
            Step::IsFull(is_full) => {
                self.posted.refuse(*is_full);
                true
            }
            Step::Posted(number) => self.posted.parcels().len() == *number,
            Step::Asked(call) => self.memory.asked() == *call,
            Step::Breaches(number) => self.memory.breaches() == *number,
        }
    }

    fn has_posted(&self, wanted: &[(u8, Letter)]) -> bool {
        self.posted.are(0, wanted)
    }
}

pub(crate) fn check(rt: &(impl Abort + AllocGlobal), scene: &Scene<Step>) {
    let mut node = Node::new(rt, rt.alloc(), scene.me);
    expect_scene(rt, &mut node, scene);
}

pub(crate) fn refuse(rt: &(impl Abort + AllocGlobal), growing: &Growing<Step>) {
    let memory = Failing::new(rt.alloc());
    refuse_each::<Node<_>>(rt, &memory, growing);
}

/// The reply of a count at 0, and of one at its greatest value.
const ZERO: Outcome = Ok(CallProgress::Given(Reply::Value(0)));

const MOST: Outcome = Ok(CallProgress::Given(Reply::Value(u64::MAX)));

/// An awaited count comes too low. The word is tried again without an answer, and nothing is posted; once the
/// copy is given up it faults again, under the same number; and the next copy has the count.
#[test]
fn an_await_without_a_copy(rt: HostRuntime) {
    check(&rt, &WITHOUT_A_COPY);
}

static WITHOUT_A_COPY: Scene<'static, Step> = Scene {
    me: 1,
    steps: &[
        Step::Awaits(1, 3, Ok(CallProgress::Awaited)),
        Step::Polls(Ok(CallProgress::Unserved)),
        Step::Posted(1),
        Step::Comes(0, (Said::Copy(Bytes::Zeros), 1, 3)),
        Step::Polls(Ok(CallProgress::Unserved)),
        Step::Polls(Ok(CallProgress::Unserved)),
        Step::Posted(1),
        Step::Asked(Some(Call::Await { k: 0, least: 1 })),
        Step::Comes(0, (Said::Order, 0, 9)),
        Step::IsFull(true),
        Step::Polls(Err(Fault::Memory)),
        Step::IsFull(false),
        Step::Polls(Ok(CallProgress::Awaited)),
        Step::Polls(Ok(CallProgress::Unserved)),
        Step::Posted(3),
        Step::Comes(0, (Said::Copy(Bytes::Ones), 1, 3)),
        Step::Polls(MOST),
        Step::Asked(None),
        Step::Polls(Ok(CallProgress::Unserved)),
        Step::Awaits(u64::MAX, 4, MOST),
    ],
    posted: &[
        (0, (Said::Request, 1, 3)),
        (0, (Said::Acknowledgement, 0, 9)),
        (0, (Said::Request, 1, 3)),
    ],
};

/// The owner awaits a count that is too low yet, and asks nobody until it has given the page away.
#[test]
fn an_await_of_the_owner(rt: HostRuntime) {
    check(&rt, &OWNER_AWAITS);
}

static OWNER_AWAITS: Scene<'static, Step> = Scene {
    me: 0,
    steps: &[
        Step::Awaits(0, 1, ZERO),
        Step::Awaits(5, 2, Ok(CallProgress::Awaited)),
        Step::Polls(Ok(CallProgress::Unserved)),
        Step::Posted(0),
        Step::Comes(1, (Said::WriteRequest, 1, 7)),
        Step::Polls(Ok(CallProgress::Awaited)),
        Step::Posted(2),
        Step::Comes(1, (Said::Copy(Bytes::Ones), 0, 2)),
        Step::Polls(MOST),
    ],
    posted: &[
        (1, (Said::Whole(0, Bytes::Zeros), 1, 7)),
        (1, (Said::Request, 0, 2)),
    ],
};

/// A call beside one in progress is refused with 18, be it one that hits, is refused or wants to post, and the one
/// in progress goes on.
#[test]
fn a_call_beside_another(rt: HostRuntime) {
    check(&rt, &BESIDE_ANOTHER);
}

static BESIDE_ANOTHER: Scene<'static, Step> = Scene {
    me: 0,
    steps: &[
        Step::Awaits(1, 1, Ok(CallProgress::Awaited)),
        Step::Reads(0, 1, Err(Fault::Busy)),
        Step::Reads(8, 2, Err(Fault::Busy)),
        Step::Allocates(8, 2, Err(Fault::Busy)),
        Step::Comes(1, (Said::WriteRequest, 1, 7)),
        Step::Advances(0, 2, Err(Fault::Busy)),
        Step::Posted(1),
        Step::Asked(Some(Call::Await { k: 0, least: 1 })),
        Step::Polls(Ok(CallProgress::Awaited)),
        Step::Reads(0, 2, Err(Fault::Busy)),
        Step::Comes(1, (Said::Copy(Bytes::Ones), 0, 1)),
        Step::Polls(MOST),
        Step::Reads(8, 2, Ok(CallProgress::Given(Reply::Refused(6)))),
    ],
    posted: &[
        (1, (Said::Whole(0, Bytes::Zeros), 1, 7)),
        (1, (Said::Request, 0, 1)),
    ],
};
