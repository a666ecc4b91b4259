//! Faults and requests at one of three nodes, under managing nodes.
ghost use Rattle.ivy_pagetable.specs.stated.Words.{IsWord};

use crate::common::{Growing, PAIR, Scene, Stepped, expect_scene, refuse_each};
use crate::letters::{Bytes, Letter, Said, message, received};
use crate::posted::Posted;
use ivy_coherence::{Coherence, Need};
use ivy_fixed::FixedManager;
use ivy_model::{Config, Fault};
use ivy_pagetable::{Out, Word};
use std::alloc::Allocator;
use std::marker::Model;
use std::process::Abort;
use test_support::Failing;

/// Three nodes, and two pages of 64 bytes. Node 1 keeps the owner of page 1.
const TRIO: Config = Config { nodes: 3, ..PAIR };

/// The first word of a page is read, and 5 is written to it.
const LOAD: Word = Word::Load {
    width: 8,
    offset: 0,
};

const STORE: Word = Word::Store {
    width: 8,
    offset: 0,
    value: 5,
};

/// One of the three nodes, and what it posts.
#[derive(Drop)]
struct Node<A: Allocator> {
    coherence: Coherence<FixedManager<A>, A>,
    posted: Posted<A>,
}

impl<A: Allocator> Model for Node<A> {
    ghost use Rattle.std.specs.Prelude.{◌≡◌, ℕ, List};
    ghost use Rattle.ivy_model.specs.declared.Config as declared;
    ghost use Rattle.ivy_wire.specs.stated.Data as wire;
    ghost use Rattle.ivy_fixed.specs.stated.Fixed.{Owners};
    ghost use Rattle.ivy_coherence.specs.stated.Coherent.{Coherent};
    ghost use Rattle.test_layers.specs.declared.coherence.TheConstants.{TRIO};
    ghost use Rattle.std.specs.Coded.{codes};
    ghost use Rattle.ivy_pagetable.specs.stated.NodeSets.{nodes_code};

    ghost Value = { Coherent Owners × (declared.Config × ℕ × List wire.Parcel) };

    ghost coded = { Prim.hlevel (codes, nodes_code) };

    ghost view = { λ n. (n.coherence, n.posted) };

    ghost invariant = { λ n. (n.coherence.config ≡ TRIO) × (n.posted.0 ≡ TRIO) × (n.posted.1 ≡ n.coherence.me) };
}

/// What happens to a node, or what it shows.
enum Step {
    /// Its program loads the first word of a page, or stores 5 in that of page 1: by the call of this number, once
    /// its last answer was taken out. What that comes to.
    Loads(u32, u64, Need),
    Stores(u64, Need),
    /// The same, refused with 1.
    LoadsInVain(u32, u64),
    StoresInVain(u64),
    /// A page is fetched, to read or to write, by the call of this number, and whether it is asked for.
    Fetches(u32, bool, u64, bool),
    /// A message about page 1 comes from a node, and is taken or refused.
    Comes(u8, Letter),
    Refuses(u8, Letter),
    /// Requests of node 2 for a copy come, for so many of its calls.
    Asks(u64),
    /// Whether its messages are refused from now on.
    IsFull(bool),
    /// The answer that is there, left there or taken out.
    Shows(Option<Out>),
    Returns(Option<Out>),
    /// How many messages were posted.
    Posted(usize),
    Breaches(u64),
}

impl<A: Allocator + Copy> Node<A> {
    /// Whether an access comes to this.
    fn needs(
        &mut self,
        rt: &impl Abort,
        page: u32,
        word: Word,
        call: u64,
        outcome: Result<Need, Fault>,
    ) -> bool
        requires { IsWord 64 word }
    {
        assert!(rt; page < TRIO.pages && call != 0 && self.coherence.answer().is_none());
        match self.coherence.need(page, word, call, &mut self.posted) {
            Ok(need) => outcome == Ok(need),
            Err(fault) => outcome == Err(fault),
        }
    }

    /// Whether a page is asked for that is to be fetched, or none where that is refused.
    fn fetches(&mut self, rt: &impl Abort, page: u32, write: bool, call: u64) -> Option<bool> {
        assert!(rt; page < TRIO.pages && call != 0);
        match self.coherence.fetch(page, write, call, &mut self.posted) {
            Ok(begun) => Some(begun),
            Err(_) => None,
        }
    }

    /// Whether a message of another node is taken.
    fn takes(&mut self, rt: &impl Abort, from: u8, letter: Letter) -> bool {
        let message = received(rt, &TRIO, from, self.posted.node(), message(1, letter));
        match self.coherence.handle(from, message, &mut self.posted) {
            Ok(()) => true,
            Err(_) => false,
        }
    }

    /// Whether requests of node 2 for a copy are taken, for its calls from 1 to this one.
    fn takes_requests(&mut self, rt: &impl Abort, calls: u64) -> bool {
        for call in 1..=calls {
            if !self.takes(rt, 2, (Said::Request, 2, call)) {
                return false;
            }
        }
        true
    }
}

impl<A: Allocator + Copy> Stepped<A> for Node<A> {
    type Step = Step;

    fn new(rt: &impl Abort, alloc: A, me: u8) -> Node<A> {
        TRIO.check().expect(rt, "a configuration");
        assert!(rt; me < TRIO.nodes);
        let manager = FixedManager::new(alloc, &TRIO, me).expect(rt, "memory");
        Node {
            coherence: Coherence::new(alloc, &TRIO, me, manager).expect(rt, "memory"),
            posted: Posted::new(alloc, TRIO, me),
        }
    }

    fn goes(&mut self, rt: &impl Abort, step: &Step) -> bool {
        match step {
            Step::Loads(page, call, need) => self.needs(rt, *page, LOAD, *call, Ok(*need)),
            Step::Stores(call, need) => self.needs(rt, 1, STORE, *call, Ok(*need)),
            Step::LoadsInVain(page, call) => {
                self.needs(rt, *page, LOAD, *call, Err(Fault::Memory))
            }
            Step::StoresInVain(call) => self.needs(rt, 1, STORE, *call, Err(Fault::Memory)),
            Step::Fetches(page, write, call, begun) => {
                self.fetches(rt, *page, *write, *call) == Some(*begun)
            }
            Step::Comes(from, letter) => self.takes(rt, *from, *letter),
            Step::Refuses(from, letter) => !self.takes(rt, *from, *letter),
            Step::Asks(calls) => self.takes_requests(rt, *calls),
            Step::IsFull(is_full) => {
                self.posted.refuse(*is_full);
                true
            }
            Step::Shows(answer) => self.coherence.answer() == *answer,
            Step::Returns(answer) => self.coherence.returned() == *answer,
            Step::Posted(number) => self.posted.parcels().len() == *number,
            Step::Breaches(number) => self.coherence.breaches() == *number,
        }
    }

    fn has_posted(&self, wanted: &[(u8, Letter)]) -> bool {
        self.posted.are(1, wanted) && self.coherence.config() == TRIO
    }
}

fn check(rt: &(impl Abort + AllocGlobal), scene: &Scene<Step>) {
    let mut node = Node::new(rt, rt.alloc(), scene.me);
    expect_scene(rt, &mut node, scene);
}

fn refuse(rt: &(impl Abort + AllocGlobal), growing: &Growing<Step>) {
    let memory = Failing::new(rt.alloc());
    refuse_each::<Node<_>>(rt, &memory, growing);
}

/// A node without a copy asks the managing node, and its entry is locked then.
#[test]
fn a_read_fault(rt: HostRuntime) {
    check(&rt, &READ_FAULT);
}

static READ_FAULT: Scene<'static, Step> = Scene {
    me: 2,
    steps: &[
        Step::Loads(1, 1, Need::Started),
        Step::Loads(0, 2, Need::Busy),
        Step::Returns(None),
    ],
    posted: &[(1, (Said::Request, 2, 1))],
};

/// A page is fetched once; the load of a call joins, asks nothing, and has the answer once the copy came.
#[test]
fn a_load_joins(rt: HostRuntime) {
    check(&rt, &JOINS);
}

static JOINS: Scene<'static, Step> = Scene {
    me: 2,
    steps: &[
        Step::Fetches(1, false, 1, true),
        Step::Fetches(1, false, 1, false),
        Step::Posted(1),
        Step::Loads(1, 4, Need::Started),
        Step::Loads(0, 5, Need::Busy),
        Step::Posted(1),
        Step::Comes(0, (Said::Copy(Bytes::Ones), 2, 4)),
        Step::Breaches(1),
        Step::Comes(0, (Said::Copy(Bytes::Ones), 2, 1)),
        Step::Returns(Some(Out::Value(u64::MAX))),
        Step::Loads(1, 5, Need::Have(Out::Value(u64::MAX))),
        Step::Breaches(1),
        Step::Posted(1),
    ],
    posted: &[(1, (Said::Request, 2, 1))],
};

/// A page that was fetched comes, and nobody is answered; a word that writes waits at no entry before.
#[test]
fn a_store_waits_for_a_fetch(rt: HostRuntime) {
    check(&rt, &FITS_NOT);
}

static FITS_NOT: Scene<'static, Step> = Scene {
    me: 2,
    steps: &[
        Step::Fetches(1, false, 3, true),
        Step::Stores(3, Need::Fetched),
        Step::Posted(1),
        Step::Comes(0, (Said::Copy(Bytes::Ones), 2, 3)),
        Step::Returns(None),
        Step::Stores(3, Need::Started),
        Step::Posted(2),
        Step::Breaches(0),
    ],
    posted: &[(1, (Said::Request, 2, 3)), (1, (Said::WriteRequest, 2, 3))],
};

/// The owner answers with the page's bytes, and reads on without asking.
#[test]
fn an_owner_answers(rt: HostRuntime) {
    check(&rt, &OWNER_ANSWERS);
}

static OWNER_ANSWERS: Scene<'static, Step> = Scene {
    me: 0,
    steps: &[
        Step::Comes(1, (Said::Request, 2, 7)),
        Step::Posted(1),
        Step::Loads(1, 1, Need::Have(Out::Value(0))),
        Step::Breaches(0),
    ],
    posted: &[(2, (Said::Copy(Bytes::Zeros), 2, 7))],
};

/// The managing node sends a request on to the owner, and it stays a request of the node that asked.
#[test]
fn a_request_goes_on(rt: HostRuntime) {
    check(&rt, &GOES_ON);
}

static GOES_ON: Scene<'static, Step> = Scene {
    me: 1,
    steps: &[Step::Comes(2, (Said::Request, 2, 7))],
    posted: &[(0, (Said::Request, 2, 7))],
};

/// Requests at a locked entry are put off, 32 at most. Once the copy came they go on in their order,
/// and the word that waited has read the copy.
#[test]
fn requests_at_a_locked_entry(rt: HostRuntime) {
    check(&rt, &LOCKED);
}

static LOCKED: Scene<'static, Step> = Scene {
    me: 1,
    steps: &[
        Step::Loads(1, 3, Need::Started),
        Step::Asks(32),
        Step::Breaches(0),
        Step::Comes(2, (Said::Request, 2, 33)),
        Step::Posted(1),
        Step::Breaches(1),
        Step::Comes(0, (Said::Copy(Bytes::Ones), 1, 3)),
        Step::Posted(33),
        Step::Shows(Some(Out::Value(u64::MAX))),
        Step::Returns(Some(Out::Value(u64::MAX))),
        Step::Returns(None),
        Step::Loads(1, 4, Need::Have(Out::Value(u64::MAX))),
    ],
    posted: &[
        (0, (Said::Request, 1, 3)),
        (0, (Said::Request, 2, 1)),
        (0, (Said::Request, 2, 2)),
        (0, (Said::Request, 2, 3)),
        (0, (Said::Request, 2, 4)),
        (0, (Said::Request, 2, 5)),
        (0, (Said::Request, 2, 6)),
        (0, (Said::Request, 2, 7)),
        (0, (Said::Request, 2, 8)),
        (0, (Said::Request, 2, 9)),
        (0, (Said::Request, 2, 10)),
        (0, (Said::Request, 2, 11)),
        (0, (Said::Request, 2, 12)),
        (0, (Said::Request, 2, 13)),
        (0, (Said::Request, 2, 14)),
        (0, (Said::Request, 2, 15)),
        (0, (Said::Request, 2, 16)),
        (0, (Said::Request, 2, 17)),
        (0, (Said::Request, 2, 18)),
        (0, (Said::Request, 2, 19)),
        (0, (Said::Request, 2, 20)),
        (0, (Said::Request, 2, 21)),
        (0, (Said::Request, 2, 22)),
        (0, (Said::Request, 2, 23)),
        (0, (Said::Request, 2, 24)),
        (0, (Said::Request, 2, 25)),
        (0, (Said::Request, 2, 26)),
        (0, (Said::Request, 2, 27)),
        (0, (Said::Request, 2, 28)),
        (0, (Said::Request, 2, 29)),
        (0, (Said::Request, 2, 30)),
        (0, (Said::Request, 2, 31)),
        (0, (Said::Request, 2, 32)),
    ],
};

/// A copy that no word waits for, a copy for another call, and a request that names this node as the one
/// that asks: each is one breach, and changes nothing else.
#[test]
fn forged_messages(rt: HostRuntime) {
    check(&rt, &FORGED);
}

static FORGED: Scene<'static, Step> = Scene {
    me: 2,
    steps: &[
        Step::Comes(0, (Said::Copy(Bytes::Ones), 2, 1)),
        Step::Breaches(1),
        Step::Loads(1, 2, Need::Started),
        Step::Comes(0, (Said::Copy(Bytes::Ones), 2, 1)),
        Step::Breaches(2),
        Step::Comes(1, (Said::Request, 2, 2)),
        Step::Breaches(3),
        Step::Shows(None),
    ],
    posted: &[(1, (Said::Request, 2, 2))],
};

/// A node without the page asks for it. The page comes with a node that has a copy; once that gave it up the
/// word is carried out, and the request that was put off is served with the bytes as they are then.
#[test]
fn a_write_fault(rt: HostRuntime) {
    check(&rt, &WRITE_FAULT);
}

static WRITE_FAULT: Scene<'static, Step> = Scene {
    me: 2,
    steps: &[
        Step::Stores(4, Need::Started),
        Step::Posted(1),
        Step::Comes(0, (Said::Whole(2, Bytes::Zeros), 2, 4)),
        Step::Posted(2),
        Step::Comes(1, (Said::Request, 1, 9)),
        Step::Shows(None),
        Step::Posted(2),
        Step::Comes(1, (Said::Acknowledgement, 2, 4)),
        Step::Returns(Some(Out::Done)),
        Step::Posted(3),
        Step::Loads(1, 5, Need::Have(Out::Value(5))),
        Step::Breaches(0),
    ],
    posted: &[
        (1, (Said::WriteRequest, 2, 4)),
        (1, (Said::Order, 2, 4)),
        (1, (Said::Copy(Bytes::Stored), 1, 9)),
    ],
};

/// The owner gives the page up with the nodes that have a copy, and has nothing of it then.
#[test]
fn an_owner_gives_the_page(rt: HostRuntime) {
    check(&rt, &OWNER_GIVES);
}

static OWNER_GIVES: Scene<'static, Step> = Scene {
    me: 0,
    steps: &[
        Step::Comes(1, (Said::Request, 1, 7)),
        Step::Comes(1, (Said::WriteRequest, 2, 8)),
        Step::Posted(2),
        Step::Loads(1, 1, Need::Started),
    ],
    posted: &[
        (1, (Said::Copy(Bytes::Zeros), 1, 7)),
        (2, (Said::Whole(2, Bytes::Zeros), 2, 8)),
        (1, (Said::Request, 0, 1)),
    ],
};

/// An owner that shares its page tells the others to give their copies up before it stores.
#[test]
fn an_owner_stores(rt: HostRuntime) {
    check(&rt, &OWNER_STORES);
}

/// Copies for two readers, and then the orders to give them up.
const ORDERS_POSTED: [(u8, Letter); 4] = [
    (1, (Said::Copy(Bytes::Zeros), 1, 7)),
    (2, (Said::Copy(Bytes::Zeros), 2, 7)),
    (1, (Said::Order, 0, 1)),
    (2, (Said::Order, 0, 1)),
];

static OWNER_STORES: Scene<'static, Step> = Scene {
    me: 0,
    steps: &[
        Step::Comes(1, (Said::Request, 1, 7)),
        Step::Comes(1, (Said::Request, 2, 7)),
        Step::Stores(1, Need::Started),
        Step::Posted(4),
        Step::Comes(2, (Said::Acknowledgement, 0, 1)),
        Step::Shows(None),
        Step::Comes(1, (Said::Acknowledgement, 0, 1)),
        Step::Returns(Some(Out::Done)),
        Step::Loads(1, 2, Need::Have(Out::Value(5))),
    ],
    posted: &ORDERS_POSTED,
};

/// A copy is given up when the node that is to write says so; one that is still awaited, once it came.
#[test]
fn copies_given_up(rt: HostRuntime) {
    check(&rt, &GIVEN_UP);
}

static GIVEN_UP: Scene<'static, Step> = Scene {
    me: 2,
    steps: &[
        Step::Loads(1, 1, Need::Started),
        Step::Comes(1, (Said::Order, 1, 6)),
        Step::Posted(1),
        Step::Comes(0, (Said::Copy(Bytes::Ones), 2, 1)),
        Step::Returns(Some(Out::Value(u64::MAX))),
        Step::Posted(2),
        Step::Loads(1, 2, Need::Started),
    ],
    posted: &[
        (1, (Said::Request, 2, 1)),
        (1, (Said::Acknowledgement, 1, 6)),
        (1, (Said::Request, 2, 2)),
    ],
};

/// Where a post refuses what the last acknowledgement brings about, all is as it was.
#[test]
fn a_refused_acknowledgement(rt: HostRuntime) {
    check(&rt, &REFUSED);
}

/// A copy, the order to give it up, and a copy with what was stored.
const STORE_POSTED: [(u8, Letter); 3] = [
    (1, (Said::Copy(Bytes::Zeros), 1, 7)),
    (1, (Said::Order, 0, 1)),
    (2, (Said::Copy(Bytes::Stored), 2, 3)),
];

static REFUSED: Scene<'static, Step> = Scene {
    me: 0,
    steps: &[
        Step::Comes(1, (Said::Request, 1, 7)),
        Step::Stores(1, Need::Started),
        Step::Comes(2, (Said::Request, 2, 3)),
        Step::IsFull(true),
        Step::Refuses(1, (Said::Acknowledgement, 0, 1)),
        Step::Shows(None),
        Step::IsFull(false),
        Step::Posted(2),
        Step::Comes(1, (Said::Acknowledgement, 0, 1)),
        Step::Returns(Some(Out::Done)),
        Step::Posted(3),
    ],
    posted: &STORE_POSTED,
};

/// The request of a read fault is refused: the entry is not locked, and the next try asks.
#[test]
fn growths_of_a_read_fault(rt: HostRuntime) {
    refuse(&rt, &READ_REFUSED);
}

static READ_REFUSED: Growing<'static, Step> = Growing {
    before: &[],
    refused: Step::LoadsInVain(1, 1),
    after: Scene {
        me: 2,
        steps: &[
            Step::Posted(0),
            Step::Loads(1, 1, Need::Started),
            Step::Comes(0, (Said::Copy(Bytes::Ones), 2, 1)),
            Step::Returns(Some(Out::Value(u64::MAX))),
            Step::Breaches(0),
        ],
        posted: &[(1, (Said::Request, 2, 1))],
    },
};

/// One of the orders of an owner that is to store is refused: none was posted, and it reads on.
#[test]
fn growths_of_a_write_fault(rt: HostRuntime) {
    refuse(&rt, &WRITE_REFUSED);
}

static WRITE_REFUSED: Growing<'static, Step> = Growing {
    before: &[
        Step::Comes(1, (Said::Request, 1, 7)),
        Step::Comes(1, (Said::Request, 2, 7)),
    ],
    refused: Step::StoresInVain(1),
    after: Scene {
        me: 0,
        steps: &[
            Step::Posted(2),
            Step::Loads(1, 1, Need::Have(Out::Value(0))),
            Step::Stores(1, Need::Started),
            Step::Posted(4),
            Step::Comes(2, (Said::Acknowledgement, 0, 1)),
            Step::Comes(1, (Said::Acknowledgement, 0, 1)),
            Step::Returns(Some(Out::Done)),
        ],
        posted: &ORDERS_POSTED,
    },
};

/// The copy that the last acknowledgement brings about is refused: nothing was stored, and the acknowledgement is
/// missing still.
#[test]
fn growths_of_the_last_acknowledgement(rt: HostRuntime) {
    refuse(&rt, &LAST_REFUSED);
}

static LAST_REFUSED: Growing<'static, Step> = Growing {
    before: &[
        Step::Comes(1, (Said::Request, 1, 7)),
        Step::Stores(1, Need::Started),
        Step::Comes(2, (Said::Request, 2, 3)),
    ],
    refused: Step::Refuses(1, (Said::Acknowledgement, 0, 1)),
    after: Scene {
        me: 0,
        steps: &[
            Step::Shows(None),
            Step::Posted(2),
            Step::Comes(1, (Said::Acknowledgement, 0, 1)),
            Step::Returns(Some(Out::Done)),
            Step::Posted(3),
            Step::Breaches(0),
        ],
        posted: &STORE_POSTED,
    },
};
