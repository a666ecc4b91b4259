//! Strings that a link holds until those before them have come.
ghost use Rattle.std.specs.Prelude.{◌≡◌, length};

use ivy_link::{Link, MOST_AHEAD};
use ivy_wire::{Bytes, Frame};
use std::alloc::Global;
use std::process::Abort;

const NODES: u8 = 3;

/// What happens at the link of node 1 to the strings of node 0, which are told apart by their one byte.
#[derive(Clone, Copy)]
enum Step {
    /// The string of a frame of this number is held.
    Holds(u64, u8),
    /// It is given back.
    GivesBack(u64, u8),
    /// A frame of this number is accepted.
    Accepts(u64),
    /// The string that is ready is taken out.
    Takes(Option<u8>),
}

/// A frame of this number from node 0 to a node.
fn frame(dest: u8, number: u64) -> Frame<()>
    ensures { result.source ≡ 0 }
{
    Frame {
        source: 0,
        dest,
        number,
        ack: 0,
        body: None,
    }
}

/// Whether the string is given back, as it was.
fn gives_back(
    rt: &(impl Abort + AllocGlobal),
    link: &mut Link<Global>,
    dest: u8,
    number: u64,
    mark: u8,
) -> bool
    requires { length link.old.peers ≡ NODES }
    ensures { length link.new.peers ≡ NODES }
{
    let string = Bytes::new(rt.alloc(), &[mark]).expect(rt, "memory");
    match link.hold(&frame(dest, number), string) {
        Some(back) => back.bytes() == [mark].as_slice(),
        None => false,
    }
}

/// The byte of the string that is ready.
fn takes(link: &mut Link<Global>) -> Option<u8>
    requires { length link.old.peers ≡ NODES }
    ensures { length link.new.peers ≡ NODES }
{
    let string = link.take_ready(0)?;
    string.bytes().first().copied()
}

/// Whether the step goes as it says.
fn goes(rt: &(impl Abort + AllocGlobal), link: &mut Link<Global>, step: Step) -> bool
    requires { length link.old.peers ≡ NODES }
    ensures { length link.new.peers ≡ NODES }
{
    match step {
        Step::Holds(number, mark) => !gives_back(rt, link, 1, number, mark),
        Step::GivesBack(number, mark) => gives_back(rt, link, 1, number, mark),
        Step::Accepts(number) => {
            link.accept(&frame(1, number));
            true
        }
        Step::Takes(mark) => takes(link) == mark,
    }
}

/// Asserts that the steps go as they say, of a new link of node 1.
fn check(rt: &(impl Abort + AllocGlobal), steps: &[Step]) {
    let mut link = Link::new(rt.alloc(), 1, NODES).expect(rt, "memory");
    for (index, step) in steps.iter().enumerate() {
        assert!(rt; goes(rt, &mut link, *step), "step {index}");
    }
}

/// A string is held until the one before it was delivered, one of each number.
#[test]
fn a_string_that_comes_early(rt: HostRuntime) {
    check(&rt, &COMES_EARLY);
}

static COMES_EARLY: [Step; 7] = [
    Step::Holds(2, 20),
    Step::GivesBack(2, 21),
    Step::Takes(None),
    Step::Accepts(1),
    Step::GivesBack(2, 22),
    Step::Takes(Some(20)),
    Step::Takes(None),
];

/// Numbers from the next one to the 32nd above those delivered are held, and no others.
#[test]
fn as_far_as_a_pulse_reaches(rt: HostRuntime) {
    assert!(&rt; MOST_AHEAD == 32);
    check(&rt, &REACHES);
}

static REACHES: [Step; 8] = [
    Step::GivesBack(0, 1),
    Step::GivesBack(33, 1),
    Step::Holds(32, 32),
    Step::Holds(1, 1),
    Step::Accepts(1),
    Step::GivesBack(1, 1),
    Step::GivesBack(32, 33),
    Step::Holds(33, 33),
];

/// A string is forgotten once a frame of its number is accepted, and those after it stay.
#[test]
fn a_string_that_came_again(rt: HostRuntime) {
    check(&rt, &CAME_AGAIN);
}

static CAME_AGAIN: [Step; 7] = [
    Step::Holds(1, 10),
    Step::Holds(3, 30),
    Step::Accepts(1),
    Step::Takes(None),
    Step::Accepts(2),
    Step::Takes(Some(30)),
    Step::Holds(3, 31),
];

/// What is for another node is given back.
#[test]
fn a_string_for_another_node(rt: HostRuntime) {
    let mut link = Link::new(rt.alloc(), 1, NODES).expect(&rt, "memory");
    assert!(&rt; gives_back(&rt, &mut link, 2, 1, 10));
    assert!(&rt; takes(&mut link).is_none());
}
