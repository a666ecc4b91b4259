//! What the tests share: how a value is compared with the one that is wanted, what a node goes through, and how each
//! growth of a step is refused in turn.
use crate::letters::Letter;
use ivy_model::{Config, Kind};
use std::alloc::{Allocator, Global};
use std::fmt::{Debug, Display};
use std::process::Abort;
use test_support::Failing;

/// Two nodes, and two pages of 64 bytes.
pub(crate) const PAIR: Config = Config {
    nodes: 2,
    pages: 2,
    page_size: 64,
    manager: Kind::Fixed,
};

/// That a value is the one that is wanted. A call of this costs its caller less proof than `assert_eq!` there would.
pub(crate) fn expect_same<T: PartialEq + Debug + Drop>(rt: &impl Abort, found: T, wanted: T) {
    assert_eq!(rt; found, wanted);
}

/// The same of a row, a node or a growth, which is named where the value is another.
pub(crate) fn expect_same_at<T: PartialEq + Debug + Drop>(
    rt: &impl Abort,
    place: impl Display + Drop,
    found: T,
    wanted: T,
) {
    assert_eq!(rt; found, wanted, "{place}");
}

/// That a slice has the items that are wanted, and no more.
pub(crate) fn expect_items<T: PartialEq + Debug>(rt: &impl Abort, found: &[T], wanted: &[T]) {
    assert_eq!(rt; found, wanted);
}

/// A node that steps happen to, one after another.
pub(crate) trait Stepped<A: Allocator>: Drop {
    /// What happens to it, or what it shows.
    type Step;

    /// Node `me`, with this memory, in which its messages are kept, too.
    fn new(rt: &impl Abort, alloc: A, me: u8) -> Self;

    /// Whether the step goes as it says.
    fn goes(&mut self, rt: &impl Abort, step: &Self::Step) -> bool;

    /// Whether it posted these messages and no others, each with the node that it goes to.
    fn has_posted(&self, wanted: &[(u8, Letter)]) -> bool;
}

/// The steps of a node, and all that it posts: each message with the node that it goes to.
pub(crate) struct Scene<'a, S> {
    pub(crate) me: u8,
    pub(crate) steps: &'a [S],
    pub(crate) posted: &'a [(u8, Letter)],
}

/// A step in which each growth is refused in turn, what goes before it, and what comes after it then.
pub(crate) struct Growing<'a, S> {
    pub(crate) before: &'a [S],
    pub(crate) refused: S,
    pub(crate) after: Scene<'a, S>,
}

/// More growths than a step here asks for.
const MANY: u64 = 20;

/// That each of these steps goes as it says.
fn expect_steps<A: Allocator, N: Stepped<A>>(rt: &impl Abort, node: &mut N, steps: &[N::Step]) {
    for (index, step) in steps.iter().enumerate() {
        assert!(rt; node.goes(rt, step), "step {index}");
    }
}

/// That a scene goes as it says.
pub(crate) fn expect_scene<A: Allocator, N: Stepped<A>>(
    rt: &impl Abort,
    node: &mut N,
    scene: &Scene<N::Step>,
) {
    expect_steps(rt, node, scene.steps);
    assert!(rt; node.has_posted(scene.posted));
}

/// The n-th growth is refused to a new node. Whether it was asked for: the step is refused then, and only then, and
/// the node goes on.
fn refused_at<A: Allocator, N: Stepped<A>>(
    rt: &impl Abort,
    (memory, n): (&Failing<Global>, u64),
    mut node: N,
    growing: &Growing<N::Step>,
) -> bool {
    expect_steps(rt, &mut node, growing.before);
    memory.refuse(n);
    let is_refused = node.goes(rt, &growing.refused);
    let is_met = memory.asked(n) >= n;
    memory.refuse(0);
    assert!(rt; is_refused == is_met, "growth {n}");
    if is_met {
        expect_scene(rt, &mut node, &growing.after);
    }
    is_met
}

/// Refuses each growth in turn, until one is not asked for.
pub(crate) fn refuse_each<'m, N: Stepped<&'m Failing<Global>>>(
    rt: &impl Abort,
    memory: &'m Failing<Global>,
    growing: &Growing<N::Step>,
) {
    for n in 1..MANY {
        let node = N::new(rt, memory, growing.after.me);
        if !refused_at(rt, (memory, n), node, growing) {
            assert!(rt; n > 1);
            return;
        }
    }
    panic!(rt; "no end of growths");
}
