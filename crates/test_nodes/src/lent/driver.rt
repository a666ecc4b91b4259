//! Nodes, and a wire that loses, repeats and reorders.
ghost use Rattle.ivy_model.specs.stated.Legal.{HasWidth};

use crate::lent::driven::{Driven, PAGES, Plan, Work};
use crate::lent::seen::Log;
use crate::lent::words::{Block, SIZE};
use ivy_embedded::{Embedded, Lending, TakenString, config_of};
use rand_core::utils::NextWord;
use rand_pcg::Lcg64Xsh32;
use std::alloc::Global;
use std::process::Abort;

/// A string is no longer.
const FRAME: usize = 128;

/// How many nodes of which kind of manager there are, with so many pages, whether replies are looked for late, and how many
/// moves they make.
#[derive(Clone, Copy)]
pub(crate) struct Shape {
    pub(crate) nodes: u32,
    pub(crate) manager: u32,
    pub(crate) pages: u32,
    pub(crate) is_late: bool,
    pub(crate) moves: usize,
}

/// All nodes of a configuration, and the strings under way.
#[derive(Drop)]
pub(crate) struct Drive {
    nodes: Vec<Driven, Global>,
    wire: Vec<Vec<u8, Global>, Global>,
    generator: Lcg64Xsh32,
    is_late: bool,
    pub(crate) log: Log,
}

/// The nodes of this shape.
pub(crate) fn opened(rt: &impl Abort, alloc: Global, shape: Shape, generator: Lcg64Xsh32) -> Drive {
    let config = config_of(shape.nodes, shape.pages, SIZE as u32, shape.manager);
    let config = config.expect(rt, "a configuration");
    let mut nodes = Vec::new(alloc);
    for me in 0..config.nodes {
        let driven = Driven {
            node: Embedded::open(alloc, &config, me).expect(rt, "memory"),
            me: usize::from(me),
            last: shape.pages.wrapping_sub(1),
            images: [[0; SIZE]; PAGES],
            lent: [Lending::Unlent; PAGES],
            work: Work::Nothing,
        };
        nodes.push(driven).expect(rt, "memory");
    }
    Drive {
        nodes,
        wire: Vec::new(alloc),
        generator,
        is_late: shape.is_late,
        log: Log::new(alloc),
    }
}

impl Drive {
    fn drawn(&mut self, below: usize) -> usize {
        (self.generator.next_word() as usize) % below.max(1)
    }

    /// Whether something is done at once. Where replies are looked for late it is drawn.
    fn is_now(&mut self) -> bool {
        !self.is_late || self.drawn(3) == 0
    }

    /// The strings that wait at the nodes are put on the wire.
    fn collect(&mut self, rt: &impl Abort, alloc: Global) {
        for driven in &mut self.nodes {
            for _ in 0..64 {
                let mut buffer = [0; FRAME];
                match driven.node.take_into(&mut buffer) {
                    TakenString::Given(len, _) => {
                        let mut string = Vec::new(alloc);
                        let bytes = buffer.get(..len).expect(rt, "a string");
                        string.extend_from_slice(bytes).expect(rt, "memory");
                        self.wire.push(string).expect(rt, "memory");
                    }
                    TakenString::TooLong(_) | TakenString::Nothing => break,
                }
            }
        }
    }

    /// A string comes to all nodes, of which one is its destination.
    fn deliver(&mut self, rt: &impl Abort, string: &[u8]) {
        let (looks, goes_on) = (self.is_now(), self.is_now());
        let in_part = self.drawn(8) == 0;
        for driven in &mut self.nodes {
            if in_part {
                driven.deliver_part(rt, string);
            }
            driven.deliver(rt, &mut self.log, string);
            if looks {
                driven.look(rt, &mut self.log);
            }
            if goes_on {
                driven.go_on(rt, &mut self.log);
            }
        }
    }

    /// Nothing is under way: each node goes on, and pulses to all others.
    fn pulse(&mut self, rt: &impl Abort) {
        for driven in &mut self.nodes {
            driven.look(rt, &mut self.log);
            driven.go_on(rt, &mut self.log);
            driven.pulse(rt);
        }
    }

    /// One string of the wire is drawn: it comes, and is lost or comes again now and then.
    pub(crate) fn step(&mut self, rt: &impl Abort, alloc: Global) {
        self.collect(rt, alloc);
        if self.wire.is_empty() {
            self.pulse(rt);
            return;
        }
        let count = self.wire.len();
        let place = self.drawn(count) % count;
        let fate = self.drawn(8);
        if place >= self.wire.len() {
            return;
        }
        let string = self.wire.swap_remove(place);
        if fate > 0 {
            self.deliver(rt, &string);
        }
        if fate == 1 {
            self.wire.push(string).expect(rt, "memory");
        }
    }

    /// A node.
    pub(crate) fn at(&self, rt: &impl Abort, node: usize) -> &Driven {
        self.nodes.get(node).expect(rt, "a node")
    }

    /// A page is lent as it is here, to a node that does not ask for it, unless it is not here.
    pub(crate) fn lend(&mut self, rt: &impl Abort, node: usize, page: usize, to: Lending) {
        let driven = self.nodes.get_mut(node).expect(rt, "a node");
        driven.lend(rt, &mut self.log, page, to);
    }

    /// A page is given back, but for this.
    pub(crate) fn give_back(&mut self, rt: &impl Abort, node: usize, page: usize, on: Lending) {
        let driven = self.nodes.get_mut(node).expect(rt, "a node");
        driven.give_back(rt, page, on);
    }

    /// A node fetches a page ahead.
    pub(crate) fn fetch(&mut self, rt: &impl Abort, node: usize, page: usize, to: Lending) {
        let driven = self.nodes.get_mut(node).expect(rt, "a node");
        driven.fetch(rt, &mut self.log, page, to);
    }

    /// A node touches a page by a pointer.
    pub(crate) fn touch(&mut self, rt: &impl Abort, node: usize, plan: Plan) {
        let driven = self.nodes.get_mut(node).expect(rt, "a node");
        driven.touch(rt, &mut self.log, plan.page, plan.call);
    }

    /// A node begins a call.
    pub(crate) fn begin(&mut self, rt: &impl Abort, node: usize, plan: Plan)
        requires { HasWidth plan.call }
    {
        let driven = self.nodes.get_mut(node).expect(rt, "a node");
        driven.begin(rt, &mut self.log, plan);
    }

    /// A node begins a block.
    pub(crate) fn begin_block(&mut self, rt: &impl Abort, node: usize, block: Block) {
        let driven = self.nodes.get_mut(node).expect(rt, "a node");
        driven.begin_block(rt, &mut self.log, block);
    }

    /// Whether nothing is in progress anywhere.
    fn is_free(&self) -> bool {
        for driven in &self.nodes {
            if !driven.is_free() {
                return false;
            }
        }
        true
    }

    /// Strings come until nothing is in progress.
    pub(crate) fn finish(&mut self, rt: &impl Abort, alloc: Global) {
        for _ in 0..100_000 {
            if self.is_free() {
                return;
            }
            self.step(rt, alloc);
        }
        assert!(rt; false, "a call had no reply");
    }
}
