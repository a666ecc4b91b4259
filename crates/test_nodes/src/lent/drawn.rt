//! Runs that are drawn: which node does what next.
use crate::lent::driven::{PAGES, Plan, address};
use crate::lent::driver::{Drive, Shape, opened};
use crate::lent::words::{Block, SIZE, WORD};
use ivy_embedded::{ADVANCE, COUNT, FETCH_AND_ADD, LOAD, Lending, call_of};
use ivy_model::{Call, Row};
use rand_core::SeedableRng;
use rand_core::utils::NextWord;
use rand_pcg::Lcg64Xsh32;
use std::alloc::Global;
use std::process::Abort;

/// How many moves has a run at the gate.
const MOVES: usize = 150;

/// A move, and where it is made.
#[derive(Clone, Copy)]
struct Drawn {
    what: u8,
    node: usize,
    page: usize,
    /// The first byte of a word there, which has so many.
    byte: usize,
    width: u32,
    /// Which access, beside loads and stores one that does both.
    kind: u32,
    value: u64,
    expected: u64,
}

/// The shape that a seed has its turn with, where replies are looked for at once.
pub(crate) fn shape_of(seed: u64) -> Shape {
    Shape {
        nodes: 2 + (seed % 7) as u32,
        manager: (seed / 7 % 2) as u32,
        pages: match seed % 5 {
            0 | 1 => 3,
            2 => 257,
            3 => 65_536,
            _ => 4,
        },
        is_late: false,
        moves: MOVES,
    }
}

/// The place of a page that has an image, and is not the first one. Of three pages the second and the last have one.
fn page_of(drawn: u8, pages: u32) -> usize {
    let page = 1 + usize::from(drawn) % (PAGES - 1);
    if pages == 3 && page == 2 { 3 } else { page }
}

/// A move is drawn. Words lie near the ends of a page, so that many accesses are of the same.
fn drawn_of(generator: &mut Lcg64Xsh32, shape: Shape) -> Drawn {
    let [what, node, page, byte] = generator.next_word().to_le_bytes();
    let [width, kind, value, expected] = generator.next_word().to_le_bytes();
    let width = 1u32 << (width % 4);
    let near = usize::from(byte) % 16;
    let byte = if byte < 128 { near } else { near + 48 };
    Drawn {
        what,
        node: usize::from(node) % (shape.nodes as usize).max(1),
        page: page_of(page, shape.pages),
        byte: byte & !(width as usize).wrapping_sub(1),
        width,
        kind: u32::from(kind) % 5,
        value: u64::from(value),
        expected: u64::from(expected) % 4,
    }
}

impl Drawn {
    /// The address of its word.
    fn place(&self, rt: &impl Abort, drive: &Drive) -> u64 {
        let number = drive.at(rt, self.node).number(self.page);
        address(number).wrapping_add(self.byte as u64)
    }

    /// The access that is drawn.
    fn access(&self, rt: &impl Abort, drive: &Drive) -> Call {
        let place = self.place(rt, drive);
        let call = call_of(self.kind, self.width, place, self.value, self.expected);
        call.expect(rt, "an access")
    }

    /// A call of a node that is free: an access, or of an eventcount.
    fn call(&self, rt: &impl Abort, drive: &mut Drive) {
        let numbers = if self.value % 8 == 0 {
            let kind = if self.expected == 0 { ADVANCE } else { COUNT };
            (kind, self.expected)
        } else {
            (self.kind, self.place(rt, drive))
        };
        let (kind, place) = numbers;
        let call = call_of(kind, self.width, place, self.value, self.expected);
        let page = if kind < COUNT { self.page } else { 0 };
        let plan = Plan {
            call: call.expect(rt, "a call"),
            page,
            to: Lending::Unlent,
        };
        drive.begin(rt, self.node, plan);
    }

    /// A page is asked for, to be lent once it is here.
    fn ask(&self, rt: &impl Abort, drive: &mut Drive) {
        if drive.at(rt, self.node).lending(rt, self.page) != Lending::Unlent {
            drive.give_back(rt, self.node, self.page, Lending::Unlent);
        }
        let (kind, to) = if self.value % 2 == 0 {
            (LOAD, Lending::ToRead)
        } else {
            (FETCH_AND_ADD, Lending::ToWrite)
        };
        let call = call_of(kind, 1, self.place(rt, drive), 0, 0);
        let plan = Plan {
            call: call.expect(rt, "a call"),
            page: self.page,
            to,
        };
        drive.begin(rt, self.node, plan);
    }

    /// A block of the page, from a word that is drawn to its end.
    fn block(&self, rt: &impl Abort, drive: &mut Drive) {
        let first = self.byte / WORD;
        let number = drive.at(rt, self.node).number(self.page);
        let block = Block {
            kind: if self.kind % 2 == 0 {
                Row::Loads
            } else {
                Row::Stores
            },
            page: self.page,
            addr: address(number).wrapping_add(first.wrapping_mul(WORD) as u64),
            words: (SIZE / WORD).saturating_sub(first),
            bytes: [(self.value % 256) as u8; SIZE],
        };
        drive.begin_block(rt, self.node, block);
    }

    /// The same at another page, where that alone is lent.
    fn at_lent(self, rt: &impl Abort, drive: &Drive) -> Drawn {
        let driven = drive.at(rt, self.node);
        let mut drawn = self;
        for page in 1..PAGES {
            if driven.lending(rt, drawn.page) == Lending::Unlent {
                drawn.page = page;
            }
        }
        drawn
    }

    /// An access by a pointer, where the page is lent for it: to write, only where nothing is in progress.
    fn touch(&self, rt: &impl Abort, drive: &mut Drive) {
        let call = self.access(rt, drive);
        let driven = drive.at(rt, self.node);
        let may = match driven.lending(rt, self.page) {
            Lending::Unlent => false,
            Lending::ToRead => self.kind == LOAD,
            Lending::ToWrite => self.kind == LOAD || driven.is_free(),
        };
        if may {
            let plan = Plan {
                call,
                page: self.page,
                to: Lending::Unlent,
            };
            drive.touch(rt, self.node, plan);
        }
    }

    /// A page that is lent to be written is given back, whole or all but the right to read it.
    fn give_back(&self, rt: &impl Abort, drive: &mut Drive) {
        let on = if self.value % 2 == 0 {
            Lending::Unlent
        } else {
            Lending::ToRead
        };
        drive.give_back(rt, self.node, self.page, on);
    }

    /// A page is given back, or, where nothing is in progress, lent for more without being asked for.
    fn turn_over(&self, rt: &impl Abort, drive: &mut Drive) {
        let is_free = drive.at(rt, self.node).is_free();
        match drive.at(rt, self.node).lending(rt, self.page) {
            Lending::ToWrite => self.give_back(rt, drive),
            Lending::ToRead if self.value % 2 == 0 => {
                drive.give_back(rt, self.node, self.page, Lending::Unlent);
            }
            Lending::ToRead if is_free => {
                drive.lend(rt, self.node, self.page, Lending::ToWrite);
            }
            Lending::Unlent if is_free => {
                drive.lend(rt, self.node, self.page, Lending::ToRead);
            }
            Lending::ToRead | Lending::Unlent => {}
        }
    }

    /// A page is fetched ahead, whatever is in progress.
    fn fetch(&self, rt: &impl Abort, drive: &mut Drive) {
        let to = if self.value % 2 == 0 {
            Lending::ToRead
        } else {
            Lending::ToWrite
        };
        drive.fetch(rt, self.node, self.page, to);
    }

    /// The node does what is drawn, if it may.
    fn make(&self, rt: &impl Abort, drive: &mut Drive) {
        let is_free = drive.at(rt, self.node).is_free();
        match self.what % 16 {
            0..=2 if is_free => self.ask(rt, drive),
            3..=4 if is_free => self.call(rt, drive),
            5 if is_free => self.block(rt, drive),
            6..=12 => self.at_lent(rt, drive).touch(rt, drive),
            13 => self.turn_over(rt, drive),
            14 => self.fetch(rt, drive),
            _ => {}
        }
    }
}

/// All pages that are lent anywhere are given back.
fn give_all_back(rt: &impl Abort, drive: &mut Drive, shape: Shape) {
    for node in 0..shape.nodes as usize {
        for page in 1..PAGES {
            if drive.at(rt, node).lending(rt, page) != Lending::Unlent {
                drive.give_back(rt, node, page, Lending::Unlent);
            }
        }
    }
}

/// At the end a node reads all bytes.
fn read_all(rt: &impl Abort, alloc: Global, drive: &mut Drive, node: usize, shape: Shape) {
    for page in 1..PAGES {
        if shape.pages > 3 || page != 2 {
            let number = drive.at(rt, node).number(page);
            let block = Block {
                kind: Row::Loads,
                page,
                addr: address(number),
                words: SIZE / WORD,
                bytes: [0; SIZE],
            };
            drive.begin_block(rt, node, block);
            drive.finish(rt, alloc);
        }
    }
}

/// The run of a seed: some moves, and once all calls have their replies a node reads all bytes.
pub(crate) fn play(rt: &impl Abort, alloc: Global, seed: u64, shape: Shape) -> Drive {
    let mut generator = Lcg64Xsh32::seed_from_u64(seed);
    let other = Lcg64Xsh32::seed_from_u64(seed.wrapping_add(1_000_000));
    let mut drive = opened(rt, alloc, shape, other);
    for _ in 0..shape.moves {
        let drawn = drawn_of(&mut generator, shape);
        drawn.make(rt, &mut drive);
        if drawn.what >= 128 {
            drive.step(rt, alloc);
        }
    }
    drive.finish(rt, alloc);
    give_all_back(rt, &mut drive, shape);
    read_all(rt, alloc, &mut drive, 0, shape);
    drive
}
