//! Where names stand, so that no text lies over another.

use crate::crossings::Crossings;
use crate::marks::{Spot, Way, between, lanes_left_of};
use std::alloc::{AllocError, Global};

/// How wide a letter is, at most about.
const LETTER: u64 = 7;

/// How high a line of text is, with some room.
const LINE: u64 = 14;

/// How far a text reaches above the spot at which it begins, and below it.
const ABOVE: u64 = 10;

const BELOW: u64 = 2;

/// How far a text is to stand from the line of a node.
const EDGE: u64 = 4;

/// The parts of a way beside which its name may stand, in hundredths, the best first.
const PARTS: [u64; 21] = [
    38, 42, 34, 46, 30, 50, 26, 54, 22, 58, 62, 66, 70, 74, 78, 18, 82, 14, 86, 90, 10,
];

/// Above a way, and below it.
const SIDES: [u64; 2] = [0, 15];

/// Where a text lies.
#[derive(Clone, Copy)]
pub(crate) struct Area {
    /// Its corner at the left, below.
    at: Spot,
    width: u64,
}

impl Area {
    /// The area of so many letters.
    fn of(at: Spot, letters: u64) -> Area {
        Area {
            at,
            width: letters.saturating_mul(LETTER),
        }
    }

    fn right(&self) -> u64 {
        self.at.x.saturating_add(self.width)
    }

    fn top(&self) -> u64 {
        self.at.y.saturating_sub(ABOVE)
    }

    fn bottom(&self) -> u64 {
        self.at.y.saturating_add(BELOW)
    }

    /// Whether another text would lie over it.
    fn meets(&self, other: &Area) -> bool {
        self.at.x < other.right()
            && other.at.x < self.right()
            && self.at.y.abs_diff(other.at.y) < LINE
    }

    /// Whether the line of a node goes through it, or by its edge.
    fn is_on_lane(&self) -> bool {
        let (left, right) = (
            self.at.x.saturating_sub(EDGE),
            self.right().saturating_add(EDGE),
        );
        lanes_left_of(left) != lanes_left_of(right)
    }

    /// Whether a way goes through it.
    fn is_on(&self, way: &Way) -> bool {
        let (top, bottom) = (self.top(), self.bottom());
        if way.tip().y < top || bottom < way.from.y {
            return false;
        }
        let (one, other) = (way.x_at(top), way.x_at(bottom));
        one.min(other) <= self.right() && self.at.x <= one.max(other)
    }
}

/// The texts so far, by the lines in which they lie, and the ways.
#[derive(Drop)]
pub(crate) struct Labels {
    alloc: Global,
    lines: Vec<Vec<Area>>,
    crossings: Crossings,
}

impl Labels {
    /// No text yet, beside these ways.
    pub(crate) fn new(alloc: Global, ways: &[Way]) -> Result<Labels, AllocError> {
        let crossings = Crossings::of(alloc, ways)?;
        Ok(Labels {
            alloc,
            lines: Vec::new(alloc),
            crossings,
        })
    }

    /// The line in which a spot lies.
    fn line_of(at: Spot) -> usize {
        (at.y / LINE) as usize
    }

    /// Whether a text may stand here: no other lies there.
    fn is_free(&self, area: &Area) -> bool {
        let line = Labels::line_of(area.at);
        for place in line.saturating_sub(1)..line.saturating_add(2) {
            if let Some(areas) = self.lines.get(place) {
                if areas.iter().any(|other| other.meets(area)) {
                    return false;
                }
            }
        }
        true
    }

    /// Whether no line goes through an area but the way at a place, whose name is to stand there.
    fn is_quiet(&self, area: &Area, ways: &[Way], own: usize) -> bool {
        if area.is_on_lane() {
            return false;
        }
        for place in self.crossings.near(area.at.y) {
            if *place != own && ways.get(*place).is_some_and(|way| area.is_on(way)) {
                return false;
            }
        }
        true
    }

    /// Notes a text.
    fn note(&mut self, area: Area) -> Result<(), AllocError> {
        let line = Labels::line_of(area.at);
        for _ in self.lines.len()..line.saturating_add(1) {
            self.lines.push(Vec::new(self.alloc))?;
        }
        match self.lines.get_mut(line) {
            Some(areas) => Ok(areas.push(area)?),
            None => Ok(()),
        }
    }

    /// Notes a text of so many letters that stands here.
    pub(crate) fn put(&mut self, at: Spot, letters: u64) -> Result<(), AllocError> {
        self.note(Area::of(at, letters))
    }

    /// Where a name of so many letters may stand beside one part of a way.
    fn beside(way: &Way, part: u64, side: u64, letters: u64) -> Area {
        let spot = between(way.from, way.tip(), part);
        let half = letters.saturating_mul(LETTER) / 2;
        let at = Spot {
            x: spot.x.saturating_sub(half),
            y: spot.y.saturating_sub(3).saturating_add(side),
        };
        Area::of(at, letters)
    }

    /// The first free place beside a way, of those through which no line goes or else of all. None where none is free.
    fn choose(&self, ways: &[Way], own: usize, letters: u64) -> Option<Area> {
        let way = ways.get(own)?;
        let mut crossed = None;
        for choice in 0..SIDES.len() * PARTS.len() {
            let (side, part) = (choice / PARTS.len(), choice % PARTS.len());
            let area = Labels::beside(way, PARTS[part], SIDES[side], letters);
            if self.is_free(&area) {
                if self.is_quiet(&area, ways, own) {
                    return Some(area);
                }
                crossed = crossed.or(Some(area));
            }
        }
        crossed
    }

    /// Where the name of a way stands, of so many letters. None where it would lie over another text.
    pub(crate) fn place(
        &mut self,
        ways: &[Way],
        own: usize,
        letters: u64,
    ) -> Result<Option<Spot>, AllocError> {
        let Some(area) = self.choose(ways, own, letters) else {
            return Ok(None);
        };
        self.note(area)?;
        Ok(Some(area.at))
    }
}
