//! Which ways go by which height.

use crate::marks::Way;
use std::alloc::{AllocError, Global};

/// How high a band is: more than a text.
const BAND: u64 = 32;

/// How many bands of a way are looked at, so that long ways do not fill the memory: all, where a picture is not high.
const MOST: u64 = 160;

/// The ways that go through each band of the picture, or through the one above or below it, by their places among all.
#[derive(Drop)]
pub(crate) struct Crossings {
    bands: Vec<Vec<usize>>,
}

impl Crossings {
    /// Notes a way in a band.
    fn note(&mut self, alloc: Global, band: usize, place: usize) -> Result<(), AllocError> {
        for _ in self.bands.len()..band.saturating_add(1) {
            self.bands.push(Vec::new(alloc))?;
        }
        match self.bands.get_mut(band) {
            Some(places) => Ok(places.push(place)?),
            None => Ok(()),
        }
    }

    /// Notes a way in its bands.
    fn add(&mut self, alloc: Global, way: &Way, place: usize) -> Result<(), AllocError> {
        let first = (way.from.y / BAND).saturating_sub(1);
        let last = (way.tip().y / BAND).saturating_add(1);
        for band in first..last.saturating_add(1).min(first.saturating_add(MOST)) {
            self.note(alloc, band as usize, place)?;
        }
        Ok(())
    }

    fn add_all(&mut self, alloc: Global, ways: &[Way]) -> Result<(), AllocError> {
        for place in 0..ways.len() {
            self.add(alloc, &ways[place], place)?;
        }
        Ok(())
    }

    /// Where these ways go.
    pub(crate) fn of(alloc: Global, ways: &[Way]) -> Result<Crossings, AllocError> {
        let mut crossings = Crossings {
            bands: Vec::new(alloc),
        };
        match crossings.add_all(alloc, ways) {
            Ok(()) => Ok(crossings),
            Err(error) => Err(error),
        }
    }

    /// The places of the ways that go by near a height.
    pub(crate) fn near(&self, y: u64) -> &[usize] {
        match self.bands.get((y / BAND) as usize) {
            Some(places) => places,
            None => &[],
        }
    }
}
