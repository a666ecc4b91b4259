//! Labels, and the jumps to them.

use crate::blame::{Blame, Wanted};
use crate::grammar::blame_at;
use crate::words::Word;
use std::alloc::{AllocError, Global};
use std::collections::BTreeMap;

const TAKEN: &str = "a name that no other label of this node has";

const MISSING: &str = "the name of a label of this node";

/// A name at a node.
#[derive(Clone, Copy)]
pub(crate) struct Named<'a> {
    pub(crate) node: u64,
    pub(crate) line: usize,
    pub(crate) word: Word<'a>,
}

/// The labels of a text, and the names that its jumps have.
#[derive(Drop)]
pub(crate) struct Labels<'a> {
    /// By node and name.
    labels: BTreeMap<(u64, &'a str), ()>,
    jumps: Vec<Named<'a>>,
}

impl<'a> Labels<'a> {
    pub(crate) fn new(alloc: Global) -> Labels<'a> {
        Labels {
            labels: BTreeMap::new(alloc),
            jumps: Vec::new(alloc),
        }
    }

    /// Whether the node of a name has a label of that name.
    fn has(&self, named: &Named<'a>) -> bool {
        self.labels.contains_key(&(named.node, named.word.text))
    }

    /// Adds a label. It is at fault where its name is taken.
    pub(crate) fn add(&mut self, named: Named<'a>) -> Result<Option<Blame<'a>>, AllocError> {
        if self.has(&named) {
            return Ok(Some(blame_at(named.line, named.word, Wanted::of(TAKEN))));
        }
        self.labels.insert((named.node, named.word.text), ())?;
        Ok(None)
    }

    pub(crate) fn jump(&mut self, named: Named<'a>) -> Result<(), AllocError> {
        self.jumps.push(named)?;
        Ok(())
    }

    /// Adds the jumps whose label is not there.
    pub(crate) fn blame(&self, blames: &mut Vec<Blame<'a>>) -> Result<(), AllocError> {
        for jump in self.jumps.iter() {
            if !self.has(jump) {
                blames.push(blame_at(jump.line, jump.word, Wanted::of(MISSING)))?;
            }
        }
        Ok(())
    }
}
