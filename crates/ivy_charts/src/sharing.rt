//! Pages that two nodes write by turns, at different words.

use crate::counts::page_of;
use crate::log::RunLog;
use ivy_model::{Act, CallKind, Config, Record, Reply};
use std::alloc::{AllocError, Global};
use std::io::{self, Write};

/// The least number of turns at which a page is named.
const LEAST_TURNS: u64 = 2;

/// The last word of a page that was written.
#[derive(Clone, Copy)]
struct Word {
    page: usize,
    node: u8,
    addr: u64,
}

/// What was written of a page.
#[derive(Clone, Copy)]
struct Written {
    last: Option<Word>,
    /// How often a node wrote a word where another one had written another word.
    turns: u64,
    /// The two nodes that did so last.
    nodes: (u8, u8),
    /// Whether some word was written by two nodes.
    is_shared: bool,
}

const UNWRITTEN: Written = Written {
    last: None,
    turns: 0,
    nodes: (0, 0),
    is_shared: false,
};

/// What was written of each page.
#[derive(Drop)]
pub struct Writes {
    pages: Vec<Written>,
    words: Vec<Word>,
}

/// The word that a record wrote.
fn written_by(record: Record, config: &Config) -> Option<Word> {
    let CallKind::Word { addr, act, .. } = record.call.kind() else {
        return None;
    };
    if act == Act::Load || matches!(record.reply, Reply::Refused(_)) {
        return None;
    }
    Some(Word {
        page: page_of(record.call, config)?,
        node: record.node,
        addr,
    })
}

impl Writes {
    /// Notes a word, and says whether another node wrote the same one before.
    fn note(&mut self, word: Word) -> Result<bool, AllocError> {
        let mut is_known = false;
        let mut is_shared = false;
        for known in self.words.iter() {
            if known.addr == word.addr {
                is_known = is_known || known.node == word.node;
                is_shared = is_shared || known.node != word.node;
            }
        }
        if !is_known {
            self.words.push(word)?;
        }
        Ok(is_shared)
    }

    fn write(&mut self, word: Word) -> Result<(), AllocError> {
        let is_shared = self.note(word)?;
        let Some(page) = self.pages.get_mut(word.page) else {
            return Ok(());
        };
        page.is_shared = page.is_shared || is_shared;
        if let Some(last) = page.last {
            if last.node != word.node && last.addr != word.addr {
                page.turns = page.turns.saturating_add(1);
                page.nodes = (last.node, word.node);
            }
        }
        page.last = Some(word);
        Ok(())
    }

    /// What was written in a run.
    pub fn of(alloc: Global, config: &Config, log: &RunLog) -> Result<Writes, AllocError> {
        let mut writes = Writes {
            pages: vec![in alloc; UNWRITTEN; config.pages as usize]?,
            words: Vec::new(alloc),
        };
        for happening in log.happenings.iter() {
            if let Some(record) = happening.record {
                if let Some(word) = written_by(record, config) {
                    writes.write(word)?;
                }
            }
        }
        Ok(writes)
    }
}

fn print_page<W: Write>(number: usize, page: Written, out: &mut W) -> io::Result<()> {
    let (one, other) = page.nodes;
    let (one, other) = (one.min(other), one.max(other));
    writeln!(
        out,
        "false sharing: page {number} is written by turns, at different words, as by nodes {one} and {other}"
    )
}

/// Names the pages that two nodes write by turns at different words, and no word of which two nodes write.
pub fn print_sharing<W: Write>(writes: &Writes, out: &mut W) -> io::Result<()> {
    for number in 0..writes.pages.len() {
        let page = writes.pages[number];
        if page.turns >= LEAST_TURNS && !page.is_shared {
            print_page(number, page, out)?;
        }
    }
    Ok(())
}
