//! Calls of a row that own code makes with no other move between.
ghost use Rattle.std.specs.Prelude.{◌≡◌, ◌+◌, ◌*◌, ◌^◌, ◌<◌, ◌≤◌, ◌∷◌, [], Ok, false, length, IfErr, IfOk, IsTrue, OnErr};
ghost use Rattle.ivy_model.specs.declared.Config.{Config};
ghost use Rattle.ivy_model.specs.stated.Config.{IsConfig};
ghost use Rattle.ivy_model.specs.Rows.{calls_of, numbers_in, row};
ghost use Rattle.ivy_world.specs.HandedWorlds.{run_handed};
ghost use Rattle.ivy_play.specs.Faults.{IsPlayStop};
ghost use Rattle.ivy_play.specs.Played.{AddsTurns, LeadsOn, MakesCalls};

use crate::stage::play_move;
use ivy_model::{Config, Fault, Row, access_refusal};
use ivy_site::words_together;
use ivy_world::{Move, World};
use std::alloc::Allocator;

/// A row of calls that the work of a node makes, on words of 8 bytes from `addr` on.
#[derive(Clone, Copy, Drop)]
pub(crate) struct RowCalls<'b> {
    pub(crate) node: u64,
    pub(crate) kind: Row,
    pub(crate) addr: u64,
    pub(crate) bytes: &'b [u8],
}

/// That a node was handed so many calls of a row. Only [`play_row`] makes one, so who has it knows which calls these were.
#[derive(Clone, Copy, Drop)]
pub(crate) struct HandedRow<'b> {
    asked: RowCalls<'b>,
    calls: usize,
}

impl<'b> HandedRow<'b> {
    /// How many calls these were.
    pub(crate) fn calls(self) -> usize
        ensures { result ≡ self.entry.calls }
    {
        self.calls
    }
}

/// How many words a row of so many bytes has in the page of its address; none where the first is no word of the heap.
fn words_of(config: &Config, addr: u64, len: usize) -> usize
    requires { IsConfig config.now }
    ensures fits { 8 * result ≤ len }
    ensures below { addr + 8 * result < 2 ^ 64 }
    ensures page { 8 * result ≤ config.now.page_size }
{
    if access_refusal(config, 8, addr).is_some() {
        return 0;
    }
    words_together(config.page_size, addr, len / 8, len)
}

/// Own code at a node makes calls of a row together, where the first has to wait, and has a turn, which is listed; or nothing
/// changes [1, 17]. It says how many.
fn play_block<A: Allocator + Copy>(
    world: &mut World<A>,
    moves: &mut Vec<Move, A>,
    asked: RowCalls,
    words: usize,
) -> Result<usize, Fault>
    requires { asked.node < world.old.config.nodes }
    ensures played { LeadsOn moves.old.items world.old moves.new.items world.new }
    ensures made { IfOk result (λ calls. MakesCalls asked.entry.node (calls_of (row asked.entry.kind 0 asked.entry.addr (numbers_in calls asked.entry.bytes.now))) world.old world.new) }
    ensures fits { IfOk result (λ calls. 8 * calls ≤ length asked.entry.bytes.now) }
    ensures few { IfOk result (λ calls. calls ≤ words) }
    ensures turns { IfOk result (λ calls. AddsTurns asked.entry.node calls moves.old.items moves.new.items) }
    ensures none { result ≡ Ok 0 → (world.new ≡ world.old) × (moves.new.items ≡ moves.old.items) }
    ensures refused { OnErr result ((world.new ≡ world.old) × (moves.new.items ≡ moves.old.items)) }
    ensures stop { IfErr result IsPlayStop }
{
    moves.reserve(1)?;
    let calls = world.hand_block(asked.node, asked.kind, asked.addr, words, asked.bytes)?;
    if calls == 0 {
        return Ok(0);
    }
    moves.push_reserved(Move::Turn(asked.node));
    Ok(calls)
}

/// Own code at a node makes the call of a word, where each call before has its reply. It says whether it did.
fn hand_word<A: Allocator + Copy>(
    world: &mut World<A>,
    node: u64,
    kind: Row,
    addr: u64,
    word: &[u8],
) -> bool
    requires node { node < world.old.config.nodes }
    requires word { 8 ≤ length word.now }
    requires below { addr + 8 < 2 ^ 64 }
    ensures handed { IsTrue result → world.new ≡ run_handed node (calls_of (row kind 0 addr (numbers_in 1 word.now)) ∷ []) world.old }
    ensures missing { result ≡ false → world.new ≡ world.old }
{
    if !world.is_free(node) {
        return false;
    }
    let Some(record) = kind.last(0, addr, 1, word) else {
        return false;
    };
    match world.hand(node, record.call) {
        Ok(()) => true,
        Err(_) => false,
    }
}

/// Own code at a node makes calls of a row one behind the other, each with the turn in which it begins, which is listed, and
/// none behind one that got no reply in its turn. It says how many. Only the last of them may have no reply.
fn play_words<A: Allocator + Copy>(
    world: &mut World<A>,
    moves: &mut Vec<Move, A>,
    asked: RowCalls,
    words: usize,
) -> usize
    requires node { asked.node < world.old.config.nodes }
    requires fits { 8 * words ≤ length asked.bytes.now }
    requires below { asked.addr + 8 * words < 2 ^ 64 }
    ensures played { LeadsOn moves.old.items world.old moves.new.items world.new }
    ensures made { MakesCalls asked.entry.node (calls_of (row asked.entry.kind 0 asked.entry.addr (numbers_in result asked.entry.bytes.now))) world.old world.new }
    ensures turns { AddsTurns asked.entry.node result moves.old.items moves.new.items }
    ensures few { result ≤ words }
{
    for word in 0..words {
        let at = 8 * word;
        let bytes = &asked.bytes[at..at + 8];
        if !hand_word(world, asked.node, asked.kind, asked.addr + at as u64, bytes) {
            return word;
        }
        // a turn that is refused leaves the call to a later one of the node
        let _ = play_move(world, moves, Move::Turn(asked.node));
    }
    words
}

/// Own code at a node makes the calls of a row that lie in the page of its address, with no other move between, and turns of
/// the node alone are listed; or nothing changes [1, 17]. Where the first has to wait, they are made together, in one turn.
/// Else the page is at hand, and each is made and answered in a turn of its own. It says how many, of which each has its reply,
/// or waits for later turns.
pub(crate) fn play_row<'b, A: Allocator + Copy>(
    world: &mut World<A>,
    moves: &mut Vec<Move, A>,
    config: &Config,
    asked: RowCalls<'b>,
) -> Result<HandedRow<'b>, Fault>
    requires node { asked.node < world.old.config.nodes }
    requires limits { IsConfig config.now }
    ensures played { LeadsOn moves.old.items world.old moves.new.items world.new }
    ensures own { IfOk result (λ handed. handed.asked ≡ asked.entry) }
    ensures made { IfOk result (λ handed. MakesCalls asked.entry.node (calls_of (row asked.entry.kind 0 asked.entry.addr (numbers_in handed.calls asked.entry.bytes.now))) world.old world.new) }
    ensures fits { IfOk result (λ handed. 8 * handed.calls ≤ length asked.entry.bytes.now) }
    ensures page { IfOk result (λ handed. 8 * handed.calls ≤ config.now.page_size) }
    ensures turns { IfOk result (λ handed. AddsTurns asked.entry.node handed.calls moves.old.items moves.new.items) }
    ensures refused { OnErr result ((world.new ≡ world.old) × (moves.new.items ≡ moves.old.items)) }
    ensures stop { IfErr result IsPlayStop }
{
    let words = words_of(config, asked.addr, asked.bytes.len());
    let calls = play_block(world, moves, asked, words)?;
    let calls = if calls > 0 {
        calls
    } else {
        play_words(world, moves, asked, words)
    };
    Ok(HandedRow { asked, calls })
}
