//! Moves that a generator of random numbers draws.
ghost use Rattle.std.specs.Prelude.{◌≡◌, ◌^◌, ◌≤◌, ◌<◌, All, length};
ghost use Rattle.ivy_texts.specs.Drawn.{seeded, drawn, delivery, other_at};

use ivy_moves::Move;
use ivy_wire::Bytes;
use rand_core::SeedableRng;
use rand_core::utils::NextWord;
use rand_pcg::Lcg64Xsh32;
use std::alloc::Allocator;

/// How far back a delivery reaches.
const REACH: usize = 64;

/// The byte of a string that names its destination.
const DEST: usize = 5;

/// The generator of a seed: the one of O'Neill's PCG family that Rust's `rand_pcg` has, as its `seed_from_u64` makes it.
/// It takes no memory.
pub fn generator_of(seed: u64) -> Lcg64Xsh32
    ensures { result ≡ seeded seed }
{
    Lcg64Xsh32::seed_from_u64(seed)
}

/// The node at a place among all but this one.
fn other_at(node: u64, place: u64) -> u64
    requires { place < 2 ^ 32 }
    ensures { result ≡ other_at node place }
{
    if place < node { place } else { place + 1 }
}

/// One of the last strings to its destination, or a turn where none was sent.
fn delivery<A: Allocator>(nodes: u64, sent: &[Bytes<A>], word: u64) -> Move
    requires nodes { 2 ≤ nodes }
    requires strings { All (λ string. 24 ≤ length string) sent.now }
    ensures { result ≡ delivery nodes sent.now word }
{
    if sent.is_empty() {
        return Move::Turn(word % nodes);
    }
    let back = word % sent.len().min(REACH) as u64;
    let index = sent.len() - 1 - back as usize;
    Move::Deliver {
        index: index as u64,
        to: u64::from(sent[index].bytes()[DEST]),
    }
}

/// Draws the next move over so many nodes and the strings that were sent. It takes no memory.
///
/// Half of the moves are turns, three of eight deliver one of the last 64 strings to its destination (a turn
/// where there is none), and one of eight is a pulse. Each takes two words of the generator, a pulse three.
pub fn draw<A: Allocator>(generator: &mut Lcg64Xsh32, nodes: u8, sent: &[Bytes<A>]) -> Move
    requires nodes { 2 ≤ nodes }
    requires strings { All (λ string. 24 ≤ length string) sent.now }
    ensures { (result, generator.new) ≡ drawn nodes sent.now generator.old }
{
    let nodes = u64::from(nodes);
    let kind = generator.next_word() % 8;
    let word = u64::from(generator.next_word());
    match kind {
        0..=3 => Move::Turn(word % nodes),
        4..=6 => delivery(nodes, sent, word),
        _ => {
            let from = word % nodes;
            let place = u64::from(generator.next_word()) % (nodes - 1);
            Move::Pulse {
                from,
                to: other_at(from, place),
            }
        }
    }
}
