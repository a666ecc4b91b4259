//! Programs of texts in worlds by drawn moves.

use crate::digest::{Digest, MANAGERS};
use anyhow::Error;
use ivy_model::{Config, Fault, Kind};
use ivy_replay::{Silence, Text, drawn_moves, ended_in, history_of, order_of, output_of};
use ivy_world::{Move, Opening, Rest, World};
use std::alloc::Global;
use std::io::Write;
use test_support::programs;

/// The last of the seeds, of which the first is 1.
const LAST: u64 = 50;

/// How many moves are drawn for each seed.
const MOVES: u64 = 400;

/// How many moves let each of these programs come to its end.
const ENOUGH: u64 = 100_000;

/// A program whose runs are looked at.
#[derive(Clone, Copy)]
enum Example {
    /// Two nodes that each store a word, and then load the other's.
    StoreBuffering,
    /// Two nodes that each advance a count twice, and one that awaits all four.
    FourAdvances,
}

impl Example {
    fn name(self) -> &'static str {
        match self {
            Example::StoreBuffering => "store buffering",
            Example::FourAdvances => "four advances",
        }
    }

    fn text(self) -> &'static str {
        match self {
            Example::StoreBuffering => programs::STORE_BUFFERING.text,
            Example::FourAdvances => programs::FOUR_ADVANCES.text,
        }
    }

    fn nodes(self) -> u8 {
        match self {
            Example::StoreBuffering => 2,
            Example::FourAdvances => 3,
        }
    }

    /// Whether the nodes printed what they may: at most one of the two loads 0, and all four advances are counted.
    fn printed_well(self, world: &World<Global>) -> bool {
        match self {
            Example::StoreBuffering => matches!(
                (output_of(world, 0), output_of(world, 1)),
                ([0], [1]) | ([1], [0 | 1])
            ),
            Example::FourAdvances => matches!(output_of(world, 0), [4]),
        }
    }
}

/// The programs of an example, over pages of 256 bytes.
fn text_of(alloc: Global, example: Example, manager: Kind) -> Text<'static> {
    Text {
        alloc,
        config: Config {
            nodes: example.nodes(),
            pages: 4,
            page_size: 256,
            manager,
        },
        opening: Opening::Configured,
        programs: example.text(),
    }
}

/// The world after these moves, let settle, and whether it stands still.
fn settled(text: &Text<'_>, moves: &[Move]) -> Result<(World<Global>, bool), Fault> {
    let mut world = text.world()?;
    if let Err((_place, fault)) = world.run(moves) {
        return Err(fault);
    }
    match world.settle(ENOUGH) {
        Ok(rest) => Ok((world, rest == Rest::Still)),
        Err((_made, fault)) => Err(fault),
    }
}

/// Whether all programs have ended, and printed what they may.
fn ends_well(example: Example, world: &World<Global>) -> bool {
    for node in 0..world.nodes() {
        if !ended_in(world, node) {
            return false;
        }
    }
    example.printed_well(world)
}

/// Adds the run of a seed: its drawn moves have an order that explains them, and it ends well where it is let settle.
fn add_seed(
    digest: &mut Digest,
    example: Example,
    text: &Text<'_>,
    seed: u64,
) -> Result<(), Fault> {
    let moves = drawn_moves(text, seed, MOVES, &mut Silence)?;
    let is_explained = order_of(text, &moves, &mut Silence)?.is_some();
    let (world, is_still) = settled(text, &moves)?;
    let holds = is_explained && is_still && ends_well(example, &world);
    digest.add_play(seed, moves.len(), holds);
    for node in 0..world.nodes() {
        digest.add_history(history_of(&world, node));
    }
    Ok(())
}

/// The runs of an example by all seeds, in numbers.
fn digest_of(alloc: Global, example: Example, manager: Kind) -> Result<Digest, Fault> {
    let text = text_of(alloc, example, manager);
    let mut digest = Digest::new();
    for seed in 1..=LAST {
        add_seed(&mut digest, example, &text, seed)?;
    }
    Ok(digest)
}

/// Runs an example by all seeds under either manager. It says whether all held.
fn run_example<W: Write>(alloc: Global, example: Example, out: &mut W) -> Result<bool, Error> {
    let mut all_hold = true;
    for (kind, manager) in MANAGERS {
        let digest = digest_of(alloc, example, kind)?;
        all_hold &= digest.print(example.name(), manager, out)?;
    }
    Ok(all_hold)
}

/// Runs the examples by all seeds under either manager. It says whether all held.
pub(crate) fn run_texts<W: Write>(alloc: Global, out: &mut W) -> Result<bool, Error> {
    let buffering = run_example(alloc, Example::StoreBuffering, out)?;
    let advances = run_example(alloc, Example::FourAdvances, out)?;
    Ok(buffering && advances)
}
