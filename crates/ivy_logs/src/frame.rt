//! Frames, one a line.
ghost use Rattle.std.specs.Prelude.{◌≡◌, ◌<◌, ◌∷◌, [], IfOk, IfSome, IsOkUnless, length, map, slice_index};
ghost use Rattle.ivy_program.specs.texts.TextWords.{words_of};
ghost use Rattle.ivy_logs.specs.Spelled.{SpellsFrame};

use crate::bytes_of;
use ivy_model::Fault;
use ivy_program::{few_words, parse_number};
use std::alloc::Allocator;
use std::str;

/// The line of a frame.
#[derive(Drop)]
pub struct FrameLine<A: Allocator> {
    /// The node that the frame is for.
    pub to: u64,
    /// Its string.
    pub bytes: Vec<u8, A>,
}

/// How many bytes at the beginning of a line have the number of a node and the space behind it, as they are written.
const NUMBER_BYTES: usize = 4;

/// The frame of these parts of a line, or none where they are none [1].
fn parse_parts<A: Allocator>(
    alloc: A,
    number: &str,
    digits: &[u8],
) -> Result<Option<FrameLine<A>>, Fault>
    ensures spelled { IfOk result (λ o. IfSome o (λ f. SpellsFrame (number.now ∷ digits.now ∷ []) f.to f.bytes.items)) }
    ensures memory { IsOkUnless result Fault.Memory }
{
    let Some(to) = parse_number(number) else {
        return Ok(None);
    };
    match bytes_of(alloc, digits)? {
        Some(bytes) => Ok(Some(FrameLine { to, bytes })),
        None => Ok(None),
    }
}

/// The place of the space behind the number at the beginning of a line.
fn space_in(line: &[u8]) -> Option<usize>
    ensures { IfSome result (λ place. (place < length line.now) × (slice_index line.now place ≡ 32)) }
{
    for place in 0..line.len().min(NUMBER_BYTES) {
        if line[place] == b' ' {
            return Some(place);
        }
    }
    None
}

/// The frame of a line in the form in which frames are written, or none where it has another form [1].
fn parse_written<A: Allocator>(alloc: A, line: &[u8]) -> Result<Option<FrameLine<A>>, Fault>
    ensures spelled { IfOk result (λ o. IfSome o (λ f. SpellsFrame (words_of line.now) f.to f.bytes.items)) }
    ensures memory { IsOkUnless result Fault.Memory }
{
    let Some(space) = space_in(line) else {
        return Ok(None);
    };
    let digits = &line[space + 1..];
    match str::from_utf8(&line[..space]) {
        Ok(number) if space + 1 < line.len() => parse_parts(alloc, number, digits),
        _ => Ok(None),
    }
}

/// The frame of the words of a line, or none where they are none [1].
fn parse_worded<A: Allocator>(alloc: A, line: &str) -> Result<Option<FrameLine<A>>, Fault>
    ensures spelled { IfOk result (λ o. IfSome o (λ f. SpellsFrame (words_of line.now) f.to f.bytes.items)) }
    ensures memory { IsOkUnless result Fault.Memory }
{
    let mut places = [""; 2];
    match few_words(line, &mut places) {
        Some(2) => parse_parts(alloc, places[0], places[1].as_bytes()),
        _ => Ok(None),
    }
}

/// The frame of a line `TO HEX`, or none where the line has none: HEX is written in lower case and read in either [1].
pub fn parse_frame<A: Allocator + Copy>(
    alloc: A,
    line: &[u8],
) -> Result<Option<FrameLine<A>>, Fault>
    ensures spelled { IfOk result (λ o. IfSome o (λ f. SpellsFrame (words_of line.now) f.to f.bytes.items)) }
    ensures memory { IsOkUnless result Fault.Memory }
{
    if let Some(frame) = parse_written(alloc, line)? {
        return Ok(Some(frame));
    }
    match str::from_utf8(line) {
        Ok(line) => parse_worded(alloc, line),
        Err(_) => Ok(None),
    }
}
