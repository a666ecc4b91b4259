//! Lines of a stream, of which none is stored that is too long.

use crate::mail::Mail;
use memchr::memchr;
use std::alloc::Global;
use std::io::{self, BufRead, ErrorKind};
use std::sync::Wait;

/// Where a part of a line ended.
#[derive(Clone, Copy)]
enum Part {
    /// At the LF.
    Whole,
    /// Where the stream has no more at once.
    Open,
    /// At the end of the stream.
    Last,
}

/// Puts what the stream has of a line behind what was read of it, but no more than so many bytes in all.
fn read_part<R: BufRead>(from: &mut R, most: usize, line: &mut Vec<u8>) -> io::Result<Part> {
    let there = match from.fill_buf() {
        Ok(there) => there,
        Err(error) if error.kind() == ErrorKind::Interrupted => return Ok(Part::Open),
        Err(error) => return Err(error),
    };
    if there.is_empty() {
        return Ok(Part::Last);
    }
    let end = memchr(b'\n', there);
    let count = end.unwrap_or(there.len());
    let room = most.saturating_sub(line.len());
    line.extend_from_slice(&there[..count.min(room)])?;
    match end {
        Some(_) => {
            from.consume(count + 1);
            Ok(Part::Whole)
        }
        None => {
            from.consume(count);
            Ok(Part::Open)
        }
    }
}

/// Reads the next line of at most so many bytes with its LF, which is left out; an empty one stands for one that is too
/// long. None at the end of the stream: what stands behind its last LF is no line.
fn read_line<R: BufRead>(alloc: Global, from: &mut R, most: usize) -> io::Result<Option<Vec<u8>>> {
    let mut line = Vec::new(alloc);
    // for the proof: it ends.
    for _ in 0..u64::MAX {
        match read_part(from, most, &mut line)? {
            Part::Whole if line.len() < most => return Ok(Some(line)),
            Part::Whole => return Ok(Some(Vec::new(alloc))),
            Part::Open => {}
            Part::Last => break,
        }
    }
    Ok(None)
}

/// Puts each line of a stream into an inbox. One that finds no place is lost.
pub(crate) fn read_all<B: BufRead, R: Wait>(
    rt: &R,
    alloc: Global,
    from: &mut B,
    most: usize,
    inbox: &Mail,
) -> io::Result<()> {
    // for the proof: it ends.
    for _ in 0..u64::MAX {
        let Some(line) = read_line(alloc, from, most)? else {
            break;
        };
        let _ = inbox.put(rt, line);
    }
    Ok(())
}
