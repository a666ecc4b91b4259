//! Lines that are written one at a time.
ghost use Rattle.std.specs.Prelude.{◌≤◌, length};

use memchr::memchr;
use std::io::{self, Write};

/// Hands a writer one line at a time. So where several nodes write into one pipe, it keeps each line whole that has at
/// most 4,096 bytes, however many are written.
#[derive(Drop)]
pub(crate) struct LineByLine<W> {
    pub(crate) out: W,
}

/// Where the first line ends, or the bytes do.
fn end_of_line(bytes: &[u8]) -> usize
    ensures { result ≤ length bytes.now }
{
    match memchr(b'\n', bytes) {
        Some(place) => place + 1,
        None => bytes.len(),
    }
}

impl<W: Write> Write for LineByLine<W> {
    fn write(&mut self, bytes: &[u8]) -> io::Result<usize> {
        let end = end_of_line(bytes);
        self.out.write(&bytes[..end])
    }

    fn flush(&mut self) -> io::Result<()> {
        self.out.flush()
    }
}
