//! The thread that reads standard input.

use crate::lines::read_all;
use crate::mail::Mail;
use std::alloc::Global;
use std::io::{self, BufReader};
use std::rt::Stdin;
use std::sync::{Arc, Wait};
use std::thread::{self, Threads};

/// How many bytes a pipe holds: what is there is read at once.
const PIPE_BYTES: usize = 65_536;

fn read_input<R: Wait>(
    rt: &R,
    alloc: Global,
    stdin: Stdin,
    most: usize,
    inbox: &Mail,
) -> io::Result<()> {
    let mut from = BufReader::with_capacity(alloc, PIPE_BYTES, stdin)?;
    read_all(rt, alloc, &mut from, most, inbox)
}

fn read_to_end<R: Wait>(rt: &R, alloc: Global, stdin: Stdin, most: usize, inbox: &Mail) {
    // Where no more can be read, the input has ended as well.
    let _ = read_input(rt, alloc, stdin, most, inbox);
    inbox.end(rt);
}

/// Starts the thread that reads standard input, whose lines have at most so many bytes. It is not joined: nothing ends a
/// read that waits, so it ends with the process.
pub fn inbox_of<R>(rt: R, alloc: Global, stdin: Stdin, most: usize) -> io::Result<Arc<Mail>>
where
    R: Threads + Wait + Copy + Send + 'static,
{
    let inbox = Arc::new(alloc, Mail::new(alloc))?;
    let theirs = Arc::try_clone(&inbox)?;
    let _reader = thread::spawn(&rt, move || read_to_end(&rt, alloc, stdin, most, &theirs))?;
    Ok(inbox)
}
