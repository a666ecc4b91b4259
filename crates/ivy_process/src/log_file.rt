//! The file of a node's log, which one process at a time has.

use std::alloc::{AllocError, Global};
use std::fmt;
use std::fs::{File, OpenOptions, TryLockError};
use std::io::{self, ErrorKind, Write};
use std::rt::Files;

/// Why a node does not get the file of its log.
#[derive(Clone, Copy, Debug, PartialEq, Eq)]
pub enum NoLog {
    /// Memory ran out.
    Memory,
    /// Another process has it.
    Taken,
    /// There is no such folder.
    NoFolder,
    /// It can't be opened, or its folder not be synced.
    Unopened,
    /// It can't be read, or is no UTF-8.
    Unread,
    /// It can't be locked.
    Unlocked,
    /// What stands behind its last LF can't be cut off.
    Uncut,
}

impl fmt::Display for NoLog {
    fn fmt<W: fmt::Write>(&self, f: &mut fmt::Formatter<W>) -> fmt::Result {
        f.write_str(match self {
            NoLog::Memory => "memory ran out",
            NoLog::Taken => "another process has this log",
            NoLog::NoFolder => "there is no such folder",
            NoLog::Unopened => "it cannot be opened to be written",
            NoLog::Unread => "it cannot be read as UTF-8",
            NoLog::Unlocked => "it cannot be locked",
            NoLog::Uncut => "its last line cannot be cut off",
        })
    }
}

impl From<AllocError> for NoLog {
    fn from(_error: AllocError) -> NoLog {
        NoLog::Memory
    }
}

/// The file of a log, which is this process's alone until it is closed.
#[derive(Drop)]
pub struct LogFile {
    file: File,
    /// Whether it is on the disk once it is flushed.
    is_synced: bool,
}

impl Write for LogFile {
    fn write(&mut self, bytes: &[u8]) -> io::Result<usize> {
        self.file.write(bytes)
    }

    fn flush(&mut self) -> io::Result<()> {
        self.file.flush()?;
        if self.is_synced {
            self.file.sync_data()?;
        }
        Ok(())
    }
}

/// This reason, but for want of memory.
fn because(error: &io::Error, why: NoLog) -> NoLog {
    match error.kind() {
        ErrorKind::OutOfMemory => NoLog::Memory,
        _ => why,
    }
}

/// The folder of a file.
fn folder_of(name: &str) -> &str {
    match name.rsplit_once('/') {
        Some(("", _)) => "/",
        Some((folder, _)) => folder,
        None => ".",
    }
}

/// Opens a file to be read and to be written behind its end. It says whether the file is new.
fn open_or_create<R: Files<File = File>>(rt: &R, name: &str) -> Result<(File, bool), NoLog> {
    let mut how = OpenOptions::new();
    how.read(true).append(true);
    match how.open(rt, name) {
        Ok(file) => return Ok((file, false)),
        Err(error) if error.kind() == ErrorKind::NotFound => {}
        Err(error) => return Err(because(&error, NoLog::Unopened)),
    }
    how.create(true);
    match how.open(rt, name) {
        Ok(file) => Ok((file, true)),
        Err(error) if error.kind() == ErrorKind::NotFound => Err(NoLog::NoFolder),
        Err(error) => Err(because(&error, NoLog::Unopened)),
    }
}

/// Takes a file for this process alone, until it is closed.
fn take(file: &File) -> Result<(), NoLog> {
    match file.try_lock() {
        Ok(()) => Ok(()),
        Err(TryLockError::WouldBlock) => Err(NoLog::Taken),
        Err(TryLockError::Error(error)) => Err(because(&error, NoLog::Unlocked)),
    }
}

/// Has the folder of a file that is new on the disk.
fn sync_folder<R: Files<File = File>>(rt: &R, name: &str) -> Result<(), NoLog> {
    let folder = match File::open(rt, folder_of(name)) {
        Ok(folder) => folder,
        Err(error) => return Err(because(&error, NoLog::Unopened)),
    };
    match folder.sync_all() {
        Ok(()) => Ok(()),
        Err(error) => Err(because(&error, NoLog::Unopened)),
    }
}

/// How many bytes of a text are its whole lines.
fn whole_bytes(text: &str) -> usize {
    match text.rfind('\n') {
        Some(place) => place.saturating_add(1),
        None => 0,
    }
}

/// Opens the file of a log, or makes it, and gives its text as it was found. What stands behind its last LF is cut off: its
/// node was killed while it wrote. Before the file is read or cut it is locked, so that no two processes write one log.
///
/// Where it is synced, what is written is on the disk once it is flushed, and so is the name of a file that is new.
pub fn open_log<R: Files<File = File>>(
    rt: &R,
    alloc: Global,
    name: &str,
    is_synced: bool,
) -> Result<(LogFile, String), NoLog> {
    let (mut file, is_new) = open_or_create(rt, name)?;
    take(&file)?;
    if is_new && is_synced {
        sync_folder(rt, name)?;
    }
    let text = match io::read_to_string(alloc, &mut file) {
        Ok(text) => text,
        Err(error) => return Err(because(&error, NoLog::Unread)),
    };
    let whole = whole_bytes(text.as_str());
    if whole < text.len() && file.set_len(whole as u64).is_err() {
        return Err(NoLog::Uncut);
    }
    Ok((LogFile { file, is_synced }, text))
}
