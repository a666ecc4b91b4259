//! The texts of the files that a command line names.

use ivy_model::Fault;
use std::fs;
use std::io::ErrorKind;
use std::rt::Files;

/// What knows the texts of files.
pub trait Texts {
    /// The text of the file of this name, or none where it can't be read as UTF-8. 1 where a growth
    /// was refused.
    fn text(&self, name: &str) -> Result<Option<String>, Fault>;
}

/// The files of a runtime.
#[derive(Drop)]
pub struct FilesOf<'a, R> {
    pub runtime: &'a R,
}

impl<R: Files + AllocGlobal> Texts for FilesOf<'_, R> {
    fn text(&self, name: &str) -> Result<Option<String>, Fault> {
        match fs::read_to_string(self.runtime, name) {
            Ok(text) => Ok(Some(text)),
            Err(error) => match error.kind() {
                ErrorKind::OutOfMemory => Err(Fault::Memory),
                _ => Ok(None),
            },
        }
    }
}
