//! What is told of the calls of a node's program.

use ivy_model::Record;

/// What is told of each call of a node's program that is answered.
pub trait CallWatch {
    /// The program's call was answered so.
    fn note(&mut self, record: &Record);
}

impl<W: CallWatch> CallWatch for &mut W {
    fn note(&mut self, record: &Record) {
        (**self).note(record);
    }
}

/// It takes no heed of calls.
#[derive(Clone, Copy)]
pub(crate) struct Unwatched;

impl CallWatch for Unwatched {
    fn note(&mut self, _record: &Record) {}
}
