//! The streams of a node in a process. What is written stands behind what its stream had, or the service ends.
ghost use Rattle.std.specs.Prelude.{OnOk};
ghost use Rattle.std.specs.Io.KnownBytes.{Appends};

use crate::failure::NodeFailure;
use std::io::Write;

/// What a node in a process hears and speaks to.
#[derive(Drop)]
pub struct Streams<'a, I, L, O, E> {
    /// Where the lines of the other nodes come.
    pub inbox: &'a I,
    /// Its log.
    pub log: L,
    /// Where its frames go out.
    pub out: O,
    /// Where it tells what its program printed.
    pub err: E,
}

/// Writes a text through, or ends with this failure.
pub(crate) fn write_through<W: Write>(
    to: &mut W,
    text: &str,
    failure: NodeFailure,
) -> Result<(), NodeFailure>
    ensures { OnOk result (Appends (W.contents to.old) (W.contents to.new) text.now) }
{
    if to.write_all(text.as_bytes()).is_err() || to.flush().is_err() {
        return Err(failure);
    }
    Ok(())
}
