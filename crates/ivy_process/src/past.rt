//! What a log says of the calls that a work makes again.
ghost use Rattle.std.specs.Prelude.{◌≡◌, ◌≤◌, length, take, IfOk, OnOk};
ghost use Rattle.ivy_logs.specs.Entries.{answers_in};
ghost use Rattle.ivy_process.specs.OwnNodes.{IsRecalled};

use ivy_logs::LogEntry;
use ivy_model::{Call, Reply};
use ivy_wire::Bytes;
use std::alloc::Global;

/// What a log says of a call that is made again.
#[derive(Clone, Copy)]
pub(crate) enum Recalled {
    /// It was answered so. What the log says of later calls begins in this place.
    Known { reply: Reply, next: usize },
    /// It was made, and the log has no answer.
    Open,
    /// The log has no call more.
    New,
}

/// What a log says, from a place on, of the next call; or the place of an entry that is of another one.
pub(crate) fn recall(
    entries: &[LogEntry<Bytes<Global>>],
    place: usize,
    call: Call,
) -> Result<Recalled, usize>
    requires { place ≤ length entries.now }
    ensures { IfOk result (IsRecalled entries.now place call) }
{
    let mut is_asked = false;
    for at in place..entries.len() {
        match &entries[at] {
            LogEntry::Did(_) => {}
            // A page that is fetched ahead has no answer.
            LogEntry::Fetched { .. } => {}
            LogEntry::Asked(other) if *other == call => is_asked = true,
            LogEntry::Answered(answer) if answer.call == call => {
                return Ok(Recalled::Known {
                    reply: answer.reply,
                    next: at + 1,
                });
            }
            _ => return Err(at),
        }
    }
    Ok(if is_asked {
        Recalled::Open
    } else {
        Recalled::New
    })
}

/// Whether a log says nothing more of calls from a place on. Else Err has the place of an entry that does.
pub(crate) fn check_told(entries: &[LogEntry<Bytes<Global>>], place: usize) -> Result<(), usize>
    requires { place ≤ length entries.now }
    ensures { OnOk result (answers_in entries.now ≡ answers_in (take place entries.now)) }
{
    for at in place..entries.len() {
        match &entries[at] {
            LogEntry::Did(_) => {}
            LogEntry::Fetched { .. } => {}
            LogEntry::Asked(_) | LogEntry::Answered(_) => return Err(at),
        }
    }
    Ok(())
}
