//! What is made at a site on behalf of its node.
ghost use Rattle.std.specs.Prelude.{◌≡◌, ◌≤◌, ◌++◌, [], IfOk, OnOk, string_bytes};
ghost use Rattle.ivy_moves.specs.Marks.{turns};
ghost use Rattle.ivy_process.specs.NodeLogs.{KeepsCalls, waiting_lines};

use crate::failure::NodeFailure;
use crate::watch::CallWatch;
use ivy_logs::push_frame;
use ivy_model::{Fault, Reply};
use ivy_site::{Site, Turn};
use ivy_wire::destination;
use std::alloc::Global;

/// Tells of the call that was answered last, and counts it if it was refused.
fn tell_last<W: CallWatch>(site: &Site<Global>, refused: &mut u64, watch: &mut W) {
    let Some(record) = site.last_record() else {
        return;
    };
    if matches!(record.reply, Reply::Refused(_)) {
        *refused = refused.saturating_add(1);
    }
    watch.note(&record);
}

/// Makes so many turns at most, until one does nothing [1, 17]. It says how many did something, counts the calls that were
/// refused, and tells of each that was answered.
pub(crate) fn make_turns<W: CallWatch>(
    site: &mut Site<Global>,
    most: u64,
    refused: &mut u64,
    watch: &mut W,
) -> Result<u64, Fault>
    ensures made { IfOk result (λ made. site.new.events ≡ site.old.events ++ turns made) }
    ensures most { IfOk result (λ made. made ≤ most) }
    ensures kept { OnOk result (KeepsCalls site.old site.new) }
{
    let mut made = 0u64;
    while made < most {
        let records = site.records();
        if site.program_turn()? != Turn::Moved {
            return Ok(made);
        }
        if site.records() != records {
            tell_last(site, refused, watch);
        }
        made += 1;
    }
    Ok(made)
}

/// Takes out all frames that wait at a site, and writes the lines of them behind a text, each whole.
pub(crate) fn push_frames(
    alloc: Global,
    site: &mut Site<Global>,
    text: &mut String,
) -> Result<(), NodeFailure>
    ensures same { record site.new { waiting = [] } ≡ record site.old { waiting = [] } }
    ensures none { OnOk result (site.new.waiting ≡ []) }
    ensures text { OnOk result (string_bytes text.new ≡ string_bytes text.old ++ waiting_lines site.old.waiting) }
{
    while let Some(string) = site.take_frame() {
        let bytes = string.bytes();
        let to = destination(bytes).unwrap_or(0);
        push_frame(alloc, text, to, bytes)?;
    }
    Ok(())
}
