//! A node that is made again from its own log.
ghost use Rattle.std.specs.Prelude.{◌≡◌, ◌+◌, [], ◌∷◌, ℕ, List, length, IfOk, IsTrue, OnOk};
ghost use Rattle.ivy_model.specs.stated.Config.{IsConfig};
ghost use Rattle.ivy_moves.specs.Parts.{AllCanBeMade};
ghost use Rattle.ivy_site.specs.Handed.{site_handed};
ghost use Rattle.ivy_logs.specs.Entries.{answer_in};
ghost use Rattle.ivy_join.specs.Remade.{CanTake, GoesOnByEntries, HasAnswer, IsAnsweredLast, IsMadeByLog};

use crate::replay_log::{drop_frames, has_width, make, make_fetch};
use ivy_calls::Answer;
use ivy_logs::LogEntry;
use ivy_model::{Call, Fault};
use ivy_site::Site;
use ivy_wire::Bytes;
use std::alloc::Allocator;

/// Why the entries of a log are not made again at a node.
#[derive(Clone, Copy, Debug, PartialEq, Eq)]
pub enum NotPlayed {
    /// Memory ran out.
    Refused(Fault),
    /// The entry in this place, from 0, does not happen there.
    NoSuchEvent(usize),
}

impl From<Fault> for NotPlayed {
    fn from(fault: Fault) -> NotPlayed {
        NotPlayed::Refused(fault)
    }
}

/// Own code makes a call, where it may [1]. It says whether it may.
fn make_call<A: Allocator + Copy>(site: &mut Site<A>, call: Call) -> Result<bool, Fault>
    ensures { IfOk result (λ may. IsTrue may → site.new ≡ site_handed ((call ∷ []) ∷ []) site.old) }
{
    if !has_width(call) || !site.is_free() {
        return Ok(false);
    }
    site.hand(call)?;
    Ok(true)
}

/// Whether this is what own code was answered last, after so many answers, and it has made no call since.
fn has_answer<A: Allocator + Copy>(site: &Site<A>, answer: Answer, told: u64) -> bool
    ensures { IsTrue result → IsAnsweredLast told answer site.now.node.core.history }
{
    let Some(record) = site.last_record() else {
        return false;
    };
    if record.call != answer.call || record.reply != answer.reply {
        return false;
    }
    let before = site.records().saturating_sub(1);
    if before != told {
        return false;
    }
    site.is_free()
}

/// Makes an entry of a log at its site, at which no string waits, after so many answers [1]. It says whether it happens
/// there: of a call, whether the code may make it, of an answer, whether it is the next one, to the last call, and of a
/// page that was fetched ahead, whether the node asks for it.
fn make_entry<A: Allocator + Copy>(
    site: &mut Site<A>,
    entry: &LogEntry<Bytes<A>>,
    told: u64,
) -> Result<bool, Fault>
    ensures on { IfOk result (λ happens. IsTrue happens → (sent : List (List ℕ)) → IsConfig site.old.config → AllCanBeMade sent site.old.config.nodes site.old.me site.old.events → CanTake sent entry.now → GoesOnByEntries sent (entry.now ∷ []) site.old site.new) }
    ensures told { IfOk result (λ happens. IsTrue happens → HasAnswer told entry.now site.new.node.core.history) }
{
    match entry {
        LogEntry::Did(event) => make(site, event),
        LogEntry::Asked(call) => make_call(site, *call),
        LogEntry::Answered(answer) => Ok(has_answer(site, *answer, told)),
        LogEntry::Fetched { page, write } => make_fetch(site, *page, *write),
    }
}

/// How many answers a log has up to an entry that was made, by how many stand before it.
fn told_after<A: Allocator + Copy>(site: &Site<A>, entry: &LogEntry<Bytes<A>>, told: u64) -> u64
    requires { HasAnswer told entry.now site.now.node.core.history }
    ensures { result ≡ told + length (answer_in entry.now) }
{
    match entry {
        LogEntry::Answered(_) => site.records(),
        _ => told,
    }
}

/// Makes the entries of a log again at a site that made no event yet, and none besides.
///
/// The site is then what the events among them make of it, its code has made their calls and had their pages fetched
/// ahead, and was answered what they say: an answer that the log leaves out is refused with the next one. What the
/// events sent is dropped: it went out before the node was killed, or was lost with it. The last call may have its
/// reply already, where the log lacks that.
pub fn replay<A: Allocator + Copy>(
    site: &mut Site<A>,
    log: &[LogEntry<Bytes<A>>],
) -> Result<(), NotPlayed>
    requires fresh { site.old.events ≡ [] }
    ensures made { OnOk result (IsMadeByLog log.now site.old site.new) }
{
    // for the proof: the configuration is within its limits.
    let _ = site.config();
    drop_frames(site);
    let mut told = 0u64;
    for place in 0..log.len() {
        let entry = &log[place];
        if !make_entry(site, entry, told)? {
            return Err(NotPlayed::NoSuchEvent(place));
        }
        told = told_after(site, entry, told);
        drop_frames(site);
    }
    // for the proof: it is what its events make of it.
    let _ = site.event_list();
    Ok(())
}
