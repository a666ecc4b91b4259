//! The logs of all nodes, made again one beside another: a node's code makes a call, or has a page fetched ahead, where
//! its log says so.
ghost use Rattle.std.specs.Prelude.{◌≡◌, ◌<◌, ◌↔◌, ◌++◌, ℕ, All, List, [], ◌∷◌, length, map, IfErr, slice_get, slice_set, Contains, IfOk, OnErr, IfSome, OnOk, IsTrue, MatchBool};
ghost use Rattle.ivy_model.specs.declared.Config.{Config};
ghost use Rattle.ivy_model.specs.stated.Legal.{HasWidth};
ghost use Rattle.ivy_model.specs.stated.Config.{IsConfig};
ghost use Rattle.ivy_program.specs.OwnCode.{IsFree};
ghost use Rattle.ivy_host.specs.declared.opening.Opening.{Opening};
ghost use Rattle.ivy_moves.specs.Marks.{marks, Delivery, Pulse, marks_of, turns};
ghost use Rattle.ivy_site.specs.Calls.{BeginsFetch};
ghost use Rattle.ivy_site.specs.Handed.{site_handed};
ghost use Rattle.ivy_world.specs.WorldSites.{programs_of};
ghost use Rattle.ivy_logs.specs.Entries.{events_in};
ghost use Rattle.ivy_logs.specs.Faults.{HandsNothing};
ghost use Rattle.ivy_logs.specs.declared.log.LogEntry.TheVariants.{Did, Asked, Fetched};
ghost use Rattle.ivy_join.specs.Calls.{handed_by_logs, HaveHanded, HandNothing, PlaysOn, HasHandedBy};
ghost use Rattle.ivy_join.specs.Exact.{AreAllMade, AreMadeTo, CameTo, HaveSent, IsMadeTo, IsNoPart, IsOneLeft, PlaysAll, PlaysTo, IsMadeAt, IsNeverAt, SaysMade};
ghost use Rattle.ivy_join.specs.Joined.{part_in, AreNoParts, SaysNoParts};
ghost use Rattle.ivy_join.specs.ReplaySites.{events_at, ArePlayed, CanBeTaken, AddsSent, CanGoOnBy, GoesOnBy};

use crate::failure::Unjoined;
use crate::strings::Strings;
use ivy_link::Verdict;
use ivy_logs::{Log, LogEntry};
use ivy_model::{Call, CallKind, Config, Fault};
use ivy_moves::Event;
use ivy_site::{Opening, Site, Turn};
use ivy_wire::Bytes;
use std::alloc::{AllocError, Allocator};

/// What became of an entry of a log.
#[derive(Clone, Copy)]
pub(crate) enum Outcome {
    /// It was made.
    Made,
    /// Its string was sent by nobody yet.
    Waits,
    /// It does not happen at this node.
    Never,
}

/// Makes turns, one after another [1]. It says whether each of them did something.
fn make_turns<A: Allocator + Copy>(site: &mut Site<A>, count: u64) -> Result<bool, Fault>
    ensures on { (sent : List (List ℕ)) → GoesOnBy sent site.old site.new }
    ensures made { IfOk result (λ happens. IsTrue happens → site.new.events ≡ site.old.events ++ turns count) }
    ensures exact { IfOk result (λ happens. SaysMade (turns count) site.old site.new happens) }
{
    let mut made = 0u64;
    while made < count {
        match site.program_turn() {
            Ok(Turn::Moved) => made += 1,
            Ok(_) | Err(Fault::NumbersSpent) => return Ok(false),
            Err(fault) => return Err(fault),
        }
    }
    Ok(true)
}

/// A string comes to a site, which does not go on after it [1]. It says whether it is a frame for it.
fn make_delivery<A: Allocator + Copy>(site: &mut Site<A>, string: &Bytes<A>) -> Result<bool, Fault>
    ensures on { (sent : List (List ℕ)) → IsConfig site.old.config → Contains sent string.now → GoesOnBy sent site.old site.new }
    ensures made { IfOk result (λ happens. IsTrue happens → site.new.events ≡ site.old.events ++ Delivery string.now ∷ []) }
    ensures exact { IfOk result (λ happens. SaysMade (Delivery string.now ∷ []) site.old site.new happens) }
{
    match site.deliver_alone(string) {
        Ok((verdict, _)) => Ok(verdict != Verdict::NotMine),
        Err(Fault::Memory) => Err(Fault::Memory),
        Err(_) => Ok(false),
    }
}

/// A pulse to a node, from a site at which no string waits [1]. It says whether there is such another node, and it sent
/// something: else the pulse is no event.
fn make_pulse<A: Allocator + Copy>(site: &mut Site<A>, to: u8) -> Result<bool, Fault>
    ensures on { (sent : List (List ℕ)) → GoesOnBy sent site.old site.new }
    ensures made { IfOk result (λ happens. IsTrue happens → site.new.events ≡ site.old.events ++ Pulse to ∷ []) }
    ensures exact { IfOk result (λ happens. SaysMade (Pulse to ∷ []) site.old site.new happens) }
{
    if to >= site.config().nodes || to == site.me() || site.has_frame() {
        return Ok(false);
    }
    site.pulse(to)?;
    Ok(site.has_frame())
}

/// Makes an event of a log at its site, at which no string waits [1]. It says whether it happens there: of turns, whether
/// each did something, and of a pulse, whether it sent something. Then it is what the site's list has more.
pub fn make<A: Allocator + Copy>(site: &mut Site<A>, event: &Event<Bytes<A>>) -> Result<bool, Fault>
    ensures on { CanGoOnBy event.now site.old site.new }
    ensures made { IfOk result (λ happens. IsTrue happens → site.new.events ≡ site.old.events ++ marks_of event.now) }
    ensures exact { IfOk result (λ happens. SaysMade (marks_of event.now) site.old site.new happens) }
{
    match event {
        Event::Turns(count) => make_turns(site, *count),
        Event::Delivered(string) => make_delivery(site, string),
        Event::Pulsed(to) => make_pulse(site, *to),
    }
}

/// Own code has its node fetch a page ahead, in a turn [1]. It says whether the node asks for the page; else nothing is
/// done.
pub(crate) fn make_fetch<A: Allocator + Copy>(
    site: &mut Site<A>,
    page: u32,
    write: bool,
) -> Result<bool, Fault>
    ensures { IfOk result (λ begun. MatchBool begun (BeginsFetch page write site.old site.new) (site.new ≡ site.old)) }
{
    match site.fetch(page, write) {
        Ok(begun) => Ok(begun),
        Err(Fault::Memory) => Err(Fault::Memory),
        Err(_) => Ok(false),
    }
}

/// Takes out all strings that wait at a site. It takes no memory.
pub(crate) fn drop_frames<A: Allocator + Copy>(site: &mut Site<A>)
    ensures { record site.new { waiting = [] } ≡ record site.old { waiting = [] } }
{
    while let Some(string) = site.take_frame() {
        drop(string);
    }
}

/// Takes all strings that wait at a site, and adds them to those that were sent. Err only where the allocator has no
/// memory.
pub(crate) fn collect<A: Allocator + Copy>(
    site: &mut Site<A>,
    sent: &mut Strings<A>,
) -> Result<(), AllocError>
    ensures site { record site.new { waiting = [] } ≡ record site.old { waiting = [] } }
    ensures kept { (bytes : List ℕ) → Contains sent.old bytes → Contains sent.new bytes }
    ensures added { AddsSent site.old sent.old sent.new }
    ensures taken { OnOk result ((bytes : List ℕ) → Contains site.old.waiting bytes → Contains sent.new bytes) }
    ensures none { OnOk result (site.new.waiting ≡ []) }
{
    while let Some(string) = site.take_frame() {
        sent.add(string)?;
    }
    Ok(())
}

/// Whether an event takes no string, or one that was sent.
fn may_make<A: Allocator + Copy>(sent: &Strings<A>, event: &Event<Bytes<A>>) -> bool
    ensures { IsTrue result ↔ CanBeTaken sent.now event.now }
{
    match event {
        Event::Delivered(string) => sent.contains(string.bytes()),
        _ => true,
    }
}

/// Makes an event at a node, and what it sends is sent [1]. It says whether the event happens there.
fn step<A: Allocator + Copy>(
    config: &Config,
    opening: Opening,
    sites: &mut Vec<Site<A>, A>,
    sent: &mut Strings<A>,
    node: usize,
    event: &Event<Bytes<A>>,
) -> Result<bool, Fault>
    requires played { ArePlayed config.now opening sites.old.items sent.old }
    requires node { node < length sites.old.items }
    requires there { CanBeTaken sent.old event.now }
    ensures played { OnOk result (ArePlayed config.now opening sites.new.items sent.new) }
    ensures programs { OnOk result (programs_of sites.new.items ≡ programs_of sites.old.items) }
    ensures count { length sites.new.items ≡ length sites.old.items }
    ensures exact { IfOk result (λ happens. HaveSent sent.old sites.old.items → MatchBool happens (IsMadeAt node (marks_of event.now) sites.old.items sites.new.items sent.new) (IsNeverAt node (marks_of event.now) sites.old.items)) }
{
    let site = &mut sites[node];
    let happens = make(site, event)?;
    // for the proof: it is what its events make of it.
    let _ = site.event_list();
    collect(site, sent)?;
    // for the proof: it is so still.
    let _ = site.event_list();
    Ok(happens)
}

/// Goes on with the next event of a node's log.
fn play_event<A: Allocator + Copy>(
    config: &Config,
    opening: Opening,
    sites: &mut Vec<Site<A>, A>,
    sent: &mut Strings<A>,
    node: usize,
    event: &Event<Bytes<A>>,
) -> Result<Outcome, Fault>
    requires played { ArePlayed config.now opening sites.old.items sent.old }
    requires node { node < length sites.old.items }
    ensures played { OnOk result (ArePlayed config.now opening sites.new.items sent.new) }
    ensures programs { OnOk result (programs_of sites.new.items ≡ programs_of sites.old.items) }
    ensures count { length sites.new.items ≡ length sites.old.items }
    ensures exact { IfOk result (λ outcome. HaveSent sent.old sites.old.items → CameTo node (Did event.now) sites.old.items sites.new.items sent.old sent.new outcome) }
{
    if !may_make(sent, event) {
        return Ok(Outcome::Waits);
    }
    if step(config, opening, sites, sent, node, event)? {
        Ok(Outcome::Made)
    } else {
        Ok(Outcome::Never)
    }
}

/// Whether the call's width is one that a word can have.
pub(crate) fn has_width(call: Call) -> bool
    ensures { IsTrue result ↔ HasWidth call }
{
    match call.kind() {
        CallKind::Word { width, .. } => [1, 2, 4, 8].contains(&width),
        _ => true,
    }
}

/// Whether a node's code may make this call.
fn may_ask<A: Allocator + Copy>(sites: &[Site<A>], node: usize, call: Call) -> bool
    requires { node < length sites.now }
    ensures free { IsTrue result → IfSome (slice_get sites.now node) (λ s. IsFree s.node.core.process) }
    ensures width { IsTrue result → HasWidth call }
{
    has_width(call) && sites[node].is_free()
}

/// A node's code makes a call [1].
fn hand<A: Allocator + Copy>(
    sites: &mut Vec<Site<A>, A>,
    node: usize,
    call: Call,
) -> Result<(), Fault>
    requires node { node < length sites.old.items }
    requires free { IfSome (slice_get sites.old.items node) (λ s. IsFree s.node.core.process) }
    requires width { HasWidth call }
    ensures ok { OnOk result (IfSome (slice_get sites.old.items node) (λ s. sites.new.items ≡ slice_set sites.old.items node (site_handed ((call ∷ []) ∷ []) s))) }
    ensures count { length sites.new.items ≡ length sites.old.items }
{
    sites[node].hand(call)
}

/// A node's code makes a call, where it may [1].
fn play_call<A: Allocator + Copy>(
    sites: &mut Vec<Site<A>, A>,
    node: usize,
    call: Call,
) -> Result<Outcome, Fault>
    requires node { node < length sites.old.items }
    ensures played { OnOk result ((c : Config) (o : Opening) (sent : List (List ℕ)) → ArePlayed c o sites.old.items sent → ArePlayed c o sites.new.items sent) }
    ensures handed { IfOk result (HasHandedBy node (Asked call) (programs_of sites.old.items) (programs_of sites.new.items)) }
    ensures exact { IfOk result (λ outcome. (c : Config) (o : Opening) (sent : List (List ℕ)) → ArePlayed c o sites.old.items sent → HaveSent sent sites.old.items → CameTo node (Asked call) sites.old.items sites.new.items sent sent outcome) }
    ensures count { length sites.new.items ≡ length sites.old.items }
{
    if !may_ask(sites, node, call) {
        return Ok(Outcome::Never);
    }
    hand(sites, node, call)?;
    Ok(Outcome::Made)
}

/// A node's code has a page fetched ahead, where the node asks for it, and what that sends is sent [1].
fn play_fetch<A: Allocator + Copy>(
    config: &Config,
    opening: Opening,
    sites: &mut Vec<Site<A>, A>,
    sent: &mut Strings<A>,
    node: usize,
    page: u32,
    write: bool,
) -> Result<Outcome, Fault>
    requires played { ArePlayed config.now opening sites.old.items sent.old }
    requires node { node < length sites.old.items }
    ensures played { OnOk result (ArePlayed config.now opening sites.new.items sent.new) }
    ensures handed { IfOk result (HasHandedBy node (Fetched page write) (programs_of sites.old.items) (programs_of sites.new.items)) }
    ensures exact { IfOk result (λ outcome. HaveSent sent.old sites.old.items → CameTo node (Fetched page write) sites.old.items sites.new.items sent.old sent.new outcome) }
    ensures count { length sites.new.items ≡ length sites.old.items }
{
    let site = &mut sites[node];
    let begun = make_fetch(site, page, write)?;
    if !begun {
        return Ok(Outcome::Never);
    }
    // for the proof: it is what its events make of it.
    let _ = site.event_list();
    collect(site, sent)?;
    // for the proof: it is so still.
    let _ = site.event_list();
    Ok(Outcome::Made)
}

/// Goes on with the next entry of a node's log.
pub(crate) fn play_entry<A: Allocator + Copy>(
    config: &Config,
    opening: Opening,
    sites: &mut Vec<Site<A>, A>,
    sent: &mut Strings<A>,
    node: usize,
    entry: &LogEntry<Bytes<A>>,
) -> Result<Outcome, Fault>
    requires played { ArePlayed config.now opening sites.old.items sent.old }
    requires node { node < length sites.old.items }
    ensures played { OnOk result (ArePlayed config.now opening sites.new.items sent.new) }
    ensures handed { IfOk result (HasHandedBy node entry.now (programs_of sites.old.items) (programs_of sites.new.items)) }
    ensures exact { IfOk result (λ outcome. HaveSent sent.old sites.old.items → CameTo node entry.now sites.old.items sites.new.items sent.old sent.new outcome) }
    ensures count { length sites.new.items ≡ length sites.old.items }
{
    match entry {
        LogEntry::Did(event) => play_event(config, opening, sites, sent, node, event),
        LogEntry::Asked(call) => play_call(sites, node, *call),
        // What was answered is compared once all was made.
        LogEntry::Answered(_) => Ok(Outcome::Made),
        LogEntry::Fetched { page, write } => {
            play_fetch(config, opening, sites, sent, node, *page, *write)
        }
    }
}

/// The line of an entry of a log.
fn line_of<A: Allocator>(log: &Log<A>, place: usize) -> u64 {
    log.lines.get(place).copied().unwrap_or(0)
}

/// Goes on with a node's log, of which so many entries were made, as far as its next string was sent [1]. It says whether
/// it went on at all.
fn play_log<A: Allocator + Copy>(
    config: &Config,
    opening: Opening,
    sites: &mut Vec<Site<A>, A>,
    sent: &mut Strings<A>,
    node: usize,
    log: &Log<A>,
    made: &mut usize,
) -> Result<bool, Unjoined>
    requires played { ArePlayed config.now opening sites.old.items sent.old }
    requires node { node < length sites.old.items }
    requires sent { HaveSent sent.old sites.old.items }
    requires here { IsMadeTo log.now.entries.items made.old (events_at sites.old.items node) }
    ensures played { OnOk result (ArePlayed config.now opening sites.new.items sent.new) }
    ensures handed { OnOk result (PlaysOn node log.now.entries.items made.old made.new (programs_of sites.old.items) (programs_of sites.new.items)) }
    ensures count { length sites.new.items ≡ length sites.old.items }
    ensures exact { IfOk result (λ went. PlaysTo node log.now.entries.items made.old made.new sites.old.items sites.new.items sent.old sent.new went) }
    ensures refused { IfErr result (λ why. SaysNoParts why → All HandsNothing log.now.entries.items → IsNoPart config.now opening (programs_of sites.old.items) node (marks (events_in log.now.entries.items))) }
{
    let began = *made;
    for place in began..log.entries.len() {
        let entry = &log.entries[place];
        match play_entry(config, opening, sites, sent, node, entry)? {
            Outcome::Made => *made = place + 1,
            Outcome::Waits => return Ok(*made != began),
            Outcome::Never => {
                let line = line_of(log, place);
                return Err(Unjoined::NoSuchEvent {
                    node: node as u64,
                    line,
                });
            }
        }
    }
    Ok(*made != began)
}

/// Goes on with each log once [1]. It says whether one of them went on.
fn play_round<A: Allocator + Copy>(
    config: &Config,
    opening: Opening,
    sites: &mut Vec<Site<A>, A>,
    sent: &mut Strings<A>,
    logs: &[Log<A>],
    made: &mut [usize],
) -> Result<bool, Unjoined>
    requires played { ArePlayed config.now opening sites.old.items sent.old }
    requires logs { length logs.now ≡ length sites.old.items }
    requires made { length made.old ≡ length sites.old.items }
    requires sent { HaveSent sent.old sites.old.items }
    requires each { AreMadeTo (map (λ l. l.entries.items) logs.now) made.old sites.old.items }
    ensures played { OnOk result (ArePlayed config.now opening sites.new.items sent.new) }
    ensures handed { OnOk result (HaveHanded (map (λ l. l.entries.items) logs.now) made.old made.new (programs_of sites.old.items) (programs_of sites.new.items)) }
    ensures count { length sites.new.items ≡ length sites.old.items }
    ensures exact { IfOk result (λ went. PlaysAll (map (λ l. l.entries.items) logs.now) made.old made.new sites.new.items sent.new went) }
    ensures refused { IfErr result (λ why. SaysNoParts why → HandNothing (map (λ l. l.entries.items) logs.now) → AreNoParts config.now opening (programs_of sites.old.items) (map (λ l. marks (events_in l.entries.items)) logs.now)) }
{
    let mut went = false;
    for node in 0..logs.len() {
        if play_log(
            config,
            opening,
            sites,
            sent,
            node,
            &logs[node],
            &mut made[node],
        )? {
            went = true;
        }
    }
    Ok(went)
}

/// Whether each log was made to its end. Else the entry is named that waits.
fn check_ends<A: Allocator>(logs: &[Log<A>], made: &[usize]) -> Result<(), Unjoined>
    requires { length made.now ≡ length logs.now }
    ensures all { OnOk result (AreAllMade (map (λ l. l.entries.items) logs.now) made.now) }
    ensures left { OnErr result (IsOneLeft (map (λ l. l.entries.items) logs.now) made.now) }
{
    for node in 0..logs.len() {
        if made[node] < logs[node].entries.len() {
            return Err(Unjoined::NotSent {
                node: node as u64,
                line: line_of(&logs[node], made[node]),
            });
        }
    }
    Ok(())
}

/// Makes the entries of all logs again, each delivery once its string was sent [1].
///
/// Where it is refused otherwise than for want of memory, logs without calls and fetches are not the parts of a run:
/// what a node does depends on its own events alone, and what was sent only grows. So a round in which no log goes on
/// has made all that a run with these parts could have made.
pub(crate) fn play<A: Allocator + Copy>(
    alloc: A,
    config: &Config,
    opening: Opening,
    sites: &mut Vec<Site<A>, A>,
    sent: &mut Strings<A>,
    logs: &[Log<A>],
) -> Result<(), Unjoined>
    requires played { ArePlayed config.now opening sites.old.items sent.old }
    requires logs { length logs.now ≡ length sites.old.items }
    requires sent { HaveSent sent.old sites.old.items }
    requires none { (i : ℕ) → events_at sites.old.items i ≡ [] }
    ensures played { OnOk result (ArePlayed config.now opening sites.new.items sent.new) }
    ensures handed { OnOk result (programs_of sites.new.items ≡ handed_by_logs (map (λ l. l.entries.items) logs.now) (programs_of sites.old.items)) }
    ensures count { length sites.new.items ≡ length sites.old.items }
    ensures lists { OnOk result ((i : ℕ) → events_at sites.new.items i ≡ part_in (map (λ l. marks (events_in l.entries.items)) logs.now) i) }
    ensures refused { IfErr result (λ why. SaysNoParts why → HandNothing (map (λ l. l.entries.items) logs.now) → AreNoParts config.now opening (programs_of sites.old.items) (map (λ l. marks (events_in l.entries.items)) logs.now)) }
{
    let mut made = vec![in alloc; 0usize; logs.len()]?;
    while play_round(config, opening, sites, sent, logs, &mut made)? {}
    check_ends(logs, &made)
}
