//! Whether logs are the parts of one run, of given programs or of the own code whose calls and fetches they have, and
//! what they come to.
ghost use Rattle.std.specs.Prelude.{◌≡◌, ◌++◌, ◌≤◌, ◌<◌, ◌↔◌, false, length, map, take, IfOk, IfErr, IfSome, OnOk, IsTrue, slice_get};
ghost use Rattle.std.specs.List.{All};
ghost use Rattle.ivy_model.specs.stated.Config.{IsConfig};
ghost use Rattle.ivy_program.specs.Programs.{IsWritten};
ghost use Rattle.ivy_program.specs.InstructionSteps.{HasEnded};
ghost use Rattle.ivy_moves.specs.Marks.{marks};
ghost use Rattle.ivy_host.specs.declared.opening.Opening.TheVariants.{Configured};
ghost use Rattle.ivy_world.specs.HandedWorlds.{own_code};
ghost use Rattle.ivy_world.specs.WorldSites.{IsMemory};
ghost use Rattle.ivy_calls.specs.Answers.{answers};
ghost use Rattle.ivy_logs.specs.Entries.{answer_in, events_in};
ghost use Rattle.ivy_logs.specs.Sums.{sum_of_run, sum_opened};
ghost use Rattle.ivy_join.specs.Calls.{HandNothing};
ghost use Rattle.ivy_join.specs.ReplaySites.{kept_from};
ghost use Rattle.ivy_join.specs.Joined.{opening_by, AreHeads, AreJoined, AreNoParts, NamesSum, SaysNoParts, SaysOfCount, SaysOfHead, SaysOfHeads, SaysOfSums};
ghost use Rattle.ivy_join.specs.OwnJoined.{AreAllTold, AreAnswered, AreOwnJoined, AreTold, Tells};

use crate::failure::Unjoined;
use crate::replay_log::play;
use crate::strings::Strings;
use ivy_logs::{Log, LogEntry, LogHead, sum_opened};
use ivy_model::{Call, Config, Fault, Record};
use ivy_moves::Keep;
use ivy_program::Program;
use ivy_site::{Opening, Site};
use ivy_wire::Bytes;
use std::alloc::Allocator;
use std::marker::Model;

/// The nodes of a run at its end, made again from their logs.
///
/// What ends one is proved here, once: a crate above that has one would prove anew what ends each type in a derived `Drop`.
pub struct Joined<A: Allocator> {
    sites: Vec<Site<A>, A>,
}

impl<A: Allocator> Drop for Joined<A> {
    fn drop(self) {
        let Joined { sites: _ } = self;
    }
}

impl<A: Allocator> Model for Joined<A> {
    ghost use Rattle.std.specs.Prelude.{List};
    ghost use Rattle.ivy_site.specs.SiteView.{SiteView};
    ghost use Rattle.std.specs.Coded.{codes};
    ghost use Rattle.ivy_pagetable.specs.stated.NodeSets.{nodes_code};
    ghost use Rattle.ivy_alloc.specs.Heap.{heap_state_code};

    ghost Value = { List SiteView };

    ghost coded = { Prim.hlevel (codes, nodes_code, heap_state_code) };

    ghost view = { λ j. j.sites.items };
}

impl<A: Allocator + Copy> Joined<A> {
    pub(crate) fn new(sites: Vec<Site<A>, A>) -> Self
        ensures { result ≡ sites.items }
    {
        Joined { sites }
    }

    /// How many nodes there are. It takes no memory.
    pub fn nodes(&self) -> u64
        ensures { result ≡ length self.now }
    {
        self.sites.len() as u64
    }

    /// How many calls a node was answered; the node is one of the run's. It takes no memory.
    pub fn records(&self, node: u64) -> u64
        requires { node < length self.now }
        ensures { IfSome (slice_get self.now node) (λ s. result ≡ length s.node.core.history) }
    {
        self.sites[node as usize].records()
    }

    /// What a node's program printed; the node is one of the run's. It takes no memory.
    pub fn output(&self, node: u64) -> &[u64]
        requires { node < length self.now }
        ensures { IfSome (slice_get self.now node) (λ s. result.now ≡ s.node.core.process.state.output) }
    {
        self.sites[node as usize].output()
    }

    /// Whether a node's program has ended; the node is one of the run's. It takes no memory.
    pub fn ended(&self, node: u64) -> bool
        requires { node < length self.now }
        ensures { IfSome (slice_get self.now node) (λ s. IsTrue result ↔ HasEnded s.node.core.process) }
    {
        self.sites[node as usize].ended()
    }

    /// The call that a node has in progress; the node is one of the run's. It takes no memory.
    pub fn asked(&self, node: u64) -> Option<Call>
        requires { node < length self.now }
        ensures { IfSome (slice_get self.now node) (λ s. result ≡ s.node.core.memory.asked) }
    {
        self.sites[node as usize].asked()
    }
}

/// How nodes began: with steady hints, or with the manager of their configuration.
pub fn opening_by(steady: bool) -> Opening
    ensures { result ≡ opening_by steady }
{
    if steady {
        Opening::Steady
    } else {
        Opening::Configured
    }
}

/// The sites of the programs, in order, which begin so and keep no lists [1].
fn first_sites<A: Allocator + Copy>(
    alloc: A,
    config: &Config,
    opening: Opening,
    programs: Vec<Program<A>, A>,
) -> Result<Vec<Site<A>, A>, Fault>
    requires limits { IsConfig config.now }
    requires each { length programs.items ≡ config.now.nodes }
    ensures first { IfOk result (λ sites. sites.items ≡ kept_from opening Keep.Nothing config.now 0 programs.items) }
    ensures written { OnOk result (All IsWritten programs.items) }
    ensures memory { IfErr result IsMemory }
{
    let mut sites = Vec::with_capacity(alloc, programs.len())?;
    let mut me = 0u8;
    for program in programs {
        // for the proof: it is written down, so that its node makes no call of its own.
        let _ = program.instructions();
        sites.push(Site::opened(alloc, config, me, opening, program, Keep::Nothing)?)?;
        me += 1;
    }
    Ok(sites)
}

/// The sites of own code, as many as there are nodes, which begin so and keep what they are answered [1].
fn open_sites<A: Allocator + Copy>(
    alloc: A,
    config: &Config,
    opening: Opening,
) -> Result<Vec<Site<A>, A>, Fault>
    requires limits { IsConfig config.now }
    ensures first { IfOk result (λ sites. sites.items ≡ kept_from opening Keep.History config.now 0 (own_code config.now.nodes)) }
    ensures memory { IfErr result IsMemory }
{
    let mut sites = Vec::with_capacity(alloc, usize::from(config.nodes))?;
    for me in 0..config.nodes {
        sites.push(Site::open_by(alloc, config, me, opening, Keep::History)?)?;
    }
    Ok(sites)
}

/// Whether the two are one configuration.
fn is_same(a: &Config, b: &Config) -> bool
    ensures { IsTrue result ↔ (a.now ≡ b.now) }
{
    a.nodes == b.nodes && a.pages == b.pages && a.page_size == b.page_size && a.manager == b.manager
}

/// Whether a log is the one of this node, and names this configuration and this manager.
fn check_head(steady: bool, config: &Config, node: u64, head: &LogHead) -> Result<(), Unjoined>
    ensures same { OnOk result (head.now ≡ record { me = node; config = config.now; steady = steady }) }
    ensures why { IfErr result (SaysOfHead steady config.now node head.now) }
{
    let me = u64::from(head.me);
    if me > node {
        return Err(Unjoined::Missing(node));
    }
    if me < node {
        return Err(Unjoined::Twice(me));
    }
    if head.steady != steady || !is_same(&head.config, config) {
        return Err(Unjoined::Differs(node));
    }
    Ok(())
}

/// Whether there are as many logs as nodes.
fn check_count(config: &Config, count: u64) -> Result<(), Unjoined>
    ensures same { OnOk result (count ≡ config.now.nodes) }
    ensures why { IfErr result (SaysOfCount config.now count) }
{
    if count < u64::from(config.nodes) {
        return Err(Unjoined::Missing(count));
    }
    if count > u64::from(config.nodes) {
        return Err(Unjoined::Twice(count));
    }
    Ok(())
}

/// Whether each log is the one of the node of its place, and names this configuration, with whose manager nodes begin.
/// The error says which is not.
pub fn check_heads<A: Allocator>(config: &Config, logs: &[Log<A>]) -> Result<(), Unjoined>
    ensures each { OnOk result (AreHeads false config.now 0 (map (λ l. l.head) logs.now)) }
    ensures count { OnOk result (length logs.now ≡ config.now.nodes) }
    ensures why { IfErr result (SaysOfHeads false config.now (map (λ l. l.head) logs.now)) }
{
    check_all_heads(false, config, logs)
}

/// Whether each log is the one of the node of its place, and names this configuration, and steady hints or not.
fn check_all_heads<A: Allocator>(
    steady: bool,
    config: &Config,
    logs: &[Log<A>],
) -> Result<(), Unjoined>
    ensures each { OnOk result (AreHeads steady config.now 0 (map (λ l. l.head) logs.now)) }
    ensures count { OnOk result (length logs.now ≡ config.now.nodes) }
    ensures why { IfErr result (SaysOfHeads steady config.now (map (λ l. l.head) logs.now)) }
{
    let mut node = 0u64;
    for log in logs {
        check_head(steady, config, node, &log.head)?;
        node += 1;
    }
    check_count(config, node)
}

/// Whether a log names this sum, or none.
fn names_sum(sum: u64, named: Option<u64>) -> bool
    ensures { IsTrue result ↔ NamesSum sum named }
{
    match named {
        Some(other) => other == sum,
        None => true,
    }
}

/// Whether each log names this sum, or none. The error says which names another one.
fn check_sums<A: Allocator>(sum: u64, logs: &[Log<A>]) -> Result<(), Unjoined>
    ensures all { OnOk result (All (NamesSum sum) (map (λ l. l.sum) logs.now)) }
    ensures why { IfErr result (SaysOfSums sum (map (λ l. l.sum) logs.now)) }
{
    let mut node = 0u64;
    for log in logs {
        if !names_sum(sum, log.sum) {
            return Err(Unjoined::OtherRun(node));
        }
        node += 1;
    }
    Ok(())
}

/// The place behind the answer of an entry, where the records in this place have it.
fn after_answer<A: Allocator>(
    history: &[Record],
    place: usize,
    entry: &LogEntry<Bytes<A>>,
) -> Option<usize>
    requires { place ≤ length history.now }
    ensures within { IfSome result (λ next. next ≤ length history.now) }
    ensures has { IfSome result (λ next. answers (take next history.now) ≡ answers (take place history.now) ++ answer_in entry.now) }
{
    let LogEntry::Answered(answer) = entry else {
        return Some(place);
    };
    let record = history.get(place)?;
    if record.call != answer.call || record.reply != answer.reply {
        return None;
    }
    Some(place + 1)
}

/// Whether the site was answered what these entries say, in order, and at most one call more.
fn are_told<A: Allocator + Copy>(site: &Site<A>, entries: &[LogEntry<Bytes<A>>]) -> bool
    ensures { IsTrue result → Tells entries.now site.now.node.core.history }
{
    let history = site.history();
    let mut place = 0usize;
    for entry in entries {
        let Some(next) = after_answer(history, place, entry) else {
            return false;
        };
        place = next;
    }
    // A node that was killed may not have logged what it was answered last.
    site.records().saturating_sub(place as u64) <= 1
}

/// Whether each site was answered what its log says.
fn check_answers<A: Allocator + Copy>(sites: &[Site<A>], logs: &[Log<A>]) -> Result<(), Unjoined>
    requires each { length logs.now ≡ length sites.now }
    ensures { OnOk result (AreTold (map (λ l. l.entries.items) logs.now) sites.now) }
{
    for node in 0..logs.len() {
        if !are_told(&sites[node], &logs[node].entries) {
            return Err(Unjoined::OtherAnswers(node as u64));
        }
    }
    Ok(())
}

/// Joins the logs of the nodes of these programs, the log of node 0 first.
///
/// Where it answers, the logs are the parts of one run of these programs under this configuration, whatever wire the
/// nodes had: what `World::run` promises of every run holds of what happened, and the nodes at the end of it are given.
/// [`Unjoined::NotSent`] and [`Unjoined::NoSuchEvent`] say of logs without calls and fetches, as all logs of programs
/// are, that they are the parts of no run of these programs under it. The other errors say nothing of that: memory ran
/// out, the configuration does not suit, the logs are not those of its nodes, or one of them names the sum of another
/// run. A log whose nodes began with steady hints names another configuration.
pub fn join<A: Allocator + Copy>(
    alloc: A,
    config: Config,
    programs: Vec<Program<A>, A>,
    logs: &[Log<A>],
) -> Result<Joined<A>, Unjoined>
    ensures heads { OnOk result (AreHeads false config 0 (map (λ l. l.head) logs.now)) }
    ensures joined { IfOk result (λ joined. AreJoined config Configured programs.items (map (λ l. marks (events_in l.entries.items)) logs.now) joined) }
    ensures summed { OnOk result (All (NamesSum (sum_of_run config programs.items)) (map (λ l. l.sum) logs.now)) }
    ensures refused { IfErr result (λ why. SaysNoParts why → HandNothing (map (λ l. l.entries.items) logs.now) → AreNoParts config Configured programs.items (map (λ l. marks (events_in l.entries.items)) logs.now)) }
    ensures named { IfErr result (λ why. SaysNoParts why → AreHeads false config 0 (map (λ l. l.head) logs.now)) }
{
    join_opened(alloc, false, config, programs, logs)
}

/// The same, of nodes that began with steady hints, or with the manager of their configuration.
pub fn join_opened<A: Allocator + Copy>(
    alloc: A,
    steady: bool,
    config: Config,
    programs: Vec<Program<A>, A>,
    logs: &[Log<A>],
) -> Result<Joined<A>, Unjoined>
    ensures heads { OnOk result (AreHeads steady config 0 (map (λ l. l.head) logs.now)) }
    ensures joined { IfOk result (λ joined. AreJoined config (opening_by steady) programs.items (map (λ l. marks (events_in l.entries.items)) logs.now) joined) }
    ensures summed { OnOk result (All (NamesSum (sum_opened steady config programs.items)) (map (λ l. l.sum) logs.now)) }
    ensures refused { IfErr result (λ why. SaysNoParts why → HandNothing (map (λ l. l.entries.items) logs.now) → AreNoParts config (opening_by steady) programs.items (map (λ l. marks (events_in l.entries.items)) logs.now)) }
    ensures named { IfErr result (λ why. SaysNoParts why → AreHeads steady config 0 (map (λ l. l.head) logs.now)) }
{
    config.check()?;
    if programs.len() != usize::from(config.nodes) {
        return Err(Unjoined::Refused(Fault::BadConfig));
    }
    check_all_heads(steady, &config, logs)?;
    check_sums(sum_opened(steady, &config, &programs), logs)?;
    let opening = opening_by(steady);
    let mut sites = first_sites(alloc, &config, opening, programs)?;
    let mut sent = Strings::new(alloc);
    play(alloc, &config, opening, &mut sites, &mut sent, logs)?;
    Ok(Joined::new(sites))
}

/// Joins the logs of the nodes of own code, the log of node 0 first.
///
/// Where it answers, the logs are the parts of one run of the programs that the calls and the fetches in them are,
/// whatever wire the nodes had: what `World::run` promises of every run holds of what happened, and each node was
/// answered in it what its log says. Where no call is in progress at its end, and no log lacks its last answer, one
/// flat memory could have given the answers in the logs. A log whose nodes began with steady hints names another
/// configuration.
pub fn join_own<A: Allocator + Copy>(
    alloc: A,
    config: Config,
    logs: &[Log<A>],
) -> Result<Joined<A>, Unjoined>
    ensures heads { OnOk result (AreHeads false config 0 (map (λ l. l.head) logs.now)) }
    ensures joined { IfOk result (AreOwnJoined config Configured (map (λ l. l.entries.items) logs.now)) }
    ensures answered { IfOk result (λ joined. AreAllTold (map (λ l. l.entries.items) logs.now) joined → AreAnswered config (map (λ l. l.entries.items) logs.now)) }
{
    join_own_opened(alloc, false, config, logs)
}

/// The same, of nodes that began with steady hints, or with the manager of their configuration.
pub fn join_own_opened<A: Allocator + Copy>(
    alloc: A,
    steady: bool,
    config: Config,
    logs: &[Log<A>],
) -> Result<Joined<A>, Unjoined>
    ensures heads { OnOk result (AreHeads steady config 0 (map (λ l. l.head) logs.now)) }
    ensures joined { IfOk result (AreOwnJoined config (opening_by steady) (map (λ l. l.entries.items) logs.now)) }
    ensures answered { IfOk result (λ joined. AreAllTold (map (λ l. l.entries.items) logs.now) joined → AreAnswered config (map (λ l. l.entries.items) logs.now)) }
{
    config.check_wide()?;
    check_all_heads(steady, &config, logs)?;
    let opening = opening_by(steady);
    let mut sites = open_sites(alloc, &config, opening)?;
    let mut sent = Strings::new(alloc);
    play(alloc, &config, opening, &mut sites, &mut sent, logs)?;
    check_answers(&sites, logs)?;
    Ok(Joined::new(sites))
}
