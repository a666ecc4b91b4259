//! All nodes, and every string ever sent between them.
ghost use Rattle.std.specs.Prelude.{◌≡◌, ◌+◌, ◌*◌, ◌<◌, ◌≤◌, ◌↔◌, ◌++◌, ◌∷◌, [], true, false, Some, Ok, length, slice_get, slice_set, vec_len, vec_capacity, IsTrue, IfOk, IfErr, IfNone, IfSome, OnOk, OnErr, IsErrOf, IsOkUnless, MatchResult};
ghost use Rattle.ivy_model.specs.stated.Config.{IsConfig, IsNarrow};
ghost use Rattle.ivy_model.specs.stated.Legal.{HasWidth};
ghost use Rattle.ivy_program.specs.OwnCode.{IsFree};
ghost use Rattle.ivy_program.specs.InstructionSteps.{HasEnded};
ghost use Rattle.ivy_host.specs.stated.Managers.{managed_ops};
ghost use Rattle.ivy_moves.specs.declared.Move.{Move};
ghost use Rattle.ivy_moves.specs.stated.Worlds.{Moves, is_named};
ghost use Rattle.ivy_host.specs.stated.Hosts.{host_rules};
ghost use Rattle.ivy_host.specs.stated.Holding.{AllSpell};
ghost use Rattle.proof_worlds.specs.stated.Keeping.{Keeps};
ghost use Rattle.ivy_model.specs.Rows.{calls_of, numbers_in, row};
ghost use Rattle.ivy_site.specs.Calls.{MayCallTogether, row_together, words_together};
ghost use Rattle.ivy_world.specs.HandedWorlds.{BeginsBlock, IsRefusedBlock, own_code, run_handed};
ghost use Rattle.ivy_world.specs.stated.Runs.{made_of, opened_run, IsRefusedBy, IsNamedUnless, IsSameRun, IsRefusedAt, IsNamedAt, IsExplainedOn};
ghost use Rattle.proof_worlds.specs.stated.Reached.{IsLedTo, IsReached};
ghost use Rattle.ivy_site.specs.Handed.{site_handed};
ghost use Rattle.ivy_site.specs.Sites.{await_in};
ghost use Rattle.proof_worlds.specs.stated.Still.{HasNothingUnderWay};
ghost use Rattle.ivy_world.specs.Settling.{StandsStill, HasSettledBy, Settles, HasSettled, IsFoundStill};
ghost use Rattle.ivy_world.specs.WorldRounds.{DoesNothing, DoesSomething, IsComing, NoneComes, IsRoundMove, IsInRound, StaysStill, HasMadeOne, HasRefusedOne};
ghost use Rattle.ivy_model.specs.Wants.{RanOut};
ghost use Rattle.ivy_world.specs.WorldSites.{world_of, AreSites, AfterMove, HaveBegun, IsMemory, IsRefusedRow, IsWorldWant, AreFirst};

use crate::rest::Rest;
use crate::round::{Round, is_delivered, next_move};
use ivy_link::MOST_AHEAD;
use ivy_model::{Call, Config, Fault, MOST_NODES, Record, Row};
use ivy_moves::{Keep, Move};
use ivy_program::Program;
use ivy_site::{Opening, Site, Turn};
use ivy_wire::Bytes;
use std::alloc::Allocator;
use std::marker::Model;

/// How many strings a turn or a pulse sends at most: one to each node, or as many messages again.
const MOST_SENT: usize = MOST_NODES as usize;

/// How many strings a delivery sends at most, with all that the node goes on with.
const MOST_DELIVERED: usize = MOST_SENT + MOST_SENT * MOST_AHEAD;

/// A world of nodes that run programs over one shared memory, on a wire that may lose, repeat and reorder.
///
/// Whatever moves are made, the replies that the nodes received are those of one flat memory that serves one
/// call at a time, in an order that keeps each node's own (Lamport 1979), and no page is ever writable at one
/// node and readable at another.
#[derive(Drop)]
pub struct World<A: Allocator> {
    config: Config,
    opening: Opening,
    sites: Vec<Site<A>, A>,
    sent: Vec<Bytes<A>, A>,
    /// No string before this place is under way any more.
    passed: usize,
}

impl<A: Allocator> Model for World<A> {
    ghost use Rattle.proof_worlds.specs.stated.RunState.{Run};
    ghost use Rattle.std.specs.Prelude.{◌≡◌};
    ghost use Rattle.ivy_world.specs.WorldSites.{run_of, world_of, IsRunning};
    ghost use Rattle.ivy_world.specs.WorldRounds.{IsPassed};

    ghost Value = { Run };

    ghost use Rattle.std.specs.Coded.{codes};
    ghost use Rattle.ivy_pagetable.specs.stated.NodeSets.{nodes_code};
    ghost use Rattle.ivy_alloc.specs.Heap.{heap_state_code};

    ghost coded = { Prim.hlevel (codes, nodes_code, heap_state_code) };

    ghost view = { λ w. run_of w.config w.opening w.sites.items w.sent.items };

    ghost invariant = { λ w. IsRunning w.config w.opening w.sites.items w.sent.items × IsPassed w.config (world_of w.sites.items w.sent.items) w.passed };
}

/// Moves the strings that wait at a site behind all that were sent.
fn collect<A: Allocator + Copy>(site: &mut Site<A>, sent: &mut Vec<Bytes<A>, A>)
    requires room { vec_len sent.old + length site.old.waiting ≤ vec_capacity sent.old }
    ensures sent { sent.new.items ≡ sent.old.items ++ site.old.waiting }
    ensures site { site.new ≡ record site.old { waiting = [] } }
{
    while let Some(bytes) = site.take_frame() {
        sent.push_reserved(bytes);
    }
}

/// Makes one move over the sites and the strings, or changes nothing [1, 17, 19]. It says whether it did anything,
/// which a turn alone may not.
fn make<A: Allocator + Copy>(
    sites: &mut Vec<Site<A>, A>,
    sent: &mut Vec<Bytes<A>, A>,
    config: &Config,
    step: Move,
) -> Result<bool, Fault>
    requires sites { AreSites config.now sites.old.items }
    requires each { length sites.old.items ≡ config.now.nodes }
    requires limits { IsConfig config.now }
    requires spelled { AllSpell config.now (world_of sites.old.items sent.old.items) }
    ensures after { OnOk result (AfterMove config.now sites.old.items sites.new.items sent.old.items sent.new.items step) }
    ensures each { length sites.new.items ≡ config.now.nodes }
    ensures idle { result ≡ Ok false → DoesNothing (world_of sites.old.items sent.old.items) step × (sites.new.items ≡ sites.old.items) × (sent.new.items ≡ sent.old.items) }
    ensures did { result ≡ Ok true → DoesSomething (world_of sites.old.items sent.old.items) step }
    ensures err { OnErr result ((sites.new.items ≡ sites.old.items) × (sent.new.items ≡ sent.old.items)) }
    ensures cause { IfErr result (λ fault. IsRefusedBy config.now (world_of sites.old.items sent.old.items) fault (Some step)) }
    ensures named { IsNamedUnless (world_of sites.old.items sent.old.items) result step }
{
    let nodes = sites.len() as u64;
    match step {
        Move::Turn(node) => {
            if node >= nodes {
                return Err(Fault::NoSuchFrame);
            }
            sent.reserve(MOST_SENT)?;
            let site = &mut sites[node as usize];
            let turn = site.program_turn()?;
            collect(site, sent);
            Ok(turn == Turn::Moved)
        }
        Move::Deliver { index, to } => {
            if to >= nodes || index >= sent.len() as u64 {
                return Err(Fault::NoSuchFrame);
            }
            sent.reserve(MOST_DELIVERED)?;
            let site = &mut sites[to as usize];
            let _ = site.deliver_spelled(&sent[index as usize])?;
            collect(site, sent);
            Ok(true)
        }
        Move::Pulse { from, to } => {
            if from >= nodes || to >= nodes || from == to {
                return Err(Fault::NoSuchFrame);
            }
            sent.reserve(MOST_SENT)?;
            let site = &mut sites[from as usize];
            site.pulse(to as u8)?;
            collect(site, sent);
            Ok(true)
        }
    }
}

/// The sites of the programs, in order.
fn first_sites<A: Allocator + Copy>(
    alloc: A,
    config: &Config,
    opening: Opening,
    programs: Vec<Program<A>, A>,
) -> Result<Vec<Site<A>, A>, Fault>
    requires limits { IsConfig config.now }
    requires each { length programs.items ≡ config.now.nodes }
    ensures first { IfOk result (λ sites. AreFirst opening config.now programs.items sites.items) }
    ensures memory { IfErr result IsMemory }
{
    let mut sites = Vec::with_capacity(alloc, programs.len())?;
    let mut me = 0u8;
    for program in programs {
        sites.push(Site::opened(alloc, config, me, opening, program, Keep::History)?)?;
        me += 1;
    }
    Ok(sites)
}

/// Own code at a site makes a call [1]. A refused call changes nothing.
fn hand<A: Allocator + Copy>(
    sites: &mut Vec<Site<A>, A>,
    node: u64,
    call: Call,
) -> Result<(), Fault>
    requires node { node < length sites.old.items }
    requires free { IfSome (slice_get sites.old.items node) (λ s. IsFree s.node.core.process) }
    requires width { HasWidth call }
    ensures ok { OnOk result (IfSome (slice_get sites.old.items node) (λ s. sites.new.items ≡ slice_set sites.old.items node (site_handed ((call ∷ []) ∷ []) s))) }
    ensures err { OnErr result (sites.new.items ≡ sites.old.items) }
    ensures memory { IsOkUnless result Fault.Memory }
{
    sites[node as usize].hand(call)
}

/// Own code at a site makes calls in a row together and has a turn, in which the first begins and waits [1, 17]. It says how
/// many. What the turn sends is put on the wire.
fn begin_block<A: Allocator + Copy>(
    sites: &mut Vec<Site<A>, A>,
    sent: &mut Vec<Bytes<A>, A>,
    node: u64,
    kind: Row,
    addr: u64,
    words: usize,
    bytes: &[u8],
) -> Result<usize, Fault>
    requires node { node < length sites.old.items }
    requires waits { IfSome (slice_get sites.old.items node) (λ s. s.waiting ≡ []) }
    ensures done { MatchResult result (λ n. HaveBegun node (calls_of (row kind 0 addr (numbers_in n bytes.now))) sites.old.items sent.old.items sites.new.items sent.new.items) (λ _. (sites.new.items ≡ sites.old.items) × (sent.new.items ≡ sent.old.items)) }
    ensures many { IfOk result (λ k. IfSome (slice_get sites.old.items node) (λ s. MayCallTogether s.node.core.process s.node.core.history addr (length bytes.now) → k ≡ row_together s kind addr words (length bytes.now))) }
    ensures busy { IfSome (slice_get sites.old.items node) (λ s. (MayCallTogether s.node.core.process s.node.core.history addr (length bytes.now) → ⊥) → MatchResult result (λ k. k ≡ 0) IsMemory) }
    ensures cause { IfErr result (λ fault. IfSome (slice_get sites.old.items node) (λ s. IsRefusedRow (calls_of (row kind 0 addr (numbers_in (row_together s kind addr words (length bytes.now)) bytes.now))) s fault)) }
    ensures fits { IfOk result (λ n. (n ≤ words) × (8 * n ≤ length bytes.now)) }
    ensures want { IfErr result RanOut }
{
    sent.reserve(MOST_SENT)?;
    let site = &mut sites[node as usize];
    let begun = site.call_row(kind, addr, words, bytes)?;
    collect(site, sent);
    Ok(begun)
}

/// The sites of own code, as many as there are nodes.
fn open_sites<A: Allocator + Copy>(
    alloc: A,
    config: &Config,
    opening: Opening,
) -> Result<Vec<Site<A>, A>, Fault>
    requires limits { IsConfig config.now }
    ensures first { IfOk result (λ sites. AreFirst opening config.now (own_code config.now.nodes) sites.items) }
    ensures memory { IfErr result IsMemory }
{
    let mut sites = Vec::with_capacity(alloc, usize::from(config.nodes))?;
    for me in 0..config.nodes {
        sites.push(Site::open_by(alloc, config, me, opening, Keep::History)?)?;
    }
    Ok(sites)
}

impl<A: Allocator + Copy> World<A> {
    /// The opening world of these programs, one for each node [1, 2].
    ///
    /// It is 2 exactly where the configuration is out of the narrow limits, or there are not as many programs as nodes.
    pub fn new(alloc: A, config: Config, programs: Vec<Program<A>, A>) -> Result<World<A>, Fault>
        ensures opens { IfOk result (λ world. world ≡ opened_run Opening.Configured config programs.items) }
        ensures bad { IsErrOf result Fault.BadConfig ↔ ¬ (IsNarrow config × (length programs.items ≡ config.nodes)) }
        ensures want { IfErr result IsWorldWant }
    {
        config.check()?;
        World::wide(alloc, config, programs)
    }

    /// The same, of up to 65,536 pages [1, 2].
    ///
    /// It is 2 exactly where the configuration is out of the wide limits, or there are not as many programs as nodes.
    pub fn wide(alloc: A, config: Config, programs: Vec<Program<A>, A>) -> Result<World<A>, Fault>
        ensures opens { IfOk result (λ world. world ≡ opened_run Opening.Configured config programs.items) }
        ensures bad { IsErrOf result Fault.BadConfig ↔ ¬ (IsConfig config × (length programs.items ≡ config.nodes)) }
        ensures want { IfErr result IsWorldWant }
    {
        World::opened(alloc, config, Opening::Configured, programs)
    }

    /// The same, of nodes that begin so: by the manager that the configuration names, or by steady hints [1, 2].
    ///
    /// It is 2 exactly where the configuration is out of the wide limits, or there are not as many programs as nodes.
    pub fn opened(
        alloc: A,
        config: Config,
        opening: Opening,
        programs: Vec<Program<A>, A>,
    ) -> Result<World<A>, Fault>
        ensures opens { IfOk result (λ world. world ≡ opened_run opening config programs.items) }
        ensures bad { IsErrOf result Fault.BadConfig ↔ ¬ (IsConfig config × (length programs.items ≡ config.nodes)) }
        ensures want { IfErr result IsWorldWant }
    {
        config.check_wide()?;
        if programs.len() != usize::from(config.nodes) {
            return Err(Fault::BadConfig);
        }
        let sites = first_sites(alloc, &config, opening, programs)?;
        Ok(World {
            config,
            opening,
            sites,
            sent: Vec::new(alloc),
            passed: 0,
        })
    }

    /// The opening world of own code alone, at each node of the configuration [1, 2].
    ///
    /// It is 2 exactly where the configuration is out of the wide limits.
    pub fn open(alloc: A, config: Config) -> Result<World<A>, Fault>
        ensures opens { IfOk result (λ world. world ≡ opened_run Opening.Configured config (own_code config.nodes)) }
        ensures bad { IsErrOf result Fault.BadConfig ↔ ¬ IsConfig config }
        ensures want { IfErr result IsWorldWant }
    {
        World::open_by(alloc, config, Opening::Configured)
    }

    /// The same, of nodes that begin so: by the manager that the configuration names, or by steady hints [1, 2].
    ///
    /// It is 2 exactly where the configuration is out of the wide limits.
    pub fn open_by(alloc: A, config: Config, opening: Opening) -> Result<World<A>, Fault>
        ensures opens { IfOk result (λ world. world ≡ opened_run opening config (own_code config.nodes)) }
        ensures bad { IsErrOf result Fault.BadConfig ↔ ¬ IsConfig config }
        ensures want { IfErr result IsWorldWant }
    {
        config.check_wide()?;
        let sites = open_sites(alloc, &config, opening)?;
        Ok(World {
            config,
            opening,
            sites,
            sent: Vec::new(alloc),
            passed: 0,
        })
    }

    /// How the nodes began: by the manager of the configuration, or by steady hints. It takes no memory.
    pub fn opening(&self) -> Opening
        ensures { result ≡ self.now.opened }
    {
        self.opening
    }

    /// Every string ever sent, in the order sent. It takes no memory.
    pub fn sent(&self) -> &[Bytes<A>]
        ensures { result.now ≡ self.now.world.sent }
    {
        &self.sent
    }

    /// How many nodes there are. It takes no memory.
    pub fn nodes(&self) -> u64
        ensures { result ≡ self.now.config.nodes }
    {
        self.sites.len() as u64
    }

    /// What a node was answered so far, in order; the node is one of the world's. It takes no memory.
    pub fn history(&self, node: u64) -> &[Record]
        requires { node < self.now.config.nodes }
        ensures { IfSome (slice_get self.now.world.nodes node) (λ n. result.now ≡ n.core.history) }
    {
        self.sites[node as usize].history()
    }

    /// What a node's program printed so far; the node is one of the world's. It takes no memory.
    pub fn output(&self, node: u64) -> &[u64]
        requires { node < self.now.config.nodes }
        ensures { IfSome (slice_get self.now.world.nodes node) (λ n. result.now ≡ n.core.process.state.output) }
    {
        self.sites[node as usize].output()
    }

    /// Whether a node's program has ended; the node is one of the world's. It takes no memory.
    pub fn ended(&self, node: u64) -> bool
        requires { node < self.now.config.nodes }
        ensures { IfSome (slice_get self.now.world.nodes node) (λ n. IsTrue result ↔ HasEnded n.core.process) }
    {
        self.sites[node as usize].ended()
    }

    /// Whether a node has own code of which each call has its reply; the node is one of the world's. It takes no memory.
    pub fn is_free(&self, node: u64) -> bool
        requires { node < self.now.config.nodes }
        ensures { IfSome (slice_get self.now.world.nodes node) (λ n. IsTrue result ↔ IsFree n.core.process) }
    {
        self.sites[node as usize].is_free()
    }

    /// Own code at a node makes a call, which the node's next turn begins [1]. Each call before has its reply there, and
    /// a width is 1, 2, 4 or 8. A refused call changes nothing.
    ///
    /// All that is promised of a world holds of it with the longer program: the moves that led here lead here from the
    /// opening of that, too.
    pub fn hand(&mut self, node: u64, call: Call) -> Result<(), Fault>
        requires node { node < self.old.config.nodes }
        requires free { IfSome (slice_get self.old.world.nodes node) (λ n. IsFree n.core.process) }
        requires width { HasWidth call }
        ensures ok { OnOk result (self.new ≡ run_handed node ((call ∷ []) ∷ []) self.old) }
        ensures keeps { Keeps self.new }
        ensures err { OnErr result (self.new ≡ self.old) }
        ensures memory { IsOkUnless result Fault.Memory }
    {
        let result = self.hand_over(node, call);
        self.keeps();
        result
    }

    /// Hands the call to the node's site.
    fn hand_over(&mut self, node: u64, call: Call) -> Result<(), Fault>
        requires node { node < self.old.config.nodes }
        requires free { IfSome (slice_get self.old.world.nodes node) (λ n. IsFree n.core.process) }
        requires width { HasWidth call }
        ensures ok { OnOk result (self.new ≡ run_handed node ((call ∷ []) ∷ []) self.old) }
        ensures err { OnErr result (self.new ≡ self.old) }
        ensures memory { IsOkUnless result Fault.Memory }
    {
        hand(&mut self.sites, node, call)
    }

    /// Own code at a node makes calls in a row together, on words of 8 bytes from `addr` on, and the node has a turn, in which
    /// the first of them begins and waits [1, 17]: as many as `words`, as `bytes` has whole words, and as lie in the page of the
    /// address. It says how many. Each is a load, or a store of its word of `bytes`, the highest byte first; of loads `bytes`
    /// says no more than how many there may be. Later turns of the node ask for their replies, one each. The node is one of
    /// the world's.
    ///
    /// Where that is none, nothing was done. So it is where the first word need not wait, as its page is there or it is no word
    /// of the heap: then [`World::hand`] of a call serves it. So it is, too, where the node may make no call, which
    /// [`World::is_free`] says, and where the calls or their addresses can't be counted in 64 bits.
    ///
    /// A refused row was not made, and changes nothing. It is 17 only where there are calls to make and their turn would need
    /// a message number above the greatest one, and else 1, which can come before it is known that there is none.
    ///
    /// It is those calls handed in, in one row, and one [`World::run`] of a turn, of which all is promised that is of any move.
    pub fn hand_block(
        &mut self,
        node: u64,
        kind: Row,
        addr: u64,
        words: usize,
        bytes: &[u8],
    ) -> Result<usize, Fault>
        requires node { node < self.old.config.nodes }
        ensures done { MatchResult result (λ n. BeginsBlock node (calls_of (row kind 0 addr (numbers_in n bytes.now))) self.old self.new) (λ _. self.new ≡ self.old) }
        ensures many { IfOk result (λ k. IfSome (slice_get self.old.world.nodes node) (λ n. MayCallTogether n.core.process n.core.history addr (length bytes.now) → k ≡ words_together self.old.config n.core.memory kind addr words (length bytes.now))) }
        ensures busy { IfSome (slice_get self.old.world.nodes node) (λ n. (MayCallTogether n.core.process n.core.history addr (length bytes.now) → ⊥) → MatchResult result (λ k. k ≡ 0) IsMemory) }
        ensures cause { IfErr result (λ fault. IfSome (slice_get self.old.world.nodes node) (λ n. IsRefusedBlock node (calls_of (row kind 0 addr (numbers_in (words_together self.old.config n.core.memory kind addr words (length bytes.now)) bytes.now))) self.old fault)) }
        ensures fits { IfOk result (λ n. (n ≤ words) × (8 * n ≤ length bytes.now)) }
        ensures keeps { Keeps self.new }
        ensures want { IfErr result RanOut }
    {
        let result = self.hand_over_block(node, kind, addr, words, bytes);
        self.keeps();
        result
    }

    /// Has the node's site make those calls.
    fn hand_over_block(
        &mut self,
        node: u64,
        kind: Row,
        addr: u64,
        words: usize,
        bytes: &[u8],
    ) -> Result<usize, Fault>
        requires node { node < self.old.config.nodes }
        ensures done { MatchResult result (λ n. BeginsBlock node (calls_of (row kind 0 addr (numbers_in n bytes.now))) self.old self.new) (λ _. self.new ≡ self.old) }
        ensures many { IfOk result (λ k. IfSome (slice_get self.old.world.nodes node) (λ n. MayCallTogether n.core.process n.core.history addr (length bytes.now) → k ≡ words_together self.old.config n.core.memory kind addr words (length bytes.now))) }
        ensures busy { IfSome (slice_get self.old.world.nodes node) (λ n. (MayCallTogether n.core.process n.core.history addr (length bytes.now) → ⊥) → MatchResult result (λ k. k ≡ 0) IsMemory) }
        ensures cause { IfErr result (λ fault. IfSome (slice_get self.old.world.nodes node) (λ n. IsRefusedBlock node (calls_of (row kind 0 addr (numbers_in (words_together self.old.config n.core.memory kind addr words (length bytes.now)) bytes.now))) self.old fault)) }
        ensures fits { IfOk result (λ n. (n ≤ words) × (8 * n ≤ length bytes.now)) }
        ensures want { IfErr result RanOut }
    {
        begin_block(
            &mut self.sites,
            &mut self.sent,
            node,
            kind,
            addr,
            words,
            bytes,
        )
    }

    /// The call that a node has in progress; the node is one of the world's. It takes no memory.
    pub fn asked(&self, node: u64) -> Option<Call>
        requires { node < self.now.config.nodes }
        ensures { IfSome (slice_get self.now.world.nodes node) (λ n. result ≡ n.core.memory.asked) }
    {
        self.sites[node as usize].asked()
    }

    /// Whether no call was made along with the one that a node has in progress; the node is one of the world's. It takes no
    /// memory.
    pub fn is_alone(&self, node: u64) -> bool
        requires { node < self.now.config.nodes }
        ensures { IfSome (slice_get self.now.world.nodes node) (λ n. IsTrue result ↔ (n.core.memory.along ≡ [])) }
    {
        self.sites[node as usize].is_alone()
    }

    /// The count and the least value of the await that a node has in progress, where its call in progress is one; the
    /// node is one of the world's. It takes no memory.
    pub fn waits(&self, node: u64) -> Option<(u64, u64)>
        requires { node < self.now.config.nodes }
        ensures { IfSome (slice_get self.now.world.nodes node) (λ n. result ≡ await_in n.core.memory.asked) }
    {
        self.sites[node as usize].waits()
    }

    /// Makes one move, or changes nothing [1, 17, 19]. It says whether it did anything, which a turn alone may not. What
    /// [`World::keeps`] says holds of the world after it, too.
    pub fn make(&mut self, step: Move) -> Result<bool, Fault>
        ensures stays { IsSameRun self.old self.new }
        ensures ok { OnOk result (Moves (host_rules managed_ops) self.old.config self.old.world step self.new.world) }
        ensures idle { result ≡ Ok false → DoesNothing self.old.world step × (self.new ≡ self.old) }
        ensures did { result ≡ Ok true → DoesSomething self.old.world step }
        ensures err { OnErr result (self.new ≡ self.old) }
        ensures cause { IfErr result (λ fault. IsRefusedBy self.old.config self.old.world fault (Some step)) }
        ensures named { IsNamedUnless self.old.world result step }
    {
        let did = make(&mut self.sites, &mut self.sent, &self.config, step)?;
        Ok(did)
    }

    /// What holds of a world that was reached.
    fn reached(&self)
        ensures limits { IsConfig self.now.config }
        ensures each { length self.now.programs ≡ self.now.config.nodes }
        ensures nodes { length self.now.world.nodes ≡ self.now.config.nodes }
        ensures reached { IsReached self.now }
    {
        // for the proof: what holds of every value of this type.
        let _ = &self.config;
    }

    /// Makes the moves in order, up to the first that is refused, whose place is given with its fault. The moves
    /// before it were made, and it changed nothing.
    fn make_each(&mut self, moves: &[Move]) -> Result<(), (usize, Fault)>
        ensures stays { IsSameRun self.old self.new }
        ensures made { IsLedTo self.old.config self.old.world (made_of result moves.now) self.new.world }
        ensures refused { IsRefusedAt result moves.now self.new }
        ensures named { IsNamedAt result moves.now self.new }
    {
        for (place, step) in moves.iter().enumerate() {
            if let Err(fault) = self.make(*step) {
                return Err((place, fault));
            }
        }
        Ok(())
    }

    /// What holds of a world at every moment. It takes no memory.
    ///
    /// No page is writable at one node and readable at another; each history is a run of its program, and each
    /// output what that run printed; no node has met a message that fits no rule; each string sent spells a
    /// frame; the world follows one in which each message is delivered once and in order, whoever waits there has
    /// its message, and routes lead to each page; and whatever moves led here from the opening, at each of them one
    /// order of records explains what the nodes were answered, growing from move to move. And where nothing is under
    /// way, no page, owner, hint or lock blocks a node, whatever the others do.
    pub fn keeps(&self)
        ensures { Keeps self.now }
    {
        self.reached();
    }

    /// Makes the moves in order, up to the first that is refused, whose place is given with its fault
    /// [1, 17, 19]. The moves before it were made, and it changed nothing. It is 19 exactly where the move names
    /// a node or a string that is not there, or a pulse to its own node.
    pub fn run(&mut self, moves: &[Move]) -> Result<(), (usize, Fault)>
        // The world is the same one, and exactly the moves before the refused one were made.
        ensures stays { IsSameRun self.old self.new }
        ensures made { IsLedTo self.old.config self.old.world (made_of result moves.now) self.new.world }
        ensures refused { IsRefusedAt result moves.now self.new }
        ensures named { IsNamedAt result moves.now self.new }

        // Some moves led from the opening to the world before the call.
        ensures began { IsReached self.old }

        // Whatever moves led from the opening to the world before the call, those made lead on, and at each
        // moment of all of them one order of records explains what the nodes were answered, growing from move to
        // move.
        ensures explained { IsExplainedOn self.old (made_of result moves.now) self.new }

        // And what is promised at every moment holds: `reached`, `exclusive`, `runs`, `no_breach`, `spelled`,
        // `ordered`, `waits`, `routes`, `explained`, `quiet` and `still`.
        ensures keeps { Keeps self.new }
    {
        self.reached();
        let result = self.make_each(moves);
        self.keeps();
        result
    }

    /// Whether all that nodes sent to each other was delivered. It takes no memory.
    pub fn is_delivered(&self) -> bool
        ensures { IsTrue result ↔ HasNothingUnderWay self.now.world }
    {
        is_delivered(&self.sites, &self.config)
    }

    /// The next move of a round. It is of what is there.
    fn next_move(&mut self, round: Round) -> Move
        requires { round.turn < self.old.config.nodes }
        ensures same { self.new ≡ self.old }
        ensures named { is_named self.old.world result ≡ true }
        ensures next { IsRoundMove self.old.config self.old.world round.turn result }
    {
        next_move(&self.sites, &self.sent, &mut self.passed, round)
    }

    /// The delivery of the first string that is under way, where one is: its destination awaits it. It takes no memory.
    pub fn next_delivery(&mut self) -> Option<Move>
        ensures same { self.new ≡ self.old }
        ensures comes { IfSome result (IsComing self.old.config self.old.world) }
        ensures none { IfNone result (NoneComes self.old.config self.old.world (length self.old.world.sent)) }
    {
        self.reached();
        match self.next_move(Round::first()) {
            Move::Turn(_) => None,
            step => Some(step),
        }
    }

    /// Makes the next move of a round, or changes nothing. It says whether the world stands still.
    fn settle_once(&mut self, round: &mut Round) -> Result<bool, Fault>
        requires limits { IsConfig self.old.config }
        requires round { IsInRound self.old round.old }
        ensures stays { IsSameRun self.old self.new }
        ensures made { OnOk result (HasMadeOne self.old self.new) }
        ensures round { OnOk result (IsInRound self.new round.new) }
        ensures still { result ≡ Ok true → StandsStill self.new }
        ensures rests { result ≡ Ok false → StaysStill self.old round.old self.new round.new }
        ensures refused { IfErr result (λ fault. RanOut fault × (self.new ≡ self.old) × HasRefusedOne self.new fault) }
    {
        self.keeps();
        let step = self.next_move(*round);
        let stirred = self.make(step)?;
        self.reached();
        *round = round.after(step, stirred);
        if round.turn < self.nodes() {
            return Ok(false);
        }
        let is_still = !round.stirred && self.is_delivered();
        *round = Round::first();
        Ok(is_still)
    }

    /// Goes through rounds for so many moves, or until the world stands still.
    fn settle_on(&mut self, moves: u64) -> Result<Rest, (u64, Fault)>
        requires limits { IsConfig self.old.config }
        ensures stays { IsSameRun self.old self.new }
        ensures made { HasSettledBy moves result self.old self.new }
        ensures still { result ≡ Ok Rest.Still → StandsStill self.new }
        ensures found { IsFoundStill moves result self.old }
        ensures want { IfErr result (λ e. RanOut e.1) }
    {
        let mut round = Round::first();
        for made in 0..moves {
            match self.settle_once(&mut round) {
                Ok(false) => {}
                Ok(true) => return Ok(Rest::Still),
                Err(fault) => return Err((made, fault)),
            }
        }
        Ok(Rest::Going)
    }

    /// Lets the world come to rest, with at most so many moves: it delivers what is under way, in the order sent, until
    /// nothing is, gives each node a turn, and begins again, until nothing is under way and none of the turns
    /// changed anything. A move that is refused changes nothing, and its fault is given with the number of moves
    /// made before it [1, 17].
    ///
    /// A turn that changes nothing is a move as well, so a world of n nodes that stands still is found so after
    /// n moves.
    pub fn settle(&mut self, moves: u64) -> Result<Rest, (u64, Fault)>
        // It is the same world. There are moves, at most so many, of which all holds that `run` says of its moves;
        // and as many where the world is still going.
        ensures stays { IsSameRun self.old self.new }
        ensures began { IsReached self.old }
        ensures made { Settles moves result self.old self.new }
        ensures want { IfErr result (λ e. RanOut e.1) }
        ensures keeps { Keeps self.new }

        // At `Rest::Still` nothing is under way, and no node's turn does anything: its program has ended, or its call in
        // progress waits. And some legal order has exactly each node's history as its part, in whose last memory each
        // call in progress is an await of a count that is below its least value.
        ensures still { result ≡ Ok Rest.Still → HasSettled self.new }

        // A world of n nodes that stands still is found so by n moves.
        ensures found { IsFoundStill moves result self.old }
    {
        self.reached();
        let result = self.settle_on(moves);
        self.keeps();
        result
    }
}
