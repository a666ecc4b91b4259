//! A node that notes each event that it makes in lines for its log.
ghost use Rattle.std.specs.Prelude.{IfSome, ◌≡◌, ◌↔◌, ◌++◌, ◌<◌, [], length, IfOk, IsTrue, MatchBool, None, OnOk};
ghost use Rattle.std.specs.Io.KnownBytes.{Appends};
ghost use Rattle.ivy_model.specs.stated.Config.{IsConfig};
ghost use Rattle.ivy_model.specs.stated.Legal.{HasWidth};
ghost use Rattle.ivy_program.specs.OwnCode.{IsFree};
ghost use Rattle.ivy_moves.specs.declared.keep.Keep.TheVariants.{Nothing};
ghost use Rattle.ivy_logs.specs.Printed.{head_line, head_line_of_run};
ghost use Rattle.ivy_logs.specs.Entries.{entry_line};
ghost use Rattle.ivy_host.specs.declared.opening.Opening.TheVariants.{Configured};
ghost use Rattle.ivy_site.specs.Sites.{first_keeping, first_opened, GoesAsFar};
ghost use Rattle.ivy_join.specs.Remade.{IsAnsweredLast};
ghost use Rattle.ivy_process.specs.NodeLogs.{head_of, is_steady, AddsEvents, IsEmptied, IsLogged, IsMadeAgain, IsRestarted, Takes, TakesLine, served, value_lines};
ghost use Rattle.ivy_process.specs.OwnNodes.{IsOpened, NotesAnswer, NotesCall, NotesFetch};

use crate::failure::NodeFailure;
use crate::limits::{NodeLimits, Untaken};
use crate::peers::Peers;
use crate::sites::{make_turns, push_frames};
use crate::streams::write_through;
use crate::watch::{CallWatch, Unwatched};
use ivy_calls::Answer;
use ivy_join::{opening_by, replay};
use ivy_link::MOST_AHEAD;
use ivy_logs::{
    Log, LogEntry, LogHead, LogKind, SumLine, parse_frame, parse_sum_line, push_entry, push_head,
    push_head_of_run, push_sum_line,
};
use ivy_model::{Call, Config, Fault, Reply};
use ivy_moves::{Event, Keep};
use ivy_program::Program;
use ivy_site::{Opening, Site, Verdict};
use ivy_texts::print_output;
use ivy_wire::{Bytes, read_frame};
use std::alloc::Global;
use std::io::{self, Write};
use std::marker::Model;
use std::str;

/// One node of a shared memory, which keeps no list of its past: its log has it.
///
/// What ends one is proved here, once, and not again in each crate that has one.
pub struct Node {
    alloc: Global,
    site: Site<Global>,
    limits: NodeLimits,
    /// How many turns its program may make still.
    left: u64,
    /// The sum of its run, which it tells its peers; own code has none.
    sum: Option<u64>,
    peers: Peers,
    bad_lines: u64,
    no_frames: u64,
    /// The lines of the events that the log lacks.
    lines: String,
    /// The lines of frames that go out once the log has these.
    frames: String,
    /// How many values of its output were printed.
    printed: usize,
    /// How many of its calls were refused.
    refused: u64,
}

impl Drop for Node {
    fn drop(self) {
        let Node {
            alloc: _,
            site: _,
            limits: _,
            left: _,
            sum: _,
            peers: _,
            bad_lines: _,
            no_frames: _,
            lines: _,
            frames: _,
            printed: _,
            refused: _,
        } = self;
    }
}

impl Model for Node {
    ghost use Rattle.std.specs.Prelude.{string_bytes};
    ghost use Rattle.ivy_process.specs.NodeLogs.{Served, served};
    ghost use Rattle.std.specs.Coded.{codes};
    ghost use Rattle.ivy_pagetable.specs.stated.NodeSets.{nodes_code};
    ghost use Rattle.ivy_alloc.specs.Heap.{heap_state_code};

    ghost Value = { Served };

    ghost coded = { Prim.hlevel (codes, nodes_code, heap_state_code) };

    ghost view = { λ n. served n.site (string_bytes n.lines) n.left n.printed };
}

/// Whether a node began with steady hints.
fn is_steady(opening: Opening) -> bool
    ensures { result ≡ is_steady opening }
{
    match opening {
        Opening::Configured => false,
        Opening::Steady => true,
    }
}

impl Node {
    /// The node of this number at the beginning of its program.
    pub fn start(
        alloc: Global,
        config: &Config,
        me: u8,
        program: Program<Global>,
        limits: NodeLimits,
    ) -> Result<Node, NodeFailure>
        requires limits { IsConfig config.now }
        requires here { me < config.now.nodes }
        ensures { IfOk result (λ node. node ≡ served (first_keeping Nothing config.now me program) [] limits.turns 0) }
    {
        Node::start_opened(alloc, config, me, Opening::Configured, program, limits)
    }

    /// The same, of a node that begins so: by the manager that the configuration names, or by steady hints.
    pub fn start_opened(
        alloc: Global,
        config: &Config,
        me: u8,
        opening: Opening,
        program: Program<Global>,
        limits: NodeLimits,
    ) -> Result<Node, NodeFailure>
        requires limits { IsConfig config.now }
        requires here { me < config.now.nodes }
        ensures { IfOk result (λ node. node ≡ served (first_opened opening Nothing config.now me program) [] limits.turns 0) }
    {
        let site = Site::opened(alloc, config, me, opening, program, Keep::Nothing)?;
        Node::at_beginning(alloc, site, limits)
    }

    /// The node with own code of this log, as it was when its log ended; where that has no entry, it has made no call
    /// yet. It is what the events of the log make of it, and its code has made the calls of the log and had its pages
    /// fetched ahead. Nothing that the events sent is sent again, but for what pulses bring.
    pub fn open(alloc: Global, log: &Log<Global>, limits: NodeLimits) -> Result<Node, NodeFailure>
        requires limits { IsConfig log.now.head.config }
        requires here { log.now.head.me < log.now.head.config.nodes }
        ensures { IfOk result (λ node. IsOpened log.now.head log.now.entries.items limits.turns node) }
    {
        let LogHead { me, config, steady } = log.head;
        let site = Site::open_by(alloc, &config, me, opening_by(steady), Keep::Nothing)?;
        Node::at_end(alloc, site, limits, log)
    }

    /// The node of a site whose program is at its beginning.
    fn at_beginning(
        alloc: Global,
        site: Site<Global>,
        limits: NodeLimits,
    ) -> Result<Node, NodeFailure>
        ensures { IfOk result (λ node. node ≡ served site [] limits.turns 0) }
    {
        let peers = Peers::new(alloc, site.config().nodes)?;
        Ok(Node {
            alloc,
            site,
            limits,
            left: limits.turns,
            sum: None,
            peers,
            bad_lines: 0,
            no_frames: 0,
            lines: String::new(alloc),
            frames: String::new(alloc),
            printed: 0,
            refused: 0,
        })
    }

    /// The node of this number as it was when its log ended: it is what the events of the log make of it. Nothing that they
    /// sent is sent again, but for what pulses bring.
    pub fn restart(
        alloc: Global,
        config: &Config,
        me: u8,
        program: Program<Global>,
        limits: NodeLimits,
        log: &Log<Global>,
    ) -> Result<Node, NodeFailure>
        requires limits { IsConfig config.now }
        requires here { me < config.now.nodes }
        ensures { IfOk result (λ node. IsRestarted Configured config.now me program log.now.entries.items limits.turns node) }
    {
        Node::restart_opened(alloc, config, me, Opening::Configured, program, limits, log)
    }

    /// The same, of a node that began so: by the manager that the configuration names, or by steady hints.
    pub fn restart_opened(
        alloc: Global,
        config: &Config,
        me: u8,
        opening: Opening,
        program: Program<Global>,
        limits: NodeLimits,
        log: &Log<Global>,
    ) -> Result<Node, NodeFailure>
        requires limits { IsConfig config.now }
        requires here { me < config.now.nodes }
        ensures { IfOk result (λ node. IsRestarted opening config.now me program log.now.entries.items limits.turns node) }
    {
        // for the proof: the program is written down, so that a log adds no call to it.
        let _ = program.instructions();
        let site = Site::opened(alloc, config, me, opening, program, Keep::Nothing)?;
        Node::at_end(alloc, site, limits, log)
    }

    /// The node of a site whose program is at its beginning, as it was when its log ended.
    fn at_end(
        alloc: Global,
        site: Site<Global>,
        limits: NodeLimits,
        log: &Log<Global>,
    ) -> Result<Node, NodeFailure>
        requires { site.events ≡ [] }
        ensures { IfOk result (λ node. IsMadeAgain log.now.entries.items site limits.turns node) }
    {
        let mut node = Node::at_beginning(alloc, site, limits)?;
        if let Err(why) = replay(&mut node.site, &log.entries) {
            return Err(NodeFailure::of_replay(why, &log.lines));
        }
        node.learn_acknowledged(log);
        Ok(node)
    }

    /// What the strings that a log delivers acknowledge.
    fn learn_acknowledged(&mut self, log: &Log<Global>)
        ensures { self.new ≡ self.old }
    {
        for entry in &log.entries {
            if let LogEntry::Did(Event::Delivered(string)) = entry {
                let _ = self.heed(string.bytes());
            }
        }
    }

    /// The number of the node.
    pub fn me(&self) -> u8
        ensures { result ≡ self.now.site.me }
    {
        self.site.me()
    }

    /// Whether its program has ended.
    pub fn ended(&self) -> bool {
        self.site.ended()
    }

    /// The call that it has in progress.
    pub fn asked(&self) -> Option<Call>
        ensures { result ≡ self.now.site.node.core.memory.asked }
    {
        self.site.asked()
    }

    /// How many of its calls were refused since it was made.
    pub fn refused(&self) -> u64 {
        self.refused
    }

    /// What it may use.
    pub fn limits(&self) -> NodeLimits {
        self.limits
    }

    /// What it did not take.
    pub fn told(&self) -> Untaken {
        Untaken {
            bad_lines: self.bad_lines,
            no_frames: self.no_frames,
            others: self.peers.others(),
        }
    }

    /// It tells its peers that its run has this sum, each until a frame of it has come, ever more rarely, and takes no frame
    /// more of one that tells it another.
    pub fn tell_sum(&mut self, sum: u64)
        ensures { self.new ≡ self.old }
    {
        self.sum = Some(sum);
    }

    /// What a string acknowledges counts, where it is for this node and its sender runs what this one does. It gives the
    /// sender, or none where the string spells no frame of this configuration.
    fn heed(&mut self, string: &[u8]) -> Option<u8>
        ensures { self.new ≡ self.old }
    {
        let config = self.site.config();
        let Ok(frame) = read_frame(&config, string) else {
            return None;
        };
        if frame.dest == self.site.me() && !self.peers.is_other(frame.source) {
            self.peers.acknowledge(frame.source, frame.ack);
        }
        Some(frame.source)
    }

    /// Notes what the node did, called, had fetched ahead or was answered.
    fn note(&mut self, entry: LogEntry<Bytes<Global>>) -> Result<(), NodeFailure>
        ensures { OnOk result (self.new ≡ served self.old.site (self.old.unlogged ++ entry_line entry) self.old.left self.old.told) }
    {
        push_entry(self.alloc, &mut self.lines, &entry)?;
        Ok(())
    }

    /// Goes on with the strings of a node that it holds, one after another, until none of them is the next one.
    fn go_on(&mut self, from: u8) -> Result<(), NodeFailure>
        requires { from < self.old.site.config.nodes }
        ensures on { OnOk result (AddsEvents self.old self.new) }
        ensures far { OnOk result (GoesAsFar from None self.old.site self.new.site) }
    {
        for _ in 0..MOST_AHEAD {
            let Some(string) = self.site.go_on_with(from)? else {
                return Ok(());
            };
            self.note(LogEntry::Did(Event::Delivered(string)))?;
        }
        Ok(())
    }

    /// A string comes. A frame for another node is left alone.
    fn deliver(&mut self, string: Bytes<Global>) -> Result<(), NodeFailure>
        ensures on { OnOk result (AddsEvents self.old self.new) }
        ensures taken { OnOk result (Takes string self.old self.new) }
    {
        let (verdict, from) = self.site.deliver_alone(&string)?;
        if verdict == Verdict::NotMine {
            return Ok(());
        }
        self.note(LogEntry::Did(Event::Delivered(string)))?;
        if verdict == Verdict::Next {
            self.go_on(from)?;
        }
        Ok(())
    }

    /// Whether a string is to be taken: it spells a frame of this configuration, and its sender runs what this node does. One
    /// that spells none is counted.
    fn is_welcome(&mut self, string: &[u8]) -> bool
        ensures { self.new ≡ self.old }
    {
        let Some(from) = self.heed(string) else {
            self.no_frames = self.no_frames.saturating_add(1);
            return false;
        };
        if self.peers.is_other(from) {
            return false;
        }
        self.peers.note_frame(from);
        true
    }

    /// The string of a line comes.
    fn take(&mut self, bytes: Vec<u8>) -> Result<(), NodeFailure>
        ensures on { OnOk result (AddsEvents self.old self.new) }
        ensures taken { OnOk result (Takes bytes.items self.old self.new) }
    {
        let string = Bytes::from_vec(self.alloc, bytes)?;
        if self.is_welcome(string.bytes()) {
            return self.deliver(string);
        }
        Ok(())
    }

    /// A node tells the sum of its run.
    fn learn_sum(&mut self, line: SumLine)
        ensures { self.new ≡ self.old }
    {
        match u8::try_from(line.from) {
            Ok(from) if from < self.site.config().nodes => {
                if self.sum.is_some_and(|sum| sum != line.sum) {
                    self.peers.note_other(from);
                }
            }
            _ => self.no_frames = self.no_frames.saturating_add(1),
        }
    }

    /// A line without a frame comes: it tells a sum, or is counted.
    fn hear_other(&mut self, line: &[u8])
        ensures { self.new ≡ self.old }
    {
        let told = match str::from_utf8(line) {
            Ok(line) => parse_sum_line(line),
            Err(_) => None,
        };
        match told {
            Some(told) if told.to != u64::from(self.site.me()) => {}
            Some(told) => self.learn_sum(told),
            None => self.bad_lines = self.bad_lines.saturating_add(1),
        }
    }

    /// A line comes. The string of a frame for this node is taken as the line spells it. A frame for another node is left
    /// alone; of other lines, one that tells a sum is heeded, and the rest are counted.
    pub fn hear(&mut self, line: &[u8]) -> Result<(), NodeFailure>
        ensures on { OnOk result (AddsEvents self.old self.new) }
        ensures taken { OnOk result (TakesLine line.now self.old self.new) }
    {
        match parse_frame(self.alloc, line)? {
            None => {
                self.hear_other(line);
                Ok(())
            }
            Some(frame) if frame.to == u64::from(self.site.me()) => self.take(frame.bytes),
            Some(_) => Ok(()),
        }
    }

    /// Makes so many turns at most, until one does nothing. It says how many did something. In all these are no more than its
    /// program may make.
    pub fn make_turns(&mut self, most: u64) -> Result<u64, NodeFailure>
        ensures { OnOk result (AddsEvents self.old self.new) }
    {
        self.make_watched_turns(most, &mut Unwatched)
    }

    /// The same, and each call that is answered is told.
    pub(crate) fn make_watched_turns<W: CallWatch>(
        &mut self,
        most: u64,
        watch: &mut W,
    ) -> Result<u64, NodeFailure>
        ensures { OnOk result (AddsEvents self.old self.new) }
    {
        if self.left == 0 && !self.site.ended() {
            return Err(NodeFailure::Refused(Fault::TurnLimit));
        }
        let made = make_turns(
            &mut self.site,
            most.min(self.left),
            &mut self.refused,
            watch,
        )?;
        self.left = self.left.saturating_sub(made);
        if made > 0 {
            self.note(LogEntry::Did(Event::Turns(made)))?;
        }
        Ok(made)
    }

    /// Writes the lines of the frames that wait.
    fn take_frames(&mut self) -> Result<(), NodeFailure>
        ensures { OnOk result (IsEmptied self.old self.new) }
    {
        push_frames(self.alloc, &mut self.site, &mut self.frames)
    }

    /// A pulse to a node, where it is another one.
    fn pulse_to(&mut self, to: u8) -> Result<(), NodeFailure>
        ensures { OnOk result (AddsEvents self.old self.new) }
    {
        if to >= self.site.config().nodes || to == self.site.me() {
            return Ok(());
        }
        self.take_frames()?;
        self.site.pulse(to)?;
        if self.site.has_frame() {
            self.note(LogEntry::Did(Event::Pulsed(to)))?;
        }
        Ok(())
    }

    /// Writes the line by which it tells a node its sum, where a frame of that one did not come yet.
    fn push_sum(&mut self, sum: u64, to: u8) -> Result<(), NodeFailure>
        ensures { self.new ≡ self.old }
    {
        let me = self.site.me();
        if to == me || self.peers.has_come(to) {
            return Ok(());
        }
        let line = SumLine {
            to: u64::from(to),
            from: u64::from(me),
            sum,
        };
        push_sum_line(&mut self.frames, line)?;
        Ok(())
    }

    /// Writes these lines for all nodes, if it has a sum and this pulse is to bring it. They stand before the frames that
    /// wait.
    fn push_sums(&mut self) -> Result<(), NodeFailure>
        ensures { self.new ≡ self.old }
    {
        let Some(sum) = self.sum else {
            return Ok(());
        };
        if !self.peers.may_tell() {
            return Ok(());
        }
        for to in 0..self.site.config().nodes {
            self.push_sum(sum, to)?;
        }
        Ok(())
    }

    /// Pulses to each other node. The first pulse, the second, the fourth and so on, and each 1,024th, tell its sum to each
    /// node of which no frame came yet.
    pub fn pulse(&mut self) -> Result<(), NodeFailure>
        ensures { OnOk result (AddsEvents self.old self.new) }
    {
        self.push_sums()?;
        for to in 0..self.site.config().nodes {
            self.pulse_to(to)?;
        }
        Ok(())
    }

    /// Goes on with each string that it holds and that is the next one now. A node that was killed may have such strings.
    pub fn go_on_all(&mut self) -> Result<(), NodeFailure>
        ensures { OnOk result (AddsEvents self.old self.new) }
    {
        for from in 0..self.site.config().nodes {
            // for the proof: there are as many nodes as before.
            if from < self.site.config().nodes {
                self.go_on(from)?;
            }
        }
        Ok(())
    }

    /// Whether no more messages for one node are kept than may be.
    pub fn check_kept(&self) -> Result<(), NodeFailure> {
        for to in 0..self.site.config().nodes {
            let acknowledged = self.peers.acknowledged(to);
            let kept = self.site.sent_to(to).saturating_sub(acknowledged);
            if kept > self.limits.kept {
                return Err(NodeFailure::Kept(to));
            }
        }
        Ok(())
    }

    /// What the first line of its log says of it.
    fn head(&self) -> LogHead
        ensures { result ≡ head_of self.now.site }
    {
        LogHead {
            me: self.site.me(),
            config: self.site.config(),
            steady: is_steady(self.site.opening()),
        }
    }

    /// Writes the first line of its log, which is of this kind and names no sum.
    pub fn begin_log<L: Write>(&self, kind: LogKind, log: &mut L) -> Result<(), NodeFailure>
        ensures { OnOk result (Appends (L.contents log.old) (L.contents log.new) (head_line kind (head_of self.now.site))) }
    {
        let mut text = String::new(self.alloc);
        push_head(&mut text, kind, &self.head())?;
        write_through(log, text.as_str(), NodeFailure::Unlogged)
    }

    /// Writes the first line of the log of its program, which names the sum of its run.
    pub fn begin_log_of_run<L: Write>(&self, sum: u64, log: &mut L) -> Result<(), NodeFailure>
        ensures { OnOk result (Appends (L.contents log.old) (L.contents log.new) (head_line_of_run (head_of self.now.site) sum)) }
    {
        let mut text = String::new(self.alloc);
        push_head_of_run(&mut text, &self.head(), sum)?;
        write_through(log, text.as_str(), NodeFailure::Unlogged)
    }

    /// Whether each call of its code has its reply, so that it may make one.
    pub(crate) fn is_free(&self) -> bool
        ensures { IsTrue result ↔ IsFree self.now.site.node.core.process }
    {
        self.site.is_free()
    }

    /// Its code makes a call, which is noted, where the call before has its reply.
    pub(crate) fn ask(&mut self, call: Call) -> Result<(), NodeFailure>
        requires { HasWidth call }
        ensures { OnOk result (NotesCall call self.old self.new) }
    {
        if !self.is_free() {
            return Err(NodeFailure::Unanswered);
        }
        self.site.hand(call)?;
        self.note(LogEntry::Asked(call))
    }

    /// The page of an address, where there is one.
    pub(crate) fn page_at(&self, addr: u64) -> Option<u32>
        ensures { IfSome result (λ page. page < self.now.site.config.pages) }
    {
        let config = self.site.config();
        match u32::try_from(addr / u64::from(config.page_size)) {
            Ok(page) if page < config.pages => Some(page),
            _ => None,
        }
    }

    /// Its code has a page fetched ahead, to read or to write, in one of its turns, which is noted. It says whether the
    /// node asks for the page; else nothing is done, as by `Site::fetch`.
    pub fn fetch(&mut self, page: u32, write: bool) -> Result<bool, NodeFailure>
        ensures { IfOk result (λ begun. MatchBool begun (NotesFetch page write self.old self.new) (self.new ≡ self.old)) }
    {
        if self.left == 0 {
            return Err(NodeFailure::Refused(Fault::TurnLimit));
        }
        let begun = self.site.fetch(page, write)?;
        if begun {
            self.left -= 1;
            self.note(LogEntry::Fetched { page, write })?;
        }
        Ok(begun)
    }

    /// How many calls of its code were answered.
    pub(crate) fn answered(&self) -> u64
        ensures { result ≡ length self.now.site.node.core.history }
    {
        self.site.records()
    }

    /// The reply to this call of its code, where that is what it was answered last, after so many answers.
    fn reply_to(&self, call: Call, told: u64) -> Result<Reply, NodeFailure>
        ensures { IfOk result (λ reply. IsAnsweredLast told (record { call = call; reply = reply }) self.now.site.node.core.history) }
    {
        let Some(record) = self.site.last_record() else {
            return Err(NodeFailure::Unanswered);
        };
        if record.call != call {
            return Err(NodeFailure::Unanswered);
        }
        let before = self.site.records().saturating_sub(1);
        if before != told {
            return Err(NodeFailure::Unanswered);
        }
        Ok(record.reply)
    }

    /// The reply to this call of its code, which was answered so many before; it is noted.
    pub(crate) fn answer(&mut self, call: Call, told: u64) -> Result<Reply, NodeFailure>
        ensures { IfOk result (λ reply. NotesAnswer told call reply self.old self.new) }
    {
        let reply = self.reply_to(call, told)?;
        self.note(LogEntry::Answered(Answer { call, reply }))?;
        Ok(reply)
    }

    /// Writes what the log lacks.
    fn write_log<L: Write>(&mut self, log: &mut L) -> Result<(), NodeFailure>
        ensures { OnOk result (IsLogged self.old self.new (L.contents log.old) (L.contents log.new)) }
    {
        if self.lines.is_empty() {
            return Ok(());
        }
        write_through(log, self.lines.as_str(), NodeFailure::Unlogged)?;
        self.lines.clear();
        Ok(())
    }

    /// Writes the frames that wait.
    fn send<O: Write>(&mut self, out: &mut O) -> Result<(), NodeFailure>
        ensures { OnOk result (IsEmptied self.old self.new) }
    {
        self.take_frames()?;
        if self.frames.is_empty() {
            return Ok(());
        }
        write_through(out, self.frames.as_str(), NodeFailure::Unwritten)?;
        self.frames.clear();
        Ok(())
    }

    /// Tells of the values that the program printed since the last time. None is told twice, also where the stream takes no
    /// more: the log has what led to it, so it is told after a new start.
    fn print<E: Write>(&mut self, err: &mut E) -> io::Result<()>
        ensures all { self.new ≡ record self.old { told = length self.old.site.node.core.process.state.output } }
        ensures tells { OnOk result (Appends (E.contents err.old) (E.contents err.new) (value_lines self.old)) }
    {
        let me = u64::from(self.site.me());
        let output = self.site.output();
        let told = self.printed;
        self.printed = output.len();
        match output.get(told..) {
            Some(values) => print_output(me, values, err),
            None => Ok(()),
        }
    }

    /// Whether a node has the sum of another run and that was not told; it is now.
    fn has_news(&mut self, node: u8) -> bool
        ensures { self.new ≡ self.old }
    {
        self.peers.take_news(node)
    }

    /// Tells of nodes that run something else, each once.
    fn tell_others<E: Write>(&mut self, err: &mut E)
        ensures { self.new ≡ self.old }
    {
        for node in 0..self.site.config().nodes {
            if self.has_news(node) {
                // The status tells of it too, where standard error takes nothing.
                let _ = writeln!(
                    err,
                    "node {}: node {node} has another program or configuration, so its frames are dropped",
                    self.site.me()
                );
            }
        }
    }

    /// Writes what the log lacks, and only then the frames that wait, and tells of what was printed. Where the log takes no
    /// more, nothing goes out.
    pub fn speak<L: Write, O: Write, E: Write>(
        &mut self,
        log: &mut L,
        out: &mut O,
        err: &mut E,
    ) -> Result<(), NodeFailure>
        ensures { OnOk result (IsLogged self.old self.new (L.contents log.old) (L.contents log.new)) }
    {
        self.write_log(log)?;
        self.send(out)?;
        // A stream that takes nothing ends no node.
        let _ = self.print(err);
        self.tell_others(err);
        Ok(())
    }
}
