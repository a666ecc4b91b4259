//! Logs, as they are read: what a node in a process of its own did, one entry a line.
ghost use Rattle.std.specs.Prelude.{◌≡◌, ◌*◌, ◌≤◌, ◌<◌, ◌^◌, ℕ, Bool, Option, List, [], ◌∷◌, codes, MatchBool, MatchOption, Ok, IsErr, length, IfOk, IfErr, IfNone, IfSome, IsOkUnless, map};
ghost use Rattle.std.specs.List.{AllZip};
ghost use Rattle.std.specs.Str.Lines.{lines};
ghost use Rattle.ivy_model.specs.declared.Kind.{Kind};
ghost use Rattle.ivy_model.specs.declared.Call.{Call};
ghost use Rattle.ivy_model.specs.declared.Reply.{Reply};
ghost use Rattle.ivy_model.specs.declared.Reply.TheVariants.{Value, Done, Refused};
ghost use Rattle.ivy_model.specs.stated.Legal.{HasWidth};
ghost use Rattle.ivy_program.specs.texts.Lines.{IsNumberWord};
ghost use Rattle.ivy_program.specs.texts.TextWords.{words_of};
ghost use Rattle.ivy_moves.specs.Events as events;
ghost use Rattle.ivy_calls.specs.declared.Answer.{Answer};
ghost use Rattle.ivy_texts.specs.Spelled.{worded, BeginsWith};
ghost use Rattle.ivy_logs.specs.Entries.{HasSum, answers_in, SpellsAnswered, SpellsDid, SpellsEntry, SpellsIn, SpellsLog};
ghost use Rattle.ivy_logs.specs.Faults.{HandsNothing, IsFaultAmong, IsFaultOfLog, IsHead, IsByte, IsEntry, IsEvent, IsReply, SpellsNone};
ghost use Rattle.ivy_logs.specs.declared.log.LogHead.{LogHead};
ghost use Rattle.ivy_logs.specs.Spelled.{fetch_word, log_word, IsManagerWord, HasWholeLines, MayHaveSum, SpellsConfig, SpellsFirst, SpellsHead, SpellsNode, SpellsEvent};
ghost use Rattle.ivy_logs.specs.Entries as entries;
ghost use Rattle.ivy_logs.specs.Digits.{IsHalf};
ghost use Rattle.hex.specs.Hex.{decode_of, decode_pairs};

use ivy_calls::Answer;
use ivy_model::{Call, Config, Fault, Kind, Reply};
use ivy_moves::Event;
use ivy_program::{few_words, parse_number};
use ivy_texts::{parse_byte, parse_call};
use ivy_wire::Bytes;
use std::alloc::{AllocError, Allocator};

/// The most words that a line of a log can have.
const MOST_WORDS: usize = 8;

/// Whose log it is.
#[derive(Clone, Copy, Debug, PartialEq, Eq)]
pub enum LogKind {
    /// A program's, `ivy log`: it has events alone.
    OfProgram,
    /// Own code's, `ivy own`: it has the calls of the code too, and what they were answered.
    OfOwnCode,
}

impl LogKind {
    /// The second word of the log's first line.
    pub(crate) fn word(self) -> &'static str
        ensures { result.now ≡ log_word self }
    {
        match self {
            LogKind::OfProgram => "log",
            LogKind::OfOwnCode => "own",
        }
    }
}

/// What the first line of a log says.
#[derive(Clone, Copy, Debug, PartialEq, Eq)]
pub struct LogHead {
    /// The node whose log it is.
    pub me: u8,
    /// What all nodes agreed on, which may be out of its limits.
    pub config: Config,
    /// Whether the nodes began with steady hints. Then the configuration names the dynamic manager.
    pub steady: bool,
}

/// The manager that a word names.
#[derive(Clone, Copy)]
struct Named {
    kind: Kind,
    steady: bool,
}

/// A log as its text gives it.
#[derive(Drop)]
pub struct Log<A: Allocator> {
    pub head: LogHead,
    /// The sum of its run, as [`sum_of_run`](crate::sum_of_run) makes it, where the first line names one.
    pub sum: Option<u64>,
    /// What the node did, called and was answered, in order.
    pub entries: Vec<LogEntry<Bytes<A>>, A>,
    /// The line of each entry, from 1.
    pub lines: Vec<u64, A>,
}

/// What a first line says.
#[derive(Clone, Copy)]
struct FirstLine {
    head: LogHead,
    sum: Option<u64>,
}

/// An entry of a log. `B` is a string of bytes.
#[derive(Debug, Drop)]
pub enum LogEntry<B> {
    /// An event of the node.
    Did(Event<B>),
    /// Its code made a call.
    Asked(Call),
    /// The call was answered.
    Answered(Answer),
    /// Its code had a page fetched ahead, to read or to write, and the node asked for it in a turn.
    Fetched { page: u32, write: bool },
}

/// What a digit stands for, in either case, or more than that.
fn half_of(digit: u8) -> u8
    ensures { IsHalf digit result }
{
    let number = digit.wrapping_sub(b'0');
    let letter = (digit | 32).wrapping_sub(b'a');
    if number < 10 {
        number
    } else {
        letter.saturating_add(10)
    }
}

/// Puts the bytes of digits in places of which there are half as many. Whether all were digits.
fn put_bytes(digits: &[u8], places: &mut [u8]) -> bool
    requires { length digits.now ≡ 2 * length places.old }
    ensures { MatchBool result (decode_pairs 0 digits.now ≡ Ok places.new) (IsErr (decode_pairs 0 digits.now)) }
{
    let mut all = 0u8;
    for at in 0..places.len() {
        let high = half_of(digits[2 * at]);
        let low = half_of(digits[2 * at + 1]);
        all = all | high | low;
        places[at] = (high << 4) | low;
    }
    all < 16
}

/// The bytes of digits, two for each, in either case, or none where these are no such digits. Err only where the
/// allocator has no memory.
pub fn bytes_of<A: Allocator>(alloc: A, digits: &[u8]) -> Result<Option<Vec<u8, A>>, AllocError>
    ensures { IfOk result (λ found. MatchOption found (IsErr (decode_of digits.now)) (λ bytes. decode_of digits.now ≡ Ok bytes.items)) }
{
    if digits.len() % 2 != 0 {
        return Ok(None);
    }
    let mut bytes = vec![in alloc; 0u8; digits.len() / 2]?;
    Ok(put_bytes(digits, bytes.as_mut_slice()).then_some(bytes))
}

/// How many answers entries have.
pub fn count_answers<A: Allocator>(entries: &[LogEntry<Bytes<A>>]) -> u64
    ensures { result ≡ length (answers_in entries.now) }
{
    let mut count = 0u64;
    for at in 0..entries.len() {
        if let LogEntry::Answered(_) = &entries[at] {
            count += 1;
        }
    }
    count
}

/// The event of turns, where the word is a number.
fn turns<A: Allocator>(count: &str) -> Option<Event<Bytes<A>>>
    ensures spelled { IfSome result (SpellsEvent (codes "turns" ∷ count.now ∷ [])) }
    ensures none { IfNone result ((e : events.Event) → IsEvent e → ¬ SpellsEvent (codes "turns" ∷ count.now ∷ []) e) }
{
    Some(Event::Turns(parse_number(count)?))
}

/// A pulse to the node of this number, where the word is one.
fn pulse<A: Allocator>(to: &str) -> Option<Event<Bytes<A>>>
    ensures spelled { IfSome result (SpellsEvent (codes "pulse" ∷ to.now ∷ [])) }
    ensures none { IfNone result ((e : events.Event) → IsEvent e → ¬ SpellsEvent (codes "pulse" ∷ to.now ∷ []) e) }
{
    Some(Event::Pulsed(parse_byte(to)?))
}

/// The delivery of the string that the word spells, where it does [1].
fn taken<A: Allocator + Copy>(alloc: A, digits: &str) -> Result<Option<Event<Bytes<A>>>, Fault>
    ensures spelled { IfOk result (λ o. IfSome o (SpellsEvent (codes "took" ∷ digits.now ∷ []))) }
    ensures none { IfOk result (λ o. IfNone o ((e : events.Event) → IsEvent e → ¬ SpellsEvent (codes "took" ∷ digits.now ∷ []) e)) }
    ensures memory { IsOkUnless result Fault.Memory }
{
    match bytes_of(alloc, digits.as_bytes())? {
        Some(bytes) => Ok(Some(Event::Delivered(Bytes::from_vec(alloc, bytes)?))),
        None => Ok(None),
    }
}

/// The event of a line of two words, where they are one [1].
fn named_event<A: Allocator + Copy>(
    alloc: A,
    keyword: &str,
    operand: &str,
) -> Result<Option<Event<Bytes<A>>>, Fault>
    ensures spelled { IfOk result (λ o. IfSome o (SpellsEvent (keyword.now ∷ operand.now ∷ []))) }
    ensures none { IfOk result (λ o. IfNone o ((e : events.Event) → IsEvent e → ¬ SpellsEvent (keyword.now ∷ operand.now ∷ []) e)) }
    ensures memory { IsOkUnless result Fault.Memory }
{
    match keyword {
        "turns" => Ok(turns(operand)),
        "took" => taken(alloc, operand),
        "pulse" => Ok(pulse(operand)),
        _ => Ok(None),
    }
}

/// The event of a line, where its words are one [1].
fn parse_event<A: Allocator + Copy>(
    alloc: A,
    words: &[&str],
) -> Result<Option<Event<Bytes<A>>>, Fault>
    ensures spelled { IfOk result (λ o. IfSome o (SpellsEvent (map (λ w. w.now) words.now))) }
    ensures none { IfOk result (λ o. IfNone o ((e : events.Event) → IsEvent e → ¬ SpellsEvent (map (λ w. w.now) words.now) e)) }
    ensures memory { IsOkUnless result Fault.Memory }
{
    // for the proof: each number of words but two has its own arm.
    match *words {
        [] => Ok(None),
        [_] => Ok(None),
        [keyword, operand] => named_event(alloc, keyword, operand),
        _ => Ok(None),
    }
}

/// The call that words name, where it was carried out and gave no number.
fn parse_done(words: &[&str]) -> Option<Answer>
    ensures spelled { IfSome result (λ a. SpellsAnswered (codes "done" ∷ map (λ w. w.now) words.now) a.call a.reply) }
    ensures none { IfNone result ((call : Call) (reply : Reply) → HasWidth call → IsReply reply → ¬ SpellsAnswered (codes "done" ∷ map (λ w. w.now) words.now) call reply) }
{
    Some(Answer {
        call: parse_call(words)?,
        reply: Reply::Done,
    })
}

/// A number, and the call that words name after it, which gave it.
fn parse_value(words: &[&str]) -> Option<Answer>
    ensures spelled { IfSome result (λ a. SpellsAnswered (codes "value" ∷ map (λ w. w.now) words.now) a.call a.reply) }
    ensures none { IfNone result ((call : Call) (reply : Reply) → HasWidth call → IsReply reply → ¬ SpellsAnswered (codes "value" ∷ map (λ w. w.now) words.now) call reply) }
{
    let (value, call) = words.split_first()?;
    Some(Answer {
        call: parse_call(call)?,
        reply: Reply::Value(parse_number(value)?),
    })
}

/// A fault's number, and the call that words name after it, which was refused with it.
fn parse_refused(words: &[&str]) -> Option<Answer>
    ensures spelled { IfSome result (λ a. SpellsAnswered (codes "refused" ∷ map (λ w. w.now) words.now) a.call a.reply) }
    ensures none { IfNone result ((call : Call) (reply : Reply) → HasWidth call → IsReply reply → ¬ SpellsAnswered (codes "refused" ∷ map (λ w. w.now) words.now) call reply) }
{
    let (code, call) = words.split_first()?;
    Some(Answer {
        call: parse_call(call)?,
        reply: Reply::Refused(parse_byte(code)?),
    })
}

/// What words say that was answered: the reply, and then the call.
fn parse_answer(words: &[&str]) -> Option<Answer>
    ensures spelled { IfSome result (λ a. SpellsAnswered (map (λ w. w.now) words.now) a.call a.reply) }
    ensures none { IfNone result ((call : Call) (reply : Reply) → HasWidth call → IsReply reply → ¬ SpellsAnswered (map (λ w. w.now) words.now) call reply) }
{
    let (kind, rest) = words.split_first()?;
    match *kind {
        "done" => parse_done(rest),
        "value" => parse_value(rest),
        "refused" => parse_refused(rest),
        _ => None,
    }
}

/// A call that words name after the first.
fn asked<A: Allocator>(words: &[&str]) -> Option<LogEntry<Bytes<A>>>
    ensures spelled { IfSome result (SpellsEntry (codes "call" ∷ map (λ w. w.now) words.now)) }
    ensures none { IfNone result ((e : entries.LogEntry) → IsEntry e → ¬ SpellsEntry (codes "call" ∷ map (λ w. w.now) words.now) e) }
{
    Some(LogEntry::Asked(parse_call(words)?))
}

/// What a page is fetched ahead for, by its word: whether to write.
fn parse_access(word: &str) -> Option<bool>
    ensures named { IfSome result (λ write. word.now ≡ fetch_word write) }
    ensures none { IfNone result ((write : Bool) → ¬ (word.now ≡ fetch_word write)) }
{
    match word {
        "read" => Some(false),
        "write" => Some(true),
        _ => None,
    }
}

/// A page that is fetched ahead, which words name after the first.
fn fetched<A: Allocator>(words: &[&str]) -> Option<LogEntry<Bytes<A>>>
    ensures spelled { IfSome result (SpellsEntry (codes "fetch" ∷ map (λ w. w.now) words.now)) }
    ensures none { IfNone result ((e : entries.LogEntry) → IsEntry e → ¬ SpellsEntry (codes "fetch" ∷ map (λ w. w.now) words.now) e) }
{
    // for the proof: each number of words but two has its own arm.
    match *words {
        [] => None,
        [_] => None,
        [access, page] => {
            let write = parse_access(access)?;
            let page = parse_size(page)?;
            Some(LogEntry::Fetched { page, write })
        }
        _ => None,
    }
}

/// An event of the node, or what it was answered, where words are that [1].
fn parse_came<A: Allocator + Copy>(
    alloc: A,
    words: &[&str],
) -> Result<Option<LogEntry<Bytes<A>>>, Fault>
    ensures spelled { IfOk result (λ o. IfSome o (SpellsEntry (map (λ w. w.now) words.now))) }
    ensures none { IfOk result (λ o. IfNone o ((e : entries.LogEntry) → IsEntry e → HandsNothing e → ¬ SpellsEntry (map (λ w. w.now) words.now) e)) }
    ensures memory { IsOkUnless result Fault.Memory }
{
    if let Some(answer) = parse_answer(words) {
        return Ok(Some(LogEntry::Answered(answer)));
    }
    match parse_event(alloc, words)? {
        Some(event) => Ok(Some(LogEntry::Did(event))),
        None => Ok(None),
    }
}

/// The entry of a line of own code, where its words are one [1].
fn parse_any<A: Allocator + Copy>(
    alloc: A,
    words: &[&str],
) -> Result<Option<LogEntry<Bytes<A>>>, Fault>
    ensures spelled { IfOk result (λ o. IfSome o (SpellsEntry (map (λ w. w.now) words.now))) }
    ensures none { IfOk result (λ o. IfNone o ((e : entries.LogEntry) → IsEntry e → ¬ SpellsEntry (map (λ w. w.now) words.now) e)) }
    ensures memory { IsOkUnless result Fault.Memory }
{
    match words.split_first() {
        Some((&"call", call)) => Ok(asked(call)),
        Some((&"fetch", page)) => Ok(fetched(page)),
        _ => parse_came(alloc, words),
    }
}

/// An event of the node, where words are that [1].
fn parse_did<A: Allocator + Copy>(
    alloc: A,
    words: &[&str],
) -> Result<Option<LogEntry<Bytes<A>>>, Fault>
    ensures spelled { IfOk result (λ o. IfSome o (SpellsDid (map (λ w. w.now) words.now))) }
    ensures none { IfOk result (λ o. IfNone o ((e : entries.LogEntry) → IsEntry e → ¬ SpellsDid (map (λ w. w.now) words.now) e)) }
    ensures memory { IsOkUnless result Fault.Memory }
{
    match parse_event(alloc, words)? {
        Some(event) => Ok(Some(LogEntry::Did(event))),
        None => Ok(None),
    }
}

/// The entry of a line, where its words are one that a log of this kind may have [1].
pub(crate) fn parse_entry<A: Allocator + Copy>(
    alloc: A,
    kind: LogKind,
    words: &[&str],
) -> Result<Option<LogEntry<Bytes<A>>>, Fault>
    ensures spelled { IfOk result (λ o. IfSome o (SpellsIn kind (map (λ w. w.now) words.now))) }
    ensures none { IfOk result (λ o. IfNone o (SpellsNone kind (map (λ w. w.now) words.now))) }
    ensures memory { IsOkUnless result Fault.Memory }
{
    match kind {
        LogKind::OfOwnCode => parse_any(alloc, words),
        LogKind::OfProgram => parse_did(alloc, words),
    }
}

/// A number of four bytes.
fn parse_size(word: &str) -> Option<u32>
    ensures number { IfSome result (IsNumberWord word.now) }
    ensures none { IfNone result ((n : ℕ) → n < 2 ^ 32 → ¬ IsNumberWord word.now n) }
{
    u32::try_from(parse_number(word)?).ok()
}

/// How the owner of a page is found, by its word.
fn parse_manager(word: &str) -> Option<Named>
    ensures named { IfSome result (λ n. IsManagerWord word.now n.steady n.kind) }
    ensures none { IfNone result ((steady : Bool) (kind : Kind) → ¬ IsManagerWord word.now steady kind) }
{
    match word {
        "fixed" => Some(Named {
            kind: Kind::Fixed,
            steady: false,
        }),
        "dynamic" => Some(Named {
            kind: Kind::Dynamic,
            steady: false,
        }),
        "steady" => Some(Named {
            kind: Kind::Dynamic,
            steady: true,
        }),
        _ => None,
    }
}

/// What these words say, of a node's number and of a configuration.
fn node_of(me: &str, nodes: &str, pages: &str, page_size: &str, manager: &str) -> Option<LogHead>
    ensures spelled { IfSome result (λ h. IsNumberWord me.now h.me × SpellsConfig nodes.now pages.now page_size.now manager.now h.steady h.config) }
    ensures none { IfNone result ((h : LogHead) → IsHead h → ¬ (IsNumberWord me.now h.me × SpellsConfig nodes.now pages.now page_size.now manager.now h.steady h.config)) }
{
    let manager = parse_manager(manager)?;
    Some(LogHead {
        me: parse_byte(me)?,
        config: Config {
            nodes: parse_byte(nodes)?,
            pages: parse_size(pages)?,
            page_size: parse_size(page_size)?,
            manager: manager.kind,
        },
        steady: manager.steady,
    })
}

/// What words say of a node's number, of a configuration and of a sum.
fn parse_node(words: &[&str]) -> Option<FirstLine>
    ensures spelled { IfSome result (λ f. SpellsNode (map (λ w. w.now) words.now) f.head f.sum) }
    ensures none { IfNone result ((h : LogHead) (sum : Option ℕ) → IsHead h → ¬ SpellsNode (map (λ w. w.now) words.now) h sum) }
{
    match *words {
        [me, nodes, pages, page_size, manager] => {
            let head = node_of(me, nodes, pages, page_size, manager)?;
            Some(FirstLine { head, sum: None })
        }
        [me, nodes, pages, page_size, manager, sum] => {
            let head = node_of(me, nodes, pages, page_size, manager)?;
            let sum = parse_number(sum)?;
            Some(FirstLine {
                head,
                sum: Some(sum),
            })
        }
        _ => None,
    }
}

/// What words say, where the first is the one of this kind and the others are a node's. Own code has no sum.
fn parse_named(kind: LogKind, words: &[&str]) -> Option<FirstLine>
    ensures spelled { IfSome result (λ f. MayHaveSum kind f.sum × BeginsWith (log_word kind) (λ rest. SpellsNode rest f.head f.sum) (map (λ w. w.now) words.now)) }
    ensures none { IfNone result ((h : LogHead) (sum : Option ℕ) → IsHead h → MayHaveSum kind sum → ¬ BeginsWith (log_word kind) (λ rest. SpellsNode rest h sum) (map (λ w. w.now) words.now)) }
{
    let (word, rest) = words.split_first()?;
    if *word != kind.word() {
        return None;
    }
    let first = parse_node(rest)?;
    match kind {
        LogKind::OfOwnCode if first.sum.is_some() => None,
        _ => Some(first),
    }
}

/// What the words of a first line say, where they are one of a log of this kind.
fn parse_head(kind: LogKind, words: &[&str]) -> Option<FirstLine>
    ensures spelled { IfSome result (λ f. SpellsFirst kind (map (λ w. w.now) words.now) f.head f.sum) }
    ensures none { IfNone result ((h : LogHead) → IsHead h → ¬ SpellsHead kind (map (λ w. w.now) words.now) h) }
{
    match words.split_first() {
        Some((&"ivy", rest)) => parse_named(kind, rest),
        _ => None,
    }
}

/// What the first line of a log of this kind says, or none where it is no such line.
fn head_of(kind: LogKind, line: &str) -> Option<FirstLine>
    ensures spelled { IfSome result (λ f. SpellsFirst kind (words_of line.now) f.head f.sum) }
    ensures none { IfNone result ((h : LogHead) → IsHead h → ¬ SpellsHead kind (words_of line.now) h) }
{
    let mut places = [""; MOST_WORDS];
    let count = few_words(line, &mut places)?;
    parse_head(kind, &places[..count])
}

/// The whole lines of a text, without the last LF: what stands behind it is none.
fn whole_lines(text: &str) -> &str
    ensures { HasWholeLines text.now result.now }
{
    match text.rsplit_once('\n') {
        Some((whole, _torn)) => whole,
        None => "",
    }
}

/// The entries of lines, in order, and the line of each, where the first of them is the second one of its text [1, 20].
fn parse_entries<A: Allocator + Copy>(
    alloc: A,
    kind: LogKind,
    text: &str,
) -> Result<(Vec<LogEntry<Bytes<A>>, A>, Vec<u64, A>), Fault>
    ensures entries { IfOk result (λ r. AllZip (SpellsIn kind) (worded (lines text.now)) r.0.items) }
    ensures refused { IfErr result (IsFaultAmong kind (lines text.now)) }
{
    let mut entries = Vec::new(alloc);
    let mut numbers = Vec::new(alloc);
    for (before, line) in text.lines().enumerate() {
        let number = before as u64 + 2;
        let mut places = [""; MOST_WORDS];
        let Some(count) = few_words(line, &mut places) else {
            return Err(Fault::ProgramFault(number));
        };
        let words = &places[..count];
        if words.is_empty() {
            continue;
        }
        let Some(entry) = parse_entry(alloc, kind, words)? else {
            return Err(Fault::ProgramFault(number));
        };
        entries.push(entry)?;
        numbers.push(number)?;
    }
    Ok((entries, numbers))
}

/// The log of this kind of a text. A last line that lacks its LF is ignored.
///
/// 1 where a growth was refused, and 20 with the first line that is none of such a log, counted from 1.
pub fn parse_log<A: Allocator + Copy>(alloc: A, kind: LogKind, text: &str) -> Result<Log<A>, Fault>
    ensures log { IfOk result (λ log. SpellsLog kind text.now log.head log.entries.items) }
    ensures sum { IfOk result (λ log. HasSum kind text.now log.head log.sum) }
    ensures refused { IfErr result (IsFaultOfLog kind text.now) }
{
    let Some((first, rest)) = text.split_once('\n') else {
        return Err(Fault::ProgramFault(1));
    };
    let Some(said) = head_of(kind, first) else {
        return Err(Fault::ProgramFault(1));
    };
    let (entries, lines) = parse_entries(alloc, kind, whole_lines(rest))?;
    Ok(Log {
        head: said.head,
        sum: said.sum,
        entries,
        lines,
    })
}
