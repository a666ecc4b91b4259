//! Orders: the records of all nodes as one list, one a line.
ghost use Rattle.std.specs.Prelude.{◌≡◌, ◌<◌, ◌^◌, ℕ, [], ◌∷◌, IfOk, IfErr, IfNone, IfSome, Some, codes, map, slice_get};
ghost use Rattle.ivy_model.specs.declared.Call.{Call};
ghost use Rattle.ivy_model.specs.stated.Legal.{HasWidth, IsWidth};
ghost use Rattle.ivy_program.specs.texts.Lines.{IsNumberWord};
ghost use Rattle.ivy_program.specs.texts.Texts.{IsRefusal};
ghost use Rattle.ivy_texts.specs.Spelled.{SpellsCall, SpellsOrder, SpellsRecord, SpellsReply, SpellsSizes};

use ivy_model::{Call, Fault, Record, Reply};
use ivy_program::{few_words, parse_number};
use std::alloc::Allocator;

/// The most words that a line of an order can have.
const MOST_WORDS: usize = 9;

/// The sizes that the first line of an order names.
#[derive(Clone, Copy, Debug, PartialEq, Eq)]
pub struct Sizes {
    /// How many nodes there are.
    pub nodes: u64,
    /// How many pages there are.
    pub pages: u64,
    /// Bytes of a page.
    pub page_size: u64,
}

/// An order as its text gives it: sizes, which may be out of their limits, and records.
#[derive(Drop)]
pub struct Order<A: Allocator> {
    pub sizes: Sizes,
    pub records: Vec<Record, A>,
}

/// The sizes of a first line, where its words are one.
fn parse_sizes(words: &[&str]) -> Option<Sizes>
    ensures { IfSome result (SpellsSizes (map (λ w. w.now) words.now)) }
{
    match *words {
        ["ivy", "order", nodes, pages, page_size] => Some(Sizes {
            nodes: parse_number(nodes)?,
            pages: parse_number(pages)?,
            page_size: parse_number(page_size)?,
        }),
        _ => None,
    }
}

/// The number that a word spells, where it is one of a byte.
pub fn parse_byte(word: &str) -> Option<u8>
    ensures number { IfSome result (IsNumberWord word.now) }
    ensures none { IfNone result ((n : ℕ) → n < 2 ^ 8 → ¬ IsNumberWord word.now n) }
{
    u8::try_from(parse_number(word)?).ok()
}

fn parse_width(word: &str) -> Option<u8>
    ensures number { IfSome result (IsNumberWord word.now) }
    ensures width { IfSome result IsWidth }
    ensures none { IfNone result ((n : ℕ) → IsWidth n → ¬ IsNumberWord word.now n) }
{
    let width = parse_byte(word)?;
    [1, 2, 4, 8].contains(&width).then_some(width)
}

/// The call of a keyword and one word.
fn parse_unary(keyword: &str, number: &str) -> Option<Call>
    ensures spelled { IfSome result (SpellsCall (keyword.now ∷ number.now ∷ [])) }
    ensures width { IfSome result HasWidth }
    ensures none { IfNone result ((c : Call) → HasWidth c → ¬ SpellsCall (keyword.now ∷ number.now ∷ []) c) }
{
    let number = parse_number(number)?;
    match keyword {
        "count" => Some(Call::Count { k: number }),
        "advance" => Some(Call::Advance { k: number }),
        "alloc" => Some(Call::Alloc { size: number }),
        "free" => Some(Call::Free { addr: number }),
        _ => None,
    }
}

/// The call of a keyword and two words.
fn parse_binary(keyword: &str, first: &str, second: &str) -> Option<Call>
    ensures spelled { IfSome result (SpellsCall (keyword.now ∷ first.now ∷ second.now ∷ [])) }
    ensures width { IfSome result HasWidth }
    ensures none { IfNone result ((c : Call) → HasWidth c → ¬ SpellsCall (keyword.now ∷ first.now ∷ second.now ∷ []) c) }
{
    let last = parse_number(second)?;
    match keyword {
        "load" => Some(Call::Load {
            width: parse_width(first)?,
            addr: last,
        }),
        "await" => Some(Call::Await {
            k: parse_number(first)?,
            least: last,
        }),
        _ => None,
    }
}

/// The call of a keyword and three words: a width, an address and a value.
fn parse_ternary(keyword: &str, width: &str, addr: &str, value: &str) -> Option<Call>
    ensures spelled { IfSome result (SpellsCall (keyword.now ∷ width.now ∷ addr.now ∷ value.now ∷ [])) }
    ensures width { IfSome result HasWidth }
    ensures none { IfNone result ((c : Call) → HasWidth c → ¬ SpellsCall (keyword.now ∷ width.now ∷ addr.now ∷ value.now ∷ []) c) }
{
    let width = parse_width(width)?;
    let addr = parse_number(addr)?;
    let value = parse_number(value)?;
    match keyword {
        "store" => Some(Call::Store { width, addr, value }),
        "swap" => Some(Call::Swap { width, addr, value }),
        "fadd" => Some(Call::FetchAdd { width, addr, value }),
        _ => None,
    }
}

/// The call of a keyword and four words: a width, an address, an expected value and a new one.
fn parse_quaternary(
    keyword: &str,
    width: &str,
    addr: &str,
    expected: &str,
    value: &str,
) -> Option<Call>
    ensures spelled { IfSome result (SpellsCall (keyword.now ∷ width.now ∷ addr.now ∷ expected.now ∷ value.now ∷ [])) }
    ensures width { IfSome result HasWidth }
    ensures none { IfNone result ((c : Call) → HasWidth c → ¬ SpellsCall (keyword.now ∷ width.now ∷ addr.now ∷ expected.now ∷ value.now ∷ []) c) }
{
    match keyword {
        "cas" => Some(Call::Cas {
            width: parse_width(width)?,
            addr: parse_number(addr)?,
            expected: parse_number(expected)?,
            value: parse_number(value)?,
        }),
        _ => None,
    }
}

/// The call that words name, as in a record of an order, where they are one. Its width is 1, 2, 4 or 8.
pub fn parse_call(words: &[&str]) -> Option<Call>
    ensures spelled { IfSome result (SpellsCall (map (λ w. w.now) words.now)) }
    ensures width { IfSome result HasWidth }
    ensures none { IfNone result ((c : Call) → HasWidth c → ¬ SpellsCall (map (λ w. w.now) words.now) c) }
{
    match *words {
        [keyword, number] => parse_unary(keyword, number),
        [keyword, first, second] => parse_binary(keyword, first, second),
        [keyword, width, addr, value] => parse_ternary(keyword, width, addr, value),
        [keyword, width, addr, expected, value] => {
            parse_quaternary(keyword, width, addr, expected, value)
        }
        _ => None,
    }
}

/// The reply that words name, where they are one.
fn parse_reply(words: &[&str]) -> Option<Reply>
    ensures { IfSome result (SpellsReply (map (λ w. w.now) words.now)) }
{
    match *words {
        ["value", value] => Some(Reply::Value(parse_number(value)?)),
        ["done"] => Some(Reply::Done),
        ["refused", code] => Some(Reply::Refused(parse_byte(code)?)),
        _ => None,
    }
}

/// Where the first equals sign stands among words.
fn equals_in(words: &[&str]) -> Option<usize>
    ensures { IfSome result (λ at. slice_get (map (λ w. w.now) words.now) at ≡ Some (codes "=")) }
{
    for at in 0..words.len() {
        if words[at] == "=" {
            return Some(at);
        }
    }
    None
}

/// The record of a line, where its words are one: a node, its call, `=` and the reply.
fn parse_record(words: &[&str]) -> Option<Record>
    ensures { IfSome result (SpellsRecord (map (λ w. w.now) words.now)) }
{
    let (node, said) = words.split_first()?;
    let equals = equals_in(said)?;
    Some(Record {
        node: parse_byte(node)?,
        call: parse_call(&said[..equals])?,
        reply: parse_reply(&said[equals + 1..])?,
    })
}

/// The order of a text: first a line `ivy order N P S` of nodes, pages and bytes of a page, then a
/// line `NODE CALL = REPLY` for each record.
///
/// 1 where a growth was refused, and 20 with the first line that is none of these, counted from 1,
/// or with line 1 where there is no first line.
pub fn parse_order<A: Allocator + Copy>(alloc: A, text: &str) -> Result<Order<A>, Fault>
    ensures spelled { IfOk result (λ order. SpellsOrder text.now order.sizes order.records.items) }
    ensures refused { IfErr result IsRefusal }
{
    let mut sizes = None;
    let mut records = Vec::new(alloc);
    for (before, line) in text.lines().enumerate() {
        let fault = Fault::ProgramFault(before as u64 + 1);
        let mut places = [""; MOST_WORDS];
        let Some(count) = few_words(line, &mut places) else {
            return Err(fault);
        };
        let words = &places[..count];
        if words.is_empty() {
            continue;
        }
        if sizes.is_none() {
            let Some(first) = parse_sizes(words) else {
                return Err(fault);
            };
            sizes = Some(first);
            continue;
        }
        let Some(said) = parse_record(words) else {
            return Err(fault);
        };
        records.push(said)?;
    }
    match sizes {
        Some(sizes) => Ok(Order { sizes, records }),
        None => Err(Fault::ProgramFault(1)),
    }
}
