//! Lines by which nodes tell one another the sum of their run.
ghost use Rattle.std.specs.Prelude.{◌≡◌, ◌++◌, map, IfNone, IfSome, OnOk, string_bytes};
ghost use Rattle.ivy_program.specs.texts.TextWords.{words_of};
ghost use Rattle.ivy_logs.specs.Printed.{sum_line};
ghost use Rattle.ivy_logs.specs.Spelled.{SpellsSumLine};
ghost use Rattle.ivy_logs.specs.declared.sum_line.SumLine.{SumLine};

use ivy_program::{few_words, parse_number};
use ivy_texts::Decimal;
use std::alloc::{AllocError, Allocator};
use std::fmt::Write;

/// A line by which a node tells another one the sum of its run.
#[derive(Clone, Copy, Debug, PartialEq, Eq)]
pub struct SumLine {
    /// The node that the line is for.
    pub to: u64,
    /// The node that tells.
    pub from: u64,
    /// The sum of its run.
    pub sum: u64,
}

/// What the words of such a line say.
fn parse_words(words: &[&str]) -> Option<SumLine>
    ensures spelled { IfSome result (λ s. SpellsSumLine (map (λ w. w.now) words.now) s) }
    ensures none { IfNone result ((s : SumLine) → ¬ SpellsSumLine (map (λ w. w.now) words.now) s) }
{
    match *words {
        [to, "sum", from, sum] => Some(SumLine {
            to: parse_number(to)?,
            from: parse_number(from)?,
            sum: parse_number(sum)?,
        }),
        _ => None,
    }
}

/// What a line `TO sum I SUM` tells, or none where it is no such line.
pub fn parse_sum_line(line: &str) -> Option<SumLine>
    ensures spelled { IfSome result (λ s. SpellsSumLine (words_of line.now) s) }
    ensures none { IfNone result ((s : SumLine) → ¬ SpellsSumLine (words_of line.now) s) }
{
    let mut places = [""; 4];
    let count = few_words(line, &mut places)?;
    parse_words(&places[..count])
}

/// Writes such a line behind a text. Err only where the allocator has no memory.
pub fn push_sum_line<A: Allocator>(text: &mut String<A>, line: SumLine) -> Result<(), AllocError>
    ensures { OnOk result (string_bytes text.new ≡ string_bytes text.old ++ sum_line line) }
{
    let (to, from, sum) = (Decimal(line.to), Decimal(line.from), Decimal(line.sum));
    writeln!(text, "{to} sum {from} {sum}")
}
